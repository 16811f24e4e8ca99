//! Explanations of a witness that doesn't fit its transcript.

use kmipa_msgs::{Outside, OutsideKind, Status};

/// Why a witness doesn't fit its transcript.
#[derive(Drop)]
pub struct WitnessExplanation {
    /// The faulty turn, counted from 1; none where a call is left out.
    pub turn: Option<usize>,
    /// The number of the call: the one that the turn names, or the one that is left out.
    pub call: i32,
    /// The client of the call, as its begin mark names it; none where the transcript has no such call.
    pub client: Option<String>,
    /// What is wrong.
    pub unfit: Unfit,
}

/// What is wrong with a turn; or that there is none.
#[derive(Drop)]
pub enum Unfit {
    /// Of `UnknownCall`: how many calls the transcript has, none of them with the number.
    Unknown(usize),
    /// Of `Twice`: the first turn that names the call, counted from 1.
    Twice(usize),
    /// Of `LeftOut`: the operations that the call asks for, item by item, by their numbers. It has ended, and no turn names it.
    LeftOut(Vec<u32>),
    /// Of `AnswerNotWanted`: the call has ended.
    Ended,
    /// Of `AnswerMissing`: the call has not ended.
    Open,
    /// Of `AnswerForm`: where the answer is outside the profile.
    Answer(Outside),
    /// Of `MomentForm`: the moment, and the Time Stamp that it isn't near.
    Untimely(FarMoment),
    /// Of `OrderNotWanted`: the places, and why none are wanted.
    Ordered(Ordered),
    /// Of `OrderForm`: the places, and what is wrong with them.
    Disordered(Disorder),
    /// Of `FillNotWanted`: the first fill that isn't wanted.
    FillUnwanted(UnwantedPart),
    /// Of `FillMissing`: the first item whose payload is wanted, and that has no fill.
    FillMissing(MissingFill),
    /// Of `FillForm`: the first fill that isn't of the form of the payload that it is for.
    FillFormless(FormlessFill),
    /// Of `BirthNotWanted`: the first birth that isn't wanted.
    BirthUnwanted(UnwantedPart),
    /// Of `BirthForm`: the first birth that gives no attributes that the server itself may give.
    BirthFormless(FormlessBirth),
    /// Of `AsideForm`: the first item that the turn sets aside.
    Aside(i32),
}

/// A moment that a turn gives, and that isn't near the Time Stamp of its call's response.
#[derive(Clone, Copy, PartialEq, Eq)]
pub struct FarMoment {
    /// The moment, in seconds since 1970.
    pub moment: i64,
    /// The Time Stamp, in seconds since 1970.
    pub stamp: i64,
    /// How many seconds the two may be apart.
    pub tolerance: i32,
}

/// Places that a turn gives, where none are wanted.
#[derive(Drop)]
pub struct Ordered {
    /// The places, as the turn gives them.
    pub places: Vec<i32>,
    pub why: OrderTold,
}

/// Why a call wants no places.
#[derive(Clone, Copy, PartialEq, Eq)]
pub enum OrderTold {
    /// The response refuses the message as a whole.
    Refused,
    /// The request has so many items, fewer than two.
    Few(usize),
    /// Its Batch Order Option isn't False.
    InOrder,
}

/// Places that a turn gives, and that are no order of the answered items.
#[derive(Drop)]
pub struct Disorder {
    /// The places, as the turn gives them.
    pub places: Vec<i32>,
    /// How many items of the call are answered: those from 1 to this one.
    pub answered: usize,
    pub wrong: Wrong,
}

/// What is wrong with places.
#[derive(Clone, Copy, PartialEq, Eq)]
pub enum Wrong {
    /// This number stands there, and is that of no item that is answered.
    Unanswered(i32),
    /// This number stands there twice.
    Twice(i32),
    /// This item is answered, and doesn't stand there.
    LeftOut(usize),
    /// This item is the first that failed, which ended the batch, and it doesn't stand last.
    NotLast(usize),
}

/// The parts of a turn that name an item.
#[derive(Clone, Copy, PartialEq, Eq)]
pub enum Part {
    /// The payload that its answer leaves out.
    Fill,
    /// Attributes that the server itself gives the object that it makes.
    Birth,
}

/// A fill or a birth that isn't wanted.
#[derive(Clone, Copy, PartialEq, Eq)]
pub struct UnwantedPart {
    /// Which of the turn's fills, or of its births, it is, counted from 1.
    pub number: usize,
    /// The number of the item that it names.
    pub item: i32,
    pub why: Unwanted,
}

/// Why a fill or a birth isn't wanted.
#[derive(Clone, Copy, PartialEq, Eq)]
pub enum Unwanted {
    /// The call has no such item that is answered; the answered ones are those from 1 to this one.
    Unanswered(usize),
    /// The item's answer has another status: for a fill than Undone, for a birth than Success and Undone.
    Status(Status),
    /// The item's answer has its payload. It is so of a fill alone.
    Present,
    /// The item asks for an operation whose payload is never wanted, or that makes no object: its number.
    Needless(u32),
    /// The item asks for one operation, and the answer names another: their numbers.
    Operations(u32, u32),
    /// An earlier fill, or birth, names the same item: which one, counted from 1.
    Second(usize),
}

/// A birth that gives no attributes that the server itself may give: it has none, or one with a fault, or one for which there is no own line.
#[derive(Clone, Copy, PartialEq, Eq)]
pub struct FormlessBirth {
    /// Which of the turn's births it is, counted from 1.
    pub birth: usize,
    /// The number of the item that it names.
    pub item: i32,
}

/// An item whose payload is wanted, and that has no fill.
#[derive(Clone, Copy, PartialEq, Eq)]
pub struct MissingFill {
    /// The item, counted from 1.
    pub item: usize,
    /// The operation that it asks for, by its number.
    pub operation: u32,
}

/// A fill that isn't of the form of the payload that it is for.
#[derive(Clone, Copy, PartialEq, Eq)]
pub struct FormlessFill {
    /// Which of the turn's fills it is, counted from 1.
    pub fill: usize,
    /// The item that it names, counted from 1.
    pub item: usize,
    /// The operation that the item asks for, by its number.
    pub operation: u32,
    /// Why the fill isn't a Response Payload of this operation.
    pub kind: OutsideKind,
}

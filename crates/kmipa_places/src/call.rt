//! What a call is.

use crate::place::Place;
use kmipa_msgs::BatchOption;
use kmipa_passed::{Outcome, SetAside};

/// A call, as its request and its response say it.
#[derive(Drop)]
pub enum Call<'a> {
    /// It can't be read, and leaves this.
    Unread(SetAside<'a>),
    Read(Readable<'a>),
}

/// A call that can be read.
#[derive(Drop)]
pub struct Readable<'a> {
    /// What a failed item means for the others.
    pub option: BatchOption,
    /// Whether the items are to be taken in their order: Batch Order Option.
    pub ordered: bool,
    /// Whether an answer may still be to come: Asynchronous Indicator.
    pub pending: bool,
    /// Time Stamp of the response, in seconds since 1970-01-01T00:00:00Z.
    pub stamp: i64,
    /// How many items the request has, at least one.
    pub asks: usize,
    /// How each item of the response answers, at least one.
    pub outcomes: Vec<Outcome>,
    /// Whether the response refuses the whole message.
    pub refused: bool,
    /// Each item of the request that has an answer.
    pub places: Vec<Place<'a>>,
}

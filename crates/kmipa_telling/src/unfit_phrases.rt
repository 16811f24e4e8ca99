//! What a turn gives that doesn't fit its call, on lines, and what is wanted.

ghost use Rattle.std.specs.Prelude.{◌≡◌, IfOk, flat_map, string_bytes, take};
ghost use Rattle.kmipa_telling.specs.Phrases.{numbered};
ghost use Rattle.kmipa_telling.specs.UnfitPhrases.{answer_line, answered_line, birth_wanted_text, disorder_lines, fill_wanted_text, formless_lines, item_line, moment_line, moment_lines, needless_text, order_lines, order_wanted_text, order_why_line, part_line, part_name, places_line, stamp_line, tolerance_line, unwanted_lines, wanted_text, wrong_line};

use crate::causes::status_text;
use crate::phrases::{MOST, more_text, numbers_text, operation_text};
use kmipa_msgs::Outside;
use kmipa_unfit::{
    Disorder, FarMoment, FormlessFill, OrderTold, Ordered, Part, Unfit, Unwanted, Wrong,
};
use std::alloc::{AllocError, Global};

/// Where an answer is outside.
pub fn answer_line(alloc: Global, outside: Outside) -> Result<String, AllocError>
    ensures { IfOk result (λ text. string_bytes text ≡ answer_line outside) }
{
    let item = outside.item;
    let number = outside.kind.number();
    let name = outside.kind.name();
    format!(in alloc; "answer: outside at item {item} kind {number} {name}\n")
}

// ---- places

/// The places, at most twenty, and how many more there are.
fn places_line(alloc: Global, numbers: &[i32]) -> Result<String, AllocError>
    ensures { IfOk result (λ text. string_bytes text ≡ places_line numbers.now) }
{
    let told = first_numbers(alloc, numbers)?;
    let more = more_text(alloc, numbers.len())?;
    format!(in alloc; "places:{told}{more}\n")
}

fn first_numbers(alloc: Global, numbers: &[i32]) -> Result<String, AllocError>
    ensures { IfOk result (λ text. string_bytes text ≡ flat_map numbered (take 20 numbers.now)) }
{
    numbers_text(alloc, &numbers[..MOST.min(numbers.len())])
}

/// The places, and why none are wanted.
pub fn order_lines(alloc: Global, ordered: &Ordered) -> Result<String, AllocError>
    ensures { IfOk result (λ text. string_bytes text ≡ order_lines ordered.now) }
{
    let places = places_line(alloc, &ordered.places)?;
    let why = order_why_line(alloc, ordered.why)?;
    format!(in alloc; "{places}{why}")
}

fn order_why_line(alloc: Global, why: OrderTold) -> Result<String, AllocError>
    ensures { IfOk result (λ text. string_bytes text ≡ order_why_line why) }
{
    match why {
        OrderTold::Refused => String::from_str(alloc, "answered: the whole message is refused\n"),
        OrderTold::Few(items) => format!(in alloc; "items: {items}\n"),
        OrderTold::InOrder => String::from_str(alloc, "Batch Order Option: not False\n"),
    }
}

/// The places, which items are answered, and what is wrong.
pub fn disorder_lines(alloc: Global, disorder: &Disorder) -> Result<String, AllocError>
    ensures { IfOk result (λ text. string_bytes text ≡ disorder_lines disorder.now) }
{
    let places = places_line(alloc, &disorder.places)?;
    let answered = answered_line(alloc, disorder.answered)?;
    let wrong = wrong_line(alloc, disorder.wrong)?;
    format!(in alloc; "{places}{answered}{wrong}")
}

/// Which items are answered: those from 1 to this one.
fn answered_line(alloc: Global, answered: usize) -> Result<String, AllocError>
    ensures { IfOk result (λ text. string_bytes text ≡ answered_line answered) }
{
    match answered {
        0 => String::from_str(alloc, "answered: no item\n"),
        1 => String::from_str(alloc, "answered: item 1\n"),
        _ => format!(in alloc; "answered: items 1 to {answered}\n"),
    }
}

fn wrong_line(alloc: Global, wrong: Wrong) -> Result<String, AllocError>
    ensures { IfOk result (λ text. string_bytes text ≡ wrong_line wrong) }
{
    match wrong {
        Wrong::Unanswered(place) => {
            format!(in alloc; "wrong: place {place}, of no answered item\n")
        }
        Wrong::Twice(place) => format!(in alloc; "wrong: place {place}, twice\n"),
        Wrong::LeftOut(item) => format!(in alloc; "wrong: item {item}, left out\n"),
        Wrong::NotLast(item) => {
            format!(in alloc; "wrong: item {item}, the first that failed, not last\n")
        }
    }
}

// ---- moments

/// A moment, the Time Stamp, and how far they may be apart.
pub fn moment_lines(alloc: Global, far: FarMoment) -> Result<String, AllocError>
    ensures { IfOk result (λ text. string_bytes text ≡ moment_lines far) }
{
    let moment = moment_line(alloc, far.moment)?;
    let stamp = stamp_line(alloc, far.stamp)?;
    let tolerance = tolerance_line(alloc, far.tolerance)?;
    format!(in alloc; "{moment}{stamp}{tolerance}")
}

fn moment_line(alloc: Global, moment: i64) -> Result<String, AllocError>
    ensures { IfOk result (λ text. string_bytes text ≡ moment_line moment) }
{
    format!(in alloc; "moment: {moment} seconds since 1970\n")
}

fn stamp_line(alloc: Global, stamp: i64) -> Result<String, AllocError>
    ensures { IfOk result (λ text. string_bytes text ≡ stamp_line stamp) }
{
    format!(in alloc; "Time Stamp: {stamp} seconds since 1970\n")
}

fn tolerance_line(alloc: Global, tolerance: i32) -> Result<String, AllocError>
    ensures { IfOk result (λ text. string_bytes text ≡ tolerance_line tolerance) }
{
    format!(in alloc; "tolerance: {tolerance} seconds\n")
}

// ---- fills and births

fn part_name(part: Part) -> &'static str
    ensures { result.now ≡ part_name part }
{
    match part {
        Part::Fill => "fill",
        Part::Birth => "birth",
    }
}

/// Which fill or birth it is, and for which item.
pub fn part_line(alloc: Global, part: Part, number: usize, item: i32) -> Result<String, AllocError>
    ensures { IfOk result (λ text. string_bytes text ≡ part_line part number item) }
{
    let name = part_name(part);
    format!(in alloc; "{name}: {number}, for item {item}\n")
}

fn needless_text(part: Part) -> &'static str
    ensures { result.now ≡ needless_text part }
{
    match part {
        Part::Fill => "whose payload is never wanted",
        Part::Birth => "which makes no object",
    }
}

/// Which item it is.
pub fn item_line(alloc: Global, item: usize) -> Result<String, AllocError>
    ensures { IfOk result (λ text. string_bytes text ≡ item_line item) }
{
    format!(in alloc; "item: {item}\n")
}

/// Why a fill or a birth isn't wanted.
pub fn unwanted_lines(alloc: Global, part: Part, why: Unwanted) -> Result<String, AllocError>
    ensures { IfOk result (λ text. string_bytes text ≡ unwanted_lines part why) }
{
    match why {
        Unwanted::Unanswered(answered) => answered_line(alloc, answered),
        Unwanted::Status(status) => {
            let name = status_text(status);
            format!(in alloc; "status: {name}\n")
        }
        Unwanted::Present => String::from_str(alloc, "payload: there\n"),
        Unwanted::Needless(number) => {
            let operation = operation_text(alloc, number)?;
            let needless = needless_text(part);
            format!(in alloc; "operation: {operation}, {needless}\n")
        }
        Unwanted::Operations(asked, answered) => {
            let one = operation_text(alloc, asked)?;
            let other = operation_text(alloc, answered)?;
            format!(in alloc; "asked: {one}\nanswered: {other}\n")
        }
        Unwanted::Second(number) => {
            let name = part_name(part);
            format!(in alloc; "named before: {name} {number}\n")
        }
    }
}

/// Which fill isn't of its form, and why.
pub fn formless_lines(alloc: Global, formless: FormlessFill) -> Result<String, AllocError>
    ensures { IfOk result (λ text. string_bytes text ≡ formless_lines formless) }
{
    let fill = formless.fill;
    let item = formless.item;
    let operation = operation_text(alloc, formless.operation)?;
    let number = formless.kind.number();
    let name = formless.kind.name();
    format!(in alloc;
        "fill: {fill}, for item {item}\noperation: {operation}\npayload: outside kind {number} {name}\n"
    )
}

// ---- what is wanted

/// What is wanted in place of what doesn't fit.
pub fn wanted_text(unfit: &Unfit) -> &'static str
    ensures { result.now ≡ wanted_text unfit.now }
{
    match unfit {
        Unfit::Unknown(_) => "the number of a call of the transcript",
        Unfit::Twice(_) => "one turn for a call",
        Unfit::LeftOut(_) => "a turn, since the call has ended",
        Unfit::Ended => "no answer, since the call has ended",
        Unfit::Open => "an answer, since the call has not ended",
        Unfit::Answer(_) => "an answer that is not outside",
        Unfit::Ordered(_) => "no places",
        Unfit::Disordered(disorder) => order_wanted_text(disorder.wrong),
        Unfit::FillUnwanted(unwanted) => fill_wanted_text(unwanted.why),
        Unfit::FillMissing(_) => "a fill with the item's Response Payload",
        Unfit::FillFormless(_) => "a Response Payload of this operation",
        Unfit::Untimely(_) => "a moment within the tolerance",
        Unfit::BirthUnwanted(unwanted) => birth_wanted_text(unwanted.why),
        Unfit::BirthFormless(_) => "a birth of attributes that the server itself may give",
        Unfit::Aside(_) => "no item that is set aside",
    }
}

fn order_wanted_text(wrong: Wrong) -> &'static str
    ensures { result.now ≡ order_wanted_text wrong }
{
    match wrong {
        Wrong::NotLast(_) => "the first failed item last",
        _ => "each answered item once",
    }
}

fn fill_wanted_text(why: Unwanted) -> &'static str
    ensures { result.now ≡ fill_wanted_text why }
{
    match why {
        Unwanted::Second(_) => "one fill for an item",
        _ => "no fill for this item",
    }
}

fn birth_wanted_text(why: Unwanted) -> &'static str
    ensures { result.now ≡ birth_wanted_text why }
{
    match why {
        Unwanted::Second(_) => "one birth for an item",
        _ => "no birth for this item",
    }
}

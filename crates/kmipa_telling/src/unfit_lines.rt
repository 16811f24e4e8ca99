//! The lines of why a witness doesn't fit its transcript.

ghost use Rattle.std.specs.Prelude.{◌≡◌, IfOk, flat_map, string_bytes, take};
ghost use Rattle.kmipa_explain.specs.Meant.{text_of};
ghost use Rattle.kmipa_telling.specs.UnfitLines.{asked_line, asked_lines, birth_lines, client_line, fill_lines, given_lines, named_line, place_lines, stands_lines, turn_line, unfit_lines, unwanted_part_lines};

use crate::phrases::{MOST, more_line, operation_text};
use crate::unfit_phrases::{
    answer_line, disorder_lines, formless_lines, item_line, moment_lines, order_lines, part_line,
    unwanted_lines, wanted_text,
};
use kmipa_runs::quoted_text;
use kmipa_unfit::{Part, Unfit, UnwantedPart, WitnessExplanation};
use std::alloc::{AllocError, Global};

/// The client, the turn and its call, what stands there, and what is wanted.
pub fn unfit_text(alloc: Global, explanation: &WitnessExplanation) -> Result<String, AllocError>
    ensures { IfOk result (λ text. string_bytes text ≡ unfit_lines explanation.now) }
{
    let client = client_line(alloc, &explanation.client)?;
    let place = place_lines(alloc, explanation.turn, explanation.call)?;
    let stands = stands_lines(alloc, &explanation.unfit)?;
    let wanted = wanted_text(&explanation.unfit);
    format!(in alloc; "{client}{place}{stands}wanted: {wanted}\n")
}

/// The line of a client, where there is one.
fn client_line(alloc: Global, client: &Option<String>) -> Result<String, AllocError>
    ensures { IfOk result (λ text. string_bytes text ≡ client_line (text_of client.now)) }
{
    match client {
        Some(name) => {
            let quoted = quoted_text(alloc, name.as_str())?;
            format!(in alloc; "client: {quoted}\n")
        }
        None => Ok(String::new(alloc)),
    }
}

/// The lines of a turn and of the call that it names; or of a call that is left out.
fn place_lines(alloc: Global, turn: Option<usize>, call: i32) -> Result<String, AllocError>
    ensures { IfOk result (λ text. string_bytes text ≡ place_lines turn call) }
{
    match turn {
        Some(turn) => {
            let place = turn_line(alloc, turn)?;
            let named = named_line(alloc, call)?;
            format!(in alloc; "{place}{named}")
        }
        None => format!(in alloc; "left out: call {call}\n"),
    }
}

fn turn_line(alloc: Global, turn: usize) -> Result<String, AllocError>
    ensures { IfOk result (λ text. string_bytes text ≡ turn_line turn) }
{
    format!(in alloc; "turn: {turn}\n")
}

fn named_line(alloc: Global, call: i32) -> Result<String, AllocError>
    ensures { IfOk result (λ text. string_bytes text ≡ named_line call) }
{
    format!(in alloc; "names: call {call}\n")
}

/// The lines of what stands there.
fn stands_lines(alloc: Global, unfit: &Unfit) -> Result<String, AllocError>
    ensures { IfOk result (λ text. string_bytes text ≡ stands_lines unfit.now) }
{
    match unfit {
        Unfit::Unknown(count) => {
            let calls = *count;
            format!(in alloc; "calls: {calls}\n")
        }
        Unfit::Twice(turn) => {
            let earlier = *turn;
            format!(in alloc; "named before: turn {earlier}\n")
        }
        Unfit::LeftOut(operations) => asked_lines(alloc, operations),
        _ => given_lines(alloc, unfit),
    }
}

/// The lines of what a turn gives to its call.
fn given_lines(alloc: Global, unfit: &Unfit) -> Result<String, AllocError>
    ensures { IfOk result (λ text. string_bytes text ≡ given_lines unfit.now) }
{
    match unfit {
        Unfit::Ended => String::from_str(alloc, "answer: given\n"),
        Unfit::Open => String::from_str(alloc, "answer: none\n"),
        Unfit::Answer(outside) => answer_line(alloc, *outside),
        Unfit::Untimely(far) => moment_lines(alloc, *far),
        Unfit::Ordered(ordered) => order_lines(alloc, ordered),
        Unfit::Disordered(disorder) => disorder_lines(alloc, disorder),
        _ => fill_lines(alloc, unfit),
    }
}

/// The lines of a fill, or of an item without one.
fn fill_lines(alloc: Global, unfit: &Unfit) -> Result<String, AllocError>
    ensures { IfOk result (λ text. string_bytes text ≡ fill_lines unfit.now) }
{
    match unfit {
        Unfit::FillUnwanted(unwanted) => unwanted_part_lines(alloc, Part::Fill, *unwanted),
        Unfit::FillMissing(missing) => {
            let item = item_line(alloc, missing.item)?;
            let operation = asked_line(alloc, missing.operation)?;
            format!(in alloc; "{item}{operation}")
        }
        Unfit::FillFormless(formless) => formless_lines(alloc, *formless),
        _ => birth_lines(alloc, unfit),
    }
}

/// The lines of a birth, or of what is set aside.
fn birth_lines(alloc: Global, unfit: &Unfit) -> Result<String, AllocError>
    ensures { IfOk result (λ text. string_bytes text ≡ birth_lines unfit.now) }
{
    match unfit {
        Unfit::BirthUnwanted(unwanted) => unwanted_part_lines(alloc, Part::Birth, *unwanted),
        Unfit::BirthFormless(formless) => {
            part_line(alloc, Part::Birth, formless.birth, formless.item)
        }
        Unfit::Aside(item) => {
            let item = *item;
            format!(in alloc; "set aside: item {item}\n")
        }
        _ => Ok(String::new(alloc)),
    }
}

/// The lines of a fill or a birth that isn't wanted.
fn unwanted_part_lines(
    alloc: Global,
    part: Part,
    unwanted: UnwantedPart,
) -> Result<String, AllocError>
    ensures { IfOk result (λ text. string_bytes text ≡ unwanted_part_lines part unwanted) }
{
    let named = part_line(alloc, part, unwanted.number, unwanted.item)?;
    let why = unwanted_lines(alloc, part, unwanted.why)?;
    format!(in alloc; "{named}{why}")
}

/// The lines of the operations that a call asks for, at most twenty, and how many more there are.
fn asked_lines(alloc: Global, operations: &[u32]) -> Result<String, AllocError>
    ensures { IfOk result (λ text. string_bytes text ≡ asked_lines operations.now) }
{
    let told = twenty_lines(alloc, operations)?;
    let more = more_line(alloc, "operation", operations.len())?;
    format!(in alloc; "{told}{more}")
}

fn twenty_lines(alloc: Global, operations: &[u32]) -> Result<String, AllocError>
    ensures { IfOk result (λ text. string_bytes text ≡ flat_map asked_line (take 20 operations.now)) }
{
    first_lines(alloc, &operations[..MOST.min(operations.len())])
}

fn first_lines(alloc: Global, operations: &[u32]) -> Result<String, AllocError>
    ensures { IfOk result (λ text. string_bytes text ≡ flat_map asked_line operations.now) }
{
    let mut text = String::new(alloc);
    'operations: for operation in operations {
        let one = asked_line(alloc, *operation)?;
        text.push_str(one.as_str())?;
    }
    Ok(text)
}

/// The line of an operation that is asked for.
pub fn asked_line(alloc: Global, operation: u32) -> Result<String, AllocError>
    ensures { IfOk result (λ text. string_bytes text ≡ asked_line operation) }
{
    let name = operation_text(alloc, operation)?;
    format!(in alloc; "operation: {name}\n")
}

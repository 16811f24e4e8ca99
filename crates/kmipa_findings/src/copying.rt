//! Copies of turns.

ghost use Rattle.std.specs.Prelude.{◌≡◌, IfOk, map, option_map};
ghost use Rattle.kmipa_record.specs.Entries.{items_of};
ghost use Rattle.kmipa_record.specs.Witnesses.{birth_of, fill_of, turn_of};

use kmipa_record::{Birth, Fill, Turn};
use kmipa_ttlv::{copy_item, lend};
use std::alloc::{AllocError, Global};

/// Equal turns.
pub(crate) fn copied_turns(alloc: Global, turns: &[Turn]) -> Result<Vec<Turn>, AllocError>
    ensures { IfOk result (λ copies. map turn_of copies.items ≡ map turn_of turns.now) }
{
    let mut copies = Vec::with_capacity(alloc, turns.len())?;
    'turns: for turn in turns {
        copies.push(copied_turn(alloc, turn)?)?;
    }
    Ok(copies)
}

/// An equal turn.
pub fn copied_turn(alloc: Global, turn: &Turn) -> Result<Turn, AllocError>
    ensures { IfOk result (λ copy. turn_of copy ≡ turn_of turn.now) }
{
    let answer = copied_answer(alloc, &turn.answer)?;
    let places = Vec::from_slice(alloc, &turn.places)?;
    let fills = copied_fills(alloc, &turn.fills)?;
    let births = copied_births(alloc, &turn.births)?;
    let asides = Vec::from_slice(alloc, &turn.asides)?;
    Ok(Turn {
        call: turn.call,
        answer,
        places,
        moment: turn.moment,
        fills,
        births,
        asides,
    })
}

/// An equal answer, where there is one.
fn copied_answer(alloc: Global, answer: &Option<Vec<u8>>) -> Result<Option<Vec<u8>>, AllocError>
    ensures { IfOk result (λ copy. option_map items_of copy ≡ option_map items_of answer.now) }
{
    match answer {
        Some(bytes) => Ok(Some(Vec::from_slice(alloc, bytes)?)),
        None => Ok(None),
    }
}

/// Equal fills.
fn copied_fills(alloc: Global, fills: &[Fill]) -> Result<Vec<Fill>, AllocError>
    ensures { IfOk result (λ copies. map fill_of copies.items ≡ map fill_of fills.now) }
{
    let mut copies = Vec::with_capacity(alloc, fills.len())?;
    'fills: for fill in fills {
        copies.push(copied_fill(alloc, fill)?)?;
    }
    Ok(copies)
}

fn copied_fill(alloc: Global, fill: &Fill) -> Result<Fill, AllocError>
    ensures { IfOk result (λ copy. fill_of copy ≡ fill_of fill.now) }
{
    Ok(Fill {
        item: fill.item,
        payload: copy_item(alloc, &lend(&fill.payload))?,
    })
}

/// Equal births.
fn copied_births(alloc: Global, births: &[Birth]) -> Result<Vec<Birth>, AllocError>
    ensures { IfOk result (λ copies. map birth_of copies.items ≡ map birth_of births.now) }
{
    let mut copies = Vec::with_capacity(alloc, births.len())?;
    'births: for birth in births {
        copies.push(copied_birth(alloc, birth)?)?;
    }
    Ok(copies)
}

fn copied_birth(alloc: Global, birth: &Birth) -> Result<Birth, AllocError>
    ensures { IfOk result (λ copy. birth_of copy ≡ birth_of birth.now) }
{
    Ok(Birth {
        item: birth.item,
        attributes: copy_item(alloc, &lend(&birth.attributes))?,
    })
}

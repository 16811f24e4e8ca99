//! Turns of a witness: a call, and what the witness says of it.

ghost use Rattle.std.specs.Prelude.{◌≡◌, ◌≢◌, ◌∷◌, ◌++◌, ◌<◌, ℤ, List, map, option_map, IfOk, OnOk, MatchOption};
ghost use Rattle.kmipa_ttlv.specs.Tree.{Tree, scalar, integer};
ghost use Rattle.kmipa_ttlv.specs.ItemTree.{tree};
ghost use Rattle.kmipa_ttlv.specs.ViewTree.{view_tree, view_trees};
ghost use Rattle.kmipa_msgs.specs.Messages.{lent};
ghost use Rattle.kmipa_record.specs.Entries.{items_of};
ghost use Rattle.kmipa_record.specs.Witnesses.{TurnOf, turn_of, bare_turn, call_item, turn_item, answer_item, moment_item, listed, ArePayloads, AreBirths};
ghost use Rattle.kmipa_record.specs.WitnessReading.{BeginsTurn, IsAny, Leads, MayLead, integer_item, list_of};

use crate::birth::{Birth, births_before, push_births};
use crate::fill::{Fill, fills_before, push_fills};
use crate::record::Record;
use crate::shape::{bytes_of, children_of, copied, date_of, integer_of};
use crate::tags::{ANSWER, ASIDE, CALL, PLACE, TURN, TURN_MOMENT};
use kmipa_ttlv::{Children, Item, Tag, View};
use std::alloc::{AllocError, Global};

/// The turn of one call.
#[derive(Drop)]
pub struct Turn {
    /// The number of the call.
    pub call: i32,
    /// The response message of a call that did not end.
    pub answer: Option<Vec<u8>>,
    /// The places of the call's items, counted from 1, in the order in which they are taken; none: by place.
    pub places: Vec<i32>,
    /// The moment of the call, in seconds since 1970.
    pub moment: Option<i64>,
    /// The payloads that its response leaves out.
    pub fills: Vec<Fill>,
    /// The attributes that the server itself gives what is born.
    pub births: Vec<Birth>,
    /// The places of the items that are set aside, counted from 1.
    pub asides: Vec<i32>,
}

impl Turn {
    /// The turn that names a call and gives nothing else.
    pub fn bare(alloc: Global, call: i32) -> Turn
        ensures { turn_of result ≡ bare_turn call }
    {
        Turn {
            call,
            answer: None,
            places: Vec::new(alloc),
            moment: None,
            fills: Vec::new(alloc),
            births: Vec::new(alloc),
            asides: Vec::new(alloc),
        }
    }
}

impl Record for Turn {
    ghost says = { λ item turn. (item ≡ turn_item (turn_of turn)) × ArePayloads (turn_of turn).fills
        × AreBirths (turn_of turn).births };

    ghost is_record = { λ item. (turn : TurnOf) × (item ≡ turn_item turn) × ArePayloads turn.fills
        × AreBirths turn.births };

    fn of(alloc: Global, item: &View) -> Result<Option<Turn>, AllocError> {
        let Some(children) = children_of(item, TURN) else {
            return Ok(None);
        };
        let Some((turn, behind)) = turn_before(alloc, children)? else {
            return Ok(None);
        };
        let mut rest = behind;
        match rest.next() {
            Some(_) => Ok(None),
            None => Ok(Some(turn)),
        }
    }
}

/// The turn whose children these begin with, and the children after it.
fn turn_before<'a>(
    alloc: Global,
    children: Children<'a>,
) -> Result<Option<(Turn, Children<'a>)>, AllocError>
    ensures { IfOk result
        (λ o. MatchOption o
        ((call : ℤ) (more : List Tree) → list_of (view_trees children.entry) ≢ call_item call ∷ more)
        (λ r. BeginsTurn (list_of (view_trees children.entry)) (turn_of r.0) (list_of (view_trees r.1)))) }
{
    let Some((call, behind_call)) = integer_before(children, CALL) else {
        return Ok(None);
    };
    let (answer, behind_answer) = answer_before(behind_call);
    let (places, behind_places) = integers_before(alloc, behind_answer, PLACE)?;
    let (moment, behind_moment) = moment_before(behind_places);
    let (fills, behind_fills) = fills_before(alloc, behind_moment)?;
    let (births, behind_births) = births_before(alloc, behind_fills)?;
    let (asides, rest) = integers_before(alloc, behind_births, ASIDE)?;
    let turn = Turn {
        call,
        answer: copied(alloc, answer)?,
        places,
        moment,
        fills,
        births,
        asides,
    };
    Ok(Some((turn, rest)))
}

/// The number of an Integer with this tag that the children begin with, and the children after it.
#[inline(always)]
fn integer_before<'a>(children: Children<'a>, tag: u32) -> Option<(i32, Children<'a>)>
    ensures { MatchOption result
        ((number : ℤ) (rest : List Tree) → list_of (view_trees children.entry) ≢ scalar tag (integer number) ∷ rest)
        (λ r. list_of (view_trees children.entry) ≡ scalar tag (integer r.0) ∷ list_of (view_trees r.1)) }
{
    let mut rest = children;
    let number = integer_of(&rest.next()?, tag)?;
    Some((number, rest))
}

/// The numbers of the Integers with this tag that the children begin with, and the children after them.
fn integers_before<'a>(
    alloc: Global,
    children: Children<'a>,
    tag: u32,
) -> Result<(Vec<i32>, Children<'a>), AllocError>
    ensures { IfOk result
        (λ r. Leads IsAny (integer_item tag) (list_of (view_trees children.entry)) r.0.items
        (list_of (view_trees r.1))) }
{
    let mut numbers = Vec::new(alloc);
    let mut left = children;
    'numbers: while let Some((number, rest)) = integer_before(left, tag) {
        numbers.push(number)?;
        left = rest;
    }
    Ok((numbers, left))
}

/// The answer that the children begin with, if any, and the children after it.
fn answer_before<'a>(children: Children<'a>) -> (Option<&'a [u8]>, Children<'a>)
    ensures { MayLead answer_item (list_of (view_trees children.entry)) (option_map lent result.0)
        (list_of (view_trees result.1)) }
{
    let mut rest = children;
    let Some(child) = rest.next() else {
        return (None, children);
    };
    match bytes_of(&child, ANSWER) {
        Some(answer) => (Some(answer), rest),
        None => (None, children),
    }
}

/// The moment that the children begin with, if any, and the children after it.
fn moment_before<'a>(children: Children<'a>) -> (Option<i64>, Children<'a>)
    ensures { MayLead moment_item (list_of (view_trees children.entry)) result.0 (list_of (view_trees result.1)) }
{
    let mut rest = children;
    let Some(child) = rest.next() else {
        return (None, children);
    };
    match date_of(&child, TURN_MOMENT) {
        Some(moment) => (Some(moment), rest),
        None => (None, children),
    }
}

/// The item that says the turn.
pub fn write_turn(alloc: Global, turn: &Turn) -> Result<Item, AllocError>
    ensures { IfOk result (λ item. tree item ≡ turn_item (turn_of turn.now)) }
{
    let mut children = Vec::new(alloc);
    children.push(Item::integer(Tag { number: CALL }, turn.call))?;
    push_answer(alloc, &mut children, &turn.answer)?;
    push_integers(&mut children, PLACE, &turn.places)?;
    push_moment(&mut children, turn.moment)?;
    push_fills(alloc, &mut children, &turn.fills)?;
    push_births(alloc, &mut children, &turn.births)?;
    push_integers(&mut children, ASIDE, &turn.asides)?;
    Ok(Item::structure(Tag { number: TURN }, children))
}

fn push_answer(
    alloc: Global,
    children: &mut Vec<Item>,
    answer: &Option<Vec<u8>>,
) -> Result<(), AllocError>
    ensures { OnOk result
        (map tree children.new.items
        ≡ map tree children.old.items ++ map answer_item (listed (option_map items_of answer.now))) }
{
    if let Some(answer) = answer {
        children.push(Item::bytes(alloc, Tag { number: ANSWER }, answer)?)?;
    }
    Ok(())
}

fn push_moment(children: &mut Vec<Item>, moment: Option<i64>) -> Result<(), AllocError>
    ensures { OnOk result
        (map tree children.new.items ≡ map tree children.old.items ++ map moment_item (listed moment)) }
{
    if let Some(moment) = moment {
        let tag = Tag {
            number: TURN_MOMENT,
        };
        children.push(Item::date_time(tag, moment))?;
    }
    Ok(())
}

/// Puts an Integer with this tag for each number after the others.
fn push_integers(children: &mut Vec<Item>, tag: u32, numbers: &[i32]) -> Result<(), AllocError>
    requires { tag < 0x100_0000 }
    ensures { OnOk result
        (map tree children.new.items ≡ map tree children.old.items ++ map (integer_item tag) numbers.now) }
{
    for number in numbers {
        children.push(Item::integer(Tag { number: tag }, *number))?;
    }
    Ok(())
}

//! Items that aren't judged, and such that are excused, taken over the ledger of a declaration.

ghost use Rattle.std.specs.Prelude.{◌≡◌};
ghost use Rattle.kmipa_store.specs.Choices.{IsSound};
ghost use Rattle.kmipa_store.specs.States.{state_of_journal};

use super::check;
use super::reading::declared;
use super::spelled::{DECLARATION, ENTRY};
use kmipa_aside::{Item, Passed, is_aside, take_excused, take_passed, take_unread};
use kmipa_check::open_ledger;
use kmipa_msgs::{Activate, Answer, Ask, Asked, Changed, Payload, Rules, Status};
use kmipa_ops::{Refusal, Why};
use kmipa_passed::{
    Asked as PassedAsked, Held, Outcome, PassedAnswer, PassedAsk, SetAside, Shown, Sort,
};
use kmipa_store::{Journal, Ledger};
use std::alloc::Global;
use std::process::Abort;

const T: i64 = 1_700_000_000;

/// The ledger of the key `k1` alone.
fn opened(rt: &impl Abort, alloc: Global) -> Journal
    ensures { IsSound (state_of_journal result).now }
{
    open_ledger(alloc, &declared(rt, alloc, &[DECLARATION, ENTRY])).expect(rt, "memory")
}

// What an item is that isn't judged, the sort of its operation, the object that it asks for and names, its answer, the object that this shows, and
// whether `k1`, `z` and `q` are set aside behind it. Nobody can tell what the ID Placeholder holds.
type Row = (
    &'static str,
    Sort,
    Option<&'static str>,
    Outcome,
    Option<&'static str>,
    [bool; 3],
);

const NONE: [bool; 3] = [false, false, false];

const K1: [bool; 3] = [true, false, false];

const Z: [bool; 3] = [false, true, false];

const K1_AND_Z: [bool; 3] = [true, true, false];

const ALL: [bool; 3] = [true, true, true];

const ROWS: [Row; 11] = [
    (
        "a Locate that lists k1",
        Sort::Looks,
        None,
        Outcome::Done,
        Some("k1"),
        NONE,
    ),
    (
        "a Locate that lists z",
        Sort::Looks,
        None,
        Outcome::Done,
        Some("z"),
        Z,
    ),
    (
        "a change of k1",
        Sort::Changes,
        Some("k1"),
        Outcome::Done,
        None,
        K1,
    ),
    (
        "a change that shows z",
        Sort::Changes,
        None,
        Outcome::Done,
        Some("z"),
        Z,
    ),
    (
        "a change of whatever",
        Sort::Changes,
        None,
        Outcome::Done,
        None,
        ALL,
    ),
    (
        "a failed change of k1",
        Sort::Changes,
        Some("k1"),
        Outcome::Failed,
        None,
        NONE,
    ),
    (
        "a change of k1 to come",
        Sort::Changes,
        Some("k1"),
        Outcome::Pending,
        None,
        ALL,
    ),
    (
        "a Register of z",
        Sort::Makes,
        None,
        Outcome::Done,
        Some("z"),
        Z,
    ),
    (
        "a Register of whatever",
        Sort::Makes,
        None,
        Outcome::Done,
        None,
        ALL,
    ),
    (
        "a Re-key of k1 to z",
        Sort::MayMake,
        Some("k1"),
        Outcome::Done,
        Some("z"),
        K1_AND_Z,
    ),
    (
        "an end of judging",
        Sort::EndsJudging,
        None,
        Outcome::Done,
        None,
        ALL,
    ),
];

// None, or this one alone.
fn listed(rt: &impl Abort, alloc: Global, id: Option<&'static str>) -> Vec<&'static str> {
    let mut ids = Vec::new(alloc);
    if let Some(id) = id {
        ids.push(id).expect(rt, "memory");
    }
    ids
}

fn asked_of(id: Option<&'static str>) -> PassedAsked<'static> {
    match id {
        Some(id) => PassedAsked::Named(id),
        None => PassedAsked::Placeholder,
    }
}

fn shown_of(id: Option<&'static str>) -> Shown<'static> {
    match id {
        Some(id) => Shown::Only(id),
        None => Shown::Nothing,
    }
}

// The item of a row, whose answer names operation 1.
fn passed_of(rt: &impl Abort, alloc: Global, row: &Row, asks: u32) -> Passed<'static> {
    let (_, sort, asked, outcome, shown, _) = row;
    let ask = PassedAsk {
        sort: *sort,
        locates: *sort == Sort::Looks,
        asked: asked_of(*asked),
        names: listed(rt, alloc, *asked),
        unclearly: false,
    };
    let answer = PassedAnswer {
        outcome: *outcome,
        first: asked_of(*shown),
        shown: shown_of(*shown),
        listed: listed(rt, alloc, *shown),
        formed: true,
        bare: shown.is_none(),
        names: listed(rt, alloc, *shown),
    };
    Passed {
        asks,
        names: Some(1),
        ask,
        answer,
    }
}

// Checks which of three identifiers are set aside.
fn check_aside<L: Ledger>(rt: &impl Abort, ledger: &L, aside: [bool; 3], what: &str) {
    let [k1, z, q] = aside;
    check(rt, is_aside(ledger, "k1") == k1, what);
    check(rt, is_aside(ledger, "z") == z, what);
    check(rt, is_aside(ledger, "q") == q, what);
}

// Checks what a row leaves, and that an answer to another operation is refused and leaves nothing.
fn check_row(rt: &impl Abort, alloc: Global, row: &Row) {
    let (what, _, _, _, _, aside) = row;
    let mut ledger = opened(rt, alloc);
    let other = passed_of(rt, alloc, row, 2);
    let refused = take_passed(alloc, &mut ledger, T, Held::Unknown, &other).err();
    let differs = Refusal::Impossible(Why::OperationDiffers);
    check(rt, refused == Some(differs), what);
    let mut ledger = opened(rt, alloc);
    let place = passed_of(rt, alloc, row, 1);
    let taken = take_passed(alloc, &mut ledger, T, Held::Unknown, &place);
    check(rt, taken.is_ok(), what);
    check_aside(rt, &ledger, *aside, what);
}

#[test]
fn passed_places_set_aside(rt: HostRuntime) {
    for row in &ROWS {
        check_row(&rt, rt.alloc(), row);
    }
}

#[test]
fn registered_object_is_held(rt: HostRuntime) {
    let alloc = rt.alloc();
    let mut ledger = opened(&rt, alloc);
    let row = (
        "a Register of z",
        Sort::Makes,
        None,
        Outcome::Done,
        Some("z"),
        Z,
    );
    let place = passed_of(&rt, alloc, &row, 1);
    let taken = take_passed(alloc, &mut ledger, T, Held::Empty, &place);
    let held = match taken {
        Ok(Held::Holds(id)) => id,
        Ok(Held::Empty) | Ok(Held::Unknown) | Err(_) => "nothing",
    };
    check(&rt, held == "z", "another object is held");
    check(&rt, ledger.find("z").is_none(), "the object is there");
}

// An Activate of an object, and its answer.
fn activate_of(id: Option<&'static str>) -> Ask<'static> {
    Ask {
        batch_id: None,
        asked: Asked::Activate(Activate { id }),
    }
}

fn activated(operation: u32, shown: Option<&'static str>) -> Answer<'static> {
    Answer {
        operation: Some(operation),
        batch_id: None,
        status: Status::Success,
        reason: None,
        payload: Some(Payload::Change(Changed { id: shown })),
    }
}

// What comes of an Activate where nobody can tell what the ID Placeholder holds: whether it is excused, or what speaks against it; and which are
// set aside behind it.
fn check_excused(
    rt: &impl Abort,
    alloc: Global,
    id: Option<&'static str>,
    answer: &Answer<'static>,
    said: Result<bool, Refusal>,
    aside: [bool; 3],
) {
    let rules = Rules::default_rules(alloc).expect(rt, "memory");
    let mut ledger = opened(rt, alloc);
    let ask = activate_of(id);
    let item = Item {
        moment: T,
        before: Held::Unknown,
        ask: &ask,
        answer,
    };
    let taken = take_excused(alloc, &mut ledger, &rules, item);
    let told = match taken {
        Ok(held) => Ok(held.is_some()),
        Err(refusal) => Err(refusal),
    };
    check(rt, told == said, "another word of an Activate");
    check_aside(rt, &ledger, aside, "others are set aside");
}

#[test]
fn change_of_nobody_knows_what_is_excused(rt: HostRuntime) {
    let alloc = rt.alloc();
    let differs = Refusal::Impossible(Why::OperationDiffers);
    check_excused(
        &rt,
        alloc,
        Some("k1"),
        &activated(0x12, None),
        Ok(false),
        NONE,
    );
    check_excused(
        &rt,
        alloc,
        None,
        &activated(0x12, Some("k1")),
        Ok(false),
        NONE,
    );
    check_excused(&rt, alloc, None, &activated(0x12, None), Ok(true), ALL);
    check_excused(&rt, alloc, None, &activated(0x13, None), Err(differs), NONE);
}

#[test]
fn unread_calls_set_aside(rt: HostRuntime) {
    let alloc = rt.alloc();
    let mut ledger = opened(&rt, alloc);
    let left = SetAside::These(listed(&rt, alloc, Some("k1")));
    let taken = take_unread(alloc, &mut ledger, T, &left);
    check(&rt, taken.is_ok(), "memory");
    check_aside(&rt, &ledger, K1, "others are set aside");
    let mut ledger = opened(&rt, alloc);
    let taken = take_unread(alloc, &mut ledger, T, &SetAside::Over);
    check(&rt, taken.is_ok(), "memory");
    check_aside(&rt, &ledger, ALL, "some are judged");
}

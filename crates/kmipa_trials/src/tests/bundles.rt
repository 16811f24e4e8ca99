//! Calls with places that aren't judged, taken over the ledger of a declaration.

ghost use Rattle.std.specs.Prelude.{◌≡◌};
ghost use Rattle.kmipa_store.specs.Choices.{IsSound};
ghost use Rattle.kmipa_store.specs.States.{state_of_journal};

use super::check;
use super::reading::declared;
use super::spelled::{DECLARATION, ENTRY};
use kmipa_aside::{Passed, Sight, is_aside};
use kmipa_batch::CallRefusal;
use kmipa_bundle::{
    Counts, is_readable_call, is_taking_order, is_unordered, is_whole_call, take_call,
};
use kmipa_check::open_ledger;
use kmipa_msgs::{Activate, Answer, Ask, Asked, BatchOption, Changed, Payload, Rules, Status};
use kmipa_object::State;
use kmipa_ops::Why;
use kmipa_passed::{Asked as PassedAsked, Outcome, PassedAnswer, PassedAsk, Shown, Sort};
use kmipa_places::{By, Place, Readable};
use kmipa_store::{Journal, Ledger};
use std::alloc::Global;
use std::process::Abort;

const T: i64 = 1_700_000_000;

// The ledger of the key `k1` alone.
fn opened(rt: &impl Abort, alloc: Global) -> Journal
    ensures { IsSound (state_of_journal result).now }
{
    open_ledger(alloc, &declared(rt, alloc, &[DECLARATION, ENTRY])).expect(rt, "memory")
}

// A place of these tests.
#[derive(Clone, Copy)]
enum Given {
    // An Activate of this object, or of the one that the ID Placeholder holds, which answers so.
    Activates(Option<&'static str>, Status),
    // A Query, which was done.
    Queries,
    // What isn't judged by this, of an operation of this sort: the object that it asks for, its answer, and the object that this shows.
    Passes(By, Sort, Option<&'static str>, Outcome, Option<&'static str>),
}

// A call, what comes of it: how many places aren't judged by their requests, by their answers, by the witness and by what they are about, and how many are;
// or what speaks against it. Whether `k1` is Active behind it, and whether `k1`, `z` and `q` are set aside.
struct Row {
    what: &'static str,
    option: BatchOption,
    pending: bool,
    places: &'static [Given],
    said: Result<[usize; 5], CallRefusal>,
    active: bool,
    aside: [bool; 3],
}

const NONE: [bool; 3] = [false, false, false];

const Z: [bool; 3] = [false, true, false];

const ALL: [bool; 3] = [true, true, true];

const GET_WRAPPED: Given = Given::Passes(By::Request, Sort::Looks, Some("k1"), Outcome::Done, None);

const ACTIVATE_K1: Given = Given::Activates(Some("k1"), Status::Success);

const ACTIVATE_Q_FAILED: Given = Given::Activates(Some("q"), Status::Failed);

const REKEY_UNDONE: Given = Given::Passes(
    By::Request,
    Sort::MayMake,
    Some("k1"),
    Outcome::Undone,
    Some("z"),
);

const REGISTER_Z: Given = Given::Passes(By::Answer, Sort::Makes, None, Outcome::Done, Some("z"));

const CHANGE_TO_COME: Given = Given::Passes(
    By::Answer,
    Sort::Changes,
    Some("k1"),
    Outcome::Pending,
    None,
);

const SET_ASIDE: Given = Given::Passes(By::Witness, Sort::Changes, Some("z"), Outcome::Done, None);

const REKEY_ANSWERED: Given = Given::Passes(
    By::Answer,
    Sort::MayMake,
    Some("k1"),
    Outcome::Failed,
    None,
);

const REKEY_ASIDE: Given = Given::Passes(
    By::Witness,
    Sort::MayMake,
    Some("k1"),
    Outcome::Failed,
    None,
);

const SHAPE: CallRefusal = CallRefusal::Impossible(1, Why::BatchShape);

const ROWS: [Row; 11] = [
    Row {
        what: "a wrapped key is got, and the key is activated",
        option: BatchOption::Continue,
        pending: false,
        places: &[GET_WRAPPED, ACTIVATE_K1],
        said: Ok([1, 0, 0, 0, 1]),
        active: true,
        aside: NONE,
    },
    Row {
        what: "a change is still to come",
        option: BatchOption::Continue,
        pending: true,
        places: &[CHANGE_TO_COME, ACTIVATE_K1],
        said: Ok([0, 1, 0, 1, 0]),
        active: false,
        aside: ALL,
    },
    Row {
        what: "no answer may be still to come",
        option: BatchOption::Continue,
        pending: false,
        places: &[CHANGE_TO_COME],
        said: Err(SHAPE),
        active: false,
        aside: NONE,
    },
    Row {
        what: "a Re-key is undone",
        option: BatchOption::Undo,
        pending: false,
        places: &[REKEY_UNDONE, ACTIVATE_Q_FAILED],
        said: Ok([1, 0, 0, 0, 1]),
        active: false,
        aside: NONE,
    },
    Row {
        what: "judging is over, though the call is undone",
        option: BatchOption::Undo,
        pending: true,
        places: &[CHANGE_TO_COME, ACTIVATE_Q_FAILED],
        said: Ok([0, 1, 0, 1, 0]),
        active: false,
        aside: ALL,
    },
    Row {
        what: "the witness sets a place aside",
        option: BatchOption::Continue,
        pending: false,
        places: &[SET_ASIDE],
        said: Ok([0, 0, 1, 0, 0]),
        active: false,
        aside: Z,
    },
    Row {
        what: "what was registered is activated, and isn't judged",
        option: BatchOption::Stop,
        pending: false,
        places: &[REGISTER_Z, Given::Activates(None, Status::Success)],
        said: Ok([0, 1, 0, 1, 0]),
        active: false,
        aside: Z,
    },
    Row {
        what: "nobody can tell what is activated",
        option: BatchOption::Stop,
        pending: false,
        places: &[
            Given::Passes(By::Request, Sort::MayMake, None, Outcome::Done, None),
            Given::Activates(None, Status::Success),
        ],
        said: Ok([1, 0, 0, 1, 0]),
        active: false,
        aside: ALL,
    },
    Row {
        what: "what isn't there is activated behind what isn't judged",
        option: BatchOption::Continue,
        pending: false,
        places: &[REGISTER_Z, Given::Activates(Some("q"), Status::Success)],
        said: Err(CallRefusal::Impossible(2, Why::NoSuchObject)),
        active: false,
        aside: NONE,
    },
    Row {
        what: "a Query counts by its request",
        option: BatchOption::Continue,
        pending: false,
        places: &[Given::Queries, ACTIVATE_K1],
        said: Ok([1, 0, 0, 0, 1]),
        active: true,
        aside: NONE,
    },
    Row {
        what: "a Re-key counts by its request, by what else it is passed",
        option: BatchOption::Continue,
        pending: false,
        places: &[REKEY_ANSWERED, REKEY_ASIDE],
        said: Ok([2, 0, 0, 0, 0]),
        active: false,
        aside: NONE,
    },
];

fn outcome_of(given: Given) -> Outcome {
    match given {
        Given::Activates(_, Status::Success) | Given::Queries => Outcome::Done,
        Given::Activates(_, Status::Undone) => Outcome::Undone,
        Given::Activates(_, Status::Failed) => Outcome::Failed,
        Given::Passes(_, _, _, outcome, _) => outcome,
    }
}

// None, or this one alone.
fn listed(rt: &impl Abort, alloc: Global, id: Option<&'static str>) -> Vec<&'static str> {
    let mut ids = Vec::new(alloc);
    if let Some(id) = id {
        ids.push(id).expect(rt, "memory");
    }
    ids
}

fn asked_of(id: Option<&'static str>) -> PassedAsked<'static> {
    match id {
        Some(id) => PassedAsked::Named(id),
        None => PassedAsked::Placeholder,
    }
}

fn shown_of(id: Option<&'static str>) -> Shown<'static> {
    match id {
        Some(id) => Shown::Only(id),
        None => Shown::Nothing,
    }
}

fn activated(id: Option<&'static str>, status: Status) -> Place<'static> {
    let (reason, payload) = match status {
        Status::Failed => (Some(1), None),
        Status::Success | Status::Undone => (None, Some(Payload::Change(Changed { id: None }))),
    };
    let ask = Ask {
        batch_id: None,
        asked: Asked::Activate(Activate { id }),
    };
    let answer = Answer {
        operation: Some(0x12),
        batch_id: None,
        status,
        reason,
        payload,
    };
    Place::Judged(ask, answer)
}

fn queried() -> Place<'static> {
    let ask = Ask {
        batch_id: None,
        asked: Asked::Idle(0x18),
    };
    let answer = Answer {
        operation: Some(0x18),
        batch_id: None,
        status: Status::Success,
        reason: None,
        payload: None,
    };
    Place::Judged(ask, answer)
}

// An operation of this sort.
fn operation_of(sort: Sort) -> u32 {
    match sort {
        Sort::Looks => 0x0A,
        Sort::Makes => 0x03,
        Sort::Changes => 0x12,
        Sort::MayMake => 0x04,
        Sort::EndsJudging => 0x24,
    }
}

fn place_of(rt: &impl Abort, alloc: Global, given: Given) -> Place<'static> {
    let (by, sort, asked, outcome, shown) = match given {
        Given::Activates(id, status) => return activated(id, status),
        Given::Queries => return queried(),
        Given::Passes(by, sort, asked, outcome, shown) => (by, sort, asked, outcome, shown),
    };
    let ask = PassedAsk {
        sort,
        locates: false,
        asked: asked_of(asked),
        names: listed(rt, alloc, asked),
        unclearly: false,
    };
    let answer = PassedAnswer {
        outcome,
        first: asked_of(shown),
        shown: shown_of(shown),
        listed: listed(rt, alloc, shown),
        formed: true,
        bare: shown.is_none(),
        names: listed(rt, alloc, shown),
    };
    Place::Passed(
        by,
        Passed {
            asks: operation_of(sort),
            names: Some(operation_of(sort)),
            ask,
            answer,
        },
    )
}

fn call_of(
    rt: &impl Abort,
    alloc: Global,
    option: BatchOption,
    pending: bool,
    given: &[Given],
) -> Readable<'static> {
    let mut outcomes = Vec::new(alloc);
    let mut places = Vec::new(alloc);
    for given in given {
        outcomes.push(outcome_of(*given)).expect(rt, "memory");
        places
            .push(place_of(rt, alloc, *given))
            .expect(rt, "memory");
    }
    Readable {
        option,
        ordered: true,
        pending,
        stamp: T,
        asks: places.len(),
        outcomes,
        refused: false,
        places,
    }
}

fn numbers_of(counts: Counts) -> [usize; 5] {
    [
        counts.by_request,
        counts.by_answer,
        counts.by_witness,
        counts.by_object,
        counts.judged,
    ]
}

// By the rules alone: nothing is hidden.
fn sight(rules: &Rules) -> Sight<'_, 'static> {
    Sight {
        rules,
        me: &[],
        owners: &[],
    }
}

// What comes of a call over such a ledger.
fn taken(
    rt: &impl Abort,
    alloc: Global,
    ledger: &mut Journal,
    call: &Readable,
) -> Result<[usize; 5], CallRefusal>
    requires { IsSound (state_of_journal ledger.old).now }
{
    check(rt, is_whole_call(call), "a place is missing");
    check(rt, is_readable_call(call), "it can't be read");
    let rules = Rules::default_rules(alloc).expect(rt, "memory");
    match take_call(alloc, ledger, sight(&rules), call, None) {
        Ok(counts) => Ok(numbers_of(counts)),
        Err(refusal) => Err(refusal),
    }
}

// The same of a call without order, whose items are taken in this order.
fn taken_in(
    rt: &impl Abort,
    alloc: Global,
    ledger: &mut Journal,
    call: &Readable,
    places: &[usize],
) -> Result<[usize; 5], CallRefusal>
    requires { IsSound (state_of_journal ledger.old).now }
{
    check(rt, is_whole_call(call), "a place is missing");
    check(rt, is_readable_call(call), "it can't be read");
    check(rt, is_unordered(call), "it is ordered");
    check(rt, !call.refused, "it is refused");
    let may = is_taking_order(alloc, call, places).expect(rt, "memory");
    check(rt, may, "another order");
    let rules = Rules::default_rules(alloc).expect(rt, "memory");
    match take_call(alloc, ledger, sight(&rules), call, Some(places)) {
        Ok(counts) => Ok(numbers_of(counts)),
        Err(refusal) => Err(refusal),
    }
}

fn is_active(ledger: &mut Journal, id: &str) -> bool {
    ledger.set_moment(T);
    match ledger.find(id) {
        Some(place) => ledger.state(place) == State::Active,
        None => false,
    }
}

fn check_row(rt: &impl Abort, alloc: Global, row: &Row) {
    let mut ledger = opened(rt, alloc);
    let call = call_of(rt, alloc, row.option, row.pending, row.places);
    let said = taken(rt, alloc, &mut ledger, &call);
    check(rt, said == row.said, row.what);
    let [k1, z, q] = row.aside;
    check(rt, is_aside(&ledger, "k1") == k1, row.what);
    check(rt, is_aside(&ledger, "z") == z, row.what);
    check(rt, is_aside(&ledger, "q") == q, row.what);
    check(rt, is_active(&mut ledger, "k1") == row.active, row.what);
}

#[test]
fn calls_are_taken(rt: HostRuntime) {
    for row in &ROWS {
        check_row(&rt, rt.alloc(), row);
    }
}

#[test]
fn refused_message_changes_nothing(rt: HostRuntime) {
    let alloc = rt.alloc();
    let mut ledger = opened(&rt, alloc);
    let mut call = call_of(&rt, alloc, BatchOption::Stop, false, &[ACTIVATE_K1]);
    call.refused = true;
    let said = taken(&rt, alloc, &mut ledger, &call);
    check(&rt, said == Ok([0, 0, 0, 0, 1]), "it is judged");
    check(&rt, !is_active(&mut ledger, "k1"), "it is done");
}

// A call without order: what was registered is judged as long as it isn't registered.
fn unordered(rt: &impl Abort, alloc: Global) -> Readable<'static> {
    let given = [REGISTER_Z, Given::Activates(Some("z"), Status::Success)];
    let mut call = call_of(rt, alloc, BatchOption::Continue, false, &given);
    call.ordered = false;
    call
}

#[test]
fn call_without_order_is_taken_in_each(rt: HostRuntime) {
    let alloc = rt.alloc();
    let call = unordered(&rt, alloc);
    let mut ledger = opened(&rt, alloc);
    let said = taken_in(&rt, alloc, &mut ledger, &call, &[1, 2]);
    check(&rt, said == Ok([0, 1, 0, 1, 0]), "by place");
    let mut ledger = opened(&rt, alloc);
    let said = taken_in(&rt, alloc, &mut ledger, &call, &[2, 1]);
    let unknown = CallRefusal::Impossible(2, Why::NoSuchObject);
    check(&rt, said == Err(unknown), "the other way round");
}

#[test]
fn place_is_taken_once(rt: HostRuntime) {
    let alloc = rt.alloc();
    let call = unordered(&rt, alloc);
    let twice = is_taking_order(alloc, &call, &[2, 2]).expect(&rt, "memory");
    check(&rt, !twice, "a place is taken twice");
}

//! What turns make of their calls, and the first fault of what they give.

use super::check;
use super::spelled::{GET_K1, GOT_K1, LOCATE, REFUSED, REGISTER, REGISTERED, bytes_of};
use kmipa_check::{Grants, StepFault};
use kmipa_places::{By, Place, Readable};
use kmipa_record::{Birth, Fill, OwnAttribute, Turn};
use kmipa_ttlv::{Item, decode};
use kmipa_turns::{Recorded, Step, Taken, step_of_turn};
use std::alloc::Global;
use std::process::Abort;

// The request and the response of a call, as they were recorded.
type Call = (&'static str, Option<&'static str>);

// What a turn gives: an answer, places, a moment, and what it sets aside.
type Given = (
    Option<&'static str>,
    &'static [i32],
    Option<i64>,
    &'static [i32],
);

// A call, what its turn gives, where a moment may be a second from its stamp, and what is told of it: each place, J where it is judged and R, A or W
// where it is passed, or that the call leaves what it may have done; how much is aside by the turn alone; and whether it is taken at another moment.
// Or the first fault.
type Row = (&'static str, Call, Given, &'static str);

// The Time Stamp of the answers.
const STAMP: i64 = 1_700_000_000;

// A Query.
const QUERY: &str = "\
    42007801000000604200770100000038420069010000002042006A0200000004000000020000000042006B0200000004\
    000000010000000042000D0200000004000000010000000042000F010000001842005C05000000040000001800000000\
    4200790100000000";

// Its answer.
const QUERIED: &str = "\
    42007B010000008042007A0100000048420069010000002042006A0200000004000000020000000042006B0200000004\
    00000001000000004200920900000008000000006553F10042000D0200000004000000010000000042000F0100000028\
    42005C0500000004000000180000000042007F0500000004000000000000000042007C0100000000";

// It has no version.
const NO_MESSAGE: &str = "4200780100000000";

const TAKEN: [Row; 12] = [
    (
        "a bare turn",
        (GET_K1, Some(GOT_K1)),
        (None, &[], None, &[]),
        "J",
    ),
    (
        "its one place is aside",
        (GET_K1, Some(GOT_K1)),
        (None, &[], None, &[1]),
        "W but 1",
    ),
    (
        "it is of no operation that is judged anyway",
        (QUERY, Some(QUERIED)),
        (None, &[], None, &[1]),
        "W",
    ),
    (
        "it is aside as a whole, and could be read",
        (GET_K1, Some(GOT_K1)),
        (None, &[], None, &[0]),
        "leaves but 1",
    ),
    (
        "it can't be read",
        (NO_MESSAGE, Some(GOT_K1)),
        (None, &[], None, &[]),
        "leaves",
    ),
    (
        "it can't be read, and is aside as a whole",
        (NO_MESSAGE, Some(GOT_K1)),
        (None, &[], None, &[0]),
        "leaves",
    ),
    (
        "an open call of no bytes is aside as a whole",
        ("", None),
        (None, &[], None, &[0]),
        "leaves but 1",
    ),
    (
        "the answer of an open call that is aside isn't looked at",
        (GET_K1, None),
        (Some("42"), &[], None, &[0]),
        "leaves but 1",
    ),
    (
        "an open call has an answer",
        (GET_K1, None),
        (Some(GOT_K1), &[], None, &[]),
        "J",
    ),
    (
        "a moment a second early",
        (GET_K1, Some(GOT_K1)),
        (None, &[], Some(STAMP - 1), &[]),
        "J earlier",
    ),
    (
        "a moment a second late",
        (GET_K1, Some(GOT_K1)),
        (None, &[], Some(STAMP + 1), &[]),
        "J later",
    ),
    (
        "a refused message",
        (GET_K1, Some(REFUSED)),
        (None, &[], None, &[]),
        "J",
    ),
];

const UNFIT: [Row; 18] = [
    (
        "an answer to a call that has ended",
        (GET_K1, Some(GOT_K1)),
        (Some(GOT_K1), &[], None, &[]),
        "AnswerNotWanted",
    ),
    (
        "the same, of a call that is aside",
        (GET_K1, Some(GOT_K1)),
        (Some(GOT_K1), &[], None, &[0]),
        "AnswerNotWanted",
    ),
    (
        "no answer to an open call",
        (GET_K1, None),
        (None, &[], None, &[]),
        "AnswerMissing",
    ),
    (
        "an answer that is no message",
        (GET_K1, None),
        (Some("42"), &[], None, &[]),
        "AnswerForm",
    ),
    (
        "an answer to an open request of no bytes",
        ("", None),
        (Some(GOT_K1), &[], None, &[]),
        "AnswerForm",
    ),
    (
        "a moment two seconds early",
        (GET_K1, Some(GOT_K1)),
        (None, &[], Some(STAMP - 2), &[]),
        "MomentForm",
    ),
    (
        "a moment of a call that can't be read",
        (NO_MESSAGE, Some(GOT_K1)),
        (None, &[], Some(STAMP), &[]),
        "MomentForm",
    ),
    (
        "a moment of a call that is aside",
        (GET_K1, Some(GOT_K1)),
        (None, &[1], Some(STAMP), &[0]),
        "MomentForm",
    ),
    (
        "places of a call that can't be read",
        (NO_MESSAGE, Some(GOT_K1)),
        (None, &[1], None, &[2]),
        "OrderNotWanted",
    ),
    (
        "places of one item",
        (GET_K1, Some(GOT_K1)),
        (None, &[1], None, &[2]),
        "OrderNotWanted",
    ),
    (
        "a moment is told ahead of places",
        (GET_K1, Some(GOT_K1)),
        (None, &[1], Some(STAMP + 2), &[2]),
        "MomentForm",
    ),
    (
        "a place twice",
        (GET_K1, Some(GOT_K1)),
        (None, &[], None, &[1, 1]),
        "AsideForm",
    ),
    (
        "a place beside the whole call",
        (GET_K1, Some(GOT_K1)),
        (None, &[], None, &[0, 1]),
        "AsideForm",
    ),
    (
        "the whole call twice",
        (GET_K1, Some(GOT_K1)),
        (None, &[], None, &[0, 0]),
        "AsideForm",
    ),
    (
        "a place behind the last",
        (GET_K1, Some(GOT_K1)),
        (None, &[], None, &[2]),
        "AsideForm",
    ),
    (
        "a place below 0",
        (GET_K1, Some(GOT_K1)),
        (None, &[], None, &[-1]),
        "AsideForm",
    ),
    (
        "a place of a call that can't be read",
        (NO_MESSAGE, Some(GOT_K1)),
        (None, &[], None, &[1]),
        "AsideForm",
    ),
    (
        "an answer that is a request",
        (LOCATE, None),
        (Some(LOCATE), &[], None, &[]),
        "AnswerForm",
    ),
];

// An activation at the moment of the answer.
const ACTIVATION: &str = "42012501000000104200010900000008000000006553F100";

// The mask 4.
const MASK: &str = "420125010000001042002C02000000040000000400000000";

// A Response Payload without fields.
const PAYLOAD: &str = "42007C0100000000";

// A call, its item that a birth is for, the attributes of the birth, what else is aside, and what is told.
type BirthRow = (
    &'static str,
    Call,
    i32,
    &'static str,
    &'static [i32],
    &'static str,
);

const BIRTHS: [BirthRow; 7] = [
    (
        "an attribute that the server gives",
        (REGISTER, Some(REGISTERED)),
        1,
        ACTIVATION,
        &[],
        "J",
    ),
    (
        "one that it doesn't",
        (REGISTER, Some(REGISTERED)),
        1,
        MASK,
        &[],
        "BirthForm",
    ),
    (
        "no second item",
        (REGISTER, Some(REGISTERED)),
        2,
        ACTIVATION,
        &[],
        "BirthNotWanted",
    ),
    (
        "nothing is born",
        (GET_K1, Some(GOT_K1)),
        1,
        ACTIVATION,
        &[],
        "BirthNotWanted",
    ),
    (
        "its place is aside",
        (REGISTER, Some(REGISTERED)),
        1,
        ACTIVATION,
        &[1],
        "BirthNotWanted",
    ),
    (
        "the call is aside",
        (REGISTER, Some(REGISTERED)),
        1,
        ACTIVATION,
        &[0],
        "BirthNotWanted",
    ),
    (
        "births are told ahead of asides",
        (REGISTER, Some(REGISTERED)),
        1,
        MASK,
        &[2],
        "BirthForm",
    ),
];

fn item_of(rt: &impl Abort, alloc: Global, digits: &str) -> Item {
    let bytes = bytes_of(rt, alloc, &[digits]);
    let (item, _) = decode(alloc, &bytes).expect(rt, "an item");
    item
}

fn numbers_of(rt: &impl Abort, alloc: Global, numbers: &[i32]) -> Vec<i32> {
    let mut copies = Vec::new(alloc);
    copies.extend_from_slice(numbers).expect(rt, "memory");
    copies
}

fn tell_places(rt: &impl Abort, call: &Readable, told: &mut String) {
    for place in &call.places {
        let word = match place {
            Place::Judged(_, _) => "J",
            Place::Passed(By::Request, _) => "R",
            Place::Passed(By::Answer, _) => "A",
            Place::Passed(By::Witness, _) => "W",
        };
        told.push_str(word).expect(rt, "memory");
    }
}

fn tell_moment(rt: &impl Abort, call: &Readable, stamp: Option<i64>, told: &mut String) {
    let stamp = stamp.expect(rt, "a stamp");
    if call.stamp < stamp {
        told.push_str(" earlier").expect(rt, "memory");
    }
    if call.stamp > stamp {
        told.push_str(" later").expect(rt, "memory");
    }
}

fn tell_step(rt: &impl Abort, step: &Step, told: &mut String) {
    match &step.taken {
        Taken::Leaves(_, _) => told.push_str("leaves").expect(rt, "memory"),
        Taken::Takes(call, _) => {
            tell_places(rt, call, told);
            tell_moment(rt, call, step.stamp, told);
        }
    }
    if step.excepted == 1 {
        told.push_str(" but 1").expect(rt, "memory");
    }
}

fn told_of(rt: &impl Abort, alloc: Global, step: &Result<Step, StepFault>) -> String {
    let mut told = String::new(alloc);
    match step {
        Ok(step) => tell_step(rt, step, &mut told),
        Err(StepFault::Unfit(kind)) => told.push_str(kind.name()).expect(rt, "memory"),
        Err(StepFault::Memory) => told.push_str("memory").expect(rt, "memory"),
    }
    told
}

// Checks what is told of a call by its turn.
fn check_call(
    rt: &impl Abort,
    alloc: Global,
    what: &str,
    call: &Call,
    turn: &Turn,
    expected: &str,
) {
    let (request, answered) = call;
    let asked = bytes_of(rt, alloc, &[request]);
    let answer = match *answered {
        Some(digits) => Some(bytes_of(rt, alloc, &[digits])),
        None => None,
    };
    let end = answer.as_ref().map(|_| 1);
    let response = answer.as_ref().map(|bytes| bytes.as_slice());
    let call = Recorded {
        number: 1,
        client: "a",
        begin: 0,
        end,
        request: asked.as_slice(),
        response,
    };
    let grants = Grants {
        tolerance: 1,
        own: &[OwnAttribute::ActivationDate],
    };
    let step = step_of_turn(alloc, &grants, &call, turn);
    let told = told_of(rt, alloc, &step);
    check(rt, told.as_str() == expected, what);
}

fn check_row(rt: &impl Abort, alloc: Global, row: &Row) {
    let (what, call, (answer, places, moment, asides), expected) = row;
    let mut turn = Turn::bare(alloc, 1);
    turn.answer = match *answer {
        Some(digits) => Some(bytes_of(rt, alloc, &[digits])),
        None => None,
    };
    turn.places = numbers_of(rt, alloc, places);
    turn.moment = *moment;
    turn.asides = numbers_of(rt, alloc, asides);
    check_call(rt, alloc, what, call, &turn, expected);
}

fn check_birth(rt: &impl Abort, alloc: Global, row: &BirthRow) {
    let (what, call, item, digits, asides, expected) = row;
    let mut turn = Turn::bare(alloc, 1);
    let birth = Birth {
        item: *item,
        attributes: item_of(rt, alloc, digits),
    };
    turn.births.push(birth).expect(rt, "memory");
    turn.asides = numbers_of(rt, alloc, asides);
    check_call(rt, alloc, what, call, &turn, expected);
}

#[test]
fn turns_take_their_calls(rt: HostRuntime) {
    for row in &TAKEN {
        check_row(&rt, rt.alloc(), row);
    }
}

#[test]
fn turns_that_dont_fit_are_refused(rt: HostRuntime) {
    for row in &UNFIT {
        check_row(&rt, rt.alloc(), row);
    }
}

#[test]
fn births_complete_what_is_judged(rt: HostRuntime) {
    for row in &BIRTHS {
        check_birth(&rt, rt.alloc(), row);
    }
}

#[test]
fn fills_that_no_place_waits_for_are_refused(rt: HostRuntime) {
    let alloc = rt.alloc();
    let mut turn = Turn::bare(alloc, 1);
    let fill = Fill {
        item: 1,
        payload: item_of(&rt, alloc, PAYLOAD),
    };
    turn.fills.push(fill).expect(&rt, "memory");
    let call = (GET_K1, Some(GOT_K1));
    check_call(&rt, alloc, "a fill of a Get", &call, &turn, "FillNotWanted");
    let unread = (NO_MESSAGE, Some(GOT_K1));
    check_call(&rt, alloc, "of no message", &unread, &turn, "FillNotWanted");
}

//! How the items of calls count that can't be read, and which answers that are made up fit their requests.

use super::check;
use super::places::{
    ACTIVATE_K1, ACTIVATE_NO_STATUS, ACTIVATE_PENDING, DONE_GET, GET_AS_A_TEXT, GET_FAILED,
    GET_HELD, GET_K1, GET_K1_WRAPPED, GET_K2, GOT_K1, GOT_K2, MAY_COME, OPERATION_AS_A_NUMBER,
    POLL, QUERIED, QUERY, REKEY_K1, REKEYED_AS_Z, STAMP, STATE_AS_A_NUMBER, STATE_OF_K1, Spelled,
    UNORDERED, VERSION_1_0, VERSION_2_0, VERSION_2_1, message_of, view_of,
};
use kmipa_places::{count_unread, is_fit_answer, is_unread};
use kmipa_ttlv::Item;
use std::alloc::Global;
use std::process::Abort;

// A call, whether it can't be read, and how many of its items count by their requests, by their answers and by the witness, where it can't be.
type Row = (
    &'static str,
    Option<Spelled>,
    Option<Spelled>,
    bool,
    [usize; 3],
);

// A request, an answer that is made up, and whether it fits.
type Made = (&'static str, Option<Spelled>, Option<Spelled>, bool);

// A Re-key that was done, with a number as Result Reason.
const REKEYED_REASON_AS_A_NUMBER: &str = "\
    42000F010000003042005C0500000004000000040000000042007F0500000004000000000000000042007E02000000\
    040000000100000000";

const READABLE: [Row; 5] = [
    (
        "the witness sets both aside",
        Some((&[VERSION_2_1], 2, &[GET_K1, GET_K2])),
        Some((&[VERSION_2_1, STAMP], 2, &[GOT_K1, GOT_K2])),
        false,
        [0, 0, 2],
    ),
    (
        "a Get shows nothing",
        Some((&[VERSION_2_1], 2, &[GET_K1, GET_K2])),
        Some((&[VERSION_2_1, STAMP], 2, &[GOT_K1, DONE_GET])),
        false,
        [0, 1, 1],
    ),
    (
        "a wrapped key, a Query and a Poll",
        Some((&[VERSION_2_1], 3, &[GET_K1_WRAPPED, QUERY, POLL])),
        Some((&[VERSION_2_1, STAMP], 3, &[GOT_K1, QUERIED, GOT_K1])),
        false,
        [3, 0, 0],
    ),
    (
        "Enumeration 1 in no order",
        Some((&[VERSION_2_1, UNORDERED], 2, &[GET_HELD, GET_K1])),
        Some((&[VERSION_2_1, STAMP], 2, &[GOT_K1, GOT_K1])),
        false,
        [1, 0, 1],
    ),
    (
        "an item without an answer doesn't count",
        Some((&[VERSION_2_1], 2, &[GET_K1, GET_K2])),
        Some((&[VERSION_2_1, STAMP], 1, &[GOT_K1])),
        false,
        [0, 0, 1],
    ),
];

const UNREADABLE: [Row; 8] = [
    (
        "a request in 1.0",
        Some((&[VERSION_1_0], 1, &[GET_K1])),
        Some((&[VERSION_2_1, STAMP], 1, &[GOT_K1])),
        true,
        [1, 0, 0],
    ),
    (
        "a response in 2.0",
        Some((&[VERSION_2_1], 1, &[GET_K1])),
        Some((&[VERSION_2_0, STAMP], 1, &[GOT_K1])),
        true,
        [0, 1, 0],
    ),
    (
        "both in 1.0",
        Some((&[VERSION_1_0], 1, &[GET_K1])),
        Some((&[VERSION_1_0, STAMP], 1, &[GOT_K1])),
        true,
        [1, 0, 0],
    ),
    (
        "one status can't be read",
        Some((&[VERSION_2_1], 2, &[GET_K1, ACTIVATE_K1])),
        Some((&[VERSION_2_1, STAMP], 2, &[GOT_K1, ACTIVATE_NO_STATUS])),
        true,
        [0, 2, 0],
    ),
    (
        "a Query and a Get, answered in 2.0",
        Some((&[VERSION_2_1], 2, &[QUERY, GET_K1])),
        Some((&[VERSION_2_0, STAMP], 2, &[QUERIED, GOT_K1])),
        true,
        [1, 1, 0],
    ),
    (
        "no items can be told",
        Some((&[VERSION_2_1], 2, &[GET_K1])),
        Some((&[VERSION_2_1, STAMP], 1, &[GOT_K1])),
        true,
        [0, 0, 0],
    ),
    (
        "no response",
        Some((&[VERSION_2_1], 1, &[GET_K1])),
        None,
        true,
        [0, 0, 0],
    ),
    (
        "no request",
        None,
        Some((&[VERSION_2_1, STAMP], 1, &[GOT_K1])),
        true,
        [0, 0, 0],
    ),
];

const FIT: [Made; 7] = [
    (
        "a Get",
        Some((&[VERSION_2_1], 1, &[GET_K1])),
        Some((&[VERSION_2_1, STAMP], 1, &[GOT_K1])),
        true,
    ),
    (
        "a Get that failed",
        Some((&[VERSION_2_1], 1, &[GET_K1])),
        Some((&[VERSION_2_1, STAMP], 1, &[GET_FAILED])),
        true,
    ),
    (
        "a Re-key",
        Some((&[VERSION_2_1], 1, &[REKEY_K1])),
        Some((&[VERSION_2_1, STAMP], 1, &[REKEYED_AS_Z])),
        true,
    ),
    (
        "a Query",
        Some((&[VERSION_2_1], 1, &[QUERY])),
        Some((&[VERSION_2_1, STAMP], 1, &[QUERIED])),
        true,
    ),
    (
        "where no Operation can be read, a payload isn't either",
        Some((&[VERSION_2_1], 1, &[GET_AS_A_TEXT])),
        Some((&[VERSION_2_1, STAMP], 1, &[DONE_GET])),
        true,
    ),
    (
        "an item without an answer",
        Some((&[VERSION_2_1], 2, &[GET_K1, GET_K2])),
        Some((&[VERSION_2_1, STAMP], 1, &[GOT_K1])),
        true,
    ),
    (
        "an answer behind all items",
        Some((&[VERSION_2_1], 1, &[GET_K1])),
        Some((&[VERSION_2_1, STAMP], 2, &[GOT_K1, DONE_GET])),
        true,
    ),
];

const UNFIT: [Made; 9] = [
    (
        "a Get shows nothing",
        Some((&[VERSION_2_1], 1, &[GET_K1])),
        Some((&[VERSION_2_1, STAMP], 1, &[DONE_GET])),
        false,
    ),
    (
        "a State is a number",
        Some((&[VERSION_2_1], 1, &[STATE_OF_K1])),
        Some((&[VERSION_2_1, STAMP], 1, &[STATE_AS_A_NUMBER])),
        false,
    ),
    (
        "an answer is to come",
        Some((&[VERSION_2_1, MAY_COME], 1, &[ACTIVATE_K1])),
        Some((&[VERSION_2_1, STAMP], 1, &[ACTIVATE_PENDING])),
        false,
    ),
    (
        "a Re-key has a number as its reason",
        Some((&[VERSION_2_1], 1, &[REKEY_K1])),
        Some((&[VERSION_2_1, STAMP], 1, &[REKEYED_REASON_AS_A_NUMBER])),
        false,
    ),
    (
        "behind all items an Operation is a number",
        Some((&[VERSION_2_1], 1, &[GET_K1])),
        Some((&[VERSION_2_1, STAMP], 2, &[GOT_K1, OPERATION_AS_A_NUMBER])),
        false,
    ),
    (
        "a request in 1.0",
        Some((&[VERSION_1_0], 1, &[GET_K1])),
        Some((&[VERSION_2_1, STAMP], 1, &[GOT_K1])),
        false,
    ),
    (
        "an answer in 2.0",
        Some((&[VERSION_2_1], 1, &[GET_K1])),
        Some((&[VERSION_2_0, STAMP], 1, &[GOT_K1])),
        false,
    ),
    (
        "no request",
        None,
        Some((&[VERSION_2_1, STAMP], 1, &[GOT_K1])),
        false,
    ),
    (
        "no answer",
        Some((&[VERSION_2_1], 1, &[GET_K1])),
        None,
        false,
    ),
];

fn request_of(rt: &impl Abort, alloc: Global, spelled: &Option<Spelled>) -> Option<Item> {
    match spelled {
        Some(spelled) => Some(message_of(rt, alloc, spelled, 0x42_0078, 0x42_0077)),
        None => None,
    }
}

fn response_of(rt: &impl Abort, alloc: Global, spelled: &Option<Spelled>) -> Option<Item> {
    match spelled {
        Some(spelled) => Some(message_of(rt, alloc, spelled, 0x42_007B, 0x42_007A)),
        None => None,
    }
}

fn check_row(rt: &impl Abort, alloc: Global, row: &Row) {
    let (what, asked, answered, unread, counted) = row;
    let request = request_of(rt, alloc, asked);
    let response = response_of(rt, alloc, answered);
    let (asking, answering) = (view_of(&request), view_of(&response));
    let is = is_unread(asking.as_ref(), answering.as_ref());
    check(rt, is == *unread, what);
    let counts = count_unread(alloc, asking.as_ref(), answering.as_ref()).expect(rt, "memory");
    let numbers = [counts.by_request, counts.by_answer, counts.by_witness];
    check(rt, numbers == *counted, what);
}

fn check_made(rt: &impl Abort, alloc: Global, made: &Made) {
    let (what, asked, answered, fits) = made;
    let request = request_of(rt, alloc, asked);
    let response = response_of(rt, alloc, answered);
    let (asking, answering) = (view_of(&request), view_of(&response));
    let fit = is_fit_answer(alloc, asking.as_ref(), answering.as_ref()).expect(rt, "memory");
    check(rt, fit == *fits, what);
}

#[test]
fn items_set_aside_are_counted(rt: HostRuntime) {
    for row in &READABLE {
        check_row(&rt, rt.alloc(), row);
    }
}

#[test]
fn items_of_unread_calls_are_counted(rt: HostRuntime) {
    for row in &UNREADABLE {
        check_row(&rt, rt.alloc(), row);
    }
}

#[test]
fn answers_fit(rt: HostRuntime) {
    for made in &FIT {
        check_made(&rt, rt.alloc(), made);
    }
}

#[test]
fn other_answers_do_not(rt: HostRuntime) {
    for made in &UNFIT {
        check_made(&rt, rt.alloc(), made);
    }
}

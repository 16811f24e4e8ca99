//! Messages that are read, and written again with the same bytes.

use super::check;
use super::reading::call_of;
use super::spelled::*;
use kmipa_msgs::{Request, Response, write_request, write_response};
use std::alloc::Global;
use std::process::Abort;

// The most items that a message has here.
const MOST: usize = 5;

// Requests and their answers.
const CALLS: [(&str, &str); 5] = [
    (GET_K1, GOT_K1),
    (LIFECYCLE, LIFECYCLE_ANSWERED),
    (LOCATE, LOCATED),
    (FOUR_ITEMS, FOUR_ANSWERS),
    (UNORDERED, REFUSED),
];

// Checks that a request is written as these digits.
fn check_asked(rt: &impl Abort, alloc: Global, request: &Request, digits: &str) {
    check(rt, request.items.len() <= MOST, "many items");
    let item = write_request(alloc, request).expect(rt, "memory");
    check_item(rt, alloc, item, digits);
}

// Checks that a response is written as these digits.
fn check_answered(rt: &impl Abort, alloc: Global, response: &Response, digits: &str) {
    check(rt, response.items.len() <= MOST, "many answers");
    let item = write_response(alloc, response).expect(rt, "memory");
    check_item(rt, alloc, item, digits);
}

// Checks that a request, its answer and a copy of the answer are written as they were.
fn check_call(rt: &impl Abort, alloc: Global, asked: &str, answered: &str) {
    let asked_bytes = bytes_of(rt, alloc, &[asked]);
    let answered_bytes = bytes_of(rt, alloc, &[answered]);
    let (request, response) = call_of(rt, alloc, &asked_bytes, &answered_bytes);
    check_asked(rt, alloc, &request, asked);
    check_answered(rt, alloc, &response, answered);
    let copy = response.copy(alloc).expect(rt, "memory");
    check_answered(rt, alloc, &copy, answered);
}

#[test]
fn messages_are_written_again(rt: HostRuntime) {
    for (asked, answered) in &CALLS {
        check_call(&rt, rt.alloc(), asked, answered);
    }
}

//! Searches of calls that one object refutes, where another call isn't plain.

use super::check;
use super::reading::{declared, transcript_of};
use super::spelled::*;
use kmipa_check::CheckFault;
use kmipa_orders::{Found, Unwatched};
use kmipa_record::{Begin, Mark, Transcript};
use kmipa_search::{search, search_open};
use std::alloc::Global;
use std::process::Abort;

// More steps than any search here makes.
const BUDGET: u64 = 100;

// The bytes of a message, with `k2` in the place of `k1`.
fn of_another(rt: &impl Abort, alloc: Global, digits: &str) -> Vec<u8> {
    let mut named: Vec<u8> = Vec::new(alloc);
    for byte in &bytes_of(rt, alloc, &[digits]) {
        let is_digit = named.last() == Some(&b'k') && *byte == b'1';
        named
            .push(if is_digit { b'2' } else { *byte })
            .expect(rt, "memory");
    }
    named
}

// A Get that shows `k1`, and behind it a call without an end mark, which asks this.
fn followed_by(rt: &impl Abort, alloc: Global, message: Vec<u8>) -> Transcript {
    let mut transcript = transcript_of(rt, alloc, &ONE_CALL);
    let begin = Begin {
        call: 2,
        client: String::from_str(alloc, "a").expect(rt, "memory"),
        message,
    };
    transcript
        .marks
        .push(Mark::Begin(begin))
        .expect(rt, "memory");
    transcript
}

// Checks that `k1` refutes the calls, behind so many steps.
fn check_refuted(rt: &impl Abort, found: Result<Found, CheckFault>, steps: u64) {
    let Ok(Found::Refuted(tried, objects)) = found else {
        rt.panic("not refuted");
    };
    let [object] = objects.as_slice() else {
        rt.panic("not one object");
    };
    check(rt, object.as_str() == "k1", "another object");
    check(rt, tried == steps, "another number of steps");
}

// Checks that nothing is told but the steps.
fn check_gave_up(rt: &impl Abort, found: Result<Found, CheckFault>, steps: u64) {
    let Ok(Found::GaveUp(tried)) = found else {
        rt.panic("not given up");
    };
    check(rt, tried == steps, "another number of steps");
}

// Nothing is declared, so `k1` can't be shown; what an open Activate of `k2` does is no matter.
#[test]
fn object_refutes(rt: HostRuntime) {
    let alloc = rt.alloc();
    let other = of_another(&rt, alloc, ACTIVATE_K1);
    let transcript = followed_by(&rt, alloc, other);
    let declaration = declared(&rt, alloc, &[DECLARATION]);
    check_refuted(&rt, search(alloc, &transcript, &declaration, BUDGET), 1);
    let found = search_open(alloc, &transcript, &declaration, BUDGET, &mut Unwatched {});
    check_refuted(&rt, found, 1);
}

// An open Activate of `k1`, a Register and a Locate may touch it.
#[test]
fn touched_object_refutes_nothing(rt: HostRuntime) {
    let alloc = rt.alloc();
    let declaration = declared(&rt, alloc, &[DECLARATION]);
    for message in [ACTIVATE_K1, REGISTER, LOCATE] {
        let bytes = bytes_of(&rt, alloc, &[message]);
        let transcript = followed_by(&rt, alloc, bytes);
        check_gave_up(&rt, search(alloc, &transcript, &declaration, BUDGET), 1);
    }
}

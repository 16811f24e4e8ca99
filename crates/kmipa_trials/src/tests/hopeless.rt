//! A search of calls of which one is answered as no inventory allows, where no object can be looked at alone.

use super::check;
use super::reading::{declared, transcript_of};
use super::spelled::*;
use kmipa_orders::{Found, Unwatched};
use kmipa_record::{Begin, End, Mark, Transcript};
use kmipa_search::{search, search_open};
use std::alloc::Global;
use std::process::Abort;

// More steps than any search here makes.
const BUDGET: u64 = 100;

// Where the Result Status of the answer `GOT_K1` has its last byte.
const STATUS: usize = 123;

// The answer `GOT_K1`, with this Result Status.
fn answered(rt: &impl Abort, alloc: Global, status: u8) -> Vec<u8> {
    let mut message: Vec<u8> = Vec::new(alloc);
    for (place, byte) in bytes_of(rt, alloc, &[GOT_K1]).iter().enumerate() {
        message
            .push(if place == STATUS { status } else { *byte })
            .expect(rt, "memory");
    }
    message
}

// A Get of `k1` that is answered with this Result Status, and behind it an Activate of `k1` without an end mark.
fn calls(rt: &impl Abort, alloc: Global, status: u8) -> Transcript {
    let mut transcript = transcript_of(rt, alloc, &[TRANSCRIPT, BEGIN_MARK, GET_K1]);
    let end = End {
        call: 1,
        message: answered(rt, alloc, status),
    };
    let begin = Begin {
        call: 2,
        client: String::from_str(alloc, "a").expect(rt, "memory"),
        message: bytes_of(rt, alloc, &[ACTIVATE_K1]),
    };
    transcript.marks.push(Mark::End(end)).expect(rt, "memory");
    transcript
        .marks
        .push(Mark::Begin(begin))
        .expect(rt, "memory");
    transcript
}

// Nothing failed, so that the Get can't be undone; `k1` isn't looked at, since the Activate may touch it.
#[test]
fn undone_alone_is_impossible(rt: HostRuntime) {
    let alloc = rt.alloc();
    let transcript = calls(&rt, alloc, 3);
    let declaration = declared(&rt, alloc, &[DECLARATION, ENTRY]);
    let found = search(alloc, &transcript, &declaration, BUDGET);
    let Ok(Found::Impossible(steps, place)) = found else {
        rt.panic("not impossible");
    };
    check(&rt, steps == 1, "another number of steps");
    check(&rt, place == 0, "another call");
}

// So it is where open calls are taken, too.
#[test]
fn open_calls_do_not_help(rt: HostRuntime) {
    let alloc = rt.alloc();
    let transcript = calls(&rt, alloc, 3);
    let declaration = declared(&rt, alloc, &[DECLARATION, ENTRY]);
    let found = search_open(alloc, &transcript, &declaration, BUDGET, &mut Unwatched {});
    check(
        &rt,
        matches!(&found, Ok(Found::Impossible(_, 0))),
        "not impossible",
    );
}

// The same answer of a Get that was done is one of an order.
#[test]
fn done_is_possible(rt: HostRuntime) {
    let alloc = rt.alloc();
    let transcript = calls(&rt, alloc, 0);
    let declaration = declared(&rt, alloc, &[DECLARATION, ENTRY]);
    let found = search(alloc, &transcript, &declaration, BUDGET);
    check(&rt, matches!(&found, Ok(Found::Yes(_, 1))), "not found");
}

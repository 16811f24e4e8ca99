//! A search of calls whose marks mislead it, and for which the lives of the keys propose an order.

use super::check;
use super::reading::declared;
use super::spelled::*;
use kmipa_orders::Found;
use kmipa_record::{Begin, End, Mark, Transcript};
use kmipa_search::search;
use std::alloc::Global;
use std::process::Abort;

// So many keys, with three calls each.
const KEYS: u8 = 10;

// What is asked of each key and answered, in the reverse of the one order that explains it.
const REVERSED: [(&str, &str); 3] = [
    (ACTIVATE_K1, ACTIVATED_K1),
    (STATE_OF_K1, PRE_ACTIVE_K1),
    (REGISTER, REGISTERED),
];

// The bytes of a message about `k1` or `r1`, as one about the key of this number.
fn message_of(rt: &impl Abort, alloc: Global, digits: &str, key: u8) -> Vec<u8> {
    let mut named: Vec<u8> = Vec::new(alloc);
    for byte in &bytes_of(rt, alloc, &[digits]) {
        match named.pop() {
            Some(b'k' | b'r') if *byte == b'1' => {
                named.push(b'k').expect(rt, "memory");
                named.push(b'1'.wrapping_add(key)).expect(rt, "memory");
            }
            Some(last) => {
                named.push(last).expect(rt, "memory");
                named.push(*byte).expect(rt, "memory");
            }
            None => named.push(*byte).expect(rt, "memory"),
        }
    }
    named
}

// A transcript of these calls, all of which overlap, and begin and end in this order.
fn misleading(rt: &impl Abort, alloc: Global) -> Transcript {
    let mut begins = Vec::new(alloc);
    let mut ends = Vec::new(alloc);
    let mut call = 0i32;
    for (asked, answered) in REVERSED {
        for key in 0..KEYS {
            call = call.wrapping_add(1);
            let begin = Begin {
                call,
                client: String::from_str(alloc, "a").expect(rt, "memory"),
                message: message_of(rt, alloc, asked, key),
            };
            begins.push(Mark::Begin(begin)).expect(rt, "memory");
            let end = End {
                call,
                message: message_of(rt, alloc, answered, key),
            };
            ends.push(Mark::End(end)).expect(rt, "memory");
        }
    }
    begins.append(&mut ends).expect(rt, "memory");
    Transcript {
        marks: begins,
        head: None,
    }
}

// After the first 1,000 steps an order is proposed and accepted, with one step more for each call.
#[test]
fn order_is_proposed(rt: HostRuntime) {
    let alloc = rt.alloc();
    let transcript = misleading(&rt, alloc);
    let declaration = declared(&rt, alloc, &[DECLARATION]);
    let found = search(alloc, &transcript, &declaration, 1_030);
    let Ok(Found::Yes(witness, steps)) = found else {
        rt.panic("no witness");
    };
    check(&rt, witness.turns.len() == 30, "other turns");
    check(&rt, steps == 1_030, "another number of steps");
}

// Where the budget is one step less, none is proposed, and all steps are made.
#[test]
fn budget_is_kept(rt: HostRuntime) {
    let alloc = rt.alloc();
    let transcript = misleading(&rt, alloc);
    let declaration = declared(&rt, alloc, &[DECLARATION]);
    let found = search(alloc, &transcript, &declaration, 1_029);
    let Ok(Found::GaveUp(steps)) = found else {
        rt.panic("a witness");
    };
    check(&rt, steps == 1_029, "another number of steps");
}

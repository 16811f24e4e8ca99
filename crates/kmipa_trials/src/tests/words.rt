//! Texts of faults and names of states, which no clause says.

use super::check;
use kmipa_attrs::AttrFault;
use kmipa_object::{State, WrongState};
use kmipa_ttlv::{FaultKind, TtlvFault};
use std::alloc::Global;
use std::fmt::Display;
use std::process::Abort;

// Whether something is displayed as this text.
fn is_text_of(rt: &impl Abort, alloc: Global, what: &impl Display, text: &str) -> bool {
    let displayed = format!(in alloc; "{what}").expect(rt, "memory");
    displayed.as_str() == text
}

#[test]
fn faults_are_readable(rt: HostRuntime) {
    let alloc = rt.alloc();
    let fault = TtlvFault {
        offset: 8,
        kind: FaultKind::BadText,
    };
    let text = "the text is not UTF-8, at offset 8";
    check(&rt, is_text_of(&rt, alloc, &fault, text), text);
    let text = "NotForClients";
    check(
        &rt,
        is_text_of(&rt, alloc, &AttrFault::NotForClients, text),
        text,
    );
    let text = "the object's state does not allow this";
    check(&rt, is_text_of(&rt, alloc, &WrongState, text), text);
}

// Whether a state has this number and this name.
fn is_named(state: State, number: u32, name: &str) -> bool {
    state.number() == number && state.name() == name
}

#[test]
fn states_are_named(rt: HostRuntime) {
    check(
        &rt,
        is_named(State::PreActive, 1, "Pre-Active"),
        "the first state",
    );
    let last = is_named(State::DestroyedCompromised, 6, "Destroyed Compromised");
    check(&rt, last, "the last state");
}

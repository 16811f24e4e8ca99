//! What an accepted recording leaves.

use super::check;
use super::files::check_declaration;
use super::reading::{declared, transcript_of, witness_of};
use super::spelled::*;
use kmipa_check::{Checked, Refused, Verdict, check_segment};
use kmipa_ops::Why;
use std::alloc::Global;
use std::process::Abort;

// The key `k1` without its bytes.
const ENTRY_ALONE: &str = "\
    540034010000004842009407000000026B31000000000000420057050000000400000002000000004201250100000020\
    4200280500000004000000030000000042002A02000000040000008000000000";

// The check of one call of `k1`, which shows its bytes, where the declaration has this entry, from a moment on.
fn checked(rt: &impl Abort, alloc: Global, entry: &str, since: Option<i64>) -> Checked {
    let transcript = transcript_of(rt, alloc, &ONE_CALL);
    let declaration = declared(rt, alloc, &[DECLARATION, entry]);
    let witness = witness_of(rt, alloc, &[WITNESS, TURN]);
    check_segment(alloc, &transcript, &declaration, &witness, since).expect(rt, "a verdict")
}

#[test]
fn shown_bytes_are_left(rt: HostRuntime) {
    let alloc = rt.alloc();
    let said = checked(&rt, alloc, ENTRY_ALONE, None);
    check(&rt, said.verdict == Verdict::Yes, "no yes");
    let left = said.left.as_ref().expect(&rt, "nothing is left");
    check_declaration(&rt, alloc, &left.declaration, &[DECLARATION, ENTRY]);
}

// What is said of that call, and the last Time Stamp that is left, where anything is.
fn told(
    rt: &impl Abort,
    alloc: Global,
    entry: &str,
    since: Option<i64>,
) -> (Verdict, Option<Option<i64>>) {
    let said = checked(rt, alloc, entry, since);
    let until = match &said.left {
        Some(left) => Some(left.until),
        None => None,
    };
    (said.verdict, until)
}

#[test]
fn nothing_is_left_at_a_no(rt: HostRuntime) {
    let (_, left) = told(&rt, rt.alloc(), OTHER_ENTRY, None);
    check(&rt, left.is_none(), "something is left");
}

// Its one call has the Time Stamp 1,700,000,000.
#[test]
fn a_segment_goes_on_from_its_moment(rt: HostRuntime) {
    let alloc = rt.alloc();
    let (_, last) = told(&rt, alloc, ENTRY, Some(1_700_000_000));
    check(&rt, last == Some(Some(1_700_000_000)), "another last stamp");
    let (below, _) = told(&rt, alloc, ENTRY, Some(1_700_000_001));
    let refused = Refused {
        turn: 1,
        call: 1,
        item: 0,
        why: Why::StampRunsBack,
    };
    check(&rt, below == Verdict::No(refused), "another verdict");
}

//! What is found in recordings of which nothing is declared.

ghost use Rattle.kmipa_record.specs.Declarations.{AreDeclared, declaration_of};

use super::check;
use super::spelled::{
    ACTIVATE_K1, ACTIVATED_K1, GET_K1, GOT_K1, PRE_ACTIVE_K1, STATE_OF_K1, bytes_of,
};
use kmipa_findings::{Finding, Judged, Outcome, Pace, Unpaced, judge, judge_along};
use kmipa_ops::Why;
use kmipa_record::{
    Begin, Declaration, End, Mark, Reach, Transcript, Turn, read_declaration_within,
};
use kmipa_ttlv::Input;
use std::alloc::Global;
use std::process::Abort;

const BUDGET: u64 = 10_000;

const T: i64 = 1_700_000_000;

// Nothing is declared, and nothing is known of other objects.
const NOTHING: &str = "\
    5400300100000050540002020000000400000002000000005400310600000008000000000000000054003505\
    0000000400000003000000005400360200000004000000000000000054003705000000040000000100000000";

// Nothing is declared, nothing is known of other objects, and a server may hide the objects of some clients from others.
const HIDING: &str = "\
    5400300100000050540002020000000400000002000000005400310600000008000000000000000054003505\
    0000000400000003000000005400360200000004000000000000000054003705000000040000000200000000";

// A request to create a key of AES and 128 bits.
const CREATE: &str = "\
    42007801000000B84200770100000038420069010000002042006A0200000004000000020000000042006B0200000004\
    000000010000000042000D0200000004000000010000000042000F010000007042005C05000000040000000100000000\
    420079010000005842005705000000040000000200000000420125010000004042005705000000040000000200000000\
    4200280500000004000000030000000042002A0200000004000000800000000042002C02000000040000000C00000000";

// Its answer: `k1`.
const CREATED_K1: &str = "\
    42007B01000000A042007A0100000048420069010000002042006A0200000004000000020000000042006B0200000004\
    00000001000000004200920900000008000000006553F10042000D0200000004000000010000000042000F0100000048\
    42005C0500000004000000010000000042007F0500000004000000000000000042007C01000000204200570500000004\
    000000020000000042009407000000026B31000000000000";

// The answer of a Get of `k1` with another last byte.
const GOT_OTHER: &str = "\
    42007B010000010042007A0100000048420069010000002042006A0200000004000000020000000042006B0200000004\
    00000001000000004200920900000008000000006553F10042000D0200000004000000010000000042000F01000000A8\
    42005C05000000040000000A0000000042007F0500000004000000000000000042007C01000000804200570500000004\
    000000020000000042009407000000026B3100000000000042008F010000005842004001000000504200420500000004\
    000000010000000042004501000000184200430800000010000102030405060708090A0B0C0D0E1F4200280500000004\
    000000030000000042002A02000000040000008000000000";

// A request to destroy `k1`, and its answer.
const DESTROY_K1: &str = "\
    42007801000000704200770100000038420069010000002042006A0200000004000000020000000042006B0200000004\
    000000010000000042000D0200000004000000010000000042000F010000002842005C05000000040000001400000000\
    420079010000001042009407000000026B31000000000000";

const DESTROYED_K1: &str = "\
    42007B010000009042007A0100000048420069010000002042006A0200000004000000020000000042006B0200000004\
    00000001000000004200920900000008000000006553F10042000D0200000004000000010000000042000F0100000038\
    42005C0500000004000000140000000042007F0500000004000000000000000042007C01000000104200940700000002\
    6B31000000000000";

// An answer of Pre-Active one second before all others.
const PRE_ACTIVE_EARLIER: &str = "\
    42007B01000000A842007A0100000048420069010000002042006A0200000004000000020000000042006B0200000004\
    00000001000000004200920900000008000000006553F0FF42000D0200000004000000010000000042000F0100000050\
    42005C05000000040000000B0000000042007F0500000004000000000000000042007C01000000284200940700000002\
    6B31000000000000420125010000001042008D05000000040000000100000000";

// The answer that there is no such object.
const NOT_FOUND: &str = "\
    42007B010000008842007A0100000048420069010000002042006A0200000004000000020000000042006B0200000004\
    00000001000000004200920900000008000000006553F10042000D0200000004000000010000000042000F0100000030\
    42005C05000000040000000A0000000042007F0500000004000000010000000042007E05000000040000000100000000";

// What a laboratory saw: a call begins, one of another client begins, or the call of this number ends.
#[derive(Clone, Copy)]
enum Seen {
    Begins(i32, &'static str),
    OtherBegins(i32, &'static str),
    Ends(i32, &'static str),
}

// Calls one after the other.
const LIFE: [Seen; 12] = [
    Seen::Begins(1, CREATE),
    Seen::Ends(1, CREATED_K1),
    Seen::Begins(2, GET_K1),
    Seen::Ends(2, GOT_K1),
    Seen::Begins(3, GET_K1),
    Seen::Ends(3, GOT_OTHER),
    Seen::Begins(4, ACTIVATE_K1),
    Seen::Ends(4, ACTIVATED_K1),
    Seen::Begins(5, STATE_OF_K1),
    Seen::Ends(5, PRE_ACTIVE_K1),
    Seen::Begins(6, DESTROY_K1),
    Seen::Ends(6, DESTROYED_K1),
];

// Their turns, and what is set aside in each.
const LIFE_TAKEN: [(i32, &[i32]); 6] = [
    (1, &[]),
    (2, &[]),
    (3, &[1]),
    (4, &[]),
    (5, &[1]),
    (6, &[]),
];

const FAULTLESS: [Seen; 8] = [
    Seen::Begins(1, CREATE),
    Seen::Ends(1, CREATED_K1),
    Seen::Begins(2, GET_K1),
    Seen::Ends(2, GOT_K1),
    Seen::Begins(3, STATE_OF_K1),
    Seen::Ends(3, PRE_ACTIVE_K1),
    Seen::Begins(4, ACTIVATE_K1),
    Seen::Ends(4, ACTIVATED_K1),
];

// The Activate ends first, and comes last.
const OVERLAPPING: [Seen; 6] = [
    Seen::Begins(1, CREATE),
    Seen::Ends(1, CREATED_K1),
    Seen::Begins(2, ACTIVATE_K1),
    Seen::Begins(3, STATE_OF_K1),
    Seen::Ends(2, ACTIVATED_K1),
    Seen::Ends(3, PRE_ACTIVE_K1),
];

// The second answer was given before the first, and the call of the third is open.
const EARLIER: [Seen; 7] = [
    Seen::Begins(1, CREATE),
    Seen::Ends(1, CREATED_K1),
    Seen::Begins(2, STATE_OF_K1),
    Seen::Ends(2, PRE_ACTIVE_EARLIER),
    Seen::Begins(3, DESTROY_K1),
    Seen::Begins(4, GET_K1),
    Seen::Ends(4, GOT_K1),
];

// Both answers of the second Get can't be right, and the calls overlap.
const DIFFERING: [Seen; 6] = [
    Seen::Begins(1, CREATE),
    Seen::Ends(1, CREATED_K1),
    Seen::Begins(2, GET_K1),
    Seen::Begins(3, GET_K1),
    Seen::Ends(2, GOT_K1),
    Seen::Ends(3, GOT_OTHER),
];

// A call began before the answer that is impossible, and is open.
const PENDING: [Seen; 7] = [
    Seen::Begins(1, CREATE),
    Seen::Ends(1, CREATED_K1),
    Seen::Begins(2, DESTROY_K1),
    Seen::Begins(3, GET_K1),
    Seen::Ends(3, GOT_K1),
    Seen::Begins(4, GET_K1),
    Seen::Ends(4, GOT_OTHER),
];

// Another client doesn't find the object of the first, which finds it.
const HIDDEN: [Seen; 6] = [
    Seen::Begins(1, CREATE),
    Seen::Ends(1, CREATED_K1),
    Seen::OtherBegins(2, GET_K1),
    Seen::Ends(2, NOT_FOUND),
    Seen::Begins(3, GET_K1),
    Seen::Ends(3, GOT_K1),
];

// A client doesn't find its own object.
const OWN: [Seen; 4] = [
    Seen::Begins(1, CREATE),
    Seen::Ends(1, CREATED_K1),
    Seen::Begins(2, GET_K1),
    Seen::Ends(2, NOT_FOUND),
];

// A pace whose seven seconds are over.
#[derive(Drop)]
struct Late {}

impl Pace for Late {
    ghost seconds = { λ late. 7 };

    fn step(&mut self, _steps: u64, _taken: usize) {}

    fn over(&self) -> Option<u64> {
        Some(7)
    }
}

fn begin_of(rt: &impl Abort, alloc: Global, call: i32, client: &str, message: &str) -> Mark {
    Mark::Begin(Begin {
        call,
        client: String::from_str(alloc, client).expect(rt, "memory"),
        message: bytes_of(rt, alloc, &[message]),
    })
}

fn mark_of(rt: &impl Abort, alloc: Global, seen: Seen) -> Mark {
    match seen {
        Seen::Begins(call, message) => begin_of(rt, alloc, call, "a", message),
        Seen::OtherBegins(call, message) => begin_of(rt, alloc, call, "b", message),
        Seen::Ends(call, message) => Mark::End(End {
            call,
            message: bytes_of(rt, alloc, &[message]),
        }),
    }
}

fn recorded(rt: &impl Abort, alloc: Global, seen: &[Seen]) -> Transcript {
    let mut marks = Vec::new(alloc);
    for mark in seen {
        marks.push(mark_of(rt, alloc, *mark)).expect(rt, "memory");
    }
    Transcript { marks, head: None }
}

fn declared(rt: &impl Abort, alloc: Global, declaration: &str) -> Declaration
    ensures { AreDeclared (declaration_of result) }
{
    let bytes = bytes_of(rt, alloc, &[declaration]);
    let mut input = Input::new(bytes.as_slice());
    read_declaration_within(alloc, &mut input, Reach::Aside).expect(rt, "a declaration")
}

fn judged(rt: &impl Abort, alloc: Global, seen: &[Seen]) -> Judged {
    let transcript = recorded(rt, alloc, seen);
    let declaration = declared(rt, alloc, NOTHING);
    match judge(alloc, &transcript, &declaration, BUDGET, &mut Unpaced {}) {
        Ok(Outcome::Judged(judged)) => judged,
        _ => rt.panic("undecided"),
    }
}

// What is found along the calls of these numbers, where that is told.
fn found_along(rt: &impl Abort, alloc: Global, seen: &[Seen], order: &[i32]) -> Option<Judged> {
    found_by(rt, alloc, NOTHING, seen, order)
}

// The same by a declaration.
fn found_by(
    rt: &impl Abort,
    alloc: Global,
    declaration: &str,
    seen: &[Seen],
    order: &[i32],
) -> Option<Judged> {
    let transcript = recorded(rt, alloc, seen);
    let declaration = declared(rt, alloc, declaration);
    let mut turns = Vec::new(alloc);
    for call in order {
        turns.push(Turn::bare(alloc, *call)).expect(rt, "memory");
    }
    match judge_along(alloc, &transcript, &declaration, &turns, 9) {
        Ok(Some(Outcome::Judged(judged))) => Some(judged),
        Ok(None) => None,
        _ => rt.panic("memory"),
    }
}

// Checks the calls of a witness, in its order, and what is set aside in each.
fn check_turns(rt: &impl Abort, turns: &[Turn], expected: &[(i32, &[i32])]) {
    check(rt, turns.len() == expected.len(), "as many turns");
    for (turn, (call, asides)) in turns.iter().zip(expected) {
        check(rt, turn.call == *call, "the call of a turn");
        check(
            rt,
            turn.asides.as_slice() == *asides,
            "what a turn sets aside",
        );
    }
}

fn check_finding(rt: &impl Abort, finding: &Finding, place: usize, turn: usize, why: Why) {
    check(rt, finding.place == place, "the place of a finding");
    check(rt, finding.refused.turn == turn, "the turn of a finding");
    check(rt, finding.refused.item == 1, "the item of a finding");
    check(rt, finding.refused.why == why, "the reason of a finding");
    check(rt, finding.stamp == Some(T), "the stamp of a finding");
    check(rt, finding.tried.asides.is_empty(), "a bare turn was tried");
}

#[test]
fn two_answers_are_impossible(rt: HostRuntime) {
    let judged = judged(&rt, rt.alloc(), &LIFE);
    check(&rt, judged.findings.len() == 2, "two findings");
    check_finding(&rt, &judged.findings[0], 2, 3, Why::BytesDiffer);
    check_finding(&rt, &judged.findings[1], 4, 5, Why::AttributeDiffers);
    check_turns(&rt, &judged.witness.turns, &LIFE_TAKEN);
    check(&rt, judged.tally.judged == 4, "four items are judged");
    check(
        &rt,
        judged.tally.by_witness == 2,
        "two are set aside by the witness",
    );
    check(&rt, judged.tally.excepted == 2, "and by it alone");
    check(&rt, judged.is_decided, "no order explains all answers");
}

#[test]
fn nothing_is_found_in_a_faultless_recording(rt: HostRuntime) {
    let judged = judged(&rt, rt.alloc(), &FAULTLESS);
    check(&rt, judged.findings.is_empty(), "no finding");
    check_turns(
        &rt,
        &judged.witness.turns,
        &[(1, &[]), (2, &[]), (3, &[]), (4, &[])],
    );
    check(&rt, judged.tally.judged == 4, "all items are judged");
    check(&rt, judged.steps == 4, "each call is tried once");
    check(&rt, !judged.is_decided, "this order explains all");
}

#[test]
fn the_order_of_calls_that_overlap_is_found(rt: HostRuntime) {
    let judged = judged(&rt, rt.alloc(), &OVERLAPPING);
    check(&rt, judged.findings.is_empty(), "no finding");
    check_turns(&rt, &judged.witness.turns, &[(1, &[]), (3, &[]), (2, &[])]);
}

#[test]
fn a_stamp_runs_back(rt: HostRuntime) {
    let judged = judged(&rt, rt.alloc(), &EARLIER);
    check(&rt, judged.findings.len() == 1, "one finding");
    let finding = &judged.findings[0];
    check(&rt, finding.place == 1, "the second turn");
    check(&rt, finding.refused.item == 0, "the turn itself");
    check(&rt, finding.refused.why == Why::StampRunsBack, "runs back");
    check(&rt, finding.stamp == Some(T - 1), "its stamp");
    check_turns(&rt, &judged.witness.turns, &[(1, &[]), (2, &[0]), (4, &[])]);
    check(&rt, judged.is_decided, "no order explains all answers");
}

#[test]
fn nothing_is_decided_where_calls_overlap(rt: HostRuntime) {
    let judged = judged(&rt, rt.alloc(), &DIFFERING);
    check(&rt, judged.findings.len() == 1, "one finding");
    check_finding(&rt, &judged.findings[0], 2, 3, Why::BytesDiffer);
    check(&rt, !judged.is_decided, "another order was possible");
}

#[test]
fn nothing_is_decided_where_a_call_began_before_and_is_open(rt: HostRuntime) {
    let judged = judged(&rt, rt.alloc(), &PENDING);
    check(&rt, judged.findings.len() == 1, "one finding");
    check_finding(&rt, &judged.findings[0], 2, 3, Why::BytesDiffer);
    check(&rt, !judged.is_decided, "the open call may be taken before");
}

#[test]
fn a_pace_that_is_over_decides_nothing(rt: HostRuntime) {
    let transcript = recorded(&rt, rt.alloc(), &LIFE);
    let declaration = declared(&rt, rt.alloc(), NOTHING);
    match judge(rt.alloc(), &transcript, &declaration, BUDGET, &mut Late {}) {
        Ok(Outcome::Undecided(undecided)) => {
            check(&rt, undecided.over == Some(7), "seven seconds are over");
            check(&rt, undecided.steps == 0, "nothing was tried");
        }
        _ => rt.panic("decided"),
    }
}

#[test]
fn a_small_budget_decides_nothing(rt: HostRuntime) {
    let transcript = recorded(&rt, rt.alloc(), &LIFE);
    let declaration = declared(&rt, rt.alloc(), NOTHING);
    match judge(rt.alloc(), &transcript, &declaration, 3, &mut Unpaced {}) {
        Ok(Outcome::Undecided(undecided)) => {
            check(&rt, undecided.findings.len() == 1, "one was found by then");
            check(&rt, undecided.steps == 3, "the budget is used up");
            check(&rt, undecided.over.is_none(), "and no time");
        }
        _ => rt.panic("decided"),
    }
}

#[test]
fn an_order_is_judged_as_it_stands(rt: HostRuntime) {
    let right = found_along(&rt, rt.alloc(), &OVERLAPPING, &[1, 3, 2]);
    let right = right.expect(&rt, "told");
    check(&rt, right.findings.is_empty(), "no finding");
    check_turns(&rt, &right.witness.turns, &[(1, &[]), (3, &[]), (2, &[])]);
    check(&rt, right.steps == 9, "with the steps that it took");
    let other = found_along(&rt, rt.alloc(), &OVERLAPPING, &[1, 2, 3]);
    let other = other.expect(&rt, "told");
    check(&rt, other.findings.len() == 1, "one finding");
    check_finding(&rt, &other.findings[0], 2, 3, Why::AttributeDiffers);
    check_turns(&rt, &other.witness.turns, &[(1, &[]), (2, &[]), (3, &[1])]);
    check(&rt, !other.is_decided, "another order was possible");
}

#[test]
fn a_stamp_runs_back_along_an_order(rt: HostRuntime) {
    let judged = found_along(&rt, rt.alloc(), &EARLIER, &[1, 2, 4]);
    let judged = judged.expect(&rt, "told");
    check(&rt, judged.findings.len() == 1, "one finding");
    let finding = &judged.findings[0];
    check(&rt, finding.refused.item == 0, "the turn itself");
    check(&rt, finding.refused.why == Why::StampRunsBack, "runs back");
    check_turns(&rt, &judged.witness.turns, &[(1, &[]), (2, &[0]), (4, &[])]);
    check(&rt, judged.is_decided, "no order explains all answers");
}

#[test]
fn nothing_is_told_along_an_order_that_no_witness_has(rt: HostRuntime) {
    let short = found_along(&rt, rt.alloc(), &FAULTLESS, &[1, 2, 3]);
    check(&rt, short.is_none(), "a call is left out");
    let back = found_along(&rt, rt.alloc(), &FAULTLESS, &[1, 3, 2, 4]);
    check(&rt, back.is_none(), "a call comes too late");
    let strange = found_along(&rt, rt.alloc(), &FAULTLESS, &[1, 2, 3, 4, 5]);
    check(&rt, strange.is_none(), "no such call");
}

#[test]
fn an_object_may_be_hidden_along_an_order(rt: HostRuntime) {
    let hidden = found_by(&rt, rt.alloc(), HIDING, &HIDDEN, &[1, 2, 3]);
    let hidden = hidden.expect(&rt, "told");
    check(&rt, hidden.findings.is_empty(), "no finding");
    check(&rt, hidden.tally.judged == 3, "all items are judged");
    let seen = found_by(&rt, rt.alloc(), NOTHING, &HIDDEN, &[1, 2, 3]);
    let seen = seen.expect(&rt, "told");
    check(&rt, seen.findings.len() == 1, "one finding");
    check_finding(&rt, &seen.findings[0], 1, 2, Why::ReasonUnfounded);
    let own = found_by(&rt, rt.alloc(), HIDING, &OWN, &[1, 2]);
    let own = own.expect(&rt, "told");
    check(&rt, own.findings.len() == 1, "an own object is seen");
    check_finding(&rt, &own.findings[0], 1, 2, Why::ReasonUnfounded);
}

//! What a search of all calls comes to.

ghost use Rattle.std.specs.Prelude.{◌≡◌, ℕ, IfOk, true};
ghost use Rattle.kmipa_record.specs.Declarations.{AreDeclared, declaration_of};
ghost use Rattle.kmipa_record.specs.Marks.{AreRecorded};
ghost use Rattle.kmipa_record.specs.Transcripts.{transcript_of};
ghost use Rattle.kmipa_orders.specs.Found.{FindsIn};
ghost use Rattle.kmipa_judge.specs.Unexplained.{IsLooked, IsRefutedAsEver};

use crate::seeking::is_plain;
use kmipa_check::CheckFault;
use kmipa_findings::{Outcome, judge_order};
use kmipa_orders::{Found, Watch};
use kmipa_record::{Declaration, Transcript, Witness};
use kmipa_searches::{SearchOptions, is_refuted, search_records};
use kmipa_trail::Fault;
use std::alloc::Global;

/// The time that a search has by a watcher, who isn't told of its steps.
#[derive(Drop)]
pub(crate) struct Timed<'w, W> {
    pub watch: &'w W,
}

impl<W: Watch> Watch for Timed<'_, W> {
    ghost seconds = { λ timed. W.seconds timed.watch.now };

    fn step(&mut self, _steps: u64, _taken: usize) {}

    fn taken(&mut self, _call: i32) {}

    fn given_back(&mut self) {}

    fn over(&self) -> Option<u64> {
        self.watch.over()
    }
}

/// What a search of all calls comes to.
#[derive(Drop)]
pub(crate) enum Looked {
    /// What comes of an order that a check accepts.
    Found(Outcome),
    /// No order explains every answer.
    Refuted,
    Undecided,
}

/// What a search of all calls comes to with at most so many steps, open calls taken where answers need them. It knows nothing of what is set aside: so it
/// refutes only where nothing is to be, and no message is outside.
pub(crate) fn look_as_ever<W: Watch + Drop>(
    alloc: Global,
    transcript: &Transcript,
    declaration: &Declaration,
    budget: u64,
    watch: &W,
) -> Result<Looked, Fault>
    requires { AreDeclared (declaration_of declaration.now) }
    ensures { AreRecorded (transcript_of transcript.now) → IfOk result
        (IsLooked (transcript_of transcript.now) (declaration_of declaration.now)) }
{
    let mut timed = Timed { watch };
    let asked = SearchOptions {
        budget,
        forced: false,
        open: true,
    };
    match search_records(alloc, transcript, declaration, asked, &mut timed) {
        Ok(searched) => come_of(alloc, transcript, declaration, budget, searched.found),
        Err(CheckFault::Memory) => Err(Fault::Memory),
        Err(CheckFault::Outside(..) | CheckFault::Witness(_)) => Ok(Looked::Undecided),
    }
}

/// What this comes to, which a search of all calls found with a budget.
fn come_of(
    alloc: Global,
    transcript: &Transcript,
    declaration: &Declaration,
    budget: u64,
    found: Found,
) -> Result<Looked, Fault>
    requires { AreDeclared (declaration_of declaration.now) }
    ensures { (seconds : ℕ) → AreRecorded (transcript_of transcript.now)
        → FindsIn seconds (transcript_of transcript.now) (declaration_of declaration.now) budget found
        → IfOk result (IsLooked (transcript_of transcript.now) (declaration_of declaration.now)) }
{
    if refutes(alloc, transcript, declaration, budget, &found)? {
        return Ok(Looked::Refuted);
    }
    match found {
        Found::Yes(witness, steps) => { look_along(alloc, transcript, declaration, witness, steps) }
        Found::GaveUp(_steps) => Ok(Looked::Undecided),
        Found::Refuted(_steps, _objects) => Ok(Looked::Undecided),
        Found::Impossible(_steps, _call) => Ok(Looked::Undecided),
        Found::OutOfTime(_steps, _after) => Ok(Looked::Undecided),
    }
}

/// What this order comes to, which was found with so many steps.
fn look_along(
    alloc: Global,
    transcript: &Transcript,
    declaration: &Declaration,
    witness: Witness,
    steps: u64,
) -> Result<Looked, Fault>
    requires { AreDeclared (declaration_of declaration.now) }
    ensures { AreRecorded (transcript_of transcript.now) → IfOk result
        (IsLooked (transcript_of transcript.now) (declaration_of declaration.now)) }
{
    match judge_order(alloc, transcript, declaration, witness, steps)? {
        Some(outcome) => Ok(Looked::Found(outcome)),
        None => Ok(Looked::Undecided),
    }
}

/// Whether what was found says that no order explains every answer, and nothing is to be set aside.
fn refutes(
    alloc: Global,
    transcript: &Transcript,
    declaration: &Declaration,
    budget: u64,
    found: &Found,
) -> Result<bool, Fault>
    ensures { (seconds : ℕ) → AreRecorded (transcript_of transcript.now)
        → FindsIn seconds (transcript_of transcript.now) (declaration_of declaration.now) budget found.now
        → IfOk result (λ refuted. refuted ≡ true
        → IsRefutedAsEver (transcript_of transcript.now) (declaration_of declaration.now)) }
{
    if !is_plain(declaration) {
        return Ok(false);
    }
    match is_refuted(alloc, transcript, declaration, budget, found) {
        Ok(refuted) => Ok(refuted),
        Err(CheckFault::Memory) => Err(Fault::Memory),
        Err(CheckFault::Outside(..) | CheckFault::Witness(_)) => Ok(false),
    }
}

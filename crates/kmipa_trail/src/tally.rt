//! How many items of a run are judged.

ghost use Rattle.std.specs.Prelude.{◌≡◌, ◌+◌, ◌^◌, ℕ};
ghost use Rattle.kmipa_bundle.specs.Counts.{counts_of};
ghost use Rattle.kmipa_trail.specs.Summing.{IsWithin};
ghost use Rattle.kmipa_trail.specs.Tallies.{no_tally, tally_plus};
ghost use Rattle.kmipa_trail.specs.Told.{tally_of};

use kmipa_bundle::Counts;

/// How many items of a run are judged, and how many aren't, by the first reason of each.
#[derive(Clone, Copy, PartialEq, Eq)]
pub struct Tally {
    /// Their requests aren't judged.
    pub by_request: u128,
    /// Their answers aren't.
    pub by_answer: u128,
    /// The witness sets them aside.
    pub by_witness: u128,
    /// They are about what is set aside, or nobody can tell about what.
    pub by_object: u128,
    /// They are judged.
    pub judged: u128,
    /// What is set aside by the witness alone: items, and whole calls.
    pub excepted: u128,
}

impl Tally {
    /// None yet.
    pub(crate) fn new() -> Tally
        ensures { tally_of result ≡ no_tally }
    {
        Tally {
            by_request: 0,
            by_answer: 0,
            by_witness: 0,
            by_object: 0,
            judged: 0,
            excepted: 0,
        }
    }

    /// With the items of one call more, and what is excepted of it.
    pub(crate) fn with(self, counts: Counts, excepted: usize) -> Tally
        requires { IsWithin (2 ^ 63) (tally_of self) }
        ensures sum { tally_of result ≡ tally_plus (tally_of self) (counts_of counts) excepted }
        ensures within { (calls : ℕ) → IsWithin calls (tally_of self) → IsWithin (calls + 1) (tally_of result) }
    {
        Tally {
            by_request: self.by_request + counts.by_request as u128,
            by_answer: self.by_answer + counts.by_answer as u128,
            by_witness: self.by_witness + counts.by_witness as u128,
            by_object: self.by_object + counts.by_object as u128,
            judged: self.judged + counts.judged as u128,
            excepted: self.excepted + excepted as u128,
        }
    }
}

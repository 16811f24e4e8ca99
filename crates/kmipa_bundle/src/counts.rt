//! How many places of a call are judged.

ghost use Rattle.std.specs.Prelude.{◌≡◌, ◌<◌};
ghost use Rattle.kmipa_bundle.specs.Counts.{counted, counts_of, no_counts, total};

use crate::ruling::Ruling;

/// How many places of a call are judged, and how many aren't, by the first reason of each.
#[derive(Clone, Copy, PartialEq, Eq)]
pub struct Counts {
    /// Their requests aren't judged, or ask for no operation that is.
    pub by_request: usize,
    /// Their answers aren't.
    pub by_answer: usize,
    /// The witness sets them aside.
    pub by_witness: usize,
    /// They are about what is set aside, or nobody can tell about what.
    pub by_object: usize,
    /// They are judged.
    pub judged: usize,
}

impl Counts {
    /// None yet.
    pub(crate) fn new() -> Counts
        ensures { counts_of result ≡ no_counts }
    {
        Counts {
            by_request: 0,
            by_answer: 0,
            by_witness: 0,
            by_object: 0,
            judged: 0,
        }
    }

    /// One more.
    pub(crate) fn add(self, ruling: Ruling) -> Counts
        requires { total (counts_of self) < usize.MAX }
        ensures { counts_of result ≡ counted ruling (counts_of self) }
    {
        let mut counts = self;
        match ruling {
            Ruling::ByRequest => counts.by_request += 1,
            Ruling::ByAnswer => counts.by_answer += 1,
            Ruling::ByWitness => counts.by_witness += 1,
            Ruling::ByObject => counts.by_object += 1,
            Ruling::Judged => counts.judged += 1,
        }
        counts
    }
}

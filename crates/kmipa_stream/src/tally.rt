//! What becomes of the items of a run.

/// How many items of a run were judged, and how many were set aside, of the places of all its turns that have a Batch Item in the request
/// and in the response. Each number stops at the greatest `u64`.
#[derive(Clone, Copy, PartialEq, Eq)]
pub struct Tally {
    /// How many were judged.
    pub judged: u64,
    /// How many were set aside by their request: it asks for none of the operations that are judged.
    pub by_request: u64,
}

impl Tally {
    ghost use Rattle.std.specs.Prelude.{◌≡◌, ◌+◌};
    ghost use Rattle.kmipa_ttlv.specs.Stream.{capped};

    /// How many items there were.
    pub fn items(self) -> u64
        ensures { result ≡ capped (self.judged + self.by_request) }
    {
        self.judged.saturating_add(self.by_request)
    }
}

//! Which calls of a recording are kept.

ghost use Rattle.std.specs.Prelude.{◌≡◌, Bool, List, Option, slice_get};
ghost use Rattle.kmipa_check.specs.Numbers.{place_in};
ghost use Rattle.kmipa_judge.specs.Parts.{is_kept, keeps};

use kmipa_check::FirstPlaces;

/// Which calls are kept: those of the turns of a witness that have a true truth here. A call stands in these places where the turn stands that names it.
#[derive(Clone, Copy)]
pub(crate) struct Kept<'k> {
    pub places: &'k FirstPlaces,
    pub turns: &'k [bool],
}

impl Kept<'_> {
    /// Whether the call of this number is kept.
    pub(crate) fn keeps(self, call: i32) -> bool
        ensures { result ≡ keeps self.entry.places.now self.entry.turns.now call }
    {
        match self.places.place(call) {
            Some(place) => is_kept(self.turns, place),
            None => false,
        }
    }
}

fn is_kept(turns: &[bool], place: usize) -> bool
    ensures { result ≡ is_kept turns.now place }
{
    match turns.get(place) {
        Some(kept) => *kept,
        None => false,
    }
}

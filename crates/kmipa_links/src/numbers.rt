//! Call numbers, each with the place of its segment.

ghost use Rattle.std.specs.Prelude.{◌≡◌, ◌+◌, ◌∷◌, ◌++◌, ℤ, List, [], IfOk, length};
ghost use Rattle.std.specs.Prelude.{Contains};
ghost use Rattle.kmipa_links.specs.Numbers.{IsClash, Know, first_of};

use kmipa_record::NumberMap;
use std::alloc::AllocError;

/// A call that stands in a segment before its own too.
#[derive(Clone, Copy)]
pub struct Clash {
    pub call: i32,
    /// The place of that segment.
    pub place: usize,
}

/// Takes a call number of the segment at a place, behind those that were taken; `clash` is the first of its numbers that stands in a segment
/// before it.
pub fn take_number(
    calls: &mut NumberMap<usize>,
    call: i32,
    place: usize,
    clash: Option<Clash>,
) -> Result<Option<Clash>, AllocError>
    ensures { (numbers : List (List ℤ)) (own : List ℤ) → length numbers ≡ place → Know (numbers ++ (own ∷ [])) calls.old
        → IsClash numbers own clash → ¬ (Contains own call)
        → IfOk result (λ next. Know (numbers ++ ((own ++ (call ∷ [])) ∷ [])) calls.new
        × IsClash numbers (own ++ (call ∷ [])) next) }
{
    match calls.get(call) {
        Some(other) => Ok(first_of(clash, Clash { call, place: other })),
        None => {
            calls.add(call, place)?;
            Ok(clash)
        }
    }
}

/// The clash that was there first.
fn first_of(clash: Option<Clash>, other: Clash) -> Option<Clash>
    ensures { result ≡ first_of clash other }
{
    match clash {
        Some(first) => Some(first),
        None => Some(other),
    }
}

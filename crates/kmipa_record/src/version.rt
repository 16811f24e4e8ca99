//! Versions of a witness: each has what the one before it has, and more.

ghost use Rattle.std.specs.Prelude.{◌≡◌, ◌≢◌, ◌≤◌, ◌⊎◌, pos, MatchOption};
ghost use Rattle.kmipa_record.specs.Witnesses.{version_number, turn_of};
ghost use Rattle.kmipa_record.specs.Writing.{Serves};

use crate::turn::Turn;

/// The version of a witness.
#[derive(Clone, Copy)]
pub enum Version {
    /// Turns with fills.
    First,
    /// Besides, answers of calls that did not end.
    Second,
    /// Besides, the places of a call's items in the order in which they are taken.
    Third,
    /// Besides, moments, births, and the places of items that are set aside.
    Fourth,
}

impl Version {
    /// The number of the version.
    pub fn number(self) -> i32
        ensures { result ≡ pos (version_number self) }
    {
        match self {
            Version::First => 1,
            Version::Second => 2,
            Version::Third => 3,
            Version::Fourth => 4,
        }
    }
}

/// The newer of two versions.
pub fn newer(a: Version, b: Version) -> Version
    ensures { (version_number a ≤ version_number result) × (version_number b ≤ version_number result)
        × ((result ≡ a) ⊎ (result ≡ b)) }
{
    match (a, b) {
        (Version::Fourth, _) | (_, Version::Fourth) => Version::Fourth,
        (Version::Third, _) | (_, Version::Third) => Version::Third,
        (Version::Second, _) | (_, Version::Second) => Version::Second,
        (Version::First, Version::First) => Version::First,
    }
}

/// The version with this number.
pub fn version_of(number: i32) -> Option<Version>
    ensures { MatchOption result ((version : Version) → number ≢ pos (version_number version))
        (λ version. number ≡ pos (version_number version)) }
{
    match number {
        1 => Some(Version::First),
        2 => Some(Version::Second),
        3 => Some(Version::Third),
        4 => Some(Version::Fourth),
        _ => None,
    }
}

/// The lowest version that has such a turn.
pub fn needed(turn: &Turn) -> Version
    ensures serves { Serves result (turn_of turn.now) }
    ensures least { (other : Version) → Serves other (turn_of turn.now) → version_number result ≤ version_number other }
{
    if turn.moment.is_some() {
        return Version::Fourth;
    }
    if !turn.births.is_empty() {
        return Version::Fourth;
    }
    if !turn.asides.is_empty() {
        return Version::Fourth;
    }
    if !turn.places.is_empty() {
        return Version::Third;
    }
    match &turn.answer {
        Some(_) => Version::Second,
        None => Version::First,
    }
}

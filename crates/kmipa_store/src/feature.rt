//! What an object is or has, as a Locate asks for it; names are apart.

ghost use Rattle.std.specs.Prelude.{◌≡◌};
ghost use Rattle.kmipa_store.specs.Ledger.{held};
ghost use Rattle.kmipa_store.specs.Queries.{has_feature, has_length, has_number};

use kmipa_object::{Object, state_at};

/// One thing that an object is or has.
#[derive(Clone, Copy, PartialEq, Eq)]
pub enum Feature {
    /// It has no Destroy Date.
    Live,
    /// It is in the state of this number.
    State(u32),
    /// It is of the Object Type of this number.
    Kind(u32),
    /// It has the Cryptographic Algorithm of this number.
    Algorithm(u32),
    /// It has this Cryptographic Length, in bits.
    Length(i32),
}

impl Feature {
    ghost use Rattle.std.specs.Prelude.{◌≡◌};
    ghost use Rattle.kmipa_store.specs.Features.{code, is_lasting};

    /// Whether an object that has it has it as long as it stands.
    pub fn is_lasting(self) -> bool
        ensures { result ≡ is_lasting self }
    {
        match self {
            Feature::Live | Feature::State(_) => false,
            Feature::Kind(_) | Feature::Algorithm(_) | Feature::Length(_) => true,
        }
    }

    /// The number under which it is listed.
    pub fn code(self) -> u64
        ensures { result ≡ code self }
    {
        match self {
            Feature::Live => 0,
            Feature::State(number) => number as u64 * 8 + 1,
            Feature::Kind(number) => number as u64 * 8 + 2,
            Feature::Algorithm(number) => number as u64 * 8 + 3,
            Feature::Length(bits) => bits.cast_unsigned() as u64 * 8 + 4,
        }
    }
}

/// Whether an object has a feature at a moment, in seconds since 1970-01-01T00:00:00Z.
pub fn has_feature(object: &Object, feature: Feature, t: i64) -> bool
    ensures { result ≡ has_feature feature t (held object.now) }
{
    match feature {
        Feature::Live => object.life.destroy.is_none(),
        Feature::State(number) => number == state_at(&object.life, t).number(),
        Feature::Kind(number) => number == object.kind.number(),
        Feature::Algorithm(number) => has_number(object.given.algorithm, number),
        Feature::Length(bits) => has_length(object.given.length, bits),
    }
}

/// Whether a number is there, and is this one.
fn has_number(own: Option<u32>, number: u32) -> bool
    ensures { result ≡ has_number own number }
{
    match own {
        Some(own) => own == number,
        None => false,
    }
}

/// Whether a length is there, and is this one.
fn has_length(own: Option<i32>, bits: i32) -> bool
    ensures { result ≡ has_length own bits }
{
    match own {
        Some(own) => own == bits,
        None => false,
    }
}

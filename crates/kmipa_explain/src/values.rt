//! The attributes of an object that have one value each, as they are shown and as the object has them.

ghost use Rattle.std.specs.Prelude.{◌≡◌, IfOk, option_map, pos};
ghost use Rattle.kmipa_attrs.specs.Sets.{attributes_of};
ghost use Rattle.kmipa_object.specs.Life.{state};
ghost use Rattle.kmipa_record.specs.Entries.{entry_of};
ghost use Rattle.kmipa_check.specs.Described.{dates_in};
ghost use Rattle.kmipa_explain.specs.Values.{attributes_at, value_in, value_told};

use crate::held::ValueHeld;
use crate::holding::{dates_in, life_with};
use kmipa_attrs::AttrSet;
use kmipa_object::{State, state_at};
use kmipa_ops::Judged;
use kmipa_record::Entry;
use std::alloc::{AllocError, Global};

/// The attributes that have one value each, in the order of their tags.
pub(crate) const SINGLE: [Judged; 10] = [
    Judged::ActivationDate,
    Judged::CompromiseDate,
    Judged::CryptographicAlgorithm,
    Judged::CryptographicLength,
    Judged::CryptographicUsageMask,
    Judged::DeactivationDate,
    Judged::DestroyDate,
    Judged::InitialDate,
    Judged::ObjectType,
    Judged::State,
];

/// All attributes of a declared object at a moment.
pub(crate) fn attributes_at(alloc: Global, entry: &Entry, t: i64) -> Result<AttrSet, AllocError>
    ensures { IfOk result (λ own. attributes_of own ≡ attributes_at (entry_of entry.now) t) }
{
    let mut own = entry.attrs.copy(alloc)?;
    own.object_type = Some(entry.kind.number());
    own.state = Some(state_of(&entry.attrs, t).number());
    Ok(own)
}

/// The state of an object with these attributes at a moment.
fn state_of(attrs: &AttrSet, t: i64) -> State
    ensures { result ≡ state (dates_in (attributes_of attrs.now)) t }
{
    state_at(&life_with(dates_in(attrs)), t)
}

/// What is told of an attribute: its value as it is shown, and as the object has it.
pub(crate) fn value_told(shown: &AttrSet, own: &AttrSet, attribute: Judged) -> ValueHeld
    ensures { result ≡ value_told (attributes_of shown.now) (attributes_of own.now) attribute }
{
    ValueHeld {
        attribute,
        shown: value_in(shown, attribute),
        held: value_in(own, attribute),
    }
}

/// The value of an attribute among these: a number, or seconds since 1970. Names have none.
pub(crate) fn value_in(attrs: &AttrSet, attribute: Judged) -> Option<i64>
    ensures { result ≡ value_in (attributes_of attrs.now) attribute }
{
    match attribute {
        Judged::ActivationDate => attrs.activation,
        Judged::CompromiseDate => attrs.compromise,
        Judged::CryptographicAlgorithm => of_number(attrs.algorithm),
        Judged::CryptographicLength => of_signed(attrs.length),
        Judged::CryptographicUsageMask => of_signed(attrs.mask),
        Judged::DeactivationDate => attrs.deactivation,
        Judged::DestroyDate => attrs.destroy,
        Judged::InitialDate => attrs.initial,
        Judged::Name => None,
        Judged::ObjectType => of_number(attrs.object_type),
        Judged::State => of_number(attrs.state),
    }
}

/// The value that a number is.
fn of_number(number: Option<u32>) -> Option<i64>
    ensures { result ≡ option_map pos number }
{
    match number {
        Some(number) => Some(i64::from(number)),
        None => None,
    }
}

/// The value that a signed number is.
fn of_signed(number: Option<i32>) -> Option<i64>
    ensures { result ≡ number }
{
    match number {
        Some(number) => Some(i64::from(number)),
        None => None,
    }
}

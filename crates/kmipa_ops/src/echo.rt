//! Fields that may be absent, beside what is expected of them.

ghost use Rattle.std.specs.Prelude.{◌≡◌, ◌==◌, ℕ, bytes_eq};
ghost use Rattle.std.specs.Ordering.{int_eq};
ghost use Rattle.kmipa_msgs.specs.Messages.{maybe_lent};
ghost use Rattle.kmipa_ops.specs.Objects.{clash, is_other, same_type, is_other_id};

use kmipa_attrs::ObjectType;

/// Whether a number is there, and isn't the one expected.
pub fn is_other_number(said: Option<u32>, expected: u32) -> bool
    ensures { result ≡ is_other (λ (x y : ℕ). x == y) said expected }
{
    match said {
        Some(number) => number != expected,
        None => false,
    }
}

/// Two numbers are there, and differ.
pub(crate) fn clash_numbers(said: Option<u32>, known: Option<u32>) -> bool
    ensures { result ≡ clash (λ (x y : ℕ). x == y) said known }
{
    match said {
        Some(number) => is_other_number(known, number),
        None => false,
    }
}

/// Two lengths are there, and differ.
pub(crate) fn clash_lengths(said: Option<i32>, known: Option<i32>) -> bool
    ensures { result ≡ clash int_eq said known }
{
    match said {
        Some(length) => is_other_length(known, length),
        None => false,
    }
}

fn is_other_length(said: Option<i32>, expected: i32) -> bool
    ensures { result ≡ is_other int_eq said expected }
{
    match said {
        Some(length) => length != expected,
        None => false,
    }
}

/// A type is there, and isn't the one expected.
pub(crate) fn is_other_type(said: Option<ObjectType>, expected: ObjectType) -> bool
    ensures { result ≡ is_other same_type said expected }
{
    match said {
        Some(kind) => kind.number() != expected.number(),
        None => false,
    }
}

/// A text is there, and isn't the one expected.
fn is_other_text(said: Option<&str>, expected: &str) -> bool
    ensures { result ≡ is_other bytes_eq (maybe_lent said.entry) expected.now }
{
    match said {
        Some(text) => text != expected,
        None => false,
    }
}

/// An identifier is there, and isn't the one that is meant.
#[inline(always)]
pub(crate) fn is_other_id(shown: Option<&str>, about: Option<&str>) -> bool
    ensures { result ≡ is_other_id (maybe_lent shown.entry) (maybe_lent about.entry) }
{
    match about {
        Some(id) => is_other_text(shown, id),
        None => false,
    }
}

/// Whether two byte strings are there, and differ.
pub fn clash_bytes(said: Option<&[u8]>, known: Option<&[u8]>) -> bool
    ensures { result ≡ clash bytes_eq (maybe_lent said.entry) (maybe_lent known.entry) }
{
    match said {
        Some(bytes) => is_other_bytes(known, bytes),
        None => false,
    }
}

fn is_other_bytes(said: Option<&[u8]>, expected: &[u8]) -> bool
    ensures { result ≡ is_other bytes_eq (maybe_lent said.entry) expected.now }
{
    match said {
        Some(bytes) => bytes != expected,
        None => false,
    }
}

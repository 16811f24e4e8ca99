//! Operations, by what they may do where they aren't judged.

ghost use Rattle.std.specs.Prelude.{◌≡◌};
ghost use Rattle.kmipa_ttlv.specs.ViewTree.{view_trees};
ghost use Rattle.kmipa_passed.specs.Sorts.{by_number, sort_of};

use crate::attributes::is_of_unjudged;
use kmipa_ttlv::Children;

/// What an operation may do to objects that a server holds (KMIP 2.1, sections 6 and 11).
#[derive(Clone, Copy, PartialEq, Eq)]
pub enum Sort {
    /// Nothing.
    Looks,
    /// It may change the object that it is about, and those that its request names.
    Changes,
    /// It makes one object, whose identifier its answer shows: Create and Register.
    Makes,
    /// It may make objects, and change those that its messages name: Poll, too, which asks for the answer of another call.
    MayMake,
    /// It may change what none of its messages names.
    EndsJudging,
}

/// The sort of the operation of this number, asked for by these children of its Request Payload: those of one attribute only look where it is
/// one that isn't judged.
pub fn sort_of(operation: u32, payload: Children) -> Sort
    ensures { result ≡ sort_of operation (view_trees payload.entry) }
{
    match operation {
        0x0D | 0x0E | 0x0F | 0x30 | 0x31 => {
            if is_of_unjudged(payload) {
                Sort::Looks
            } else {
                Sort::Changes
            }
        }
        _ => by_number(operation),
    }
}

/// The sort of an operation that is none of one attribute.
fn by_number(operation: u32) -> Sort
    ensures { result ≡ by_number operation }
{
    match operation {
        0x08 | 0x09 | 0x0A | 0x0B | 0x0C | 0x10 | 0x11 | 0x17 | 0x18 => Sort::Looks,
        0x1E | 0x1F | 0x20 | 0x21 | 0x22 | 0x23 | 0x24 | 0x25 | 0x26 | 0x27 => Sort::Looks,
        0x2B | 0x2C | 0x2D | 0x2E | 0x2F | 0x38 | 0x39 | 0x3B => Sort::Looks,
        0x12 | 0x13 | 0x14 | 0x15 | 0x16 => Sort::Changes,
        0x01 | 0x03 => Sort::Makes,
        0x32 | 0x33 | 0x34 | 0x36 | 0x37 => Sort::EndsJudging,
        _ => Sort::MayMake,
    }
}

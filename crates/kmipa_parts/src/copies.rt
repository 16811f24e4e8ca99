//! Copies of what was asked, of one object.

ghost use Rattle.std.specs.Prelude.{◌≡◌, Some, IfOk};
ghost use Rattle.kmipa_msgs.specs.Messages.{asked_of, locate_of};
ghost use Rattle.kmipa_parts.specs.Parts.{written};

use kmipa_attrs::Filter;
use kmipa_msgs::{Asked, Locate};
use std::alloc::{AllocError, Global};

/// The same ask, with the identifier of an object written out.
pub fn written<'a>(alloc: Global, id: &'a str, asked: &Asked<'a>) -> Result<Asked<'a>, AllocError>
    ensures { IfOk result (λ copy. asked_of copy ≡ written id.now (asked_of asked.now)) }
{
    asked.naming(alloc, Some(id))
}

/// A Locate by the same filters, with this maximum.
pub fn limited(alloc: Global, locate: &Locate, most: i32) -> Result<Locate, AllocError>
    ensures { IfOk result (λ copy. locate_of copy ≡ record (locate_of locate.now) { maximum = Some most }) }
{
    Ok(Locate {
        filter: Box::new(
            alloc,
            Filter {
                maximum: Some(most),
                ..locate.filter.copy(alloc)?
            },
        )?,
    })
}

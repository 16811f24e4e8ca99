//! The lines of why an object can't be made, or be as it is shown: its identifier is taken, or a name, or no such key exists.

ghost use Rattle.std.specs.Prelude.{◌≡◌, IfOk, string_bytes};
ghost use Rattle.kmipa_telling.specs.MakingCauses.{algorithm_text, bits_text, identifier_line, length_lines, name_line, size_text};

use crate::naming::{name_text, number_text, object_type_text};
use kmipa_explain::{LengthHeld, NameHeld};
use kmipa_runs::{algorithm_name, quoted_text};
use std::alloc::{AllocError, Global};

/// The line of an identifier that an object has already.
pub fn identifier_line(alloc: Global, id: &str) -> Result<String, AllocError>
    ensures { IfOk result (λ text. string_bytes text ≡ identifier_line id.now) }
{
    let identifier = quoted_text(alloc, id)?;
    format!(in alloc; "identifier taken: {identifier}\n")
}

/// The line of a name that a live object has already, and of that object.
pub fn name_line(alloc: Global, held: &NameHeld) -> Result<String, AllocError>
    ensures { IfOk result (λ text. string_bytes text ≡ name_line held.now) }
{
    let name = name_text(alloc, &held.name)?;
    let bearer = quoted_text(alloc, held.bearer.as_str())?;
    format!(in alloc; "name taken: {name}, by {bearer}\n")
}

/// The lines of bytes, and of what they can't be the key of.
pub fn length_lines(alloc: Global, held: &LengthHeld) -> Result<String, AllocError>
    ensures { IfOk result (λ text. string_bytes text ≡ length_lines held.now) }
{
    let kind = object_type_text(alloc, held.object_type.number())?;
    let algorithm = algorithm_text(alloc, held.algorithm)?;
    let length = bits_text(alloc, held.length)?;
    let size = size_text(alloc, held.bytes)?;
    format!(in alloc;
        "object type: {kind}\nalgorithm: {algorithm}\nlength: {length}\nbytes: {size}\n"
    )
}

fn algorithm_text(alloc: Global, algorithm: Option<u32>) -> Result<String, AllocError>
    ensures { IfOk result (λ text. string_bytes text ≡ algorithm_text algorithm) }
{
    match algorithm {
        Some(number) => number_text(alloc, i64::from(number), algorithm_name(number)),
        None => String::from_str(alloc, "none"),
    }
}

fn bits_text(alloc: Global, length: Option<i32>) -> Result<String, AllocError>
    ensures { IfOk result (λ text. string_bytes text ≡ bits_text length) }
{
    match length {
        Some(bits) => format!(in alloc; "{bits} bits"),
        None => String::from_str(alloc, "none"),
    }
}

fn size_text(alloc: Global, bytes: Option<usize>) -> Result<String, AllocError>
    ensures { IfOk result (λ text. string_bytes text ≡ size_text bytes) }
{
    match bytes {
        Some(count) => count.to_string(alloc),
        None => String::from_str(alloc, "not seen, and none would do"),
    }
}

//! Texts with each byte as it is or escaped, whatever their bytes are.

ghost use Rattle.std.specs.Prelude.{◌≡◌, ◌++◌, IfOk, OnOk, string_bytes};
ghost use Rattle.std.specs.List.{flat_map};
ghost use Rattle.kmipa_runs.specs.Shown.{escaped, quoted};

use crate::values::is_plain;
use std::alloc::{AllocError, Global};

/// A text between double quotes, with each byte as it is or escaped.
pub fn quoted_text(alloc: Global, text: &str) -> Result<String, AllocError>
    ensures { IfOk result (λ told. string_bytes told ≡ quoted text.now) }
{
    let mut told = String::from_str(alloc, "\"")?;
    'bytes: for byte in text.as_bytes() {
        push_escaped(alloc, &mut told, *byte)?;
    }
    told.push_str("\"")?;
    Ok(told)
}

/// The same without the quotes.
pub fn escaped_text(alloc: Global, text: &str) -> Result<String, AllocError>
    ensures { IfOk result (λ told. string_bytes told ≡ flat_map escaped text.now) }
{
    let mut told = String::new(alloc);
    'bytes: for byte in text.as_bytes() {
        push_escaped(alloc, &mut told, *byte)?;
    }
    Ok(told)
}

fn push_escaped(alloc: Global, told: &mut String, byte: u8) -> Result<(), AllocError>
    ensures { OnOk result (string_bytes told.new ≡ string_bytes told.old ++ escaped byte) }
{
    if is_plain(byte) {
        return told.push(byte as char);
    }
    told.push_str("\\x")?;
    told.push_str(hex::encode(alloc, &[byte])?.as_str())
}

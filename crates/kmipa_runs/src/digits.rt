//! Hexadecimal digits with white space between them.

ghost use Rattle.std.specs.Prelude.{◌≡◌, ◌⊎◌, IfOk, IfErr, Ok, Err, filter};
ghost use Rattle.kmipa_runs.specs.Inputs.{bytes_of, is_kept};

use hex::FromHexError;
use std::alloc::{AllocError, Global};

/// The bytes that the digits of a text spell. Spaces, tabs and line ends are read over.
pub fn read_digits(alloc: Global, text: &[u8]) -> Result<Vec<u8>, FromHexError>
    ensures ok { IfOk result (λ bytes. bytes_of text.now ≡ Ok bytes.items) }
    ensures err { IfErr result (λ e. (e ≡ FromHexError.OutOfMemory) ⊎ (bytes_of text.now ≡ Err e)) }
{
    match without_space(alloc, text) {
        Ok(digits) => hex::decode(alloc, digits),
        Err(_) => Err(FromHexError::OutOfMemory),
    }
}

fn without_space(alloc: Global, text: &[u8]) -> Result<Vec<u8>, AllocError>
    ensures { IfOk result (λ digits. digits.items ≡ filter is_kept text.now) }
{
    text.iter()
        .copied()
        .filter(|b| *b != b' ' && *b != b'\t' && *b != b'\r' && *b != b'\n')
        .collect(alloc)
}

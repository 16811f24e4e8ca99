//! Lines behind two blanks each.

ghost use Rattle.std.specs.Prelude.{◌≡◌, ◌∷◌, [], ◌++◌, IfOk, OnOk, string_bytes};
ghost use Rattle.kmipa_judge.specs.Indented.{blanks, indented};

use std::alloc::{AllocError, Global};

/// The same text, with two blanks ahead of each line.
pub(crate) fn indented(alloc: Global, text: &str) -> Result<String, AllocError>
    ensures { IfOk result (λ more. string_bytes more ≡ indented text.now) }
{
    let bytes = bytes_indented(alloc, text.as_bytes())?;
    match String::from_utf8(bytes) {
        Ok(more) => Ok(more),
        Err(_) => Err(AllocError),
    }
}

fn bytes_indented(alloc: Global, text: &[u8]) -> Result<Vec<u8>, AllocError>
    ensures { IfOk result (λ more. more.items ≡ indented text.now) }
{
    let mut more = Vec::with_capacity(alloc, text.len())?;
    let mut begins = true;
    let mut place = 0;
    'bytes: while place < text.len() {
        push_byte(&mut more, begins, text[place])?;
        begins = text[place] == b'\n';
        place += 1;
    }
    Ok(more)
}

/// Puts a byte behind these, with which a line may begin.
fn push_byte(more: &mut Vec<u8>, begins: bool, byte: u8) -> Result<(), AllocError>
    ensures { OnOk result (more.new.items ≡ more.old.items ++ (blanks begins ++ (byte ∷ []))) }
{
    if begins {
        more.extend_from_slice(b"  ")?;
    }
    more.push(byte)?;
    Ok(())
}

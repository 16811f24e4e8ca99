//! What is told of a file.

ghost use Rattle.std.specs.Prelude.{◌≡◌, IfOk};
ghost use Rattle.kmipa_json.specs.Told.{file_members, members_of};

use crate::object::JsonObject;
use sha2::{Digest, Sha256};
use std::alloc::{AllocError, Global};

/// The part that a file has in a run, its length in bytes, and the SHA-256 of its bytes in hexadecimal digits.
pub fn told_file(alloc: Global, role: &str, bytes: &[u8]) -> Result<JsonObject, AllocError>
    ensures { IfOk result (λ told. members_of told ≡ file_members role.now bytes.now) }
{
    let digest = Sha256::digest(bytes);
    let digits = hex::encode(alloc, digest.as_slice())?;
    let mut told = JsonObject::new(alloc);
    told.put_text("role", role)?;
    told.put_count("length", bytes.len() as u64)?;
    told.put_text("sha256", digits.as_str())?;
    Ok(told)
}

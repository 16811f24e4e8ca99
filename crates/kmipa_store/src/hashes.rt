//! Hashes of identifiers and of names, and a cheap number of an identifier.

ghost use Rattle.std.specs.Prelude.{◌≡◌};
ghost use Rattle.kmipa_store.specs.Hashes.{id_hash, id_number, name_hash, number_on};

use std::hash::{DefaultHasher, Hasher};

/// The hash of an identifier.
pub fn id_hash(id: &str) -> u64
    ensures { result ≡ id_hash id.now }
{
    let mut hasher = DefaultHasher::new();
    hasher.write(id.as_bytes());
    hasher.finish()
}

/// The number of an identifier: of its last bytes, at most eight. It costs less than the hash, but whoever picks identifiers can give
/// many of them one number.
pub fn id_number(id: &str) -> u64
    ensures { result ≡ id_number id.now }
{
    let bytes = id.as_bytes();
    let last = &bytes[bytes.len().saturating_sub(8)..];
    let mut number = 0;
    for byte in last {
        number = number_on(number, *byte);
    }
    number
}

/// The number of some bytes and of one more.
fn number_on(number: u64, byte: u8) -> u64
    ensures { result ≡ number_on number byte }
{
    number
        .wrapping_mul(0x100_0000_01B3)
        .wrapping_add(byte as u64)
}

/// The hash of a name.
pub fn name_hash(value: &str, kind: u32) -> u64
    ensures { result ≡ name_hash value.now kind }
{
    let mut hasher = DefaultHasher::new();
    hasher.write(value.as_bytes());
    hasher.write_u32(kind);
    hasher.finish()
}

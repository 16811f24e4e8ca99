//! Hashes of identifiers.

ghost use Rattle.std.specs.Prelude.{◌≡◌};
ghost use Rattle.kmipa_record.specs.Hashes.{identifier_hash};

use std::hash::{DefaultHasher, Hasher};

/// The hash of an identifier.
pub fn identifier_hash(id: &str) -> u64
    ensures { result ≡ identifier_hash id.now }
{
    let mut hasher = DefaultHasher::new();
    hasher.write(id.as_bytes());
    hasher.finish()
}

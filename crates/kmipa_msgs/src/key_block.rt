//! Key blocks.

ghost use Rattle.std.specs.Prelude.{◌≡◌};

/// Key Format Type (KMIP 2.1, section 11), of the two forms that are plain bytes.
#[derive(Clone, Copy, PartialEq, Eq)]
pub enum KeyFormat {
    Raw = 1,
    Opaque = 2,
}

impl KeyFormat {
    ghost use Rattle.kmipa_msgs.specs.Numbers.{format_number, format_of};

    /// The number on the wire.
    pub fn number(self) -> u32
        ensures { result ≡ format_number self }
    {
        self as u32
    }

    /// The form with this number, if it is one of the two.
    pub fn of(number: u32) -> Option<KeyFormat>
        ensures { result ≡ format_of number }
    {
        match number {
            1 => Some(KeyFormat::Raw),
            2 => Some(KeyFormat::Opaque),
            _ => None,
        }
    }
}

/// A key that isn't wrapped (KMIP 2.1, section 3.1).
#[derive(Clone, Copy)]
pub struct KeyBlock<'a> {
    pub format: KeyFormat,
    /// Key Material: the bytes of the key.
    pub material: &'a [u8],
    /// Cryptographic Algorithm, by its number.
    pub algorithm: Option<u32>,
    /// Cryptographic Length, in bits.
    pub length: Option<i32>,
}

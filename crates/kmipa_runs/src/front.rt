//! The front of a line: its margin, the digits of its tag, and a space.

ghost use Rattle.std.specs.Prelude.{◌≡◌, ◌≤◌, ◌+◌, ◌*◌, ◌∷◌, [], ◌++◌, length, replicate, take};
ghost use Rattle.byteorder.specs.Endian.{big_bytes};
ghost use Rattle.hex.specs.Hex.{encode_upper};

use crate::values::{UPPER, fill_digits};
use byteorder::{BigEndian, ByteOrder};
use kmipa_ttlv::Tag;

/// No front is longer than this. There may be 31 levels above an item, with two spaces each: 15 in a file, and 16 more
/// in a message below one of its Byte Strings.
pub const FRONT: usize = 80;

/// What a front is made of, before its digits are written.
pub static SPACES: [u8; FRONT] = [b' '; FRONT];

/// The front of the line of an item with so many levels above it, and spaces behind it.
pub fn front_of(level: usize, tag: Tag) -> [u8; FRONT]
    requires { level ≤ 31 }
    ensures { take (2 * level + 7) result
        ≡ replicate (2 * level) 32 ++ encode_upper (big_bytes 3 tag.number) ++ 32 ∷ [] }
{
    let mut front = SPACES;
    fill_tag(tag, &mut front[2 * level..2 * level + 6]);
    front
}

/// Writes the digits of a tag.
#[inline(always)]
pub fn fill_tag(tag: Tag, digits: &mut [u8])
    requires { length digits.old ≡ 6 }
    ensures { digits.new ≡ encode_upper (big_bytes 3 tag.number) }
{
    let mut bytes = [0u8; 3];
    BigEndian::write_u24(&mut bytes, tag.number);
    fill_digits(UPPER, &bytes, digits);
}

//! What lines are printed to, a piece at a time.

ghost use Rattle.std.specs.Prelude.{◌≡◌, ◌≤◌, ◌*◌, ◌∷◌, [], ◌++◌, replicate, ℕ, Bool, IsTrue, List, OnErr, OnOk};
ghost use Rattle.byteorder.specs.Endian.{big_bytes};
ghost use Rattle.hex.specs.Hex.{encode_upper};

use crate::front::front_of;
use kmipa_ttlv::Tag;

/// A print failed. Why is the printer's to tell: a line is made of many prints, which hand on what they answer.
#[derive(Clone, Copy)]
pub struct Unprinted;

/// An output that takes its bytes in pieces.
pub trait Printer {
    /// All that was printed.
    ghost printed: { Self → List ℕ };

    /// Whether a print failed.
    ghost has_failed: { Self → Bool };

    /// Prints these bytes behind all that was printed before.
    fn print(&mut self, bytes: &[u8]) -> Result<(), Unprinted>
        ensures prints { OnOk result (printed self.new ≡ printed self.old ++ bytes.now) }
        ensures fails { OnErr result (IsTrue (has_failed self.new)) };

    /// Prints the front of the line of an item with this tag and so many levels above it: two spaces a level, the
    /// digits of the tag, and a space.
    fn print_front(&mut self, level: usize, tag: Tag) -> Result<(), Unprinted>
        requires { level ≤ 31 }
        ensures prints { OnOk result (printed self.new ≡ printed self.old
            ++ (replicate (2 * level) 32 ++ encode_upper (big_bytes 3 tag.number) ++ 32 ∷ [])) }
        ensures fails { OnErr result (IsTrue (has_failed self.new)) }
    {
        self.print(&front_of(level, tag)[..2 * level + 7])
    }
}

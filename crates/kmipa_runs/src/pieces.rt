//! A printer that is given its bytes in long pieces.

ghost use Rattle.std.specs.Prelude.{◌≡◌, ◌≤◌, ◌+◌, ◌*◌, ◌∷◌, ◌++◌, [], length, replicate, vec_len, vec_capacity, IsTrue, MatchResult, OnErr, OnOk};
ghost use Rattle.byteorder.specs.Endian.{big_bytes};
ghost use Rattle.hex.specs.Hex.{encode_upper};
ghost use Rattle.kmipa_runs.specs.declared.front.TheConstants.{FRONT};
ghost use Rattle.kmipa_runs.specs.declared.pieces.TheConstants.{PIECE};

use crate::front::{FRONT, SPACES, fill_tag, front_of};
use crate::printer::{Printer, Unprinted};
use kmipa_ttlv::Tag;
use std::alloc::Global;

/// How many bytes are held at most.
const PIECE: usize = 65_536;

/// A printer, and bytes that it is still to print. Their room is taken at the start, and no memory after that.
pub struct Pieces<P> {
    printer: P,
    held: Vec<u8>,
    ghost room: { PIECE ≤ vec_capacity held },
    ghost few: { vec_len held ≤ PIECE },
}

impl<P: Printer> Pieces<P> {
    /// Nothing is held. Where the room is refused, the printer comes back.
    pub fn new(alloc: Global, printer: P) -> Result<Pieces<P>, P>
        ensures { MatchResult result (λ pieces. (pieces.printer ≡ printer) × (pieces.held.items ≡ []))
            (λ back. back ≡ printer) }
    {
        match Vec::with_capacity(alloc, PIECE) {
            Ok(held) => Ok(Pieces { printer, held }),
            Err(_) => Err(printer),
        }
    }

    /// Prints what is held.
    pub fn finish(&mut self) -> Result<(), Unprinted>
        ensures prints { OnOk result (P.printed self.new.printer ≡ P.printed self.old.printer ++ self.old.held.items) }
        ensures empties { OnOk result (self.new.held.items ≡ []) }
        ensures fails { OnErr result (IsTrue (P.has_failed self.new.printer)) }
    {
        self.printer.print(&self.held)?;
        self.held.clear();
        Ok(())
    }

    /// The printer. What is held is let go.
    pub fn into_printer(self) -> P
        ensures { result ≡ self.printer }
    {
        let Pieces { printer, held } = self;
        drop(held);
        printer
    }

    /// Holds bytes for which there is room.
    #[inline(always)]
    fn hold(&mut self, bytes: &[u8])
        requires { vec_len self.old.held + length bytes.now ≤ PIECE }
        ensures holds { self.new.held.items ≡ self.old.held.items ++ bytes.now }
        ensures same { self.new.printer ≡ self.old.printer }
    {
        if self.held.extend_from_slice(bytes).is_err() {
            unreachable!();
        }
    }

    /// Holds the front of a line; there is room for the longest. Its digits are written where they are held: copying
    /// what was just written byte by byte takes longer.
    #[inline(always)]
    fn hold_front(&mut self, level: usize, tag: Tag)
        requires room { vec_len self.old.held + FRONT ≤ PIECE }
        requires level { level ≤ 31 }
        ensures holds { self.new.held.items ≡ self.old.held.items
            ++ (replicate (2 * level) 32 ++ encode_upper (big_bytes 3 tag.number) ++ 32 ∷ []) }
        ensures same { self.new.printer ≡ self.old.printer }
    {
        let start = self.held.len() + 2 * level;
        self.hold(&SPACES);
        fill_tag(tag, self.held.slice_mut(start..start + 6));
        self.held.truncate(start + 7);
    }

    /// Prints what is held, and holds these bytes, or prints them too where they are too many.
    #[cold]
    #[inline(never)]
    fn print_ahead(&mut self, bytes: &[u8]) -> Result<(), Unprinted>
        ensures prints { OnOk result
            (P.printed self.new.printer ++ self.new.held.items
            ≡ P.printed self.old.printer ++ self.old.held.items ++ bytes.now) }
        ensures fails { OnErr result (IsTrue (P.has_failed self.new.printer)) }
    {
        self.finish()?;
        if PIECE < bytes.len() {
            return self.printer.print(bytes);
        }
        self.hold(bytes);
        Ok(())
    }
}

impl<P: Printer> Printer for Pieces<P> {
    ghost printed = { λ pieces. P.printed pieces.printer ++ pieces.held.items };

    ghost has_failed = { λ pieces. P.has_failed pieces.printer };

    #[inline(always)]
    fn print(&mut self, bytes: &[u8]) -> Result<(), Unprinted> {
        if PIECE - self.held.len() < bytes.len() {
            return self.print_ahead(bytes);
        }
        self.hold(bytes);
        Ok(())
    }

    #[inline(always)]
    fn print_front(&mut self, level: usize, tag: Tag) -> Result<(), Unprinted> {
        if PIECE - self.held.len() < FRONT {
            return self.print_ahead(&front_of(level, tag)[..2 * level + 7]);
        }
        self.hold_front(level, tag);
        Ok(())
    }
}

//! Streams that come in pieces, and inputs over readers that fail or have too much.

use super::check;
use super::spelled::{GET_K1, GOT_K1, bytes_of};
use kmipa_ttlv::{FaultKind, Frames, Input, TtlvFault, read_item, spelled_len, split_stream};
use std::alloc::Global;
use std::io;
use std::io::{ErrorKind, Read};
use std::process::Abort;

// The bytes in pieces of this length.
fn cut(rt: &impl Abort, alloc: Global, bytes: &[u8], piece: usize) -> Vec<Vec<u8>> {
    let mut pieces = Vec::new(alloc);
    for part in bytes.chunks(piece.max(1)) {
        let part = Vec::from_slice(alloc, part).expect(rt, "memory");
        pieces.push(part).expect(rt, "memory");
    }
    pieces
}

// Whether a stream that comes in these pieces is the request and then its answer.
fn are_both(rt: &impl Abort, alloc: Global, pieces: &[Vec<u8>]) -> bool {
    let items = split_stream(alloc, pieces).expect(rt, "items");
    items.len() == 2 && spelled_len(&items[0]) == Some(120) && spelled_len(&items[1]) == Some(264)
}

#[test]
fn pieces_make_items(rt: HostRuntime) {
    let alloc = rt.alloc();
    let bytes = bytes_of(&rt, alloc, &[GET_K1, GOT_K1]);
    for piece in &[1, 7, 100, 384] {
        let pieces = cut(&rt, alloc, &bytes, *piece);
        check(&rt, are_both(&rt, alloc, &pieces), "other items");
    }
}

fn feed(rt: &impl Abort, frames: &mut Frames, bytes: &[u8]) {
    frames.feed(bytes).expect(rt, "memory");
}

// Checks whether there is a whole item.
fn check_next(rt: &impl Abort, frames: &mut Frames, is_there: bool) {
    let next = frames.next().expect(rt, "an item or none");
    check(rt, next.is_some() == is_there, "another number of items");
}

// Checks that there is the fault of a type that is none, at offset 123.
fn check_refused(rt: &impl Abort, frames: &mut Frames) {
    let fault = TtlvFault {
        offset: 123,
        kind: FaultKind::UnknownType,
    };
    check(rt, frames.next().err() == Some(fault), "another fault");
}

#[test]
fn frames_wait_and_refuse(rt: HostRuntime) {
    let bytes = bytes_of(&rt, rt.alloc(), &[GET_K1]);
    let (last, front) = bytes.split_last().expect(&rt, "bytes");
    let mut frames = Frames::new(rt.alloc());
    feed(&rt, &mut frames, front);
    check_next(&rt, &mut frames, false);
    feed(&rt, &mut frames, &[*last]);
    check_next(&rt, &mut frames, true);
    feed(&rt, &mut frames, &[0x42, 0, 0x94, 0x0C, 0, 0, 0, 0]);
    check_refused(&rt, &mut frames);
    feed(&rt, &mut frames, &bytes);
    check_refused(&rt, &mut frames);
}

// Gives at most 50 bytes a read, and fails at its read `at`, counted from 1.
#[derive(Drop)]
struct FailsAt<'a> {
    bytes: &'a [u8],
    at: u64,
    with: ErrorKind,
}

impl Read for FailsAt<'_> {
    fn read(&mut self, buf: &mut [u8]) -> io::Result<usize> {
        if self.at == 1 {
            return Err(io::Error::from(self.with));
        }
        self.at = self.at.saturating_sub(1);
        let most = buf.len().min(50);
        self.bytes.read(&mut buf[..most])
    }
}

// How many items a reader gives, up to three, and the fault behind them.
fn items_of(alloc: Global, reader: FailsAt) -> (u64, Option<TtlvFault>) {
    let mut input = Input::new(reader);
    for count in 0..3 {
        match read_item(alloc, &mut input) {
            Ok(Some(_)) => (),
            Ok(None) => return (count, None),
            Err(fault) => return (count, Some(fault)),
        }
    }
    (3, None)
}

fn device(offset: u64) -> Option<TtlvFault> {
    Some(TtlvFault {
        offset,
        kind: FaultKind::Device,
    })
}

// The request and then its answer, in 12 reads: 8, 50, 50 and 12 bytes, 8, 50 five times and 6, and none.
#[test]
fn each_read_fails(rt: HostRuntime) {
    let alloc = rt.alloc();
    let bytes = bytes_of(&rt, alloc, &[GET_K1, GOT_K1]);
    for with in &[ErrorKind::Other, ErrorKind::Interrupted] {
        for at in 1..14 {
            let expected = match at {
                1..=4 => (0, device(0)),
                5..=11 => (1, device(120)),
                12 => (2, device(384)),
                _ => (2, None),
            };
            let reader = FailsAt {
                bytes: &bytes,
                at,
                with: *with,
            };
            check(&rt, items_of(alloc, reader) == expected, "another fault");
        }
    }
}

// Has this many bytes left, and gives as many as are asked for.
#[derive(Drop)]
struct Plenty {
    left: u64,
}

impl Read for Plenty {
    fn read(&mut self, buf: &mut [u8]) -> io::Result<usize> {
        let n = self.left.min(buf.len() as u64);
        self.left -= n;
        Ok(n as usize)
    }
}

// What is read behind the limit, 2^40 bytes, which are taken by reads of 2^20 bytes.
fn behind_the_limit(rt: &impl Abort, alloc: Global, left: u64) -> Option<usize> {
    let mut input = Input::new(Plenty { left });
    let mut buf = Vec::new(alloc);
    buf.resize(1 << 20, 0u8).expect(rt, "memory");
    for _ in 0..1u64 << 20 {
        input.read_some(&mut buf).expect(rt, "bytes");
    }
    input.read_some(&mut buf)
}

#[test]
fn a_byte_past_the_limit(rt: HostRuntime) {
    let whole = behind_the_limit(&rt, rt.alloc(), 1_099_511_627_776);
    check(&rt, whole == Some(0), "no end at the limit");
    let more = behind_the_limit(&rt, rt.alloc(), 1_099_511_627_777);
    check(&rt, more.is_none(), "a byte past the limit");
}

//! Files that are read, and written again with the same bytes, and readers that fail.

use super::check;
use super::reading::{declared, transcript_of, witness_of};
use super::spelled::*;
use kmipa_record::{
    Declaration, RecordFault, RecordKind, read_transcript, write_declaration, write_transcript,
    write_witness,
};
use kmipa_ttlv::Input;
use std::alloc::Global;
use std::io;
use std::io::Read;
use std::process::Abort;

#[test]
fn transcript_is_written_again(rt: HostRuntime) {
    let alloc = rt.alloc();
    let transcript = transcript_of(&rt, alloc, &ONE_CALL);
    let mut out = Vec::new(alloc);
    write_transcript(alloc, &transcript, &mut out).expect(&rt, "memory");
    check_bytes(&rt, alloc, out, &ONE_CALL);
}

// Checks that a declaration is written as these parts.
pub(crate) fn check_declaration(
    rt: &impl Abort,
    alloc: Global,
    declaration: &Declaration,
    parts: &[&str],
) {
    let mut out = Vec::new(alloc);
    write_declaration(alloc, declaration, &mut out).expect(rt, "memory");
    check_bytes(rt, alloc, out, parts);
}

#[test]
fn declaration_is_written_again(rt: HostRuntime) {
    let alloc = rt.alloc();
    let declaration = declared(&rt, alloc, &[DECLARATION, ROW, ENTRY]);
    check_declaration(&rt, alloc, &declaration, &[DECLARATION, ROW, ENTRY]);
}

// A witness of version 3 that is read, and what is written of it, in parts.
type Row = (&'static [&'static str], &'static [&'static str]);

const WITNESSES: [Row; 4] = [
    (&[WITNESS_3], &[WITNESS]),
    (
        &[WITNESS_3, LAST_TURN, FILLED_TURN],
        &[WITNESS, LAST_TURN, FILLED_TURN],
    ),
    (
        &[WITNESS_3, LAST_TURN, ANSWERED_TURN],
        &[WITNESS_2, LAST_TURN, ANSWERED_TURN],
    ),
    (
        &[WITNESS_3, ORDERED_TURN, LAST_TURN],
        &[WITNESS_3, ORDERED_TURN, LAST_TURN],
    ),
];

// Checks that a witness is written as its row says.
fn check_witness(rt: &impl Abort, alloc: Global, (read, written): &Row) {
    let witness = witness_of(rt, alloc, read);
    let mut out = Vec::new(alloc);
    write_witness(alloc, &witness, &mut out).expect(rt, "memory");
    check_bytes(rt, alloc, out, written);
}

#[test]
fn lowest_version_is_written(rt: HostRuntime) {
    for row in &WITNESSES {
        check_witness(&rt, rt.alloc(), row);
    }
}

// A reader over bytes that fails at a read, after so many that work.
#[derive(Drop)]
struct FailsAfter<'a> {
    bytes: &'a [u8],
    reads: u32,
}

impl Read for FailsAfter<'_> {
    fn read(&mut self, buf: &mut [u8]) -> io::Result<usize> {
        if self.reads == 0 {
            return Err(io::Error::from(io::ErrorKind::Other));
        }
        self.reads -= 1;
        self.bytes.read(buf)
    }
}

// The fault of a transcript of which so many reads work.
fn fault_after(alloc: Global, bytes: &[u8], reads: u32) -> Option<RecordFault> {
    read_transcript(alloc, &mut Input::new(FailsAfter { bytes, reads })).err()
}

// How many reads work, and the offset of the fault behind them: two reads an item, its header and its value, and one at
// the end.
const FAULTS: [(u32, u64); 7] = [
    (0, 0),
    (1, 0),
    (2, 24),
    (3, 24),
    (4, 192),
    (5, 192),
    (6, 488),
];

#[test]
fn each_read_fails(rt: HostRuntime) {
    let alloc = rt.alloc();
    let bytes = bytes_of(&rt, alloc, &ONE_CALL);
    for (reads, offset) in &FAULTS {
        let expected = RecordFault {
            offset: *offset,
            kind: RecordKind::Device,
        };
        let fault = fault_after(alloc, &bytes, *reads);
        check(&rt, fault == Some(expected), "another fault");
    }
    check(&rt, fault_after(alloc, &bytes, 7).is_none(), "a fault");
}

//! The files that the words name.

ghost use Rattle.std.specs.Prelude.{◌≤◌, length};

use crate::held_file::HeldFile;
use crate::time_limit::TimeLimit;
use kmipa_record::{Torn, complete};
use std::fs::OpenFile;
use std::io::{BufReader, Read};
use std::rt::{Clock, Files};
use std::{fs, io};

/// The words for the three files of an audit, in the order of the command line, and what a file of each kind begins with.
const KINDS: [(&str, [u8; 3]); 3] = [
    ("transcript", [0x54, 0x00, 0x01]),
    ("declaration", [0x54, 0x00, 0x30]),
    ("witness", [0x54, 0x00, 0x40]),
];

/// How many bytes are asked for at once where digits are looked through.
const PIECE: usize = 4_096;

/// Opens a file. Why it can't be opened is reported on standard error.
pub fn open_file<R: Files + AllocGlobal + Eprint>(
    rt: &R,
    name: &str,
) -> io::Result<BufReader<R::File>> {
    reported(rt, name, opened(rt, name))
}

/// Opens a transcript that may be torn, and holds what it has. Where it is torn, a close stands behind its whole records in place of what else it has.
/// Why it can't be opened is reported on standard error.
pub fn open_torn_file<'a, R: Files + Clock + AllocGlobal + Eprint>(
    rt: &R,
    name: &str,
    limit: TimeLimit<'a, R>,
) -> io::Result<(HeldFile<'a, R, R::File>, Option<Torn>)> {
    reported(rt, name, opened_torn(rt, name, limit))
}

fn opened_torn<'a, R: Files + Clock + AllocGlobal>(
    rt: &R,
    name: &str,
    limit: TimeLimit<'a, R>,
) -> io::Result<(HeldFile<'a, R, R::File>, Option<Torn>)> {
    let mut file = HeldFile::over(rt.alloc(), limit, opened(rt, name)?);
    let mut held = Vec::new(rt.alloc());
    if let Err(error) = file.read_to_end(&mut held) {
        if error.kind() == io::ErrorKind::OutOfMemory {
            return Err(error);
        }
        // What came is judged, and then that the file can't be read.
        return Ok((file.behind(held), None));
    }
    match complete(rt.alloc(), &mut held)? {
        Some(torn) => Ok((file.replaced(held), Some(torn))),
        None => Ok((file.behind(held), None)),
    }
}

/// Opens a file, and tells nothing where it can't be opened.
pub fn opened<R: Files + AllocGlobal>(rt: &R, name: &str) -> io::Result<BufReader<R::File>> {
    let file = fs::open(rt, name)?;
    if file.metadata()?.is_dir() {
        return Err(io::Error::from(io::ErrorKind::IsADirectory));
    }
    BufReader::new(rt.alloc(), file)
}

/// Tells what is wrong with a file, if anything is. Where standard error can't be written there is nothing left to say.
pub fn reported<R: Eprint, T>(rt: &R, name: &str, done: io::Result<T>) -> io::Result<T> {
    if let Err(error) = &done {
        rt.eprintln(format_args!("kmip_audit: {name}: {error}"))
            .ok();
    }
    done
}

/// Where a file's header is refused, and the file is of another kind, tells so on standard error.
pub fn hint_kind<R: Files + Eprint>(rt: &R, names: &[&str], lines: &[u8])
    requires { length names.now ≤ 3 }
{
    for (place, name) in names.iter().enumerate() {
        let (wanted, _) = KINDS[place];
        if !is_header_fault(lines, wanted) {
            continue;
        }
        let begins = first_bytes(rt, name);
        for (kind, tag) in KINDS {
            if begins == Some(tag) && kind != wanted {
                rt.eprintln(format_args!(
                    "kmip_audit: {name}: a {kind} in the place of the {wanted}"
                )).ok();
            }
        }
    }
}

/// Whether the lines say that the header of this file is refused.
fn is_header_fault(lines: &[u8], file: &str) -> bool {
    lines
        .strip_prefix(b"malformed: ")
        .and_then(|rest| rest.strip_prefix(file.as_bytes()))
        .is_some_and(|rest| rest == b" offset 0 kind 2 Header\n".as_slice())
}

fn first_bytes<R: Files>(rt: &R, name: &str) -> Option<[u8; 3]> {
    let mut begins = [0u8; 3];
    let mut file = fs::open(rt, name).ok()?;
    file.read_exact(&mut begins).ok()?;
    Some(begins)
}

/// Where digits are refused, tells on standard error which byte of the file is no digit.
pub fn hint_digits<R: Files + AllocGlobal + Eprint>(rt: &R, name: &str, lines: &[u8]) {
    if lines != b"hex: refused\n".as_slice() {
        return;
    }
    let Ok(place) = first_other(rt, name) else {
        return;
    };
    match place {
        Some(place) => rt.eprintln(format_args!(
            "kmip_audit: {name}: the byte at offset {place} is neither a hexadecimal digit nor white space"
        )),
        None => rt.eprintln(format_args!(
            "kmip_audit: {name}: the digits are odd in number, and two spell a byte"
        )),
    }
    .ok();
}

/// Where the first byte of a file stands that is neither a digit nor white space. The file is read no further, since it may have no end.
fn first_other<R: Files>(rt: &R, name: &str) -> io::Result<Option<u64>> {
    let mut file = fs::open(rt, name)?;
    let mut piece = [0u8; PIECE];
    let mut before: u64 = 0;
    'pieces: for _ in 0..u64::MAX {
        let n = file.read(&mut piece)?;
        if n == 0 {
            return Ok(None);
        }
        if let Some(at) = piece[..n]
            .iter()
            .position(|byte| !may_stand_in_digits(*byte))
        {
            return Ok(Some(before.saturating_add(at as u64)));
        }
        before = before.saturating_add(n as u64);
    }
    Ok(None)
}

fn may_stand_in_digits(byte: u8) -> bool {
    byte.is_ascii_hexdigit() || matches!(byte, b' ' | b'\t' | b'\r' | b'\n')
}

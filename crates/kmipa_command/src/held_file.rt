//! Files that are read, of which some bytes may be held.

use crate::time_limit::TimeLimit;
use std::alloc::Global;
use std::io;
use std::io::{BufReader, Read};
use std::rt::Clock;

/// What a file is read by: first the bytes that are held, and then the file itself, where there is more to be read of it. Once its time is over each
/// read fails.
#[derive(Drop)]
pub struct HeldFile<'a, R, F> {
    limit: TimeLimit<'a, R>,
    held: Vec<u8>,
    at: usize,
    rest: Option<BufReader<F>>,
}

impl<'a, R, F: Drop> HeldFile<'a, R, F> {
    /// A file of which nothing is held.
    pub fn over(alloc: Global, limit: TimeLimit<'a, R>, file: BufReader<F>) -> HeldFile<'a, R, F> {
        HeldFile {
            limit,
            held: Vec::new(alloc),
            at: 0,
            rest: Some(file),
        }
    }

    /// These bytes in place of what was held, and behind them what is left of the file.
    pub fn behind(self, held: Vec<u8>) -> HeldFile<'a, R, F> {
        HeldFile {
            limit: self.limit,
            held,
            at: 0,
            rest: self.rest,
        }
    }

    /// These bytes in place of all that the file has.
    pub fn replaced(self, held: Vec<u8>) -> HeldFile<'a, R, F> {
        HeldFile {
            limit: self.limit,
            held,
            at: 0,
            rest: None,
        }
    }
}

impl<'a, R: Clock, F: Read> Read for HeldFile<'a, R, F> {
    fn read(&mut self, buf: &mut [u8]) -> io::Result<usize> {
        if self.limit.is_over() {
            return Err(io::Error::from(io::ErrorKind::TimedOut));
        }
        if self.at < self.held.len() {
            let left = &self.held[self.at..];
            let count = left.len().min(buf.len());
            buf[..count].copy_from_slice(&left[..count]);
            self.at += count;
            return Ok(count);
        }
        match &mut self.rest {
            Some(file) => file.read(buf),
            None => Ok(0),
        }
    }
}

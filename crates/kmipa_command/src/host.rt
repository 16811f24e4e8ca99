//! The world of a process. Each call of it is a call on the runtime, whose meaning no clause says: it is to be read here, and in the files
//! that are named here.

ghost use Rattle.std.specs.Prelude.{◌≡◌, [], ◌++◌};
ghost use Rattle.std.specs.IoError.{error_kind};
ghost use Rattle.kmipa_command.specs.Sessions.{is_memory};

use crate::files::{hint_digits, hint_kind, open_file, open_torn_file, opened};
use crate::folders::read_folder;
use crate::held_file::HeldFile;
use crate::progress::Progress;
use crate::replacing::{are_one_output, is_input, replace_both, replace_file, test_output};
use crate::time_limit::TimeLimit;
use kmipa_session::{Content, Folder, NO_LIMIT, Named, World};
use kmipa_ttlv::History;
use std::io;
use std::os::fd::AsFd;
use std::rt::{Clock, Files};
use std::time::Instant;

/// The runtime.
#[derive(Drop)]
pub struct Host<'a, R> {
    rt: &'a R,
    // When it began, where the clock can be read.
    began: Option<Instant>,
}

impl<'a, R: Clock> Host<'a, R> {
    /// So many seconds from when it began.
    fn limit(&self, seconds: u64) -> TimeLimit<'a, R>
        ensures { result.seconds ≡ seconds }
    {
        TimeLimit::new(self.rt, self.began, seconds)
    }

    /// The world of this runtime, which begins now.
    pub fn new(rt: &'a R) -> Host<'a, R> {
        let began = Instant::now(rt).ok();
        Host { rt, began }
    }
}

/// The name and the bytes of a file that was made, of which only clauses know.
#[derive(Drop)]
pub struct MadeFile {
    pub name: History,
    pub bytes: History,
}

/// That a file of this content was made.
fn made_of(file: Content<'_>) -> MadeFile
    ensures name { result.name.bytes ≡ file.entry.name.now }
    ensures bytes { result.bytes.bytes ≡ file.entry.bytes.now }
{
    let mut made = MadeFile {
        name: History::new(),
        bytes: History::new(),
    };
    made.name.note(file.name.as_bytes());
    made.bytes.note(file.bytes);
    made
}

impl<'a, R: Files<File: AsFd> + Clock + AllocGlobal + Eprint + Clone + Drop> World for Host<'a, R> {
    type File = HeldFile<'a, R, R::File>;

    type Watcher = Progress<'a, R>;

    type Made = MadeFile;

    type Refusal = io::Error;

    ghost made = { λ file. (file.name.bytes, file.bytes.bytes) };

    ghost lacked = { λ error. is_memory (error_kind error) };

    fn open<'n>(
        &self,
        name: &'n str,
        seconds: u64,
    ) -> Result<Named<'n, HeldFile<'a, R, R::File>>, io::Error> {
        let file = open_file(self.rt, name)?;
        let limited = HeldFile::over(self.rt.alloc(), self.limit(seconds), file);
        Ok(Named::over(name, limited))
    }

    fn open_torn<'n>(
        &self,
        name: &'n str,
        seconds: u64,
    ) -> Result<Named<'n, HeldFile<'a, R, R::File>>, io::Error> {
        let (file, torn) = open_torn_file(self.rt, name, self.limit(seconds))?;
        Ok(Named::over_torn(name, file, torn))
    }

    fn peek<'n>(&self, name: &'n str) -> Option<Named<'n, HeldFile<'a, R, R::File>>> {
        let file = opened(self.rt, name).ok()?;
        let held = HeldFile::over(self.rt.alloc(), self.limit(NO_LIMIT), file);
        Some(Named::over(name, held))
    }

    fn test_distinct(&self, output: &str, inputs: &[&str]) -> Result<(), io::Error> {
        if is_input(self.rt, output, inputs) {
            return Err(io::Error::from(io::ErrorKind::InvalidInput));
        }
        Ok(())
    }

    fn test_two(&self, one: &str, other: &str) -> Result<(), io::Error> {
        if are_one_output(self.rt, one, other) {
            return Err(io::Error::from(io::ErrorKind::InvalidInput));
        }
        Ok(())
    }

    fn test_output(&self, name: &str) -> Result<(), io::Error> {
        test_output(self.rt, name)
    }

    fn make(&self, file: Content<'_>) -> Result<MadeFile, io::Error> {
        replace_file(self.rt, file)?;
        Ok(made_of(file))
    }

    fn make_both(
        &self,
        one: Content<'_>,
        other: Content<'_>,
    ) -> Result<(MadeFile, MadeFile), io::Error> {
        replace_both(self.rt, one, other)?;
        Ok((made_of(one), made_of(other)))
    }

    fn read_folder(&self, name: &str, witnesses: Option<&str>) -> Result<Folder, io::Error> {
        read_folder(self.rt, name, witnesses)
    }

    fn lacked_memory(&self, refusal: &io::Error) -> bool {
        matches!(refusal.kind(), io::ErrorKind::OutOfMemory)
    }

    fn tell_mistake(&self, text: &str) -> Result<(), io::Error> {
        self.rt.eprint(text)
    }

    fn tell_no_moment(&self, word: &str) {
        self.rt
            .eprintln(format_args!(
                "error: --not-before {word}: is neither a date as 2023-11-14T22:13:20Z nor a number of seconds since 1970"
            ))
            .ok();
    }

    fn watch(&self, budget: u64, seconds: u64, wanted: bool) -> Progress<'a, R> {
        Progress::new(self.rt, self.began, budget, seconds, wanted)
    }

    fn is_over(&self, seconds: u64) -> bool {
        self.limit(seconds).is_over()
    }

    fn hint_kind(&self, names: &[&str], lines: &[u8]) {
        hint_kind(self.rt, names, lines);
    }

    fn hint_digits(&self, name: &str, lines: &[u8]) {
        hint_digits(self.rt, name, lines);
    }
}

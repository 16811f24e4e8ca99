//! Standard output, which takes the lines of a run a piece at a time.

ghost use Rattle.std.specs.Prelude.{◌≡◌, [], IsTrue};

use kmipa_runs::{Printer, Unprinted};
use kmipa_session::Out;
use kmipa_ttlv::History;
use std::io;

/// Standard output, and what was printed there.
#[derive(Drop)]
pub struct Output<'a, R> {
    rt: &'a R,
    empty: bool,
    failed: bool,
    went: History,
    ghost nothing: { IsTrue empty → went.bytes ≡ [] },
}

impl<'a, R: Print> Output<'a, R> {
    /// Standard output, where nothing was printed.
    pub fn new(rt: &'a R) -> Output<'a, R>
        ensures { result.went.bytes ≡ [] }
    {
        Output {
            rt,
            empty: true,
            failed: false,
            went: History::new(),
        }
    }
}

impl<'a, R: Print + Eprint> Printer for Output<'a, R> {
    ghost printed = { λ output. output.went.bytes };

    ghost has_failed = { λ output. output.failed };

    fn print(&mut self, bytes: &[u8]) -> Result<(), Unprinted> {
        match reported(self.rt, self.rt.write_all(bytes)) {
            Ok(()) => {
                self.empty = self.empty && bytes.is_empty();
                self.went.note(bytes);
                Ok(())
            }
            Err(_) => {
                self.failed = true;
                Err(Unprinted)
            }
        }
    }
}

impl<'a, R: Print + Eprint> Out for Output<'a, R> {
    fn is_empty(&self) -> bool {
        self.empty
    }
}

/// Tells why standard output could not be written, but for a reader who had read enough and went. Where standard error can't be written
/// either, there is nothing left to say.
fn reported<R: Eprint, T>(rt: &R, printed: io::Result<T>) -> io::Result<T>
    ensures { result ≡ printed }
{
    if let Err(error) = &printed {
        if error.kind() != io::ErrorKind::BrokenPipe {
            rt.eprintln(format_args!("kmip_audit: standard output: {error}"))
                .ok();
        }
    }
    printed
}

//! What a session needs of the world.

ghost use Rattle.std.specs.Prelude.{◌≡◌, ◌≤◌, ◌<◌, None, [], ℕ, List, Bool, IsTrue, IfOk, IfSome, length};
ghost use Rattle.kmipa_ttlv.specs.Input.{came_of};
ghost use Rattle.kmipa_session.specs.Worlds.{input_of, name_of, torn_of};

use crate::folder::Folder;
use crate::named::Named;
use kmipa_orders::Watch;
use kmipa_runs::Printer;
use std::io::Read;

/// The seconds of a file that may be read at any time.
pub const NO_LIMIT: u64 = 0;

/// What is to stand in a file.
#[derive(Clone, Copy)]
pub struct Content<'a> {
    pub name: &'a str,
    pub bytes: &'a [u8],
}

/// Files by their names, and what is told on standard error.
///
/// # What it means
/// A world hands out values of types that only it can make: a file that it opened by a name, which then tells what its reads gave; that it
/// made a file of these bytes under a name; and that it refused something. Who has such a value has had that done. What is told on
/// standard error is help for a person, of which nothing is said.
pub trait World {
    /// A file that was opened.
    type File: Read + Drop;

    /// Who watches a search.
    type Watcher: Watch + Drop;

    /// That a file was made.
    type Made: Drop;

    /// That something was refused: a file that was to be opened or made, one that was to be both read and made, or to tell of a mistake.
    type Refusal: Drop;

    /// The name and the bytes of a file that was made.
    ghost made: { Self.Made → List ℕ × List ℕ };

    /// Whether something was refused for want of memory.
    ghost lacked: { Self.Refusal → Bool };

    /// Opens a file to be read, whose reads fail once so many seconds went by since the world began. Where these are 0, no read fails for that. Why
    /// it can't be opened is told on standard error.
    fn open<'n>(&self, name: &'n str, seconds: u64) -> Result<Named<'n, Self::File>, Self::Refusal>
        ensures name { IfOk result (λ file. name_of file ≡ name.now) }
        ensures fresh { IfOk result (λ file. came_of (input_of file) ≡ []) }
        ensures whole { IfOk result (λ file. torn_of file ≡ None) };

    /// Opens so a transcript that may be torn. Where it is sealed and has no close, its reads give its whole records, and then a close of their own in
    /// place of what else it has; the file tells where that is. Why it can't be opened is told on standard error.
    fn open_torn<'n>(
        &self,
        name: &'n str,
        seconds: u64,
    ) -> Result<Named<'n, Self::File>, Self::Refusal>
        ensures name { IfOk result (λ file. name_of file ≡ name.now) }
        ensures fresh { IfOk result (λ file. came_of (input_of file) ≡ []) };

    /// Opens a file to be read where it can be, and tells nothing where it can't.
    fn peek<'n>(&self, name: &'n str) -> Option<Named<'n, Self::File>>
        ensures name { IfSome result (λ file. name_of file ≡ name.now) }
        ensures fresh { IfSome result (λ file. came_of (input_of file) ≡ []) };

    /// Tests that a file that is to be made is none of these that are to be read. Where it is one, that is told on standard error.
    fn test_distinct(&self, output: &str, inputs: &[&str]) -> Result<(), Self::Refusal>;

    /// Tests that two files that are to be made are not one. Where they are, that is told on standard error.
    fn test_two(&self, one: &str, other: &str) -> Result<(), Self::Refusal>;

    /// Tests whether a file may be made, as far as can be seen. Why it may not is told on standard error.
    fn test_output(&self, name: &str) -> Result<(), Self::Refusal>;

    /// Makes a file of these bytes, in place of what it held. Why it can't be made is told on standard error.
    fn make(&self, file: Content<'_>) -> Result<Self::Made, Self::Refusal>
        ensures { IfOk result (λ done. made done ≡ (file.entry.name.now, file.entry.bytes.now)) };

    /// Makes two files so, both or neither.
    fn make_both(
        &self,
        one: Content<'_>,
        other: Content<'_>,
    ) -> Result<(Self::Made, Self::Made), Self::Refusal>
        ensures one { IfOk result (λ done. made done.0 ≡ (one.entry.name.now, one.entry.bytes.now)) }
        ensures other { IfOk result (λ done. made done.1 ≡ (other.entry.name.now, other.entry.bytes.now)) };

    /// Lists the segments of a folder, each with the file that its witness is written to, where a folder is named for the witnesses. What is wrong
    /// with either is told on standard error.
    fn read_folder(&self, name: &str, witnesses: Option<&str>) -> Result<Folder, Self::Refusal>;

    /// Whether it was refused for want of memory, and not for a device.
    fn lacked_memory(&self, refusal: &Self::Refusal) -> bool
        ensures { result ≡ lacked refusal.now };

    /// Tells on standard error what is wrong with the words.
    fn tell_mistake(&self, text: &str) -> Result<(), Self::Refusal>;

    /// Tells on standard error that a word is no moment.
    fn tell_no_moment(&self, word: &str);

    /// Who watches a search with this budget, which ends so many seconds after the world began, or in its own time, where these are 0: it tells on
    /// standard error how far the search got, where that is wanted.
    fn watch(&self, budget: u64, seconds: u64, wanted: bool) -> Self::Watcher
        ensures { Self.Watcher.seconds result ≡ seconds };

    /// Whether so many seconds went by since the world began. Of 0 that is never said.
    fn is_over(&self, seconds: u64) -> bool
        ensures { IsTrue result → 0 < seconds };

    /// Where the lines say that a file's header is refused, and it is of another kind, tells so on standard error.
    fn hint_kind(&self, names: &[&str], lines: &[u8])
        requires { length names.now ≤ 3 };

    /// Where digits are refused, tells on standard error which byte of the file is no digit.
    fn hint_digits(&self, name: &str, lines: &[u8]);
}

/// Standard output.
pub trait Out: Printer {
    /// Whether nothing was printed.
    fn is_empty(&self) -> bool
        ensures { IsTrue result → Self.printed self.now ≡ [] };
}

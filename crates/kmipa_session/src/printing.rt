//! What is printed, and the status that is left of it.

ghost use Rattle.std.specs.Prelude.{◌≡◌, IfOk, OnErr};
ghost use Rattle.kmipa_jobs.specs.declared.status.Status.{Status};
ghost use Rattle.kmipa_session.specs.Printing.{TellsLines, TellsRest, TellsTrouble, text_of, trouble_text};

use crate::voice::{Voice, device_text, memory_text};
use crate::world::{Out, World};
use kmipa_jobs::Status;
use kmipa_runs::Unprinted;

/// Prints what came of a run, and answers its status, or `Failed` where that can't be printed.
pub fn tell<O: Out>(out: &mut O, voice: Voice, lines: &[u8], status: Status) -> Status
    ensures { TellsLines voice lines.now status (O.printed out.old) (O.printed out.new) (O.has_failed out.new) result }
{
    match out.print(text_of(voice, lines, status)) {
        Ok(()) => status,
        Err(Unprinted) => Status::Failed,
    }
}

/// The text of lines: none with `Failed` say that memory ran out.
fn text_of<'a>(voice: Voice, lines: &'a [u8], status: Status) -> &'a [u8]
    ensures { result.now ≡ text_of voice lines.now status }
{
    match status {
        Status::Failed if lines.is_empty() => memory_text(voice),
        _ => lines,
    }
}

/// Prints the line of something that was refused: a file that could not be opened, read or written.
pub fn tell_refusal<W: World, O: Out>(
    world: &W,
    out: &mut O,
    voice: Voice,
    refusal: &W::Refusal,
) -> Status
    ensures { TellsTrouble voice (W.lacked refusal.now) (O.printed out.old) (O.printed out.new) (O.has_failed out.new)
        result }
{
    let text = refusal_text(world, voice, refusal);
    tell(out, voice, text, Status::Failed)
}

/// Want of memory is told as such, and everything else as a device.
fn refusal_text<W: World>(world: &W, voice: Voice, refusal: &W::Refusal) -> &'static [u8]
    ensures { result.now ≡ trouble_text voice (W.lacked refusal.now) }
{
    if world.lacked_memory(refusal) {
        memory_text(voice)
    } else {
        device_text(voice)
    }
}

/// Tells what is left to tell of a run that printed by itself, and answers its status, or `Failed` where that can't be
/// printed.
pub fn tell_rest<O: Out>(out: &mut O, done: Result<Status, Unprinted>) -> Status
    ensures rest { IfOk done (λ said. TellsRest said (O.printed out.old) (O.printed out.new) (O.has_failed out.new)
        result) }
    ensures failed { OnErr done ((result ≡ Status.Failed) × (O.has_failed out.new ≡ O.has_failed out.old)) }
{
    match done {
        Ok(Status::Failed) if out.is_empty() => tell(out, Voice::Lines, b"", Status::Failed),
        Ok(status) => status,
        Err(Unprinted) => Status::Failed,
    }
}

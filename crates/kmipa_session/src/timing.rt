//! What is said where the seconds of a check are over.

ghost use Rattle.std.specs.Prelude.{◌≡◌, ◌<◌, ◌⊎◌, IfOk, IsTrue, string_bytes};
ghost use Rattle.kmipa_jobs.specs.Statuses.{IsSilent};
ghost use Rattle.kmipa_jobs.specs.declared.status.Status.{Status};
ghost use Rattle.kmipa_session.specs.Timing.{EndsInTime, over_lines, over_object, over_text};

use crate::did::Said;
use crate::voice::Voice;
use crate::world::World;
use kmipa_jobs::Status;
use kmipa_json::JsonObject;
use kmipa_telling::VERSION;
use std::alloc::{AllocError, Global};

/// What was said of a run over files that may be read for so many seconds, of which a read `failed`. Where it failed for that, and these are over, it is
/// said that they are, in place of a device; of the files that tells nothing.
pub fn say_in_time<W: World>(
    alloc: Global,
    world: &W,
    voice: Voice,
    seconds: u64,
    failed: bool,
    said: Said,
) -> Said
    ensures { EndsInTime voice seconds failed said.status said.lines.items result.status result.lines.items }
{
    if failed && said.status == Status::Failed && world.is_over(seconds) {
        return say_over(alloc, voice, seconds);
    }
    said
}

/// That so many seconds are over. Where memory runs out nothing is said.
fn say_over(alloc: Global, voice: Voice, seconds: u64) -> Said
    ensures { IsSilent result.status result.lines.items
        ⊎ ((result.status ≡ Status.GaveUp) × (result.lines.items ≡ over_text voice seconds)) }
{
    match over_text(alloc, voice, seconds) {
        Ok(text) => Said {
            status: Status::GaveUp,
            lines: text.into_bytes(),
        },
        Err(_) => Said {
            status: Status::Failed,
            lines: Vec::new(alloc),
        },
    }
}

fn over_text(alloc: Global, voice: Voice, seconds: u64) -> Result<String, AllocError>
    ensures { IfOk result (λ text. string_bytes text ≡ over_text voice seconds) }
{
    match voice {
        Voice::Lines => over_lines(alloc, seconds),
        Voice::Object => over_object(alloc, seconds),
    }
}

/// The lines of a search that ended ahead of its first step, since so many seconds were over.
fn over_lines(alloc: Global, seconds: u64) -> Result<String, AllocError>
    ensures { IfOk result (λ text. string_bytes text ≡ over_lines seconds) }
{
    let steps: u64 = 0;
    let front = format!(in alloc; "gave up: {steps} steps\n")?;
    format!(in alloc; "{front}not decided: {seconds} seconds are over\n")
}

/// The same as an object, which names no files.
fn over_object(alloc: Global, seconds: u64) -> Result<String, AllocError>
    ensures { IfOk result (λ text. string_bytes text ≡ over_object seconds) }
{
    let mut told = JsonObject::new(alloc);
    told.put_text("auditor", VERSION)?;
    told.put_text("verdict", "gave up")?;
    told.put_count("steps", 0)?;
    told.put_truth("decided", false)?;
    told.put_count("seconds", seconds)?;
    told.into_line()
}

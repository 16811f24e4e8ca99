//! What is shown of a file, and what is written of digits.

ghost use Rattle.std.specs.Prelude.{◌≡◌, ◌⊎◌, IfOk};
ghost use Rattle.kmipa_session.specs.Sessions.{HasWritten, IsRefused, RunsShow, RunsWrite};
ghost use Rattle.kmipa_session.specs.declared.voice.Voice.TheVariants.{Lines};

use crate::checking::mistaken;
use crate::did::{Did, Said, Session};
use crate::printing::tell_rest;
use crate::searching::make_when_done;
use crate::telling::{refuse, tell_done};
use crate::voice::Voice;
use crate::world::{NO_LIMIT, Out, World};
use kmipa_jobs::{ShowOptions, Status};
use std::alloc::Global;

/// Prints the items of a file.
pub fn run_show<'n, W: World, O: Out>(
    alloc: Global,
    world: &W,
    out: O,
    name: &'n str,
    options: ShowOptions,
) -> Session<'n, O, W::File, W::Made, W::Refusal>
    ensures { RunsShow W.made W.lacked name.entry.now options result.did (O.printed out) (O.printed result.out)
        (O.has_failed result.out) result.status }
{
    match world.open(name, NO_LIMIT) {
        Ok(mut file) => {
            let (mut out, done) = file.show(alloc, options, out);
            let status = tell_rest(&mut out, done);
            Session {
                out,
                status,
                did: Did::Shown(file),
            }
        }
        Err(refusal) => refuse(world, out, Voice::Lines, refusal),
    }
}

/// Makes a file of the items that the digits of another one spell, and prints what is said of them.
pub fn run_write<'n, W: World, O: Out>(
    alloc: Global,
    world: &W,
    out: O,
    hex: &'n str,
    made: &str,
) -> Session<'n, O, W::File, W::Made, W::Refusal>
    ensures { RunsWrite W.made W.lacked hex.entry.now made.now result.did (O.printed out) (O.printed result.out)
        (O.has_failed result.out) result.status }
{
    let done = write_file(alloc, world, hex, made);
    tell_done(world, out, Voice::Lines, done)
}

/// Makes the file. Where the status is not `Done` nothing is made.
fn write_file<'n, W: World>(
    alloc: Global,
    world: &W,
    hex: &'n str,
    made: &str,
) -> Result<(Said, Did<'n, W::File, W::Made, W::Refusal>), W::Refusal>
    ensures { IfOk result (λ done. HasWritten W.made W.lacked hex.entry.now made.now done.1 done.0.status
        done.0.lines.items
        ⊎ IsRefused W.made W.lacked Lines done.1 done.0.status done.0.lines.items) }
{
    if let Err(refusal) = world.test_distinct(made, &[hex]) {
        return Ok((mistaken(alloc), Did::Refused(refusal)));
    }
    let mut digits = world.open(hex, NO_LIMIT)?;
    world.test_output(made)?;
    let (said, bytes) = digits.write(alloc);
    if said.status == Status::Refused {
        world.hint_digits(hex, &said.lines);
    }
    let file = make_when_done(world, made, &bytes, said.status)?;
    Ok((said, Did::Written(digits, file)))
}

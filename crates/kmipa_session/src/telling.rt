//! How a session ends: what was done, or refused, is told.

ghost use Rattle.std.specs.Prelude.{◌≡◌};
ghost use Rattle.kmipa_session.specs.Printing.{TellsTrouble};
ghost use Rattle.kmipa_session.specs.Sessions.{TellsDone, TellsMistake};
ghost use Rattle.kmipa_session.specs.declared.did.Did.TheVariants.{Refused};

use crate::did::{Did, Said, Session};
use crate::printing::{tell, tell_refusal};
use crate::voice::Voice;
use crate::world::{Out, World};
use kmipa_jobs::Status;

/// Prints the lines of what was done, or of a refusal.
pub fn tell_done<'n, W: World, O: Out>(
    world: &W,
    mut out: O,
    voice: Voice,
    done: Result<(Said, Did<'n, W::File, W::Made, W::Refusal>), W::Refusal>,
) -> Session<'n, O, W::File, W::Made, W::Refusal>
    ensures { TellsDone W.made W.lacked voice done.entry result.did (O.printed out) (O.printed result.out)
        (O.has_failed result.out) result.status }
{
    match done {
        Ok((said, did)) => {
            let status = tell(&mut out, voice, &said.lines, said.status);
            Session { out, status, did }
        }
        Err(refusal) => refuse(world, out, voice, refusal),
    }
}

/// Prints the line of a refusal.
pub fn refuse<'n, W: World, O: Out>(
    world: &W,
    mut out: O,
    voice: Voice,
    refusal: W::Refusal,
) -> Session<'n, O, W::File, W::Made, W::Refusal>
    ensures did { result.did ≡ Refused refusal }
    ensures told { TellsTrouble voice (W.lacked refusal) (O.printed out) (O.printed result.out) (O.has_failed
        result.out) result.status }
{
    let status = tell_refusal(world, &mut out, voice, &refusal);
    Session {
        out,
        status,
        did: Did::Refused(refusal),
    }
}

/// Tells that options were given that don't go together.
pub fn tell_mixed<'n, W: World, O: Out>(
    world: &W,
    out: O,
) -> Session<'n, O, W::File, W::Made, W::Refusal>
    ensures { TellsMistake result.did (O.printed out) (O.printed result.out) result.status }
{
    tell_mistaken(
        world,
        out,
        "error: --json and --explain don't go together with --leaves or --not-before\n",
    )
}

/// Tells that a word is no head.
pub fn tell_no_seal<'n, W: World, O: Out>(
    world: &W,
    out: O,
) -> Session<'n, O, W::File, W::Made, W::Refusal>
    ensures { TellsMistake result.did (O.printed out) (O.printed result.out) result.status }
{
    tell_mistaken(
        world,
        out,
        "error: --head: a head is 64 hexadecimal digits\n",
    )
}

/// Tells what is wrong with the words.
fn tell_mistaken<'n, W: World, O: Out>(
    world: &W,
    out: O,
    text: &str,
) -> Session<'n, O, W::File, W::Made, W::Refusal>
    ensures { TellsMistake result.did (O.printed out) (O.printed result.out) result.status }
{
    match world.tell_mistake(text) {
        Ok(()) => Session {
            out,
            status: Status::Usage,
            did: Did::Nothing,
        },
        Err(refusal) => Session {
            out,
            status: Status::Failed,
            did: Did::Refused(refusal),
        },
    }
}

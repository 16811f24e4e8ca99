//! A session: words come in, files are read and written, and lines go out.

ghost use Rattle.std.specs.Prelude.{◌≡◌, ◌⊎◌, map};
ghost use Rattle.kmipa_jobs.specs.declared.status.Status.{Status};
ghost use Rattle.kmipa_command.specs.Sessions.{Runs, TellsUsage};

use crate::host::Host;
use crate::output::Output;
use kmipa_jobs::Status;
use kmipa_session::{Did, Out, Session, Voice, World, run_job, tell, tell_refusal};
use kmipa_words::{Usage, read_words};
use std::alloc::Global;
use std::convert::AsStr;
use std::os::fd::AsFd;
use std::rt::{Clock, Env, Files};
use std::{env, io};

/// The words of the process, the first of which is the program's name. Where they can't be read it is told why, and the status to end with is
/// answered.
pub fn words_of<R: Env + Files<File: AsFd> + Clock + AllocGlobal + Print + Eprint + Clone + Drop>(
    rt: &R,
) -> Result<Vec<String>, Status> {
    match collect_words(rt) {
        Ok(words) => Ok(words),
        Err(error) => Err(tell_words(rt, &error)),
    }
}

fn collect_words<R: Env + AllocGlobal>(rt: &R) -> io::Result<Vec<String>> {
    Ok(env::args(rt)?.collect::<Vec<String>>(rt.alloc())?)
}

/// Tells why the words can't be read. A word that is not UTF-8 is a mistake in the words.
fn tell_words<R: Files<File: AsFd> + Clock + AllocGlobal + Print + Eprint + Clone + Drop>(
    rt: &R,
    error: &io::Error,
) -> Status
    ensures { (result ≡ Status.Usage) ⊎ (result ≡ Status.Failed) }
{
    if error.kind() != io::ErrorKind::InvalidData {
        tell_refusal(&Host::new(rt), &mut Output::new(rt), Voice::Lines, error);
        return Status::Failed;
    }
    match rt.eprintln("error: a word of the command line is not UTF-8") {
        Ok(()) => Status::Usage,
        Err(_) => Status::Failed,
    }
}

/// Does what the words of a command line ask for, in a world. Where standard error is `watched` by somebody, a long search tells there how far it
/// got.
pub fn run_session<'n, S: AsStr, W: World, O: Out>(
    alloc: Global,
    words: &'n [S],
    world: &W,
    out: O,
    watched: bool,
) -> Session<'n, O, W::File, W::Made, W::Refusal>
    ensures { Runs W.made W.lacked (map S.text words.entry.now) result.did (O.printed out) (O.printed result.out)
        (O.has_failed result.out) result.status }
{
    match read_words(alloc, words) {
        Ok(job) => run_job(alloc, world, out, &job, watched),
        Err(usage) => run_usage(&usage, world, out),
    }
}

/// Help goes to standard output, and what is wrong with the words to standard error.
fn run_usage<'n, W: World, O: Out>(
    usage: &Usage,
    world: &W,
    mut out: O,
) -> Session<'n, O, W::File, W::Made, W::Refusal>
    ensures { TellsUsage usage.now result.did (O.printed out) (O.printed result.out) (O.has_failed result.out)
        result.status }
{
    let text = usage.text.as_str();
    if usage.status != Status::Usage {
        let status = tell(&mut out, Voice::Lines, text.as_bytes(), usage.status);
        return Session {
            out,
            status,
            did: Did::Nothing,
        };
    }
    match world.tell_mistake(text) {
        Ok(()) => Session {
            out,
            status: Status::Usage,
            did: Did::Nothing,
        },
        Err(refusal) => Session {
            out,
            status: Status::Failed,
            did: Did::Refused(refusal),
        },
    }
}

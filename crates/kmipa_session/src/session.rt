//! A job is done in a world, and its lines are printed.

ghost use Rattle.std.specs.Prelude.{◌≡◌};
ghost use Rattle.kmipa_session.specs.Sessions.{RunsJob};

use crate::chaining::{ChainWords, run_chain};
use crate::checking::run_check;
use crate::did::Session;
use crate::judging::{JudgeJob, run_judge};
use crate::searching::{SearchJob, run_search};
use crate::showing::{run_show, run_write};
use crate::world::{Out, World};
use kmipa_jobs::Job;
use std::alloc::Global;

/// Opens the files of a job, in the order in which they were named, makes those that it makes, prints its lines, and answers the status to end
/// with. Where standard error is `watched` by somebody, a long search tells there how far it got.
pub fn run_job<'n, W: World, O: Out>(
    alloc: Global,
    world: &W,
    out: O,
    job: &Job<'n>,
    watched: bool,
) -> Session<'n, O, W::File, W::Made, W::Refusal>
    ensures { RunsJob W.made W.lacked job.now result.did (O.printed out) (O.printed result.out) (O.has_failed
        result.out) result.status }
{
    match *job {
        Job::Check {
            files,
            seconds,
            words,
        } => run_check(alloc, world, out, files, seconds, words),
        Job::Search {
            files,
            search,
            words,
        } => {
            let asked = SearchJob {
                files,
                search,
                words,
            };
            run_search(alloc, world, out, asked, watched)
        }
        Job::Judge {
            files,
            judging,
            seals,
        } => {
            let asked = JudgeJob {
                files,
                judging,
                seals,
            };
            run_judge(alloc, world, out, asked, watched)
        }
        Job::Chain {
            folder,
            budget,
            seconds,
            quiet,
            leaves,
            witnesses,
        } => {
            let words = ChainWords {
                budget,
                seconds,
                watched: watched && !quiet,
                leaves,
                witnesses,
            };
            run_chain(alloc, world, out, folder, words)
        }
        Job::Show { file, options } => run_show(alloc, world, out, file, options),
        Job::Write { hex, out: made } => run_write(alloc, world, out, hex, made),
    }
}

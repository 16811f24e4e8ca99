//! The words of the command line.

ghost use Rattle.std.specs.Prelude.{◌≡◌, ◌≢◌, ◌⊎◌, [], IfErr, IfOk, IfSome, OnOk, map, string_bytes};
ghost use Rattle.clap.specs.Words.{app_of, rows_of, found_of, kind_of, subcommand_of, subcommand_rows_of, fault_of};
ghost use Rattle.kmipa_jobs.specs.Statuses.{IsSilent};
ghost use Rattle.kmipa_words.specs.Words.{program_app, status_of, IsAnswer, IsChain, IsCheck, IsForm, IsJob, IsJudge, IsSealed, IsSearch, IsSegment, IsTold};

use crate::arguments::{
    BUDGET, DECLARATION, DIR, EXPLAIN, FILE, FOLDER, FORCED, HEAD, HEX, JSON, LEAVES, LEFT,
    MADE_WITNESS, MESSAGES, NOT_BEFORE, NOTES, OPEN, OUT, QUIET, SECONDS, TORN, TRANSCRIPT, USED,
    WITNESS, WITNESSES,
};
use crate::help::{EXAMPLES, VERSION};
use crate::subcommands::{chain, check, judge, search, show, write};
use clap::error::ErrorKind;
use clap::{ArgMatches, Command, Error};
use kmipa_jobs::{
    AnswerWords, CheckFiles, FormWords, Job, JudgeFiles, JudgeWords, SealWords, SearchFiles,
    SearchWords, SegmentWords, ShowOptions, Status,
};
use std::alloc::{AllocError, Global};
use std::convert::AsStr;

/// What is printed in place of a job: help with `Done`, a mistake with `Usage`, and nothing with `Failed`, where
/// memory ran out.
#[derive(Drop)]
pub struct Usage {
    pub status: Status,
    pub text: String,
}

/// The job that the words of a command line name, the first of which is the program's name.
///
/// - `kmip_audit check TRANSCRIPT DECLARATION WITNESS [--seconds N] [--explain] [--json] [--leaves OUT] [--not-before DATE] [--head HEX] [--torn]`
/// - `kmip_audit search TRANSCRIPT DECLARATION OUT [--budget N] [--seconds N] [--forced] [--open] [--quiet] [--explain] [--json] [--leaves LEFT] [--not-before DATE] [--head HEX] [--torn]`, each N from 0 to 1,000,000,000
/// - `kmip_audit judge TRANSCRIPT [DECLARATION] [--witness OUT] [--declaration OUT] [--budget N] [--seconds N] [--quiet] [--json] [--head HEX] [--torn]`
/// - `kmip_audit chain DIR [--budget N] [--seconds N] [--quiet] [--leaves OUT] [--witnesses FOLDER]`
/// - `kmip_audit show FILE [--messages] [--notes]`
/// - `kmip_audit write HEX OUT`
pub fn read_words<'a, S: AsStr>(alloc: Global, words: &'a [S]) -> Result<Job<'a>, Usage>
    ensures job { IfOk result (λ job. IsJob job (subcommand_of program_app (map S.text words.now))) }
    ensures fits { OnOk result (fault_of program_app (map S.text words.now) ≡ []) }
    ensures reported { IfErr result (IsTold (fault_of program_app (map S.text words.now))) }
{
    let Ok(command) = command(alloc) else {
        return Err(out_of_memory(alloc));
    };
    match command.try_get_matches_from(words) {
        Ok(matches) => job_of(&matches).ok_or(out_of_memory(alloc)),
        Err(error) => Err(usage_of(alloc, &error)),
    }
}

fn command<'a>(alloc: Global) -> Result<Command<'a>, AllocError>
    ensures { IfOk result (λ command. app_of command ≡ program_app) }
{
    Command::new(alloc, "kmip_audit")
        .about("Audits recorded KMIP 2.1 traffic")
        .version(VERSION)
        .after_help(EXAMPLES)
        .subcommand_required(true)
        .arg_required_else_help(true)
        .subcommand(check(alloc)?)?
        .subcommand(search(alloc)?)?
        .subcommand(judge(alloc)?)?
        .subcommand(chain(alloc)?)?
        .subcommand(show(alloc)?)?
        .subcommand(write(alloc)?)
}

/// The job that a parse found. A parse has a subcommand with all its files, so `None` never comes.
fn job_of<'a>(matches: &ArgMatches<'a>) -> Option<Job<'a>>
    ensures { IfSome result (λ job. IsJob job (subcommand_rows_of matches.now)) }
{
    let (name, words) = matches.subcommand()?;
    match name {
        "check" => check_of(words),
        "search" => search_of(words),
        "judge" => judge_of(words),
        "chain" => chain_of(words),
        "show" => Some(Job::Show {
            file: words.get_str(FILE)?,
            options: ShowOptions {
                messages: words.get_flag(MESSAGES),
                notes: words.get_flag(NOTES),
            },
        }),
        "write" => Some(Job::Write {
            hex: words.get_str(HEX)?,
            out: words.get_str(OUT)?,
        }),
        _ => None,
    }
}

fn check_of<'a>(words: &ArgMatches<'a>) -> Option<Job<'a>>
    ensures { IfSome result (λ job. IsCheck job (rows_of (found_of words.now))) }
{
    let files = CheckFiles {
        transcript: words.get_str(TRANSCRIPT)?,
        declaration: words.get_str(DECLARATION)?,
        witness: words.get_str(WITNESS)?,
    };
    let seconds = words.get_one::<u64>(SECONDS)?;
    Some(Job::Check {
        files,
        seconds,
        words: answer_of(words),
    })
}

fn answer_of<'a>(words: &ArgMatches<'a>) -> AnswerWords<'a>
    ensures { IsAnswer result (rows_of (found_of words.now)) }
{
    AnswerWords {
        form: form_of(words),
        segment: segment_of(words),
        seals: seals_of(words),
    }
}

fn seals_of<'a>(words: &ArgMatches<'a>) -> SealWords<'a>
    ensures { IsSealed result (rows_of (found_of words.now)) }
{
    SealWords {
        head: words.get_str(HEAD),
        torn: words.get_flag(TORN),
    }
}

fn form_of<'a>(words: &ArgMatches<'a>) -> FormWords
    ensures { IsForm result (rows_of (found_of words.now)) }
{
    FormWords {
        json: words.get_flag(JSON),
        explain: words.get_flag(EXPLAIN),
    }
}

fn segment_of<'a>(words: &ArgMatches<'a>) -> SegmentWords<'a>
    ensures { IsSegment result (rows_of (found_of words.now)) }
{
    SegmentWords {
        leaves: words.get_str(LEAVES),
        not_before: words.get_str(NOT_BEFORE),
    }
}

fn search_of<'a>(words: &ArgMatches<'a>) -> Option<Job<'a>>
    ensures { IfSome result (λ job. IsSearch job (rows_of (found_of words.now))) }
{
    let files = SearchFiles {
        transcript: words.get_str(TRANSCRIPT)?,
        declaration: words.get_str(DECLARATION)?,
        out: words.get_str(OUT)?,
    };
    let search = SearchWords {
        budget: words.get_one::<u64>(BUDGET)?,
        seconds: words.get_one::<u64>(SECONDS)?,
        forced: words.get_flag(FORCED),
        open: words.get_flag(OPEN),
        quiet: words.get_flag(QUIET),
    };
    Some(Job::Search {
        files,
        search,
        words: answer_of(words),
    })
}

fn judge_of<'a>(words: &ArgMatches<'a>) -> Option<Job<'a>>
    ensures { IfSome result (λ job. IsJudge job (rows_of (found_of words.now))) }
{
    let files = JudgeFiles {
        transcript: words.get_str(TRANSCRIPT)?,
        declaration: words.get_str(DECLARATION),
        witness: words.get_str(MADE_WITNESS),
        used: words.get_str(USED),
    };
    let json = words.get_flag(JSON);
    let judging = JudgeWords {
        budget: words.get_one::<u64>(BUDGET)?,
        seconds: words.get_one::<u64>(SECONDS)?,
        quiet: words.get_flag(QUIET),
        json,
    };
    Some(Job::Judge {
        files,
        judging,
        seals: seals_of(words),
    })
}

fn chain_of<'a>(words: &ArgMatches<'a>) -> Option<Job<'a>>
    ensures { IfSome result (λ job. IsChain job (rows_of (found_of words.now))) }
{
    Some(Job::Chain {
        folder: words.get_str(DIR)?,
        budget: words.get_one::<u64>(BUDGET)?,
        seconds: words.get_one::<u64>(SECONDS)?,
        quiet: words.get_flag(QUIET),
        leaves: words.get_str(LEAVES),
        witnesses: words.get_str(WITNESSES),
    })
}

fn usage_of(alloc: Global, error: &Error) -> Usage
    ensures { IsSilent result.status (string_bytes result.text)
        ⊎ ((kind_of error.now ≢ ErrorKind.OutOfMemory) × (result.status ≡ status_of (kind_of error.now))) }
{
    let status = match error.kind() {
        ErrorKind::OutOfMemory => return out_of_memory(alloc),
        ErrorKind::DisplayHelp
        | ErrorKind::DisplayHelpOnMissingArgumentOrSubcommand
        | ErrorKind::DisplayVersion => Status::Done,
        _ => Status::Usage,
    };
    match error.to_string(alloc) {
        Ok(text) => Usage { status, text },
        Err(_) => out_of_memory(alloc),
    }
}

fn out_of_memory(alloc: Global) -> Usage
    ensures { IsSilent result.status (string_bytes result.text) }
{
    Usage {
        status: Status::Failed,
        text: String::new(alloc),
    }
}

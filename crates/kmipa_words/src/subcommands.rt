//! The words that a command line may begin with, each with its arguments.

ghost use Rattle.std.specs.Prelude.{◌≡◌, IfOk, codes, false};
ghost use Rattle.clap.specs.Words.{app_of};
ghost use Rattle.clap.specs.declared.builder.command.Command.TheViews.{out-Command};
ghost use Rattle.kmipa_words.specs.Words.{chain_app, chain_folder_app, chain_steps_app, check_app, check_files_app, check_limits_app, check_segment_app, check_texts_app, judge_app, judge_files_app, judge_made_app, judge_steps_app, search_app, search_files_app, search_limits_app, search_segment_app, search_steps_app, search_texts_app, show_app, write_app};

use crate::arguments::{
    DECLARATION, DIR, EXPLAIN, FILE, FORCED, HEX, JSON, LEFT, MESSAGES, NOTES, OPEN, OUT, QUIET,
    TRANSCRIPT, WITNESS, budget, file, flag, head, leaves, made_witness, maybe_file, not_before,
    seconds, torn, used, witnesses,
};
use crate::help::{CHAIN_HELP, CHECK_HELP, JUDGE_HELP, SEARCH_HELP, SHOW_HELP, WRITE_HELP};
use clap::Command;
use std::alloc::{AllocError, Global};

pub(crate) fn check<'a>(alloc: Global) -> Result<Command<'a>, AllocError>
    ensures app { IfOk result (λ command. app_of command ≡ check_app) }
    ensures local { IfOk result (λ command. (out-Command command).has_globals ≡ false) }
{
    check_with_segment(alloc)?
        .arg(head(alloc))?
        .arg(torn(alloc))
}

/// A check with the options of how long it goes on, of what it prints, and of a segment.
pub(crate) fn check_with_segment<'a>(alloc: Global) -> Result<Command<'a>, AllocError>
    ensures app { IfOk result (λ command. app_of command ≡ check_segment_app) }
    ensures local { IfOk result (λ command. (out-Command command).has_globals ≡ false) }
{
    check_with_texts(alloc)?
        .arg(leaves(alloc, OUT))?
        .arg(not_before(alloc))
}

/// A check with the options of how long it goes on, and of what it prints.
pub(crate) fn check_with_texts<'a>(alloc: Global) -> Result<Command<'a>, AllocError>
    ensures app { IfOk result (λ command. app_of command ≡ check_texts_app) }
    ensures local { IfOk result (λ command. (out-Command command).has_globals ≡ false) }
{
    check_with_limits(alloc)?
        .arg(flag(alloc, EXPLAIN, "Prints behind a no what it means"))?
        .arg(flag(alloc, JSON, "Prints one JSON object in place of the lines"))
}

/// A check with the option of how long it goes on.
pub(crate) fn check_with_limits<'a>(alloc: Global) -> Result<Command<'a>, AllocError>
    ensures app { IfOk result (λ command. app_of command ≡ check_limits_app) }
    ensures local { IfOk result (λ command. (out-Command command).has_globals ≡ false) }
{
    check_of_files(alloc)?.arg(seconds(alloc))
}

/// A check without its options.
pub(crate) fn check_of_files<'a>(alloc: Global) -> Result<Command<'a>, AllocError>
    ensures app { IfOk result (λ command. app_of command ≡ check_files_app) }
    ensures local { IfOk result (λ command. (out-Command command).has_globals ≡ false) }
{
    Command::new(alloc, "check")
        .about("Says whether the calls are possible in the order of the witness")
        .after_help(CHECK_HELP)
        .arg(file(alloc, TRANSCRIPT, "The calls, as they were seen"))?
        .arg(file(alloc, DECLARATION, "What the server held at the start"))?
        .arg(file(alloc, WITNESS, "An order of the calls"))
}

pub(crate) fn search<'a>(alloc: Global) -> Result<Command<'a>, AllocError>
    ensures app { IfOk result (λ command. app_of command ≡ search_app) }
    ensures local { IfOk result (λ command. (out-Command command).has_globals ≡ false) }
{
    search_with_segment(alloc)?
        .arg(head(alloc))?
        .arg(torn(alloc))
}

/// A search with the options of how it searches, of what it prints, and of a segment.
pub(crate) fn search_with_segment<'a>(alloc: Global) -> Result<Command<'a>, AllocError>
    ensures app { IfOk result (λ command. app_of command ≡ search_segment_app) }
    ensures local { IfOk result (λ command. (out-Command command).has_globals ≡ false) }
{
    search_with_texts(alloc)?
        .arg(leaves(alloc, LEFT))?
        .arg(not_before(alloc))
}

/// A search with the options of how it searches, and of what it prints.
pub(crate) fn search_with_texts<'a>(alloc: Global) -> Result<Command<'a>, AllocError>
    ensures app { IfOk result (λ command. app_of command ≡ search_texts_app) }
    ensures local { IfOk result (λ command. (out-Command command).has_globals ≡ false) }
{
    search_with_steps(alloc)?
        .arg(flag(
            alloc,
            EXPLAIN,
            "Prints behind a giving up whether it has decided",
        ))?
        .arg(flag(alloc, JSON, "Prints one JSON object in place of the lines"))
}

/// A search with the options of how it searches.
pub(crate) fn search_with_steps<'a>(alloc: Global) -> Result<Command<'a>, AllocError>
    ensures app { IfOk result (λ command. app_of command ≡ search_steps_app) }
    ensures local { IfOk result (λ command. (out-Command command).has_globals ≡ false) }
{
    search_with_limits(alloc)?
        .arg(flag(
            alloc,
            FORCED,
            "Tells first whether stamps and marks leave no choice of the order",
        ))?
        .arg(flag(
            alloc,
            OPEN,
            "Takes calls without an end too, where an answer needs them",
        ))?
        .arg(flag(
            alloc,
            QUIET,
            "Tells nothing on standard error while it searches",
        ))
}

/// A search with the options of how long it goes on.
pub(crate) fn search_with_limits<'a>(alloc: Global) -> Result<Command<'a>, AllocError>
    ensures app { IfOk result (λ command. app_of command ≡ search_limits_app) }
    ensures local { IfOk result (λ command. (out-Command command).has_globals ≡ false) }
{
    search_of_files(alloc)?
        .arg(budget(alloc))?
        .arg(seconds(alloc))
}

/// A search without its options.
pub(crate) fn search_of_files<'a>(alloc: Global) -> Result<Command<'a>, AllocError>
    ensures app { IfOk result (λ command. app_of command ≡ search_files_app) }
    ensures local { IfOk result (λ command. (out-Command command).has_globals ≡ false) }
{
    Command::new(alloc, "search")
        .about("Looks for an order in which the calls are possible")
        .after_help(SEARCH_HELP)
        .arg(file(alloc, TRANSCRIPT, "The calls, as they were seen"))?
        .arg(file(alloc, DECLARATION, "What the server held at the start"))?
        .arg(file(alloc, OUT, "The witness that is written"))
}

pub(crate) fn judge<'a>(alloc: Global) -> Result<Command<'a>, AllocError>
    ensures app { IfOk result (λ command. app_of command ≡ judge_app) }
    ensures local { IfOk result (λ command. (out-Command command).has_globals ≡ false) }
{
    judge_with_steps(alloc)?.arg(head(alloc))?.arg(torn(alloc))
}

/// A judging with the options of what it makes, of how it searches, and of what it prints.
pub(crate) fn judge_with_steps<'a>(alloc: Global) -> Result<Command<'a>, AllocError>
    ensures app { IfOk result (λ command. app_of command ≡ judge_steps_app) }
    ensures local { IfOk result (λ command. (out-Command command).has_globals ≡ false) }
{
    judge_with_made(alloc)?
        .arg(budget(alloc))?
        .arg(seconds(alloc))?
        .arg(flag(
            alloc,
            QUIET,
            "Tells nothing on standard error while it searches",
        ))?
        .arg(flag(alloc, JSON, "Prints one JSON object in place of the lines"))
}

/// A judging with the options of what it makes.
pub(crate) fn judge_with_made<'a>(alloc: Global) -> Result<Command<'a>, AllocError>
    ensures app { IfOk result (λ command. app_of command ≡ judge_made_app) }
    ensures local { IfOk result (λ command. (out-Command command).has_globals ≡ false) }
{
    judge_of_files(alloc)?
        .arg(made_witness(alloc))?
        .arg(used(alloc))
}

/// A judging without its options.
pub(crate) fn judge_of_files<'a>(alloc: Global) -> Result<Command<'a>, AllocError>
    ensures app { IfOk result (λ command. app_of command ≡ judge_files_app) }
    ensures local { IfOk result (λ command. (out-Command command).has_globals ≡ false) }
{
    Command::new(alloc, "judge")
        .about("Finds the impossible answers of a recording, and goes on behind each")
        .after_help(JUDGE_HELP)
        .arg(file(alloc, TRANSCRIPT, "The calls, as they were seen"))?
        .arg(maybe_file(alloc, DECLARATION, "What the server held at the start"))
}

pub(crate) fn chain<'a>(alloc: Global) -> Result<Command<'a>, AllocError>
    ensures app { IfOk result (λ command. app_of command ≡ chain_app) }
    ensures local { IfOk result (λ command. (out-Command command).has_globals ≡ false) }
{
    chain_with_steps(alloc)?
        .arg(leaves(alloc, OUT))?
        .arg(witnesses(alloc))
}

/// A chain with the options of how it searches.
pub(crate) fn chain_with_steps<'a>(alloc: Global) -> Result<Command<'a>, AllocError>
    ensures app { IfOk result (λ command. app_of command ≡ chain_steps_app) }
    ensures local { IfOk result (λ command. (out-Command command).has_globals ≡ false) }
{
    chain_of_folder(alloc)?
        .arg(budget(alloc))?
        .arg(seconds(alloc))?
        .arg(flag(
            alloc,
            QUIET,
            "Tells nothing on standard error while it searches",
        ))
}

/// A chain without its options.
pub(crate) fn chain_of_folder<'a>(alloc: Global) -> Result<Command<'a>, AllocError>
    ensures app { IfOk result (λ command. app_of command ≡ chain_folder_app) }
    ensures local { IfOk result (λ command. (out-Command command).has_globals ≡ false) }
{
    Command::new(alloc, "chain")
        .about("Judges the segments of a folder, one after the other")
        .after_help(CHAIN_HELP)
        .arg(file(alloc, DIR, "The folder of the segments"))
}

pub(crate) fn show<'a>(alloc: Global) -> Result<Command<'a>, AllocError>
    ensures app { IfOk result (λ command. app_of command ≡ show_app) }
    ensures local { IfOk result (λ command. (out-Command command).has_globals ≡ false) }
{
    Command::new(alloc, "show")
        .about("Prints the items of a file, each on a line")
        .after_help(SHOW_HELP)
        .arg(file(alloc, FILE, "TTLV, item after item"))?
        .arg(flag(
            alloc,
            MESSAGES,
            "Prints below a byte string that is a message the message's items",
        ))?
        .arg(flag(
            alloc,
            NOTES,
            "Prints the names of operations, states and the like behind their numbers",
        ))
}

pub(crate) fn write<'a>(alloc: Global) -> Result<Command<'a>, AllocError>
    ensures app { IfOk result (λ command. app_of command ≡ write_app) }
    ensures local { IfOk result (λ command. (out-Command command).has_globals ≡ false) }
{
    Command::new(alloc, "write")
        .about("Writes the items that hexadecimal digits spell")
        .after_help(WRITE_HELP)
        .arg(file(alloc, HEX, "The digits, with white space anywhere"))?
        .arg(file(alloc, OUT, "The file that is made"))
}

//! The arguments of the words: their names, and how each is read.

ghost use Rattle.std.specs.Prelude.{◌≡◌, codes, false};
ghost use Rattle.clap.specs.Words.{rule_of};
ghost use Rattle.kmipa_words.specs.Words.{budget_rule, file_rule, flag_rule, maybe_file_rule, option_rule, seconds_rule};

use clap::builder::ValueParser;
use clap::{Arg, ArgAction};
use std::alloc::Global;

pub(crate) const TRANSCRIPT: &str = "TRANSCRIPT";

pub(crate) const DECLARATION: &str = "DECLARATION";

pub(crate) const WITNESS: &str = "WITNESS";

pub(crate) const DIR: &str = "DIR";

pub(crate) const FILE: &str = "FILE";

pub(crate) const FOLDER: &str = "FOLDER";

pub(crate) const HEX: &str = "HEX";

pub(crate) const OUT: &str = "OUT";

pub(crate) const LEFT: &str = "LEFT";

pub(crate) const BUDGET: &str = "budget";

pub(crate) const SECONDS: &str = "seconds";

pub(crate) const FORCED: &str = "forced";

pub(crate) const OPEN: &str = "open";

pub(crate) const QUIET: &str = "quiet";

pub(crate) const JSON: &str = "json";

pub(crate) const EXPLAIN: &str = "explain";

pub(crate) const LEAVES: &str = "leaves";

pub(crate) const WITNESSES: &str = "witnesses";

pub(crate) const NOT_BEFORE: &str = "not-before";

pub(crate) const MADE_WITNESS: &str = "witness";

pub(crate) const USED: &str = "declaration";

pub(crate) const HEAD: &str = "head";

pub(crate) const TORN: &str = "torn";

pub(crate) const MESSAGES: &str = "messages";

pub(crate) const NOTES: &str = "notes";

/// The most steps that a search may be given.
pub(crate) const MOST_STEPS: u64 = 1_000_000_000;

/// The most seconds that a check or a search may be given.
pub(crate) const MOST_SECONDS: u64 = 1_000_000_000;

/// A file that has to be named.
pub(crate) fn file<'a>(alloc: Global, name: &'a str, about: &'a str) -> Arg<'a>
    ensures rule { rule_of result ≡ file_rule name.entry.now }
    ensures local { result.global ≡ false }
{
    Arg::new(alloc, name)
        .required(true)
        .action(ArgAction::Set)
        .help(about)
}

/// A file that may be named.
pub(crate) fn maybe_file<'a>(alloc: Global, name: &'a str, about: &'a str) -> Arg<'a>
    ensures rule { rule_of result ≡ maybe_file_rule name.entry.now }
    ensures local { result.global ≡ false }
{
    Arg::new(alloc, name).action(ArgAction::Set).help(about)
}

/// The witness that a judging makes.
pub(crate) fn made_witness<'a>(alloc: Global) -> Arg<'a>
    ensures rule { rule_of result ≡ option_rule (codes "witness") }
    ensures local { result.global ≡ false }
{
    option(
        alloc,
        MADE_WITNESS,
        OUT,
        "The witness that is written, with all that is set aside",
    )
}

/// The declaration that a judging used.
pub(crate) fn used<'a>(alloc: Global) -> Arg<'a>
    ensures rule { rule_of result ≡ option_rule (codes "declaration") }
    ensures local { result.global ≡ false }
{
    option(
        alloc,
        USED,
        OUT,
        "The declaration that is written, the one that was used",
    )
}

/// How many steps a search may make.
pub(crate) fn budget<'a>(alloc: Global) -> Arg<'a>
    ensures rule { rule_of result ≡ budget_rule }
    ensures local { result.global ≡ false }
{
    Arg::new(alloc, BUDGET)
        .long(BUDGET)
        .value_name("N")
        .value_parser(ValueParser::unsigned(0, MOST_STEPS))
        .default_value("1000000")
        .help("The most steps that are made, from 0 to 1000000000")
}

/// How many seconds go by until a check or a search ends.
pub(crate) fn seconds<'a>(alloc: Global) -> Arg<'a>
    ensures rule { rule_of result ≡ seconds_rule }
    ensures local { result.global ≡ false }
{
    Arg::new(alloc, SECONDS)
        .long(SECONDS)
        .value_name("N")
        .value_parser(ValueParser::unsigned(0, MOST_SECONDS))
        .default_value("0")
        .help("The seconds after which it gives up, from 0 to 1000000000; 0: never")
}

/// The declaration of what a run leaves, by this name.
pub(crate) fn leaves<'a>(alloc: Global, value: &'a str) -> Arg<'a>
    ensures rule { rule_of result ≡ option_rule (codes "leaves") }
    ensures local { result.global ≡ false }
{
    option(
        alloc,
        LEAVES,
        value,
        "At a yes, the declaration that is written of what the run leaves",
    )
}

/// The folder that the witnesses of a chain are written to.
pub(crate) fn witnesses<'a>(alloc: Global) -> Arg<'a>
    ensures rule { rule_of result ≡ option_rule (codes "witnesses") }
    ensures local { result.global ≡ false }
{
    option(
        alloc,
        WITNESSES,
        FOLDER,
        "The folder that the witness of each segment that is a yes is written to",
    )
}

/// The moment from which a segment goes on.
pub(crate) fn not_before<'a>(alloc: Global) -> Arg<'a>
    ensures rule { rule_of result ≡ option_rule (codes "not-before") }
    ensures local { result.global ≡ false }
{
    option(
        alloc,
        NOT_BEFORE,
        "DATE",
        "The last stamp of the segment before, that no stamp may be earlier than",
    )
}

/// The head that a transcript has to have.
pub(crate) fn head<'a>(alloc: Global) -> Arg<'a>
    ensures rule { rule_of result ≡ option_rule (codes "head") }
    ensures local { result.global ≡ false }
{
    option(
        alloc,
        HEAD,
        HEX,
        "The head that the transcript has to have, in 64 digits",
    )
}

/// That a transcript may be torn.
pub(crate) fn torn<'a>(alloc: Global) -> Arg<'a>
    ensures rule { rule_of result ≡ flag_rule (codes "torn") }
    ensures local { result.global ≡ false }
{
    flag(
        alloc,
        TORN,
        "Judges a sealed transcript without its close up to its last whole record",
    )
}

/// An option that has a value where it is given.
pub(crate) fn option<'a>(alloc: Global, name: &'a str, value: &'a str, about: &'a str) -> Arg<'a>
    ensures rule { rule_of result ≡ option_rule name.entry.now }
    ensures local { result.global ≡ false }
{
    Arg::new(alloc, name)
        .long(name)
        .value_name(value)
        .help(about)
}

/// An option without a value.
pub(crate) fn flag<'a>(alloc: Global, name: &'a str, about: &'a str) -> Arg<'a>
    ensures rule { rule_of result ≡ flag_rule name.entry.now }
    ensures local { result.global ≡ false }
{
    Arg::new(alloc, name)
        .long(name)
        .action(ArgAction::SetTrue)
        .help(about)
}

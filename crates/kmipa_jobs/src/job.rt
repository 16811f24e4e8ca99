//! A job: what the words of a command line ask for.

ghost use Rattle.std.specs.Prelude.{◌≡◌, ◌||◌, is_some};
ghost use Rattle.kmipa_jobs.specs.Jobs.{asked_of};

use crate::options::ShowOptions;

/// What is asked of the form of an answer.
#[derive(Clone, Copy, PartialEq, Eq)]
pub struct FormWords {
    /// Prints one JSON object in place of the lines.
    pub json: bool,
    /// Prints behind a no, or a giving up, what it means.
    pub explain: bool,
}

/// What is asked of a segment of an audit that goes on from file to file.
#[derive(Clone, Copy, PartialEq, Eq)]
pub struct SegmentWords<'a> {
    /// The declaration that is written of what the run leaves.
    pub leaves: Option<&'a str>,
    /// The moment that no Time Stamp may lie before, as it is written in the words.
    pub not_before: Option<&'a str>,
}

impl SegmentWords<'_> {
    /// Whether anything is asked.
    pub fn is_asked(self) -> bool
        ensures { result ≡ (is_some self.entry.leaves || is_some self.entry.not_before) }
    {
        self.leaves.is_some() || self.not_before.is_some()
    }
}

/// What is asked of how a search goes.
#[derive(Clone, Copy, PartialEq, Eq)]
pub struct SearchWords {
    /// The most steps that are made.
    pub budget: u64,
    /// The seconds after which it ends; 0 where it has all the time that it takes.
    pub seconds: u64,
    /// Tells first whether the transcript leaves no choice.
    pub forced: bool,
    /// Takes calls without an end mark too, and batches without order in other orders than by place.
    pub open: bool,
    /// Tells nothing on standard error while it searches.
    pub quiet: bool,
}

/// What is asked of the seals of a transcript.
#[derive(Clone, Copy, PartialEq, Eq)]
pub struct SealWords<'a> {
    /// The head that the transcript has to have, as it is written in the words.
    pub head: Option<&'a str>,
    /// Judges a torn transcript up to its last whole record.
    pub torn: bool,
}

/// What the options of a check or a search ask for of its answer.
#[derive(Clone, Copy, PartialEq, Eq)]
pub struct AnswerWords<'a> {
    pub form: FormWords,
    pub segment: SegmentWords<'a>,
    pub seals: SealWords<'a>,
}

/// The names of the files of a check.
#[derive(Clone, Copy, PartialEq, Eq)]
pub struct CheckFiles<'a> {
    pub transcript: &'a str,
    pub declaration: &'a str,
    pub witness: &'a str,
}

/// The names of the files of a search.
#[derive(Clone, Copy, PartialEq, Eq)]
pub struct SearchFiles<'a> {
    pub transcript: &'a str,
    pub declaration: &'a str,
    /// The witness that is written.
    pub out: &'a str,
}

/// The names of the files of a judging.
#[derive(Clone, Copy, PartialEq, Eq)]
pub struct JudgeFiles<'a> {
    pub transcript: &'a str,
    /// What the server held at the start, where anything is declared.
    pub declaration: Option<&'a str>,
    /// The witness that is written, where it is asked for.
    pub witness: Option<&'a str>,
    /// The declaration that is written, the one that was used, where it is asked for.
    pub used: Option<&'a str>,
}

/// What is asked of how a judging goes.
#[derive(Clone, Copy, PartialEq, Eq)]
pub struct JudgeWords {
    /// The most calls that are tried.
    pub budget: u64,
    /// The seconds after which it ends; 0 where it has all the time that it takes.
    pub seconds: u64,
    /// Tells nothing on standard error while it searches.
    pub quiet: bool,
    /// Prints one JSON object in place of the lines.
    pub json: bool,
}

/// What the words ask for, with the names of the files that it reads.
#[derive(Clone, Copy, PartialEq, Eq)]
pub enum Job<'a> {
    /// Whether the calls of a transcript are possible in the order of a witness.
    Check {
        files: CheckFiles<'a>,
        /// The seconds after which it ends; 0 where it has all the time that it takes.
        seconds: u64,
        words: AnswerWords<'a>,
    },
    /// An order in which the calls of a transcript are possible.
    Search {
        files: SearchFiles<'a>,
        search: SearchWords,
        words: AnswerWords<'a>,
    },
    /// What is found in a transcript: an order of its calls, and each impossible answer.
    Judge {
        files: JudgeFiles<'a>,
        judging: JudgeWords,
        seals: SealWords<'a>,
    },
    /// The segments of a folder, one after the other.
    Chain {
        folder: &'a str,
        /// The most steps that are made for each segment without a witness.
        budget: u64,
        /// The seconds after which the whole ends; 0 where it has all the time that it takes.
        seconds: u64,
        /// Tells nothing on standard error while it searches.
        quiet: bool,
        /// The declaration that is written of what the whole leaves.
        leaves: Option<&'a str>,
        /// The folder that the witness of each segment is written to.
        witnesses: Option<&'a str>,
    },
    /// The items of a file as text.
    Show {
        file: &'a str,
        options: ShowOptions,
    },
    /// A file of the items that the digits of another one spell.
    Write {
        hex: &'a str,
        out: &'a str,
    },
}

/// How a check or a search of whole files is told.
#[derive(Clone, Copy, PartialEq, Eq)]
pub enum Form {
    /// By its lines alone.
    Lines,
    /// By its lines, and those of what a no, or a giving up, means.
    Explained,
    /// By one JSON object.
    Json,
    /// By one with what a no, or a giving up, means.
    ExplainedJson,
}

/// What a check or a search is asked for.
#[derive(Clone, Copy, PartialEq, Eq)]
pub enum Asked {
    /// Whole files, told in this form.
    Files(Form),
    /// A segment.
    Segment,
}

/// What the options of a check or a search ask for; `None` where they don't go together.
pub fn asked_of(form: FormWords, segment: SegmentWords<'_>) -> Option<Asked>
    ensures { result ≡ asked_of form segment.entry }
{
    match (segment.is_asked(), form.json, form.explain) {
        (false, false, false) => Some(Asked::Files(Form::Lines)),
        (false, false, true) => Some(Asked::Files(Form::Explained)),
        (false, true, false) => Some(Asked::Files(Form::Json)),
        (false, true, true) => Some(Asked::Files(Form::ExplainedJson)),
        (true, false, false) => Some(Asked::Segment),
        _ => None,
    }
}

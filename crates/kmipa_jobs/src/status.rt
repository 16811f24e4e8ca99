//! What the process ends with.

/// The outcome of a run, as the status that the process ends with.
#[derive(Clone, Copy, PartialEq, Eq)]
pub enum Status {
    /// The answer is yes, or what was asked for is printed.
    Done = 0,
    /// The answer is no.
    No = 1,
    /// An input is not what it has to be, so there is no answer.
    Refused = 2,
    /// A device failed or memory ran out.
    Failed = 3,
    /// No answer was found within the steps that were given.
    GaveUp = 4,
    /// The words of the command line are not understood.
    Usage = 64,
}

impl Status {
    ghost use Rattle.std.specs.Prelude.{◌≡◌};
    ghost use Rattle.kmipa_jobs.specs.Statuses.{status_number};

    /// The status as the shell sees it.
    pub fn number(self) -> u8
        ensures { result ≡ status_number self }
    {
        self as u8
    }
}

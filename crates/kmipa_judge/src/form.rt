//! In which form a judging, or a check, is told.

/// In which form a judging is told.
#[derive(Clone, Copy, PartialEq, Eq)]
pub enum JudgeForm {
    /// In lines.
    Lines,
    /// In one JSON object and a line feed. Of a transcript that is torn so many bytes are its own, and behind them stands a close that was put there: of that
    /// nothing is told.
    Object(Option<u64>),
}

/// In which form a check is told that tells more than its lines.
#[derive(Clone, Copy, PartialEq, Eq)]
pub enum CheckForm {
    /// In lines, with what a no or a fault means.
    Explained,
    /// In one JSON object and a line feed; of a transcript that is torn so many bytes are its own.
    Json(Option<u64>),
    /// In one with what a no or a fault means.
    ExplainedJson(Option<u64>),
}

impl CheckForm {
    ghost use Rattle.std.specs.Prelude.{◌≡◌};
    ghost use Rattle.kmipa_judge.specs.Checks.{held_as, is_explained};

    /// How the files are read for it.
    pub(crate) fn held_as(self) -> JudgeForm
        ensures { result ≡ held_as self }
    {
        match self {
            CheckForm::Explained => JudgeForm::Lines,
            CheckForm::Json(torn) | CheckForm::ExplainedJson(torn) => JudgeForm::Object(torn),
        }
    }

    /// Whether it is told what a no or a fault means.
    pub(crate) fn is_explained(self) -> bool
        ensures { result ≡ is_explained self }
    {
        match self {
            CheckForm::Explained | CheckForm::ExplainedJson(_) => true,
            CheckForm::Json(_) => false,
        }
    }
}

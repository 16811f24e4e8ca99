//! What a judging said, and the bytes of what it makes.

ghost use Rattle.std.specs.Prelude.{◌≡◌, ℕ, List};
ghost use Rattle.kmipa_runs.specs.Knowing.{KnowsSeals};
ghost use Rattle.kmipa_session.specs.Judgings.{judge_form, judge_voice};
ghost use Rattle.kmipa_session.specs.Sealing.{KnowsTold};

use crate::ran::{Ran, told_of};
use crate::voice::Voice;
use kmipa_judge::{JudgeForm, JudgeRun};
use kmipa_record::Torn;

/// What a judging said, and the bytes of a witness and of the declaration that was used, or none.
#[derive(Drop)]
pub struct JudgedFiles {
    pub ran: Ran,
    pub witness: Vec<u8>,
    pub used: Vec<u8>,
}

/// What is told of a run of judging: of a transcript that is torn the head ahead of the close that was given behind it.
pub fn judged_files(torn: Option<Torn>, run: JudgeRun) -> JudgedFiles
    ensures known { (bytes : List ℕ) → KnowsSeals bytes run.status run.head
        → KnowsTold torn bytes result.ran.status result.ran.head }
    ensures status { result.ran.status ≡ run.status }
    ensures lines { result.ran.lines ≡ run.lines }
    ensures witness { result.witness ≡ run.witness }
    ensures used { result.used ≡ run.declaration }
{
    let JudgeRun {
        status,
        lines,
        head,
        witness,
        declaration,
    } = run;
    let ran = Ran {
        status,
        lines,
        head,
    };
    JudgedFiles {
        ran: told_of(torn, ran),
        witness,
        used: declaration,
    }
}

/// How a judging is told that has nothing of its own to say.
pub fn judge_voice(json: bool) -> Voice
    ensures { result ≡ judge_voice json }
{
    if json { Voice::Object } else { Voice::Lines }
}

/// In which form a judging is told; of a torn transcript so many bytes are its own.
pub fn judge_form(json: bool, torn: Option<u64>) -> JudgeForm
    ensures { result ≡ judge_form json torn }
{
    if json {
        JudgeForm::Object(torn)
    } else {
        JudgeForm::Lines
    }
}

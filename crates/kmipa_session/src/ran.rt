//! What a run said of files.

ghost use Rattle.std.specs.Prelude.{◌≡◌, ℕ, List};
ghost use Rattle.kmipa_runs.specs.Knowing.{KnowsSeals};
ghost use Rattle.kmipa_session.specs.Sealing.{IsWithoutClose, KnowsTold};

use kmipa_jobs::Status;
use kmipa_record::{Head, Torn};

/// What a run over a transcript said: its status, its lines, and behind a verdict the head of a sealed transcript.
#[derive(Drop)]
pub struct Ran {
    pub status: Status,
    pub lines: Vec<u8>,
    pub head: Option<Head>,
}

/// What is told of a run: of a transcript that is torn the head ahead of the close that was given behind it.
pub fn told_of(torn: Option<Torn>, ran: Ran) -> Ran
    ensures known { (bytes : List ℕ) → KnowsSeals bytes ran.status ran.head
        → KnowsTold torn bytes result.status result.head }
    ensures status { result.status ≡ ran.status }
    ensures lines { result.lines ≡ ran.lines }
{
    match torn {
        Some(_) => ran_without_close(ran),
        None => ran,
    }
}

/// The same with the head ahead of the close.
fn ran_without_close(ran: Ran) -> Ran
    ensures status { result.status ≡ ran.status }
    ensures lines { result.lines ≡ ran.lines }
    ensures head { IsWithoutClose ran.head result.head }
{
    let Ran {
        status,
        lines,
        head,
    } = ran;
    let head = match head {
        Some(head) => Some(head.without_close()),
        None => None,
    };
    Ran {
        status,
        lines,
        head,
    }
}

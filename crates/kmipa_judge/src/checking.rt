//! A check that tells what a no means, or is told in one object, whatever the declaration sets aside or hides.

ghost use Rattle.std.specs.Prelude.{◌≡◌, [], IfOk, string_bytes};
ghost use Rattle.std.specs.Io.{StartsWith, appended_bytes};
ghost use Rattle.kmipa_ttlv.specs.Input.{came_of};
ghost use Rattle.kmipa_runs.specs.Knowing.{KnowsSeals};
ghost use Rattle.kmipa_telling.specs.Held.{HoldsNothing};
ghost use Rattle.kmipa_jobs.specs.declared.status.Status.{Status};
ghost use Rattle.kmipa_judge.specs.Checks.{AreHeldAs, AreReadAs, IsAcceptedAny, TellsCheck, held_as};

mod as_ever;
mod beside;
mod fault;
mod in_sight;
mod lines;
mod meaning;
mod object;
mod reading;
mod said;

use crate::form::CheckForm;
use as_ever::told_as_ever;
use beside::told_beside;
use fault::fault_said;
use in_sight::told_in_sight;
use kmipa_beside::{Way, way_of};
use kmipa_runs::{Answered, append};
use kmipa_telling::{FaultTold, Held, ReadFiles};
use kmipa_ttlv::Input;
use reading::{ThreeRecords, read_three};
use said::Said;
use std::alloc::{AllocError, Global};
use std::io::Read;

/// `check TRANSCRIPT DECLARATION WITNESS` with `--explain`, with `--json`, or with both: appends what is told of a check in this form, and answers the status,
/// and the head of a sealed transcript. Where memory runs out nothing is appended, and the status is `Failed`.
///
/// Where the declaration sets nothing aside, and clients see every object, that is what is told of a check of `kmipa_telling`. Else what isn't judged is set
/// aside, or objects are hidden; a no is then explained by a part of the recording, and an object tells what isn't judged.
pub fn check_told_run<R: Read>(
    alloc: Global,
    form: CheckForm,
    transcript: &mut Input<R>,
    declaration: &mut Input<R>,
    witness: &mut Input<R>,
    out: &mut Vec<u8>,
) -> Answered
    requires transcript { came_of transcript.old ≡ [] }
    requires declaration { came_of declaration.old ≡ [] }
    requires witness { came_of witness.old ≡ [] }
    ensures told { TellsCheck form transcript.new declaration.new witness.new result.status
        (appended_bytes out.old.items out.new.items) }
    // Status 0 is answered only where the bytes that came, to the ends that were seen, are accepted.
    ensures accepts { result.status ≡ Status.Done → IsAcceptedAny transcript.new declaration.new witness.new }
    // With a verdict the head is answered up to which all seals of the bytes that came are right, or none of bytes without seals.
    ensures known { KnowsSeals (came_of transcript.new) result.status result.head }
    ensures appends { StartsWith out.new.items out.old.items }
{
    let mut held = Held::new(alloc);
    match told_of(alloc, form, transcript, declaration, witness, &mut held) {
        Ok(said) => Answered {
            status: append(Ok(said.lines), out),
            head: said.head,
        },
        Err(error) => Answered {
            status: append(Err(error), out),
            head: None,
        },
    }
}

/// What is told of three inputs of which nothing was read. What came of them is held, where an object tells of it.
fn told_of<R: Read>(
    alloc: Global,
    form: CheckForm,
    transcript: &mut Input<R>,
    declaration: &mut Input<R>,
    witness: &mut Input<R>,
    held: &mut Held,
) -> Result<Said, AllocError>
    requires transcript { came_of transcript.old ≡ [] }
    requires declaration { came_of declaration.old ≡ [] }
    requires witness { came_of witness.old ≡ [] }
    requires none { HoldsNothing held.old }
    ensures told { IfOk result (λ said. TellsCheck form transcript.new declaration.new witness.new said.lines.status
        (string_bytes said.lines.text)) }
    ensures known { IfOk result (λ said. KnowsSeals (came_of transcript.new) said.lines.status said.head) }
{
    let plain = form.held_as();
    let read = read_three(alloc, plain, transcript, declaration, witness, held)?;
    let files = ReadFiles {
        transcript,
        declaration,
        witness,
        held,
    };
    match read {
        Ok(records) => told_by(alloc, form, &files, records),
        Err(fault) => fault_said(alloc, plain, &files, &FaultTold::bare(fault)),
    }
}

/// What is told of three files that were read, as their declaration asks for it.
fn told_by<R>(
    alloc: Global,
    form: CheckForm,
    files: &ReadFiles<R>,
    records: ThreeRecords,
) -> Result<Said, AllocError>
    requires held { AreHeldAs (held_as form) files.now.held.now files.now.transcript.now files.now.declaration.now
        files.now.witness.now }
    requires read { AreReadAs files.now.transcript.now files.now.declaration.now files.now.witness.now records }
    ensures told { IfOk result (λ said. TellsCheck form files.now.transcript.now files.now.declaration.now
        files.now.witness.now said.lines.status (string_bytes said.lines.text)) }
    ensures known { IfOk result
        (λ said. KnowsSeals (came_of files.now.transcript.now) said.lines.status said.head) }
{
    match way_of(&records.records.declaration.settings) {
        Way::AsEver => told_as_ever(alloc, form, files, records),
        Way::InSight => told_in_sight(alloc, form, files, records),
        Way::Beside => told_beside(alloc, form, files, records),
    }
}

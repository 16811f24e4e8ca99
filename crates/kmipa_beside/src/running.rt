//! The check of three inputs, over an output that is handed in.

ghost use Rattle.std.specs.Prelude.{◌≡◌, ◌≢◌, ℕ, List, [], IsTrue};
ghost use Rattle.std.specs.Io.{StartsWith, appended_bytes};
ghost use Rattle.kmipa_ttlv.specs.Input.{came_of, is_ended, is_failed, IsFileOf};
ghost use Rattle.kmipa_record.specs.Declarations.{DeclarationFaultWithin, IsDeclarationUpToWithin};
ghost use Rattle.kmipa_record.specs.Files.{Tells};
ghost use Rattle.kmipa_msgs.specs.declared.rules.Unjudged.TheVariants.{Refused};
ghost use Rattle.kmipa_msgs.specs.declared.rules.Visibility.TheVariants.{Everyone};
ghost use Rattle.kmipa_record.specs.Taking.{HasTaken};
ghost use Rattle.kmipa_record.specs.declared.reach.Reach.TheVariants.{Aside, Judged};
ghost use Rattle.kmipa_runs.specs.Knowing.{KnowsSeals};
ghost use Rattle.kmipa_stream.specs.Opening.{Opens};
ghost use Rattle.kmipa_beside.specs.Audits.{FailsFirst};
ghost use Rattle.kmipa_beside.specs.Checks.{ChecksAny, ChecksAsEver, ChecksBeside, ChecksNothing, ChecksSighted};

use crate::auditing::audit_held;
use crate::declared::Declared;
use crate::lines::{sighted_lines, verdict_lines};
use crate::way::{Way, way_of};
use kmipa_check::AuditFault;
use kmipa_record::{Reach, RecordFault, read_declaration_into};
use kmipa_runs::{Answered, append, fault_lines, report_judged};
use kmipa_stream::{Opening, audit_opened, pass};
use kmipa_ttlv::Input;
use std::alloc::Global;
use std::io::Read;

/// `check TRANSCRIPT DECLARATION WITNESS`: appends the lines of the verdict, or of the fault that stands in its place, and answers their status. Where
/// memory runs out nothing is appended, and the status is `Failed`.
///
/// The declaration is read first. Where it sets nothing aside, and clients see every object, the transcript is audited as it comes; else what isn't judged is
/// set aside, or objects are hidden, and the transcript is held in memory.
pub fn check_any_run<R: Read>(
    alloc: Global,
    transcript: &mut Input<R>,
    declaration: &mut Input<R>,
    witness: &mut Input<R>,
    out: &mut Vec<u8>,
) -> Answered
    requires transcript { came_of transcript.old ≡ [] }
    requires declaration { came_of declaration.old ≡ [] }
    requires witness { came_of witness.old ≡ [] }
    ensures told { ChecksAny transcript.new declaration.new witness.new result.status (appended_bytes out.old.items out.new.items) }
    ensures appends { StartsWith out.new.items out.old.items }
    ensures known { KnowsSeals (came_of transcript.new) result.status result.head }
{
    let mut opening = Opening::new(alloc);
    let settings = match read_declaration_into(alloc, declaration, Reach::Aside, &mut opening) {
        Ok(settings) => settings,
        Err(fault) => return undeclared(alloc, transcript, declaration, fault, out),
    };
    let way = way_of(&settings);
    let declared = Declared { settings, opening };
    match way {
        Way::AsEver => check_as_ever(alloc, transcript, declaration, declared, witness, out),
        Way::InSight => check_in_sight(alloc, transcript, declaration, declared, witness, out),
        Way::Beside => check_beside(alloc, transcript, declaration, declared, witness, out),
    }
}

/// Checks a transcript and a witness by a declaration that sets nothing aside, and by which clients see every object.
fn check_as_ever<R: Read>(
    alloc: Global,
    transcript: &mut Input<R>,
    declaration: &Input<R>,
    declared: Declared,
    witness: &mut Input<R>,
    out: &mut Vec<u8>,
) -> Answered
    requires transcript { came_of transcript.old ≡ [] }
    requires witness { came_of witness.old ≡ [] }
    requires taken { HasTaken Judged Opens declared.settings (came_of declaration.now) declared.opening }
    requires ended { IsTrue (is_ended declaration.now) }
    ensures told { ChecksAsEver transcript.new declaration.now witness.new result.status (appended_bytes out.old.items out.new.items) }
    ensures appends { StartsWith out.new.items out.old.items }
    ensures known { KnowsSeals (came_of transcript.new) result.status result.head }
{
    let Declared { settings, opening } = declared;
    match audit_opened(alloc, transcript, declaration, settings, opening, witness) {
        Ok(judged) => Answered {
            status: report_judged(alloc, &judged, out),
            head: judged.head,
        },
        Err(fault) => Answered {
            status: append(fault_lines(alloc, &fault), out),
            head: None,
        },
    }
}

/// Checks a transcript and a witness by a declaration that sets nothing aside, and by which a server may hide objects, or has to.
fn check_in_sight<R: Read>(
    alloc: Global,
    transcript: &mut Input<R>,
    declaration: &Input<R>,
    declared: Declared,
    witness: &mut Input<R>,
    out: &mut Vec<u8>,
) -> Answered
    requires transcript { came_of transcript.old ≡ [] }
    requires witness { came_of witness.old ≡ [] }
    requires taken { HasTaken Aside Opens declared.settings (came_of declaration.now) declared.opening }
    requires ended { IsTrue (is_ended declaration.now) }
    requires alone { declared.settings.unjudged ≡ Refused }
    requires hides { declared.settings.visibility ≢ Everyone }
    ensures told { ChecksSighted transcript.new declaration.now witness.new result.status (appended_bytes out.old.items out.new.items) }
    ensures appends { StartsWith out.new.items out.old.items }
    ensures known { KnowsSeals (came_of transcript.new) result.status result.head }
{
    match audit_held(alloc, transcript, declaration, declared, witness) {
        Ok(audited) => Answered {
            status: append(sighted_lines(alloc, &audited.verdict), out),
            head: audited.head,
        },
        Err(fault) => Answered {
            status: append(fault_lines(alloc, &fault), out),
            head: None,
        },
    }
}

/// Checks a transcript and a witness by a declaration that sets aside what isn't judged.
fn check_beside<R: Read>(
    alloc: Global,
    transcript: &mut Input<R>,
    declaration: &Input<R>,
    declared: Declared,
    witness: &mut Input<R>,
    out: &mut Vec<u8>,
) -> Answered
    requires transcript { came_of transcript.old ≡ [] }
    requires witness { came_of witness.old ≡ [] }
    requires taken { HasTaken Aside Opens declared.settings (came_of declaration.now) declared.opening }
    requires ended { IsTrue (is_ended declaration.now) }
    requires aside { declared.settings.unjudged ≢ Refused }
    ensures told { ChecksBeside transcript.new declaration.now witness.new result.status (appended_bytes out.old.items out.new.items) }
    ensures appends { StartsWith out.new.items out.old.items }
    ensures known { KnowsSeals (came_of transcript.new) result.status result.head }
{
    match audit_held(alloc, transcript, declaration, declared, witness) {
        Ok(told) => Answered {
            status: append(verdict_lines(alloc, &told.verdict), out),
            head: told.head,
        },
        Err(fault) => Answered {
            status: append(fault_lines(alloc, &fault), out),
            head: None,
        },
    }
}

/// Tells the first fault of the transcript, or, where it has none, this one of the declaration.
fn undeclared<R: Read>(
    alloc: Global,
    transcript: &mut Input<R>,
    declaration: &Input<R>,
    fault: RecordFault,
    out: &mut Vec<u8>,
) -> Answered
    requires transcript { came_of transcript.old ≡ [] }
    requires fault { (file : List ℕ) → IsFileOf file declaration.now
        → Tells (DeclarationFaultWithin Aside) (IsDeclarationUpToWithin Aside) file (is_failed declaration.now) fault }
    ensures told { ChecksNothing transcript.new declaration.now result.status (appended_bytes out.old.items out.new.items) }
    ensures appends { StartsWith out.new.items out.old.items }
    ensures known { KnowsSeals (came_of transcript.new) result.status result.head }
{
    let fault = first_fault(alloc, transcript, declaration, fault);
    Answered {
        status: append(fault_lines(alloc, &fault), out),
        head: None,
    }
}

/// The first fault of the transcript, or, where it has none, this one of the declaration.
fn first_fault<R: Read>(
    alloc: Global,
    transcript: &mut Input<R>,
    declaration: &Input<R>,
    fault: RecordFault,
) -> AuditFault
    requires transcript { came_of transcript.old ≡ [] }
    requires fault { (file : List ℕ) → IsFileOf file declaration.now
        → Tells (DeclarationFaultWithin Aside) (IsDeclarationUpToWithin Aside) file (is_failed declaration.now) fault }
    ensures { (t d : List ℕ) → IsFileOf t transcript.new → IsFileOf d declaration.now
        → FailsFirst t d (is_failed transcript.new) (is_failed declaration.now) result }
{
    match pass(alloc, transcript) {
        Ok(()) => AuditFault::Declaration(fault),
        Err(first) => AuditFault::Transcript(first),
    }
}

//! The audit of three inputs whose declaration sets aside what isn't judged, or hides objects.

ghost use Rattle.std.specs.Prelude.{◌≡◌, ◌≢◌, ℕ, List, [], IfOk, IsTrue, OnOk, map};
ghost use Rattle.kmipa_ttlv.specs.Input.{came_of, is_ended, is_failed, IsFileOf};
ghost use Rattle.kmipa_msgs.specs.Messages.{rules_of};
ghost use Rattle.kmipa_msgs.specs.declared.rules.Unjudged.TheVariants.{Refused};
ghost use Rattle.kmipa_msgs.specs.declared.rules.Visibility.TheVariants.{Everyone};
ghost use Rattle.kmipa_record.specs.Declarations.{DeclarationOf};
ghost use Rattle.kmipa_record.specs.Marks.{AreRecorded, MarkOf};
ghost use Rattle.kmipa_record.specs.Taking.{HasTaken};
ghost use Rattle.kmipa_record.specs.TranscriptReading.{IsKnownBy};
ghost use Rattle.kmipa_record.specs.Transcripts.{transcript_of};
ghost use Rattle.kmipa_record.specs.Witnesses.{witness_of};
ghost use Rattle.kmipa_record.specs.declared.reach.Reach.TheVariants.{Aside};
ghost use Rattle.kmipa_store.specs.Choices.{IsSound};
ghost use Rattle.kmipa_aside.specs.Sights.{owned_of};
ghost use Rattle.kmipa_check.specs.Grants.{grants_declared, grants_of};
ghost use Rattle.kmipa_check.specs.Runs.{rules_declared};
ghost use Rattle.kmipa_stream.specs.Opening.{Opens};
ghost use Rattle.kmipa_trail.specs.Leading.{AreKnown};
ghost use Rattle.kmipa_trail.specs.Owners.{owners_at_first};
ghost use Rattle.kmipa_beside.specs.Audits.{Audits, AuditsInSight, ChecksUnder, fault_of, verdict_alone};

use crate::declared::Declared;
use crate::owners::{owners_at_first, owners_named};
use kmipa_check::{AuditFault, CheckFault, Grants};
use kmipa_msgs::Unjudged;
use kmipa_record::{Head, Transcript, Witness, read_transcript, read_witness};
use kmipa_store::Ledger;
use kmipa_stream::{Opening, rules_with};
use kmipa_trail::{Fault, Terms, Verdict, check_in_sight, check_opened, set_rest_aside};
use kmipa_ttlv::Input;
use std::alloc::Global;
use std::io::Read;

/// A verdict, with what the transcript is known by.
#[derive(Drop)]
pub(crate) struct Told {
    pub verdict: Verdict,
    pub head: Option<Head>,
}

/// The verdict on a transcript and a witness of which nothing was read, behind a declaration that was read to its end, and sets aside what isn't judged, or
/// hides objects. The transcript is held in memory.
pub(crate) fn audit_held<R: Read>(
    alloc: Global,
    transcript: &mut Input<R>,
    declaration: &Input<R>,
    declared: Declared,
    witness: &mut Input<R>,
) -> Result<Told, AuditFault>
    requires transcript { came_of transcript.old ≡ [] }
    requires witness { came_of witness.old ≡ [] }
    requires taken { HasTaken Aside Opens declared.settings (came_of declaration.now) declared.opening }
    requires ended { IsTrue (is_ended declaration.now) }
    ensures beside { declared.settings.unjudged ≢ Refused
        → (t d w : List ℕ) → IsFileOf t transcript.new → IsFileOf d declaration.now → IsFileOf w witness.new
        → Audits t d w (is_failed transcript.new) (is_failed witness.new) (verdict_alone result) }
    ensures in_sight { declared.settings.unjudged ≡ Refused → declared.settings.visibility ≢ Everyone
        → (t d w : List ℕ) → IsFileOf t transcript.new → IsFileOf d declaration.now → IsFileOf w witness.new
        → AuditsInSight t d w (is_failed transcript.new) (is_failed witness.new) (verdict_alone result) }
    ensures known { IfOk result (λ told. (marks : List MarkOf) × IsKnownBy (came_of transcript.new) marks told.head) }
    ensures ended { OnOk result (IsTrue (is_ended transcript.new) × IsTrue (is_ended witness.new)) }
{
    let transcript = match read_transcript(alloc, transcript) {
        Ok(transcript) => transcript,
        Err(fault) => return Err(AuditFault::Transcript(fault)),
    };
    let witness = match read_witness(alloc, witness) {
        Ok(witness) => witness,
        Err(fault) => return Err(AuditFault::Witness(fault)),
    };
    match check_declared(alloc, declared, &transcript, &witness) {
        Ok(verdict) => Ok(Told {
            verdict,
            head: transcript.head,
        }),
        Err(fault) => Err(AuditFault::Check(fault)),
    }
}

/// The verdict on a transcript and a witness, by what was read of a declaration.
fn check_declared(
    alloc: Global,
    declared: Declared,
    transcript: &Transcript,
    witness: &Witness,
) -> Result<Verdict, CheckFault>
    requires { (given : DeclarationOf) × (given.settings ≡ declared.settings) × Opens declared.opening given }
    ensures { (given : DeclarationOf) → given.settings ≡ declared.settings → Opens declared.opening given
        → AreRecorded (transcript_of transcript.now)
        → ChecksUnder given.settings.unjudged (transcript_of transcript.now) given (witness_of witness.now) result }
{
    let Declared { settings, opening } = declared;
    let Opening {
        mut ledger,
        rows,
        allow_lines,
        own_attributes,
        owners,
    } = opening;
    let rules = rules_with(alloc, settings, rows, allow_lines)?;
    let grants = Grants {
        tolerance: settings.tolerance,
        own: own_attributes.as_slice(),
    };
    let named = owners_named(alloc, &ledger, &owners)?;
    let owners = owners_at_first(alloc, settings.visibility, &named)?;
    set_rest_aside(&mut ledger, settings.unjudged);
    let terms = Terms {
        rules: &rules,
        grants: &grants,
        owners,
    };
    check_under(
        alloc,
        settings.unjudged,
        &mut ledger,
        terms,
        transcript,
        witness,
    )
}

/// The same, from a ledger that stands for the worlds that a declaration describes, by its terms, and by what becomes of what isn't judged.
fn check_under<'a, L: Ledger>(
    alloc: Global,
    unjudged: Unjudged,
    ledger: &mut L,
    terms: Terms<'_, '_, 'a>,
    transcript: &'a Transcript,
    witness: &'a Witness,
) -> Result<Verdict, CheckFault>
    requires { IsSound (L.state ledger.old).now }
    ensures { (given : DeclarationOf) → rules_of terms.entry.rules.now ≡ rules_declared given
        → grants_of terms.entry.grants.now ≡ grants_declared given
        → map owned_of terms.entry.owners.items ≡ owners_at_first given.settings.visibility given.entries
        → AreKnown given [] (L.state ledger.old).now → AreRecorded (transcript_of transcript.now)
        → ChecksUnder unjudged (transcript_of transcript.now) given (witness_of witness.now) result }
{
    match unjudged {
        Unjudged::Refused => check_in_sight(alloc, ledger, terms, transcript, witness),
        Unjudged::SetAside | Unjudged::Unknown => {
            match check_opened(alloc, ledger, terms, transcript, witness) {
                Ok(verdict) => Ok(verdict),
                Err(fault) => Err(fault_of(fault)),
            }
        }
    }
}

/// The fault of a check, as one of any check.
fn fault_of(fault: Fault) -> CheckFault
    ensures { result ≡ fault_of fault }
{
    match fault {
        Fault::Witness(fault) => CheckFault::Witness(fault),
        Fault::Memory => CheckFault::Memory,
    }
}

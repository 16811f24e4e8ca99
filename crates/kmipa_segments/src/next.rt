//! The next segment of a chain, read, linked and judged from what the segments before it leave.

ghost use Rattle.std.specs.Prelude.{◌≡◌, ℕ, List, [], IsTrue, IfErr, IfOk, IfSome, OnOk};
ghost use Rattle.kmipa_ttlv.specs.Input.{came_of, is_ended, is_failed, IsFileOf};
ghost use Rattle.kmipa_store.specs.States.{state_of_journal};
ghost use Rattle.kmipa_record.specs.Declarations.{AreDeclared, declaration_of};
ghost use Rattle.kmipa_record.specs.Transcripts.{transcript_of};
ghost use Rattle.kmipa_check.specs.Opening.{StandsAsOpened};
ghost use Rattle.kmipa_segments.specs.Chains.{AreReadNext, ChecksNext, IsUnreadNext, SearchesNext};

use crate::asked::{NextSearch, SearchAsked, SegmentAsked};
use crate::chain::Chain;
use crate::segment_search::{FoundSegment, search_segment};
use kmipa_check::{AuditFault, Checked, check_segment_on};
use kmipa_links::{Gap, Links, Unlinked, read_segment};
use kmipa_orders::Watch;
use kmipa_record::{Transcript, Witness, read_witness};
use kmipa_searches::SearchOptions;
use kmipa_store::Journal;
use kmipa_ttlv::Input;
use std::alloc::Global;
use std::io::Read;

/// A segment that was checked from what those before it leave, with the records that it is of.
#[derive(Drop)]
pub struct NextSegment {
    pub transcript: Transcript,
    pub witness: Witness,
    pub checked: Checked,
    /// A ledger that stands as what is left opens it, where one is kept.
    pub ledger: Option<Journal>,
}

/// Why the next segment wasn't judged.
#[derive(Drop)]
pub enum Unjudged {
    /// One of its files can't be read, or the check of both has this fault.
    Fault(AuditFault),
    /// It isn't linked behind those before it.
    Gap(Gap),
}

/// Reads a segment and its witness, of which nothing was read, one after the other; links it behind those of the chain, and checks it from what
/// they leave.
pub fn check_next_inputs<R: Read>(
    alloc: Global,
    chain: &mut Chain,
    name: &str,
    transcript: &mut Input<R>,
    witness: &mut Input<R>,
) -> Result<NextSegment, Unjudged>
    requires declared { AreDeclared (declaration_of chain.old.held.declaration) }
    requires transcript { came_of transcript.old ≡ [] }
    requires witness { came_of witness.old ≡ [] }
    ensures checks { (t w : List ℕ) → IsFileOf t transcript.new → IsFileOf w witness.new
        → ChecksNext chain.old chain.new.links name.now t w (is_failed transcript.new) (is_failed witness.new)
        result }
    ensures ended { OnOk result (IsTrue (is_ended transcript.new) × IsTrue (is_ended witness.new)) }
    ensures stands { IfOk result (λ segment. IfSome segment.ledger (λ own. IfSome segment.checked.left (λ left.
        StandsAsOpened (state_of_journal own).now (declaration_of left.declaration).entries))) }
    ensures held { chain.new.held ≡ chain.old.held }
{
    let transcript = match read_linked(alloc, &mut chain.links, name, transcript) {
        Ok(transcript) => transcript,
        Err(unjudged) => return Err(unjudged),
    };
    let witness = match read_witness(alloc, witness) {
        Ok(witness) => witness,
        Err(fault) => return Err(Unjudged::Fault(AuditFault::Witness(fault))),
    };
    let kept = chain.ledger.take();
    let held = &chain.held;
    let since = held.until;
    match check_segment_on(alloc, &transcript, &held.declaration, &witness, since, kept) {
        Ok(on) => Ok(NextSegment {
            transcript,
            witness,
            checked: on.checked,
            ledger: on.ledger,
        }),
        Err(fault) => Err(Unjudged::Fault(AuditFault::Check(fault))),
    }
}

/// Reads a segment, of which nothing was read; links it behind those of the chain, and searches it from what they leave.
pub fn search_next_input<R: Read, W: Watch>(
    alloc: Global,
    chain: &mut Chain,
    next: NextSearch<'_>,
    transcript: &mut Input<R>,
    watch: &mut W,
) -> Result<FoundSegment, Unjudged>
    requires declared { AreDeclared (declaration_of chain.old.held.declaration) }
    requires transcript { came_of transcript.old ≡ [] }
    ensures searches { (t : List ℕ) → IsFileOf t transcript.new
        → SearchesNext chain.old chain.new.links next.entry.name.now t (is_failed transcript.new)
        (W.seconds watch.old) next.entry.budget result }
    ensures ended { OnOk result (IsTrue (is_ended transcript.new)) }
    ensures held { chain.new.held ≡ chain.old.held }
{
    let transcript = match read_linked(alloc, &mut chain.links, next.name, transcript) {
        Ok(transcript) => transcript,
        Err(unjudged) => return Err(unjudged),
    };
    let held = &chain.held;
    let asked = SearchAsked {
        search: SearchOptions {
            budget: next.budget,
            forced: false,
            open: false,
        },
        segment: SegmentAsked {
            since: held.until,
            leaves: false,
        },
    };
    match search_segment(alloc, &transcript, &held.declaration, asked, watch) {
        Ok(segment) => Ok(segment),
        Err(fault) => Err(Unjudged::Fault(AuditFault::Check(fault))),
    }
}

/// Reads a segment, of which nothing was read, and links it behind those so far.
fn read_linked<R: Read>(
    alloc: Global,
    links: &mut Links,
    name: &str,
    transcript: &mut Input<R>,
) -> Result<Transcript, Unjudged>
    requires { came_of transcript.old ≡ [] }
    ensures reads { IfOk result
        (λ read. AreReadNext links.old links.new name.now (came_of transcript.new) (transcript_of read)
        × IsTrue (is_ended transcript.new)) }
    ensures unread { (t : List ℕ) → IsFileOf t transcript.new
        → IfErr result (IsUnreadNext links.old name.now t (is_failed transcript.new)) }
{
    match read_segment(alloc, links, name, transcript) {
        Ok(transcript) => Ok(transcript),
        Err(Unlinked::Fault(fault)) => Err(Unjudged::Fault(AuditFault::Transcript(fault))),
        Err(Unlinked::Gap(gap)) => Err(Unjudged::Gap(gap)),
    }
}

//! A chain of segments of one recording, judged one after the other in the memory of one.

ghost use Rattle.std.specs.Prelude.{◌≡◌};
ghost use Rattle.std.specs.Option.{ForSome};
ghost use Rattle.kmipa_store.specs.States.{state_of_journal};
ghost use Rattle.kmipa_record.specs.Declarations.{declaration_of};
ghost use Rattle.kmipa_check.specs.Opening.{StandsAsOpened};

use crate::asked::NextSearch;
use crate::next::{NextSegment, Unjudged, check_next_inputs, search_next_input};
use crate::segment_search::{FoundSegment, found_witness};
use kmipa_check::{AuditFault, Left};
use kmipa_jobs::Status;
use kmipa_links::Links;
use kmipa_orders::Watch;
use kmipa_record::{RecordFault, Witness, read_declaration};
use kmipa_runs::{append, fault_lines, report};
use kmipa_searches::searched_lines;
use kmipa_store::Journal;
use kmipa_ttlv::Input;
use std::alloc::Global;
use std::io::Read;

/// What the segments that were judged so far leave to the next.
#[derive(Drop)]
pub struct Chain {
    pub held: Left,
    /// How many calls were taken by now.
    pub calls: u64,
    /// The segments, each linked behind those before it.
    pub links: Links,
    /// The witness by which the last segment was judged, where that was a yes.
    pub witness: Option<Witness>,
    // A ledger that stands as the declaration that is held opens it, where one is kept.
    pub(crate) ledger: Option<Journal>,
    ghost stands: { ForSome ledger (λ own.
        StandsAsOpened (state_of_journal own).now (declaration_of held.declaration).entries) },
}

impl Chain {
    ghost use Rattle.std.specs.Prelude.{◌≢◌, ◌⊎◌, ℕ, List, [], Some, None, Ok, IsTrue, IfOk, IfErr, IfSome, Result};
    ghost use Rattle.std.specs.Io.{StartsWith, appended_bytes};
    ghost use Rattle.kmipa_ttlv.specs.Input.{came_of, is_ended, is_failed, IsFileOf};
    ghost use Rattle.kmipa_record.specs.Declarations.{AreDeclared, DeclarationFault, IsDeclaration, IsDeclarationUpTo};
    ghost use Rattle.kmipa_record.specs.Files.{Tells};
    ghost use Rattle.kmipa_record.specs.Transcripts.{transcript_of};
    ghost use Rattle.kmipa_record.specs.Witnesses.{witness_of};
    ghost use Rattle.kmipa_check.specs.Left.{LeavesAtYes};
    ghost use Rattle.kmipa_runs.specs.Lines.{PrintsFault, PrintsVerdict};
    ghost use Rattle.kmipa_jobs.specs.Statuses.{IsSilent};
    ghost use Rattle.kmipa_links.specs.Linking.{HaveLinked};
    ghost use Rattle.kmipa_segments.specs.Chains.{AreChained, ChecksNext, found_witness, GoesOnBy, GoesOnSomehow, IsSomeDeclared, LeavesWhereFound, SearchesNext, TellsChecked, TellsJudged, TellsSearched};

    /// The chain of no segments, which holds the declaration that is read of an input of which nothing was read. Where that is none, appends
    /// the line of its first fault and answers the status.
    pub fn read<R: Read>(
        alloc: Global,
        declaration: &mut Input<R>,
        out: &mut Vec<u8>,
    ) -> Result<Chain, Status>
        requires { came_of declaration.old ≡ [] }
        ensures begins { IfOk result
            (λ chain. IsDeclaration (came_of declaration.new) (declaration_of chain.held.declaration)
            × IsTrue (is_ended declaration.new)
            × AreChained (declaration_of chain.held.declaration) None [] [] chain.held × HaveLinked [] chain.links) }
        ensures declared { IfOk result (λ chain. AreDeclared (declaration_of chain.held.declaration)) }
        ensures refuses { IfErr result (λ status. (fault : RecordFault)
            × ((d : List ℕ) → IsFileOf d declaration.new
            → Tells DeclarationFault IsDeclarationUpTo d (is_failed declaration.new) fault)
            × (PrintsFault (AuditFault.Declaration fault) status (appended_bytes out.old.items out.new.items)
            ⊎ IsSilent status (appended_bytes out.old.items out.new.items))) }
        ensures appends { StartsWith out.new.items out.old.items }
    {
        match read_declaration(alloc, declaration) {
            Ok(declaration) => Ok(Chain {
                held: Left {
                    declaration,
                    until: None,
                },
                calls: 0,
                links: Links::new(alloc),
                witness: None,
                ledger: None,
            }),
            Err(fault) => Err(append(fault_lines(alloc, &AuditFault::Declaration(fault)), out)),
        }
    }

    /// Judges the next segment by its witness, from what the segments so far leave, and from their last stamp on; it is linked behind them while
    /// it is read. Appends the lines of the verdict and answers the status, or why it wasn't judged. At a yes the chain then holds what this
    /// segment leaves, and the witness. Behind any other answer it can't go on.
    pub fn check_next<R: Read>(
        &mut self,
        alloc: Global,
        name: &str,
        transcript: &mut Input<R>,
        witness: &mut Input<R>,
        out: &mut Vec<u8>,
    ) -> Result<Status, Unjudged>
        requires declared { AreDeclared (declaration_of self.old.held.declaration) }
        requires transcript { came_of transcript.old ≡ [] }
        requires witness { came_of witness.old ≡ [] }
        // What is printed tells what a check answers of whatever the inputs may be, or memory ran out.
        ensures prints { (outcome : Result NextSegment Unjudged)
            × ((t w : List ℕ) → IsFileOf t transcript.new → IsFileOf w witness.new
            → ChecksNext self.old self.new.links name.now t w (is_failed transcript.new) (is_failed witness.new) outcome)
            × TellsJudged (TellsChecked self.old.held) outcome result (appended_bytes out.old.items out.new.items) }
        // Status 0 is answered only of a segment that is linked behind those before it, goes on from what was held,
        // and joins them; what it leads to is held then.
        ensures goes_on { result ≡ Ok Status.Done
            → GoesOnBy self.old self.new name.now (came_of transcript.new) (came_of witness.new)
            × IsTrue (is_ended transcript.new) × IsTrue (is_ended witness.new) }
        ensures kept { result ≢ Ok Status.Done → (self.new.held ≡ self.old.held) × (self.new.witness ≡ None) }
        ensures declared { AreDeclared (declaration_of self.new.held.declaration) }
        ensures appends { StartsWith out.new.items out.old.items }
    {
        match check_next_inputs(alloc, self, name, transcript, witness) {
            Ok(segment) => Ok(self.take_checked(alloc, segment, out)),
            Err(unjudged) => {
                self.witness = None;
                Err(unjudged)
            }
        }
    }

    /// Judges the next segment by a witness that is searched for, in the same way.
    pub fn search_next<R: Read, W: Watch>(
        &mut self,
        alloc: Global,
        next: NextSearch<'_>,
        transcript: &mut Input<R>,
        watch: &mut W,
        out: &mut Vec<u8>,
    ) -> Result<Status, Unjudged>
        requires declared { AreDeclared (declaration_of self.old.held.declaration) }
        requires transcript { came_of transcript.old ≡ [] }
        // What is printed tells what a search answers of whatever the input may be, or memory ran out.
        ensures prints { (outcome : Result FoundSegment Unjudged)
            × ((t : List ℕ) → IsFileOf t transcript.new
            → SearchesNext self.old self.new.links next.entry.name.now t (is_failed transcript.new)
            (W.seconds watch.old) next.entry.budget outcome)
            × TellsJudged TellsSearched outcome result (appended_bytes out.old.items out.new.items) }
        ensures goes_on { result ≡ Ok Status.Done
            → GoesOnSomehow self.old self.new next.entry.name.now (came_of transcript.new) × IsTrue (is_ended transcript.new) }
        ensures kept { result ≢ Ok Status.Done → (self.new.held ≡ self.old.held) × (self.new.witness ≡ None) }
        ensures declared { AreDeclared (declaration_of self.new.held.declaration) }
        ensures appends { StartsWith out.new.items out.old.items }
    {
        match search_next_input(alloc, self, next, transcript, watch) {
            Ok(segment) => Ok(self.take_found(alloc, segment, out)),
            Err(unjudged) => {
                self.witness = None;
                Err(unjudged)
            }
        }
    }

    /// Appends the lines of a verdict. At a yes the chain then holds what is left.
    fn take_checked(&mut self, alloc: Global, segment: NextSegment, out: &mut Vec<u8>) -> Status
        requires declared { AreDeclared (declaration_of self.old.held.declaration) }
        requires leaves { LeavesAtYes segment.checked.verdict segment.checked.left
            (λ left. AreDeclared (declaration_of left.declaration)) }
        requires stands { IfSome segment.ledger (λ own. IfSome segment.checked.left (λ left.
            StandsAsOpened (state_of_journal own).now (declaration_of left.declaration).entries)) }
        ensures prints { PrintsVerdict (transcript_of segment.transcript)
            (declaration_of self.old.held.declaration) (witness_of segment.witness) segment.checked.verdict
            result (appended_bytes out.old.items out.new.items)
            ⊎ IsSilent result (appended_bytes out.old.items out.new.items) }
        ensures taken { result ≡ Status.Done → (segment.checked.left ≡ Some self.new.held)
            × (self.new.witness ≡ Some segment.witness) }
        ensures kept { result ≢ Status.Done → (self.new.held ≡ self.old.held) × (self.new.witness ≡ None) }
        ensures links { self.new.links ≡ self.old.links }
        ensures declared { AreDeclared (declaration_of self.new.held.declaration) }
        ensures appends { StartsWith out.new.items out.old.items }
    {
        let NextSegment {
            transcript,
            witness,
            checked,
            ledger,
        } = segment;
        self.witness = None;
        match report(
            alloc,
            &checked.verdict,
            &transcript,
            &self.held.declaration,
            &witness,
            out,
        ) {
            Status::Done => self.hold(checked.left, Some(witness), ledger),
            status => status,
        }
    }

    /// Appends the line of what was found. Where that is a witness the chain then holds what is left.
    fn take_found(&mut self, alloc: Global, segment: FoundSegment, out: &mut Vec<u8>) -> Status
        requires declared { AreDeclared (declaration_of self.old.held.declaration) }
        requires leaves { LeavesWhereFound segment.searched.found segment.left
            (λ left. AreDeclared (declaration_of left.declaration)) }
        ensures prints { TellsSearched segment result (appended_bytes out.old.items out.new.items)
            ⊎ IsSilent result (appended_bytes out.old.items out.new.items) }
        ensures taken { result ≡ Status.Done → (segment.left ≡ Some self.new.held)
            × (self.new.witness ≡ found_witness segment.searched.found) }
        ensures kept { result ≢ Status.Done → (self.new.held ≡ self.old.held) × (self.new.witness ≡ None) }
        ensures links { self.new.links ≡ self.old.links }
        ensures declared { AreDeclared (declaration_of self.new.held.declaration) }
        ensures appends { StartsWith out.new.items out.old.items }
    {
        let FoundSegment { searched, left } = segment;
        self.witness = None;
        match append(searched_lines(alloc, &searched), out) {
            Status::Done => self.hold(left, found_witness(searched.found), None),
            status => status,
        }
    }

    /// Holds what a segment leaves that was judged by this witness, the witness, and a ledger that stands as that opens it, where there is one.
    fn hold(
        &mut self,
        left: Option<Left>,
        witness: Option<Witness>,
        ledger: Option<Journal>,
    ) -> Status
        requires declared { IsSomeDeclared left }
        requires stands { IfSome ledger (λ own. IfSome left (λ left.
            StandsAsOpened (state_of_journal own).now (declaration_of left.declaration).entries)) }
        ensures done { result ≡ Status.Done }
        ensures holds { left ≡ Some self.new.held }
        ensures keeps { self.new.witness ≡ witness }
        ensures links { self.new.links ≡ self.old.links }
        ensures declared { AreDeclared (declaration_of self.new.held.declaration) }
    {
        self.calls = self.calls.saturating_add(count_turns(&witness) as u64);
        self.witness = witness;
        self.ledger = None;
        match left {
            Some(left) => {
                self.held = left;
                self.ledger = ledger;
            }
            None => {}
        }
        Status::Done
    }
}

/// How many calls it takes.
fn count_turns(witness: &Option<Witness>) -> usize {
    match witness {
        Some(witness) => witness.turns.len(),
        None => 0,
    }
}

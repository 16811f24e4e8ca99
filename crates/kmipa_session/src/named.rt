//! A file that was opened by its name, and the runs over such files.

use crate::did::Said;
use crate::judged::{JudgedFiles, judge_form, judged_files};
use crate::ran::{Ran, told_of};
use crate::runs::{
    check_explained, check_explained_object, check_left, check_lines, check_object,
    search_explained, search_left, search_lines, search_object, write_items,
};
use crate::sealing::own_length;
use kmipa_jobs::{Form, JudgeWords, SearchWords, ShowOptions, Status};
use kmipa_judge::{judge_alone_run, judge_run};
use kmipa_links::Links;
use kmipa_orders::Watch;
use kmipa_record::Torn;
use kmipa_runs::{Printer, Unprinted, show_run};
use kmipa_segments::{
    Chain, Link, NextSearch, SegmentAsked, chain_begin, chain_check, chain_compare, chain_link,
    chain_search,
};
use kmipa_ttlv::Input;
use std::alloc::Global;
use std::io::Read;

/// An input, and the name by which its file was opened. No code takes the one from the other.
#[derive(Drop)]
pub struct Named<'n, R> {
    name: &'n str,
    input: Input<R>,
    // Where it is torn, if a close is given behind what it has.
    torn: Option<Torn>,
}

impl<'n, R: Read> Named<'n, R> {
    ghost use Rattle.std.specs.Prelude.{◌≡◌, ◌≢◌, ◌⊎◌, ℕ, List, [], IsTrue, IfErr, IfOk, OnErr, OnOk, Result, Some, None};
    ghost use Rattle.std.specs.Io.{StartsWith, appended_bytes};
    ghost use Rattle.kmipa_ttlv.specs.Input.{came_of, is_ended, is_failed, IsFileOf};
    ghost use Rattle.kmipa_judge.specs.Runs.{JudgesFiles};
    ghost use Rattle.kmipa_runs.specs.Inputs.{Writes};
    ghost use Rattle.kmipa_record.specs.Declarations.{AreDeclared, DeclarationFault, DeclarationOf, IsDeclaration, IsDeclarationUpTo, declaration_of};
    ghost use Rattle.kmipa_record.specs.Files.{Tells};
    ghost use Rattle.kmipa_record.specs.declared.fault.RecordFault.{RecordFault};
    ghost use Rattle.kmipa_check.specs.declared.auditing.AuditFault.{AuditFault};
    ghost use Rattle.kmipa_runs.specs.Lines.{PrintsFault};
    ghost use Rattle.kmipa_jobs.specs.Statuses.{IsSilent};
    ghost use Rattle.kmipa_jobs.specs.declared.status.Status.{Status};
    ghost use Rattle.kmipa_segments.specs.Chaining.{IsChain, IsKeptNext, IsNextOf};
    ghost use Rattle.kmipa_segments.specs.Chains.{ChecksNext, IsNamed, PrintsJudged, SearchesNext, TellsChecked, TellsSearched};
    ghost use Rattle.kmipa_segments.specs.Comparing.{ComparesFile, Fits, PrintsCompared};
    ghost use Rattle.kmipa_segments.specs.Linking.{LinksSo};
    ghost use Rattle.kmipa_segments.specs.declared.comparing.Compared.{Compared};
    ghost use Rattle.kmipa_segments.specs.declared.next.NextSegment.{NextSegment};
    ghost use Rattle.kmipa_segments.specs.declared.next.Unjudged.{Unjudged};
    ghost use Rattle.kmipa_segments.specs.declared.segment_search.FoundSegment.{FoundSegment};
    ghost use Rattle.kmipa_session.specs.Checks.{Checks, ChecksInSegment};
    ghost use Rattle.kmipa_session.specs.Judgings.{judge_form};
    ghost use Rattle.kmipa_session.specs.Sealing.{KnowsTold, own_length};
    ghost use Rattle.kmipa_session.specs.Searches.{Searches, SearchesInSegment, Shows};
    ghost use Rattle.kmipa_session.specs.Worlds.{input_of, name_of, torn_of};

    /// The file with this name, over this reader, of which nothing was read.
    pub fn over(name: &'n str, reader: R) -> Named<'n, R>
        ensures name { name_of result ≡ name.now }
        ensures fresh { came_of (input_of result) ≡ [] }
        ensures whole { torn_of result ≡ None }
    {
        Named::over_torn(name, reader, None)
    }

    /// The transcript with this name, over this reader, of which nothing was read. Where it is torn the reader gives a close behind its whole
    /// records.
    pub fn over_torn(name: &'n str, reader: R, torn: Option<Torn>) -> Named<'n, R>
        ensures name { name_of result ≡ name.now }
        ensures fresh { came_of (input_of result) ≡ [] }
        ensures torn { torn_of result ≡ torn }
    {
        Named {
            name,
            input: Input::new(reader),
            torn,
        }
    }

    /// Whether a read of it failed.
    pub fn has_failed(&self) -> bool
        ensures { result ≡ is_failed (input_of self.now) }
    {
        self.input.failed()
    }

    /// Where it is torn, if a close is given behind what it has.
    pub fn torn(&self) -> Option<Torn>
        ensures { result ≡ torn_of self.now }
    {
        self.torn
    }

    /// Checks three files, and tells it in this form.
    pub fn check(
        alloc: Global,
        form: Form,
        transcript: &mut Named<'_, R>,
        declaration: &mut Named<'_, R>,
        witness: &mut Named<'_, R>,
    ) -> Ran
        requires transcript { came_of (input_of transcript.old) ≡ [] }
        requires declaration { came_of (input_of declaration.old) ≡ [] }
        requires witness { came_of (input_of witness.old) ≡ [] }
        ensures checks { Checks form (own_length (torn_of transcript.new)) (input_of transcript.new)
            (input_of declaration.new) (input_of witness.new) result.status result.lines.items }
        ensures known { KnowsTold (torn_of transcript.new) (came_of (input_of transcript.new)) result.status
            result.head }
        ensures torn { torn_of transcript.new ≡ torn_of transcript.old }
        ensures transcript { name_of transcript.new ≡ name_of transcript.old }
        ensures declaration { name_of declaration.new ≡ name_of declaration.old }
        ensures witness { name_of witness.new ≡ name_of witness.old }
    {
        let torn = transcript.torn;
        let own = own_length(torn);
        let t = &mut transcript.input;
        let d = &mut declaration.input;
        let w = &mut witness.input;
        let ran = match form {
            Form::Lines => check_lines(alloc, t, d, w),
            Form::Explained => check_explained(alloc, t, d, w),
            Form::Json => check_object(alloc, own, t, d, w),
            Form::ExplainedJson => check_explained_object(alloc, own, t, d, w),
        };
        told_of(torn, ran)
    }

    /// Checks three files of a segment, from a moment on where one is given, and where it is asked for answers behind what is said the bytes of
    /// the declaration that it leaves.
    pub fn check_segment(
        alloc: Global,
        transcript: &mut Named<'_, R>,
        declaration: &mut Named<'_, R>,
        witness: &mut Named<'_, R>,
        asked: SegmentAsked,
    ) -> (Ran, Vec<u8>)
        requires transcript { came_of (input_of transcript.old) ≡ [] }
        requires declaration { came_of (input_of declaration.old) ≡ [] }
        requires witness { came_of (input_of witness.old) ≡ [] }
        ensures checks { ChecksInSegment asked.leaves asked.since (input_of transcript.new) (input_of declaration.new) (input_of
            witness.new)
            result.0.status result.0.lines.items result.1.items }
        ensures known { KnowsTold (torn_of transcript.new) (came_of (input_of transcript.new)) result.0.status
            result.0.head }
        ensures torn { torn_of transcript.new ≡ torn_of transcript.old }
        ensures transcript { name_of transcript.new ≡ name_of transcript.old }
        ensures declaration { name_of declaration.new ≡ name_of declaration.old }
        ensures witness { name_of witness.new ≡ name_of witness.old }
    {
        let torn = transcript.torn;
        let (ran, left) = check_left(
            alloc,
            &mut transcript.input,
            &mut declaration.input,
            &mut witness.input,
            asked,
        );
        (told_of(torn, ran), left)
    }

    /// Looks for a witness of two files, tells it in this form, and answers behind what is said the bytes of the witness.
    pub fn search<W: Watch>(
        alloc: Global,
        form: Form,
        words: SearchWords,
        transcript: &mut Named<'_, R>,
        declaration: &mut Named<'_, R>,
        watch: &mut W,
    ) -> (Ran, Vec<u8>)
        requires transcript { came_of (input_of transcript.old) ≡ [] }
        requires declaration { came_of (input_of declaration.old) ≡ [] }
        ensures searches { Searches (W.seconds watch.old) form words (own_length (torn_of transcript.new)) (input_of transcript.new)
            (input_of declaration.new) result.0.status result.0.lines.items result.1.items }
        ensures known { KnowsTold (torn_of transcript.new) (came_of (input_of transcript.new)) result.0.status
            result.0.head }
        ensures torn { torn_of transcript.new ≡ torn_of transcript.old }
        ensures transcript { name_of transcript.new ≡ name_of transcript.old }
        ensures declaration { name_of declaration.new ≡ name_of declaration.old }
    {
        let torn = transcript.torn;
        let own = own_length(torn);
        let t = &mut transcript.input;
        let d = &mut declaration.input;
        let (ran, made) = match form {
            Form::Lines => search_lines(alloc, words, t, d, watch),
            Form::Explained => search_explained(alloc, words, t, d, watch),
            Form::Json | Form::ExplainedJson => search_object(alloc, words, own, t, d, watch),
        };
        (told_of(torn, ran), made)
    }

    /// Looks for a witness of two files of a segment, from a moment on where one is given, and answers behind what is said the bytes of the
    /// witness, and, where it is asked for, those of the declaration that it leaves.
    pub fn search_segment<W: Watch>(
        alloc: Global,
        words: SearchWords,
        transcript: &mut Named<'_, R>,
        declaration: &mut Named<'_, R>,
        asked: SegmentAsked,
        watch: &mut W,
    ) -> (Ran, Vec<u8>, Vec<u8>)
        requires transcript { came_of (input_of transcript.old) ≡ [] }
        requires declaration { came_of (input_of declaration.old) ≡ [] }
        ensures searches { SearchesInSegment (W.seconds watch.old) words asked.leaves asked.since (input_of transcript.new) (input_of declaration.new)
            result.0.status result.0.lines.items result.1.items result.2.items }
        ensures known { KnowsTold (torn_of transcript.new) (came_of (input_of transcript.new)) result.0.status
            result.0.head }
        ensures torn { torn_of transcript.new ≡ torn_of transcript.old }
        ensures transcript { name_of transcript.new ≡ name_of transcript.old }
        ensures declaration { name_of declaration.new ≡ name_of declaration.old }
    {
        let torn = transcript.torn;
        let (ran, made, left) = search_left(
            alloc,
            words,
            &mut transcript.input,
            &mut declaration.input,
            asked,
            watch,
        );
        (told_of(torn, ran), made, left)
    }

    /// Judges a transcript by a declaration, tells it in lines or in an object, and answers with what is said the bytes of what is made.
    pub fn judge<W: Watch + Drop>(
        alloc: Global,
        words: JudgeWords,
        transcript: &mut Named<'_, R>,
        declaration: &mut Named<'_, R>,
        watch: W,
    ) -> JudgedFiles
        requires transcript { came_of (input_of transcript.old) ≡ [] }
        requires declaration { came_of (input_of declaration.old) ≡ [] }
        ensures judges { JudgesFiles (W.seconds watch) (judge_form words.json (own_length (torn_of transcript.new)))
            (input_of transcript.new) (Some (input_of declaration.new)) result.ran.status result.ran.lines.items
            result.witness.items result.used.items }
        ensures known { KnowsTold (torn_of transcript.new) (came_of (input_of transcript.new)) result.ran.status
            result.ran.head }
        ensures torn { torn_of transcript.new ≡ torn_of transcript.old }
        ensures transcript { name_of transcript.new ≡ name_of transcript.old }
        ensures declaration { name_of declaration.new ≡ name_of declaration.old }
    {
        let torn = transcript.torn;
        let form = judge_form(words.json, own_length(torn));
        let run = judge_run(
            alloc,
            form,
            &mut transcript.input,
            &mut declaration.input,
            words.budget,
            watch,
        );
        judged_files(torn, run)
    }

    /// Judges a transcript where no declaration is given.
    pub fn judge_alone<W: Watch + Drop>(
        &mut self,
        alloc: Global,
        words: JudgeWords,
        watch: W,
    ) -> JudgedFiles
        requires { came_of (input_of self.old) ≡ [] }
        ensures judges { JudgesFiles (W.seconds watch) (judge_form words.json (own_length (torn_of self.new))) (input_of self.new)
            None result.ran.status result.ran.lines.items result.witness.items result.used.items }
        ensures known { KnowsTold (torn_of self.new) (came_of (input_of self.new)) result.ran.status result.ran.head }
        ensures torn { torn_of self.new ≡ torn_of self.old }
        ensures name { name_of self.new ≡ name_of self.old }
    {
        let torn = self.torn;
        let form = judge_form(words.json, own_length(torn));
        let run = judge_alone_run(alloc, form, &mut self.input, words.budget, watch);
        judged_files(torn, run)
    }

    /// Prints the items of the file.
    pub fn show<P: Printer>(
        &mut self,
        alloc: Global,
        options: ShowOptions,
        printer: P,
    ) -> (P, Result<Status, Unprinted>)
        requires { came_of (input_of self.old) ≡ [] }
        ensures name { name_of self.new ≡ name_of self.old }
        ensures shows { IfOk result.1 (λ said. Shows options (input_of self.new) said
            (appended_bytes (P.printed printer) (P.printed result.0))) }
        ensures appends { OnOk result.1 (StartsWith (P.printed result.0) (P.printed printer)) }
        ensures own { OnErr result.1 (IsTrue (P.has_failed result.0)) }
    {
        show_run(alloc, &mut self.input, options, printer)
    }

    /// Makes items of the digits of the file, and answers behind what is said their bytes.
    pub fn write(&mut self, alloc: Global) -> (Said, Vec<u8>)
        requires { came_of (input_of self.old) ≡ [] }
        ensures writes { Writes (came_of (input_of self.new)) (is_failed (input_of self.new))
            result.0.status result.0.lines.items result.1.items }
        ensures name { name_of self.new ≡ name_of self.old }
    {
        write_items(alloc, &mut self.input)
    }

    /// The chain of no segments, from the declaration that the file is. Where it is none, appends the line of its first fault, and answers the
    /// status.
    pub fn begin(&mut self, alloc: Global, lines: &mut Vec<u8>) -> Result<Chain, Status>
        requires { came_of (input_of self.old) ≡ [] }
        ensures begins { IfOk result (λ chain.
            IsDeclaration (came_of (input_of self.new)) (declaration_of chain.held.declaration)
            × IsTrue (is_ended (input_of self.new))
            × IsChain (declaration_of chain.held.declaration) [] chain) }
        ensures declared { IfOk result (λ chain. AreDeclared (declaration_of chain.held.declaration)) }
        ensures refuses { IfErr result (λ status. (fault : RecordFault)
            × ((d : List ℕ) → IsFileOf d (input_of self.new)
            → Tells DeclarationFault IsDeclarationUpTo d (is_failed (input_of self.new)) fault)
            × (PrintsFault (AuditFault.Declaration fault) status (appended_bytes lines.old.items lines.new.items)
            ⊎ IsSilent status (appended_bytes lines.old.items lines.new.items))) }
        ensures appends { StartsWith lines.new.items lines.old.items }
    {
        chain_begin(alloc, &mut self.input, lines)
    }

    /// Links the next segment of a chain, of which this is the transcript, behind those before it, and appends the line of its gap, if it has one.
    pub fn link(
        &mut self,
        alloc: Global,
        links: &mut Links,
        name: &str,
        lines: &mut Vec<u8>,
    ) -> Link
        requires { came_of (input_of self.old) ≡ [] }
        ensures links { LinksSo links.old links.new name.now (input_of self.new)
            (appended_bytes lines.old.items lines.new.items) result }
        ensures appends { StartsWith lines.new.items lines.old.items }
    {
        chain_link(alloc, links, name, &mut self.input, lines)
    }

    /// Judges the next segment of a chain by its witness, and appends its name and its lines, or the line of its gap, if it has one.
    pub fn check_next(
        alloc: Global,
        chain: &mut Chain,
        name: &str,
        transcript: &mut Named<'_, R>,
        witness: &mut Named<'_, R>,
        lines: &mut Vec<u8>,
    ) -> Status
        requires declared { AreDeclared (declaration_of chain.old.held.declaration) }
        requires transcript { came_of (input_of transcript.old) ≡ [] }
        requires witness { came_of (input_of witness.old) ≡ [] }
        ensures prints { (outcome : Result NextSegment Unjudged)
            × ((t w : List ℕ) → IsFileOf t (input_of transcript.new) → IsFileOf w (input_of witness.new)
            → ChecksNext chain.old chain.new.links name.now t w (is_failed (input_of transcript.new))
            (is_failed (input_of witness.new)) outcome)
            × (PrintsJudged (TellsChecked chain.old.held) name.now outcome result (appended_bytes lines.old.items lines.new.items)
            ⊎ IsSilent result (appended_bytes lines.old.items lines.new.items)) }
        ensures goes_on { result ≡ Status.Done → IsNextOf chain.old chain.new
            (record {
              name = name.now;
              transcript = came_of (input_of transcript.new);
              witness = Some (came_of (input_of witness.new));
            }) × IsTrue (is_ended (input_of transcript.new)) × IsTrue (is_ended (input_of witness.new)) }
        ensures kept { result ≡ Status.Done
            → IsKeptNext chain.old chain.new name.now (came_of (input_of transcript.new)) }
        ensures let_go { result ≢ Status.Done → (result ≡ Status.Failed) ⊎ (chain.new.witness ≡ None) }
        ensures declared { AreDeclared (declaration_of chain.new.held.declaration) }
        ensures appends { StartsWith lines.new.items lines.old.items }
    {
        chain_check(
            alloc,
            chain,
            name,
            &mut transcript.input,
            &mut witness.input,
            lines,
        )
    }

    /// Judges the next segment of a chain, of which this is the transcript, by a witness that is searched for, and appends its name and its lines,
    /// or the line of its gap, if it has one.
    pub fn search_next<W: Watch>(
        &mut self,
        alloc: Global,
        chain: &mut Chain,
        next: NextSearch<'_>,
        watch: &mut W,
        lines: &mut Vec<u8>,
    ) -> Status
        requires declared { AreDeclared (declaration_of chain.old.held.declaration) }
        requires fresh { came_of (input_of self.old) ≡ [] }
        ensures prints { (outcome : Result FoundSegment Unjudged)
            × ((t : List ℕ) → IsFileOf t (input_of self.new)
            → SearchesNext chain.old chain.new.links next.entry.name.now t (is_failed (input_of self.new))
            (W.seconds watch.old) next.entry.budget outcome)
            × (PrintsJudged TellsSearched next.entry.name.now outcome result (appended_bytes lines.old.items lines.new.items)
            ⊎ IsSilent result (appended_bytes lines.old.items lines.new.items)) }
        ensures goes_on { result ≡ Status.Done → IsNextOf chain.old chain.new
            (record { name = next.entry.name.now; transcript = came_of (input_of self.new); witness = None })
            × IsTrue (is_ended (input_of self.new)) }
        ensures kept { result ≡ Status.Done → IsKeptNext chain.old chain.new next.entry.name.now (came_of (input_of self.new)) }
        ensures let_go { result ≢ Status.Done → (result ≡ Status.Failed) ⊎ (chain.new.witness ≡ None) }
        ensures declared { AreDeclared (declaration_of chain.new.held.declaration) }
        ensures appends { StartsWith lines.new.items lines.old.items }
    {
        chain_search(alloc, chain, next, &mut self.input, watch, lines)
    }

    /// Holds the declaration that the file is against what a chain holds, and appends its name and its lines.
    pub fn compare(
        &mut self,
        alloc: Global,
        chain: &Chain,
        name: &str,
        lines: &mut Vec<u8>,
    ) -> Status
        requires { came_of (input_of self.old) ≡ [] }
        ensures prints { (outcome : Result Compared RecordFault)
            × ((d : List ℕ) → IsFileOf d (input_of self.new)
            → ComparesFile (declaration_of chain.now.held.declaration) d (is_failed (input_of self.new)) outcome)
            × (IsNamed name.now (λ told. PrintsCompared outcome result told)
            (appended_bytes lines.old.items lines.new.items)
            ⊎ IsSilent result (appended_bytes lines.old.items lines.new.items)) }
        ensures fits { result ≡ Status.Done → (other : DeclarationOf)
            × IsDeclaration (came_of (input_of self.new)) other
            × Fits (declaration_of chain.now.held.declaration) other × IsTrue (is_ended (input_of self.new)) }
        ensures appends { StartsWith lines.new.items lines.old.items }
    {
        chain_compare(alloc, chain, name, &mut self.input, lines)
    }
}

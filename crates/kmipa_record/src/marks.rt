//! The marks of a transcript, one at a time.

ghost use Rattle.std.specs.Prelude.{◌≤◌, vec_len};

use crate::fault::{RecordFault, RecordKind};
use crate::head::Head;
use crate::mark_reading::{PlacedMark, read_on};
use crate::transcript::Mark;
use kmipa_ttlv::Input;
use std::alloc::Global;
use std::io::Read;

/// The marks of a transcript, one at a time, through a buffer of at most 1,048,576 bytes.
///
/// It tells Ttlv, Header, Entry, Device and Memory: how the numbers of calls follow is not tested.
///
/// # Faults
/// A fault stays: each later `next` answers it again.
#[derive(Drop)]
pub struct Marks<'a, R> {
    alloc: Global,
    input: &'a mut Input<R>,
    // The bytes of the item that was read last.
    bytes: Vec<u8>,
    // Whether the header was read.
    begun: bool,
    // What the transcript is known by, if it is sealed.
    head: Option<Head>,
    // Where the mark begins that was given last.
    place: u64,
    // The fault that stays.
    fault: Option<RecordFault>,
    ghost bounded: { vec_len bytes ≤ 0x10_0000 },
}

impl<'a, R: Read> Marks<'a, R> {
    ghost use Rattle.std.specs.Prelude.{◌≡◌, ◌≢◌, ◌<◌, ℕ, List, [], false, None, Some, Err, IfOk, IfErr, IfSome, MatchResult};
    ghost use Rattle.kmipa_ttlv.specs.Input.{came_of, taken_of, is_failed, IsFileOf, StaysOver};
    ghost use Rattle.kmipa_record.specs.Files.{Tells, TellsItem};
    ghost use Rattle.kmipa_record.specs.Marks.{MarkOf, mark_of};
    ghost use Rattle.kmipa_record.specs.MarkReading.{input_of, reference_of, given_place, known_of, reported_of, HasGiven, GivesNext, StandsNext, FaultBehind, IsRightBehind};

    /// The marks of a transcript of whose bytes none was read.
    pub fn new(alloc: Global, input: &'a mut Input<R>) -> Marks<'a, R>
        requires { came_of input.old ≡ [] }
        ensures given { HasGiven [] result }
        ensures reported { reported_of result ≡ None }
        ensures input { input_of result ≡ input.old }
        ensures same_reference { reference_of result ≡ input.entry.ghost_name }
    {
        Marks {
            alloc,
            input,
            bytes: Vec::new(alloc),
            begun: false,
            head: None,
            place: 0,
            fault: None,
        }
    }

    /// The input below.
    pub fn into_input(self) -> &'a mut Input<R>
        ensures same_reference { result.ghost_name ≡ reference_of self.entry }
        ensures input { result.now ≡ input_of self.entry }
    {
        let Marks { input, .. } = self;
        input
    }

    /// Takes out what the transcript is known by as far as it was read; `None` of one that bears no seals.
    pub(crate) fn take_head(&mut self) -> Option<Head>
        ensures known { result ≡ known_of self.old }
        ensures input { input_of self.new ≡ input_of self.old }
        ensures same_reference { reference_of self.new ≡ reference_of self.old }
    {
        self.head.take()
    }

    /// Where the mark that was given last begins, counted in bytes from the transcript's first.
    pub fn place(&self) -> u64
        ensures { result ≡ given_place self.now }
    {
        self.place
    }

    /// Refuses the mark that was given last: the fault that is reported from now on.
    pub(crate) fn refuse(&mut self, kind: RecordKind) -> RecordFault
        ensures fault { result ≡ record { offset = given_place self.old; kind = kind } }
        ensures reported { reported_of self.new ≡ Some result }
        ensures input { input_of self.new ≡ input_of self.old }
        ensures same_reference { reference_of self.new ≡ reference_of self.old }
    {
        let fault = RecordFault {
            offset: self.place,
            kind,
        };
        self.fault = Some(fault);
        fault
    }

    /// The next mark; `None` at the end of the transcript.
    pub fn next(&mut self) -> Result<Option<Mark>, RecordFault>
        // The marks that are given are those of the transcript, in order, and all of them once there is none.
        ensures given { (marks : List MarkOf) → HasGiven marks self.old → IfOk result (GivesNext marks self.new) }
        // A mark stands after those, at the place that is then reported.
        ensures placed { (marks : List MarkOf) → HasGiven marks self.old
            → IfOk result
            (λ next. IfSome next (λ mark. StandsNext marks (mark_of mark) (given_place self.new) (input_of self.new))) }
        ensures nearer { IfOk result
            (λ next. IfSome next (λ mark. taken_of (input_of self.old) < taken_of (input_of self.new))) }
        // A fault is the first after the marks that were given, whatever follows what came, unless a read
        // failed or memory ran out.
        ensures fault { (marks : List MarkOf) (file : List ℕ) → HasGiven marks self.old → reported_of self.old ≡ None
            → IsFileOf file (input_of self.new)
            → IfErr result (Tells (FaultBehind marks) (IsRightBehind marks) file (is_failed (input_of self.new))) }
        // Device and Memory are reported where the item begins that was being read.
        ensures place { reported_of self.old ≡ None → IfErr result (TellsItem (came_of (input_of self.new))) }
        ensures sound { reported_of self.old ≡ None
            → MatchResult result (λ _. is_failed (input_of self.new) ≡ false)
            (λ f. f.kind ≢ RecordKind.Device → is_failed (input_of self.new) ≡ false) }
        // It is reported again.
        ensures reported { MatchResult result (λ _. reported_of self.new ≡ None) (λ f. reported_of self.new ≡ Some f) }
        ensures again { (f : RecordFault) → reported_of self.old ≡ Some f → (result ≡ Err f)
            × (input_of self.new ≡ input_of self.old) }
        ensures same_reference { reference_of self.new ≡ reference_of self.old }
        // Over a reader whose bytes are known what came is their front.
        ensures over { StaysOver R.remaining (input_of self.old) (input_of self.new) }
    {
        if let Some(fault) = self.fault {
            return Err(fault);
        }
        match read_on(
            self.alloc,
            self.input,
            &mut self.bytes,
            &mut self.head,
            self.begun,
        ) {
            Ok(Some(PlacedMark { place, mark })) => {
                self.begun = true;
                self.place = place;
                Ok(Some(mark))
            }
            Ok(None) => {
                self.begun = true;
                Ok(None)
            }
            Err(fault) => {
                self.fault = Some(fault);
                Err(fault)
            }
        }
    }
}

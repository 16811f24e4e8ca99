//! Searches that say what their giving up means.

ghost use Rattle.std.specs.Prelude.{◌≡◌, IfOk, map, string_bytes};
ghost use Rattle.kmipa_record.specs.Declarations.{AreDeclared, declaration_of};
ghost use Rattle.kmipa_record.specs.Marks.{AreRecorded};
ghost use Rattle.kmipa_record.specs.Transcripts.{transcript_of};
ghost use Rattle.kmipa_searches.specs.Deciding.{DecidesOf, DecidesRecords, given_up_steps};

use crate::deciding::decide;
use crate::options::SearchOptions;
use crate::searched::Searched;
use crate::searching::search_records;
use crate::stuck::deepest_place;
use kmipa_check::{CheckFault, Grants};
use kmipa_orders::{Deepest, Found, Reached, Watch};
use kmipa_record::{Declaration, Transcript};
use std::alloc::{AllocError, Global};

/// What a search says by giving up.
#[derive(Drop)]
pub enum Decision {
    /// No order explains the transcript.
    Decided,
    /// No order explains the answers about the objects of these identifiers, one or several.
    Objects(Vec<String>),
    /// No order explains the transcript: the answer of one call is impossible over every inventory.
    Impossible,
    /// Nothing: so many steps, the whole budget, are used up.
    UsedUp(u64),
    /// Nothing: the calls of these numbers aren't plain.
    NotPlain(Vec<i32>),
    /// Nothing: the declaration lets moments be so many seconds from their stamps, and not all of them were tried.
    Tolerant(i32),
    /// Nothing: the declaration lets the server itself give attributes at birth, and not all of them were tried.
    Births,
    /// Nothing: so many seconds, all that the search had, are over.
    OutOfTime(u64),
}

/// What a search found, and, where it gave up, what that says.
#[derive(Drop)]
pub struct Judged {
    pub searched: Searched,
    /// None at a yes.
    pub decision: Option<Decision>,
    /// The deepest place; none at a yes, and where some call isn't plain.
    pub reached: Option<Reached>,
}

/// Searches the records, and where the search gives up, asks whether it has decided, and where it got stuck.
pub fn judge_records<W: Watch>(
    alloc: Global,
    transcript: &Transcript,
    declaration: &Declaration,
    asked: SearchOptions,
    watch: &mut W,
) -> Result<Judged, CheckFault>
    requires { AreDeclared (declaration_of declaration.now) }
    ensures { AreRecorded (transcript_of transcript.now)
        → DecidesRecords (transcript_of transcript.now) (declaration_of declaration.now)
        (W.seconds watch.old) asked.budget asked.forced result }
{
    let mut deepest = Deepest::new(alloc, watch);
    let searched = search_records(alloc, transcript, declaration, asked, &mut deepest)?;
    let Some(count) = given_up_steps(&searched.found) else {
        return Ok(Judged {
            searched,
            decision: None,
            reached: None,
        });
    };
    let order = deepest.into_calls()?;
    let grants = Grants::of(declaration);
    let said = decide(alloc, transcript, grants, asked.budget, count)?;
    let reached = deepest_place(alloc, transcript, declaration, &said, &order)?;
    let decision = decision_of(alloc, &searched.found, said)?;
    Ok(Judged {
        searched,
        decision: Some(decision),
        reached,
    })
}

/// The steps of a search that found no witness.
fn given_up_steps(found: &Found) -> Option<u64>
    ensures { result ≡ given_up_steps found.now }
{
    match found {
        Found::Yes(_, _) => None,
        Found::GaveUp(steps) => Some(*steps),
        Found::Refuted(steps, _) => Some(*steps),
        Found::Impossible(steps, _) => Some(*steps),
        Found::OutOfTime(steps, _) => Some(*steps),
    }
}

/// What is decided by what a search found, where this is said of the calls.
fn decision_of(alloc: Global, found: &Found, said: Decision) -> Result<Decision, AllocError>
    ensures { IfOk result (DecidesOf found.now said) }
{
    match found {
        Found::Yes(_, _) => Ok(said),
        Found::GaveUp(_) => Ok(said),
        Found::Refuted(_, objects) => Ok(Decision::Objects(copied(alloc, objects)?)),
        Found::Impossible(_, _) => Ok(Decision::Impossible),
        Found::OutOfTime(_, after) => Ok(Decision::OutOfTime(*after)),
    }
}

/// The same texts.
fn copied(alloc: Global, texts: &[String]) -> Result<Vec<String>, AllocError>
    ensures { IfOk result (λ copy. map string_bytes copy.items ≡ map string_bytes texts.now) }
{
    let mut copy = Vec::with_capacity(alloc, texts.len())?;
    'texts: for text in texts {
        copy.push(String::from_str(alloc, text.as_str())?)?;
    }
    Ok(copy)
}

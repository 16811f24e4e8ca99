//! What is said of the seals of a transcript behind what a run said of its calls.

ghost use Rattle.std.specs.Prelude.{◌≡◌, ◌⊎◌, ◌++◌, IfOk, MatchResult, OnOk, true, Some, string_bytes};
ghost use Rattle.kmipa_jobs.specs.Statuses.{IsSilent};
ghost use Rattle.kmipa_session.specs.Sealing.{IsExpected, IsNoSeal, SaysSeals, is_verdict, other_head_text, own_length, sealed_line, told_line};
ghost use Rattle.kmipa_jobs.specs.declared.status.Status.{Status};

use crate::did::Said;
use crate::ran::Ran;
use crate::voice::Voice;
use kmipa_jobs::Status;
use kmipa_record::{Head, Torn};
use kmipa_runs::{has_seal, head_line, other_head_line, other_head_object, read_seal, torn_line};
use std::alloc::{AllocError, Global};

/// A word that spells no seal.
pub struct NoSeal;

/// The seal that a word spells, where there is one.
pub fn expected_of(word: Option<&str>) -> Result<Option<[u8; 32]>, NoSeal>
    ensures { MatchResult result (λ seal. IsExpected word.entry seal) (λ _. IsNoSeal word.entry) }
{
    let Some(digits) = word else {
        return Ok(None);
    };
    match read_seal(digits) {
        Some(seal) => Ok(Some(seal)),
        None => Err(NoSeal),
    }
}

/// Where a close was given behind a torn transcript, how many bytes are the transcript's own.
pub fn own_length(torn: Option<Torn>) -> Option<u64>
    ensures { result ≡ own_length torn }
{
    match torn {
        Some(torn) => Some(torn.length),
        None => None,
    }
}

/// What a run said, and behind a verdict the line of the head, of a transcript that bears seals. Where another head is expected that is said in
/// place of the verdict. Of a torn transcript the line says that it is. Where memory runs out nothing is said.
pub fn say_seals(
    alloc: Global,
    voice: Voice,
    expected: Option<[u8; 32]>,
    torn: Option<Torn>,
    ran: Ran,
) -> Said
    ensures { SaysSeals voice expected torn ran.head ran.status ran.lines.items result.status result.lines.items }
{
    let Ran {
        status,
        lines,
        head,
    } = ran;
    let said = Said { status, lines };
    if is_verdict(status) {
        say_verdict(alloc, voice, expected, torn, &head, said)
    } else {
        said
    }
}

/// The same of a verdict.
fn say_verdict(
    alloc: Global,
    voice: Voice,
    expected: Option<[u8; 32]>,
    torn: Option<Torn>,
    head: &Option<Head>,
    said: Said,
) -> Said
    requires { is_verdict said.status ≡ true }
    ensures { SaysSeals voice expected torn head.now said.status said.lines.items result.status result.lines.items }
{
    match expected {
        Some(seal) => say_expected(alloc, voice, &seal, torn, head, said),
        None => say_head(alloc, voice, torn, head, said),
    }
}

/// The same where this head is expected.
fn say_expected(
    alloc: Global,
    voice: Voice,
    seal: &[u8; 32],
    torn: Option<Torn>,
    head: &Option<Head>,
    said: Said,
) -> Said
    requires { is_verdict said.status ≡ true }
    ensures { SaysSeals voice (Some seal.now) torn head.now said.status said.lines.items result.status result.lines.items }
{
    if has_seal(head, seal) {
        say_head(alloc, voice, torn, head, said)
    } else {
        say_other_head(alloc, voice, head, seal)
    }
}

/// Whether a status is that of a verdict.
pub fn is_verdict(status: Status) -> bool
    ensures { result ≡ is_verdict status }
{
    match status {
        Status::Done | Status::No | Status::GaveUp => true,
        Status::Refused | Status::Failed | Status::Usage => false,
    }
}

/// What was said, and behind it the line of the head.
fn say_head(
    alloc: Global,
    voice: Voice,
    torn: Option<Torn>,
    head: &Option<Head>,
    said: Said,
) -> Said
    ensures { IsSilent result.status result.lines.items
        ⊎ ((result.status ≡ said.status) × (result.lines.items ≡ said.lines.items ++ sealed_line voice torn head.now)) }
{
    let Said { status, mut lines } = said;
    match push_head(alloc, voice, torn, head, &mut lines) {
        Ok(()) => Said { status, lines },
        Err(_) => silent(alloc),
    }
}

/// Appends the line of the head of a transcript that bears seals.
fn push_head(
    alloc: Global,
    voice: Voice,
    torn: Option<Torn>,
    head: &Option<Head>,
    lines: &mut Vec<u8>,
) -> Result<(), AllocError>
    ensures { OnOk result (lines.new.items ≡ lines.old.items ++ sealed_line voice torn head.now) }
{
    match (voice, head) {
        (Voice::Lines, Some(head)) => {
            let line = told_line(alloc, torn, head)?;
            lines.extend_from_slice(line.as_bytes())
        }
        _ => Ok(()),
    }
}

/// The line of a head, which says where the transcript is torn, if it is.
fn told_line(alloc: Global, torn: Option<Torn>, head: &Head) -> Result<String, AllocError>
    ensures { IfOk result (λ text. string_bytes text ≡ told_line torn head.now) }
{
    match torn {
        Some(torn) => torn_line(alloc, head, torn),
        None => head_line(alloc, head),
    }
}

/// What is said in place of a verdict where another head is expected.
fn say_other_head(alloc: Global, voice: Voice, head: &Option<Head>, seal: &[u8; 32]) -> Said
    ensures { IsSilent result.status result.lines.items
        ⊎ ((result.status ≡ Status.Refused) × (result.lines.items ≡ other_head_text voice head.now seal.now)) }
{
    match other_head_text(alloc, voice, head, seal) {
        Ok(text) => Said {
            status: Status::Refused,
            lines: text.into_bytes(),
        },
        Err(_) => silent(alloc),
    }
}

fn other_head_text(
    alloc: Global,
    voice: Voice,
    head: &Option<Head>,
    seal: &[u8; 32],
) -> Result<String, AllocError>
    ensures { IfOk result (λ text. string_bytes text ≡ other_head_text voice head.now seal.now) }
{
    match voice {
        Voice::Lines => other_head_line(alloc, head, seal),
        Voice::Object => other_head_object(alloc, head, seal),
    }
}

/// What is said where memory ran out.
fn silent(alloc: Global) -> Said
    ensures { IsSilent result.status result.lines.items }
{
    Said {
        status: Status::Failed,
        lines: Vec::new(alloc),
    }
}

//! What is told of the head of a sealed transcript.

ghost use Rattle.std.specs.Prelude.{◌≡◌, ◌↔◌, ℕ, List, IsTrue, IfOk, MatchOption, string_bytes};
ghost use Rattle.hex.specs.Hex.{encode_lower};
ghost use Rattle.kmipa_runs.specs.Sealing.{HasSeal, SpellsSeal, head_line, other_head_line, other_head_object, torn_line};

use crate::quoting::escaped_text;
use hex::FromHex;
use kmipa_record::{Head, Torn};
use std::alloc::{AllocError, Global};

/// The seal that 64 hexadecimal digits spell; `None` where a text is none.
pub fn read_seal(digits: &str) -> Option<[u8; 32]>
    ensures { MatchOption result ((seal : List ℕ) → ¬ (SpellsSeal digits.now seal)) (SpellsSeal digits.now) }
{
    match <[u8; 32]>::from_hex(digits) {
        Ok(seal) => Some(seal),
        Err(_) => None,
    }
}

/// Whether a transcript is known by this seal.
pub fn has_seal(head: &Option<Head>, seal: &[u8; 32]) -> bool
    ensures { IsTrue result ↔ HasSeal head.now seal.now }
{
    match head {
        Some(head) => head.seal == *seal,
        None => false,
    }
}

/// The line of a head.
pub fn head_line(alloc: Global, head: &Head) -> Result<String, AllocError>
    ensures { IfOk result (λ text. string_bytes text ≡ head_line head.now) }
{
    let recording = escaped_text(alloc, head.label.recording.as_str())?;
    let segment = head.label.segment;
    let seal = seal_text(alloc, &head.seal)?;
    format!(in alloc; "sealed: {recording} segment {segment} head {seal}\n")
}

/// The line of the head of a torn transcript, up to which its records are whole.
pub fn torn_line(alloc: Global, head: &Head, torn: Torn) -> Result<String, AllocError>
    ensures { IfOk result (λ text. string_bytes text ≡ torn_line head.now torn) }
{
    let recording = escaped_text(alloc, head.label.recording.as_str())?;
    let segment = head.label.segment;
    let seal = seal_text(alloc, &head.seal)?;
    let length = torn.length;
    if torn.cut {
        format!(in alloc;
            "sealed: {recording} segment {segment} head {seal} torn after {length} bytes\n"
        )
    } else {
        format!(in alloc; "sealed: {recording} segment {segment} head {seal} torn\n")
    }
}

/// The line that stands in place of a verdict where another head is expected.
pub fn other_head_line(
    alloc: Global,
    head: &Option<Head>,
    expected: &[u8; 32],
) -> Result<String, AllocError>
    ensures { IfOk result (λ text. string_bytes text ≡ other_head_line head.now expected.now) }
{
    let expected = seal_text(alloc, expected)?;
    match head {
        Some(head) => {
            let seal = seal_text(alloc, &head.seal)?;
            format!(in alloc; "head: {seal}, expected {expected}\n")
        }
        None => format!(in alloc; "head: none, expected {expected}\n"),
    }
}

/// The same as an object.
pub fn other_head_object(
    alloc: Global,
    head: &Option<Head>,
    expected: &[u8; 32],
) -> Result<String, AllocError>
    ensures { IfOk result (λ text. string_bytes text ≡ other_head_object head.now expected.now) }
{
    let expected = seal_text(alloc, expected)?;
    match head {
        Some(head) => {
            let seal = seal_text(alloc, &head.seal)?;
            format!(in alloc;
                "{{\"auditor\":\"0.1.0\",\"expected\":\"{expected}\",\"head\":\"{seal}\",\"verdict\":\"head\"}}\n"
            )
        }
        None => format!(in alloc;
            "{{\"auditor\":\"0.1.0\",\"expected\":\"{expected}\",\"verdict\":\"head\"}}\n"
        ),
    }
}

/// The digits of a seal.
fn seal_text(alloc: Global, seal: &[u8; 32]) -> Result<String, AllocError>
    ensures { IfOk result (λ text. string_bytes text ≡ encode_lower seal.now) }
{
    hex::encode(alloc, seal.as_slice())
}

//! What is told in JSON of the seals of a transcript.

ghost use Rattle.std.specs.Prelude.{◌≡◌, IfOk, OnOk};
ghost use Rattle.kmipa_json.specs.Told.{members_of};
ghost use Rattle.kmipa_telling.specs.Seals.{head_members, seal_members, sealed_members};

use kmipa_json::JsonObject;
use kmipa_record::{Head, Label};
use std::alloc::{AllocError, Global};

/// Puts the head of a sealed transcript into the object that is told of it. Of a torn one, of which so many bytes are its own, it is the one ahead of
/// the close that was put behind them.
pub fn tell_seal(
    alloc: Global,
    told: &mut JsonObject,
    torn: Option<u64>,
    known: &Option<Head>,
) -> Result<(), AllocError>
    ensures { OnOk result (members_of told.new ≡ sealed_members torn known.now (members_of told.old)) }
{
    match known {
        Some(head) => told.put_object("seal", seal_object(alloc, torn, head)?),
        None => Ok(()),
    }
}

fn seal_object(alloc: Global, torn: Option<u64>, head: &Head) -> Result<JsonObject, AllocError>
    ensures { IfOk result (λ told. members_of told ≡ seal_members torn head.now) }
{
    match torn {
        Some(_) => {
            let mut told = head_object(alloc, &head.ahead, &head.label)?;
            told.put_truth("torn", true)?;
            Ok(told)
        }
        None => head_object(alloc, &head.seal, &head.label),
    }
}

/// The recording, the segment and a seal.
fn head_object(alloc: Global, seal: &[u8; 32], label: &Label) -> Result<JsonObject, AllocError>
    ensures { IfOk result (λ told. members_of told ≡ head_members seal.now label.now) }
{
    let digits = hex::encode(alloc, seal.as_slice())?;
    let mut told = JsonObject::new(alloc);
    told.put_text("head", digits.as_str())?;
    told.put_text("recording", label.recording.as_str())?;
    told.put_integer("segment", label.segment as i64)?;
    Ok(told)
}

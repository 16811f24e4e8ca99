//! The line of a fault of an input of items.

ghost use Rattle.std.specs.Prelude.{◌≡◌, ◌⊎◌, IfOk, string_bytes};
ghost use Rattle.std.specs.Io.{StartsWith, appended_bytes};
ghost use Rattle.kmipa_runs.specs.Inputs.{flaw_status, flaw_text};
ghost use Rattle.kmipa_jobs.specs.Statuses.{IsSilent};

use crate::lines::{Lines, record_lines};
use crate::reporting::append;
use kmipa_jobs::Status;
use kmipa_record::{RecordFault, RecordKind};
use kmipa_ttlv::{FaultKind, TtlvFault};
use std::alloc::{AllocError, Global};

/// Appends the line of a fault of the input, and answers its status; no line where memory ran out.
pub fn tell_flaw(alloc: Global, fault: TtlvFault, out: &mut Vec<u8>) -> Status
    ensures tells { ((result ≡ flaw_status fault) × (appended_bytes out.old.items out.new.items ≡ flaw_text fault))
        ⊎ IsSilent result (appended_bytes out.old.items out.new.items) }
    ensures appends { StartsWith out.new.items out.old.items }
{
    append(flaw_lines(alloc, fault), out)
}

fn flaw_lines(alloc: Global, fault: TtlvFault) -> Result<Lines, AllocError>
    ensures { IfOk result (λ lines. (lines.status ≡ flaw_status fault) × (string_bytes lines.text ≡ flaw_text fault)) }
{
    let kind = match fault.kind {
        FaultKind::Device => RecordKind::Device,
        FaultKind::Memory => RecordKind::Memory,
        kind => RecordKind::Ttlv(kind),
    };
    let offset = fault.offset;
    record_lines(alloc, "input", &RecordFault { offset, kind })
}

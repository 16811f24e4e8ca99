//! `show`: the items of an input, line by line.

ghost use Rattle.std.specs.Prelude.{◌≡◌, ◌⊎◌, ℕ, List, [], Ok, IsTrue, IfOk, OnErr, OnOk};
ghost use Rattle.std.specs.Io.{StartsWith, appended_bytes};
ghost use Rattle.kmipa_ttlv.specs.Input.{came_of, is_ended, is_failed, IsFileOf};
ghost use Rattle.kmipa_ttlv.specs.Items.{AreItems};
ghost use Rattle.kmipa_ttlv.specs.Tree.{Tree};
ghost use Rattle.kmipa_runs.specs.Inputs.{flaw_status, flaw_text, AreShown, PrintsShown};
ghost use Rattle.kmipa_jobs.specs.Statuses.{IsSilent};

use crate::flaws::tell_flaw;
use crate::holding::hold_items;
use crate::pieces::Pieces;
use crate::printer::{Printer, Unprinted};
use crate::shown::push_items;
use kmipa_jobs::{ShowOptions, Status};
use kmipa_ttlv::{Children, Input, TtlvFault};
use std::alloc::Global;
use std::io::Read;

/// `show FILE`: prints the lines of the items of an input of which nothing was read, or the line of its first fault
/// alone, and answers the printer and the status. No line is printed before the whole input was read and tested, and no
/// memory is taken after that. Where memory runs out nothing is printed, and the status is `Failed`. An `Err` says
/// that a print failed.
pub fn show_run<R: Read, P: Printer>(
    alloc: Global,
    input: &mut Input<R>,
    options: ShowOptions,
    mut printer: P,
) -> (P, Result<Status, Unprinted>)
    requires { came_of input.old ≡ [] }
    // What is printed is reported of whatever the input may be, or memory ran out.
    ensures prints { (file : List ℕ) → IsFileOf file input.new → IfOk result.1 (λ said.
        PrintsShown options file (is_failed input.new) said (appended_bytes (P.printed printer) (P.printed result.0))
        ⊎ IsSilent said (appended_bytes (P.printed printer) (P.printed result.0))) }
    // Status 0 is answered only where the bytes that came, to the end that was seen, are the items that are shown.
    ensures shows { result.1 ≡ Ok Status.Done
        → AreShown options (came_of input.new) (appended_bytes (P.printed printer) (P.printed result.0))
        × IsTrue (is_ended input.new) }
    ensures appends { OnOk result.1 (StartsWith (P.printed result.0) (P.printed printer)) }
    ensures own { OnErr result.1 (IsTrue (P.has_failed result.0)) }
{
    match hold_items(alloc, input) {
        Ok(bytes) => print_items(alloc, &bytes, options, printer),
        Err(fault) => {
            let said = print_flaw(alloc, fault, &mut printer);
            (printer, said)
        }
    }
}

/// Prints the lines of the items that these bytes are; nothing, where memory runs out.
fn print_items<P: Printer>(
    alloc: Global,
    bytes: &[u8],
    options: ShowOptions,
    printer: P,
) -> (P, Result<Status, Unprinted>)
    requires { (items : List Tree) × AreItems items bytes.now }
    ensures shows { IfOk result.1 (λ said.
        ((said ≡ Status.Done) × AreShown options bytes.now (appended_bytes (P.printed printer) (P.printed result.0)))
        ⊎ IsSilent said (appended_bytes (P.printed printer) (P.printed result.0))) }
    ensures appends { OnOk result.1 (StartsWith (P.printed result.0) (P.printed printer)) }
    ensures own { OnErr result.1 (IsTrue (P.has_failed result.0)) }
{
    match Pieces::new(alloc, printer) {
        Ok(mut pieces) => {
            let said = print_lines(bytes, options, &mut pieces);
            (pieces.into_printer(), said)
        }
        Err(printer) => (printer, Ok(Status::Failed)),
    }
}

/// Prints the lines of the items that these bytes are, in pieces.
fn print_lines<P: Printer>(
    bytes: &[u8],
    options: ShowOptions,
    pieces: &mut Pieces<P>,
) -> Result<Status, Unprinted>
    requires items { (items : List Tree) × AreItems items bytes.now }
    requires empty { pieces.old.held.items ≡ [] }
    ensures shows { IfOk result
        (λ said. (said ≡ Status.Done)
        × AreShown options bytes.now (appended_bytes (P.printed pieces.old.printer) (P.printed pieces.new.printer))) }
    ensures appends { OnOk result (StartsWith (P.printed pieces.new.printer) (P.printed pieces.old.printer)) }
    ensures own { OnErr result (IsTrue (P.has_failed pieces.new.printer)) }
{
    push_items(Children::spelled(bytes), options, 0, pieces)?;
    pieces.finish()?;
    Ok(Status::Done)
}

/// Prints the line of a fault of the input, and answers its status; nothing where memory ran out.
fn print_flaw<P: Printer>(
    alloc: Global,
    fault: TtlvFault,
    printer: &mut P,
) -> Result<Status, Unprinted>
    ensures tells { IfOk result (λ said.
        ((said ≡ flaw_status fault)
        × (appended_bytes (P.printed printer.old) (P.printed printer.new) ≡ flaw_text fault))
        ⊎ IsSilent said (appended_bytes (P.printed printer.old) (P.printed printer.new))) }
    ensures appends { OnOk result (StartsWith (P.printed printer.new) (P.printed printer.old)) }
    ensures own { OnErr result (IsTrue (P.has_failed printer.new)) }
{
    let mut lines = Vec::new(alloc);
    let status = tell_flaw(alloc, fault, &mut lines);
    printer.print(&lines)?;
    Ok(status)
}

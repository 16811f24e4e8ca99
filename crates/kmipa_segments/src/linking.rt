//! Segments are linked ahead of all verdicts.

ghost use Rattle.std.specs.Prelude.{◌≡◌, ◌↔◌, [], IsTrue};
ghost use Rattle.std.specs.Io.{StartsWith, appended_bytes};
ghost use Rattle.kmipa_ttlv.specs.Input.{came_of};
ghost use Rattle.kmipa_segments.specs.Linking.{IsOfBytes, LinksSo, TellsUnread};

use crate::gaps::gap_lines;
use kmipa_check::AuditFault;
use kmipa_jobs::Status;
use kmipa_links::{Links, Unlinked, link_segment};
use kmipa_record::{RecordFault, RecordKind};
use kmipa_runs::{append, fault_lines};
use kmipa_ttlv::Input;
use std::alloc::Global;
use std::io::Read;

/// What came of linking a segment ahead of any verdict.
#[derive(Clone, Copy, PartialEq, Eq)]
pub enum Link {
    /// It is linked behind those before it.
    Linked,
    /// It is no transcript, which is told where it is judged.
    Unread,
    /// It isn't linked, or its device failed, or memory ran out: the status that is left of it.
    Told(Status),
}

/// Links the next segment, of whose transcript nothing was read, behind those before it. Where it has a gap, appends its line; where its device
/// fails, that line; where memory runs out nothing is appended, and the status is `Failed`.
pub fn chain_link<R: Read>(
    alloc: Global,
    links: &mut Links,
    name: &str,
    transcript: &mut Input<R>,
    out: &mut Vec<u8>,
) -> Link
    requires { came_of transcript.old ≡ [] }
    ensures links { LinksSo links.old links.new name.now transcript.new (appended_bytes out.old.items out.new.items)
        result }
    ensures appends { StartsWith out.new.items out.old.items }
{
    match link_segment(alloc, links, name, transcript) {
        Ok(()) => Link::Linked,
        Err(Unlinked::Gap(gap)) => Link::Told(append(gap_lines(alloc, name, &gap), out)),
        Err(Unlinked::Fault(fault)) => tell_unread(alloc, fault, out),
    }
}

/// Tells the fault of a device, or says that memory ran out; of another fault nothing is told yet.
fn tell_unread(alloc: Global, fault: RecordFault, out: &mut Vec<u8>) -> Link
    ensures tells { TellsUnread fault (appended_bytes out.old.items out.new.items) result }
    ensures appends { StartsWith out.new.items out.old.items }
{
    if is_of_bytes(fault.kind) {
        return Link::Unread;
    }
    Link::Told(append(fault_lines(alloc, &AuditFault::Transcript(fault)), out))
}

/// Whether it is a fault of the bytes, and not of a device or for want of memory.
fn is_of_bytes(kind: RecordKind) -> bool
    ensures { IsTrue result ↔ IsOfBytes kind }
{
    match kind {
        RecordKind::Device | RecordKind::Memory => false,
        _ => true,
    }
}

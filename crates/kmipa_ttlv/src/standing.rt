//! Whether bytes are right, where it isn't asked what is wrong and where: no place is kept, and no fault is made.

ghost use Rattle.std.specs.Prelude.{◌≡◌, ◌≢◌, ◌≤◌, ◌+◌, [], length, IfSome, IsTrue};
ghost use Rattle.kmipa_ttlv.specs.Head.{number_of_kind};
ghost use Rattle.kmipa_ttlv.specs.Spelled.{IsScalarAt};
ghost use Rattle.kmipa_ttlv.specs.Spelling.{extent, Holds, Stands, Run};
ghost use Rattle.kmipa_ttlv.specs.Tree.{Tree, Trees};
ghost use Rattle.kmipa_ttlv.specs.Flaw.{allows};

use crate::head::{Head, Kind, child_head, value_of};
use byteorder::{BigEndian, ByteOrder};
use std::str;

/// Whether the value of an item with this header is right, where so many levels are left below it.
#[cycle(standing)]
#[inline(always)]
pub fn holds(left: usize, head: Head, value: &[u8]) -> bool
    requires allowed { IsTrue (allows (number_of_kind head.kind) (length value.now)) }
    requires room { length value.now ≤ 0x10_0000 }
    ensures { IsTrue result → (t : Tree) × Holds left head.tag.number (number_of_kind head.kind) t value.now }
{
    match head.kind {
        Kind::Structure => all_stand(left, value),
        _ => is_scalar(head.kind, value),
    }
}

/// How many bytes the item at the front takes, where it is right and has no more levels than are left.
#[cycle(standing)]
#[inline(always)]
fn standing(left: usize, bytes: &[u8]) -> Option<usize>
    requires { length bytes.now ≤ 0x10_0000 }
    ensures { IfSome result
        (λ n. (t : Tree) × Stands left t bytes.now × (n ≡ extent bytes.now) × (n ≤ length bytes.now)) }
{
    if left == 0 {
        return None;
    }
    let Ok(head) = child_head(0, bytes) else {
        return None;
    };
    if head.kind.is_tested() && !holds(left - 1, head, value_of(bytes, head.len)) {
        return None;
    }
    Some(head.extent())
}

/// Whether all of the bytes are items one after the other, each of them right.
#[cycle(standing)]
fn all_stand(left: usize, bytes: &[u8]) -> bool
    requires { length bytes.now ≤ 0x10_0000 }
    ensures { IsTrue result → (ts : Trees) × Run left ts bytes.now [] }
{
    let mut rest = bytes;
    'items: while !rest.is_empty() {
        let Some(taken) = standing(left, rest) else {
            return false;
        };
        let (_, others) = rest.split_at(taken);
        rest = others;
    }
    true
}

/// Whether a value of this kind, which has no children, is right.
fn is_scalar(kind: Kind, value: &[u8]) -> bool
    requires plain { kind ≢ Kind.Structure }
    requires allowed { IsTrue (allows (number_of_kind kind) (length value.now)) }
    ensures { IsTrue result → IsScalarAt (number_of_kind kind) value.now }
{
    match kind {
        Kind::Boolean => BigEndian::read_u64(value) <= 1,
        Kind::Text => str::from_utf8(value).is_ok(),
        _ => true,
    }
}

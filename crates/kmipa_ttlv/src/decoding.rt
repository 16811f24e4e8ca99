//! Items from bytes: what stands at the front of them, or the first test that fails.
//!
//! Views are read; `decode` is `decode_view` and a copy.

ghost use Rattle.std.specs.Prelude.{◌≡◌, ◌≢◌, ◌≤◌, ◌+◌, ℕ, [], length, take, IfOk, IfErr, MatchResult, IsTrue};
ghost use Rattle.kmipa_ttlv.specs.Head.{number_of_kind};
ghost use Rattle.kmipa_ttlv.specs.ItemTree.{tree};
ghost use Rattle.kmipa_ttlv.specs.Spelled.{IsScalarAt};
ghost use Rattle.kmipa_ttlv.specs.ViewTree.{view_tree};
ghost use Rattle.kmipa_ttlv.specs.Spelling.{extent, Holds, Stands, Run, Spells, IsFront};
ghost use Rattle.kmipa_ttlv.specs.Tree.{Tree, Trees};
ghost use Rattle.kmipa_ttlv.specs.Flaw.{allows, ScalarFlaw, ValueFlaw, FirstFlawed, Flaw, OuterFlaw, Shows, ReportsFault};

use crate::copying::copy_item;
use crate::fault::{FaultKind, TtlvFault};
use crate::head::{HEADER, Head, Kind, LEVELS, child_head, fault, outer_head, value_of};
use crate::item::Item;
use crate::spelled::view_of;
use crate::standing::holds;
use crate::view::View;
use byteorder::{BigEndian, ByteOrder};
use std::alloc::Global;
use std::str;

/// The item that the bytes begin with, and how many bytes spell it. Bytes may follow it.
///
/// Errors: the first flaw, read from left to right, with its offset from the first byte (Truncated at the number of
/// bytes that are there); Memory at offset 0. Device is never reported.
pub fn decode(alloc: Global, bytes: &[u8]) -> Result<(Item, usize), TtlvFault>
    // What is read is spelled so.
    ensures found { IfOk result (λ x. (x.1 ≤ length bytes.now) × Spells (tree x.0) (take x.1 bytes.now)) }
    // What is spelled so is read, unless memory runs out.
    ensures only { (t : Tree) (n : ℕ) → n ≤ length bytes.now → Spells t (take n bytes.now)
        → MatchResult result (λ x. (tree x.0 ≡ t) × (x.1 ≡ n)) (λ f. f.kind ≡ FaultKind.Memory) }
    // Else the first test that fails is reported, unless memory ran out.
    ensures flaw { IfErr result (λ f. ReportsFault f (OuterFlaw bytes.now)) }
{
    read_copy(alloc, bytes)
}

/// The same item, length and flaws as `decode`, with texts and bytes lent. No memory is taken, and Memory is never
/// reported: the bytes are tested, and children are read where they are asked for.
pub fn decode_view(bytes: &[u8]) -> Result<(View<'_>, usize), TtlvFault>
    ensures found { IfOk result (λ x. (x.1 ≤ length bytes.now) × Spells (view_tree x.0) (take x.1 bytes.now)) }
    ensures only { (t : Tree) (n : ℕ) → n ≤ length bytes.now → Spells t (take n bytes.now)
        → MatchResult result (λ x. (view_tree x.0 ≡ t) × (x.1 ≡ n)) (λ _. ⊥) }
    ensures flaw { IfErr result (λ f. Shows f (OuterFlaw bytes.now)) }
{
    read_outermost(bytes)
}

fn read_copy(alloc: Global, bytes: &[u8]) -> Result<(Item, usize), TtlvFault>
    ensures { MatchResult result (λ x. IsFront (tree x.0) x.1 bytes.now) (λ f. ReportsFault f (OuterFlaw bytes.now)) }
{
    let (view, taken) = read_outermost(bytes)?;
    Ok((copy_item(alloc, &view)?, taken))
}

/// The item at the front of the bytes, and how many bytes it takes.
fn read_outermost(bytes: &[u8]) -> Result<(View<'_>, usize), TtlvFault>
    ensures { MatchResult result (λ x. IsFront (view_tree x.0) x.1 bytes.now) (λ f. Shows f (OuterFlaw bytes.now)) }
{
    let head = outer_head(bytes)?;
    let value = value_of(bytes, head.len);
    test_outermost(head, value)?;
    Ok((view_of(head, value), head.extent()))
}

/// Tests the value of an outermost item with this header. Where it fails, it is tested again for the flaw.
fn test_outermost(head: Head, value: &[u8]) -> Result<(), TtlvFault>
    requires allowed { IsTrue (allows (number_of_kind head.kind) (length value.now)) }
    requires room { 8 + length value.now ≤ 0x10_0000 }
    ensures { MatchResult result (λ _. (t : Tree) × Holds 15 head.tag.number (number_of_kind head.kind) t value.now)
        (λ f. Shows f (ValueFlaw (Flaw 15) 15 0 (number_of_kind head.kind) value.now)) }
{
    if holds(LEVELS - 1, head, value) {
        return Ok(());
    }
    test_value(LEVELS - 1, 0, head, value)
}

/// Tests the item at this place, where so many levels are left, and the bytes go up to the structure's end. It answers
/// how many bytes the item takes.
#[cycle(testing)]
#[inline(always)]
fn test_child(left: usize, place: usize, bytes: &[u8]) -> Result<usize, TtlvFault>
    requires { place + length bytes.now ≤ 0x10_0000 }
    ensures { MatchResult result
        (λ n. (t : Tree) × Stands left t bytes.now × (n ≡ extent bytes.now) × (n ≤ length bytes.now))
        (λ f. Shows f (Flaw left place bytes.now)) }
{
    if left == 0 {
        return Err(fault(place, FaultKind::TooDeep));
    }
    let head = child_head(place, bytes)?;
    if head.kind.is_tested() {
        test_value(left - 1, place, head, value_of(bytes, head.len))?;
    }
    Ok(head.extent())
}

/// Tests the value of an item with this header, at this place, where so many levels are left below it.
#[cycle(testing)]
#[inline(always)]
fn test_value(left: usize, place: usize, head: Head, value: &[u8]) -> Result<(), TtlvFault>
    requires allowed { IsTrue (allows (number_of_kind head.kind) (length value.now)) }
    requires room { place + 8 + length value.now ≤ 0x10_0000 }
    ensures { MatchResult result (λ _. (t : Tree) × Holds left head.tag.number (number_of_kind head.kind) t value.now)
        (λ f. Shows f (ValueFlaw (Flaw left) left place (number_of_kind head.kind) value.now)) }
{
    match head.kind {
        Kind::Structure => test_children(left, place + HEADER, value),
        _ => test_scalar(place, head.kind, value),
    }
}

/// Tests the items in the bytes, all of the bytes.
#[cycle(testing)]
fn test_children(left: usize, place: usize, bytes: &[u8]) -> Result<(), TtlvFault>
    requires { place + length bytes.now ≤ 0x10_0000 }
    ensures { MatchResult result (λ _. (ts : Trees) × Run left ts bytes.now [])
        (λ f. Shows f (FirstFlawed (Flaw left) left place bytes.now)) }
{
    let mut at = place;
    let mut rest = bytes;
    while !rest.is_empty() {
        let taken = test_child(left, at, rest)?;
        at += taken;
        let (_, others) = rest.split_at(taken);
        rest = others;
    }
    Ok(())
}

/// Tests the value of an item of this kind, which has no children, at this place.
fn test_scalar(place: usize, kind: Kind, value: &[u8]) -> Result<(), TtlvFault>
    requires plain { kind ≢ Kind.Structure }
    requires allowed { IsTrue (allows (number_of_kind kind) (length value.now)) }
    requires room { place + 8 + length value.now ≤ 0x10_0000 }
    ensures { MatchResult result (λ _. IsScalarAt (number_of_kind kind) value.now)
        (λ f. Shows f (ScalarFlaw place (number_of_kind kind) value.now)) }
{
    match kind {
        Kind::Boolean => {
            if BigEndian::read_u64(value) > 1 {
                return Err(fault(place + 8, FaultKind::BadBoolean));
            }
            Ok(())
        }
        Kind::Text => match str::from_utf8(value) {
            Ok(_) => Ok(()),
            Err(_) => Err(fault(place + 8, FaultKind::BadText)),
        },
        _ => Ok(()),
    }
}

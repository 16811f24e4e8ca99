//! Items of an exact shape.

ghost use Rattle.std.specs.Prelude.{◌≡◌, ◌≢◌, ℤ, ℕ, Bool, List, MatchOption, IfOk, IfSome, length, option_map};
ghost use Rattle.std.specs.String.{string_bytes};
ghost use Rattle.kmipa_ttlv.specs.Tree.{Trees, structure, scalar, integer, enumeration, boolean, date_time, text, byte_string, date_time_extended};
ghost use Rattle.kmipa_ttlv.specs.ViewTree.{view_tree, view_trees};
ghost use Rattle.kmipa_msgs.specs.Messages.{lent};
ghost use Rattle.kmipa_record.specs.Entries.{items_of, AreBytes};

use kmipa_attrs::fields::{
    as_boolean, as_bytes, as_date, as_enumeration, as_integer, as_structure, as_text,
};
use kmipa_ttlv::{Children, View, ViewValue};
use std::alloc::{AllocError, Global};

/// The children of a Structure with this tag.
pub fn children_of<'a>(item: &View<'a>, tag: u32) -> Option<Children<'a>>
    ensures { MatchOption result ((children : Trees) → view_tree item.now ≢ structure tag children)
        (λ children. view_tree item.now ≡ structure tag (view_trees children)) }
{
    if item.tag.number != tag {
        return None;
    }
    as_structure(item)
}

/// The number of an Integer with this tag.
pub fn integer_of(item: &View, tag: u32) -> Option<i32>
    ensures { MatchOption result ((number : ℤ) → view_tree item.now ≢ scalar tag (integer number))
        (λ number. view_tree item.now ≡ scalar tag (integer number)) }
{
    if item.tag.number != tag {
        return None;
    }
    as_integer(item)
}

/// The number of an Enumeration with this tag.
pub fn enumeration_of(item: &View, tag: u32) -> Option<u32>
    ensures { MatchOption result ((number : ℕ) → view_tree item.now ≢ scalar tag (enumeration number))
        (λ number. view_tree item.now ≡ scalar tag (enumeration number)) }
{
    if item.tag.number != tag {
        return None;
    }
    as_enumeration(item)
}

/// The truth of a Boolean with this tag.
pub fn boolean_of(item: &View, tag: u32) -> Option<bool>
    ensures { MatchOption result ((truth : Bool) → view_tree item.now ≢ scalar tag (boolean truth))
        (λ truth. view_tree item.now ≡ scalar tag (boolean truth)) }
{
    if item.tag.number != tag {
        return None;
    }
    as_boolean(item)
}

/// The seconds since 1970 of a Date-Time with this tag.
pub fn date_of(item: &View, tag: u32) -> Option<i64>
    ensures { MatchOption result ((seconds : ℤ) → view_tree item.now ≢ scalar tag (date_time seconds))
        (λ seconds. view_tree item.now ≡ scalar tag (date_time seconds)) }
{
    if item.tag.number != tag {
        return None;
    }
    as_date(item)
}

/// The text of a Text String with this tag.
pub fn text_of<'a>(item: &View<'a>, tag: u32) -> Option<&'a str>
    ensures { MatchOption result ((bytes : List ℕ) → view_tree item.now ≢ scalar tag (text bytes))
        (λ bytes. view_tree item.now ≡ scalar tag (text bytes.now)) }
{
    if item.tag.number != tag {
        return None;
    }
    as_text(item)
}

/// The bytes of a Byte String with this tag.
pub fn bytes_of<'a>(item: &View<'a>, tag: u32) -> Option<&'a [u8]>
    ensures { MatchOption result ((bytes : List ℕ) → view_tree item.now ≢ scalar tag (byte_string bytes))
        (λ bytes. view_tree item.now ≡ scalar tag (byte_string bytes.now)) }
{
    if item.tag.number != tag {
        return None;
    }
    as_bytes(item)
}

/// The microseconds of a Date-Time Extended with this tag.
pub fn moment_of(item: &View, tag: u32) -> Option<i64>
    ensures { MatchOption result ((moment : ℤ) → view_tree item.now ≢ scalar tag (date_time_extended moment))
        (λ moment. view_tree item.now ≡ scalar tag (date_time_extended moment)) }
{
    if item.tag.number != tag {
        return None;
    }
    match &item.value {
        ViewValue::DateTimeExtended(moment) => Some(*moment),
        _ => None,
    }
}

/// The seal in a Byte String of 32 bytes with this tag.
pub fn seal_of(item: &View, tag: u32) -> Option<[u8; 32]>
    ensures { MatchOption result
        ((bytes : List ℕ) → length bytes ≡ 32 → view_tree item.now ≢ scalar tag (byte_string bytes))
        (λ seal. (view_tree item.now ≡ scalar tag (byte_string seal)) × (length seal ≡ 32)) }
{
    let bytes = bytes_of(item, tag)?;
    if bytes.len() != 32 {
        return None;
    }
    let mut seal = [0; 32];
    seal.copy_from_slice(bytes);
    Some(seal)
}

/// The bytes in memory of their own, where they are there.
pub fn copied(alloc: Global, bytes: Option<&[u8]>) -> Result<Option<Vec<u8>>, AllocError>
    ensures same { IfOk result (λ o. option_map items_of o ≡ option_map lent bytes.entry) }
    ensures small { IfOk result (λ o. IfSome (option_map items_of o) AreBytes) }
{
    match bytes {
        Some(bytes) => {
            are_bytes(bytes);
            Ok(Some(Vec::from_slice(alloc, bytes)?))
        }
        None => Ok(None),
    }
}

/// The text in memory of its own, where it is there.
pub fn copied_text(alloc: Global, text: Option<&str>) -> Result<Option<String>, AllocError>
    ensures { IfOk result (λ o. option_map string_bytes o ≡ option_map lent text.entry) }
{
    match text {
        Some(text) => Ok(Some(String::from_str(alloc, text)?)),
        None => Ok(None),
    }
}

/// The bytes of a slice are bytes.
pub fn are_bytes(bytes: &[u8])
    ensures { AreBytes bytes.now }
{}

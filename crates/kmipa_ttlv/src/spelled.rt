//! Items read in place, out of bytes that were tested before.

ghost use Rattle.std.specs.Str.{is_utf8};
ghost use Rattle.std.specs.Prelude.{◌≡◌, ◌≢◌, ◌≤◌, ◌==◌, ℕ, cond, [], length, IsTrue, MatchOption};
ghost use Rattle.kmipa_ttlv.specs.Head.{number_of_kind};
ghost use Rattle.kmipa_ttlv.specs.Flaw.{allows};
ghost use Rattle.kmipa_ttlv.specs.Spelling.{kind_at, value_at, extent};
ghost use Rattle.kmipa_ttlv.specs.Spelled.{scalar_at, item_at, items_at};
ghost use Rattle.kmipa_ttlv.specs.Tree.{none, more, structure, scalar};
ghost use Rattle.kmipa_ttlv.specs.ViewTree.{view_tree, view_value_tree, from_tag};

use crate::head::{Head, len_of, number_of, value_of, whole_front};
use crate::view::{Children, Source, View, ViewValue};
use byteorder::{BigEndian, ByteOrder};

/// The item at the front and the bytes behind it, or `None` where no whole one is there.
#[inline(always)]
pub fn front_view(bytes: &[u8]) -> Option<(View<'_>, &[u8])>
    ensures { MatchOption result (items_at bytes.now ≡ none)
        (λ x. items_at bytes.now ≡ more (view_tree x.0) (items_at x.1.now)) }
{
    let Some((tag, extent)) = whole_front(bytes) else {
        return None;
    };
    let value = front_value(bytes);
    let (_, rest) = bytes.split_at(extent);
    Some((View { tag, value }, rest))
}

/// The value of the item at the front.
#[inline(always)]
fn front_value(bytes: &[u8]) -> ViewValue<'_>
    requires header { 8 ≤ length bytes.now }
    requires whole { extent bytes.now ≤ length bytes.now }
    ensures { (tag : ℕ) → view_value_tree tag result ≡ item_at items_at tag (kind_at bytes.now) (value_at bytes.now) }
{
    let value = value_of(bytes, len_of(bytes));
    value_view(number_of(bytes), value)
}

/// The first item with this tag and the bytes behind it, or `None` where there is none.
#[inline(always)]
pub fn front_of(bytes: &[u8], tag: u32) -> Option<(View<'_>, &[u8])>
    ensures { MatchOption result (from_tag tag (items_at bytes.now) ≡ none)
        (λ x. from_tag tag (items_at bytes.now) ≡ more (view_tree x.0) (items_at x.1.now)) }
{
    let mut rest = bytes;
    'items: while let Some((front, extent)) = whole_front(rest) {
        let (_, others) = rest.split_at(extent);
        if front.number == tag {
            let value = front_value(rest);
            return Some((View { tag: front, value }, others));
        }
        rest = others;
    }
    None
}

/// The item that this header and value say.
pub fn view_of(head: Head, value: &[u8]) -> View<'_>
    ensures { view_tree result ≡ item_at items_at head.tag.number (number_of_kind head.kind) value.now }
{
    View {
        tag: head.tag,
        value: value_view(head.kind.number(), value),
    }
}

/// The value of an item with this type byte, of whatever length. The byte itself is looked at, so that one test of it is left
/// where a reader wants one kind.
#[inline(always)]
#[tactic(auto, unfolding(crate::specs::Spelled::scalar_at))]
fn value_view(number: u8, value: &[u8]) -> ViewValue<'_>
    ensures { (tag : ℕ) → view_value_tree tag result ≡ item_at items_at tag number value.now }
{
    let len = value.len();
    match number {
        1 => ViewValue::Structure(Children {
            source: Source::Spelled(value),
        }),
        7 => ViewValue::Text(text_of(value)),
        2 if len == 4 => ViewValue::Integer(BigEndian::read_i32(value)),
        5 if len == 4 => ViewValue::Enumeration(BigEndian::read_u32(value)),
        10 if len == 4 => ViewValue::Interval(BigEndian::read_u32(value)),
        3 if len == 8 => ViewValue::LongInteger(BigEndian::read_i64(value)),
        6 if len == 8 => ViewValue::Boolean(BigEndian::read_u64(value) == 1),
        9 if len == 8 => ViewValue::DateTime(BigEndian::read_i64(value)),
        11 if len == 8 => ViewValue::DateTimeExtended(BigEndian::read_i64(value)),
        4 if 0 < len && len % 8 == 0 => ViewValue::BigInteger(value),
        _ => ViewValue::Bytes(value),
    }
}

/// The text, or the empty one where it is none.
fn text_of(value: &[u8]) -> &str
    ensures { result.now ≡ cond (is_utf8 value.now) value.now [] }
{
    match str::from_utf8(value) {
        Ok(text) => text,
        Err(_) => "",
    }
}

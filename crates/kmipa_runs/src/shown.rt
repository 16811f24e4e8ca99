//! The lines that show an item.

ghost use Rattle.std.specs.Prelude.{◌≡◌, ◌≤◌, ◌+◌, ◌*◌, ◌∷◌, [], ◌++◌, replicate, IsTrue, OnErr, OnOk};
ghost use Rattle.std.specs.Io.{StartsWith, appended_bytes};
ghost use Rattle.byteorder.specs.Endian.{big_bytes};
ghost use Rattle.hex.specs.Hex.{encode_upper};
ghost use Rattle.kmipa_attrs.specs.Tags.{tag_name_of};
ghost use Rattle.kmipa_ttlv.specs.ViewTree.{view_tree, view_trees};
ghost use Rattle.kmipa_ttlv.specs.Tree.{byte_string};
ghost use Rattle.kmipa_ttlv.specs.Written.{depth, depths};
ghost use Rattle.kmipa_runs.specs.Shown.{IsPlain, ShowsBelow, ShowsItem, ShowsItems, ShowsLine};

use crate::message::message_of;
use crate::printer::{Printer, Unprinted};
use crate::values::{push_kind, push_note, push_value};
use kmipa_attrs::tag_name;
use kmipa_jobs::ShowOptions;
use kmipa_ttlv::{Children, Tag, View, ViewValue};

/// Prints the lines of an item with so many levels above it, and of the items in it. After an error a part
/// of them may be printed.
#[cycle(showing)]
#[inline(always)]
fn push_item<P: Printer>(
    item: &View,
    options: ShowOptions,
    level: usize,
    out: &mut P,
) -> Result<(), Unprinted>
    requires level { level + depth (view_tree item.now) ≤ 32 }
    // Room for the levels of a message.
    requires room { IsTrue options.messages → level + depth (view_tree item.now) ≤ 16 }
    ensures shows { OnOk result
        (ShowsItem options level (view_tree item.now) (appended_bytes (P.printed out.old) (P.printed out.new))) }
    ensures appends { OnOk result (StartsWith (P.printed out.new) (P.printed out.old)) }
    ensures fails { OnErr result (IsTrue (P.has_failed out.new)) }
{
    match &item.value {
        ViewValue::Structure(children) => {
            push_head(item.tag, level, out)?;
            out.print(b" Structure\n")?;
            push_items(*children, options, level + 1, out)
        }
        ViewValue::Bytes(bytes) => {
            push_line(item, options.notes, level, out)?;
            push_below(bytes, options, level, out)
        }
        _ => push_line(item, options.notes, level, out),
    }
}

/// Prints the lines of items that stand one after the other at this level.
#[cycle(showing)]
pub fn push_items<P: Printer>(
    items: Children,
    options: ShowOptions,
    level: usize,
    out: &mut P,
) -> Result<(), Unprinted>
    requires level { level + depths (view_trees items) ≤ 32 }
    requires room { IsTrue options.messages → level + depths (view_trees items) ≤ 16 }
    ensures shows { OnOk result
        (ShowsItems options level (view_trees items.entry) (appended_bytes (P.printed out.old) (P.printed out.new))) }
    ensures appends { OnOk result (StartsWith (P.printed out.new) (P.printed out.old)) }
    ensures fails { OnErr result (IsTrue (P.has_failed out.new)) }
{
    let mut left = items;
    'items: while let Some(item) = left.next() {
        push_item(&item, options, level, out)?;
    }
    Ok(())
}

/// Prints what stands below a Byte String at this level: the lines of the message that it is, if that is asked for.
#[cycle(showing)]
fn push_below<P: Printer>(
    bytes: &[u8],
    options: ShowOptions,
    level: usize,
    out: &mut P,
) -> Result<(), Unprinted>
    requires { IsTrue options.messages → level ≤ 15 }
    ensures shows { OnOk result
        (ShowsBelow options.messages options.notes level (byte_string bytes.now)
        (appended_bytes (P.printed out.old) (P.printed out.new))) }
    ensures appends { OnOk result (StartsWith (P.printed out.new) (P.printed out.old)) }
    ensures fails { OnErr result (IsTrue (P.has_failed out.new)) }
{
    if !options.messages {
        return Ok(());
    }
    let Some(message) = message_of(bytes) else {
        return Ok(());
    };
    let within = ShowOptions {
        messages: false,
        notes: options.notes,
    };
    push_item(&message, within, level + 1, out)
}

/// Prints the line of an item without children.
#[inline(always)]
fn push_line<P: Printer>(
    item: &View,
    notes: bool,
    level: usize,
    out: &mut P,
) -> Result<(), Unprinted>
    requires plain { IsPlain item.now.value }
    requires level { level ≤ 31 }
    ensures shows { OnOk result
        (ShowsLine notes level (view_tree item.now) (appended_bytes (P.printed out.old) (P.printed out.new))) }
    ensures appends { OnOk result (StartsWith (P.printed out.new) (P.printed out.old)) }
    ensures fails { OnErr result (IsTrue (P.has_failed out.new)) }
{
    push_head(item.tag, level, out)?;
    push_kind(&item.value, out)?;
    push_value(&item.value, out)?;
    push_note(notes, item.tag, &item.value, out)?;
    out.print(b"\n")
}

/// Prints the margin, the tag and its name.
#[inline(always)]
fn push_head<P: Printer>(tag: Tag, level: usize, out: &mut P) -> Result<(), Unprinted>
    requires { level ≤ 31 }
    ensures pushes { OnOk result (P.printed out.new ≡ P.printed out.old
        ++ (replicate (2 * level) 32 ++ encode_upper (big_bytes 3 tag.number) ++ 32 ∷ tag_name_of tag.number)) }
    ensures fails { OnErr result (IsTrue (P.has_failed out.new)) }
{
    out.print_front(level, tag)?;
    out.print(tag_name(tag).as_bytes())
}

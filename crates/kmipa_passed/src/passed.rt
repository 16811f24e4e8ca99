//! What is known of an item that isn't judged.

ghost use Rattle.std.specs.Prelude.{◌≡◌, IfOk, map};
ghost use Rattle.kmipa_ttlv.specs.ViewTree.{view_tree, view_trees};
ghost use Rattle.kmipa_attrs.specs.Fields.{every, map_field};
ghost use Rattle.kmipa_attrs.specs.Tags.{unique_identifier};
ghost use Rattle.kmipa_passed.specs.Passed.{answer_of, answer_says, ask_of, is_bare, is_formed, request_says, texts};

use crate::identifiers::{Asked, Shown, identifier_asked, identifier_shown, names_unclearly};
use crate::names::texts_named;
use crate::sorts::{Sort, sort_of};
use kmipa_attrs::Field;
use kmipa_attrs::fields::{as_text, children_in};
use kmipa_attrs::tags::UNIQUE_IDENTIFIER;
use kmipa_ttlv::Children;
use std::alloc::{AllocError, Global};

/// The number of Locate (KMIP 2.1, section 11).
const LOCATE: u32 = 8;

/// How an item was answered (KMIP 2.1, Result Status).
#[derive(Clone, Copy, PartialEq, Eq)]
pub enum Outcome {
    /// Success.
    Done,
    /// It was done, and then undone.
    Undone,
    /// The answer is still to come.
    Pending,
    Failed,
}

/// What an item asks for that isn't judged.
#[derive(Drop)]
pub struct PassedAsk<'a> {
    /// What its operation may do.
    pub sort: Sort,
    /// Whether it is a Locate.
    pub locates: bool,
    /// The object that it is about.
    pub asked: Asked<'a>,
    /// Each object that its payload names.
    pub names: Vec<&'a str>,
    /// Whether its payload names one in a form that doesn't tell which.
    pub unclearly: bool,
}

/// How an item was answered that isn't judged.
#[derive(Drop)]
pub struct PassedAnswer<'a> {
    pub outcome: Outcome,
    /// The object that its payload shows first.
    pub first: Asked<'a>,
    /// The object that its payload shows alone.
    pub shown: Shown<'a>,
    /// The objects that its payload lists.
    pub listed: Vec<&'a str>,
    /// Whether its payload is a structure, or absent.
    pub formed: bool,
    /// Whether its payload has no children.
    pub bare: bool,
    /// Each object that its payload names.
    pub names: Vec<&'a str>,
}

/// What an item asks for by an operation of this number and these children of its Request Payload.
pub fn passed_ask<'a>(
    alloc: Global,
    operation: u32,
    payload: Children<'a>,
) -> Result<PassedAsk<'a>, AllocError>
    ensures { IfOk result (λ ask. ask_of ask ≡ request_says operation (view_trees payload.entry)) }
{
    Ok(PassedAsk {
        sort: sort_of(operation, payload),
        locates: operation == LOCATE,
        asked: identifier_asked(payload),
        names: texts_named(alloc, payload)?,
        unclearly: names_unclearly(payload),
    })
}

/// How an item was answered, with this Response Payload.
pub fn passed_answer<'a>(
    alloc: Global,
    outcome: Outcome,
    payload: Field<Children<'a>>,
) -> Result<PassedAnswer<'a>, AllocError>
    ensures { IfOk result (λ answer. answer_of answer ≡ answer_says outcome (map_field view_trees payload.entry)) }
{
    let children = children_in(payload);
    Ok(PassedAnswer {
        outcome,
        first: identifier_asked(children),
        shown: identifier_shown(children),
        listed: texts_listed(alloc, children)?,
        formed: is_formed(payload),
        bare: is_bare(children),
        names: texts_named(alloc, children)?,
    })
}

/// The texts among the Unique Identifiers of a payload.
fn texts_listed<'a>(alloc: Global, payload: Children<'a>) -> Result<Vec<&'a str>, AllocError>
    ensures { IfOk result (λ ids. map (λ s. s.now) ids.items
        ≡ texts (every unique_identifier (view_trees payload.entry))) }
{
    let mut ids = Vec::new(alloc);
    let mut left = payload;
    'children: while let Some(child) = left.next_of(UNIQUE_IDENTIFIER) {
        if let Some(id) = as_text(&child) {
            ids.push(id)?;
        }
    }
    Ok(ids)
}

/// Whether a payload is a structure, or absent.
fn is_formed(payload: Field<Children>) -> bool
    ensures { result ≡ is_formed (map_field view_trees payload.entry) }
{
    match payload {
        Field::Wrong => false,
        Field::Absent | Field::There(_) => true,
    }
}

/// Whether there are no children.
fn is_bare(payload: Children) -> bool
    ensures { result ≡ is_bare (view_trees payload.entry) }
{
    let mut left = payload;
    left.next().is_none()
}

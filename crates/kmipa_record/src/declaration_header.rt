//! The header of a declaration.

ghost use Rattle.std.specs.Prelude.{◌≡◌, ◌≢◌, IfOk, MatchOption};
ghost use Rattle.kmipa_ttlv.specs.ItemTree.{tree};
ghost use Rattle.kmipa_ttlv.specs.Tree.{none};
ghost use Rattle.kmipa_ttlv.specs.ViewTree.{view_tree, view_trees};
ghost use Rattle.kmipa_record.specs.Settings.{declaration_header, more_settings, plain_settings, IsTolerance, MayHave};
ghost use Rattle.kmipa_record.specs.declared.declaration_version.DeclarationVersion.TheVariants.{First, Second};
ghost use Rattle.kmipa_record.specs.declared.settings.Settings.{Settings};

use crate::declaration_version::DeclarationVersion;
use crate::record::Record;
use crate::settings::{Settings, is_tolerance};
use crate::shape::{boolean_of, children_of, enumeration_of, integer_of};
use crate::tags::{DECLARATION_HEADER, TOLERANCE, UNIQUE_NAMES, UNJUDGED, VERSION, VISIBILITY};
use kmipa_msgs::{Unjudged, Visibility};
use kmipa_ttlv::{Children, Item, Tag, View};
use std::alloc::{AllocError, Global};

/// The header of a declaration.
#[derive(Drop)]
pub struct DeclarationHeader {
    pub version: DeclarationVersion,
    pub settings: Settings,
}

impl Record for DeclarationHeader {
    ghost use Rattle.kmipa_record.specs.declared.declaration_header.DeclarationHeader.{DeclarationHeader};

    ghost says = { λ item h. (item ≡ declaration_header h) × MayHave h.version h.settings };

    ghost is_record = { λ item.
        (h : DeclarationHeader) × (item ≡ declaration_header h) × MayHave h.version h.settings };

    fn of(_alloc: Global, item: &View) -> Result<Option<DeclarationHeader>, AllocError> {
        Ok(declaration_header_in(item))
    }
}

/// The header of a declaration, where the item is one.
fn declaration_header_in(item: &View) -> Option<DeclarationHeader>
    ensures { MatchOption result
        ((h : DeclarationHeader) → MayHave h.version h.settings → view_tree item.now ≢ declaration_header h)
        (λ h. (view_tree item.now ≡ declaration_header h) × MayHave h.version h.settings) }
{
    let mut children = children_of(item, DECLARATION_HEADER)?;
    let version = integer_of(&children.next()?, VERSION)?;
    let unique_names = boolean_of(&children.next()?, UNIQUE_NAMES)?;
    match version {
        1 => plain_header(unique_names, children),
        2 => header_with(unique_names, children),
        _ => None,
    }
}

/// The header of version 1, where no children are left.
fn plain_header(unique_names: bool, children: Children) -> Option<DeclarationHeader>
    ensures { MatchOption result (view_trees children.entry ≢ more_settings First (plain_settings unique_names))
        (λ h. (view_trees children.entry ≡ none)
        × (h ≡ record { version = First; settings = plain_settings unique_names })) }
{
    let mut left = children;
    if left.next().is_some() {
        return None;
    }
    Some(DeclarationHeader {
        version: DeclarationVersion::First,
        settings: Settings::plain(unique_names),
    })
}

/// The header of version 2, whose last children say the other settings.
fn header_with(unique_names: bool, children: Children) -> Option<DeclarationHeader>
    ensures { MatchOption result
        ((s : Settings) → IsTolerance s.tolerance → view_trees children.entry ≢ more_settings Second s)
        (λ h. (view_trees children.entry ≡ more_settings Second h.settings)
        × (h.version ≡ Second) × (h.settings.unique_names ≡ unique_names) × IsTolerance h.settings.tolerance) }
{
    let mut left = children;
    let unjudged = Unjudged::of(enumeration_of(&left.next()?, UNJUDGED)?)?;
    let tolerance = integer_of(&left.next()?, TOLERANCE)?;
    let visibility = Visibility::of(enumeration_of(&left.next()?, VISIBILITY)?)?;
    if left.next().is_some() || !is_tolerance(tolerance) {
        return None;
    }
    Some(DeclarationHeader {
        version: DeclarationVersion::Second,
        settings: Settings {
            unique_names,
            unjudged,
            tolerance,
            visibility,
        },
    })
}

/// The header of a declaration.
pub fn write_declaration_header(
    alloc: Global,
    header: &DeclarationHeader,
) -> Result<Item, AllocError>
    ensures { IfOk result (λ item. tree item ≡ declaration_header header.now) }
{
    match header.version {
        DeclarationVersion::First => write_plain_header(alloc, header.settings.unique_names),
        DeclarationVersion::Second => write_settings(alloc, &header.settings),
    }
}

/// The header of version 1.
fn write_plain_header(alloc: Global, unique_names: bool) -> Result<Item, AllocError>
    ensures { IfOk result
        (λ item. tree item
        ≡ declaration_header (record { version = First; settings = plain_settings unique_names })) }
{
    let mut children = Vec::with_capacity(alloc, 2)?;
    children.push(Item::integer(Tag { number: VERSION }, 1))?;
    children.push(Item::boolean(
        Tag {
            number: UNIQUE_NAMES,
        },
        unique_names,
    ))?;
    Ok(Item::structure(
        Tag {
            number: DECLARATION_HEADER,
        },
        children,
    ))
}

/// The header of version 2.
fn write_settings(alloc: Global, settings: &Settings) -> Result<Item, AllocError>
    ensures { IfOk result
        (λ item. tree item ≡ declaration_header (record { version = Second; settings = settings.now })) }
{
    let unique_names = Tag {
        number: UNIQUE_NAMES,
    };
    let unjudged = settings.unjudged.number();
    let visibility = settings.visibility.number();
    let mut children = Vec::with_capacity(alloc, 5)?;
    children.push(Item::integer(Tag { number: VERSION }, 2))?;
    children.push(Item::boolean(unique_names, settings.unique_names))?;
    children.push(Item::enumeration(Tag { number: UNJUDGED }, unjudged))?;
    children.push(Item::integer(Tag { number: TOLERANCE }, settings.tolerance))?;
    children.push(Item::enumeration(Tag { number: VISIBILITY }, visibility))?;
    Ok(Item::structure(
        Tag {
            number: DECLARATION_HEADER,
        },
        children,
    ))
}

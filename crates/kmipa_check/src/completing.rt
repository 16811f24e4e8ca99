//! Requests that births complete: single values of a birth stand in place of the client's, and names are added.

ghost use Rattle.std.specs.Prelude.{◌≡◌, ◌<◌, ◌^◌, IfOk, MatchResult, OnOk, Some, map, option_map};
ghost use Rattle.kmipa_ttlv.specs.ViewTree.{view_tree, view_trees};
ghost use Rattle.kmipa_attrs.specs.Names.{with_name, with_names};
ghost use Rattle.kmipa_attrs.specs.Sets.{attributes_of, name_of, names_of};
ghost use Rattle.kmipa_msgs.specs.Messages.{ask_of, asked_of, request_of};
ghost use Rattle.kmipa_record.specs.Witnesses.{birth_of};
ghost use Rattle.kmipa_check.specs.Bearing.{AskCompleted, BirthRead, FormRefused, HaveNumbers, IsBirthFound, IsCompleted, IsPlaceFound};
ghost use Rattle.kmipa_check.specs.Births.{AreGranted, AreSomeGranted, HasGranted, IsGranted, asked_with, born_with};
ghost use Rattle.kmipa_check.specs.Deciding.{Decided};
ghost use Rattle.kmipa_check.specs.Grants.{grants_of};
ghost use Rattle.kmipa_check.specs.Numbers.{Indexes};

use crate::fault::{StepFault, WitnessKind};
use crate::grants::Grants;
use crate::numbers::FirstPlaces;
use kmipa_attrs::fields::as_structure;
use kmipa_attrs::{AttrFault, AttrSet, NAMES, Name, Side, read_attrs};
use kmipa_msgs::{Ask, Asked, Create, Register, Request};
use kmipa_record::Birth;
use kmipa_ttlv::{Children, View, lend};
use smallvec::SmallVec;
use std::alloc::{AllocError, Global};

/// The request with the births put in. The places are those where an item's number first stands among the births.
pub fn completed<'a>(
    alloc: Global,
    grants: &Grants,
    request: &Request<'a>,
    births: &[Birth],
    places: &FirstPlaces,
) -> Result<Request<'a>, StepFault>
    requires indexed { Indexes (map (λ birth. Some birth.item) births.now) places.now }
    requires numbered { HaveNumbers (map birth_of births.now) }
    ensures { MatchResult result
        (λ full. IsCompleted (grants_of grants.now) (map birth_of births.now) (request_of request.now) (request_of full))
        (FormRefused (grants_of grants.now) (map birth_of births.now)) }
{
    let mut items = Vec::with_capacity(alloc, request.items.len())?;
    let mut place = 0;
    'items: while place < request.items.len() {
        let ask = &request.items[place];
        let birth = birth_for(births, places, place);
        let full = completed_ask(alloc, grants, ask, birth)?;
        items.push(full)?;
        place += 1;
    }
    Ok(Request {
        option: request.option,
        ordered: request.ordered,
        items,
    })
}

/// The birth for a place.
fn birth_for<'b>(births: &'b [Birth], places: &FirstPlaces, place: usize) -> Option<&'b Birth>
    requires below { place < 2 ^ 63 }
    requires indexed { Indexes (map (λ birth. Some birth.item) births.now) places.now }
    requires numbered { HaveNumbers (map birth_of births.now) }
    ensures { IsBirthFound (map birth_of births.now) place (option_map (λ birth. birth_of birth.now) result) }
{
    match place_of_birth(births, places, place) {
        Some(at) => Some(&births[at]),
        None => None,
    }
}

/// Where among the births that for a place stands.
fn place_of_birth(births: &[Birth], places: &FirstPlaces, place: usize) -> Option<usize>
    requires below { place < 2 ^ 63 }
    requires indexed { Indexes (map (λ birth. Some birth.item) births.now) places.now }
    requires numbered { HaveNumbers (map birth_of births.now) }
    ensures { IsPlaceFound (map birth_of births.now) place result }
{
    match i32::try_from(place + 1) {
        Ok(item) => places.place(item),
        Err(_) => None,
    }
}

/// An ask, completed by the birth for its place, if there is one.
fn completed_ask<'a>(
    alloc: Global,
    grants: &Grants,
    ask: &Ask<'a>,
    birth: Option<&Birth>,
) -> Result<Ask<'a>, StepFault>
    ensures { AskCompleted (grants_of grants.now) (ask_of ask.now) (option_map (λ birth. birth_of birth.now) birth.entry) result }
{
    let asked = match birth {
        Some(birth) => {
            let given = read_birth(alloc, grants, birth)?;
            asked_with(alloc, &ask.asked, &given)?
        }
        None => ask.asked.copy(alloc)?,
    };
    Ok(Ask {
        batch_id: ask.batch_id,
        asked,
    })
}

/// The attributes that a birth gives.
pub fn read_birth(alloc: Global, grants: &Grants, birth: &Birth) -> Result<AttrSet, StepFault>
    ensures { BirthRead (grants_of grants.now) (birth_of birth.now) result }
{
    let view = lend(&birth.attributes);
    if !has_granted(grants, &view) {
        return Err(StepFault::Unfit(WitnessKind::BirthForm));
    }
    match read_attrs(alloc, &view, Side::Client) {
        Ok(set) => Ok(set),
        Err(AttrFault::Memory) => Err(StepFault::Memory),
        Err(_) => Err(StepFault::Unfit(WitnessKind::BirthForm)),
    }
}

/// Whether an item has children, and the server itself may give each of them.
fn has_granted(grants: &Grants, item: &View) -> bool
    ensures { Decided result (HasGranted (grants_of grants.now) (view_tree item.now)) }
{
    match as_structure(item) {
        Some(children) => are_some_granted(grants, children),
        None => false,
    }
}

/// Whether there are children, and the server itself may give each of them.
fn are_some_granted(grants: &Grants, children: Children) -> bool
    ensures { Decided result (AreSomeGranted (grants_of grants.now) (view_trees children.entry)) }
{
    let mut left = children;
    let Some(first) = left.next() else {
        return false;
    };
    if !is_granted(grants, first.tag.number) {
        return false;
    }
    are_granted(grants, left)
}

/// Whether the server itself may give each of these children.
fn are_granted(grants: &Grants, children: Children) -> bool
    ensures { Decided result (AreGranted (grants_of grants.now) (view_trees children.entry)) }
{
    let mut left = children;
    'children: while let Some(child) = left.next() {
        if !is_granted(grants, child.tag.number) {
            return false;
        }
    }
    true
}

/// Whether the server itself may give an attribute of this tag.
fn is_granted(grants: &Grants, tag: u32) -> bool
    ensures { Decided result (IsGranted (grants_of grants.now) tag) }
{
    for attribute in grants.own {
        if attribute.tag() == tag {
            return true;
        }
    }
    false
}

/// What is asked for with these attributes of a birth.
fn asked_with<'a>(
    alloc: Global,
    asked: &Asked<'a>,
    birth: &AttrSet,
) -> Result<Asked<'a>, AllocError>
    ensures { IfOk result (λ full. asked_of full ≡ asked_with (asked_of asked.now) (attributes_of birth.now)) }
{
    match asked {
        Asked::Create(create) => Ok(Asked::Create(Create {
            attributes: Box::new(alloc, born_with(alloc, &create.attributes, birth)?)?,
        })),
        Asked::Register(register) => Ok(Asked::Register(Register {
            object_type: register.object_type,
            attributes: Box::new(alloc, born_with(alloc, &register.attributes, birth)?)?,
            block: register.block,
        })),
        other => other.copy(alloc),
    }
}

/// The attributes of an object for which a client gave some, and the server itself others.
fn born_with(alloc: Global, given: &AttrSet, birth: &AttrSet) -> Result<AttrSet, AllocError>
    ensures { IfOk result (λ full. attributes_of full ≡ born_with (attributes_of given.now) (attributes_of birth.now)) }
{
    let AttrSet { mut names, .. } = given.copy(alloc)?;
    add_names(alloc, &mut names, birth.names.as_slice())?;
    Ok(AttrSet {
        names,
        object_type: birth.object_type.or(given.object_type),
        algorithm: birth.algorithm.or(given.algorithm),
        length: birth.length.or(given.length),
        mask: birth.mask.or(given.mask),
        state: birth.state.or(given.state),
        initial: birth.initial.or(given.initial),
        activation: birth.activation.or(given.activation),
        deactivation: birth.deactivation.or(given.deactivation),
        destroy: birth.destroy.or(given.destroy),
        compromise: birth.compromise.or(given.compromise),
    })
}

/// Adds names to others, each that isn't among them.
fn add_names(
    alloc: Global,
    names: &mut SmallVec<Name, NAMES>,
    added: &[Name],
) -> Result<(), AllocError>
    ensures { OnOk result (names_of names.new ≡ with_names (names_of names.old) (map name_of added.now)) }
{
    for name in added {
        add_name(names, name.copy(alloc)?)?;
    }
    Ok(())
}

fn add_name(names: &mut SmallVec<Name, NAMES>, name: Name) -> Result<(), AllocError>
    ensures { OnOk result (names_of names.new ≡ with_name (names_of names.old) (name_of name)) }
{
    if !names.as_slice().contains(&name) {
        names.push(name)?;
    }
    Ok(())
}

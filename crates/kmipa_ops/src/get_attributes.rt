//! Get Attributes.

ghost use Rattle.std.specs.Prelude.{◌≡◌, ◌<◌, IfOk, IfSome, Some, length, find, option_and_then, option_map};
ghost use Rattle.std.specs.Ordering.{int_eq};
ghost use Rattle.kmipa_attrs.specs.Sets.{attributes_of};
ghost use Rattle.kmipa_object.specs.Inventory.{card_of};
ghost use Rattle.kmipa_object.specs.Life.{dates_of};
ghost use Rattle.kmipa_store.specs.Ledger.{cards_of};
ghost use Rattle.kmipa_msgs.specs.Messages.{get_attributes_of, gets_attributes, got_attributes_of, maybe_lent, payload_of};
ghost use Rattle.kmipa_ops.specs.Meant.{place_meant};
ghost use Rattle.kmipa_ops.specs.Objects.{clash};
ghost use Rattle.kmipa_ops.specs.GetAttributes.{seen_attributes, attributes_speak, get_attributes_speaks, has_stranger, is_foreign_date, shows_foreign, shows_other_date, shows_other_value};
ghost use Rattle.kmipa_ops.specs.Whys.{whys};

use crate::deed::{Before, Deed};
use crate::echo::{clash_lengths, clash_numbers, is_other_id, is_other_number};
use crate::names::lacks_at;
use crate::objects::is_excluded;
use crate::operation_row::{Effect, OperationRow, Subject};
use crate::placeholder::Placeholder;
use crate::required::lacks_required;
use crate::why::Why;
use kmipa_attrs::AttrSet;
use kmipa_msgs::{GetAttributes, GotAttributes, Payload};
use kmipa_object::{Act, Life, Object, State};
use kmipa_store::Ledger;
use std::alloc::{AllocError, Global};

impl<'a> Deed for GetAttributes<'a> {
    ghost asked = { λ get. gets_attributes (get_attributes_of get) };

    fn is_of(&self, payload: &Payload) -> bool {
        match payload {
            Payload::GetAttributes(_) => true,
            _ => false,
        }
    }

    fn may_lack(&self) -> bool {
        true
    }

    fn is_idle(&self) -> bool {
        false
    }

    fn row(&self) -> OperationRow<'_> {
        OperationRow {
            subject: Subject::Object(self.id, Act::GetAttributes, self.is_selective),
            effect: Effect::ShowsAttributes(self),
        }
    }

    fn holds<'p>(&self, held: Option<&'p str>, _payload: &Option<Payload<'p>>) -> Option<&'p str> {
        held
    }

    fn why_not_done<L: Ledger>(
        &self,
        alloc: Global,
        ledger: &L,
        before: Before<'_>,
        payload: &Option<Payload>,
    ) -> Result<Option<Why>, AllocError> {
        let about = before.placeholder.meant(self.id);
        let Some(place) = before.place else {
            return Ok(Some(Why::NoSuchObject));
        };
        let state = ledger.state(place);
        if is_excluded(before.rules, Act::GetAttributes, state) {
            return Ok(Some(Why::WrongState));
        }
        let Some(got) = shown(payload) else {
            return Ok(None);
        };
        let is_strange = lacks_at(ledger, got.attributes.names.as_slice(), place);
        let seen = Seen { got, is_strange };
        why_not_attributes(alloc, ledger.at(place), state, about, self, seen)
    }

    fn leave<L: Ledger>(
        &self,
        _alloc: Global,
        _ledger: &mut L,
        _placeholder: &mut Placeholder,
        _place: Option<usize>,
        _payload: &Option<Payload>,
    ) -> Result<(), AllocError> {
        Ok(())
    }
}

/// What a payload shows, if it is one of a Get Attributes.
fn shown<'a>(payload: &'a Option<Payload<'a>>) -> Option<&'a GotAttributes<'a>>
    ensures { option_map (λ got. got_attributes_of got.now) result
        ≡ option_and_then seen_attributes (option_map payload_of payload.now) }
{
    match payload {
        Some(Payload::GetAttributes(got)) => Some(got),
        _ => None,
    }
}

/// What an answer shows, and whether that has a name that the object doesn't have.
#[derive(Clone, Copy)]
struct Seen<'g, 'a> {
    got: &'g GotAttributes<'a>,
    is_strange: bool,
}

/// The lowest reason against an answer about an object.
fn why_not_attributes(
    alloc: Global,
    object: &Object,
    state: State,
    about: Option<&str>,
    asked: &GetAttributes,
    seen: Seen<'_, '_>,
) -> Result<Option<Why>, AllocError>
    requires { seen.is_strange ≡ has_stranger (card_of object.now).given.names (got_attributes_of seen.got.now).attributes.names }
    ensures { IfOk result
        (λ why. why
        ≡ attributes_speak (card_of object.now) state (maybe_lent about.entry) (get_attributes_of asked.now)
        (Some (got_attributes_of seen.entry.got.now))) }
{
    let attributes = &seen.got.attributes;
    if shows_foreign(object, state, attributes, seen.is_strange) {
        return Ok(Some(Why::AttributeDiffers));
    }
    if lacks_required(alloc, asked, object, attributes)? {
        return Ok(Some(Why::AttributeMissing));
    }
    if is_other_id(seen.got.id, about) {
        return Ok(Some(Why::EchoDiffers));
    }
    Ok(None)
}

/// Whether something is shown that isn't the object's in this state.
fn shows_foreign(object: &Object, state: State, shown: &AttrSet, is_strange: bool) -> bool
    requires { is_strange ≡ has_stranger (card_of object.now).given.names (attributes_of shown.now).names }
    ensures { result ≡ shows_foreign (card_of object.now) state (attributes_of shown.now) }
{
    is_strange || shows_other_value(object, state, shown) || shows_other_date(&object.life, shown)
}

fn shows_other_value(object: &Object, state: State, shown: &AttrSet) -> bool
    ensures { result ≡ shows_other_value (card_of object.now) state (attributes_of shown.now) }
{
    is_other_number(shown.object_type, object.kind.number())
        || is_other_number(shown.state, state.number())
        || clash_numbers(shown.algorithm, object.given.algorithm)
        || clash_lengths(shown.length, object.given.length)
        || clash_masks(shown.mask, object.given.mask)
}

fn shows_other_date(life: &Life, shown: &AttrSet) -> bool
    ensures { result ≡ shows_other_date (dates_of life.now) (attributes_of shown.now) }
{
    clash_dates(shown.initial, life.initial)
        || is_foreign_date(shown.activation, life.activation)
        || is_foreign_date(shown.deactivation, life.deactivation)
        || is_foreign_date(shown.destroy, life.destroy)
        || is_foreign_date(shown.compromise, life.compromise)
}

/// Two masks are there, and differ.
fn clash_masks(shown: Option<i32>, own: Option<i32>) -> bool
    ensures { result ≡ clash int_eq shown own }
{
    match (shown, own) {
        (Some(mask), Some(own)) => mask != own,
        _ => false,
    }
}

/// Two dates are there, and differ.
fn clash_dates(shown: Option<i64>, own: Option<i64>) -> bool
    ensures { result ≡ clash int_eq shown own }
{
    match (shown, own) {
        (Some(date), Some(own)) => date != own,
        _ => false,
    }
}

/// A date is shown that the object doesn't have.
fn is_foreign_date(shown: Option<i64>, own: Option<i64>) -> bool
    ensures { result ≡ is_foreign_date shown own }
{
    match (shown, own) {
        (None, _) => false,
        (Some(_), None) => true,
        (Some(date), Some(own)) => date != own,
    }
}

//! Locate.

ghost use Rattle.std.specs.Prelude.{◌≡◌, OnOk, map, option_and_then, option_map};
ghost use Rattle.kmipa_msgs.specs.Messages.{lent, locate_of, located_of, locates, maybe_lent, payload_of};
ghost use Rattle.kmipa_ops.specs.Locate.{only, seen_located};
ghost use Rattle.kmipa_ops.specs.Placeholders.{placeholder_of};

use crate::deed::{Before, Deed};
use crate::listing::why_not_listed;
use crate::operation_row::{Effect, OperationRow, Subject};
use crate::placeholder::Placeholder;
use crate::why::Why;
use kmipa_msgs::{Locate, Located, Payload};
use kmipa_store::Ledger;
use std::alloc::{AllocError, Global};

impl Deed for Locate {
    ghost asked = { λ locate. locates (locate_of locate) };

    fn is_of(&self, payload: &Payload) -> bool {
        match payload {
            Payload::Locate(_) => true,
            _ => false,
        }
    }

    fn may_lack(&self) -> bool {
        false
    }

    fn is_idle(&self) -> bool {
        false
    }

    fn row(&self) -> OperationRow<'_> {
        OperationRow {
            subject: Subject::Nothing,
            effect: Effect::Lists(&self.filter),
        }
    }

    fn holds<'p>(&self, held: Option<&'p str>, payload: &Option<Payload<'p>>) -> Option<&'p str> {
        match shown(payload) {
            Some(located) => only(located.ids.as_slice()),
            None => held,
        }
    }

    fn why_not_done<L: Ledger>(
        &self,
        alloc: Global,
        ledger: &L,
        _before: Before<'_>,
        payload: &Option<Payload>,
    ) -> Result<Option<Why>, AllocError> {
        match shown(payload) {
            Some(located) => why_not_listed(alloc, ledger, &self.filter, located.ids.as_slice()),
            None => Ok(None),
        }
    }

    fn leave<L: Ledger>(
        &self,
        alloc: Global,
        _ledger: &mut L,
        placeholder: &mut Placeholder,
        _place: Option<usize>,
        payload: &Option<Payload>,
    ) -> Result<(), AllocError> {
        match shown(payload) {
            Some(located) => hold_only(alloc, placeholder, located.ids.as_slice()),
            None => Ok(()),
        }
    }
}

/// What a payload shows, if it is one of a Locate.
fn shown<'b, 'a>(payload: &'b Option<Payload<'a>>) -> Option<&'b Located<'a>>
    ensures { option_map (λ x. located_of x.now) result
        ≡ option_and_then seen_located (option_map payload_of payload.now) }
{
    match payload {
        Some(Payload::Locate(located)) => Some(located),
        _ => None,
    }
}

/// The placeholder holds the identifier that is listed, if exactly one is; else it is empty.
fn hold_only(
    alloc: Global,
    placeholder: &mut Placeholder,
    listed: &[&str],
) -> Result<(), AllocError>
    ensures { OnOk result (placeholder_of placeholder.new ≡ only (map lent listed.now)) }
{
    placeholder.id = match only(listed) {
        Some(id) => Some(String::from_str(alloc, id)?),
        None => None,
    };
    Ok(())
}

/// The identifier that is listed, if exactly one is.
fn only<'p>(listed: &[&'p str]) -> Option<&'p str>
    ensures { maybe_lent result ≡ only (map lent listed.now) }
{
    match listed {
        [id] => Some(*id),
        _ => None,
    }
}

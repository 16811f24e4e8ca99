//! Locate: what is asked for, and its answer.

ghost use Rattle.std.specs.Prelude.{◌≡◌, IfOk};
ghost use Rattle.kmipa_ttlv.specs.Tree.{structure};
ghost use Rattle.kmipa_ttlv.specs.ItemTree.{tree};
ghost use Rattle.kmipa_attrs.specs.Filters.{filter_of};
ghost use Rattle.kmipa_attrs.specs.Sets.{attributes_of};
ghost use Rattle.kmipa_attrs.specs.Tags.{request_payload, response_payload};
ghost use Rattle.kmipa_msgs.specs.Messages.{locate_of, located_of};
ghost use Rattle.kmipa_msgs.specs.Locates.{sought_attributes, locate_fields, located_fields};
ghost use Rattle.kmipa_msgs.specs.WrittenFields.{in_order};

use super::fields::Fields;
use crate::request::Locate;
use crate::response::Located;
use kmipa_attrs::tags::{MAXIMUM_ITEMS, REQUEST_PAYLOAD, RESPONSE_PAYLOAD, UNIQUE_IDENTIFIER};
use kmipa_attrs::{AttrSet, Filter, write_attrs};
use kmipa_ttlv::Item;
use std::alloc::{AllocError, Global};

/// The Request Payload of a Locate. Its Attributes are there also where they are empty.
pub(super) fn write_locate(alloc: Global, locate: &Locate) -> Result<Item, AllocError>
    ensures { IfOk result
        (λ item. tree item ≡ structure request_payload (in_order (locate_fields (locate_of locate.now)))) }
{
    let mut fields = Fields::new(alloc);
    let attributes = sought(alloc, &locate.filter)?;
    fields.integer(MAXIMUM_ITEMS, locate.filter.maximum)?;
    fields.item(write_attrs(alloc, &attributes)?)?;
    Ok(fields.structure(REQUEST_PAYLOAD))
}

/// The attributes by which a filter is written.
fn sought(alloc: Global, filter: &Filter) -> Result<AttrSet, AllocError>
    ensures { IfOk result (λ set. attributes_of set ≡ sought_attributes (filter_of filter.now)) }
{
    let filter = filter.copy(alloc)?;
    Ok(AttrSet {
        names: filter.names,
        object_type: filter.object_type,
        algorithm: filter.algorithm,
        length: filter.length,
        mask: None,
        state: filter.state,
        initial: None,
        activation: None,
        deactivation: None,
        destroy: None,
        compromise: None,
    })
}

/// The Response Payload of a Locate, with the identifiers in their order.
pub(super) fn write_located(alloc: Global, located: &Located) -> Result<Item, AllocError>
    ensures { IfOk result
        (λ item. tree item ≡ structure response_payload (in_order (located_fields (located_of located.now)))) }
{
    let mut fields = Fields::new(alloc);
    for id in &located.ids {
        fields.text(UNIQUE_IDENTIFIER, Some(*id))?;
    }
    Ok(fields.structure(RESPONSE_PAYLOAD))
}

//! What the definitions say together: of any list of pairs of an item and its answer, and of the orders of a call.

ghost use Rattle.kmipa_batch.specs.Composing.{ByPlaceIsAll, ByPlaceIsAnOrder, ChainsCompose, OneItemIsTold, OneReasonIsTold, RefusalsAreExact};

/// A ledger that was led along some pairs, and then along others, was led along both together.
pub fn chains_compose()
    ensures { ChainsCompose }
{}

/// Where a ledger was led along some pairs, and a reason speaks against the next, those are possible, and with the next they are not.
pub fn refusals_are_exact()
    ensures { RefusalsAreExact }
{}

/// By place, the pairs of a call are all its pairs.
pub fn by_place_is_all()
    ensures { ByPlaceIsAll }
{}

/// By place is an order in which the items of a call without order may be done, where each place has its shape.
pub fn by_place_is_an_order()
    ensures { ByPlaceIsAnOrder }
{}

/// After so many items of an order only one item of the call is reported.
pub fn one_item_is_reported()
    ensures { OneItemIsTold }
{}

/// Over ledgers that stand for the same inventories it is reported with one reason.
pub fn one_reason_is_reported()
    ensures { OneReasonIsTold }
{}

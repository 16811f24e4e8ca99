//! What the definitions say together.

ghost use Rattle.kmipa_explain.specs.Filters.{MayIsEach};

/// An object may be listed exactly where a filter says no of none of its attributes.
pub fn may_is_each()
    ensures { MayIsEach }
{}

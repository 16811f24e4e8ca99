//! Laws of the definitions.

ghost use Rattle.std.specs.Prelude.{◌≡◌, ◌↔◌, ℤ, Bool, true, List, Option};
ghost use Rattle.std.specs.List.{Contains};
ghost use Rattle.kmipa_ttlv.specs.Tree.{Trees};
ghost use Rattle.kmipa_attrs.specs.Sets.{NameOf, Attributes};
ghost use Rattle.kmipa_attrs.specs.Names.{distinct, HasNoRepeats};
ghost use Rattle.kmipa_attrs.specs.Attributes.{attr_number, SaysAttributes, AttributesFault, attributes_in};
ghost use Rattle.kmipa_attrs.specs.Filters.{SaysFilter, FilterFault, IsLoose, is_loose, filter_in};
ghost use Rattle.kmipa_attrs.specs.Readings.{Reads};
ghost use Rattle.kmipa_attrs.specs.declared.fault.AttrFault.TheVariants.{Memory};
ghost use Rattle.kmipa_attrs.specs.declared.side.Side.{Side};

/// What is read of attributes is said, nothing else is, and the fault is the lowest that holds.
pub fn attributes_are_read()
    ensures { (side : Side) (ts : Trees)
        → Reads attr_number (SaysAttributes ts) (AttributesFault side ts) (attributes_in side ts) }
{}

/// What is read of a filter is said, nothing else is, and the fault is the lowest that holds.
pub fn filters_are_read()
    ensures { (ts : Trees) (maximum : Option ℤ) (is_unknown : Bool)
        → Reads attr_number (SaysFilter ts maximum is_unknown) (FilterFault ts) (filter_in maximum is_unknown ts) }
{}

/// A filter is loose exactly where it asks something that isn't judged.
pub fn loose_filters_are_not_all_judged()
    ensures { (ts : Trees) (maximum : Option ℤ) (is_unknown : Bool) → (is_loose ts maximum is_unknown ≡ true)
        ↔ IsLoose ts maximum is_unknown }
{}

/// Memory is no fault of attributes.
pub fn memory_is_no_fault()
    ensures { (side : Side) (ts : Trees) → AttributesFault side ts Memory → ⊥ }
{}

/// Names that stand once each are the same names.
pub fn distinct_names_are_the_same()
    ensures { (names : List NameOf) (n : NameOf) → Contains (distinct names) n ↔ Contains names n }
{}

/// They have no repeats.
pub fn distinct_names_do_not_repeat()
    ensures { (names : List NameOf) → HasNoRepeats (distinct names) }
{}

/// Nor do those of a set that is said, so it is written whole.
pub fn said_names_do_not_repeat()
    ensures { (ts : Trees) (a : Attributes) → SaysAttributes ts a → HasNoRepeats a.names }
{}

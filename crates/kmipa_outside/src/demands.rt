//! Rows of demands, one line each.

/// The demands of these rows, in their order: the structure, the field, what is wanted of it, and the kind of outside where it is otherwise.
/// A field is found by its tag, or is the `Object`.
macro_rules! demands {
    (@field Object) => { $crate::demand::Step::Object };
    (@field $tag:ident) => { $crate::demand::Step::Tag($tag) };
    (@wanted Typed $of:ident) => { $crate::demand::Wanted::Typed($crate::types::ItemType::$of) };
    (@wanted MaybeTyped $of:ident) => { $crate::demand::Wanted::MaybeTyped($crate::types::ItemType::$of) };
    (@wanted EachTyped $of:ident) => { $crate::demand::Wanted::EachTyped($crate::types::ItemType::$of) };
    (@wanted OneOf $of:ident) => { $crate::demand::Wanted::OneOf($crate::demand::Numbers::$of) };
    (@wanted $wanted:ident $value:expr) => { $crate::demand::Wanted::$wanted($value) };
    (@wanted $wanted:ident) => { $crate::demand::Wanted::$wanted };
    ($($inside:ident $field:ident ($($wanted:tt)+) $kind:ident;)+) => {
        [
            $($crate::demand::wants(
                $crate::demand::Inside::$inside,
                demands!(@field $field),
                demands!(@wanted $($wanted)+),
                OutsideKind::$kind,
            )),+
        ]
    };
}

pub(crate) use demands;

//! One place of a call, taken beside what is set aside.
#![tactic(auto)]

mod aims;
mod beside;
mod birth;
mod births;
mod case;
mod cases;
mod excused;
mod frame;
mod in_sight;
mod item;
mod laws;
mod lists;
mod missed;
mod missing;
mod names;
mod owned;
mod passed;
mod permitted;
mod placing;
mod plain;
mod reborn;
mod seen;
mod seen_names;
mod setting;
mod sight;
mod standing;
mod taking;

pub use case::Case;
pub use cases::case_of;
pub use excused::take_excused;
pub use in_sight::take_in_sight;
pub use item::Item;
pub use laws::{
    as_ever_without_asides, identifiers_are_set_aside, places_without_asides, plain_without_asides,
    seen_without_hidden,
};
pub use lists::take_listing;
pub use owned::Owned;
pub use passed::Passed;
pub use placing::take_judged;
pub use plain::take_plain;
pub use reborn::take_reborn;
pub use sight::Sight;
pub use standing::is_aside;
pub use taking::{take_passed, take_unread};

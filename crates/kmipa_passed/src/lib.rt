//! Items that aren't judged: what they name, what their operations may do, and what they leave.
#![tactic(auto)]

mod attributes;
mod identifiers;
mod leaving;
mod names;
mod passed;
mod sorts;

pub use identifiers::{Asked, Shown, identifier_asked, identifier_shown, names_unclearly};
pub use leaving::{Behind, Held, SetAside, leaves};
pub use names::texts_named;
pub use passed::{Outcome, PassedAnswer, PassedAsk, passed_answer, passed_ask};
pub use sorts::{Sort, sort_of};

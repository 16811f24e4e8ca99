//! What a no means: an explanation, each claim of which holds of the recorded calls.
#![tactic(auto)]

mod calls;
mod cause;
mod differing;
mod echoes;
mod effects;
mod entry_index;
mod explaining;
mod explanation;
mod filters;
mod held;
mod holding;
mod id_set;
mod item;
mod items;
mod laws;
mod left_out;
mod lengths;
mod listed;
mod missing;
mod places;
mod sought;
mod source;
mod sources;
mod standing;
mod story;
mod strangers;
mod subject;
mod taken;
mod unfounded;
mod values;

pub use explaining::explain;
pub use explanation::{Cause, Event, Explanation, Operations, Shape, Story, TurnBefore};
pub use held::{
    AttributesHeld, BytesHeld, DatesHeld, EchoHeld, LeftOutHeld, LengthHeld, ListFault, ListHeld,
    NameHeld, ReasonHeld, StateHeld, ValueHeld, WronglyListed,
};
pub use laws::may_is_each;
pub use source::{Source, Whence};

//! What is found in a recording: an order of its calls, what has to be set aside in it, and each impossible answer.
#![tactic(auto)]

mod along;
mod basis;
mod board;
mod calls;
mod confirming;
mod copying;
mod deciding;
mod descending;
mod finding;
mod forced;
mod guessing;
mod judging;
mod left;
mod line;
mod missed;
mod ordering;
mod owning;
mod pace;
mod proposal;
mod proposing;
mod ranking;
mod refuting;
mod road;
mod seeking;
mod setting;
mod trial;
mod trying;
mod walking;

pub use along::judge_along;
pub use copying::copied_turn;
pub use finding::{Finding, Judged, Outcome, Undecided};
pub use forced::is_forced_beside;
pub use judging::judge;
pub use ordering::judge_order;
pub use pace::{Pace, Unpaced};
pub use refuting::{is_refuted, is_refuted_by};
pub use seeking::{Order, Sought, order_of, seek};

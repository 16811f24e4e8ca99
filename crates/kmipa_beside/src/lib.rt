//! Checks of three inputs, whether or not their declaration sets aside what isn't judged, or hides objects.
#![tactic(auto)]

mod auditing;
mod declared;
mod lines;
mod named;
mod owners;
mod running;
mod way;

pub use lines::{judged_line, sighted_lines, stamp_line, verdict_lines};
pub use running::check_any_run;
pub use way::{Way, way_of};

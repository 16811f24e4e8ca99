//! What the program never calls, of each crate in a file of its own; readers that fail; and texts that no clause says.

ghost use Rattle.std.specs.Prelude.{◌≡◌, true};

mod aside;
mod attributes;
mod audits;
mod bundles;
mod calls;
mod files;
mod findings;
mod hopeless;
mod leaving;
mod ledgers;
mod lives;
mod messages;
mod places;
mod reading;
mod refuting;
mod searching;
mod sights;
mod spelled;
mod streams;
mod trail;
mod turns;
mod unread;
mod words;

use std::process::Abort;

// Ends the test that it is called from, unless this holds.
pub(crate) fn check(rt: &impl Abort, holds: bool, what: &str)
    ensures { holds ≡ true }
{
    if !holds {
        rt.panic(what);
    }
}

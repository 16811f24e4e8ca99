//! How long a run may last.

ghost use Rattle.std.specs.Prelude.{◌≡◌, ◌<◌, IsTrue};

use std::rt::Clock;
use std::time::Instant;

/// So many seconds from the moment at which a process began; all the time that it takes, where they are 0, or the clock can't be read.
#[derive(Drop)]
pub struct TimeLimit<'a, R> {
    rt: &'a R,
    began: Option<Instant>,
    seconds: u64,
}

impl<'a, R: Clock> TimeLimit<'a, R> {
    /// So many seconds from this moment.
    pub fn new(rt: &'a R, began: Option<Instant>, seconds: u64) -> TimeLimit<'a, R>
        ensures { result.seconds ≡ seconds }
    {
        TimeLimit { rt, began, seconds }
    }

    /// Whether they are over. Where there are none the clock isn't looked at.
    pub fn is_over(&self) -> bool
        ensures { IsTrue result → 0 < self.now.seconds }
    {
        if self.seconds == 0 {
            return false;
        }
        match Instant::now(self.rt) {
            Ok(now) => are_over(self.began, now, self.seconds),
            Err(_) => false,
        }
    }
}

/// Whether so many seconds went by from the one moment to the other. Of 0 that is never said, and nothing of no moment.
pub fn are_over(began: Option<Instant>, now: Instant, seconds: u64) -> bool
    ensures { IsTrue result → 0 < seconds }
{
    match began {
        Some(began) => seconds > 0 && now.duration_since(began).as_secs() >= seconds,
        None => false,
    }
}

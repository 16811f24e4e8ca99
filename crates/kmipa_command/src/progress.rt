//! How far a search got, reported while it goes on, and how long it may go on.

ghost use Rattle.std.specs.Prelude.{◌≡◌};

use crate::time_limit::are_over;
use kmipa_orders::Watch;
use std::rt::Clock;
use std::time::Instant;

/// How many steps go by between two looks at the clock.
const PACE: u64 = 1024;

/// How many seconds go by between two lines.
const PAUSE: u64 = 1;

/// Tells on standard error, once a second, how far a search got, and ends it once its seconds are over.
#[derive(Drop)]
pub struct Progress<'a, R> {
    rt: &'a R,
    budget: u64,
    // So many seconds the search has; 0 where it has all the time that it takes.
    seconds: u64,
    // When these began, where the clock could be read.
    began: Option<Instant>,
    // Whether they are over.
    is_over: bool,
    // How many steps were reported.
    steps: u64,
    // The most calls that were taken at once.
    deepest: usize,
    // When a line was reported last, or the search began; none where nothing is reported.
    reported: Option<Instant>,
}

impl<'a, R: Clock + Eprint> Progress<'a, R> {
    /// The progress of a search that begins now, with this budget, and ends so many seconds after this moment, or in its own time, where these are
    /// 0. Where it is not wanted, nothing is reported.
    pub fn new(
        rt: &'a R,
        began: Option<Instant>,
        budget: u64,
        seconds: u64,
        wanted: bool,
    ) -> Progress<'a, R>
        ensures { result.seconds ≡ seconds }
    {
        let reported = if wanted { Instant::now(rt).ok() } else { None };
        Progress {
            rt,
            budget,
            seconds,
            began,
            is_over: false,
            steps: 0,
            deepest: 0,
            reported,
        }
    }

    /// Looks at the clock: whether the seconds are over, and whether it is time to tell how far the search got.
    fn look(&mut self, steps: u64, taken: usize)
        ensures { self.new.seconds ≡ self.old.seconds }
    {
        let Ok(now) = Instant::now(self.rt) else {
            return;
        };
        self.is_over = are_over(self.began, now, self.seconds);
        if let Some(reported) = self.reported {
            if now.duration_since(reported).as_secs() >= PAUSE {
                self.reported = Some(now);
                self.tell(steps, taken);
            }
        }
    }

    /// Whether the seconds are over, as far as is known. Where no step was reported yet, nobody has looked at the clock.
    fn is_late(&self) -> bool {
        if self.steps > 0 || self.seconds == 0 {
            return self.is_over;
        }
        match Instant::now(self.rt) {
            Ok(now) => are_over(self.began, now, self.seconds),
            Err(_) => self.is_over,
        }
    }

    /// Tells how far the search got. Where standard error can't be written there is nothing left to say.
    fn tell(&self, steps: u64, taken: usize) {
        let budget = self.budget;
        let deepest = self.deepest;
        self.rt
            .eprintln(format_args!(
                "kmip_audit: {steps} of {budget} steps, {taken} calls taken, {deepest} at the deepest"
            ))
            .ok();
    }
}

impl<'a, R: Clock + Eprint> Watch for Progress<'a, R> {
    ghost seconds = { λ progress. progress.seconds };

    fn step(&mut self, steps: u64, taken: usize) {
        self.deepest = self.deepest.max(taken);
        if self.steps % PACE == 0 && (self.seconds > 0 || self.reported.is_some()) {
            self.look(steps, taken);
        }
        self.steps = self.steps.wrapping_add(1);
    }

    fn taken(&mut self, _call: i32) {}

    fn given_back(&mut self) {}

    fn over(&self) -> Option<u64> {
        if self.is_late() && self.seconds > 0 {
            Some(self.seconds)
        } else {
            None
        }
    }
}

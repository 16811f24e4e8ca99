//! Moments as text.

ghost use Rattle.std.specs.Prelude.{◌≡◌, ◌*ℤ◌, pos, IfOk, MatchOption, string_bytes};
ghost use Rattle.kmipa_runs.specs.Dates.{HasDate, ReadsAsSecond, TellsSecond};

use arrayvec::ArrayString;
use jiff::fmt::temporal::DateTimePrinter;
use jiff_core::Timestamp;
use std::alloc::{AllocError, Global};

/// No date is longer than this.
const LONGEST: usize = 33;

/// The date of a moment in seconds since 1970-01-01T00:00:00Z, as `2023-11-14T22:13:20Z`, or the number in decimal
/// where the calendar has no such date.
pub fn date_text(alloc: Global, second: i64) -> Result<String, AllocError>
    ensures { IfOk result (λ text. TellsSecond second (string_bytes text)) }
{
    match calendar_date(second) {
        Some(date) => String::from_str(alloc, date.as_str()),
        None => second.to_string(alloc),
    }
}

/// The date of a moment, or `None` where the calendar has no such date.
pub fn calendar_date(second: i64) -> Option<ArrayString<LONGEST>>
    ensures { MatchOption result (¬ HasDate second) (λ date. HasDate second × ReadsAsSecond date.bytes second) }
{
    match Timestamp::from_nanosecond(nanosecond_at(second)) {
        Ok(moment) => Some(DateTimePrinter::new().timestamp_text(moment)),
        Err(_) => None,
    }
}

/// The nanosecond with which a second begins.
fn nanosecond_at(second: i64) -> i128
    ensures { result ≡ second *ℤ pos 1_000_000_000 }
{
    second as i128 * 1_000_000_000
}

//! Moments that a text tells.

ghost use Rattle.std.specs.Prelude.{MatchOption, ℤ};
ghost use Rattle.kmipa_segments.specs.Moments.{IsDateOf, IsMoment};

use jiff::Timestamp;

/// The moment that a text tells, in seconds since 1970-01-01T00:00:00Z: their number in decimal, with a sign or without, or a date of a whole
/// second as `2023-11-14T22:13:20Z`. `None` where it is neither.
pub fn read_moment(text: &str) -> Option<i64>
    ensures { MatchOption result ((second : ℤ) → ¬ IsMoment text.now second) (IsMoment text.now) }
{
    match text.parse::<i64>() {
        Ok(second) => Some(second),
        Err(_) => date_second(text),
    }
}

/// The second of a date, where it is one of a whole second.
fn date_second(text: &str) -> Option<i64>
    ensures { MatchOption result ((second : ℤ) → ¬ IsDateOf text.now second) (IsDateOf text.now) }
{
    match text.parse::<Timestamp>() {
        Ok(moment) if moment.subsec_nanosecond() == 0 => Some(moment.as_second()),
        _ => None,
    }
}

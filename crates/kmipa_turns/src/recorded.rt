//! A call as it was recorded.

use kmipa_check::Numbered;

/// A call as it was recorded: the bytes of its messages, whatever they say.
#[derive(Clone, Copy)]
pub struct Recorded<'a> {
    /// Its number in the transcript.
    pub number: i32,
    /// The client that it came from.
    pub client: &'a str,
    /// The place of its begin mark among the marks, from 0.
    pub begin: usize,
    /// The place of its end mark; none of a call that is open.
    pub end: Option<usize>,
    /// Its request.
    pub request: &'a [u8],
    /// Its response; none of a call that is open.
    pub response: Option<&'a [u8]>,
}

impl<'a> Numbered for Recorded<'a> {
    ghost use Rattle.std.specs.Prelude.{Some};

    ghost number_in = { λ call. Some call.number };

    fn number(&self) -> Option<i32> {
        Some(self.number)
    }
}

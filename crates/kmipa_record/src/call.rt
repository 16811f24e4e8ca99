//! A recorded call.

use kmipa_msgs::{Request, Response};

/// A recorded call, as its messages say it.
#[derive(Drop)]
pub struct Call<'a> {
    /// Its number in the transcript.
    pub number: i32,
    /// The place of its begin mark among the marks, from 0.
    pub begin: usize,
    /// The place of its end mark; none of a call that is open.
    pub end: Option<usize>,
    pub request: Request<'a>,
    /// Its response; none of a call that is open.
    pub response: Option<Response<'a>>,
}

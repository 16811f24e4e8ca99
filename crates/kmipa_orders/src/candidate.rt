//! A call that a search may take.

use kmipa_msgs::{Request, Response};
use kmipa_record::Call;

/// A call as a search takes it: it has ended, and gives the response that was recorded, or a completion of it.
#[derive(Drop)]
pub struct Candidate<'b, 'a> {
    /// Its number in the transcript.
    pub number: i32,
    /// The place of its begin mark among the marks, from 0.
    pub begin: usize,
    /// The place of its end mark.
    pub end: usize,
    pub request: &'b Request<'a>,
    pub response: &'b Response<'a>,
    /// The call itself.
    pub call: &'b Call<'a>,
}

impl<'b, 'a> Candidate<'b, 'a> {
    ghost use Rattle.std.specs.Prelude.{◌≡◌, MatchOption};
    ghost use Rattle.kmipa_check.specs.Calls.{call_of};
    ghost use Rattle.kmipa_orders.specs.Candidates.{IsOpen, candidate_call, own_call};

    /// A call, as a search takes it; an open one is left out.
    pub fn of(call: &'b Call<'a>) -> Option<Candidate<'b, 'a>>
        ensures { MatchOption result (IsOpen (call_of call.now))
            (λ own. (own_call own ≡ call_of call.now) × (candidate_call own ≡ call_of call.now)) }
    {
        let end = call.end?;
        match &call.response {
            Some(response) => Some(Candidate {
                number: call.number,
                begin: call.begin,
                end,
                request: &call.request,
                response,
                call,
            }),
            None => None,
        }
    }
}

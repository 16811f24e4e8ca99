//! What a turn takes.

use kmipa_msgs::{Request, Response};
use std::alloc::{AllocError, Global};

/// A call that a turn of a witness takes, and the response that it is to give.
#[derive(Drop)]
pub struct Step<'b, 'a> {
    /// The number of the call in the transcript.
    pub number: i32,
    /// The place of its begin mark among the marks, from 0.
    pub begin: usize,
    /// The place of its end mark; none of a call that is open.
    pub end: Option<usize>,
    /// The request that it takes.
    pub request: Posed<'b, 'a>,
    /// The response that it is to give. Its stamp is the moment at which the call is taken.
    pub response: Given<'b, 'a>,
    /// The Time Stamp of the response, as it was recorded or answered.
    pub stamp: i64,
    /// The places of its items, counted from 1, in the order in which they are taken; `None`: by place.
    pub places: Option<Vec<usize>>,
}

impl<'b, 'a> Step<'b, 'a> {
    ghost use Rattle.std.specs.Prelude.{◌≡◌};
    ghost use Rattle.kmipa_msgs.specs.Messages.{maybe_lent, request_of};
    ghost use Rattle.kmipa_check.specs.Steps.{step_of};

    /// The request that it takes.
    pub fn request(&self) -> &Request<'a>
        ensures { request_of result.now ≡ (step_of self.now).request }
    {
        self.request.request()
    }

    /// The places of its items, counted from 1, in the order in which they are taken; `None`: by place.
    pub fn places(&self) -> Option<&[usize]>
        ensures { maybe_lent result ≡ (step_of self.now).places }
    {
        match &self.places {
            Some(places) => Some(places.as_slice()),
            None => None,
        }
    }

    /// The moment at which the call is taken.
    pub fn moment(&self) -> i64
        ensures { result ≡ (step_of self.now).response.stamp }
    {
        self.response.response().stamp
    }
}

/// The request that a step takes.
#[derive(Drop)]
pub enum Posed<'b, 'a> {
    /// As it was recorded.
    Recorded(&'b Request<'a>),
    /// With the attributes that births give. Few turns have any, so it lies in memory of its own.
    Completed(Box<Request<'a>>),
}

impl<'b, 'a> Posed<'b, 'a> {
    ghost use Rattle.std.specs.Prelude.{◌≡◌, IfOk};
    ghost use Rattle.kmipa_msgs.specs.Messages.{request_of};
    ghost use Rattle.kmipa_check.specs.Steps.{posed_of};

    /// A request that births complete.
    pub(crate) fn completed(
        alloc: Global,
        request: Request<'a>,
    ) -> Result<Posed<'b, 'a>, AllocError>
        ensures { IfOk result (λ posed. posed_of posed ≡ request_of request.entry) }
    {
        Ok(Posed::Completed(Box::new(alloc, request)?))
    }

    /// The request itself.
    pub fn request(&self) -> &Request<'a>
        ensures { request_of result.now ≡ posed_of self.now }
    {
        match self {
            Posed::Recorded(request) => request,
            Posed::Completed(request) => request,
        }
    }
}

/// The response that a step is to give.
#[derive(Drop)]
pub enum Given<'b, 'a> {
    /// As it was recorded.
    Recorded(&'b Response<'a>),
    /// As the turn makes it: an answer that it gives, payloads that it fills in, or a moment. Few turns do, so it lies in memory of its own.
    FromTurn(Box<Response<'a>>),
}

impl<'b, 'a> Given<'b, 'a> {
    ghost use Rattle.std.specs.Prelude.{◌≡◌, IfOk};
    ghost use Rattle.kmipa_msgs.specs.Messages.{response_of};
    ghost use Rattle.kmipa_check.specs.Moments.{at_moment};
    ghost use Rattle.kmipa_check.specs.Steps.{given_of};

    /// A response that a turn makes.
    pub(crate) fn from_turn(
        alloc: Global,
        response: Response<'a>,
    ) -> Result<Given<'b, 'a>, AllocError>
        ensures { IfOk result (λ given. given_of given ≡ response_of response.entry) }
    {
        Ok(Given::FromTurn(Box::new(alloc, response)?))
    }

    /// The response at a moment: itself, where this is its stamp.
    pub(crate) fn at_moment(self, alloc: Global, moment: i64) -> Result<Given<'b, 'a>, AllocError>
        ensures { IfOk result (λ given. given_of given ≡ at_moment (given_of self.entry) moment) }
    {
        let response = self.response();
        if response.stamp == moment {
            return Ok(self);
        }
        let mut copy = response.copy(alloc)?;
        copy.stamp = moment;
        Given::from_turn(alloc, copy)
    }

    /// The response itself.
    pub fn response(&self) -> &Response<'a>
        ensures { response_of result.now ≡ given_of self.now }
    {
        match self {
            Given::Recorded(response) => response,
            Given::FromTurn(response) => response,
        }
    }
}

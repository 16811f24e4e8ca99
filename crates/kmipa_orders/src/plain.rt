//! Plain calls: those that a search decides.

ghost use Rattle.std.specs.Prelude.{◌≡◌, map, IfOk, IfSome, MatchOption};
ghost use Rattle.kmipa_check.specs.Calls.{call_of};
ghost use Rattle.kmipa_orders.specs.Candidates.{AreNotPlain, AreOfCalls, IsNotPlain, candidate_step, own_call};
ghost use Rattle.kmipa_orders.specs.Guessing.{AreRecordedCalls, AreReadableOnes, IsReadableOne, IsRecordedCall};
ghost use Rattle.kmipa_orders.specs.Plain.{ArePlain, IsPlainStep};
ghost use Rattle.kmipa_orders.specs.Progress.{AllReadable};

use crate::candidate::Candidate;
use crate::laws_of_check::check_laws;
use kmipa_batch::is_unordered;
use kmipa_check::needs_fill;
use kmipa_record::Call;
use std::alloc::{AllocError, Global};

/// The calls as a search takes them, where all are plain.
pub fn candidates<'b, 'a>(
    alloc: Global,
    calls: &'b [Call<'a>],
) -> Result<Option<Vec<Candidate<'b, 'a>>>, AllocError>
    ensures { IfOk result
        (λ reported. MatchOption reported (AreNotPlain (map call_of calls.now))
        (λ own. ArePlain (map call_of calls.now) (map candidate_step own.items))) }
{
    let mut own = Vec::with_capacity(alloc, calls.len())?;
    'calls: for call in calls {
        let Some(candidate) = candidate_of(call) else {
            return Ok(None);
        };
        own.push(candidate)?;
    }
    Ok(Some(own))
}

/// The call as a search takes it, where it is plain.
pub fn candidate_of<'b, 'a>(call: &'b Call<'a>) -> Option<Candidate<'b, 'a>>
    ensures { MatchOption result (IsNotPlain (call_of call.now))
        (λ own. IsPlainStep (call_of call.now) (candidate_step own)) }
{
    if is_unordered(&call.request) {
        return None;
    }
    let own = Candidate::of(call)?;
    if needs_fill(own.request, own.response) {
        return None;
    }
    Some(own)
}

/// The calls that have ended, as a search takes them.
pub fn every_candidate<'b, 'a>(
    alloc: Global,
    calls: &'b [Call<'a>],
) -> Result<Vec<Candidate<'b, 'a>>, AllocError>
    ensures { IfOk result (λ own. AreOfCalls (map call_of calls.now) (map own_call own.items)) }
{
    let mut own = Vec::new(alloc);
    'calls: for call in calls {
        if let Some(candidate) = Candidate::of(call) {
            own.push(candidate)?;
        }
    }
    Ok(own)
}

/// The calls again, where all are plain.
pub fn all_plain<'b, 'a>(
    alloc: Global,
    calls: &[Candidate<'b, 'a>],
) -> Result<Option<Vec<Candidate<'b, 'a>>>, AllocError>
    requires { AreRecordedCalls calls.now }
    ensures { IfOk result (λ own. IfSome own (λ own. AllReadable (map candidate_step own.items))) }
{
    let mut own = Vec::with_capacity(alloc, calls.len())?;
    'calls: for call in calls {
        let Some(one) = plain_one(call) else {
            return Ok(None);
        };
        own.push(one)?;
    }
    Ok(Some(own))
}

/// Of each call, the call again if it is plain, or else none.
pub fn plain_ones<'b, 'a>(
    alloc: Global,
    calls: &[Candidate<'b, 'a>],
) -> Result<Vec<Option<Candidate<'b, 'a>>>, AllocError>
    requires { AreRecordedCalls calls.now }
    ensures { IfOk result (λ plain. AreReadableOnes plain.items) }
{
    let mut plain = Vec::with_capacity(alloc, calls.len())?;
    'calls: for call in calls {
        plain.push(plain_one(call))?;
    }
    Ok(plain)
}

/// The call again, if it is plain.
fn plain_one<'b, 'a>(call: &Candidate<'b, 'a>) -> Option<Candidate<'b, 'a>>
    requires { IsRecordedCall (call_of call.now.call.now) }
    ensures { IfSome result IsReadableOne }
{
    check_laws();
    candidate_of(call.call)
}

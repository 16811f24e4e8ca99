//! Items of a call, counted from 1.

ghost use Rattle.std.specs.Prelude.{◌≡◌, Some, option_map};
ghost use Rattle.kmipa_msgs.specs.Messages.{answer_of, ask_of};
ghost use Rattle.kmipa_check.specs.Steps.{step_of};
ghost use Rattle.kmipa_explain.specs.Explainable.{HasPair};
ghost use Rattle.kmipa_explain.specs.Places.{at_item};

use kmipa_check::Step;
use kmipa_msgs::{Answer, Ask};

/// What an item asks for; none where the turn itself is meant, or the request has no such item.
pub fn ask_at<'c, 'b, 'a>(step: &'c Step<'b, 'a>, item: usize) -> Option<&'c Ask<'a>>
    ensures { option_map (λ ask. ask_of ask.now) result ≡ at_item (step_of step.now).request.items item }
{
    if item == 0 {
        return None;
    }
    match step.request().items.get(item - 1) {
        Some(ask) => Some(ask),
        None => None,
    }
}

/// The answer of an item; none where the turn itself is meant, or the response has no such item.
pub fn answer_at<'c, 'b, 'a>(step: &'c Step<'b, 'a>, item: usize) -> Option<&'c Answer<'a>>
    ensures { option_map (λ answer. answer_of answer.now) result ≡ at_item (step_of step.now).response.items item }
{
    if item == 0 {
        return None;
    }
    match step.response.response().items.get(item - 1) {
        Some(answer) => Some(answer),
        None => None,
    }
}

/// What an item asks for that has its answer.
pub fn ask_there<'c, 'b, 'a>(step: &'c Step<'b, 'a>, item: usize) -> &'c Ask<'a>
    requires { HasPair (step_of step.now) item }
    ensures { at_item (step_of step.now).request.items item ≡ Some (ask_of result.now) }
{
    &step.request().items[item - 1]
}

/// The answer of an item that is asked.
pub fn answer_there<'c, 'b, 'a>(step: &'c Step<'b, 'a>, item: usize) -> &'c Answer<'a>
    requires { HasPair (step_of step.now) item }
    ensures { at_item (step_of step.now).response.items item ≡ Some (answer_of result.now) }
{
    &step.response.response().items[item - 1]
}

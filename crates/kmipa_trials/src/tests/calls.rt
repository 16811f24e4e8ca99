//! Whole calls, over the ledger that the program does not use.

ghost use Rattle.std.specs.Prelude.{◌≡◌};
ghost use Rattle.kmipa_store.specs.Choices.{IsSound};
ghost use Rattle.kmipa_store.specs.States.{state_of_copies};

use super::check;
use super::reading::call_of;
use super::spelled::{GET_K1, GOT_K1, REGISTER, REGISTERED, bytes_of};
use kmipa_batch::{CallRefusal, is_readable_call, take_call};
use kmipa_msgs::{Request, Response, Rules};
use kmipa_ops::Why;
use kmipa_store::{Copies, Ledger};
use std::alloc::Global;
use std::process::Abort;

fn new_copies(alloc: Global) -> Copies
    ensures { IsSound (state_of_copies result).now }
{
    Copies::new(alloc)
}

/// What speaks against a call, which is taken where nothing does.
fn refusal_of<L: Ledger>(
    rt: &impl Abort,
    alloc: Global,
    ledger: &mut L,
    request: &Request,
    response: &Response,
) -> Option<CallRefusal>
    requires { IsSound (L.state ledger.old).now }
{
    check(rt, is_readable_call(request, response), "it can't be read");
    let rules = Rules::default_rules(alloc).expect(rt, "memory");
    take_call(alloc, ledger, &rules, request, response, None).err()
}

/// Leaves out what was done for the first item.
fn strip(response: &mut Response) {
    if let Some(answer) = response.items.first_mut() {
        answer.payload = None;
    }
}

/// The same of a spelled call, which can't be read without what was done for its first item.
fn judged<L: Ledger>(
    rt: &impl Abort,
    alloc: Global,
    ledger: &mut L,
    asked: &str,
    answered: &str,
) -> Option<CallRefusal>
    requires { IsSound (L.state ledger.old).now }
{
    let asked = bytes_of(rt, alloc, &[asked]);
    let answered = bytes_of(rt, alloc, &[answered]);
    let (request, mut response) = call_of(rt, alloc, &asked, &answered);
    let refusal = refusal_of(rt, alloc, ledger, &request, &response);
    strip(&mut response);
    check(
        rt,
        !is_readable_call(&request, &response),
        "nothing is missing",
    );
    refusal
}

/// Checks what speaks against a call over a new ledger, and the place of `r1` behind it; without a place there is no object.
fn check_judged<L: Ledger + Drop>(
    rt: &impl Abort,
    alloc: Global,
    mut ledger: L,
    call: (&str, &str),
    refusal: Option<CallRefusal>,
    place: Option<usize>,
)
    requires { IsSound (L.state ledger).now }
{
    let (asked, answered) = call;
    let said = judged(rt, alloc, &mut ledger, asked, answered);
    check(rt, said == refusal, "another refusal");
    check(rt, ledger.find("r1") == place, "another place");
    let is_empty = ledger.len() == 0;
    check(rt, is_empty == place.is_none(), "other objects");
}

#[test]
fn call_is_taken(rt: HostRuntime) {
    let alloc = rt.alloc();
    check_judged(
        &rt,
        alloc,
        new_copies(alloc),
        (REGISTER, REGISTERED),
        None,
        Some(0),
    );
}

#[test]
fn call_is_refused(rt: HostRuntime) {
    let alloc = rt.alloc();
    let unknown = CallRefusal::Impossible(1, Why::NoSuchObject);
    check_judged(
        &rt,
        alloc,
        new_copies(alloc),
        (GET_K1, GOT_K1),
        Some(unknown),
        None,
    );
}

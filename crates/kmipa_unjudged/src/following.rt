//! Which identifiers are set aside along a run.

ghost use Rattle.std.specs.Prelude.{◌≡◌, [], IfOk, map};
ghost use Rattle.kmipa_store.specs.Choices.{IsSound};
ghost use Rattle.kmipa_msgs.specs.Messages.{rules_of};
ghost use Rattle.kmipa_record.specs.Declarations.{AreDeclared, DeclarationOf, declaration_of};
ghost use Rattle.kmipa_check.specs.Runs.{rules_declared};
ghost use Rattle.kmipa_aside.specs.Sights.{owned_of};
ghost use Rattle.kmipa_turns.specs.Steps.{step_of};
ghost use Rattle.kmipa_trail.specs.Leading.{AreKnown};
ghost use Rattle.kmipa_trail.specs.Owners.{in_sight, steps_seen};
ghost use Rattle.kmipa_trail.specs.Replays.{AllTakable};
ghost use Rattle.kmipa_unjudged.specs.Asides.{AreAside};
ghost use Rattle.kmipa_unjudged.specs.Told.{named_of};

use crate::named::Named;
use crate::naming::named_in;
use crate::step::take_step;
use crate::told::{nothing_told, tell_each};
use kmipa_aside::Owned;
use kmipa_check::rules_of_declaration;
use kmipa_msgs::Rules;
use kmipa_record::Declaration;
use kmipa_store::Ledger;
use kmipa_trail::{Fault, open_world, own_births, owners_at_first};
use kmipa_turns::Step;
use std::alloc::Global;

/// Which identifiers are told to be set aside along these steps, each with what is hidden from its client.
pub(crate) fn asides_along<'a>(
    alloc: Global,
    declaration: &'a Declaration,
    steps: &[Step<'a>],
) -> Result<Vec<Named<'a>>, Fault>
    requires declared { AreDeclared (declaration_of declaration.now) }
    requires takable { AllTakable (map step_of steps.now) }
    ensures { IfOk result
        (λ told. AreAside (declaration_of declaration.now) (in_sight (declaration_of declaration.now) (map step_of steps.now))
        (map named_of told.items)) }
{
    let rules = rules_of_declaration(alloc, declaration)?;
    let mut ledger = open_world(alloc, declaration)?;
    let owners = owners_at_first(alloc, rules.visibility, &declaration.entries)?;
    follow(alloc, &mut ledger, &rules, owners, steps)
}

/// The same, from a ledger that stands for the worlds that a declaration describes, by its rules, and by whose the objects are at first.
fn follow<'a, L: Ledger>(
    alloc: Global,
    ledger: &mut L,
    rules: &Rules,
    owners: Vec<Owned<'a>>,
    steps: &[Step<'a>],
) -> Result<Vec<Named<'a>>, Fault>
    requires sound { IsSound (L.state ledger.old).now }
    requires takable { AllTakable (map step_of steps.now) }
    ensures { (declared : DeclarationOf) → rules_of rules.now ≡ rules_declared declared
        → AreKnown declared [] (L.state ledger.old).now
        → IfOk result (λ told. AreAside declared
        (steps_seen rules.now.visibility (map owned_of owners.entry.items) (map step_of steps.now)) (map named_of told.items)) }
{
    let mut owners = owners;
    let mut told = nothing_told(alloc);
    let mut turn = 0;
    'turns: while turn < steps.len() {
        let step = &steps[turn];
        own_births(alloc, rules.visibility, &mut owners, step)?;
        take_step(alloc, ledger, rules, owners.as_slice(), step)?;
        let named = named_in(alloc, step)?;
        tell_each(alloc, ledger, &named, &mut told)?;
        turn += 1;
    }
    Ok(told.list)
}

//! Rules that explain every answer, as members of a JSON object.

ghost use Rattle.std.specs.Prelude.{◌≡◌, IfOk, OnOk};
ghost use Rattle.kmipa_json.specs.Told.{items_of, members_of};
ghost use Rattle.kmipa_judge.specs.Object.{rule_members, rules_told};
ghost use Rattle.kmipa_telling.specs.Lists.{objects};

use crate::rule::{Rule, rule_text};
use kmipa_json::{JsonList, JsonObject};
use std::alloc::{AllocError, Global};

/// Puts these rules into an object.
pub(crate) fn tell_rules(
    alloc: Global,
    told: &mut JsonObject,
    rules: &[Rule],
) -> Result<(), AllocError>
    ensures { OnOk result (members_of told.new ≡ rules_told rules.now (members_of told.old)) }
{
    told.put_list("explained_with", rule_list(alloc, rules)?)
}

/// An object for each of these rules.
fn rule_list(alloc: Global, rules: &[Rule]) -> Result<JsonList, AllocError>
    ensures { IfOk result (λ list. items_of list ≡ objects rule_members rules.now) }
{
    let mut list = JsonList::new(alloc);
    let mut count = 0;
    'rules: while count < rules.len() {
        let one = rule_object(alloc, &rules[count])?;
        list.push_object(one)?;
        count += 1;
    }
    Ok(list)
}

fn rule_object(alloc: Global, rule: &Rule) -> Result<JsonObject, AllocError>
    ensures { IfOk result (λ told. members_of told ≡ rule_members rule.now) }
{
    let words = rule_text(alloc, *rule)?;
    let mut told = JsonObject::new(alloc);
    told.put_text("rule", words.as_str())?;
    Ok(told)
}

//! Allow lines: what a server says of an operation in a state, in place of the table.

ghost use Rattle.std.specs.Prelude.{◌≡◌, ◌≢◌, ◌↔◌, IsTrue, MatchOption};
ghost use Rattle.kmipa_ttlv.specs.Tree.{scalar, enumeration};
ghost use Rattle.kmipa_ttlv.specs.ViewTree.{view_tree};
ghost use Rattle.kmipa_attrs.specs.Tags.{state_tag};
ghost use Rattle.kmipa_object.specs.Allowances.{act_number, allow_number};
ghost use Rattle.kmipa_object.specs.Life.{state_number};
ghost use Rattle.kmipa_object.specs.declared.allow.Act.{Act};
ghost use Rattle.kmipa_object.specs.declared.allow.Allow.{Allow};
ghost use Rattle.kmipa_object.specs.declared.allow.AllowLine.{AllowLine};
ghost use Rattle.kmipa_object.specs.declared.state.State.{State};
ghost use Rattle.kmipa_record.specs.Declarations.{IsNewCell};
ghost use Rattle.kmipa_record.specs.Lines.{allow_line_item, IsMovable, AreOfOneCell};
ghost use Rattle.kmipa_record.specs.Tags.{act_tag, allow_tag};

use crate::shape::{children_of, enumeration_of};
use crate::tags::{ACT, ALLOW, ALLOW_LINE};
use kmipa_attrs::tags::STATE;
use kmipa_object::{Act, Allow, AllowLine, State, in_table};
use kmipa_ttlv::View;

/// The allow line that an item says.
pub fn allow_line_in(item: &View) -> Option<AllowLine>
    ensures { MatchOption result ((l : AllowLine) → view_tree item.now ≢ allow_line_item l)
        (λ l. view_tree item.now ≡ allow_line_item l) }
{
    let mut children = children_of(item, ALLOW_LINE)?;
    let act = act_in(&children.next()?)?;
    let state = state_in(&children.next()?)?;
    let allow = allow_in(&children.next()?)?;
    if children.next().is_some() {
        return None;
    }
    Some(AllowLine { act, state, allow })
}

fn act_in(item: &View) -> Option<Act>
    ensures { MatchOption result ((a : Act) → view_tree item.now ≢ scalar act_tag (enumeration (act_number a)))
        (λ a. view_tree item.now ≡ scalar act_tag (enumeration (act_number a))) }
{
    Act::of(enumeration_of(item, ACT)?)
}

fn state_in(item: &View) -> Option<State>
    ensures { MatchOption result ((s : State) → view_tree item.now ≢ scalar state_tag (enumeration (state_number s)))
        (λ s. view_tree item.now ≡ scalar state_tag (enumeration (state_number s))) }
{
    State::of(enumeration_of(item, STATE)?)
}

fn allow_in(item: &View) -> Option<Allow>
    ensures { MatchOption result ((w : Allow) → view_tree item.now ≢ scalar allow_tag (enumeration (allow_number w)))
        (λ w. view_tree item.now ≡ scalar allow_tag (enumeration (allow_number w))) }
{
    Allow::of(enumeration_of(item, ALLOW)?)
}

/// Whether a line may move the table's word for its cell: that word isn't `Not`.
pub fn is_movable(line: &AllowLine) -> bool
    ensures { IsTrue result ↔ IsMovable line.now }
{
    match in_table(line.act, line.state) {
        Allow::Not => false,
        Allow::Must | Allow::May => true,
    }
}

/// Whether no line is for the cell of this one.
pub fn is_new_cell(lines: &[AllowLine], line: &AllowLine) -> bool
    ensures { IsTrue result ↔ IsNewCell lines.now line.now }
{
    for other in lines {
        if are_of_one_cell(other, line) {
            return false;
        }
    }
    true
}

fn are_of_one_cell(a: &AllowLine, b: &AllowLine) -> bool
    ensures { IsTrue result ↔ AreOfOneCell a.now b.now }
{
    a.act == b.act && a.state == b.state
}

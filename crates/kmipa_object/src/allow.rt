//! What a state allows.

ghost use Rattle.std.specs.Prelude.{◌≡◌, find};
ghost use Rattle.kmipa_object.specs.Allowances.{allows, is_line_of};
ghost use Rattle.kmipa_object.specs.Table.{allowed, row};

use crate::state::State;

/// An operation on an object, as far as its state matters.
#[derive(Clone, Copy, PartialEq, Eq)]
pub enum Act {
    Get = 1,
    GetAttributes = 2,
    Activate = 3,
    /// Revoke with the code Key Compromise (2) or CA Compromise (3).
    RevokeCompromised = 4,
    /// Revoke with any other code.
    RevokeOther = 5,
    Destroy = 6,
}

impl Act {
    ghost use Rattle.kmipa_object.specs.Allowances.{act_number, act_of};

    /// The number in a declaration.
    pub fn number(self) -> u32
        ensures { result ≡ act_number self }
    {
        self as u32
    }

    /// The act with this number, if there is one.
    pub fn of(number: u32) -> Option<Act>
        ensures { result ≡ act_of number }
    {
        match number {
            1 => Some(Act::Get),
            2 => Some(Act::GetAttributes),
            3 => Some(Act::Activate),
            4 => Some(Act::RevokeCompromised),
            5 => Some(Act::RevokeOther),
            6 => Some(Act::Destroy),
            _ => None,
        }
    }
}

/// What a state says of an operation.
#[derive(Clone, Copy, PartialEq, Eq)]
pub enum Allow {
    /// Success is possible, and a refusal for the state unfounded.
    Must = 1,
    /// Success and a refusal are both possible.
    May = 2,
    /// Success is impossible.
    Not = 3,
}

impl Allow {
    ghost use Rattle.kmipa_object.specs.Allowances.{allow_number, allow_of};

    /// The number in a declaration.
    pub fn number(self) -> u32
        ensures { result ≡ allow_number self }
    {
        self as u32
    }

    /// What has this number, if anything.
    pub fn of(number: u32) -> Option<Allow>
        ensures { result ≡ allow_of number }
    {
        match number {
            1 => Some(Allow::Must),
            2 => Some(Allow::May),
            3 => Some(Allow::Not),
            _ => None,
        }
    }
}

/// An allow line: what a server's own rules say of an operation in a state, in place of the table.
#[derive(Clone, Copy, PartialEq, Eq)]
pub struct AllowLine {
    pub act: Act,
    pub state: State,
    pub allow: Allow,
}

/// What a server's rules say of an operation in a state: the word of the first line for it, and the table's where there is none. No line
/// frees what the table excludes.
pub fn allows(lines: &[AllowLine], act: Act, state: State) -> Allow
    ensures { result ≡ allows lines.now act state }
{
    match (in_table(act, state), line_of(lines, act, state)) {
        (Allow::Not, _) => Allow::Not,
        (_, Some(line)) => line.allow,
        (word, None) => word,
    }
}

/// The first line for an operation in a state.
fn line_of(lines: &[AllowLine], act: Act, state: State) -> Option<AllowLine>
    ensures { result ≡ find (is_line_of act state) lines.now }
{
    for line in lines {
        if is_line_of(act, state, line) {
            return Some(*line);
        }
    }
    None
}

fn is_line_of(act: Act, state: State, line: &AllowLine) -> bool
    ensures { result ≡ is_line_of act state line.now }
{
    line.act.number() == act.number() && line.state.number() == state.number()
}

/// What the table says of an operation in a state.
pub fn in_table(act: Act, state: State) -> Allow
    ensures { result ≡ allowed act state }
{
    match act {
        Act::Get => unless_destroyed(state, Allow::Not),
        Act::GetAttributes => unless_destroyed(state, Allow::May),
        Act::Activate => match state {
            State::PreActive => Allow::Must,
            _ => Allow::Not,
        },
        Act::RevokeCompromised => match state {
            State::PreActive | State::Active | State::Deactivated => Allow::Must,
            State::Compromised | State::Destroyed | State::DestroyedCompromised => Allow::May,
        },
        Act::RevokeOther => match state {
            State::Active => Allow::Must,
            State::Deactivated => Allow::May,
            _ => Allow::Not,
        },
        Act::Destroy => match state {
            State::Active => Allow::May,
            _ => unless_destroyed(state, Allow::Not),
        },
    }
}

/// Must in the four states before an object's destruction, and this in the two after it.
fn unless_destroyed(state: State, after: Allow) -> Allow
    ensures { result ≡ row Allow.Must Allow.Must Allow.Must Allow.Must after after state }
{
    match state {
        State::Destroyed | State::DestroyedCompromised => after,
        _ => Allow::Must,
    }
}

//! The state of an object at a moment.

ghost use Rattle.std.specs.Prelude.{◌≡◌};
ghost use Rattle.kmipa_object.specs.Life.{dates_of, has_come, state, state_by_activation, state_name, state_number};

use crate::life::Life;

/// State (KMIP 2.1, section 11).
#[derive(Clone, Copy, PartialEq, Eq)]
pub enum State {
    PreActive = 1,
    Active = 2,
    Deactivated = 3,
    Compromised = 4,
    Destroyed = 5,
    DestroyedCompromised = 6,
}

impl State {
    ghost use Rattle.kmipa_object.specs.Allowances.{state_numbered};

    /// The number on the wire.
    pub fn number(self) -> u32
        ensures { result ≡ state_number self }
    {
        self as u32
    }

    /// The state with this number, if there is one.
    pub fn of(number: u32) -> Option<State>
        ensures { result ≡ state_numbered number }
    {
        match number {
            1 => Some(State::PreActive),
            2 => Some(State::Active),
            3 => Some(State::Deactivated),
            4 => Some(State::Compromised),
            5 => Some(State::Destroyed),
            6 => Some(State::DestroyedCompromised),
            _ => None,
        }
    }

    /// The name in the standard.
    pub fn name(self) -> &'static str
        ensures { result.now ≡ state_name self }
    {
        match self {
            State::PreActive => "Pre-Active",
            State::Active => "Active",
            State::Deactivated => "Deactivated",
            State::Compromised => "Compromised",
            State::Destroyed => "Destroyed",
            State::DestroyedCompromised => "Destroyed Compromised",
        }
    }
}

/// The state at a moment, in seconds since 1970-01-01T00:00:00Z.
pub fn state_at(life: &Life, t: i64) -> State
    ensures { result ≡ state (dates_of life.now) t }
{
    match (life.destroy, life.compromise) {
        (Some(_), Some(_)) => State::DestroyedCompromised,
        (Some(_), None) => State::Destroyed,
        (None, Some(_)) => State::Compromised,
        (None, None) => state_by_activation(life, t),
    }
}

/// The state where neither a Destroy Date nor a Compromise Date is set.
fn state_by_activation(life: &Life, t: i64) -> State
    ensures { result ≡ state_by_activation (dates_of life.now) t }
{
    if !has_come(life.activation, t) {
        State::PreActive
    } else if has_come(life.deactivation, t) {
        State::Deactivated
    } else {
        State::Active
    }
}

/// Whether a date is set and at most this moment.
fn has_come(date: Option<i64>, t: i64) -> bool
    ensures { result ≡ has_come date t }
{
    match date {
        Some(date) => date <= t,
        None => false,
    }
}

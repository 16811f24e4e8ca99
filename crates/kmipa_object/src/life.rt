//! The life of an object: its dates, where its bytes are, and what each transition leaves.

ghost use Rattle.std.specs.Prelude.{◌≡◌, ◌≢◌, IfOk, MatchResult};
ghost use Rattle.kmipa_object.specs.Life.{dates_of, state, activated_dates, revoked_dates, destroyed_dates, deactivated_dates};
ghost use Rattle.kmipa_object.specs.Table.{allowed, revoke_act};

use crate::allow::{Act, Allow, in_table};
use crate::fault::WrongState;
use crate::state::{State, state_at};

/// The number of a secret: of the bytes of one object, known or not.
#[derive(Clone, Copy, PartialEq, Eq)]
pub struct SecretNo {
    pub number: usize,
}

/// Where the bytes of an object are.
#[derive(Clone, Copy, PartialEq, Eq)]
pub enum Material {
    /// Destroyed.
    Gone,
    /// Those of a secret.
    Secret(SecretNo),
}

/// The dates of an object, in seconds since 1970-01-01T00:00:00Z, and where its bytes are.
#[derive(Clone, Copy, PartialEq, Eq)]
pub struct Life {
    /// Initial Date.
    pub initial: Option<i64>,
    /// Activation Date.
    pub activation: Option<i64>,
    /// Deactivation Date.
    pub deactivation: Option<i64>,
    /// Destroy Date.
    pub destroy: Option<i64>,
    /// Compromise Date.
    pub compromise: Option<i64>,
    /// Where its bytes are.
    pub material: Material,
}

/// The life after an Activate at this moment.
pub fn activated(life: Life, t: i64) -> Result<Life, WrongState>
    ensures dates { IfOk result (λ after. dates_of after ≡ activated_dates (dates_of life) t) }
    ensures material { IfOk result (λ after. after.material ≡ life.material) }
    ensures err { MatchResult result (λ _. allowed Act.Activate (state (dates_of life) t) ≢ Allow.Not)
        (λ _. allowed Act.Activate (state (dates_of life) t) ≡ Allow.Not) }
{
    match in_table(Act::Activate, state_at(&life, t)) {
        Allow::Not => Err(WrongState),
        Allow::Must | Allow::May => Ok(Life {
            activation: Some(t),
            ..life
        }),
    }
}

/// The life after a Revoke with this code at this moment.
pub fn revoked(life: Life, code: u32, t: i64) -> Result<Life, WrongState>
    ensures dates { IfOk result (λ after. dates_of after ≡ revoked_dates (dates_of life) code t) }
    ensures material { IfOk result (λ after. after.material ≡ life.material) }
    ensures err { MatchResult result (λ _. allowed (revoke_act code) (state (dates_of life) t) ≢ Allow.Not)
        (λ _. allowed (revoke_act code) (state (dates_of life) t) ≡ Allow.Not) }
{
    match in_table(Act::of_revoke(code), state_at(&life, t)) {
        Allow::Not => Err(WrongState),
        Allow::Must | Allow::May => Ok(after_revoke(life, code, t)),
    }
}

/// The life after a Destroy at this moment, without bytes.
pub fn destroyed(life: Life, t: i64) -> Result<Life, WrongState>
    ensures dates { IfOk result (λ after. dates_of after ≡ destroyed_dates (dates_of life) t) }
    ensures material { IfOk result (λ after. after.material ≡ Material.Gone) }
    ensures err { MatchResult result (λ _. allowed Act.Destroy (state (dates_of life) t) ≢ Allow.Not)
        (λ _. allowed Act.Destroy (state (dates_of life) t) ≡ Allow.Not) }
{
    match in_table(Act::Destroy, state_at(&life, t)) {
        Allow::Not => Err(WrongState),
        Allow::Must | Allow::May => Ok(Life {
            destroy: Some(t),
            material: Material::Gone,
            ..deactivated_if_active(life, t)
        }),
    }
}

impl Act {
    /// A Revoke with this code.
    pub fn of_revoke(code: u32) -> Act
        ensures { result ≡ revoke_act code }
    {
        match code {
            2 | 3 => Act::RevokeCompromised,
            _ => Act::RevokeOther,
        }
    }
}

/// The life after a Revoke that the state allows.
fn after_revoke(life: Life, code: u32, t: i64) -> Life
    ensures dates { dates_of result ≡ revoked_dates (dates_of life) code t }
    ensures material { result.material ≡ life.material }
{
    match Act::of_revoke(code) {
        Act::RevokeCompromised => Life {
            compromise: Some(life.compromise.unwrap_or(t)),
            ..life
        },
        _ => deactivated_if_active(life, t),
    }
}

/// The Deactivation Date is this moment where the object is active, also over a later one.
fn deactivated_if_active(life: Life, t: i64) -> Life
    ensures dates { dates_of result ≡ deactivated_dates (dates_of life) t }
    ensures material { result.material ≡ life.material }
{
    match state_at(&life, t) {
        State::Active => Life {
            deactivation: Some(t),
            ..life
        },
        _ => life,
    }
}

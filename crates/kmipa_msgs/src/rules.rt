//! What a server declares of its refusals and of its names.

ghost use Rattle.std.specs.Prelude.{◌≡◌};

use kmipa_object::AllowLine;
use std::alloc::{AllocError, Global};

/// What may be behind a Result Reason.
#[derive(Clone, Copy, PartialEq, Eq)]
pub enum Cause {
    /// The object isn't there, or is destroyed.
    NotFound = 1,
    /// The object's state lets the operation be refused.
    WrongState = 2,
    /// Some object has one of the names asked for.
    TakenName = 3,
}

impl Cause {
    ghost use Rattle.kmipa_msgs.specs.Numbers.{cause_number, cause_of};

    /// The number in a declaration.
    pub fn number(self) -> u32
        ensures { result ≡ cause_number self }
    {
        self as u32
    }

    /// The cause with this number, if there is one.
    pub fn of(number: u32) -> Option<Cause>
        ensures { result ≡ cause_of number }
    {
        match number {
            1 => Some(Cause::NotFound),
            2 => Some(Cause::WrongState),
            3 => Some(Cause::TakenName),
            _ => None,
        }
    }
}

/// A Result Reason, by its number, and a cause that it may have.
#[derive(Clone, Copy, PartialEq, Eq)]
pub struct Row {
    pub reason: u32,
    pub cause: Cause,
}

/// Whether clients see the objects of others.
#[derive(Clone, Copy, PartialEq, Eq)]
pub enum Visibility {
    /// Each client sees every object.
    Everyone = 1,
    /// The server may answer as if the objects of others weren't there.
    MayHide = 2,
    /// No client gets an object of another, or is told of one.
    MustHide = 3,
}

impl Visibility {
    ghost use Rattle.kmipa_msgs.specs.Numbers.{visibility_number, visibility_of};

    /// The number in a declaration.
    pub fn number(self) -> u32
        ensures { result ≡ visibility_number self }
    {
        self as u32
    }

    /// What has this number, if anything.
    pub fn of(number: u32) -> Option<Visibility>
        ensures { result ≡ visibility_of number }
    {
        match number {
            1 => Some(Visibility::Everyone),
            2 => Some(Visibility::MayHide),
            3 => Some(Visibility::MustHide),
            _ => None,
        }
    }
}

/// What becomes of items and objects that aren't judged.
#[derive(Clone, Copy, PartialEq, Eq)]
pub enum Unjudged {
    /// The first one ends the audit: it is outside.
    Refused = 1,
    /// They are set aside, and all else is judged.
    SetAside = 2,
    /// As `SetAside`, and nothing is known of identifiers that aren't declared.
    Unknown = 3,
}

impl Unjudged {
    ghost use Rattle.kmipa_msgs.specs.Numbers.{unjudged_number, unjudged_of};

    /// The number in a declaration.
    pub fn number(self) -> u32
        ensures { result ≡ unjudged_number self }
    {
        self as u32
    }

    /// What has this number, if anything.
    pub fn of(number: u32) -> Option<Unjudged>
        ensures { result ≡ unjudged_of number }
    {
        match number {
            1 => Some(Unjudged::Refused),
            2 => Some(Unjudged::SetAside),
            3 => Some(Unjudged::Unknown),
            _ => None,
        }
    }
}

/// What a server declares. A reason may have several rows; one without rows is never judged.
#[derive(Drop)]
pub struct Rules {
    /// Whether no two live objects share a name.
    pub unique_names: bool,
    pub rows: Vec<Row>,
    /// Its own words for cells of the table of states; where a cell has none, the table's word holds.
    pub allow_lines: Vec<AllowLine>,
    /// Whether clients see the objects of others.
    pub visibility: Visibility,
}

impl Rules {
    ghost use Rattle.std.specs.Prelude.{IfOk, false};
    ghost use Rattle.kmipa_msgs.specs.Messages.{rules_of, default_rules};

    /// The rules of a server that declares none: Item Not Found is for what isn't there, and names may be shared.
    pub fn default_rules(alloc: Global) -> Result<Rules, AllocError>
        ensures { IfOk result (λ rules. rules_of rules ≡ default_rules) }
    {
        let mut rows = Vec::with_capacity(alloc, 1)?;
        rows.push(Row {
            reason: 1,
            cause: Cause::NotFound,
        })?;
        Ok(Rules {
            unique_names: false,
            rows,
            allow_lines: Vec::new(alloc),
            visibility: Visibility::Everyone,
        })
    }
}

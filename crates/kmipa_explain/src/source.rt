//! Whence a server has what it holds.

use crate::explanation::Event;
use kmipa_ops::Judged;

/// Whence a server has what it holds.
#[derive(Clone, Copy, PartialEq, Eq)]
pub enum Source {
    /// The declaration says it.
    Declared,
    /// This item did it.
    Done(Event),
}

/// Whence an object is, and what it has: of each the source, where it has such a thing.
#[derive(Clone, Copy, PartialEq, Eq)]
pub struct Whence {
    /// The object itself, with its type, its names, its algorithm, its length and its mask.
    pub object: Option<Source>,
    /// What put it into its state: the source of the date by which it is in it, or of the object where it is Pre-Active.
    pub state: Option<Source>,
    /// Initial Date.
    pub initial: Option<Source>,
    /// Activation Date.
    pub activation: Option<Source>,
    /// Deactivation Date.
    pub deactivation: Option<Source>,
    /// Destroy Date.
    pub destroy: Option<Source>,
    /// Compromise Date.
    pub compromise: Option<Source>,
    /// What first told the bytes that are known of it.
    pub bytes: Option<Source>,
}

impl Whence {
    ghost use Rattle.std.specs.Prelude.{◌≡◌};
    ghost use Rattle.kmipa_explain.specs.Sources.{since};

    /// Whence an attribute is that the object has.
    pub fn of(&self, attribute: Judged) -> Option<Source>
        ensures { result ≡ since self.now attribute }
    {
        match attribute {
            Judged::ActivationDate => self.activation,
            Judged::CompromiseDate => self.compromise,
            Judged::DeactivationDate => self.deactivation,
            Judged::DestroyDate => self.destroy,
            Judged::InitialDate => self.initial,
            Judged::State => self.state,
            Judged::CryptographicAlgorithm
            | Judged::CryptographicLength
            | Judged::CryptographicUsageMask
            | Judged::Name
            | Judged::ObjectType => self.object,
        }
    }
}

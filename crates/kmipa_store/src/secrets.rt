//! Secrets by their numbers.

use crate::fault::StoreFault;
use kmipa_object::Rule;
use std::alloc::Global;
use std::marker::Model;

/// A secret: what its bytes must be, and they themselves where they are known.
#[derive(Drop)]
pub struct Secret {
    rule: Rule,
    bytes: Option<Vec<u8>>,
}

/// What it is to learn bytes.
#[derive(Clone, Copy, PartialEq, Eq)]
pub enum Lesson {
    /// They are known already.
    Old,
    /// None were known, and the rule admits them.
    New,
}

impl Secret {
    ghost use Rattle.std.specs.Prelude.{◌≡◌, Some, IfOk, IfErr, option_map};
    ghost use Rattle.kmipa_store.specs.Secrets.{known_of, Judges};

    /// The bytes, where they are known.
    fn known(&self) -> Option<&[u8]>
        ensures { (known_of self.now).bytes ≡ option_map (λ bytes. bytes.now) result }
    {
        match &self.bytes {
            Some(bytes) => Some(bytes.as_slice()),
            None => None,
        }
    }

    /// An equal secret, with memory of its own.
    fn copy(&self, alloc: Global) -> Result<Secret, StoreFault>
        ensures same { IfOk result (λ copy. known_of copy ≡ known_of self.now) }
        ensures err { IfErr result (λ fault. fault ≡ StoreFault.Memory) }
    {
        let bytes = match self.known() {
            Some(bytes) => Some(Vec::from_slice(alloc, bytes)?),
            None => None,
        };
        Ok(Secret {
            rule: self.rule,
            bytes,
        })
    }

    /// What it is to learn these bytes.
    fn lesson(&self, bytes: &[u8]) -> Result<Lesson, StoreFault>
        ensures { Judges (Some (known_of self.now)) bytes.now result }
    {
        match self.known() {
            Some(known) if known == bytes => Ok(Lesson::Old),
            Some(_) => Err(StoreFault::BytesDiffer),
            None if self.rule.admits(bytes) => Ok(Lesson::New),
            None => Err(StoreFault::LengthImpossible),
        }
    }
}

/// Secrets by their numbers.
#[derive(Drop)]
pub struct Secrets {
    by_number: Vec<Secret>,
}

impl Model for Secrets {
    ghost use Rattle.std.specs.Prelude.{List};
    ghost use Rattle.kmipa_store.specs.Ledger.{Known};
    ghost use Rattle.kmipa_store.specs.Secrets.{secrets_of};

    ghost Value = { List Known };

    ghost view = { λ s. secrets_of s.by_number.items };
}

impl Secrets {
    ghost use Rattle.std.specs.Prelude.{◌≡◌, ◌<◌, ◌-◌, [], length, take, slice_get, None, Some, IfOk, IfErr, option_map};
    ghost use Rattle.kmipa_store.specs.Ledger.{bytes_at, told};
    ghost use Rattle.kmipa_store.specs.Memory.{Pushes};
    ghost use Rattle.kmipa_store.specs.Secrets.{forgotten, Judges};

    /// No secrets.
    pub fn new(alloc: Global) -> Secrets
        ensures { result ≡ [] }
    {
        Secrets {
            by_number: Vec::new(alloc),
        }
    }

    /// How many there are.
    pub fn len(&self) -> usize
        ensures { result ≡ length self.now }
    {
        self.by_number.len()
    }

    /// The bytes of a secret, where they are known.
    pub fn known(&self, number: usize) -> Option<&[u8]>
        requires { number < length self.now }
        ensures { bytes_at self.now number ≡ Some (option_map (λ bytes. bytes.now) result) }
    {
        self.by_number[number].known()
    }

    /// What it is to learn these bytes.
    pub fn lesson(&self, number: usize, bytes: &[u8]) -> Result<Lesson, StoreFault>
        requires { number < length self.now }
        ensures { Judges (slice_get self.now number) bytes.now result }
    {
        self.by_number[number].lesson(bytes)
    }

    /// Adds a secret of unknown bytes after the others.
    pub fn push(&mut self, rule: Rule) -> Result<(), StoreFault>
        ensures { Pushes self.old (record { rule = rule; bytes = None }) result self.new }
    {
        self.by_number.push(Secret { rule, bytes: None })?;
        Ok(())
    }

    /// The secret of a number has these bytes.
    pub fn tell(&mut self, number: usize, bytes: Vec<u8>)
        requires { number < length self.old }
        ensures { self.new ≡ told self.old number bytes.items }
    {
        let secret = &mut self.by_number[number];
        secret.bytes = Some(bytes);
    }

    /// The secret of a number, if there is one, is unknown again.
    pub fn forget(&mut self, number: usize)
        ensures { self.new ≡ forgotten self.old number }
    {
        let Some(secret) = self.by_number.get_mut(number) else {
            return;
        };
        secret.bytes = None;
    }

    /// Takes the last secret away, if there is one.
    pub fn pop(&mut self)
        ensures { self.new ≡ take (length self.old - 1) self.old }
    {
        let _ = self.by_number.pop();
    }

    /// Equal secrets, with memory of their own.
    pub fn copy(&self, alloc: Global) -> Result<Secrets, StoreFault>
        ensures same { IfOk result (λ copy. copy ≡ self.now) }
        ensures err { IfErr result (λ fault. fault ≡ StoreFault.Memory) }
    {
        let mut by_number = Vec::new(alloc);
        for secret in &self.by_number {
            by_number.push(secret.copy(alloc)?)?;
        }
        Ok(Secrets { by_number })
    }
}

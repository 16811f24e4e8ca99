//! Heads: what is known of a sealed transcript, as far as it was read.

ghost use Rattle.std.specs.Prelude.{◌≡◌, ◌↔◌, ◌++◌, ◌≤ℤ◌, false, IsTrue, IfSome, MatchOption, MatchResult};
ghost use Rattle.sha2.specs.Sha256.{sha256};
ghost use Rattle.kmipa_record.specs.Heads.{content_of, head_of, sealed_of};
ghost use Rattle.kmipa_record.specs.Seals.{IsSealed, seal_in, head_at, behind, is_close, TellsRecords, MayStand, StandFault};

use crate::fault::RecordKind;
use crate::label::Label;
use crate::sealed_record::{Content, SealedRecord};
use sha2::{Digest, Sha256};

/// How long a seal is, in bytes.
pub(crate) const SEAL_LENGTH: usize = 32;

/// The end of a sealed transcript, as far as it was read, and by its seal all that stands ahead.
#[derive(Drop)]
pub struct Head {
    pub label: Label,
    /// The last seal.
    pub seal: [u8; 32],
    /// The seal that the last record stands behind.
    pub ahead: [u8; 32],
    /// The last moment, in microseconds since 1970-01-01T00:00:00Z, if there is a record.
    pub moment: Option<i64>,
    /// How many records there are beside a close.
    pub records: u64,
    /// Whether the last record is a close.
    pub closed: bool,
}

impl Head {
    /// Behind a header of these bytes.
    pub(crate) fn new(label: Label, header: &[u8]) -> Head
        ensures behind_header { head_of result ≡ head_at header.now }
        ensures label { result.label ≡ label }
    {
        let seal = Sha256::digest(header);
        let ahead = seal;
        Head {
            label,
            seal,
            ahead,
            moment: None,
            records: 0,
            closed: false,
        }
    }

    /// The same without the close that is its last record.
    pub fn without_close(self) -> Head
        ensures label { result.label ≡ self.label }
        ensures seal { result.seal ≡ self.ahead }
        ensures unclosed { result.closed ≡ false }
    {
        let Head {
            label,
            ahead,
            moment,
            records,
            ..
        } = self;
        let seal = ahead;
        Head {
            label,
            seal,
            ahead,
            moment,
            records,
            closed: false,
        }
    }

    /// Takes the record that these bytes are, or says what is wrong with it.
    pub(crate) fn take(&mut self, bytes: &[u8], taken: &SealedRecord) -> Result<(), RecordKind>
        ensures stands { MatchResult result
            (λ _. MayStand (head_of self.old) (sealed_of bytes.now taken.now)
            × (head_of self.new ≡ behind (head_of self.old) (sealed_of bytes.now taken.now)))
            (StandFault (head_of self.old) (sealed_of bytes.now taken.now)) }
        ensures label { self.new.label ≡ self.old.label }
    {
        if self.closed {
            return Err(RecordKind::Entry);
        }
        let Some(seal) = seal_behind(&self.seal, bytes) else {
            return Err(RecordKind::Seal);
        };
        if !tells_records(self.records, &taken.content) {
            return Err(RecordKind::Seal);
        }
        if is_earlier(taken.moment, self.moment) {
            return Err(RecordKind::Order);
        }
        let ahead = self.seal;
        self.ahead = ahead;
        self.seal = seal;
        self.moment = Some(taken.moment);
        match taken.content {
            Content::Mark(_) | Content::Note(_) => self.records = self.records.saturating_add(1),
            Content::Close(_) => self.closed = true,
        }
        Ok(())
    }
}

/// The seal of a record that has these bytes ahead of it, behind the seal before.
pub(crate) fn seal_of(before: &[u8; 32], ahead: &[u8]) -> [u8; 32]
    ensures { result ≡ sha256 (before.now ++ ahead.now) }
{
    let mut hasher = Sha256::new();
    hasher.update(before.as_slice());
    hasher.update(ahead);
    hasher.finalize()
}

/// The seal of a record, where it is that behind the seal before.
fn seal_behind(before: &[u8; 32], bytes: &[u8]) -> Option<[u8; 32]>
    ensures { MatchOption result (¬ (IsSealed before.now bytes.now))
        (λ seal. IsSealed before.now bytes.now × (seal ≡ seal_in bytes.now)) }
{
    if bytes.len() < SEAL_LENGTH {
        return None;
    }
    let (ahead, told) = bytes.split_at(bytes.len() - SEAL_LENGTH);
    let seal = seal_of(before, ahead);
    if seal.as_slice() != told {
        return None;
    }
    Some(seal)
}

/// Whether a close tells that so many records are ahead of it.
fn tells_records(records: u64, content: &Content) -> bool
    ensures { IsTrue result ↔ TellsRecords records (content_of content.now) }
{
    match content {
        Content::Mark(_) | Content::Note(_) => true,
        Content::Close(told) => *told >= 0 && *told as u64 == records,
    }
}

/// Whether a moment is below the one before.
fn is_earlier(moment: i64, before: Option<i64>) -> bool
    ensures { IsTrue result ↔ ¬ (IfSome before (λ before. before ≤ℤ moment)) }
{
    match before {
        Some(before) => moment < before,
        None => false,
    }
}

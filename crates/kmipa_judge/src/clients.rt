//! Who made the calls of a recording.

ghost use Rattle.std.specs.Prelude.{◌≡◌, ◌↔◌, IsTrue, All, map};
ghost use Rattle.kmipa_record.specs.Marks.{AreRecorded, mark_of};
ghost use Rattle.kmipa_judge.specs.Opinions.{Counts};
ghost use Rattle.kmipa_judge.specs.Clients.{AreOfOne, IsBy, IsIdentityOf, ends_identity, identity};

use kmipa_record::Mark;

/// Whether it counts that no order explains every answer: it isn't only presumed that each client sees every object, or all calls came from clients of one
/// identity.
pub(crate) fn counts_for(presumed: bool, marks: &[Mark]) -> bool
    ensures { AreRecorded (map mark_of marks.now) → Counts presumed (map mark_of marks.now) result }
{
    if presumed { are_of_one(marks) } else { true }
}

/// Whether all calls came from clients of one identity: that of the first.
pub(crate) fn are_of_one(marks: &[Mark]) -> bool
    ensures { AreRecorded (map mark_of marks.now) → IsTrue result ↔ AreOfOne (map mark_of marks.now) }
{
    match marks.first() {
        Some(mark) => are_by(marks, identity_of(mark)),
        None => true,
    }
}

/// The identity of the client of a call that a mark begins; nothing of one that ends a call.
fn identity_of(mark: &Mark) -> &[u8]
    ensures { IsIdentityOf (mark_of mark.now) result.now }
{
    match mark {
        Mark::Begin(begin) => identity(begin.client.as_str()),
        Mark::End(_) => b"",
    }
}

/// Whether all calls came from clients of this identity.
fn are_by(marks: &[Mark], id: &[u8]) -> bool
    ensures { IsTrue result ↔ All (IsBy id.now) (map mark_of marks.now) }
{
    'marks: for mark in marks {
        if !is_by(mark, id) {
            return false;
        }
    }
    true
}

/// Whether a mark begins no call of a client of another identity.
fn is_by(mark: &Mark, id: &[u8]) -> bool
    ensures { IsTrue result ↔ IsBy id.now (mark_of mark.now) }
{
    match mark {
        Mark::Begin(begin) => identity(begin.client.as_str()) == id,
        Mark::End(_) => true,
    }
}

/// The identity of a client: its text up to the first blank or slash.
fn identity(client: &str) -> &[u8]
    ensures { result.now ≡ identity client.now }
{
    let bytes = client.as_bytes();
    let mut length = 0;
    'bytes: while length < bytes.len() {
        if ends_identity(bytes[length]) {
            return &bytes[..length];
        }
        length += 1;
    }
    bytes
}

fn ends_identity(byte: u8) -> bool
    ensures { result ≡ ends_identity byte }
{
    byte == b' ' || byte == b'/'
}

//! In which part what is left of an object and what is told of it differ.

ghost use Rattle.std.specs.Prelude.{◌≡◌, ◌==◌, ◌||◌, ℕ, IfSome, None, bytes_eq, map, not, option_map, true};
ghost use Rattle.std.specs.List.{list_any};
ghost use Rattle.std.specs.Ordering.{int_eq};
ghost use Rattle.kmipa_attrs.specs.Sets.{name_of};
ghost use Rattle.kmipa_record.specs.Entries.{entry_of, items_of};
ghost use Rattle.kmipa_ops.specs.GetAttributes.{has_stranger};
ghost use Rattle.kmipa_ops.specs.Objects.{clash, same_name, same_type};
ghost use Rattle.kmipa_segments.specs.Comparing.{IsAlike, clash_bytes, is_apart, is_other_date};

use kmipa_attrs::{Name, ObjectType};
use kmipa_record::Entry;

/// A part of an object that is held against what is told of it.
#[derive(Clone, Copy, PartialEq, Eq)]
pub enum Part {
    ObjectType,
    /// Its names, in whatever order.
    Name,
    CryptographicAlgorithm,
    CryptographicLength,
    CryptographicUsageMask,
    InitialDate,
    ActivationDate,
    DeactivationDate,
    DestroyDate,
    CompromiseDate,
    /// Its bytes, where both are known.
    KeyMaterial,
}

impl Part {
    ghost use Rattle.std.specs.Prelude.{◌≡◌};
    ghost use Rattle.kmipa_segments.specs.Comparing.{part_text};

    /// What the standard calls it.
    pub fn name(self) -> &'static str
        ensures { result.now ≡ part_text self }
    {
        match self {
            Part::ObjectType => "Object Type",
            Part::Name => "Name",
            Part::CryptographicAlgorithm => "Cryptographic Algorithm",
            Part::CryptographicLength => "Cryptographic Length",
            Part::CryptographicUsageMask => "Cryptographic Usage Mask",
            Part::InitialDate => "Initial Date",
            Part::ActivationDate => "Activation Date",
            Part::DeactivationDate => "Deactivation Date",
            Part::DestroyDate => "Destroy Date",
            Part::CompromiseDate => "Compromise Date",
            Part::KeyMaterial => "Key Material",
        }
    }
}

/// All parts, in the order in which they are compared.
const PARTS: [Part; 11] = [
    Part::ObjectType,
    Part::Name,
    Part::CryptographicAlgorithm,
    Part::CryptographicLength,
    Part::CryptographicUsageMask,
    Part::InitialDate,
    Part::ActivationDate,
    Part::DeactivationDate,
    Part::DestroyDate,
    Part::CompromiseDate,
    Part::KeyMaterial,
];

/// The first part in which they differ.
pub fn part_apart(left: &Entry, told: &Entry) -> Option<Part>
    ensures alike { result ≡ None → IsAlike (entry_of left.now) (entry_of told.now) }
    ensures apart { IfSome result (λ part. is_apart part (entry_of left.now) (entry_of told.now) ≡ true) }
{
    let mut place = 0;
    'parts: while place < PARTS.len() {
        let part = PARTS[place];
        if is_apart(part, left, told) {
            return Some(part);
        }
        place += 1;
    }
    None
}

/// Whether they differ in a part.
fn is_apart(part: Part, left: &Entry, told: &Entry) -> bool
    ensures { result ≡ is_apart part (entry_of left.now) (entry_of told.now) }
{
    let (own, other) = (&left.attrs, &told.attrs);
    match part {
        Part::ObjectType => is_other_type(left.kind, told.kind),
        Part::Name => are_other_names(&own.names, &other.names),
        Part::CryptographicAlgorithm => clash_numbers(own.algorithm, other.algorithm),
        Part::CryptographicLength => clash_integers(own.length, other.length),
        Part::CryptographicUsageMask => clash_integers(own.mask, other.mask),
        Part::InitialDate => clash_dates(own.initial, other.initial),
        Part::ActivationDate => is_other_date(own.activation, other.activation),
        Part::DeactivationDate => is_other_date(own.deactivation, other.deactivation),
        Part::DestroyDate => is_other_date(own.destroy, other.destroy),
        Part::CompromiseDate => is_other_date(own.compromise, other.compromise),
        Part::KeyMaterial => clash_bytes(&left.bytes, &told.bytes),
    }
}

fn is_other_type(left: ObjectType, told: ObjectType) -> bool
    ensures { result ≡ not (same_type left told) }
{
    left.number() != told.number()
}

/// Whether one has a name that the other hasn't.
fn are_other_names(left: &[Name], told: &[Name]) -> bool
    ensures { result ≡ has_stranger (map name_of left.now) (map name_of told.now)
        || has_stranger (map name_of told.now) (map name_of left.now) }
{
    has_stranger(left, told) || has_stranger(told, left)
}

/// Whether one of the names isn't among those known.
fn has_stranger(known: &[Name], names: &[Name]) -> bool
    ensures { result ≡ has_stranger (map name_of known.now) (map name_of names.now) }
{
    any_stranger(known, names)
}

fn any_stranger(known: &[Name], names: &[Name]) -> bool
    ensures { result ≡ list_any
        (λ (n : Name). not (list_any (λ (k : Name). same_name (name_of k) (name_of n)) known.now)) names.now }
{
    names.iter().any(|name| !is_among(name, known))
}

fn is_among(name: &Name, known: &[Name]) -> bool
    ensures { result ≡ list_any (λ (k : Name). same_name (name_of k) (name_of name.now)) known.now }
{
    known.iter().any(|other| is_same(other, name))
}

fn is_same(one: &Name, other: &Name) -> bool
    ensures { result ≡ same_name (name_of one.now) (name_of other.now) }
{
    one.kind == other.kind && one.value == other.value
}

fn clash_numbers(left: Option<u32>, told: Option<u32>) -> bool
    ensures { result ≡ clash (λ (x y : ℕ). x == y) left told }
{
    match (left, told) {
        (Some(own), Some(other)) => own != other,
        _ => false,
    }
}

fn clash_integers(left: Option<i32>, told: Option<i32>) -> bool
    ensures { result ≡ clash int_eq left told }
{
    match (left, told) {
        (Some(own), Some(other)) => own != other,
        _ => false,
    }
}

fn clash_dates(left: Option<i64>, told: Option<i64>) -> bool
    ensures { result ≡ clash int_eq left told }
{
    match (left, told) {
        (Some(own), Some(other)) => own != other,
        _ => false,
    }
}

fn is_other_date(left: Option<i64>, told: Option<i64>) -> bool
    ensures { result ≡ is_other_date left told }
{
    match (left, told) {
        (Some(own), Some(other)) => own != other,
        (None, None) => false,
        _ => true,
    }
}

fn clash_bytes(left: &Option<Vec<u8>>, told: &Option<Vec<u8>>) -> bool
    ensures { result ≡ clash_bytes (option_map items_of left.now) (option_map items_of told.now) }
{
    match (left, told) {
        (Some(own), Some(other)) => own.as_slice() != other.as_slice(),
        _ => false,
    }
}

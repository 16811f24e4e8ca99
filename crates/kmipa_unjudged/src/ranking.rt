//! Operations, by how often they were passed.

ghost use Rattle.std.specs.Prelude.{◌≡◌, ◌≤◌, ◌<◌, IfOk, OnOk, insert, length};
ghost use Rattle.kmipa_unjudged.specs.Ranking.{has_operation, is_ahead, put, ranks, times, with_rank};

use crate::rank::Rank;
use std::alloc::{AllocError, Global};

/// How often each operation stands among these, the one ahead that stands most often, and of two that stand as often the one of the lower number.
pub(crate) fn ranks_of(alloc: Global, numbers: &[u32]) -> Result<Vec<Rank>, AllocError>
    ensures { IfOk result (λ found. found.items ≡ ranks numbers.now) }
{
    let mut found = Vec::new(alloc);
    'numbers: for number in numbers {
        add_rank(&mut found, numbers, *number)?;
    }
    Ok(found)
}

/// With an operation more, where it isn't among them.
fn add_rank(found: &mut Vec<Rank>, numbers: &[u32], number: u32) -> Result<(), AllocError>
    ensures { OnOk result (found.new.items ≡ with_rank numbers.now found.old.items number) }
{
    if has_operation(found, number) {
        return Ok(());
    }
    let rank = Rank {
        operation: number,
        count: times(number, numbers),
    };
    let place = place_among(found, rank);
    found.insert(place, rank)?;
    Ok(())
}

/// Whether an operation is among these.
fn has_operation(found: &[Rank], number: u32) -> bool
    ensures { result ≡ has_operation found.now number }
{
    'found: for rank in found {
        if rank.operation == number {
            return true;
        }
    }
    false
}

/// How often a number stands among these.
fn times(number: u32, numbers: &[u32]) -> usize
    ensures { result ≡ times number numbers.now }
{
    let mut count = 0;
    'numbers: for other in numbers {
        if *other == number {
            count += 1;
        }
    }
    count
}

/// Ahead of which place among these one more stands.
fn place_among(found: &[Rank], rank: Rank) -> usize
    ensures within { result ≤ length found.now }
    ensures put { insert found.now result rank ≡ put rank found.now }
{
    let mut place = 0;
    'found: while place < found.len() {
        if is_ahead(rank, found[place]) {
            return place;
        }
        place += 1;
    }
    place
}

/// Whether one stands ahead of another.
fn is_ahead(one: Rank, other: Rank) -> bool
    ensures { result ≡ is_ahead one other }
{
    other.count < one.count || (one.count == other.count && one.operation < other.operation)
}

//! Numbers in vectors, at places that may not be there.

/// The number at a place; 0 where there is none.
#[inline(always)]
pub(crate) fn at(numbers: &[usize], place: usize) -> usize {
    match numbers.get(place) {
        Some(number) => *number,
        None => 0,
    }
}

/// Writes a number at a place, if there is one.
#[inline(always)]
pub(crate) fn put(numbers: &mut Vec<usize>, place: usize, number: usize) {
    if place < numbers.len() {
        numbers[place] = number;
    }
}

// Items that are drawn, and whether they stand in order.
use presort::{Numbers, SortKeys, arrange, unsigned};
use std::alloc::{AllocError, Global};

/// An item of two numbers, with its place in the list as it was drawn.
#[derive(Clone, Copy)]
pub struct Drawn {
    pub first: i64,
    pub second: u64,
    pub place: usize,
}

impl Numbers for Drawn {
    fn put_numbers(&self, lines: &mut SortKeys) {
        lines.put(unsigned(self.first));
        lines.put(self.second);
    }
}

// The next of a row of pseudo-random numbers.
fn next(seed: u64) -> u64 {
    seed.wrapping_mul(6364136223846793005)
        .wrapping_add(1442695040888963407)
}

/// So many items, of which several agree in both numbers, if `most` is small.
pub fn draw(alloc: Global, count: usize, most: u32) -> Result<Vec<Drawn>, AllocError> {
    let mut items = Vec::with_capacity(alloc, count)?;
    let mut seed = 7;
    for place in 0..count {
        seed = next(seed);
        let first = i64::from((seed >> 33) as u32 % most.max(1)) - 5;
        seed = next(seed);
        let second = u64::from((seed >> 33) as u32 % most.max(1));
        items.push(Drawn {
            first,
            second,
            place,
        })?;
    }
    Ok(items)
}

/// Whether the one stands before the other by both numbers, or by the places at which they were drawn where these agree.
pub fn stands_before(one: &Drawn, other: &Drawn) -> bool {
    (one.first, one.second, one.place) < (other.first, other.second, other.place)
}

/// Whether so many items are in order once they are arranged.
pub fn are_arranged(alloc: Global, count: usize, most: u32) -> Result<bool, AllocError> {
    let mut items = draw(alloc, count, most)?;
    arrange(alloc, &mut items)?;
    for at in 1..items.len() {
        if !stands_before(&items[at - 1], &items[at]) {
            return Ok(false);
        }
    }
    Ok(items.len() == count)
}

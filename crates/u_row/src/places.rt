// Where values of a row stand in its label, and under the positions of its part.
ghost use Rattle.std.specs.Prelude.{◌≡◌, ℕ, ◌<◌, length, IfOk};
ghost use Rattle.std.specs.List.{All};
ghost use Rattle.u_row.specs.Kept.{place_in_label, inner, beneath};

use point_core::Memory;
use std::alloc::Global;
use u_set::is_listed;

// The number of the positions before this one that are not listed.
fn place_in_label(commalist: &[usize], position: usize) -> usize
    ensures { result ≡ place_in_label commalist.now position }
{
    let mut count = 0;
    for i in 0..position {
        if !is_listed(commalist, i) {
            count += 1;
        }
    }
    count
}

/// Where the values at the positions that are not listed stand in the row's label.
pub fn inner(alloc: Global, commalist: &[usize], kept: &[usize]) -> Result<Vec<usize>, Memory>
    ensures { IfOk result (λ v. v.items ≡ inner commalist.now kept.now) }
{
    let mut places = Vec::new(alloc);
    for i in kept {
        if !is_listed(commalist, *i) {
            places.push(place_in_label(commalist, *i))?;
        }
    }
    Ok(places)
}

/// The kept positions that stand at the positions of the list.
pub fn beneath(alloc: Global, kept: &[usize], commalist: &[usize]) -> Result<Vec<usize>, Memory>
    requires { All (λ (j : ℕ). j < length kept.now) commalist.now }
    ensures { IfOk result (λ v. v.items ≡ beneath kept.now commalist.now) }
{
    let mut positions = Vec::with_capacity(alloc, commalist.len())?;
    for j in commalist {
        positions.push(kept[*j])?;
    }
    Ok(positions)
}

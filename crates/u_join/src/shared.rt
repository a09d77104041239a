// Positions that left and right labels share.
ghost use Rattle.std.specs.Prelude.{◌≡◌, length, IfOk};
ghost use Rattle.u_join.specs.Shared.{left_positions, right_positions};

use point_core::Memory;
use std::alloc::Global;

/// The positions in left labels, and those in right ones.
pub(crate) fn apart(
    alloc: Global,
    shared: &[(usize, usize)],
) -> Result<(Vec<usize>, Vec<usize>), Memory>
    ensures left { IfOk result (λ v. v.0.items ≡ left_positions shared.now) }
    ensures right { IfOk result (λ v. v.1.items ≡ right_positions shared.now) }
{
    let mut here = Vec::with_capacity(alloc, shared.len())?;
    let mut there = Vec::with_capacity(alloc, shared.len())?;
    for pair in shared {
        here.push(pair.0)?;
        there.push(pair.1)?;
    }
    Ok((here, there))
}

/// The positions of the one list with those of the other, in pairs.
pub(crate) fn paired(
    alloc: Global,
    here: &[usize],
    there: &[usize],
) -> Result<Vec<(usize, usize)>, Memory>
    requires { length here.now ≡ length there.now }
    ensures left { IfOk result (λ v. left_positions v.items ≡ here.now) }
    ensures right { IfOk result (λ v. right_positions v.items ≡ there.now) }
{
    let mut list = Vec::with_capacity(alloc, here.len())?;
    for (at, position) in here.iter().enumerate() {
        list.push((*position, there[at]))?;
    }
    Ok(list)
}

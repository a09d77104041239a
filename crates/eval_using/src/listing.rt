// Where listed attributes stand in operands.
ghost use Rattle.std.specs.Prelude.{◌≡◌, ℕ, ◌<◌, length, IfOk};
ghost use Rattle.std.specs.List.{All};
ghost use Rattle.eval_using.specs.Using.{listed};

use point_core::Memory;
use std::alloc::Global;
use value_core::{Kind, Name, position};

/// The positions among an operand's attributes of those that are listed by their positions in a heading.
pub fn listed(
    alloc: Global,
    heading: &[(Name, Kind)],
    commalist: &[usize],
    from: &[(Name, Kind)],
) -> Result<Vec<usize>, Memory>
    requires { All (λ (i : ℕ). i < length heading.now) commalist.now }
    ensures { IfOk result (λ v. v.items ≡ listed heading.now commalist.now from.now) }
{
    let mut positions = Vec::with_capacity(alloc, commalist.len())?;
    for i in commalist {
        positions.push(position(from, &heading[*i].0))?;
    }
    Ok(positions)
}

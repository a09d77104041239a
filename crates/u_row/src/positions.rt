// Positions of attributes that are not unpacked.
ghost use Rattle.std.specs.Prelude.{◌≡◌, IfOk};
ghost use Rattle.u_row.specs.Kept.{unlisted};

use point_core::Memory;
use std::alloc::Global;
use u_set::is_listed;

/// Those of the positions that are not in the list of USING.
pub fn unlisted(
    alloc: Global,
    commalist: &[usize],
    positions: &[usize],
) -> Result<Vec<usize>, Memory>
    ensures { IfOk result (λ v. v.items ≡ unlisted commalist.now positions.now) }
{
    let mut list = Vec::new(alloc);
    for i in positions {
        if !is_listed(commalist, *i) {
            list.push(*i)?;
        }
    }
    Ok(list)
}

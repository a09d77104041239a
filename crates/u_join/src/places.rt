// Where the keys and the joined values stand in labels.
ghost use Rattle.std.specs.Prelude.{◌≡◌, ◌++◌, ◌+◌, ◌<◌, ◌≤◌, ℕ, length, IfOk};
ghost use Rattle.std.specs.List.{All};
ghost use Rattle.relation_core.specs.Agreement.{common_positions};
ghost use Rattle.relation_core.specs.Parts.{positions_in};
ghost use Rattle.u_row.specs.Kept.{inner};
ghost use Rattle.u_join.specs.Places.{most_of_both, positions_of_both};
ghost use Rattle.u_join.specs.Shared.{left_positions, right_positions};

use crate::names::joined_places;
use crate::shared::paired;
use point_core::Memory;
use relation_core::common_positions;
use std::alloc::Global;
use u_row::inner;
use value_core::{Kind, Name};

/// Where the values beside the common names that are not listed stand in the labels of a heading's rows.
pub(crate) fn key_places(
    alloc: Global,
    heading: &[(Name, Kind)],
    left: &[(Name, Kind)],
    right: &[(Name, Kind)],
    commalist: &[usize],
) -> Result<Vec<usize>, Memory>
    ensures { IfOk result (λ v. v.items ≡ inner commalist.now (common_positions heading.now left.now right.now)) }
{
    let common = common_positions(alloc, heading, left, right)?;
    inner(alloc, commalist, common.as_slice())
}

/// The same of left and of right rows, in pairs.
pub(crate) fn key_pairs(
    alloc: Global,
    left: &[(Name, Kind)],
    right: &[(Name, Kind)],
    here: &[usize],
    there: &[usize],
) -> Result<Vec<(usize, usize)>, Memory>
    requires { length (inner here.now (common_positions left.now left.now right.now)) ≡ length (inner there.now (common_positions right.now left.now right.now)) }
    ensures left { IfOk result (λ v. left_positions v.items ≡ inner here.now (common_positions left.now left.now right.now)) }
    ensures right { IfOk result (λ v. right_positions v.items ≡ inner there.now (common_positions right.now left.now right.now)) }
{
    let ours = key_places(alloc, left, left, right, here)?;
    let theirs = key_places(alloc, right, left, right, there)?;
    paired(alloc, ours.as_slice(), theirs.as_slice())
}

// The positions of the first, which has so many values, and those of the second behind it.
fn positions_of_both(
    alloc: Global,
    size: usize,
    here: &[usize],
    there: &[usize],
) -> Result<Vec<usize>, Memory>
    requires size { size ≤ most_of_both }
    requires there { All (λ (i : ℕ). i ≤ most_of_both) there.now }
    ensures { IfOk result (λ v. v.items ≡ positions_of_both size here.now there.now) }
{
    let mut list = Vec::with_capacity(alloc, here.len())?;
    list.extend_from_slice(here)?;
    for i in there {
        list.push(size + *i)?;
    }
    Ok(list)
}

/// Where the values of joined rows that are not listed stand among those of a left label, followed by those of a right one.
pub(crate) fn label_places(
    alloc: Global,
    left: &[(Name, Kind)],
    right: &[(Name, Kind)],
    heading: &[(Name, Kind)],
    here: &[usize],
    there: &[usize],
) -> Result<Vec<usize>, Memory>
    requires few { length left.now + length right.now ≤ most_of_both }
    requires there { All (λ (i : ℕ). i < length right.now) there.now }
    ensures { IfOk result (λ v. v.items ≡ inner (positions_of_both (length left.now) here.now there.now) (positions_in (left.now ++ right.now) heading.now)) }
{
    let listed = positions_of_both(alloc, left.len(), here, there)?;
    let places = joined_places(alloc, left, right, heading)?;
    inner(alloc, listed.as_slice(), places.as_slice())
}

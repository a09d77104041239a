// Rows that packing leaves as they are.
ghost use Rattle.std.specs.Prelude.{◌≡◌, true, map, IfOk};
ghost use Rattle.value_core.specs.RowPacking.{packed, unpacked};
ghost use Rattle.relation_core.specs.Operators.{united};
ghost use Rattle.u_set.specs.Apart.{outside};
ghost use Rattle.u_set.specs.Boxes.{AreIntervals};

use crate::apart::{Gap, are_apart, are_both_apart};
use crate::positions::is_listed;
use point_core::Memory;
use std::alloc::Global;
use value_core::{Kind, Name, Relation};

/// The positions of the heading's attributes that are not listed: those of a row's label.
pub fn outside(
    alloc: Global,
    heading: &[(Name, Kind)],
    commalist: &[usize],
) -> Result<Vec<usize>, Memory>
    ensures { IfOk result (λ v. v.items ≡ outside commalist.now heading.now) }
{
    let mut list = Vec::new(alloc);
    for (i, _) in heading.iter().enumerate() {
        if !is_listed(commalist, i) {
            list.push(i)?;
        }
    }
    Ok(list)
}

/// Whether the rows of two relations of one heading are seen to stay as they are where they are united under USING of the attributes
/// at the positions: there is one, and no two rows with the same values else have intervals that meet or follow one another.
pub fn stay_apart(
    alloc: Global,
    left: &Relation,
    right: &Relation,
    commalist: &[usize],
) -> Result<bool, Memory>
    requires heading { left.now.heading ≡ right.now.heading }
    requires intervals { AreIntervals left.now.heading commalist.now }
    ensures { IfOk result (λ b. b ≡ true → packed commalist.now (united (unpacked commalist.now left.now.rows) (unpacked commalist.now right.now.rows)) ≡
        united left.now.rows right.now.rows) }
{
    if commalist.len() != 1 {
        return Ok(false);
    }
    let label = outside(alloc, left.heading().attributes(), commalist)?;
    let apart = are_both_apart(alloc, left, right, label.as_slice(), commalist[0], Gap::One)?;
    Ok(apart)
}

/// Whether the rows of the relation are seen to stay as they are where they are packed on the attributes at the positions: there is
/// one, and no two rows with the same values else have intervals that meet or follow one another.
pub fn is_apart(alloc: Global, r: &Relation, commalist: &[usize]) -> Result<bool, Memory>
    requires { AreIntervals r.now.heading commalist.now }
    ensures { IfOk result (λ b. b ≡ true → packed commalist.now r.now.rows ≡ r.now.rows) }
{
    if commalist.len() != 1 {
        return Ok(false);
    }
    let label = outside(alloc, r.heading().attributes(), commalist)?;
    let apart = are_apart(alloc, r, label.as_slice(), commalist[0], Gap::One)?;
    Ok(apart)
}

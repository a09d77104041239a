// Headings of views, and where listed attributes stand in them.
ghost use Rattle.std.specs.Prelude.{◌≡◌, ◌<◌, ◌≤◌, ℕ, [], length, IfOk, IsTrue};
ghost use Rattle.std.specs.List.{All};
ghost use Rattle.std.specs.Ordering.{nat_cmp};
ghost use Rattle.base_core.specs.Sets.{is_set};
ghost use Rattle.value_core.specs.Headings.{most_attributes};
ghost use Rattle.relation_core.specs.Joins.{HaveEqualKinds, joined_heading};
ghost use Rattle.relation_core.specs.Parts.{attributes_at};
ghost use Rattle.kept_views.specs.Kept.{positions_beside};

use point_core::Memory;
use relation_core::{join, project, selection};
use std::alloc::Global;
use value_core::{Heading, Kind, Name, Relation, RowsRefuse, position};

/// Where the attributes at positions among the ones stand among the others.
pub fn positions_beside(
    alloc: Global,
    from: &[(Name, Kind)],
    to: &[(Name, Kind)],
    positions: &[usize],
) -> Result<Vec<usize>, Memory>
    requires { All (λ (i : ℕ). i < length from.now) positions.now }
    ensures { IfOk result (λ v. v.items ≡ positions_beside from.now to.now positions.now) }
{
    let mut list = Vec::with_capacity(alloc, positions.len())?;
    for i in positions {
        list.push(position(to, &from[*i].0))?;
    }
    Ok(list)
}

// The relation without its rows.
fn without_rows(alloc: Global, r: &Relation) -> Result<Relation, Memory>
    ensures heading { IfOk result (λ x. x.heading ≡ r.now.heading) }
    ensures rows { IfOk result (λ x. x.rows ≡ []) }
{
    selection(alloc, r, Vec::new(alloc))
}

/// The attributes of both, as the join of no rows has them.
pub(crate) fn joined_heading(
    alloc: Global,
    left: &Relation,
    right: &Relation,
) -> Result<Heading, Memory>
    requires kinds { HaveEqualKinds left.now.heading right.now.heading }
    requires few { length (joined_heading left.now.heading right.now.heading) ≤ most_attributes }
    ensures { IfOk result (λ h. h ≡ joined_heading left.now.heading right.now.heading) }
{
    let l = without_rows(alloc, left)?;
    let r = without_rows(alloc, right)?;
    match join(alloc, &l, &r) {
        Ok(joined) => joined.heading().copy(alloc),
        Err(RowsRefuse::Memory) => Err(Memory),
        Err(RowsRefuse::TooMany) => unreachable!(),
    }
}

/// The attributes at the positions, as the projection of no rows has them.
pub(crate) fn part_heading(alloc: Global, r: &Relation, kept: &[usize]) -> Result<Heading, Memory>
    requires ascending { IsTrue (is_set nat_cmp kept.now) }
    requires within { All (λ (i : ℕ). i < length r.now.heading) kept.now }
    ensures { IfOk result (λ h. h ≡ attributes_at kept.now r.now.heading) }
{
    let none = without_rows(alloc, r)?;
    let part = project(alloc, &none, kept)?;
    part.heading().copy(alloc)
}

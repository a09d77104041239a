// A few rows beside many: those that the many lack, and those of the many that the few touch.
ghost use Rattle.std.specs.Prelude.{◌≡◌, ◌<◌, ℕ, length, IfOk};
ghost use Rattle.std.specs.List.{All};
ghost use Rattle.relation_core.specs.Growth.{touched, IsSelection};
ghost use Rattle.relation_core.specs.Operators.{subtracted};

use crate::agreement::rows_by_keys;
use crate::merging::keep;
use crate::parts::sorted_parts;
use point_core::Memory;
use std::alloc::Global;
use value_core::{Relation, Row};

/// The rows of few that are not among those of many, each sought there.
pub fn absent(alloc: Global, few: &Relation, many: &Relation) -> Result<Relation, Memory>
    ensures { IfOk result (λ r. (r.heading ≡ few.now.heading) × (r.rows ≡ subtracted few.now.rows many.now.rows)) }
{
    let rows = rows_absent(alloc, few, many)?;
    let relation = selection(alloc, few, rows)?;
    Ok(relation)
}

/// The rows of many whose values at the positions are those of some row of few.
pub fn touched(
    alloc: Global,
    many: &Relation,
    few: &Relation,
    positions: &[usize],
) -> Result<Relation, Memory>
    requires heading { few.now.heading ≡ many.now.heading }
    requires within { All (λ (i : ℕ). i < length many.now.heading) positions.now }
    ensures { IfOk result (λ r. (r.heading ≡ many.now.heading) × (r.rows ≡ touched positions.now few.now.rows many.now.rows)) }
{
    let keys = sorted_parts(alloc, few, positions)?;
    let rows = rows_by_keys(alloc, many, positions, keys.as_slice(), true)?;
    let relation = selection(alloc, many, rows)?;
    Ok(relation)
}

/// The rows of few that are not among those of many.
fn rows_absent(alloc: Global, few: &Relation, many: &Relation) -> Result<Vec<Row>, Memory>
    ensures { IfOk result (λ rows. rows.items ≡ subtracted few.now.rows many.now.rows) }
{
    let given = few.rows();
    let mut rows = Vec::new(alloc);
    for row in given {
        keep(alloc, &mut rows, row, !many.contains(row))?;
    }
    Ok(rows)
}

/// The relation with the heading of another one and some of its rows, in their order: they fit the heading and are few enough, so that
/// nothing is tested.
pub fn selection(alloc: Global, r: &Relation, rows: Vec<Row>) -> Result<Relation, Memory>
    requires { IsSelection r.now.rows rows.items }
    ensures { IfOk result (λ x. (x.heading ≡ r.now.heading) × (x.rows ≡ rows.items)) }
{
    let heading = r.heading().copy(alloc)?;
    let relation = Relation::of_few(heading, rows)?;
    Ok(relation)
}

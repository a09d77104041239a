// Relations on some of the attributes.
ghost use Rattle.std.specs.Prelude.{◌<◌, ℕ, IfOk, IsTrue, length};
ghost use Rattle.std.specs.List.{All};
ghost use Rattle.std.specs.Ordering.{nat_cmp};
ghost use Rattle.base_core.specs.Sets.{is_set};
ghost use Rattle.relation_core.specs.Answers.{IsAnswer};
ghost use Rattle.relation_core.specs.Parts.{attributes_at, projected};

use crate::headings::{attributes_at, heading_of};
use crate::parts::sorted_parts;
use point_core::Memory;
use std::alloc::Global;
use value_core::Relation;

/// The parts of the rows on the attributes at the kept positions, which ascend.
pub fn project(alloc: Global, r: &Relation, kept: &[usize]) -> Result<Relation, Memory>
    requires ascending { IsTrue (is_set nat_cmp kept.now) }
    requires within { All (λ (i : ℕ). i < length r.now.heading) kept.now }
    ensures { IfOk result (IsAnswer (attributes_at kept.now r.now.heading) (projected kept.now r.now.rows)) }
{
    let rows = sorted_parts(alloc, r, kept)?;
    let list = attributes_at(alloc, r.heading().attributes(), kept)?;
    let heading = heading_of(alloc, list)?;
    let relation = Relation::of_few(heading, rows)?;
    Ok(relation)
}

// Joins over all common attributes.
ghost use Rattle.std.specs.Prelude.{◌≡◌, ◌≤◌, MatchResult, length};
ghost use Rattle.base_core.specs.Sets.{has};
ghost use Rattle.value_core.specs.Headings.{most_attributes};
ghost use Rattle.value_core.specs.Values.{Row as PlainRow, row_cmp};
ghost use Rattle.relation_core.specs.Answers.{IsAnswer, IsRefusal};
ghost use Rattle.relation_core.specs.Joins.{joined_heading, HaveEqualKinds, joined, is_joined};

use crate::attributes::joined_heading;
use crate::pairs::joined_pairs;
use std::alloc::Global;
use value_core::{Relation, RowsRefuse};

/// The rows over both headings whose part over the left heading is in the left relation and whose part over the right heading
/// is in the right one. Without common attributes each row of the one stands with each row of the other.
pub fn join(alloc: Global, left: &Relation, right: &Relation) -> Result<Relation, RowsRefuse>
    requires kinds { HaveEqualKinds left.now.heading right.now.heading }
    requires few { length (joined_heading left.now.heading right.now.heading) ≤ most_attributes }
    ensures rows { MatchResult result
        (IsAnswer (joined_heading left.now.heading right.now.heading)
        (joined left.now.heading right.now.heading left.now.rows right.now.rows))
        (IsRefusal (joined left.now.heading right.now.heading left.now.rows right.now.rows)) }
    ensures members { (z : PlainRow) →
        has row_cmp (joined left.now.heading right.now.heading left.now.rows right.now.rows) z
        ≡ is_joined left.now.heading right.now.heading left.now.rows right.now.rows z }
{
    let heading = joined_heading(alloc, left.heading(), right.heading())?;
    let rows = joined_pairs(alloc, left, right, heading.attributes())?;
    let relation = Relation::of_few(heading, rows)?;
    Ok(relation)
}

// The rows of groups.
ghost use Rattle.std.specs.Prelude.{◌≡◌, ◌<◌, ℕ, List, map, length, Ok, IsTrue};
ghost use Rattle.std.specs.List.{All, Contains};
ghost use Rattle.base_core.specs.Outcomes.{then_give};
ghost use Rattle.value_core.specs.Values.{Row as PlainRow, fits_heading};
ghost use Rattle.relation_core.specs.Answers.{Answers, under};
ghost use Rattle.relation_core.specs.Groups.{groups, rows_at, summarized};
ghost use Rattle.tree_core.specs.Trees.{read_aggregate};
ghost use Rattle.meaning_core.specs.Meanings.{limited};
ghost use Rattle.meaning_core.specs.Rows.{group_at, group_row};
ghost use Rattle.meaning_core.specs.Scalars.{AreSummedOver};
ghost use Rattle.meaning_core.specs.Typing.{IsSummary};

use point_core::Stop;
use relation_core::summarize;
use row_making::{Making, aggregate_places, group_row};
use std::alloc::Global;
use tree_core::Aggregates;
use value_core::{Heading, Positions, Relation};

/// A row for each group of the rows that agree at the positions, with the values of the aggregates, or their least fault.
pub(crate) fn summarized(
    alloc: Global,
    r: &Relation,
    heading: &Heading,
    by: &Positions,
    aggregates: &Aggregates,
) -> Result<Relation, Stop>
    requires { (sizes : List ℕ) × IsSummary sizes r.now.heading heading.now by.now (map read_aggregate aggregates.now) }
    ensures { (place : _) → Answers result (under heading.now
        (then_give (summarized by.now (λ numbers. group_row r.now.heading heading.now (map read_aggregate aggregates.now) (rows_at r.now.rows numbers)) r.now.rows) (limited place))) }
{
    let list = aggregates.list.as_slice();
    let at = aggregate_places(alloc, list, r.heading().attributes(), heading.attributes())?;
    let making = Making {
        at: at.as_slice(),
        aggregates: list,
        rows: r.rows(),
    };
    summarized_at(alloc, r, heading.copy(alloc)?, by.list.as_slice(), &making)
}

/// The row of each group, or the least fault.
fn summarized_at(
    alloc: Global,
    r: &Relation,
    heading: Heading,
    by: &[usize],
    making: &Making<'_>,
) -> Result<Relation, Stop>
    requires within { All (λ (i : ℕ). i < length r.now.heading) by.now }
    requires numbers { (g : List ℕ) → Contains (groups by.now r.now.rows) g → All (λ (i : ℕ). i < length making.now.rows.now) g }
    requires typed { AreSummedOver making.now.rows.now (map read_aggregate making.now.aggregates.now) }
    requires fitting { (g : List ℕ) (y : PlainRow) → Contains (groups by.now r.now.rows) g
        → group_at making.now.at.now (map read_aggregate making.now.aggregates.now) (rows_at making.now.rows.now g) ≡ Ok y → IsTrue (fits_heading heading y) }
    ensures { Answers result (under heading (summarized by.now
        (λ g. group_at making.now.at.now (map read_aggregate making.now.aggregates.now) (rows_at making.now.rows.now g)) r.now.rows)) }
{
    let f = move |numbers: &[usize]| group_row(alloc, making, numbers);
    summarize(alloc, r, by, heading, &f)
}

// The rule of a summary: what a group of rows gives.
use point_core::Stop;
use row_making::{Making, group_row};
use std::alloc::Global;
use u_set::label_of;
use u_summarize::GroupRule;
use value_core::Row;

/// The rows of groups, without the values at some positions of theirs.
#[derive(Clone, Copy)]
pub(crate) struct Summary<'a> {
    pub making: Making<'a>,
    pub to: &'a [usize],
}

impl GroupRule for Summary<'_> {
    ghost use Rattle.std.specs.Prelude.{ℕ, ◌<◌, map, length};
    ghost use Rattle.std.specs.List.{All};
    ghost use Rattle.tree_core.specs.Trees.{read_aggregate};
    ghost use Rattle.meaning_core.specs.Scalars.{AreSummedOver};
    ghost use Rattle.eval_using.specs.Labels.{group_label};

    ghost CanApply = { λ rule numbers. All (λ (i : ℕ). i < length rule.making.rows.now) numbers
        × AreSummedOver rule.making.rows.now (map read_aggregate rule.making.aggregates.now) };

    ghost means = { λ rule numbers. group_label rule.to.now rule.making.at.now (map read_aggregate rule.making.aggregates.now) rule.making.rows.now numbers };

    fn apply(&self, alloc: Global, rows: &[usize]) -> Result<Row, Stop> {
        let row = group_row(alloc, &self.making, rows)?;
        let label = label_of(alloc, row.values(), self.to)?;
        Ok(label)
    }
}

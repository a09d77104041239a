// A rule of groups, asked at cells.
ghost use Rattle.std.specs.Prelude.{◌≡◌, ℕ, List};

use crate::firsts::firsts_at;
use crate::rule::GroupRule;
use cell_boxes::CellRule;
use point_core::Stop;
use std::alloc::Global;
use value_core::Row;

/// What a rule gives of rows that stand by their keys: of each the number among the caller's rows, and of each of these its label's rank.
#[derive(Clone, Copy)]
pub(crate) struct Asking<'a, G: GroupRule> {
    pub rule: &'a G,
    pub ranks: &'a [usize],
    pub numbers: &'a [usize],
}

impl<'a, G: GroupRule> CellRule for Asking<'a, G> {
    ghost use Rattle.std.specs.Prelude.{◌≡◌, ◌≢◌, ℕ, ◌<◌, List, [], length};
    ghost use Rattle.std.specs.List.{All};
    ghost use Rattle.u_summarize.specs.Asked.{asked, first_ones, numbers_at};

    type Out = Row;

    ghost CanApply = { λ op a. (a ≢ [] → G.CanApply op.rule.now (first_ones op.ranks.now (numbers_at op.numbers.now a)))
        × All (λ (i : ℕ). i < length op.numbers.now) a × All (λ (i : ℕ). i < length op.ranks.now) op.numbers.now };

    ghost means = { λ op a. asked (G.means op.rule.now) op.ranks.now op.numbers.now a };

    fn apply(&self, alloc: Global, rows: &[usize]) -> Result<Vec<Row>, Stop> {
        let mut list = Vec::new(alloc);
        if rows.is_empty() {
            return Ok(list);
        }
        let firsts = firsts_at(alloc, self.ranks, self.numbers, rows)?;
        let label = self.rule.apply(alloc, firsts.as_slice())?;
        list.push(label)?;
        Ok(list)
    }
}

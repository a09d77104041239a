// A rule by the labels of rows, each counted once.
ghost use Rattle.std.specs.Prelude.{◌≡◌, ℕ, ◌+◌, ◌<◌, ◌^◌, Bool, true, false, List, length, get_or, set, Result, Ok, Err, IfOk, eqb};
ghost use Rattle.point_core.specs.declared.fault.Fault.{Fault as AnyFault};

use crate::tally_rule::GroupTally;
use cell_boxes::Tally;
use point_core::{Label, Memory, Stop};
use std::alloc::Global;
use value_core::Row;

/// What is kept of rows of which each has a number that stands for its label: how many are in, how many have each number,
/// and what a rule keeps of the numbers that some has.
#[derive(Drop)]
pub(crate) struct Counted<S> {
    pub total: usize,
    pub counts: Vec<usize>,
    pub state: S,
}

/// The numbers of rows, below another number, and the rule.
#[derive(Drop)]
pub(crate) struct Counting<'a, G: GroupTally> {
    pub rule: &'a G,
    pub numbers: Vec<usize>,
    pub rows: usize,
}

// So many zeros.
fn zeros(alloc: Global, rows: usize) -> Result<Vec<usize>, Memory>
    ensures many { IfOk result (λ v. length v.items ≡ rows) }
    ensures each { IfOk result (λ v. (m : ℕ) → get_or v.items m 0 ≡ 0) }
{
    let counts = vec![in alloc; 0; rows]?;
    Ok(counts)
}

impl<'a, G: GroupTally> Tally for Counting<'a, G> {
    ghost use Rattle.std.specs.Prelude.{◌≡◌, ℕ, ◌≤◌, ◌<◌, length};
    ghost use Rattle.std.specs.List.{All};
    ghost use Rattle.u_summarize.specs.Counts.{IsCounted, image, counted_means, none_means};

    type Key = Row;

    type State = Counted<G::State>;

    type Out = Row;

    ghost Takes = { λ t n. (n ≡ length t.numbers.items) × G.Takes t.rule.now t.rows × All (λ (m : ℕ). m < t.rows) t.numbers.items };

    ghost IsOf = { λ t s f. IsCounted t.rows t.numbers.items s.total s.counts.items f × G.IsOf t.rule.now s.state (image t.rows t.numbers.items f) × All (λ (m : ℕ). m < t.rows) t.numbers.items };

    ghost means = { λ t k f. counted_means (G.given t.rule.now k) t.rows t.numbers.items f };

    fn start(&self, alloc: Global, _rows: usize) -> Result<Counted<G::State>, Memory> {
        let counts = zeros(alloc, self.rows)?;
        let state = self.rule.start(alloc, self.rows)?;
        Ok(Counted {
            total: 0,
            counts,
            state,
        })
    }

    fn enter(&self, state: Counted<G::State>, row: usize) -> Result<Counted<G::State>, Memory> {
        let number = self.numbers[row];
        let Counted {
            total,
            counts: mut counts,
            state: kept,
        } = state;
        let before = counts[number];
        counts[number] = before + 1;
        if before > 0 {
            return Ok(Counted {
                total: total + 1,
                counts,
                state: kept,
            });
        }
        let next = self.rule.enter(kept, number)?;
        Ok(Counted {
            total: total + 1,
            counts,
            state: next,
        })
    }

    fn leave(&self, state: Counted<G::State>, row: usize) -> Result<Counted<G::State>, Memory> {
        let number = self.numbers[row];
        let Counted {
            total,
            counts: mut counts,
            state: kept,
        } = state;
        let before = counts[number];
        counts[number] = before - 1;
        if before > 1 {
            return Ok(Counted {
                total: total - 1,
                counts,
                state: kept,
            });
        }
        let next = self.rule.leave(kept, number)?;
        Ok(Counted {
            total: total - 1,
            counts,
            state: next,
        })
    }

    fn label(
        &self,
        alloc: Global,
        key: &Row,
        state: &Counted<G::State>,
    ) -> Result<Option<Row>, Stop> {
        if state.total == 0 {
            return Ok(None);
        }
        match self.rule.label(alloc, key, &state.state) {
            Ok(label) => Ok(Some(label)),
            Err(stop) => Err(stop),
        }
    }

    ghost nothing = { λ t k f none. none_means (G.given t.rule.now k) t.rows t.numbers.items f none };
}

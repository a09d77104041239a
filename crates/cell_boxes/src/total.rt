// A count and a sum of the rows that are in.
ghost use Rattle.std.specs.Prelude.{◌≡◌, ℕ, ◌+◌, ◌<◌, ◌^◌, ℤ, pos, neg_ℤ, ◌+ℤ◌, ◌-ℤ◌, ◌≤ℤ◌, ◌<ℤ◌, Result, Ok, Err, IfOk};
ghost use Rattle.point_core.specs.declared.fault.Fault.{Fault as AnyFault};

use crate::tally::Tally;
use point_core::{Label, Memory, Stop};
use std::alloc::Global;

/// What a key, the count of its rows and the sum of their values give.
pub trait TotalRule {
    type Key: Label;

    type Out: Label;

    /// The label, or a fault: as where the sum is out of a range.
    ghost means: { Self → Self.Key → ℕ → ℤ → Result Self.Out AnyFault };

    fn label(
        &self,
        alloc: Global,
        key: &Self::Key,
        count: usize,
        sum: i128,
    ) -> Result<Self::Out, Stop>
        ensures answer { IfOk result (λ l. means self.now key.now count sum ≡ Ok l) }
        ensures fault { (e : AnyFault) → result ≡ Err (Stop.Fault e) → means self.now key.now count sum ≡ Err e };
}

/// How many rows are in, and the sum of their values.
#[derive(Drop)]
pub struct Total {
    pub count: usize,
    pub sum: i128,
}

/// A value for each row, and what the rule gives of the count and of the exact sum of those that are in.
#[derive(Drop)]
pub struct Totals<A> {
    pub values: Vec<i64>,
    pub rule: A,
}

// The total with one value more.
fn with(total: Total, value: i64) -> Total
    requires count { total.count + 1 < 2 ^ 64 }
    requires least { neg_ℤ (pos (2 ^ 127)) ≤ℤ (total.sum +ℤ value) }
    requires most { (total.sum +ℤ value) <ℤ pos (2 ^ 127) }
    ensures count { result.count ≡ total.count + 1 }
    ensures sum { result.sum ≡ total.sum +ℤ value }
{
    Total {
        count: total.count + 1,
        sum: total.sum + i128::from(value),
    }
}

// The total with one value less.
fn without(total: Total, value: i64) -> Total
    requires count { 0 < total.count }
    requires least { neg_ℤ (pos (2 ^ 127)) ≤ℤ (total.sum -ℤ value) }
    requires most { (total.sum -ℤ value) <ℤ pos (2 ^ 127) }
    ensures count { result.count + 1 ≡ total.count }
    ensures sum { result.sum ≡ total.sum -ℤ value }
{
    Total {
        count: total.count - 1,
        sum: total.sum - i128::from(value),
    }
}

impl<A: TotalRule> Tally for Totals<A> {
    ghost use Rattle.std.specs.Prelude.{ℕ, ◌≤◌, length};
    ghost use Rattle.cell_boxes.specs.Totals.{IsTotal, of_total, nothing_none};

    type Key = A::Key;

    type State = Total;

    type Out = A::Out;

    ghost Takes = { λ t n. n ≤ length t.values.items };

    ghost IsOf = { λ t s f. IsTotal t.values.items s.count s.sum f };

    ghost means = { λ t k f. of_total (A.means t.rule k) t.values.items f };

    fn start(&self, _alloc: Global, _rows: usize) -> Result<Total, Memory> {
        Ok(Total { count: 0, sum: 0 })
    }

    fn enter(&self, state: Total, row: usize) -> Result<Total, Memory> {
        let value = self.values[row];
        Ok(with(state, value))
    }

    fn leave(&self, state: Total, row: usize) -> Result<Total, Memory> {
        let value = self.values[row];
        Ok(without(state, value))
    }

    fn label(&self, alloc: Global, key: &A::Key, state: &Total) -> Result<Option<A::Out>, Stop> {
        if state.count == 0 {
            return Ok(None);
        }
        match self.rule.label(alloc, key, state.count, state.sum) {
            Ok(label) => Ok(Some(label)),
            Err(stop) => Err(stop),
        }
    }

    ghost nothing = { λ t k f none. nothing_none (A.means t.rule k) t.values.items f none };
}

// What is done with the rows that cover a cell.
ghost use Rattle.std.specs.Prelude.{◌≡◌, ℕ, ◌+◌, List, Result, Ok, Err, IfOk};
ghost use Rattle.std.specs.List.Sorted.{IsStrictlySortedBy};
ghost use Rattle.point_core.specs.declared.fault.Fault.{Fault as AnyFault};

use point_core::{Label, Steps, Stop};
use std::alloc::Global;
use std::sync::ledger::Ledger;

/// A function of the numbers of the covering rows, left and right.
pub trait CellOp {
    type Out: Label;

    /// The row numbers on which it can be called.
    ghost CanApply: { Self → List ℕ → List ℕ → Type 0 };

    /// The labels, or a fault.
    ghost means: { Self → List ℕ → List ℕ → Result (List Self.Out) AnyFault };

    fn apply<L: Ledger>(
        &self,
        alloc: Global,
        left: &[usize],
        right: &[usize],
        steps: &mut Steps<L>,
    ) -> Result<Vec<Self::Out>, Stop>
        requires { CanApply self.now left.now right.now }
        ensures answer { IfOk result (λ v. means self.now left.now right.now ≡ Ok v.items) }
        ensures fault { (e : AnyFault) → result ≡ Err (Stop.Fault e) → means self.now left.now right.now ≡ Err e }
        ensures cost { steps.new ≡ steps.old + 1 };

    /// The labels are distinct and in order.
    ghost in_order: { (op : Self) (a b : List ℕ) (v : List Self.Out) → CanApply op a b → means op a b ≡ Ok v → IsStrictlySortedBy Self.Out.order v };
}

// A rule of the rows that have a place.
ghost use Rattle.std.specs.Prelude.{◌≡◌, ◌⊎◌, ℕ, List, [], map, Some, Result, Ok, Err, OnOk, IfOk};
ghost use Rattle.point_core.specs.declared.fault.Fault.{Fault as AnyFault};
ghost use Rattle.point_core.specs.LeastFault.{IsLeast};
ghost use Rattle.cell_sweep.specs.Rows.{no_sides, labels_of, GivesFault};

use cell_sweep::{CellBox, without_labels};
use point_core::{Fault, Label, Memory, Stop};
use std::alloc::Global;

/// A function of the ascending numbers of the rows that have a place. It is handed no counter, so it takes no step.
pub trait CellRule {
    type Out: Label;

    /// The row numbers on which it can be called.
    ghost CanApply: { Self → List ℕ → Type 0 };

    /// The labels, or a fault.
    ghost means: { Self → List ℕ → Result (List Self.Out) AnyFault };

    fn apply(&self, alloc: Global, rows: &[usize]) -> Result<Vec<Self::Out>, Stop>
        requires { CanApply self.now rows.now }
        ensures answer { IfOk result (λ v. means self.now rows.now ≡ Ok v.items) }
        ensures fault { (e : AnyFault) → result ≡ Err (Stop.Fault e) → means self.now rows.now ≡ Err e };
}

/// The labels at a place of no sides.
pub(crate) fn labels_at<O: CellRule>(
    alloc: Global,
    live: &[usize],
    rule: &O,
    least: &mut Option<Fault>,
) -> Result<Vec<CellBox<O::Out>>, Memory>
    requires can { O.CanApply rule.now live.now }
    ensures rows { IfOk result (λ v. v.items ≡ map no_sides (labels_of (O.means rule.now live.now))) }
    ensures least { OnOk result (IsLeast (λ e. (least.old ≡ Some e) ⊎ GivesFault (λ a b. O.means rule.now a) 0 e live.now []) least.new) }
{
    match rule.apply(alloc, live) {
        Ok(labels) => {
            let rows = without_labels(alloc, labels)?;
            Ok(rows)
        }
        Err(Stop::Fault(e)) => {
            *least = Some(Fault::least_of(*least, e));
            Ok(Vec::new(alloc))
        }
        Err(Stop::Memory) => Err(Memory),
    }
}

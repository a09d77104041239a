// A rule that is applied to groups of rows.
ghost use Rattle.std.specs.Prelude.{◌≡◌, ℕ, List, Result, Ok, Err, IfOk};
ghost use Rattle.point_core.specs.declared.fault.Fault.{Fault as AnyFault};
ghost use Rattle.value_core.specs.Values.{Row as PlainRow};

use point_core::Stop;
use std::alloc::Global;
use value_core::Row;

/// A function of a nonempty list of ascending row numbers.
pub trait GroupRule {
    /// The lists of row numbers on which it can be called.
    ghost CanApply: { Self → List ℕ → Type 0 };

    /// What it gives for the rows: the whole new label, or a fault.
    ghost means: { Self → List ℕ → Result PlainRow AnyFault };

    fn apply(&self, alloc: Global, rows: &[usize]) -> Result<Row, Stop>
        requires { CanApply self.now rows.now }
        ensures answer { IfOk result (λ l. means self.now rows.now ≡ Ok l) }
        ensures fault { (e : AnyFault) → result ≡ Err (Stop.Fault e) → means self.now rows.now ≡ Err e };
}

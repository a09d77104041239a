// What labels a box.
ghost use Rattle.std.specs.Prelude.{◌≡◌, IfOk};
ghost use Rattle.std.specs.Cmp.{IsTotalOrder};
ghost use Rattle.std.specs.declared.cmp.Ordering.{Ordering};
ghost use Rattle.std.specs.declared.cmp.Ordering.TheVariants.{Equal};

use crate::memory::Memory;
use std::alloc::Global;
use std::cmp::Ordering;

/// What labels a box: values in a total order, in which only equal ones tie.
pub trait Label: Sized + Drop {
    /// The order of two labels.
    ghost order: { Self → Self → Ordering };

    /// The place of this label against another in the order.
    fn compare(&self, other: &Self) -> Ordering
        ensures { result ≡ order self.now other.now };

    /// An equal label.
    fn copy(&self, alloc: Global) -> Result<Self, Memory>
        ensures { IfOk result (λ label. label ≡ self.now) };

    ghost total: { IsTotalOrder order };

    /// Labels that tie are equal.
    ghost separates: { (a b : Self) → order a b ≡ Equal → a ≡ b };
}

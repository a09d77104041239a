// A rule that is applied to each row for itself.
ghost use Rattle.std.specs.Prelude.{◌≡◌, ℕ, ◌<◌, ℤ, ◌≤ℤ◌, List, map, length, get_or, Result, Ok, Err, Option, IfOk};
ghost use Rattle.std.specs.List.{All};
ghost use Rattle.point_core.specs.declared.fault.Fault.{Fault as AnyFault};
ghost use Rattle.interval_core.specs.Members.{Span, HasEndsIn};
ghost use Rattle.cell_packing.specs.Covering.{Among};
ghost use Rattle.cell_packing.specs.Packed.{Has, firsts};
ghost use Rattle.value_core.specs.Values.{Row as PlainRow};
ghost use Rattle.cell_core.specs.Boxes.{IsBox};
ghost use Rattle.cell_core.specs.Cells.{box_numbers};
ghost use Rattle.u_row.specs.Cutting.{AreCuts, cells_of};

use interval_core::Interval;
use point_core::{Memory, PointType, Stop};
use std::alloc::Global;
use value_core::Row;

/// For each row number a function of one point for each side, which is the same at all points of a cell. The cells of a row are
/// its sides cut at the rule's cuts.
pub trait RowRule<T: PointType> {
    /// The row numbers on which it can be called.
    ghost CanApply: { Self → ℕ → Type 0 };

    /// The row's sides.
    ghost sides: { Self → ℕ → List (T.Point × T.Point) };

    /// The numbers before which a side of the row is cut.
    ghost cuts_of: { Self → ℕ → ℕ → List ℤ };

    /// What it gives for a row at a place: a new label, none, or a fault.
    ghost means: { Self → ℕ → List ℤ → Result (Option PlainRow) AnyFault };

    /// The points before which the side is cut.
    fn cuts(&self, alloc: Global, row: usize, side: usize) -> Result<Vec<T::Point>, Memory>
        requires can { CanApply self.now row }
        requires side { side < length (sides self.now row) }
        ensures cuts { IfOk result (λ v. map T.number_of v.items ≡ cuts_of self.now row side) }
        ensures points { IfOk result (λ v. (t : T) (d : T.Point × T.Point) →
            HasEndsIn T.IsPoint t (get_or (sides self.now row) side d) → All (T.IsPoint t) v.items) };

    /// What it gives on a cell.
    fn apply(&self, alloc: Global, row: usize, at: &[Interval<T>]) -> Result<Option<Row>, Stop>
        requires can { CanApply self.now row }
        requires cell { Among (box_numbers T.number_of at.now) (cells_of (cuts_of self.now row) (box_numbers T.number_of (sides self.now row))) }
        requires points { (types : List T) × IsBox T.IsPoint types (sides self.now row) × IsBox T.IsPoint types at.now }
        ensures answer { IfOk result (λ o. means self.now row (firsts (box_numbers T.number_of at.now)) ≡ Ok o) }
        ensures fault { (e : AnyFault) → result ≡ Err (Stop.Fault e) → means self.now row (firsts (box_numbers T.number_of at.now)) ≡ Err e };

    /// A side has a point.
    ghost ordered: { (rule : Self) (row side : ℕ) (d : T.Point × T.Point) → CanApply rule row → side < length (sides rule row) →
        T.number_of (get_or (sides rule row) side d).0 ≤ℤ T.number_of (get_or (sides rule row) side d).1 };

    /// The cuts ascend, after the side's first point and not after its last.
    ghost inside: { (rule : Self) (row side : ℕ) (d : T.Point × T.Point) → CanApply rule row → side < length (sides rule row) →
        AreCuts (T.number_of (get_or (sides rule row) side d).0) (T.number_of (get_or (sides rule row) side d).1) (cuts_of rule row side) };

    /// It gives the same at all places of a cell.
    ghost steady: { (rule : Self) (row : ℕ) (cell : List Span) (ps qs : List ℤ) → CanApply rule row →
        Among cell (cells_of (cuts_of rule row) (box_numbers T.number_of (sides rule row))) → Has cell ps → Has cell qs →
        means rule row ps ≡ means rule row qs };
}

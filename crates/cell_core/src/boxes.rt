// Boxes of intervals, with labels.
ghost use Rattle.std.specs.Prelude.{◌≡◌, IfOk};
ghost use Rattle.cell_core.specs.declared.boxes.CellRefuse.TheVariants.{Memory as OfMemory};

use interval_core::Interval;
use point_core::{Fault, Memory, PointType};
use std::alloc::{AllocError, AllocFailed, Global};
use std::marker::Model;

/// One interval for each type; it is seen as the list of their ends.
#[derive(Drop)]
pub struct Sides<T: PointType> {
    pub list: Vec<Interval<T>>,
}

impl<T: PointType> Model for Sides<T> {
    ghost use Rattle.std.specs.Prelude.{List};

    ghost Value = { List (T.Point × T.Point) };

    ghost view = { λ s. s.list.items };
}

impl<T: PointType> Sides<T> {
    /// The same intervals.
    pub fn copy(&self, alloc: Global) -> Result<Sides<T>, Memory>
        ensures { IfOk result (λ v. v ≡ self.now) }
    {
        let mut list = Vec::with_capacity(alloc, self.list.len())?;
        for side in &self.list {
            let interval = side.copy();
            list.push(interval)?;
        }
        Ok(Sides { list })
    }
}

/// A label over a box; it is seen as this pair.
#[derive(Drop)]
pub struct BoxRow<T: PointType, P> {
    pub label: P,
    pub sides: Sides<T>,
}

impl<T: PointType, P> Model for BoxRow<T, P> {
    ghost use Rattle.std.specs.Prelude.{List};

    ghost Value = { P × List (T.Point × T.Point) };

    ghost view = { λ r. (r.label, r.sides) };
}

#[derive(Drop)]
pub enum CellRefuse {
    Op(Fault),
    Limit,
    Memory,
}

impl From<Memory> for CellRefuse {
    ghost from_gives = { λ _ r. r ≡ OfMemory };

    fn from(_: Memory) -> CellRefuse {
        CellRefuse::Memory
    }
}

impl From<AllocError> for CellRefuse {
    ghost from_gives = { λ _ r. r ≡ OfMemory };

    fn from(_: AllocError) -> CellRefuse {
        CellRefuse::Memory
    }
}

impl<T: Drop> From<AllocFailed<T>> for CellRefuse {
    ghost from_gives = { λ _ r. r ≡ OfMemory };

    fn from(_: AllocFailed<T>) -> CellRefuse {
        CellRefuse::Memory
    }
}

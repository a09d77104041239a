// Boxes cut into cells.
ghost use Rattle.std.specs.Prelude.{◌≡◌, ℕ, ◌+◌, ◌≤◌, ◌++◌, ◌∷◌, List, map, flat_map, length, IfOk, OnOk};
ghost use Rattle.std.specs.List.{All};
ghost use Rattle.interval_core.specs.Members.{HasEndsIn};
ghost use Rattle.cell_core.specs.Boxes.{IsBox};
ghost use Rattle.cell_core.specs.Numbering.{numbers_of};
ghost use Rattle.u_row.specs.Cutting.{AreCuts, pieces};

use cell_core::Sides;
use interval_core::Interval;
use point_core::{Memory, PointType, Steps};
use std::alloc::Global;
use std::sync::ledger::Ledger;

/// The interval cut before each of the cuts. It costs a step for each cut.
pub(crate) fn pieces_of<T: PointType, L: Ledger>(
    alloc: Global,
    t: &T,
    side: &Interval<T>,
    cuts: &[T::Point],
    steps: &mut Steps<L>,
) -> Result<Vec<Interval<T>>, Memory>
    requires side { HasEndsIn T.IsPoint t.now side.now }
    requires points { All (T.IsPoint t.now) cuts.now }
    requires cuts { AreCuts (T.number_of side.now.0) (T.number_of side.now.1) (map T.number_of cuts.now) }
    ensures pieces { IfOk result (λ v. map (numbers_of T.number_of) v.items ≡
        pieces (T.number_of side.now.0) (T.number_of side.now.1) (map T.number_of cuts.now)) }
    ensures points { IfOk result (λ v. All (HasEndsIn T.IsPoint t.now) v.items) }
    ensures cost { steps.new ≤ steps.old + length cuts.now }
{
    let mut out = Vec::new(alloc);
    let mut begin = side.begin();
    for cut in cuts {
        let piece = Interval::until(t, begin, *cut, steps);
        out.push(piece)?;
        begin = *cut;
    }
    out.push(Interval::of(begin, side.end()))?;
    Ok(out)
}

// The box with the piece before its first side.
fn with_first<T: PointType>(
    alloc: Global,
    piece: &Interval<T>,
    sides: &Sides<T>,
) -> Result<Sides<T>, Memory>
    ensures { IfOk result (λ v. v ≡ piece.now ∷ sides.now) }
{
    let mut list = Vec::with_capacity(alloc, sides.list.len().saturating_add(1))?;
    list.push(piece.copy())?;
    for side in &sides.list {
        list.push(side.copy())?;
    }
    Ok(Sides { list })
}

// Adds the boxes with the piece before their first side.
fn push_with<T: PointType>(
    alloc: Global,
    out: &mut Vec<Sides<T>>,
    piece: &Interval<T>,
    rest: &[Sides<T>],
) -> Result<(), Memory>
    ensures { OnOk result (out.new.items ≡ out.old.items ++ map (λ s. piece.now ∷ s) rest.now) }
{
    for sides in rest {
        let longer = with_first(alloc, piece, sides)?;
        out.push(longer)?;
    }
    Ok(())
}

/// The boxes, each with each of the pieces before its first side.
pub(crate) fn with_each<T: PointType>(
    alloc: Global,
    pieces: &[Interval<T>],
    rest: &[Sides<T>],
) -> Result<Vec<Sides<T>>, Memory>
    ensures { IfOk result (λ v. v.items ≡ flat_map (λ i. map (λ s. i ∷ s) rest.now) pieces.now) }
{
    let mut out = Vec::new(alloc);
    for piece in pieces {
        push_with(alloc, &mut out, piece, rest)?;
    }
    Ok(out)
}

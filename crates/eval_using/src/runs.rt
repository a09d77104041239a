// Parts of an interval, and the runs that parts make where one follows the other.
ghost use Rattle.std.specs.Prelude.{◌≡◌, ◌↔◌, ◌⊎◌, ℤ, pos, ◌+ℤ◌, ◌<ℤ◌, true, map, OnOk, IfOk};
ghost use Rattle.std.specs.List.{All};
ghost use Rattle.point_core.specs.Points.{number, IsPointOf};
ghost use Rattle.point_core.specs.declared.any_type.AnyType.{AnyType};
ghost use Rattle.interval_core.specs.Members.{HasEndsIn};
ghost use Rattle.cell_core.specs.Cells.{box_numbers};
ghost use Rattle.cell_core.specs.Numbering.{numbers_of};
ghost use Rattle.scalar_core.specs.AtPlaces.{IsWithin};
ghost use Rattle.u_row.specs.Cutting.{AreCuts, pieces};
ghost use Rattle.eval_using.specs.Holding.{InSpans};

use interval_core::Interval;
use point_core::{AnyPoint, AnyType, Memory};
use std::alloc::Global;

// The interval from `begin` up to the point before `cut`.
fn until(t: &AnyType, begin: AnyPoint, cut: AnyPoint) -> Interval<AnyType>
    requires begin { IsPointOf t.now begin }
    requires cut { IsPointOf t.now cut }
    requires before { number begin <ℤ number cut }
    ensures begin { result.0 ≡ begin }
    ensures point { IsPointOf t.now result.1 }
    ensures end { number result.1 +ℤ pos 1 ≡ number cut }
{
    match Interval::of(cut, cut).pre(t) {
        Some(last) => Interval::of(begin, last),
        None => unreachable!(),
    }
}

/// The interval cut before each of the points.
pub(crate) fn parts_of(
    alloc: Global,
    t: &AnyType,
    side: &Interval<AnyType>,
    cuts: &[AnyPoint],
) -> Result<Vec<Interval<AnyType>>, Memory>
    requires side { HasEndsIn IsPointOf t.now side.now }
    requires points { All (IsPointOf t.now) cuts.now }
    requires cuts { AreCuts (number side.now.0) (number side.now.1) (map number cuts.now) }
    ensures parts { IfOk result (λ v. box_numbers number v.items ≡ pieces (number side.now.0) (number side.now.1) (map number cuts.now)) }
    ensures points { IfOk result (λ v. All (HasEndsIn IsPointOf t.now) v.items) }
{
    let mut out = Vec::with_capacity(alloc, 1)?;
    let mut begin = side.begin();
    for cut in cuts {
        let part = until(t, begin, *cut);
        out.push(part)?;
        begin = *cut;
    }
    out.push(Interval::of(begin, side.end()))?;
    Ok(out)
}

// Whether the part begins directly after the end of the run.
fn follows(run: &Interval<AnyType>, part: &Interval<AnyType>) -> bool
    ensures { result ≡ true → number run.now.1 +ℤ pos 1 ≡ number part.now.0 }
{
    i128::from(run.end().number()) + 1 == i128::from(part.begin().number())
}

// The run up to the end of the part, which follows it.
fn longer(run: &Interval<AnyType>, part: &Interval<AnyType>) -> Interval<AnyType>
    requires { number run.now.1 +ℤ pos 1 ≡ number part.now.0 }
    ensures ends { result ≡ (run.now.0, part.now.1) }
    ensures numbers { (p : ℤ) → IsWithin (numbers_of number result) p ↔ IsWithin (numbers_of number run.now) p ⊎ IsWithin (numbers_of number part.now) p }
{
    Interval::of(run.begin(), part.end())
}

/// Adds the part to the runs: to the last of them where it follows that one.
pub(crate) fn add_part(
    runs: &mut Vec<Interval<AnyType>>,
    part: &Interval<AnyType>,
) -> Result<(), Memory>
    ensures numbers { OnOk result ((p : ℤ) → InSpans (box_numbers number runs.new.items) p ↔
        InSpans (box_numbers number runs.old.items) p ⊎ IsWithin (numbers_of number part.now) p) }
    ensures points { (t : AnyType) → HasEndsIn IsPointOf t part.now →
        OnOk result (All (HasEndsIn IsPointOf t) runs.old.items → All (HasEndsIn IsPointOf t) runs.new.items) }
{
    let count = runs.len();
    if count > 0 && follows(&runs[count - 1], part) {
        runs[count - 1] = longer(&runs[count - 1], part);
        return Ok(());
    }
    runs.push(part.copy())?;
    Ok(())
}

// Restriction under USING of one attribute, row by row: what is left of a row are rows with runs of its interval.
ghost use Rattle.std.specs.Prelude.{◌≡◌, ◌↔◌, ◌⊎◌, ◌++◌, ℤ, ◌∷◌, [], List, map, true, Ok, Err, Some, IfOk, OnOk, IsTrue};
ghost use Rattle.std.specs.List.{All};
ghost use Rattle.base_core.specs.Outcomes.{then_give};
ghost use Rattle.point_core.specs.Points.{number, IsPointOf};
ghost use Rattle.point_core.specs.declared.any_type.AnyType.{AnyType};
ghost use Rattle.interval_core.specs.Members.{HasEndsIn};
ghost use Rattle.cell_packing.specs.Boxed.{InBoxes};
ghost use Rattle.cell_packing.specs.Packed.{Has};
ghost use Rattle.value_core.specs.Attributes.{value_at, span_of, put_span};
ghost use Rattle.value_core.specs.Relations.{all_fit};
ghost use Rattle.value_core.specs.RowPacking.{packed, unpacked};
ghost use Rattle.value_core.specs.Values.{Row as PlainRow, Heading as PlainHeading, fits_heading};
ghost use Rattle.value_core.specs.declared.kind.Kind.TheVariants.{Truth};
ghost use Rattle.scalar_core.specs.AtPlaces.{IsWithin};
ghost use Rattle.scalar_core.specs.Expressions.{read};
ghost use Rattle.scalar_core.specs.Kinds.{IsTyped};
ghost use Rattle.scalar_core.specs.Sweeping.{IsSweepable};
ghost use Rattle.relation_core.specs.Answers.{under};
ghost use Rattle.relation_core.specs.Operators.{restricted};
ghost use Rattle.relation_core.specs.Parts.{kind_at};
ghost use Rattle.point_core.specs.LeastFault.{IsLeast};
ghost use Rattle.cell_core.specs.Cells.{box_numbers};
ghost use Rattle.cell_core.specs.Numbering.{numbers_of};
ghost use Rattle.u_set.specs.Boxes.{AreIntervals, boxed, spans_at, type_of};
ghost use Rattle.u_row.specs.Rules.{InRule, HasRuleFault};
ghost use Rattle.meaning_core.specs.Meanings.{condition, limited};
ghost use Rattle.meaning_core.specs.Scalars.{IsConditionOver};
ghost use Rattle.eval_using.specs.Answered.{AnswersIf};
ghost use Rattle.eval_using.specs.Holding.{at_number, InSpans, HoldsIn, FailsIn, CanAsk, IsPart};
ghost use Rattle.eval_using.specs.Moved.{IsMoved};
ghost use Rattle.eval_using.specs.Swept.{met, swept, swept_rows};

use crate::faults::{least_so_far, or_fault_if};
use crate::moved::{at_first, interval_at, type_at, with_interval};
use crate::runs::{add_part, parts_of};
use interval_core::Interval;
use point_core::{AnyType, Fault, Label, Memory, Place, Stop};
use row_making::holds;
use scalar_core::{Scalar, cuts};
use std::alloc::Global;
use u_set::coalesced;
use value_core::{Kind, Name, Relation, Row};

// A condition, and the position of the interval at whose points it is asked.
#[derive(Clone, Copy)]
struct Asked<'a> {
    c: &'a Scalar,
    at: usize,
}

// Adds the part to the runs where the condition holds of the row there. A fault counts where it is the least.
fn ask(
    alloc: Global,
    c: &Scalar,
    there: &Row,
    part: &Interval<AnyType>,
    runs: &mut Vec<Interval<AnyType>>,
    least: &mut Option<Fault>,
) -> Result<(), Memory>
    requires { IsConditionOver there.now (read c.now) }
    ensures runs { OnOk result ((p : ℤ) → InSpans (box_numbers number runs.new.items) p ↔ InSpans (box_numbers number runs.old.items) p ⊎
        (IsWithin (numbers_of number part.now) p × (condition (read c.now) there.now ≡ Ok true))) }
    ensures points { (t : AnyType) → HasEndsIn IsPointOf t part.now →
        OnOk result (All (HasEndsIn IsPointOf t) runs.old.items → All (HasEndsIn IsPointOf t) runs.new.items) }
    ensures least { OnOk result (IsLeast (λ e. (least.old ≡ Some e) ⊎ (condition (read c.now) there.now ≡ Err e)) least.new) }
{
    match holds(alloc, c, there) {
        Ok(true) => add_part(runs, part),
        Ok(false) => Ok(()),
        Err(Stop::Fault(e)) => {
            *least = Some(least_so_far(*least, e));
            Ok(())
        }
        Err(Stop::Memory) => Err(Memory),
    }
}

// The runs of the parts at whose first points the condition holds, and a copy of the row that was asked there. The least fault there
// counts where it is the least.
fn runs_of(
    alloc: Global,
    asked: Asked<'_>,
    row: &Row,
    parts: &[Interval<AnyType>],
    least: &mut Option<Fault>,
) -> Result<(Vec<Interval<AnyType>>, Row), Memory>
    requires can { (heading : PlainHeading) × CanAsk heading asked.at (read asked.c.now) row.now × All (IsPart heading asked.at row.now) parts.now }
    ensures runs { IfOk result (λ v. (p : ℤ) → InSpans (box_numbers number v.0.items) p ↔ HoldsIn (read asked.entry.c.now) asked.entry.at row.now (box_numbers number parts.now) p) }
    ensures points { (t : AnyType) → All (HasEndsIn IsPointOf t) parts.now → IfOk result (λ v. All (HasEndsIn IsPointOf t) v.0.items) }
    ensures moved { IfOk result (λ v. IsMoved asked.entry.at row.now v.1) }
    ensures least { IfOk result (λ v. IsLeast (λ e. (least.old ≡ Some e) ⊎ FailsIn (read asked.entry.c.now) asked.entry.at row.now (box_numbers number parts.now) e) least.new) }
{
    let mut runs = Vec::with_capacity(alloc, 1)?;
    let mut there = row.copy(alloc)?;
    for part in parts {
        there = at_first(there, asked.at, part);
        ask(alloc, asked.c, &there, part, &mut runs, least)?;
    }
    Ok((runs, there))
}

// Adds copies of the row with each of the intervals at the position.
fn push_copies(
    alloc: Global,
    row: &Row,
    at: usize,
    intervals: &[Interval<AnyType>],
    out: &mut Vec<Row>,
) -> Result<(), Memory>
    requires can { (heading : PlainHeading) × AreIntervals heading (at ∷ []) × IsTrue (fits_heading heading row.now) ×
        All (HasEndsIn IsPointOf (type_of (kind_at heading at))) intervals.now }
    ensures rows { OnOk result (out.new.items ≡ out.old.items ++ map (put_span row.now at) (box_numbers number intervals.now)) }
    ensures fits { (heading : PlainHeading) → AreIntervals heading (at ∷ []) → IsTrue (fits_heading heading row.now) →
        All (HasEndsIn IsPointOf (type_of (kind_at heading at))) intervals.now →
        OnOk result (IsTrue (all_fit heading out.old.items) → IsTrue (all_fit heading out.new.items)) }
{
    for i in intervals {
        let same = row.copy(alloc)?;
        let more = with_interval(same, at, i);
        out.push(more)?;
    }
    Ok(())
}

// Adds the row with each of the intervals at the position. The last of them is put into the copy that is at hand.
fn push_rows(
    alloc: Global,
    row: &Row,
    at: usize,
    intervals: Vec<Interval<AnyType>>,
    there: Row,
    out: &mut Vec<Row>,
) -> Result<(), Memory>
    requires can { (heading : PlainHeading) × AreIntervals heading (at ∷ []) × IsTrue (fits_heading heading row.now) ×
        All (HasEndsIn IsPointOf (type_of (kind_at heading at))) intervals.items }
    requires moved { IsMoved at row.now there }
    ensures rows { OnOk result (out.new.items ≡ out.old.items ++ map (put_span row.now at) (box_numbers number intervals.items)) }
    ensures fits { (heading : PlainHeading) → AreIntervals heading (at ∷ []) → IsTrue (fits_heading heading row.now) →
        All (HasEndsIn IsPointOf (type_of (kind_at heading at))) intervals.items →
        OnOk result (IsTrue (all_fit heading out.old.items) → IsTrue (all_fit heading out.new.items)) }
{
    let mut others = intervals;
    match others.pop() {
        Some(last) => {
            push_copies(alloc, row, at, others.as_slice(), out)?;
            let own = with_interval(there, at, &last);
            out.push(own)?;
            Ok(())
        }
        None => Ok(()),
    }
}

// The runs of the row's interval at whose points the condition holds, and a copy of the row that was asked there. The least fault at a
// point counts where it is the least.
fn runs_left(
    alloc: Global,
    t: &AnyType,
    asked: Asked<'_>,
    row: &Row,
    least: &mut Option<Fault>,
) -> Result<(Vec<Interval<AnyType>>, Row), Memory>
    requires can { (heading : PlainHeading) × CanAsk heading asked.at (read asked.c.now) row.now × (t.now ≡ type_of (kind_at heading asked.at)) }
    ensures runs { IfOk result (λ v. (p : ℤ) → InSpans (box_numbers number v.0.items) p ↔
        (IsWithin (span_of (value_at row.now asked.entry.at)) p × (condition (read asked.entry.c.now) (at_number asked.entry.at row.now p) ≡ Ok true))) }
    ensures points { IfOk result (λ v. All (HasEndsIn IsPointOf t.now) v.0.items) }
    ensures moved { IfOk result (λ v. IsMoved asked.entry.at row.now v.1) }
    ensures least { IfOk result (λ v. IsLeast (λ e. (least.old ≡ Some e) ⊎
        ((p : ℤ) × IsWithin (span_of (value_at row.now asked.entry.at)) p × (condition (read asked.entry.c.now) (at_number asked.entry.at row.now p) ≡ Err e))) least.new) }
{
    let cuts = cuts(alloc, asked.c, row, &[asked.at], 0)?;
    let side = interval_at(row, asked.at);
    let parts = parts_of(alloc, t, &side, cuts.as_slice())?;
    let (runs, there) = runs_of(alloc, asked, row, parts.as_slice(), least)?;
    Ok((runs, there))
}

// Adds what is left of the row. The least fault at a point counts where it is the least.
fn keep_row(
    alloc: Global,
    t: &AnyType,
    asked: Asked<'_>,
    row: &Row,
    out: &mut Vec<Row>,
    least: &mut Option<Fault>,
) -> Result<(), Memory>
    requires can { (heading : PlainHeading) × CanAsk heading asked.at (read asked.c.now) row.now × (t.now ≡ type_of (kind_at heading asked.at)) }
    ensures places { OnOk result ((l : PlainRow) (place : List ℤ) → InBoxes (map (boxed (asked.entry.at ∷ [])) out.new.items) l place ↔
        InBoxes (map (boxed (asked.entry.at ∷ [])) out.old.items) l place ⊎
        (Has (spans_at (asked.entry.at ∷ []) row.now) place × (swept (asked.entry.at ∷ []) (asked.entry.at ∷ []) (met (read asked.entry.c.now)) row.now place ≡ Ok (Some l)))) }
    ensures fits { (heading : PlainHeading) → CanAsk heading asked.entry.at (read asked.entry.c.now) row.now → t.now ≡ type_of (kind_at heading asked.entry.at) →
        OnOk result (IsTrue (all_fit heading out.old.items) → IsTrue (all_fit heading out.new.items)) }
    ensures least { OnOk result (IsLeast (λ e. (least.old ≡ Some e) ⊎
        ((place : List ℤ) × Has (spans_at (asked.entry.at ∷ []) row.now) place × (swept (asked.entry.at ∷ []) (asked.entry.at ∷ []) (met (read asked.entry.c.now)) row.now place ≡ Err e))) least.new) }
{
    let (runs, there) = runs_left(alloc, t, asked, row, least)?;
    push_rows(alloc, row, asked.at, runs, there, out)?;
    Ok(())
}

// What is left of all rows, and the least fault at any point of them.
fn rows_left(
    alloc: Global,
    heading: &[(Name, Kind)],
    c: &Scalar,
    rows: &[Row],
    at: usize,
) -> Result<(Vec<Row>, Option<Fault>), Memory>
    requires intervals { AreIntervals heading.now (at ∷ []) }
    requires can { All (CanAsk heading.now at (read c.now)) rows.now }
    ensures places { IfOk result (λ v. (l : PlainRow) (place : List ℤ) → InBoxes (map (boxed (at ∷ [])) v.0.items) l place ↔
        InRule (swept_rows (at ∷ []) (at ∷ []) (met (read c.now)) rows.now) (map (spans_at (at ∷ [])) rows.now) l place) }
    ensures fits { IfOk result (λ v. IsTrue (all_fit heading.now v.0.items)) }
    ensures least { IfOk result (λ v. IsLeast (HasRuleFault (swept_rows (at ∷ []) (at ∷ []) (met (read c.now)) rows.now)
        (map (spans_at (at ∷ [])) rows.now)) v.1) }
{
    let t = type_at(heading, at);
    let asked = Asked { c, at };
    let mut out = Vec::new(alloc);
    let mut least = None;
    for row in rows {
        keep_row(alloc, &t, asked, row, &mut out, &mut least)?;
    }
    Ok((out, least))
}

/// The relation at the points of which the condition holds, or the least fault of the condition at any point, or that of too many
/// rows at the place, made row by row. None where more than one attribute is listed, or what is left of the rows is not seen to be
/// packed.
pub(crate) fn restricted_by_rows(
    alloc: Global,
    place: Place,
    commalist: &[usize],
    c: &Scalar,
    r: &Relation,
) -> Result<Option<Relation>, Stop>
    requires intervals { AreIntervals r.now.heading commalist.now }
    requires typed { IsTyped r.now.heading (read c.now) Truth }
    requires sweepable { IsSweepable commalist.now (read c.now) }
    ensures { AnswersIf result (under r.now.heading
        (then_give (restricted (condition (read c.now)) (unpacked commalist.now r.now.rows)) (λ rows. limited place (packed commalist.now rows)))) }
{
    if commalist.len() != 1 {
        return Ok(None);
    }
    let at = commalist[0];
    let heading = r.heading().copy(alloc)?;
    let (rows, least) = rows_left(alloc, heading.attributes(), c, r.rows(), at)?;
    match least {
        Some(fault) => Err(Stop::Fault(fault)),
        None => or_fault_if(place, coalesced(alloc, heading, at, rows)),
    }
}

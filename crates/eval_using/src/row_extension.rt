// Extension under USING of one attribute, row by row: what is made of a row are rows with parts of its interval.
ghost use Rattle.std.specs.Prelude.{◌≡◌, ◌↔◌, ◌⊎◌, ◌++◌, ℤ, ◌∷◌, [], List, map, Ok, Err, Some, IfOk, OnOk, IsTrue};
ghost use Rattle.std.specs.List.{All};
ghost use Rattle.base_core.specs.Outcomes.{then_give};
ghost use Rattle.point_core.specs.Points.{number, IsPointOf};
ghost use Rattle.interval_core.specs.Members.{Span, HasEndsIn};
ghost use Rattle.cell_packing.specs.Boxed.{InBoxes};
ghost use Rattle.cell_packing.specs.Covering.{Among};
ghost use Rattle.cell_packing.specs.Packed.{Has, firsts};
ghost use Rattle.value_core.specs.Relations.{all_fit};
ghost use Rattle.value_core.specs.RowPacking.{packed, unpacked};
ghost use Rattle.value_core.specs.Values.{Row as PlainRow, Heading as PlainHeading};
ghost use Rattle.relation_core.specs.Answers.{under};
ghost use Rattle.relation_core.specs.Operators.{extended};
ghost use Rattle.relation_core.specs.Parts.{kind_at};
ghost use Rattle.tree_core.specs.Trees.{read_sets};
ghost use Rattle.point_core.specs.LeastFault.{IsLeast};
ghost use Rattle.cell_core.specs.Cells.{box_numbers};
ghost use Rattle.cell_core.specs.Numbering.{numbers_of};
ghost use Rattle.u_set.specs.Boxes.{boxed, spans_at, type_of};
ghost use Rattle.u_row.specs.Rules.{InRule, HasRuleFault, given, labelled};
ghost use Rattle.meaning_core.specs.Meanings.{limited};
ghost use Rattle.meaning_core.specs.Rows.{extended_at};
ghost use Rattle.eval_using.specs.Answered.{AnswersIf};
ghost use Rattle.eval_using.specs.Extended.{made_of, label_made, alone, AreItems, CanMake};
ghost use Rattle.eval_using.specs.Holding.{IsPart};
ghost use Rattle.eval_using.specs.Swept.{swept, swept_rows};

use crate::faults::{least_so_far, or_fault_if};
use crate::items::{Items, item_cuts};
use crate::moved::{at_first, interval_at, type_at, with_interval};
use crate::runs::parts_of;
use interval_core::Interval;
use point_core::{AnyType, Fault, Label, Memory, Place, Stop};
use row_making::extended_row;
use scalar_core::Scalar;
use std::alloc::Global;
use u_set::coalesced;
use value_core::{Heading, Name, Relation, Row};

// Items, where the values of the rows that they make come from, and the position of the listed attribute in a row and in these.
#[derive(Clone, Copy)]
struct Extending<'a> {
    sets: &'a [(Name, Scalar)],
    places: &'a [usize],
    at: usize,
    to: usize,
}

// Adds the row that the items make of the row there, with the part as its interval. A fault counts where it is the least.
fn add_made(
    alloc: Global,
    by: Extending<'_>,
    there: &Row,
    part: &Interval<AnyType>,
    out: &mut Vec<Row>,
    least: &mut Option<Fault>,
) -> Result<(), Memory>
    requires can { (from : PlainHeading) × (heading : PlainHeading) × CanMake from heading by.at by.to (read_sets by.sets.now) by.places.now there.now ×
        HasEndsIn IsPointOf (type_of (kind_at from by.at)) part.now }
    ensures rows { OnOk result (map (boxed (by.entry.to ∷ [])) out.new.items ≡ map (boxed (by.entry.to ∷ [])) out.old.items ++
        given (label_made by.entry.to (read_sets by.entry.sets.now) by.entry.places.now there.now) (numbers_of number part.now ∷ [])) }
    ensures fits { (from heading : PlainHeading) → CanMake from heading by.entry.at by.entry.to (read_sets by.entry.sets.now) by.entry.places.now there.now →
        HasEndsIn IsPointOf (type_of (kind_at from by.entry.at)) part.now →
        OnOk result (IsTrue (all_fit heading out.old.items) → IsTrue (all_fit heading out.new.items)) }
    ensures least { OnOk result (IsLeast (λ e. (least.old ≡ Some e) ⊎
        (label_made by.entry.to (read_sets by.entry.sets.now) by.entry.places.now there.now ≡ Err e)) least.new) }
{
    match extended_row(alloc, by.places, by.sets, there) {
        Ok(made) => {
            let own = with_interval(made, by.to, part);
            out.push(own)?;
            Ok(())
        }
        Err(Stop::Fault(e)) => {
            *least = Some(least_so_far(*least, e));
            Ok(())
        }
        Err(Stop::Memory) => Err(Memory),
    }
}

// Adds the rows that the items make of the row at the first points of the parts. The least fault there counts where it is the least.
fn add_parts(
    alloc: Global,
    by: Extending<'_>,
    row: &Row,
    parts: &[Interval<AnyType>],
    out: &mut Vec<Row>,
    least: &mut Option<Fault>,
) -> Result<(), Memory>
    requires can { (from : PlainHeading) × (heading : PlainHeading) × CanMake from heading by.at by.to (read_sets by.sets.now) by.places.now row.now × All (IsPart from by.at row.now) parts.now }
    ensures rows { OnOk result (map (boxed (by.entry.to ∷ [])) out.new.items ≡ map (boxed (by.entry.to ∷ [])) out.old.items ++
        labelled (swept (by.entry.at ∷ []) (by.entry.to ∷ []) (made_of by.entry.places.now (read_sets by.entry.sets.now)) row.now) (alone (box_numbers number parts.now))) }
    ensures fits { (from heading : PlainHeading) → CanMake from heading by.entry.at by.entry.to (read_sets by.entry.sets.now) by.entry.places.now row.now →
        All (IsPart from by.entry.at row.now) parts.now → OnOk result (IsTrue (all_fit heading out.old.items) → IsTrue (all_fit heading out.new.items)) }
    ensures least { OnOk result (IsLeast (λ e. (least.old ≡ Some e) ⊎ ((c : List Span) × Among c (alone (box_numbers number parts.now)) ×
        (swept (by.entry.at ∷ []) (by.entry.to ∷ []) (made_of by.entry.places.now (read_sets by.entry.sets.now)) row.now (firsts c) ≡ Err e))) least.new) }
{
    let mut there = row.copy(alloc)?;
    for part in parts {
        there = at_first(there, by.at, part);
        add_made(alloc, by, &there, part, out, least)?;
    }
    Ok(())
}

// Adds the rows that the items make of the row at the points of its interval. The least fault at a point counts where it is the least.
fn extend_row(
    alloc: Global,
    t: &AnyType,
    by: Extending<'_>,
    row: &Row,
    out: &mut Vec<Row>,
    least: &mut Option<Fault>,
) -> Result<(), Memory>
    requires can { (from : PlainHeading) × (heading : PlainHeading) × CanMake from heading by.at by.to (read_sets by.sets.now) by.places.now row.now × (t.now ≡ type_of (kind_at from by.at)) }
    ensures places { OnOk result ((l : PlainRow) (place : List ℤ) → InBoxes (map (boxed (by.entry.to ∷ [])) out.new.items) l place ↔
        InBoxes (map (boxed (by.entry.to ∷ [])) out.old.items) l place ⊎
        (Has (spans_at (by.entry.at ∷ []) row.now) place × (swept (by.entry.at ∷ []) (by.entry.to ∷ []) (made_of by.entry.places.now (read_sets by.entry.sets.now)) row.now place ≡ Ok (Some l)))) }
    ensures fits { (from heading : PlainHeading) → CanMake from heading by.entry.at by.entry.to (read_sets by.entry.sets.now) by.entry.places.now row.now →
        t.now ≡ type_of (kind_at from by.entry.at) → OnOk result (IsTrue (all_fit heading out.old.items) → IsTrue (all_fit heading out.new.items)) }
    ensures least { OnOk result (IsLeast (λ e. (least.old ≡ Some e) ⊎ ((place : List ℤ) × Has (spans_at (by.entry.at ∷ []) row.now) place ×
        (swept (by.entry.at ∷ []) (by.entry.to ∷ []) (made_of by.entry.places.now (read_sets by.entry.sets.now)) row.now place ≡ Err e))) least.new) }
{
    let cuts = item_cuts(alloc, by.sets, row, &[by.at], 0)?;
    let side = interval_at(row, by.at);
    let parts = parts_of(alloc, t, &side, cuts.as_slice())?;
    add_parts(alloc, by, row, parts.as_slice(), out, least)?;
    Ok(())
}

// The rows that the items make of all rows, and the least fault at any point of them.
fn rows_made(
    alloc: Global,
    t: &AnyType,
    by: Extending<'_>,
    rows: &[Row],
) -> Result<(Vec<Row>, Option<Fault>), Memory>
    requires can { (from : PlainHeading) × (heading : PlainHeading) × All (CanMake from heading by.at by.to (read_sets by.sets.now) by.places.now) rows.now × (t.now ≡ type_of (kind_at from by.at)) }
    ensures places { IfOk result (λ v. (l : PlainRow) (place : List ℤ) → InBoxes (map (boxed (by.entry.to ∷ [])) v.0.items) l place ↔
        InRule (swept_rows (by.entry.at ∷ []) (by.entry.to ∷ []) (made_of by.entry.places.now (read_sets by.entry.sets.now)) rows.now) (map (spans_at (by.entry.at ∷ [])) rows.now) l place) }
    ensures fits { (from heading : PlainHeading) → All (CanMake from heading by.entry.at by.entry.to (read_sets by.entry.sets.now) by.entry.places.now) rows.now →
        t.now ≡ type_of (kind_at from by.entry.at) → IfOk result (λ v. IsTrue (all_fit heading v.0.items)) }
    ensures least { IfOk result (λ v. IsLeast (HasRuleFault (swept_rows (by.entry.at ∷ []) (by.entry.to ∷ []) (made_of by.entry.places.now (read_sets by.entry.sets.now)) rows.now)
        (map (spans_at (by.entry.at ∷ [])) rows.now)) v.1) }
{
    let mut out = Vec::with_capacity(alloc, rows.len())?;
    let mut least = None;
    for row in rows {
        extend_row(alloc, t, by, row, &mut out, &mut least)?;
    }
    Ok((out, least))
}

/// The relation of the rows that the items make at each point, or their least fault at any point, or that of too many rows at the
/// place, made row by row. None where more than one attribute is listed, or the made rows could not be packed.
pub(crate) fn extended_by_rows(
    alloc: Global,
    place: Place,
    heading: &Heading,
    items: Items<'_>,
    r: &Relation,
) -> Result<Option<Relation>, Stop>
    requires { AreItems r.now.heading heading.now items.commalist.now items.to.now (read_sets items.sets.now) items.places.now }
    ensures { AnswersIf result (under heading.now
        (then_give (extended (extended_at items.entry.places.now (read_sets items.entry.sets.now)) (unpacked items.entry.commalist.now r.now.rows)) (λ rows. limited place (packed items.entry.to.now rows)))) }
{
    if items.commalist.len() != 1 {
        return Ok(None);
    }
    let by = Extending {
        sets: items.sets,
        places: items.places,
        at: items.commalist[0],
        to: items.to[0],
    };
    let t = type_at(r.heading().attributes(), by.at);
    let whole = heading.copy(alloc)?;
    let (rows, least) = rows_made(alloc, &t, by, r.rows())?;
    match least {
        Some(fault) => Err(Stop::Fault(fault)),
        None => or_fault_if(place, coalesced(alloc, whole, by.to, rows)),
    }
}

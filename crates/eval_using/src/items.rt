// Items, asked at each point of the listed attributes of rows.
ghost use Rattle.std.specs.Prelude.{◌≡◌, ◌<◌, length, map, flat_map, slice_index, Ok, Err, IsTrue, IfOk};
ghost use Rattle.std.specs.List.{All};
ghost use Rattle.base_core.specs.Outcomes.{then_give};
ghost use Rattle.base_core.specs.Sets.{in_order};
ghost use Rattle.point_core.specs.Orders.{point_cmp};
ghost use Rattle.point_core.specs.Points.{number, IsPointOf};
ghost use Rattle.point_core.specs.declared.any_type.AnyType.{AnyType as AnyTypeSpec};
ghost use Rattle.point_core.specs.declared.fault.Fault.{Fault as AnyFault};
ghost use Rattle.value_core.specs.Attributes.{value_at};
ghost use Rattle.value_core.specs.Values.{fits};
ghost use Rattle.value_core.specs.declared.kind.Kind.TheVariants as kind;
ghost use Rattle.scalar_core.specs.AtPlaces.{HasSpanAt};
ghost use Rattle.scalar_core.specs.Cuts.{inner_cuts};
ghost use Rattle.tree_core.specs.Trees.{read_sets};
ghost use Rattle.meaning_core.specs.Scalars.{AreTypedOver};
ghost use Rattle.eval_using.specs.Cells.{cuts_of_all, scalars_of};
ghost use Rattle.eval_using.specs.Extended.{made_of, AreSweepable};
ghost use Rattle.eval_using.specs.Swept.{labelled_if};

use crate::cell_rows::row_at;
use cell_core::BoxRow;
use interval_core::Interval;
use point_core::{AnyPoint, AnyType, Memory, Stop};
use row_making::extended_row;
use scalar_core::{Scalar, cuts};
use std::alloc::Global;
use u_row::RowRule;
use u_set::label_of;
use value_core::{Name, Row};

/// Items, and where the values of the rows that they make come from: the listed attributes of the rows, those of the new rows, and
/// the places of all values of these among those of the items and then of a row.
#[derive(Clone, Copy)]
pub(crate) struct Items<'a> {
    pub commalist: &'a [usize],
    pub to: &'a [usize],
    pub places: &'a [usize],
    pub sets: &'a [(Name, Scalar)],
}

/// Items on rows, whose boxes are given, at points of the listed attributes.
#[derive(Drop)]
pub(crate) struct Extension<'a> {
    pub items: Items<'a>,
    pub rows: &'a [Row],
    pub boxes: &'a [BoxRow<AnyType, Row>],
}

impl RowRule<AnyType> for Extension<'_> {
    ghost use Rattle.std.specs.Prelude.{ℕ, List, [], get_or};
    ghost use Rattle.tree_core.specs.Trees.{read_sets};
    ghost use Rattle.eval_using.specs.Cells.{scalars_of};
    ghost use Rattle.eval_using.specs.Extended.{CanExtend, made_of};
    ghost use Rattle.eval_using.specs.Swept.{swept_cuts, swept_rows};
    ghost use Rattle.eval_using.specs.BoxedLaws.{ordered_there, inside_there};
    ghost use Rattle.eval_using.specs.ExtensionLaws.{extended_there};

    ghost CanApply = { λ rule row. CanExtend rule.items.commalist.now rule.items.to.now (read_sets rule.items.sets.now) rule.items.places.now rule.rows.now rule.boxes.now row };

    ghost sides = { λ rule row. (get_or rule.boxes.now row ([], [])).1 };

    ghost cuts_of = { λ rule row side. swept_cuts rule.items.commalist.now (scalars_of (read_sets rule.items.sets.now)) rule.rows.now row side };

    ghost means = { λ rule row place. swept_rows rule.items.commalist.now rule.items.to.now (made_of rule.items.places.now (read_sets rule.items.sets.now)) rule.rows.now row place };

    fn cuts(&self, alloc: Global, row: usize, side: usize) -> Result<Vec<AnyPoint>, Memory> {
        let points = item_cuts(
            alloc,
            self.items.sets,
            &self.rows[row],
            self.items.commalist,
            side,
        )?;
        Ok(points)
    }

    fn apply(
        &self,
        alloc: Global,
        row: usize,
        at: &[Interval<AnyType>],
    ) -> Result<Option<Row>, Stop> {
        let there = row_at(alloc, &self.rows[row], self.items.commalist, at)?;
        made_label(
            alloc,
            self.items.sets,
            self.items.places,
            &there,
            self.items.to,
        )
    }

    ghost ordered = { λ rule row side d h l. ordered_there rule.items.commalist.now rule.rows.now rule.boxes.now row h.boxed side d l };

    ghost inside = { λ rule row side d h l. inside_there rule.items.commalist.now rule.rows.now rule.boxes.now row h.boxed (scalars_of (read_sets rule.items.sets.now)) side d l };

    ghost steady = { λ rule row cell ps qs h m a b. extended_there rule.items.commalist.now rule.items.to.now (read_sets rule.items.sets.now) rule.items.places.now rule.rows.now rule.boxes.now row h cell ps qs m a b };
}

// The cuts of the listed attribute at `side` by each item, one after the other.
fn all_cuts(
    alloc: Global,
    sets: &[(Name, Scalar)],
    row: &Row,
    commalist: &[usize],
    side: usize,
) -> Result<Vec<AnyPoint>, Memory>
    requires typed { AreTypedOver row.now (read_sets sets.now) }
    requires sweepable { AreSweepable commalist.now (read_sets sets.now) }
    requires side { side < length commalist.now }
    requires interval { HasSpanAt row.now (slice_index commalist.now side) }
    ensures cuts { IfOk result (λ v. map number v.items ≡ flat_map (λ s. inner_cuts commalist.now (slice_index commalist.now side) s.1 row.now) (read_sets sets.now)) }
    ensures points { (t : AnyTypeSpec) → IsTrue (fits (kind.Span t) (value_at row.now (slice_index commalist.now side))) → IfOk result (λ v. All (IsPointOf t) v.items) }
{
    let mut all = Vec::new(alloc);
    for set in sets {
        let mut own = cuts(alloc, &set.1, row, commalist, side)?;
        all.append(&mut own)?;
    }
    Ok(all)
}

// The points in order, each once.
fn in_order(points: Vec<AnyPoint>) -> Result<Vec<AnyPoint>, Memory>
    ensures { IfOk result (λ v. v.items ≡ in_order point_cmp points.items) }
{
    let mut list = points;
    list.sort()?;
    list.dedup();
    Ok(list)
}

/// The cuts of the listed attribute at `side` by all items, in order, each once.
pub(crate) fn item_cuts(
    alloc: Global,
    sets: &[(Name, Scalar)],
    row: &Row,
    commalist: &[usize],
    side: usize,
) -> Result<Vec<AnyPoint>, Memory>
    requires typed { AreTypedOver row.now (read_sets sets.now) }
    requires sweepable { AreSweepable commalist.now (read_sets sets.now) }
    requires side { side < length commalist.now }
    requires interval { HasSpanAt row.now (slice_index commalist.now side) }
    ensures cuts { IfOk result (λ v. map number v.items ≡ cuts_of_all commalist.now (scalars_of (read_sets sets.now)) row.now (slice_index commalist.now side)) }
    ensures points { (t : AnyTypeSpec) → IsTrue (fits (kind.Span t) (value_at row.now (slice_index commalist.now side))) → IfOk result (λ v. All (IsPointOf t) v.items) }
{
    let all = all_cuts(alloc, sets, row, commalist, side)?;
    let points = in_order(all)?;
    Ok(points)
}

// The values that are not listed of the row that the items make.
fn made_label(
    alloc: Global,
    sets: &[(Name, Scalar)],
    places: &[usize],
    row: &Row,
    to: &[usize],
) -> Result<Option<Row>, Stop>
    requires { AreTypedOver row.now (read_sets sets.now) }
    ensures answer { IfOk result (λ o. then_give (made_of places.now (read_sets sets.now) row.now) (labelled_if to.now) ≡ Ok o) }
    ensures fault { (e : AnyFault) → result ≡ Err (Stop.Fault e) → then_give (made_of places.now (read_sets sets.now) row.now) (labelled_if to.now) ≡ Err e }
{
    let made = extended_row(alloc, places, sets, row)?;
    let label = label_of(alloc, made.values(), to)?;
    Ok(Some(label))
}

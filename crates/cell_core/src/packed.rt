// Whether labelled boxes are their packed form.
ghost use Rattle.std.specs.Prelude.{◌≡◌, ◌+◌, ◌≤◌, ◌*◌, ◌↔◌, map, length, IfOk, IsTrue};
ghost use Rattle.std.specs.List.{All};
ghost use Rattle.base_core.specs.Sets.{in_order};
ghost use Rattle.cell_packing.specs.Boxed.{boxed_cmp, packed_boxes};
ghost use Rattle.cell_sweep.specs.Rows.{key_cmp};
ghost use Rattle.cell_core.specs.Boxes.{IsBox};
ghost use Rattle.cell_core.specs.Cells.{row_numbers};
ghost use Rattle.cell_core.specs.Costs.{bound, side_cost};

use crate::apart::are_apart;
use crate::boxes::BoxRow;
use crate::keys::push_keys;
use crate::row_sides::numbered;
use cell_sweep::{CellBox, pack_rows};
use point_core::{Label, Memory, PointType, Steps};
use std::alloc::Global;
use std::sync::ledger::Ledger;

// The keys in order, each once.
fn distinct_keys<P: Label>(list: Vec<CellBox<P>>) -> Result<Vec<CellBox<P>>, Memory>
    ensures { IfOk result (λ v. v.items ≡ in_order (key_cmp P.order) list.items) }
{
    let mut set = list;
    set.sort_by(|a: &CellBox<P>, b: &CellBox<P>| a.cmp(b))?;
    set.dedup_by(|a: &mut CellBox<P>, b: &mut CellBox<P>| (*a).cmp(&*b).is_eq());
    Ok(set)
}

// Whether two lists of keys are one.
pub fn same_keys<P: Label>(a: &[CellBox<P>], b: &[CellBox<P>]) -> bool
    ensures { IsTrue result ↔ (a.now ≡ b.now) }
{
    a.cmp(b).is_eq()
}

// Whether the rows, as a set, are their packed form, by making this.
fn is_form<T: PointType, P: Label, L: Ledger>(
    alloc: Global,
    types: &[T],
    rows: &[BoxRow<T, P>],
    steps: &mut Steps<L>,
) -> Result<bool, Memory>
    requires rows { All (λ r. IsBox T.IsPoint types.now r.1) rows.now }
    ensures answer { IfOk result (λ b. IsTrue b ↔ (in_order (boxed_cmp P.order) (map (row_numbers T.number_of)
        rows.now) ≡ packed_boxes P.order (length types.now) (map (row_numbers T.number_of) rows.now))) }
    ensures cost { steps.new ≤ steps.old + length types.now * side_cost (length rows.now) }
{
    let none: Vec<BoxRow<T, P>> = Vec::new(alloc);
    let sides = numbered(alloc, types, rows, none.as_slice(), steps)?;
    let mut own = Vec::new(alloc);
    push_keys(alloc, &mut own, rows, 0, sides.as_slice())?;
    let mut list = Vec::new(alloc);
    push_keys(alloc, &mut list, rows, 0, sides.as_slice())?;
    let form = pack_rows(alloc, types.len(), own)?;
    let set = distinct_keys(list)?;
    Ok(same_keys(set.as_slice(), form.as_slice()))
}

/// Whether the rows, as a set, are their packed form.
///
/// On one side it is first looked whether neighbours of one label are apart in the order in which the rows come. Then no
/// packed form is made.
pub fn is_packed<T: PointType, P: Label, L: Ledger>(
    alloc: Global,
    types: &[T],
    rows: &[BoxRow<T, P>],
    steps: &mut Steps<L>,
) -> Result<bool, Memory>
    requires rows { All (λ r. IsBox T.IsPoint types.now r.1) rows.now }
    ensures answer { IfOk result (λ b. IsTrue b ↔ (in_order (boxed_cmp P.order) (map (row_numbers T.number_of)
        rows.now) ≡ packed_boxes P.order (length types.now) (map (row_numbers T.number_of) rows.now))) }
    ensures cost { steps.new ≤ steps.old + bound (length rows.now) (length types.now) }
{
    if types.len() != 1 {
        return is_form(alloc, types, rows, steps);
    }
    let apart = are_apart(alloc, &types[0], rows, steps)?;
    if apart {
        return Ok(true);
    }
    is_form(alloc, types, rows, steps)
}

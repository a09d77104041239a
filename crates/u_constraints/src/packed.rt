// Packed rows.
ghost use Rattle.std.specs.Prelude.{◌≡◌, ◌+◌, ◌≤◌, length, IfOk};
ghost use Rattle.cell_core.specs.Costs.{bound};
ghost use Rattle.meaning_core.specs.Typing.{IsList};
ghost use Rattle.u_constraints.specs.Constraints.{is_packed};

use point_core::{Memory, Steps};
use std::alloc::Global;
use std::sync::ledger::Ledger;
use u_set::{is_apart, to_boxes, types_at};
use value_core::Relation;

/// Whether the rows are those that they are packed to on the listed attributes, by their boxes.
fn is_packed_by_boxes<L: Ledger>(
    alloc: Global,
    r: &Relation,
    commalist: &[usize],
    steps: &mut Steps<L>,
) -> Result<bool, Memory>
    requires { IsList r.now.heading commalist.now }
    ensures answer { IfOk result (λ kept. kept ≡ is_packed commalist.now r.now.rows) }
    ensures cost { steps.new ≤ steps.old + bound (length r.now.rows) (length commalist.now) }
{
    let types = types_at(alloc, r.heading().attributes(), commalist)?;
    let boxes = to_boxes(alloc, r, commalist)?;
    cell_core::is_packed(alloc, types.as_slice(), boxes.as_slice(), steps)
}

/// Whether the rows are those that they are packed to on the listed attributes. Where one is listed and rows with the same values else
/// have intervals that neither meet nor follow one another, one sort tells it; and else their boxes do.
pub(crate) fn is_packed<L: Ledger>(
    alloc: Global,
    r: &Relation,
    commalist: &[usize],
    steps: &mut Steps<L>,
) -> Result<bool, Memory>
    requires { IsList r.now.heading commalist.now }
    ensures answer { IfOk result (λ kept. kept ≡ is_packed commalist.now r.now.rows) }
    ensures cost { steps.new ≤ steps.old + bound (length r.now.rows) (length commalist.now) }
{
    if is_apart(alloc, r, commalist)? {
        return Ok(true);
    }
    is_packed_by_boxes(alloc, r, commalist, steps)
}

// What a rule gives of groups at cells of one side.
ghost use Rattle.std.specs.Prelude.{◌≡◌, ◌↔◌, ℕ, List, length, IfOk};
ghost use Rattle.std.specs.List.{All};
ghost use Rattle.cell_packing.specs.Covering.{Among};
ghost use Rattle.value_core.specs.Values.{Row as PlainRow};
ghost use Rattle.point_core.specs.LeastFault.{IsLeast};
ghost use Rattle.cell_sweep.specs.PackedRows.{HasRow};
ghost use Rattle.cell_boxes.specs.Common.{EndsBy};
ghost use Rattle.cell_boxes.specs.Rows.{PlainCellBox};
ghost use Rattle.u_summarize.specs.Asked.{InCellGroup, HasCellFault};
ghost use Rattle.u_summarize.specs.Groups.{labels_in};

use crate::counting::Counting;
use crate::entries::keyed_rows;
use crate::tally_rule::GroupTally;
use cell_boxes::tallied;
use cell_sweep::CellBox;
use point_core::{Fault, Memory};
use std::alloc::Global;
use value_core::Row;

/// What the rule gives of the groups at cells, in boxes, and its least fault. A group is of the rows whose labels have the same values
/// at the positions; of those with one label only the first is in it. There is one side.
pub(crate) fn given_at_cells<G: GroupTally>(
    alloc: Global,
    sides: usize,
    rows: Vec<CellBox<Row>>,
    by: &[usize],
    rule: &G,
) -> Result<(Vec<CellBox<Row>>, Option<Fault>), Memory>
    requires one { sides ≡ 1 }
    requires sides { All (λ x. length x.1 ≡ sides) rows.items }
    requires takes { G.Takes rule.now (length rows.items) }
    requires fits { G.Fits rule.now by.now (labels_in rows.items) }
    ensures places { IfOk result (λ v. (l : PlainRow) (place : List ℕ) → length place ≡ sides →
        HasRow v.0.items l place ↔ InCellGroup (G.means rule.now) by.now rows.items l place) }
    ensures lengths { IfOk result (λ v. All (λ x. length x.1 ≡ sides) v.0.items) }
    ensures ends { IfOk result (λ v. (z : PlainCellBox PlainRow) → Among z v.0.items → (x : PlainCellBox PlainRow) × Among x rows.items × EndsBy x.1 z.1) }
    ensures least { IfOk result (λ v. IsLeast (HasCellFault sides (G.means rule.now) by.now rows.items) v.1) }
{
    let count = rows.len();
    let (keys, numbers) = keyed_rows(alloc, rows, by)?;
    let tally = Counting {
        rule,
        numbers,
        rows: count,
    };
    let mut least = None;
    let out = tallied(alloc, keys.as_slice(), &tally, &mut least)?;
    Ok((out, least))
}

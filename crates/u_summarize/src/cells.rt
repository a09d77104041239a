// What a rule gives of groups at cells.
ghost use Rattle.std.specs.Prelude.{◌≡◌, ◌≢◌, ◌↔◌, ℕ, ◌<◌, List, [], length, IfOk};
ghost use Rattle.std.specs.List.{All};
ghost use Rattle.cell_packing.specs.Covering.{Among};
ghost use Rattle.value_core.specs.Values.{Row as PlainRow, row_cmp};
ghost use Rattle.point_core.specs.LeastFault.{IsLeast};
ghost use Rattle.cell_sweep.specs.PackedRows.{HasRow};
ghost use Rattle.cell_sweep.specs.Rows.{AreRows};
ghost use Rattle.cell_boxes.specs.Common.{EndsBy};
ghost use Rattle.cell_boxes.specs.Groups.{IsGrouped, IsGroupFault};
ghost use Rattle.cell_boxes.specs.Rows.{Ascend, PlainCellBox};
ghost use Rattle.u_summarize.specs.Asked.{asked, first_ones, numbers_at, InCellGroup, HasCellFault};

use crate::asking::Asking;
use crate::numbered::numbered;
use crate::ranks::ranks_of;
use crate::rule::GroupRule;
use cell_boxes::{grouped, keys_in_order};
use cell_sweep::CellBox;
use point_core::{Fault, Memory};
use std::alloc::Global;
use value_core::Row;

// What the rule gives of rows that stand by their keys, and its least fault.
fn given_of_keys<G: GroupRule>(
    alloc: Global,
    sides: usize,
    ranks: &[usize],
    keys: &[CellBox<Row>],
    numbers: &[usize],
    rule: &G,
) -> Result<(Vec<CellBox<Row>>, Option<Fault>), Memory>
    requires sides { All (λ x. length x.1 ≡ sides) keys.now }
    requires order { Ascend row_cmp keys.now }
    requires can { (a : List ℕ) → AreRows 0 (length keys.now) a → (a ≢ [] → G.CanApply rule.now (first_ones ranks.now (numbers_at numbers.now a)))
        × All (λ (i : ℕ). i < length numbers.now) a × All (λ (i : ℕ). i < length ranks.now) numbers.now }
    ensures places { IfOk result (λ v. (l : PlainRow) (place : List ℕ) → length place ≡ sides →
        HasRow v.0.items l place ↔ IsGrouped (λ a b. asked (G.means rule.now) ranks.now numbers.now a) keys.now l place) }
    ensures lengths { IfOk result (λ v. All (λ x. length x.1 ≡ sides) v.0.items) }
    ensures ends { IfOk result (λ v. (z : PlainCellBox PlainRow) → Among z v.0.items → (x : PlainCellBox PlainRow) × Among x keys.now × EndsBy x.1 z.1) }
    ensures least { IfOk result (λ v. IsLeast (IsGroupFault sides (λ a b. asked (G.means rule.now) ranks.now numbers.now a) keys.now) v.1) }
{
    let asking = Asking {
        rule,
        ranks,
        numbers,
    };
    let mut least = None;
    let out = grouped(alloc, sides, keys, &asking, &mut least)?;
    Ok((out, least))
}

/// What the rule gives of the groups at cells, in boxes, and its least fault. A group is of the rows whose labels have the same values
/// at the positions; of those with one label only the first is in it.
pub(crate) fn given_at_cells<G: GroupRule>(
    alloc: Global,
    sides: usize,
    rows: &[CellBox<Row>],
    by: &[usize],
    rule: &G,
) -> Result<(Vec<CellBox<Row>>, Option<Fault>), Memory>
    requires sides { All (λ x. length x.1 ≡ sides) rows.now }
    requires can { (a : List ℕ) → a ≢ [] → AreRows 0 (length rows.now) a → G.CanApply rule.now a }
    ensures places { IfOk result (λ v. (l : PlainRow) (place : List ℕ) → length place ≡ sides →
        HasRow v.0.items l place ↔ InCellGroup (G.means rule.now) by.now rows.now l place) }
    ensures lengths { IfOk result (λ v. All (λ x. length x.1 ≡ sides) v.0.items) }
    ensures ends { IfOk result (λ v. (z : PlainCellBox PlainRow) → Among z v.0.items → (x : PlainCellBox PlainRow) × Among x rows.now × EndsBy x.1 z.1) }
    ensures least { IfOk result (λ v. IsLeast (HasCellFault sides (G.means rule.now) by.now rows.now) v.1) }
{
    let entries = numbered(alloc, rows, by)?;
    let (keys, numbers) = keys_in_order(alloc, entries)?;
    let ranks = ranks_of(alloc, rows)?;
    let given = given_of_keys(
        alloc,
        sides,
        ranks.as_slice(),
        keys.as_slice(),
        numbers.as_slice(),
        rule,
    )?;
    Ok(given)
}

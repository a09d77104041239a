// The merge of two lists of rows in order.
ghost use Rattle.std.specs.Prelude.{◌≡◌, [], ◌∷◌, ◌++◌, IfOk, OnOk, IsTrue, if◌then◌else◌};
ghost use Rattle.base_core.specs.Sets.{is_set};
ghost use Rattle.value_core.specs.Values.{row_cmp};
ghost use Rattle.relation_core.specs.Merged.{merged};

use point_core::{Label, Memory};
use std::alloc::Global;
use std::cmp::Ordering;
use value_core::Row;

/// Which rows a merge keeps: those of the left list alone, those of both, and those of the right one alone.
#[derive(Clone, Copy)]
pub(crate) struct Keeps {
    pub(crate) left: bool,
    pub(crate) both: bool,
    pub(crate) right: bool,
}

/// The rows of two lists that are kept, each comparison passing over a row.
pub(crate) fn merge(
    alloc: Global,
    left: &[Row],
    right: &[Row],
    keeps: Keeps,
) -> Result<Vec<Row>, Memory>
    requires left { IsTrue (is_set row_cmp left.now) }
    requires right { IsTrue (is_set row_cmp right.now) }
    ensures { IfOk result (λ rows. rows.items ≡ merged keeps left.now right.now) }
{
    let mut rows = Vec::new(alloc);
    let mut i = 0;
    let mut j = 0;
    while i < left.len() && j < right.len() {
        match left[i].cmp(&right[j]) {
            Ordering::Less => {
                keep(alloc, &mut rows, &left[i], keeps.left)?;
                i += 1;
            }
            Ordering::Equal => {
                keep(alloc, &mut rows, &left[i], keeps.both)?;
                i += 1;
                j += 1;
            }
            Ordering::Greater => {
                keep(alloc, &mut rows, &right[j], keeps.right)?;
                j += 1;
            }
        }
    }
    keep_all(alloc, &mut rows, left.split_at(i).1, keeps.left)?;
    keep_all(alloc, &mut rows, right.split_at(j).1, keeps.right)?;
    Ok(rows)
}

/// Adds the row, if it is kept.
pub fn keep(alloc: Global, rows: &mut Vec<Row>, row: &Row, kept: bool) -> Result<(), Memory>
    ensures { OnOk result (rows.new.items ≡ rows.old.items ++ (if kept then row.now ∷ [] else [])) }
{
    if kept {
        rows.push(row.copy(alloc)?)?;
    }
    Ok(())
}

/// Adds the rows, if they are kept.
fn keep_all(alloc: Global, rows: &mut Vec<Row>, more: &[Row], kept: bool) -> Result<(), Memory>
    ensures { OnOk result (rows.new.items ≡ rows.old.items ++ (if kept then more.now else [])) }
{
    if !kept {
        return Ok(());
    }
    for row in more {
        rows.push(row.copy(alloc)?)?;
    }
    Ok(())
}

// Rows of one key whose intervals overlap, as one.
ghost use Rattle.std.specs.Prelude.{◌≡◌, ◌≤ℤ◌, OnOk, IfOk};
ghost use Rattle.std.specs.Int.{int_max};
ghost use Rattle.u_join.specs.RowPairs.{seen, Ascend, HaveOrder};
ghost use Rattle.u_join.specs.Rests.{AreUpTo, IsAdded, AreRuns};

use crate::standing::{Standing, are_apart};
use point_core::Memory;
use std::alloc::Global;

// The row with an interval that ends no earlier than the number.
fn lengthened<'a>(x: Standing<'a>, end: i64) -> Standing<'a>
    ensures { seen result ≡ ((seen x.entry).0, (seen x.entry).1, ((seen x.entry).2.0, int_max (seen x.entry).2.1 end)) }
{
    let last = if x.end < end { end } else { x.end };
    Standing {
        row: x.row,
        key: x.key,
        begin: x.begin,
        end: last,
    }
}

// Adds the row, or lengthens the last one by it.
fn add<'a>(runs: &mut Vec<Standing<'a>>, row: Standing<'a>) -> Result<(), Memory>
    requires order { Ascend seen runs.old.items }
    requires intervals { HaveOrder seen runs.old.items }
    requires interval { row.begin ≤ℤ row.end }
    requires up { AreUpTo seen runs.old.items (seen row) }
    ensures { OnOk result (IsAdded seen runs.old.items row.entry runs.new.items) }
{
    match runs.pop() {
        Some(last) => if are_apart(&last, &row) {
            runs.push(last)?;
            runs.push(row)?;
        } else {
            runs.push(lengthened(last, row.end))?;
        },
        None => runs.push(row)?,
    }
    Ok(())
}

/// The rows, which stand in order, with those of one key whose intervals overlap as one: it is the first of them, and its interval ends
/// where the last of theirs does.
pub(crate) fn runs_of<'a>(alloc: Global, rows: &[Standing<'a>]) -> Result<Vec<Standing<'a>>, Memory>
    requires order { Ascend seen rows.now }
    requires intervals { HaveOrder seen rows.now }
    ensures { IfOk result (λ v. AreRuns seen rows.now v.items) }
{
    let mut runs = Vec::new(alloc);
    for row in rows {
        add(&mut runs, *row)?;
    }
    Ok(runs)
}

// Rows of tuples at the front of bytes.
ghost use Rattle.std.specs.Prelude.{◌≡◌, ◌∷◌, [], ◌++◌, IfSome, true};
ghost use Rattle.plain_rows.specs.Tuples.{BeginsWithNextTuple, HasRows, are_words};

use crate::scan::{past_space, past_symbol};
use crate::tuples::tuple;
use std::alloc::Global;
use value_core::{Kind, Name, OrdinalTypes, Row};

/// The row of the next tuple, which stands behind a comma, and what is behind it and the gaps.
fn next_row<'a>(
    alloc: Global,
    text: &'a [u8],
    columns: &[(Name, Kind)],
    types: &OrdinalTypes,
) -> Option<(Row, &'a [u8])>
    requires { are_words columns.now ≡ true }
    ensures { IfSome result (λ r. BeginsWithNextTuple types.now text.now columns.now r.0 r.1.now) }
{
    let behind = past_symbol(text, b',')?;
    let here = past_space(behind);
    let (values, rest) = tuple(alloc, here, columns, types)?;
    let past = past_space(rest);
    let row = Row::make(values);
    Some((row, past))
}

/// The rows with one more.
pub(crate) fn pushed(rows: Vec<Row>, row: Row) -> Option<Vec<Row>>
    ensures { IfSome result (λ v. v.items ≡ rows.items ++ row ∷ []) }
{
    let mut rows = rows;
    match rows.push(row) {
        Ok(()) => Some(rows),
        Err(_) => None,
    }
}

/// The first row and those of the tuples at the front, each of which stands behind a comma, and what is behind them. At most so many are
/// read.
pub(crate) fn more_rows<'a>(
    alloc: Global,
    text: &'a [u8],
    columns: &[(Name, Kind)],
    first: Row,
    most: usize,
    types: &OrdinalTypes,
) -> Option<(Vec<Row>, &'a [u8])>
    requires { are_words columns.now ≡ true }
    ensures { IfSome result (λ r. HasRows types.now columns.now text.now first r.0.items r.1.now) }
{
    let mut rows = pushed(Vec::new(alloc), first)?;
    let mut rest = text;
    let mut turn = 0;
    'rows: while turn < most {
        match next_row(alloc, rest, columns, types) {
            None => {
                return Some((rows, rest));
            }
            Some((row, behind)) => {
                rows = pushed(rows, row)?;
                rest = behind;
                turn += 1;
            }
        }
    }
    None
}

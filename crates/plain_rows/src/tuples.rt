// Tuples of constants at the front of bytes.
ghost use Rattle.std.specs.Prelude.{◌≡◌, ◌∷◌, [], ◌++◌, map, IfSome, true};
ghost use Rattle.value_core.specs.Plain.{plain};
ghost use Rattle.plain_rows.specs.Lexemes.{Begins, is_word};
ghost use Rattle.plain_rows.specs.Tuples.{tuple_word, open_brace, BeginsWithElement, BeginsWithNext, BeginsWithTuple, HasValues, are_words};

use crate::constants::constant;
use crate::scan::{past_space, past_symbol, past_word};
use std::alloc::Global;
use value_core::{Kind, Name, OrdinalTypes, Value};

/// What is behind `TUPLE {`.
pub(crate) fn past_opening(text: &[u8]) -> Option<&[u8]>
    ensures { IfSome result (λ rest. Begins text.now (tuple_word ∷ open_brace ∷ []) rest.now) }
{
    let behind = past_word(text, b"TUPLE")?;
    let brace = past_space(behind);
    let opened = past_symbol(brace, b'{')?;
    Some(past_space(opened))
}

/// The value of the element at the front, which has this name, and what is behind it.
pub(crate) fn element<'a>(
    alloc: Global,
    text: &'a [u8],
    name: &Name,
    kind: Kind,
    types: &OrdinalTypes,
) -> Option<(Value, &'a [u8])>
    requires { is_word name.now ≡ true }
    ensures { IfSome result (λ r. BeginsWithElement types.now text.now (name.now, kind) (plain r.0) r.1.now) }
{
    let behind = past_word(text, name.as_str().as_bytes())?;
    let here = past_space(behind);
    let (v, rest) = constant(alloc, here, kind, types)?;
    Some((v, rest))
}

/// The value of the next element, which has this name and stands behind a comma, and what is behind it and the gaps.
fn next_value<'a>(
    alloc: Global,
    text: &'a [u8],
    name: &Name,
    kind: Kind,
    types: &OrdinalTypes,
) -> Option<(Value, &'a [u8])>
    requires { is_word name.now ≡ true }
    ensures { IfSome result (λ r. BeginsWithNext types.now text.now (name.now, kind) (plain r.0) r.1.now) }
{
    let behind = past_symbol(text, b',')?;
    let here = past_space(behind);
    let (v, rest) = element(alloc, here, name, kind, types)?;
    let past = past_space(rest);
    Some((v, past))
}

/// Room for so many values.
fn room(alloc: Global, count: usize) -> Option<Vec<Value>>
    ensures { IfSome result (λ v. v.items ≡ []) }
{
    match Vec::with_capacity(alloc, count) {
        Ok(values) => Some(values),
        Err(_) => None,
    }
}

/// The values with one more.
fn pushed(values: Vec<Value>, value: Value) -> Option<Vec<Value>>
    ensures { IfSome result (λ v. v.items ≡ values.items ++ value ∷ []) }
{
    let mut values = values;
    match values.push(value) {
        Ok(()) => Some(values),
        Err(_) => None,
    }
}

/// The first value and those of the elements at the front, each of which stands behind a comma, and what is behind them.
pub(crate) fn more_values<'a>(
    alloc: Global,
    text: &'a [u8],
    columns: &[(Name, Kind)],
    first: Value,
    types: &OrdinalTypes,
) -> Option<(Vec<Value>, &'a [u8])>
    requires { are_words columns.now ≡ true }
    ensures { IfSome result (λ r. HasValues types.now columns.now text.now (plain first) (map plain r.0.items) r.1.now) }
{
    let empty = room(alloc, columns.len().saturating_add(1))?;
    let mut values = pushed(empty, first)?;
    let mut rest = text;
    let mut left = columns;
    'columns: while let Some((column, others)) = left.split_first() {
        let (value, behind) = next_value(alloc, rest, &column.0, column.1, types)?;
        values = pushed(values, value)?;
        rest = behind;
        left = others;
    }
    Some((values, rest))
}

/// The values of the tuple at the front, which has these names in this order, and what is behind it.
pub(crate) fn tuple<'a>(
    alloc: Global,
    text: &'a [u8],
    columns: &[(Name, Kind)],
    types: &OrdinalTypes,
) -> Option<(Vec<Value>, &'a [u8])>
    requires { are_words columns.now ≡ true }
    ensures { IfSome result (λ r. BeginsWithTuple types.now text.now columns.now (map plain r.0.items) r.1.now) }
{
    let (column, others) = columns.split_first()?;
    let opened = past_opening(text)?;
    let (first, behind) = element(alloc, opened, &column.0, column.1, types)?;
    let more = past_space(behind);
    let (values, end) = more_values(alloc, more, others, first, types)?;
    let rest = past_symbol(end, b'}')?;
    Some((values, rest))
}

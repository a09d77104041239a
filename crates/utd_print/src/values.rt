// The texts of values.
ghost use Rattle.std.specs.Prelude.{◌≡◌, ◌++◌, ◌∷◌, [], IfOk, OnOk};
ghost use Rattle.point_core.specs.Points.{line, number};
ghost use Rattle.value_core.specs.declared.value.Value.TheVariants.{Span};
ghost use Rattle.value_core.specs.Plain.{plain};
ghost use Rattle.utd_print.specs.Tables.{value_name, point_text, quoted, quotes_doubled, interval_text, value_text};
ghost use Rattle.utd_print.specs.Tables.{HasType, HasKind};

use crate::numbers::{put_day, put_integer, put_moment};
use crate::truth::truth_text;
use interval_core::Interval;
use point_core::{AnyPoint, AnyType, Day, Memory, Second};
use std::alloc::Global;
use value_core::{OrdinalTypes, Value};

/// Writes the name of a value of an ordinal type.
fn put_name(out: &mut Vec<u8>, types: &OrdinalTypes, of: u8, at: u16) -> Result<(), Memory>
    ensures { OnOk result (out.new.items ≡ out.old.items ++ value_name types.now of at) }
{
    let Some(ordinal) = types.list.get(usize::from(of)) else {
        return Ok(());
    };
    let Some(name) = ordinal.values.list.get(usize::from(at)) else {
        return Ok(());
    };
    out.extend_from_slice(name.as_str().as_bytes())?;
    Ok(())
}

/// Writes a point.
fn put_point(out: &mut Vec<u8>, types: &OrdinalTypes, point: AnyPoint) -> Result<(), Memory>
    requires { HasType point }
    ensures { OnOk result (out.new.items ≡ out.old.items ++ point_text types.now (line point) (number point)) }
{
    match point {
        AnyPoint::Integer(number) => put_integer(out, number),
        AnyPoint::Date(number) => put_day(out, Day { number }),
        AnyPoint::Ordinal { of, at } => put_name(out, types, of, at),
        AnyPoint::Moment(number) => put_moment(out, Second { number }),
    }
}

/// Writes a byte of a text, a quote twice.
fn put_quoted(out: &mut Vec<u8>, byte: u8) -> Result<(), Memory>
    ensures { OnOk result (out.new.items ≡ out.old.items ++ quoted byte) }
{
    if byte == b'\'' {
        out.extend_from_slice(b"''")?;
    } else {
        out.push(byte)?;
    }
    Ok(())
}

/// Writes a text with each quote doubled.
pub fn put_doubled(out: &mut Vec<u8>, text: &[u8]) -> Result<(), Memory>
    ensures { OnOk result (out.new.items ≡ out.old.items ++ quotes_doubled text.now) }
{
    for byte in text {
        put_quoted(out, *byte)?;
    }
    Ok(())
}

/// Writes an interval by its ends.
fn put_ends(
    out: &mut Vec<u8>,
    types: &OrdinalTypes,
    begin: AnyPoint,
    end: AnyPoint,
) -> Result<(), Memory>
    requires begin { HasType begin }
    requires end { HasType end }
    ensures { OnOk result (out.new.items ≡ out.old.items ++ interval_text
        (point_text types.now (line begin) (number begin)) (point_text types.now (line end) (number end))) }
{
    out.push(b'[')?;
    put_point(out, types, begin)?;
    out.push(b':')?;
    put_point(out, types, end)?;
    out.push(b']')?;
    Ok(())
}

/// Writes an interval.
fn put_interval(
    out: &mut Vec<u8>,
    types: &OrdinalTypes,
    interval: &Interval<AnyType>,
) -> Result<(), Memory>
    requires { HasKind (plain (Span interval.now)) }
    ensures { OnOk result (out.new.items ≡ out.old.items ++ value_text types.now (plain (Span interval.now))) }
{
    put_ends(out, types, interval.begin(), interval.end())
}

/// Writes a value.
pub(crate) fn put_value(
    out: &mut Vec<u8>,
    types: &OrdinalTypes,
    value: &Value,
) -> Result<(), Memory>
    requires { HasKind (plain value.now) }
    ensures { OnOk result (out.new.items ≡ out.old.items ++ value_text types.now (plain value.now)) }
{
    match value {
        Value::Truth(b) => out.extend_from_slice(truth_text(*b))?,
        Value::Char(text) => {
            out.push(b'\'')?;
            put_doubled(out, text.as_str().as_bytes())?;
            out.push(b'\'')?;
        }
        Value::Point(point) => put_point(out, types, *point)?,
        Value::Span(interval) => put_interval(out, types, interval)?,
    }
    Ok(())
}

/// The text of a value.
pub(crate) fn text_of(alloc: Global, types: &OrdinalTypes, value: &Value) -> Result<Vec<u8>, Memory>
    requires { HasKind (plain value.now) }
    ensures { IfOk result (λ text. text.items ≡ value_text types.now (plain value.now)) }
{
    let mut text = Vec::new(alloc);
    put_value(&mut text, types, value)?;
    Ok(text)
}

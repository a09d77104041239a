// How values are written in a script.
ghost use Rattle.std.specs.Prelude.{◌≡◌, ◌++◌, OnOk};
ghost use Rattle.point_core.specs.Dates.{IsDay};
ghost use Rattle.point_core.specs.Moments.{IsSecond};
ghost use Rattle.point_core.specs.Points.{line, number};
ghost use Rattle.value_core.specs.declared.value.Value.TheVariants.{Span};
ghost use Rattle.value_core.specs.Plain.{plain};
ghost use Rattle.utd_print.specs.Tables.{HasType, HasKind};
ghost use Rattle.dump_core.specs.Values.{day_script, second_script, member_script, ordinal_script, text_script};
ghost use Rattle.dump_core.specs.Values.{point_script, span_script, value_script};

use interval_core::Interval;
use point_core::{AnyPoint, AnyType, Day, Memory, Second};
use utd_print::{put_day, put_doubled, put_integer, put_moment, truth_text};
use value_core::{OrdinalNames, OrdinalTypes, Value};

/// Writes a date literal.
fn put_day_literal(out: &mut Vec<u8>, day: Day) -> Result<(), Memory>
    requires { IsDay day.number }
    ensures { OnOk result (out.new.items ≡ out.old.items ++ day_script day.number) }
{
    out.extend_from_slice(b"DATE '")?;
    put_day(out, day)?;
    out.push(b'\'')?;
    Ok(())
}

/// Writes a moment literal.
fn put_moment_literal(out: &mut Vec<u8>, moment: Second) -> Result<(), Memory>
    requires { IsSecond moment.number }
    ensures { OnOk result (out.new.items ≡ out.old.items ++ second_script moment.number) }
{
    out.extend_from_slice(b"MOMENT '")?;
    put_moment(out, moment)?;
    out.push(b'\'')?;
    Ok(())
}

/// Writes the name of an ordinal type's value behind the name of the type.
fn put_member(out: &mut Vec<u8>, ordinal: &OrdinalNames, at: usize) -> Result<(), Memory>
    ensures { OnOk result (out.new.items ≡ out.old.items ++ member_script ordinal.now at) }
{
    out.extend_from_slice(ordinal.name.as_str().as_bytes())?;
    out.push(b'.')?;
    if let Some(name) = ordinal.values.list.get(at) {
        out.extend_from_slice(name.as_str().as_bytes())?;
    }
    Ok(())
}

/// Writes a value of an ordinal type.
fn put_ordinal(out: &mut Vec<u8>, types: &OrdinalTypes, of: u8, at: u16) -> Result<(), Memory>
    ensures { OnOk result (out.new.items ≡ out.old.items ++ ordinal_script types.now of at) }
{
    if let Some(ordinal) = types.list.get(usize::from(of)) {
        put_member(out, ordinal, usize::from(at))?;
    }
    Ok(())
}

/// Writes a point as a literal.
fn put_literal(out: &mut Vec<u8>, types: &OrdinalTypes, point: AnyPoint) -> Result<(), Memory>
    requires { HasType point }
    ensures { OnOk result (out.new.items ≡ out.old.items ++ point_script types.now (line point) (number point)) }
{
    match point {
        AnyPoint::Integer(number) => put_integer(out, number),
        AnyPoint::Date(number) => put_day_literal(out, Day { number }),
        AnyPoint::Ordinal { of, at } => put_ordinal(out, types, of, at),
        AnyPoint::Moment(number) => put_moment_literal(out, Second { number }),
    }
}

/// Writes an interval from one point to another.
fn put_from_to(
    out: &mut Vec<u8>,
    types: &OrdinalTypes,
    begin: AnyPoint,
    end: AnyPoint,
) -> Result<(), Memory>
    requires begin { HasType begin }
    requires end { HasType end }
    ensures { OnOk result (out.new.items ≡ out.old.items ++ span_script types.now begin end) }
{
    out.push(b'[')?;
    put_literal(out, types, begin)?;
    out.push(b':')?;
    put_literal(out, types, end)?;
    out.push(b']')?;
    Ok(())
}

/// Writes an interval.
fn put_span(out: &mut Vec<u8>, types: &OrdinalTypes, span: &Interval<AnyType>) -> Result<(), Memory>
    requires { HasKind (plain (Span span.now)) }
    ensures { OnOk result (out.new.items ≡ out.old.items ++ value_script types.now (plain (Span span.now))) }
{
    let begin = span.begin();
    put_from_to(out, types, begin, span.end())
}

/// Writes a text between quotes.
fn put_text(out: &mut Vec<u8>, text: &[u8]) -> Result<(), Memory>
    ensures { OnOk result (out.new.items ≡ out.old.items ++ text_script text.now) }
{
    out.push(b'\'')?;
    put_doubled(out, text)?;
    out.push(b'\'')?;
    Ok(())
}

/// Writes a value.
pub(crate) fn put_value(
    out: &mut Vec<u8>,
    types: &OrdinalTypes,
    value: &Value,
) -> Result<(), Memory>
    requires { HasKind (plain value.now) }
    ensures { OnOk result (out.new.items ≡ out.old.items ++ value_script types.now (plain value.now)) }
{
    match value {
        Value::Truth(b) => out.extend_from_slice(truth_text(*b))?,
        Value::Char(text) => put_text(out, text.as_str().as_bytes())?,
        Value::Point(point) => put_literal(out, types, *point)?,
        Value::Span(span) => put_span(out, types, span)?,
    }
    Ok(())
}

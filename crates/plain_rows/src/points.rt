// Points at the front of bytes.
ghost use Rattle.std.specs.Prelude.{◌≡◌, IfSome};
ghost use Rattle.point_core.specs.Points.{number, IsPointOf};
ghost use Rattle.plain_rows.specs.Written.{BeginsWithDotted, BeginsWithPoint};

use crate::dates::{date, moment};
use crate::numbers::integer;
use crate::ordinals::ordinal;
use point_core::{AnyPoint, AnyType};
use value_core::OrdinalTypes;

fn integer_point(text: &[u8]) -> Option<(AnyPoint, &[u8])>
    ensures begins { IfSome result (λ r. (types : _) → BeginsWithPoint types text.now AnyType.Integer (number r.0) r.1.now) }
    ensures point { IfSome result (λ r. IsPointOf AnyType.Integer r.0) }
{
    let (n, rest) = integer(text)?;
    Some((AnyPoint::Integer(n), rest))
}

fn date_point(text: &[u8]) -> Option<(AnyPoint, &[u8])>
    ensures begins { IfSome result (λ r. (types : _) → BeginsWithPoint types text.now AnyType.Date (number r.0) r.1.now) }
    ensures point { IfSome result (λ r. IsPointOf AnyType.Date r.0) }
{
    let (day, rest) = date(text)?;
    Some((AnyPoint::Date(day.number), rest))
}

fn moment_point(text: &[u8]) -> Option<(AnyPoint, &[u8])>
    ensures begins { IfSome result (λ r. (types : _) → BeginsWithPoint types text.now AnyType.Moment (number r.0) r.1.now) }
    ensures point { IfSome result (λ r. IsPointOf AnyType.Moment r.0) }
{
    let (second, rest) = moment(text)?;
    Some((AnyPoint::Moment(second.number), rest))
}

/// The value of this ordinal type at the front, and what is behind it.
fn ordinal_point<'a>(
    text: &'a [u8],
    of: AnyType,
    types: &OrdinalTypes,
) -> Option<(AnyPoint, &'a [u8])>
    ensures begins { IfSome result (λ r. BeginsWithDotted types.now text.now of (number r.0) r.1.now) }
    ensures point { IfSome result (λ r. IsPointOf of r.0) }
{
    let (t, p, rest) = ordinal(text, types)?;
    if t == of { Some((p, rest)) } else { None }
}

/// The point of the type at the front, and what is behind it.
pub(crate) fn point<'a>(
    text: &'a [u8],
    of: AnyType,
    types: &OrdinalTypes,
) -> Option<(AnyPoint, &'a [u8])>
    ensures begins { IfSome result (λ r. BeginsWithPoint types.now text.now of (number r.0) r.1.now) }
    ensures point { IfSome result (λ r. IsPointOf of r.0) }
{
    match of {
        AnyType::Integer => integer_point(text),
        AnyType::Date => date_point(text),
        AnyType::Moment => moment_point(text),
        AnyType::Ordinal { of: _, last: _ } => ordinal_point(text, of, types),
    }
}

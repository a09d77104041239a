// Intervals at the front of bytes.
ghost use Rattle.std.specs.Prelude.{◌≡◌, ◌∷◌, [], IfSome, Ok};
ghost use Rattle.point_core.specs.Points.{number, first_of, last_of, IsPointOf};
ghost use Rattle.interval_core.specs.Members.{span};
ghost use Rattle.interval_core.specs.Selector.{selected};
ghost use Rattle.plain_rows.specs.Lexemes.{Begins};
ghost use Rattle.plain_rows.specs.Written.{brackets_of, opening, closing, BeginsWithInterval};

use crate::points::point;
use crate::scan::{past_colon, past_space, past_symbol};
use interval_core::{Ends, Interval};
use point_core::{AnyPoint, AnyType};
use value_core::OrdinalTypes;

/// The interval of the two points, if it has members.
fn selected(of: AnyType, brackets: Ends, b: AnyPoint, e: AnyPoint) -> Option<Interval<AnyType>>
    requires begin { IsPointOf of b }
    requires end { IsPointOf of e }
    ensures begin_point { IfSome result (λ i. IsPointOf of i.0) }
    ensures end_point { IfSome result (λ i. IsPointOf of i.1) }
    ensures selects { IfSome result (λ i. selected (first_of of) (last_of of) brackets (number b) (number e) ≡ Ok (span number i)) }
{
    match Interval::select(&of, brackets, b, e) {
        Ok(i) => Some(i),
        Err(_) => None,
    }
}

// The brackets where the first one takes its point in or not, and the last one.
fn brackets_of(begin: bool, end: bool) -> Ends
    ensures { result ≡ brackets_of begin end }
{
    match (begin, end) {
        (true, true) => Ends::Closed,
        (true, false) => Ends::ClosedOpen,
        (false, true) => Ends::OpenClosed,
        (false, false) => Ends::Open,
    }
}

/// Whether the begin bracket takes its point in, and what is behind it.
fn past_begin(text: &[u8]) -> Option<(bool, &[u8])>
    ensures { IfSome result (λ r. Begins text.now (opening r.0 ∷ []) r.1.now) }
{
    match past_symbol(text, b'[') {
        Some(rest) => Some((true, rest)),
        None => match past_symbol(text, b'(') {
            Some(rest) => Some((false, rest)),
            None => None,
        },
    }
}

/// Whether the end bracket takes its point in, and what is behind it.
fn past_end(text: &[u8]) -> Option<(bool, &[u8])>
    ensures { IfSome result (λ r. Begins text.now (closing r.0 ∷ []) r.1.now) }
{
    match past_symbol(text, b']') {
        Some(rest) => Some((true, rest)),
        None => match past_symbol(text, b')') {
            Some(rest) => Some((false, rest)),
            None => None,
        },
    }
}

/// The interval of points of the type at the front, and what is behind it.
pub(crate) fn interval<'a>(
    text: &'a [u8],
    of: AnyType,
    types: &OrdinalTypes,
) -> Option<(Interval<AnyType>, &'a [u8])>
    ensures begin_point { IfSome result (λ r. IsPointOf of r.0.0) }
    ensures end_point { IfSome result (λ r. IsPointOf of r.0.1) }
    ensures begins { IfSome result (λ r. BeginsWithInterval types.now text.now of (span number r.0) r.1.now) }
{
    let (begin, opened) = past_begin(text)?;
    let first = past_space(opened);
    let (b, behind_first) = point(first, of, types)?;
    let middle = past_space(behind_first);
    let parted = past_colon(middle)?;
    let second = past_space(parted);
    let (e, behind_second) = point(second, of, types)?;
    let last = past_space(behind_second);
    let (end, rest) = past_end(last)?;
    let found = selected(of, brackets_of(begin, end), b, e)?;
    Some((found, rest))
}

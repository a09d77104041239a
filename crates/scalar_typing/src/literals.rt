// What literals stand for.
ghost use Rattle.std.specs.Prelude.{◌≡◌, option_map, IfOk};
ghost use Rattle.point_core.specs.declared.fault.Stop.TheVariants.{Fault as Faulted};
ghost use Rattle.point_core.specs.declared.fault.Code.TheVariants.{E06};
ghost use Rattle.point_core.specs.Faults.{fault};
ghost use Rattle.point_core.specs.declared.date_type.Day.{Day};
ghost use Rattle.point_core.specs.declared.moment_type.Second.{Second};
ghost use Rattle.point_core.specs.Points.{line, line_of, number};
ghost use Rattle.scalar_core.specs.Answers.{Gives};
ghost use Rattle.scalar_typing.specs.Typings.{typed};
ghost use Rattle.scalar_typing.specs.Literals as literals;

use crate::typed::{Typed, at_place};
use point_core::{
    AnyPoint, AnyType, Code, Day, Fault, Memory, Place, PointType, Second, Stop, read_date,
    read_moment,
};
use scalar_core::ScalarForm;
use std::alloc::Global;
use std::str;
use utd_syntax::{ExtremeWord, number_up_to};
use value_core::{Kind, Text, Value};

/// The integer of these digits.
pub fn integer_of(digits: &[u8]) -> Option<i64>
    ensures { result ≡ literals.integer_of digits.now }
{
    match number_up_to(9_223_372_036_854_775_807, digits) {
        Some(n) => Some(n as i64),
        None => None,
    }
}

/// The integer of these digits behind a `-`.
pub fn negative_of(digits: &[u8]) -> Option<i64>
    ensures { result ≡ literals.negative_of digits.now }
{
    match number_up_to(9_223_372_036_854_775_808, digits) {
        Some(n) => Some((-i128::from(n)) as i64),
        None => None,
    }
}

/// The refusal of a literal out of its range.
fn out_of_range(place: Place) -> Stop
    ensures { result ≡ Faulted (fault place E06) }
{
    Stop::Fault(Fault {
        place,
        code: Code::E06,
    })
}

/// A point of the type.
pub fn point_constant(at: Place, t: AnyType, p: AnyPoint) -> Typed
    requires { line p ≡ line_of t }
    ensures { typed result ≡ literals.point_constant at t (number p) }
{
    let kind = Kind::Point(t);
    at_place(at, ScalarForm::Constant(kind, Value::Point(p)), kind)
}

/// TRUE or FALSE.
pub fn truth_constant(at: Place, b: bool) -> Typed
    ensures { typed result ≡ literals.truth_constant at b }
{
    at_place(
        at,
        ScalarForm::Constant(Kind::Truth, Value::Truth(b)),
        Kind::Truth,
    )
}

/// An integer, which stands at its first token.
pub fn integer_literal(at: Place, digits: Place, n: Option<i64>) -> Result<Typed, Stop>
    ensures { Gives typed result (literals.integer_literal at digits n) }
{
    match n {
        Some(n) => Ok(point_constant(at, AnyType::Integer, AnyPoint::Integer(n))),
        None => Err(out_of_range(digits)),
    }
}

/// The text of these bytes, where it is UTF-8 and not too long.
fn text_of(alloc: Global, bytes: &[u8]) -> Result<Option<Text>, Memory>
    ensures { IfOk result (λ t. t ≡ literals.text_of bytes.now) }
{
    match str::from_utf8(bytes) {
        Ok(text) => Text::make(alloc, text),
        Err(_) => Ok(None),
    }
}

/// A text.
pub fn text_literal(alloc: Global, at: Place, bytes: &[u8]) -> Result<Typed, Stop>
    ensures { Gives typed result (literals.text_literal at bytes.now) }
{
    match text_of(alloc, bytes)? {
        Some(text) => {
            let form = ScalarForm::Constant(Kind::Char, Value::Char(text));
            Ok(at_place(at, form, Kind::Char))
        }
        None => Err(out_of_range(at)),
    }
}

/// The day of the date that is written.
fn date_of(bytes: &[u8]) -> Option<Day>
    ensures { option_map (λ (d : Day). d.number) result ≡ literals.date_of bytes.now }
{
    let day = read_date(bytes);
    day
}

/// A date, which stands at DATE.
pub fn date_literal(at: Place, quoted: Place, bytes: &[u8]) -> Result<Typed, Stop>
    ensures { Gives typed result (literals.date_literal at quoted bytes.now) }
{
    match date_of(bytes) {
        Some(day) => Ok(point_constant(at, AnyType::Date, AnyPoint::Date(day.number))),
        None => Err(out_of_range(quoted)),
    }
}

/// The moment that is written.
fn moment_of(bytes: &[u8]) -> Option<Second>
    ensures { option_map (λ (m : Second). m.number) result ≡ literals.moment_of bytes.now }
{
    let moment = read_moment(bytes);
    moment
}

/// A moment, which stands at MOMENT.
pub fn moment_literal(at: Place, quoted: Place, bytes: &[u8]) -> Result<Typed, Stop>
    ensures { Gives typed result (literals.moment_literal at quoted bytes.now) }
{
    match moment_of(bytes) {
        Some(moment) => {
            let p = AnyPoint::Moment(moment.number);
            Ok(point_constant(at, AnyType::Moment, p))
        }
        None => Err(out_of_range(quoted)),
    }
}

/// The first or the last point of the type.
pub fn extreme_constant(at: Place, word: ExtremeWord, t: AnyType) -> Typed
    ensures { typed result ≡ literals.extreme_constant at word t }
{
    match word {
        ExtremeWord::First => point_constant(at, t, t.first()),
        ExtremeWord::Last => point_constant(at, t, t.last()),
    }
}

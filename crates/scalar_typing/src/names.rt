// What names stand for.
ghost use Rattle.std.specs.Prelude.{◌≡◌, ◌<◌, ◌≤◌, length, option_map, IfSome};
ghost use Rattle.std.specs.Str.{bytes_eq};
ghost use Rattle.utd_syntax.specs.Read.{read_name, read_point};
ghost use Rattle.point_core.specs.Faults.{fault};
ghost use Rattle.value_core.specs.Limits.{most_ordinal_types, most_ordinal_values};
ghost use Rattle.scalar_core.specs.Answers.{Gives};
ghost use Rattle.scalar_typing.specs.Typings.{typed};
ghost use Rattle.scalar_typing.specs.Names as names;
ghost use Rattle.scalar_typing.specs.Names.{AreOrdinals};

use crate::literals::{extreme_constant, point_constant};
use crate::typed::{Typed, at_place};
use point_core::{AnyPoint, AnyType, Code, Fault, Place, Stop};
use scalar_core::ScalarForm;
use utd_syntax::{ExtremeWord, PointName, Word};
use value_core::{Heading, Kind, Name, Names, OrdinalNames, OrdinalTypes};

/// Whether the name has these bytes.
fn is_called(name: &Name, bytes: &[u8]) -> bool
    ensures { result ≡ bytes_eq name.now bytes.now }
{
    name.as_str().as_bytes() == bytes
}

/// The position and the kind of an attribute.
pub fn attribute_of(heading: &Heading, name: &[u8]) -> Option<(usize, Kind)>
    ensures { result ≡ names.attribute_of heading.now name.now }
{
    for (at, attribute) in heading.attributes().iter().enumerate() {
        if is_called(&attribute.0, name) {
            return Some((at, attribute.1));
        }
    }
    None
}

/// A name that stands for nothing.
fn unknown(word: &Word, code: Code) -> Fault
    ensures { result ≡ fault word.now.place code }
{
    Fault {
        place: word.place,
        code,
    }
}

/// An attribute.
pub fn attribute_typed(heading: &Heading, word: &Word) -> Result<Typed, Stop>
    ensures { Gives typed result (names.attribute_typed heading.now (read_name word.now)) }
{
    match attribute_of(heading, word.bytes.list.as_slice()) {
        Some((at, kind)) => Ok(at_place(word.place, ScalarForm::Attribute(at), kind)),
        None => Err(Stop::Fault(unknown(word, Code::E14))),
    }
}

/// The ordinal type of the name, and its place among the types.
fn ordinal_of<'a>(types: &'a OrdinalTypes, name: &[u8]) -> Option<(usize, &'a OrdinalNames)>
    requires { AreOrdinals types.now }
    ensures found { option_map (λ found. (found.0, found.1.now)) result ≡ names.ordinal_of types.now name.now }
    ensures few { IfSome result (λ found. (found.0 < most_ordinal_types) × (length found.1.now.values ≤ most_ordinal_values)) }
{
    for (at, ordinal) in types.list.iter().enumerate() {
        if is_called(&ordinal.name, name) {
            return Some((at, ordinal));
        }
    }
    None
}

/// The number of the value of the name.
fn value_of(values: &Names, name: &[u8]) -> Option<usize>
    ensures found { result ≡ names.value_of values.now name.now }
    ensures within { IfSome result (λ at. at < length values.now) }
{
    for (at, value) in values.list.iter().enumerate() {
        if is_called(value, name) {
            return Some(at);
        }
    }
    None
}

/// The point type of an ordinal type at its place.
fn ordinal_type(at: usize, ordinal: &OrdinalNames) -> AnyType
    requires place { at ≤ most_ordinal_types }
    requires values { length ordinal.now.values ≤ most_ordinal_values }
    ensures { result ≡ names.ordinal_type (at, ordinal.now) }
{
    let last = ordinal.values.list.len().saturating_sub(1);
    AnyType::Ordinal {
        of: at as u8,
        last: last as u16,
    }
}

/// The point type of a name.
pub fn point_type(types: &OrdinalTypes, name: &PointName) -> Result<AnyType, Fault>
    requires { AreOrdinals types.now }
    ensures { result ≡ names.point_type types.now (read_point name.now) }
{
    match name {
        PointName::Integer(_) => Ok(AnyType::Integer),
        PointName::Date(_) => Ok(AnyType::Date),
        PointName::Moment(_) => Ok(AnyType::Moment),
        PointName::Named(word) => match ordinal_of(types, word.bytes.list.as_slice()) {
            Some((at, ordinal)) => Ok(ordinal_type(at, ordinal)),
            None => Err(unknown(word, Code::E10)),
        },
    }
}

/// A value of an ordinal type.
pub fn ordinal_value(types: &OrdinalTypes, n: &Word, v: &Word) -> Result<Typed, Stop>
    requires { AreOrdinals types.now }
    ensures { Gives typed result (names.ordinal_value types.now (read_name n.now) (read_name v.now)) }
{
    let Some((of, ordinal)) = ordinal_of(types, n.bytes.list.as_slice()) else {
        return Err(Stop::Fault(unknown(n, Code::E10)));
    };
    let Some(number) = value_of(&ordinal.values, v.bytes.list.as_slice()) else {
        return Err(Stop::Fault(unknown(v, Code::E10)));
    };
    let p = AnyPoint::Ordinal {
        of: of as u8,
        at: number as u16,
    };
    Ok(point_constant(n.place, ordinal_type(of, ordinal), p))
}

/// The first or the last point of a type.
pub fn extreme(
    types: &OrdinalTypes,
    place: Place,
    word: ExtremeWord,
    name: &PointName,
) -> Result<Typed, Stop>
    requires { AreOrdinals types.now }
    ensures { Gives typed result (names.extreme_typed types.now place word (read_point name.now)) }
{
    let t = point_type(types, name)?;
    Ok(extreme_constant(place, word, t))
}

// Values of ordinal types at the front of bytes.
ghost use Rattle.std.specs.Prelude.{◌≡◌, ◌<◌, ◌∷◌, [], length, option_map, pos, IfSome, true};
ghost use Rattle.std.specs.Str.{bytes_eq};
ghost use Rattle.point_core.specs.Points.{number, IsPointOf};
ghost use Rattle.utd_lexer.specs.declared.token.TokenKind.TheVariants.{Word};
ghost use Rattle.scalar_typing.specs.Names as names;
ghost use Rattle.plain_rows.specs.Lexemes.{Begins};
ghost use Rattle.plain_rows.specs.Words.{IsFreeWord};
ghost use Rattle.plain_rows.specs.Written.{dot, IsValueOf, BeginsWithDotted};

use crate::columns::is_unreserved;
use crate::scan::{past_space, past_symbol, word};
use point_core::{AnyPoint, AnyType};
use value_core::{
    MOST_NAME_BYTES, MOST_ORDINAL_TYPES, MOST_ORDINAL_VALUES, Name, Names, OrdinalNames,
    OrdinalTypes,
};

/// Whether the name has these bytes.
fn is_called(name: &Name, bytes: &[u8]) -> bool
    ensures { result ≡ bytes_eq name.now bytes.now }
{
    name.as_str().as_bytes() == bytes
}

/// The ordinal type of the name, and its place among the types.
fn ordinal_of<'a>(types: &'a OrdinalTypes, name: &[u8]) -> Option<(usize, &'a OrdinalNames)>
    ensures { option_map (λ found. (found.0, found.1.now)) result ≡ names.ordinal_of types.now name.now }
{
    for (at, ordinal) in types.list.iter().enumerate() {
        if is_called(&ordinal.name, name) {
            return Some((at, ordinal));
        }
    }
    None
}

/// The number of the value of the name.
fn value_of(values: &Names, name: &[u8]) -> Option<usize>
    ensures found { result ≡ names.value_of values.now name.now }
    ensures within { IfSome result (λ at. at < length values.now) }
{
    for (at, value) in values.list.iter().enumerate() {
        if is_called(value, name) {
            return Some(at);
        }
    }
    None
}

/// The point that the value at a place is, and its type; none where the numbers are too large for them.
fn point_of(of: usize, ordinal: &OrdinalNames, at: usize) -> Option<(AnyType, AnyPoint)>
    requires { at < length ordinal.now.values }
    ensures of_type { IfSome result (λ r. r.0 ≡ names.ordinal_type (of, ordinal.now)) }
    ensures numbered { IfSome result (λ r. number r.1 ≡ pos at) }
    ensures point { IfSome result (λ r. IsPointOf r.0 r.1) }
{
    let count = ordinal.values.list.len();
    if of >= MOST_ORDINAL_TYPES || count > MOST_ORDINAL_VALUES {
        return None;
    }
    let last = count.saturating_sub(1);
    let t = AnyType::Ordinal {
        of: of as u8,
        last: last as u16,
    };
    let p = AnyPoint::Ordinal {
        of: of as u8,
        at: at as u16,
    };
    Some((t, p))
}

/// The value that both names have, and its type.
fn value_named(types: &OrdinalTypes, name: &[u8], value: &[u8]) -> Option<(AnyType, AnyPoint)>
    ensures named { IfSome result (λ r. IsValueOf types.now r.0 (number r.1) name.now value.now) }
    ensures point { IfSome result (λ r. IsPointOf r.0 r.1) }
{
    let (of, ordinal) = ordinal_of(types, name)?;
    let at = value_of(&ordinal.values, value)?;
    let (t, p) = point_of(of, ordinal, at)?;
    Some((t, p))
}

/// Whether the word can be a name.
fn is_free(bytes: &[u8]) -> bool
    ensures { result ≡ true → IsFreeWord bytes.now }
{
    bytes.len() <= MOST_NAME_BYTES && is_unreserved(bytes)
}

/// The word at the front that can be a name, and what is behind it.
fn free_word(text: &[u8]) -> Option<(&[u8], &[u8])>
    ensures begins { IfSome result (λ r. Begins text.now ((Word, r.0.now) ∷ []) r.1.now) }
    ensures free { IfSome result (λ r. IsFreeWord r.0.now) }
{
    let (bytes, rest) = word(text)?;
    if is_free(bytes) {
        Some((bytes, rest))
    } else {
        None
    }
}

/// What is behind a `.`, and the gaps on both sides of it.
fn past_dot(text: &[u8]) -> Option<&[u8]>
    ensures { IfSome result (λ rest. Begins text.now (dot ∷ []) rest.now) }
{
    let here = past_space(text);
    let behind = past_symbol(here, b'.')?;
    Some(past_space(behind))
}

/// The words on both sides of a `.` at the front, and what is behind them.
fn dotted(text: &[u8]) -> Option<(&[u8], &[u8], &[u8])>
    ensures begins { IfSome result (λ r. Begins text.now ((Word, r.0.now) ∷ dot ∷ (Word, r.1.now) ∷ []) r.2.now) }
    ensures free { IfSome result (λ r. IsFreeWord r.0.now × IsFreeWord r.1.now) }
{
    let (name, behind) = free_word(text)?;
    let here = past_dot(behind)?;
    let (value, rest) = free_word(here)?;
    Some((name, value, rest))
}

/// The type of the value of an ordinal type at the front, the value, and what is behind it.
pub(crate) fn ordinal<'a>(
    text: &'a [u8],
    types: &OrdinalTypes,
) -> Option<(AnyType, AnyPoint, &'a [u8])>
    ensures begins { IfSome result (λ r. BeginsWithDotted types.now text.now r.0 (number r.1) r.2.now) }
    ensures point { IfSome result (λ r. IsPointOf r.0 r.1) }
{
    let (name, value, rest) = dotted(text)?;
    let (t, p) = value_named(types, name, value)?;
    Some((t, p, rest))
}

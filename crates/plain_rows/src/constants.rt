// Constants at the front of bytes.
ghost use Rattle.std.specs.Prelude.{◌≡◌, ◌∷◌, [], IfSome, IsTrue};
ghost use Rattle.value_core.specs.Lengths.{is_text};
ghost use Rattle.value_core.specs.Plain.{plain};
ghost use Rattle.plain_rows.specs.Lexemes.{Begins};
ghost use Rattle.plain_rows.specs.Written.{truth_word, BeginsWithConstant};

use crate::doubled::doubled;
use crate::points::point;
use crate::quoted::quoted;
use crate::scan::past_word;
use crate::spans::interval;
use point_core::AnyType;
use std::alloc::Global;
use value_core::{Kind, OrdinalTypes, Text, Value};

/// The truth value at the front, and what is behind it.
pub(crate) fn truth(text: &[u8]) -> Option<(bool, &[u8])>
    ensures { IfSome result (λ r. Begins text.now (truth_word r.0 ∷ []) r.1.now) }
{
    match past_word(text, b"TRUE") {
        Some(rest) => Some((true, rest)),
        None => match past_word(text, b"FALSE") {
            Some(rest) => Some((false, rest)),
            None => None,
        },
    }
}

fn made_text(alloc: Global, written: &str) -> Option<Text>
    ensures same { IfSome result (λ t. t ≡ written.now) }
    ensures is { IfSome result (λ t. IsTrue (is_text written.now)) }
{
    match Text::make(alloc, written) {
        Ok(found) => found,
        Err(_) => None,
    }
}

fn truth_value(text: &[u8]) -> Option<(Value, &[u8])>
    ensures { IfSome result (λ r. (types : _) → BeginsWithConstant types text.now Kind.Truth (plain r.0) r.1.now) }
{
    let (b, rest) = truth(text)?;
    Some((Value::Truth(b), rest))
}

/// The text at the front without quotes in it, and what is behind it.
fn plain_text(alloc: Global, text: &[u8]) -> Option<(Value, &[u8])>
    ensures { IfSome result (λ r. (types : _) → BeginsWithConstant types text.now Kind.Char (plain r.0) r.1.now) }
{
    let (written, rest) = quoted(text)?;
    let made = made_text(alloc, written)?;
    Some((Value::Char(made), rest))
}

/// The text at the front, in which quotes are doubled, and what is behind it.
fn doubled_text(alloc: Global, text: &[u8]) -> Option<(Value, &[u8])>
    ensures { IfSome result (λ r. (types : _) → BeginsWithConstant types text.now Kind.Char (plain r.0) r.1.now) }
{
    let (written, rest) = doubled(alloc, text)?;
    let made = made_text(alloc, written.as_str())?;
    Some((Value::Char(made), rest))
}

fn text_value(alloc: Global, text: &[u8]) -> Option<(Value, &[u8])>
    ensures { IfSome result (λ r. (types : _) → BeginsWithConstant types text.now Kind.Char (plain r.0) r.1.now) }
{
    match plain_text(alloc, text) {
        Some(found) => Some(found),
        None => doubled_text(alloc, text),
    }
}

fn point_value<'a>(text: &'a [u8], of: AnyType, types: &OrdinalTypes) -> Option<(Value, &'a [u8])>
    ensures { IfSome result (λ r. BeginsWithConstant types.now text.now (Kind.Point of) (plain r.0) r.1.now) }
{
    let (p, rest) = point(text, of, types)?;
    Some((Value::Point(p), rest))
}

fn span_value<'a>(text: &'a [u8], of: AnyType, types: &OrdinalTypes) -> Option<(Value, &'a [u8])>
    ensures { IfSome result (λ r. BeginsWithConstant types.now text.now (Kind.Span of) (plain r.0) r.1.now) }
{
    let (i, rest) = interval(text, of, types)?;
    Some((Value::Span(i), rest))
}

/// The constant of the kind at the front, and what is behind it.
pub(crate) fn constant<'a>(
    alloc: Global,
    text: &'a [u8],
    kind: Kind,
    types: &OrdinalTypes,
) -> Option<(Value, &'a [u8])>
    ensures { IfSome result (λ r. BeginsWithConstant types.now text.now kind (plain r.0) r.1.now) }
{
    match kind {
        Kind::Truth => truth_value(text),
        Kind::Char => text_value(alloc, text),
        Kind::Point(of) => point_value(text, of, types),
        Kind::Span(of) => span_value(text, of, types),
    }
}

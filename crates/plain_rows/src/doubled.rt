// Texts at the front of bytes in which quotes are doubled.
ghost use Rattle.std.specs.Prelude.{◌≡◌, ◌∷◌, ◌++◌, IfSome};
ghost use Rattle.std.specs.String.{string_bytes};
ghost use Rattle.plain_rows.specs.Texts.{IsTextPart, IsTextBody};
ghost use Rattle.plain_rows.specs.Written.{BeginsWithText};

use crate::quoted::{before_quote, ends_text, utf8};
use crate::scan::is_same;
use std::alloc::Global;

/// What is before the first quote, and what is behind it.
fn part(text: &[u8]) -> Option<(&str, &[u8])>
    ensures { IfSome result (λ r. IsTextPart text.now r.0.now r.1.now) }
{
    let n = before_quote(text);
    let (front, behind) = text.split_at(n);
    let (quote, rest) = behind.split_first()?;
    let written = utf8(front)?;
    if is_same(*quote, b'\'') {
        Some((written, rest))
    } else {
        None
    }
}

/// What is behind a quote at the front.
fn past_quote(text: &[u8]) -> Option<&[u8]>
    ensures { IfSome result (λ rest. text.now ≡ 39 ∷ rest.now) }
{
    let (first, rest) = text.split_first()?;
    if is_same(*first, b'\'') {
        Some(rest)
    } else {
        None
    }
}

/// The text followed by another one.
fn joined(text: String, more: &str) -> Option<String>
    ensures { IfSome result (λ s. string_bytes s ≡ string_bytes text ++ more.now) }
{
    let mut text = text;
    match text.push_str(more) {
        Ok(()) => Some(text),
        Err(_) => None,
    }
}

/// The text behind its first quote, and what is behind its last one.
fn parts(alloc: Global, body: &[u8]) -> Option<(String, &[u8])>
    ensures { IfSome result (λ r. IsTextBody body.now (string_bytes r.0) r.1.now) }
{
    let mut written = String::new(alloc);
    let mut rest = body;
    'parts: while !rest.is_empty() {
        let (front, behind) = part(rest)?;
        written = joined(written, front)?;
        match past_quote(behind) {
            None => {
                return Some((written, behind));
            }
            Some(more) => {
                written = joined(written, "'")?;
                rest = more;
            }
        }
    }
    None
}

/// The text at the front, in which quotes are doubled and no control character stands, and what is behind it.
pub(crate) fn doubled(alloc: Global, text: &[u8]) -> Option<(String, &[u8])>
    ensures { IfSome result (λ r. BeginsWithText text.now (string_bytes r.0) r.1.now) }
{
    let body = past_quote(text)?;
    let (written, rest) = parts(alloc, body)?;
    if ends_text(rest) {
        Some((written, rest))
    } else {
        None
    }
}

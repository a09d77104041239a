// Texts at the front of bytes.
ghost use Rattle.std.specs.Prelude.{◌≡◌, ◌≤◌, length, IfSome, true, not, ◌&&◌, nat_lt};
ghost use Rattle.std.specs.List.{prefix_len};
ghost use Rattle.std.specs.Str.{IsUtf8};
ghost use Rattle.plain_rows.specs.Lexemes.{ends_before, is_quote, is_text_byte};
ghost use Rattle.plain_rows.specs.Written.{BeginsWithText};

use crate::scan::is_same;
use std::str;

fn is_text_byte(byte: u8) -> bool
    ensures { result ≡ is_text_byte byte }
{
    byte != b'\'' && byte >= 32
}

// Whether a text ends before the byte.
fn is_stopping(byte: u8) -> bool
    ensures { result ≡ (nat_lt byte 128 && not (is_quote byte)) }
{
    byte < 128 && byte != b'\''
}

/// How many bytes stand before a quote or a control character.
pub(crate) fn before_quote(body: &[u8]) -> usize
    ensures value { result ≡ prefix_len is_text_byte body.now }
    ensures within { result ≤ length body.now }
{
    let mut n = 0;
    'plain: while n < body.len() && is_text_byte(body[n]) {
        n += 1;
    }
    n
}

/// Whether a text ends here: its last quote is not doubled.
pub(crate) fn ends_text(rest: &[u8]) -> bool
    ensures { result ≡ ends_before is_quote rest.now }
{
    match rest.split_first() {
        None => true,
        Some((next, _)) => is_stopping(*next),
    }
}

/// The bytes as text, if they are UTF-8.
pub(crate) fn utf8(bytes: &[u8]) -> Option<&str>
    ensures same { IfSome result (λ s. s.now ≡ bytes.now) }
    ensures utf8 { IfSome result (λ s. IsUtf8 bytes.now) }
{
    match str::from_utf8(bytes) {
        Ok(written) => Some(written),
        Err(_) => None,
    }
}

/// The text at the front, in which no quote is doubled and no control character stands, and what is behind it.
pub(crate) fn quoted(text: &[u8]) -> Option<(&str, &[u8])>
    ensures { IfSome result (λ r. BeginsWithText text.now r.0.now r.1.now) }
{
    let (first, body) = text.split_first()?;
    let n = before_quote(body);
    let (front, behind) = body.split_at(n);
    let (second, rest) = behind.split_first()?;
    let written = utf8(front)?;
    if is_same(*first, b'\'') {
        if is_same(*second, b'\'') {
            if ends_text(rest) {
                return Some((written, rest));
            }
        }
    }
    None
}

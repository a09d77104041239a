// Comments of ASCII at the front of bytes.
ghost use Rattle.std.specs.Prelude.{◌≡◌, ◌≢◌, ◌<◌, [], length, IfSome, true};
ghost use Rattle.plain_rows.specs.Comments.{is_end, IsBehindBlock, IsBehindLine};
ghost use Rattle.plain_rows.specs.Lexemes.{Begins};

use crate::scan::is_same;

fn is_line_byte(byte: u8) -> bool
    ensures small { result ≡ true → byte < 128 }
    ensures other { result ≡ true → byte ≢ 10 }
{
    byte < 128 && byte != b'\n'
}

fn is_ascii(byte: u8) -> bool
    ensures { result ≡ true → byte < 128 }
{
    byte < 128
}

/// What is behind the end of the line.
fn past_line(text: &[u8]) -> Option<&[u8]>
    ensures { IfSome result (λ rest. IsBehindLine text.now rest.now) }
{
    let mut rest = text;
    'line: while let Some((first, behind)) = rest.split_first() {
        if is_same(*first, b'\n') {
            return Some(behind);
        }
        if !is_line_byte(*first) {
            return None;
        }
        rest = behind;
    }
    None
}

/// Whether a `*` and a `/` stand here.
fn is_end(text: &[u8]) -> bool
    ensures { result ≡ is_end text.now }
{
    match text.split_first() {
        None => false,
        Some((first, behind)) => match behind.split_first() {
            None => false,
            Some((second, _)) => *first == b'*' && *second == b'/',
        },
    }
}

/// What is behind the first `*` and `/`.
fn past_block(text: &[u8]) -> Option<&[u8]>
    ensures { IfSome result (λ rest. IsBehindBlock text.now rest.now) }
{
    let mut rest = text;
    'block: while let Some((first, behind)) = rest.split_first() {
        if is_end(rest) {
            return Some(rest.split_at(2).1);
        }
        if !is_ascii(*first) {
            return None;
        }
        rest = behind;
    }
    None
}

/// What is behind the comment at the front.
pub(crate) fn past_comment(text: &[u8]) -> Option<&[u8]>
    ensures begins { IfSome result (λ rest. Begins text.now [] rest.now) }
    ensures less { IfSome result (λ rest. length rest.now < length text.now) }
{
    let (first, behind) = text.split_first()?;
    if !is_same(*first, b'/') {
        return None;
    }
    let (second, body) = behind.split_first()?;
    if is_same(*second, b'/') {
        let rest = past_line(body)?;
        return Some(rest);
    }
    if is_same(*second, b'*') {
        let rest = past_block(body)?;
        return Some(rest);
    }
    None
}

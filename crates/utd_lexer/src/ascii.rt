// The tokens at the front of a text of ASCII, each byte of which is a character.
ghost use Rattle.std.specs.Prelude.{◌≡◌, [], ◌∷◌, true, Some, IfSome};
ghost use Rattle.std.specs.Str.{IsAscii};
ghost use Rattle.std.specs.List.{prefix_len};
ghost use Rattle.std.specs.Char.{is_ascii_digit};
ghost use Rattle.utd_lexer.specs.Tokens.{continues, unquoted, EndsAt};
ghost use Rattle.utd_lexer.specs.Prefixes.{TokenFront, PlainPrefix, StepIs};

use crate::prefix::{First, first_of, is_comment, is_continuing, is_pair, is_single};
use crate::space::is_space;
use crate::token::{TokenBytes, TokenKind};
use std::borrow::CowSlice;

/// What stands at the front: a byte of white space, a token with its number of bytes, or what these functions do not tell.
#[derive(Drop)]
pub(crate) enum Step<'a> {
    Blank,
    Token(TokenKind, TokenBytes<'a>, usize),
    Untold,
}

// Whether a word goes on with the byte. Most bytes of words are letters, so these are looked for first.
#[inline(always)]
fn goes_on(byte: u8) -> bool
    ensures { result ≡ continues byte }
{
    byte.is_ascii_alphabetic() || is_continuing(byte as char)
}

fn word_bytes(bytes: &[u8]) -> usize
    ensures { result ≡ prefix_len continues bytes.now }
{
    let mut n = 0;
    'word: while n < bytes.len() && goes_on(bytes[n]) {
        n += 1;
    }
    n
}

fn digit_bytes(bytes: &[u8]) -> usize
    ensures { result ≡ prefix_len is_ascii_digit bytes.now }
{
    let mut n = 0;
    'digits: while n < bytes.len() && bytes[n].is_ascii_digit() {
        n += 1;
    }
    n
}

fn is_unquoted(byte: u8) -> bool
    ensures { result ≡ unquoted byte }
{
    byte != b'\''
}

/// How many of the first bytes are no quotes.
pub(crate) fn unquoted_bytes(bytes: &[u8]) -> usize
    ensures { result ≡ prefix_len unquoted bytes.now }
{
    let mut n = 0;
    'plain: while n < bytes.len() && is_unquoted(bytes[n]) {
        n += 1;
    }
    n
}

// Whether a text ends with the quote before these bytes.
fn ends_text(behind: &[u8]) -> bool
    ensures { result ≡ true → EndsAt TokenKind.Text [] behind.now }
{
    match behind.split_first() {
        None => true,
        Some((next, _)) => is_unquoted(*next),
    }
}

// The text with these bytes behind its first quote, where no quote in it is doubled.
fn text_step<'a>(body: &'a [u8]) -> Step<'a>
    requires { IsAscii body.now }
    ensures { StepIs (39 ∷ body.now) result }
{
    let n = unquoted_bytes(body);
    if n >= body.len() {
        return Step::Untold;
    }
    let (inner, rest) = body.split_at(n);
    let Some((quote, behind)) = rest.split_first() else {
        return Step::Untold;
    };
    if *quote == b'\'' && ends_text(behind) {
        let list = CowSlice::Borrowed(inner);
        Step::Token(TokenKind::Text, TokenBytes { list }, n + 2)
    } else {
        Step::Untold
    }
}

// The symbol of this byte alone, or of it and the next.
fn symbol_bytes(first: u8, rest: &[u8]) -> Option<usize>
    ensures { IfSome result (λ n. TokenFront TokenKind.Symbol (first ∷ rest.now) (Some n)) }
{
    let Some((next, _)) = rest.split_first() else {
        return None;
    };
    let c = first as char;
    let d = *next as char;
    if is_pair(c, d) {
        return Some(2);
    }
    if is_single(c) && !is_comment(c, d) {
        Some(1)
    } else {
        None
    }
}

// The word, integer or symbol of so many bytes at the front.
fn token_step<'a>(kind: TokenKind, n: usize, bytes: &'a [u8]) -> Step<'a>
    requires ascii { IsAscii bytes.now }
    requires front { PlainPrefix bytes.now (Some (kind, n)) }
    ensures { StepIs bytes.now result }
{
    let list = CowSlice::Borrowed(bytes.split_at(n).0);
    Step::Token(kind, TokenBytes { list }, n)
}

// Where the first byte alone does not tell of the front.
fn other_step<'a>(bytes: &'a [u8]) -> Step<'a>
    requires { IsAscii bytes.now }
    ensures { StepIs bytes.now result }
{
    let Some((first, rest)) = bytes.split_first() else {
        return Step::Untold;
    };
    if is_space(*first) {
        return Step::Blank;
    }
    if *first == b'\'' {
        return text_step(rest);
    }
    match symbol_bytes(*first, rest) {
        Some(n) => token_step(TokenKind::Symbol, n, bytes),
        None => Step::Untold,
    }
}

/// What stands at the front of the bytes.
pub(crate) fn step_of<'a>(bytes: &'a [u8]) -> Step<'a>
    requires { IsAscii bytes.now }
    ensures { StepIs bytes.now result }
{
    let Some((first, _)) = bytes.split_first() else {
        return Step::Untold;
    };
    match first_of(*first as char) {
        First::Word => token_step(TokenKind::Word, word_bytes(bytes), bytes),
        First::Integer => token_step(TokenKind::Integer, digit_bytes(bytes), bytes),
        First::Lone => token_step(TokenKind::Symbol, 1, bytes),
        First::Other => other_step(bytes),
    }
}

// The token, or the white space or comment, at the front of characters.
ghost use Rattle.std.specs.Prelude.{◌≡◌, ◌==◌, ◌||◌, ◌+◌, ◌<◌, ◌∷◌, ◌++◌, length, Some, IfOk, IfSome, OnOk, encode_utf8, encode_utf8_all};
ghost use Rattle.std.specs.List.{prefix_len};
ghost use Rattle.std.specs.Char.{is_ascii_alphabetic, is_ascii_alphanumeric, is_ascii_digit};
ghost use Rattle.utd_lexer.specs.Parts.{is_space};
ghost use Rattle.utd_lexer.specs.Tokens.{starts, continues, unquoted, singles, seconds, among, opens_comment};
ghost use Rattle.utd_lexer.specs.Prefixes.{lone, FirstIs, TokenFront, GapFront, PlainPrefix, PrefixIs, TextPrefix, TurnIs};

use crate::encoding::split_behind;
use crate::space::is_space;
use crate::token::{TokenBytes, TokenKind};
use point_core::Memory;
use std::alloc::Global;
use std::borrow::CowSlice;

/// What stands at the front, with its number of characters.
#[derive(Drop)]
pub(crate) enum Prefix<'a> {
    Gap(usize),
    Token(TokenKind, TokenBytes<'a>, usize),
    Nothing,
}

/// What the first character alone tells of the front.
#[derive(Clone, Copy)]
pub(crate) enum First {
    Word,
    Integer,
    Lone,
    Other,
}

/// How a text goes on.
#[derive(Clone, Copy)]
enum Turn {
    Ends,
    Quote,
    Plain(char),
}

fn is_space_char(c: char) -> bool
    ensures { result ≡ is_space c }
{
    c.is_ascii() && is_space(c as u8)
}

fn is_ascii_start(c: char) -> bool
    ensures { result ≡ (is_ascii_alphabetic c || (c == 95)) }
{
    c.is_ascii_alphabetic() || c == '_'
}

fn is_any_start(c: char) -> bool
    ensures { result ≡ starts c }
{
    unicode_ident::is_xid_start(c) || c == '_'
}

fn is_start(c: char) -> bool
    ensures { result ≡ starts c }
{
    if c < '\u{80}' {
        return is_ascii_start(c);
    }
    is_any_start(c)
}

fn is_ascii_continuing(c: char) -> bool
    ensures { result ≡ (is_ascii_alphanumeric c || (c == 95)) }
{
    c.is_ascii_alphanumeric() || c == '_'
}

pub(crate) fn is_continuing(c: char) -> bool
    ensures { result ≡ continues c }
{
    if c < '\u{80}' {
        return is_ascii_continuing(c);
    }
    unicode_ident::is_xid_continue(c)
}

pub(crate) fn is_single(c: char) -> bool
    ensures { result ≡ among c singles }
{
    c == '('
        || c == ')'
        || c == '['
        || c == ']'
        || c == '{'
        || c == '}'
        || c == ','
        || c == ';'
        || c == ':'
        || c == '='
        || c == '<'
        || c == '>'
        || c == '+'
        || c == '-'
        || c == '*'
        || c == '/'
        || c == '.'
}

/// Whether the character is a symbol whatever stands behind it.
fn is_lone(c: char) -> bool
    ensures { result ≡ among c lone }
{
    c == '('
        || c == ')'
        || c == '['
        || c == ']'
        || c == '{'
        || c == '}'
        || c == ','
        || c == ';'
        || c == '='
        || c == '+'
        || c == '-'
        || c == '*'
        || c == '.'
}

pub(crate) fn is_pair(c: char, d: char) -> bool
    ensures { result ≡ among d (seconds c) }
{
    if c == ':' {
        d == '='
    } else if c == '<' {
        d == '>' || d == '='
    } else if c == '>' {
        d == '='
    } else if c == '|' {
        d == '|'
    } else {
        false
    }
}

pub(crate) fn is_comment(c: char, d: char) -> bool
    ensures { result ≡ opens_comment c d }
{
    c == '/' && (d == '/' || d == '*')
}

fn continuing(chars: &[char]) -> usize
    ensures { result ≡ prefix_len continues chars.now }
{
    let mut n = 0;
    'word: while n < chars.len() && is_continuing(chars[n]) {
        n += 1;
    }
    n
}

fn digits(chars: &[char]) -> usize
    ensures { result ≡ prefix_len is_ascii_digit chars.now }
{
    let mut n = 0;
    'digits: while n < chars.len() && chars[n].is_ascii_digit() {
        n += 1;
    }
    n
}

fn word_len(chars: &[char]) -> Option<usize>
    ensures { TokenFront TokenKind.Word chars.now result }
{
    let Some((first, _)) = chars.split_first() else {
        return None;
    };
    if is_start(*first) {
        Some(continuing(chars))
    } else {
        None
    }
}

fn integer_len(chars: &[char]) -> Option<usize>
    ensures { TokenFront TokenKind.Integer chars.now result }
{
    let n = digits(chars);
    if n > 0 { Some(n) } else { None }
}

fn symbol_len(chars: &[char]) -> Option<usize>
    ensures { TokenFront TokenKind.Symbol chars.now result }
{
    let Some((first, rest)) = chars.split_first() else {
        return None;
    };
    let Some((second, _)) = rest.split_first() else {
        return if is_single(*first) { Some(1) } else { None };
    };
    if is_pair(*first, *second) {
        return Some(2);
    }
    if is_single(*first) && !is_comment(*first, *second) {
        Some(1)
    } else {
        None
    }
}

#[inline(always)]
pub(crate) fn first_of(c: char) -> First
    ensures { FirstIs c result }
{
    if is_start(c) {
        First::Word
    } else if is_lone(c) {
        First::Lone
    } else if c.is_ascii_digit() {
        First::Integer
    } else {
        First::Other
    }
}

/// The word, integer or symbol that the first character alone tells of.
fn known_len(chars: &[char]) -> Option<(TokenKind, usize)>
    ensures { IfSome result (λ f. PlainPrefix chars.now (Some f)) }
{
    let Some((first, _)) = chars.split_first() else {
        return None;
    };
    match first_of(*first) {
        First::Word => Some((TokenKind::Word, continuing(chars))),
        First::Integer => Some((TokenKind::Integer, digits(chars))),
        First::Lone => Some((TokenKind::Symbol, 1)),
        First::Other => None,
    }
}

fn plain_len(chars: &[char]) -> Option<(TokenKind, usize)>
    ensures { PlainPrefix chars.now result }
{
    if let Some(n) = word_len(chars) {
        return Some((TokenKind::Word, n));
    }
    if let Some(n) = integer_len(chars) {
        return Some((TokenKind::Integer, n));
    }
    match symbol_len(chars) {
        Some(n) => Some((TokenKind::Symbol, n)),
        None => None,
    }
}

/// The length of a comment `/*` with these characters behind that.
fn block_len(body: &[char]) -> Option<usize>
    ensures { GapFront (47 ∷ (42 ∷ body.now)) result }
{
    let mut n = 0;
    'body: while n + 1 < body.len() {
        if body[n] == '*' && body[n + 1] == '/' {
            return Some(n + 4);
        }
        n += 1;
    }
    None
}

/// The length of a comment `//` with these characters behind that.
fn line_len(body: &[char]) -> usize
    ensures { GapFront (47 ∷ (47 ∷ body.now)) (Some result) }
{
    let mut n = 0;
    'body: while n < body.len() {
        if body[n] == '\n' {
            return n + 3;
        }
        n += 1;
    }
    n + 2
}

fn gap_len(chars: &[char]) -> Option<usize>
    ensures { GapFront chars.now result }
{
    let Some((first, rest)) = chars.split_first() else {
        return None;
    };
    if is_space_char(*first) {
        return Some(1);
    }
    let Some((second, body)) = rest.split_first() else {
        return None;
    };
    if *first == '/' && *second == '*' {
        block_len(body)
    } else if *first == '/' && *second == '/' {
        Some(line_len(body))
    } else {
        None
    }
}

fn push_char(bytes: &mut Vec<u8>, c: char) -> Result<(), Memory>
    ensures { OnOk result (bytes.new.items ≡ bytes.old.items ++ encode_utf8 c) }
{
    if c < '\u{80}' {
        bytes.push(c as u8)?;
        return Ok(());
    }
    let mut space = [0u8; 4];
    bytes.extend_from_slice(c.encode_utf8(&mut space).as_bytes())?;
    Ok(())
}

fn next_turn(rest: &[char]) -> Turn
    requires { 0 < length rest.now }
    ensures { TurnIs rest.now result }
{
    let Some((first, behind)) = rest.split_first() else {
        unreachable!()
    };
    if *first != '\'' {
        return Turn::Plain(*first);
    }
    match behind.split_first() {
        Some((second, _)) if *second == '\'' => Turn::Quote,
        _ => Turn::Ends,
    }
}

fn is_unquoted(c: char) -> bool
    ensures { result ≡ unquoted c }
{
    c != '\''
}

fn before_quote(chars: &[char]) -> usize
    ensures { result ≡ prefix_len unquoted chars.now }
{
    let mut n = 0;
    'plain: while n < chars.len() && is_unquoted(chars[n]) {
        n += 1;
    }
    n
}

/// The text with these characters behind its first quote, where no quote in it is doubled.
fn text_as_written<'a>(body: &[char], bytes: &'a [u8]) -> Option<Prefix<'a>>
    requires { bytes.now ≡ encode_utf8_all body.now }
    ensures { IfSome result (λ f. PrefixIs (39 ∷ body.now) f) }
{
    let n = before_quote(body);
    if n >= body.len() {
        return None;
    }
    match next_turn(body.split_at(n).1) {
        Turn::Ends => {
            let list = CowSlice::Borrowed(split_behind(body, n, bytes).0);
            Some(Prefix::Token(TokenKind::Text, TokenBytes { list }, n + 2))
        }
        _ => None,
    }
}

/// The text with these characters behind its first quote.
fn text_behind<'a>(alloc: Global, body: &[char]) -> Result<Option<Prefix<'a>>, Memory>
    ensures { IfOk result (λ f. TextPrefix (39 ∷ body.now) f) }
{
    let mut list = Vec::new(alloc);
    let mut n = 0;
    'body: while n < body.len() {
        match next_turn(body.split_at(n).1) {
            Turn::Ends => {
                let list = CowSlice::Owned(list);
                let bytes = TokenBytes { list };
                return Ok(Some(Prefix::Token(TokenKind::Text, bytes, n + 2)));
            }
            Turn::Quote => {
                push_char(&mut list, '\'')?;
                n += 2;
            }
            Turn::Plain(c) => {
                push_char(&mut list, c)?;
                n += 1;
            }
        }
    }
    Ok(None)
}

fn text<'a>(alloc: Global, chars: &[char], bytes: &'a [u8]) -> Result<Option<Prefix<'a>>, Memory>
    requires { bytes.now ≡ encode_utf8_all chars.now }
    ensures { IfOk result (λ f. TextPrefix chars.now f) }
{
    let Some((first, body)) = chars.split_first() else {
        return Ok(None);
    };
    if *first != '\'' {
        return Ok(None);
    }
    if let Some(found) = text_as_written(body, split_behind(chars, 1, bytes).1) {
        return Ok(Some(found));
    }
    let found = text_behind(alloc, body)?;
    Ok(found)
}

/// The word, integer or symbol of so many characters at the front.
fn token_of<'a>(kind: TokenKind, n: usize, chars: &[char], bytes: &'a [u8]) -> Prefix<'a>
    requires front { PlainPrefix chars.now (Some (kind, n)) }
    requires encoded { bytes.now ≡ encode_utf8_all chars.now }
    ensures { PrefixIs chars.now result }
{
    let list = CowSlice::Borrowed(split_behind(chars, n, bytes).0);
    Prefix::Token(kind, TokenBytes { list }, n)
}

/// What stands at the front of the characters, which have these bytes.
pub(crate) fn prefix_of<'a>(
    alloc: Global,
    chars: &[char],
    bytes: &'a [u8],
) -> Result<Prefix<'a>, Memory>
    requires { bytes.now ≡ encode_utf8_all chars.now }
    ensures { IfOk result (λ f. PrefixIs chars.now f) }
{
    if let Some((kind, n)) = known_len(chars) {
        return Ok(token_of(kind, n, chars, bytes));
    }
    if let Some(n) = gap_len(chars) {
        return Ok(Prefix::Gap(n));
    }
    if let Some(found) = text(alloc, chars, bytes)? {
        return Ok(found);
    }
    match plain_len(chars) {
        Some((kind, n)) => Ok(token_of(kind, n, chars, bytes)),
        None => Ok(Prefix::Nothing),
    }
}

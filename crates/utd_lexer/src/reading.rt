// The tokens of a statement, and their places.
ghost use Rattle.std.specs.Prelude.{◌≡◌, ◌+◌, ◌++◌, ◌-◌, ◌^◌, ◌≤◌, length, IfOk, IfErr, MatchResult, encode_utf8_all};
ghost use Rattle.std.specs.Str.{IsAscii, chars};
ghost use Rattle.utd_lexer.specs.Parts.{Lacks};
ghost use Rattle.utd_lexer.specs.Tokens.{Fits, next_place, place_after, Lexed};
ghost use Rattle.utd_lexer.specs.Prefixes.{IsOneLine};
ghost use Rattle.utd_lexer.specs.Reading.{AreCharacters, IsValidFront, SoFar, Stops, Reads, Refuses, HasReading, IsOnlyReading, RefusesOnly};

use crate::ascii::{Step, step_of};
use crate::encoding::split_behind;
use crate::prefix::{Prefix, prefix_of};
use crate::token::{Token, TokenKind, TokenList};
use point_core::{Code, Fault, Place};
use std::alloc::{AllocError, Global};
use std::str;
use value_core::Refuse;

fn next_place(place: Place, byte: u8) -> Place
    requires { Fits place 1 }
    ensures { result ≡ next_place place byte }
{
    if byte == b'\n' {
        Place {
            line: place.line + 1,
            column: 1,
        }
    } else {
        Place {
            line: place.line,
            column: place.column + 1,
        }
    }
}

// The place behind bytes among which no line ends.
fn place_in_line(place: Place, bytes: &[u8]) -> Place
    requires fits { Fits place (length bytes.now) }
    requires line { Lacks 10 bytes.now }
    ensures { result ≡ place_after place bytes.now }
{
    Place {
        line: place.line,
        column: place.column + bytes.len() as u32,
    }
}

fn place_over_lines(start: Place, bytes: &[u8]) -> Place
    requires { Fits start (length bytes.now) }
    ensures { result ≡ place_after start bytes.now }
{
    let mut place = start;
    for byte in bytes {
        place = next_place(place, *byte);
    }
    place
}

/// The place of the byte behind these, the first of which has the place `start`. A byte 10 ends a line.
pub fn place_behind(start: Place, bytes: &[u8]) -> Place
    requires { Fits start (length bytes.now) }
    ensures { result ≡ place_after start bytes.now }
{
    let Some((first, rest)) = bytes.split_first() else {
        return start;
    };
    // The line of most statements ends before their first byte.
    let place = next_place(start, *first);
    if rest.contains(&b'\n') {
        place_over_lines(place, rest)
    } else {
        place_in_line(place, rest)
    }
}

fn chars_of_ascii(alloc: Global, bytes: &[u8]) -> Result<Vec<char>, AllocError>
    ensures { IfOk result (λ v. v.items ≡ bytes.now) }
{
    let mut list = Vec::with_capacity(alloc, bytes.len())?;
    for byte in bytes {
        list.push(char::from(*byte))?;
    }
    Ok(list)
}

fn chars_of(alloc: Global, text: &str) -> Result<Vec<char>, AllocError>
    ensures { IfOk result (λ v. v.items ≡ chars text.now) }
{
    text.chars().collect(alloc)
}

/// The characters of bytes that are UTF-8; else how many of the first are.
fn characters(alloc: Global, bytes: &[u8]) -> Result<Result<Vec<char>, usize>, AllocError>
    ensures { IfOk result (λ found. MatchResult found (λ v. AreCharacters v.items bytes.now) (λ n. IsValidFront n bytes.now)) }
{
    match str::from_utf8(bytes) {
        Ok(text) => {
            let list = chars_of(alloc, text)?;
            Ok(Ok(list))
        }
        Err(error) => Ok(Err(error.valid_up_to())),
    }
}

// Room for the tokens of most statements.
const FEW_TOKENS: usize = 16;

fn read_all<'a>(
    alloc: Global,
    chars: &[char],
    text: &'a [u8],
    start: Place,
) -> Result<TokenList<'a>, Refuse>
    requires encoded { text.now ≡ encode_utf8_all chars.now }
    requires fits { Fits start (length (encode_utf8_all chars.now)) }
    ensures read { IfOk result (λ list. Lexed start chars.now list) }
    ensures refused { IfErr result (λ refuse. Stops start chars.now refuse) }
{
    let mut list = Vec::with_capacity(alloc, FEW_TOKENS)?;
    let mut at = 0;
    let mut left = text;
    let mut place = start;
    'text: while at < chars.len() {
        let rest = chars.split_at(at).1;
        match prefix_of(alloc, rest, left)? {
            Prefix::Gap(n) => {
                let (prefix, behind) = split_behind(rest, n, left);
                place = place_behind(place, prefix);
                left = behind;
                at += n;
            }
            Prefix::Token(kind, bytes, n) => {
                list.push(Token { kind, place, bytes })?;
                let (prefix, behind) = split_behind(rest, n, left);
                place = place_behind(place, prefix);
                left = behind;
                at += n;
            }
            Prefix::Nothing => {
                let code = Code::E01;
                return Err(Refuse::At(Fault { place, code }));
            }
        }
    }
    Ok(TokenList { list })
}

// The place behind the bytes of a token of this kind.
fn place_past(place: Place, kind: TokenKind, bytes: &[u8]) -> Place
    requires fits { Fits place (length bytes.now) }
    requires line { IsOneLine kind bytes.now }
    ensures { result ≡ place_after place bytes.now }
{
    match kind {
        TokenKind::Text => place_behind(place, bytes),
        _ => place_in_line(place, bytes),
    }
}

/// The tokens at the front of a text, and where the others begin.
#[derive(Drop)]
struct Front<'a> {
    list: Vec<Token<'a>>,
    at: usize,
    place: Place,
}

// The tokens before the first comment and the first text with a doubled quote, which are read by characters.
fn front_of<'a>(alloc: Global, text: &'a [u8], start: Place) -> Result<Front<'a>, AllocError>
    requires ascii { IsAscii text.now }
    requires fits { Fits start (length text.now) }
    ensures { IfOk result (λ f. SoFar start text.now f.at f.place f.list.items) }
{
    let mut list = Vec::with_capacity(alloc, FEW_TOKENS)?;
    let mut at = 0;
    let mut place = start;
    'text: while at < text.len() {
        let rest = text.split_at(at).1;
        match step_of(rest) {
            Step::Blank => {
                place = place_behind(place, rest.split_at(1).0);
                at += 1;
            }
            Step::Token(kind, bytes, n) => {
                let token = Token { kind, place, bytes };
                list.push(token)?;
                place = place_past(place, kind, rest.split_at(n).0);
                at += n;
            }
            Step::Untold => return Ok(Front { list, at, place }),
        }
    }
    Ok(Front { list, at, place })
}

fn joined<'a>(list: Vec<Token<'a>>, others: TokenList<'a>) -> Result<TokenList<'a>, AllocError>
    ensures { IfOk result (λ all. all ≡ list.entry.items ++ others.entry) }
{
    let mut list = list;
    let mut more = others.list;
    list.append(&mut more)?;
    Ok(TokenList { list })
}

// The tokens of a text of ASCII.
fn read_ascii<'a>(alloc: Global, text: &'a [u8], start: Place) -> Result<TokenList<'a>, Refuse>
    requires ascii { IsAscii text.now }
    requires fits { Fits start (length text.now) }
    ensures read { IfOk result (λ list. Lexed start text.now list) }
    ensures refused { IfErr result (λ refuse. Stops start text.now refuse) }
{
    let Front { list, at, place } = front_of(alloc, text, start)?;
    if at >= text.len() {
        return Ok(TokenList { list });
    }
    let rest = text.split_at(at).1;
    let chars = chars_of_ascii(alloc, rest)?;
    let others = read_all(alloc, &chars, rest, place)?;
    let all = joined(list, others)?;
    Ok(all)
}

/// The tokens of a statement, the first byte of which has the place `start`. They are the longest that
/// there are, with white space and comments between them. Where the bytes are not UTF-8, that is
/// refused with E02 behind the longest front that is; else, where at some character neither a token nor
/// white space nor a comment begins, with E01 there. Bytes have one reading: no other tokens, no other
/// refusal, and never both; and all bytes have one, whatever is answered.
pub fn tokens(alloc: Global, text: &[u8], start: Place) -> Result<TokenList<'_>, Refuse>
    requires { start.line + start.column + length text.now ≤ 2 ^ 32 - 1 }
    ensures some { HasReading start text.now }
    ensures read { IfOk result (λ list. Reads start text.now list) }
    ensures only { IfOk result (λ list. IsOnlyReading start text.now list) }
    ensures refused { IfErr result (λ refuse. Refuses start text.now refuse) }
    ensures refused_only { IfErr result (λ refuse. RefusesOnly start text.now refuse) }
{
    if text.is_ascii() {
        return read_ascii(alloc, text, start);
    }
    let found = characters(alloc, text)?;
    match found {
        Ok(list) => read_all(alloc, &list, text, start),
        Err(valid) => {
            let place = place_behind(start, text.split_at(valid).0);
            let code = Code::E02;
            Err(Refuse::At(Fault { place, code }))
        }
    }
}

// The columns of the first tuple: the names and kinds that the other tuples must have too.
ghost use Rattle.std.specs.Prelude.{◌≡◌, ◌≤◌, ◌∷◌, [], length, IfSome, true};
ghost use Rattle.utd_syntax.specs.declared.terminal.Terminal.TheVariants as terminals;
ghost use Rattle.utd_syntax.specs.Terminals.{word_terminal};
ghost use Rattle.utd_lexer.specs.declared.token.TokenKind.TheVariants.{Word};
ghost use Rattle.plain_rows.specs.Lexemes as lexemes;
ghost use Rattle.plain_rows.specs.Lexemes.{Begins};
ghost use Rattle.plain_rows.specs.Names.{IsNameWord, AreNameWords, IsPlainShape};
ghost use Rattle.plain_rows.specs.Tuples as tuples;

use crate::constants::{constant, truth};
use crate::ordinals::ordinal;
use crate::quoted::utf8;
use crate::scan::{is_continuing, is_start, past_space, past_symbol, past_word, word};
use crate::tuples::past_opening;
use point_core::{AnyType, Place};
use std::alloc::Global;
use std::borrow::CowSlice;
use utd_lexer::{Token, TokenBytes, TokenKind};
use utd_parser::terminal_of;
use utd_syntax::Terminal;
use value_core::{Kind, MOST_ATTRIBUTES, Name, OrdinalTypes};

/// Whether the word is no reserved one.
pub(crate) fn is_unreserved(bytes: &[u8]) -> bool
    ensures { result ≡ true → word_terminal bytes.now ≡ terminals.Name }
{
    let list = CowSlice::Borrowed(bytes);
    let token = Token {
        kind: TokenKind::Word,
        place: Place { line: 1, column: 1 },
        bytes: TokenBytes { list },
    };
    match terminal_of(&token) {
        Terminal::Name => true,
        _ => false,
    }
}

/// Whether the name is a word of ASCII, and no reserved one.
fn is_name_word(name: &Name) -> bool
    ensures { result ≡ true → IsNameWord name.now }
{
    is_word_name(name) && is_unreserved(name.as_str().as_bytes())
}

/// The name with these bytes.
fn made_name(alloc: Global, bytes: &[u8]) -> Option<Name>
    ensures { IfSome result (λ n. n ≡ bytes.now) }
{
    let written = utf8(bytes)?;
    match Name::make(alloc, written) {
        Ok(found) => found,
        Err(_) => None,
    }
}

/// The name that the word is, if it is no reserved one.
pub(crate) fn word_name(alloc: Global, bytes: &[u8]) -> Option<Name>
    ensures same { IfSome result (λ n. n ≡ bytes.now) }
    ensures named { IfSome result (λ n. IsNameWord n) }
{
    let name = made_name(alloc, bytes)?;
    if is_name_word(&name) {
        Some(name)
    } else {
        None
    }
}

/// The name at the front, which is no reserved word, and what is behind it.
pub(crate) fn name_at(alloc: Global, text: &[u8]) -> Option<(Name, &[u8])>
    ensures begins { IfSome result (λ r. Begins text.now ((Word, r.0) ∷ []) r.1.now) }
    ensures named { IfSome result (λ r. IsNameWord r.0) }
{
    let (bytes, rest) = word(text)?;
    let name = word_name(alloc, bytes)?;
    Some((name, rest))
}

fn ordinal_type(text: &[u8], types: &OrdinalTypes) -> Option<AnyType> {
    let (t, _, _) = ordinal(text, types)?;
    Some(t)
}

/// Of which type the point can be that begins with a word.
fn word_type(text: &[u8], types: &OrdinalTypes) -> Option<AnyType> {
    match past_word(text, b"DATE") {
        Some(_) => Some(AnyType::Date),
        None => match past_word(text, b"MOMENT") {
            Some(_) => Some(AnyType::Moment),
            None => ordinal_type(text, types),
        },
    }
}

/// Of which type the point can be that begins here.
fn point_type(text: &[u8], types: &OrdinalTypes) -> Option<AnyType> {
    let (first, _) = text.split_first()?;
    if first.is_ascii_digit() || *first == b'-' {
        Some(AnyType::Integer)
    } else {
        word_type(text, types)
    }
}

fn span_kind(text: &[u8], types: &OrdinalTypes) -> Option<Kind> {
    let of = point_type(past_space(text), types)?;
    Some(Kind::Span(of))
}

/// Of what kind the truth value or the point can be that begins here.
fn other_kind(text: &[u8], types: &OrdinalTypes) -> Option<Kind> {
    match truth(text) {
        Some(_) => Some(Kind::Truth),
        None => {
            let of = point_type(text, types)?;
            Some(Kind::Point(of))
        }
    }
}

/// Of what kind the constant can be that begins here.
fn kind_at(text: &[u8], types: &OrdinalTypes) -> Option<Kind> {
    let (first, behind) = text.split_first()?;
    match *first {
        b'\'' => Some(Kind::Char),
        b'[' | b'(' => span_kind(behind, types),
        _ => other_kind(text, types),
    }
}

/// The name and the kind of the element at the front, and what is behind it.
fn column_at<'a>(
    alloc: Global,
    text: &'a [u8],
    types: &OrdinalTypes,
) -> Option<((Name, Kind), &'a [u8])> {
    let (name, behind) = name_at(alloc, text)?;
    let here = past_space(behind);
    let kind = kind_at(here, types)?;
    let (_value, rest) = constant(alloc, here, kind, types)?;
    Some(((name, kind), past_space(rest)))
}

/// The columns with one more.
pub(crate) fn pushed(list: Vec<(Name, Kind)>, column: (Name, Kind)) -> Option<Vec<(Name, Kind)>> {
    let mut list = list;
    match list.push(column) {
        Ok(()) => Some(list),
        Err(_) => None,
    }
}

/// The names and kinds of the elements of the tuple at the front.
fn columns_met(alloc: Global, text: &[u8], types: &OrdinalTypes) -> Option<Vec<(Name, Kind)>> {
    let mut list: Vec<(Name, Kind)> = Vec::new(alloc);
    let mut rest = past_opening(text)?;
    let mut turn = 0;
    'columns: while turn < MOST_ATTRIBUTES {
        let (column, behind) = column_at(alloc, rest, types)?;
        list = pushed(list, column)?;
        match past_symbol(behind, b',') {
            None => {
                return Some(list);
            }
            Some(more) => {
                rest = past_space(more);
                turn += 1;
            }
        }
    }
    None
}

fn all_continue(bytes: &[u8]) -> bool
    ensures { result ≡ lexemes.all_continue bytes.now }
{
    match bytes.split_first() {
        None => true,
        Some((first, rest)) => is_continuing(*first) && all_continue(rest),
    }
}

fn is_word(bytes: &[u8]) -> bool
    ensures { result ≡ lexemes.is_word bytes.now }
{
    match bytes.split_first() {
        None => false,
        Some((first, rest)) => is_start(*first) && all_continue(rest),
    }
}

fn is_word_name(name: &Name) -> bool
    ensures { result ≡ lexemes.is_word name.now }
{
    is_word(name.as_str().as_bytes())
}

fn are_words(columns: &[(Name, Kind)]) -> bool
    ensures { result ≡ tuples.are_words columns.now }
{
    match columns.split_first() {
        None => true,
        Some((first, rest)) => is_word_name(&first.0) && are_words(rest),
    }
}

fn are_names(columns: &[(Name, Kind)]) -> bool
    ensures { result ≡ true → AreNameWords columns.now }
{
    match columns.split_first() {
        None => true,
        Some((first, rest)) => is_name_word(&first.0) && are_names(rest),
    }
}

/// Whether the columns are those of tuples that are read here.
fn are_plain(columns: &[(Name, Kind)]) -> bool
    ensures { result ≡ true → IsPlainShape columns.now }
{
    if columns.len() > MOST_ATTRIBUTES {
        return false;
    }
    are_words(columns) && are_names(columns)
}

/// The columns of the tuple at the front, if its names are words and none of them is reserved.
pub(crate) fn columns(alloc: Global, text: &[u8], types: &OrdinalTypes) -> Option<Vec<(Name, Kind)>>
    ensures { IfSome result (λ c. IsPlainShape c.items) }
{
    let list = columns_met(alloc, text, types)?;
    if are_plain(list.as_slice()) {
        Some(list)
    } else {
        None
    }
}

// How a statement begins: which relvar gets the rows, and whether under USING.
ghost use Rattle.std.specs.Prelude.{◌≡◌, ◌∷◌, [], ◌++◌, IfSome};
ghost use Rattle.utd_lexer.specs.declared.token.TokenKind.TheVariants.{Word as OfWord};
ghost use Rattle.plain_rows.specs.Heads.{names_in, list_names, head_of, AreListNames, BeginsWithNames, HasNames};
ghost use Rattle.plain_rows.specs.Lexemes.{Begins};
ghost use Rattle.plain_rows.specs.Names.{IsNameWord};
ghost use Rattle.plain_rows.specs.Tuples as tuples;
ghost use Rattle.plain_rows.specs.Tuples.{target, comma, using_word, open_bracket, close_bracket, using_list};
ghost use Rattle.plain_rows.specs.Written.{colon};

use crate::columns::{name_at, word_name};
use crate::scan::{past_assign, past_colon, past_space, past_symbol, past_word, word};
use point_core::Place;
use std::alloc::Global;
use utd_syntax::{Bytes, NameList, Word, Words};
use value_core::{MOST_LISTED, Name};

/// How a statement begins: it sets a relvar, inserts rows, or inserts them under USING with a list.
#[derive(Drop)]
pub(crate) enum Head {
    Set,
    Insert,
    InsertUnder(NameList),
}

/// The name behind INSERT, and what is behind it.
fn inserted(alloc: Global, text: &[u8]) -> Option<(Name, &[u8])>
    ensures begins { IfSome result (λ r. Begins text.now (target tuples.Inserts r.0) r.1.now) }
    ensures named { IfSome result (λ r. IsNameWord r.0) }
{
    let behind = past_word(text, b"INSERT")?;
    let here = past_space(behind);
    let (name, rest) = name_at(alloc, here)?;
    Some((name, rest))
}

/// The name before `:=`, and what is behind that.
fn set(alloc: Global, text: &[u8]) -> Option<(Name, &[u8])>
    ensures begins { IfSome result (λ r. Begins text.now (target tuples.Sets r.0) r.1.now) }
    ensures named { IfSome result (λ r. IsNameWord r.0) }
{
    let (bytes, behind) = word(text)?;
    let here = past_space(behind);
    let rest = past_assign(here)?;
    let name = word_name(alloc, bytes)?;
    Some((name, rest))
}

/// The name as a word of a list. Where it stands is not told: no list is refused here.
fn word_of(alloc: Global, name: &Name) -> Option<Word>
    ensures { IfSome result (λ w. w.bytes.list.items ≡ name.now) }
{
    let place = Place { line: 1, column: 1 };
    match Vec::from_slice(alloc, name.as_str().as_bytes()) {
        Ok(list) => Some(Word {
            place,
            bytes: Bytes { list },
        }),
        Err(_) => None,
    }
}

/// The name at the front, and what is behind it and the gaps.
fn listed_word(alloc: Global, text: &[u8]) -> Option<(Word, &[u8])>
    ensures begins { IfSome result (λ r. Begins text.now ((OfWord, r.0.bytes.list.items) ∷ []) r.1.now) }
    ensures named { IfSome result (λ r. IsNameWord r.0.bytes.list.items) }
{
    let (name, behind) = name_at(alloc, text)?;
    let found = word_of(alloc, &name)?;
    Some((found, past_space(behind)))
}

/// The name behind a comma, and what is behind it and the gaps.
fn next_word(alloc: Global, text: &[u8]) -> Option<(Word, &[u8])>
    ensures begins { IfSome result (λ r. Begins text.now (comma ∷ (OfWord, r.0.bytes.list.items) ∷ []) r.1.now) }
    ensures named { IfSome result (λ r. IsNameWord r.0.bytes.list.items) }
{
    let behind = past_symbol(text, b',')?;
    let here = past_space(behind);
    let (found, rest) = listed_word(alloc, here)?;
    Some((found, rest))
}

/// The words with one more.
fn pushed(words: Vec<Word>, word: Word) -> Option<Vec<Word>>
    ensures { IfSome result (λ v. v.items ≡ words.items ++ word ∷ []) }
{
    let mut words = words;
    match words.push(word) {
        Ok(()) => Some(words),
        Err(_) => None,
    }
}

/// The first name and those at the front, each of which stands behind a comma, and what is behind them.
fn more_words(alloc: Global, text: &[u8], first: Word) -> Option<(Vec<Word>, &[u8])>
    ensures { IfSome result (λ r. HasNames text.now first.bytes.list.items (names_in r.0.items) r.1.now) }
{
    let mut words = pushed(Vec::new(alloc), first)?;
    let mut rest = text;
    let mut turn = 0;
    'words: while turn < MOST_LISTED {
        match next_word(alloc, rest) {
            None => {
                return Some((words, rest));
            }
            Some((word, behind)) => {
                words = pushed(words, word)?;
                rest = behind;
                turn += 1;
            }
        }
    }
    None
}

/// The names at the front with commas between them, and what is behind them.
fn names(alloc: Global, text: &[u8]) -> Option<(NameList, &[u8])>
    ensures { IfSome result (λ r. BeginsWithNames text.now (list_names r.0) r.1.now) }
{
    let place = Place { line: 1, column: 1 };
    let (first, more) = listed_word(alloc, text)?;
    let (list, rest) = more_words(alloc, more, first)?;
    let names = Words { list };
    Some((NameList { place, names }, rest))
}

/// What is behind `USING (`.
fn past_using(text: &[u8]) -> Option<&[u8]>
    ensures { IfSome result (λ rest. Begins text.now (using_word ∷ open_bracket ∷ []) rest.now) }
{
    let behind = past_word(text, b"USING")?;
    let bracket = past_space(behind);
    let opened = past_symbol(bracket, b'(')?;
    Some(past_space(opened))
}

/// What is behind `):`.
fn past_list(text: &[u8]) -> Option<&[u8]>
    ensures { IfSome result (λ rest. Begins text.now (close_bracket ∷ colon ∷ []) rest.now) }
{
    let closed = past_symbol(text, b')')?;
    let sign = past_space(closed);
    let behind = past_colon(sign)?;
    Some(past_space(behind))
}

/// The list behind USING, and what is behind its `:`.
fn list_at(alloc: Global, text: &[u8]) -> Option<(NameList, &[u8])>
    ensures begins { IfSome result (λ r. Begins text.now (using_list (list_names r.0)) r.1.now) }
    ensures named { IfSome result (λ r. AreListNames (tuples.InsertsUnder (list_names r.0))) }
{
    let opened = past_using(text)?;
    let (list, behind) = names(alloc, opened)?;
    let rest = past_list(behind)?;
    Some((list, rest))
}

/// The list behind USING, the name behind INSERT, and what is behind it.
fn used(alloc: Global, text: &[u8]) -> Option<(NameList, Name, &[u8])>
    ensures begins { IfSome result (λ r. Begins text.now (target (tuples.InsertsUnder (list_names r.0)) r.1) r.2.now) }
    ensures listed { IfSome result (λ r. AreListNames (tuples.InsertsUnder (list_names r.0))) }
    ensures named { IfSome result (λ r. IsNameWord r.1) }
{
    let (list, here) = list_at(alloc, text)?;
    let (name, rest) = inserted(alloc, here)?;
    Some((list, name, rest))
}

/// How a statement without USING begins, its relvar's name, and what is behind.
fn plain_head(alloc: Global, text: &[u8]) -> Option<(Head, Name, &[u8])>
    ensures begins { IfSome result (λ r. Begins text.now (target (head_of r.0) r.1) r.2.now) }
    ensures listed { IfSome result (λ r. AreListNames (head_of r.0)) }
    ensures named { IfSome result (λ r. IsNameWord r.1) }
{
    match inserted(alloc, text) {
        Some((name, rest)) => Some((Head::Insert, name, rest)),
        None => match set(alloc, text) {
            Some((name, rest)) => Some((Head::Set, name, rest)),
            None => None,
        },
    }
}

/// How the statement begins, its relvar's name, and what is behind.
pub(crate) fn head_at(alloc: Global, text: &[u8]) -> Option<(Head, Name, &[u8])>
    ensures begins { IfSome result (λ r. Begins text.now (target (head_of r.0) r.1) r.2.now) }
    ensures listed { IfSome result (λ r. AreListNames (head_of r.0)) }
    ensures named { IfSome result (λ r. IsNameWord r.1) }
{
    match used(alloc, text) {
        Some((list, name, rest)) => Some((Head::InsertUnder(list), name, rest)),
        None => plain_head(alloc, text),
    }
}

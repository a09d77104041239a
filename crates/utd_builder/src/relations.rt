// Relational expressions: each part is built from the tokens that stand first.
ghost use Rattle.std.specs.Prelude.{◌≡◌, None, true};
ghost use Rattle.utd_syntax.specs.Pieces.{first as first_of};
ghost use Rattle.utd_syntax.specs.Read.{read_extend, read_operand, read_rel, read_rel_primary, read_summarize, read_term, read_terms, read_using, read_using_part};
ghost use Rattle.utd_syntax.specs.Table.{AfterOperand, MoreInfix, MorePostfix, TheExtend, TheOperand, TheRel, TheRelPrimary, TheSummarize, TheTerm, TheTerms, TheUsing, TheUsingPart};
ghost use Rattle.utd_syntax.specs.Written as written;
ghost use Rattle.utd_builder.specs.Building.{Builds, Gives, Turns, left};
ghost use Rattle.utd_builder.specs.Choices as choices;

use crate::choices::{infix_word, is_infix, is_postfix};
use crate::cursor::Cursor;
use crate::parts::{aggregates, literal, name_list, names, projection, renamings, sets};
use crate::scalars::scalar;
use std::alloc::{AllocError, Global};
use utd_syntax::{
    Extend, Operand, PackWord, Rel, RelPrimary, Summarize, Term, Terminal, Terms, Using, UsingPart,
};

/// A relational expression, in a box: the trees hold it in one.
#[cycle(relations)]
pub fn rel<'a>(alloc: Global, cursor: Cursor<'a>) -> Result<(Box<Rel>, Cursor<'a>), AllocError>
    ensures { Builds TheRel (λ tree. read_rel tree.value) (left cursor.entry) result }
{
    match cursor.terminal() {
        Terminal::Using => {
            let (only, next) = using(alloc, cursor)?;
            Ok((Box::new(alloc, Rel::Using(only))?, next))
        }
        _ => {
            let (only, next) = terms(alloc, cursor)?;
            Ok((Box::new(alloc, Rel::Terms(only))?, next))
        }
    }
}

#[cycle(relations)]
fn terms<'a>(alloc: Global, cursor: Cursor<'a>) -> Result<(Terms, Cursor<'a>), AllocError>
    ensures { Builds TheTerms read_terms (left cursor.entry) result }
{
    let (first, next) = term(alloc, cursor)?;
    let mut so_far = (Terms::One(first), next);
    'chain: while is_infix(so_far.1.terminal()) {
        so_far = joined(alloc, so_far.0, so_far.1)?;
    }
    Ok(so_far)
}

/// The relations so far, an infix, and the relation behind it.
#[cycle(relations)]
fn joined<'a>(
    alloc: Global,
    so_far: Terms,
    cursor: Cursor<'a>,
) -> Result<(Terms, Cursor<'a>), AllocError>
    requires { choices.is_infix (first_of (left cursor)) ≡ true }
    ensures { Turns MoreInfix (λ f. f (read_terms so_far)) (λ tree f. f (read_terms tree)) (left cursor.entry) result }
{
    let inner = Box::new(alloc, so_far)?;
    let place = cursor.place();
    match infix_word(cursor.terminal()) {
        Some(word) => {
            let (right, next) = term(alloc, cursor.skip())?;
            Ok((Terms::Infix(inner, place, word, right), next))
        }
        None => {
            let (right, next) = term(alloc, cursor.skip().skip())?;
            Ok((Terms::NotMatching(inner, place, right), next))
        }
    }
}

#[cycle(relations)]
fn term<'a>(alloc: Global, cursor: Cursor<'a>) -> Result<(Term, Cursor<'a>), AllocError>
    ensures { Builds TheTerm read_term (left cursor.entry) result }
{
    let (first, next) = rel_primary(alloc, cursor)?;
    let mut so_far = (Term::One(first), next);
    'chain: while is_postfix(so_far.1.terminal()) {
        so_far = postfixed(alloc, so_far.0, so_far.1)?;
    }
    Ok(so_far)
}

/// The term so far, and a projection, a condition or renamings behind it.
fn postfixed<'a>(
    alloc: Global,
    so_far: Term,
    cursor: Cursor<'a>,
) -> Result<(Term, Cursor<'a>), AllocError>
    requires { choices.is_postfix (first_of (left cursor)) ≡ true }
    ensures { Turns MorePostfix (λ f. f (read_term so_far)) (λ tree f. f (read_term tree)) (left cursor.entry) result }
{
    let inner = Box::new(alloc, so_far)?;
    let place = cursor.place();
    let behind = cursor.skip();
    match cursor.terminal() {
        Terminal::OpenBrace => {
            let (names, next) = projection(alloc, place, behind)?;
            Ok((Term::Project(inner, names), next))
        }
        Terminal::Where => {
            let (condition, next) = scalar(alloc, behind)?;
            Ok((Term::Where(inner, place, condition), next))
        }
        _ => {
            let (names, next) = renamings(alloc, behind)?;
            Ok((Term::Rename(inner, place, names), next))
        }
    }
}

#[cycle(relations)]
fn rel_primary<'a>(
    alloc: Global,
    cursor: Cursor<'a>,
) -> Result<(RelPrimary, Cursor<'a>), AllocError>
    ensures { Builds TheRelPrimary read_rel_primary (left cursor.entry) result }
{
    match cursor.terminal() {
        Terminal::Extend => {
            let (only, next) = extend(alloc, cursor)?;
            Ok((RelPrimary::Extend(only), next))
        }
        Terminal::Summarize => {
            let (only, next) = summarize(alloc, cursor)?;
            Ok((RelPrimary::Summarize(only), next))
        }
        _ => {
            let (only, next) = operand(alloc, cursor)?;
            Ok((RelPrimary::Operand(only), next))
        }
    }
}

/// A relation that needs no parentheses.
#[cycle(relations)]
pub fn operand<'a>(alloc: Global, cursor: Cursor<'a>) -> Result<(Operand, Cursor<'a>), AllocError>
    ensures { Builds TheOperand read_operand (left cursor.entry) result }
{
    match cursor.terminal() {
        Terminal::Open => enclosed(alloc, cursor),
        Terminal::Pack => packed(alloc, cursor, PackWord::Pack),
        Terminal::Unpack => packed(alloc, cursor, PackWord::Unpack),
        Terminal::Relation => {
            let (only, next) = literal(alloc, cursor)?;
            Ok((Operand::Literal(only), next))
        }
        _ => {
            let (name, next) = cursor.name(alloc)?;
            Ok((Operand::Relvar(name), next))
        }
    }
}

#[cycle(relations)]
fn enclosed<'a>(alloc: Global, cursor: Cursor<'a>) -> Result<(Operand, Cursor<'a>), AllocError>
    requires { first_of (left cursor) ≡ Terminal.Open }
    ensures { Builds TheOperand read_operand (left cursor.entry) result }
{
    let place = cursor.place();
    let (inner, next) = rel(alloc, cursor.skip())?;
    Ok((Operand::Paren(place, inner), next.skip()))
}

#[cycle(relations)]
fn packed<'a>(
    alloc: Global,
    cursor: Cursor<'a>,
    word: PackWord,
) -> Result<(Operand, Cursor<'a>), AllocError>
    requires { first_of (left cursor) ≡ written.pack_word word }
    ensures { Builds TheOperand read_operand (left cursor.entry) result }
{
    let place = cursor.place();
    let (inner, next) = rel(alloc, cursor.skip())?;
    let (names, end) = name_list(alloc, next.skip())?;
    Ok((Operand::Pack(place, word, inner, names), end))
}

#[cycle(relations)]
fn extend<'a>(alloc: Global, cursor: Cursor<'a>) -> Result<(Extend, Cursor<'a>), AllocError>
    requires { first_of (left cursor) ≡ Terminal.Extend }
    ensures { Builds TheExtend read_extend (left cursor.entry) result }
{
    let place = cursor.place();
    let (inner, next) = rel(alloc, cursor.skip())?;
    let (sets, end) = sets(alloc, next.skip())?;
    Ok((Extend::Of(place, inner, sets), end))
}

#[cycle(relations)]
fn summarize<'a>(alloc: Global, cursor: Cursor<'a>) -> Result<(Summarize, Cursor<'a>), AllocError>
    requires { first_of (left cursor) ≡ Terminal.Summarize }
    ensures { Builds TheSummarize read_summarize (left cursor.entry) result }
{
    let place = cursor.place();
    let (inner, next) = rel(alloc, cursor.skip())?;
    let (by, behind) = names(alloc, next.skip())?;
    let (sums, end) = aggregates(alloc, behind.skip())?;
    Ok((Summarize::Of(place, inner, by, sums), end))
}

#[cycle(relations)]
fn using<'a>(alloc: Global, cursor: Cursor<'a>) -> Result<(Using, Cursor<'a>), AllocError>
    requires { first_of (left cursor) ≡ Terminal.Using }
    ensures { Builds TheUsing read_using (left cursor.entry) result }
{
    let place = cursor.place();
    let (names, next) = name_list(alloc, cursor.skip())?;
    let (part, end) = using_part(alloc, next.skip())?;
    Ok((Using::Of(place, names, part), end))
}

#[cycle(relations)]
fn using_part<'a>(alloc: Global, cursor: Cursor<'a>) -> Result<(UsingPart, Cursor<'a>), AllocError>
    ensures { Builds TheUsingPart read_using_part (left cursor.entry) result }
{
    match cursor.terminal() {
        Terminal::Extend => {
            let (only, next) = extend(alloc, cursor)?;
            Ok((UsingPart::Extend(only), next))
        }
        Terminal::Summarize => {
            let (only, next) = summarize(alloc, cursor)?;
            Ok((UsingPart::Summarize(only), next))
        }
        _ => {
            let (left, next) = operand(alloc, cursor)?;
            let (part, end) = used(alloc, left, next)?;
            Ok((part, end))
        }
    }
}

#[cycle(relations)]
fn used<'a>(
    alloc: Global,
    first: Operand,
    cursor: Cursor<'a>,
) -> Result<(UsingPart, Cursor<'a>), AllocError>
    ensures { Gives AfterOperand (λ f. f (read_operand first)) read_using_part (left cursor.entry) result }
{
    match infix_word(cursor.terminal()) {
        Some(word) => {
            let place = cursor.place();
            let (second, next) = operand(alloc, cursor.skip())?;
            Ok((UsingPart::Infix(first, place, word, second), next))
        }
        None => used_otherwise(alloc, first, cursor),
    }
}

#[cycle(relations)]
fn used_otherwise<'a>(
    alloc: Global,
    first: Operand,
    cursor: Cursor<'a>,
) -> Result<(UsingPart, Cursor<'a>), AllocError>
    requires { choices.infix_word_at (first_of (left cursor)) ≡ None }
    ensures { Gives AfterOperand (λ f. f (read_operand first)) read_using_part (left cursor.entry) result }
{
    let place = cursor.place();
    let behind = cursor.skip();
    match cursor.terminal() {
        Terminal::Not => {
            let (second, next) = operand(alloc, behind.skip())?;
            Ok((UsingPart::NotMatching(first, place, second), next))
        }
        Terminal::OpenBrace => {
            let (names, next) = projection(alloc, place, behind)?;
            Ok((UsingPart::Project(first, names), next))
        }
        _ => {
            let (condition, next) = scalar(alloc, behind)?;
            Ok((UsingPart::Where(first, place, condition), next))
        }
    }
}

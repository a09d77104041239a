// Scalars: each part is built from the tokens that stand first.
ghost use Rattle.std.specs.Prelude.{◌≡◌};
ghost use Rattle.utd_syntax.specs.Pieces.{first};
ghost use Rattle.utd_syntax.specs.Read.{read_cmp, read_conj, read_neg, read_point, read_primary, read_prod, read_scalar, read_sign, read_sum};
ghost use Rattle.utd_syntax.specs.Table.{MoreAnd, MoreOr, MoreProd, MoreSum, TheCmp, TheConj, TheNeg, ThePoint, ThePrimary, TheProd, TheScalar, TheSign, TheSum};
ghost use Rattle.utd_syntax.specs.Written as written;
ghost use Rattle.utd_builder.specs.Building.{Builds, Turns, left};
ghost use Rattle.utd_builder.specs.Choices.{end_bracket_at};

use crate::choices::{comparison_word, function_word, pair_word, product_word, sum_word};
use crate::closing::closes;
use crate::cursor::Cursor;
use crate::lone::lone_integer;
use std::alloc::{AllocError, Global};
use utd_syntax::{
    BeginBracket, Comparison, Conjunction, EndBracket, ExtremeWord, FunctionWord, Negation,
    PairWord, PointName, Primary, Product, ProductWord, Scalar, Sign, Sum, SumWord, Terminal,
};

/// A scalar, in a box: the trees hold it in one.
#[cycle(scalars)]
pub fn scalar<'a>(
    alloc: Global,
    cursor: Cursor<'a>,
) -> Result<(Box<Scalar>, Cursor<'a>), AllocError>
    ensures { Builds TheScalar (λ tree. read_scalar tree.value) (left cursor.entry) result }
{
    if let Terminal::Digits = cursor.terminal() {
        if closes(cursor.skip().terminal()) {
            return lone_integer(alloc, cursor);
        }
    }
    disjunction(alloc, cursor)
}

#[cycle(scalars)]
fn disjunction<'a>(
    alloc: Global,
    cursor: Cursor<'a>,
) -> Result<(Box<Scalar>, Cursor<'a>), AllocError>
    ensures { Builds TheScalar (λ tree. read_scalar tree.value) (left cursor.entry) result }
{
    let (first, next) = conjunction(alloc, cursor)?;
    let tree = Box::new(alloc, Scalar::One(first))?;
    let mut so_far = (tree, next);
    'chain: while let Terminal::Or = so_far.1.terminal() {
        so_far = disjoined(alloc, so_far.0, so_far.1)?;
    }
    Ok(so_far)
}

// The scalar so far, OR, and the conjunction behind it.
#[cycle(scalars)]
fn disjoined<'a>(
    alloc: Global,
    so_far: Box<Scalar>,
    cursor: Cursor<'a>,
) -> Result<(Box<Scalar>, Cursor<'a>), AllocError>
    requires { first (left cursor) ≡ Terminal.Or }
    ensures { Turns MoreOr (λ f. f (read_scalar so_far.value)) (λ tree f. f (read_scalar tree.value)) (left cursor.entry) result }
{
    let place = cursor.place();
    let (right, next) = conjunction(alloc, cursor.skip())?;
    let tree = Box::new(alloc, Scalar::Or(so_far, place, right))?;
    Ok((tree, next))
}

#[cycle(scalars)]
fn conjunction<'a>(
    alloc: Global,
    cursor: Cursor<'a>,
) -> Result<(Conjunction, Cursor<'a>), AllocError>
    ensures { Builds TheConj read_conj (left cursor.entry) result }
{
    let (first, next) = negation(alloc, cursor)?;
    let mut so_far = (Conjunction::One(first), next);
    'chain: while let Terminal::And = so_far.1.terminal() {
        so_far = conjoined(alloc, so_far.0, so_far.1)?;
    }
    Ok(so_far)
}

// The conjunction so far, AND, and the negation behind it.
#[cycle(scalars)]
fn conjoined<'a>(
    alloc: Global,
    so_far: Conjunction,
    cursor: Cursor<'a>,
) -> Result<(Conjunction, Cursor<'a>), AllocError>
    requires { first (left cursor) ≡ Terminal.And }
    ensures { Turns MoreAnd (λ f. f (read_conj so_far)) (λ tree f. f (read_conj tree)) (left cursor.entry) result }
{
    let inner = Box::new(alloc, so_far)?;
    let place = cursor.place();
    let (right, next) = negation(alloc, cursor.skip())?;
    Ok((Conjunction::And(inner, place, right), next))
}

#[cycle(scalars)]
fn negation<'a>(alloc: Global, cursor: Cursor<'a>) -> Result<(Negation, Cursor<'a>), AllocError>
    ensures { Builds TheNeg read_neg (left cursor.entry) result }
{
    match cursor.terminal() {
        Terminal::Not => {
            let place = cursor.place();
            let (inner, next) = negation(alloc, cursor.skip())?;
            Ok((Negation::Not(place, Box::new(alloc, inner)?), next))
        }
        _ => {
            let (only, next) = comparison(alloc, cursor)?;
            Ok((Negation::One(only), next))
        }
    }
}

#[cycle(scalars)]
fn comparison<'a>(alloc: Global, cursor: Cursor<'a>) -> Result<(Comparison, Cursor<'a>), AllocError>
    ensures { Builds TheCmp read_cmp (left cursor.entry) result }
{
    let (left, next) = sum(alloc, cursor)?;
    match comparison_word(next.terminal()) {
        None => Ok((Comparison::One(left), next)),
        Some(word) => {
            let place = next.place();
            let (right, end) = sum(alloc, next.skip())?;
            Ok((Comparison::Compare(left, place, word, right), end))
        }
    }
}

#[cycle(scalars)]
fn sum<'a>(alloc: Global, cursor: Cursor<'a>) -> Result<(Sum, Cursor<'a>), AllocError>
    ensures { Builds TheSum read_sum (left cursor.entry) result }
{
    let (first, next) = product(alloc, cursor)?;
    let mut so_far = (Sum::One(first), next);
    'chain: while let Some(word) = sum_word(so_far.1.terminal()) {
        so_far = added(alloc, so_far.0, word, so_far.1)?;
    }
    Ok(so_far)
}

// The sum so far, an operator, and the product behind it.
#[cycle(scalars)]
fn added<'a>(
    alloc: Global,
    so_far: Sum,
    word: SumWord,
    cursor: Cursor<'a>,
) -> Result<(Sum, Cursor<'a>), AllocError>
    requires { first (left cursor) ≡ written.sum_word word }
    ensures { Turns MoreSum (λ f. f (read_sum so_far)) (λ tree f. f (read_sum tree)) (left cursor.entry) result }
{
    let inner = Box::new(alloc, so_far)?;
    let place = cursor.place();
    let (right, next) = product(alloc, cursor.skip())?;
    Ok((Sum::Add(inner, place, word, right), next))
}

#[cycle(scalars)]
fn product<'a>(alloc: Global, cursor: Cursor<'a>) -> Result<(Product, Cursor<'a>), AllocError>
    ensures { Builds TheProd read_prod (left cursor.entry) result }
{
    let (first, next) = sign(alloc, cursor)?;
    let mut so_far = (Product::One(first), next);
    'chain: while let Some(word) = product_word(so_far.1.terminal()) {
        so_far = multiplied(alloc, so_far.0, word, so_far.1)?;
    }
    Ok(so_far)
}

// The product so far, an operator, and the sign behind it.
#[cycle(scalars)]
fn multiplied<'a>(
    alloc: Global,
    so_far: Product,
    word: ProductWord,
    cursor: Cursor<'a>,
) -> Result<(Product, Cursor<'a>), AllocError>
    requires { first (left cursor) ≡ written.product_word word }
    ensures { Turns MoreProd (λ f. f (read_prod so_far)) (λ tree f. f (read_prod tree)) (left cursor.entry) result }
{
    let inner = Box::new(alloc, so_far)?;
    let place = cursor.place();
    let (right, next) = sign(alloc, cursor.skip())?;
    Ok((Product::Multiply(inner, place, word, right), next))
}

#[cycle(scalars)]
fn sign<'a>(alloc: Global, cursor: Cursor<'a>) -> Result<(Sign, Cursor<'a>), AllocError>
    ensures { Builds TheSign read_sign (left cursor.entry) result }
{
    match cursor.terminal() {
        Terminal::Dash => minus(alloc, cursor),
        _ => {
            let (only, next) = primary(alloc, cursor)?;
            Ok((Sign::One(only), next))
        }
    }
}

// A "-" before an integer is one literal with it.
#[cycle(scalars)]
fn minus<'a>(alloc: Global, cursor: Cursor<'a>) -> Result<(Sign, Cursor<'a>), AllocError>
    requires { first (left cursor) ≡ Terminal.Dash }
    ensures { Builds TheSign read_sign (left cursor.entry) result }
{
    let place = cursor.place();
    let behind = cursor.skip();
    match behind.terminal() {
        Terminal::Digits => {
            let digits = behind.bytes(alloc)?;
            let at = behind.place();
            Ok((Sign::NegativeInteger(place, at, digits), behind.skip()))
        }
        _ => {
            let (inner, next) = sign(alloc, behind)?;
            Ok((Sign::Negate(place, Box::new(alloc, inner)?), next))
        }
    }
}

#[cycle(scalars)]
fn primary<'a>(alloc: Global, cursor: Cursor<'a>) -> Result<(Primary, Cursor<'a>), AllocError>
    ensures { Builds ThePrimary read_primary (left cursor.entry) result }
{
    let terminal = cursor.terminal();
    if let Some(word) = function_word(terminal) {
        return function(alloc, cursor, word);
    }
    if let Some(word) = pair_word(terminal) {
        return pair(alloc, cursor, word);
    }
    match terminal {
        Terminal::Open => parenthesized(alloc, cursor),
        Terminal::OpenBracket => bracketed(alloc, cursor),
        Terminal::First => extreme(alloc, cursor, ExtremeWord::First),
        Terminal::Last => extreme(alloc, cursor, ExtremeWord::Last),
        Terminal::Name => attribute(alloc, cursor),
        Terminal::Digits => integer(alloc, cursor),
        Terminal::Quoted => text(alloc, cursor),
        Terminal::Date => date(alloc, cursor),
        Terminal::Moment => moment(alloc, cursor),
        Terminal::True => Ok((Primary::True(cursor.place()), cursor.skip())),
        _ => Ok((Primary::False(cursor.place()), cursor.skip())),
    }
}

fn integer<'a>(alloc: Global, cursor: Cursor<'a>) -> Result<(Primary, Cursor<'a>), AllocError>
    requires { first (left cursor) ≡ Terminal.Digits }
    ensures { Builds ThePrimary read_primary (left cursor.entry) result }
{
    let digits = cursor.bytes(alloc)?;
    let place = cursor.place();
    Ok((Primary::Integer(place, digits), cursor.skip()))
}

fn text<'a>(alloc: Global, cursor: Cursor<'a>) -> Result<(Primary, Cursor<'a>), AllocError>
    requires { first (left cursor) ≡ Terminal.Quoted }
    ensures { Builds ThePrimary read_primary (left cursor.entry) result }
{
    let bytes = cursor.bytes(alloc)?;
    let place = cursor.place();
    Ok((Primary::Text(place, bytes), cursor.skip()))
}

fn date<'a>(alloc: Global, cursor: Cursor<'a>) -> Result<(Primary, Cursor<'a>), AllocError>
    requires { first (left cursor) ≡ Terminal.Date }
    ensures { Builds ThePrimary read_primary (left cursor.entry) result }
{
    let place = cursor.place();
    let text = cursor.skip();
    let bytes = text.bytes(alloc)?;
    let at = text.place();
    Ok((Primary::Date(place, at, bytes), text.skip()))
}

fn moment<'a>(alloc: Global, cursor: Cursor<'a>) -> Result<(Primary, Cursor<'a>), AllocError>
    requires { first (left cursor) ≡ Terminal.Moment }
    ensures { Builds ThePrimary read_primary (left cursor.entry) result }
{
    let place = cursor.place();
    let text = cursor.skip();
    let bytes = text.bytes(alloc)?;
    let at = text.place();
    Ok((Primary::Moment(place, at, bytes), text.skip()))
}

// An attribute, or a value of an ordinal type.
fn attribute<'a>(alloc: Global, cursor: Cursor<'a>) -> Result<(Primary, Cursor<'a>), AllocError>
    requires { first (left cursor) ≡ Terminal.Name }
    ensures { Builds ThePrimary read_primary (left cursor.entry) result }
{
    let (name, next) = cursor.name(alloc)?;
    match next.terminal() {
        Terminal::Dot => {
            let (value, end) = next.skip().name(alloc)?;
            Ok((Primary::Dotted(name, value), end))
        }
        _ => Ok((Primary::Attribute(name), next)),
    }
}

/// The name of a point type.
pub fn point<'a>(alloc: Global, cursor: Cursor<'a>) -> Result<(PointName, Cursor<'a>), AllocError>
    ensures { Builds ThePoint read_point (left cursor.entry) result }
{
    match cursor.terminal() {
        Terminal::Integer => Ok((PointName::Integer(cursor.place()), cursor.skip())),
        Terminal::Date => Ok((PointName::Date(cursor.place()), cursor.skip())),
        Terminal::Moment => Ok((PointName::Moment(cursor.place()), cursor.skip())),
        _ => {
            let (name, next) = cursor.name(alloc)?;
            Ok((PointName::Named(name), next))
        }
    }
}

fn extreme<'a>(
    alloc: Global,
    cursor: Cursor<'a>,
    word: ExtremeWord,
) -> Result<(Primary, Cursor<'a>), AllocError>
    requires { first (left cursor) ≡ written.extreme word }
    ensures { Builds ThePrimary read_primary (left cursor.entry) result }
{
    let place = cursor.place();
    let (name, next) = point(alloc, cursor.skip().skip())?;
    Ok((Primary::Extreme(place, word, name), next.skip()))
}

// "(" and a scalar: in parentheses, or the first bound of an interval that does not hold it.
#[cycle(scalars)]
fn parenthesized<'a>(alloc: Global, cursor: Cursor<'a>) -> Result<(Primary, Cursor<'a>), AllocError>
    requires { first (left cursor) ≡ Terminal.Open }
    ensures { Builds ThePrimary read_primary (left cursor.entry) result }
{
    let place = cursor.place();
    let (begin, next) = scalar(alloc, cursor.skip())?;
    match next.terminal() {
        Terminal::Colon => {
            let (end, last) = scalar(alloc, next.skip())?;
            let bracket = end_bracket(last.terminal());
            let tree = Primary::Selector(place, BeginBracket::Open, begin, end, bracket);
            Ok((tree, last.skip()))
        }
        _ => Ok((Primary::Paren(place, begin), next.skip())),
    }
}

#[cycle(scalars)]
fn bracketed<'a>(alloc: Global, cursor: Cursor<'a>) -> Result<(Primary, Cursor<'a>), AllocError>
    requires { first (left cursor) ≡ Terminal.OpenBracket }
    ensures { Builds ThePrimary read_primary (left cursor.entry) result }
{
    let place = cursor.place();
    let (begin, next) = scalar(alloc, cursor.skip())?;
    let (end, last) = scalar(alloc, next.skip())?;
    let bracket = end_bracket(last.terminal());
    let tree = Primary::Selector(place, BeginBracket::Closed, begin, end, bracket);
    Ok((tree, last.skip()))
}

#[cycle(scalars)]
fn function<'a>(
    alloc: Global,
    cursor: Cursor<'a>,
    word: FunctionWord,
) -> Result<(Primary, Cursor<'a>), AllocError>
    requires { first (left cursor) ≡ written.function word }
    ensures { Builds ThePrimary read_primary (left cursor.entry) result }
{
    let place = cursor.place();
    let (inner, next) = scalar(alloc, cursor.skip().skip())?;
    Ok((Primary::Function(place, word, inner), next.skip()))
}

#[cycle(scalars)]
fn pair<'a>(
    alloc: Global,
    cursor: Cursor<'a>,
    word: PairWord,
) -> Result<(Primary, Cursor<'a>), AllocError>
    requires { first (left cursor) ≡ written.pair_function word }
    ensures { Builds ThePrimary read_primary (left cursor.entry) result }
{
    let place = cursor.place();
    let (left, next) = scalar(alloc, cursor.skip().skip())?;
    let (right, end) = scalar(alloc, next.skip())?;
    Ok((Primary::PairFunction(place, word, left, right), end.skip()))
}

fn end_bracket(terminal: Terminal) -> EndBracket
    ensures { result ≡ end_bracket_at terminal }
{
    match terminal {
        Terminal::CloseBracket => EndBracket::Closed,
        _ => EndBracket::Open,
    }
}

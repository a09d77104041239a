// Written by tools/grammar; change it there.
// The rows of primaries and their parts.
use crate::form::{Form, Row, Taking};
use utd_syntax::Terminal;

pub static THE_NAME: [Row; 1] = [Row::On(Terminal::Name, Taking::Plain, &[])];

pub static COMMA: [Row; 1] = [Row::On(Terminal::Comma, Taking::Separator, &[])];

pub static DATE_TEXT: [Row; 1] = [Row::On(Terminal::Quoted, Taking::Dated, &[])];

pub static MOMENT_TEXT: [Row; 1] = [Row::On(Terminal::Quoted, Taking::Timed, &[])];

pub static NEGATIVE_DIGITS: [Row; 1] = [Row::On(Terminal::Digits, Taking::Negated, &[])];

pub static THE_PRIMARY: [Row; 21] = [
    Row::On(Terminal::Digits, Taking::Plain, &[]),
    Row::On(Terminal::Quoted, Taking::Plain, &[]),
    Row::On(Terminal::Date, Taking::Plain, &[Form::DateText]),
    Row::On(Terminal::Moment, Taking::Plain, &[Form::MomentText]),
    Row::On(Terminal::True, Taking::Plain, &[]),
    Row::On(Terminal::False, Taking::Plain, &[]),
    Row::On(Terminal::Name, Taking::Plain, &[Form::AfterName]),
    Row::On(
        Terminal::Open,
        Taking::Opens(&[Form::TheScalar, Form::AfterScalar]),
        &[],
    ),
    Row::On(
        Terminal::OpenBracket,
        Taking::Opens(&[
            Form::TheScalar,
            Form::Just(Terminal::Colon),
            Form::TheScalar,
            Form::EndOfSelector,
        ]),
        &[],
    ),
    Row::On(Terminal::First, Taking::Plain, &[Form::InPoint]),
    Row::On(Terminal::Last, Taking::Plain, &[Form::InPoint]),
    Row::On(Terminal::Begin, Taking::Plain, &[Form::InParens]),
    Row::On(Terminal::End, Taking::Plain, &[Form::InParens]),
    Row::On(Terminal::Pre, Taking::Plain, &[Form::InParens]),
    Row::On(Terminal::Post, Taking::Plain, &[Form::InParens]),
    Row::On(Terminal::Count, Taking::Plain, &[Form::InParens]),
    Row::On(Terminal::Next, Taking::Plain, &[Form::InParens]),
    Row::On(Terminal::Prior, Taking::Plain, &[Form::InParens]),
    Row::On(Terminal::Union, Taking::Plain, &[Form::InPair]),
    Row::On(Terminal::Intersect, Taking::Plain, &[Form::InPair]),
    Row::On(Terminal::Minus, Taking::Plain, &[Form::InPair]),
];

pub static AFTER_NAME: [Row; 1] = [Row::On(Terminal::Dot, Taking::Plain, &[Form::TheName])];

pub static AFTER_SCALAR: [Row; 2] = [
    Row::On(Terminal::Close, Taking::Plain, &[]),
    Row::On(
        Terminal::Colon,
        Taking::Plain,
        &[Form::TheScalar, Form::EndOfSelector],
    ),
];

pub static END_OF_SELECTOR: [Row; 2] = [
    Row::On(Terminal::CloseBracket, Taking::Plain, &[]),
    Row::On(Terminal::Close, Taking::Plain, &[]),
];

pub static IN_PARENS: [Row; 1] = [Row::On(
    Terminal::Open,
    Taking::Opens(&[Form::TheScalar, Form::Just(Terminal::Close)]),
    &[],
)];

pub static IN_PAIR: [Row; 1] = [Row::On(
    Terminal::Open,
    Taking::Opens(&[
        Form::TheScalar,
        Form::Comma,
        Form::TheScalar,
        Form::Just(Terminal::Close),
    ]),
    &[],
)];

pub static IN_POINT: [Row; 1] = [Row::On(
    Terminal::Open,
    Taking::Opens(&[Form::ThePoint, Form::Just(Terminal::Close)]),
    &[],
)];

pub static THE_SIGN: [Row; 22] = [
    Row::Before(
        Terminal::Dash,
        Terminal::Digits,
        Taking::Plain,
        &[Form::NegativeDigits],
        Taking::Opens(&[Form::TheSign]),
        &[],
    ),
    Row::On(Terminal::Digits, Taking::Plain, &[]),
    Row::On(Terminal::Quoted, Taking::Plain, &[]),
    Row::On(Terminal::Date, Taking::Plain, &[Form::DateText]),
    Row::On(Terminal::Moment, Taking::Plain, &[Form::MomentText]),
    Row::On(Terminal::True, Taking::Plain, &[]),
    Row::On(Terminal::False, Taking::Plain, &[]),
    Row::On(Terminal::Name, Taking::Plain, &[Form::AfterName]),
    Row::On(
        Terminal::Open,
        Taking::Opens(&[Form::TheScalar, Form::AfterScalar]),
        &[],
    ),
    Row::On(
        Terminal::OpenBracket,
        Taking::Opens(&[
            Form::TheScalar,
            Form::Just(Terminal::Colon),
            Form::TheScalar,
            Form::EndOfSelector,
        ]),
        &[],
    ),
    Row::On(Terminal::First, Taking::Plain, &[Form::InPoint]),
    Row::On(Terminal::Last, Taking::Plain, &[Form::InPoint]),
    Row::On(Terminal::Begin, Taking::Plain, &[Form::InParens]),
    Row::On(Terminal::End, Taking::Plain, &[Form::InParens]),
    Row::On(Terminal::Pre, Taking::Plain, &[Form::InParens]),
    Row::On(Terminal::Post, Taking::Plain, &[Form::InParens]),
    Row::On(Terminal::Count, Taking::Plain, &[Form::InParens]),
    Row::On(Terminal::Next, Taking::Plain, &[Form::InParens]),
    Row::On(Terminal::Prior, Taking::Plain, &[Form::InParens]),
    Row::On(Terminal::Union, Taking::Plain, &[Form::InPair]),
    Row::On(Terminal::Intersect, Taking::Plain, &[Form::InPair]),
    Row::On(Terminal::Minus, Taking::Plain, &[Form::InPair]),
];

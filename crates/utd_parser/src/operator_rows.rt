// Written by tools/grammar; change it there.
// The rows of products, sums and comparisons.
use crate::form::{Form, Row, Taking};
use utd_syntax::Terminal;

pub static THE_PROD: [Row; 22] = [
    Row::Before(
        Terminal::Dash,
        Terminal::Digits,
        Taking::Plain,
        &[Form::NegativeDigits, Form::MoreProd],
        Taking::Opens(&[Form::TheSign]),
        &[Form::MoreProd],
    ),
    Row::On(Terminal::Digits, Taking::Plain, &[Form::MoreProd]),
    Row::On(Terminal::Quoted, Taking::Plain, &[Form::MoreProd]),
    Row::On(
        Terminal::Date,
        Taking::Plain,
        &[Form::DateText, Form::MoreProd],
    ),
    Row::On(
        Terminal::Moment,
        Taking::Plain,
        &[Form::MomentText, Form::MoreProd],
    ),
    Row::On(Terminal::True, Taking::Plain, &[Form::MoreProd]),
    Row::On(Terminal::False, Taking::Plain, &[Form::MoreProd]),
    Row::On(
        Terminal::Name,
        Taking::Plain,
        &[Form::AfterName, Form::MoreProd],
    ),
    Row::On(
        Terminal::Open,
        Taking::Opens(&[Form::TheScalar, Form::AfterScalar]),
        &[Form::MoreProd],
    ),
    Row::On(
        Terminal::OpenBracket,
        Taking::Opens(&[
            Form::TheScalar,
            Form::Just(Terminal::Colon),
            Form::TheScalar,
            Form::EndOfSelector,
        ]),
        &[Form::MoreProd],
    ),
    Row::On(
        Terminal::First,
        Taking::Plain,
        &[Form::InPoint, Form::MoreProd],
    ),
    Row::On(
        Terminal::Last,
        Taking::Plain,
        &[Form::InPoint, Form::MoreProd],
    ),
    Row::On(
        Terminal::Begin,
        Taking::Plain,
        &[Form::InParens, Form::MoreProd],
    ),
    Row::On(
        Terminal::End,
        Taking::Plain,
        &[Form::InParens, Form::MoreProd],
    ),
    Row::On(
        Terminal::Pre,
        Taking::Plain,
        &[Form::InParens, Form::MoreProd],
    ),
    Row::On(
        Terminal::Post,
        Taking::Plain,
        &[Form::InParens, Form::MoreProd],
    ),
    Row::On(
        Terminal::Count,
        Taking::Plain,
        &[Form::InParens, Form::MoreProd],
    ),
    Row::On(
        Terminal::Next,
        Taking::Plain,
        &[Form::InParens, Form::MoreProd],
    ),
    Row::On(
        Terminal::Prior,
        Taking::Plain,
        &[Form::InParens, Form::MoreProd],
    ),
    Row::On(
        Terminal::Union,
        Taking::Plain,
        &[Form::InPair, Form::MoreProd],
    ),
    Row::On(
        Terminal::Intersect,
        Taking::Plain,
        &[Form::InPair, Form::MoreProd],
    ),
    Row::On(
        Terminal::Minus,
        Taking::Plain,
        &[Form::InPair, Form::MoreProd],
    ),
];

pub static MORE_PROD: [Row; 2] = [
    Row::On(
        Terminal::Star,
        Taking::Operator,
        &[Form::TheSign, Form::MoreProd],
    ),
    Row::On(
        Terminal::Slash,
        Taking::Operator,
        &[Form::TheSign, Form::MoreProd],
    ),
];

pub static THE_SUM: [Row; 22] = [
    Row::Before(
        Terminal::Dash,
        Terminal::Digits,
        Taking::Plain,
        &[Form::NegativeDigits, Form::MoreProd, Form::MoreSum],
        Taking::Opens(&[Form::TheSign]),
        &[Form::MoreProd, Form::MoreSum],
    ),
    Row::On(
        Terminal::Digits,
        Taking::Plain,
        &[Form::MoreProd, Form::MoreSum],
    ),
    Row::On(
        Terminal::Quoted,
        Taking::Plain,
        &[Form::MoreProd, Form::MoreSum],
    ),
    Row::On(
        Terminal::Date,
        Taking::Plain,
        &[Form::DateText, Form::MoreProd, Form::MoreSum],
    ),
    Row::On(
        Terminal::Moment,
        Taking::Plain,
        &[Form::MomentText, Form::MoreProd, Form::MoreSum],
    ),
    Row::On(
        Terminal::True,
        Taking::Plain,
        &[Form::MoreProd, Form::MoreSum],
    ),
    Row::On(
        Terminal::False,
        Taking::Plain,
        &[Form::MoreProd, Form::MoreSum],
    ),
    Row::On(
        Terminal::Name,
        Taking::Plain,
        &[Form::AfterName, Form::MoreProd, Form::MoreSum],
    ),
    Row::On(
        Terminal::Open,
        Taking::Opens(&[Form::TheScalar, Form::AfterScalar]),
        &[Form::MoreProd, Form::MoreSum],
    ),
    Row::On(
        Terminal::OpenBracket,
        Taking::Opens(&[
            Form::TheScalar,
            Form::Just(Terminal::Colon),
            Form::TheScalar,
            Form::EndOfSelector,
        ]),
        &[Form::MoreProd, Form::MoreSum],
    ),
    Row::On(
        Terminal::First,
        Taking::Plain,
        &[Form::InPoint, Form::MoreProd, Form::MoreSum],
    ),
    Row::On(
        Terminal::Last,
        Taking::Plain,
        &[Form::InPoint, Form::MoreProd, Form::MoreSum],
    ),
    Row::On(
        Terminal::Begin,
        Taking::Plain,
        &[Form::InParens, Form::MoreProd, Form::MoreSum],
    ),
    Row::On(
        Terminal::End,
        Taking::Plain,
        &[Form::InParens, Form::MoreProd, Form::MoreSum],
    ),
    Row::On(
        Terminal::Pre,
        Taking::Plain,
        &[Form::InParens, Form::MoreProd, Form::MoreSum],
    ),
    Row::On(
        Terminal::Post,
        Taking::Plain,
        &[Form::InParens, Form::MoreProd, Form::MoreSum],
    ),
    Row::On(
        Terminal::Count,
        Taking::Plain,
        &[Form::InParens, Form::MoreProd, Form::MoreSum],
    ),
    Row::On(
        Terminal::Next,
        Taking::Plain,
        &[Form::InParens, Form::MoreProd, Form::MoreSum],
    ),
    Row::On(
        Terminal::Prior,
        Taking::Plain,
        &[Form::InParens, Form::MoreProd, Form::MoreSum],
    ),
    Row::On(
        Terminal::Union,
        Taking::Plain,
        &[Form::InPair, Form::MoreProd, Form::MoreSum],
    ),
    Row::On(
        Terminal::Intersect,
        Taking::Plain,
        &[Form::InPair, Form::MoreProd, Form::MoreSum],
    ),
    Row::On(
        Terminal::Minus,
        Taking::Plain,
        &[Form::InPair, Form::MoreProd, Form::MoreSum],
    ),
];

pub static MORE_SUM: [Row; 3] = [
    Row::On(
        Terminal::Plus,
        Taking::Operator,
        &[Form::TheProd, Form::MoreSum],
    ),
    Row::On(
        Terminal::Dash,
        Taking::Operator,
        &[Form::TheProd, Form::MoreSum],
    ),
    Row::On(
        Terminal::Bars,
        Taking::Operator,
        &[Form::TheProd, Form::MoreSum],
    ),
];

pub static THE_CMP: [Row; 22] = [
    Row::Before(
        Terminal::Dash,
        Terminal::Digits,
        Taking::Plain,
        &[
            Form::NegativeDigits,
            Form::MoreProd,
            Form::MoreSum,
            Form::MoreCmp,
        ],
        Taking::Opens(&[Form::TheSign]),
        &[Form::MoreProd, Form::MoreSum, Form::MoreCmp],
    ),
    Row::On(
        Terminal::Digits,
        Taking::Plain,
        &[Form::MoreProd, Form::MoreSum, Form::MoreCmp],
    ),
    Row::On(
        Terminal::Quoted,
        Taking::Plain,
        &[Form::MoreProd, Form::MoreSum, Form::MoreCmp],
    ),
    Row::On(
        Terminal::Date,
        Taking::Plain,
        &[Form::DateText, Form::MoreProd, Form::MoreSum, Form::MoreCmp],
    ),
    Row::On(
        Terminal::Moment,
        Taking::Plain,
        &[
            Form::MomentText,
            Form::MoreProd,
            Form::MoreSum,
            Form::MoreCmp,
        ],
    ),
    Row::On(
        Terminal::True,
        Taking::Plain,
        &[Form::MoreProd, Form::MoreSum, Form::MoreCmp],
    ),
    Row::On(
        Terminal::False,
        Taking::Plain,
        &[Form::MoreProd, Form::MoreSum, Form::MoreCmp],
    ),
    Row::On(
        Terminal::Name,
        Taking::Plain,
        &[
            Form::AfterName,
            Form::MoreProd,
            Form::MoreSum,
            Form::MoreCmp,
        ],
    ),
    Row::On(
        Terminal::Open,
        Taking::Opens(&[Form::TheScalar, Form::AfterScalar]),
        &[Form::MoreProd, Form::MoreSum, Form::MoreCmp],
    ),
    Row::On(
        Terminal::OpenBracket,
        Taking::Opens(&[
            Form::TheScalar,
            Form::Just(Terminal::Colon),
            Form::TheScalar,
            Form::EndOfSelector,
        ]),
        &[Form::MoreProd, Form::MoreSum, Form::MoreCmp],
    ),
    Row::On(
        Terminal::First,
        Taking::Plain,
        &[Form::InPoint, Form::MoreProd, Form::MoreSum, Form::MoreCmp],
    ),
    Row::On(
        Terminal::Last,
        Taking::Plain,
        &[Form::InPoint, Form::MoreProd, Form::MoreSum, Form::MoreCmp],
    ),
    Row::On(
        Terminal::Begin,
        Taking::Plain,
        &[Form::InParens, Form::MoreProd, Form::MoreSum, Form::MoreCmp],
    ),
    Row::On(
        Terminal::End,
        Taking::Plain,
        &[Form::InParens, Form::MoreProd, Form::MoreSum, Form::MoreCmp],
    ),
    Row::On(
        Terminal::Pre,
        Taking::Plain,
        &[Form::InParens, Form::MoreProd, Form::MoreSum, Form::MoreCmp],
    ),
    Row::On(
        Terminal::Post,
        Taking::Plain,
        &[Form::InParens, Form::MoreProd, Form::MoreSum, Form::MoreCmp],
    ),
    Row::On(
        Terminal::Count,
        Taking::Plain,
        &[Form::InParens, Form::MoreProd, Form::MoreSum, Form::MoreCmp],
    ),
    Row::On(
        Terminal::Next,
        Taking::Plain,
        &[Form::InParens, Form::MoreProd, Form::MoreSum, Form::MoreCmp],
    ),
    Row::On(
        Terminal::Prior,
        Taking::Plain,
        &[Form::InParens, Form::MoreProd, Form::MoreSum, Form::MoreCmp],
    ),
    Row::On(
        Terminal::Union,
        Taking::Plain,
        &[Form::InPair, Form::MoreProd, Form::MoreSum, Form::MoreCmp],
    ),
    Row::On(
        Terminal::Intersect,
        Taking::Plain,
        &[Form::InPair, Form::MoreProd, Form::MoreSum, Form::MoreCmp],
    ),
    Row::On(
        Terminal::Minus,
        Taking::Plain,
        &[Form::InPair, Form::MoreProd, Form::MoreSum, Form::MoreCmp],
    ),
];

pub static MORE_CMP: [Row; 16] = [
    Row::On(Terminal::Equal, Taking::Operator, &[Form::TheSum]),
    Row::On(Terminal::NotEqual, Taking::Operator, &[Form::TheSum]),
    Row::On(Terminal::Less, Taking::Operator, &[Form::TheSum]),
    Row::On(Terminal::LessEqual, Taking::Operator, &[Form::TheSum]),
    Row::On(Terminal::Greater, Taking::Operator, &[Form::TheSum]),
    Row::On(Terminal::GreaterEqual, Taking::Operator, &[Form::TheSum]),
    Row::On(Terminal::In, Taking::Operator, &[Form::TheSum]),
    Row::On(Terminal::Includes, Taking::Operator, &[Form::TheSum]),
    Row::On(Terminal::IncludedIn, Taking::Operator, &[Form::TheSum]),
    Row::On(Terminal::Before, Taking::Operator, &[Form::TheSum]),
    Row::On(Terminal::After, Taking::Operator, &[Form::TheSum]),
    Row::On(Terminal::Meets, Taking::Operator, &[Form::TheSum]),
    Row::On(Terminal::Overlaps, Taking::Operator, &[Form::TheSum]),
    Row::On(Terminal::Merges, Taking::Operator, &[Form::TheSum]),
    Row::On(Terminal::Begins, Taking::Operator, &[Form::TheSum]),
    Row::On(Terminal::Ends, Taking::Operator, &[Form::TheSum]),
];

// Written by tools/grammar; change it there.
// The rows of relations and their parts.
use crate::form::{Form, Row, Taking};
use utd_syntax::Terminal;

pub static THE_POINT: [Row; 4] = [
    Row::On(Terminal::Integer, Taking::Plain, &[]),
    Row::On(Terminal::Date, Taking::Plain, &[]),
    Row::On(Terminal::Moment, Taking::Plain, &[]),
    Row::On(Terminal::Name, Taking::Plain, &[]),
];

pub static THE_KIND: [Row; 7] = [
    Row::On(Terminal::Boolean, Taking::Plain, &[]),
    Row::On(Terminal::Char, Taking::Plain, &[]),
    Row::On(Terminal::Interval, Taking::Plain, &[Form::InPoint]),
    Row::On(Terminal::Integer, Taking::Plain, &[]),
    Row::On(Terminal::Date, Taking::Plain, &[]),
    Row::On(Terminal::Moment, Taking::Plain, &[]),
    Row::On(Terminal::Name, Taking::Plain, &[]),
];

pub static THE_ATTRIBUTE: [Row; 1] = [Row::On(Terminal::Name, Taking::Plain, &[Form::TheKind])];

pub static MORE_ATTRIBUTES: [Row; 1] = [Row::On(
    Terminal::Comma,
    Taking::Separator,
    &[Form::TheAttribute, Form::MoreAttributes],
)];

pub static IN_HEADING: [Row; 2] = [
    Row::On(Terminal::CloseBrace, Taking::Plain, &[]),
    Row::On(
        Terminal::Name,
        Taking::Plain,
        &[
            Form::TheKind,
            Form::MoreAttributes,
            Form::Just(Terminal::CloseBrace),
        ],
    ),
];

pub static THE_HEADING: [Row; 1] = [Row::On(
    Terminal::OpenBrace,
    Taking::Opens(&[Form::InHeading]),
    &[],
)];

pub static MORE_NAMES: [Row; 1] = [Row::On(
    Terminal::Comma,
    Taking::Separator,
    &[Form::TheName, Form::MoreNames],
)];

pub static IN_NAMES: [Row; 2] = [
    Row::On(Terminal::CloseBrace, Taking::Plain, &[]),
    Row::On(
        Terminal::Name,
        Taking::Plain,
        &[Form::MoreNames, Form::Just(Terminal::CloseBrace)],
    ),
];

pub static IN_LIST: [Row; 2] = [
    Row::On(Terminal::Close, Taking::Plain, &[]),
    Row::On(
        Terminal::Name,
        Taking::Plain,
        &[Form::MoreNames, Form::Just(Terminal::Close)],
    ),
];

pub static THE_NAMES: [Row; 1] = [Row::On(
    Terminal::OpenBrace,
    Taking::Opens(&[Form::InNames]),
    &[],
)];

pub static THE_LIST: [Row; 1] = [Row::On(Terminal::Open, Taking::Opens(&[Form::InList]), &[])];

pub static THE_SOME_NAMES: [Row; 1] = [Row::On(
    Terminal::OpenBrace,
    Taking::Opens(&[
        Form::TheName,
        Form::MoreNames,
        Form::Just(Terminal::CloseBrace),
    ]),
    &[],
)];

pub static THE_PAREN_NAME: [Row; 1] = [Row::On(
    Terminal::Open,
    Taking::Opens(&[Form::TheName, Form::Just(Terminal::Close)]),
    &[],
)];

pub static THE_ELEMENT: [Row; 1] = [Row::On(Terminal::Name, Taking::Plain, &[Form::TheScalar])];

pub static MORE_ELEMENTS: [Row; 1] = [Row::On(
    Terminal::Comma,
    Taking::Separator,
    &[Form::TheElement, Form::MoreElements],
)];

pub static IN_ELEMENTS: [Row; 2] = [
    Row::On(Terminal::CloseBrace, Taking::Plain, &[]),
    Row::On(
        Terminal::Name,
        Taking::Plain,
        &[
            Form::TheScalar,
            Form::MoreElements,
            Form::Just(Terminal::CloseBrace),
        ],
    ),
];

pub static THE_ELEMENTS: [Row; 1] = [Row::On(
    Terminal::OpenBrace,
    Taking::Opens(&[Form::InElements]),
    &[],
)];

pub static THE_SOME_ELEMENTS: [Row; 1] = [Row::On(
    Terminal::OpenBrace,
    Taking::Opens(&[
        Form::TheElement,
        Form::MoreElements,
        Form::Just(Terminal::CloseBrace),
    ]),
    &[],
)];

pub static THE_TUPLE: [Row; 1] = [Row::On(Terminal::Tuple, Taking::Plain, &[Form::TheElements])];

pub static MORE_TUPLES: [Row; 1] = [Row::On(
    Terminal::Comma,
    Taking::Separator,
    &[Form::TheTuple, Form::MoreTuples],
)];

pub static IN_TUPLES: [Row; 2] = [
    Row::On(Terminal::CloseBrace, Taking::Plain, &[]),
    Row::On(
        Terminal::Tuple,
        Taking::Plain,
        &[
            Form::TheElements,
            Form::MoreTuples,
            Form::Just(Terminal::CloseBrace),
        ],
    ),
];

pub static THE_TUPLES: [Row; 1] = [Row::On(
    Terminal::OpenBrace,
    Taking::Opens(&[Form::InTuples]),
    &[],
)];

pub static THE_LITERAL: [Row; 1] = [Row::On(
    Terminal::Relation,
    Taking::Plain,
    &[Form::AfterRelation],
)];

pub static AFTER_RELATION: [Row; 1] = [Row::Before(
    Terminal::OpenBrace,
    Terminal::Tuple,
    Taking::Opens(&[
        Form::TheTuple,
        Form::MoreTuples,
        Form::Just(Terminal::CloseBrace),
    ]),
    &[],
    Taking::Opens(&[Form::InHeading]),
    &[Form::TheTuples],
)];

pub static THE_SET_ITEM: [Row; 1] = [Row::On(
    Terminal::Name,
    Taking::Plain,
    &[Form::Just(Terminal::Assign), Form::TheScalar],
)];

pub static MORE_SET_ITEMS: [Row; 1] = [Row::On(
    Terminal::Comma,
    Taking::Separator,
    &[Form::TheSetItem, Form::MoreSetItems],
)];

pub static THE_SETS: [Row; 1] = [Row::On(
    Terminal::OpenBrace,
    Taking::Opens(&[
        Form::TheSetItem,
        Form::MoreSetItems,
        Form::Just(Terminal::CloseBrace),
    ]),
    &[],
)];

pub static EMPTY_PARENS: [Row; 1] = [Row::On(
    Terminal::Open,
    Taking::Opens(&[Form::Just(Terminal::Close)]),
    &[],
)];

pub static THE_AGGREGATE_FORM: [Row; 4] = [
    Row::On(Terminal::Count, Taking::Plain, &[Form::EmptyParens]),
    Row::On(Terminal::Sum, Taking::Plain, &[Form::InParens]),
    Row::On(Terminal::Min, Taking::Plain, &[Form::InParens]),
    Row::On(Terminal::Max, Taking::Plain, &[Form::InParens]),
];

pub static THE_AGGREGATE: [Row; 1] = [Row::On(
    Terminal::Name,
    Taking::Plain,
    &[Form::Just(Terminal::Assign), Form::TheAggregateForm],
)];

pub static MORE_AGGREGATES: [Row; 1] = [Row::On(
    Terminal::Comma,
    Taking::Separator,
    &[Form::TheAggregate, Form::MoreAggregates],
)];

pub static THE_AGGREGATES: [Row; 1] = [Row::On(
    Terminal::OpenBrace,
    Taking::Opens(&[
        Form::TheAggregate,
        Form::MoreAggregates,
        Form::Just(Terminal::CloseBrace),
    ]),
    &[],
)];

pub static THE_RENAMING: [Row; 1] = [Row::On(
    Terminal::Name,
    Taking::Plain,
    &[Form::Just(Terminal::As), Form::TheName],
)];

pub static MORE_RENAMINGS: [Row; 1] = [Row::On(
    Terminal::Comma,
    Taking::Separator,
    &[Form::TheRenaming, Form::MoreRenamings],
)];

pub static THE_RENAMINGS: [Row; 1] = [Row::On(
    Terminal::OpenBrace,
    Taking::Opens(&[
        Form::TheRenaming,
        Form::MoreRenamings,
        Form::Just(Terminal::CloseBrace),
    ]),
    &[],
)];

pub static THE_PORTION: [Row; 1] = [Row::On(
    Terminal::Portion,
    Taking::Plain,
    &[Form::TheSomeElements],
)];

pub static MAYBE_PORTION: [Row; 1] = [Row::On(
    Terminal::Portion,
    Taking::Plain,
    &[Form::TheSomeElements],
)];

pub static MAYBE_WHERE: [Row; 1] = [Row::On(Terminal::Where, Taking::Plain, &[Form::TheScalar])];

pub static IN_PROJECTION: [Row; 3] = [
    Row::On(Terminal::CloseBrace, Taking::Plain, &[]),
    Row::On(
        Terminal::Name,
        Taking::Plain,
        &[Form::MoreNames, Form::Just(Terminal::CloseBrace)],
    ),
    Row::On(
        Terminal::All,
        Taking::Plain,
        &[
            Form::Just(Terminal::But),
            Form::TheName,
            Form::MoreNames,
            Form::Just(Terminal::CloseBrace),
        ],
    ),
];

pub static THE_OPERAND: [Row; 5] = [
    Row::On(Terminal::Name, Taking::Plain, &[]),
    Row::On(Terminal::Relation, Taking::Plain, &[Form::AfterRelation]),
    Row::On(
        Terminal::Open,
        Taking::Opens(&[Form::TheRel, Form::Just(Terminal::Close)]),
        &[],
    ),
    Row::On(
        Terminal::Pack,
        Taking::Opens(&[Form::TheRel, Form::Just(Terminal::On), Form::TheList]),
        &[],
    ),
    Row::On(
        Terminal::Unpack,
        Taking::Opens(&[Form::TheRel, Form::Just(Terminal::On), Form::TheList]),
        &[],
    ),
];

pub static THE_EXTEND: [Row; 1] = [Row::On(
    Terminal::Extend,
    Taking::Opens(&[Form::TheRel, Form::Just(Terminal::Colon), Form::TheSets]),
    &[],
)];

pub static THE_SUMMARIZE: [Row; 1] = [Row::On(
    Terminal::Summarize,
    Taking::Opens(&[
        Form::TheRel,
        Form::Just(Terminal::By),
        Form::TheNames,
        Form::Just(Terminal::Colon),
        Form::TheAggregates,
    ]),
    &[],
)];

pub static THE_REL_PRIMARY: [Row; 7] = [
    Row::On(
        Terminal::Extend,
        Taking::Opens(&[Form::TheRel, Form::Just(Terminal::Colon), Form::TheSets]),
        &[],
    ),
    Row::On(
        Terminal::Summarize,
        Taking::Opens(&[
            Form::TheRel,
            Form::Just(Terminal::By),
            Form::TheNames,
            Form::Just(Terminal::Colon),
            Form::TheAggregates,
        ]),
        &[],
    ),
    Row::On(Terminal::Name, Taking::Plain, &[]),
    Row::On(Terminal::Relation, Taking::Plain, &[Form::AfterRelation]),
    Row::On(
        Terminal::Open,
        Taking::Opens(&[Form::TheRel, Form::Just(Terminal::Close)]),
        &[],
    ),
    Row::On(
        Terminal::Pack,
        Taking::Opens(&[Form::TheRel, Form::Just(Terminal::On), Form::TheList]),
        &[],
    ),
    Row::On(
        Terminal::Unpack,
        Taking::Opens(&[Form::TheRel, Form::Just(Terminal::On), Form::TheList]),
        &[],
    ),
];

pub static THE_TERM: [Row; 7] = [
    Row::On(
        Terminal::Extend,
        Taking::Opens(&[Form::TheRel, Form::Just(Terminal::Colon), Form::TheSets]),
        &[Form::MorePostfix],
    ),
    Row::On(
        Terminal::Summarize,
        Taking::Opens(&[
            Form::TheRel,
            Form::Just(Terminal::By),
            Form::TheNames,
            Form::Just(Terminal::Colon),
            Form::TheAggregates,
        ]),
        &[Form::MorePostfix],
    ),
    Row::On(Terminal::Name, Taking::Plain, &[Form::MorePostfix]),
    Row::On(
        Terminal::Relation,
        Taking::Plain,
        &[Form::AfterRelation, Form::MorePostfix],
    ),
    Row::On(
        Terminal::Open,
        Taking::Opens(&[Form::TheRel, Form::Just(Terminal::Close)]),
        &[Form::MorePostfix],
    ),
    Row::On(
        Terminal::Pack,
        Taking::Opens(&[Form::TheRel, Form::Just(Terminal::On), Form::TheList]),
        &[Form::MorePostfix],
    ),
    Row::On(
        Terminal::Unpack,
        Taking::Opens(&[Form::TheRel, Form::Just(Terminal::On), Form::TheList]),
        &[Form::MorePostfix],
    ),
];

pub static MORE_POSTFIX: [Row; 3] = [
    Row::On(
        Terminal::OpenBrace,
        Taking::OperatorOpens(&[Form::InProjection]),
        &[Form::MorePostfix],
    ),
    Row::On(
        Terminal::Where,
        Taking::Operator,
        &[Form::TheScalar, Form::MorePostfix],
    ),
    Row::On(
        Terminal::Rename,
        Taking::Operator,
        &[Form::TheRenamings, Form::MorePostfix],
    ),
];

pub static THE_TERMS: [Row; 7] = [
    Row::On(
        Terminal::Extend,
        Taking::Opens(&[Form::TheRel, Form::Just(Terminal::Colon), Form::TheSets]),
        &[Form::MorePostfix, Form::MoreInfix],
    ),
    Row::On(
        Terminal::Summarize,
        Taking::Opens(&[
            Form::TheRel,
            Form::Just(Terminal::By),
            Form::TheNames,
            Form::Just(Terminal::Colon),
            Form::TheAggregates,
        ]),
        &[Form::MorePostfix, Form::MoreInfix],
    ),
    Row::On(
        Terminal::Name,
        Taking::Plain,
        &[Form::MorePostfix, Form::MoreInfix],
    ),
    Row::On(
        Terminal::Relation,
        Taking::Plain,
        &[Form::AfterRelation, Form::MorePostfix, Form::MoreInfix],
    ),
    Row::On(
        Terminal::Open,
        Taking::Opens(&[Form::TheRel, Form::Just(Terminal::Close)]),
        &[Form::MorePostfix, Form::MoreInfix],
    ),
    Row::On(
        Terminal::Pack,
        Taking::Opens(&[Form::TheRel, Form::Just(Terminal::On), Form::TheList]),
        &[Form::MorePostfix, Form::MoreInfix],
    ),
    Row::On(
        Terminal::Unpack,
        Taking::Opens(&[Form::TheRel, Form::Just(Terminal::On), Form::TheList]),
        &[Form::MorePostfix, Form::MoreInfix],
    ),
];

pub static MORE_INFIX: [Row; 6] = [
    Row::On(
        Terminal::Union,
        Taking::Operator,
        &[Form::TheTerm, Form::MoreInfix],
    ),
    Row::On(
        Terminal::Intersect,
        Taking::Operator,
        &[Form::TheTerm, Form::MoreInfix],
    ),
    Row::On(
        Terminal::Minus,
        Taking::Operator,
        &[Form::TheTerm, Form::MoreInfix],
    ),
    Row::On(
        Terminal::Join,
        Taking::Operator,
        &[Form::TheTerm, Form::MoreInfix],
    ),
    Row::On(
        Terminal::Matching,
        Taking::Operator,
        &[Form::TheTerm, Form::MoreInfix],
    ),
    Row::On(
        Terminal::Not,
        Taking::Operator,
        &[
            Form::Just(Terminal::Matching),
            Form::TheTerm,
            Form::MoreInfix,
        ],
    ),
];

pub static THE_USING: [Row; 1] = [Row::On(
    Terminal::Using,
    Taking::Opens(&[
        Form::TheList,
        Form::Just(Terminal::Colon),
        Form::TheUsingPart,
    ]),
    &[],
)];

pub static THE_REL: [Row; 8] = [
    Row::On(
        Terminal::Using,
        Taking::Opens(&[
            Form::TheList,
            Form::Just(Terminal::Colon),
            Form::TheUsingPart,
        ]),
        &[],
    ),
    Row::On(
        Terminal::Extend,
        Taking::Opens(&[Form::TheRel, Form::Just(Terminal::Colon), Form::TheSets]),
        &[Form::MorePostfix, Form::MoreInfix],
    ),
    Row::On(
        Terminal::Summarize,
        Taking::Opens(&[
            Form::TheRel,
            Form::Just(Terminal::By),
            Form::TheNames,
            Form::Just(Terminal::Colon),
            Form::TheAggregates,
        ]),
        &[Form::MorePostfix, Form::MoreInfix],
    ),
    Row::On(
        Terminal::Name,
        Taking::Plain,
        &[Form::MorePostfix, Form::MoreInfix],
    ),
    Row::On(
        Terminal::Relation,
        Taking::Plain,
        &[Form::AfterRelation, Form::MorePostfix, Form::MoreInfix],
    ),
    Row::On(
        Terminal::Open,
        Taking::Opens(&[Form::TheRel, Form::Just(Terminal::Close)]),
        &[Form::MorePostfix, Form::MoreInfix],
    ),
    Row::On(
        Terminal::Pack,
        Taking::Opens(&[Form::TheRel, Form::Just(Terminal::On), Form::TheList]),
        &[Form::MorePostfix, Form::MoreInfix],
    ),
    Row::On(
        Terminal::Unpack,
        Taking::Opens(&[Form::TheRel, Form::Just(Terminal::On), Form::TheList]),
        &[Form::MorePostfix, Form::MoreInfix],
    ),
];

pub static THE_USING_PART: [Row; 7] = [
    Row::On(
        Terminal::Extend,
        Taking::Opens(&[Form::TheRel, Form::Just(Terminal::Colon), Form::TheSets]),
        &[],
    ),
    Row::On(
        Terminal::Summarize,
        Taking::Opens(&[
            Form::TheRel,
            Form::Just(Terminal::By),
            Form::TheNames,
            Form::Just(Terminal::Colon),
            Form::TheAggregates,
        ]),
        &[],
    ),
    Row::On(Terminal::Name, Taking::Plain, &[Form::AfterOperand]),
    Row::On(
        Terminal::Relation,
        Taking::Plain,
        &[Form::AfterRelation, Form::AfterOperand],
    ),
    Row::On(
        Terminal::Open,
        Taking::Opens(&[Form::TheRel, Form::Just(Terminal::Close)]),
        &[Form::AfterOperand],
    ),
    Row::On(
        Terminal::Pack,
        Taking::Opens(&[Form::TheRel, Form::Just(Terminal::On), Form::TheList]),
        &[Form::AfterOperand],
    ),
    Row::On(
        Terminal::Unpack,
        Taking::Opens(&[Form::TheRel, Form::Just(Terminal::On), Form::TheList]),
        &[Form::AfterOperand],
    ),
];

pub static AFTER_OPERAND: [Row; 8] = [
    Row::On(Terminal::Union, Taking::Operator, &[Form::TheOperand]),
    Row::On(Terminal::Intersect, Taking::Operator, &[Form::TheOperand]),
    Row::On(Terminal::Minus, Taking::Operator, &[Form::TheOperand]),
    Row::On(Terminal::Join, Taking::Operator, &[Form::TheOperand]),
    Row::On(Terminal::Matching, Taking::Operator, &[Form::TheOperand]),
    Row::On(
        Terminal::Not,
        Taking::Operator,
        &[Form::Just(Terminal::Matching), Form::TheOperand],
    ),
    Row::On(
        Terminal::OpenBrace,
        Taking::Opens(&[Form::InProjection]),
        &[],
    ),
    Row::On(Terminal::Where, Taking::Plain, &[Form::TheScalar]),
];

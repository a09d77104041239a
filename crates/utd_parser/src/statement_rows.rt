// Written by tools/grammar; change it there.
// The rows of statements and their parts.
use crate::form::{Form, PlaceWord, Row, Taking};
use utd_syntax::Terminal;

pub static THE_KEY: [Row; 1] = [Row::On(Terminal::Key, Taking::Plain, &[Form::TheNames])];

pub static THE_FOREIGN: [Row; 1] = [Row::On(
    Terminal::Foreign,
    Taking::Plain,
    &[
        Form::Just(Terminal::Key),
        Form::TheNames,
        Form::Just(Terminal::References),
        Form::TheName,
    ],
)];

pub static THE_USED_CONSTRAINT: [Row; 2] = [
    Row::On(Terminal::Key, Taking::Plain, &[Form::TheNames]),
    Row::On(
        Terminal::Foreign,
        Taking::Plain,
        &[
            Form::Just(Terminal::Key),
            Form::TheNames,
            Form::Just(Terminal::References),
            Form::TheName,
        ],
    ),
];

pub static THE_CONSTRAINT: [Row; 5] = [
    Row::On(Terminal::Key, Taking::Plain, &[Form::TheNames]),
    Row::On(
        Terminal::Foreign,
        Taking::Plain,
        &[
            Form::Just(Terminal::Key),
            Form::TheNames,
            Form::Just(Terminal::References),
            Form::TheName,
        ],
    ),
    Row::On(
        Terminal::Packed,
        Taking::Plain,
        &[Form::Just(Terminal::On), Form::TheList],
    ),
    Row::On(
        Terminal::When,
        Taking::Plain,
        &[
            Form::Just(Terminal::Unpacked),
            Form::Just(Terminal::On),
            Form::TheList,
            Form::Just(Terminal::Then),
            Form::TheKey,
        ],
    ),
    Row::On(
        Terminal::Using,
        Taking::Opens(&[
            Form::TheList,
            Form::Just(Terminal::Colon),
            Form::TheUsedConstraint,
        ]),
        &[],
    ),
];

pub static MORE_CONSTRAINTS: [Row; 5] = [
    Row::On(
        Terminal::Key,
        Taking::Plain,
        &[Form::TheNames, Form::MoreConstraints],
    ),
    Row::On(
        Terminal::Foreign,
        Taking::Plain,
        &[
            Form::Just(Terminal::Key),
            Form::TheNames,
            Form::Just(Terminal::References),
            Form::TheName,
            Form::MoreConstraints,
        ],
    ),
    Row::On(
        Terminal::Packed,
        Taking::Plain,
        &[
            Form::Just(Terminal::On),
            Form::TheList,
            Form::MoreConstraints,
        ],
    ),
    Row::On(
        Terminal::When,
        Taking::Plain,
        &[
            Form::Just(Terminal::Unpacked),
            Form::Just(Terminal::On),
            Form::TheList,
            Form::Just(Terminal::Then),
            Form::TheKey,
            Form::MoreConstraints,
        ],
    ),
    Row::On(
        Terminal::Using,
        Taking::Opens(&[
            Form::TheList,
            Form::Just(Terminal::Colon),
            Form::TheUsedConstraint,
        ]),
        &[Form::MoreConstraints],
    ),
];

pub static IN_REL: [Row; 1] = [Row::On(
    Terminal::Open,
    Taking::Opens(&[Form::TheRel, Form::Just(Terminal::Close)]),
    &[],
)];

pub static THE_KEPT: [Row; 2] = [
    Row::On(
        Terminal::Using,
        Taking::Opens(&[
            Form::TheList,
            Form::Just(Terminal::Colon),
            Form::TheName,
            Form::AfterKept,
        ]),
        &[],
    ),
    Row::On(
        Terminal::Pack,
        Taking::Opens(&[Form::TheName, Form::Just(Terminal::On), Form::TheList]),
        &[],
    ),
];

pub static AFTER_KEPT: [Row; 7] = [
    Row::On(Terminal::Union, Taking::Operator, &[Form::TheName]),
    Row::On(Terminal::Intersect, Taking::Operator, &[Form::TheName]),
    Row::On(Terminal::Minus, Taking::Operator, &[Form::TheName]),
    Row::On(Terminal::Join, Taking::Operator, &[Form::TheName]),
    Row::On(Terminal::Matching, Taking::Operator, &[Form::TheName]),
    Row::On(
        Terminal::Not,
        Taking::Operator,
        &[Form::Just(Terminal::Matching), Form::TheName],
    ),
    Row::On(
        Terminal::OpenBrace,
        Taking::Opens(&[Form::InProjection]),
        &[],
    ),
];

pub static IN_KEPT: [Row; 1] = [Row::On(
    Terminal::Open,
    Taking::Opens(&[Form::TheKept, Form::Just(Terminal::Close)]),
    &[],
)];

pub static THE_VAR_FORM: [Row; 3] = [
    Row::On(
        Terminal::Relation,
        Taking::Plain,
        &[Form::TheHeading, Form::MoreConstraints],
    ),
    Row::On(Terminal::Virtual, Taking::Plain, &[Form::InRel]),
    Row::Spelt(PlaceWord::Kept, &[Form::InKept]),
];

pub static THE_COMPARISON: [Row; 5] = [
    Row::On(Terminal::Name, Taking::Plain, &[Form::AfterLeft]),
    Row::On(
        Terminal::Relation,
        Taking::Plain,
        &[Form::AfterRelation, Form::AfterLeft],
    ),
    Row::On(
        Terminal::Open,
        Taking::Opens(&[Form::TheRel, Form::Just(Terminal::Close)]),
        &[Form::AfterLeft],
    ),
    Row::On(
        Terminal::Pack,
        Taking::Opens(&[Form::TheRel, Form::Just(Terminal::On), Form::TheList]),
        &[Form::AfterLeft],
    ),
    Row::On(
        Terminal::Unpack,
        Taking::Opens(&[Form::TheRel, Form::Just(Terminal::On), Form::TheList]),
        &[Form::AfterLeft],
    ),
];

pub static AFTER_LEFT: [Row; 6] = [
    Row::On(Terminal::Equal, Taking::Plain, &[Form::TheOperand]),
    Row::On(Terminal::NotEqual, Taking::Plain, &[Form::TheOperand]),
    Row::On(Terminal::Less, Taking::Plain, &[Form::TheOperand]),
    Row::On(Terminal::LessEqual, Taking::Plain, &[Form::TheOperand]),
    Row::On(Terminal::Greater, Taking::Plain, &[Form::TheOperand]),
    Row::On(Terminal::GreaterEqual, Taking::Plain, &[Form::TheOperand]),
];

pub static THE_TEST: [Row; 8] = [
    Row::On(
        Terminal::Using,
        Taking::Opens(&[
            Form::TheList,
            Form::Just(Terminal::Colon),
            Form::TheComparison,
        ]),
        &[],
    ),
    Row::On(Terminal::IsEmpty, Taking::Plain, &[Form::InRel]),
    Row::On(Terminal::IsNotEmpty, Taking::Plain, &[Form::InRel]),
    Row::On(Terminal::Name, Taking::Plain, &[Form::AfterLeft]),
    Row::On(
        Terminal::Relation,
        Taking::Plain,
        &[Form::AfterRelation, Form::AfterLeft],
    ),
    Row::On(
        Terminal::Open,
        Taking::Opens(&[Form::TheRel, Form::Just(Terminal::Close)]),
        &[Form::AfterLeft],
    ),
    Row::On(
        Terminal::Pack,
        Taking::Opens(&[Form::TheRel, Form::Just(Terminal::On), Form::TheList]),
        &[Form::AfterLeft],
    ),
    Row::On(
        Terminal::Unpack,
        Taking::Opens(&[Form::TheRel, Form::Just(Terminal::On), Form::TheList]),
        &[Form::AfterLeft],
    ),
];

pub static THE_USED_DELETION: [Row; 9] = [
    Row::On(Terminal::Where, Taking::Plain, &[Form::TheScalar]),
    Row::On(
        Terminal::Using,
        Taking::Opens(&[
            Form::TheList,
            Form::Just(Terminal::Colon),
            Form::TheUsingPart,
        ]),
        &[],
    ),
    Row::On(
        Terminal::Extend,
        Taking::Opens(&[Form::TheRel, Form::Just(Terminal::Colon), Form::TheSets]),
        &[Form::MorePostfix, Form::MoreInfix],
    ),
    Row::On(
        Terminal::Summarize,
        Taking::Opens(&[
            Form::TheRel,
            Form::Just(Terminal::By),
            Form::TheNames,
            Form::Just(Terminal::Colon),
            Form::TheAggregates,
        ]),
        &[Form::MorePostfix, Form::MoreInfix],
    ),
    Row::On(
        Terminal::Name,
        Taking::Plain,
        &[Form::MorePostfix, Form::MoreInfix],
    ),
    Row::On(
        Terminal::Relation,
        Taking::Plain,
        &[Form::AfterRelation, Form::MorePostfix, Form::MoreInfix],
    ),
    Row::On(
        Terminal::Open,
        Taking::Opens(&[Form::TheRel, Form::Just(Terminal::Close)]),
        &[Form::MorePostfix, Form::MoreInfix],
    ),
    Row::On(
        Terminal::Pack,
        Taking::Opens(&[Form::TheRel, Form::Just(Terminal::On), Form::TheList]),
        &[Form::MorePostfix, Form::MoreInfix],
    ),
    Row::On(
        Terminal::Unpack,
        Taking::Opens(&[Form::TheRel, Form::Just(Terminal::On), Form::TheList]),
        &[Form::MorePostfix, Form::MoreInfix],
    ),
];

pub static THE_USED_ITEM: [Row; 3] = [
    Row::On(
        Terminal::Insert,
        Taking::Plain,
        &[Form::TheName, Form::TheRel],
    ),
    Row::On(
        Terminal::Delete,
        Taking::Plain,
        &[Form::TheName, Form::TheUsedDeletion],
    ),
    Row::On(
        Terminal::Update,
        Taking::Plain,
        &[
            Form::TheName,
            Form::MaybeWhere,
            Form::Just(Terminal::Colon),
            Form::TheSets,
        ],
    ),
];

pub static THE_DELETION: [Row; 10] = [
    Row::On(Terminal::Where, Taking::Plain, &[Form::TheScalar]),
    Row::On(
        Terminal::Portion,
        Taking::Plain,
        &[Form::TheSomeElements, Form::MaybeWhere],
    ),
    Row::On(
        Terminal::Using,
        Taking::Opens(&[
            Form::TheList,
            Form::Just(Terminal::Colon),
            Form::TheUsingPart,
        ]),
        &[],
    ),
    Row::On(
        Terminal::Extend,
        Taking::Opens(&[Form::TheRel, Form::Just(Terminal::Colon), Form::TheSets]),
        &[Form::MorePostfix, Form::MoreInfix],
    ),
    Row::On(
        Terminal::Summarize,
        Taking::Opens(&[
            Form::TheRel,
            Form::Just(Terminal::By),
            Form::TheNames,
            Form::Just(Terminal::Colon),
            Form::TheAggregates,
        ]),
        &[Form::MorePostfix, Form::MoreInfix],
    ),
    Row::On(
        Terminal::Name,
        Taking::Plain,
        &[Form::MorePostfix, Form::MoreInfix],
    ),
    Row::On(
        Terminal::Relation,
        Taking::Plain,
        &[Form::AfterRelation, Form::MorePostfix, Form::MoreInfix],
    ),
    Row::On(
        Terminal::Open,
        Taking::Opens(&[Form::TheRel, Form::Just(Terminal::Close)]),
        &[Form::MorePostfix, Form::MoreInfix],
    ),
    Row::On(
        Terminal::Pack,
        Taking::Opens(&[Form::TheRel, Form::Just(Terminal::On), Form::TheList]),
        &[Form::MorePostfix, Form::MoreInfix],
    ),
    Row::On(
        Terminal::Unpack,
        Taking::Opens(&[Form::TheRel, Form::Just(Terminal::On), Form::TheList]),
        &[Form::MorePostfix, Form::MoreInfix],
    ),
];

pub static THE_ITEM: [Row; 6] = [
    Row::On(
        Terminal::Name,
        Taking::Plain,
        &[Form::Just(Terminal::Assign), Form::TheRel],
    ),
    Row::On(
        Terminal::Insert,
        Taking::Plain,
        &[Form::TheName, Form::TheRel],
    ),
    Row::On(
        Terminal::Delete,
        Taking::Plain,
        &[Form::TheName, Form::TheDeletion],
    ),
    Row::On(
        Terminal::Update,
        Taking::Plain,
        &[
            Form::TheName,
            Form::MaybePortion,
            Form::MaybeWhere,
            Form::Just(Terminal::Colon),
            Form::TheSets,
        ],
    ),
    Row::On(
        Terminal::Terminate,
        Taking::Plain,
        &[
            Form::TheName,
            Form::Worded(PlaceWord::At),
            Form::TheScalar,
            Form::MaybeWhere,
        ],
    ),
    Row::On(
        Terminal::Using,
        Taking::Opens(&[
            Form::TheList,
            Form::Just(Terminal::Colon),
            Form::TheUsedItem,
        ]),
        &[],
    ),
];

pub static MORE_ITEMS: [Row; 1] = [Row::On(
    Terminal::Comma,
    Taking::Separator,
    &[Form::TheItem, Form::MoreItems],
)];

pub static THE_ASSIGN: [Row; 6] = [
    Row::On(
        Terminal::Name,
        Taking::Plain,
        &[Form::Just(Terminal::Assign), Form::TheRel, Form::MoreItems],
    ),
    Row::On(
        Terminal::Insert,
        Taking::Plain,
        &[Form::TheName, Form::TheRel, Form::MoreItems],
    ),
    Row::On(
        Terminal::Delete,
        Taking::Plain,
        &[Form::TheName, Form::TheDeletion, Form::MoreItems],
    ),
    Row::On(
        Terminal::Update,
        Taking::Plain,
        &[
            Form::TheName,
            Form::MaybePortion,
            Form::MaybeWhere,
            Form::Just(Terminal::Colon),
            Form::TheSets,
            Form::MoreItems,
        ],
    ),
    Row::On(
        Terminal::Terminate,
        Taking::Plain,
        &[
            Form::TheName,
            Form::Worded(PlaceWord::At),
            Form::TheScalar,
            Form::MaybeWhere,
            Form::MoreItems,
        ],
    ),
    Row::On(
        Terminal::Using,
        Taking::Opens(&[
            Form::TheList,
            Form::Just(Terminal::Colon),
            Form::TheUsedItem,
        ]),
        &[Form::MoreItems],
    ),
];

pub static THE_STATEMENT: [Row; 15] = [
    Row::On(Terminal::Semicolon, Taking::Plain, &[]),
    Row::On(
        Terminal::TypeWord,
        Taking::Plain,
        &[
            Form::TheName,
            Form::Worded(PlaceWord::Ordinal),
            Form::TheSomeNames,
            Form::Just(Terminal::Semicolon),
        ],
    ),
    Row::On(
        Terminal::Var,
        Taking::Plain,
        &[
            Form::TheName,
            Form::TheVarForm,
            Form::Just(Terminal::Semicolon),
        ],
    ),
    Row::On(
        Terminal::History,
        Taking::Plain,
        &[
            Form::TheName,
            Form::TheHeading,
            Form::TheKey,
            Form::Worded(PlaceWord::Since),
            Form::TheName,
            Form::TheParenName,
            Form::Worded(PlaceWord::During),
            Form::TheName,
            Form::TheParenName,
            Form::Worded(PlaceWord::Over),
            Form::ThePoint,
            Form::Just(Terminal::Semicolon),
        ],
    ),
    Row::On(
        Terminal::Constraint,
        Taking::Plain,
        &[
            Form::TheName,
            Form::TheTest,
            Form::Just(Terminal::Semicolon),
        ],
    ),
    Row::On(Terminal::Drop, Taking::Plain, &[Form::AfterDrop]),
    Row::On(
        Terminal::Print,
        Taking::Plain,
        &[Form::TheRel, Form::Just(Terminal::Semicolon)],
    ),
    Row::On(
        Terminal::Ask,
        Taking::Plain,
        &[Form::TheTest, Form::Just(Terminal::Semicolon)],
    ),
    Row::Spelt(PlaceWord::Log, &[Form::AfterLog]),
    Row::On(
        Terminal::Name,
        Taking::Plain,
        &[
            Form::Just(Terminal::Assign),
            Form::TheRel,
            Form::MoreItems,
            Form::Just(Terminal::Semicolon),
        ],
    ),
    Row::On(
        Terminal::Insert,
        Taking::Plain,
        &[
            Form::TheName,
            Form::TheRel,
            Form::MoreItems,
            Form::Just(Terminal::Semicolon),
        ],
    ),
    Row::On(
        Terminal::Delete,
        Taking::Plain,
        &[
            Form::TheName,
            Form::TheDeletion,
            Form::MoreItems,
            Form::Just(Terminal::Semicolon),
        ],
    ),
    Row::On(
        Terminal::Update,
        Taking::Plain,
        &[
            Form::TheName,
            Form::MaybePortion,
            Form::MaybeWhere,
            Form::Just(Terminal::Colon),
            Form::TheSets,
            Form::MoreItems,
            Form::Just(Terminal::Semicolon),
        ],
    ),
    Row::On(
        Terminal::Terminate,
        Taking::Plain,
        &[
            Form::TheName,
            Form::Worded(PlaceWord::At),
            Form::TheScalar,
            Form::MaybeWhere,
            Form::MoreItems,
            Form::Just(Terminal::Semicolon),
        ],
    ),
    Row::On(
        Terminal::Using,
        Taking::Opens(&[
            Form::TheList,
            Form::Just(Terminal::Colon),
            Form::TheUsedItem,
        ]),
        &[Form::MoreItems, Form::Just(Terminal::Semicolon)],
    ),
];

pub static AFTER_DROP: [Row; 2] = [
    Row::On(
        Terminal::Var,
        Taking::Plain,
        &[Form::TheName, Form::Just(Terminal::Semicolon)],
    ),
    Row::On(
        Terminal::Constraint,
        Taking::Plain,
        &[Form::TheName, Form::Just(Terminal::Semicolon)],
    ),
];

pub static AFTER_LOG: [Row; 2] = [
    Row::On(
        Terminal::Name,
        Taking::Plain,
        &[
            Form::Worded(PlaceWord::Of),
            Form::TheName,
            Form::TheParenName,
            Form::Just(Terminal::Semicolon),
        ],
    ),
    Row::On(
        Terminal::Assign,
        Taking::Plain,
        &[
            Form::TheRel,
            Form::MoreItems,
            Form::Just(Terminal::Semicolon),
        ],
    ),
];

// Written by tools/grammar; change it there.
// The forms of the grammar, and what a token does where one may stand.
use utd_syntax::Terminal;

/// The words that are reserved at their places alone.
#[derive(Clone, Copy)]
pub enum PlaceWord {
    Ordinal,
    Since,
    During,
    Over,
    At,
    Log,
    Of,
    Kept,
}

/// A form that may stand at a place, or the rest of one that has begun; a fixed token; a word that is reserved there.
#[derive(Clone, Copy)]
pub enum Form {
    TheName,
    Comma,
    DateText,
    MomentText,
    NegativeDigits,
    ThePrimary,
    AfterName,
    AfterScalar,
    EndOfSelector,
    InParens,
    InPair,
    InPoint,
    TheSign,
    TheProd,
    MoreProd,
    TheSum,
    MoreSum,
    TheCmp,
    MoreCmp,
    TheNeg,
    TheConj,
    MoreAnd,
    TheScalar,
    MoreOr,
    ThePoint,
    TheKind,
    TheAttribute,
    MoreAttributes,
    InHeading,
    TheHeading,
    MoreNames,
    InNames,
    InList,
    TheNames,
    TheList,
    TheSomeNames,
    TheParenName,
    TheElement,
    MoreElements,
    InElements,
    TheElements,
    TheSomeElements,
    TheTuple,
    MoreTuples,
    InTuples,
    TheTuples,
    TheLiteral,
    AfterRelation,
    TheSetItem,
    MoreSetItems,
    TheSets,
    EmptyParens,
    TheAggregateForm,
    TheAggregate,
    MoreAggregates,
    TheAggregates,
    TheRenaming,
    MoreRenamings,
    TheRenamings,
    ThePortion,
    MaybePortion,
    MaybeWhere,
    InProjection,
    TheOperand,
    TheExtend,
    TheSummarize,
    TheRelPrimary,
    TheTerm,
    MorePostfix,
    TheTerms,
    MoreInfix,
    TheUsing,
    TheRel,
    TheUsingPart,
    AfterOperand,
    TheKey,
    TheForeign,
    TheUsedConstraint,
    TheConstraint,
    MoreConstraints,
    InRel,
    TheKept,
    AfterKept,
    InKept,
    TheVarForm,
    TheComparison,
    AfterLeft,
    TheTest,
    TheUsedDeletion,
    TheUsedItem,
    TheDeletion,
    TheItem,
    MoreItems,
    TheAssign,
    TheStatement,
    AfterDrop,
    AfterLog,
    Just(Terminal),
    Worded(PlaceWord),
}

/// How a token is taken: it counts as an operator; it is a comma; it is an integer behind its `-`; it is the text of a
/// date, or of a moment; it opens a level, which ends behind these forms; or it is an operator that opens one.
#[derive(Clone, Copy)]
pub enum Taking {
    Plain,
    Operator,
    Separator,
    Negated,
    Dated,
    Timed,
    Opens(&'static [Form]),
    OperatorOpens(&'static [Form]),
}

/// This token is taken so, and these forms follow; the name that is spelled so is; or it depends on the token behind: so
/// before that one, and so before any other.
#[derive(Clone, Copy)]
pub enum Row {
    On(Terminal, Taking, &'static [Form]),
    Spelt(PlaceWord, &'static [Form]),
    Before(Terminal, Terminal, Taking, &'static [Form], Taking, &'static [Form]),
}

/// What a token does where a form may stand: it cannot stand there; the form ends before it; or it is taken, and these
/// forms follow.
#[derive(Clone, Copy)]
pub enum Turn {
    Never,
    Ends,
    Takes(Taking, &'static [Form]),
}

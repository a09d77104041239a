// Written by tools/grammar; change it there.
// For each form, the tokens that may stand next.
ghost use Rattle.std.specs.Prelude.{◌≡◌};
ghost use Rattle.utd_syntax.specs.Table as table;
ghost use Rattle.utd_parser.specs.Forms.{form_of, listed_rows, rows_of};

use crate::form::{Form, Row};
use crate::{operator_rows, primary_rows, relation_rows, scalar_rows, statement_rows};

/// The rows of a form; a single token has none here.
pub fn rows_at(form: Form) -> &'static [Row]
    ensures { rows_of result.now ≡ listed_rows form }
{
    match form {
        Form::TheName => &primary_rows::THE_NAME,
        Form::Comma => &primary_rows::COMMA,
        Form::DateText => &primary_rows::DATE_TEXT,
        Form::MomentText => &primary_rows::MOMENT_TEXT,
        Form::NegativeDigits => &primary_rows::NEGATIVE_DIGITS,
        Form::ThePrimary => &primary_rows::THE_PRIMARY,
        Form::AfterName => &primary_rows::AFTER_NAME,
        Form::AfterScalar => &primary_rows::AFTER_SCALAR,
        Form::EndOfSelector => &primary_rows::END_OF_SELECTOR,
        Form::InParens => &primary_rows::IN_PARENS,
        Form::InPair => &primary_rows::IN_PAIR,
        Form::InPoint => &primary_rows::IN_POINT,
        Form::TheSign => &primary_rows::THE_SIGN,
        Form::TheProd => &operator_rows::THE_PROD,
        Form::MoreProd => &operator_rows::MORE_PROD,
        Form::TheSum => &operator_rows::THE_SUM,
        Form::MoreSum => &operator_rows::MORE_SUM,
        Form::TheCmp => &operator_rows::THE_CMP,
        Form::MoreCmp => &operator_rows::MORE_CMP,
        Form::TheNeg => &scalar_rows::THE_NEG,
        Form::TheConj => &scalar_rows::THE_CONJ,
        Form::MoreAnd => &scalar_rows::MORE_AND,
        Form::TheScalar => &scalar_rows::THE_SCALAR,
        Form::MoreOr => &scalar_rows::MORE_OR,
        Form::ThePoint => &relation_rows::THE_POINT,
        Form::TheKind => &relation_rows::THE_KIND,
        Form::TheAttribute => &relation_rows::THE_ATTRIBUTE,
        Form::MoreAttributes => &relation_rows::MORE_ATTRIBUTES,
        Form::InHeading => &relation_rows::IN_HEADING,
        Form::TheHeading => &relation_rows::THE_HEADING,
        Form::MoreNames => &relation_rows::MORE_NAMES,
        Form::InNames => &relation_rows::IN_NAMES,
        Form::InList => &relation_rows::IN_LIST,
        Form::TheNames => &relation_rows::THE_NAMES,
        Form::TheList => &relation_rows::THE_LIST,
        Form::TheSomeNames => &relation_rows::THE_SOME_NAMES,
        Form::TheParenName => &relation_rows::THE_PAREN_NAME,
        Form::TheElement => &relation_rows::THE_ELEMENT,
        Form::MoreElements => &relation_rows::MORE_ELEMENTS,
        Form::InElements => &relation_rows::IN_ELEMENTS,
        Form::TheElements => &relation_rows::THE_ELEMENTS,
        Form::TheSomeElements => &relation_rows::THE_SOME_ELEMENTS,
        Form::TheTuple => &relation_rows::THE_TUPLE,
        Form::MoreTuples => &relation_rows::MORE_TUPLES,
        Form::InTuples => &relation_rows::IN_TUPLES,
        Form::TheTuples => &relation_rows::THE_TUPLES,
        Form::TheLiteral => &relation_rows::THE_LITERAL,
        Form::AfterRelation => &relation_rows::AFTER_RELATION,
        Form::TheSetItem => &relation_rows::THE_SET_ITEM,
        Form::MoreSetItems => &relation_rows::MORE_SET_ITEMS,
        Form::TheSets => &relation_rows::THE_SETS,
        Form::EmptyParens => &relation_rows::EMPTY_PARENS,
        Form::TheAggregateForm => &relation_rows::THE_AGGREGATE_FORM,
        Form::TheAggregate => &relation_rows::THE_AGGREGATE,
        Form::MoreAggregates => &relation_rows::MORE_AGGREGATES,
        Form::TheAggregates => &relation_rows::THE_AGGREGATES,
        Form::TheRenaming => &relation_rows::THE_RENAMING,
        Form::MoreRenamings => &relation_rows::MORE_RENAMINGS,
        Form::TheRenamings => &relation_rows::THE_RENAMINGS,
        Form::ThePortion => &relation_rows::THE_PORTION,
        Form::MaybePortion => &relation_rows::MAYBE_PORTION,
        Form::MaybeWhere => &relation_rows::MAYBE_WHERE,
        Form::InProjection => &relation_rows::IN_PROJECTION,
        Form::TheOperand => &relation_rows::THE_OPERAND,
        Form::TheExtend => &relation_rows::THE_EXTEND,
        Form::TheSummarize => &relation_rows::THE_SUMMARIZE,
        Form::TheRelPrimary => &relation_rows::THE_REL_PRIMARY,
        Form::TheTerm => &relation_rows::THE_TERM,
        Form::MorePostfix => &relation_rows::MORE_POSTFIX,
        Form::TheTerms => &relation_rows::THE_TERMS,
        Form::MoreInfix => &relation_rows::MORE_INFIX,
        Form::TheUsing => &relation_rows::THE_USING,
        Form::TheRel => &relation_rows::THE_REL,
        Form::TheUsingPart => &relation_rows::THE_USING_PART,
        Form::AfterOperand => &relation_rows::AFTER_OPERAND,
        Form::TheKey => &statement_rows::THE_KEY,
        Form::TheForeign => &statement_rows::THE_FOREIGN,
        Form::TheUsedConstraint => &statement_rows::THE_USED_CONSTRAINT,
        Form::TheConstraint => &statement_rows::THE_CONSTRAINT,
        Form::MoreConstraints => &statement_rows::MORE_CONSTRAINTS,
        Form::InRel => &statement_rows::IN_REL,
        Form::TheKept => &statement_rows::THE_KEPT,
        Form::AfterKept => &statement_rows::AFTER_KEPT,
        Form::InKept => &statement_rows::IN_KEPT,
        Form::TheVarForm => &statement_rows::THE_VAR_FORM,
        Form::TheComparison => &statement_rows::THE_COMPARISON,
        Form::AfterLeft => &statement_rows::AFTER_LEFT,
        Form::TheTest => &statement_rows::THE_TEST,
        Form::TheUsedDeletion => &statement_rows::THE_USED_DELETION,
        Form::TheUsedItem => &statement_rows::THE_USED_ITEM,
        Form::TheDeletion => &statement_rows::THE_DELETION,
        Form::TheItem => &statement_rows::THE_ITEM,
        Form::MoreItems => &statement_rows::MORE_ITEMS,
        Form::TheAssign => &statement_rows::THE_ASSIGN,
        Form::TheStatement => &statement_rows::THE_STATEMENT,
        Form::AfterDrop => &statement_rows::AFTER_DROP,
        Form::AfterLog => &statement_rows::AFTER_LOG,
        Form::Just(_) => &[],
        Form::Worded(_) => &[],
    }
}

/// The form may end before a token that none of its rows takes.
pub fn may_end(form: Form) -> bool
    ensures { result ≡ table.may_end (form_of form) }
{
    match form {
        Form::AfterName
        | Form::MoreProd
        | Form::MoreSum
        | Form::MoreCmp
        | Form::MoreAnd
        | Form::MoreOr
        | Form::MoreAttributes
        | Form::MoreNames
        | Form::MoreElements
        | Form::MoreTuples
        | Form::MoreSetItems
        | Form::MoreAggregates
        | Form::MoreRenamings
        | Form::MaybePortion
        | Form::MaybeWhere
        | Form::MorePostfix
        | Form::MoreInfix
        | Form::MoreConstraints
        | Form::MoreItems => true,
        _ => false,
    }
}

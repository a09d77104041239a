// Operators on typed parts.
ghost use Rattle.std.specs.Prelude.{◌≡◌, option_map};
ghost use Rattle.scalar_core.specs.Answers.{Gives};
ghost use Rattle.scalar_core.specs.Expressions.{and_expr, or_expr, read, read_left, read_right};
ghost use Rattle.scalar_typing.specs.Typings.{typed};
ghost use Rattle.scalar_typing.specs.Operators as rules;
ghost use Rattle.scalar_typing.specs.Operators.{one_on, pair_on, one_typed, pair_typed, logic_typed};

use crate::kinds::{
    INTEGER, both_are, compares, point_and_span, point_type, same_kind, span_type, two_points,
    two_spans,
};
use crate::typed::{Typed, at_place, boxed, or_wrong, parts, when};
use interval_core::Ends;
use point_core::{AnyType, Place, Stop};
use scalar_core::{AllenWord, CompareWord, Parts, Scalar, ScalarForm};
use std::alloc::Global;
use utd_syntax::{
    BeginBracket, ComparisonWord, EndBracket, FunctionWord, PairWord, ProductWord, SumWord,
};
use value_core::Kind;

/// OR of two parts.
pub fn or(alloc: Global, place: Place, left: Typed, right: Typed) -> Result<Typed, Stop>
    ensures { Gives typed result (logic_typed place or_expr (typed left) (typed right)) }
{
    let holds = both_are(Kind::Truth, left.kind, right.kind);
    let p = parts(alloc, left.scalar, right.scalar)?;
    or_wrong(place, when(place, holds, ScalarForm::Or(p), Kind::Truth))
}

/// AND of two parts.
pub fn and(alloc: Global, place: Place, left: Typed, right: Typed) -> Result<Typed, Stop>
    ensures { Gives typed result (logic_typed place and_expr (typed left) (typed right)) }
{
    let holds = both_are(Kind::Truth, left.kind, right.kind);
    let p = parts(alloc, left.scalar, right.scalar)?;
    or_wrong(place, when(place, holds, ScalarForm::And(p), Kind::Truth))
}

/// NOT of a part.
pub fn not(alloc: Global, place: Place, part: Typed) -> Result<Typed, Stop>
    ensures { Gives typed result (one_typed place rules.not_rule (typed part)) }
{
    let holds = same_kind(part.kind, Kind::Truth);
    let e = boxed(alloc, part.scalar)?;
    or_wrong(place, when(place, holds, ScalarForm::Not(e), Kind::Truth))
}

/// `-` of a part.
pub fn negate(alloc: Global, place: Place, part: Typed) -> Result<Typed, Stop>
    ensures { Gives typed result (one_typed place rules.negate_rule (typed part)) }
{
    let holds = same_kind(part.kind, INTEGER);
    let e = boxed(alloc, part.scalar)?;
    or_wrong(place, when(place, holds, ScalarForm::Negate(e), INTEGER))
}

/// The point type of what a function takes: an interval, or a point.
fn argument_type(word: FunctionWord, kind: Kind) -> Option<AnyType>
    ensures { result ≡ rules.argument_type word kind }
{
    match word {
        FunctionWord::Begin => span_type(kind),
        FunctionWord::End => span_type(kind),
        FunctionWord::Pre => span_type(kind),
        FunctionWord::Post => span_type(kind),
        FunctionWord::Count => span_type(kind),
        FunctionWord::Next => point_type(kind),
        FunctionWord::Prior => point_type(kind),
    }
}

fn function_on(place: Place, word: FunctionWord, t: AnyType, e: Box<Scalar>) -> Typed
    ensures { typed result ≡ one_on place (read e.value) (rules.function_on word t) }
{
    match word {
        FunctionWord::Begin => at_place(place, ScalarForm::BeginOf(e), Kind::Point(t)),
        FunctionWord::End => at_place(place, ScalarForm::EndOf(e), Kind::Point(t)),
        FunctionWord::Pre => at_place(place, ScalarForm::PreOf(t, e), Kind::Point(t)),
        FunctionWord::Post => at_place(place, ScalarForm::PostOf(t, e), Kind::Point(t)),
        FunctionWord::Count => at_place(place, ScalarForm::CountOf(t, e), INTEGER),
        FunctionWord::Next => at_place(place, ScalarForm::NextOf(t, e), Kind::Point(t)),
        FunctionWord::Prior => at_place(place, ScalarForm::PriorOf(t, e), Kind::Point(t)),
    }
}

/// A function of a part.
pub fn function(alloc: Global, place: Place, word: FunctionWord, part: Typed) -> Result<Typed, Stop>
    ensures { Gives typed result (one_typed place (rules.function_rule word) (typed part)) }
{
    let kind = part.kind;
    let e = boxed(alloc, part.scalar)?;
    match argument_type(word, kind) {
        Some(t) => Ok(function_on(place, word, t, e)),
        None => or_wrong(place, None),
    }
}

fn sum_on(place: Place, word: SumWord, left: Kind, right: Kind, p: Parts) -> Option<Typed>
    ensures { option_map typed result ≡ option_map (pair_on place (read_left p) (read_right p)) (rules.sum_rule word left right) }
{
    let integers = both_are(INTEGER, left, right);
    let texts = both_are(Kind::Char, left, right);
    match word {
        SumWord::Plus => when(place, integers, ScalarForm::Add(p), INTEGER),
        SumWord::Minus => when(place, integers, ScalarForm::Subtract(p), INTEGER),
        SumWord::Concat => when(place, texts, ScalarForm::Concat(p), Kind::Char),
    }
}

/// `+`, `-` or `||` of two parts.
pub fn sum(
    alloc: Global,
    place: Place,
    word: SumWord,
    left: Typed,
    right: Typed,
) -> Result<Typed, Stop>
    ensures { Gives typed result (pair_typed place (rules.sum_rule word) (typed left) (typed right)) }
{
    let kinds = (left.kind, right.kind);
    let p = parts(alloc, left.scalar, right.scalar)?;
    or_wrong(place, sum_on(place, word, kinds.0, kinds.1, p))
}

fn product_on(place: Place, word: ProductWord, left: Kind, right: Kind, p: Parts) -> Option<Typed>
    ensures { option_map typed result ≡ option_map (pair_on place (read_left p) (read_right p)) (rules.product_rule word left right) }
{
    let integers = both_are(INTEGER, left, right);
    match word {
        ProductWord::Times => when(place, integers, ScalarForm::Multiply(p), INTEGER),
        ProductWord::Divide => when(place, integers, ScalarForm::Divide(p), INTEGER),
    }
}

/// `*` or `/` of two parts.
pub fn product(
    alloc: Global,
    place: Place,
    word: ProductWord,
    left: Typed,
    right: Typed,
) -> Result<Typed, Stop>
    ensures { Gives typed result (pair_typed place (rules.product_rule word) (typed left) (typed right)) }
{
    let kinds = (left.kind, right.kind);
    let p = parts(alloc, left.scalar, right.scalar)?;
    or_wrong(place, product_on(place, word, kinds.0, kinds.1, p))
}

fn compare(place: Place, word: CompareWord, left: Kind, right: Kind, p: Parts) -> Option<Typed>
    ensures { option_map typed result ≡ option_map (pair_on place (read_left p) (read_right p)) (rules.compare_rule word left right) }
{
    let holds = same_kind(left, right) && compares(word, left);
    when(place, holds, ScalarForm::Compare(word, p), Kind::Truth)
}

fn allen(place: Place, word: AllenWord, left: Kind, right: Kind, p: Parts) -> Option<Typed>
    ensures { option_map typed result ≡ option_map (pair_on place (read_left p) (read_right p)) (rules.allen_rule word left right) }
{
    let t = two_spans(left, right)?;
    Some(at_place(place, ScalarForm::Allen(word, t, p), Kind::Truth))
}

fn member(place: Place, left: Kind, right: Kind, p: Parts) -> Option<Typed>
    ensures { option_map typed result ≡ option_map (pair_on place (read_left p) (read_right p)) (rules.member_rule left right) }
{
    let t = point_and_span(left, right)?;
    Some(at_place(place, ScalarForm::Member(t, p), Kind::Truth))
}

fn comparison_on(place: Place, word: ComparisonWord, l: Kind, r: Kind, p: Parts) -> Option<Typed>
    ensures { option_map typed result ≡ option_map (pair_on place (read_left p) (read_right p)) (rules.comparison_rule word l r) }
{
    match word {
        ComparisonWord::Equal => compare(place, CompareWord::Equal, l, r, p),
        ComparisonWord::NotEqual => compare(place, CompareWord::NotEqual, l, r, p),
        ComparisonWord::Less => compare(place, CompareWord::Less, l, r, p),
        ComparisonWord::LessEqual => compare(place, CompareWord::LessEqual, l, r, p),
        ComparisonWord::Greater => compare(place, CompareWord::Greater, l, r, p),
        ComparisonWord::GreaterEqual => compare(place, CompareWord::GreaterEqual, l, r, p),
        ComparisonWord::In => member(place, l, r, p),
        ComparisonWord::Includes => allen(place, AllenWord::Includes, l, r, p),
        ComparisonWord::IncludedIn => allen(place, AllenWord::IncludedIn, l, r, p),
        ComparisonWord::Before => allen(place, AllenWord::Before, l, r, p),
        ComparisonWord::After => allen(place, AllenWord::After, l, r, p),
        ComparisonWord::Meets => allen(place, AllenWord::Meets, l, r, p),
        ComparisonWord::Overlaps => allen(place, AllenWord::Overlaps, l, r, p),
        ComparisonWord::Merges => allen(place, AllenWord::Merges, l, r, p),
        ComparisonWord::Begins => allen(place, AllenWord::Begins, l, r, p),
        ComparisonWord::Ends => allen(place, AllenWord::Ends, l, r, p),
    }
}

/// A comparison of two parts.
pub fn comparison(
    alloc: Global,
    place: Place,
    word: ComparisonWord,
    left: Typed,
    right: Typed,
) -> Result<Typed, Stop>
    ensures { Gives typed result (pair_typed place (rules.comparison_rule word) (typed left) (typed right)) }
{
    let kinds = (left.kind, right.kind);
    let p = parts(alloc, left.scalar, right.scalar)?;
    or_wrong(place, comparison_on(place, word, kinds.0, kinds.1, p))
}

fn pairing_on(place: Place, word: PairWord, t: AnyType, p: Parts) -> Typed
    ensures { typed result ≡ pair_on place (read_left p) (read_right p) (rules.pairing_on word t) }
{
    match word {
        PairWord::Union => at_place(place, ScalarForm::UnionOf(t, p), Kind::Span(t)),
        PairWord::Intersect => at_place(place, ScalarForm::IntersectOf(t, p), Kind::Span(t)),
        PairWord::Minus => at_place(place, ScalarForm::MinusOf(t, p), Kind::Span(t)),
    }
}

/// UNION, INTERSECT or MINUS of two intervals.
pub fn pairing(
    alloc: Global,
    place: Place,
    word: PairWord,
    left: Typed,
    right: Typed,
) -> Result<Typed, Stop>
    ensures { Gives typed result (pair_typed place (rules.pairing_rule word) (typed left) (typed right)) }
{
    let found = two_spans(left.kind, right.kind);
    let p = parts(alloc, left.scalar, right.scalar)?;
    match found {
        Some(t) => Ok(pairing_on(place, word, t, p)),
        None => or_wrong(place, None),
    }
}

/// The brackets of a selector.
pub fn ends_of(begin: BeginBracket, end: EndBracket) -> Ends
    ensures { result ≡ rules.ends_of begin end }
{
    match (begin, end) {
        (BeginBracket::Closed, EndBracket::Closed) => Ends::Closed,
        (BeginBracket::Closed, EndBracket::Open) => Ends::ClosedOpen,
        (BeginBracket::Open, EndBracket::Closed) => Ends::OpenClosed,
        (BeginBracket::Open, EndBracket::Open) => Ends::Open,
    }
}

/// The interval from one point to another.
pub fn selector(
    alloc: Global,
    place: Place,
    ends: Ends,
    left: Typed,
    right: Typed,
) -> Result<Typed, Stop>
    ensures { Gives typed result (pair_typed place (rules.selector_rule ends) (typed left) (typed right)) }
{
    let found = two_points(left.kind, right.kind);
    let p = parts(alloc, left.scalar, right.scalar)?;
    match found {
        Some(t) => Ok(at_place(place, ScalarForm::Select(ends, t, p), Kind::Span(t))),
        None => or_wrong(place, None),
    }
}

// Which expressions are sweepable: those whose value changes only at cuts that their comparisons tell.
ghost use Rattle.std.specs.Prelude.{◌≡◌, ◌++◌, ◌∷◌, [], ◌↔◌, cond, IsTrue};
ghost use Rattle.value_core.specs.Attributes.{among};
ghost use Rattle.scalar_core.specs.Expressions.{read, read_left, read_right};
ghost use Rattle.scalar_core.specs.Sweeping as rules;
ghost use Rattle.scalar_core.specs.Sweeping.{first_place, named_places, swept_attribute, unswept, IsSweepable};

use crate::tree::{Parts, Scalar, ScalarForm};
use point_core::Place;

/// The place of the first name of a listed attribute that is in no atom; none where the expression is sweepable. An atom is
/// a comparison of which one side is a listed attribute or its begin or end, and the other names no listed attribute.
#[cycle(fault)]
pub fn sweep_fault(e: &Scalar, commalist: &[usize]) -> Option<Place>
    ensures { result ≡ rules.sweep_fault commalist.now (read e.now) }
{
    match &e.form {
        ScalarForm::Constant(_, _) => None,
        ScalarForm::Attribute(i) => place_if(among(commalist, *i), e.place),
        ScalarForm::Not(p) => sweep_fault(p, commalist),
        ScalarForm::Negate(p) => sweep_fault(p, commalist),
        ScalarForm::BeginOf(p) => sweep_fault(p, commalist),
        ScalarForm::EndOf(p) => sweep_fault(p, commalist),
        ScalarForm::PreOf(_, p) => sweep_fault(p, commalist),
        ScalarForm::PostOf(_, p) => sweep_fault(p, commalist),
        ScalarForm::CountOf(_, p) => sweep_fault(p, commalist),
        ScalarForm::NextOf(_, p) => sweep_fault(p, commalist),
        ScalarForm::PriorOf(_, p) => sweep_fault(p, commalist),
        ScalarForm::And(p) => fault_in_parts(p, commalist),
        ScalarForm::Or(p) => fault_in_parts(p, commalist),
        ScalarForm::Add(p) => fault_in_parts(p, commalist),
        ScalarForm::Subtract(p) => fault_in_parts(p, commalist),
        ScalarForm::Multiply(p) => fault_in_parts(p, commalist),
        ScalarForm::Divide(p) => fault_in_parts(p, commalist),
        ScalarForm::Concat(p) => fault_in_parts(p, commalist),
        ScalarForm::Compare(_, p) => fault_in_comparison(p, commalist),
        ScalarForm::Allen(_, _, p) => fault_in_comparison(p, commalist),
        ScalarForm::Member(_, p) => fault_in_comparison(p, commalist),
        ScalarForm::Select(_, _, p) => fault_in_parts(p, commalist),
        ScalarForm::UnionOf(_, p) => fault_in_parts(p, commalist),
        ScalarForm::IntersectOf(_, p) => fault_in_parts(p, commalist),
        ScalarForm::MinusOf(_, p) => fault_in_parts(p, commalist),
    }
}

#[cycle(fault)]
fn fault_in_parts(p: &Parts, commalist: &[usize]) -> Option<Place>
    ensures { result ≡ first_place (unswept commalist.now (read_left p.now) ++ unswept commalist.now (read_right p.now)) }
{
    first_of(
        sweep_fault(&p.left, commalist),
        sweep_fault(&p.right, commalist),
    )
}

#[cycle(fault)]
fn fault_in_comparison(p: &Parts, commalist: &[usize]) -> Option<Place>
    ensures { result ≡ first_place (cond (rules.is_swept commalist.now (read_left p.now) (read_right p.now)) []
        (unswept commalist.now (read_left p.now) ++ unswept commalist.now (read_right p.now))) }
{
    if is_swept(p, commalist) {
        None
    } else {
        fault_in_parts(p, commalist)
    }
}

/// Whether each name of a listed attribute is in an atom.
pub fn is_sweepable(e: &Scalar, commalist: &[usize]) -> bool
    ensures { IsTrue result ↔ IsSweepable commalist.now (read e.now) }
{
    sweep_fault(e, commalist).is_none()
}

/// Whether a comparison of the parts is an atom.
fn is_swept(p: &Parts, commalist: &[usize]) -> bool
    ensures { result ≡ rules.is_swept commalist.now (read_left p.now) (read_right p.now) }
{
    is_swept_by(&p.left, &p.right, commalist) || is_swept_by(&p.right, &p.left, commalist)
}

/// Whether the one side is a listed attribute or its end, and the other names no listed attribute.
fn is_swept_by(side: &Scalar, other: &Scalar, commalist: &[usize]) -> bool
    ensures { result ≡ rules.is_swept_by commalist.now (swept_attribute commalist.now (read side.now)) (read other.now) }
{
    swept_attribute(side, commalist).is_some() && !names_any(other, commalist)
}

/// The listed attribute that the expression is, or whose BEGIN or END it is.
pub(crate) fn swept_attribute(e: &Scalar, commalist: &[usize]) -> Option<usize>
    ensures { result ≡ swept_attribute commalist.now (read e.now) }
{
    match &e.form {
        ScalarForm::Attribute(i) => if_among(*i, commalist),
        ScalarForm::BeginOf(p) => attribute_of(p, commalist),
        ScalarForm::EndOf(p) => attribute_of(p, commalist),
        _ => None,
    }
}

/// The listed attribute that the expression is.
fn attribute_of(e: &Scalar, commalist: &[usize]) -> Option<usize>
    ensures { result ≡ rules.attribute_of commalist.now (read e.now) }
{
    match &e.form {
        ScalarForm::Attribute(i) => if_among(*i, commalist),
        _ => None,
    }
}

/// The position, where it is listed.
fn if_among(i: usize, commalist: &[usize]) -> Option<usize>
    ensures { result ≡ rules.if_among commalist.now i }
{
    if among(commalist, i) { Some(i) } else { None }
}

/// Whether the expression names a listed attribute.
pub fn names_any(e: &Scalar, commalist: &[usize]) -> bool
    ensures { result ≡ rules.names_any commalist.now (read e.now) }
{
    first_named(e, commalist).is_some()
}

/// The place of the first name of a listed attribute.
#[cycle(named)]
pub fn first_named(e: &Scalar, commalist: &[usize]) -> Option<Place>
    ensures { result ≡ first_place (named_places commalist.now (read e.now)) }
{
    match &e.form {
        ScalarForm::Constant(_, _) => None,
        ScalarForm::Attribute(i) => place_if(among(commalist, *i), e.place),
        ScalarForm::Not(p) => first_named(p, commalist),
        ScalarForm::Negate(p) => first_named(p, commalist),
        ScalarForm::BeginOf(p) => first_named(p, commalist),
        ScalarForm::EndOf(p) => first_named(p, commalist),
        ScalarForm::PreOf(_, p) => first_named(p, commalist),
        ScalarForm::PostOf(_, p) => first_named(p, commalist),
        ScalarForm::CountOf(_, p) => first_named(p, commalist),
        ScalarForm::NextOf(_, p) => first_named(p, commalist),
        ScalarForm::PriorOf(_, p) => first_named(p, commalist),
        ScalarForm::And(p) => named_in_parts(p, commalist),
        ScalarForm::Or(p) => named_in_parts(p, commalist),
        ScalarForm::Add(p) => named_in_parts(p, commalist),
        ScalarForm::Subtract(p) => named_in_parts(p, commalist),
        ScalarForm::Multiply(p) => named_in_parts(p, commalist),
        ScalarForm::Divide(p) => named_in_parts(p, commalist),
        ScalarForm::Concat(p) => named_in_parts(p, commalist),
        ScalarForm::Compare(_, p) => named_in_parts(p, commalist),
        ScalarForm::Allen(_, _, p) => named_in_parts(p, commalist),
        ScalarForm::Member(_, p) => named_in_parts(p, commalist),
        ScalarForm::Select(_, _, p) => named_in_parts(p, commalist),
        ScalarForm::UnionOf(_, p) => named_in_parts(p, commalist),
        ScalarForm::IntersectOf(_, p) => named_in_parts(p, commalist),
        ScalarForm::MinusOf(_, p) => named_in_parts(p, commalist),
    }
}

#[cycle(named)]
fn named_in_parts(p: &Parts, commalist: &[usize]) -> Option<Place>
    ensures { result ≡ first_place (named_places commalist.now (read_left p.now) ++ named_places commalist.now (read_right p.now)) }
{
    first_of(
        first_named(&p.left, commalist),
        first_named(&p.right, commalist),
    )
}

/// Whether the position is one of these.
pub fn among(positions: &[usize], at: usize) -> bool
    ensures { result ≡ among positions.now at }
{
    positions.iter().any(|position| at == *position)
}

/// The place where it holds.
fn place_if(holds: bool, place: Place) -> Option<Place>
    ensures { result ≡ first_place (cond holds (place ∷ []) []) }
{
    if holds { Some(place) } else { None }
}

/// The first place, or else the second.
fn first_of(first: Option<Place>, second: Option<Place>) -> Option<Place>
    ensures { result ≡ rules.first_of first second }
{
    match first {
        Some(place) => Some(place),
        None => second,
    }
}

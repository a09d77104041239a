// Row expressions, over a heading. The parts of a node are typed before it, left to right.
ghost use Rattle.std.specs.Prelude.{IfOk};
ghost use Rattle.scalar_core.specs.Answers.{Gives};
ghost use Rattle.scalar_core.specs.Expressions.{read};
ghost use Rattle.scalar_core.specs.Kinds.{IsTyped};
ghost use Rattle.utd_syntax.specs.Read.{read_scalar, read_conj, read_neg, read_cmp, read_sum, read_prod, read_sign, read_primary};
ghost use Rattle.scalar_typing.specs.Typings.{typed};
ghost use Rattle.scalar_typing.specs.Names.{AreOrdinals};
ghost use Rattle.scalar_typing.specs.Scalars.{typed_scalar, typed_conj, typed_neg, typed_cmp, typed_sum, typed_prod, typed_sign, typed_primary};

use crate::typed::{Typed, refused};
use crate::{literals, names, operators};
use point_core::Stop;
use std::alloc::Global;
use utd_syntax::{Comparison, Conjunction, Negation, Primary, Product, Scalar, Sign, Sum};
use value_core::{Heading, OrdinalTypes};

/// The typed tree of an expression over the heading with the kind of its values, or the first refusal: E10, E12 or E14. A
/// literal out of its range is E06; the reading of a text lets none through.
pub fn type_scalar(
    alloc: Global,
    types: &OrdinalTypes,
    heading: &Heading,
    s: &Scalar,
) -> Result<Typed, Stop>
    requires { AreOrdinals types.now }
    ensures typing { Gives typed result (typed_scalar types.now heading.now (read_scalar s.now)) }
    ensures kind { IfOk result (λ t. IsTyped heading.now (read t.scalar) t.kind) }
{
    scalar(alloc, types, heading, s)
}

#[cycle(scalar)]
fn scalar(alloc: Global, types: &OrdinalTypes, heading: &Heading, s: &Scalar) -> Result<Typed, Stop>
    requires { AreOrdinals types.now }
    ensures { Gives typed result (typed_scalar types.now heading.now (read_scalar s.now)) }
{
    match s {
        Scalar::One(c) => conjunction(alloc, types, heading, c),
        Scalar::Or(l, place, r) => {
            let left = scalar(alloc, types, heading, l)?;
            match conjunction(alloc, types, heading, r) {
                Ok(right) => operators::or(alloc, *place, left, right),
                Err(stop) => refused(left, stop),
            }
        }
    }
}

#[cycle(scalar)]
fn conjunction(
    alloc: Global,
    types: &OrdinalTypes,
    heading: &Heading,
    c: &Conjunction,
) -> Result<Typed, Stop>
    requires { AreOrdinals types.now }
    ensures { Gives typed result (typed_conj types.now heading.now (read_conj c.now)) }
{
    match c {
        Conjunction::One(n) => negation(alloc, types, heading, n),
        Conjunction::And(l, place, r) => {
            let left = conjunction(alloc, types, heading, l)?;
            match negation(alloc, types, heading, r) {
                Ok(right) => operators::and(alloc, *place, left, right),
                Err(stop) => refused(left, stop),
            }
        }
    }
}

#[cycle(scalar)]
fn negation(
    alloc: Global,
    types: &OrdinalTypes,
    heading: &Heading,
    n: &Negation,
) -> Result<Typed, Stop>
    requires { AreOrdinals types.now }
    ensures { Gives typed result (typed_neg types.now heading.now (read_neg n.now)) }
{
    match n {
        Negation::Not(place, p) => {
            let part = negation(alloc, types, heading, p)?;
            operators::not(alloc, *place, part)
        }
        Negation::One(c) => comparison(alloc, types, heading, c),
    }
}

#[cycle(scalar)]
fn comparison(
    alloc: Global,
    types: &OrdinalTypes,
    heading: &Heading,
    c: &Comparison,
) -> Result<Typed, Stop>
    requires { AreOrdinals types.now }
    ensures { Gives typed result (typed_cmp types.now heading.now (read_cmp c.now)) }
{
    match c {
        Comparison::One(s) => sum(alloc, types, heading, s),
        Comparison::Compare(l, place, word, r) => {
            let left = sum(alloc, types, heading, l)?;
            match sum(alloc, types, heading, r) {
                Ok(right) => operators::comparison(alloc, *place, *word, left, right),
                Err(stop) => refused(left, stop),
            }
        }
    }
}

#[cycle(scalar)]
fn sum(alloc: Global, types: &OrdinalTypes, heading: &Heading, s: &Sum) -> Result<Typed, Stop>
    requires { AreOrdinals types.now }
    ensures { Gives typed result (typed_sum types.now heading.now (read_sum s.now)) }
{
    match s {
        Sum::One(p) => product(alloc, types, heading, p),
        Sum::Add(l, place, word, r) => {
            let left = sum(alloc, types, heading, l)?;
            match product(alloc, types, heading, r) {
                Ok(right) => operators::sum(alloc, *place, *word, left, right),
                Err(stop) => refused(left, stop),
            }
        }
    }
}

#[cycle(scalar)]
fn product(
    alloc: Global,
    types: &OrdinalTypes,
    heading: &Heading,
    p: &Product,
) -> Result<Typed, Stop>
    requires { AreOrdinals types.now }
    ensures { Gives typed result (typed_prod types.now heading.now (read_prod p.now)) }
{
    match p {
        Product::One(s) => sign(alloc, types, heading, s),
        Product::Multiply(l, place, word, r) => {
            let left = product(alloc, types, heading, l)?;
            match sign(alloc, types, heading, r) {
                Ok(right) => operators::product(alloc, *place, *word, left, right),
                Err(stop) => refused(left, stop),
            }
        }
    }
}

#[cycle(scalar)]
fn sign(alloc: Global, types: &OrdinalTypes, heading: &Heading, s: &Sign) -> Result<Typed, Stop>
    requires { AreOrdinals types.now }
    ensures { Gives typed result (typed_sign types.now heading.now (read_sign s.now)) }
{
    match s {
        Sign::NegativeInteger(place, digits, bytes) => {
            let n = literals::negative_of(bytes.list.as_slice());
            literals::integer_literal(*place, *digits, n)
        }
        Sign::Negate(place, p) => {
            let part = sign(alloc, types, heading, p)?;
            operators::negate(alloc, *place, part)
        }
        Sign::One(p) => primary(alloc, types, heading, p),
    }
}

#[cycle(scalar)]
fn primary(
    alloc: Global,
    types: &OrdinalTypes,
    heading: &Heading,
    p: &Primary,
) -> Result<Typed, Stop>
    requires { AreOrdinals types.now }
    ensures { Gives typed result (typed_primary types.now heading.now (read_primary p.now)) }
{
    match p {
        Primary::Integer(place, bytes) => {
            let n = literals::integer_of(bytes.list.as_slice());
            literals::integer_literal(*place, *place, n)
        }
        Primary::Text(place, bytes) => literals::text_literal(alloc, *place, bytes.list.as_slice()),
        Primary::Date(place, quoted, bytes) => literals::date_literal(
            *place,
            *quoted,
            bytes.list.as_slice(),
        ),
        Primary::Moment(place, quoted, bytes) => literals::moment_literal(
            *place,
            *quoted,
            bytes.list.as_slice(),
        ),
        Primary::True(place) => Ok(literals::truth_constant(*place, true)),
        Primary::False(place) => Ok(literals::truth_constant(*place, false)),
        Primary::Attribute(word) => names::attribute_typed(heading, word),
        Primary::Dotted(n, v) => names::ordinal_value(types, n, v),
        Primary::Paren(_, s) => scalar(alloc, types, heading, s),
        Primary::Selector(place, begin, l, r, end) => {
            let left = scalar(alloc, types, heading, l)?;
            let ends = operators::ends_of(*begin, *end);
            match scalar(alloc, types, heading, r) {
                Ok(right) => operators::selector(alloc, *place, ends, left, right),
                Err(stop) => refused(left, stop),
            }
        }
        Primary::Extreme(place, word, name) => names::extreme(types, *place, *word, name),
        Primary::Function(place, word, s) => {
            let part = scalar(alloc, types, heading, s)?;
            operators::function(alloc, *place, *word, part)
        }
        Primary::PairFunction(place, word, l, r) => {
            let left = scalar(alloc, types, heading, l)?;
            match scalar(alloc, types, heading, r) {
                Ok(right) => operators::pairing(alloc, *place, *word, left, right),
                Err(stop) => refused(left, stop),
            }
        }
    }
}

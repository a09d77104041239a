// The relations of literals.
ghost use Rattle.std.specs.Prelude.{ℕ, List, map};
ghost use Rattle.std.specs.List.{All};
ghost use Rattle.base_core.specs.Outcomes.{then_give, first_of_all};
ghost use Rattle.scalar_core.specs.Answers.{Gives};
ghost use Rattle.relation_core.specs.Answers.{Answers, under};
ghost use Rattle.tree_core.specs.Trees.{read_sets};
ghost use Rattle.meaning_core.specs.Meanings.{limited, literal_rows};
ghost use Rattle.meaning_core.specs.Rows.{literal_row};
ghost use Rattle.meaning_core.specs.Typing.{IsTuple};

use point_core::{Place, Stop};
use relation_core::relation;
use row_making::{extended_row, or_fault_at, set_places};
use scalar_core::Scalar;
use std::alloc::Global;
use tree_core::Sets;
use value_core::{Heading, Kind, Name, Relation, Row};

/// The relation of a literal, its first fault, or that of too many rows.
pub(crate) fn literal(
    alloc: Global,
    place: Place,
    heading: &Heading,
    tuples: &[Sets],
) -> Result<Relation, Stop>
    requires { (sizes : List ℕ) × All (IsTuple sizes heading.now) (map read_sets tuples.now) }
    ensures { Answers result (under heading.now (then_give (literal_rows heading.now (map read_sets tuples.now)) (limited place))) }
{
    let rows = tuple_rows(alloc, heading.attributes(), tuples)?;
    or_fault_at(place, relation(alloc, heading, rows))
}

/// The rows of the tuples, or their first fault.
fn tuple_rows(alloc: Global, heading: &[(Name, Kind)], tuples: &[Sets]) -> Result<Vec<Row>, Stop>
    requires { (sizes : List ℕ) × All (IsTuple sizes heading.now) (map read_sets tuples.now) }
    ensures { Gives (λ rows. rows.items) result (first_of_all (map (literal_row heading.now) (map read_sets tuples.now))) }
{
    let mut rows = Vec::with_capacity(alloc, tuples.len())?;
    for tuple in tuples {
        rows.push(tuple_row(alloc, heading, tuple.list.as_slice())?)?;
    }
    Ok(rows)
}

/// The row of a tuple, or its first fault.
fn tuple_row(alloc: Global, heading: &[(Name, Kind)], sets: &[(Name, Scalar)]) -> Result<Row, Stop>
    requires { (sizes : List ℕ) × IsTuple sizes heading.now (read_sets sets.now) }
    ensures { Answers result (literal_row heading.now (read_sets sets.now)) }
{
    let at = set_places(alloc, sets, &[], heading)?;
    let none = Row::make(Vec::new(alloc));
    extended_row(alloc, at.as_slice(), sets, &none)
}

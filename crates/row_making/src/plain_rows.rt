// Rows that a condition keeps, and rows with items, where no attribute is listed.
ghost use Rattle.std.specs.Prelude.{◌≡◌, ℕ, List, Ok, IsTrue};
ghost use Rattle.base_core.specs.Outcomes.{then_give};
ghost use Rattle.value_core.specs.Values.{Row as PlainRow, fits_heading};
ghost use Rattle.value_core.specs.declared.kind.Kind.TheVariants.{Truth};
ghost use Rattle.scalar_core.specs.Expressions.{read};
ghost use Rattle.scalar_core.specs.Kinds.{IsTyped};
ghost use Rattle.relation_core.specs.Answers.{Answers, under};
ghost use Rattle.relation_core.specs.Operators.{restricted, extended};
ghost use Rattle.tree_core.specs.Trees.{read_sets};
ghost use Rattle.meaning_core.specs.Meanings.{condition, limited};
ghost use Rattle.meaning_core.specs.Rows.{extended_at, extended_row};
ghost use Rattle.meaning_core.specs.Scalars.{AreTypedOver};
ghost use Rattle.meaning_core.specs.Typing.{IsExtension};

use crate::items::{extended_row, holds, set_places};
use point_core::Stop;
use relation_core::{extend, restrict};
use scalar_core::Scalar;
use std::alloc::Global;
use tree_core::Sets;
use value_core::{Heading, MOST_ROWS, Name, Relation, Row};

/// The rows for which the condition holds, or its least fault.
pub fn restricted(alloc: Global, r: &Relation, c: &Scalar) -> Result<Relation, Stop>
    requires { IsTyped r.now.heading (read c.now) Truth }
    ensures { (place : _) → Answers result (under r.now.heading (then_give (restricted (condition (read c.now)) r.now.rows) (limited place))) }
{
    prove!(r.rows().len() <= MOST_ROWS);
    let test = |row: &Row| holds(alloc, c, row);
    let relation = restrict(alloc, r, &test)?;
    Ok(relation)
}

/// Each row with the values of the items put in or in place, or their least fault.
pub fn extended(
    alloc: Global,
    r: &Relation,
    heading: &Heading,
    sets: &Sets,
) -> Result<Relation, Stop>
    requires { (sizes : List ℕ) × IsExtension sizes r.now.heading heading.now (read_sets sets.now) }
    ensures { (place : _) → Answers result (under heading.now
        (then_give (extended (extended_row r.now.heading heading.now (read_sets sets.now)) r.now.rows) (limited place))) }
{
    let items = sets.list.as_slice();
    let at = set_places(alloc, items, r.heading().attributes(), heading.attributes())?;
    extended_at(alloc, r, heading.copy(alloc)?, at.as_slice(), items)
}

/// Each row's values at the places, among those of the items and then its own, or their least fault.
fn extended_at(
    alloc: Global,
    r: &Relation,
    heading: Heading,
    at: &[usize],
    sets: &[(Name, Scalar)],
) -> Result<Relation, Stop>
    requires typed { (x : PlainRow) → IsTrue (fits_heading r.now.heading x) → AreTypedOver x (read_sets sets.now) }
    requires fitting { (x y : PlainRow) → IsTrue (fits_heading r.now.heading x) → extended_at at.now (read_sets sets.now) x ≡ Ok y
        → IsTrue (fits_heading heading y) }
    ensures { Answers result (under heading (extended (extended_at at.now (read_sets sets.now)) r.now.rows)) }
{
    let f = move |row: &Row| extended_row(alloc, at, sets, row);
    extend(alloc, r, heading, &f)
}

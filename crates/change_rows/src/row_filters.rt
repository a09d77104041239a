// Row filters of conditions: conditions that tell of a row that another one is FALSE at all of its points.
ghost use Rattle.std.specs.Prelude.{◌≡◌, IfOk, option_map};
ghost use Rattle.scalar_core.specs.Expressions.{read, read_left, read_right, and_expr, or_expr};
ghost use Rattle.change_rows.specs.RowFilters as rules;
ghost use Rattle.change_rows.specs.RowFilters.{IsTypedSomewhere};

use crate::safety::is_safe;
use point_core::{Memory, Place};
use scalar_core::{Parts, Scalar, ScalarForm, names_any};
use std::alloc::Global;
use tree_core::{conjunction, parts};

/// Either condition.
fn either(alloc: Global, place: Place, left: Scalar, right: Scalar) -> Result<Scalar, Memory>
    ensures { IfOk result (λ e. read e ≡ or_expr place (read left) (read right)) }
{
    let parts = parts(alloc, left, right)?;
    Ok(Scalar {
        place,
        form: ScalarForm::Or(parts),
    })
}

/// The row filter of AND by those of its parts.
fn row_filter_of_and(
    alloc: Global,
    place: Place,
    safe: bool,
    left: Option<Scalar>,
    right: Option<Scalar>,
) -> Result<Option<Scalar>, Memory>
    ensures { IfOk result (λ g. option_map read g ≡ rules.row_filter_of_and place safe (option_map read left) (option_map read right)) }
{
    if !safe {
        return Ok(left);
    }
    match (left, right) {
        (Some(left), Some(right)) => Ok(Some(conjunction(alloc, place, left, right)?)),
        (Some(left), None) => Ok(Some(left)),
        (None, right) => Ok(right),
    }
}

/// A condition that is FALSE only where the given one is, and that names no listed attribute: it is the same at all points of a row.
#[cycle(row_filter)]
pub(crate) fn row_filter(
    alloc: Global,
    commalist: &[usize],
    c: &Scalar,
) -> Result<Option<Scalar>, Memory>
    requires { IsTypedSomewhere (read c.now) }
    ensures { IfOk result (λ g. option_map read g ≡ rules.row_filter commalist.now (read c.now)) }
{
    if !names_any(c, commalist) {
        return Ok(Some(c.copy(alloc)?));
    }
    match &c.form {
        ScalarForm::And(p) => row_filter_of_parts(alloc, commalist, c.place, p),
        _ => Ok(None),
    }
}

#[cycle(row_filter)]
fn row_filter_of_parts(
    alloc: Global,
    commalist: &[usize],
    place: Place,
    p: &Parts,
) -> Result<Option<Scalar>, Memory>
    requires left { IsTypedSomewhere (read_left p.now) }
    requires right { IsTypedSomewhere (read_right p.now) }
    ensures { IfOk result (λ g. option_map read g ≡ rules.row_filter_of_and place (rules.is_safe (read_left p.now))
        (rules.row_filter commalist.now (read_left p.now)) (rules.row_filter commalist.now (read_right p.now))) }
{
    let left = row_filter(alloc, commalist, &p.left)?;
    let right = row_filter(alloc, commalist, &p.right)?;
    let safe = is_safe(alloc, &p.left)?;
    row_filter_of_and(alloc, place, safe, left, right)
}

/// The row filter of two conditions by their row filters.
pub(crate) fn row_filter_of_both(
    alloc: Global,
    place: Place,
    c: Option<Scalar>,
    d: Option<Scalar>,
) -> Result<Option<Scalar>, Memory>
    ensures { IfOk result (λ g. option_map read g ≡ rules.row_filter_of_both place (option_map read c) (option_map read d)) }
{
    match (c, d) {
        (Some(c), Some(d)) => Ok(Some(either(alloc, place, c, d)?)),
        (Some(_), None) => Ok(None),
        (None, _) => Ok(None),
    }
}

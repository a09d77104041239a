// The rows of a packed relation that a change by a condition affects.
ghost use Rattle.std.specs.Prelude.{IfOk, IfSome};
ghost use Rattle.std.specs.List.{All};
ghost use Rattle.value_core.specs.declared.kind.Kind.TheVariants.{Truth};
ghost use Rattle.scalar_core.specs.Expressions.{read};
ghost use Rattle.scalar_core.specs.Kinds.{IsTyped};
ghost use Rattle.relation_core.specs.Operators.{subtracted};
ghost use Rattle.relation_core.specs.Hashes.{AreHashesOf};
ghost use Rattle.u_set.specs.Boxes.{AreIntervals};
ghost use Rattle.change_rows.specs.Affected.{AreFalse, IsClosedPart};

use crate::row_filters::{row_filter, row_filter_of_both};
use crate::telling::affected_part;
use point_core::Memory;
use relation_core::Hashes;
use scalar_core::Scalar;
use std::alloc::Global;
use value_core::Relation;

/// The rows of a relation that have the label of a row at some point of which the condition is not seen to be FALSE: with the same
/// values at the attributes that are not listed. Where some of the hashes, which are those of the relation's rows, are for these
/// attributes, the other rows of a label are found by them. None where the condition tells nothing of rows without the listed attributes, or
/// where these rows seem to be more than a quarter of all.
pub fn affected(
    alloc: Global,
    value: &Relation,
    commalist: &[usize],
    c: &Scalar,
    hashes: &[Hashes],
) -> Result<Option<Relation>, Memory>
    requires intervals { AreIntervals value.now.heading commalist.now }
    requires typed { IsTyped value.now.heading (read c.now) Truth }
    requires hashes { All (AreHashesOf value.now.rows) hashes.now }
    ensures part { IfOk result (λ o. IfSome o (IsClosedPart commalist.now value.now)) }
    ensures others { IfOk result (λ o. IfSome o (λ p. AreFalse commalist.now (read c.now) (subtracted value.now.rows p.rows))) }
{
    let g = row_filter(alloc, commalist, c)?;
    let part = affected_part(alloc, value, commalist, &g, hashes)?;
    Ok(part)
}

/// The rows of a relation that have the label of a row at some point of which one of two conditions is not seen to be FALSE:
/// by the hashes of the relation's rows too, as `affected` finds them, and none where it gives none.
pub fn affected_by_both(
    alloc: Global,
    value: &Relation,
    commalist: &[usize],
    c: &Scalar,
    d: &Scalar,
    hashes: &[Hashes],
) -> Result<Option<Relation>, Memory>
    requires intervals { AreIntervals value.now.heading commalist.now }
    requires first { IsTyped value.now.heading (read c.now) Truth }
    requires second { IsTyped value.now.heading (read d.now) Truth }
    requires hashes { All (AreHashesOf value.now.rows) hashes.now }
    ensures part { IfOk result (λ o. IfSome o (IsClosedPart commalist.now value.now)) }
    ensures others { IfOk result (λ o. IfSome o (λ p. AreFalse commalist.now (read c.now) (subtracted value.now.rows p.rows) × AreFalse commalist.now (read d.now) (subtracted value.now.rows p.rows))) }
{
    let first = row_filter(alloc, commalist, c)?;
    let second = row_filter(alloc, commalist, d)?;
    let g = row_filter_of_both(alloc, c.place, first, second)?;
    let part = affected_part(alloc, value, commalist, &g, hashes)?;
    Ok(part)
}

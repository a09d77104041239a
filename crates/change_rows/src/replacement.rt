// Replacement of some rows of a packed relation, all that have their labels.
ghost use Rattle.std.specs.Prelude.{◌≡◌, ◌+◌, ◌≤◌, length, IfOk, IsTrue, MatchResult};
ghost use Rattle.std.specs.List.{All};
ghost use Rattle.base_core.specs.Sets.{is_within};
ghost use Rattle.value_core.specs.RowPacking.{packed, unpacked};
ghost use Rattle.value_core.specs.Values.{IsRelation, most_rows, row_cmp};
ghost use Rattle.relation_core.specs.Answers.{IsRefusal};
ghost use Rattle.relation_core.specs.Hashes.{AreHashesOf};
ghost use Rattle.relation_core.specs.Growth.{touched};
ghost use Rattle.relation_core.specs.Operators.{subtracted, united};
ghost use Rattle.cell_core.specs.Costs.{bound};
ghost use Rattle.u_set.specs.Apart.{outside};
ghost use Rattle.u_set.specs.Boxes.{AreIntervals};
ghost use Rattle.u_constraints.specs.Growth.{exchanged};
ghost use Rattle.change_rows.specs.Exchanges.{IsExchange};

use crate::exchange::Exchange;
use point_core::{Memory, Steps};
use relation_core::{Hashes, absent, minus, union};
use std::alloc::Global;
use std::sync::ledger::Ledger;
use u_constraints::{ROWS_PASSED_FOR_ONE_SOUGHT, touched_with};
use u_set::{outside, united};
use value_core::{Relation, RowsRefuse};

/// What a relation gains and loses where some of its rows give way to others.
pub fn replaced(
    alloc: Global,
    value: &Relation,
    part: &Relation,
    left: &Relation,
) -> Result<Exchange, Memory>
    requires heading { (part.now.heading ≡ value.now.heading) × (left.now.heading ≡ value.now.heading) }
    requires within { IsTrue (is_within row_cmp part.now.rows value.now.rows) }
    ensures exchange { IfOk result (IsExchange value.now) }
    ensures rows { IfOk result (λ x. exchanged value.now.rows x.gone.rows x.come.rows ≡ united (subtracted value.now.rows part.now.rows) left.now.rows) }
{
    let come = without(alloc, left, value)?;
    let gone = without(alloc, part, left)?;
    Ok(Exchange { come, gone })
}

/// Some rows of a relation, and the rows that take their place.
#[derive(Clone, Copy)]
pub struct Replacement<'a> {
    pub part: &'a Relation,
    pub left: &'a Relation,
}

/// What a packed relation gains and loses where some of its rows, all that have their labels, give way to others with these labels, and
/// the rows of another relation of its heading are then added under USING of the attributes at the positions.
///
/// Packing works label by label, so only rows with the label of a row that goes or comes are looked at: with the same values at the
/// attributes that are not listed. They are found by the hashes, which are those of the value's rows, where some are for these
/// attributes.
pub fn replaced_and_inserted<L: Ledger>(
    alloc: Global,
    value: &Relation,
    hashes: &[Hashes],
    replacement: Replacement<'_>,
    added: &Relation,
    commalist: &[usize],
    steps: &mut Steps<L>,
) -> Result<Exchange, RowsRefuse>
    requires heading { (replacement.part.now.heading ≡ value.now.heading) × (replacement.left.now.heading ≡ value.now.heading) × (added.now.heading ≡ value.now.heading) }
    requires hashes { All (AreHashesOf value.now.rows) hashes.now }
    requires intervals { AreIntervals value.now.heading commalist.now }
    requires closed { replacement.part.now.rows ≡ touched (outside commalist.now value.now.heading) replacement.part.now.rows value.now.rows }
    requires labels { touched (outside commalist.now value.now.heading) replacement.part.now.rows replacement.left.now.rows ≡ replacement.left.now.rows }
    requires packed { packed commalist.now value.now.rows ≡ value.now.rows }
    requires few { length (united (subtracted value.now.rows replacement.part.now.rows) replacement.left.now.rows) ≤ most_rows }
    ensures exchange { IfOk result (IsExchange value.now) }
    ensures rows { let rows = packed commalist.now (united (unpacked commalist.now (united (subtracted value.now.rows replacement.entry.part.now.rows) replacement.entry.left.now.rows)) (unpacked commalist.now added.now.rows)) in
        MatchResult result (λ x. exchanged value.now.rows x.gone.rows x.come.rows ≡ rows) (IsRefusal rows) }
    ensures cost { steps.new ≤ steps.old + bound (length (united (subtracted value.now.rows replacement.entry.part.now.rows) replacement.entry.left.now.rows) + length added.now.rows) (length commalist.now) }
{
    let Replacement { part, left } = replacement;
    let label = outside(alloc, left.heading().attributes(), commalist)?;
    let touched = touched_with(alloc, value, added, label.as_slice(), hashes)?;
    let aside = without(alloc, &touched, part)?;
    let before = union(alloc, &aside, part)?;
    let after = union(alloc, &aside, left)?;
    let new = united(alloc, &after, added, commalist, steps)?;
    let come = without(alloc, &new, value)?;
    let gone = without(alloc, &before, &new)?;
    Ok(Exchange { come, gone })
}

/// The rows of one relation that are not among those of another one of its heading: each sought there where they are few beside those,
/// and else by one pass over both.
fn without(alloc: Global, left: &Relation, right: &Relation) -> Result<Relation, Memory>
    requires { left.now.heading ≡ right.now.heading }
    ensures rows { IfOk result (λ r. (r.heading ≡ left.now.heading) × (r.rows ≡ subtracted left.now.rows right.now.rows)) }
    ensures relations { IsRelation left.now × IsRelation right.now }
{
    if left.rows().len() < right.rows().len() / ROWS_PASSED_FOR_ONE_SOUGHT {
        return absent(alloc, left, right);
    }
    match minus(alloc, left, right) {
        Ok(rest) => Ok(rest),
        Err(RowsRefuse::Memory) => Err(Memory),
        // some rows of a relation are not too many
        Err(RowsRefuse::TooMany) => unreachable!(),
    }
}

// Insertion under USING, by the labels of the rows that come.
ghost use Rattle.std.specs.Prelude.{◌≡◌, ◌+◌, ◌≤◌, length, IfOk, MatchResult};
ghost use Rattle.std.specs.List.{All};
ghost use Rattle.value_core.specs.RowPacking.{packed, unpacked};
ghost use Rattle.relation_core.specs.Answers.{IsRefusal};
ghost use Rattle.relation_core.specs.Hashes.{AreHashesOf};
ghost use Rattle.relation_core.specs.Operators.{united};
ghost use Rattle.cell_core.specs.Costs.{bound};
ghost use Rattle.u_set.specs.Boxes.{AreIntervals};
ghost use Rattle.u_constraints.specs.Growth.{exchanged};
ghost use Rattle.change_rows.specs.Exchanges.{IsExchange};

use crate::exchange::Exchange;
use point_core::Steps;
use relation_core::{Hashes, minus};
use std::alloc::Global;
use std::sync::ledger::Ledger;
use u_constraints::touched_with;
use u_set::{outside, united};
use value_core::{Relation, RowsRefuse};

/// What a packed relation gains and loses where the rows of another one of its heading are added to it under USING of the attributes at the
/// positions.
///
/// Packing works label by label, so only rows with the label of a row that comes are looked at: with the same values at the attributes that
/// are not listed. They are found by the hashes, which are those of the value's rows, where some are for these attributes.
pub fn inserted<L: Ledger>(
    alloc: Global,
    value: &Relation,
    hashes: &[Hashes],
    operand: &Relation,
    commalist: &[usize],
    steps: &mut Steps<L>,
) -> Result<Exchange, RowsRefuse>
    requires heading { operand.now.heading ≡ value.now.heading }
    requires hashes { All (AreHashesOf value.now.rows) hashes.now }
    requires intervals { AreIntervals value.now.heading commalist.now }
    requires packed { packed commalist.now value.now.rows ≡ value.now.rows }
    ensures exchange { IfOk result (IsExchange value.now) }
    ensures rows { let rows = packed commalist.now (united (unpacked commalist.now value.now.rows) (unpacked commalist.now operand.now.rows)) in
        MatchResult result (λ x. exchanged value.now.rows x.gone.rows x.come.rows ≡ rows) (IsRefusal rows) }
    ensures cost { steps.new ≤ steps.old + bound (length value.now.rows + length operand.now.rows) (length commalist.now) }
{
    let label = outside(alloc, value.heading().attributes(), commalist)?;
    let part = touched_with(alloc, value, operand, label.as_slice(), hashes)?;
    let new = united(alloc, &part, operand, commalist, steps)?;
    let come = minus(alloc, &new, &part)?;
    let gone = minus(alloc, &part, &new)?;
    Ok(Exchange { come, gone })
}

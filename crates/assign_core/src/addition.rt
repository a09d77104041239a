// Rows that are added to a base relvar's own.
ghost use Rattle.std.specs.Prelude.{◌≡◌, ◌+◌, ◌≤◌, [], true, List, length, replicate, IfOk, None};
ghost use Rattle.relation_core.specs.Answers.{Answers};
ghost use Rattle.relation_core.specs.Operators.{united, subtracted};
ghost use Rattle.tree_core.specs.Relvars.{read_relvars};
ghost use Rattle.value_core.specs.Values.{Row as PlainRow};
ghost use Rattle.u_constraints.specs.Growth.{exchanged};
ghost use Rattle.change_rows.specs.Exchanges.{IsExchange};
ghost use Rattle.assign_core.specs.Assignments.{IsAdmitted};
ghost use Rattle.assign_core.specs.Costs.{constraints_cost};
ghost use Rattle.assign_core.specs.Databases.{IsKept};
ghost use Rattle.assign_core.specs.Turnovers.{renewed_at, ArePackedIf, IsCounted, IsKnown, IsTurnoverOf};
ghost use Rattle.assign_core.specs.Insertions.{addition_cost, list_under, rows_of_both, value_meant, IsAddition, IsPlain};
ghost use Rattle.assign_core.specs.Targets.{entries_before};

use crate::counting::are_few;
use crate::target::Target;
use crate::turnover::{Known, Turnover, check_turnover};
use change_rows::Exchange;
use point_core::{Code, Memory, Steps, Stop};
use relation_core::{Hashes, absent, union};
use row_making::or_fault_at;
use std::alloc::Global;
use std::sync::ledger::Ledger;
use u_set::{stay_apart, united};
use value_core::{MOST_ROWS_IN_ALL, Positions, Refuse, Relation};

/// A base relvar with hashes of its rows, and the rows of an operand that are added to these: point by point for the attributes of a
/// list, if there is one.
#[derive(Clone, Copy)]
pub(crate) struct Addition<'a, 'b> {
    pub target: Target<'a>,
    pub commalist: Option<&'a Positions>,
    pub hashes: &'a [Hashes],
    pub operand: &'b Relation,
}

/// What is known of the target's rows: their hashes, and that those after the addition are packed on its list.
pub(crate) fn known_of<'a>(addition: Addition<'a, '_>) -> Known<'a>
    ensures { result ≡ record { hashes = addition.entry.hashes; packed = addition.entry.commalist } }
{
    Known {
        hashes: addition.hashes,
        packed: addition.commalist,
    }
}

/// Whether the rows of both stay as they are: there is no list, or no row of the one has to do with the points of another.
pub(crate) fn is_plain(alloc: Global, addition: Addition<'_, '_>) -> Result<bool, Memory>
    requires { IsAddition addition }
    ensures { IfOk result (λ b. b ≡ true → IsPlain addition.entry) }
{
    match addition.commalist {
        Some(commalist) => stay_apart(
            alloc,
            addition.target.value,
            addition.operand,
            commalist.list.as_slice(),
        ),
        None => Ok(true),
    }
}

/// The operand's rows that the target does not have, and none that go.
pub(crate) fn new_rows(alloc: Global, addition: Addition<'_, '_>) -> Result<Exchange, Memory>
    requires addition { IsAddition addition }
    requires plain { IsPlain addition }
    ensures exchange { IfOk result (IsExchange addition.entry.target.value.now) }
    ensures rows { IfOk result (λ x. exchanged addition.entry.target.value.now.rows x.gone.rows x.come.rows ≡ rows_of_both addition.entry) }
    ensures packed { IfOk result (λ x. ArePackedIf (list_under addition.entry) (exchanged addition.entry.target.value.now.rows x.gone.rows x.come.rows)) }
{
    // Each row has the values of its heading.
    let _rows = addition.operand.rows();
    let _own = addition.target.value.rows();
    let come = absent(alloc, addition.operand, addition.target.value)?;
    let exchange = coming(alloc, addition.target.value, come)?;
    Ok(exchange)
}

/// Rows that come to a relation that has none of them, and none that go.
pub(crate) fn coming(alloc: Global, value: &Relation, come: Relation) -> Result<Exchange, Memory>
    requires heading { come.heading ≡ value.now.heading }
    requires new { (rows : List PlainRow) × (come.rows ≡ subtracted rows value.now.rows) }
    ensures exchange { IfOk result (IsExchange value.now) }
    ensures rows { IfOk result (λ x. (rows : List PlainRow) → come.rows ≡ subtracted rows value.now.rows → exchanged value.now.rows x.gone.rows x.come.rows ≡ united value.now.rows rows) }
{
    // The rows of both ascend.
    let _own = value.rows();
    let _rows = come.rows();
    let gone = no_rows(alloc, value)?;
    Ok(Exchange { come, gone })
}

/// No rows, under the heading of a relation.
pub(crate) fn no_rows(alloc: Global, value: &Relation) -> Result<Relation, Memory>
    ensures { IfOk result (λ r. r ≡ record { heading = value.now.heading; rows = [] }) }
{
    let heading = value.heading().copy(alloc)?;
    let none = Relation::of_few(heading, Vec::new(alloc))?;
    Ok(none)
}

/// Refuses too many rows of all relvars after an exchange of rows of the target, and then a broken constraint. The rows are then packed
/// on the list, where one is given.
pub(crate) fn admit_rows<'a, L: Ledger>(
    alloc: Global,
    target: Target<'a>,
    rows: &'a Exchange,
    known: Known<'a>,
    none: &[Option<Relation>],
    steps: &mut Steps<L>,
) -> Result<(), Refuse>
    requires kept { IsKept (read_relvars target.relvars.now) }
    requires none { none.now ≡ replicate (length target.relvars.now.list.entries) None }
    requires turnover { IsTurnoverOf (entries_before target) target.name.now target.at target.value.now rows.now }
    requires counted { IsCounted target.value.now rows.now }
    requires known { IsKnown target.value.now rows.now known }
    ensures admitted { IsAdmitted result (renewed_at target.entry.at rows.now (entries_before target.entry)) }
    ensures cost { steps.new ≤ steps.old + constraints_cost (renewed_at target.entry.at rows.now (entries_before target.entry)) }
{
    let Exchange { come, gone } = rows;
    let most = MOST_ROWS_IN_ALL + gone.rows().len() - come.rows().len();
    if !are_few(target.relvars, none, most) {
        return Err(Refuse::Plain(Code::E46));
    }
    let turnover = Turnover {
        relvars: target.relvars,
        at: target.at,
        name: target.name,
        value: target.value,
        rows,
        new: None,
        known,
    };
    check_turnover(alloc, turnover, steps)
}

/// The rows of both, united under the list; or the fault of too many rows.
pub(crate) fn unite<L: Ledger>(
    alloc: Global,
    addition: Addition<'_, '_>,
    steps: &mut Steps<L>,
) -> Result<Relation, Stop>
    requires { IsAddition addition }
    ensures value { Answers result (value_meant addition.entry) }
    ensures cost { steps.new ≤ steps.old + addition_cost addition.entry }
{
    let place = addition.target.place;
    let (value, operand) = (addition.target.value, addition.operand);
    match addition.commalist {
        Some(commalist) => or_fault_at(
            place,
            united(alloc, value, operand, commalist.list.as_slice(), steps),
        ),
        None => or_fault_at(place, union(alloc, value, operand)),
    }
}

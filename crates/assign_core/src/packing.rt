// Insertions under USING into a value that its own constraints keep packed on the very list.
ghost use Rattle.std.specs.Prelude.{◌≡◌, ◌+◌, ◌≤◌, true, IfSome, IfOk, IfErr, Err, nat_eq};
ghost use Rattle.std.specs.Cmp.Lexicographic.{pointwise};
ghost use Rattle.std.specs.List.{All, list_any};
ghost use Rattle.relation_core.specs.Hashes.{AreHashesOf};
ghost use Rattle.value_core.specs.RowPacking.{packed};
ghost use Rattle.value_core.specs.Values.{Relation as PlainRelation};
ghost use Rattle.relation_core.specs.Answers.{Answers, under};
ghost use Rattle.tree_core.specs.Relvars.{read_relvar, read_relvars};
ghost use Rattle.meaning_core.specs.Meanings.{limited};
ghost use Rattle.u_constraints.specs.Growth.{exchanged};
ghost use Rattle.change_rows.specs.Exchanges.{IsExchange};
ghost use Rattle.assign_core.specs.Databases.{IsKept};
ghost use Rattle.assign_core.specs.Insertions.{addition_cost, is_kept_packed, keeps_packed, list_under, rows_of_both, value_meant, IsAddition, IsPackedOn};
ghost use Rattle.assign_core.specs.Turnovers.{ArePackedIf};

use crate::addition::Addition;
use change_rows::{Exchange, inserted};
use point_core::{Code, Fault, Place, Steps, Stop};
use relation_core::{absent, union};
use row_making::or_fault_at;
use std::alloc::Global;
use std::sync::ledger::Ledger;
use tree_core::Relvar;
use value_core::{Constraint, Positions, Relation, RowsRefuse};

/// The list of the addition, where a constraint of the target keeps its rows packed on the very list.
pub(crate) fn packed_list<'a>(addition: Addition<'a, '_>) -> Option<&'a Positions>
    requires kept { IsKept (read_relvars addition.target.relvars.now) }
    requires addition { IsAddition addition }
    ensures { IfSome result (λ l. IsPackedOn addition.entry l.now) }
{
    match addition.commalist {
        Some(commalist) if is_packed_on(addition, commalist) => Some(commalist),
        _ => None,
    }
}

// Whether a constraint of the target keeps its rows packed on the list.
fn is_packed_on(addition: Addition<'_, '_>, commalist: &Positions) -> bool
    requires kept { IsKept (read_relvars addition.target.relvars.now) }
    requires addition { IsAddition addition }
    ensures { result ≡ true → packed commalist.now addition.entry.target.value.now.rows ≡ addition.entry.target.value.now.rows }
{
    let target = addition.target;
    match target.relvars.list.get_index(target.at) {
        Some((_, relvar)) => is_kept_packed(relvar, commalist),
        None => false,
    }
}

/// Whether a constraint of the relvar keeps its rows packed on the list.
pub(crate) fn is_kept_packed(relvar: &Relvar, commalist: &Positions) -> bool
    ensures { result ≡ is_kept_packed commalist.now (read_relvar relvar.now) }
{
    match relvar {
        Relvar::Base {
            value: _,
            constraints,
        } => keep_packed(constraints.list.as_slice(), commalist),
        Relvar::View { tree: _, kind: _ } => false,
        Relvar::Log { of: _, log: _ } => false,
    }
}

// Whether one of the constraints keeps rows packed on the list.
fn keep_packed(list: &[Constraint], commalist: &Positions) -> bool
    ensures { result ≡ list_any (keeps_packed commalist.now) list.now }
{
    list.iter().any(|c| keeps_packed(c, commalist))
}

// Whether the constraint keeps rows packed on the list.
fn keeps_packed(constraint: &Constraint, commalist: &Positions) -> bool
    ensures { result ≡ keeps_packed commalist.now constraint.now }
{
    match constraint {
        Constraint::Packed(own) => are_same(own, commalist),
        Constraint::UKey(own, _) => are_same(own, commalist),
        Constraint::Key(_)
        | Constraint::WhenUnpacked(_, _)
        | Constraint::Foreign(_, _, _, _)
        | Constraint::History(_) => false,
    }
}

/// Whether both lists are the same.
pub(crate) fn are_same(left: &Positions, right: &Positions) -> bool
    ensures { result ≡ pointwise nat_eq left.now right.now }
{
    *left.list.as_slice() == *right.list.as_slice()
}

/// The rows that the target gains and loses where it is packed on the list, or the fault of too many rows.
pub(crate) fn exchange_of<L: Ledger>(
    alloc: Global,
    addition: Addition<'_, '_>,
    commalist: &Positions,
    steps: &mut Steps<L>,
) -> Result<Exchange, Stop>
    requires addition { IsAddition addition }
    requires hashed { All (AreHashesOf addition.target.value.now.rows) addition.hashes.now }
    requires packed { IsPackedOn addition commalist.now }
    ensures exchange { IfOk result (IsExchange addition.entry.target.value.now) }
    ensures packed { IfOk result (λ x. ArePackedIf (list_under addition.entry) (exchanged addition.entry.target.value.now.rows x.gone.rows x.come.rows)) }
    ensures rows { IfOk result (λ x. exchanged addition.entry.target.value.now.rows x.gone.rows x.come.rows ≡ rows_of_both addition.entry) }
    ensures refused { IfErr result (λ stop. Answers {A = PlainRelation} (Err stop) (value_meant addition.entry)) }
    ensures cost { steps.new ≤ steps.old + addition_cost addition.entry }
{
    // Each row has the values of its heading.
    let _rows = addition.target.value.rows();
    let _more = addition.operand.rows();
    let list = commalist.list.as_slice();
    let Addition {
        target,
        hashes,
        operand,
        ..
    } = addition;
    match inserted(alloc, target.value, hashes, operand, list, steps) {
        Ok(rows) => Ok(rows),
        Err(RowsRefuse::TooMany) => Err(Stop::Fault(Fault {
            place: target.place,
            code: Code::E35,
        })),
        Err(RowsRefuse::Memory) => Err(Stop::Memory),
    }
}

/// A relation after an exchange of its rows, or the fault of too many rows at the place.
pub(crate) fn whole(
    alloc: Global,
    value: &Relation,
    place: Place,
    rows: &Exchange,
) -> Result<Relation, Stop>
    requires exchange { IsExchange value.now rows.now }
    ensures { Answers result (under value.now.heading (limited place (exchanged value.now.rows rows.now.gone.rows rows.now.come.rows))) }
{
    let left = absent(alloc, value, &rows.gone)?;
    let come = absent(alloc, &rows.come, &rows.gone)?;
    or_fault_at(place, union(alloc, &left, &come))
}

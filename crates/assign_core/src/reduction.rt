// Deletions by a condition that affect few rows of a target, which its own constraints keep packed on the very list.
ghost use Rattle.std.specs.Prelude.{◌≡◌, ◌+◌, ◌≤◌, [], ◌∷◌, length, true, List, IfSome, IfOk, IfErr, Err};
ghost use Rattle.std.specs.List.{All};
ghost use Rattle.value_core.specs.RowPacking.{packed};
ghost use Rattle.value_core.specs.Values.{Name as PlainName, Relation as PlainRelation, IsRelation};
ghost use Rattle.value_core.specs.declared.constraint.Constraint.{Constraint};
ghost use Rattle.scalar_core.specs.Expressions.{read};
ghost use Rattle.relation_core.specs.Answers.{Answers, under};
ghost use Rattle.relation_core.specs.Hashes.{AreHashesOf};
ghost use Rattle.cell_core.specs.Costs.{bound};
ghost use Rattle.tree_core.specs.Items.{read_assignment};
ghost use Rattle.tree_core.specs.Relvars.{base, read_relvars};
ghost use Rattle.meaning_core.specs.Meanings.{limited};
ghost use Rattle.meaning_core.specs.Names.{IsFirstAt};
ghost use Rattle.meaning_core.specs.Updates.{IsTypedAssignment};
ghost use Rattle.u_constraints.specs.Growth.{exchanged};
ghost use Rattle.eval_using.specs.Cells.{cells_of_all};
ghost use Rattle.change_rows.specs.Exchanges.{IsExchange};
ghost use Rattle.assign_core.specs.Costs.{source_cost};
ghost use Rattle.assign_core.specs.Databases.{IsKept};
ghost use Rattle.assign_core.specs.PlainChanges.{IsAnyDeletion};
ghost use Rattle.assign_core.specs.Portions.{portion_cost, portion_rows, IsAffected, IsDeletionOf, IsPortionFor};
ghost use Rattle.assign_core.specs.Reductions.{entries_reduced, value_reduced, IsReduction};

use crate::insertion::base_at;
use crate::packing::is_kept_packed;
use crate::plain_rows::lists_none;
use crate::portion::{Deletion, Portion};
use crate::tuning::SMALL_PART_DIVISOR;
use change_rows::{Exchange, affected, replaced};
use eval_using::{Node, using_restriction};
use point_core::{Memory, Steps, Stop};
use relation_core::Hashes;
use row_making::restricted;
use std::alloc::Global;
use std::sync::ledger::Ledger;
use tree_core::Relvars;
use value_core::{Positions, Relation};

/// A deletion with the place and the value of its target, and the rows that its condition affects.
#[derive(Clone, Copy)]
pub(crate) struct Reduction<'a, 'b> {
    pub relvars: &'a Relvars,
    pub deletion: Deletion<'a, 'b>,
    pub at: usize,
    pub value: &'a Relation,
    pub part: &'b Relation,
}

/// The place of the target, and its value.
pub(crate) fn deletion_at<'a>(
    relvars: &'a Relvars,
    deletion: Deletion<'_, '_>,
) -> (usize, &'a Relation)
    requires deletion { IsAnyDeletion deletion }
    requires typed { IsTypedAssignment (read_relvars relvars.now) (read_assignment deletion.assignment.now) }
    ensures { IsDeletionOf (read_relvars relvars.now).relvars deletion.entry result.0 result.1.now }
{
    let (at, value) = base_at(relvars, deletion.assignment);
    // A relation has few rows, and its heading is one.
    let _rows = value.rows();
    (at, value)
}

/// The rows that the deletion's condition affects, where they are few beside all of a target that is kept packed on the list.
pub(crate) fn deleted_part(
    alloc: Global,
    relvars: &Relvars,
    deletion: Deletion<'_, '_>,
    at: usize,
    value: &Relation,
    hashes: &[Hashes],
) -> Result<Option<Relation>, Memory>
    requires kept { IsKept (read_relvars relvars.now) }
    requires deletion { IsDeletionOf (read_relvars relvars.now).relvars deletion at value.now }
    requires hashed { All (AreHashesOf value.now.rows) hashes.now }
    ensures { IfOk result (λ o. IfSome o (IsAffected deletion.entry.kept.commalist.now (read deletion.entry.gone.now) value.now)) }
{
    if !is_packed_at(relvars, at, deletion.kept.commalist) {
        return Ok(None);
    }
    let commalist = deletion.kept.commalist;
    let list = commalist.list.as_slice();
    match affected(alloc, value, list, deletion.gone, hashes)? {
        Some(part) => Ok(if_few(part, value)),
        None => Ok(None),
    }
}

/// Whether a constraint of the base relvar at the place keeps its rows packed on the list. Without an attribute there is nothing to pack.
pub(crate) fn is_packed_at(relvars: &Relvars, at: usize, commalist: &Positions) -> bool
    requires { IsKept (read_relvars relvars.now) }
    ensures { (target : PlainName) (value : PlainRelation) (constraints : List Constraint) → IsFirstAt (read_relvars relvars.now).relvars target at (base value constraints)
        → IsRelation value → result ≡ true → packed commalist.now value.rows ≡ value.rows }
{
    if lists_none(commalist) {
        return true;
    }
    match relvars.list.get_index(at) {
        Some((_, relvar)) => is_kept_packed(relvar, commalist),
        None => false,
    }
}

/// The part, where it is a small one of the rows.
pub(crate) fn if_few(part: Relation, value: &Relation) -> Option<Relation>
    ensures { IfSome result (λ p. p ≡ part) }
{
    if part.rows().len() <= value.rows().len() / SMALL_PART_DIVISOR {
        Some(part)
    } else {
        None
    }
}

/// The relation's rows at the points of the portion, or the least fault of its condition at any point, or that of too many rows.
pub(crate) fn portion_rows<L: Ledger>(
    alloc: Global,
    portion: Portion<'_>,
    of: &Relation,
    steps: &mut Steps<L>,
) -> Result<Relation, Stop>
    requires { IsPortionFor of.now.heading portion }
    ensures value { Answers result (under of.now.heading (portion_rows portion.entry.place portion.entry.commalist.now (read portion.entry.condition.now) of.now.rows)) }
    ensures cost { steps.new ≤ steps.old + portion_cost portion.entry.commalist.now (read portion.entry.condition.now) of.now.rows }
{
    if lists_none(portion.commalist) {
        return restricted(alloc, of, portion.condition);
    }
    rows_at_points(alloc, portion, of, steps)
}

// The same under USING.
fn rows_at_points<L: Ledger>(
    alloc: Global,
    portion: Portion<'_>,
    of: &Relation,
    steps: &mut Steps<L>,
) -> Result<Relation, Stop>
    requires { IsPortionFor of.now.heading portion }
    ensures value { Answers result (under of.now.heading (portion_rows portion.entry.place portion.entry.commalist.now (read portion.entry.condition.now) of.now.rows)) }
    ensures cost { steps.new ≤ steps.old + bound (cells_of_all portion.entry.commalist.now (read portion.entry.condition.now ∷ []) of.now.rows) (length portion.entry.commalist.now) }
{
    let heading = of.heading();
    let commalist = portion.commalist;
    let list = commalist.list.as_slice();
    let node = Node {
        place: portion.place,
        heading,
        commalist: list,
    };
    using_restriction(alloc, node, portion.condition, of, steps)
}

/// The rows that the target gains and loses, or the fault of the condition.
pub(crate) fn deleted<L: Ledger>(
    alloc: Global,
    reduction: Reduction<'_, '_>,
    steps: &mut Steps<L>,
) -> Result<Exchange, Stop>
    requires { IsReduction reduction }
    ensures exchange { IfOk result (IsExchange reduction.entry.value.now) }
    ensures meant { IfOk result (λ x. value_reduced reduction.entry
        ≡ under reduction.entry.value.now.heading (limited reduction.entry.deletion.kept.place (exchanged reduction.entry.value.now.rows x.gone.rows x.come.rows))) }
    ensures refused { IfErr result (λ stop. Answers {A = PlainRelation} (Err stop) (value_reduced reduction.entry)) }
    ensures cost { steps.new ≤ steps.old + source_cost (entries_reduced reduction.entry) (entries_reduced reduction.entry) (read_assignment reduction.entry.deletion.assignment.now) }
{
    let left = portion_rows(alloc, reduction.deletion.kept, reduction.part, steps)?;
    let rows = replaced(alloc, reduction.value, reduction.part, &left)?;
    Ok(rows)
}

// Assignments that add rows to their own targets.
ghost use Rattle.std.specs.Prelude.{◌≡◌, ◌+◌, ◌≤◌, [], ◌∷◌, List, length, map, option_map, replicate, IfSome, IfOk, IfErr, Err, None};
ghost use Rattle.value_core.specs.declared.constraint.Constraint.{Constraint};
ghost use Rattle.value_core.specs.Values.{Heading as PlainHeading};
ghost use Rattle.point_core.specs.declared.fault.Place.{Place};
ghost use Rattle.relation_core.specs.Answers.{Answers};
ghost use Rattle.tree_core.specs.Items.{read_assignment};
ghost use Rattle.tree_core.specs.Relvars.{read_relvars, base, Entries};
ghost use Rattle.tree_core.specs.Trees.{using, read_tree};
ghost use Rattle.meaning_core.specs.Names.{IsFirstAt};
ghost use Rattle.meaning_core.specs.StoredRows.{AreStored};
ghost use Rattle.meaning_core.specs.Updates.{IsTypedAssignment};
ghost use Rattle.meaning_core.specs.WellMade.{IsWellMade};
ghost use Rattle.assign_core.specs.Assignments.{evaluated};
ghost use Rattle.assign_core.specs.Costs.{sources_cost};
ghost use Rattle.assign_core.specs.Insertions.{joined_under, list_in, united_cost, IsInsertion, IsSumOf};

use crate::sources::source;
use point_core::{Steps, Stop};
use std::alloc::Global;
use std::sync::ledger::Ledger;
use tree_core::{Assignment, InfixWord, RelForm, RelTree, Relvar, Relvars};
use value_core::{Positions, Relation};

/// An assignment that adds the rows of an operand to its own target, point by point for the attributes of a list where it stands
/// under USING.
#[derive(Clone, Copy)]
pub(crate) struct Insertion<'a> {
    pub assignment: &'a Assignment,
    pub list: Option<&'a Positions>,
    pub operand: &'a RelTree,
}

/// The insertion that the list consists of, where it is one.
pub(crate) fn find_insertion(list: &[Assignment]) -> Option<Insertion<'_>>
    ensures alone { IfSome result (λ i. map read_assignment list.now ≡ read_assignment i.assignment.now ∷ []) }
    ensures is { IfSome result IsInsertion }
{
    match list.split_first() {
        Some((assignment, rest)) if rest.is_empty() => as_insertion(assignment),
        _ => None,
    }
}

// The assignment as an insertion, where it is one.
fn as_insertion(assignment: &Assignment) -> Option<Insertion<'_>>
    ensures same { IfSome result (λ i. i.assignment.now ≡ assignment.now) }
    ensures is { IfSome result IsInsertion }
{
    match &assignment.tree.form {
        RelForm::Infix(word, left, operand) => with_operand(assignment, None, *word, left, operand),
        RelForm::Using(commalist, part) => under_list(assignment, commalist, part),
        _ => None,
    }
}

// The assignment of an expression under USING as an insertion, where it is one.
fn under_list<'a>(
    assignment: &'a Assignment,
    commalist: &'a Positions,
    part: &'a RelTree,
) -> Option<Insertion<'a>>
    requires { read_tree assignment.now.tree ≡ using assignment.now.tree.place assignment.now.tree.heading commalist.now (read_tree part.now) }
    ensures same { IfSome result (λ i. i.assignment.now ≡ assignment.now) }
    ensures is { IfSome result IsInsertion }
{
    match &part.form {
        RelForm::Infix(word, left, operand) => {
            with_operand(assignment, Some(commalist), *word, left, operand)
        }
        _ => None,
    }
}

// The assignment of two operands as an insertion, where it is one: the union of its target and the right one.
fn with_operand<'a>(
    assignment: &'a Assignment,
    list: Option<&'a Positions>,
    word: InfixWord,
    left: &RelTree,
    operand: &'a RelTree,
) -> Option<Insertion<'a>>
    requires { (at : Place) × (headed : PlainHeading) × (read_tree assignment.now.tree ≡ joined_under assignment.now.tree.place assignment.now.tree.heading
        (option_map (λ l. l.now) list) at headed word (read_tree left.now) (read_tree operand.now)) }
    ensures same { IfSome result (λ i. i.assignment.now ≡ assignment.now) }
    ensures is { IfSome result IsInsertion }
{
    match (word, &left.form) {
        (InfixWord::Union, RelForm::Named(name)) if *name == assignment.target => Some(Insertion {
            assignment,
            list,
            operand,
        }),
        _ => None,
    }
}

/// The place of the target, its value, and the rows of the operand; or the operand's fault.
pub(crate) fn evaluate_operand<'a, L: Ledger>(
    alloc: Global,
    insertion: Insertion<'_>,
    relvars: &'a Relvars,
    stored: &[Option<Relation>],
    none: &[Option<Relation>],
    steps: &mut Steps<L>,
) -> Result<(usize, &'a Relation, Relation), Stop>
    requires well_made { IsWellMade (read_relvars relvars.now) }
    requires stored { AreStored (read_relvars relvars.now).relvars stored.now }
    requires none { none.now ≡ replicate (length relvars.now.list.entries) None }
    requires insertion { IsInsertion insertion }
    requires typed { IsTypedAssignment (read_relvars relvars.now) (read_assignment insertion.assignment.now) }
    ensures sum { IfOk result (λ r. IsSumOf (read_relvars relvars.now).relvars insertion.entry r.0 r.1.now r.2) }
    ensures refused { IfErr result (λ stop. Answers {A = Entries} (Err stop) (evaluated (read_relvars relvars.now).relvars (read_relvars relvars.now).relvars (read_assignment insertion.entry.assignment.now ∷ []))) }
    ensures cost { steps.new ≤ steps.old + sources_cost (read_relvars relvars.now).relvars (read_relvars relvars.now).relvars (read_assignment insertion.entry.assignment.now ∷ []) }
    ensures left { IfOk result (λ r. steps.new + united_cost (list_in insertion.entry) (length r.1.now.rows + length r.2.rows)
        ≤ steps.old + sources_cost (read_relvars relvars.now).relvars (read_relvars relvars.now).relvars (read_assignment insertion.entry.assignment.now ∷ [])) }
{
    let assignment = insertion.assignment;
    let (at, value) = base_at(relvars, assignment);
    // A relation has few rows, and its heading is one.
    let _rows = value.rows();
    let (operand, target) = (insertion.operand, &assignment.target);
    let operand = source(alloc, operand, target, relvars, stored, none, steps)?;
    Ok((at, value, operand))
}

/// The place of the target, and its value.
pub(crate) fn base_at<'a>(relvars: &'a Relvars, assignment: &Assignment) -> (usize, &'a Relation)
    requires { IsTypedAssignment (read_relvars relvars.now) (read_assignment assignment.now) }
    ensures { (constraints : List Constraint) × IsFirstAt (read_relvars relvars.now).relvars assignment.now.target result.0 (base result.1.now constraints) }
{
    match relvars.list.get_full(&assignment.target) {
        Some(
            (
                at,
                _,
                Relvar::Base {
                    value,
                    constraints: _,
                },
            ),
        ) => (at, value),
        Some((_, _, Relvar::View { tree: _, kind: _ })) => unreachable!(),
        Some((_, _, Relvar::Log { of: _, log: _ })) => unreachable!(),
        None => unreachable!(),
    }
}

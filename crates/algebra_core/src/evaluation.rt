// The relations of expressions.
ghost use Rattle.std.specs.Prelude.{◌≡◌, ◌≤◌, ◌+◌, Ok, IfSome, map};
ghost use Rattle.base_core.specs.Outcomes.{then_give};
ghost use Rattle.value_core.specs.Values.{Heading as PlainHeading};
ghost use Rattle.scalar_core.specs.Expressions.{read};
ghost use Rattle.relation_core.specs.Answers.{Answers, under};
ghost use Rattle.tree_core.specs.Relvars.{read_relvar, relvar_heading};
ghost use Rattle.tree_core.specs.Trees.{read_tree, read_sets, read_aggregate, named as named_tree, infix_of, project as project_tree, rename as rename_tree, restrict as restrict_tree, extend as extend_tree, summarize as summarize_tree, pack as pack_tree, unpack as unpack_tree, using as using_tree};
ghost use Rattle.meaning_core.specs.Meanings.{RowsMeant, meaning, plainly, at_name, limited};
ghost use Rattle.algebra_core.specs.Costs.{price_of, tree_cost};
ghost use Rattle.algebra_core.specs.Operands.{held_in, IsKept};
ghost use Rattle.algebra_core.specs.Scopes.{CanEvaluate, CanLookUp, known_at, prices_at, entry_cost, entry_meaning, up_to, current, with_of, value_of};
ghost use Rattle.algebra_core.specs.Surroundings.{around_of, MayStand};

use crate::literal::literal;
use crate::operand::Operand;
use crate::scope::Scope;
use crate::stored::stored_rows;
use crate::surrounding::Surrounding;
use crate::{operators, surrounded};
use eval_using::{packed, unpacked};
use point_core::{Fault, Memory, Place, Steps, Stop};
use scalar_core::Scalar;
use std::alloc::Global;
use std::sync::ledger::Ledger;
use tree_core::{Aggregates, InfixWord, RelForm, RelTree, Relvar, Sets};
use value_core::{Heading, MOST_ROWS, Name, Names, Positions, Relation};

/// The relation of an expression, or its fault.
#[cycle(answer)]
pub(crate) fn answer<L: Ledger>(
    alloc: Global,
    tree: &RelTree,
    around: Surrounding<'_>,
    scope: &Scope<'_>,
    steps: &mut Steps<L>,
) -> Result<Relation, Stop>
    requires can { CanEvaluate scope.now (read_tree tree.now) }
    requires stands { MayStand around (read_tree tree.now) }
    ensures value { Answers result (under tree.now.heading (meaning (known_at scope.now) (around_of around.entry tree.now.heading) (read_tree tree.now))) }
    ensures cost { steps.new ≤ steps.old + tree_cost (prices_at scope.now) (around_of around.entry tree.now.heading) (read_tree tree.now) }
{
    match &tree.form {
        RelForm::Named(name) => named(alloc, tree.place, &tree.heading, name, scope, steps),
        RelForm::Literal(tuples) => literal(
            alloc,
            tree.place,
            &tree.heading,
            tuples.list.as_slice(),
        ),
        RelForm::Infix(word, l, r) => infix(alloc, tree, *word, l, r, around, scope, steps),
        RelForm::Project(kept, t) => project(alloc, tree, kept, t, around, scope, steps),
        RelForm::Rename(names, t) => rename(alloc, tree, names, t, scope, steps),
        RelForm::Restrict(c, t) => restrict(alloc, tree, c, t, around, scope, steps),
        RelForm::Extend(sets, t) => extend(alloc, tree, sets, t, around, scope, steps),
        RelForm::Summarize(by, aggregates, t) => {
            summarize(alloc, tree, by, aggregates, t, around, scope, steps)
        }
        RelForm::Pack(commalist, t) => pack(alloc, tree, commalist, t, scope, steps),
        RelForm::Unpack(commalist, t) => unpack(alloc, tree, commalist, t, scope, steps),
        RelForm::Using(commalist, t) => using(alloc, tree, commalist, t, scope, steps),
    }
}

/// The relation of an operand: that of a base relvar's name stays where it is, and so does what is stored of a view.
#[cycle(answer)]
pub(crate) fn operand<'a, L: Ledger>(
    alloc: Global,
    tree: &RelTree,
    scope: &Scope<'a>,
    steps: &mut Steps<L>,
) -> Result<Operand<'a>, Stop>
    requires { CanEvaluate scope.now (read_tree tree.now) }
    ensures value { Answers (held_in result) (under tree.now.heading (meaning (known_at scope.now) plainly (read_tree tree.now))) }
    ensures cost { steps.new ≤ steps.old + tree_cost (prices_at scope.now) plainly (read_tree tree.now) }
{
    match kept(tree, scope) {
        Some(relation) => Ok(Operand::Kept(relation)),
        None => {
            let relation = answer(alloc, tree, Surrounding::Plainly, scope, steps)?;
            Ok(Operand::Made(relation))
        }
    }
}

// A name: what stands at it, a fault of a view taking the name's place.
#[cycle(answer)]
fn named<L: Ledger>(
    alloc: Global,
    place: Place,
    heading: &Heading,
    name: &Name,
    scope: &Scope<'_>,
    steps: &mut Steps<L>,
) -> Result<Relation, Stop>
    requires { CanEvaluate scope.now (named_tree place heading.now name.now) }
    ensures value { Answers result (under heading.now (meaning (known_at scope.now) plainly (named_tree place heading.now name.now))) }
    ensures cost { steps.new ≤ steps.old + price_of (prices_at scope.now) name.now }
{
    match scope.relvars.list.get_full(name) {
        Some((at, _, relvar)) => {
            or_fault_at_name(place, looked_up(alloc, name, at, relvar, scope, steps))
        }
        None => unreachable!(),
    }
}

// The value of a base relvar or a log, what is stored of a view, or the relation of its expression, which names entries before it alone.
#[cycle(answer)]
fn looked_up<L: Ledger>(
    alloc: Global,
    name: &Name,
    at: usize,
    relvar: &Relvar,
    scope: &Scope<'_>,
    steps: &mut Steps<L>,
) -> Result<Relation, Stop>
    requires { CanLookUp scope.now name.now at (read_relvar relvar.now) }
    ensures value { Answers result (under (relvar_heading (read_relvar relvar.now)) (entry_meaning scope.now name.now at (read_relvar relvar.now))) }
    ensures cost { steps.new ≤ steps.old + entry_cost scope.now at (read_relvar relvar.now) }
{
    match relvar {
        Relvar::Base {
            value,
            constraints: _,
        } => base_value(alloc, name, value, scope),
        Relvar::View { tree, kind } => match stored_rows(tree, kind, at, scope) {
            Some(rows) => {
                let relation = rows.copy(alloc)?;
                Ok(relation)
            }
            None => {
                let before = earlier(scope, at);
                answer(alloc, tree, Surrounding::Plainly, &before, steps)
            }
        },
        Relvar::Log { of: _, log } => Ok(log.relation(alloc)?),
    }
}

// The operator between two operands, left to right.
#[cycle(answer)]
fn infix<L: Ledger>(
    alloc: Global,
    tree: &RelTree,
    word: InfixWord,
    l: &RelTree,
    r: &RelTree,
    around: Surrounding<'_>,
    scope: &Scope<'_>,
    steps: &mut Steps<L>,
) -> Result<Relation, Stop>
    requires can { CanEvaluate scope.now (infix_of tree.now.place tree.now.heading word (read_tree l.now) (read_tree r.now)) }
    requires stands { MayStand around (infix_of tree.now.place tree.now.heading word (read_tree l.now) (read_tree r.now)) }
    ensures value { Answers result (under tree.now.heading (meaning (known_at scope.now) (around_of around.entry tree.now.heading)
        (infix_of tree.now.place tree.now.heading word (read_tree l.now) (read_tree r.now)))) }
    ensures cost { steps.new ≤ steps.old + tree_cost (prices_at scope.now) (around_of around.entry tree.now.heading)
        (infix_of tree.now.place tree.now.heading word (read_tree l.now) (read_tree r.now)) }
{
    let left = operand(alloc, l, scope, steps)?;
    let right = operand(alloc, r, scope, steps)?;
    surrounded::infix(
        alloc,
        around,
        tree,
        word,
        left.relation(),
        right.relation(),
        steps,
    )
}

// The parts of the operand's rows.
#[cycle(answer)]
fn project<L: Ledger>(
    alloc: Global,
    tree: &RelTree,
    kept: &Positions,
    t: &RelTree,
    around: Surrounding<'_>,
    scope: &Scope<'_>,
    steps: &mut Steps<L>,
) -> Result<Relation, Stop>
    requires can { CanEvaluate scope.now (project_tree tree.now.place tree.now.heading kept.now (read_tree t.now)) }
    requires stands { MayStand around (project_tree tree.now.place tree.now.heading kept.now (read_tree t.now)) }
    ensures value { Answers result (under tree.now.heading (meaning (known_at scope.now) (around_of around.entry tree.now.heading)
        (project_tree tree.now.place tree.now.heading kept.now (read_tree t.now)))) }
    ensures cost { steps.new ≤ steps.old + tree_cost (prices_at scope.now) (around_of around.entry tree.now.heading)
        (project_tree tree.now.place tree.now.heading kept.now (read_tree t.now)) }
{
    let part = operand(alloc, t, scope, steps)?;
    surrounded::projection(alloc, around, &tree.heading, kept, part.relation(), steps)
}

// The operand with new names.
#[cycle(answer)]
fn rename<L: Ledger>(
    alloc: Global,
    tree: &RelTree,
    names: &Names,
    t: &RelTree,
    scope: &Scope<'_>,
    steps: &mut Steps<L>,
) -> Result<Relation, Stop>
    requires { CanEvaluate scope.now (rename_tree tree.now.place tree.now.heading names.now (read_tree t.now)) }
    ensures value { Answers result (under tree.now.heading (meaning (known_at scope.now) plainly
        (rename_tree tree.now.place tree.now.heading names.now (read_tree t.now)))) }
    ensures cost { steps.new ≤ steps.old + tree_cost (prices_at scope.now) plainly
        (rename_tree tree.now.place tree.now.heading names.now (read_tree t.now)) }
{
    let part = operand(alloc, t, scope, steps)?;
    operators::renamed(alloc, part.relation(), names)
}

// The operand's rows for which the condition holds.
#[cycle(answer)]
fn restrict<L: Ledger>(
    alloc: Global,
    tree: &RelTree,
    c: &Scalar,
    t: &RelTree,
    around: Surrounding<'_>,
    scope: &Scope<'_>,
    steps: &mut Steps<L>,
) -> Result<Relation, Stop>
    requires can { CanEvaluate scope.now (restrict_tree tree.now.place tree.now.heading (read c.now) (read_tree t.now)) }
    requires stands { MayStand around (restrict_tree tree.now.place tree.now.heading (read c.now) (read_tree t.now)) }
    ensures value { Answers result (under tree.now.heading (meaning (known_at scope.now) (around_of around.entry tree.now.heading)
        (restrict_tree tree.now.place tree.now.heading (read c.now) (read_tree t.now)))) }
    ensures cost { steps.new ≤ steps.old + tree_cost (prices_at scope.now) (around_of around.entry tree.now.heading)
        (restrict_tree tree.now.place tree.now.heading (read c.now) (read_tree t.now)) }
{
    let part = operand(alloc, t, scope, steps)?;
    surrounded::restriction(alloc, around, &tree.heading, c, part.relation(), steps)
}

// The operand's rows with the values of the items.
#[cycle(answer)]
fn extend<L: Ledger>(
    alloc: Global,
    tree: &RelTree,
    sets: &Sets,
    t: &RelTree,
    around: Surrounding<'_>,
    scope: &Scope<'_>,
    steps: &mut Steps<L>,
) -> Result<Relation, Stop>
    requires can { CanEvaluate scope.now (extend_tree tree.now.place tree.now.heading (read_sets sets.now) (read_tree t.now)) }
    requires stands { MayStand around (extend_tree tree.now.place tree.now.heading (read_sets sets.now) (read_tree t.now)) }
    ensures value { Answers result (under tree.now.heading (meaning (known_at scope.now) (around_of around.entry tree.now.heading)
        (extend_tree tree.now.place tree.now.heading (read_sets sets.now) (read_tree t.now)))) }
    ensures cost { steps.new ≤ steps.old + tree_cost (prices_at scope.now) (around_of around.entry tree.now.heading)
        (extend_tree tree.now.place tree.now.heading (read_sets sets.now) (read_tree t.now)) }
{
    let part = operand(alloc, t, scope, steps)?;
    surrounded::extension(alloc, around, &tree.heading, sets, part.relation(), steps)
}

// A row for each group of the operand's rows.
#[cycle(answer)]
fn summarize<L: Ledger>(
    alloc: Global,
    tree: &RelTree,
    by: &Positions,
    aggregates: &Aggregates,
    t: &RelTree,
    around: Surrounding<'_>,
    scope: &Scope<'_>,
    steps: &mut Steps<L>,
) -> Result<Relation, Stop>
    requires can { CanEvaluate scope.now (summarize_tree tree.now.place tree.now.heading by.now (map read_aggregate aggregates.now) (read_tree t.now)) }
    requires stands { MayStand around (summarize_tree tree.now.place tree.now.heading by.now (map read_aggregate aggregates.now) (read_tree t.now)) }
    ensures value { Answers result (under tree.now.heading (meaning (known_at scope.now) (around_of around.entry tree.now.heading)
        (summarize_tree tree.now.place tree.now.heading by.now (map read_aggregate aggregates.now) (read_tree t.now)))) }
    ensures cost { steps.new ≤ steps.old + tree_cost (prices_at scope.now) (around_of around.entry tree.now.heading)
        (summarize_tree tree.now.place tree.now.heading by.now (map read_aggregate aggregates.now) (read_tree t.now)) }
{
    let part = operand(alloc, t, scope, steps)?;
    surrounded::grouping(
        alloc,
        around,
        &tree.heading,
        by,
        aggregates,
        part.relation(),
        steps,
    )
}

// The operand packed.
#[cycle(answer)]
fn pack<L: Ledger>(
    alloc: Global,
    tree: &RelTree,
    commalist: &Positions,
    t: &RelTree,
    scope: &Scope<'_>,
    steps: &mut Steps<L>,
) -> Result<Relation, Stop>
    requires { CanEvaluate scope.now (pack_tree tree.now.place tree.now.heading commalist.now (read_tree t.now)) }
    ensures value { Answers result (under tree.now.heading (meaning (known_at scope.now) plainly
        (pack_tree tree.now.place tree.now.heading commalist.now (read_tree t.now)))) }
    ensures cost { steps.new ≤ steps.old + tree_cost (prices_at scope.now) plainly
        (pack_tree tree.now.place tree.now.heading commalist.now (read_tree t.now)) }
{
    let part = operand(alloc, t, scope, steps)?;
    packed(
        alloc,
        tree.place,
        commalist.list.as_slice(),
        part.relation(),
        steps,
    )
}

// The operand unpacked.
#[cycle(answer)]
fn unpack<L: Ledger>(
    alloc: Global,
    tree: &RelTree,
    commalist: &Positions,
    t: &RelTree,
    scope: &Scope<'_>,
    steps: &mut Steps<L>,
) -> Result<Relation, Stop>
    requires { CanEvaluate scope.now (unpack_tree tree.now.place tree.now.heading commalist.now (read_tree t.now)) }
    ensures value { Answers result (under tree.now.heading (meaning (known_at scope.now) plainly
        (unpack_tree tree.now.place tree.now.heading commalist.now (read_tree t.now)))) }
    ensures cost { steps.new ≤ steps.old + tree_cost (prices_at scope.now) plainly
        (unpack_tree tree.now.place tree.now.heading commalist.now (read_tree t.now)) }
{
    let part = operand(alloc, t, scope, steps)?;
    unpacked(
        alloc,
        tree.place,
        commalist.list.as_slice(),
        part.relation(),
        steps,
    )
}

// The part under its USING.
#[cycle(answer)]
fn using<L: Ledger>(
    alloc: Global,
    tree: &RelTree,
    commalist: &Positions,
    t: &RelTree,
    scope: &Scope<'_>,
    steps: &mut Steps<L>,
) -> Result<Relation, Stop>
    requires { CanEvaluate scope.now (using_tree tree.now.place tree.now.heading commalist.now (read_tree t.now)) }
    ensures value { Answers result (under tree.now.heading (meaning (known_at scope.now) plainly
        (using_tree tree.now.place tree.now.heading commalist.now (read_tree t.now)))) }
    ensures cost { steps.new ≤ steps.old + tree_cost (prices_at scope.now) plainly
        (using_tree tree.now.place tree.now.heading commalist.now (read_tree t.now)) }
{
    let around = Surrounding::Using(tree.place, commalist.list.as_slice());
    answer(alloc, t, around, scope, steps)
}

// The scope of the entries before a place.
fn earlier<'a>(scope: &Scope<'a>, at: usize) -> Scope<'a>
    ensures { result ≡ up_to scope.now at }
{
    Scope {
        relvars: scope.relvars,
        stored: scope.stored,
        with: scope.with,
        value: scope.value,
        before: at,
    }
}

// The value that an expression names, where it names a base relvar, or a view of which rows are stored.
fn kept<'a>(tree: &RelTree, scope: &Scope<'a>) -> Option<&'a Relation>
    requires { CanEvaluate scope.now (read_tree tree.now) }
    ensures { IfSome result (λ v. under tree.now.heading (meaning (known_at scope.now) plainly (read_tree tree.now)) ≡ Ok v.now) }
{
    let RelForm::Named(name) = &tree.form else {
        return None;
    };
    match scope.relvars.list.get_full(name) {
        Some((at, _, relvar)) => kept_at(name, at, relvar, scope),
        None => None,
    }
}

// The value of a base relvar, or the one that stands for it; the rows that are stored of a view; none of a log.
fn kept_at<'a>(
    name: &Name,
    at: usize,
    relvar: &'a Relvar,
    scope: &Scope<'a>,
) -> Option<&'a Relation>
    ensures { IfSome result (λ v. IsKept scope.now name.now at (read_relvar relvar.now) v.now) }
{
    match relvar {
        Relvar::Base {
            value,
            constraints: _,
        } => {
            let relation = newest(name, value, scope);
            prove!(relation.rows().len() <= MOST_ROWS);
            Some(relation)
        }
        Relvar::View { tree, kind } => {
            let relation = stored_rows(tree, kind, at, scope)?;
            prove!(relation.rows().len() <= MOST_ROWS);
            Some(relation)
        }
        Relvar::Log { of: _, log: _ } => None,
    }
}

// The value of a base relvar, or the one that stands for it.
fn newest<'a>(name: &Name, value: &'a Relation, scope: &Scope<'a>) -> &'a Relation
    ensures { result.now ≡ current (with_of scope.now) (value_of scope.now) name.now value.now }
{
    match (scope.with, scope.value) {
        (Some(with), Some(given)) => if *name == *with { given } else { value },
        _ => value,
    }
}

// A copy of that value.
fn base_value(
    alloc: Global,
    name: &Name,
    value: &Relation,
    scope: &Scope<'_>,
) -> Result<Relation, Stop>
    ensures { Answers result (Ok (current (with_of scope.now) (value_of scope.now) name.now value.now)) }
{
    let relation = newest(name, value, scope).copy(alloc)?;
    Ok(relation)
}

// The relation of a name; a fault takes the name's place.
fn or_fault_at_name(place: Place, answer: Result<Relation, Stop>) -> Result<Relation, Stop>
    ensures { (heading : PlainHeading) (m : RowsMeant) → Answers answer (under heading m)
        → Answers result (under heading (then_give (at_name place m) (limited place))) }
{
    match answer {
        Ok(relation) => {
            prove!(relation.rows().len() <= MOST_ROWS);
            Ok(relation)
        }
        Err(Stop::Fault(fault)) => {
            let code = fault.code;
            Err(Stop::Fault(Fault { place, code }))
        }
        Err(Stop::Memory) => Err(Stop::Memory),
    }
}

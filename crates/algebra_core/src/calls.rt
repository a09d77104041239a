// The calls of this crate.
ghost use Rattle.std.specs.Prelude.{◌≡◌, ◌≤◌, ◌+◌, Ok, length, not, option_map};
ghost use Rattle.base_core.specs.Outcomes.{then_give};
ghost use Rattle.relation_core.specs.Answers.{Answers, under};
ghost use Rattle.value_core.specs.Values.{same_rows};
ghost use Rattle.tree_core.specs.Relvars.{read_relvars};
ghost use Rattle.tree_core.specs.Trees.{read_tree, read_test, heading_of, relate};
ghost use Rattle.meaning_core.specs.Meanings.{meaning, meaning_in, plainly};
ghost use Rattle.meaning_core.specs.Names.{given};
ghost use Rattle.meaning_core.specs.StoredRows.{AreStored};
ghost use Rattle.algebra_core.specs.Costs.{comparison_cost, cost_of_test, cost_with, test_cost, tree_cost};
ghost use Rattle.algebra_core.specs.Scopes.{CanEvaluate, known_at, prices_at};
ghost use Rattle.meaning_core.specs.Truths.{compared_rows, no_rows, related_rows, truth_in, truth_of, within};
ghost use Rattle.meaning_core.specs.Typing.{IsListIf};
ghost use Rattle.meaning_core.specs.WellMade.{IsWellMade, IsTypedFor, IsTypedTestFor, IsGiven};

use crate::evaluation::{answer, operand};
use crate::scope::Scope;
use crate::surrounding::Surrounding;
use eval_using::compared;
use point_core::{Steps, Stop};
use std::alloc::Global;
use std::sync::ledger::Ledger;
use tree_core::{RelTest, RelTree, RelateWord, Relvars, TestForm};
use value_core::{Name, Positions, Relation};

/// The relation of an expression where these are the relvars and views, or its first fault. Where a base relvar and a value are
/// given, this value stands for the relvar's, in views too. A stored view's rows are read from the place of its entry, unless it names that
/// relvar.
pub fn eval<L: Ledger>(
    alloc: Global,
    tree: &RelTree,
    relvars: &Relvars,
    stored: &[Option<Relation>],
    with: Option<&Name>,
    value: Option<&Relation>,
    steps: &mut Steps<L>,
) -> Result<Relation, Stop>
    requires well_made { IsWellMade (read_relvars relvars.now) }
    requires typed { IsTypedFor (read_relvars relvars.now) (read_tree tree.now) }
    requires given { IsGiven (read_relvars relvars.now).relvars (option_map (λ n. n.now) with) (option_map (λ v. v.now) value) }
    requires stored { AreStored (read_relvars relvars.now).relvars stored.now }
    ensures value { Answers result (under tree.now.heading
        (meaning_in (given (option_map (λ n. n.now) with.entry) (option_map (λ v. v.now) value.entry) (read_relvars relvars.now).relvars) (read_tree tree.now))) }
    ensures cost { steps.new ≤ steps.old + cost_with (option_map (λ n. n.now) with.entry)
        (given (option_map (λ n. n.now) with.entry) (option_map (λ v. v.now) value.entry) (read_relvars relvars.now).relvars) (read_tree tree.now) }
{
    let scope = Scope {
        relvars,
        stored,
        with,
        value,
        before: relvars.list.len(),
    };
    answer(alloc, tree, Surrounding::Plainly, &scope, steps)
}

/// Whether a test holds where these are the relvars and views, or its first fault. A stored view's rows are read from the place of its entry.
pub fn test<'a, L: Ledger>(
    alloc: Global,
    test: &RelTest,
    relvars: &'a Relvars,
    stored: &'a [Option<Relation>],
    steps: &mut Steps<L>,
) -> Result<bool, Stop>
    requires well_made { IsWellMade (read_relvars relvars.now) }
    requires typed { IsTypedTestFor (read_relvars relvars.now) (read_test test.now) }
    requires stored { AreStored (read_relvars relvars.now).relvars stored.now }
    ensures value { Answers result (truth_in (read_relvars relvars.now).relvars (read_test test.now)) }
    ensures cost { steps.new ≤ steps.old + test_cost (read_relvars relvars.now).relvars (read_test test.now) }
{
    let scope = Scope {
        relvars,
        stored,
        with: None,
        value: None,
        before: relvars.list.len(),
    };
    match &test.form {
        TestForm::Relate(word, commalist, l, r) => related(
            alloc, *word, commalist, l, r, &scope, steps,
        ),
        TestForm::IsEmpty(t) => is_empty(alloc, t, &scope, steps),
        TestForm::IsNotEmpty(t) => is_not_empty(alloc, t, &scope, steps),
    }
}

// Whether the relations of two expressions stand as the word says, unpacked where a list is given.
fn related<L: Ledger>(
    alloc: Global,
    word: RelateWord,
    commalist: &Option<Positions>,
    l: &RelTree,
    r: &RelTree,
    scope: &Scope<'_>,
    steps: &mut Steps<L>,
) -> Result<bool, Stop>
    requires left { CanEvaluate scope.now (read_tree l.now) }
    requires right { CanEvaluate scope.now (read_tree r.now) }
    requires alike { heading_of (read_tree l.now) ≡ heading_of (read_tree r.now) }
    requires list { IsListIf (heading_of (read_tree l.now)) commalist.now }
    ensures value { (place : _) → Answers result (truth_of (known_at scope.now) (relate place word commalist.now (read_tree l.now) (read_tree r.now))) }
    ensures cost { (place : _) → steps.new ≤ steps.old + cost_of_test (prices_at scope.now) (relate place word commalist.now (read_tree l.now) (read_tree r.now)) }
{
    let left = operand(alloc, l, scope, steps)?;
    let right = operand(alloc, r, scope, steps)?;
    compared_on(
        alloc,
        word,
        commalist,
        left.relation(),
        right.relation(),
        steps,
    )
}

// Whether two relations stand as the word says, unpacked where a list is given.
fn compared_on<L: Ledger>(
    alloc: Global,
    word: RelateWord,
    commalist: &Option<Positions>,
    left: &Relation,
    right: &Relation,
    steps: &mut Steps<L>,
) -> Result<bool, Stop>
    requires alike { left.now.heading ≡ right.now.heading }
    requires list { IsListIf left.now.heading commalist.now }
    ensures value { Answers result (Ok (related_rows word (compared_rows commalist.now left.now.rows) (compared_rows commalist.now right.now.rows))) }
    ensures cost { steps.new ≤ steps.old + comparison_cost commalist.now (length left.now.rows + length right.now.rows) }
{
    match commalist {
        None => Ok(compare(word, left, right)),
        Some(commalist) => {
            let answer = compared(alloc, word, commalist.list.as_slice(), left, right, steps)?;
            Ok(answer)
        }
    }
}

// Whether the relation of the expression has no rows.
fn is_empty<L: Ledger>(
    alloc: Global,
    t: &RelTree,
    scope: &Scope<'_>,
    steps: &mut Steps<L>,
) -> Result<bool, Stop>
    requires { CanEvaluate scope.now (read_tree t.now) }
    ensures value { Answers result (then_give (meaning (known_at scope.now) plainly (read_tree t.now)) (λ a. Ok (no_rows a))) }
    ensures cost { steps.new ≤ steps.old + tree_cost (prices_at scope.now) plainly (read_tree t.now) }
{
    let operand = operand(alloc, t, scope, steps)?;
    Ok(operand.relation().rows().is_empty())
}

// Whether the relation of the expression has rows.
fn is_not_empty<L: Ledger>(
    alloc: Global,
    t: &RelTree,
    scope: &Scope<'_>,
    steps: &mut Steps<L>,
) -> Result<bool, Stop>
    requires { CanEvaluate scope.now (read_tree t.now) }
    ensures value { Answers result (then_give (meaning (known_at scope.now) plainly (read_tree t.now)) (λ a. Ok (not (no_rows a)))) }
    ensures cost { steps.new ≤ steps.old + tree_cost (prices_at scope.now) plainly (read_tree t.now) }
{
    let operand = operand(alloc, t, scope, steps)?;
    Ok(!operand.relation().rows().is_empty())
}

// Whether two relations stand as the word says.
fn compare(word: RelateWord, left: &Relation, right: &Relation) -> bool
    ensures { result ≡ related_rows word left.now.rows right.now.rows }
{
    match word {
        RelateWord::Equal => same(left, right),
        RelateWord::NotEqual => !same(left, right),
        RelateWord::Less => within(left, right) && !same(left, right),
        RelateWord::LessEqual => within(left, right),
        RelateWord::Greater => within(right, left) && !same(left, right),
        RelateWord::GreaterEqual => within(right, left),
    }
}

// Whether two relations have the same rows.
fn same(left: &Relation, right: &Relation) -> bool
    ensures { result ≡ same_rows left.now.rows right.now.rows }
{
    within(left, right) && within(right, left)
}

// Whether each row of the one relation is one of the other's.
fn within(left: &Relation, right: &Relation) -> bool
    ensures { result ≡ within left.now.rows right.now.rows }
{
    left.rows().iter().all(|row| right.contains(row))
}

// How many nodes expressions have, those of the views that they name counted in, up to one more than there may be.
ghost use Rattle.std.specs.Prelude.{◌≡◌, ◌+◌, IfOk, nat_le};
ghost use Rattle.value_core.specs.Limits.{most_nodes};
ghost use Rattle.tree_core.specs.Relvars.{read_relvar, read_relvars};
ghost use Rattle.tree_core.specs.Trees.{read_test, read_tree};
ghost use Rattle.meaning_core.specs.Names.{found, each_in};
ghost use Rattle.declaration_typing.specs.Nodes as rules;
ghost use Rattle.declaration_typing.specs.Nodes.{capped};

use point_core::Memory;
use std::alloc::Global;
use tree_core::{RelForm, RelTest, RelTree, Relvar, Relvars, TestForm};
use value_core::{MOST_NODES, Name};

/// The number, or one more than there may be.
fn capped(nodes: usize) -> usize
    ensures { result ≡ capped nodes }
{
    nodes.min(MOST_NODES + 1)
}

/// The nodes of two operands and their operator.
fn sum(left: usize, right: usize) -> usize
    ensures { result ≡ capped (left + right + 1) }
{
    capped(left.saturating_add(right).saturating_add(1))
}

/// How many nodes the name counts for.
fn known_nodes(known: &[(Name, usize)], name: &Name) -> usize
    ensures { result ≡ found 1 known.now name.now }
{
    for entry in known {
        if entry.0 == *name {
            return entry.1;
        }
    }
    1
}

/// The nodes of an expression.
fn count(known: &[(Name, usize)], tree: &RelTree) -> usize
    ensures { result ≡ capped (rules.count known.now (read_tree tree.now)) }
{
    match &tree.form {
        RelForm::Named(name) => capped(known_nodes(known, name)),
        RelForm::Literal(_) => 1,
        RelForm::Infix(_, left, right) => sum(count(known, left), count(known, right)),
        RelForm::Project(_, part) => sum(0, count(known, part)),
        RelForm::Rename(_, part) => sum(0, count(known, part)),
        RelForm::Restrict(_, part) => sum(0, count(known, part)),
        RelForm::Extend(_, part) => sum(0, count(known, part)),
        RelForm::Summarize(_, _, part) => sum(0, count(known, part)),
        RelForm::Pack(_, part) => sum(0, count(known, part)),
        RelForm::Unpack(_, part) => sum(0, count(known, part)),
        RelForm::Using(_, part) => sum(0, count(known, part)),
    }
}

/// The nodes that the name of a relvar or view counts for.
fn relvar_nodes(known: &[(Name, usize)], relvar: &Relvar) -> usize
    ensures { result ≡ rules.capped_count known.now (read_relvar relvar.now) }
{
    match relvar {
        Relvar::Base {
            value: _,
            constraints: _,
        } => 1,
        Relvar::View { tree, kind: _ } => count(known, tree),
        Relvar::Log { of: _, log: _ } => 1,
    }
}

/// For each relvar and view how many nodes its name counts for.
fn counts(alloc: Global, relvars: &Relvars) -> Result<Vec<(Name, usize)>, Memory>
    ensures { IfOk result (λ v. v.items ≡ each_in rules.capped_count (read_relvars relvars.now).relvars) }
{
    let mut known = Vec::new(alloc);
    for (name, relvar) in &relvars.list {
        let nodes = relvar_nodes(known.as_slice(), relvar);
        known.push((name.copy(alloc)?, nodes))?;
    }
    Ok(known)
}

/// Whether an expression has no more nodes than a view may have.
pub(crate) fn are_few(alloc: Global, tree: &RelTree, relvars: &Relvars) -> Result<bool, Memory>
    ensures { IfOk result (λ few. few ≡ nat_le (rules.nodes_of (read_relvars relvars.now).relvars (read_tree tree.now)) most_nodes) }
{
    let known = counts(alloc, relvars)?;
    Ok(count(known.as_slice(), tree) <= MOST_NODES)
}

/// The nodes of two expressions.
fn both(left: usize, right: usize) -> usize
    ensures { result ≡ capped (left + right) }
{
    capped(left.saturating_add(right))
}

/// The nodes of the expressions of a test.
fn test_count(known: &[(Name, usize)], test: &RelTest) -> usize
    ensures { result ≡ capped (rules.test_count known.now (read_test test.now)) }
{
    match &test.form {
        TestForm::Relate(_, _, left, right) => both(count(known, left), count(known, right)),
        TestForm::IsEmpty(tree) => count(known, tree),
        TestForm::IsNotEmpty(tree) => count(known, tree),
    }
}

/// Whether the expressions of a test have no more nodes together than a view may have.
pub(crate) fn test_is_few(alloc: Global, test: &RelTest, relvars: &Relvars) -> Result<bool, Memory>
    ensures { IfOk result (λ few. few ≡ nat_le (rules.test_nodes (read_relvars relvars.now).relvars (read_test test.now)) most_nodes) }
{
    let known = counts(alloc, relvars)?;
    Ok(test_count(known.as_slice(), test) <= MOST_NODES)
}

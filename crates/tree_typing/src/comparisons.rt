// Tests: comparisons of two relations, and whether one has rows.
ghost use Rattle.std.specs.Prelude.{◌≡◌, Err};
ghost use Rattle.utd_syntax.specs.Read.{read_comparison, read_list, read_test};
ghost use Rattle.scalar_core.specs.Answers.{Gives};
ghost use Rattle.scalar_typing.specs.Names.{AreOrdinals};
ghost use Rattle.tree_core.specs.Relvars.{read_relvars};
ghost use Rattle.tree_core.specs.Trees.{read_test as read_typed};
ghost use Rattle.tree_typing.specs.Scopes.{read_scope};
ghost use Rattle.tree_typing.specs.Trees as rules;

use crate::scopes::{Scope, opened};
use crate::trees::{operand, whole};
use node_typing as nodes;
use point_core::Stop;
use std::alloc::Global;
use tree_core::{RelTest, RelTree, Relvars};
use utd_syntax::{NameList, Relate, Test};

/// The refusal of the right operand, for which the left one is dropped.
fn refused(left: RelTree, stop: Stop) -> Result<RelTest, Stop>
    ensures { result ≡ Err stop }
{
    drop(left);
    Err(stop)
}

/// A comparison of two relations.
fn comparison(alloc: Global, c: &Relate, scope: Scope<'_>) -> Result<RelTest, Stop>
    requires { AreOrdinals (read_relvars scope.relvars.now).ordinals }
    ensures { Gives read_typed result (rules.comparison_typed (read_scope scope.entry) (read_comparison c.now)) }
{
    let left = operand(alloc, &c.left, scope)?;
    let word = nodes::relation_named(c.word);
    match operand(alloc, &c.right, scope) {
        Ok(right) => nodes::type_comparison(c.place, word, left, right),
        Err(stop) => refused(left, stop),
    }
}

/// A comparison of two relations under USING.
fn used_comparison(
    alloc: Global,
    list: &NameList,
    c: &Relate,
    scope: Scope<'_>,
) -> Result<RelTest, Stop>
    requires { AreOrdinals (read_relvars scope.relvars.now).ordinals }
    ensures { Gives read_typed result (rules.used_comparison_typed (read_scope scope.entry) (read_list list.now) (read_comparison c.now)) }
{
    let left = operand(alloc, &c.left, scope)?;
    let word = nodes::relation_named(c.word);
    match operand(alloc, &c.right, scope) {
        Ok(right) => nodes::type_using_comparison(alloc, list, c.place, word, left, right),
        Err(stop) => refused(left, stop),
    }
}

/// The typed tree of a test in a scope, or its first refusal.
#[tactic(auto, unfolding(crate::specs::Trees::test_typed_in))]
pub fn type_test_in(alloc: Global, test: &Test, scope: Scope<'_>) -> Result<RelTest, Stop>
    requires { AreOrdinals (read_relvars scope.relvars.now).ordinals }
    ensures typing { Gives read_typed result (rules.test_typed_in (read_scope scope.entry) (read_test test.now)) }
{
    match test {
        Test::Using(_, list, c) => used_comparison(alloc, list, c, scope),
        Test::Relate(c) => comparison(alloc, c, scope),
        Test::Emptiness(place, word, rel) => {
            let t = whole(alloc, rel, scope)?;
            Ok(nodes::emptiness_test(*place, *word, t))
        }
    }
}

/// The typed tree of a test where these are the relvars, views and ordinal types, or its first refusal.
#[tactic(auto, unfolding(crate::specs::Trees::test_typed))]
pub fn type_test(alloc: Global, test: &Test, relvars: &Relvars) -> Result<RelTest, Stop>
    requires { AreOrdinals (read_relvars relvars.now).ordinals }
    ensures typing { Gives read_typed result (rules.test_typed (read_relvars relvars.now) (read_test test.now)) }
{
    type_test_in(alloc, test, opened(relvars))
}

// Database constraints.
ghost use Rattle.utd_syntax.specs.Read.{read_name, read_test};
ghost use Rattle.scalar_core.specs.Answers.{Gives};
ghost use Rattle.scalar_typing.specs.Names.{AreOrdinals};
ghost use Rattle.tree_core.specs.Relvars.{read_relvars, read_rule};
ghost use Rattle.tree_core.specs.Trees as trees;
ghost use Rattle.tree_typing.specs.Trees.{test_typed_in};
ghost use Rattle.declaration_typing.specs.Rules as rules;

use crate::logs::over_logs;
use crate::names::{is_rule, new_name};
use crate::nodes::test_is_few;
use node_typing::check;
use point_core::{Code, Place, Stop};
use relation_typing::name_typed;
use std::alloc::Global;
use tree_core::{RelTest, Relvars};
use tree_typing::{Scope, type_test_in};
use utd_syntax::{Test, Word};
use value_core::{MOST_RULES, Name};

/// The refusal of a database constraint with this test where it has too many nodes, or there are as many as there may be.
fn room_for_rule(alloc: Global, relvars: &Relvars, place: Place, test: &RelTest) -> Result<(), Stop>
    ensures { Gives (λ _. tt) result (rules.room_for_rule (read_relvars relvars.now) place (trees.read_test test.now)) }
{
    let few = test_is_few(alloc, test, relvars)?;
    check(place, Code::E22, few)?;
    check(place, Code::E22, relvars.rules.len() < MOST_RULES)
}

/// The typed test of a database constraint, which names no log, itself or through views.
fn rule_test(alloc: Global, test: &Test, relvars: &Relvars) -> Result<RelTest, Stop>
    requires { AreOrdinals (read_relvars relvars.now).ordinals }
    ensures { Gives trees.read_test result (test_typed_in (rules.rule_scope (read_relvars relvars.now)) (read_test test.now)) }
{
    let logs = over_logs(alloc, relvars)?;
    let scope = Scope {
        relvars,
        closed: logs.as_slice(),
    };
    type_test_in(alloc, test, scope)
}

/// The database constraint that CONSTRAINT declares where these are the relvars, views and ordinal types, or the first refusal.
#[tactic(auto, unfolding(crate::specs::Rules::rule_declared))]
pub fn type_rule(
    alloc: Global,
    word: &Word,
    test: &Test,
    relvars: &Relvars,
) -> Result<(Name, RelTest), Stop>
    requires { AreOrdinals (read_relvars relvars.now).ordinals }
    ensures { Gives read_rule result (rules.rule_declared (read_relvars relvars.now) (read_name word.now) (read_test test.now)) }
{
    let name = new_name(alloc, word, relvars)?;
    let typed = rule_test(alloc, test, relvars)?;
    match room_for_rule(alloc, relvars, word.place, &typed) {
        Ok(()) => Ok((name, typed)),
        Err(stop) => {
            drop(typed);
            Err(stop)
        }
    }
}

/// The name of the database constraint that DROP CONSTRAINT drops, or the first refusal.
#[tactic(auto, unfolding(crate::specs::Rules::rule_dropped))]
pub fn type_rule_drop(alloc: Global, word: &Word, relvars: &Relvars) -> Result<Name, Stop>
    ensures { Gives (λ n. n) result (rules.rule_dropped (read_relvars relvars.now) (read_name word.now)) }
{
    let name = name_typed(alloc, word)?;
    check(word.place, Code::E10, is_rule(relvars, &name))?;
    Ok(name)
}

// Kept views, as the expressions that they stand for.
ghost use Rattle.utd_syntax.specs.Read.{read_kept, read_list, read_name};
ghost use Rattle.scalar_core.specs.Answers.{Gives};
ghost use Rattle.tree_core.specs.Relvars.{read_relvars};
ghost use Rattle.tree_core.specs.Trees.{read_tree};
ghost use Rattle.tree_typing.specs.Kept.{infix_of_names, kept_rel};
ghost use Rattle.tree_typing.specs.Scopes.{read_scope};
ghost use Rattle.tree_typing.specs.Trees as rules;

use crate::relvars::type_relvar;
use crate::scopes::{Scope, opened};
use crate::trees::refused;
use node_typing as nodes;
use node_typing::UsingList;
use point_core::Stop;
use std::alloc::Global;
use tree_core::{InfixWord, RelTree, Relvars};
use utd_syntax::{Kept, PackWord, Word};

/// The typed tree of the expression that a kept view stands for, where these are the relvars, views and ordinal types, or its first refusal.
#[tactic(auto, unfolding(crate::specs::Trees::tree_typed))]
pub fn type_kept(alloc: Global, kept: &Kept, relvars: &Relvars) -> Result<RelTree, Stop>
    ensures typing { Gives read_tree result (rules.tree_typed (read_relvars relvars.now) (kept_rel (read_kept kept.now))) }
{
    in_scope(alloc, kept, opened(relvars))
}

// The same in a scope.
fn in_scope(alloc: Global, kept: &Kept, scope: Scope<'_>) -> Result<RelTree, Stop>
    ensures { Gives read_tree result (rules.rel_typed (read_scope scope.entry) (kept_rel (read_kept kept.now))) }
{
    match kept {
        Kept::Infix(place, list, l, at, word, r) => {
            let under = UsingList {
                place: *place,
                list,
                at: *at,
            };
            infix(alloc, under, nodes::infix_named(*word), (l, r), scope)
        }
        Kept::NotMatching(place, list, l, at, r) => {
            let under = UsingList {
                place: *place,
                list,
                at: *at,
            };
            infix(alloc, under, InfixWord::NotMatching, (l, r), scope)
        }
        Kept::Project(place, list, of, projection) => {
            let t = type_relvar(alloc, of, scope)?;
            nodes::type_using_projection(alloc, *place, list, projection, t)
        }
        Kept::Pack(place, of, list) => {
            let t = type_relvar(alloc, of, scope)?;
            nodes::type_packing(alloc, *place, PackWord::Pack, list, t)
        }
    }
}

// An operator between two names under USING.
fn infix(
    alloc: Global,
    under: UsingList<'_>,
    word: InfixWord,
    names: (&Word, &Word),
    scope: Scope<'_>,
) -> Result<RelTree, Stop>
    ensures { Gives read_tree result (infix_of_names (read_scope scope.entry) under.entry.place (read_list under.entry.list.now) under.entry.at word
        (read_name names.entry.0.now) (read_name names.entry.1.now)) }
{
    let left = type_relvar(alloc, names.0, scope)?;
    match type_relvar(alloc, names.1, scope) {
        Ok(right) => nodes::type_using_infix(alloc, under, word, left, right),
        Err(stop) => refused(left, stop),
    }
}

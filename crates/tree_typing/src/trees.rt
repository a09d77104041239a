// Relational expressions. The parts of a node are typed before it, left to right.
ghost use Rattle.std.specs.Prelude.{◌≡◌, Err};
ghost use Rattle.utd_syntax.specs.Read.{read_list, read_rel, read_terms, read_term, read_rel_primary, read_operand, read_extend, read_summarize, read_using, read_using_part};
ghost use Rattle.scalar_core.specs.Answers.{Gives};
ghost use Rattle.scalar_typing.specs.Names.{AreOrdinals};
ghost use Rattle.tree_core.specs.Relvars.{read_relvars};
ghost use Rattle.tree_core.specs.Trees.{read_tree};
ghost use Rattle.tree_typing.specs.Scopes.{read_scope};
ghost use Rattle.tree_typing.specs.Trees as rules;

use crate::relvars::type_relvar;
use crate::scopes::{Scope, opened};
use node_typing as nodes;
use node_typing::UsingList;
use point_core::{Place, Stop};
use relation_typing::type_literal;
use std::alloc::Global;
use tree_core::{InfixWord, RelTree, Relvars};
use utd_syntax::{
    Extend, NameList, Operand, Rel, RelPrimary, Summarize, Term, Terms, Using, UsingPart,
};

/// The typed tree of a relational expression where these are the relvars, views and ordinal types, or its first refusal.
#[tactic(auto, unfolding(crate::specs::Trees::tree_typed))]
pub fn type_tree(alloc: Global, rel: &Rel, relvars: &Relvars) -> Result<RelTree, Stop>
    requires { AreOrdinals (read_relvars relvars.now).ordinals }
    ensures typing { Gives read_tree result (rules.tree_typed (read_relvars relvars.now) (read_rel rel.now)) }
{
    whole(alloc, rel, opened(relvars))
}

/// The refusal of the right operand, for which the left one is dropped.
pub(crate) fn refused(left: RelTree, stop: Stop) -> Result<RelTree, Stop>
    ensures { result ≡ Err stop }
{
    drop(left);
    Err(stop)
}

/// `using | terms`.
#[cycle(tree)]
pub(crate) fn whole(alloc: Global, rel: &Rel, scope: Scope<'_>) -> Result<RelTree, Stop>
    requires { AreOrdinals (read_relvars scope.relvars.now).ordinals }
    ensures { Gives read_tree result (rules.rel_typed (read_scope scope.entry) (read_rel rel.now)) }
{
    match rel {
        Rel::Using(u) => using(alloc, u, scope),
        Rel::Terms(t) => terms(alloc, t, scope),
    }
}

/// `term | terms infix term`.
#[cycle(tree)]
fn terms(alloc: Global, t: &Terms, scope: Scope<'_>) -> Result<RelTree, Stop>
    requires { AreOrdinals (read_relvars scope.relvars.now).ordinals }
    ensures { Gives read_tree result (rules.terms_typed (read_scope scope.entry) (read_terms t.now)) }
{
    match t {
        Terms::One(t) => term(alloc, t, scope),
        Terms::Infix(l, place, word, r) => {
            let left = terms(alloc, l, scope)?;
            let word = nodes::infix_named(*word);
            match term(alloc, r, scope) {
                Ok(right) => nodes::type_infix(alloc, *place, word, left, right),
                Err(stop) => refused(left, stop),
            }
        }
        Terms::NotMatching(l, place, r) => {
            let left = terms(alloc, l, scope)?;
            match term(alloc, r, scope) {
                Ok(right) => nodes::type_infix(alloc, *place, InfixWord::NotMatching, left, right),
                Err(stop) => refused(left, stop),
            }
        }
    }
}

/// `rel_primary | term projection | term "WHERE" scalar | term "RENAME" renamings`.
#[cycle(tree)]
fn term(alloc: Global, t: &Term, scope: Scope<'_>) -> Result<RelTree, Stop>
    requires { AreOrdinals (read_relvars scope.relvars.now).ordinals }
    ensures { Gives read_tree result (rules.term_typed (read_scope scope.entry) (read_term t.now)) }
{
    match t {
        Term::One(p) => primary(alloc, p, scope),
        Term::Project(of, projection) => {
            let part = term(alloc, of, scope)?;
            nodes::type_projection(alloc, projection, part)
        }
        Term::Where(of, place, condition) => {
            let part = term(alloc, of, scope)?;
            nodes::type_restriction(alloc, &scope.relvars.ordinals, *place, condition, part)
        }
        Term::Rename(of, place, renamings) => {
            let part = term(alloc, of, scope)?;
            nodes::type_renaming(alloc, *place, renamings, part)
        }
    }
}

/// `extend | summarize | operand`.
#[cycle(tree)]
fn primary(alloc: Global, p: &RelPrimary, scope: Scope<'_>) -> Result<RelTree, Stop>
    requires { AreOrdinals (read_relvars scope.relvars.now).ordinals }
    ensures { Gives read_tree result (rules.primary_typed (read_scope scope.entry) (read_rel_primary p.now)) }
{
    match p {
        RelPrimary::Extend(Extend::Of(place, of, sets)) => {
            let part = whole(alloc, of, scope)?;
            nodes::type_extension(alloc, &scope.relvars.ordinals, *place, sets, part)
        }
        RelPrimary::Summarize(Summarize::Of(place, of, by, aggregates)) => {
            let part = whole(alloc, of, scope)?;
            nodes::type_summary(alloc, &scope.relvars.ordinals, *place, by, aggregates, part)
        }
        RelPrimary::Operand(o) => operand(alloc, o, scope),
    }
}

/// `name | literal | "(" rel ")" | ( "PACK" | "UNPACK" ) rel "ON" list`.
#[cycle(tree)]
pub(crate) fn operand(alloc: Global, o: &Operand, scope: Scope<'_>) -> Result<RelTree, Stop>
    requires { AreOrdinals (read_relvars scope.relvars.now).ordinals }
    ensures { Gives read_tree result (rules.operand_typed (read_scope scope.entry) (read_operand o.now)) }
{
    match o {
        Operand::Relvar(word) => type_relvar(alloc, word, scope),
        Operand::Literal(literal) => type_literal(alloc, &scope.relvars.ordinals, literal),
        Operand::Paren(_, rel) => whole(alloc, rel, scope),
        Operand::Pack(place, word, rel, list) => {
            let part = whole(alloc, rel, scope)?;
            nodes::type_packing(alloc, *place, *word, list, part)
        }
    }
}

/// `"USING" list ":" using_part`.
#[cycle(tree)]
fn using(alloc: Global, u: &Using, scope: Scope<'_>) -> Result<RelTree, Stop>
    requires { AreOrdinals (read_relvars scope.relvars.now).ordinals }
    ensures { Gives read_tree result (rules.using_typed (read_scope scope.entry) (read_using u.now)) }
{
    match u {
        Using::Of(place, list, part) => used(alloc, *place, list, part, scope),
    }
}

/// An operator under USING.
#[cycle(tree)]
fn used(
    alloc: Global,
    place: Place,
    list: &NameList,
    part: &UsingPart,
    scope: Scope<'_>,
) -> Result<RelTree, Stop>
    requires { AreOrdinals (read_relvars scope.relvars.now).ordinals }
    ensures { Gives read_tree result (rules.used_typed (read_scope scope.entry) place (read_list list.now) (read_using_part part.now)) }
{
    match part {
        UsingPart::Extend(e) => used_extension(alloc, place, list, e, scope),
        UsingPart::Summarize(s) => used_summary(alloc, place, list, s, scope),
        UsingPart::Infix(l, at, word, r) => {
            let left = operand(alloc, l, scope)?;
            let word = nodes::infix_named(*word);
            let using = UsingList {
                place,
                list,
                at: *at,
            };
            match operand(alloc, r, scope) {
                Ok(right) => nodes::type_using_infix(alloc, using, word, left, right),
                Err(stop) => refused(left, stop),
            }
        }
        UsingPart::NotMatching(l, at, r) => {
            let left = operand(alloc, l, scope)?;
            let word = InfixWord::NotMatching;
            let using = UsingList {
                place,
                list,
                at: *at,
            };
            match operand(alloc, r, scope) {
                Ok(right) => nodes::type_using_infix(alloc, using, word, left, right),
                Err(stop) => refused(left, stop),
            }
        }
        UsingPart::Project(of, projection) => {
            let t = operand(alloc, of, scope)?;
            nodes::type_using_projection(alloc, place, list, projection, t)
        }
        UsingPart::Where(of, at, condition) => {
            let t = operand(alloc, of, scope)?;
            let using = UsingList {
                place,
                list,
                at: *at,
            };
            nodes::type_using_restriction(alloc, &scope.relvars.ordinals, using, condition, t)
        }
    }
}

/// EXTEND under USING.
#[cycle(tree)]
fn used_extension(
    alloc: Global,
    place: Place,
    list: &NameList,
    e: &Extend,
    scope: Scope<'_>,
) -> Result<RelTree, Stop>
    requires { AreOrdinals (read_relvars scope.relvars.now).ordinals }
    ensures { Gives read_tree result (rules.used_extend_typed (read_scope scope.entry) place (read_list list.now) (read_extend e.now)) }
{
    match e {
        Extend::Of(at, of, sets) => {
            let t = whole(alloc, of, scope)?;
            let using = UsingList {
                place,
                list,
                at: *at,
            };
            nodes::type_using_extension(alloc, &scope.relvars.ordinals, using, sets, t)
        }
    }
}

/// SUMMARIZE under USING.
#[cycle(tree)]
fn used_summary(
    alloc: Global,
    place: Place,
    list: &NameList,
    s: &Summarize,
    scope: Scope<'_>,
) -> Result<RelTree, Stop>
    requires { AreOrdinals (read_relvars scope.relvars.now).ordinals }
    ensures { Gives read_tree result (rules.used_summarize_typed (read_scope scope.entry) place (read_list list.now) (read_summarize s.now)) }
{
    match s {
        Summarize::Of(at, of, by, aggregates) => {
            let t = whole(alloc, of, scope)?;
            let using = UsingList {
                place,
                list,
                at: *at,
            };
            nodes::type_using_summary(alloc, &scope.relvars.ordinals, using, by, aggregates, t)
        }
    }
}

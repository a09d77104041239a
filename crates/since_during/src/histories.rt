// What HISTORY declares.
ghost use Rattle.std.specs.Prelude.{◌≡◌, [], ◌∷◌, ◌++◌, IfOk, map};
ghost use Rattle.value_core.specs.declared.constraint.Constraint.TheVariants as constraints;
ghost use Rattle.scalar_core.specs.Expressions.{read};
ghost use Rattle.relation_core.specs.Agreement.{names_of, position_of};
ghost use Rattle.tree_core.specs.Relvars.{of_history};
ghost use Rattle.tree_core.specs.Trees.{read_tree};
ghost use Rattle.meaning_core.specs.Declarations.{base_relvar, read_declaration, view_relvar};
ghost use Rattle.meaning_core.specs.Histories.{last_point};
ghost use Rattle.meaning_core.specs.Meanings.{positions_of};
ghost use Rattle.since_during.specs.Histories.{all_in, declared_history, during_constraints, during_heading, key_in, rule_between, since_constraints, since_heading, view_of, IsHistoryData};

use crate::headings::{name_at, one_position, with_attribute};
use crate::joining::{Sides, joined_history};
use point_core::{AnyType, Memory, Place, PointType};
use scalar_core::{Scalar, ScalarForm};
use std::alloc::Global;
use tree_core::{Declaration, HistoryData, RelTree};
use value_core::{
    Constraint, Constraints, Heading, HistoryRule, Kind, ListOf, Name, Positions, Value, position,
};

/// The heading of the since relvar: the facts' attributes and the point.
fn since_heading(alloc: Global, h: &HistoryData) -> Result<Heading, Memory>
    requires { IsHistoryData h.now }
    ensures { IfOk result (λ g. g ≡ since_heading h.now) }
{
    with_attribute(alloc, &h.heading, &h.point, Kind::Point(h.over))
}

/// The heading of the during relvar: the facts' attributes and the interval.
fn during_heading(alloc: Global, h: &HistoryData) -> Result<Heading, Memory>
    requires { IsHistoryData h.now }
    ensures { IfOk result (λ g. g ≡ during_heading h.now) }
{
    with_attribute(alloc, &h.heading, &h.span, Kind::Span(h.over))
}

/// Where the attributes of the key stand in the heading.
fn key_in(alloc: Global, h: &HistoryData, heading: &Heading) -> Result<Vec<usize>, Memory>
    requires { IsHistoryData h.now }
    ensures { IfOk result (λ v. v.items ≡ key_in h.now heading.now) }
{
    let mut list = Vec::with_capacity(alloc, h.key.list.len())?;
    for at in &h.key.list {
        let name = name_at(&h.heading, *at);
        list.push(position(heading.attributes(), name))?;
    }
    Ok(list)
}

/// Where the attributes stand in the heading.
fn places(
    alloc: Global,
    heading: &Heading,
    attributes: &[(Name, Kind)],
) -> Result<Vec<usize>, Memory>
    ensures { IfOk result (λ v. v.items ≡ positions_of heading.now (names_of attributes.now)) }
{
    let mut list = Vec::with_capacity(alloc, attributes.len())?;
    for attribute in attributes {
        list.push(position(heading.attributes(), &attribute.0))?;
    }
    Ok(list)
}

/// Where all attributes of the facts stand in the heading.
fn all_in(alloc: Global, h: &HistoryData, heading: &Heading) -> Result<Positions, Memory>
    ensures { IfOk result (λ p. p ≡ all_in h.now heading.now) }
{
    let list = places(alloc, heading, h.heading.attributes())?;
    Ok(Positions { list })
}

/// The key of the since relvar.
fn since_constraints(
    alloc: Global,
    h: &HistoryData,
    heading: &Heading,
) -> Result<Constraints, Memory>
    requires { IsHistoryData h.now }
    ensures { IfOk result (λ c. c ≡ constraints.Key (key_in h.now heading.now) ∷ []) }
{
    let key = key_in(alloc, h, heading)?;
    let list = vec![in alloc; Constraint::Key(Positions { list: key })]?;
    Ok(ListOf { list })
}

/// The since relvar.
fn since_relvar(alloc: Global, h: &HistoryData) -> Result<Declaration, Memory>
    requires { IsHistoryData h.now }
    ensures { IfOk result (λ d. read_declaration d ≡ base_relvar h.now.since (since_heading h.now) (since_constraints h.now)) }
{
    let heading = since_heading(alloc, h)?;
    let constraints = since_constraints(alloc, h, &heading)?;
    let name = h.since.copy(alloc)?;
    Ok(Declaration::Base(name, heading, constraints))
}

/// Where the attributes of the key stand in the heading, and one position more.
fn key_and(
    alloc: Global,
    h: &HistoryData,
    heading: &Heading,
    at: usize,
) -> Result<Vec<usize>, Memory>
    requires { IsHistoryData h.now }
    ensures { IfOk result (λ v. v.items ≡ key_in h.now heading.now ++ at ∷ []) }
{
    let mut list = key_in(alloc, h, heading)?;
    list.push(at)?;
    Ok(list)
}

/// The key under USING of a relvar with the interval, whose attribute is one of the key.
fn packed_key(alloc: Global, h: &HistoryData, heading: &Heading) -> Result<Constraint, Memory>
    requires { IsHistoryData h.now }
    ensures { IfOk result (λ c. c ≡ constraints.UKey (position_of heading.now h.now.span ∷ []) (key_in h.now heading.now ++ position_of heading.now h.now.span ∷ [])) }
{
    let span = position(heading.attributes(), &h.span);
    let list = key_and(alloc, h, heading, span)?;
    let commalist = one_position(alloc, span)?;
    Ok(Constraint::UKey(commalist, Positions { list }))
}

/// Where the attributes of the key stand in the heading, and where all of the facts do.
fn facts_in(
    alloc: Global,
    h: &HistoryData,
    heading: &Heading,
) -> Result<(Positions, Positions), Memory>
    requires { IsHistoryData h.now }
    ensures key { IfOk result (λ p. p.0 ≡ key_in h.now heading.now) }
    ensures all { IfOk result (λ p. p.1 ≡ all_in h.now heading.now) }
{
    let list = key_in(alloc, h, heading)?;
    let all = all_in(alloc, h, heading)?;
    Ok((Positions { list }, all))
}

/// The rule between the two relvars of these headings.
fn rule_between(
    alloc: Global,
    h: &HistoryData,
    since: &Heading,
    during: &Heading,
) -> Result<HistoryRule, Memory>
    requires { IsHistoryData h.now }
    ensures { IfOk result (λ r. r ≡ rule_between h.now since.now during.now) }
{
    let (key_here, all_here) = facts_in(alloc, h, during)?;
    let (key_there, all_there) = facts_in(alloc, h, since)?;
    let name = h.since.copy(alloc)?;
    Ok(HistoryRule {
        since: name,
        key_here,
        key_there,
        all_here,
        all_there,
        point_there: position(since.attributes(), &h.point),
        span_here: position(during.attributes(), &h.span),
    })
}

/// The rule of the during relvar, which has this heading.
fn own_rule(alloc: Global, h: &HistoryData, heading: &Heading) -> Result<HistoryRule, Memory>
    requires { IsHistoryData h.now }
    ensures { IfOk result (λ r. r ≡ rule_between h.now (since_heading h.now) heading.now) }
{
    let since = since_heading(alloc, h)?;
    rule_between(alloc, h, &since, heading)
}

/// The key and the rule of the during relvar.
fn during_constraints(
    alloc: Global,
    h: &HistoryData,
    heading: &Heading,
) -> Result<Constraints, Memory>
    requires data { IsHistoryData h.now }
    requires heading { heading.now ≡ during_heading h.now }
    ensures { IfOk result (λ c. c ≡ during_constraints h.now) }
{
    let key = packed_key(alloc, h, heading)?;
    let rule = own_rule(alloc, h, heading)?;
    let list = vec![in alloc; key, Constraint::History(rule)]?;
    Ok(ListOf { list })
}

/// The during relvar.
fn during_relvar(alloc: Global, h: &HistoryData) -> Result<Declaration, Memory>
    requires { IsHistoryData h.now }
    ensures { IfOk result (λ d. read_declaration d ≡ base_relvar h.now.during (during_heading h.now) (during_constraints h.now)) }
{
    let heading = during_heading(alloc, h)?;
    let constraints = during_constraints(alloc, h, &heading)?;
    let name = h.during.copy(alloc)?;
    Ok(Declaration::Base(name, heading, constraints))
}

/// The last point of the type.
fn last_point(place: Place, over: AnyType) -> Scalar
    ensures { read result ≡ last_point place over }
{
    Scalar {
        place,
        form: ScalarForm::Constant(Kind::Point(over), Value::Point(over.last())),
    }
}

/// The expression of the view of relvars of these headings.
fn view_between(
    alloc: Global,
    h: &HistoryData,
    since: &Heading,
    during: &Heading,
) -> Result<RelTree, Memory>
    requires data { IsHistoryData h.now }
    requires since { since.now ≡ since_heading h.now }
    requires during { during.now ≡ during_heading h.now }
    ensures { IfOk result (λ t. read_tree t ≡ view_of h.now) }
{
    let own = RelTree::of_name(alloc, h.place, since, &h.since)?;
    let sides = Sides {
        place: h.place,
        over: h.over,
        point: &h.point,
        span: &h.span,
        during_name: &h.during,
        since,
        during,
    };
    let end = last_point(h.place, h.over);
    joined_history(alloc, sides, h.place, end, own)
}

/// The expression of the view.
fn view_tree(alloc: Global, h: &HistoryData) -> Result<RelTree, Memory>
    requires { IsHistoryData h.now }
    ensures { IfOk result (λ t. read_tree t ≡ view_of h.now) }
{
    let since = since_heading(alloc, h)?;
    let during = during_heading(alloc, h)?;
    view_between(alloc, h, &since, &during)
}

/// The view.
fn history_view(alloc: Global, h: &HistoryData) -> Result<Declaration, Memory>
    requires { IsHistoryData h.now }
    ensures { IfOk result (λ d. read_declaration d ≡ view_relvar h.now.view (view_of h.now) (of_history (h.now.since, h.now.during))) }
{
    let view = h.view.copy(alloc)?;
    let since = h.since.copy(alloc)?;
    let during = h.during.copy(alloc)?;
    let tree = view_tree(alloc, h)?;
    Ok(Declaration::HistoryView {
        view,
        tree,
        since,
        during,
    })
}

/// What a HISTORY declares, in this order: its since relvar, its during relvar, and its view.
pub fn declare_history(alloc: Global, h: &HistoryData) -> Result<Vec<Declaration>, Memory>
    requires { IsHistoryData h.now }
    ensures { IfOk result (λ v. map read_declaration v.items ≡ declared_history h.now) }
{
    let since = since_relvar(alloc, h)?;
    let during = during_relvar(alloc, h)?;
    let view = history_view(alloc, h)?;
    let mut list = Vec::with_capacity(alloc, 3)?;
    list.push(since)?;
    list.push(during)?;
    list.push(view)?;
    Ok(list)
}

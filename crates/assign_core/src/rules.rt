// Database constraints: which of them a change can break, and the first that is broken.
ghost use Rattle.std.specs.Prelude.{◌≡◌, ◌+◌, ◌≤◌, ◌<◌, [], ◌∷◌, ◌++◌, map, length, slice_index_or, true, false, IfOk, OnOk, Some};
ghost use Rattle.std.specs.List.{IsDistinct};
ghost use Rattle.std.specs.Str.{bytes_eq};
ghost use Rattle.indexmap.specs.IndexMap.{keys};
ghost use Rattle.point_core.specs.declared.fault.Code.TheVariants.{E45};
ghost use Rattle.value_core.specs.declared.refuse.Refuse.TheVariants.{Broken};
ghost use Rattle.value_core.specs.Values.{Name as PlainName};
ghost use Rattle.tree_core.specs.Relvars.{read_relvar, read_relvars, PlainRelvar};
ghost use Rattle.tree_core.specs.Trees.{read_test, Test};
ghost use Rattle.meaning_core.specs.Declarations.{with_rule};
ghost use Rattle.meaning_core.specs.StoredRows.{AreStored};
ghost use Rattle.meaning_core.specs.Truths.{holds_in};
ghost use Rattle.meaning_core.specs.WellMade.{IsWellMade, IsTypedTestFor};
ghost use Rattle.algebra_core.specs.Costs.{test_cost};
ghost use Rattle.assign_core.specs.Assignments.{constrained, IsDone};
ghost use Rattle.assign_core.specs.Breaches.{first_rule_broken};
ghost use Rattle.assign_core.specs.Changes.{Tells};
ghost use Rattle.assign_core.specs.Costs.{rules_cost};
ghost use Rattle.assign_core.specs.Exchanges.{place_of};
ghost use Rattle.assign_core.specs.Leanings.{affected, is_affected, is_ready_at, is_view_of, leaning, with_affected, DoOthersHold};

use crate::appending::append_rule;
use crate::exchange::{Change, Ready};
use algebra_core::test as evaluate;
use point_core::{Code, Memory, Steps, Stop};
use std::alloc::Global;
use std::sync::ledger::Ledger;
use tree_core::{RelTest, Relvar, Relvars, names_any, test_names_any};
use value_core::{Name, Refuse, Relation};

/// Of each database constraint, whether it names a relvar for which something stands ready, itself or through views.
pub(crate) fn leaning(alloc: Global, relvars: &Relvars, ready: &Ready) -> Result<Vec<bool>, Memory>
    ensures { IfOk result (λ v. v.items ≡ leaning (affected ready.now (read_relvars relvars.now).relvars) (read_relvars relvars.now).rules) }
{
    if relvars.rules.is_empty() {
        return Ok(Vec::new(alloc));
    }
    let names = affected(alloc, relvars, ready)?;
    leaning_on(alloc, relvars, names.as_slice())
}

// Of each database constraint, whether it names one of these.
fn leaning_on(alloc: Global, relvars: &Relvars, names: &[&Name]) -> Result<Vec<bool>, Memory>
    ensures { IfOk result (λ v. v.items ≡ leaning (map (λ n. n.now) names.now) (read_relvars relvars.now).rules) }
{
    let mut list = Vec::new(alloc);
    for (_, test) in &relvars.rules {
        list.push(test_names_any(test, names))?;
    }
    Ok(list)
}

// The names of relvars for which something stands ready, and of the views that name one of these.
fn affected<'a>(alloc: Global, relvars: &'a Relvars, ready: &Ready) -> Result<Vec<&'a Name>, Memory>
    ensures { IfOk result (λ v. map (λ n. n.now) v.items ≡ affected ready.now (read_relvars relvars.now).relvars) }
{
    let mut names = Vec::new(alloc);
    for at in 0..relvars.list.len() {
        add_affected(relvars, ready, at, &mut names)?;
    }
    Ok(names)
}

// Puts the name of the relvar or view at a place behind the affected ones, if it is affected.
fn add_affected<'a>(
    relvars: &'a Relvars,
    ready: &Ready,
    at: usize,
    names: &mut Vec<&'a Name>,
) -> Result<(), Memory>
    requires { at < length relvars.now.list.entries }
    ensures { (d : PlainName × PlainRelvar) → OnOk result (map (λ n. n.now) names.new.items
        ≡ with_affected ready.now at (map (λ n. n.now) names.old.items) (slice_index_or (read_relvars relvars.now).relvars at d).0 (slice_index_or (read_relvars relvars.now).relvars at d).1) }
{
    match relvars.list.get_index(at) {
        Some((name, relvar)) => {
            if is_affected(ready, at, relvar, names.as_slice()) {
                names.push(name)?;
            }
            Ok(())
        }
        None => unreachable!(),
    }
}

// Whether something stands ready for the relvar at the place, or it is a view that names one of these.
fn is_affected(ready: &Ready, at: usize, relvar: &Relvar, names: &[&Name]) -> bool
    ensures { result ≡ is_affected ready.now at (map (λ n. n.now) names.now) (read_relvar relvar.now) }
{
    is_ready_at(ready, at) || is_view_of(relvar, names)
}

// Whether something stands ready for the relvar at the place.
fn is_ready_at(ready: &Ready, at: usize) -> bool
    ensures { result ≡ is_ready_at ready.now at }
{
    ready.changes.iter().any(|change| place_of(change) == at)
}

// The place of the relvar that changes.
fn place_of(change: &Change) -> usize
    ensures { result ≡ place_of change.now }
{
    match change {
        Change::Value(at, _) => *at,
        Change::Rows(at, _) => *at,
    }
}

// Whether it is a view that names one of these.
fn is_view_of(relvar: &Relvar, names: &[&Name]) -> bool
    ensures { result ≡ is_view_of (map (λ n. n.now) names.now) (read_relvar relvar.now) }
{
    match relvar {
        Relvar::Base {
            value: _,
            constraints: _,
        } => false,
        Relvar::View { tree, kind: _ } => names_any(tree, names),
        Relvar::Log { of: _, log: _ } => false,
    }
}

/// Tells the first broken database constraint, in order of declaration, where those that are not told hold.
pub(crate) fn check_rules<L: Ledger>(
    alloc: Global,
    relvars: &Relvars,
    stored: &[Option<Relation>],
    told: &[bool],
    steps: &mut Steps<L>,
) -> Result<(), Refuse>
    requires well_made { IsWellMade (read_relvars relvars.now) }
    requires stored { AreStored (read_relvars relvars.now).relvars stored.now }
    requires others { DoOthersHold (read_relvars relvars.now).relvars told.now (read_relvars relvars.now).rules }
    ensures told { Tells result (first_rule_broken (read_relvars relvars.now).relvars (read_relvars relvars.now).rules) }
    ensures cost { steps.new ≤ steps.old + rules_cost (read_relvars relvars.now).relvars (read_relvars relvars.now).rules }
{
    for at in 0..told.len() {
        let asked = told[at];
        check_rule_at(alloc, relvars, stored, at, asked, steps)?;
    }
    Ok(())
}

// Tells whether the database constraint at a place is broken. Where it is not told, it holds.
fn check_rule_at<L: Ledger>(
    alloc: Global,
    relvars: &Relvars,
    stored: &[Option<Relation>],
    at: usize,
    told: bool,
    steps: &mut Steps<L>,
) -> Result<(), Refuse>
    requires well_made { IsWellMade (read_relvars relvars.now) }
    requires stored { AreStored (read_relvars relvars.now).relvars stored.now }
    requires within { at < length relvars.now.rules.entries }
    requires holds { (d : PlainName × Test) → told ≡ false → holds_in (read_relvars relvars.now).relvars (slice_index_or (read_relvars relvars.now).rules at d).1 ≡ true }
    ensures told { (d : PlainName × Test) → Tells result (first_rule_broken (read_relvars relvars.now).relvars (slice_index_or (read_relvars relvars.now).rules at d ∷ [])) }
    ensures cost { (d : PlainName × Test) → steps.new ≤ steps.old + test_cost (read_relvars relvars.now).relvars (slice_index_or (read_relvars relvars.now).rules at d).1 }
{
    match relvars.rules.get_index(at) {
        Some((name, test)) if told => check_rule(alloc, relvars, stored, name, test, steps),
        _ => Ok(()),
    }
}

// Tells whether a database constraint is broken.
fn check_rule<L: Ledger>(
    alloc: Global,
    relvars: &Relvars,
    stored: &[Option<Relation>],
    name: &Name,
    test: &RelTest,
    steps: &mut Steps<L>,
) -> Result<(), Refuse>
    requires well_made { IsWellMade (read_relvars relvars.now) }
    requires stored { AreStored (read_relvars relvars.now).relvars stored.now }
    requires typed { IsTypedTestFor (read_relvars relvars.now) (read_test test.now) }
    ensures told { Tells result (first_rule_broken (read_relvars relvars.now).relvars ((name.now, read_test test.now) ∷ [])) }
    ensures cost { steps.new ≤ steps.old + test_cost (read_relvars relvars.now).relvars (read_test test.now) }
{
    if holds(alloc, relvars, stored, test, steps)? {
        return Ok(());
    }
    Err(breach(alloc, name))
}

// Whether the test of a database constraint holds: FALSE and a fault both break it.
fn holds<L: Ledger>(
    alloc: Global,
    relvars: &Relvars,
    stored: &[Option<Relation>],
    test: &RelTest,
    steps: &mut Steps<L>,
) -> Result<bool, Memory>
    requires well_made { IsWellMade (read_relvars relvars.now) }
    requires stored { AreStored (read_relvars relvars.now).relvars stored.now }
    requires typed { IsTypedTestFor (read_relvars relvars.now) (read_test test.now) }
    ensures value { IfOk result (λ b. b ≡ holds_in (read_relvars relvars.now).relvars (read_test test.now)) }
    ensures cost { steps.new ≤ steps.old + test_cost (read_relvars relvars.now).relvars (read_test test.now) }
{
    match evaluate(alloc, test, relvars, stored, steps) {
        Ok(truth) => Ok(truth),
        Err(Stop::Fault(_)) => Ok(false),
        Err(Stop::Memory) => Err(Memory),
    }
}

/// Adds a database constraint behind the others, or refuses where it does not hold; then, and for want of memory, nothing changes.
pub(crate) fn add_rule<L: Ledger>(
    alloc: Global,
    relvars: &mut Relvars,
    stored: &[Option<Relation>],
    name: Name,
    test: RelTest,
    steps: &mut Steps<L>,
) -> Result<(), Refuse>
    requires well_made { IsWellMade (read_relvars relvars.old) }
    requires stored { AreStored (read_relvars relvars.old).relvars stored.now }
    requires more { IsWellMade (with_rule name (read_test test) (read_relvars relvars.old)) }
    ensures done { IsDone result (read_relvars relvars.old) (read_relvars relvars.new) (constrained (read_relvars relvars.old) name (read_test test)) }
    ensures list { relvars.new.list ≡ relvars.old.list }
    ensures cost { steps.new ≤ steps.old + test_cost (read_relvars relvars.old).relvars (read_test test) }
{
    let kept = holds(alloc, relvars, stored, &test, steps);
    match kept {
        Ok(truth) => append_if(relvars, truth, name, test),
        Err(memory) => Err(Refuse::from(memory)),
    }
}

// Adds a database constraint behind the others, or refuses where it is told not to hold; then, and for want of memory, nothing changes.
fn append_if(relvars: &mut Relvars, holds: bool, name: Name, test: RelTest) -> Result<(), Refuse>
    requires told { holds ≡ holds_in (read_relvars relvars.old).relvars (read_test test) }
    requires new { IsDistinct bytes_eq (keys relvars.old.rules ++ name ∷ []) }
    ensures done { IsDone result (read_relvars relvars.old) (read_relvars relvars.new) (constrained (read_relvars relvars.old) name (read_test test)) }
    ensures list { relvars.new.list ≡ relvars.old.list }
{
    if holds {
        append_rule(relvars, name, test)?;
        return Ok(());
    }
    drop(test);
    Err(Refuse::Broken {
        code: Code::E45,
        relvar: name,
        number: 0,
    })
}

// What is refused where the database constraint is broken; or want of memory.
fn breach(alloc: Global, name: &Name) -> Refuse
    ensures { Tells (Err result) (Some (Broken E45 name.now 0)) }
{
    match name.copy(alloc) {
        Ok(relvar) => Refuse::Broken {
            code: Code::E45,
            relvar,
            number: 0,
        },
        Err(_) => Refuse::Memory,
    }
}

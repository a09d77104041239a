// What a stored view gains and loses, group by group.
ghost use Rattle.std.specs.Prelude.{◌≡◌, ◌≤◌, ◌+◌, ◌++◌, length, option_map, IfOk, IsTrue, MatchResult, OnOk};
ghost use Rattle.std.specs.List.Sorted.{IsSortedByKey, IsStrictlySortedBy};
ghost use Rattle.value_core.specs.Relations.{all_fit};
ghost use Rattle.value_core.specs.Values.{Row as PlainRow, IsRelation, row_cmp, rows_of};
ghost use Rattle.relation_core.specs.Answers.{IsRefusal};
ghost use Rattle.relation_core.specs.Growth.{IsSelection};
ghost use Rattle.kept_views.specs.Kept.{Fits, IsMoved, heading_or_none, kept_heading, kept_rows, of_key, right_key, rows_or_none, view_key};
ghost use Rattle.kept_views.specs.Sorted.{AreAllSorted, AreSorted, IsGroup, rows_behind, with_rows};
ghost use Rattle.kept_views.specs.Touched.{AreMoves, AreRelations, HaveOneHeading, IsAdded, IsOver, IsRefusedGroup, IsSummed, group_cost, groups_cost, left_of, right_of, touched_keys};

use crate::group_moves::{Moved, group_moved, view_places};
use crate::rule::{KeptRule, Operands};
use crate::sorting::{group_rows, sorted_rows};
use crate::touching::{left_places, right_places, touched};
use point_core::{Memory, Steps};
use std::alloc::Global;
use std::sync::ledger::Ledger;
use value_core::{MOST_ROWS, Relation, Row, RowsRefuse};

/// The touched rows of a view and of its operands, behind their keys.
#[derive(Drop)]
pub(crate) struct SortedRows {
    pub(crate) view: Vec<(Row, Row)>,
    pub(crate) left: Vec<(Row, Row)>,
    pub(crate) right: Vec<(Row, Row)>,
}

/// A view and its operands, and their touched rows.
#[derive(Clone, Copy)]
pub(crate) struct Groups<'a> {
    pub(crate) view: &'a Relation,
    pub(crate) after: Operands<'a>,
    pub(crate) sorted: &'a SortedRows,
}

/// Rows that come, and rows that go, group after group.
#[derive(Drop)]
pub(crate) struct Moves {
    pub(crate) come: Vec<Row>,
    pub(crate) gone: Vec<Row>,
}

/// Reads the operands, which tells that their rows are sets.
pub(crate) fn read(operands: Operands<'_>)
    ensures { AreRelations (left_of operands.entry) (right_of operands.entry) }
{
    let _left = operands.left.heading();
    match operands.right {
        Some(other) => {
            let _right = other.heading();
        }
        None => (),
    }
}

// Puts the relation's rows behind those that are there.
fn add_rows(alloc: Global, rows: &mut Vec<Row>, more: Relation) -> Result<(), Memory>
    ensures rows { OnOk result (rows.new.items ≡ rows.old.items ++ more.rows) }
    ensures relation { IsRelation more }
{
    let mut relation = more;
    let mut own = relation.take_rows(alloc);
    rows.append(&mut own)?;
    Ok(())
}

// The right operand's touched rows, if there is one.
fn sorted_right(
    alloc: Global,
    rule: &KeptRule,
    left: &Relation,
    right: Option<&Relation>,
    keys: &[Row],
) -> Result<Vec<(Row, Row)>, Memory>
    requires fits { Fits rule.now left.now (option_map (λ r. r.now) right) }
    requires sorted { IsStrictlySortedBy row_cmp keys.now }
    ensures { let other = option_map (λ r. r.now) right.entry in
        IfOk result (λ list. AreSorted (right_key rule.now.op rule.now.left left.now.heading (heading_or_none other)) keys.now (rows_or_none other) list.items) }
{
    match right {
        Some(other) => {
            let places = right_places(alloc, rule, left, other)?;
            sorted_rows(alloc, other, places.as_slice(), keys)
        }
        None => Ok(Vec::new(alloc)),
    }
}

/// The touched rows of the view and of both operands, by one pass over each.
pub(crate) fn sorted_all(
    alloc: Global,
    rule: &KeptRule,
    view: &Relation,
    after: Operands<'_>,
    keys: &[Row],
) -> Result<SortedRows, Memory>
    requires fits { Fits rule.now (left_of after) (right_of after) }
    requires heading { view.now.heading ≡ kept_heading rule.now (left_of after) (right_of after) }
    requires sorted { IsStrictlySortedBy row_cmp keys.now }
    ensures { IfOk result (λ all. AreAllSorted rule.now keys.now view.now.rows (left_of after.entry) (right_of after.entry) all) }
{
    let places = view_places(alloc, rule, view, after.left, after.right)?;
    let here = left_places(alloc, rule, after.left, after.right)?;
    let view = sorted_rows(alloc, view, places.as_slice(), keys)?;
    let left = sorted_rows(alloc, after.left, here.as_slice(), keys)?;
    let right = sorted_right(alloc, rule, after.left, after.right, keys)?;
    Ok(SortedRows { view, left, right })
}

// The right operand with the rows of the key alone, if there is one.
fn right_group(
    alloc: Global,
    right: Option<&Relation>,
    list: &[(Row, Row)],
    key: &Row,
) -> Result<Option<Relation>, Memory>
    requires ascending { IsSortedByKey (λ (entry : PlainRow × PlainRow). entry.0) row_cmp list.now }
    requires rows { IsSelection (rows_or_none (option_map (λ r. r.now) right)) (rows_behind key.now list.now) }
    ensures { IfOk result (λ o. o ≡ with_rows (rows_behind key.now list.now) (option_map (λ r. r.now) right.entry)) }
{
    match right {
        Some(other) => Ok(Some(group_rows(alloc, other, list, key)?)),
        None => Ok(None),
    }
}

// What the group of the key gains and loses, of which the rows are sought among the touched ones.
fn sought_moved<L: Ledger>(
    alloc: Global,
    rule: &KeptRule,
    key: &Row,
    groups: Groups<'_>,
    steps: &mut Steps<L>,
) -> Result<Moved, RowsRefuse>
    requires fits { Fits rule.now (left_of groups.after) (right_of groups.after) }
    requires heading { groups.view.now.heading ≡ kept_heading rule.now (left_of groups.after) (right_of groups.after) }
    requires group { IsGroup rule.now key.now groups.view.now.rows (left_of groups.after) (right_of groups.after) groups.sorted.now }
    ensures moved { let places = view_key rule.now.op rule.now.left (left_of groups.entry.after).heading (heading_or_none (right_of groups.entry.after)) in
        let rows = of_key places key.now (kept_rows rule.now (left_of groups.entry.after) (right_of groups.entry.after)) in
        MatchResult result (IsMoved groups.entry.view.now.heading (of_key places key.now groups.entry.view.now.rows) rows) (IsRefusal rows) }
    ensures cost { steps.new ≤ steps.old + group_cost rule.now (left_of groups.entry.after) (right_of groups.entry.after) key.now }
{
    read(groups.after);
    let sorted = groups.sorted;
    let view = group_rows(alloc, groups.view, sorted.view.as_slice(), key)?;
    let left = group_rows(alloc, groups.after.left, sorted.left.as_slice(), key)?;
    let right = right_group(alloc, groups.after.right, sorted.right.as_slice(), key)?;
    group_moved(alloc, rule, key, &view, &left, right.as_ref(), steps)
}

// Adds what the group of the key gains and loses.
fn add_group<L: Ledger>(
    alloc: Global,
    rule: &KeptRule,
    key: &Row,
    groups: Groups<'_>,
    moves: &mut Moves,
    steps: &mut Steps<L>,
) -> Result<(), RowsRefuse>
    requires fits { Fits rule.now (left_of groups.after) (right_of groups.after) }
    requires heading { groups.view.now.heading ≡ kept_heading rule.now (left_of groups.after) (right_of groups.after) }
    requires group { IsGroup rule.now key.now groups.view.now.rows (left_of groups.after) (right_of groups.after) groups.sorted.now }
    ensures added { let places = view_key rule.now.op rule.now.left (left_of groups.entry.after).heading (heading_or_none (right_of groups.entry.after)) in
        let rows = kept_rows rule.now (left_of groups.entry.after) (right_of groups.entry.after) in
        MatchResult result (λ _. IsAdded groups.entry.view.now.heading places key.now groups.entry.view.now.rows rows moves.old moves.new) (IsRefusal (of_key places key.now rows)) }
    ensures cost { steps.new ≤ steps.old + group_cost rule.now (left_of groups.entry.after) (right_of groups.entry.after) key.now }
{
    let group = sought_moved(alloc, rule, key, groups, steps)?;
    let Moved { come, gone } = group;
    add_rows(alloc, &mut moves.come, come)?;
    add_rows(alloc, &mut moves.gone, gone)?;
    Ok(())
}

// What the groups of the keys gain and lose.
fn groups_moved<L: Ledger>(
    alloc: Global,
    rule: &KeptRule,
    keys: &[Row],
    groups: Groups<'_>,
    steps: &mut Steps<L>,
) -> Result<Moves, RowsRefuse>
    requires fits { Fits rule.now (left_of groups.after) (right_of groups.after) }
    requires heading { groups.view.now.heading ≡ kept_heading rule.now (left_of groups.after) (right_of groups.after) }
    requires sorted { AreAllSorted rule.now keys.now groups.view.now.rows (left_of groups.after) (right_of groups.after) groups.sorted.now }
    ensures moves { let places = view_key rule.now.op rule.now.left (left_of groups.entry.after).heading (heading_or_none (right_of groups.entry.after)) in
        let rows = kept_rows rule.now (left_of groups.entry.after) (right_of groups.entry.after) in
        MatchResult result (AreMoves groups.entry.view.now.heading places keys.now groups.entry.view.now.rows rows) (IsRefusedGroup places keys.now rows) }
    ensures cost { steps.new ≤ steps.old + groups_cost rule.now (left_of groups.entry.after) (right_of groups.entry.after) keys.now }
{
    let mut moves = Moves {
        come: Vec::new(alloc),
        gone: Vec::new(alloc),
    };
    for key in keys {
        add_group(alloc, rule, key, groups, &mut moves, steps)?;
    }
    Ok(moves)
}

/// The same, of the view, of its operands, and of their touched rows.
pub(crate) fn view_moved<L: Ledger>(
    alloc: Global,
    rule: &KeptRule,
    keys: &[Row],
    view: &Relation,
    after: Operands<'_>,
    sorted: &SortedRows,
    steps: &mut Steps<L>,
) -> Result<Moves, RowsRefuse>
    requires fits { Fits rule.now (left_of after) (right_of after) }
    requires heading { view.now.heading ≡ kept_heading rule.now (left_of after) (right_of after) }
    requires sorted { AreAllSorted rule.now keys.now view.now.rows (left_of after) (right_of after) sorted.now }
    ensures moves { let places = view_key rule.now.op rule.now.left (left_of after.entry).heading (heading_or_none (right_of after.entry)) in
        let rows = kept_rows rule.now (left_of after.entry) (right_of after.entry) in
        MatchResult result (AreMoves view.now.heading places keys.now view.now.rows rows) (IsRefusedGroup places keys.now rows) }
    ensures cost { steps.new ≤ steps.old + groups_cost rule.now (left_of after.entry) (right_of after.entry) keys.now }
{
    let groups = Groups {
        view,
        after,
        sorted,
    };
    groups_moved(alloc, rule, keys, groups, steps)
}

/// The rows that come and go as relations, if those are few that are there then.
pub(crate) fn summed(alloc: Global, view: &Relation, moves: Moves) -> Result<Moved, RowsRefuse>
    requires come { IsTrue (all_fit view.now.heading moves.come.items) }
    requires gone { IsTrue (all_fit view.now.heading moves.gone.items) }
    requires less { length (rows_of moves.gone.items) ≤ length view.now.rows }
    ensures { MatchResult result (IsSummed view.now.heading view.now.rows moves.come.items moves.gone.items) (IsOver view.now.rows moves.come.items moves.gone.items) }
{
    let there = view.rows().len();
    let come = Relation::of_fitting(view.heading().copy(alloc)?, moves.come)?;
    let gone = Relation::of_fitting(view.heading().copy(alloc)?, moves.gone)?;
    if there + come.rows().len() > MOST_ROWS + gone.rows().len() {
        return Err(RowsRefuse::TooMany);
    }
    Ok(Moved { come, gone })
}

/// What the stored view gains and loses where its operands were those before and are those after. Only the groups of rows that come or go
/// are looked at. It is refused exactly where the view would have more than 100,000 rows.
pub fn moved<L: Ledger>(
    alloc: Global,
    rule: &KeptRule,
    view: &Relation,
    before: Operands<'_>,
    after: Operands<'_>,
    steps: &mut Steps<L>,
) -> Result<Moved, RowsRefuse>
    requires before { Fits rule.now (left_of before) (right_of before) }
    requires after { Fits rule.now (left_of after) (right_of after) }
    requires left { (left_of before).heading ≡ (left_of after).heading }
    requires right { HaveOneHeading (right_of before) (right_of after) }
    requires heading { view.now.heading ≡ kept_heading rule.now (left_of before) (right_of before) }
    requires rows { view.now.rows ≡ kept_rows rule.now (left_of before) (right_of before) }
    ensures moved { let rows = kept_rows rule.now (left_of after.entry) (right_of after.entry) in
        MatchResult result (IsMoved view.now.heading view.now.rows rows) (IsRefusal rows) }
    ensures cost { steps.new ≤ steps.old + groups_cost rule.now (left_of after.entry) (right_of after.entry)
        (touched_keys rule.now (left_of before.entry) (right_of before.entry) (left_of after.entry) (right_of after.entry)) }
{
    read(before);
    read(after);
    let keys = touched(alloc, rule, before, after)?;
    let all = sorted_all(alloc, rule, view, after, keys.as_slice())?;
    let sorted = &all;
    let groups = Groups {
        view,
        after,
        sorted,
    };
    let moves = groups_moved(alloc, rule, keys.as_slice(), groups, steps)?;
    summed(alloc, view, moves)
}

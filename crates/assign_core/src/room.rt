// Rows that are taken out of a relation, with room for others among them, until these come or the first ones are put back.
ghost use Rattle.std.specs.Prelude.{◌≡◌, ◌≤◌, length, IfOk, IfSome, OnErr};
ghost use Rattle.std.specs.List.{All};
ghost use Rattle.value_core.specs.Values.{Heading, most_rows};
ghost use Rattle.relation_core.specs.Operators.{united};
ghost use Rattle.assign_core.specs.Exchanges.{refilled, IsHeld};
ghost use Rattle.assign_core.specs.Hashed.{IsHashesOf};
ghost use Rattle.assign_core.specs.Turnovers.{renewed};

use crate::marking::exchange_each;
use crate::merging::{cut_front, make_room, put_many};
use crate::tuning::MOST_ROWS_ONE_BY_ONE;
use change_rows::Exchange;
use point_core::Memory;
use relation_core::Hashes;
use row_removal::take_out;
use std::alloc::Global;
use value_core::{Relation, Row};

/// The rows of a relation, behind so many empty ones, with room for those that come, and hashes of them.
#[derive(Drop)]
pub(crate) struct Held {
    pub rows: Vec<Row>,
    pub empty: usize,
    pub hashes: Vec<Hashes>,
}

/// Takes the rows out of a relation, and makes room for those that come. For want of memory they stay.
pub(crate) fn hold(
    value: &mut Relation,
    alloc: Global,
    hashes: Vec<Hashes>,
    rows: &Exchange,
) -> Result<Held, Memory>
    requires heading { rows.now.come.heading ≡ value.old.heading }
    requires few { length (united value.old.rows rows.now.come.rows) ≤ most_rows }
    requires hashes { All (IsHashesOf value.old.heading value.old.rows) hashes.items }
    ensures back { IfOk result (λ h. refilled h value.new ≡ value.old) }
    ensures held { IfOk result (λ h. IsHeld value.new h rows.now) }
    ensures err { OnErr result (value.new ≡ value.old) }
{
    let come = rows.come.rows();
    let mut own = value.take_rows(alloc);
    match make_room(alloc, &mut own, come) {
        Ok(empty) => Ok(Held {
            rows: own,
            empty,
            hashes,
        }),
        Err(_) => {
            value.set_rows(own);
            Err(Memory)
        }
    }
}

/// Puts the rows that come among those that are held, and takes those that go out of them; and their hashes, where few have changed.
pub(crate) fn let_in(
    value: &mut Relation,
    alloc: Global,
    held: Held,
    rows: &mut Exchange,
) -> Option<Vec<Hashes>>
    requires held { IsHeld value.old held rows.old }
    ensures value { value.new ≡ renewed (refilled held value.old) rows.old }
    ensures hashes { IfSome result (λ v. All (IsHashesOf value.new.heading value.new.rows) v.items) }
{
    if held.empty == 0 && are_few(rows) {
        return Some(let_few_in(value, alloc, held, rows));
    }
    let_many_in(value, alloc, held, rows);
    None
}

// Whether the rows that come and those that go are few together.
fn are_few(rows: &Exchange) -> bool {
    rows.come
        .rows()
        .len()
        .saturating_add(rows.gone.rows().len())
        <= MOST_ROWS_ONE_BY_ONE
}

// Puts the rows that come each at its place among those that are held, takes those that go out of them, and keeps their hashes.
fn let_few_in(value: &mut Relation, alloc: Global, held: Held, rows: &mut Exchange) -> Vec<Hashes>
    ghost heading: { Heading }
    requires own { value.old.heading ≡ heading }
    requires held { IsHeld value.old held rows.old }
    requires behind { held.empty ≡ 0 }
    ensures value { value.new ≡ renewed (refilled held value.old) rows.old }
    ensures hashes { All (IsHashesOf value.new.heading value.new.rows) result.items }
{
    let Held {
        rows: mut own,
        empty: _,
        mut hashes,
    } = held;
    let mut come = rows.come.take_rows(alloc);
    let gone = rows.gone.rows();
    take_out(&mut come, gone);
    exchange_each(alloc, &mut own, &mut hashes, come, gone);
    value.set_rows(own);
    hashes
}

// Puts the rows that come among those that are held, and takes those that go out of them.
fn let_many_in(value: &mut Relation, alloc: Global, held: Held, rows: &mut Exchange)
    ghost heading: { Heading }
    requires own { value.old.heading ≡ heading }
    requires held { IsHeld value.old held rows.old }
    ensures { value.new ≡ renewed (refilled held value.old) rows.old }
{
    let Held {
        rows: mut own,
        empty,
        hashes,
    } = held;
    drop(hashes);
    let come = rows.come.take_rows(alloc);
    put_many(alloc, &mut own, empty, come);
    take_out(&mut own, rows.gone.rows());
    value.set_rows(own);
}

/// Puts the rows that are held back into their relation.
pub(crate) fn put_back(value: &mut Relation, held: Held, _rows: &Exchange)
    requires { IsHeld value.old held _rows.now }
    ensures { value.new ≡ refilled held value.old }
{
    let Held {
        rows: mut own,
        empty,
        hashes,
    } = held;
    drop(hashes);
    cut_front(&mut own, empty);
    value.set_rows(own);
}

// The hashes of a relation's rows.
ghost use Rattle.std.specs.Prelude.{◌≡◌, ◌<◌, ◌≤◌, ℕ, insert, length, map, remove, IfOk, OnErr, OnOk};
ghost use Rattle.std.specs.List.{All};
ghost use Rattle.value_core.specs.Values.{IsRelation};
ghost use Rattle.relation_core.specs.Hashes.{hash_of, AreHashesOf};

use crate::numbers::hash_of;
use point_core::Memory;
use std::alloc::Global;
use std::marker::Model;
use value_core::{Relation, Row};

/// Positions of attributes, and a hash for each of some rows: a number that the row's values there tell. Rows that have the same values
/// there have the same hash; rows that have others mostly have another.
#[derive(Drop)]
pub struct Hashes {
    positions: Vec<usize>,
    list: Vec<u64>,
}

impl Model for Hashes {
    ghost use Rattle.relation_core.specs.Hashes.{HashList};

    ghost Value = { HashList };

    ghost view = { λ m. record { positions = m.positions.items; list = m.list.items } };
}

impl Hashes {
    /// The positions.
    pub fn positions(&self) -> &[usize]
        ensures { result.now ≡ self.now.positions }
    {
        self.positions.as_slice()
    }

    /// The hashes, in the order of the rows.
    pub fn list(&self) -> &[u64]
        ensures { result.now ≡ self.now.list }
    {
        self.list.as_slice()
    }

    /// Puts the hash of a row at a place, as the row is put there. Where memory is wanting nothing changes.
    pub fn insert(&mut self, at: usize, row: &Row) -> Result<(), Memory>
        requires at { at ≤ length self.old.list }
        requires within { All (λ (i : ℕ). i < length row.now) self.old.positions }
        ensures ok { OnOk result (self.new ≡ record { positions = self.old.positions; list = insert self.old.list at (hash_of self.old.positions row.now) }) }
        ensures err { OnErr result (self.new ≡ self.old) }
    {
        let hash = hash_of(row, self.positions.as_slice());
        match self.list.insert(at, hash) {
            Ok(()) => Ok(()),
            Err(_) => Err(Memory),
        }
    }

    /// Takes away the hash at a place, as the row there is taken away.
    pub fn remove(&mut self, at: usize)
        requires { at < length self.old.list }
        ensures { self.new ≡ record { positions = self.old.positions; list = remove self.old.list at } }
    {
        self.list.remove(at);
    }
}

/// The hashes of the rows, in their order.
pub(crate) fn row_marks(
    alloc: Global,
    r: &Relation,
    positions: &[usize],
) -> Result<Vec<u64>, Memory>
    requires { All (λ (i : ℕ). i < length r.now.heading) positions.now }
    ensures hashes { IfOk result (λ list. list.items ≡ map (hash_of positions.now) r.now.rows) }
    ensures relation { IsRelation r.now }
{
    let rows = r.rows();
    let mut list = Vec::with_capacity(alloc, rows.len())?;
    for row in rows {
        list.push(hash_of(row, positions))?;
    }
    Ok(list)
}

/// The hashes of the relation's rows for the positions, by one pass over the rows.
pub fn hashes_of(alloc: Global, r: &Relation, positions: &[usize]) -> Result<Hashes, Memory>
    requires { All (λ (i : ℕ). i < length r.now.heading) positions.now }
    ensures positions { IfOk result (λ hashes. hashes.positions ≡ positions.now) }
    ensures hashes { IfOk result (λ hashes. AreHashesOf r.now.rows hashes) }
{
    let list = row_marks(alloc, r, positions)?;
    let positions = Vec::from_slice(alloc, positions)?;
    Ok(Hashes { positions, list })
}

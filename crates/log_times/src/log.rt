// Logs as they are stored.
ghost use Rattle.std.specs.Prelude.{◌≡◌, ◌≤◌, ◌<ℤ◌, ◌≤ℤ◌, IfOk, OnErr, OnOk, length};
ghost use Rattle.value_core.specs.Values.{most_rows, IsRelation};
ghost use Rattle.relation_core.specs.Operators.{united};
ghost use Rattle.log_times.specs.Logs.{open_end, IsStored};
ghost use Rattle.log_times.specs.Turns.{exchanged};
ghost use Rattle.log_times.specs.Kept.{log_relation, IsLog};

use crate::closing::closed;
use point_core::Memory;
use row_removal::remove;
use std::alloc::Global;
use std::marker::Model;
use value_core::{Heading, Relation};

/// The log of a relvar after the statement of the number `last`. The attribute at the place `side` tells the statements after which a row
/// of the relvar was there; where the row still stands, the greatest integer is stored as the last of them.
#[derive(Drop)]
pub struct Log {
    side: usize,
    last: i64,
    stored: Relation,
}

impl Model for Log {
    ghost use Rattle.log_times.specs.Kept.{PlainLog, IsLog};

    ghost Value = { PlainLog };

    ghost view = { λ l. record { side = l.side; last = l.last; stored = l.stored } };

    ghost invariant = { λ l. IsLog (record { side = l.side; last = l.last; stored = l.stored }) };
}

impl Log {
    /// The log of these stored rows after the statement of the number `last`, which tells the statements at the place `side`.
    pub fn make(side: usize, last: i64, stored: Relation) -> Log
        requires { IsLog (record { side = side; last = last; stored = stored }) }
        ensures { result ≡ record { side = side; last = last; stored = stored } }
    {
        Log { side, last, stored }
    }

    /// The place of the attribute that tells the statements.
    pub fn side(&self) -> usize
        ensures { result ≡ self.now.side }
    {
        self.side
    }

    /// The number of the last statement.
    pub fn last(&self) -> i64
        ensures { result ≡ self.now.last }
    {
        self.last
    }

    /// The rows as they are stored.
    pub fn stored(&self) -> &Relation
        ensures rows { result.now ≡ self.now.stored }
        ensures log { IsLog self.now }
    {
        &self.stored
    }

    /// The heading of the log: that of its relvar, and the attribute of the statements.
    pub fn heading(&self) -> &Heading
        ensures { result.now ≡ self.now.stored.heading }
    {
        self.stored.heading()
    }

    /// The rows of the log: each row of the relvar with the statements, first to last, after which it was there.
    pub fn relation(&self, alloc: Global) -> Result<Relation, Memory>
        ensures { IfOk result (λ r. r ≡ log_relation self.now) }
    {
        closed(alloc, &self.stored, self.side, self.last)
    }

    /// Brings the log to a later statement, before which its relvar stayed as it was.
    pub fn advance(&mut self, number: i64)
        requires later { self.old.last ≤ℤ number }
        requires before { number <ℤ open_end }
        ensures later { self.new ≡ record { side = self.old.side; last = number; stored = self.old.stored } }
        ensures log { IsLog self.old }
        ensures relation { IsRelation self.old.stored }
    {
        let _ = self.stored.rows();
        self.last = number;
    }

    /// Puts stored rows among those of the log, takes others out, and brings it to the statement of the number `last`. For want of memory
    /// nothing changes.
    pub fn exchange(
        &mut self,
        alloc: Global,
        come: Relation,
        gone: &Relation,
        last: i64,
    ) -> Result<(), Memory>
        requires heading { come.heading ≡ self.old.stored.heading }
        requires few { length (united self.old.stored.rows come.rows) ≤ most_rows }
        requires stored { IsStored self.old.side last (exchanged self.old.stored.rows come.rows gone.now.rows) }
        ensures exchanged { OnOk result (self.new ≡ record { side = self.old.side; last = last; stored = record { heading = self.old.stored.heading; rows = exchanged self.old.stored.rows come.rows gone.now.rows } }) }
        ensures err { OnErr result (self.new ≡ self.old) }
    {
        self.stored.insert(come)?;
        remove(&mut self.stored, alloc, gone);
        self.last = last;
        Ok(())
    }
}

// One entry where a base relvar gained and lost rows.
ghost use Rattle.std.specs.Prelude.{◌≡◌, ◌≤◌, ◌+◌, ◌<ℤ◌, ◌-ℤ◌, pos, length, IfSome, OnErr, OnOk};
ghost use Rattle.point_core.specs.Whole.{greatest_whole, least_whole};
ghost use Rattle.value_core.specs.Values.{Name as PlainName, most_rows};
ghost use Rattle.log_times.specs.Kept.{log_relation};
ghost use Rattle.log_times.specs.Told.{value_after};
ghost use Rattle.log_times.specs.Turns.{without, IsExact};
ghost use Rattle.tree_core.specs.Relvars.{log, read_relvar, Entries, PlainRelvar};
ghost use Rattle.meaning_core.specs.Logs.{turned_relvar, IsInStep};
ghost use Rattle.relvar_logs.specs.LoggedChanges.{is_log_of};
ghost use Rattle.relvar_logs.specs.Passed.{IsBrought, IsChangingLog, IsChanged, IsOnTheWay};
ghost use Rattle.relvar_logs.specs.Fitting.{IsCounted, IsFitting};

use log_times::Log;
use log_turns::change;
use point_core::Memory;
use std::alloc::Global;
use tree_core::Relvar;
use value_core::{MOST_ROWS, Name, Relation};

/// Whether it is a log of the relvar of this name.
pub(crate) fn is_log_of(relvar: &Relvar, name: &Name) -> bool
    ensures { result ≡ is_log_of name.now (read_relvar relvar.now) }
{
    match relvar {
        Relvar::Log { of, log: _ } => of == name,
        Relvar::Base {
            value: _,
            constraints: _,
        } => false,
        Relvar::View { tree: _, kind: _ } => false,
    }
}

/// How many rows it has as a log, if it may have so many more where it is the log of the relvar of this name.
pub(crate) fn fitting_rows(relvar: &Relvar, name: &Name, more: usize) -> Option<usize>
    requires { more ≤ most_rows }
    ensures { IfSome result (λ count. IsFitting name.now more count (read_relvar relvar.now)) }
{
    let count = rows_of(relvar);
    let own = is_log_of(relvar, name);
    if own && count > MOST_ROWS - more {
        return None;
    }
    Some(count)
}

// How many rows it has as a log.
fn rows_of(relvar: &Relvar) -> usize
    ensures { IsCounted result (read_relvar relvar.now) }
{
    match relvar {
        Relvar::Log { of: _, log } => log.stored().rows().len(),
        Relvar::Base {
            value: _,
            constraints: _,
        } => 0,
        Relvar::View { tree: _, kind: _ } => 0,
    }
}

/// Brings a log to the statement of this number, in which its relvar gained and lost these rows. Others stay.
pub(crate) fn change_relvar(
    alloc: Global,
    relvar: &mut Relvar,
    come: &Relation,
    gone: &Relation,
    number: i64,
) -> Result<(), Memory>
    ghost all: { Entries }
    requires first { least_whole <ℤ number }
    requires room { number <ℤ greatest_whole }
    requires changing { IsChangingLog (number -ℤ pos 1) all come.now gone.now (read_relvar relvar.old) }
    ensures turned { OnOk result (read_relvar relvar.new ≡ turned_relvar all (read_relvar relvar.old)) }
    ensures step { OnOk result (IsInStep number all (read_relvar relvar.new)) }
    ensures err { OnErr result (read_relvar relvar.new ≡ read_relvar relvar.old) }
{
    match relvar {
        Relvar::Log { of: _, log } => change_one(alloc, log, come, gone, number),
        Relvar::Base {
            value: _,
            constraints: _,
        } => Ok(()),
        Relvar::View { tree: _, kind: _ } => Ok(()),
    }
}

// Brings the log to the statement of this number, in which its relvar gained and lost these rows.
fn change_one(
    alloc: Global,
    log: &mut Log,
    come: &Relation,
    gone: &Relation,
    number: i64,
) -> Result<(), Memory>
    requires come { come.now.heading ≡ without log.old.side log.old.stored.heading }
    requires gone { gone.now.heading ≡ without log.old.side log.old.stored.heading }
    requires first { least_whole <ℤ number }
    requires next { log.old.last ≡ number -ℤ pos 1 }
    requires last { number <ℤ greatest_whole }
    requires exact { IsExact (value_after log.old.side log.old.last (log_relation log.old).rows) come.now.rows gone.now.rows }
    requires few { length (log_relation log.old).rows + (length come.now.rows + length gone.now.rows) ≤ most_rows }
    ensures changed { OnOk result (IsChanged log.old come.now gone.now number log.new) }
    ensures err { OnErr result (log.new ≡ log.old) }
{
    let _ = log.stored();
    change(alloc, log, come, gone, number)?;
    let _ = log.stored();
    Ok(())
}

/// Brings a log to the statement of this number, unless it is there already. Others stay.
pub(crate) fn bring_log(relvar: &mut Relvar, number: i64)
    requires room { number <ℤ greatest_whole }
    ensures { (all : Entries) (before : PlainRelvar) → IsOnTheWay number all before (read_relvar relvar.old) → IsBrought number all before (read_relvar relvar.new) }
{
    match relvar {
        Relvar::Log { of: _, log } => bring(log, number),
        Relvar::Base {
            value: _,
            constraints: _,
        } => (),
        Relvar::View { tree: _, kind: _ } => (),
    }
}

// Brings the log to the statement of this number, unless it is there already.
fn bring(kept: &mut Log, number: i64)
    requires room { number <ℤ greatest_whole }
    ensures { (all : Entries) (of : PlainName) (before : PlainRelvar) → IsOnTheWay number all before (log of kept.old.side kept.old.last (log_relation kept.old)) → IsBrought number all before (log of kept.new.side kept.new.last (log_relation kept.new)) }
{
    if kept.last() < number {
        kept.advance(number);
    }
}

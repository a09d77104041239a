// Logs that stand ready for the next statement.
ghost use Rattle.std.specs.Prelude.{◌≡◌, ◌<◌, ◌<ℤ◌, ◌+ℤ◌, pos, length, option_map, IfErr, IfOk};
ghost use Rattle.point_core.specs.Whole.{greatest_whole};
ghost use Rattle.log_times.specs.Kept.{log_relation};
ghost use Rattle.tree_core.specs.Relvars.{log, read_relvar, read_relvars};
ghost use Rattle.meaning_core.specs.Logs.{AreInStep, IsInStep};
ghost use Rattle.meaning_core.specs.WellMade.{IsWellMade};
ghost use Rattle.relvar_logs.specs.Changes.{change_named, changed, AreChanges, IsSoAt};
ghost use Rattle.relvar_logs.specs.Turning.{AreNext, IsFull, IsFullAlone, IsNext, IsOfBase};

use log_times::Log;
use log_turns::turned;
use point_core::Code;
use std::alloc::Global;
use tree_core::{Relvar, Relvars};
use value_core::{Name, Refuse, Relation, RowsRefuse};

/// The logs with the next statement, in which base relvars get new values: one place for each entry, and a log where its relvar gets one. It
/// is refused where one of these would have more than 100,000 rows.
pub fn next_logs(
    alloc: Global,
    relvars: &Relvars,
    changes: &[Option<Relation>],
) -> Result<Vec<Option<Log>>, Refuse>
    requires made { IsWellMade (read_relvars relvars.now) }
    requires step { AreInStep (read_relvars relvars.now).accepted (read_relvars relvars.now).relvars }
    requires room { ((read_relvars relvars.now).accepted +ℤ pos 1) <ℤ greatest_whole }
    requires changes { AreChanges changes.now (read_relvars relvars.now).relvars }
    requires length { length changes.now ≡ length relvars.now.list.entries }
    ensures next { IfOk result (λ v. AreNext (read_relvars relvars.now).accepted (changed changes.now (read_relvars relvars.now).relvars) v.items (read_relvars relvars.now).relvars) }
    ensures refused { IfErr result (IsFull (changed changes.now (read_relvars relvars.now).relvars) (read_relvars relvars.now).relvars) }
{
    let mut list = Vec::new(alloc);
    for at in 0..relvars.list.len() {
        let next = next_at(alloc, relvars, changes, at)?;
        list.push(next)?;
    }
    Ok(list)
}

// The log at a place with the next statement, where its relvar gets a new value.
fn next_at(
    alloc: Global,
    relvars: &Relvars,
    changes: &[Option<Relation>],
    at: usize,
) -> Result<Option<Log>, Refuse>
    requires made { IsWellMade (read_relvars relvars.now) }
    requires step { AreInStep (read_relvars relvars.now).accepted (read_relvars relvars.now).relvars }
    requires room { ((read_relvars relvars.now).accepted +ℤ pos 1) <ℤ greatest_whole }
    requires changes { AreChanges changes.now (read_relvars relvars.now).relvars }
    requires length { length changes.now ≡ length relvars.now.list.entries }
    requires at { at < length relvars.now.list.entries }
    ensures next { IfOk result (λ t. IsSoAt at (IsNext (read_relvars relvars.now).accepted (changed changes.now (read_relvars relvars.now).relvars) t) (read_relvars relvars.now).relvars) }
    ensures refused { IfErr result (IsFull (changed changes.now (read_relvars relvars.now).relvars) (read_relvars relvars.now).relvars) }
{
    match relvars.list.get_index(at) {
        Some((_, relvar)) => next_of(alloc, relvars, changes, relvar),
        None => unreachable!(),
    }
}

// The log with the next statement, where its relvar gets a new value; none of another relvar.
fn next_of(
    alloc: Global,
    relvars: &Relvars,
    changes: &[Option<Relation>],
    relvar: &Relvar,
) -> Result<Option<Log>, Refuse>
    requires base { IsOfBase (read_relvars relvars.now).relvars (read_relvar relvar.now) }
    requires step { IsInStep (read_relvars relvars.now).accepted (read_relvars relvars.now).relvars (read_relvar relvar.now) }
    requires room { ((read_relvars relvars.now).accepted +ℤ pos 1) <ℤ greatest_whole }
    requires changes { AreChanges changes.now (read_relvars relvars.now).relvars }
    requires length { length changes.now ≡ length relvars.now.list.entries }
    ensures next { IfOk result (λ t. IsNext (read_relvars relvars.now).accepted (changed changes.now (read_relvars relvars.now).relvars) t (read_relvar relvar.now)) }
    ensures refused { IfErr result (IsFullAlone (changed changes.now (read_relvars relvars.now).relvars) (read_relvar relvar.now)) }
{
    match relvar {
        Relvar::Log { of, log } => next_log(alloc, relvars, changes, of, log),
        Relvar::Base {
            value: _,
            constraints: _,
        } => Ok(None),
        Relvar::View { tree: _, kind: _ } => Ok(None),
    }
}

// The log of the relvar of this name with the next statement, where that gets a new value.
fn next_log(
    alloc: Global,
    relvars: &Relvars,
    changes: &[Option<Relation>],
    of: &Name,
    kept: &Log,
) -> Result<Option<Log>, Refuse>
    requires base { IsOfBase (read_relvars relvars.now).relvars (log of.now kept.now.side kept.now.last (log_relation kept.now)) }
    requires step { IsInStep (read_relvars relvars.now).accepted (read_relvars relvars.now).relvars (log of.now kept.now.side kept.now.last (log_relation kept.now)) }
    requires room { ((read_relvars relvars.now).accepted +ℤ pos 1) <ℤ greatest_whole }
    requires changes { AreChanges changes.now (read_relvars relvars.now).relvars }
    requires length { length changes.now ≡ length relvars.now.list.entries }
    ensures next { IfOk result (λ t. IsNext (read_relvars relvars.now).accepted (changed changes.now (read_relvars relvars.now).relvars) t (log of.now kept.now.side kept.now.last (log_relation kept.now))) }
    ensures refused { IfErr result (IsFullAlone (changed changes.now (read_relvars relvars.now).relvars) (log of.now kept.now.side kept.now.last (log_relation kept.now))) }
{
    match change_of(relvars, changes, of) {
        Some(value) => match turned(alloc, kept, value, relvars.accepted + 1) {
            Ok(next) => {
                let _ = next.stored();
                Ok(Some(next))
            }
            Err(RowsRefuse::TooMany) => Err(Refuse::Plain(Code::E46)),
            Err(RowsRefuse::Memory) => Err(Refuse::Memory),
        },
        None => Ok(None),
    }
}

/// The new value of the relvar of this name, if it gets one.
pub fn change_of<'a>(
    relvars: &Relvars,
    changes: &'a [Option<Relation>],
    name: &Name,
) -> Option<&'a Relation>
    requires { length changes.now ≡ length relvars.now.list.entries }
    ensures { option_map (λ v. v.now) result ≡ change_named changes.now (read_relvars relvars.now).relvars name.now }
{
    match relvars.list.get_full(name) {
        Some((at, _, _)) => changes[at].as_ref(),
        None => None,
    }
}

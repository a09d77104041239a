// Logs that begin.
ghost use Rattle.std.specs.Prelude.{◌≡◌, ◌∷◌, ◌++◌, [], ◌<ℤ◌, ◌+ℤ◌, pos, replicate, true, IfErr, IfOk, OnErr, OnOk, None, Some, Err};
ghost use Rattle.std.specs.List.{IsDistinct};
ghost use Rattle.std.specs.Str.{bytes_eq};
ghost use Rattle.indexmap.specs.IndexMap.{keys};
ghost use Rattle.point_core.specs.Whole.{greatest_whole};
ghost use Rattle.log_times.specs.Kept.{log_relation};
ghost use Rattle.tree_core.specs.declared.relvar.Relvar.TheVariants.{Log as log_entry};
ghost use Rattle.tree_core.specs.Relvars.{heading_if, log, read_relvars, relvar_named};
ghost use Rattle.meaning_core.specs.Declarations.{counted, with_log};
ghost use Rattle.meaning_core.specs.Logs.{new_log, turned_logs, AreInStep};
ghost use Rattle.meaning_core.specs.Updates.{IsTypedLog};
ghost use Rattle.meaning_core.specs.WellMade.{IsWellMade};
ghost use Rattle.relvar_logs.specs.Opening.{logs_fit, IsOpenedIn};
ghost use Rattle.relvar_logs.specs.Turning.{AreNext, IsReadyLog};

use crate::counting::room_beside;
use crate::turning::count;
use log_times::Log;
use log_turns::begun;
use point_core::{Code, Memory};
use std::alloc::Global;
use tree_core::{LogData, Relvar, Relvars};
use value_core::{MOST_ROWS_IN_ALL, Refuse, Relation};

/// Declares a log, which begins with this statement, and counts the statement; or refuses and changes nothing. It is refused where the
/// logs, with the rows of the base relvars, would have more rows than there may be.
pub fn open_log(
    alloc: Global,
    relvars: &mut Relvars,
    declared: LogData,
    rows: usize,
) -> Result<(), Refuse>
    requires step { AreInStep (read_relvars relvars.old).accepted (read_relvars relvars.old).relvars }
    requires room { ((read_relvars relvars.old).accepted +ℤ pos 1) <ℤ greatest_whole }
    requires typed { IsTypedLog (read_relvars relvars.old) declared }
    requires made { IsWellMade (read_relvars relvars.old) }
    ensures opened { IsOpenedIn rows result (read_relvars relvars.old) (read_relvars relvars.new) declared }
    ensures step { AreInStep (read_relvars relvars.new).accepted (read_relvars relvars.new).relvars }
{
    let first = fitting_log(alloc, relvars, &declared, rows)?;
    begin(alloc, relvars, declared, first)?;
    Ok(())
}

/// The log of a base relvar as it begins with the next statement.
pub fn first_log(alloc: Global, relvars: &Relvars, data: &LogData) -> Result<Log, Memory>
    requires typed { IsTypedLog (read_relvars relvars.now) data.now }
    requires room { ((read_relvars relvars.now).accepted +ℤ pos 1) <ℤ greatest_whole }
    ensures { IfOk result (λ t. IsReadyLog (read_relvars relvars.now).accepted (with_log (read_relvars relvars.now) data.now).relvars
        (new_log (heading_if (relvar_named (read_relvars relvars.now).relvars data.now.of)) (read_relvars relvars.now).accepted data.now) (log data.now.of t.side t.last (log_relation t))) }
{
    match relvars.named(&data.of) {
        Some(
            Relvar::Base {
                value,
                constraints: _,
            },
        ) => {
            let first = begun(alloc, value, &data.attribute, relvars.accepted + 1)?;
            let _ = first.stored();
            Ok(first)
        }
        _ => unreachable!(),
    }
}

// The log at its first statement, if it has room.
fn fitting_log(alloc: Global, relvars: &Relvars, data: &LogData, rows: usize) -> Result<Log, Refuse>
    ghost declared: { LogData }
    requires same { data.now ≡ declared }
    requires typed { IsTypedLog (read_relvars relvars.now) declared }
    requires room { ((read_relvars relvars.now).accepted +ℤ pos 1) <ℤ greatest_whole }
    requires next { AreNext (read_relvars relvars.now).accepted (with_log (read_relvars relvars.now) declared).relvars [] (read_relvars relvars.now).relvars }
    ensures ready { IfOk result (λ t. IsReadyLog (read_relvars relvars.now).accepted (with_log (read_relvars relvars.now) declared).relvars
        (new_log (heading_if (relvar_named (read_relvars relvars.now).relvars declared.of)) (read_relvars relvars.now).accepted declared) (log declared.of t.side t.last (log_relation t))) }
    ensures fit { IfOk result (λ t. logs_fit rows (turned_logs (with_log (read_relvars relvars.now) declared).relvars) ≡ true) }
    ensures refused { IfErr result (λ e. IsOpenedIn rows (Err e) (read_relvars relvars.now) (read_relvars relvars.now) declared) }
{
    let first = first_log(alloc, relvars, data)?;
    if !is_room(relvars, &first, rows) {
        return Err(Refuse::Plain(Code::E46));
    }
    Ok(first)
}

// Whether the log has room beside the other logs, as they are after the next statement, and so many rows of base relvars.
fn is_room(relvars: &Relvars, first: &Log, rows: usize) -> bool
    ghost declared: { LogData }
    requires room { ((read_relvars relvars.now).accepted +ℤ pos 1) <ℤ greatest_whole }
    requires next { AreNext (read_relvars relvars.now).accepted (with_log (read_relvars relvars.now) declared).relvars [] (read_relvars relvars.now).relvars }
    requires ready { IsReadyLog (read_relvars relvars.now).accepted (with_log (read_relvars relvars.now) declared).relvars
        (new_log (heading_if (relvar_named (read_relvars relvars.now).relvars declared.of)) (read_relvars relvars.now).accepted declared) (log declared.of first.now.side first.now.last (log_relation first.now)) }
    ensures { result ≡ logs_fit rows (turned_logs (with_log (read_relvars relvars.now) declared).relvars) }
{
    let count = first.stored().rows().len();
    match room_beside(relvars, &[], MOST_ROWS_IN_ALL) {
        Some(room) => {
            if count > room {
                return false;
            }
            rows <= room - count
        }
        None => false,
    }
}

// Appends the log, which stands ready at its first statement, and counts that. For want of memory nothing changes.
fn begin(alloc: Global, relvars: &mut Relvars, declared: LogData, first: Log) -> Result<(), Memory>
    requires room { ((read_relvars relvars.old).accepted +ℤ pos 1) <ℤ greatest_whole }
    requires next { AreNext (read_relvars relvars.old).accepted (with_log (read_relvars relvars.old) declared).relvars [] (read_relvars relvars.old).relvars }
    requires ready { IsReadyLog (read_relvars relvars.old).accepted (with_log (read_relvars relvars.old) declared).relvars
        (new_log (heading_if (relvar_named (read_relvars relvars.old).relvars declared.of)) (read_relvars relvars.old).accepted declared) (log declared.of first.side first.last (log_relation first)) }
    requires different { IsDistinct bytes_eq (keys relvars.old.list ++ declared.name ∷ []) }
    ensures ok { OnOk result (read_relvars relvars.new ≡ counted (with_log (read_relvars relvars.old) declared)) }
    ensures step { OnOk result (AreInStep (read_relvars relvars.new).accepted (read_relvars relvars.new).relvars) }
    ensures err { OnErr result (read_relvars relvars.new ≡ read_relvars relvars.old) }
{
    let log = before_first(alloc, &first, relvars.accepted)?;
    let mut next = ready_last(alloc, relvars.list.len(), first)?;
    append(relvars, declared, log)?;
    count(relvars, &mut next);
    Ok(())
}

// The log before its first statement: it tells nothing.
fn before_first(alloc: Global, first: &Log, number: i64) -> Result<Log, Memory>
    requires { number <ℤ greatest_whole }
    ensures { IfOk result (λ t. t ≡ record { side = first.now.side; last = number; stored = record { heading = first.now.stored.heading; rows = [] } }) }
{
    let heading = first.stored().heading().copy(alloc)?;
    let nothing = Relation::of_few(heading, Vec::new(alloc))?;
    Ok(Log::make(first.side(), number, nothing))
}

// The log stands ready behind so many places where none does.
fn ready_last(alloc: Global, count: usize, first: Log) -> Result<Vec<Option<Log>>, Memory>
    ensures { IfOk result (λ v. v.items ≡ replicate count None ++ Some first ∷ []) }
{
    let mut next = Vec::new(alloc);
    for _turn in 0..count {
        next.push(None)?;
    }
    next.push(Some(first))?;
    Ok(next)
}

// Appends a log of a new name. For want of memory nothing changes.
fn append(relvars: &mut Relvars, declared: LogData, log: Log) -> Result<(), Memory>
    requires { IsDistinct bytes_eq (keys relvars.old.list ++ declared.name ∷ []) }
    ensures ok { OnOk result (relvars.new.list.entries ≡ relvars.old.list.entries ++ (declared.name, log_entry declared.of log) ∷ []) }
    ensures err { OnErr result (relvars.new.list.entries ≡ relvars.old.list.entries) }
    ensures ordinals { relvars.new.ordinals ≡ relvars.old.ordinals }
    ensures rules { relvars.new.rules ≡ relvars.old.rules }
    ensures accepted { relvars.new.accepted ≡ relvars.old.accepted }
{
    let LogData {
        name,
        of,
        attribute,
    } = declared;
    drop(attribute);
    drop(relvars.list.insert(name, Relvar::Log { of, log })?);
    Ok(())
}

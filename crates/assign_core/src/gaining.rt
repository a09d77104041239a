// Rows that a base relvar gains beside its log, which gains them in place too.
ghost use Rattle.std.specs.Prelude.{◌≡◌, ◌≤◌, ◌<◌, ◌<ℤ◌, ◌+ℤ◌, false, length, map, pos, None, IfSome};
ghost use Rattle.point_core.specs.Whole.{greatest_whole};
ghost use Rattle.value_core.specs.Limits.{most_rows_in_all};
ghost use Rattle.tree_core.specs.Relvars.{read_entry, read_relvar, read_relvars, State};
ghost use Rattle.meaning_core.specs.Logs.{AreInStep};
ghost use Rattle.relvar_logs.specs.Changes.{turned_at};
ghost use Rattle.stored_views.specs.Stored.{has_stored};
ghost use Rattle.assign_core.specs.Breaches.{rows_of_all};
ghost use Rattle.assign_core.specs.Databases.{IsKept};
ghost use Rattle.assign_core.specs.Gained.{less, IsGain, MayGain};
ghost use Rattle.assign_core.specs.Hashed.{AreHashed};
ghost use Rattle.assign_core.specs.Logs.{counted_if, is_brought, IsUnstored};
ghost use Rattle.assign_core.specs.NewRows.{joining, HasLogRoomIf, IsFoundIf, IsPaidFor, IsToldOf, StaysUnless, TakesNoneIf};

use crate::addition::no_rows;
use crate::beside::fits_beside;
use crate::hashed::{Hashed, no_hashes};
use crate::new_rows::{Coming, base_for, bring};
use change_rows::Exchange;
use point_core::Steps;
use relation_core::absent;
use relvar_logs::count_change;
use row_removal::remove;
use std::alloc::Global;
use std::sync::ledger::Ledger;
use tree_core::{Relvar, Relvars};
use value_core::{Name, Refuse, Relation};

/// Rows that the base relvar at a place gains: those that it does not have yet. None go.
#[derive(Drop)]
pub(crate) struct Gain {
    pub at: usize,
    pub rows: Exchange,
}

/// Adds rows to a base relvar where there are logs, and counts the statement. They are left where the relvar has several logs, and where
/// base relvars or logs might have too many rows with them.
pub(crate) fn bring_logged<L: Ledger>(
    alloc: Global,
    relvars: &mut Relvars,
    hashed: &mut Hashed,
    target: &Name,
    rows: Relation,
    steps: &mut Steps<L>,
) -> Result<bool, Refuse>
    requires kept { IsKept (read_relvars relvars.old) }
    requires unstored { has_stored (read_relvars relvars.old).relvars ≡ false }
    requires step { AreInStep (read_relvars relvars.old).accepted (read_relvars relvars.old).relvars }
    requires room { ((read_relvars relvars.old).accepted +ℤ pos 1) <ℤ greatest_whole }
    requires hashed { AreHashed hashed.old (read_relvars relvars.old).relvars }
    ensures brought { (mid : State) × IsToldOf (joining None) result (read_relvars relvars.old) mid target.now rows × (read_relvars relvars.new ≡ counted_if (is_brought result) mid) }
    ensures found { IsFoundIf result (read_relvars relvars.old) target.now rows.heading }
    ensures beside { HasLogRoomIf (joining None) result (read_relvars relvars.old) target.now rows }
    ensures stays { StaysUnless result (read_relvars relvars.old) (read_relvars relvars.new) }
    ensures none { TakesNoneIf result steps.old steps.new }
    ensures kept { IsKept (read_relvars relvars.new) }
    ensures step { AreInStep (read_relvars relvars.new).accepted (read_relvars relvars.new).relvars }
    ensures hashed { AreHashed hashed.new (read_relvars relvars.new).relvars }
    ensures unstored { IsUnstored (read_relvars relvars.old) (read_relvars relvars.new) }
    ensures cost { IsPaidFor (joining None) (read_relvars relvars.old) target.now rows steps.old steps.new }
{
    let Some((at, value)) = place_to_gain(relvars, target, &rows) else {
        drop(rows);
        return Ok(false);
    };
    let come = absent(alloc, &rows, value)?;
    let gone = no_rows(alloc, value)?;
    let gain = Gain {
        at,
        rows: Exchange { come, gone },
    };
    bring_gained(alloc, relvars, hashed, target, &gain, rows, steps)
}

// The place and the value of the base relvar of the name, if it may gain the rows: they fit in any case, each counted.
fn place_to_gain<'a>(
    relvars: &'a Relvars,
    target: &Name,
    rows: &Relation,
) -> Option<(usize, &'a Relation)>
    requires { rows_of_all (read_relvars relvars.now).relvars ≤ most_rows_in_all }
    ensures { IfSome result (λ r. MayGain (read_relvars relvars.now) target.now rows.now r.0 r.1.now) }
{
    let more = rows.rows().len();
    let found = base_for(relvars, target, Coming::Insert(None), rows)?;
    if !fits_beside(relvars, target, more) {
        return None;
    }
    Some(found)
}

// Adds the rows, of which those that are new stand ready. Where memory is wanting for the log, they are taken out again.
fn bring_gained<L: Ledger>(
    alloc: Global,
    relvars: &mut Relvars,
    hashed: &mut Hashed,
    target: &Name,
    gain: &Gain,
    rows: Relation,
    steps: &mut Steps<L>,
) -> Result<bool, Refuse>
    requires kept { IsKept (read_relvars relvars.old) }
    requires unstored { has_stored (read_relvars relvars.old).relvars ≡ false }
    requires step { AreInStep (read_relvars relvars.old).accepted (read_relvars relvars.old).relvars }
    requires room { ((read_relvars relvars.old).accepted +ℤ pos 1) <ℤ greatest_whole }
    requires hashed { AreHashed hashed.old (read_relvars relvars.old).relvars }
    requires gain { IsGain (read_relvars relvars.old) target.now rows gain.now }
    ensures brought { (mid : State) × IsToldOf (joining None) result (read_relvars relvars.old) mid target.now rows × (read_relvars relvars.new ≡ counted_if (is_brought result) mid) }
    ensures found { IsFoundIf result (read_relvars relvars.old) target.now rows.heading }
    ensures beside { HasLogRoomIf (joining None) result (read_relvars relvars.old) target.now rows }
    ensures stays { StaysUnless result (read_relvars relvars.old) (read_relvars relvars.new) }
    ensures none { TakesNoneIf result steps.old steps.new }
    ensures kept { IsKept (read_relvars relvars.new) }
    ensures step { AreInStep (read_relvars relvars.new).accepted (read_relvars relvars.new).relvars }
    ensures hashed { AreHashed hashed.new (read_relvars relvars.new).relvars }
    ensures unstored { IsUnstored (read_relvars relvars.old) (read_relvars relvars.new) }
    ensures cost { IsPaidFor (joining None) (read_relvars relvars.old) target.now rows steps.old steps.new }
{
    match bring(
        alloc,
        relvars,
        hashed,
        target,
        Coming::Insert(None),
        rows,
        steps,
    ) {
        Ok(true) => match count_change(alloc, relvars, target, &gain.rows.come, &gain.rows.gone) {
            Ok(()) => Ok(true),
            Err(_) => {
                *hashed = no_hashes(alloc);
                take_back(alloc, relvars, gain);
                Err(Refuse::Memory)
            }
        },
        Ok(false) => Ok(false),
        Err(refuse) => Err(refuse),
    }
}

// Takes the rows that a base relvar gained out of it again. It takes no memory.
fn take_back(alloc: Global, relvars: &mut Relvars, gain: &Gain)
    requires at { gain.now.at < length relvars.old.list.entries }
    ensures list { map read_entry relvars.new.list.entries ≡ turned_at gain.now.at (less gain.now.rows.come) (map read_entry relvars.old.list.entries) }
    ensures ordinals { relvars.new.ordinals ≡ relvars.old.ordinals }
    ensures rules { relvars.new.rules ≡ relvars.old.rules }
    ensures accepted { relvars.new.accepted ≡ relvars.old.accepted }
{
    let (_, relvar) = relvars.list.pair_mut(gain.at);
    take_from(alloc, relvar, &gain.rows.come);
}

// Takes rows out of a base relvar.
fn take_from(alloc: Global, relvar: &mut Relvar, come: &Relation)
    ensures { read_relvar relvar.new ≡ less come.now (read_relvar relvar.old) }
{
    match relvar {
        Relvar::Base {
            value,
            constraints: _,
        } => remove(value, alloc, come),
        Relvar::View { tree: _, kind: _ } => (),
        Relvar::Log { of: _, log: _ } => (),
    }
}

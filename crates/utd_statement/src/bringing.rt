// Statements that bring rows, performed straight from their bytes.
ghost use Rattle.std.specs.Prelude.{◌≡◌, ◌<ℤ◌, ◌+ℤ◌, pos};
ghost use Rattle.point_core.specs.declared.fault.Place.{Place};
ghost use Rattle.point_core.specs.Whole.{greatest_whole};
ghost use Rattle.tree_core.specs.Relvars.{read_relvars, State};
ghost use Rattle.assign_core.specs.Logs.{counted_if, is_brought};
ghost use Rattle.assign_core.specs.NewRows.{HasRoomIf, IsFoundIf, IsListFor, IsPaidFor, IsToldOf, StaysUnless, TakesNoneIf};
ghost use Rattle.constant_effects.specs.Ways.{arriving_of};
ghost use Rattle.plain_rows.specs.Brought.{bringing_of};
ghost use Rattle.utd_statement.specs.Bringing.{IsToldBy, IsTried};

use assign_core::Database;
use plain_rows::{PlainRows, Way, read};
use point_core::Steps;
use std::alloc::Global;
use std::sync::ledger::Ledger;
use value_core::{Name, Refuse, Relation};

// What is written of rows that the database took, or why it refused them; none where it left them.
fn told(alloc: Global, done: Result<bool, Refuse>) -> Option<Result<Vec<u8>, Refuse>>
    ensures { IsToldBy done result }
{
    match done {
        Ok(true) => Some(Ok(Vec::new(alloc))),
        Ok(false) => None,
        Err(refuse) => Some(Err(refuse)),
    }
}

// Brings the rows to the base relvar of the name, in the way that the statement says.
fn put<L: Ledger>(
    database: &mut Database,
    way: &Way,
    relvar: &Name,
    rows: Relation,
    steps: &mut Steps<L>,
) -> Result<bool, Refuse>
    requires list { IsListFor rows.heading (arriving_of (bringing_of way.now)) }
    requires room { ((read_relvars database.old).accepted +ℤ pos 1) <ℤ greatest_whole }
    ensures brought { (mid : State) × IsToldOf (arriving_of (bringing_of way.now)) result (read_relvars database.old) mid relvar.now rows × (read_relvars database.new ≡ counted_if (is_brought result) mid) }
    ensures beside { HasRoomIf (arriving_of (bringing_of way.now)) result (read_relvars database.old) relvar.now rows }
    ensures found { IsFoundIf result (read_relvars database.old) relvar.now rows.heading }
    ensures stays { StaysUnless result (read_relvars database.old) (read_relvars database.new) }
    ensures none { TakesNoneIf result steps.old steps.new }
    ensures cost { IsPaidFor (arriving_of (bringing_of way.now)) (read_relvars database.old) relvar.now rows steps.old steps.new }
{
    match way {
        Way::Set => database.set_rows(relvar, rows, steps),
        Way::Insert => database.insert_rows(relvar, None, rows, steps),
        Way::InsertUnder(commalist) => {
            database.insert_rows(relvar, Some(commalist), rows, steps)
        }
    }
}

/// What a statement writes that brings rows, or why it is refused: performed straight from its bytes, with no tree.
///
/// It is left, and changes nothing, where its bytes are none of these, where its relvar is none with the rows' heading, and where there is a
/// stored view. It is left too where the relvar might have too many rows, and where they come under a list of several attributes. Where there
/// is a log, it is left unless it simply adds rows, where the relvar has several logs, and where base relvars or logs might have too many rows.
pub(crate) fn bring<L: Ledger>(
    alloc: Global,
    text: &[u8],
    database: &mut Database,
    steps: &mut Steps<L>,
) -> Option<Result<Vec<u8>, Refuse>>
    requires { ((read_relvars database.old).accepted +ℤ pos 1) <ℤ greatest_whole }
    ensures { (start : Place) → IsTried start text.now result (read_relvars database.old) (read_relvars database.new) steps.old steps.new }
{
    let Some(plain) = read(alloc, text, &database.relvars().ordinals) else {
        return None;
    };
    let PlainRows { way, relvar, rows } = plain;
    let done = put(database, &way, &relvar, rows, steps);
    told(alloc, done)
}

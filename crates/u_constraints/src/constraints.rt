// Constraints of a relvar.
ghost use Rattle.std.specs.Prelude.{◌≡◌, ◌≤◌, ◌+◌, IfOk, option_map};
ghost use Rattle.std.specs.Result.{result_err};
ghost use Rattle.meaning_core.specs.Typing.{IsList};
ghost use Rattle.meaning_core.specs.WellMade.{AreAlike, AreAmong, AreDifferent, FitsHeadings};
ghost use Rattle.value_core.specs.Values.{Name};
ghost use Rattle.value_core.specs.declared.constraint.Constraint.TheVariants.{Foreign};
ghost use Rattle.u_constraints.specs.Constraints.{broken, heading_or_none, is_referenced as are_referenced, rows_or_none, IsNamed};
ghost use Rattle.u_constraints.specs.Costs.{constraint_cost};

use crate::histories::keeps_history;
use crate::keys::{is_key, is_referenced};
use crate::lines::unless;
use crate::packed::is_packed;
use crate::references::is_referenced_unpacked;
use crate::unpacked::{is_unpacked_key, used_key};
use point_core::{Code, Memory, Steps};
use std::alloc::Global;
use std::sync::ledger::Ledger;
use value_core::{Constraint, Relation};

/// Whether the constraint of the relvar `of` holds; if not, the code of the first of its lines that is broken. `other` is the
/// relvar that the constraint names, if it names one.
pub fn holds<L: Ledger>(
    alloc: Global,
    c: &Constraint,
    of: &Relation,
    other: Option<&Relation>,
    steps: &mut Steps<L>,
) -> Result<Result<(), Code>, Memory>
    requires fits { FitsHeadings of.now.heading (heading_or_none (option_map (λ r. r.now) other)) c.now }
    requires named { IsNamed c.now (option_map (λ r. r.now) other) }
    ensures answer { IfOk result (λ answer. result_err answer ≡ broken c.now of.now.rows (rows_or_none (option_map (λ r. r.now) other.entry))) }
    ensures cost { steps.new ≤ steps.old + constraint_cost c.now of.now.rows (rows_or_none (option_map (λ r. r.now) other.entry)) }
{
    match (c, other) {
        (Constraint::Key(key), _) => {
            let kept = is_key(alloc, of, key.list.as_slice())?;
            Ok(unless(kept, Code::E40))
        }
        (Constraint::Packed(commalist), _) => {
            let kept = is_packed(alloc, of, commalist.list.as_slice(), steps)?;
            Ok(unless(kept, Code::E41))
        }
        (Constraint::WhenUnpacked(commalist, key), _) => {
            let (commalist, key) = (commalist.list.as_slice(), key.list.as_slice());
            let kept = is_unpacked_key(alloc, of, commalist, key, steps)?;
            Ok(unless(kept, Code::E42))
        }
        (Constraint::UKey(commalist, key), _) => {
            used_key(
                alloc,
                of,
                commalist.list.as_slice(),
                key.list.as_slice(),
                steps,
            )
        }
        (Constraint::Foreign(commalist, here, _, there), Some(other)) => {
            let (commalist, here, there) = (
                commalist.list.as_slice(),
                here.list.as_slice(),
                there.list.as_slice(),
            );
            let kept = refers(alloc, commalist, of, here, other, there, steps)?;
            Ok(unless(kept, Code::E43))
        }
        (Constraint::History(rule), Some(other)) => {
            let kept = keeps_history(alloc, rule, of, other)?;
            Ok(unless(kept, Code::E44))
        }
        (Constraint::Foreign(..), None) => unreachable!(),
        (Constraint::History(_), None) => unreachable!(),
    }
}

/// Whether the values here of each of the unpacked rows are the values there of one of the other's rows, unpacked alike. Where nothing is
/// unpacked it takes no step.
pub(crate) fn refers<L: Ledger>(
    alloc: Global,
    commalist: &[usize],
    of: &Relation,
    here: &[usize],
    other: &Relation,
    there: &[usize],
    steps: &mut Steps<L>,
) -> Result<bool, Memory>
    requires list { IsList of.now.heading commalist.now }
    requires here { AreDifferent of.now.heading here.now }
    requires lies { AreAmong here.now commalist.now }
    requires there { AreDifferent other.now.heading there.now }
    requires alike { AreAlike of.now.heading here.now other.now.heading there.now }
    ensures answer { IfOk result (λ kept. kept ≡ are_referenced commalist.now here.now there.now of.now.rows other.now.rows) }
    ensures cost { (name : Name) → steps.new ≤ steps.old + constraint_cost (Foreign commalist.now here.now name there.now) of.now.rows other.now.rows }
{
    if commalist.is_empty() {
        return is_referenced(alloc, of, here, other, there);
    }
    is_referenced_unpacked(alloc, commalist, of, here, other, there, steps)
}

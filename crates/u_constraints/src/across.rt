// Constraints of a relvar where rows have come to the one that it names, and others have gone from it.
ghost use Rattle.std.specs.Prelude.{◌≡◌, ◌<◌, ◌≤◌, ◌+◌, ℕ, true, None, Some, length, map, IfOk};
ghost use Rattle.std.specs.List.{All};
ghost use Rattle.std.specs.List.Sorted.{IsStrictlySortedBy};
ghost use Rattle.std.specs.Result.{result_err};
ghost use Rattle.meaning_core.specs.Typing.{IsList};
ghost use Rattle.meaning_core.specs.WellMade.{AreAlike, AreAmong, AreDifferent, FitsHeadings};
ghost use Rattle.value_core.specs.Values.{most_rows, row_cmp, Name};
ghost use Rattle.value_core.specs.declared.constraint.Constraint.TheVariants.{Foreign};
ghost use Rattle.relation_core.specs.Operators.{united};
ghost use Rattle.u_constraints.specs.Constraints.{broken, is_referenced, IsNamed};
ghost use Rattle.u_constraints.specs.Costs.{constraint_cost};
ghost use Rattle.u_constraints.specs.Growth.{exchanged};
ghost use Rattle.u_constraints.specs.Near.{with_keys};

use crate::constraints::{holds, refers};
use crate::growth::{Change, holds_beside, joined, left_of, rest};
use crate::lines::unless;
use crate::near::rows_with_keys;
use crate::references::rest_of_key;
use point_core::{Code, Memory, Steps};
use relation_core::sorted_parts;
use std::alloc::Global;
use std::sync::ledger::Ledger;
use value_core::{Constraint, Relation, Row};

/// A foreign key: what is unpacked, the key, and the positions that it refers to.
#[derive(Clone, Copy)]
struct Reference<'a> {
    commalist: &'a [usize],
    here: &'a [usize],
    there: &'a [usize],
}

/// The rows with the keys after the change, and all that come and stay. No other row is copied.
fn left_near(
    alloc: Global,
    change: Change<'_>,
    positions: &[usize],
    keys: &[Row],
) -> Result<Relation, Memory>
    requires heading { change.come.now.heading ≡ change.of.now.heading }
    requires gone { change.gone.now.heading ≡ change.of.now.heading }
    requires few { length (united change.of.now.rows change.come.now.rows) ≤ most_rows }
    requires within { All (λ (i : ℕ). i < length change.of.now.heading) positions.now }
    requires sorted { IsStrictlySortedBy row_cmp keys.now }
    requires long { All (λ k. length k ≡ length positions.now) keys.now }
    ensures { IfOk result (λ r. (r.heading ≡ change.entry.of.now.heading)
        × (r.rows ≡ exchanged (with_keys positions.now keys.now change.entry.of.now.rows) change.entry.gone.now.rows change.entry.come.now.rows)) }
{
    let old = rows_with_keys(alloc, change.of, positions, keys)?;
    let all = joined(alloc, &old, change.come)?;
    left_of(alloc, all, change.gone)
}

/// Whether the foreign key, which holds, holds still after the change of the relvar that it names. Only rows with the key of a row that
/// goes can have lost what they refer to, and they refer to rows with their key alone.
fn refers_across<L: Ledger>(
    alloc: Global,
    reference: Reference<'_>,
    of: &Relation,
    change: Change<'_>,
    steps: &mut Steps<L>,
) -> Result<bool, Memory>
    requires heading { change.come.now.heading ≡ change.of.now.heading }
    requires gone { change.gone.now.heading ≡ change.of.now.heading }
    requires few { length (united change.of.now.rows change.come.now.rows) ≤ most_rows }
    requires list { IsList of.now.heading reference.commalist.now }
    requires here { AreDifferent of.now.heading reference.here.now }
    requires lies { AreAmong reference.here.now reference.commalist.now }
    requires there { AreDifferent change.of.now.heading reference.there.now }
    requires alike { AreAlike of.now.heading reference.here.now change.of.now.heading reference.there.now }
    requires held { is_referenced reference.commalist.now reference.here.now reference.there.now of.now.rows change.of.now.rows ≡ true }
    ensures answer { IfOk result (λ kept. kept ≡ is_referenced reference.entry.commalist.now reference.entry.here.now reference.entry.there.now of.now.rows (exchanged change.entry.of.now.rows change.entry.gone.now.rows change.entry.come.now.rows)) }
    ensures cost { (name : Name) → steps.new ≤ steps.old + constraint_cost (Foreign reference.entry.commalist.now reference.entry.here.now name reference.entry.there.now) of.now.rows (exchanged change.entry.of.now.rows change.entry.gone.now.rows change.entry.come.now.rows) }
{
    let rest = rest_of_key(alloc, reference.commalist, reference.here, reference.there)?;
    let keys = sorted_parts(alloc, change.gone, rest.theirs.as_slice())?;
    let asked = rows_with_keys(alloc, of, rest.own.as_slice(), keys.as_slice())?;
    let others = left_near(alloc, change, rest.theirs.as_slice(), keys.as_slice())?;
    refers(
        alloc,
        reference.commalist,
        &asked,
        reference.here,
        &others,
        reference.there,
        steps,
    )
}

/// Whether the constraint of `of`, which holds, holds still after the change of the relvar that it names; if not, its code. A history can
/// only be broken by rows that come, and a foreign key for rows with the key of a row that goes.
pub fn holds_across<L: Ledger>(
    alloc: Global,
    c: &Constraint,
    of: &Relation,
    change: Change<'_>,
    steps: &mut Steps<L>,
) -> Result<Result<(), Code>, Memory>
    requires heading { change.come.now.heading ≡ change.of.now.heading }
    requires gone { change.gone.now.heading ≡ change.of.now.heading }
    requires few { length (united change.of.now.rows change.come.now.rows) ≤ most_rows }
    requires fits { FitsHeadings of.now.heading change.of.now.heading c.now }
    requires named { IsNamed c.now (Some change.of.now) }
    requires held { broken c.now of.now.rows change.of.now.rows ≡ None }
    ensures answer { IfOk result (λ answer. result_err answer ≡ broken c.now of.now.rows (exchanged change.entry.of.now.rows change.entry.gone.now.rows change.entry.come.now.rows)) }
    ensures cost { steps.new ≤ steps.old + constraint_cost c.now of.now.rows (exchanged change.entry.of.now.rows change.entry.gone.now.rows change.entry.come.now.rows) }
{
    if change.gone.rows().is_empty() {
        return holds_beside(alloc, c, of, change.of, change.come, steps);
    }
    match c {
        Constraint::Foreign(commalist, here, _, there) => {
            let reference = Reference {
                commalist: commalist.list.as_slice(),
                here: here.list.as_slice(),
                there: there.list.as_slice(),
            };
            let kept = refers_across(alloc, reference, of, change, steps)?;
            Ok(unless(kept, Code::E43))
        }
        Constraint::History(_) => {
            // A relation has few enough rows.
            let _come = change.come.rows();
            let left = rest(alloc, change.come, change.gone)?;
            holds(alloc, c, of, Some(&left), steps)
        }
        Constraint::Key(_)
        | Constraint::Packed(_)
        | Constraint::WhenUnpacked(_, _)
        | Constraint::UKey(_, _) => Ok(Ok(())),
    }
}

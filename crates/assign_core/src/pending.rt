// New values of base relvars that are not checked yet.
ghost use Rattle.std.specs.Prelude.{◌≡◌, IfOk};
ghost use Rattle.tree_core.specs.Relvars.{read_relvars};
ghost use Rattle.relvar_logs.specs.Changes.{AreChanges, changed};
ghost use Rattle.assign_core.specs.Assignments.{with_target};
ghost use Rattle.assign_core.specs.Databases.{IsKept};
ghost use Rattle.assign_core.specs.Targets.{entries_before, IsTarget};

use crate::changes::none_yet;
use crate::target::Target;
use crate::turnover::Known;
use change_rows::Exchange;
use point_core::Memory;
use std::alloc::Global;
use value_core::Relation;

/// New values of base relvars that are not checked yet.
#[derive(Drop)]
pub(crate) enum Pending<'a> {
    /// Rows of one base relvar that come and go, and what is known of them.
    Rows(Target<'a>, Exchange, Known<'a>),
    /// New values, one place for each entry.
    Values(Vec<Option<Relation>>),
}

/// The value that the target gets, and no other new value.
pub(crate) fn alone(
    alloc: Global,
    target: Target<'_>,
    value: Relation,
) -> Result<Vec<Option<Relation>>, Memory>
    requires kept { IsKept (read_relvars target.relvars.now) }
    requires target { IsTarget target }
    requires headed { value.heading ≡ target.value.now.heading }
    ensures changes { IfOk result (λ v. AreChanges v.items (entries_before target.entry)) }
    ensures made { IfOk result (λ v. changed v.items (entries_before target.entry) ≡ with_target (entries_before target.entry) target.entry.name.now value) }
{
    let mut changes = none_yet(alloc, target.relvars)?;
    changes[target.at] = Some(value);
    Ok(changes)
}

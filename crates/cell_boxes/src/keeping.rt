// The flags of the rows of a side, kept from cell to cell.
ghost use Rattle.std.specs.Prelude.{◌≡◌, ℕ, ◌+◌, ◌<◌, ◌≤◌, length, IfOk};
ghost use Rattle.std.specs.List.{All};
ghost use Rattle.cell_boxes.specs.Tallies.{span_at, AreEntered, AreLeft, AreBy, IsKept};

use crate::tally::{Tally, enter_at, leave_at};
use point_core::Memory;

// Flags the rows that begin by the cell, from the start `next` on, where they do not end by it; and how many have begun.
fn enter_all<T: Tally>(
    rule: &T,
    state: T::State,
    flags: &mut Vec<bool>,
    spans: &[(usize, usize)],
    starts: &[(usize, usize)],
    next: usize,
    cell: usize,
) -> Result<(usize, T::State), Memory>
    requires of { T.IsOf rule.now state flags.now.items }
    requires flags { length spans.now ≤ length flags.now.items }
    requires starts { All (λ x. x.1 < length spans.now) starts.now }
    requires next { next ≤ length starts.now }
    ensures of { IfOk result (λ v. T.IsOf rule.now v.1 flags.new.items) }
    ensures flags { IfOk result (λ v. AreEntered spans.now starts.now next v.0 cell flags.old.items flags.new.items) }
{
    let mut kept = state;
    let mut i = next;
    while i < starts.len() && starts[i].0 <= cell {
        kept = enter_at(rule, kept, flags, spans, starts[i].1, cell)?;
        i += 1;
    }
    Ok((i, kept))
}

// Flags the rows no more that end by the cell, from the end `next` on; and how many have ended.
fn leave_all<T: Tally>(
    rule: &T,
    state: T::State,
    flags: &mut Vec<bool>,
    spans: &[(usize, usize)],
    ends: &[(usize, usize)],
    next: usize,
    cell: usize,
) -> Result<(usize, T::State), Memory>
    requires of { T.IsOf rule.now state flags.now.items }
    requires flags { length spans.now ≤ length flags.now.items }
    requires ends { All (λ x. x.1 < length spans.now) ends.now }
    requires next { next ≤ length ends.now }
    ensures of { IfOk result (λ v. T.IsOf rule.now v.1 flags.new.items) }
    ensures flags { IfOk result (λ v. AreLeft spans.now ends.now next v.0 cell flags.old.items flags.new.items) }
{
    let mut kept = state;
    let mut i = next;
    while i < ends.len() && ends[i].0 <= cell {
        kept = leave_at(rule, kept, flags, spans, ends[i].1, cell)?;
        i += 1;
    }
    Ok((i, kept))
}

// Comes to the cell: the rows that have it are marked, and no others.
pub fn come<T: Tally>(
    rule: &T,
    state: T::State,
    flags: &mut Vec<bool>,
    spans: &[(usize, usize)],
    starts: &[(usize, usize)],
    ends: &[(usize, usize)],
    at: (usize, usize),
    cell: usize,
) -> Result<((usize, usize), T::State), Memory>
    requires of { T.IsOf rule.now state flags.now.items }
    requires flags { length spans.now ≤ length flags.now.items }
    requires starts { All (λ x. x.1 < length spans.now) starts.now }
    requires ends { All (λ x. x.1 < length spans.now) ends.now }
    requires at { (at.0 ≤ length starts.now) × (at.1 ≤ length ends.now) }
    ensures of { IfOk result (λ v. T.IsOf rule.now v.1 flags.new.items) }
    ensures count { IfOk result (λ v. length flags.new.items ≡ length flags.old.items) }
    ensures kept { IfOk result (λ v. (rows : ℕ × ℕ) (n : ℕ) → AreBy (λ r. (span_at spans.now r).0) rows starts.now → AreBy (λ r. (span_at spans.now r).1) rows ends.now → n ≤ cell + 1 →
        IsKept spans.now rows starts.now ends.now n at.0 at.1 flags.old.items → IsKept spans.now rows starts.now ends.now (cell + 1) v.0.0 v.0.1 flags.new.items) }
{
    let (s, begun) = enter_all(rule, state, flags, spans, starts, at.0, cell)?;
    let (e, kept) = leave_all(rule, begun, flags, spans, ends, at.1, cell)?;
    Ok(((s, e), kept))
}

// What is kept of the rows that are in, from cell to cell.
ghost use Rattle.std.specs.Prelude.{◌≡◌, ℕ, ◌<◌, List, Bool, true, false, length, get_or, set, IfOk, Option, None, Result, Ok, Err};
ghost use Rattle.point_core.specs.declared.fault.Fault.{Fault as AnyFault};
ghost use Rattle.cell_boxes.specs.Tallies.{IsIn, IsEntered, IsLeft};

use point_core::{Label, Memory, Stop};
use std::alloc::Global;

/// What is kept of rows, and the label that it gives of a key and of them. A set of rows is a flag for each row.
pub trait Tally {
    type Key: Label;

    type State: Drop;

    type Out: Label;

    /// It has what it needs of so many rows.
    ghost Takes: { Self → ℕ → Type 0 };

    /// The state is of just the marked rows.
    ghost IsOf: { Self → Self.State → List Bool → Type 0 };

    /// The label of the key and the marked rows, if there is one, or a fault.
    ghost means: { Self → Self.Key → List Bool → Result (Option Self.Out) AnyFault };

    /// The state of none of so many rows.
    fn start(&self, alloc: Global, rows: usize) -> Result<Self::State, Memory>
        requires { Takes self.now rows }
        ensures { IfOk result (λ s. (f : List Bool) → length f ≡ rows → ((r : ℕ) → IsIn f r → ⊥) → IsOf self.now s f) };

    /// One row more.
    fn enter(&self, state: Self::State, row: usize) -> Result<Self::State, Memory>
        requires { (f : List Bool) × IsOf self.now state f × (row < length f) × (get_or f row true ≡ false) }
        ensures { IfOk result (λ s. (f : List Bool) → IsOf self.now state f → row < length f → get_or f row true ≡ false → IsOf self.now s (set f row true)) };

    /// One row less.
    fn leave(&self, state: Self::State, row: usize) -> Result<Self::State, Memory>
        requires { (f : List Bool) × IsOf self.now state f × (row < length f) × (get_or f row false ≡ true) }
        ensures { IfOk result (λ s. (f : List Bool) → IsOf self.now state f → row < length f → get_or f row false ≡ true → IsOf self.now s (set f row false)) };

    /// The label of the key and of the rows that the state is of.
    fn label(
        &self,
        alloc: Global,
        key: &Self::Key,
        state: &Self::State,
    ) -> Result<Option<Self::Out>, Stop>
        requires { (f : List Bool) × IsOf self.now state.now f }
        ensures answer { IfOk result (λ l. (f : List Bool) → IsOf self.now state.now f → means self.now key.now f ≡ Ok l) }
        ensures fault { (e : AnyFault) → result ≡ Err (Stop.Fault e) → (f : List Bool) → IsOf self.now state.now f → means self.now key.now f ≡ Err e };

    /// Where no row is marked there is neither.
    ghost nothing: { (rule : Self) (key : Self.Key) (f : List Bool) → ((r : ℕ) → IsIn f r → ⊥) → means rule key f ≡ Ok None };
}

// Flags the row, if its cells do not end by the cell.
pub fn enter_at<T: Tally>(
    rule: &T,
    state: T::State,
    flags: &mut Vec<bool>,
    spans: &[(usize, usize)],
    row: usize,
    cell: usize,
) -> Result<T::State, Memory>
    requires of { T.IsOf rule.now state flags.now.items }
    requires flags { row < length flags.now.items }
    requires spans { row < length spans.now }
    ensures of { IfOk result (λ s. T.IsOf rule.now s flags.new.items) }
    ensures flags { IfOk result (λ _. IsEntered spans.now cell row flags.old.items flags.new.items) }
{
    if flags[row] || spans[row].1 <= cell {
        return Ok(state);
    }
    let next = rule.enter(state, row)?;
    flags[row] = true;
    Ok(next)
}

// Flags the row no more, if its cells end by the cell.
pub fn leave_at<T: Tally>(
    rule: &T,
    state: T::State,
    flags: &mut Vec<bool>,
    spans: &[(usize, usize)],
    row: usize,
    cell: usize,
) -> Result<T::State, Memory>
    requires of { T.IsOf rule.now state flags.now.items }
    requires flags { row < length flags.now.items }
    requires spans { row < length spans.now }
    ensures of { IfOk result (λ s. T.IsOf rule.now s flags.new.items) }
    ensures flags { IfOk result (λ _. IsLeft spans.now cell row flags.old.items flags.new.items) }
{
    if !flags[row] || cell < spans[row].1 {
        return Ok(state);
    }
    let next = rule.leave(state, row)?;
    flags[row] = false;
    Ok(next)
}

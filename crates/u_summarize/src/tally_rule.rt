// A rule that is applied to groups of rows by a state that is kept of them.
ghost use Rattle.std.specs.Prelude.{◌≡◌, ◌≢◌, ℕ, ◌<◌, Bool, true, false, List, [], length, get_or, set, Result, Ok, Err, IfOk};
ghost use Rattle.point_core.specs.declared.fault.Fault.{Fault as AnyFault};
ghost use Rattle.value_core.specs.Values.{Row as PlainRow};
ghost use Rattle.cell_boxes.specs.Tallies.{IsIn};
ghost use Rattle.u_summarize.specs.Picked.{ArePicked};

use point_core::{Memory, Stop};
use std::alloc::Global;
use value_core::Row;

/// A function of a nonempty list of ascending row numbers, by what is kept of rows that stand for their labels. A set of
/// rows is a flag for each row.
pub trait GroupTally {
    type State: Drop;

    /// It has what it needs of so many rows.
    ghost Takes: { Self → ℕ → Type 0 };

    /// It can be applied to groups of rows with these labels by their values at these positions.
    ghost Fits: { Self → List ℕ → List PlainRow → Type 0 };

    /// The state is of just the marked rows.
    ghost IsOf: { Self → Self.State → List Bool → Type 0 };

    /// What it gives for the rows of a group: the whole new label, or a fault.
    ghost means: { Self → List ℕ → Result PlainRow AnyFault };

    /// The same of the values at the positions and the marked rows.
    ghost given: { Self → PlainRow → List Bool → Result PlainRow AnyFault };

    /// The state of none of so many rows.
    fn start(&self, alloc: Global, rows: usize) -> Result<Self::State, Memory>
        requires { Takes self.now rows }
        ensures { IfOk result (λ s. (f : List Bool) → length f ≡ rows → ((r : ℕ) → IsIn f r → ⊥) → IsOf self.now s f) };

    /// One row more.
    fn enter(&self, state: Self::State, row: usize) -> Result<Self::State, Memory>
        requires { (f : List Bool) × IsOf self.now state f × (row < length f) × (get_or f row true ≡ false) }
        ensures { IfOk result (λ s. (f : List Bool) → IsOf self.now state f → row < length f → get_or f row true ≡ false → IsOf self.now s (set f row true)) };

    /// One row less.
    fn leave(&self, state: Self::State, row: usize) -> Result<Self::State, Memory>
        requires { (f : List Bool) × IsOf self.now state f × (row < length f) × (get_or f row false ≡ true) }
        ensures { IfOk result (λ s. (f : List Bool) → IsOf self.now state f → row < length f → get_or f row false ≡ true → IsOf self.now s (set f row false)) };

    /// The label of the values at the positions and of the rows that the state is of.
    fn label(&self, alloc: Global, key: &Row, state: &Self::State) -> Result<Row, Stop>
        requires { (f : List Bool) × IsOf self.now state.now f }
        ensures answer { IfOk result (λ l. (f : List Bool) → IsOf self.now state.now f → given self.now key.now f ≡ Ok l) }
        ensures fault { (e : AnyFault) → result ≡ Err (Stop.Fault e) → (f : List Bool) → IsOf self.now state.now f → given self.now key.now f ≡ Err e };

    /// Both are the same of the rows of a group and of flags of their labels.
    ghost agrees: { (rule : Self) (by : List ℕ) (labels : List PlainRow) (key : PlainRow) (a : List ℕ) (f : List Bool) → Fits rule by labels → a ≢ [] → ArePicked by labels key a f → means rule a ≡ given rule key f };
}

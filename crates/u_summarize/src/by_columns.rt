// A rule by the figures of columns of values.
ghost use Rattle.std.specs.Prelude.{◌≡◌, ◌≢◌, ℕ, Bool, List, [], length, Result, Ok, Err, IfOk};
ghost use Rattle.std.specs.List.{All};
ghost use Rattle.point_core.specs.declared.fault.Fault.{Fault as AnyFault};
ghost use Rattle.value_core.specs.Values.{Row as PlainRow};
ghost use Rattle.u_summarize.specs.Figures.{PlainColumn, figures_of};
ghost use Rattle.u_summarize.specs.declared.values.Figure.{Figure as PlainFigure};
ghost use Rattle.u_summarize.specs.Picked.{ArePicked};

use crate::figures::{enter_all, leave_all, read_all, start_all};
use crate::keeping::Kept;
use crate::tally_rule::GroupTally;
use crate::values::{Column, Figure};
use point_core::{Memory, Stop};
use std::alloc::Global;
use value_core::Row;

/// What the values at positions and the figures of columns give of a group of rows.
pub trait FigureRule {
    /// It can be applied to groups of rows with these columns and these labels, by their values at these positions.
    ghost Fits: { Self → List PlainColumn → List ℕ → List PlainRow → Type 0 };

    /// What it gives for the rows of a group: the whole new label, or a fault.
    ghost means: { Self → List ℕ → Result PlainRow AnyFault };

    /// The same of the values at the positions and the figures.
    ghost given: { Self → PlainRow → List PlainFigure → Result PlainRow AnyFault };

    fn label(&self, alloc: Global, key: &Row, figures: &[Figure]) -> Result<Row, Stop>
        ensures answer { IfOk result (λ l. given self.now key.now figures.now ≡ Ok l) }
        ensures fault { (e : AnyFault) → result ≡ Err (Stop.Fault e) → given self.now key.now figures.now ≡ Err e };

    /// Both are the same of the rows of a group and of the figures of marked rows that stand for their labels.
    ghost agrees: { (rule : Self) (columns : List PlainColumn) (by : List ℕ) (labels : List PlainRow) (key : PlainRow) (a : List ℕ) (f : List Bool)
        → Fits rule columns by labels → All (λ (c : PlainColumn). length c.2 ≡ length labels) columns → a ≢ [] → ArePicked by labels key a f → means rule a ≡ given rule key (figures_of columns f) };
}

/// Columns, and what a rule gives of their figures.
#[derive(Drop)]
pub struct Columns<R> {
    pub columns: Vec<Column>,
    pub rule: R,
}

impl<R: FigureRule> GroupTally for Columns<R> {
    ghost use Rattle.std.specs.Prelude.{◌≡◌, ℕ, length};
    ghost use Rattle.std.specs.List.{All};
    ghost use Rattle.u_summarize.specs.Figures.{PlainColumn, AreKept, figures_of};

    type State = Vec<Kept>;

    ghost Takes = { λ t n. All (λ (c : PlainColumn). length c.2 ≡ n) t.columns.items };

    ghost Fits = { λ t by labels. R.Fits t.rule t.columns.items by labels × All (λ (c : PlainColumn). length c.2 ≡ length labels) t.columns.items };

    ghost IsOf = { λ t s f. AreKept t.columns.items s.items f };

    ghost means = { λ t a. R.means t.rule a };

    ghost given = { λ t k f. R.given t.rule k (figures_of t.columns.items f) };

    fn start(&self, alloc: Global, _rows: usize) -> Result<Vec<Kept>, Memory> {
        let kept = start_all(alloc, self.columns.as_slice())?;
        Ok(kept)
    }

    fn enter(&self, state: Vec<Kept>, row: usize) -> Result<Vec<Kept>, Memory> {
        let mut kept = state;
        enter_all(&mut kept, self.columns.as_slice(), row)?;
        Ok(kept)
    }

    fn leave(&self, state: Vec<Kept>, row: usize) -> Result<Vec<Kept>, Memory> {
        let mut kept = state;
        leave_all(&mut kept, self.columns.as_slice(), row);
        Ok(kept)
    }

    fn label(&self, alloc: Global, key: &Row, state: &Vec<Kept>) -> Result<Row, Stop> {
        let figures = read_all(alloc, state.as_slice(), self.columns.as_slice())?;
        self.rule.label(alloc, key, figures.as_slice())
    }

    ghost agrees = { λ t by labels key a f fits n p. R.agrees t.rule t.columns.items by labels key a f fits.0 fits.1 n p };
}

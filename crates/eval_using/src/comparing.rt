// Comparisons of relations under USING.
ghost use Rattle.std.specs.Prelude.{◌≡◌, ◌&&◌, ◌≤◌, ◌+◌, length, not, IfOk};
ghost use Rattle.base_core.specs.Sets.{is_within};
ghost use Rattle.value_core.specs.RowPacking.{unpacked};
ghost use Rattle.value_core.specs.Values.{row_cmp, same_rows};
ghost use Rattle.cell_core.specs.Costs.{bound};
ghost use Rattle.meaning_core.specs.Truths.{related_rows};
ghost use Rattle.meaning_core.specs.Typing.{IsList};

use point_core::{Memory, Steps};
use std::alloc::Global;
use std::sync::ledger::Ledger;
use tree_core::RelateWord;
use u_set::{are_same, is_properly_within, is_within};
use value_core::Relation;

/// Whether two relations of one heading, unpacked on the attributes at the positions, stand as the word says.
pub fn compared<L: Ledger>(
    alloc: Global,
    word: RelateWord,
    commalist: &[usize],
    left: &Relation,
    right: &Relation,
    steps: &mut Steps<L>,
) -> Result<bool, Memory>
    requires heading { left.now.heading ≡ right.now.heading }
    requires list { IsList left.now.heading commalist.now }
    ensures answer { IfOk result (λ b. b ≡ related_rows word (unpacked commalist.now left.now.rows) (unpacked commalist.now right.now.rows)) }
    ensures cost { steps.new ≤ steps.old + bound (length left.now.rows + length right.now.rows) (length commalist.now) }
{
    match word {
        RelateWord::Equal => equal(alloc, commalist, left, right, steps),
        RelateWord::NotEqual => {
            let same = equal(alloc, commalist, left, right, steps)?;
            Ok(!same)
        }
        RelateWord::Less => properly_within(alloc, commalist, left, right, steps),
        RelateWord::LessEqual => within(alloc, commalist, left, right, steps),
        RelateWord::Greater => properly_holds(alloc, commalist, left, right, steps),
        RelateWord::GreaterEqual => within(alloc, commalist, right, left, steps),
    }
}

// Whether the relations, unpacked, are equal.
fn equal<L: Ledger>(
    alloc: Global,
    commalist: &[usize],
    left: &Relation,
    right: &Relation,
    steps: &mut Steps<L>,
) -> Result<bool, Memory>
    requires heading { left.now.heading ≡ right.now.heading }
    requires list { IsList left.now.heading commalist.now }
    ensures answer { IfOk result (λ b. b ≡ same_rows (unpacked commalist.now left.now.rows) (unpacked commalist.now right.now.rows)) }
    ensures cost { steps.new ≤ steps.old + bound (length left.now.rows + length right.now.rows) (length commalist.now) }
{
    are_same(alloc, left, right, commalist, steps)
}

// Whether the left relation, unpacked, is a subset of the right one.
fn within<L: Ledger>(
    alloc: Global,
    commalist: &[usize],
    left: &Relation,
    right: &Relation,
    steps: &mut Steps<L>,
) -> Result<bool, Memory>
    requires heading { left.now.heading ≡ right.now.heading }
    requires list { IsList left.now.heading commalist.now }
    ensures answer { IfOk result (λ b. b ≡ is_within row_cmp (unpacked commalist.now left.now.rows) (unpacked commalist.now right.now.rows)) }
    ensures cost { steps.new ≤ steps.old + bound (length left.now.rows + length right.now.rows) (length commalist.now) }
{
    is_within(alloc, left, right, commalist, steps)
}

// Whether the left relation, unpacked, is a subset of the right one and not equal to it.
fn properly_within<L: Ledger>(
    alloc: Global,
    commalist: &[usize],
    left: &Relation,
    right: &Relation,
    steps: &mut Steps<L>,
) -> Result<bool, Memory>
    requires heading { left.now.heading ≡ right.now.heading }
    requires list { IsList left.now.heading commalist.now }
    ensures answer { IfOk result (λ b. b ≡ (is_within row_cmp (unpacked commalist.now left.now.rows) (unpacked commalist.now right.now.rows)
        && not (same_rows (unpacked commalist.now left.now.rows) (unpacked commalist.now right.now.rows)))) }
    ensures cost { steps.new ≤ steps.old + bound (length left.now.rows + length right.now.rows) (length commalist.now) }
{
    is_properly_within(alloc, left, right, commalist, steps)
}

// Whether the right relation, unpacked, is a subset of the left one and not equal to it.
fn properly_holds<L: Ledger>(
    alloc: Global,
    commalist: &[usize],
    left: &Relation,
    right: &Relation,
    steps: &mut Steps<L>,
) -> Result<bool, Memory>
    requires heading { left.now.heading ≡ right.now.heading }
    requires list { IsList left.now.heading commalist.now }
    ensures answer { IfOk result (λ b. b ≡ (is_within row_cmp (unpacked commalist.now right.now.rows) (unpacked commalist.now left.now.rows)
        && not (same_rows (unpacked commalist.now left.now.rows) (unpacked commalist.now right.now.rows)))) }
    ensures cost { steps.new ≤ steps.old + bound (length left.now.rows + length right.now.rows) (length commalist.now) }
{
    is_properly_within(alloc, right, left, commalist, steps)
}

// How many points boxes have, and how many of them cover each point.
ghost use Rattle.std.specs.Prelude.{◌≡◌};
ghost use Rattle.std.specs.List.{All};
ghost use Rattle.cell_core.specs.Boxes.{IsBox};
ghost use Rattle.point_core.specs.Whole.{IsWhole};

use crate::boxes::{boxes_of, sides_list, spans_of};
use cell_core::{BoxRow, CellOp, CellRefuse, Sides, combine, unpack_count};
use point_core::{IntType, Label, Memory, Steps, Stop};
use presort::{Numbers, SortKeys};
use std::alloc::Global;
use std::cmp::Ordering;
use std::marker::Model;
use std::sync::ledger::{Blank, Ledger};

/// A label that is a number.
#[derive(Drop)]
pub(crate) struct Tag {
    pub(crate) value: u64,
}

impl Model for Tag {
    ghost use Rattle.std.specs.Prelude.{ℕ};

    ghost Value = { ℕ };

    ghost view = { λ t. t.value };
}

impl Label for Tag {
    ghost use Rattle.std.specs.Ordering.{nat_cmp};
    ghost use Rattle.std.proofs.lemmas.Cmp.{nat_cmp_total};
    ghost use Rattle.operator_tests.specs.Tags.{separates_numbers};

    ghost order = { nat_cmp };

    fn compare(&self, other: &Tag) -> Ordering {
        self.value.cmp(&other.value)
    }

    fn copy(&self, _alloc: Global) -> Result<Tag, Memory> {
        Ok(Tag { value: self.value })
    }

    ghost total = { nat_cmp_total };

    ghost separates = { separates_numbers };
}

impl Numbers for Tag {
    fn put_numbers(&self, lines: &mut SortKeys) {
        lines.put(self.value);
    }
}

/// At each place, how many left rows cover it.
#[derive(Drop)]
struct LeftCount;

impl CellOp for LeftCount {
    ghost use Rattle.std.specs.Prelude.{ℕ, length};
    ghost use Rattle.operator_tests.specs.Tags.{one_label, one_sorted};

    type Out = Tag;

    ghost CanApply = { λ op a b. Unit {0} };

    ghost means = { λ op a b. one_label (length a) };

    fn apply<L: Ledger>(
        &self,
        alloc: Global,
        left: &[usize],
        _right: &[usize],
        steps: &mut Steps<L>,
    ) -> Result<Vec<Tag>, Stop> {
        steps.tick();
        let value = left.len() as u64;
        let mut list = Vec::new(alloc);
        list.push(Tag { value })?;
        Ok(list)
    }

    ghost in_order = { λ op a b v h e. one_sorted (length a) v e };
}

// At each point of the sides, how many cover it.
fn covered<L: Ledger>(
    alloc: Global,
    types: &[IntType],
    sides: &[Sides<IntType>],
    steps: &mut Steps<L>,
) -> Result<Vec<BoxRow<IntType, Tag>>, CellRefuse>
    requires { All (IsBox (λ _ p. IsWhole p) types.now) sides.now }
{
    combine(alloc, types, sides, &[], &LeftCount, 9, steps)
}

/// The intervals whose points equally many cover, by how many.
pub(crate) fn parts_of<L: Ledger>(
    rt: &HostRuntime,
    types: &[IntType],
    spans: &[(i64, i64)],
    blank: Blank,
) -> Result<Vec<(i64, i64)>, CellRefuse>
    requires name { blank.name ≡ L.name }
    requires parts { blank.parts ≡ L.parts }
    requires one { blank.parts ≡ 1 }
{
    let alloc = rt.alloc();
    let mut steps = Steps::<L>::new(blank, rt);
    let sides = sides_list(alloc, types, spans)?;
    let counts = covered(alloc, types, sides.as_slice(), &mut steps)?;
    let list = spans_of(alloc, counts.as_slice())?;
    Ok(list)
}

/// How many points the intervals have together.
pub(crate) fn count_of<L: Ledger>(
    rt: &HostRuntime,
    types: &[IntType],
    spans: &[(i64, i64)],
    blank: Blank,
) -> Result<Option<usize>, Memory>
    requires name { blank.name ≡ L.name }
    requires parts { blank.parts ≡ L.parts }
    requires one { blank.parts ≡ 1 }
{
    let alloc = rt.alloc();
    let mut steps = Steps::<L>::new(blank, rt);
    let boxes = boxes_of(alloc, types, spans)?;
    let count = unpack_count(alloc, types, boxes, 100, &mut steps)?;
    Ok(count)
}

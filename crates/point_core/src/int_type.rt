// The whole numbers of 64 bits.
ghost use Rattle.std.specs.Prelude.{◌≡◌, ℤ, pos, ◌≤ℤ◌, refl};
ghost use Rattle.point_core.specs.Whole.{least_whole, greatest_whole, IsWhole};

use crate::memory::Memory;
use crate::numbered::{Numbered, compare_numbers, sort_pairs};
use crate::point_type::{PointNumber, PointType};
use crate::steps::Steps;
use std::alloc::Global;
use std::cmp::Ordering;
use std::sync::ledger::Ledger;

/// The type of the integers of 64 bits. The number of an integer is the integer itself.
#[derive(Clone, Copy, Debug, PartialEq, Eq)]
pub struct IntType;

impl Numbered for i64 {
    ghost number_of = { λ p. p };

    fn to_number(self) -> i64 {
        self
    }
}

impl PointType for IntType {
    type Point = i64;

    ghost number_of = { λ p. p };

    ghost first_number = { λ _. least_whole };

    ghost last_number = { λ _. greatest_whole };

    ghost IsPoint = { λ _ p. IsWhole p };

    ghost nonempty = { λ _. record { le = tt } };

    ghost within = { λ _ p h. h };

    ghost each = { λ _ n l h. (n, (l, h), refl) };

    ghost same = { λ _ p q hp hq e. e };

    fn first(&self) -> i64 {
        i64::MIN
    }

    fn last(&self) -> i64 {
        i64::MAX
    }

    fn is_point(&self, _p: i64) -> bool {
        true
    }

    fn next<L: Ledger>(&self, p: i64, steps: &mut Steps<L>) -> Option<i64> {
        steps.tick();
        p.checked_add(1)
    }

    fn prior<L: Ledger>(&self, p: i64, steps: &mut Steps<L>) -> Option<i64> {
        steps.tick();
        p.checked_sub(1)
    }

    fn compare<L: Ledger>(&self, a: i64, b: i64, steps: &mut Steps<L>) -> Ordering {
        compare_numbers(a, b, steps)
    }

    fn sort<L: Ledger>(
        &self,
        alloc: Global,
        list: &mut Vec<(i64, usize)>,
        steps: &mut Steps<L>,
    ) -> Result<(), Memory> {
        sort_pairs(alloc, list, steps)
    }
}

impl PointNumber for IntType {
    fn number(&self, p: i64) -> i64 {
        p
    }

    fn point(&self, n: i64) -> Option<i64> {
        Some(n)
    }
}

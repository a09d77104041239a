// The declared ordinal types.
ghost use Rattle.std.specs.Prelude.{◌≡◌, ℕ, ◌≤◌, ℤ, pos, ◌≤ℤ◌};
ghost use Rattle.point_core.specs.PointLaws.{ordinal_each, ordinal_nonempty, ordinal_same, ordinal_within};

use crate::memory::Memory;
use crate::numbered::{Numbered, compare_numbers, sort_pairs};
use crate::point_type::{PointNumber, PointType};
use crate::steps::Steps;
use std::alloc::Global;
use std::cmp::Ordering;
use std::sync::ledger::Ledger;

/// The declared ordinal type that stands at place `of`. Its values are numbered from 0, and its last one has the number
/// `last`.
#[derive(Clone, Copy, Debug, PartialEq, Eq)]
pub struct OrdinalType {
    pub of: u8,
    pub last: u16,
}

impl Numbered for u16 {
    ghost number_of = { λ p. pos p };

    fn to_number(self) -> i64 {
        i64::from(self)
    }
}

impl PointType for OrdinalType {
    type Point = u16;

    ghost number_of = { λ p. pos p };

    ghost first_number = { λ _. pos 0 };

    ghost last_number = { λ t. pos t.last };

    ghost IsPoint = { λ t p. p ≤ t.last };

    ghost nonempty = { λ t. ordinal_nonempty t.last };

    ghost within = { λ t. ordinal_within t.last };

    ghost each = { λ t. ordinal_each t.last };

    ghost same = { λ _ p q hp hq. ordinal_same p q };

    fn first(&self) -> u16 {
        0
    }

    fn last(&self) -> u16 {
        self.last
    }

    fn is_point(&self, p: u16) -> bool {
        p <= self.last
    }

    fn next<L: Ledger>(&self, p: u16, steps: &mut Steps<L>) -> Option<u16> {
        steps.tick();
        if p < self.last { Some(p + 1) } else { None }
    }

    fn prior<L: Ledger>(&self, p: u16, steps: &mut Steps<L>) -> Option<u16> {
        steps.tick();
        p.checked_sub(1)
    }

    fn compare<L: Ledger>(&self, a: u16, b: u16, steps: &mut Steps<L>) -> Ordering {
        compare_numbers(a, b, steps)
    }

    fn sort<L: Ledger>(
        &self,
        alloc: Global,
        list: &mut Vec<(u16, usize)>,
        steps: &mut Steps<L>,
    ) -> Result<(), Memory> {
        sort_pairs(alloc, list, steps)
    }
}

impl PointNumber for OrdinalType {
    fn number(&self, p: u16) -> i64 {
        i64::from(p)
    }

    fn point(&self, n: i64) -> Option<u16> {
        if 0 <= n && n <= i64::from(self.last) {
            Some(n as u16)
        } else {
            None
        }
    }
}

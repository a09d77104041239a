// The seconds of the days of the years 1 to 9999.
ghost use Rattle.std.specs.Prelude.{◌≡◌, ◌↔◌, ℤ, ◌≤ℤ◌, IsTrue, IsSome, IfSome, refl};
ghost use Rattle.point_core.specs.Moments.{first_second, last_second, IsSecond};
ghost use Rattle.point_core.specs.SecondLaws.{second_of, second_same};

use crate::memory::Memory;
use crate::numbered::{Numbered, compare_numbers, sort_pairs};
use crate::point_type::{PointNumber, PointType};
use crate::steps::Steps;
use std::alloc::Global;
use std::cmp::Ordering;
use std::sync::ledger::Ledger;

/// The number of 0001-01-01T00:00:00.
pub(crate) const FIRST_SECOND: i64 = -62_135_596_800;

/// The number of 9999-12-31T23:59:59.
pub(crate) const LAST_SECOND: i64 = 253_402_300_799;

/// The type of the moments from 0001-01-01T00:00:00 to 9999-12-31T23:59:59, a second apart and without a time zone. Each day has
/// 86,400 seconds.
#[derive(Clone, Copy, Debug, PartialEq, Eq)]
pub struct MomentType;

/// A moment, by how many seconds it comes after 1970-01-01T00:00:00; earlier moments have negative numbers.
#[derive(Clone, Copy, Debug, PartialEq, Eq, PartialOrd, Ord)]
pub struct Second {
    pub number: i64,
}

/// Is this the number of a second of the years 1 to 9999?
pub(crate) fn is_second(n: i64) -> bool
    ensures { IsTrue result ↔ IsSecond n }
{
    FIRST_SECOND <= n && n <= LAST_SECOND
}

/// The moment of that number, or none where it is no second of the years 1 to 9999.
pub(crate) fn second_at(n: i64) -> Option<Second>
    ensures within { IsSome result ↔ IsSecond n }
    ensures second { IfSome result (λ m. m.number ≡ n) }
{
    if is_second(n) {
        Some(Second { number: n })
    } else {
        None
    }
}

impl Numbered for Second {
    ghost number_of = { λ m. m.number };

    fn to_number(self) -> i64 {
        self.number
    }
}

impl PointType for MomentType {
    type Point = Second;

    ghost number_of = { λ m. m.number };

    ghost first_number = { λ _. first_second };

    ghost last_number = { λ _. last_second };

    ghost IsPoint = { λ _ m. IsSecond m.number };

    ghost nonempty = { λ _. record { le = tt } };

    ghost within = { λ _ m h. h };

    ghost each = { λ _ n l h. (second_of n, (l, h), refl) };

    ghost same = { λ _ p q hp hq. second_same p q };

    fn first(&self) -> Second {
        Second {
            number: FIRST_SECOND,
        }
    }

    fn last(&self) -> Second {
        Second {
            number: LAST_SECOND,
        }
    }

    fn is_point(&self, m: Second) -> bool {
        is_second(m.to_number())
    }

    fn next<L: Ledger>(&self, m: Second, steps: &mut Steps<L>) -> Option<Second> {
        steps.tick();
        second_at(m.to_number() + 1)
    }

    fn prior<L: Ledger>(&self, m: Second, steps: &mut Steps<L>) -> Option<Second> {
        steps.tick();
        second_at(m.to_number() - 1)
    }

    fn compare<L: Ledger>(&self, a: Second, b: Second, steps: &mut Steps<L>) -> Ordering {
        compare_numbers(a, b, steps)
    }

    fn sort<L: Ledger>(
        &self,
        alloc: Global,
        list: &mut Vec<(Second, usize)>,
        steps: &mut Steps<L>,
    ) -> Result<(), Memory> {
        sort_pairs(alloc, list, steps)
    }
}

impl PointNumber for MomentType {
    fn number(&self, m: Second) -> i64 {
        m.to_number()
    }

    fn point(&self, n: i64) -> Option<Second> {
        second_at(n)
    }
}

// The days of the years 1 to 9999.
ghost use Rattle.std.specs.Prelude.{◌≡◌, ◌↔◌, ℤ, ◌≤ℤ◌, IsTrue, IsSome, IfSome, refl};
ghost use Rattle.point_core.specs.Dates.{first_day, last_day, IsDay};
ghost use Rattle.point_core.specs.DayLaws.{day_of, day_same};

use crate::memory::Memory;
use crate::numbered::{Numbered, compare_numbers, sort_pairs};
use crate::point_type::{PointNumber, PointType};
use crate::steps::Steps;
use std::alloc::Global;
use std::cmp::Ordering;
use std::sync::ledger::Ledger;

/// The number of 0001-01-01.
pub(crate) const FIRST_DAY: i32 = -719162;

/// The number of 9999-12-31.
pub(crate) const LAST_DAY: i32 = 2932896;

/// The type of the dates from 0001-01-01 to 9999-12-31.
#[derive(Clone, Copy, Debug, PartialEq, Eq)]
pub struct DateType;

/// A day, by how many days it comes after 1970-01-01; earlier days have negative numbers.
#[derive(Clone, Copy, Debug, PartialEq, Eq, PartialOrd, Ord)]
pub struct Day {
    pub number: i32,
}

/// Is this the number of a day of the years 1 to 9999?
pub(crate) fn is_day(n: i64) -> bool
    ensures { IsTrue result ↔ IsDay n }
{
    i64::from(FIRST_DAY) <= n && n <= i64::from(LAST_DAY)
}

/// The day of that number, or none where it is no day of the years 1 to 9999.
pub(crate) fn day_at(n: i64) -> Option<Day>
    ensures within { IsSome result ↔ IsDay n }
    ensures day { IfSome result (λ d. d.number ≡ n) }
{
    if is_day(n) {
        Some(Day { number: n as i32 })
    } else {
        None
    }
}

impl Numbered for Day {
    ghost number_of = { λ d. d.number };

    fn to_number(self) -> i64 {
        i64::from(self.number)
    }
}

impl PointType for DateType {
    type Point = Day;

    ghost number_of = { λ d. d.number };

    ghost first_number = { λ _. first_day };

    ghost last_number = { λ _. last_day };

    ghost IsPoint = { λ _ d. IsDay d.number };

    ghost nonempty = { λ _. record { le = tt } };

    ghost within = { λ _ d h. h };

    ghost each = { λ _ n l h. (day_of n, (l, h), refl) };

    ghost same = { λ _ p q hp hq. day_same p q };

    fn first(&self) -> Day {
        Day { number: FIRST_DAY }
    }

    fn last(&self) -> Day {
        Day { number: LAST_DAY }
    }

    fn is_point(&self, d: Day) -> bool {
        is_day(d.to_number())
    }

    fn next<L: Ledger>(&self, d: Day, steps: &mut Steps<L>) -> Option<Day> {
        steps.tick();
        day_at(d.to_number() + 1)
    }

    fn prior<L: Ledger>(&self, d: Day, steps: &mut Steps<L>) -> Option<Day> {
        steps.tick();
        day_at(d.to_number() - 1)
    }

    fn compare<L: Ledger>(&self, a: Day, b: Day, steps: &mut Steps<L>) -> Ordering {
        compare_numbers(a, b, steps)
    }

    fn sort<L: Ledger>(
        &self,
        alloc: Global,
        list: &mut Vec<(Day, usize)>,
        steps: &mut Steps<L>,
    ) -> Result<(), Memory> {
        sort_pairs(alloc, list, steps)
    }
}

impl PointNumber for DateType {
    fn number(&self, d: Day) -> i64 {
        d.to_number()
    }

    fn point(&self, n: i64) -> Option<Day> {
        day_at(n)
    }
}

// Any of the point types, and a point of any of them.
ghost use Rattle.std.specs.Prelude.{◌≡◌, ◌↔◌, ℤ, IsSome, IfSome};
ghost use Rattle.point_core.specs.Points.{number, first_of, last_of, IsNumber, IsPointOf};
ghost use Rattle.point_core.specs.PointLaws.{any_each, any_nonempty, any_same};

use crate::date_type::{FIRST_DAY, LAST_DAY, day_at, is_day};
use crate::memory::Memory;
use crate::moment_type::{FIRST_SECOND, LAST_SECOND, is_second, second_at};
use crate::numbered::{Numbered, compare_numbers, sort_pairs};
use crate::point_type::{PointNumber, PointType};
use crate::steps::Steps;
use std::alloc::Global;
use std::cmp::Ordering;
use std::sync::ledger::Ledger;

/// A point type: the integers, the dates, the declared ordinal type that stands at place `of`, whose last value has the
/// number `last`, or the moments.
#[derive(Clone, Copy, Debug, PartialEq, Eq)]
pub enum AnyType {
    Integer,
    Date,
    Ordinal { of: u8, last: u16 },
    Moment,
}

/// A point of any type: an integer, a date by its number of days from 1970-01-01, the value of an ordinal type by its
/// number from 0, or a moment by its number of seconds from 1970-01-01T00:00:00.
#[derive(Clone, Copy, Debug, PartialEq, Eq, PartialOrd, Ord)]
pub enum AnyPoint {
    Integer(i64),
    Date(i32),
    Ordinal { of: u8, at: u16 },
    Moment(i64),
}

impl AnyPoint {
    /// The integer, the number of the day, of the value or of the second.
    pub fn number(self) -> i64
        ensures { result ≡ number self }
    {
        match self {
            AnyPoint::Integer(n) => n,
            AnyPoint::Date(n) => i64::from(n),
            AnyPoint::Ordinal { of: _, at } => i64::from(at),
            AnyPoint::Moment(n) => n,
        }
    }
}

impl AnyType {
    /// The point of that number, or none outside the type.
    fn point_at(self, n: i64) -> Option<AnyPoint>
        ensures within { IsSome result ↔ IsNumber self n }
        ensures point { IfSome result (λ p. IsPointOf self p × (number p ≡ n)) }
    {
        match self {
            AnyType::Integer => Some(AnyPoint::Integer(n)),
            AnyType::Date => day_at(n).map(|day| AnyPoint::Date(day.number)),
            AnyType::Ordinal { of, last } => if 0 <= n && n <= i64::from(last) {
                Some(AnyPoint::Ordinal { of, at: n as u16 })
            } else {
                None
            },
            AnyType::Moment => second_at(n).map(|second| AnyPoint::Moment(second.number)),
        }
    }
}

impl Numbered for AnyPoint {
    ghost number_of = { number };

    fn to_number(self) -> i64 {
        self.number()
    }
}

impl PointType for AnyType {
    type Point = AnyPoint;

    ghost number_of = { number };

    ghost first_number = { first_of };

    ghost last_number = { last_of };

    ghost IsPoint = { IsPointOf };

    ghost nonempty = { any_nonempty };

    ghost within = { λ _ p h. h.1 };

    ghost each = { any_each };

    ghost same = { any_same };

    fn first(&self) -> AnyPoint {
        match *self {
            AnyType::Integer => AnyPoint::Integer(i64::MIN),
            AnyType::Date => AnyPoint::Date(FIRST_DAY),
            AnyType::Ordinal { of, last: _ } => AnyPoint::Ordinal { of, at: 0 },
            AnyType::Moment => AnyPoint::Moment(FIRST_SECOND),
        }
    }

    fn last(&self) -> AnyPoint {
        match *self {
            AnyType::Integer => AnyPoint::Integer(i64::MAX),
            AnyType::Date => AnyPoint::Date(LAST_DAY),
            AnyType::Ordinal { of, last } => AnyPoint::Ordinal { of, at: last },
            AnyType::Moment => AnyPoint::Moment(LAST_SECOND),
        }
    }

    fn is_point(&self, p: AnyPoint) -> bool {
        match (*self, p) {
            (AnyType::Integer, AnyPoint::Integer(_)) => true,
            (AnyType::Date, AnyPoint::Date(n)) => is_day(i64::from(n)),
            (AnyType::Ordinal { of, last }, AnyPoint::Ordinal { of: line, at }) => of == line
                && at <= last,
            (AnyType::Moment, AnyPoint::Moment(n)) => is_second(n),
            _ => false,
        }
    }

    fn next<L: Ledger>(&self, p: AnyPoint, steps: &mut Steps<L>) -> Option<AnyPoint> {
        steps.tick();
        self.point_at(p.number().checked_add(1)?)
    }

    fn prior<L: Ledger>(&self, p: AnyPoint, steps: &mut Steps<L>) -> Option<AnyPoint> {
        steps.tick();
        self.point_at(p.number().checked_sub(1)?)
    }

    fn compare<L: Ledger>(&self, a: AnyPoint, b: AnyPoint, steps: &mut Steps<L>) -> Ordering {
        compare_numbers(a, b, steps)
    }

    fn sort<L: Ledger>(
        &self,
        alloc: Global,
        list: &mut Vec<(AnyPoint, usize)>,
        steps: &mut Steps<L>,
    ) -> Result<(), Memory> {
        sort_pairs(alloc, list, steps)
    }
}

impl PointNumber for AnyType {
    fn number(&self, p: AnyPoint) -> i64 {
        p.number()
    }

    fn point(&self, n: i64) -> Option<AnyPoint> {
        self.point_at(n)
    }
}

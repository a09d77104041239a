// An interval is kept by its ends.
ghost use Rattle.std.specs.Prelude.{◌≡◌, ◌↔◌, ℕ, ◌+◌, ℤ, pos, ◌+ℤ◌, ◌≤ℤ◌, ◌<ℤ◌, IsNone, IfSome, IsTrue};

use point_core::{PointNumber, PointType, Steps};
use std::marker::Model;
use std::sync::ledger::Ledger;

/// A nonempty run of points of one type, without a gap.
#[derive(Drop)]
#[derive_where(PartialEq, Eq, PartialOrd, Ord; T::Point)]
pub struct Interval<T: PointType> {
    begin: T::Point,
    end: T::Point,
}

impl<T: PointType> Model for Interval<T> {
    ghost use Rattle.std.specs.Prelude.{◌≤ℤ◌};

    ghost Value = { T.Point × T.Point };

    ghost view = { λ i. (i.begin, i.end) };

    ghost inverse = { λ ends. record { begin = ends.0; end = ends.1 } };

    ghost invariant = { λ i. T.number_of i.begin ≤ℤ T.number_of i.end };
}

impl<T: PointType> Interval<T> {
    /// The interval from one point to another that is not before it.
    pub fn of(begin: T::Point, end: T::Point) -> Interval<T>
        requires { T.number_of begin ≤ℤ T.number_of end }
        ensures { result ≡ (begin, end) }
    {
        Interval { begin, end }
    }

    /// The interval, or none where the end is before the begin.
    pub fn make<L: Ledger>(
        t: &T,
        begin: T::Point,
        end: T::Point,
        steps: &mut Steps<L>,
    ) -> Option<Interval<T>>
        requires begin { T.IsPoint t.now begin }
        requires end { T.IsPoint t.now end }
        ensures none { IsNone result ↔ (T.number_of end <ℤ T.number_of begin) }
        ensures ends { IfSome result (λ i. i ≡ (begin, end)) }
        ensures cost { steps.new ≡ steps.old + 1 }
    {
        if t.compare(end, begin, steps).is_lt() {
            return None;
        }
        Some(Interval { begin, end })
    }

    /// The interval from `begin` up to the point before `cut`.
    pub fn until<L: Ledger>(
        t: &T,
        begin: T::Point,
        cut: T::Point,
        steps: &mut Steps<L>,
    ) -> Interval<T>
        requires begin { T.IsPoint t.now begin }
        requires cut { T.IsPoint t.now cut }
        requires before { T.number_of begin <ℤ T.number_of cut }
        ensures begin { result.0 ≡ begin }
        ensures point { T.IsPoint t.now result.1 }
        ensures end { T.number_of result.1 +ℤ pos 1 ≡ T.number_of cut }
        ensures cost { steps.new ≡ steps.old + 1 }
    {
        let last = t.prior(cut, steps).unwrap();
        Interval { begin, end: last }
    }

    /// The same interval.
    pub fn copy(&self) -> Interval<T>
        ensures { result ≡ self.now }
    {
        Interval {
            begin: self.begin,
            end: self.end,
        }
    }

    /// The first of its points.
    pub fn begin(&self) -> T::Point
        ensures point { result ≡ self.now.0 }
        ensures ordered { T.number_of self.now.0 ≤ℤ T.number_of self.now.1 }
    {
        self.begin
    }

    /// The last of its points.
    pub fn end(&self) -> T::Point
        ensures point { result ≡ self.now.1 }
        ensures ordered { T.number_of self.now.0 ≤ℤ T.number_of self.now.1 }
    {
        self.end
    }
}

impl<T: PointNumber> Interval<T> {
    ghost use Rattle.std.specs.Prelude.{◌≡◌, ◌≤ℤ◌};
    ghost use Rattle.interval_core.specs.Members.{span, HasEndsIn};

    // The numbers of the first and of the last of its points.
    pub(crate) fn numbers(&self, t: &T) -> (i64, i64)
        requires { HasEndsIn T.IsPoint t.now self.now }
        ensures numbers { result ≡ span T.number_of self.now }
        ensures ordered { T.number_of self.now.0 ≤ℤ T.number_of self.now.1 }
    {
        (t.number(self.begin), t.number(self.end))
    }

    // The interval whose first and last points have these numbers.
    pub(crate) fn of_numbers(t: &T, ends: (i64, i64)) -> Interval<T>
        requires first { T.first_number t.now ≤ℤ ends.0 }
        requires ordered { ends.0 ≤ℤ ends.1 }
        requires last { ends.1 ≤ℤ T.last_number t.now }
        ensures points { HasEndsIn T.IsPoint t.now result }
        ensures numbers { span T.number_of result ≡ ends }
    {
        Interval {
            begin: t.point(ends.0).unwrap(),
            end: t.point(ends.1).unwrap(),
        }
    }
}

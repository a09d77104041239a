// Operators on intervals: what is said of their points, the code does by the numbers of their ends.
ghost use Rattle.std.specs.Prelude.{◌≡◌, ◌↔◌, ℤ, pos, ◌+ℤ◌, ◌-ℤ◌, ◌≤ℤ◌, ◌<ℤ◌, IsTrue, IsNone, IfSome};
ghost use Rattle.interval_core.specs.Operators.{union, intersect, minus, IsInHull};

use crate::comparisons::{do_merge, do_overlap};
use crate::interval::Interval;
use point_core::PointNumber;

impl<T: PointNumber> Interval<T> {
    ghost use Rattle.std.specs.Prelude.{◌≡◌, ◌↔◌, ◌^◌, ◌≤◌, ℤ, pos, ◌+ℤ◌, ◌-ℤ◌, ◌≤ℤ◌, ◌<ℤ◌, IsTrue, IsNone, IfSome, option_map};
    ghost use Rattle.interval_core.specs.Members.{span, has_member, HasEndsIn};
    ghost use Rattle.interval_core.specs.Operators.{prior_number, next_number, count, union, intersect, minus};

    /// The point before its first, or none where that is the first of the type.
    pub fn pre(&self, t: &T) -> Option<T::Point>
        requires { HasEndsIn T.IsPoint t.now self.now }
        ensures number { option_map T.number_of result ≡
            prior_number (T.first_number t.now) (T.number_of self.now.0) }
        ensures none { IsNone result ↔ (T.number_of self.now.0 ≡ T.first_number t.now) }
        ensures point { IfSome result (T.IsPoint t.now) }
    {
        let begin = t.number(self.begin());
        if t.number(t.first()) < begin {
            t.point(begin - 1)
        } else {
            None
        }
    }

    /// The point after its last, or none where that is the last of the type.
    pub fn post(&self, t: &T) -> Option<T::Point>
        requires { HasEndsIn T.IsPoint t.now self.now }
        ensures number { option_map T.number_of result ≡
            next_number (T.last_number t.now) (T.number_of self.now.1) }
        ensures none { IsNone result ↔ (T.number_of self.now.1 ≡ T.last_number t.now) }
        ensures point { IfSome result (T.IsPoint t.now) }
    {
        let end = t.number(self.end());
        if end < t.number(t.last()) {
            t.point(end + 1)
        } else {
            None
        }
    }

    /// How many points it has, or none where that is above the greatest `i64`.
    pub fn count(&self, t: &T) -> Option<i64>
        requires { HasEndsIn T.IsPoint t.now self.now }
        ensures none { IsNone result ↔ (2 ^ 63 ≤ count (span T.number_of self.now)) }
        ensures count { IfSome result (λ n. n ≡ pos (count (span T.number_of self.now))) }
        ensures ends { IfSome result (λ n. n ≡
            (T.number_of self.now.1 +ℤ pos 1) -ℤ T.number_of self.now.0) }
    {
        how_many(self.numbers(t))
    }

    /// Whether the point is one of its points.
    pub fn has_point(&self, t: &T, p: T::Point) -> bool
        requires points { HasEndsIn T.IsPoint t.now self.now }
        requires point { T.IsPoint t.now p }
        ensures members { result ≡ has_member (span T.number_of self.now) (T.number_of p) }
        ensures ends { IsTrue result ↔ ((T.number_of self.now.0 ≤ℤ T.number_of p)
            × (T.number_of p ≤ℤ T.number_of self.now.1)) }
    {
        is_between(self.numbers(t), t.number(p))
    }

    /// The interval of the points of either, or none where these are not one interval.
    pub fn union(&self, t: &T, other: &Interval<T>) -> Option<Interval<T>>
        requires points { HasEndsIn T.IsPoint t.now self.now }
        requires other_points { HasEndsIn T.IsPoint t.now other.now }
        ensures members { option_map (span T.number_of) result ≡
            union (span T.number_of self.now) (span T.number_of other.now) }
        ensures points { IfSome result (HasEndsIn T.IsPoint t.now) }
    {
        let ends = ends_of_union(self.numbers(t), other.numbers(t))?;
        Some(Interval::of_numbers(t, ends))
    }

    /// The interval of the common points, or none where there is no common point.
    pub fn intersect(&self, t: &T, other: &Interval<T>) -> Option<Interval<T>>
        requires points { HasEndsIn T.IsPoint t.now self.now }
        requires other_points { HasEndsIn T.IsPoint t.now other.now }
        ensures members { option_map (span T.number_of) result ≡
            intersect (span T.number_of self.now) (span T.number_of other.now) }
        ensures points { IfSome result (HasEndsIn T.IsPoint t.now) }
    {
        let ends = ends_of_common(self.numbers(t), other.numbers(t))?;
        Some(Interval::of_numbers(t, ends))
    }

    /// The interval of the points that the other does not have, or none where there is no such point or where
    /// the other stands between two of them.
    pub fn minus(&self, t: &T, other: &Interval<T>) -> Option<Interval<T>>
        requires points { HasEndsIn T.IsPoint t.now self.now }
        requires other_points { HasEndsIn T.IsPoint t.now other.now }
        ensures members { option_map (span T.number_of) result ≡
            minus (span T.number_of self.now) (span T.number_of other.now) }
        ensures points { IfSome result (HasEndsIn T.IsPoint t.now) }
    {
        let ends = ends_of_rest(self.numbers(t), other.numbers(t))?;
        Some(Interval::of_numbers(t, ends))
    }
}

// Below, i and j are the numbers of the first and the last points of two intervals.

fn ends_of_union(i: (i64, i64), j: (i64, i64)) -> Option<(i64, i64)>
    requires i { i.0 ≤ℤ i.1 }
    requires j { j.0 ≤ℤ j.1 }
    ensures members { result ≡ union i j }
    ensures ends { IfSome result (IsInHull i j) }
{
    if do_merge(i, j) {
        Some((i.0.min(j.0), i.1.max(j.1)))
    } else {
        None
    }
}

fn ends_of_common(i: (i64, i64), j: (i64, i64)) -> Option<(i64, i64)>
    requires i { i.0 ≤ℤ i.1 }
    requires j { j.0 ≤ℤ j.1 }
    ensures members { result ≡ intersect i j }
    ensures ends { IfSome result (IsInHull i j) }
{
    if do_overlap(i, j) {
        Some((i.0.max(j.0), i.1.min(j.1)))
    } else {
        None
    }
}

fn ends_of_rest(i: (i64, i64), j: (i64, i64)) -> Option<(i64, i64)>
    requires i { i.0 ≤ℤ i.1 }
    requires j { j.0 ≤ℤ j.1 }
    ensures members { result ≡ minus i j }
    ensures ends { IfSome result (IsInHull i j) }
{
    if !do_overlap(i, j) {
        return Some(i);
    }
    if i.0 < j.0 {
        if i.1 <= j.1 {
            Some((i.0, j.0 - 1))
        } else {
            None
        }
    } else if j.1 < i.1 {
        Some((j.1 + 1, i.1))
    } else {
        None
    }
}

fn is_between(i: (i64, i64), p: i64) -> bool
    ensures { IsTrue result ↔ ((i.0 ≤ℤ p) × (p ≤ℤ i.1)) }
{
    i.0 <= p && p <= i.1
}

// The last less the first and one more, where this is an `i64`.
fn how_many(i: (i64, i64)) -> Option<i64>
    requires { i.0 ≤ℤ i.1 }
    ensures none { IsNone result ↔ (pos 9223372036854775807 <ℤ ((i.1 +ℤ pos 1) -ℤ i.0)) }
    ensures some { IfSome result (λ n. n ≡ (i.1 +ℤ pos 1) -ℤ i.0) }
{
    let n = i128::from(i.1) + 1 - i128::from(i.0);
    if n <= i128::from(i64::MAX) {
        Some(n as i64)
    } else {
        None
    }
}

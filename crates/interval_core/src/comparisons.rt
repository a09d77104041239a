// Two intervals compared: what is said of their points, the code tells by the numbers of their ends.
ghost use Rattle.std.specs.Prelude.{◌≡◌, ◌↔◌, ◌⊎◌, ℤ, pos, ◌+ℤ◌, ◌≤ℤ◌, ◌<ℤ◌, IsTrue};

use crate::interval::Interval;
use point_core::PointNumber;

impl<T: PointNumber> Interval<T> {
    ghost use Rattle.std.specs.Prelude.{◌≡◌, ◌↔◌, ◌⊎◌, ℤ, pos, ◌+ℤ◌, ◌≤ℤ◌, ◌<ℤ◌, IsTrue};
    ghost use Rattle.interval_core.specs.Members.{span, HasEndsIn};
    ghost use Rattle.interval_core.specs.Comparisons.{equals, includes, included_in, before, after, meets, overlaps, merges, begins, ends};

    /// Whether the two have the same points.
    pub fn equals(&self, t: &T, other: &Interval<T>) -> bool
        requires points { HasEndsIn T.IsPoint t.now self.now }
        requires other_points { HasEndsIn T.IsPoint t.now other.now }
        ensures members { result ≡ equals (span T.number_of self.now) (span T.number_of other.now) }
        ensures ends { IsTrue result ↔ ((T.number_of self.now.0 ≡ T.number_of other.now.0)
            × (T.number_of self.now.1 ≡ T.number_of other.now.1)) }
    {
        are_equal(self.numbers(t), other.numbers(t))
    }

    /// Whether every point of the other is in this one.
    pub fn includes(&self, t: &T, other: &Interval<T>) -> bool
        requires points { HasEndsIn T.IsPoint t.now self.now }
        requires other_points { HasEndsIn T.IsPoint t.now other.now }
        ensures members { result ≡
            includes (span T.number_of self.now) (span T.number_of other.now) }
        ensures ends { IsTrue result ↔ ((T.number_of self.now.0 ≤ℤ T.number_of other.now.0)
            × (T.number_of other.now.1 ≤ℤ T.number_of self.now.1)) }
    {
        is_over(self.numbers(t), other.numbers(t))
    }

    /// Whether every point of this one is in the other.
    pub fn included_in(&self, t: &T, other: &Interval<T>) -> bool
        requires points { HasEndsIn T.IsPoint t.now self.now }
        requires other_points { HasEndsIn T.IsPoint t.now other.now }
        ensures members { result ≡
            included_in (span T.number_of self.now) (span T.number_of other.now) }
        ensures ends { IsTrue result ↔ ((T.number_of other.now.0 ≤ℤ T.number_of self.now.0)
            × (T.number_of self.now.1 ≤ℤ T.number_of other.now.1)) }
    {
        other.includes(t, self)
    }

    /// Whether every point of this one is less than every point of the other.
    pub fn before(&self, t: &T, other: &Interval<T>) -> bool
        requires points { HasEndsIn T.IsPoint t.now self.now }
        requires other_points { HasEndsIn T.IsPoint t.now other.now }
        ensures members { result ≡ before (span T.number_of self.now) (span T.number_of other.now) }
        ensures ends { IsTrue result ↔ (T.number_of self.now.1 <ℤ T.number_of other.now.0) }
    {
        is_before(self.numbers(t), other.numbers(t))
    }

    /// Whether every point of this one is greater than every point of the other.
    pub fn after(&self, t: &T, other: &Interval<T>) -> bool
        requires points { HasEndsIn T.IsPoint t.now self.now }
        requires other_points { HasEndsIn T.IsPoint t.now other.now }
        ensures members { result ≡ after (span T.number_of self.now) (span T.number_of other.now) }
        ensures ends { IsTrue result ↔ (T.number_of other.now.1 <ℤ T.number_of self.now.0) }
    {
        other.before(t, self)
    }

    /// Whether they have no common point and one ends directly before the other begins.
    pub fn meets(&self, t: &T, other: &Interval<T>) -> bool
        requires points { HasEndsIn T.IsPoint t.now self.now }
        requires other_points { HasEndsIn T.IsPoint t.now other.now }
        ensures members { result ≡ meets (span T.number_of self.now) (span T.number_of other.now) }
        ensures ends { IsTrue result ↔ (((T.number_of self.now.1 +ℤ pos 1) ≡ T.number_of other.now.0)
            ⊎ ((T.number_of other.now.1 +ℤ pos 1) ≡ T.number_of self.now.0)) }
    {
        do_meet(self.numbers(t), other.numbers(t))
    }

    /// Whether the two have a common point.
    pub fn overlaps(&self, t: &T, other: &Interval<T>) -> bool
        requires points { HasEndsIn T.IsPoint t.now self.now }
        requires other_points { HasEndsIn T.IsPoint t.now other.now }
        ensures members { result ≡
            overlaps (span T.number_of self.now) (span T.number_of other.now) }
        ensures ends { IsTrue result ↔ ((T.number_of self.now.0 ≤ℤ T.number_of other.now.1)
            × (T.number_of other.now.0 ≤ℤ T.number_of self.now.1)) }
    {
        do_overlap(self.numbers(t), other.numbers(t))
    }

    /// Whether they overlap or meet.
    pub fn merges(&self, t: &T, other: &Interval<T>) -> bool
        requires points { HasEndsIn T.IsPoint t.now self.now }
        requires other_points { HasEndsIn T.IsPoint t.now other.now }
        ensures members { result ≡ merges (span T.number_of self.now) (span T.number_of other.now) }
        ensures ends { IsTrue result ↔ ((T.number_of self.now.0 ≤ℤ (T.number_of other.now.1 +ℤ pos 1))
            × (T.number_of other.now.0 ≤ℤ (T.number_of self.now.1 +ℤ pos 1))) }
    {
        do_merge(self.numbers(t), other.numbers(t))
    }

    /// Whether this one is included in the other and begins as it does.
    pub fn begins(&self, t: &T, other: &Interval<T>) -> bool
        requires points { HasEndsIn T.IsPoint t.now self.now }
        requires other_points { HasEndsIn T.IsPoint t.now other.now }
        ensures members { result ≡ begins (span T.number_of self.now) (span T.number_of other.now) }
        ensures ends { IsTrue result ↔ ((T.number_of self.now.0 ≡ T.number_of other.now.0)
            × (T.number_of self.now.1 ≤ℤ T.number_of other.now.1)) }
    {
        do_begin(self.numbers(t), other.numbers(t))
    }

    /// Whether this one is included in the other and ends as it does.
    pub fn ends(&self, t: &T, other: &Interval<T>) -> bool
        requires points { HasEndsIn T.IsPoint t.now self.now }
        requires other_points { HasEndsIn T.IsPoint t.now other.now }
        ensures members { result ≡ ends (span T.number_of self.now) (span T.number_of other.now) }
        ensures ends { IsTrue result ↔ ((T.number_of self.now.1 ≡ T.number_of other.now.1)
            × (T.number_of other.now.0 ≤ℤ T.number_of self.now.0)) }
    {
        do_end(self.numbers(t), other.numbers(t))
    }
}

// Below, i and j are the numbers of the first and the last points of two intervals.

fn are_equal(i: (i64, i64), j: (i64, i64)) -> bool
    ensures { IsTrue result ↔ ((i.0 ≡ j.0) × (i.1 ≡ j.1)) }
{
    i.0 == j.0 && i.1 == j.1
}

fn is_over(i: (i64, i64), j: (i64, i64)) -> bool
    ensures { IsTrue result ↔ ((i.0 ≤ℤ j.0) × (j.1 ≤ℤ i.1)) }
{
    i.0 <= j.0 && j.1 <= i.1
}

fn is_before(i: (i64, i64), j: (i64, i64)) -> bool
    ensures { IsTrue result ↔ (i.1 <ℤ j.0) }
{
    i.1 < j.0
}

pub(crate) fn do_overlap(i: (i64, i64), j: (i64, i64)) -> bool
    ensures { IsTrue result ↔ ((i.0 ≤ℤ j.1) × (j.0 ≤ℤ i.1)) }
{
    i.0 <= j.1 && j.0 <= i.1
}

fn do_meet(i: (i64, i64), j: (i64, i64)) -> bool
    ensures { IsTrue result ↔ (((i.1 +ℤ pos 1) ≡ j.0) ⊎ ((j.1 +ℤ pos 1) ≡ i.0)) }
{
    is_directly_before(i.1, j.0) || is_directly_before(j.1, i.0)
}

pub(crate) fn do_merge(i: (i64, i64), j: (i64, i64)) -> bool
    ensures { IsTrue result ↔ ((i.0 ≤ℤ (j.1 +ℤ pos 1)) × (j.0 ≤ℤ (i.1 +ℤ pos 1))) }
{
    is_at_most_next(i.0, j.1) && is_at_most_next(j.0, i.1)
}

fn do_begin(i: (i64, i64), j: (i64, i64)) -> bool
    ensures { IsTrue result ↔ ((i.0 ≡ j.0) × (i.1 ≤ℤ j.1)) }
{
    i.0 == j.0 && i.1 <= j.1
}

fn do_end(i: (i64, i64), j: (i64, i64)) -> bool
    ensures { IsTrue result ↔ ((i.1 ≡ j.1) × (j.0 ≤ℤ i.0)) }
{
    i.1 == j.1 && j.0 <= i.0
}

// Whether a is one less than b.
fn is_directly_before(a: i64, b: i64) -> bool
    ensures { IsTrue result ↔ ((a +ℤ pos 1) ≡ b) }
{
    i128::from(a) + 1 == i128::from(b)
}

// Whether a is not more than one after b.
fn is_at_most_next(a: i64, b: i64) -> bool
    ensures { IsTrue result ↔ (a ≤ℤ (b +ℤ pos 1)) }
{
    i128::from(a) <= i128::from(b) + 1
}

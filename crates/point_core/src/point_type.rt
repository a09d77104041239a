// What a point type is, by the numbers of its points.
ghost use Rattle.std.specs.Prelude.{◌≡◌, ◌↔◌, ℕ, ◌+◌, ℤ, pos, ◌+ℤ◌, ◌-ℤ◌, ◌≤ℤ◌, length, IsNone, IsSome, IfSome, OnOk, IsPermutation, IsTrue, Contains};
ghost use Rattle.std.specs.Ordering.{int_cmp};
ghost use Rattle.point_core.specs.Digits.{sort_charge};
ghost use Rattle.point_core.specs.Pairs.{InOrder};

use crate::memory::Memory;
use crate::steps::Steps;
use std::alloc::Global;
use std::cmp::Ordering;
use std::sync::ledger::Ledger;

/// An ordered finite type of points. A point stands for a whole number, and each number between those of the first and the
/// last point is that of one point, so that all points but these two have a neighbour on either side. Calls take points of
/// the type alone.
pub trait PointType {
    /// A point. Not each value of this type need be a point of the point type: `is_point` tells.
    type Point: Copy;

    /// The number of a point.
    ghost number_of: { Self.Point → ℤ };

    /// The numbers of the first and the last point.
    ghost first_number: { Self → ℤ };

    ghost last_number: { Self → ℤ };

    /// The points of the type.
    ghost IsPoint: { Self → Self.Point → Type 0 };

    /// The first point.
    fn first(&self) -> Self::Point
        ensures point { IsPoint self.now result }
        ensures number { number_of result ≡ first_number self.now };

    /// The last point.
    fn last(&self) -> Self::Point
        ensures point { IsPoint self.now result }
        ensures number { number_of result ≡ last_number self.now };

    /// Is this a point of the type?
    fn is_point(&self, p: Self::Point) -> bool
        ensures { IsTrue result ↔ IsPoint self.now p };

    /// The point after `p`, or none after the last. It costs one step.
    fn next<L: Ledger>(&self, p: Self::Point, steps: &mut Steps<L>) -> Option<Self::Point>
        requires { IsPoint self.now p }
        ensures last { IsNone result ↔ (number_of p ≡ last_number self.now) }
        ensures next { IfSome result (λ q. IsPoint self.now q × (number_of q ≡ number_of p +ℤ pos 1)) }
        ensures cost { steps.new ≡ steps.old + 1 };

    /// The point before `p`, or none before the first. It costs one step.
    fn prior<L: Ledger>(&self, p: Self::Point, steps: &mut Steps<L>) -> Option<Self::Point>
        requires { IsPoint self.now p }
        ensures first { IsNone result ↔ (number_of p ≡ first_number self.now) }
        ensures prior { IfSome result (λ q. IsPoint self.now q × (number_of q ≡ number_of p -ℤ pos 1)) }
        ensures cost { steps.new ≡ steps.old + 1 };

    /// The order of the points' numbers. It costs one step.
    fn compare<L: Ledger>(&self, a: Self::Point, b: Self::Point, steps: &mut Steps<L>) -> Ordering
        requires a { IsPoint self.now a }
        requires b { IsPoint self.now b }
        ensures order { result ≡ int_cmp (number_of a) (number_of b) }
        ensures cost { steps.new ≡ steps.old + 1 };

    /// Orders the pairs by point, then by index. It costs a step for each pair and each binary digit of their number. At
    /// `Memory` the list has the same pairs in some order.
    fn sort<L: Ledger>(
        &self,
        alloc: Global,
        list: &mut Vec<(Self::Point, usize)>,
        steps: &mut Steps<L>,
    ) -> Result<(), Memory>
        requires { (pair : _) → Contains list.old.items pair → IsPoint self.now pair.0 }
        ensures same { IsPermutation list.old.items list.new.items }
        ensures order { OnOk result (InOrder number_of list.new.items) }
        ensures cost { steps.new ≡ steps.old + sort_charge (length list.old.items) };

    /// A type has a point.
    ghost nonempty: { (t : Self) → first_number t ≤ℤ last_number t };

    /// The numbers of the points are those from the first to the last.
    ghost within: { (t : Self) (p : Self.Point) → IsPoint t p → (first_number t ≤ℤ number_of p) × (number_of p ≤ℤ last_number t) };

    ghost each: { (t : Self) (n : ℤ) → first_number t ≤ℤ n → n ≤ℤ last_number t → (p : Self.Point) × IsPoint t p × (number_of p ≡ n) };

    /// Points with one number are one point.
    ghost same: { (t : Self) (p q : Self.Point) → IsPoint t p → IsPoint t q → number_of p ≡ number_of q → p ≡ q };
}

/// A point type whose points can be told by their numbers, at no step.
pub trait PointNumber: PointType {
    /// The number of a point.
    fn number(&self, p: Self::Point) -> i64
        requires { Self.IsPoint self.now p }
        ensures { result ≡ Self.number_of p };

    /// The point of that number, or none outside the type.
    fn point(&self, n: i64) -> Option<Self::Point>
        ensures within { IsSome result ↔ ((Self.first_number self.now ≤ℤ n) × (n ≤ℤ Self.last_number self.now)) }
        ensures point { IfSome result (λ p. Self.IsPoint self.now p × (Self.number_of p ≡ n)) };
}

// Selectors: an interval by two points and brackets.
ghost use Rattle.std.specs.Prelude.{◌≡◌, ℤ, ◌≤ℤ◌, IfOk, IfSome};
ghost use Rattle.interval_core.specs.Selector.{first_member, last_member, selected, IsRunIn};

use crate::interval::Interval;
use point_core::PointNumber;

/// The brackets of a selector. A closed end has its point, an open one leaves it out; the begin is named first.
#[derive(Clone, Copy, Debug, PartialEq, Eq)]
pub enum Ends {
    Closed,
    ClosedOpen,
    OpenClosed,
    Open,
}

/// Why a selector gives no interval: an open end needs a point that the type does not have, or no point is left.
#[derive(Clone, Copy, Debug, PartialEq, Eq)]
pub enum SelectFault {
    NoPoint,
    Empty,
}

impl<T: PointNumber> Interval<T> {
    ghost use Rattle.std.specs.Prelude.{◌≡◌, Ok, Err, IfOk, IfErr};
    ghost use Rattle.interval_core.specs.Members.{span, HasEndsIn};
    ghost use Rattle.interval_core.specs.Selector.{selected};

    /// The points from `b` to `e`, without the ends that the brackets leave out.
    pub fn select(t: &T, ends: Ends, b: T::Point, e: T::Point) -> Result<Interval<T>, SelectFault>
        requires begin { T.IsPoint t.now b }
        requires end { T.IsPoint t.now e }
        ensures ok { IfOk result (λ i.
            selected (T.first_number t.now) (T.last_number t.now) ends (T.number_of b) (T.number_of e) ≡ Ok (span T.number_of i)) }
        ensures err { IfErr result (λ f.
            selected (T.first_number t.now) (T.last_number t.now) ends (T.number_of b) (T.number_of e) ≡ Err f) }
        ensures points { IfOk result (HasEndsIn T.IsPoint t.now) }
    {
        let (first, last) = (t.number(t.first()), t.number(t.last()));
        let numbers = numbers_of(first, last, ends, t.number(b), t.number(e))?;
        Ok(Interval::of_numbers(t, numbers))
    }
}

// The numbers of the first and the last member, in a type whose points are numbered from `first` to `last`.
fn numbers_of(first: i64, last: i64, ends: Ends, b: i64, e: i64) -> Result<(i64, i64), SelectFault>
    requires begin { first ≤ℤ b }
    requires end { e ≤ℤ last }
    ensures selected { result ≡ selected first last ends b e }
    ensures within { IfOk result (IsRunIn first last) }
{
    let begin = first_member(last, ends, b).ok_or(SelectFault::NoPoint)?;
    let end = last_member(first, ends, e).ok_or(SelectFault::NoPoint)?;
    if begin <= end {
        Ok((begin, end))
    } else {
        Err(SelectFault::Empty)
    }
}

fn first_member(last: i64, ends: Ends, b: i64) -> Option<i64>
    ensures member { result ≡ first_member last ends b }
    ensures from { IfSome result (λ n. b ≤ℤ n) }
{
    match ends {
        Ends::Closed | Ends::ClosedOpen => Some(b),
        Ends::OpenClosed | Ends::Open if b < last => Some(b + 1),
        _ => None,
    }
}

fn last_member(first: i64, ends: Ends, e: i64) -> Option<i64>
    ensures member { result ≡ last_member first ends e }
    ensures to { IfSome result (λ n. n ≤ℤ e) }
{
    match ends {
        Ends::Closed | Ends::OpenClosed => Some(e),
        Ends::ClosedOpen | Ends::Open if first < e => Some(e - 1),
        _ => None,
    }
}

// The rows that pairs of rows give.
ghost use Rattle.std.specs.Prelude.{◌≡◌, ◌<◌, ◌⊎◌, ℕ, map, set, length, IfOk, IsTrue};
ghost use Rattle.std.specs.Int.{int_max, int_min};
ghost use Rattle.cell_packing.specs.Covering.{Among};
ghost use Rattle.point_core.specs.declared.any_type.AnyType.{AnyType};
ghost use Rattle.point_core.specs.Points.{line_of, number, IsPointOf};
ghost use Rattle.interval_core.specs.Members.{span, HasEndsIn};
ghost use Rattle.value_core.specs.declared.kind.Kind.TheVariants as kind;
ghost use Rattle.value_core.specs.Attributes.{value_at, span_of};
ghost use Rattle.value_core.specs.Plain.{plain};
ghost use Rattle.value_core.specs.Values.{interval, fits};
ghost use Rattle.u_set.specs.Apart.{span_in};
ghost use Rattle.u_join.specs.RowPairs.{seen, met, Meet, IsMeeting, AreOfType, made_row, pair_row};

use crate::labels::joined_values;
use crate::standing::Standing;
use interval_core::Interval;
use point_core::{AnyPoint, AnyType, Memory};
use std::alloc::Global;
use u_set::interval_of;
use value_core::{Row, Value};

/// Where the values of a joined row come from: their places among those of a left row, followed by those of a right one; and the type
/// of the interval at a position, which is made of both rows' intervals.
#[derive(Clone, Copy)]
pub(crate) struct Sources<'a> {
    pub places: &'a [usize],
    pub point_type: AnyType,
    pub at: usize,
    pub here: usize,
    pub there: usize,
}

// The later one of the points.
fn later_point(p: AnyPoint, q: AnyPoint) -> AnyPoint
    ensures number { number result ≡ int_max (number p) (number q) }
    ensures one { (result ≡ p) ⊎ (result ≡ q) }
{
    if p.number() < q.number() { q } else { p }
}

// The earlier one of the points.
fn earlier_point(p: AnyPoint, q: AnyPoint) -> AnyPoint
    ensures number { number result ≡ int_min (number p) (number q) }
    ensures one { (result ≡ p) ⊎ (result ≡ q) }
{
    if q.number() < p.number() { q } else { p }
}

// What the intervals have in common.
fn common(i: &Interval<AnyType>, j: &Interval<AnyType>) -> Interval<AnyType>
    requires { Meet (span number i.now) (span number j.now) }
    ensures numbers { span number result ≡ met (span number i.now) (span number j.now) }
    ensures points { (t : AnyType) → HasEndsIn IsPointOf t i.now → HasEndsIn IsPointOf t j.now → HasEndsIn IsPointOf t result }
{
    let begin = later_point(i.begin(), j.begin());
    let end = earlier_point(i.end(), j.end());
    Interval::of(begin, end)
}

/// The value of an interval of the type.
pub(crate) fn value_of(point_type: AnyType, i: &Interval<AnyType>) -> Value
    requires { HasEndsIn IsPointOf point_type i.now }
    ensures { plain result ≡ interval (line_of point_type) (span number i.now) }
{
    Value::Span(Interval::of(i.begin(), i.end()))
}

// What the intervals of the type have in common, as a value.
fn common_value(point_type: AnyType, x: &Value, y: &Value) -> Value
    requires x { IsTrue (fits (kind.Span point_type) (plain x.now)) }
    requires y { IsTrue (fits (kind.Span point_type) (plain y.now)) }
    requires meet { Meet (span_of (plain x.now)) (span_of (plain y.now)) }
    ensures { plain result ≡ interval (line_of point_type) (met (span_of (plain x.now)) (span_of (plain y.now))) }
{
    let i = interval_of(x);
    let j = interval_of(y);
    value_of(point_type, &common(&i, &j))
}

/// Puts the value at the place.
pub(crate) fn put(values: &mut Vec<Value>, at: usize, value: Value)
    requires { at < length values.old.items }
    ensures { map plain values.new.items ≡ set (map plain values.old.items) at (plain value) }
{
    values[at] = value;
}

// The row that two rows give.
fn made_of(alloc: Global, x: &Row, y: &Row, sources: &Sources) -> Result<Row, Memory>
    requires at { sources.now.at < length sources.now.places.now }
    requires x { IsTrue (fits (kind.Span sources.now.point_type) (value_at x.now sources.now.here)) }
    requires y { IsTrue (fits (kind.Span sources.now.point_type) (value_at y.now sources.now.there)) }
    requires meet { Meet (span_in sources.now.here x.now) (span_in sources.now.there y.now) }
    ensures { IfOk result (λ r. r ≡ made_row sources.now.places.now sources.now.point_type sources.now.at sources.now.here sources.now.there x.now y.now) }
{
    let (ours, theirs) = (x.values(), y.values());
    let common = common_value(
        sources.point_type,
        &ours[sources.here],
        &theirs[sources.there],
    );
    let mut values = joined_values(alloc, ours, theirs, sources.places)?;
    put(&mut values, sources.at, common);
    Ok(Row::make(values))
}

// The row that the rows of the numbers give.
fn of_pair(
    alloc: Global,
    left: &[Standing],
    right: &[Standing],
    pair: (usize, usize),
    sources: &Sources,
) -> Result<Row, Memory>
    requires at { sources.now.at < length sources.now.places.now }
    requires left { AreOfType sources.now.point_type sources.now.here left.now }
    requires right { AreOfType sources.now.point_type sources.now.there right.now }
    requires pair { IsMeeting seen left.now right.now pair }
    ensures { IfOk result (λ r. r ≡ pair_row sources.now.places.now sources.now.point_type sources.now.at sources.now.here sources.now.there left.now right.now pair) }
{
    let row = made_of(alloc, left[pair.0].row, right[pair.1].row, sources)?;
    Ok(row)
}

/// The rows that all the pairs give.
pub(crate) fn of_pairs(
    alloc: Global,
    left: &[Standing],
    right: &[Standing],
    pairs: &[(usize, usize)],
    sources: &Sources,
) -> Result<Vec<Row>, Memory>
    requires at { sources.now.at < length sources.now.places.now }
    requires left { AreOfType sources.now.point_type sources.now.here left.now }
    requires right { AreOfType sources.now.point_type sources.now.there right.now }
    requires pairs { (p : ℕ × ℕ) → Among p pairs.now → IsMeeting seen left.now right.now p }
    ensures { IfOk result (λ v. v.items ≡ map (pair_row sources.now.places.now sources.now.point_type sources.now.at sources.now.here sources.now.there left.now right.now) pairs.now) }
{
    let mut rows = Vec::with_capacity(alloc, pairs.len())?;
    for pair in pairs {
        let row = of_pair(alloc, left, right, *pair, sources)?;
        rows.push(row)?;
    }
    Ok(rows)
}

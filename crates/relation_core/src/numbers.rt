// The hash of a value, and of a row's values at positions.
ghost use Rattle.std.specs.Prelude.{◌≡◌, ◌<◌, ℕ, fold, length};
ghost use Rattle.std.specs.List.{All};
ghost use Rattle.point_core.specs.Points.{line};
ghost use Rattle.value_core.specs.Plain.{plain, ends};
ghost use Rattle.value_core.specs.Values.{same_line};
ghost use Rattle.relation_core.specs.Hashes.{mixed, value_hash, row_hash, hash_of};

use interval_core::Interval;
use point_core::{AnyPoint, AnyType};
use value_core::{Row, Value};

/// The hash that goes on with a number.
#[tactic(auto, unfolding(crate::specs::Hashes::mixed))]
fn mixed(hash: u64, n: u64) -> u64
    ensures { result ≡ mixed hash n }
{
    hash.wrapping_mul(1_000_003).wrapping_add(n)
}

/// The hash of the bytes, one after the other.
fn bytes_hash(bytes: &[u8]) -> u64
    ensures { result ≡ fold (λ (hash : ℕ) (byte : ℕ). mixed hash byte) 0 bytes.now }
{
    let mut hash = 0;
    for byte in bytes {
        hash = mixed(hash, u64::from(*byte));
    }
    hash
}

/// Whether the points stand on one line.
fn is_one_line(a: AnyPoint, b: AnyPoint) -> bool
    ensures { result ≡ same_line (line a) (line b) }
{
    match (a, b) {
        (AnyPoint::Integer(_), AnyPoint::Integer(_)) => true,
        (AnyPoint::Date(_), AnyPoint::Date(_)) => true,
        (AnyPoint::Ordinal { of: m, at: _ }, AnyPoint::Ordinal { of: n, at: _ }) => {
            m.cmp(&n).is_eq()
        }
        (AnyPoint::Moment(_), AnyPoint::Moment(_)) => true,
        _ => false,
    }
}

/// The numbers of the ends. Points of two lines are the ends of no interval: they give the numbers of an empty one.
fn end_numbers(i: &Interval<AnyType>) -> (i64, i64)
    ensures { result ≡ ends i.now }
{
    let (begin, end) = (i.begin(), i.end());
    if is_one_line(begin, end) {
        (begin.number(), end.number())
    } else {
        (1, 0)
    }
}

/// The hash of a value.
fn value_hash(v: &Value) -> u64
    ensures { result ≡ value_hash (plain v.now) }
{
    match v {
        Value::Truth(b) => u64::from(*b),
        Value::Char(text) => bytes_hash(text.as_str().as_bytes()),
        Value::Point(p) => p.number().cast_unsigned(),
        Value::Span(i) => {
            let (begin, end) = end_numbers(i);
            mixed(begin.cast_unsigned(), end.cast_unsigned())
        }
    }
}

/// The hash of the row's values, one after the other.
pub fn row_hash(row: &Row) -> u64
    ensures { result ≡ row_hash row.now }
{
    let values = row.values();
    let mut hash = 0;
    for value in values {
        hash = mixed(hash, value_hash(value));
    }
    hash
}

/// The hash of the row's values at the positions.
pub(crate) fn hash_of(row: &Row, positions: &[usize]) -> u64
    requires { All (λ (i : ℕ). i < length row.now) positions.now }
    ensures { result ≡ hash_of positions.now row.now }
{
    let values = row.values();
    let mut hash = 0;
    for position in positions {
        hash = mixed(hash, value_hash(&values[*position]));
    }
    hash
}

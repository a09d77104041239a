// Rows that stand in order of time, or of keys and of time.
ghost use Rattle.std.specs.Prelude.{◌≡◌, true};
ghost use Rattle.std.specs.List.{All, list_all};
ghost use Rattle.value_core.specs.Attributes.{among};
ghost use Rattle.u_set.specs.Apart.{HasInterval, Follows, FollowsIn, IsChain};
ghost use Rattle.u_set.specs.declared.apart.Gap.TheVariants.{One};

use crate::apart::{Gap, begins_past, compare_at};
use crate::positions::is_listed;
use std::cmp::Ordering;
use value_core::Row;

// Whether y begins after the end of x, and with a point between where both have the same values at the label's positions.
fn follows(x: &Row, y: &Row, label: &[usize], at: usize) -> bool
    requires x { HasInterval at x.now }
    requires y { HasInterval at y.now }
    ensures { result ≡ true → Follows label.now at x.now y.now }
{
    if begins_past(x, y, at, Gap::One) {
        return true;
    }
    begins_past(x, y, at, Gap::Zero) && !compare_at(x, y, label).is_eq()
}

// Whether y has a later key than x, or the same and follows it so.
fn follows_in(x: &Row, y: &Row, key: &[usize], label: &[usize], at: usize) -> bool
    requires x { HasInterval at x.now }
    requires y { HasInterval at y.now }
    ensures { result ≡ true → FollowsIn key.now label.now at x.now y.now }
{
    match compare_at(x, y, key) {
        Ordering::Less => true,
        Ordering::Equal => follows(x, y, label, at),
        Ordering::Greater => false,
    }
}

// Whether each position of the key is one of the label's.
fn lies_in(key: &[usize], label: &[usize]) -> bool
    ensures { result ≡ list_all (among label.now) key.now }
{
    key.iter().all(|position| is_listed(label, *position))
}

// Whether each row but the first follows the one before it by the key.
fn each_follows(rows: &[Row], key: &[usize], label: &[usize], at: usize) -> bool
    requires spans { All (HasInterval at) rows.now }
    requires key { list_all (among label.now) key.now ≡ true }
    ensures { result ≡ true → IsChain label.now at One rows.now }
{
    for i in 1..rows.len() {
        if !follows_in(&rows[i - 1], &rows[i], key, label, at) {
            return false;
        }
    }
    true
}

/// Whether each row but the first has a later key than the one before it, or the same and begins after its end, and with a point
/// between where both have the same values at the label's positions. The key is some of the label, or else this is not seen. Then no
/// two rows with the same values at the label's positions overlap or follow one another.
pub(crate) fn stand_in_time(rows: &[Row], key: &[usize], label: &[usize], at: usize) -> bool
    requires { All (HasInterval at) rows.now }
    ensures { result ≡ true → IsChain label.now at One rows.now }
{
    lies_in(key, label) && each_follows(rows, key, label, at)
}

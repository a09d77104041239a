// Where the least and the greatest value stand.
ghost use Rattle.std.specs.Prelude.{◌≡◌, ◌↔◌, [], map, IsNone, IfSome};
ghost use Rattle.value_core.specs.Plain.{plain};
ghost use Rattle.u_summary.specs.Summaries.{is_before, IsFirstLeast, IsFirstGreatest};

use value_core::Value;

/// Whether the first value comes before the second in the printing order.
fn is_before(a: &Value, b: &Value) -> bool
    ensures { result ≡ is_before (plain a.now) (plain b.now) }
{
    a < b
}

/// The index at which the least value in the printing order stands first, or none for no values.
pub fn least(values: &[Value]) -> Option<usize>
    ensures first { IfSome result (IsFirstLeast (map plain values.now)) }
    ensures none { IsNone result ↔ (values.now ≡ []) }
{
    if values.is_empty() {
        return None;
    }
    let mut best = 0;
    for at in 1..values.len() {
        if is_before(&values[at], &values[best]) {
            best = at;
        }
    }
    Some(best)
}

/// The index at which the greatest value in the printing order stands first, or none for no values.
pub fn greatest(values: &[Value]) -> Option<usize>
    ensures first { IfSome result (IsFirstGreatest (map plain values.now)) }
    ensures none { IsNone result ↔ (values.now ≡ []) }
{
    if values.is_empty() {
        return None;
    }
    let mut best = 0;
    for at in 1..values.len() {
        if is_before(&values[best], &values[at]) {
            best = at;
        }
    }
    Some(best)
}

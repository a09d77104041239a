// Exact sums.
ghost use Rattle.std.specs.Prelude.{◌≡◌, ◌↔◌, IsSome, IfSome};
ghost use Rattle.point_core.specs.Whole.{IsWhole};
ghost use Rattle.u_summary.specs.Summaries.{total};

/// The exact sum. A slice is too short for it to leave 128 bits.
fn total(values: &[i64]) -> i128
    ensures { result ≡ total values.now }
{
    let mut sum = 0i128;
    for value in values {
        sum += i128::from(*value);
    }
    sum
}

/// The sum of the values, or none exactly where the sum of all leaves 64 bits, whatever the sums on the way are.
pub fn sum(values: &[i64]) -> Option<i64>
    ensures some { IsSome result ↔ IsWhole (total values.now) }
    ensures exact { IfSome result (λ s. s ≡ total values.now) }
{
    i64::try_from(total(values)).ok()
}

// The numbers, the dates and the moments that literals write.
ghost use Rattle.std.specs.Prelude.{◌≡◌, Some, None, nat_le, nat_lt, if◌then◌else◌};
ghost use Rattle.utd_syntax.specs.Literals.{value_of};
ghost use Rattle.utd_syntax.specs.Literals as literals;

use point_core::{read_date, read_moment};

/// The number that the digits write, where it is at most that.
pub fn number_up_to(most: u64, digits: &[u8]) -> Option<u64>
    ensures { result ≡ (if nat_le (value_of digits.now) most then Some (value_of digits.now) else None) }
{
    let mut value: u128 = 0;
    for digit in digits {
        value = 10 * value + u128::from(digit.saturating_sub(48));
        if value > u128::from(most) {
            return None;
        }
    }
    Some(value as u64)
}

/// The digits write a number above the most.
pub fn exceeds(digits: &[u8], most: u64) -> bool
    ensures { result ≡ nat_lt most (value_of digits.now) }
{
    number_up_to(most, digits).is_none()
}

/// The text is a date as `YYYY-MM-DD` of a day that exists, from 0001-01-01 to 9999-12-31.
pub fn is_date(text: &[u8]) -> bool
    ensures { result ≡ literals.is_date text.now }
{
    read_date(text).is_some()
}

/// The text is a moment as `YYYY-MM-DDTHH:MM:SS`: a day that exists, from 0001-01-01 to 9999-12-31, and an hour up to 23, a
/// minute up to 59 and a second up to 59.
pub fn is_moment(text: &[u8]) -> bool
    ensures { result ≡ literals.is_moment text.now }
{
    read_moment(text).is_some()
}

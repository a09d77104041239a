// Dates by year, month and day, and as text.
ghost use Rattle.std.specs.Prelude.{◌≡◌, ◌↔◌, ℕ, ◌+◌, ◌-◌, ◌*◌, ◌/◌, ◌%◌, ◌≤◌, ℤ, IsTrue, IsSome, IfSome, IsNone, length};
ghost use Rattle.std.specs.Char.{IsAsciiDigit};
ghost use Rattle.point_core.specs.Dates.{IsDay, IsCalendarDate, IsDateText, date_number};

use crate::date_type::Day;
use jiff::civil::Date;

/// The day of a date, or none where the calendar of the years 1 to 9999 has no such date.
fn day_of_date(year: u16, month: u8, day: u8) -> Option<Day>
    requires year { year ≤ 9999 }
    requires month { month ≤ 99 }
    requires day { day ≤ 99 }
    ensures exists { IsSome result ↔ IsCalendarDate year month day }
    ensures number { IfSome result (λ d. d.number ≡ date_number year month day) }
    ensures point { IfSome result (λ d. IsDay d.number) }
{
    if year < 1 {
        return None;
    }
    match Date::new(year as i16, month as i8, day as i8) {
        Ok(date) => Some(Day {
            number: date.to_plain().to_unix_epoch_day(),
        }),
        Err(_) => None,
    }
}

/// The year, the month and the day of the month of a day.
pub fn date_parts(day: Day) -> (u16, u8, u8)
    requires { IsDay day.number }
    ensures date { IsCalendarDate result.0 result.1 result.2 }
    ensures number { date_number result.0 result.1 result.2 ≡ day.number }
{
    let date = jiff_core::civil::Date::from_unix_epoch_day(i64::from(day.number)).unwrap();
    (date.year as u16, date.month, date.day)
}

/// The number that two decimal digits write, or none where one of them is no digit.
pub(crate) fn two_digits(tens: u8, ones: u8) -> Option<u8>
    ensures digits { IsSome result ↔ (IsAsciiDigit tens × IsAsciiDigit ones) }
    ensures number { IfSome result (λ n. (n ≤ 99) × (tens ≡ 48 + n / 10) × (ones ≡ 48 + n % 10)) }
{
    if tens.is_ascii_digit() && ones.is_ascii_digit() {
        Some(10 * (tens - b'0') + (ones - b'0'))
    } else {
        None
    }
}

/// The day of a date that is written as `YYYY-MM-DD`, or none where the text is not that of a date of the years 1 to 9999.
pub fn read_date(text: &[u8]) -> Option<Day>
    ensures date { IfSome result (λ day. IsDateText text.now day.number) }
    ensures point { IfSome result (λ day. IsDay day.number) }
    ensures none { IsNone result → (n : ℤ) → ¬ IsDateText text.now n }
{
    let &[a, b, c, d, b'-', e, f, b'-', g, h] = text else {
        return None;
    };
    let hundreds = two_digits(a, b)?;
    let years = two_digits(c, d)?;
    let month = two_digits(e, f)?;
    let day = two_digits(g, h)?;
    let found = day_of_date(100 * u16::from(hundreds) + u16::from(years), month, day)?;
    Some(found)
}

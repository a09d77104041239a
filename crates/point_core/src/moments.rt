// Moments by date and clock, and as text.
ghost use Rattle.std.specs.Prelude.{◌≡◌, ◌↔◌, ℕ, ◌<◌, ℤ, pos, ◌+ℤ◌, ◌*ℤ◌, IsSome, IfSome, IsNone};
ghost use Rattle.point_core.specs.Dates.{IsCalendarDate, IsDay};
ghost use Rattle.point_core.specs.Moments.{IsClock, IsClockText, IsMomentText, IsSecond, clock_number, moment_number};

use crate::date_type::Day;
use crate::dates::{date_parts, read_date, two_digits};
use crate::moment_type::Second;

/// The seconds of a day.
const DAY_SECONDS: i64 = 86_400;

/// The bytes of a date, in front of the `T`.
const DATE_BYTES: usize = 10;

/// How many seconds of the day come before what the clock shows, or none where no clock shows it.
fn clock_at(hour: u8, minute: u8, second: u8) -> Option<u32>
    ensures exists { IsSome result ↔ IsClock hour minute second }
    ensures number { IfSome result (λ n. n ≡ clock_number hour minute second) }
{
    if hour <= 23 && minute <= 59 && second <= 59 {
        Some(u32::from(hour) * 3600 + u32::from(minute) * 60 + u32::from(second))
    } else {
        None
    }
}

/// How many seconds of the day come before a clock that is written as `HH:MM:SS`, or none where the text is not that of a clock.
fn read_clock(text: &[u8]) -> Option<u32>
    ensures clock { IfSome result (λ n. IsClockText text.now n) }
    ensures none { IsNone result → (n : ℕ) → ¬ IsClockText text.now n }
{
    let &[a, b, b':', c, d, b':', e, f] = text else {
        return None;
    };
    let hour = two_digits(a, b)?;
    let minute = two_digits(c, d)?;
    let second = two_digits(e, f)?;
    let found = clock_at(hour, minute, second)?;
    Some(found)
}

/// The moment of a day and so many seconds of it.
fn moment_of(day: Day, clock: u32) -> Second
    requires day { IsDay day.number }
    requires clock { clock < 86400 }
    ensures { result.number ≡ day.number *ℤ pos 86400 +ℤ pos clock }
{
    Second {
        number: i64::from(day.number) * DAY_SECONDS + i64::from(clock),
    }
}

/// The moment that is written as `YYYY-MM-DDTHH:MM:SS`, or none where the text is not that of a moment of the years 1 to 9999.
pub fn read_moment(text: &[u8]) -> Option<Second>
    ensures moment { IfSome result (λ m. IsMomentText text.now m.number) }
    ensures point { IfSome result (λ m. IsSecond m.number) }
    ensures none { IsNone result → (n : ℤ) → ¬ IsMomentText text.now n }
{
    if text.len() < DATE_BYTES {
        return None;
    }
    let (date, behind) = text.split_at(DATE_BYTES);
    let (mark, clock) = behind.split_first()?;
    if *mark != b'T' {
        return None;
    }
    let day = read_date(date)?;
    let seconds = read_clock(clock)?;
    Some(moment_of(day, seconds))
}

/// The year, the month, the day of the month, the hour, the minute and the second of a moment.
pub fn moment_parts(m: Second) -> (u16, u8, u8, u8, u8, u8)
    requires { IsSecond m.number }
    ensures parts { IsCalendarDate result.0 result.1 result.2 × IsClock result.3 result.4 result.5 }
    ensures number { moment_number result.0 result.1 result.2 result.3 result.4 result.5 ≡ m.number }
{
    let (year, month, day) = date_parts(Day {
        number: m.number.div_euclid(DAY_SECONDS) as i32,
    });
    let (hour, minute, second) = clock_parts(m.number.rem_euclid(DAY_SECONDS) as u32);
    (year, month, day, hour, minute, second)
}

/// The hour, the minute and the second that a clock shows when so many seconds of the day have gone.
fn clock_parts(seconds: u32) -> (u8, u8, u8)
    requires { seconds < 86400 }
    ensures clock { IsClock result.0 result.1 result.2 }
    ensures number { clock_number result.0 result.1 result.2 ≡ seconds }
{
    (
        (seconds / 3600) as u8,
        (seconds / 60 % 60) as u8,
        (seconds % 60) as u8,
    )
}

// Numbers, dates and moments in decimal.
ghost use Rattle.std.specs.Prelude.{◌≡◌, ◌≤◌, ◌++◌, OnOk, decimal};
ghost use Rattle.std.specs.Fmt.{signed_decimal};
ghost use Rattle.point_core.specs.Dates.{IsDay, two_digits, date_text};
ghost use Rattle.point_core.specs.Moments.{IsSecond, clock_text};
ghost use Rattle.utd_print.specs.Dates.{day_text};
ghost use Rattle.utd_print.specs.Moments.{second_text};

use itoa::Buffer;
use point_core::{Day, Memory, Second, date_parts, moment_parts};

/// Writes a number.
pub(crate) fn put_number(out: &mut Vec<u8>, number: u32) -> Result<(), Memory>
    ensures { OnOk result (out.new.items ≡ out.old.items ++ decimal number) }
{
    let mut buffer = Buffer::new();
    out.extend_from_slice(buffer.format(number).as_bytes())?;
    Ok(())
}

/// Writes how many there are.
pub(crate) fn put_count(out: &mut Vec<u8>, count: usize) -> Result<(), Memory>
    ensures { OnOk result (out.new.items ≡ out.old.items ++ decimal count) }
{
    let mut buffer = Buffer::new();
    out.extend_from_slice(buffer.format(count).as_bytes())?;
    Ok(())
}

/// Writes an integer in decimal.
pub fn put_integer(out: &mut Vec<u8>, number: i64) -> Result<(), Memory>
    ensures { OnOk result (out.new.items ≡ out.old.items ++ signed_decimal number) }
{
    let mut buffer = Buffer::new();
    out.extend_from_slice(buffer.format(number).as_bytes())?;
    Ok(())
}

/// Writes the tens and the ones of a number.
fn put_two_digits(out: &mut Vec<u8>, number: u8) -> Result<(), Memory>
    ensures { OnOk result (out.new.items ≡ out.old.items ++ two_digits number) }
{
    out.push(b'0' + number / 10)?;
    out.push(b'0' + number % 10)?;
    Ok(())
}

/// Writes a date as `YYYY-MM-DD`.
fn put_date(out: &mut Vec<u8>, year: u16, month: u8, day: u8) -> Result<(), Memory>
    requires { year ≤ 9999 }
    ensures { OnOk result (out.new.items ≡ out.old.items ++ date_text year month day) }
{
    put_two_digits(out, (year / 100) as u8)?;
    put_two_digits(out, (year % 100) as u8)?;
    out.push(b'-')?;
    put_two_digits(out, month)?;
    out.push(b'-')?;
    put_two_digits(out, day)
}

/// Writes a day by its date, as `YYYY-MM-DD`.
pub fn put_day(out: &mut Vec<u8>, day: Day) -> Result<(), Memory>
    requires { IsDay day.number }
    ensures { OnOk result (out.new.items ≡ out.old.items ++ day_text day.number) }
{
    let (year, month, day_of_month) = date_parts(day);
    put_date(out, year, month, day_of_month)
}

/// Writes a clock as `HH:MM:SS`.
fn put_clock(out: &mut Vec<u8>, hour: u8, minute: u8, second: u8) -> Result<(), Memory>
    ensures { OnOk result (out.new.items ≡ out.old.items ++ clock_text hour minute second) }
{
    put_two_digits(out, hour)?;
    out.push(b':')?;
    put_two_digits(out, minute)?;
    out.push(b':')?;
    put_two_digits(out, second)
}

/// Writes a moment by its date and its clock, as `YYYY-MM-DDTHH:MM:SS`.
pub fn put_moment(out: &mut Vec<u8>, moment: Second) -> Result<(), Memory>
    requires { IsSecond moment.number }
    ensures { OnOk result (out.new.items ≡ out.old.items ++ second_text moment.number) }
{
    let (year, month, day, hour, minute, second) = moment_parts(moment);
    put_date(out, year, month, day)?;
    out.push(b'T')?;
    put_clock(out, hour, minute, second)
}

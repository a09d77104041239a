// Dates and moments at the front of bytes.
ghost use Rattle.std.specs.Prelude.{◌≡◌, IfSome};
ghost use Rattle.point_core.specs.Dates.{IsDay};
ghost use Rattle.point_core.specs.Moments.{IsSecond};
ghost use Rattle.plain_rows.specs.Written.{BeginsWithDate, BeginsWithMoment};

use crate::quoted::quoted;
use crate::scan::{past_space, past_word};
use point_core::{Day, Second, read_date, read_moment};

/// The date at the front, and what is behind it.
pub(crate) fn date(text: &[u8]) -> Option<(Day, &[u8])>
    ensures date { IfSome result (λ r. BeginsWithDate text.now r.0.number r.1.now) }
    ensures point { IfSome result (λ r. IsDay r.0.number) }
{
    let behind = past_word(text, b"DATE")?;
    let quote = past_space(behind);
    let (written, rest) = quoted(quote)?;
    let day = read_date(written.as_bytes())?;
    Some((day, rest))
}

/// The moment at the front, and what is behind it.
pub(crate) fn moment(text: &[u8]) -> Option<(Second, &[u8])>
    ensures moment { IfSome result (λ r. BeginsWithMoment text.now r.0.number r.1.now) }
    ensures point { IfSome result (λ r. IsSecond r.0.number) }
{
    let behind = past_word(text, b"MOMENT")?;
    let quote = past_space(behind);
    let (written, rest) = quoted(quote)?;
    let second = read_moment(written.as_bytes())?;
    Some((second, rest))
}

// Integers at the front of bytes.
ghost use Rattle.std.specs.Prelude.{◌≡◌, ◌+◌, ◌-◌, ◌*◌, ◌≤◌, ◌<◌, pos, neg_ℤ, length, IfSome, true, not, ◌&&◌, nat_lt};
ghost use Rattle.std.specs.Char.{is_ascii_digit};
ghost use Rattle.std.specs.List.{prefix_len};
ghost use Rattle.utd_syntax.specs.Literals.{value_of};
ghost use Rattle.plain_rows.specs.Lexemes.{ends_before};
ghost use Rattle.plain_rows.specs.Numbers.{BeginsWithNumber};
ghost use Rattle.plain_rows.specs.Written.{BeginsWithInteger};

use crate::scan::{past_space, past_symbol};

fn is_digit(byte: u8) -> bool
    ensures value { result ≡ is_ascii_digit byte }
    ensures from { result ≡ true → 48 ≤ byte }
    ensures to { result ≡ true → byte ≤ 57 }
{
    b'0' <= byte && byte <= b'9'
}

// Whether digits end before the byte.
fn is_stopping(byte: u8) -> bool
    ensures { result ≡ (nat_lt byte 128 && not (is_ascii_digit byte)) }
{
    byte < 128 && !is_digit(byte)
}

/// How many digits stand at the front.
fn digits_len(text: &[u8]) -> usize
    ensures value { result ≡ prefix_len is_ascii_digit text.now }
    ensures within { result ≤ length text.now }
{
    let mut n = 0;
    'digits: while n < text.len() && is_digit(text[n]) {
        n += 1;
    }
    n
}

/// Whether digits end here.
fn ends_digits(rest: &[u8]) -> bool
    ensures { result ≡ ends_before is_ascii_digit rest.now }
{
    match rest.split_first() {
        None => true,
        Some((next, _)) => is_stopping(*next),
    }
}

/// The number with one more digit.
fn with_digit(number: u64, digit: u8) -> u64
    requires few { number ≤ 922337203685477580 }
    requires from { 48 ≤ digit }
    requires to { digit ≤ 57 }
    ensures { result ≡ 10 * number + (digit - 48) }
{
    10 * number + u64::from(digit - b'0')
}

/// The number that digits write; none beyond any of 64 bits.
fn number_of(digits: &[u8]) -> Option<u64>
    ensures { IfSome result (λ n. n ≡ value_of digits.now) }
{
    let mut number = 0;
    for digit in digits {
        if number > 922337203685477580 {
            return None;
        }
        if !is_digit(*digit) {
            return None;
        }
        number = with_digit(number, *digit);
    }
    Some(number)
}

/// The number that the digits at the front write, and what is behind them.
pub(crate) fn number(text: &[u8]) -> Option<(u64, &[u8])>
    ensures { IfSome result (λ r. BeginsWithNumber text.now r.0 r.1.now) }
{
    let n = digits_len(text);
    let (front, rest) = text.split_at(n);
    let value = number_of(front)?;
    if n > 0 {
        if ends_digits(rest) {
            return Some((value, rest));
        }
    }
    None
}

/// The number as an integer of 64 bits.
fn non_negative(value: u64) -> Option<i64>
    ensures few { IfSome result (λ n. value ≤ 9223372036854775807) }
    ensures is { IfSome result (λ n. n ≡ pos value) }
{
    if value <= 9223372036854775807 {
        Some(value as i64)
    } else {
        None
    }
}

/// The number behind a `-` as an integer of 64 bits.
fn negative(value: u64) -> Option<i64>
    ensures few { IfSome result (λ n. value ≤ 9223372036854775808) }
    ensures is { IfSome result (λ n. n ≡ neg_ℤ (pos value)) }
{
    if value <= 9223372036854775808 {
        Some((-i128::from(value)) as i64)
    } else {
        None
    }
}

/// The integer at the front, which has a `-`, and what is behind it.
fn signed_integer(text: &[u8]) -> Option<(i64, &[u8])>
    ensures { IfSome result (λ r. BeginsWithInteger text.now r.0 r.1.now) }
{
    let behind = past_symbol(text, b'-')?;
    let digits = past_space(behind);
    let (value, rest) = number(digits)?;
    let n = negative(value)?;
    Some((n, rest))
}

/// The integer at the front, which has no sign, and what is behind it.
fn unsigned_integer(text: &[u8]) -> Option<(i64, &[u8])>
    ensures { IfSome result (λ r. BeginsWithInteger text.now r.0 r.1.now) }
{
    let (value, rest) = number(text)?;
    let n = non_negative(value)?;
    Some((n, rest))
}

/// The integer at the front, and what is behind it.
pub(crate) fn integer(text: &[u8]) -> Option<(i64, &[u8])>
    ensures { IfSome result (λ r. BeginsWithInteger text.now r.0 r.1.now) }
{
    match signed_integer(text) {
        Some(found) => Some(found),
        None => unsigned_integer(text),
    }
}

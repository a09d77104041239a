// The bytes of characters.
ghost use Rattle.std.specs.Prelude.{◌≡◌, ◌≤◌, ◌<◌, ◌^◌, length, take, drop, encode_utf8_all};

/// How many bytes the characters have.
fn width(chars: &[char]) -> usize
    requires { length (encode_utf8_all chars.now) < 2 ^ 64 }
    ensures { result ≡ length (encode_utf8_all chars.now) }
{
    let mut n = 0;
    for c in chars {
        n += c.len_utf8();
    }
    n
}

/// How many bytes the first n of the characters have, where all have so many.
fn prefix_width(chars: &[char], n: usize, total: usize) -> usize
    requires within { n ≤ length chars.now }
    requires total { total ≡ length (encode_utf8_all chars.now) }
    ensures { result ≡ length (encode_utf8_all (take n chars.now)) }
{
    if chars.len() == total {
        // Each has one byte.
        return n;
    }
    width(chars.split_at(n).0)
}

/// Of the bytes of characters those of the first n, and those behind them.
pub(crate) fn split_behind<'a>(chars: &[char], n: usize, bytes: &'a [u8]) -> (&'a [u8], &'a [u8])
    requires within { n ≤ length chars.now }
    requires encoded { bytes.now ≡ encode_utf8_all chars.now }
    ensures prefix { result.0.now ≡ encode_utf8_all (take n chars.now) }
    ensures back { result.1.now ≡ encode_utf8_all (drop n chars.now) }
{
    bytes.split_at(prefix_width(chars, n, bytes.len()))
}

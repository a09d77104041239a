// What a token may be at most.
ghost use Rattle.std.specs.Prelude.{◌≡◌};
ghost use Rattle.utd_ranges.specs.Limits as limits;

use value_core::{MOST_TEXT_BYTES, has_control};

/// A text of too many bytes, or with a character below the space.
pub fn is_bad_text(bytes: &[u8]) -> bool
    ensures { result ≡ limits.is_bad_text bytes.now }
{
    bytes.len() > MOST_TEXT_BYTES || has_control(bytes)
}

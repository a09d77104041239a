// The white space and the comments in front of a statement.
ghost use Rattle.std.specs.Prelude.{◌≡◌, ◌≤◌, length, if◌then◌else◌};
ghost use Rattle.utd_lexer.specs.Cutting.{is_between};
ghost use Rattle.utd_lexer.specs.Gaps.{gaps_len, without_gaps};

use crate::cutter::Mode;

/// The end of what is skipped: this place where bytes end between parts, and else the one before.
fn gap_end(mode: Mode, place: usize, before: usize) -> usize
    ensures { result ≡ if is_between mode then place else before }
{
    if mode.is_between() { place } else { before }
}

/// How many bytes the longest front has that is white space and whole comments.
fn gaps_len(bytes: &[u8]) -> usize
    ensures len { result ≡ gaps_len bytes.now (length bytes.now) }
    ensures within { result ≤ length bytes.now }
{
    let mut mode = Mode::Between;
    let mut gap = 0;
    for (at, byte) in bytes.iter().enumerate() {
        if !mode.blank_next(true, *byte) {
            return gap;
        }
        mode = mode.next(*byte);
        gap = gap_end(mode, at + 1, gap);
    }
    gap
}

/// The bytes from the first token on, without the white space and the comments in front.
pub fn without_gaps(bytes: &[u8]) -> &[u8]
    ensures { result.now ≡ without_gaps bytes.now }
{
    bytes.split_at(gaps_len(bytes)).1
}

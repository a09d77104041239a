// What refuses a token that the forms allow.
ghost use Rattle.std.specs.Prelude.{◌≡◌};
ghost use Rattle.utd_ranges.specs.Limits as limits;
ghost use Rattle.utd_parser.specs.Forms.{taking_of};
ghost use Rattle.utd_parser.specs.Frames.{load_of, excess_of};

use crate::form::Taking;
use crate::limits::is_bad_text;
use crate::stack::Load;
use point_core::Code;
use utd_syntax::{Terminal, exceeds, is_date, is_moment};
use value_core::{MOST_LEVELS, MOST_NAME_BYTES, MOST_OPERATORS};

const MOST_INTEGER: u64 = 9_223_372_036_854_775_807;

fn is_wrong_text(how: Taking, bytes: &[u8]) -> bool
    ensures { result ≡ limits.is_out_of_range (taking_of how) Terminal.Quoted bytes.now }
{
    match how {
        Taking::Dated => !is_date(bytes),
        Taking::Timed => !is_moment(bytes),
        _ => is_bad_text(bytes),
    }
}

fn is_wrong_integer(how: Taking, bytes: &[u8]) -> bool
    ensures { result ≡ limits.is_out_of_range (taking_of how) Terminal.Digits bytes.now }
{
    match how {
        Taking::Negated => exceeds(bytes, MOST_INTEGER + 1),
        _ => exceeds(bytes, MOST_INTEGER),
    }
}

fn is_out_of_range(how: Taking, terminal: Terminal, bytes: &[u8]) -> bool
    ensures { result ≡ limits.is_out_of_range (taking_of how) terminal bytes.now }
{
    match terminal {
        Terminal::Name => bytes.len() > MOST_NAME_BYTES,
        Terminal::Digits => is_wrong_integer(how, bytes),
        Terminal::Quoted => is_wrong_text(how, bytes),
        _ => false,
    }
}

fn is_too_deep(how: Taking, load: Load) -> bool
    ensures { result ≡ limits.is_too_deep (taking_of how) (load_of load) }
{
    match how {
        Taking::Operator => load.operators >= MOST_OPERATORS,
        Taking::Opens(_) => load.levels >= MOST_LEVELS,
        Taking::OperatorOpens(_) => {
            load.levels >= MOST_LEVELS || load.operators >= MOST_OPERATORS
        }
        _ => false,
    }
}

/// The code of a token that is too deep, or else out of its range.
pub fn excess(how: Taking, load: Load, terminal: Terminal, bytes: &[u8]) -> Option<Code>
    ensures { result ≡ excess_of (limits.is_too_deep (taking_of how) (load_of load)) (limits.is_out_of_range (taking_of how) terminal bytes.now) }
{
    if is_too_deep(how, load) {
        Some(Code::E05)
    } else if is_out_of_range(how, terminal, bytes) {
        Some(Code::E06)
    } else {
        None
    }
}

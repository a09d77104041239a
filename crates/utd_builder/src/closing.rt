// The tokens behind which something else begins, or nothing.
ghost use Rattle.std.specs.Prelude.{◌≡◌};
ghost use Rattle.utd_builder.specs.Closing.{closes};

use utd_syntax::Terminal;

/// The token closes, or parts from the next, whatever stands before it.
pub fn closes(terminal: Terminal) -> bool
    ensures { result ≡ closes terminal }
{
    match terminal {
        Terminal::Close
        | Terminal::CloseBracket
        | Terminal::CloseBrace
        | Terminal::Comma
        | Terminal::Semicolon
        | Terminal::Colon => true,
        _ => false,
    }
}

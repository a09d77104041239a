// White space.
ghost use Rattle.std.specs.Prelude.{◌≡◌};
ghost use Rattle.utd_lexer.specs.Parts.{is_space};

/// Whether the byte is white space: a tab, an end of a line or a space.
pub fn is_space(byte: u8) -> bool
    ensures { result ≡ is_space byte }
{
    byte == b'\t' || byte == b'\n' || byte == b'\r' || byte == b' '
}

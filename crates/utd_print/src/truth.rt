// Truth values.
ghost use Rattle.std.specs.Prelude.{◌≡◌};
ghost use Rattle.utd_print.specs.Lines.{truth_line};
ghost use Rattle.utd_print.specs.Tables.{truth_text};

/// The text of a truth value.
pub fn truth_text(b: bool) -> &'static [u8]
    ensures { result.now ≡ truth_text b }
{
    if b { b"TRUE" } else { b"FALSE" }
}

/// The line of a truth value.
pub fn truth_line(b: bool) -> &'static [u8]
    ensures { result.now ≡ truth_line b }
{
    if b { b"TRUE\n" } else { b"FALSE\n" }
}

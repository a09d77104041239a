// The lines of a constraint.
ghost use Rattle.std.specs.Prelude.{◌≡◌, [], ◌∷◌};
ghost use Rattle.std.specs.Result.{result_err};
ghost use Rattle.u_constraints.specs.Constraints.{first_failed};

use point_core::Code;

/// The code, unless the line holds.
pub(crate) fn unless(kept: bool, code: Code) -> Result<(), Code>
    ensures { result_err result ≡ first_failed ((kept, code) ∷ []) }
{
    if kept { Ok(()) } else { Err(code) }
}

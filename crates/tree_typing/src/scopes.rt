// Where the names of expressions are looked up.
ghost use Rattle.std.specs.Prelude.{◌≡◌};
ghost use Rattle.tree_core.specs.Relvars.{read_relvars};
ghost use Rattle.tree_typing.specs.Scopes.{read_scope, scope_of};

use tree_core::Relvars;
use value_core::Name;

/// The relvars, views and ordinal types that expressions stand over, and names that may not be named there.
#[derive(Clone, Copy)]
pub struct Scope<'a> {
    pub relvars: &'a Relvars,
    pub closed: &'a [&'a Name],
}

/// The scope in which each name may be named.
pub(crate) fn opened(relvars: &Relvars) -> Scope<'_>
    ensures { read_scope result ≡ scope_of (read_relvars relvars.now) }
{
    Scope {
        relvars,
        closed: &[],
    }
}

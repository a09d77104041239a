// The relvars and views of names, and what ties those of a history.
ghost use Rattle.std.specs.Prelude.{◌≡◌, option_map};
ghost use Rattle.tree_core.specs.Relvars.{constraints_if, heading_if, read_relvars, relvar_named, rule_among};
ghost use Rattle.meaning_core.specs.Endings.{history_of};
ghost use Rattle.meaning_core.specs.WellMade.{IsBase};

use tree_core::{Relvars, history_if, rule_if};
use value_core::{Heading, HistoryRule, Name};

/// The heading of the base relvar of the name.
pub(crate) fn heading_named<'a>(relvars: &'a Relvars, name: &Name) -> &'a Heading
    requires { IsBase (relvar_named (read_relvars relvars.now).relvars name.now) }
    ensures { result.now ≡ heading_if (relvar_named (read_relvars relvars.now).relvars name.now) }
{
    match relvars.named(name) {
        Some(relvar) => relvar.heading(),
        None => unreachable!(),
    }
}

/// The since relvar and the during relvar of the view of the name, where it is that of a history.
pub(crate) fn history_of<'a>(relvars: &'a Relvars, name: &Name) -> Option<&'a (Name, Name)>
    ensures { option_map (λ n. n.now) result ≡ history_of (read_relvars relvars.now).relvars name.now }
{
    history_if(relvars.named(name))
}

/// The history rule of the during relvar of the name.
pub(crate) fn rule_of<'a>(relvars: &'a Relvars, name: &Name) -> Option<&'a HistoryRule>
    ensures { option_map (λ r. r.now) result ≡ rule_among (constraints_if (relvar_named (read_relvars relvars.now).relvars name.now)) }
{
    rule_if(relvars.named(name))
}

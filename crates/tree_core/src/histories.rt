// The relvars of a history, and the rule that ties them.
ghost use Rattle.std.specs.Prelude.{◌≡◌, option_map};
ghost use Rattle.tree_core.specs.Relvars.{constraints_if, history_if, history_in, read_kind, read_relvar, rule_among};

use crate::relvar::{Relvar, ViewKind};
use value_core::{Constraint, HistoryRule, Name};

// The first history rule among the constraints.
fn rule_among<'a>(constraints: &'a [Constraint]) -> Option<&'a HistoryRule>
    ensures { option_map (λ r. r.now) result ≡ rule_among constraints.now }
{
    for constraint in constraints {
        if let Constraint::History(rule) = constraint {
            return Some(rule);
        }
    }
    None
}

/// The rule of a history that stands with the relvar.
pub fn rule_if<'a>(relvar: Option<&'a Relvar>) -> Option<&'a HistoryRule>
    ensures { option_map (λ r. r.now) result ≡ rule_among (constraints_if (option_map (λ r. read_relvar r.now) relvar.entry)) }
{
    match relvar {
        Some(
            Relvar::Base {
                value: _,
                constraints,
            },
        ) => rule_among(constraints.list.as_slice()),
        Some(Relvar::View { tree: _, kind: _ }) => None,
        Some(Relvar::Log { of: _, log: _ }) => None,
        None => None,
    }
}

// The names that a view of this kind has of a history.
fn history_in<'a>(kind: &'a ViewKind) -> Option<&'a (Name, Name)>
    ensures { option_map (λ n. n.now) result ≡ history_in (read_kind kind.now) }
{
    match kind {
        ViewKind::OfHistory(names) => Some(names),
        ViewKind::Derived => None,
        ViewKind::Stored => None,
    }
}

/// The names of the since relvar and the during relvar of the view of a history.
pub fn history_if<'a>(relvar: Option<&'a Relvar>) -> Option<&'a (Name, Name)>
    ensures { option_map (λ n. n.now) result ≡ history_if (option_map (λ r. read_relvar r.now) relvar.entry) }
{
    match relvar {
        Some(Relvar::View { tree: _, kind }) => history_in(kind),
        Some(
            Relvar::Base {
                value: _,
                constraints: _,
            },
        ) => None,
        Some(Relvar::Log { of: _, log: _ }) => None,
        None => None,
    }
}

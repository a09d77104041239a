// Relvars, views and database constraints.
ghost use Rattle.std.specs.Prelude.{◌≡◌, option_map};
ghost use Rattle.tree_core.specs.Relvars.{read_relvar, read_relvars, relvar_heading, relvar_named};

use crate::test::RelTest;
use crate::tree::RelTree;
use indexmap::IndexMap;
use log_times::Log;
use value_core::{Constraints, Heading, Name, OrdinalTypes, Relation};

/// Where the rows of a view come from.
#[derive(Drop)]
pub enum ViewKind {
    /// From its expression, whenever they are asked for.
    Derived,
    /// The same; it is the view of a history, with the names of its since relvar and its during relvar.
    OfHistory((Name, Name)),
    /// The same; they are stored beside the relvars too.
    Stored,
}

/// A base relvar with its value and its constraints, a view with its expression, or the log of a base relvar.
#[derive(Drop)]
pub enum Relvar {
    Base {
        value: Relation,
        constraints: Constraints,
    },
    View {
        tree: RelTree,
        kind: ViewKind,
    },
    Log {
        of: Name,
        log: Log,
    },
}

impl Relvar {
    /// The heading of a base relvar's value, of a view's expression, or of a log.
    pub fn heading(&self) -> &Heading
        ensures { result.now ≡ relvar_heading (read_relvar self.now) }
    {
        match self {
            Relvar::Base {
                value,
                constraints: _,
            } => value.heading(),
            Relvar::View { tree, kind: _ } => &tree.heading,
            Relvar::Log { of: _, log } => log.heading(),
        }
    }
}

/// The relvars, views and logs by their names, the declared ordinal types, and the database constraints, which are rules over several
/// relvars, by theirs; each in the order of declaration; and how many statements were accepted.
#[derive(Drop)]
pub struct Relvars {
    pub list: IndexMap<Name, Relvar>,
    pub ordinals: OrdinalTypes,
    pub rules: IndexMap<Name, RelTest>,
    pub accepted: i64,
}

impl Relvars {
    /// The relvar, view or log of the name.
    pub fn named(&self, name: &Name) -> Option<&Relvar>
        ensures { option_map (λ r. read_relvar r.now) result ≡ relvar_named (read_relvars self.now).relvars name.now }
    {
        self.list.get(name)
    }
}

//! Typed relational expressions, tests and updates as trees, the relvars that they speak of, and what declares these.
#![tactic(auto)]

mod copy;
mod declaration;
mod histories;
mod item;
mod nodes;
mod relvar;
mod scalars;
mod test;
mod tree;
mod uses;
mod wrapping;

pub use copy::{copy_aggregates, copy_sets};
pub use declaration::{Assignment, Declaration, HistoryData, LogData};
pub use histories::{history_if, rule_if};
pub use item::{Change, Item, ItemForm, Items, Portion};
pub use relvar::{Relvar, Relvars, ViewKind};
pub use scalars::{
    always, attribute, closed_interval, conjunction, intervals_compared, negation, parts,
};
pub use test::{RelTest, RelateWord, TestForm};
pub use tree::{Aggregate, AggregateForm, Aggregates, InfixWord, RelForm, RelTree, Sets, Tuples};
pub use uses::{is_one_of, names_any, references_any, relvar_names_any, test_names_any};

// Where names are looked up.
use tree_core::Relvars;
use value_core::{Name, Relation};

/// The first relvars and views of a state, the rows that are stored beside them, and perhaps another value in place of one base relvar's.
#[derive(Clone, Copy)]
pub(crate) struct Scope<'a> {
    pub(crate) relvars: &'a Relvars,
    pub(crate) stored: &'a [Option<Relation>],
    pub(crate) with: Option<&'a Name>,
    pub(crate) value: Option<&'a Relation>,
    pub(crate) before: usize,
}

// Base relvars that get new values.
use point_core::Place;
use tree_core::Relvars;
use value_core::{Name, Relation};

/// A base relvar that gets a new value: its name, its place among the relvars and views, and its value. Too many rows are a fault at a
/// place of the text.
#[derive(Clone, Copy)]
pub(crate) struct Target<'a> {
    pub relvars: &'a Relvars,
    pub name: &'a Name,
    pub place: Place,
    pub at: usize,
    pub value: &'a Relation,
}

// The typed items of an assignment statement.
use crate::tree::{RelTree, Sets};
use point_core::Place;
use scalar_core::Scalar;
use value_core::{Heading, ListOf, Name, Positions};

/// The items of one statement, in the order of the text.
pub type Items = ListOf<Item>;

/// The parts of rows that change: an interval for each attribute, named by its position, in the order of the text.
pub type Portion = ListOf<(usize, Scalar)>;

/// An item: the place of its first token, the relvar that it changes, and this relvar's heading.
#[derive(Drop)]
pub struct Item {
    pub place: Place,
    pub target: Name,
    pub heading: Heading,
    pub form: ItemForm,
}

/// The forms of items. A missing condition is one that each row meets.
#[derive(Drop)]
pub enum ItemForm {
    Set(RelTree),
    Insert(Option<Positions>, RelTree),
    Delete(Option<Positions>, RelTree),
    DeleteRows(Change),
    Update(Change, Sets),
    Terminate {
        at: Scalar,
        at_place: Place,
        condition: Option<Scalar>,
    },
}

/// Which rows change, and at which of their points: the attributes of a USING or a portion, at most one of them, and a
/// condition.
#[derive(Drop)]
pub struct Change {
    pub commalist: Option<Positions>,
    pub portion: Option<Portion>,
    pub condition: Option<Scalar>,
}

// Where an operator stands.
use point_core::Place;
use value_core::Heading;

/// Where an operator stands under USING: the place of USING, the heading of its node, and the positions of the list there.
#[derive(Clone, Copy)]
pub struct Node<'a> {
    pub place: Place,
    pub heading: &'a Heading,
    pub commalist: &'a [usize],
}

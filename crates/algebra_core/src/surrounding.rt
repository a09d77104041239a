// What surrounds an operator.
use point_core::Place;

/// What surrounds an operator: nothing, or USING with its place and the positions of its list in the operator's heading.
#[derive(Clone, Copy)]
pub(crate) enum Surrounding<'a> {
    Plainly,
    Using(Place, &'a [usize]),
}

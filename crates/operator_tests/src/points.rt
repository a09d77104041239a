// Points of each type by their numbers.
use point_core::PointNumber;

/// The number of the type's point of that number, where it has one.
pub(crate) fn number_of<T: PointNumber>(t: &T, number: i64) -> Option<i64> {
    let p = t.point(number)?;
    if t.is_point(p) {
        Some(t.number(p))
    } else {
        None
    }
}

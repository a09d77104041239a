// Where the values of a group's row stand among those of the aggregates and then those of the part of its label.
ghost use Rattle.std.specs.Prelude.{◌≡◌, ◌<◌, ◌≤◌, ◌+◌, ℕ, List, map, length, get_or, IfOk, IfSome};
ghost use Rattle.value_core.specs.Values.{Row as PlainRow};
ghost use Rattle.u_set.specs.Boxes.{others};
ghost use Rattle.u_row.specs.Kept.{inner};
ghost use Rattle.eval_using.specs.Columns.{ArePlaces};
ghost use Rattle.eval_using.specs.Spots.{IsSpot, AreSpots};

use point_core::Memory;
use std::alloc::Global;
use u_row::unlisted;
use u_set::is_listed;

// Where the position stands in the list, if it does.
fn index_of(list: &[usize], position: usize) -> Option<usize>
    ensures { IfSome result (λ i. (i < length list.now) × (get_or list.now i 0 ≡ position)) }
{
    for i in 0..list.len() {
        if list[i] == position {
            return Some(i);
        }
    }
    None
}

// The sum, where it is no more than a position can be.
fn total(many: usize, i: usize) -> Option<usize>
    ensures { IfSome result (λ s. s ≡ many + i) }
{
    many.checked_add(i)
}

// The spot behind the made values, where the position is one of the part's.
fn spot_behind(many: usize, part: &[usize], position: usize) -> Option<usize>
    ensures { IfSome result (λ s. IsSpot many part.now (many + position) s) }
{
    match index_of(part, position) {
        Some(i) => total(many, i),
        None => None,
    }
}

// The spot of the value at the place, if it has one.
fn spot_of(many: usize, part: &[usize], place: usize) -> Option<usize>
    ensures { IfSome result (λ s. IsSpot many part.now place s) }
{
    if place < many {
        return Some(place);
    }
    spot_behind(many, part, place - many)
}

// The spots of the values at the places, if each has one.
fn spots_of(
    alloc: Global,
    many: usize,
    part: &[usize],
    places: &[usize],
) -> Result<Option<Vec<usize>>, Memory>
    ensures { IfOk result (λ o. IfSome o (λ v. AreSpots many part.now places.now v.items)) }
{
    let mut spots = Vec::new(alloc);
    for i in 0..places.len() {
        let place = places[i];
        match spot_of(many, part, place) {
            Some(spot) => spots.push(spot)?,
            None => return Ok(None),
        }
    }
    Ok(Some(spots))
}

// What stands in the list at none of the positions.
fn others_of(alloc: Global, commalist: &[usize], list: &[usize]) -> Result<Vec<usize>, Memory>
    ensures { IfOk result (λ v. v.items ≡ others commalist.now list.now) }
{
    let mut kept = Vec::new(alloc);
    for i in 0..list.len() {
        let own = list[i];
        if !is_listed(commalist, i) {
            kept.push(own)?;
        }
    }
    Ok(kept)
}

/// Where the unlisted values of a group's row stand among those of the aggregates, of which there are so many, and then those of the
/// part of its label; nothing where one of them stands in neither.
pub(crate) fn label_spots(
    alloc: Global,
    to: &[usize],
    at: &[usize],
    many: usize,
    commalist: &[usize],
    by: &[usize],
) -> Result<Option<Vec<usize>>, Memory>
    ensures { IfOk result (λ o. IfSome o (λ v. (rows : List PlainRow) →
        ArePlaces v.items to.now at.now (inner commalist.now by.now) many rows (map (others commalist.now) rows))) }
{
    let places = others_of(alloc, to, at)?;
    let part = unlisted(alloc, commalist, by)?;
    spots_of(alloc, many, part.as_slice(), places.as_slice())
}

// Positions of interval attributes.
ghost use Rattle.std.specs.Prelude.{◌≡◌, ℕ, ◌<◌, length, IfOk};
ghost use Rattle.std.specs.List.{All};
ghost use Rattle.value_core.specs.Attributes.{among};
ghost use Rattle.u_set.specs.Boxes.{place_of, type_of, types_at};

use point_core::{AnyType, Memory};
use std::alloc::Global;
use value_core::{Kind, Name};

/// Whether the position is one of the list.
pub fn is_listed(commalist: &[usize], i: usize) -> bool
    ensures { result ≡ among commalist.now i }
{
    commalist.iter().any(|j| i == *j)
}

/// The place of the position in the list; past its end where it is not listed.
pub(crate) fn place_of(commalist: &[usize], i: usize) -> usize
    ensures { result ≡ place_of commalist.now i }
{
    for (at, j) in commalist.iter().enumerate() {
        if i == *j {
            return at;
        }
    }
    commalist.len()
}

/// The point type of an interval attribute.
pub(crate) fn type_of(kind: Kind) -> AnyType
    ensures { result ≡ type_of kind }
{
    match kind {
        Kind::Span(t) => t,
        _ => AnyType::Integer,
    }
}

/// The point types of the attributes at the positions.
pub fn types_at(
    alloc: Global,
    heading: &[(Name, Kind)],
    commalist: &[usize],
) -> Result<Vec<AnyType>, Memory>
    requires { All (λ (i : ℕ). i < length heading.now) commalist.now }
    ensures { IfOk result (λ v. v.items ≡ types_at heading.now commalist.now) }
{
    let mut types = Vec::with_capacity(alloc, commalist.len())?;
    for i in commalist {
        types.push(type_of(heading[*i].1))?;
    }
    Ok(types)
}

// Where the key of a group stands, and the rows of a group.
ghost use Rattle.std.specs.Prelude.{◌≡◌, ◌<◌, ℕ, map, length, IfOk};
ghost use Rattle.std.specs.List.{All, list_any};
ghost use Rattle.std.specs.Str.{bytes_eq};
ghost use Rattle.value_core.specs.Headings.{position_of};
ghost use Rattle.kept_views.specs.Kept.{IsToldIn, key_names, names_at, of_key, telling_names, unlisted_names};

use crate::rule::{KeptOp, KeptRule};
use point_core::Memory;
use relation_core::{common_positions, keep, part, selection};
use std::alloc::Global;
use value_core::{Kind, Name, Relation, Row, position};

// Whether the name is that of an attribute at one of the positions.
fn is_listed(name: &Name, list: &[(Name, Kind)], positions: &[usize]) -> bool
    requires { All (λ (i : ℕ). i < length list.now) positions.now }
    ensures { result ≡ list_any (bytes_eq name.now) (names_at list.now positions.now) }
{
    for i in positions {
        if *name == list[*i].0 {
            return true;
        }
    }
    false
}

// Where the names of the attributes at positions stand among others, but for the names that are listed.
fn unlisted_places(
    alloc: Global,
    list: &[(Name, Kind)],
    listed: &[usize],
    positions: &[usize],
    to: &[(Name, Kind)],
) -> Result<Vec<usize>, Memory>
    requires listed { All (λ (i : ℕ). i < length list.now) listed.now }
    requires positions { All (λ (i : ℕ). i < length list.now) positions.now }
    ensures { IfOk result (λ v. v.items ≡ map (position_of to.now) (unlisted_names (names_at list.now listed.now) (names_at list.now positions.now))) }
{
    let mut places = Vec::new(alloc);
    for i in positions {
        let name = &list[*i].0;
        if !is_listed(name, list, listed) {
            places.push(position(to, name))?;
        }
    }
    Ok(places)
}

// The positions in the left operand of the names by which rows are told apart.
fn telling(
    alloc: Global,
    op: &KeptOp,
    left: &[(Name, Kind)],
    right: &[(Name, Kind)],
) -> Result<Vec<usize>, Memory>
    requires { IsToldIn op.now left.now }
    ensures names { IfOk result (λ v. names_at left.now v.items ≡ telling_names op.now left.now right.now) }
    ensures within { IfOk result (λ v. All (λ (i : ℕ). i < length left.now) v.items) }
{
    match op {
        KeptOp::Project(kept) => {
            let own = kept.copy(alloc)?;
            Ok(own.list)
        }
        KeptOp::Join | KeptOp::Matching | KeptOp::NotMatching => {
            common_positions(alloc, left, left, right)
        }
        KeptOp::Union | KeptOp::Intersect | KeptOp::Minus | KeptOp::Pack => {
            common_positions(alloc, left, left, left)
        }
    }
}

/// Where the names whose values are the key of a group stand among the attributes.
pub(crate) fn key_places(
    alloc: Global,
    rule: &KeptRule,
    left: &[(Name, Kind)],
    right: &[(Name, Kind)],
    to: &[(Name, Kind)],
) -> Result<Vec<usize>, Memory>
    requires told { IsToldIn rule.now.op left.now }
    requires listed { All (λ (i : ℕ). i < length left.now) rule.now.left }
    ensures { IfOk result (λ v. v.items ≡ map (position_of to.now) (key_names rule.now.op rule.now.left left.now right.now)) }
{
    let told = telling(alloc, &rule.op, left, right)?;
    unlisted_places(alloc, left, rule.left.list.as_slice(), told.as_slice(), to)
}

/// The rows with the key at the positions.
pub(crate) fn rows_of_key(
    alloc: Global,
    r: &Relation,
    positions: &[usize],
    key: &Row,
) -> Result<Relation, Memory>
    requires { All (λ (i : ℕ). i < length r.now.heading) positions.now }
    ensures heading { IfOk result (λ x. x.heading ≡ r.now.heading) }
    ensures rows { IfOk result (λ x. x.rows ≡ of_key positions.now key.now r.now.rows) }
{
    let given = r.rows();
    let mut rows = Vec::new(alloc);
    for row in given {
        let own = part(alloc, row, positions)?;
        keep(alloc, &mut rows, row, own.cmp(key).is_eq())?;
    }
    selection(alloc, r, rows)
}

// The changes by a condition that lists of assignments consist of.
ghost use Rattle.std.specs.Prelude.{◌≡◌, [], ◌∷◌, map, IfSome};
ghost use Rattle.tree_core.specs.Items.{read_assignment};
ghost use Rattle.assign_core.specs.PlainChanges.{IsAnyDeletion, IsAnyRevision};

use crate::plain::{as_plain_deletion, as_plain_revision};
use crate::portion::{Deletion, as_deletion};
use crate::revision::{Revision, as_revision};
use std::alloc::Global;
use tree_core::Assignment;
use value_core::Positions;

/// The list of no attribute.
pub(crate) fn no_positions(alloc: Global) -> Positions
    ensures { result ≡ [] }
{
    Positions {
        list: Vec::new(alloc),
    }
}

/// The deletion that the list consists of, where it is one. Where it is not under USING, its list is that of no attribute.
pub(crate) fn find_deletion<'a: 'b, 'b>(
    list: &'a [Assignment],
    none: &'b Positions,
) -> Option<Deletion<'a, 'b>>
    requires { none.now ≡ [] }
    ensures alone { IfSome result (λ d. map read_assignment list.now ≡ read_assignment d.assignment.now ∷ []) }
    ensures is { IfSome result IsAnyDeletion }
{
    match list.split_first() {
        Some((assignment, rest)) if rest.is_empty() => any_deletion(assignment, none),
        _ => None,
    }
}

// The assignment as a deletion, where it is one.
fn any_deletion<'a: 'b, 'b>(
    assignment: &'a Assignment,
    none: &'b Positions,
) -> Option<Deletion<'a, 'b>>
    requires { none.now ≡ [] }
    ensures same { IfSome result (λ d. d.assignment.now ≡ assignment.now) }
    ensures is { IfSome result IsAnyDeletion }
{
    match as_deletion(assignment) {
        Some(deletion) => Some(deletion),
        None => as_plain_deletion(assignment, none),
    }
}

/// The revision that the list consists of, where it is one. Where it is not under USING, its list is that of no attribute.
pub(crate) fn find_revision<'a: 'b, 'b>(
    list: &'a [Assignment],
    none: &'b Positions,
) -> Option<Revision<'a, 'b>>
    requires { none.now ≡ [] }
    ensures alone { IfSome result (λ r. map read_assignment list.now ≡ read_assignment r.assignment.now ∷ []) }
    ensures is { IfSome result IsAnyRevision }
{
    match list.split_first() {
        Some((assignment, rest)) if rest.is_empty() => any_revision(assignment, none),
        _ => None,
    }
}

// The assignment as a revision, where it is one.
fn any_revision<'a: 'b, 'b>(
    assignment: &'a Assignment,
    none: &'b Positions,
) -> Option<Revision<'a, 'b>>
    requires { none.now ≡ [] }
    ensures same { IfSome result (λ r. r.assignment.now ≡ assignment.now) }
    ensures is { IfSome result IsAnyRevision }
{
    match as_revision(assignment) {
        Some(revision) => Some(revision),
        None => as_plain_revision(assignment, none),
    }
}

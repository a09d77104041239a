// How many rows stored views have.
ghost use Rattle.std.specs.Prelude.{◌≡◌, ◌<◌, get_or, length, option_map, IfSome, None, Some};
ghost use Rattle.tree_core.specs.Relvars.{read_relvar, read_relvars, Entries};
ghost use Rattle.meaning_core.specs.StoredRows.{HasItsRows, HaveTheirRows};
ghost use Rattle.relvar_logs.specs.Changes.{IsSoAt};
ghost use Rattle.relvar_logs.specs.Room.{left_of};
ghost use Rattle.stored_views.specs.NextRows.{newer, renewed};
ghost use Rattle.stored_views.specs.Stored.{rows_among, IsCounted};
ghost use Rattle.stored_views.specs.ViewMoves.{all_placed, placed, AreMovesAt, IsMoveAt};

use crate::differences::moved_at;
use crate::kinds::stored_tree;
use crate::places::there;
use kept_views::Moved;
use tree_core::{Relvar, Relvars};
use value_core::Relation;

/// What is left of the number without the rows of the stored views, as they are with what stands ready for them; none, where they are more.
pub fn room_beside(
    relvars: &Relvars,
    stored: &[Option<Relation>],
    next: &[Option<Relation>],
    most: usize,
) -> Option<usize>
    ghost behind: { Entries }
    requires { HaveTheirRows behind (read_relvars relvars.now).relvars (renewed next.now stored.now) }
    ensures { result ≡ left_of most (rows_among behind (read_relvars relvars.now).relvars) }
{
    let mut room = most;
    for at in 0..relvars.list.len() {
        let count = rows_at(relvars, stored, next, at);
        if count > room {
            return None;
        }
        room -= count;
    }
    Some(room)
}

// How many rows the entry at the place has as a stored view, with what stands ready for it.
fn rows_at(
    relvars: &Relvars,
    stored: &[Option<Relation>],
    next: &[Option<Relation>],
    at: usize,
) -> usize
    ghost behind: { Entries }
    requires at { at < length relvars.now.list.entries }
    requires rows { IsSoAt at (λ r. HasItsRows behind r (newer (get_or next.now at None) (get_or stored.now at None))) (read_relvars relvars.now).relvars }
    ensures { IsSoAt at (IsCounted behind result) (read_relvars relvars.now).relvars }
{
    match relvars.list.get_index(at) {
        Some((_, relvar)) => rows_of(relvar, newer(there(next, at), there(stored, at))),
        None => unreachable!(),
    }
}

// The rows that stand ready, or the stored ones where none do.
fn newer<'a>(next: Option<&'a Relation>, stored: Option<&'a Relation>) -> Option<&'a Relation>
    ensures { option_map (λ r. r.now) result ≡ newer (option_map (λ r. r.now) next.entry) (option_map (λ r. r.now) stored.entry) }
{
    match next {
        Some(rows) => Some(rows),
        None => stored,
    }
}

// How many rows the relvar has as a stored view, where these are its rows.
fn rows_of(relvar: &Relvar, rows: Option<&Relation>) -> usize
    ghost behind: { Entries }
    requires { HasItsRows behind (read_relvar relvar.now) (option_map (λ r. r.now) rows) }
    ensures { IsCounted behind result (read_relvar relvar.now) }
{
    match stored_tree(relvar) {
        Some(_) => match rows {
            Some(view) => view.rows().len(),
            None => unreachable!(),
        },
        None => 0,
    }
}

/// What is left of the number without the rows of the stored views, as they are once these rows come and go; none, where they are more. The
/// rows that come and go are only counted.
pub fn room_with(
    relvars: &Relvars,
    stored: &[Option<Relation>],
    moves: &[Option<Moved>],
    most: usize,
) -> Option<usize>
    ghost behind: { Entries }
    requires rows { HaveTheirRows behind (read_relvars relvars.now).relvars (all_placed moves.now stored.now) }
    requires moves { AreMovesAt moves.now stored.now }
    ensures { result ≡ left_of most (rows_among behind (read_relvars relvars.now).relvars) }
{
    let mut room = most;
    for at in 0..relvars.list.len() {
        let count = moved_rows_at(relvars, stored, moves, at);
        if count > room {
            return None;
        }
        room -= count;
    }
    Some(room)
}

// How many rows the entry at the place has as a stored view, once these rows come and go.
fn moved_rows_at(
    relvars: &Relvars,
    stored: &[Option<Relation>],
    moves: &[Option<Moved>],
    at: usize,
) -> usize
    ghost behind: { Entries }
    requires at { at < length relvars.now.list.entries }
    requires rows { IsSoAt at (λ r. HasItsRows behind r (placed (get_or moves.now at None) (get_or stored.now at None))) (read_relvars relvars.now).relvars }
    requires place { IsMoveAt (get_or moves.now at None) (get_or stored.now at None) }
    ensures { IsSoAt at (IsCounted behind result) (read_relvars relvars.now).relvars }
{
    match relvars.list.get_index(at) {
        Some((_, relvar)) => moved_rows_of(relvar, there(stored, at), moved_at(moves, at)),
        None => unreachable!(),
    }
}

// How many rows the relvar has as a stored view, where these were its rows.
fn moved_rows_of(relvar: &Relvar, rows: Option<&Relation>, moved: Option<&Moved>) -> usize
    ghost behind: { Entries }
    requires rows { HasItsRows behind (read_relvar relvar.now) (placed (option_map (λ m. m.now) moved) (option_map (λ r. r.now) rows)) }
    requires place { IsMoveAt (option_map (λ m. m.now) moved) (option_map (λ r. r.now) rows) }
    ensures { IsCounted behind result (read_relvar relvar.now) }
{
    match stored_tree(relvar) {
        Some(_) => match rows {
            Some(view) => moved_count(view, moved),
            None => unreachable!(),
        },
        None => 0,
    }
}

// How many rows there are in place of these.
fn moved_count(view: &Relation, moved: Option<&Moved>) -> usize
    requires { IsMoveAt (option_map (λ m. m.now) moved) (Some view.now) }
    ensures { IfSome (placed (option_map (λ m. m.now) moved.entry) (Some view.now)) (λ r. result ≡ length r.rows) }
{
    match moved {
        Some(moved) => view.rows().len() + moved.come.rows().len() - moved.gone.rows().len(),
        None => view.rows().len(),
    }
}

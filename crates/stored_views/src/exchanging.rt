// Rows of stored views, exchanged with those that stand ready.
ghost use Rattle.std.specs.Prelude.{◌≡◌, ◌<◌, get_or, length, slice_set, None};
ghost use Rattle.stored_views.specs.NextRows.{newer, older, renewed, AreNextTo};

use value_core::Relation;

/// Exchanges the rows that stand ready with the stored ones. It takes no memory, and once more takes it back.
pub fn exchange_rows(stored: &mut [Option<Relation>], next: &mut [Option<Relation>])
    requires { AreNextTo next.old stored.old }
    ensures forward { stored.new ≡ renewed next.old stored.old }
    ensures back { renewed next.new stored.new ≡ stored.old }
    ensures places { AreNextTo next.new stored.new }
{
    for at in 0..stored.len().min(next.len()) {
        exchange_at(stored, next, at);
    }
}

// Exchanges those at a place.
fn exchange_at(stored: &mut [Option<Relation>], next: &mut [Option<Relation>], at: usize)
    requires stored { at < length stored.old }
    requires next { at < length next.old }
    ensures stored { stored.new ≡ slice_set stored.old at (newer (get_or next.old at None) (get_or stored.old at None)) }
    ensures next { next.new ≡ slice_set next.old at (older (get_or next.old at None) (get_or stored.old at None)) }
{
    exchange(&mut stored[at], &mut next[at]);
}

// Exchanges the rows that stand ready with the stored ones; where none stand ready nothing changes.
fn exchange(stored: &mut Option<Relation>, next: &mut Option<Relation>)
    ensures stored { stored.new ≡ newer next.old stored.old }
    ensures next { next.new ≡ older next.old stored.old }
{
    if next.is_some() {
        std::mem::swap(stored, next);
    }
}

// Hashes that are kept beside the relvars.
ghost use Rattle.std.specs.Prelude.{◌≡◌, ℕ, [], nat_eq};
ghost use Rattle.std.specs.List.{position};
ghost use Rattle.tree_core.specs.Relvars.{Entries};
ghost use Rattle.assign_core.specs.Hashed.{AreHashed, AreHashesAt, IsHashed, IsUnmarkedAt};

use crate::tuning::MOST_HASHED_RELVARS;
use relation_core::Hashes;
use std::alloc::Global;

/// Hashes of the rows of the base relvar at a place, each for other positions.
#[derive(Drop)]
pub(crate) struct HashedRelvar {
    pub at: usize,
    pub list: Vec<Hashes>,
}

/// Hashes of the rows of a few base relvars. Those that changed last stand last. There are none at first.
#[derive(Drop)]
pub(crate) struct Hashed {
    pub entries: Vec<HashedRelvar>,
}

/// No hashes, of no relvar. It takes no memory.
pub(crate) fn no_hashes(alloc: Global) -> Hashed
    ensures none { result.entries.items ≡ [] }
    ensures hashed { (es : Entries) → AreHashed result es }
{
    Hashed {
        entries: Vec::new(alloc),
    }
}

/// The hashes of the rows of the relvar at a place. Of a relvar that has no hashes there are none.
pub(crate) fn hashes_at<'a>(hashed: &'a Hashed, at: usize) -> &'a [Hashes]
    ensures { (es : Entries) → AreHashed hashed.now es → AreHashesAt at result.now es }
{
    match place_of(hashed, at) {
        Some(i) => hashed.entries[i].list.as_slice(),
        None => &[],
    }
}

/// Whether the relvar at a place has hashes, even if for no positions yet.
pub(crate) fn has_hashes(hashed: &Hashed, at: usize) -> bool {
    place_of(hashed, at).is_some()
}

// Where the relvar at a place stands among those that have hashes.
fn place_of(hashed: &Hashed, at: usize) -> Option<usize>
    ensures { result ≡ position (λ r. nat_eq r.at at) hashed.now.entries.items }
{
    hashed.entries.iter().position(|entry| entry.at == at)
}

/// Takes the hashes of the rows of the relvar at a place, as `marks_at` tells them, so that they can be changed. Those of the other
/// relvars are left.
pub(crate) fn take_hashes(hashed: &mut Hashed, alloc: Global, at: usize) -> Vec<Hashes>
    ensures list { (es : Entries) → AreHashed hashed.old es → AreHashesAt at result.items es }
    ensures left { (es : Entries) → AreHashed hashed.old es → AreHashed hashed.new es }
    ensures taken { IsUnmarkedAt at hashed.new }
{
    let mut list = Vec::new(alloc);
    while let Some(i) = place_of(hashed, at) {
        let HashedRelvar { at: _, list: own } = hashed.entries.remove(i);
        list = own;
    }
    list
}

/// Puts the hashes of the rows of a relvar behind those of the others. Where those are as many as may be, the ones that were put longest
/// ago are dropped. For want of memory nothing is put.
pub(crate) fn put_hashes(hashed: &mut Hashed, own: HashedRelvar)
    ensures { (es : Entries) → AreHashed hashed.old es → IsHashed es own → AreHashed hashed.new es }
{
    if hashed.entries.len() >= MOST_HASHED_RELVARS {
        drop(hashed.entries.remove(0));
    }
    match hashed.entries.push(own) {
        Ok(()) => (),
        Err(_) => (),
    }
}

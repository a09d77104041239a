//! Pieces of cells under keys, and the longest runs that they cover.
#![tactic(auto)]

ghost use Rattle.std.specs.Prelude.{◌≡◌, ℕ, ◌<◌, ◌≤◌, ◌↔◌, ◌⊎◌, length, slice_index_or, OnOk, OnErr, IfOk, ◌+◌, ◌-◌, IsTrue};
ghost use Rattle.std.specs.List.{All};
ghost use Rattle.cell_packing.specs.Pieces.{AreApart, Covers, CoversOne, NotAfter, AllNotAfter, Meets};

use std::alloc::{AllocError, Global};

/// A key, the first cell, and the one after the last.
#[derive(PartialEq, Eq, PartialOrd, Ord, Drop)]
pub struct Piece<K> {
    pub key: K,
    pub begin: usize,
    pub end: usize,
}

// Whether x has the key of the last one, and begins within it or right after it.
fn meets<K: Ord>(last: &Piece<K>, x: &Piece<K>) -> bool
    ensures { IsTrue result ↔ Meets K.cmp last.now x.now }
{
    last.key.cmp(&x.key).is_eq() && x.begin <= last.end
}

/// Adds a piece that begins at or after the last one: to that one, if it has the same key and meets it.
pub fn add<K: Ord + Drop>(out: &mut Vec<Piece<K>>, x: Piece<K>) -> Result<(), AllocError>
    requires apart { AreApart K.cmp out.old.items }
    requires some { x.begin < x.end }
    requires order { AllNotAfter K.cmp out.old.items x }
    ensures apart { OnOk result (AreApart K.cmp out.new.items) }
    ensures covers { OnOk result ((k : _) (i : ℕ) → Covers K.cmp out.new.items k i ↔ Covers K.cmp out.old.items k i ⊎ CoversOne K.cmp x k i) }
    ensures order { OnOk result ((y : _) → NotAfter K.cmp x y → AllNotAfter K.cmp out.old.items y → AllNotAfter K.cmp out.new.items y) }
{
    let n = out.len();
    if n > 0 && meets(&out[n - 1], &x) {
        let last = &mut out[n - 1];
        last.end = last.end.max(x.end);
        return Ok(());
    }
    out.push(x)?;
    Ok(())
}

/// The longest runs that the pieces, which stand in order, cover.
pub fn merge<K: Ord + Drop>(
    alloc: Global,
    pieces: Vec<Piece<K>>,
) -> Result<Vec<Piece<K>>, AllocError>
    requires order { (i j : ℕ) (d e : _) → i ≤ j → j < length pieces.items → NotAfter K.cmp (slice_index_or pieces.items i d) (slice_index_or pieces.items j e) }
    requires some { All (λ x. x.begin < x.end) pieces.items }
    ensures apart { IfOk result (λ out. AreApart K.cmp out.items) }
    ensures covers { IfOk result (λ out. (k : _) (i : ℕ) → Covers K.cmp out.items k i ↔ Covers K.cmp pieces.items k i) }
{
    let mut out: Vec<Piece<K>> = Vec::with_capacity(alloc, pieces.len())?;
    for x in pieces {
        add(&mut out, x)?;
    }
    Ok(out)
}

/// The longest runs that pieces in any order cover.
pub fn join<K: Ord + Drop>(
    alloc: Global,
    pieces: Vec<Piece<K>>,
) -> Result<Vec<Piece<K>>, AllocError>
    requires { All (λ x. x.begin < x.end) pieces.items }
    ensures apart { IfOk result (λ out. AreApart K.cmp out.items) }
    ensures covers { IfOk result (λ out. (k : _) (i : ℕ) → Covers K.cmp out.items k i ↔ Covers K.cmp pieces.items k i) }
{
    let mut sorted = pieces;
    sorted.sort()?;
    let out = merge(alloc, sorted)?;
    Ok(out)
}

// Labelled boxes with a key.
ghost use Rattle.std.specs.Prelude.{◌≡◌, ℕ, ◌↔◌, List, length, map, IfOk};
ghost use Rattle.std.specs.List.{All};
ghost use Rattle.std.proofs.Common.{refl, rules};
ghost use Rattle.std.specs.Cmp.{IsTotalOrder, partial_order_from_total};
ghost use Rattle.std.specs.Cmp.Rules.{comparing};
ghost use Rattle.std.specs.Ordering.{eq_by_cmp, as_partial_cmp};
ghost use Rattle.std.proofs.lemmas.Cmp.{eq_by_cmp_equiv};
ghost use Rattle.cell_packing.specs.Covering.{Among};
ghost use Rattle.cell_sweep.specs.Rows.{key_cmp};
ghost use Rattle.cell_boxes.specs.Keys.{keyed_cmp, keyed_total, key_of, label_of, ArePaired};
ghost use Rattle.cell_boxes.specs.Rows.{Ascend, PlainCellBox};

use cell_sweep::{CellBox, arrange_unordered, put_cells};
use point_core::{Label, Memory};
use presort::{Numbers, SortKeys};
use std::alloc::Global;
use std::cmp::Ordering;
use std::marker::Model;

/// A labelled box of cells, with the key by which it goes with others. The order is by key and sides alone.
#[derive(Drop)]
pub struct KeyedCellBox<K, P> {
    pub key: K,
    pub label: P,
    pub sides: Vec<(usize, usize)>,
}

impl<K, P> Model for KeyedCellBox<K, P> {
    ghost use Rattle.std.specs.Prelude.{ℕ, List};

    ghost Value = { K × P × List (ℕ × ℕ) };

    ghost view = { λ k. (k.key, k.label, k.sides.items) };
}

impl<K: Label, P> PartialEq for KeyedCellBox<K, P> {
    ghost eq = { eq_by_cmp (keyed_cmp K.order) };

    ghost laws = { let e = eq_by_cmp_equiv (keyed_total {P = P} K.total) in Prim.search (comparing, rules) };

    fn eq(&self, other: &KeyedCellBox<K, P>) -> bool {
        self.cmp(other).is_eq()
    }
}

impl<K: Label, P> Eq for KeyedCellBox<K, P> {
    ghost laws = { eq_by_cmp_equiv (keyed_total K.total) };
}

impl<K: Label, P> PartialOrd for KeyedCellBox<K, P> {
    ghost partial_cmp = { as_partial_cmp (keyed_cmp K.order) };

    ghost laws = { partial_order_from_total (keyed_total K.total) };

    fn partial_cmp(&self, other: &KeyedCellBox<K, P>) -> Option<Ordering> {
        Some(self.cmp(other))
    }
}

impl<K: Label, P> Ord for KeyedCellBox<K, P> {
    ghost cmp = { keyed_cmp K.order };

    ghost total = { keyed_total K.total };

    ghost matches_partial_cmp = { λ x y. refl };

    ghost matches_eq = { λ x y. refl };

    fn cmp(&self, other: &KeyedCellBox<K, P>) -> Ordering {
        match self.key.compare(&other.key) {
            Ordering::Equal => self.sides.cmp(&other.sides),
            by_key => by_key,
        }
    }
}

impl<K: Numbers, P> Numbers for KeyedCellBox<K, P> {
    fn put_numbers(&self, lines: &mut SortKeys) {
        self.key.put_numbers(lines);
        put_cells(self.sides.as_slice(), lines);
    }
}

// The boxes of the rows with their keys, and the labels.
fn apart<K: Drop, P: Drop>(
    alloc: Global,
    rows: Vec<KeyedCellBox<K, P>>,
) -> Result<(Vec<CellBox<K>>, Vec<P>), Memory>
    ensures keys { IfOk result (λ v. v.0.items ≡ map key_of rows.items) }
    ensures labels { IfOk result (λ v. v.1.items ≡ map label_of rows.items) }
{
    let mut keys = Vec::with_capacity(alloc, rows.len())?;
    let mut labels = Vec::with_capacity(alloc, rows.len())?;
    for row in rows {
        labels.push(row.label)?;
        keys.push(CellBox {
            label: row.key,
            sides: row.sides,
        })?;
    }
    Ok((keys, labels))
}

// The rows by their keys and first cells: the boxes with their keys, and the labels. No numbers are asked of the keys.
pub fn keys_sorted<K: Label, P: Drop>(
    alloc: Global,
    rows: Vec<KeyedCellBox<K, P>>,
) -> Result<(Vec<CellBox<K>>, Vec<P>), Memory>
    ensures paired { IfOk result (λ v. ArePaired rows.items v.0.items v.1.items) }
    ensures order { IfOk result (λ v. Ascend K.order v.0.items) }
    ensures sides { IfOk result (λ v. (k : ℕ) → All (λ x. length x.2 ≡ k) rows.items → All (λ x. length x.1 ≡ k) v.0.items) }
{
    let mut sorted = rows;
    sorted.sort()?;
    let (keys, labels) = apart(alloc, sorted)?;
    Ok((keys, labels))
}

/// The rows by their keys and first cells: the boxes with their keys, and the labels. They are arranged by their numbers
/// first, so that the sort has little to do.
pub fn keys_in_order<K: Label + Numbers, P: Drop>(
    alloc: Global,
    rows: Vec<KeyedCellBox<K, P>>,
) -> Result<(Vec<CellBox<K>>, Vec<P>), Memory>
    ensures paired { IfOk result (λ v. ArePaired rows.items v.0.items v.1.items) }
    ensures order { IfOk result (λ v. Ascend K.order v.0.items) }
    ensures sides { IfOk result (λ v. (k : ℕ) → All (λ x. length x.2 ≡ k) rows.items → All (λ x. length x.1 ≡ k) v.0.items) }
{
    let mut arranged = rows;
    arrange_unordered(alloc, &mut arranged)?;
    let (keys, labels) = keys_sorted(alloc, arranged)?;
    Ok((keys, labels))
}

// By label, and then by sides; these are looked at only where the labels are equal.
fn by_label<P: Label>(a: &CellBox<P>, b: &CellBox<P>) -> Ordering
    ensures { result ≡ key_cmp P.order a.now b.now }
{
    match a.label.compare(&b.label) {
        Ordering::Equal => a.sides.cmp(&b.sides),
        other => other,
    }
}

/// The rows by their labels and first cells. They are arranged by their numbers first, so that the sort has little to do.
pub fn rows_in_order<P: Label + Numbers>(
    alloc: Global,
    rows: Vec<CellBox<P>>,
) -> Result<Vec<CellBox<P>>, Memory>
    ensures same { IfOk result (λ v. (x : PlainCellBox P) → Among x v.items ↔ Among x rows.items) }
    ensures order { IfOk result (λ v. Ascend P.order v.items) }
    ensures sides { IfOk result (λ v. (k : ℕ) → All (λ x. length x.1 ≡ k) rows.items → All (λ x. length x.1 ≡ k) v.items) }
{
    let mut sorted = rows;
    arrange_unordered(alloc, &mut sorted)?;
    sorted.sort_by(|a: &CellBox<P>, b: &CellBox<P>| by_label(a, b))?;
    Ok(sorted)
}

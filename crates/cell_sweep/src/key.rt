// A label and the cells of the first sides.
ghost use Rattle.std.specs.Prelude.{◌≡◌, ℕ, List};
ghost use Rattle.std.proofs.Common.{refl, rules};
ghost use Rattle.std.specs.Cmp.{IsTotalOrder, partial_order_from_total};
ghost use Rattle.std.specs.Cmp.Rules.{comparing};
ghost use Rattle.std.specs.Ordering.{eq_by_cmp, as_partial_cmp};
ghost use Rattle.std.proofs.lemmas.Cmp.{eq_by_cmp_equiv};
ghost use Rattle.cell_sweep.specs.Rows.{key_cmp, key_total};

use point_core::Label;
use presort::{Numbers, SortKeys};
use std::cmp::Ordering;
use std::marker::Model;

#[derive(Drop)]
pub struct CellBox<P> {
    pub label: P,
    pub sides: Vec<(usize, usize)>,
}

impl<P> Model for CellBox<P> {
    ghost use Rattle.std.specs.Prelude.{ℕ, List};

    ghost Value = { P × List (ℕ × ℕ) };

    ghost view = { λ k. (k.label, k.sides.items) };
}

impl<P: Label> PartialEq for CellBox<P> {
    ghost eq = { eq_by_cmp (key_cmp P.order) };

    ghost laws = { let e = eq_by_cmp_equiv (key_total P.total) in Prim.search (comparing, rules) };

    fn eq(&self, other: &CellBox<P>) -> bool {
        self.cmp(other).is_eq()
    }
}

impl<P: Label> Eq for CellBox<P> {
    ghost laws = { eq_by_cmp_equiv (key_total P.total) };
}

impl<P: Label> PartialOrd for CellBox<P> {
    ghost partial_cmp = { as_partial_cmp (key_cmp P.order) };

    ghost laws = { partial_order_from_total (key_total P.total) };

    fn partial_cmp(&self, other: &CellBox<P>) -> Option<Ordering> {
        Some(self.cmp(other))
    }
}

impl<P: Label> Ord for CellBox<P> {
    ghost cmp = { key_cmp P.order };

    ghost total = { key_total P.total };

    ghost matches_partial_cmp = { λ x y. refl };

    ghost matches_eq = { λ x y. refl };

    fn cmp(&self, other: &CellBox<P>) -> Ordering {
        match self.label.compare(&other.label) {
            Ordering::Equal => self.sides.cmp(&other.sides),
            apart => apart,
        }
    }
}

/// Puts the begins and ends of cells in turn, as numbers.
pub fn put_cells(sides: &[(usize, usize)], lines: &mut SortKeys) {
    for side in sides {
        let (begin, end) = *side;
        lines.put(begin as u64);
        lines.put(end as u64);
    }
}

impl<P: Numbers> Numbers for CellBox<P> {
    fn put_numbers(&self, lines: &mut SortKeys) {
        self.label.put_numbers(lines);
        put_cells(self.sides.as_slice(), lines);
    }
}

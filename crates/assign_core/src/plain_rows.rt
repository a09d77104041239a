// Rows as they are, where no attribute is listed.
ghost use Rattle.std.specs.Prelude.{◌≡◌, ℕ, [], length, true, false};
ghost use Rattle.cell_core.specs.Costs.{bound};
ghost use Rattle.assign_core.specs.Portions.{point_cost};

use value_core::Positions;

/// Whether the list has no attribute: rows are then asked as they are.
pub(crate) fn lists_none(commalist: &Positions) -> bool
    ensures none { result ≡ true → commalist.now ≡ [] }
    ensures some { result ≡ false → (n : ℕ) → point_cost commalist.now n ≡ bound n (length commalist.now) }
{
    commalist.list.is_empty()
}

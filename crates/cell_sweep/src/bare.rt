// The label of rows that have none.
ghost use Rattle.std.proofs.Common.{refl};
ghost use Rattle.std.specs.declared.cmp.Ordering.TheVariants.{Equal};

use point_core::{Label, Memory};
use std::alloc::Global;
use std::cmp::Ordering;

// The one label of rows that have none.
#[derive(PartialEq, Eq, PartialOrd, Ord, Drop)]
pub struct NoLabel;

impl Label for NoLabel {
    ghost order = { λ a b. Equal };

    fn compare(&self, _other: &NoLabel) -> Ordering {
        Ordering::Equal
    }

    fn copy(&self, _alloc: Global) -> Result<NoLabel, Memory> {
        Ok(NoLabel)
    }

    ghost total = { record { antisymm = λ a b. refl; trans = λ a b c h g. h; congr = λ a b c h. refl } };

    ghost separates = { λ a b h. refl };
}

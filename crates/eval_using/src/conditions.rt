// A condition, asked at each point of the listed attributes of rows.
ghost use Rattle.std.specs.Prelude.{◌≡◌, Ok, Err, IfOk};
ghost use Rattle.base_core.specs.Outcomes.{then_give};
ghost use Rattle.point_core.specs.declared.fault.Fault.{Fault as AnyFault};
ghost use Rattle.scalar_core.specs.Expressions.{read};
ghost use Rattle.meaning_core.specs.Scalars.{IsConditionOver};
ghost use Rattle.eval_using.specs.Swept.{labelled_if, met};

use crate::cell_rows::row_at;
use cell_core::BoxRow;
use interval_core::Interval;
use point_core::{AnyPoint, AnyType, Memory, Stop};
use row_making::holds;
use scalar_core::{Scalar, cuts};
use std::alloc::Global;
use u_row::RowRule;
use u_set::label_of;
use value_core::Row;

/// A condition on rows, whose boxes are given, at points of the listed attributes.
#[derive(Drop)]
pub(crate) struct Condition<'a> {
    pub c: &'a Scalar,
    pub commalist: &'a [usize],
    pub rows: &'a [Row],
    pub boxes: &'a [BoxRow<AnyType, Row>],
}

impl RowRule<AnyType> for Condition<'_> {
    ghost use Rattle.std.specs.Prelude.{ℕ, List, ◌∷◌, [], get_or};
    ghost use Rattle.scalar_core.specs.Expressions.{read};
    ghost use Rattle.eval_using.specs.Swept.{CanSweep, met, swept_cuts, swept_rows};
    ghost use Rattle.eval_using.specs.BoxedLaws.{ordered_there, inside_there};
    ghost use Rattle.eval_using.specs.ConditionLaws.{steady_there};

    ghost CanApply = { λ rule row. CanSweep rule.commalist.now (read rule.c.now) rule.rows.now rule.boxes.now row };

    ghost sides = { λ rule row. (get_or rule.boxes.now row ([], [])).1 };

    ghost cuts_of = { λ rule row side. swept_cuts rule.commalist.now (read rule.c.now ∷ []) rule.rows.now row side };

    ghost means = { λ rule row place. swept_rows rule.commalist.now rule.commalist.now (met (read rule.c.now)) rule.rows.now row place };

    fn cuts(&self, alloc: Global, row: usize, side: usize) -> Result<Vec<AnyPoint>, Memory> {
        let points = cuts(alloc, self.c, &self.rows[row], self.commalist, side)?;
        Ok(points)
    }

    fn apply(
        &self,
        alloc: Global,
        row: usize,
        at: &[Interval<AnyType>],
    ) -> Result<Option<Row>, Stop> {
        let there = row_at(alloc, &self.rows[row], self.commalist, at)?;
        label_if(alloc, self.c, &there, self.commalist)
    }

    ghost ordered = { λ rule row side d h l. ordered_there rule.commalist.now rule.rows.now rule.boxes.now row h.boxed side d l };

    ghost inside = { λ rule row side d h l. inside_there rule.commalist.now rule.rows.now rule.boxes.now row h.boxed (read rule.c.now ∷ []) side d l };

    ghost steady = { λ rule row cell ps qs h m a b. steady_there rule.commalist.now (read rule.c.now) rule.rows.now rule.boxes.now row h cell ps qs m a b };
}

// The values that are not listed, where the condition holds of the row.
fn label_if(alloc: Global, c: &Scalar, row: &Row, commalist: &[usize]) -> Result<Option<Row>, Stop>
    requires { IsConditionOver row.now (read c.now) }
    ensures answer { IfOk result (λ o. then_give (met (read c.now) row.now) (labelled_if commalist.now) ≡ Ok o) }
    ensures fault { (e : AnyFault) → result ≡ Err (Stop.Fault e) → then_give (met (read c.now) row.now) (labelled_if commalist.now) ≡ Err e }
{
    if !holds(alloc, c, row)? {
        return Ok(None);
    }
    let label = label_of(alloc, row.values(), commalist)?;
    Ok(Some(label))
}

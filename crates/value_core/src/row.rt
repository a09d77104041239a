// Rows of values, in the printing order.
ghost use Rattle.std.specs.Prelude.{◌≡◌, map, Some, refl};
ghost use Rattle.std.specs.Ordering.{eq_by_cmp};
ghost use Rattle.std.specs.Cmp.{partial_order_from_total, eq_by_cmp_equiv, partial_equiv_from_equiv};
ghost use Rattle.value_core.specs.Values.{row_cmp};
ghost use Rattle.value_core.specs.Order.{row_total, row_separates};

use crate::value::Value;
use point_core::{Label, Memory};
use std::alloc::Global;
use std::cmp::Ordering;
use std::marker::Model;

/// The values of one row, in the order of a heading's attributes. Rows are ordered by their values, left to right; a row that
/// another one begins with comes first.
#[derive(Drop)]
pub struct Row {
    values: Vec<Value>,
}

impl Model for Row {
    ghost use Rattle.std.specs.Prelude.{List, map};
    ghost use Rattle.value_core.specs.Values.{Row as PlainRow};
    ghost use Rattle.value_core.specs.Plain.{plain};

    ghost Value = { PlainRow };

    ghost view = { λ r. map plain r.values.items };
}

impl Row {
    ghost use Rattle.value_core.specs.Plain.{plain};

    /// The row of these values.
    pub fn make(values: Vec<Value>) -> Row
        ensures { result ≡ map plain values.items }
    {
        Row { values }
    }

    /// The row's values, left to right.
    pub fn values(&self) -> &[Value]
        ensures { map plain result.now ≡ self.now }
    {
        self.values.as_slice()
    }

    /// The row's values themselves, left to right.
    pub fn into_values(self) -> Vec<Value>
        ensures { map plain result.items ≡ self }
    {
        self.values
    }
}

impl PartialEq for Row {
    ghost eq = { eq_by_cmp row_cmp };

    ghost laws = { partial_equiv_from_equiv (eq_by_cmp_equiv row_total) };

    fn eq(&self, other: &Row) -> bool {
        self.cmp(other).is_eq()
    }
}

impl Eq for Row {
    ghost laws = { eq_by_cmp_equiv row_total };
}

impl PartialOrd for Row {
    ghost partial_cmp = { λ a b. Some (row_cmp a b) };

    ghost laws = { partial_order_from_total row_total };

    fn partial_cmp(&self, other: &Row) -> Option<Ordering> {
        Some(self.cmp(other))
    }
}

impl Ord for Row {
    ghost cmp = { row_cmp };

    ghost total = { row_total };

    ghost matches_partial_cmp = { λ _ _. refl };

    ghost matches_eq = { λ _ _. refl };

    fn cmp(&self, other: &Row) -> Ordering {
        self.values.as_slice().cmp(&other.values.as_slice())
    }
}

impl Label for Row {
    ghost order = { row_cmp };

    fn compare(&self, other: &Row) -> Ordering {
        self.cmp(other)
    }

    fn copy(&self, alloc: Global) -> Result<Row, Memory> {
        let mut values = Vec::with_capacity(alloc, self.values.len())?;
        for value in &self.values {
            values.push(value.copy(alloc)?)?;
        }
        Ok(Row { values })
    }

    ghost total = { row_total };

    ghost separates = { row_separates };
}

// Relations of rows that are known to fit.
ghost use Rattle.std.specs.Prelude.{IsTrue, MatchResult};
ghost use Rattle.value_core.specs.Values.{rows_of};
ghost use Rattle.value_core.specs.Relations.{all_fit};
ghost use Rattle.relation_core.specs.Answers.{IsAnswer, IsRefusal};

use std::alloc::Global;
use value_core::{Heading, Relation, Row, RowsRefuse};

/// The relation of the heading with the rows.
pub fn relation(alloc: Global, heading: &Heading, rows: Vec<Row>) -> Result<Relation, RowsRefuse>
    requires { IsTrue (all_fit heading.now rows.items) }
    ensures { MatchResult result (IsAnswer heading.now (rows_of rows.items)) (IsRefusal (rows_of rows.items)) }
{
    let heading = heading.copy(alloc)?;
    Relation::of_fitting(heading, rows)
}

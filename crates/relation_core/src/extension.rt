// What a function gives of each row.
ghost use Rattle.std.specs.Prelude.{◌≡◌, Result, Ok, OnOk, IsTrue, [], ◌∷◌, ◌++◌};
ghost use Rattle.std.specs.Fn.{FnReturnsAt};
ghost use Rattle.point_core.specs.Faults.{OrFault};
ghost use Rattle.value_core.specs.Values.{Row as PlainRow, fits_heading};
ghost use Rattle.relation_core.specs.Answers.{Answers, under};
ghost use Rattle.point_core.specs.LeastFault.{lesser_of};
ghost use Rattle.relation_core.specs.Faults.{fault_of, values_of};
ghost use Rattle.relation_core.specs.Operators.{extended};

use point_core::{Fault, Memory, Stop};
use std::alloc::Global;
use value_core::{Heading, Relation, Row};

/// What the function gives of each row, under the heading. Where it has faults, the least one of all rows is the answer.
pub fn extend<F: Fn(&Row) -> Result<Row, Stop>>(
    alloc: Global,
    r: &Relation,
    heading: Heading,
    f: &F,
) -> Result<Relation, Stop>
    ghost means: { PlainRow → OrFault PlainRow }
    requires callable { (x : _) → IsTrue (fits_heading r.now.heading x.now) → F.pre f.now x }
    requires answers { (x : PlainRow) (y : Result PlainRow _) → IsTrue (fits_heading r.now.heading x) → FnReturnsAt F.Fn f.now x y → Answers y (means x) }
    requires fitting { (x y : PlainRow) → IsTrue (fits_heading r.now.heading x) → means x ≡ Ok y → IsTrue (fits_heading heading y) }
    ensures { Answers result (under heading (extended means r.now.rows)) }
{
    let given = r.rows();
    let mut rows = Vec::new(alloc);
    let mut least: Option<Fault> = None;
    for x in given {
        let answer = f(x);
        take_given(answer, &mut rows, &mut least)?;
    }
    match least {
        Some(fault) => Err(Stop::Fault(fault)),
        None => {
            let relation = Relation::of_few(heading, rows)?;
            Ok(relation)
        }
    }
}

/// Adds the row that was given, or takes note of the fault.
pub(crate) fn take_given(
    answer: Result<Row, Stop>,
    rows: &mut Vec<Row>,
    least: &mut Option<Fault>,
) -> Result<(), Memory>
    ensures rows { OnOk result ((m : OrFault PlainRow) → Answers answer m → rows.new.items ≡ rows.old.items ++ values_of (m ∷ [])) }
    ensures fault { OnOk result ((m : OrFault PlainRow) → Answers answer m → least.new ≡ lesser_of least.old (fault_of m)) }
{
    match answer {
        Ok(row) => {
            rows.push(row)?;
            Ok(())
        }
        Err(Stop::Memory) => Err(Memory),
        Err(Stop::Fault(fault)) => {
            *least = Some(Fault::least_of(*least, fault));
            Ok(())
        }
    }
}

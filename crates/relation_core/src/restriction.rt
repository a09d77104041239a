// The rows that a condition keeps.
ghost use Rattle.std.specs.Prelude.{◌≡◌, Bool, Result, Ok, Err, Option, Some, None, OnOk, IsTrue, [], ◌∷◌, ◌++◌, if◌then◌else◌};
ghost use Rattle.std.specs.Fn.{FnReturnsAt};
ghost use Rattle.point_core.specs.Faults.{OrFault};
ghost use Rattle.value_core.specs.Values.{Row as PlainRow, fits_heading};
ghost use Rattle.relation_core.specs.Answers.{Answers, under};
ghost use Rattle.point_core.specs.LeastFault.{lesser_of};
ghost use Rattle.relation_core.specs.Faults.{fault_of};
ghost use Rattle.relation_core.specs.Operators.{is_true, restricted};

use point_core::{Fault, Label, Memory, Stop};
use std::alloc::Global;
use value_core::{Relation, Row};

/// The rows for which the test gives true. Where it has faults, the least one of all rows is the answer.
pub fn restrict<F: Fn(&Row) -> Result<bool, Stop>>(
    alloc: Global,
    r: &Relation,
    f: &F,
) -> Result<Relation, Stop>
    ghost means: { PlainRow → OrFault Bool }
    requires callable { (x : _) → IsTrue (fits_heading r.now.heading x.now) → F.pre f.now x }
    requires answers { (x : PlainRow) (b : Result Bool _) → IsTrue (fits_heading r.now.heading x) → FnReturnsAt F.Fn f.now x b → Answers b (means x) }
    ensures { Answers result (under r.now.heading (restricted means r.now.rows)) }
{
    let given = r.rows();
    let mut rows = Vec::new(alloc);
    let mut least: Option<Fault> = None;
    for x in given {
        let answer = f(x);
        take_row(alloc, x, answer, &mut rows, &mut least)?;
    }
    match least {
        Some(fault) => Err(Stop::Fault(fault)),
        None => {
            let heading = r.heading().copy(alloc)?;
            let relation = Relation::of_few(heading, rows)?;
            Ok(relation)
        }
    }
}

/// Adds a row that passes the test, or takes note of the fault.
fn take_row(
    alloc: Global,
    x: &Row,
    answer: Result<bool, Stop>,
    rows: &mut Vec<Row>,
    least: &mut Option<Fault>,
) -> Result<(), Memory>
    ensures rows { OnOk result ((m : OrFault Bool) → Answers answer m → rows.new.items ≡ rows.old.items ++ (if is_true m then x.now ∷ [] else [])) }
    ensures fault { OnOk result ((m : OrFault Bool) → Answers answer m → least.new ≡ lesser_of least.old (fault_of m)) }
{
    match answer {
        Ok(true) => {
            rows.push(x.copy(alloc)?)?;
            Ok(())
        }
        Ok(false) => Ok(()),
        Err(Stop::Memory) => Err(Memory),
        Err(Stop::Fault(fault)) => {
            *least = Some(Fault::least_of(*least, fault));
            Ok(())
        }
    }
}

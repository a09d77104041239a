// What a function gives of each group of rows.
ghost use Rattle.std.specs.Prelude.{◌≡◌, ◌<◌, ℕ, List, Result, Ok, IfOk, IsTrue, length, map};
ghost use Rattle.std.specs.Fn.{FnReturnsAt};
ghost use Rattle.std.specs.List.{All, Contains};
ghost use Rattle.point_core.specs.Faults.{OrFault};
ghost use Rattle.value_core.specs.Values.{Row as PlainRow, fits_heading, most_rows};
ghost use Rattle.relation_core.specs.Answers.{Answers, under};
ghost use Rattle.relation_core.specs.Groups.{groups, summarized};

use crate::extension::take_given;
use crate::keys::{index, numbers_with};
use crate::parts::sorted_parts;
use point_core::{Fault, Memory, Stop};
use std::alloc::Global;
use value_core::{Heading, Relation, Row};

/// What the function gives of the row numbers of each group, under the heading. A group is the rows with the same values at the
/// positions, so a relation without rows has none. Where the function has faults, the least one of all groups is the answer.
pub fn summarize<F: Fn(&[usize]) -> Result<Row, Stop>>(
    alloc: Global,
    r: &Relation,
    by: &[usize],
    heading: Heading,
    f: &F,
) -> Result<Relation, Stop>
    ghost means: { List ℕ → OrFault PlainRow }
    requires within { All (λ (i : ℕ). i < length r.now.heading) by.now }
    requires callable { (g : _) → Contains (groups by.now r.now.rows) g.now → F.pre f.now g }
    requires answers { (g : List ℕ) (y : Result PlainRow _) → Contains (groups by.now r.now.rows) g
        → FnReturnsAt F.Fn f.now g y → Answers y (means g) }
    requires fitting { (g : List ℕ) (y : PlainRow) → Contains (groups by.now r.now.rows) g
        → means g ≡ Ok y → IsTrue (fits_heading heading y) }
    ensures { Answers result (under heading (summarized by.now means r.now.rows)) }
{
    let keys = sorted_parts(alloc, r, by)?;
    let index = index(alloc, r, by)?;
    let mut rows = Vec::new(alloc);
    let mut least: Option<Fault> = None;
    for key in &keys {
        let numbers = numbers_with(alloc, index.as_slice(), key)?;
        let answer = f(numbers.as_slice());
        take_given(answer, &mut rows, &mut least)?;
    }
    match least {
        Some(fault) => Err(Stop::Fault(fault)),
        None => {
            let relation = Relation::of_few(heading, rows)?;
            Ok(relation)
        }
    }
}

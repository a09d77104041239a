// Refused rows, or_fault_at as the fault of too many rows at a place.
ghost use Rattle.std.specs.Prelude.{List, MatchResult};
ghost use Rattle.value_core.specs.Values.{Heading as PlainHeading, Row as PlainRow};
ghost use Rattle.relation_core.specs.Answers.{Answers, IsAnswer, IsRefusal, under};
ghost use Rattle.meaning_core.specs.Meanings.{limited};

use point_core::{Code, Fault, Place, Stop};
use value_core::{Relation, RowsRefuse};

/// The relation, or the fault of too many rows at the place.
pub fn or_fault_at(place: Place, answer: Result<Relation, RowsRefuse>) -> Result<Relation, Stop>
    requires { (heading : PlainHeading) × (rows : List PlainRow) × MatchResult answer (IsAnswer heading rows) (IsRefusal rows) }
    ensures { (heading : PlainHeading) (rows : List PlainRow) → MatchResult answer (IsAnswer heading rows) (IsRefusal rows)
        → Answers result (under heading (limited place rows)) }
{
    match answer {
        Ok(relation) => Ok(relation),
        Err(RowsRefuse::TooMany) => Err(Stop::Fault(Fault {
            place,
            code: Code::E35,
        })),
        Err(RowsRefuse::Memory) => Err(Stop::Memory),
    }
}

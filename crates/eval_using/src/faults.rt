// Faults of calls that go over rows: the least of some, and that of too many rows.
ghost use Rattle.std.specs.Prelude.{◌≡◌, ◌⊎◌, List, Some, IfSome, MatchResult};
ghost use Rattle.point_core.specs.LeastFault.{IsLeast};
ghost use Rattle.value_core.specs.Values.{Heading as PlainHeading, Row as PlainRow};
ghost use Rattle.relation_core.specs.Answers.{IsAnswer, IsRefusal, under};
ghost use Rattle.meaning_core.specs.Meanings.{limited};
ghost use Rattle.eval_using.specs.Answered.{AnswersIf};

use point_core::{Code, Fault, Place, Stop};
use value_core::{Relation, RowsRefuse};

/// The lesser of the fault so far and one more, in the one clause that its callers' proofs find.
pub(crate) fn least_so_far(least: Option<Fault>, e: Fault) -> Fault
    ensures { IsLeast (λ d. (least ≡ Some d) ⊎ (e ≡ d)) (Some result) }
{
    Fault::least_of(least, e)
}

/// The relation, if there is one, or the fault of too many rows at the place.
pub(crate) fn or_fault_if(
    place: Place,
    answer: Result<Option<Relation>, RowsRefuse>,
) -> Result<Option<Relation>, Stop>
    requires { (heading : PlainHeading) × (rows : List PlainRow) × MatchResult answer (λ o. IfSome o (IsAnswer heading rows)) (IsRefusal rows) }
    ensures { (heading : PlainHeading) (rows : List PlainRow) → MatchResult answer (λ o. IfSome o (IsAnswer heading rows)) (IsRefusal rows)
        → AnswersIf result (under heading (limited place rows)) }
{
    match answer {
        Ok(Some(relation)) => Ok(Some(relation)),
        Ok(None) => Ok(None),
        Err(RowsRefuse::TooMany) => Err(Stop::Fault(Fault {
            place,
            code: Code::E35,
        })),
        Err(RowsRefuse::Memory) => Err(Stop::Memory),
    }
}

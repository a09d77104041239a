// Which rows of the target change, and at which of their points.
ghost use Rattle.std.specs.Prelude.{◌≡◌, ◌∷◌, map, None, option_map, Some};
ghost use Rattle.utd_syntax.specs.Read.{read_condition};
ghost use Rattle.scalar_core.specs.Answers.{Gives};
ghost use Rattle.scalar_core.specs.Expressions.{read};
ghost use Rattle.scalar_typing.specs.Names.{AreOrdinals};
ghost use Rattle.tree_core.specs.Items.{read_change, read_portion};
ghost use Rattle.item_typing.specs.Changes as rules;

use node_typing::{condition_typed, swept};
use point_core::Stop;
use scalar_core::Scalar;
use std::alloc::Global;
use tree_core::{Change, Portion};
use utd_syntax::Condition;
use value_core::{Heading, OrdinalTypes, Positions};

/// The condition, if there is one.
pub(crate) fn condition_if(
    alloc: Global,
    types: &OrdinalTypes,
    heading: &Heading,
    condition: &Condition,
) -> Result<Option<Scalar>, Stop>
    requires { AreOrdinals types.now }
    ensures { Gives (option_map read) result (rules.condition_if types.now heading.now (read_condition condition.now)) }
{
    match condition {
        Condition::None => Ok(None),
        Condition::Where(place, scalar) => {
            let c = condition_typed(alloc, types, *place, heading, scalar)?;
            Ok(Some(c))
        }
    }
}

/// The refusal of a condition that is not sweepable.
pub(crate) fn condition_swept(commalist: &[usize], condition: &Option<Scalar>) -> Result<(), Stop>
    ensures { Gives (λ _. tt) result (rules.condition_swept commalist.now (option_map read condition.now)) }
{
    match condition {
        None => Ok(()),
        Some(c) => swept(commalist, c),
    }
}

/// A change of the rows that meet the condition, at all of their points.
pub(crate) fn of_rows(condition: Option<Scalar>) -> Change
    ensures { read_change result ≡ rules.change None None (option_map read condition) }
{
    Change {
        commalist: None,
        portion: None,
        condition,
    }
}

/// A change, under USING of the listed attributes, of the points that meet the condition.
pub(crate) fn of_points(commalist: Positions, condition: Option<Scalar>) -> Change
    ensures { read_change result ≡ rules.change (Some commalist) None (option_map read condition) }
{
    Change {
        commalist: Some(commalist),
        portion: None,
        condition,
    }
}

/// A change of the points in the portion that meet the condition.
pub(crate) fn of_portion(portion: Portion, condition: Option<Scalar>) -> Change
    ensures { read_change result ≡ rules.change None (Some (read_portion portion)) (option_map read condition) }
{
    Change {
        commalist: None,
        portion: Some(portion),
        condition,
    }
}

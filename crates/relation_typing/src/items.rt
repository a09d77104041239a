// Names with what each is made of.
ghost use Rattle.std.specs.Prelude.{◌≡◌};
ghost use Rattle.utd_syntax.specs.Read.{read_name, read_scalar, read_element_list};
ghost use Rattle.scalar_core.specs.Answers.{Gives};
ghost use Rattle.scalar_typing.specs.Names.{AreOrdinals};
ghost use Rattle.relation_typing.specs.Items as rules;
ghost use Rattle.relation_typing.specs.Items.{made, none_made};

use crate::attributes::{Attributes, new_name, put};
use point_core::Stop;
use scalar_core::Scalar;
use scalar_typing::type_scalar;
use std::alloc::Global;
use std::collections::BTreeMap;
use utd_syntax as syntax;
use utd_syntax::{Element, Word};
use value_core::{Heading, Name, OrdinalTypes};

/// Items in the order of the text, and the attributes that they make.
#[derive(Drop)]
pub struct Made {
    pub sets: Vec<(Name, Scalar)>,
    pub attributes: Attributes,
}

/// No items.
pub fn none_made(alloc: Global) -> Made
    ensures { made result ≡ none_made }
{
    Made {
        sets: Vec::new(alloc),
        attributes: BTreeMap::new(alloc),
    }
}

/// One item more.
pub fn item_typed(
    alloc: Global,
    types: &OrdinalTypes,
    from: &Heading,
    before: &mut Made,
    word: &Word,
    scalar: &syntax::Scalar,
) -> Result<(), Stop>
    requires { AreOrdinals types.now }
    ensures { Gives (λ _. made before.new) result (rules.item_typed types.now from.now (made before.old) (read_name word.now) (read_scalar scalar.now)) }
{
    let name = new_name(alloc, &before.attributes, word)?;
    let copy = name.copy(alloc)?;
    let e = type_scalar(alloc, types, from, scalar)?;
    before.sets.push((name, e.scalar))?;
    put(&mut before.attributes, copy, e.kind)?;
    Ok(())
}

/// The elements of a tuple.
pub fn elements_typed(
    alloc: Global,
    types: &OrdinalTypes,
    from: &Heading,
    list: &[Element],
) -> Result<Made, Stop>
    requires { AreOrdinals types.now }
    ensures { Gives made result (rules.elements_typed types.now from.now none_made (read_element_list list.now)) }
{
    let mut before = none_made(alloc);
    for element in list {
        item_typed(
            alloc,
            types,
            from,
            &mut before,
            &element.name,
            &element.scalar,
        )?;
    }
    Ok(before)
}

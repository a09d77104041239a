// The relvars that items change, and the rows that items give them.
ghost use Rattle.std.specs.Prelude.{◌≡◌};
ghost use Rattle.utd_syntax.specs.Read.{read_name, read_rel};
ghost use Rattle.scalar_core.specs.Answers.{Gives, seen};
ghost use Rattle.scalar_typing.specs.Names.{AreOrdinals};
ghost use Rattle.tree_core.specs.Items.{read_item, read_item_form};
ghost use Rattle.tree_core.specs.Relvars.{read_relvar, read_relvars, relvar_named};
ghost use Rattle.tree_core.specs.Trees.{read_tree};
ghost use Rattle.point_core.specs.declared.fault.Code.TheVariants.{E10};
ghost use Rattle.scalar_typing.specs.Typings.{value_or};
ghost use Rattle.item_typing.specs.Targets as rules;

use node_typing::check;
use point_core::{Code, Fault, Place, Stop};
use relation_typing::{name_typed, same_heading};
use std::alloc::Global;
use tree_core::{Item, ItemForm, RelTree, Relvar, Relvars};
use tree_typing::{relvar_of, type_tree};
use utd_syntax::{Rel, Word};
use value_core::{Heading, Name};

/// The relvar or view of the name: E10 at it where there is none.
pub(crate) fn known_relvar<'a>(
    relvars: &'a Relvars,
    name: &Name,
    place: Place,
) -> Result<&'a Relvar, Fault>
    ensures { seen (λ r. read_relvar r.now) result ≡ value_or place E10 (relvar_named (read_relvars relvars.now).relvars name.now) }
{
    match relvar_of(relvars, name) {
        Some(relvar) => Ok(relvar),
        None => Err(Fault {
            place,
            code: Code::E10,
        }),
    }
}

/// The heading of a base relvar: E20 at a view or a log.
fn base_heading(place: Place, relvar: &Relvar) -> Result<&Heading, Fault>
    ensures { seen (λ h. h.now) result ≡ rules.base_heading place (read_relvar relvar.now) }
{
    match relvar {
        Relvar::Base {
            value,
            constraints: _,
        } => Ok(value.heading()),
        Relvar::View { tree: _, kind: _ } | Relvar::Log { of: _, log: _ } => Err(Fault {
            place,
            code: Code::E20,
        }),
    }
}

/// The base relvar that an item changes, and its heading.
#[derive(Drop)]
pub(crate) struct Target {
    pub(crate) name: Name,
    pub(crate) heading: Heading,
}

/// An item that changes the target.
pub(crate) fn item_of(place: Place, target: Target, form: ItemForm) -> Item
    ensures { read_item result ≡ rules.item_of place (target.name, target.heading) (read_item_form form) }
{
    Item {
        place,
        target: target.name,
        heading: target.heading,
        form,
    }
}

/// The base relvar of the name. A name out of its length is E06; the reading of a text lets none through.
pub(crate) fn target_typed(alloc: Global, word: &Word, relvars: &Relvars) -> Result<Target, Stop>
    ensures { Gives (λ t. (t.name, t.heading)) result (rules.target_typed (read_relvars relvars.now) (read_name word.now)) }
{
    let name = name_typed(alloc, word)?;
    let relvar = known_relvar(relvars, &name, word.place)?;
    let heading = base_heading(word.place, relvar)?.copy(alloc)?;
    Ok(Target { name, heading })
}

/// An expression of the target's heading.
pub(crate) fn rows_typed(
    alloc: Global,
    word: &Word,
    heading: &Heading,
    rel: &Rel,
    relvars: &Relvars,
) -> Result<RelTree, Stop>
    requires { AreOrdinals (read_relvars relvars.now).ordinals }
    ensures { Gives read_tree result (rules.rows_typed (read_relvars relvars.now) (read_name word.now) heading.now (read_rel rel.now)) }
{
    let t = type_tree(alloc, rel, relvars)?;
    match check(word.place, Code::E13, same_heading(&t.heading, heading)) {
        Ok(()) => Ok(t),
        Err(stop) => {
            drop(t);
            Err(stop)
        }
    }
}

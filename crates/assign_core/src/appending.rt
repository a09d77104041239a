// What declarations append.
ghost use Rattle.std.specs.Prelude.{◌≡◌, ◌∷◌, ◌++◌, [], map, OnOk, OnErr, IfOk};
ghost use Rattle.std.specs.List.{IsDistinct};
ghost use Rattle.std.specs.Str.{bytes_eq};
ghost use Rattle.indexmap.specs.IndexMap.{keys};
ghost use Rattle.tree_core.specs.Relvars.{read_relvars};
ghost use Rattle.meaning_core.specs.Declarations.{read_declaration, with_declaration};
ghost use Rattle.assign_core.specs.Databases.{declared};
ghost use Rattle.assign_core.specs.Parts.{names_in, Begins};

use point_core::Memory;
use std::alloc::Global;
use tree_core::{Declaration, RelTest, Relvar, Relvars, ViewKind};
use value_core::{Heading, Name, OrdinalNames, Relation};

/// Appends what is declared, in the order of the list. For want of memory, what was there stays in front.
pub(crate) fn append_all(
    alloc: Global,
    relvars: &mut Relvars,
    declarations: Vec<Declaration>,
) -> Result<(), Memory>
    requires { IsDistinct bytes_eq (names_in (declared (read_relvars relvars.old) (map read_declaration declarations.items)).relvars) }
    ensures ok { OnOk result (read_relvars relvars.new ≡ declared (read_relvars relvars.old) (map read_declaration declarations.items)) }
    ensures err { OnErr result (Begins relvars.old relvars.new) }
{
    for declaration in declarations {
        append(alloc, relvars, declaration)?;
    }
    Ok(())
}

// Appends what is declared.
fn append(alloc: Global, relvars: &mut Relvars, declaration: Declaration) -> Result<(), Memory>
    requires { IsDistinct bytes_eq (names_in (with_declaration (read_relvars relvars.old) (read_declaration declaration)).relvars) }
    ensures ok { OnOk result (read_relvars relvars.new ≡ with_declaration (read_relvars relvars.old) (read_declaration declaration)) }
    ensures begins { Begins relvars.old relvars.new }
{
    match declaration {
        Declaration::Ordinal(name, values) => append_type(relvars, OrdinalNames { name, values }),
        Declaration::Base(name, heading, constraints) => {
            let value = no_rows(alloc, heading)?;
            append_relvar(relvars, name, Relvar::Base { value, constraints })
        }
        Declaration::View(name, tree) => {
            let kind = ViewKind::Derived;
            append_relvar(relvars, name, Relvar::View { tree, kind })
        }
        Declaration::HistoryView {
            view,
            tree,
            since,
            during,
        } => {
            let kind = ViewKind::OfHistory((since, during));
            append_relvar(relvars, view, Relvar::View { tree, kind })
        }
    }
}

// Appends an ordinal type.
fn append_type(relvars: &mut Relvars, ordinal: OrdinalNames) -> Result<(), Memory>
    ensures ok { OnOk result (relvars.new.ordinals ≡ relvars.old.ordinals ++ ordinal ∷ []) }
    ensures err { OnErr result (relvars.new.ordinals ≡ relvars.old.ordinals) }
    ensures list { relvars.new.list ≡ relvars.old.list }
    ensures rules { relvars.new.rules ≡ relvars.old.rules }
    ensures accepted { relvars.new.accepted ≡ relvars.old.accepted }
{
    relvars.ordinals.list.push(ordinal)?;
    Ok(())
}

/// Appends a relvar or view of a new name. For want of memory nothing changes.
pub(crate) fn append_relvar(relvars: &mut Relvars, name: Name, relvar: Relvar) -> Result<(), Memory>
    requires { IsDistinct bytes_eq (keys relvars.old.list ++ name ∷ []) }
    ensures ok { OnOk result (relvars.new.list.entries ≡ relvars.old.list.entries ++ (name, relvar) ∷ []) }
    ensures err { OnErr result (relvars.new.list.entries ≡ relvars.old.list.entries) }
    ensures ordinals { relvars.new.ordinals ≡ relvars.old.ordinals }
    ensures rules { relvars.new.rules ≡ relvars.old.rules }
    ensures accepted { relvars.new.accepted ≡ relvars.old.accepted }
{
    drop(relvars.list.insert(name, relvar)?);
    Ok(())
}

/// Appends a database constraint of a new name. For want of memory nothing changes.
pub(crate) fn append_rule(relvars: &mut Relvars, name: Name, test: RelTest) -> Result<(), Memory>
    requires { IsDistinct bytes_eq (keys relvars.old.rules ++ name ∷ []) }
    ensures ok { OnOk result (relvars.new.rules.entries ≡ relvars.old.rules.entries ++ (name, test) ∷ []) }
    ensures err { OnErr result (relvars.new.rules.entries ≡ relvars.old.rules.entries) }
    ensures list { relvars.new.list ≡ relvars.old.list }
    ensures ordinals { relvars.new.ordinals ≡ relvars.old.ordinals }
    ensures accepted { relvars.new.accepted ≡ relvars.old.accepted }
{
    drop(relvars.rules.insert(name, test)?);
    Ok(())
}

// The relation without rows.
fn no_rows(alloc: Global, heading: Heading) -> Result<Relation, Memory>
    ensures { IfOk result (λ r. r ≡ record { heading = heading; rows = [] }) }
{
    Relation::of_few(heading, Vec::new(alloc))
}

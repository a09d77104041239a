// The statements that insert rows.
ghost use Rattle.std.specs.Prelude.{◌≡◌, ◌<◌, ◌≤◌, length, take, drop, Some, None, IfOk, IfErr, OnOk};
ghost use Rattle.std.specs.List.{list_any};
ghost use Rattle.value_core.specs.Limits.{most_statement_bytes};
ghost use Rattle.value_core.specs.Values.{IsRelation};
ghost use Rattle.tree_core.specs.Relvars.{read_relvar, read_relvars};
ghost use Rattle.utd_print.specs.Tables.{AreRows};
ghost use Rattle.dump_core.specs.declared.refuse.DumpRefuse.TheVariants.{TooLong};
ghost use Rattle.dump_core.specs.Drafts.{with_statement, with_statements};
ghost use Rattle.dump_core.specs.Inserts.{insert_script, parts_inserted, references, rows_a_statement, inserts, rows_of_state, HasRelation, HaveRelations};

use crate::draft::Draft;
use crate::refuse::DumpRefuse;
use crate::tuples::put_tuples;
use std::alloc::Global;
use tree_core::{Relvar, Relvars};
use value_core::{Constraint, Kind, MOST_ROWS, Name, OrdinalTypes, Relation, Row};

/// The statement that inserts these rows.
fn insert_text(
    alloc: Global,
    types: &OrdinalTypes,
    name: &Name,
    attributes: &[(Name, Kind)],
    rows: &[Row],
) -> Result<Vec<u8>, DumpRefuse>
    requires { AreRows (length attributes.now) rows.now }
    ensures written { IfOk result (λ v. v.items ≡ insert_script types.now name.now attributes.now rows.now) }
    ensures too_long { IfErr result (λ r. r ≡ TooLong →
        most_statement_bytes < length (insert_script types.now name.now attributes.now rows.now)) }
{
    let mut out = Vec::new(alloc);
    out.extend_from_slice(b"INSERT ")?;
    out.extend_from_slice(name.as_str().as_bytes())?;
    out.extend_from_slice(b" RELATION {")?;
    put_tuples(&mut out, types, attributes, rows)?;
    out.extend_from_slice(b"};")?;
    Ok(out)
}

/// Writes the statement that inserts these rows.
fn put_insert(
    draft: &mut Draft,
    types: &OrdinalTypes,
    name: &Name,
    attributes: &[(Name, Kind)],
    rows: &[Row],
) -> Result<(), DumpRefuse>
    requires { AreRows (length attributes.now) rows.now }
    ensures written { OnOk result (
        with_statement (insert_script types.now name.now attributes.now rows.now) draft.old ≡ Some draft.new) }
    ensures too_long { IfErr result (λ r. r ≡ TooLong →
        with_statement (insert_script types.now name.now attributes.now rows.now) draft.old ≡ None) }
{
    let text = insert_text(draft.alloc(), types, name, attributes, rows)?;
    draft.put(text.as_slice())
}

/// The first rows, so many at most, and those behind them.
fn split_rows(rows: &[Row], size: usize) -> (&[Row], &[Row])
    ensures front { result.0.now ≡ take size rows.now }
    ensures back { result.1.now ≡ drop size rows.now }
{
    rows.split_at(size.min(rows.len()))
}

/// Writes the statements that insert the rows of a relation, so many rows a statement.
fn put_parts(
    draft: &mut Draft,
    types: &OrdinalTypes,
    name: &Name,
    value: &Relation,
    size: usize,
) -> Result<(), DumpRefuse>
    requires { 1 ≤ size }
    ensures relation { IsRelation value.now }
    ensures written { OnOk result (
        with_statements (parts_inserted types.now name.now value.now size) draft.old ≡ Some draft.new) }
    ensures too_long { IfErr result (λ r. r ≡ TooLong →
        with_statements (parts_inserted types.now name.now value.now size) draft.old ≡ None) }
{
    let attributes = value.heading().attributes();
    let mut rest = value.rows();
    'part: while !rest.is_empty() {
        let (part, more) = split_rows(rest, size);
        put_insert(draft, types, name, attributes, part)?;
        rest = more;
    }
    Ok(())
}

/// Whether the constraint is a foreign key on the relvar of this name.
fn is_reference(constraint: &Constraint, name: &Name) -> bool
    ensures { result ≡ references name.now constraint.now }
{
    match constraint {
        Constraint::Foreign(_, _, other, _) => *other == *name,
        _ => false,
    }
}

/// Whether one of the constraints is a foreign key on the relvar of this name.
fn refer(constraints: &[Constraint], name: &Name) -> bool
    ensures { result ≡ list_any (references name.now) constraints.now }
{
    constraints.iter().any(|c| is_reference(c, name))
}

/// How many rows a statement has at most.
fn rows_a_statement(name: &Name, constraints: &[Constraint]) -> usize
    ensures rows { result ≡ rows_a_statement name.now constraints.now }
    ensures some { 1 ≤ result }
{
    if refer(constraints, name) {
        MOST_ROWS
    } else {
        100
    }
}

/// Writes the statements that insert the rows of a base relvar. A view or a log has none.
fn put_relvar(
    draft: &mut Draft,
    types: &OrdinalTypes,
    name: &Name,
    relvar: &Relvar,
) -> Result<(), DumpRefuse>
    ensures relation { HasRelation (read_relvar relvar.now) }
    ensures written { OnOk result (
        with_statements (inserts types.now name.now (read_relvar relvar.now)) draft.old ≡ Some draft.new) }
    ensures too_long { IfErr result (λ r. r ≡ TooLong →
        with_statements (inserts types.now name.now (read_relvar relvar.now)) draft.old ≡ None) }
{
    match relvar {
        Relvar::Base { value, constraints } => {
            let size = rows_a_statement(name, constraints.list.as_slice());
            put_parts(draft, types, name, value, size)
        }
        Relvar::View { tree: _, kind: _ } => Ok(()),
        Relvar::Log { of: _, log: _ } => Ok(()),
    }
}

/// Writes the statements that insert the rows of all base relvars.
pub(crate) fn put_rows(draft: &mut Draft, relvars: &Relvars) -> Result<(), DumpRefuse>
    ensures relations { OnOk result (HaveRelations (read_relvars relvars.now).relvars) }
    ensures written { OnOk result (with_statements (rows_of_state (read_relvars relvars.now)) draft.old ≡ Some draft.new) }
    ensures too_long { IfErr result (λ r. r ≡ TooLong →
        with_statements (rows_of_state (read_relvars relvars.now)) draft.old ≡ None) }
{
    for (name, relvar) in &relvars.list {
        put_relvar(draft, &relvars.ordinals, name, relvar)?;
    }
    Ok(())
}

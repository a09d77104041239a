// Rows as a script has them.
ghost use Rattle.std.specs.Prelude.{◌≡◌, ◌<◌, ◌∷◌, ◌++◌, map, length, IfErr, OnOk};
ghost use Rattle.value_core.specs.Limits.{most_statement_bytes};
ghost use Rattle.value_core.specs.Plain.{plain};
ghost use Rattle.utd_print.specs.Tables.{HasKind, HaveKinds, AreRows};
ghost use Rattle.dump_core.specs.declared.refuse.DumpRefuse.TheVariants.{TooLong};
ghost use Rattle.dump_core.specs.Values.{value_script};
ghost use Rattle.dump_core.specs.Inserts.{comma_at, listed, attribute_scripts, tuple_script};

use crate::refuse::DumpRefuse;
use crate::values::put_value;
use point_core::Memory;
use value_core::{Kind, MOST_STATEMENT_BYTES, Name, OrdinalTypes, Row, Value};

/// Writes the comma before what stands at this place of a list.
fn put_comma(out: &mut Vec<u8>, at: usize) -> Result<(), Memory>
    ensures { OnOk result (out.new.items ≡ out.old.items ++ comma_at at) }
{
    if at > 0 {
        out.extend_from_slice(b", ")?;
    }
    Ok(())
}

/// Writes the name of an attribute and its value, at this place of a tuple.
fn put_attribute(
    out: &mut Vec<u8>,
    types: &OrdinalTypes,
    at: usize,
    name: &[u8],
    value: &Value,
) -> Result<(), Memory>
    requires { HasKind (plain value.now) }
    ensures { OnOk result (out.new.items ≡
        out.old.items ++ comma_at at ++ name.now ++ 32 ∷ value_script types.now (plain value.now)) }
{
    put_comma(out, at)?;
    out.extend_from_slice(name)?;
    out.push(b' ')?;
    put_value(out, types, value)
}

/// Writes the attributes of a row.
fn put_attributes(
    out: &mut Vec<u8>,
    types: &OrdinalTypes,
    attributes: &[(Name, Kind)],
    values: &[Value],
) -> Result<(), Memory>
    requires length { length attributes.now ≡ length values.now }
    requires kinds { HaveKinds (map plain values.now) }
    ensures { OnOk result (out.new.items ≡
        out.old.items ++ listed (attribute_scripts types.now attributes.now (map plain values.now))) }
{
    for (at, value) in values.iter().enumerate() {
        put_attribute(out, types, at, attributes[at].0.as_str().as_bytes(), value)?;
    }
    Ok(())
}

/// Writes a row.
fn put_tuple(
    out: &mut Vec<u8>,
    types: &OrdinalTypes,
    attributes: &[(Name, Kind)],
    values: &[Value],
) -> Result<(), Memory>
    requires length { length attributes.now ≡ length values.now }
    requires kinds { HaveKinds (map plain values.now) }
    ensures { OnOk result (out.new.items ≡
        out.old.items ++ tuple_script types.now attributes.now (map plain values.now)) }
{
    out.extend_from_slice(b"TUPLE {")?;
    put_attributes(out, types, attributes, values)?;
    out.push(b'}')?;
    Ok(())
}

/// Writes rows with commas between them, but no more of them when they are longer than a statement may be.
pub(crate) fn put_tuples(
    out: &mut Vec<u8>,
    types: &OrdinalTypes,
    attributes: &[(Name, Kind)],
    rows: &[Row],
) -> Result<(), DumpRefuse>
    requires { AreRows (length attributes.now) rows.now }
    ensures written { OnOk result (out.new.items ≡
        out.old.items ++ listed (map (tuple_script types.now attributes.now) rows.now)) }
    ensures too_long { IfErr result (λ r. r ≡ TooLong →
        most_statement_bytes < length (out.old.items ++ listed (map (tuple_script types.now attributes.now) rows.now))) }
{
    for (at, row) in rows.iter().enumerate() {
        put_comma(out, at)?;
        put_tuple(out, types, attributes, row.values())?;
        if out.len() > MOST_STATEMENT_BYTES {
            return Err(DumpRefuse::TooLong);
        }
    }
    Ok(())
}

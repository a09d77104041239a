// A log of a relvar of numbers: its first statement, and one at which another number comes in place of the first.
ghost use Rattle.std.specs.Prelude.{◌≡◌, IfOk};

use log_turns::{begun, turned};
use point_core::{AnyPoint, AnyType, Memory};
use std::alloc::Global;
use std::test::Fail;
use value_core::{
    Heading, Kind, MOST_ATTRIBUTES, Name, Relation, RelationRefuse, Row, Value, has_name,
};

// The heading of numbers under the name.
fn heading_of(alloc: Global, name: &Name) -> Result<Heading, RelationRefuse> {
    let mut attributes = Vec::new(alloc);
    attributes.push((name.copy(alloc)?, Kind::Point(AnyType::Integer)))?;
    match Heading::make(alloc, attributes) {
        Ok(heading) => Ok(heading),
        Err(_) => Err(RelationRefuse::Misfit),
    }
}

// The relation of the heading with the number alone.
fn number_under(alloc: Global, heading: Heading, number: i64) -> Result<Relation, RelationRefuse>
    ensures { IfOk result (λ r. r.heading ≡ heading) }
{
    let mut values = Vec::new(alloc);
    values.push(Value::Point(AnyPoint::Integer(number)))?;
    let mut rows = Vec::new(alloc);
    rows.push(Row::make(values))?;
    let relation = Relation::from_rows(alloc, heading, rows)?;
    Ok(relation)
}

// What the log says after statement 4, where the relvar had the one value after statement 3, at which the log begins, and the other after 4.
fn logged(
    alloc: Global,
    now: &Relation,
    then: &Relation,
    attribute: &Name,
) -> Result<Relation, RelationRefuse>
    requires { then.now.heading ≡ now.now.heading }
{
    let attributes = now.heading().attributes();
    if attributes.len() >= MOST_ATTRIBUTES || has_name(attributes, attribute) {
        return Err(RelationRefuse::Misfit);
    }
    let first = begun(alloc, now, attribute, 3)?;
    let log = turned(alloc, &first, then, 4)?;
    Ok(log.relation(alloc)?)
}

// The number of a row of the log, and the ends of its interval.
fn numbers_of(row: &Row) -> (i64, i64, i64) {
    match (row.values().first(), row.values().last()) {
        (Some(Value::Point(p)), Some(Value::Span(i))) => {
            (p.number(), i.begin().number(), i.end().number())
        }
        _ => (0, 0, 0),
    }
}

// The same of each row.
fn all_numbers(alloc: Global, log: &Relation) -> Result<Vec<(i64, i64, i64)>, Memory> {
    let mut list = Vec::new(alloc);
    for row in log.rows() {
        list.push(numbers_of(row))?;
    }
    Ok(list)
}

// What the log of a relvar says that has the one number and then the other.
fn told(
    alloc: Global,
    name: &Name,
    attribute: &Name,
    numbers: (i64, i64),
) -> Result<Vec<(i64, i64, i64)>, RelationRefuse> {
    let now = number_under(alloc, heading_of(alloc, name)?, numbers.0)?;
    let then = number_under(alloc, now.heading().copy(alloc)?, numbers.1)?;
    let log = logged(alloc, &now, &then, attribute)?;
    Ok(all_numbers(alloc, &log)?)
}

#[test]
fn a_log_begins_turns_and_is_read(rt: HostRuntime) -> Result<(), Fail> {
    let alloc = rt.alloc();
    let (name, attribute) = (Name::make(alloc, "N")?, Name::make(alloc, "T")?);
    let names = name.zip(attribute);
    assert!(rt; names.is_some());
    if let Some((name, attribute)) = names {
        match told(alloc, &name, &attribute, (1, 2)) {
            Ok(rows) => assert_eq!(rt; rows.as_slice(), [(1, 3, 3), (2, 4, 4)].as_slice()),
            Err(_) => assert!(rt; false),
        }
    }
    Ok(())
}

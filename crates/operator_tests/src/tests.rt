use crate::counts::{count_of, parts_of};
use crate::operators::{Operator, given};
use crate::points::number_of;
use point_core::{DateType, IntType, OrdinalType, Place};
use scalar_core::{Scalar, ScalarForm, is_sweepable};
use std::marker::Brand;
use std::sync::ledger::Blank;
use std::test::Fail;

/// An operator, and the intervals that it gives of those from 1 to 5 and from 4 to 9.
#[derive(Clone, Copy)]
struct Row<'a> {
    operator: Operator,
    spans: &'a [(i64, i64)],
}

#[test]
fn operators_give_their_boxes(rt: HostRuntime) -> Result<(), Fail> {
    let table = [
        Row {
            operator: Operator::Intersect,
            spans: &[(4, 5)],
        },
        Row {
            operator: Operator::Minus,
            spans: &[(1, 3)],
        },
        Row {
            operator: Operator::Join,
            spans: &[(4, 5)],
        },
        Row {
            operator: Operator::Matching,
            spans: &[(4, 5)],
        },
        Row {
            operator: Operator::NotMatching,
            spans: &[(1, 3)],
        },
    ];
    for row in table.iter() {
        let found = given::<Brand>(
            &rt,
            row.operator,
            &[IntType],
            &[(1, 5)],
            &[(4, 9)],
            Blank::new(1),
        );
        match found {
            Ok(found) => assert_eq!(rt; found.as_slice(), row.spans),
            Err(_) => assert!(rt; false),
        }
    }
    Ok(())
}

#[test]
fn points_are_counted_and_parted(rt: HostRuntime) -> Result<(), Fail> {
    let spans = [(1, 5), (4, 9)];
    let count = count_of::<Brand>(&rt, &[IntType], &spans, Blank::new(1))?;
    assert_eq!(rt; count, Some(9));
    match parts_of::<Brand>(&rt, &[IntType], &spans, Blank::new(1)) {
        Ok(parts) => assert_eq!(rt; parts.as_slice(), [(1, 3), (6, 9), (4, 5)].as_slice()),
        Err(_) => assert!(rt; false),
    }
    Ok(())
}

#[test]
fn points_have_their_numbers(rt: HostRuntime) {
    assert_eq!(rt; number_of(&IntType, -3), Some(-3));
    assert_eq!(rt; number_of(&DateType, 15_341), Some(15_341));
    assert_eq!(rt; number_of(&OrdinalType { of: 1, last: 4 }, 4), Some(4));
    assert_eq!(rt; number_of(&OrdinalType { of: 1, last: 4 }, 5), None);
}

#[test]
fn no_condition_is_swept_where_nothing_is_listed(rt: HostRuntime) {
    let attribute = Scalar {
        place: Place { line: 1, column: 1 },
        form: ScalarForm::Attribute(0),
    };
    assert!(rt; is_sweepable(&attribute, &[]));
}

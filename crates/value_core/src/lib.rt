//! Names, texts, values, rows, headings and relations, constraints, and what a statement is refused for.
#![tactic(auto)]

mod constraint;
mod heading;
mod kind;
mod limits;
mod list;
mod name;
mod numbers;
mod refuse;
mod relation;
mod row;
mod text;
mod value;

pub use constraint::{Constraint, HistoryRule};
pub use heading::{Heading, has_name, position};
pub use kind::Kind;
pub use limits::{
    MOST_ATTRIBUTES, MOST_CONSTRAINTS, MOST_LEVELS, MOST_LISTED, MOST_NAME_BYTES, MOST_NODES,
    MOST_OPERATORS, MOST_ORDINAL_TYPES, MOST_ORDINAL_VALUES, MOST_RELVARS, MOST_ROWS,
    MOST_ROWS_IN_ALL, MOST_RULES, MOST_SCRIPT_BYTES, MOST_STATEMENT_BYTES, MOST_TEXT_BYTES,
};
pub use list::{Constraints, ListOf, Names, OrdinalNames, OrdinalTypes, Positions};
pub use name::Name;
pub use refuse::{HeadingRefuse, Refuse, RelationRefuse, RowsRefuse};
pub use relation::Relation;
pub use row::Row;
pub use text::{Text, has_control};
pub use value::Value;

// What statements declare and assign.
use crate::tree::RelTree;
use point_core::{AnyType, Place};
use value_core::{Constraints, Heading, Name, Names, Positions};

/// What is declared: an ordinal type with the names of its values, a base relvar, a view, or the view of a history with the
/// names of its since relvar and its during relvar.
#[derive(Drop)]
pub enum Declaration {
    Ordinal(Name, Names),
    Base(Name, Heading, Constraints),
    View(Name, RelTree),
    HistoryView {
        view: Name,
        tree: RelTree,
        since: Name,
        during: Name,
    },
}

/// What a HISTORY statement declares: the names of its view, its since relvar with the attribute of its points, and its
/// during relvar with the attribute of its intervals; the heading and the key of the facts; the type of the points; and the
/// place of the word HISTORY.
#[derive(Drop)]
pub struct HistoryData {
    pub view: Name,
    pub since: Name,
    pub point: Name,
    pub during: Name,
    pub span: Name,
    pub heading: Heading,
    pub key: Positions,
    pub over: AnyType,
    pub place: Place,
}

/// What a LOG statement declares: the log's name, that of its base relvar, and the attribute that tells the statements.
#[derive(Drop)]
pub struct LogData {
    pub name: Name,
    pub of: Name,
    pub attribute: Name,
}

/// A base relvar and the expression whose rows it gets.
#[derive(Drop)]
pub struct Assignment {
    pub target: Name,
    pub tree: RelTree,
}

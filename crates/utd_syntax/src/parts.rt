// The parts of relations and statements that hold names and scalars alone.
use crate::scalar::{PointName, Scalar};
use crate::word::{Word, Words};
use crate::words::AggregateWord;
use point_core::Place;

/// `"BOOLEAN" | "CHAR" | point | "INTERVAL" "(" point ")"`.
#[derive(Drop)]
pub enum Kind {
    Boolean(Place),
    Char(Place),
    Point(PointName),
    Interval(Place, PointName),
}

/// `name kind`.
#[derive(Drop)]
pub struct Attribute {
    pub name: Word,
    pub kind: Kind,
}

/// Attributes in the order of the text.
#[derive(Drop)]
pub struct Attributes {
    pub list: Vec<Attribute>,
}

/// `"{" [ attribute { "," attribute } ] "}"`; the place is that of `{`.
#[derive(Drop)]
pub struct Heading {
    pub place: Place,
    pub attributes: Attributes,
}

/// `"{" [ name { "," name } ] "}"`; the place is that of `{`.
#[derive(Drop)]
pub struct Names {
    pub place: Place,
    pub names: Words,
}

/// `"(" [ name { "," name } ] ")"`; the place is that of `(`.
#[derive(Drop)]
pub struct NameList {
    pub place: Place,
    pub names: Words,
}

/// `"{" name { "," name } "}"`; the place is that of `{`.
#[derive(Drop)]
pub struct SomeNames {
    pub place: Place,
    pub first: Word,
    pub more: Words,
}

/// `name scalar`.
#[derive(Drop)]
pub struct Element {
    pub name: Word,
    pub scalar: Box<Scalar>,
}

/// Elements in the order of the text.
#[derive(Drop)]
pub struct ElementList {
    pub list: Vec<Element>,
}

/// `"{" [ element { "," element } ] "}"`; the place is that of `{`.
#[derive(Drop)]
pub struct Elements {
    pub place: Place,
    pub elements: ElementList,
}

/// `"{" element { "," element } "}"`; the place is that of `{`.
#[derive(Drop)]
pub struct SomeElements {
    pub place: Place,
    pub first: Element,
    pub more: ElementList,
}

/// `"TUPLE" elements`; the place is that of TUPLE.
#[derive(Drop)]
pub struct Tuple {
    pub place: Place,
    pub elements: Elements,
}

/// Tuples in the order of the text.
#[derive(Drop)]
pub struct Tuples {
    pub list: Vec<Tuple>,
}

/// `"RELATION" "{" tuple { "," tuple } "}" | "RELATION" heading "{" [ tuple { "," tuple } ] "}"`; the place is that of
/// RELATION.
#[derive(Drop)]
pub enum Literal {
    Tuples(Place, Tuple, Tuples),
    Headed(Place, Heading, Tuples),
}

/// `name ":=" scalar`.
#[derive(Drop)]
pub struct SetItem {
    pub name: Word,
    pub scalar: Box<Scalar>,
}

/// Items in the order of the text.
#[derive(Drop)]
pub struct SetItems {
    pub list: Vec<SetItem>,
}

/// `"{" set_item { "," set_item } "}"`; the place is that of `{`.
#[derive(Drop)]
pub struct Sets {
    pub place: Place,
    pub first: SetItem,
    pub more: SetItems,
}

/// `"COUNT" "(" ")" | ( "SUM" | "MIN" | "MAX" ) "(" scalar ")"`; the place is that of the word.
#[derive(Drop)]
pub enum AggregateForm {
    Count(Place),
    Of(Place, AggregateWord, Box<Scalar>),
}

/// `name ":=" aggregate_form`.
#[derive(Drop)]
pub struct Aggregate {
    pub name: Word,
    pub form: AggregateForm,
}

/// Aggregates in the order of the text.
#[derive(Drop)]
pub struct AggregateList {
    pub list: Vec<Aggregate>,
}

/// `"{" aggregate { "," aggregate } "}"`; the place is that of `{`.
#[derive(Drop)]
pub struct Aggregates {
    pub place: Place,
    pub first: Aggregate,
    pub more: AggregateList,
}

/// `name "AS" name`: the old name and the new one.
#[derive(Drop)]
pub struct Renaming {
    pub old: Word,
    pub new: Word,
}

/// Renamings in the order of the text.
#[derive(Drop)]
pub struct RenamingList {
    pub list: Vec<Renaming>,
}

/// `"{" renaming { "," renaming } "}"`; the place is that of `{`.
#[derive(Drop)]
pub struct Renamings {
    pub place: Place,
    pub first: Renaming,
    pub more: RenamingList,
}

/// `"PORTION" some_elements`; the place is that of PORTION.
#[derive(Drop)]
pub struct Portion {
    pub place: Place,
    pub elements: SomeElements,
}

/// `[ "PORTION" some_elements ]`.
#[derive(Drop)]
pub enum MaybePortion {
    None,
    Of(Place, SomeElements),
}

/// `[ "WHERE" scalar ]`; the place is that of WHERE.
#[derive(Drop)]
pub enum Condition {
    None,
    Where(Place, Box<Scalar>),
}

/// `names | "{" "ALL" "BUT" name { "," name } "}"`; the place is that of `{`.
#[derive(Drop)]
pub enum Projection {
    Onto(Place, Words),
    AllBut(Place, Word, Words),
}

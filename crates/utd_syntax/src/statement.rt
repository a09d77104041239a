// Statements and their parts.
use crate::parts::{
    Condition, Heading, MaybePortion, NameList, Names, Portion, Projection, Sets, SomeNames,
};
use crate::relation::{Operand, Rel};
use crate::scalar::{PointName, Scalar};
use crate::word::Word;
use crate::words::{EmptinessWord, InfixWord, RelationComparison};
use point_core::Place;

/// `"KEY" names`; the place is that of KEY.
#[derive(Drop)]
pub struct Key {
    pub place: Place,
    pub names: Names,
}

/// `"FOREIGN" "KEY" names "REFERENCES" name`; the place is that of FOREIGN.
#[derive(Drop)]
pub struct Foreign {
    pub place: Place,
    pub names: Names,
    pub relvar: Word,
}

/// `key | foreign`.
#[derive(Drop)]
pub enum UsedConstraint {
    Key(Key),
    Foreign(Foreign),
}

/// A constraint of a relvar; the place is that of its first word.
#[derive(Drop)]
pub enum Constraint {
    Key(Key),
    Foreign(Foreign),
    PackedOn(Place, NameList),
    WhenUnpacked(Place, NameList, Key),
    Using(Place, NameList, UsedConstraint),
}

/// Constraints in the order of the text.
#[derive(Drop)]
pub struct Constraints {
    pub list: Vec<Constraint>,
}

/// What a kept view may be: `"USING" list ":" name infix name | "USING" list ":" name projection | "PACK" name "ON" list`;
/// the place is that of the first word, and the second that of the infix or of NOT.
#[derive(Drop)]
pub enum Kept {
    Infix(Place, NameList, Word, Place, InfixWord, Word),
    NotMatching(Place, NameList, Word, Place, Word),
    Project(Place, NameList, Word, Projection),
    Pack(Place, Word, NameList),
}

/// `"RELATION" heading { constraint } | "VIRTUAL" "(" rel ")" | "KEPT" "(" kept ")"`; the place is that of the word.
#[derive(Drop)]
pub enum VarForm {
    Relation(Place, Heading, Constraints),
    Virtual(Place, Box<Rel>),
    Kept(Place, Kept),
}

/// `operand ( "=" | "<>" | "<" | "<=" | ">" | ">=" ) operand`; the place is that of the comparison.
#[derive(Drop)]
pub struct Relate {
    pub left: Operand,
    pub place: Place,
    pub word: RelationComparison,
    pub right: Operand,
}

/// `"USING" list ":" relate | ( "IS_EMPTY" | "IS_NOT_EMPTY" ) "(" rel ")" | relate`; the place is that of the word.
#[derive(Drop)]
pub enum Test {
    Using(Place, NameList, Relate),
    Emptiness(Place, EmptinessWord, Box<Rel>),
    Relate(Relate),
}

/// `"WHERE" scalar | rel`; the place is that of WHERE.
#[derive(Drop)]
pub enum UsedDeletion {
    Where(Place, Box<Scalar>),
    Rows(Box<Rel>),
}

/// What may stand under USING in an assignment; the place is that of the word.
#[derive(Drop)]
pub enum UsedItem {
    Insert(Place, Word, Box<Rel>),
    Delete(Place, Word, UsedDeletion),
    Update(Place, Word, Condition, Sets),
}

/// `"WHERE" scalar | portion condition | rel`; the place is that of WHERE.
#[derive(Drop)]
pub enum Deletion {
    Where(Place, Box<Scalar>),
    Portion(Portion, Condition),
    Rows(Box<Rel>),
}

/// An item of an assignment; the place is that of its first word, and the second of Terminate that of AT.
#[derive(Drop)]
pub enum Item {
    Set(Word, Box<Rel>),
    Insert(Place, Word, Box<Rel>),
    Delete(Place, Word, Deletion),
    Update(Place, Word, MaybePortion, Condition, Sets),
    Terminate(Place, Word, Place, Box<Scalar>, Condition),
    Using(Place, NameList, UsedItem),
}

/// Items in the order of the text.
#[derive(Drop)]
pub struct Items {
    pub list: Vec<Item>,
}

/// `item { "," item }`.
#[derive(Drop)]
pub struct Assignment {
    pub first: Item,
    pub more: Items,
}

/// `"HISTORY" name heading "KEY" names "SINCE" name "(" name ")" "DURING" name "(" name ")" "OVER" point`; the place is
/// that of HISTORY.
#[derive(Drop)]
pub struct History {
    pub place: Place,
    pub view: Word,
    pub heading: Heading,
    pub key: Key,
    pub since: Word,
    pub since_attribute: Word,
    pub during: Word,
    pub during_attribute: Word,
    pub point: PointName,
}

/// A statement; the place is that of its first word, and the second of DropRule that of CONSTRAINT.
#[derive(Drop)]
pub enum Statement {
    Nothing,
    Ordinal(Place, Word, SomeNames),
    Var(Place, Word, VarForm),
    History(History),
    DeclareLog(Place, Word, Word, Word),
    DeclareRule(Place, Word, Test),
    Drop(Place, Word),
    DropRule(Place, Place, Word),
    Print(Place, Box<Rel>),
    Ask(Place, Test),
    Assign(Assignment),
}

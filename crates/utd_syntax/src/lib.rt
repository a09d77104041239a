//! The grammar of the language: the syntax tree, the tokens that a tree is written as, and what refuses a text.
#![tactic(auto)]

mod literals;
mod parts;
mod relation;
mod scalar;
mod statement;
mod terminal;
mod word;
mod words;

pub use literals::{exceeds, is_date, is_moment, number_up_to};
pub use parts::{
    Aggregate, AggregateForm, AggregateList, Aggregates, Attribute, Attributes, Condition, Element,
    ElementList, Elements, Heading, Kind, Literal, MaybePortion, NameList, Names, Portion,
    Projection, Renaming, RenamingList, Renamings, SetItem, SetItems, Sets, SomeElements,
    SomeNames, Tuple, Tuples,
};
pub use relation::{Extend, Operand, Rel, RelPrimary, Summarize, Term, Terms, Using, UsingPart};
pub use scalar::{
    Comparison, Conjunction, Negation, PointName, Primary, Product, Scalar, Sign, Sum,
};
pub use statement::{
    Assignment, Constraint, Constraints, Deletion, Foreign, History, Item, Items, Kept, Key,
    Relate, Statement, Test, UsedConstraint, UsedDeletion, UsedItem, VarForm,
};
pub use terminal::Terminal;
pub use word::{Bytes, Word, Words};
pub use words::{
    AggregateWord, BeginBracket, ComparisonWord, EmptinessWord, EndBracket, ExtremeWord,
    FunctionWord, InfixWord, PackWord, PairWord, ProductWord, RelationComparison, SumWord,
};

// Relational expressions: a chain groups to the left.
use crate::parts::{Aggregates, Literal, NameList, Names, Projection, Renamings, Sets};
use crate::scalar::Scalar;
use crate::word::Word;
use crate::words::{InfixWord, PackWord};
use point_core::Place;

/// `using | terms`.
#[cycle(relation)]
#[derive(Drop)]
pub enum Rel {
    Using(Using),
    Terms(Terms),
}

/// `term | terms infix term`; the place is that of the infix's first word.
#[cycle(relation)]
#[derive(Drop)]
pub enum Terms {
    One(Term),
    Infix(Box<Terms>, Place, InfixWord, Term),
    NotMatching(Box<Terms>, Place, Term),
}

/// `rel_primary | term projection | term "WHERE" scalar | term "RENAME" renamings`; the place is that of the word.
#[cycle(relation)]
#[derive(Drop)]
pub enum Term {
    One(RelPrimary),
    Project(Box<Term>, Projection),
    Where(Box<Term>, Place, Box<Scalar>),
    Rename(Box<Term>, Place, Renamings),
}

/// `extend | summarize | operand`.
#[cycle(relation)]
#[derive(Drop)]
pub enum RelPrimary {
    Extend(Extend),
    Summarize(Summarize),
    Operand(Operand),
}

/// `name | literal | "(" rel ")" | ( "PACK" | "UNPACK" ) rel "ON" list`; the place is that of `(` or of the word.
#[cycle(relation)]
#[derive(Drop)]
pub enum Operand {
    Relvar(Word),
    Literal(Literal),
    Paren(Place, Box<Rel>),
    Pack(Place, PackWord, Box<Rel>, NameList),
}

/// `"EXTEND" rel ":" sets`; the place is that of EXTEND.
#[cycle(relation)]
#[derive(Drop)]
pub enum Extend {
    Of(Place, Box<Rel>, Sets),
}

/// `"SUMMARIZE" rel "BY" names ":" aggregates`; the place is that of SUMMARIZE.
#[cycle(relation)]
#[derive(Drop)]
pub enum Summarize {
    Of(Place, Box<Rel>, Names, Aggregates),
}

/// `"USING" list ":" using_part`; the place is that of USING.
#[cycle(relation)]
#[derive(Drop)]
pub enum Using {
    Of(Place, NameList, UsingPart),
}

/// `extend | summarize | operand infix operand | operand projection | operand "WHERE" scalar`; the place is that of the
/// infix's first word or of WHERE.
#[cycle(relation)]
#[derive(Drop)]
pub enum UsingPart {
    Extend(Extend),
    Summarize(Summarize),
    Infix(Operand, Place, InfixWord, Operand),
    NotMatching(Operand, Place, Operand),
    Project(Operand, Projection),
    Where(Operand, Place, Box<Scalar>),
}

// The whole statement.
ghost use Rattle.std.specs.Prelude.{◌≡◌, ◌∷◌, [], IfSome, true};
ghost use Rattle.plain_rows.specs.Brought.{bringing_of, IsBody, IsBrought};
ghost use Rattle.plain_rows.specs.Heads.{list_names, head_of, IsWayOf};
ghost use Rattle.plain_rows.specs.Lexemes.{Begins};
ghost use Rattle.plain_rows.specs.Tuples.{InsertsUnder, relation_word, open_brace, close_brace, semicolon, are_words, BeginsWithTuples};

use crate::arranged::relation_of;
use crate::columns::columns;
use crate::heads::{Head, head_at};
use crate::rows::more_rows;
use crate::scan::{past_space, past_symbol, past_word};
use crate::tuples::tuple;
use node_typing::listed;
use std::alloc::Global;
use utd_syntax::NameList;
use value_core::{Heading, Kind, Name, OrdinalTypes, Positions, Relation, Row};

/// How the rows come to the relvar.
#[derive(Drop)]
pub enum Way {
    /// In place of its rows.
    Set,
    /// Among its rows.
    Insert,
    /// Among its rows, point by point for the attributes at the positions.
    InsertUnder(Positions),
}

/// A statement that brings rows to a relvar.
#[derive(Drop)]
pub struct PlainRows {
    /// How the rows come to the relvar.
    pub way: Way,
    /// The relvar's name.
    pub relvar: Name,
    /// The rows that are written.
    pub rows: Relation,
}

/// How rows come under USING, if the list fits their heading.
fn way_under(alloc: Global, list: &NameList, heading: &Heading) -> Option<Way>
    ensures { IfSome result (λ way. IsWayOf (InsertsUnder (list_names list.now)) heading.now (bringing_of way)) }
{
    match listed(alloc, heading, heading, list) {
        Ok(positions) => Some(Way::InsertUnder(positions)),
        Err(_) => None,
    }
}

/// How rows of the heading come by a statement that begins so.
fn way_of(alloc: Global, head: &Head, heading: &Heading) -> Option<Way>
    ensures { IfSome result (λ way. IsWayOf (head_of head.now) heading.now (bringing_of way)) }
{
    match head {
        Head::Set => Some(Way::Set),
        Head::Insert => Some(Way::Insert),
        Head::InsertUnder(list) => way_under(alloc, list, heading),
    }
}

/// What is behind `RELATION {`.
fn past_relation(text: &[u8]) -> Option<&[u8]>
    ensures { IfSome result (λ rest. Begins text.now (relation_word ∷ open_brace ∷ []) rest.now) }
{
    let behind = past_word(text, b"RELATION")?;
    let brace = past_space(behind);
    let opened = past_symbol(brace, b'{')?;
    Some(past_space(opened))
}

/// What is behind `};`: nothing.
fn past_end(text: &[u8]) -> Option<&[u8]>
    ensures begins { IfSome result (λ rest. Begins text.now (close_brace ∷ semicolon ∷ []) rest.now) }
    ensures ends { IfSome result (λ rest. rest.now ≡ []) }
{
    let behind = past_symbol(text, b'}')?;
    let end = past_space(behind);
    let rest = past_symbol(end, b';')?;
    if rest.is_empty() { Some(rest) } else { None }
}

/// The rows of the tuples at the front, which have these columns, and what is behind them.
fn all_rows<'a>(
    alloc: Global,
    text: &'a [u8],
    columns: &[(Name, Kind)],
    types: &OrdinalTypes,
) -> Option<(Vec<Row>, &'a [u8])>
    requires { are_words columns.now ≡ true }
    ensures { IfSome result (λ r. BeginsWithTuples types.now text.now columns.now r.0.items r.1.now) }
{
    let (values, behind) = tuple(alloc, text, columns, types)?;
    let first = Row::make(values);
    let more = past_space(behind);
    let (rows, rest) = more_rows(alloc, more, columns, first, text.len(), types)?;
    Some((rows, rest))
}

/// The relation of the tuples at the front, behind which the statement ends.
fn body(alloc: Global, text: &[u8], types: &OrdinalTypes) -> Option<Relation>
    ensures { IfSome result (λ relation. IsBody types.now text.now relation) }
{
    let opened = past_relation(text)?;
    let columns = columns(alloc, opened, types)?;
    let (given, behind) = all_rows(alloc, opened, columns.as_slice(), types)?;
    let _rest = past_end(behind)?;
    let rows = relation_of(alloc, columns.as_slice(), given)?;
    Some(rows)
}

/// The rows that a statement brings where these are the ordinal types; none where it is not read here, or memory is short.
pub fn read(alloc: Global, text: &[u8], types: &OrdinalTypes) -> Option<PlainRows>
    ensures { IfSome result (λ plain. IsBrought types.now text.now (bringing_of plain.way) plain.relvar plain.rows) }
{
    let here = past_space(text);
    let (head, relvar, behind) = head_at(alloc, here)?;
    let body_at = past_space(behind);
    let rows = body(alloc, body_at, types)?;
    let way = way_of(alloc, &head, rows.heading())?;
    Some(PlainRows { way, relvar, rows })
}

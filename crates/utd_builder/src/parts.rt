// The parts of relations and statements that hold names and scalars alone.
ghost use Rattle.std.specs.Prelude.{◌≡◌, ◌++◌};
ghost use Rattle.utd_syntax.specs.Read.{read_aggregate, read_aggregate_form, read_aggregate_list, read_aggregates, read_attribute, read_attribute_list, read_condition, read_element, read_element_list, read_elements, read_heading, read_kind, read_list, read_literal, read_maybe_portion, read_name_list, read_names, read_portion, read_projection, read_renaming, read_renaming_list, read_renamings, read_set_item, read_set_item_list, read_sets, read_some_elements, read_some_names, read_tuple, read_tuple_list};
ghost use Rattle.utd_syntax.specs.Table.{InElements, InHeading, InList, InNames, InProjection, InTuples, MaybePortion as MaybePortionForm, MaybeWhere, MoreAggregates, MoreAttributes, MoreElements, MoreNames, MoreRenamings, MoreSetItems, MoreTuples, TheAggregate, TheAggregateForm, TheAggregates, TheAttribute, TheElement, TheElements, TheHeading, TheKind, TheList, TheLiteral, TheNames, ThePortion, TheRenaming, TheRenamings, TheSetItem, TheSets, TheSomeElements, TheSomeNames, TheTuple};
ghost use Rattle.utd_builder.specs.Building.{Builds, Gives, left};
ghost use Rattle.utd_builder.specs.Choices.{aggregate_word_at};

use crate::cursor::Cursor;
use crate::scalars::{point, scalar};
use point_core::Place;
use std::alloc::{AllocError, Global};
use utd_syntax::{
    Aggregate, AggregateForm, AggregateList, AggregateWord, Aggregates, Attribute, Attributes,
    Condition, Element, ElementList, Elements, Heading, Kind, Literal, MaybePortion, NameList,
    Names, Portion, Projection, Renaming, RenamingList, Renamings, SetItem, SetItems, Sets,
    SomeElements, SomeNames, Terminal, Tuple, Tuples, Words,
};

pub fn kind<'a>(alloc: Global, cursor: Cursor<'a>) -> Result<(Kind, Cursor<'a>), AllocError>
    ensures { Builds TheKind read_kind (left cursor.entry) result }
{
    match cursor.terminal() {
        Terminal::Boolean => Ok((Kind::Boolean(cursor.place()), cursor.skip())),
        Terminal::Char => Ok((Kind::Char(cursor.place()), cursor.skip())),
        Terminal::Interval => {
            let place = cursor.place();
            let (name, next) = point(alloc, cursor.skip().skip())?;
            Ok((Kind::Interval(place, name), next.skip()))
        }
        _ => {
            let (only, next) = point(alloc, cursor)?;
            Ok((Kind::Point(only), next))
        }
    }
}

fn attribute<'a>(alloc: Global, cursor: Cursor<'a>) -> Result<(Attribute, Cursor<'a>), AllocError>
    ensures { Builds TheAttribute read_attribute (left cursor.entry) result }
{
    let (name, next) = cursor.name(alloc)?;
    let (kind, end) = kind(alloc, next)?;
    Ok((Attribute { name, kind }, end))
}

fn element<'a>(alloc: Global, cursor: Cursor<'a>) -> Result<(Element, Cursor<'a>), AllocError>
    ensures { Builds TheElement read_element (left cursor.entry) result }
{
    let (name, next) = cursor.name(alloc)?;
    let (scalar, end) = scalar(alloc, next)?;
    Ok((Element { name, scalar }, end))
}

fn tuple<'a>(alloc: Global, cursor: Cursor<'a>) -> Result<(Tuple, Cursor<'a>), AllocError>
    ensures { Builds TheTuple read_tuple (left cursor.entry) result }
{
    let place = cursor.place();
    let (elements, next) = elements(alloc, cursor.skip())?;
    Ok((Tuple { place, elements }, next))
}

fn set_item<'a>(alloc: Global, cursor: Cursor<'a>) -> Result<(SetItem, Cursor<'a>), AllocError>
    ensures { Builds TheSetItem read_set_item (left cursor.entry) result }
{
    let (name, next) = cursor.name(alloc)?;
    let (scalar, end) = scalar(alloc, next.skip())?;
    Ok((SetItem { name, scalar }, end))
}

fn aggregate_word(terminal: Terminal) -> AggregateWord
    ensures { result ≡ aggregate_word_at terminal }
{
    match terminal {
        Terminal::Sum => AggregateWord::Sum,
        Terminal::Min => AggregateWord::Min,
        _ => AggregateWord::Max,
    }
}

fn aggregate_form<'a>(
    alloc: Global,
    cursor: Cursor<'a>,
) -> Result<(AggregateForm, Cursor<'a>), AllocError>
    ensures { Builds TheAggregateForm read_aggregate_form (left cursor.entry) result }
{
    let place = cursor.place();
    let inner = cursor.skip().skip();
    let terminal = cursor.terminal();
    match terminal {
        Terminal::Count => Ok((AggregateForm::Count(place), inner.skip())),
        _ => {
            let word = aggregate_word(terminal);
            let (scalar, next) = scalar(alloc, inner)?;
            Ok((AggregateForm::Of(place, word, scalar), next.skip()))
        }
    }
}

fn aggregate<'a>(alloc: Global, cursor: Cursor<'a>) -> Result<(Aggregate, Cursor<'a>), AllocError>
    ensures { Builds TheAggregate read_aggregate (left cursor.entry) result }
{
    let (name, next) = cursor.name(alloc)?;
    let (form, end) = aggregate_form(alloc, next.skip())?;
    Ok((Aggregate { name, form }, end))
}

fn renaming<'a>(alloc: Global, cursor: Cursor<'a>) -> Result<(Renaming, Cursor<'a>), AllocError>
    ensures { Builds TheRenaming read_renaming (left cursor.entry) result }
{
    let (old, next) = cursor.name(alloc)?;
    let (new, end) = next.skip().name(alloc)?;
    Ok((Renaming { old, new }, end))
}

// Words behind those that are there.
pub fn more_words<'a>(
    alloc: Global,
    names: Words,
    cursor: Cursor<'a>,
) -> Result<(Words, Cursor<'a>), AllocError>
    ensures { Gives MoreNames (λ v. read_name_list names.list.items ++ v) (λ l. read_name_list l.list.items) (left cursor.entry) result }
{
    let mut list = names.list;
    let mut next = cursor;
    while let Terminal::Comma = next.terminal() {
        let (item, after) = next.skip().name(alloc)?;
        list.push(item)?;
        next = after;
    }
    Ok((Words { list }, next))
}

// Attributes behind those that are there.
pub fn more_attributes<'a>(
    alloc: Global,
    attributes: Attributes,
    cursor: Cursor<'a>,
) -> Result<(Attributes, Cursor<'a>), AllocError>
    ensures { Gives MoreAttributes (λ v. read_attribute_list attributes.list.items ++ v) (λ l. read_attribute_list l.list.items) (left cursor.entry) result }
{
    let mut list = attributes.list;
    let mut next = cursor;
    while let Terminal::Comma = next.terminal() {
        let (item, after) = attribute(alloc, next.skip())?;
        list.push(item)?;
        next = after;
    }
    Ok((Attributes { list }, next))
}

// ElementList behind those that are there.
pub fn more_elements<'a>(
    alloc: Global,
    elements: ElementList,
    cursor: Cursor<'a>,
) -> Result<(ElementList, Cursor<'a>), AllocError>
    ensures { Gives MoreElements (λ v. read_element_list elements.list.items ++ v) (λ l. read_element_list l.list.items) (left cursor.entry) result }
{
    let mut list = elements.list;
    let mut next = cursor;
    while let Terminal::Comma = next.terminal() {
        let (item, after) = element(alloc, next.skip())?;
        list.push(item)?;
        next = after;
    }
    Ok((ElementList { list }, next))
}

// Tuples behind those that are there.
pub fn more_tuples<'a>(
    alloc: Global,
    tuples: Tuples,
    cursor: Cursor<'a>,
) -> Result<(Tuples, Cursor<'a>), AllocError>
    ensures { Gives MoreTuples (λ v. read_tuple_list tuples.list.items ++ v) (λ l. read_tuple_list l.list.items) (left cursor.entry) result }
{
    let mut list = tuples.list;
    let mut next = cursor;
    while let Terminal::Comma = next.terminal() {
        let (item, after) = tuple(alloc, next.skip())?;
        list.push(item)?;
        next = after;
    }
    Ok((Tuples { list }, next))
}

// SetItems behind those that are there.
pub fn more_set_items<'a>(
    alloc: Global,
    items: SetItems,
    cursor: Cursor<'a>,
) -> Result<(SetItems, Cursor<'a>), AllocError>
    ensures { Gives MoreSetItems (λ v. read_set_item_list items.list.items ++ v) (λ l. read_set_item_list l.list.items) (left cursor.entry) result }
{
    let mut list = items.list;
    let mut next = cursor;
    while let Terminal::Comma = next.terminal() {
        let (item, after) = set_item(alloc, next.skip())?;
        list.push(item)?;
        next = after;
    }
    Ok((SetItems { list }, next))
}

// AggregateList behind those that are there.
pub fn more_aggregates<'a>(
    alloc: Global,
    aggregates: AggregateList,
    cursor: Cursor<'a>,
) -> Result<(AggregateList, Cursor<'a>), AllocError>
    ensures { Gives MoreAggregates (λ v. read_aggregate_list aggregates.list.items ++ v) (λ l. read_aggregate_list l.list.items) (left cursor.entry) result }
{
    let mut list = aggregates.list;
    let mut next = cursor;
    while let Terminal::Comma = next.terminal() {
        let (item, after) = aggregate(alloc, next.skip())?;
        list.push(item)?;
        next = after;
    }
    Ok((AggregateList { list }, next))
}

// RenamingList behind those that are there.
pub fn more_renamings<'a>(
    alloc: Global,
    renamings: RenamingList,
    cursor: Cursor<'a>,
) -> Result<(RenamingList, Cursor<'a>), AllocError>
    ensures { Gives MoreRenamings (λ v. read_renaming_list renamings.list.items ++ v) (λ l. read_renaming_list l.list.items) (left cursor.entry) result }
{
    let mut list = renamings.list;
    let mut next = cursor;
    while let Terminal::Comma = next.terminal() {
        let (item, after) = renaming(alloc, next.skip())?;
        list.push(item)?;
        next = after;
    }
    Ok((RenamingList { list }, next))
}

// Words, if there are any, and the bracket that closes them.
pub fn words<'a>(alloc: Global, cursor: Cursor<'a>) -> Result<(Words, Cursor<'a>), AllocError>
    ensures names { Builds InNames (λ l. read_name_list l.list.items) (left cursor.entry) result }
    ensures list { Builds InList (λ l. read_name_list l.list.items) (left cursor.entry) result }
{
    let mut list = Vec::new(alloc);
    match cursor.terminal() {
        Terminal::Name => {
            let (item, next) = cursor.name(alloc)?;
            list.push(item)?;
            let (all, end) = more_words(alloc, Words { list }, next)?;
            Ok((all, end.skip()))
        }
        _ => Ok((Words { list }, cursor.skip())),
    }
}

// Attributes, if there are any, and the bracket that closes them.
pub fn attributes<'a>(
    alloc: Global,
    cursor: Cursor<'a>,
) -> Result<(Attributes, Cursor<'a>), AllocError>
    ensures { Builds InHeading (λ l. read_attribute_list l.list.items) (left cursor.entry) result }
{
    let mut list = Vec::new(alloc);
    match cursor.terminal() {
        Terminal::Name => {
            let (item, next) = attribute(alloc, cursor)?;
            list.push(item)?;
            let (all, end) = more_attributes(alloc, Attributes { list }, next)?;
            Ok((all, end.skip()))
        }
        _ => Ok((Attributes { list }, cursor.skip())),
    }
}

// ElementList, if there are any, and the bracket that closes them.
pub fn element_list<'a>(
    alloc: Global,
    cursor: Cursor<'a>,
) -> Result<(ElementList, Cursor<'a>), AllocError>
    ensures { Builds InElements (λ l. read_element_list l.list.items) (left cursor.entry) result }
{
    let mut list = Vec::new(alloc);
    match cursor.terminal() {
        Terminal::Name => {
            let (item, next) = element(alloc, cursor)?;
            list.push(item)?;
            let (all, end) = more_elements(alloc, ElementList { list }, next)?;
            Ok((all, end.skip()))
        }
        _ => Ok((ElementList { list }, cursor.skip())),
    }
}

// Tuples, if there are any, and the bracket that closes them.
pub fn tuple_list<'a>(alloc: Global, cursor: Cursor<'a>) -> Result<(Tuples, Cursor<'a>), AllocError>
    ensures { Builds InTuples (λ l. read_tuple_list l.list.items) (left cursor.entry) result }
{
    let mut list = Vec::new(alloc);
    match cursor.terminal() {
        Terminal::Tuple => {
            let (item, next) = tuple(alloc, cursor)?;
            list.push(item)?;
            let (all, end) = more_tuples(alloc, Tuples { list }, next)?;
            Ok((all, end.skip()))
        }
        _ => Ok((Tuples { list }, cursor.skip())),
    }
}

/// A heading.
pub fn heading<'a>(alloc: Global, cursor: Cursor<'a>) -> Result<(Heading, Cursor<'a>), AllocError>
    ensures { Builds TheHeading read_heading (left cursor.entry) result }
{
    let place = cursor.place();
    let (attributes, next) = attributes(alloc, cursor.skip())?;
    Ok((Heading { place, attributes }, next))
}

/// Names in braces.
pub fn names<'a>(alloc: Global, cursor: Cursor<'a>) -> Result<(Names, Cursor<'a>), AllocError>
    ensures { Builds TheNames read_names (left cursor.entry) result }
{
    let place = cursor.place();
    let (names, next) = words(alloc, cursor.skip())?;
    Ok((Names { place, names }, next))
}

/// Names in parentheses.
pub fn name_list<'a>(
    alloc: Global,
    cursor: Cursor<'a>,
) -> Result<(NameList, Cursor<'a>), AllocError>
    ensures { Builds TheList read_list (left cursor.entry) result }
{
    let place = cursor.place();
    let (names, next) = words(alloc, cursor.skip())?;
    Ok((NameList { place, names }, next))
}

/// Elements in braces.
pub fn elements<'a>(alloc: Global, cursor: Cursor<'a>) -> Result<(Elements, Cursor<'a>), AllocError>
    ensures { Builds TheElements read_elements (left cursor.entry) result }
{
    let place = cursor.place();
    let (elements, next) = element_list(alloc, cursor.skip())?;
    Ok((Elements { place, elements }, next))
}

/// Names in braces, at least one.
pub fn some_names<'a>(
    alloc: Global,
    cursor: Cursor<'a>,
) -> Result<(SomeNames, Cursor<'a>), AllocError>
    ensures { Builds TheSomeNames read_some_names (left cursor.entry) result }
{
    let place = cursor.place();
    let (first, next) = cursor.skip().name(alloc)?;
    let list = Vec::new(alloc);
    let (more, end) = more_words(alloc, Words { list }, next)?;
    Ok((SomeNames { place, first, more }, end.skip()))
}

/// Elements in braces, at least one.
pub fn some_elements<'a>(
    alloc: Global,
    cursor: Cursor<'a>,
) -> Result<(SomeElements, Cursor<'a>), AllocError>
    ensures { Builds TheSomeElements read_some_elements (left cursor.entry) result }
{
    let place = cursor.place();
    let (first, next) = element(alloc, cursor.skip())?;
    let list = Vec::new(alloc);
    let (more, end) = more_elements(alloc, ElementList { list }, next)?;
    Ok((SomeElements { place, first, more }, end.skip()))
}

/// Assignments of attributes in braces.
pub fn sets<'a>(alloc: Global, cursor: Cursor<'a>) -> Result<(Sets, Cursor<'a>), AllocError>
    ensures { Builds TheSets read_sets (left cursor.entry) result }
{
    let place = cursor.place();
    let (first, next) = set_item(alloc, cursor.skip())?;
    let list = Vec::new(alloc);
    let (more, end) = more_set_items(alloc, SetItems { list }, next)?;
    Ok((Sets { place, first, more }, end.skip()))
}

/// Aggregates in braces.
pub fn aggregates<'a>(
    alloc: Global,
    cursor: Cursor<'a>,
) -> Result<(Aggregates, Cursor<'a>), AllocError>
    ensures { Builds TheAggregates read_aggregates (left cursor.entry) result }
{
    let place = cursor.place();
    let (first, next) = aggregate(alloc, cursor.skip())?;
    let list = Vec::new(alloc);
    let (more, end) = more_aggregates(alloc, AggregateList { list }, next)?;
    Ok((Aggregates { place, first, more }, end.skip()))
}

/// Renamings in braces.
pub fn renamings<'a>(
    alloc: Global,
    cursor: Cursor<'a>,
) -> Result<(Renamings, Cursor<'a>), AllocError>
    ensures { Builds TheRenamings read_renamings (left cursor.entry) result }
{
    let place = cursor.place();
    let (first, next) = renaming(alloc, cursor.skip())?;
    let list = Vec::new(alloc);
    let (more, end) = more_renamings(alloc, RenamingList { list }, next)?;
    Ok((Renamings { place, first, more }, end.skip()))
}

/// A relation that is written out.
pub fn literal<'a>(alloc: Global, cursor: Cursor<'a>) -> Result<(Literal, Cursor<'a>), AllocError>
    ensures { Builds TheLiteral read_literal (left cursor.entry) result }
{
    let place = cursor.place();
    let body = cursor.skip();
    let inner = body.skip();
    match inner.terminal() {
        Terminal::Tuple => {
            let (first, next) = tuple(alloc, inner)?;
            let list = Vec::new(alloc);
            let (more, end) = more_tuples(alloc, Tuples { list }, next)?;
            Ok((Literal::Tuples(place, first, more), end.skip()))
        }
        _ => {
            let (head, next) = heading(alloc, body)?;
            let (tuples, end) = tuple_list(alloc, next.skip())?;
            Ok((Literal::Headed(place, head, tuples), end))
        }
    }
}

/// PORTION and its elements.
pub fn portion<'a>(alloc: Global, cursor: Cursor<'a>) -> Result<(Portion, Cursor<'a>), AllocError>
    ensures { Builds ThePortion read_portion (left cursor.entry) result }
{
    let place = cursor.place();
    let (elements, next) = some_elements(alloc, cursor.skip())?;
    Ok((Portion { place, elements }, next))
}

/// PORTION and its elements, if they stand there.
pub fn maybe_portion<'a>(
    alloc: Global,
    cursor: Cursor<'a>,
) -> Result<(MaybePortion, Cursor<'a>), AllocError>
    ensures { Builds MaybePortionForm read_maybe_portion (left cursor.entry) result }
{
    let Terminal::Portion = cursor.terminal() else {
        return Ok((MaybePortion::None, cursor));
    };
    let place = cursor.place();
    let (elements, next) = some_elements(alloc, cursor.skip())?;
    Ok((MaybePortion::Of(place, elements), next))
}

/// WHERE and its condition, if they stand there.
pub fn condition<'a>(
    alloc: Global,
    cursor: Cursor<'a>,
) -> Result<(Condition, Cursor<'a>), AllocError>
    ensures { Builds MaybeWhere read_condition (left cursor.entry) result }
{
    let Terminal::Where = cursor.terminal() else {
        return Ok((Condition::None, cursor));
    };
    let place = cursor.place();
    let (scalar, next) = scalar(alloc, cursor.skip())?;
    Ok((Condition::Where(place, scalar), next))
}

/// The attributes of a projection, behind its brace, which stands at the place.
pub fn projection<'a>(
    alloc: Global,
    place: Place,
    cursor: Cursor<'a>,
) -> Result<(Projection, Cursor<'a>), AllocError>
    ensures { Gives InProjection (λ f. f place) read_projection (left cursor.entry) result }
{
    match cursor.terminal() {
        Terminal::All => {
            let (first, next) = cursor.skip().skip().name(alloc)?;
            let list = Vec::new(alloc);
            let (more, end) = more_words(alloc, Words { list }, next)?;
            Ok((Projection::AllBut(place, first, more), end.skip()))
        }
        _ => {
            let (names, end) = words(alloc, cursor)?;
            Ok((Projection::Onto(place, names), end))
        }
    }
}

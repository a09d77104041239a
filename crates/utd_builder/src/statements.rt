// Statements and their parts: each part is built from the tokens that stand first.
ghost use Rattle.std.specs.Prelude.{◌≡◌, ◌<◌, ◌++◌, None, true, length, IfOk};
ghost use Rattle.utd_syntax.specs.Pieces.{first as first_of};
ghost use Rattle.utd_syntax.specs.Read.{read_assign, read_comparison, read_constraint, read_constraint_list, read_deletion, read_foreign, read_item, read_item_list, read_kept, read_key, read_list, read_name, read_statement, read_test, read_used_constraint, read_used_deletion, read_used_item, read_var_form};
ghost use Rattle.utd_syntax.specs.Table.{AfterKept, MoreConstraints, MoreItems, TheAssign, TheComparison, TheConstraint, TheDeletion, TheForeign, TheItem, TheKept, TheKey, TheParenName, TheStatement, TheTest, TheUsedConstraint, TheUsedDeletion, TheUsedItem, TheVarForm};
ghost use Rattle.utd_syntax.specs.Written as written;
ghost use Rattle.utd_syntax.specs.declared.statement.Statement.TheVariants as statements;
ghost use Rattle.utd_builder.specs.Building.{Builds, Gives, left};
ghost use Rattle.utd_builder.specs.Choices.{is_constraint, relation_comparison_of};
ghost use Rattle.utd_builder.specs.Choices as choices;

use crate::choices::{infix_word, is_constraint};
use crate::cursor::Cursor;
use crate::parts::{
    condition, heading, maybe_portion, name_list, names, portion, projection, sets, some_names,
};
use crate::relations::{operand, rel};
use crate::scalars::{point, scalar};
use point_core::Place;
use std::alloc::{AllocError, Global};
use utd_syntax::{
    Assignment, Constraint, Constraints, Deletion, EmptinessWord, Foreign, History, Item, Items,
    Kept, Key, NameList, Relate, RelationComparison, Statement, Terminal, Test, UsedConstraint,
    UsedDeletion, UsedItem, VarForm, Word,
};

fn key<'a>(alloc: Global, cursor: Cursor<'a>) -> Result<(Key, Cursor<'a>), AllocError>
    ensures { Builds TheKey read_key (left cursor.entry) result }
{
    let place = cursor.place();
    let (names, next) = names(alloc, cursor.skip())?;
    Ok((Key { place, names }, next))
}

fn foreign<'a>(alloc: Global, cursor: Cursor<'a>) -> Result<(Foreign, Cursor<'a>), AllocError>
    ensures { Builds TheForeign read_foreign (left cursor.entry) result }
{
    let place = cursor.place();
    let (names, next) = names(alloc, cursor.skip().skip())?;
    let (relvar, end) = next.skip().name(alloc)?;
    Ok((
        Foreign {
            place,
            names,
            relvar,
        },
        end,
    ))
}

fn used_constraint<'a>(
    alloc: Global,
    cursor: Cursor<'a>,
) -> Result<(UsedConstraint, Cursor<'a>), AllocError>
    ensures { Builds TheUsedConstraint read_used_constraint (left cursor.entry) result }
{
    match cursor.terminal() {
        Terminal::Foreign => {
            let (only, next) = foreign(alloc, cursor)?;
            Ok((UsedConstraint::Foreign(only), next))
        }
        _ => {
            let (only, next) = key(alloc, cursor)?;
            Ok((UsedConstraint::Key(only), next))
        }
    }
}

// A constraint of a relvar.
fn constraint<'a>(alloc: Global, cursor: Cursor<'a>) -> Result<(Constraint, Cursor<'a>), AllocError>
    ensures built { Builds TheConstraint read_constraint (left cursor.entry) result }
    ensures shorter { is_constraint (first_of (left cursor.entry)) ≡ true → IfOk result (λ r. length (left r.1) < length (left cursor.entry)) }
{
    let place = cursor.place();
    let behind = cursor.skip();
    match cursor.terminal() {
        Terminal::Key => {
            let (names, next) = names(alloc, behind)?;
            Ok((Constraint::Key(Key { place, names }), next))
        }
        Terminal::Foreign => {
            let (names, next) = names(alloc, behind.skip())?;
            let (relvar, end) = next.skip().name(alloc)?;
            let tree = Foreign {
                place,
                names,
                relvar,
            };
            Ok((Constraint::Foreign(tree), end))
        }
        Terminal::Packed => {
            let (names, next) = name_list(alloc, behind.skip())?;
            Ok((Constraint::PackedOn(place, names), next))
        }
        Terminal::When => {
            let (names, next) = name_list(alloc, behind.skip().skip())?;
            let (key, end) = key(alloc, next.skip())?;
            Ok((Constraint::WhenUnpacked(place, names, key), end))
        }
        _ => {
            let (names, next) = name_list(alloc, behind)?;
            let (used, end) = used_constraint(alloc, next.skip())?;
            Ok((Constraint::Using(place, names, used), end))
        }
    }
}

// Constraints as long as a token begins one.
fn constraints<'a>(
    alloc: Global,
    cursor: Cursor<'a>,
) -> Result<(Constraints, Cursor<'a>), AllocError>
    ensures { Builds MoreConstraints (λ l. read_constraint_list l.list.items) (left cursor.entry) result }
{
    let mut list = Vec::new(alloc);
    let mut next = cursor;
    'rules: while is_constraint(next.terminal()) {
        let (item, after) = constraint(alloc, next)?;
        list.push(item)?;
        next = after;
    }
    Ok((Constraints { list }, next))
}

// What a kept view may be.
fn kept<'a>(alloc: Global, cursor: Cursor<'a>) -> Result<(Kept, Cursor<'a>), AllocError>
    ensures { Builds TheKept read_kept (left cursor.entry) result }
{
    let place = cursor.place();
    let behind = cursor.skip();
    match cursor.terminal() {
        Terminal::Using => {
            let (names, next) = name_list(alloc, behind)?;
            let (first, rest) = next.skip().name(alloc)?;
            let (tree, end) = kept_using(alloc, place, names, first, rest)?;
            Ok((tree, end))
        }
        _ => {
            let (name, next) = behind.name(alloc)?;
            let (names, end) = name_list(alloc, next.skip())?;
            Ok((Kept::Pack(place, name, names), end))
        }
    }
}

fn kept_using<'a>(
    alloc: Global,
    place: Place,
    names: NameList,
    first: Word,
    cursor: Cursor<'a>,
) -> Result<(Kept, Cursor<'a>), AllocError>
    ensures { Gives AfterKept (λ f. f place (read_list names) (read_name first)) read_kept (left cursor.entry) result }
{
    match infix_word(cursor.terminal()) {
        Some(word) => {
            let at = cursor.place();
            let (second, next) = cursor.skip().name(alloc)?;
            Ok((Kept::Infix(place, names, first, at, word, second), next))
        }
        None => kept_otherwise(alloc, place, names, first, cursor),
    }
}

// NOT MATCHING, or a projection.
fn kept_otherwise<'a>(
    alloc: Global,
    place: Place,
    names: NameList,
    first: Word,
    cursor: Cursor<'a>,
) -> Result<(Kept, Cursor<'a>), AllocError>
    requires { choices.infix_word_at (first_of (left cursor)) ≡ None }
    ensures { Gives AfterKept (λ f. f place (read_list names) (read_name first)) read_kept (left cursor.entry) result }
{
    let at = cursor.place();
    let behind = cursor.skip();
    match cursor.terminal() {
        Terminal::Not => {
            let (second, next) = behind.skip().name(alloc)?;
            Ok((Kept::NotMatching(place, names, first, at, second), next))
        }
        _ => {
            let (onto, next) = projection(alloc, at, behind)?;
            Ok((Kept::Project(place, names, first, onto), next))
        }
    }
}

fn var_form<'a>(alloc: Global, cursor: Cursor<'a>) -> Result<(VarForm, Cursor<'a>), AllocError>
    ensures { Builds TheVarForm read_var_form (left cursor.entry) result }
{
    let place = cursor.place();
    let behind = cursor.skip();
    match cursor.terminal() {
        Terminal::Virtual => {
            let (inner, next) = rel(alloc, behind.skip())?;
            Ok((VarForm::Virtual(place, inner), next.skip()))
        }
        Terminal::Name => {
            let (only, next) = kept(alloc, behind.skip())?;
            Ok((VarForm::Kept(place, only), next.skip()))
        }
        _ => {
            let (head, next) = heading(alloc, behind)?;
            let (rules, end) = constraints(alloc, next)?;
            Ok((VarForm::Relation(place, head, rules), end))
        }
    }
}

fn comparison_of_relations(terminal: Terminal) -> RelationComparison
    ensures { result ≡ relation_comparison_of terminal }
{
    match terminal {
        Terminal::Equal => RelationComparison::Equal,
        Terminal::NotEqual => RelationComparison::NotEqual,
        Terminal::Less => RelationComparison::Less,
        Terminal::LessEqual => RelationComparison::LessEqual,
        Terminal::Greater => RelationComparison::Greater,
        _ => RelationComparison::GreaterEqual,
    }
}

fn relate<'a>(alloc: Global, cursor: Cursor<'a>) -> Result<(Relate, Cursor<'a>), AllocError>
    ensures { Builds TheComparison read_comparison (left cursor.entry) result }
{
    let (left, next) = operand(alloc, cursor)?;
    let place = next.place();
    let word = comparison_of_relations(next.terminal());
    let (right, end) = operand(alloc, next.skip())?;
    Ok((
        Relate {
            left,
            place,
            word,
            right,
        },
        end,
    ))
}

fn test<'a>(alloc: Global, cursor: Cursor<'a>) -> Result<(Test, Cursor<'a>), AllocError>
    ensures { Builds TheTest read_test (left cursor.entry) result }
{
    match cursor.terminal() {
        Terminal::Using => {
            let place = cursor.place();
            let (names, next) = name_list(alloc, cursor.skip())?;
            let (comparison, end) = relate(alloc, next.skip())?;
            Ok((Test::Using(place, names, comparison), end))
        }
        Terminal::IsEmpty => emptiness(alloc, cursor, EmptinessWord::IsEmpty),
        Terminal::IsNotEmpty => emptiness(alloc, cursor, EmptinessWord::IsNotEmpty),
        _ => {
            let (only, next) = relate(alloc, cursor)?;
            Ok((Test::Relate(only), next))
        }
    }
}

fn emptiness<'a>(
    alloc: Global,
    cursor: Cursor<'a>,
    word: EmptinessWord,
) -> Result<(Test, Cursor<'a>), AllocError>
    requires { first_of (left cursor) ≡ written.emptiness word }
    ensures { Builds TheTest read_test (left cursor.entry) result }
{
    let place = cursor.place();
    let (inner, next) = rel(alloc, cursor.skip().skip())?;
    Ok((Test::Emptiness(place, word, inner), next.skip()))
}

fn used_deletion<'a>(
    alloc: Global,
    cursor: Cursor<'a>,
) -> Result<(UsedDeletion, Cursor<'a>), AllocError>
    ensures { Builds TheUsedDeletion read_used_deletion (left cursor.entry) result }
{
    match cursor.terminal() {
        Terminal::Where => {
            let place = cursor.place();
            let (inner, next) = scalar(alloc, cursor.skip())?;
            Ok((UsedDeletion::Where(place, inner), next))
        }
        _ => {
            let (inner, next) = rel(alloc, cursor)?;
            Ok((UsedDeletion::Rows(inner), next))
        }
    }
}

fn deletion<'a>(alloc: Global, cursor: Cursor<'a>) -> Result<(Deletion, Cursor<'a>), AllocError>
    ensures { Builds TheDeletion read_deletion (left cursor.entry) result }
{
    match cursor.terminal() {
        Terminal::Where => {
            let place = cursor.place();
            let (inner, next) = scalar(alloc, cursor.skip())?;
            Ok((Deletion::Where(place, inner), next))
        }
        Terminal::Portion => {
            let (portion, next) = portion(alloc, cursor)?;
            let (condition, end) = condition(alloc, next)?;
            Ok((Deletion::Portion(portion, condition), end))
        }
        _ => {
            let (inner, next) = rel(alloc, cursor)?;
            Ok((Deletion::Rows(inner), next))
        }
    }
}

fn used_item<'a>(alloc: Global, cursor: Cursor<'a>) -> Result<(UsedItem, Cursor<'a>), AllocError>
    ensures { Builds TheUsedItem read_used_item (left cursor.entry) result }
{
    let place = cursor.place();
    let (name, next) = cursor.skip().name(alloc)?;
    match cursor.terminal() {
        Terminal::Insert => {
            let (inner, end) = rel(alloc, next)?;
            Ok((UsedItem::Insert(place, name, inner), end))
        }
        Terminal::Delete => {
            let (deletion, end) = used_deletion(alloc, next)?;
            Ok((UsedItem::Delete(place, name, deletion), end))
        }
        _ => {
            let (condition, behind) = condition(alloc, next)?;
            let (sets, end) = sets(alloc, behind.skip())?;
            Ok((UsedItem::Update(place, name, condition, sets), end))
        }
    }
}

fn item<'a>(alloc: Global, cursor: Cursor<'a>) -> Result<(Item, Cursor<'a>), AllocError>
    ensures { Builds TheItem read_item (left cursor.entry) result }
{
    match cursor.terminal() {
        Terminal::Insert => insert(alloc, cursor),
        Terminal::Delete => delete(alloc, cursor),
        Terminal::Update => update(alloc, cursor),
        Terminal::Terminate => terminate(alloc, cursor),
        Terminal::Using => using_item(alloc, cursor),
        _ => {
            let (name, next) = cursor.name(alloc)?;
            let (inner, end) = rel(alloc, next.skip())?;
            Ok((Item::Set(name, inner), end))
        }
    }
}

fn insert<'a>(alloc: Global, cursor: Cursor<'a>) -> Result<(Item, Cursor<'a>), AllocError>
    requires { first_of (left cursor) ≡ Terminal.Insert }
    ensures { Builds TheItem read_item (left cursor.entry) result }
{
    let place = cursor.place();
    let (name, next) = cursor.skip().name(alloc)?;
    let (inner, end) = rel(alloc, next)?;
    Ok((Item::Insert(place, name, inner), end))
}

fn delete<'a>(alloc: Global, cursor: Cursor<'a>) -> Result<(Item, Cursor<'a>), AllocError>
    requires { first_of (left cursor) ≡ Terminal.Delete }
    ensures { Builds TheItem read_item (left cursor.entry) result }
{
    let place = cursor.place();
    let (name, next) = cursor.skip().name(alloc)?;
    let (deletion, end) = deletion(alloc, next)?;
    Ok((Item::Delete(place, name, deletion), end))
}

fn update<'a>(alloc: Global, cursor: Cursor<'a>) -> Result<(Item, Cursor<'a>), AllocError>
    requires { first_of (left cursor) ≡ Terminal.Update }
    ensures { Builds TheItem read_item (left cursor.entry) result }
{
    let place = cursor.place();
    let (name, next) = cursor.skip().name(alloc)?;
    let (portion, within) = maybe_portion(alloc, next)?;
    let (condition, behind) = condition(alloc, within)?;
    let (sets, end) = sets(alloc, behind.skip())?;
    Ok((Item::Update(place, name, portion, condition, sets), end))
}

fn terminate<'a>(alloc: Global, cursor: Cursor<'a>) -> Result<(Item, Cursor<'a>), AllocError>
    requires { first_of (left cursor) ≡ Terminal.Terminate }
    ensures { Builds TheItem read_item (left cursor.entry) result }
{
    let place = cursor.place();
    let (name, next) = cursor.skip().name(alloc)?;
    let at = next.place();
    let (inner, behind) = scalar(alloc, next.skip())?;
    let (condition, end) = condition(alloc, behind)?;
    Ok((Item::Terminate(place, name, at, inner, condition), end))
}

fn using_item<'a>(alloc: Global, cursor: Cursor<'a>) -> Result<(Item, Cursor<'a>), AllocError>
    requires { first_of (left cursor) ≡ Terminal.Using }
    ensures { Builds TheItem read_item (left cursor.entry) result }
{
    let place = cursor.place();
    let (names, next) = name_list(alloc, cursor.skip())?;
    let (used, end) = used_item(alloc, next.skip())?;
    Ok((Item::Using(place, names, used), end))
}

// Items behind those that are there.
pub fn more_items<'a>(
    alloc: Global,
    items: Items,
    cursor: Cursor<'a>,
) -> Result<(Items, Cursor<'a>), AllocError>
    ensures { Gives MoreItems (λ v. read_item_list items.list.items ++ v) (λ l. read_item_list l.list.items) (left cursor.entry) result }
{
    let mut list = items.list;
    let mut next = cursor;
    while let Terminal::Comma = next.terminal() {
        let (item, after) = item(alloc, next.skip())?;
        list.push(item)?;
        next = after;
    }
    Ok((Items { list }, next))
}

fn assignment<'a>(alloc: Global, cursor: Cursor<'a>) -> Result<(Assignment, Cursor<'a>), AllocError>
    ensures { Builds TheAssign read_assign (left cursor.entry) result }
{
    let (first, next) = item(alloc, cursor)?;
    let list = Vec::new(alloc);
    let (more, end) = more_items(alloc, Items { list }, next)?;
    Ok((Assignment { first, more }, end))
}

fn name_in_parens<'a>(alloc: Global, cursor: Cursor<'a>) -> Result<(Word, Cursor<'a>), AllocError>
    ensures { Builds TheParenName read_name (left cursor.entry) result }
{
    let (name, next) = cursor.skip().name(alloc)?;
    Ok((name, next.skip()))
}

fn history<'a>(alloc: Global, cursor: Cursor<'a>) -> Result<(History, Cursor<'a>), AllocError>
    requires { first_of (left cursor) ≡ Terminal.History }
    ensures { Builds TheStatement (λ h. read_statement (statements.History h)) (left cursor.entry) result }
{
    let place = cursor.place();
    let (view, next) = cursor.skip().name(alloc)?;
    let (heading, next_key) = heading(alloc, next)?;
    let (key, next_since) = key(alloc, next_key)?;
    let (since, next_first) = next_since.skip().name(alloc)?;
    let (since_attribute, next_during) = name_in_parens(alloc, next_first)?;
    let (during, next_second) = next_during.skip().name(alloc)?;
    let (during_attribute, next_over) = name_in_parens(alloc, next_second)?;
    let (point, end) = point(alloc, next_over.skip())?;
    let tree = History {
        place,
        view,
        heading,
        key,
        since,
        since_attribute,
        during,
        during_attribute,
        point,
    };
    Ok((tree, end.skip()))
}

/// The statement that these tokens are.
pub fn statement<'a>(
    alloc: Global,
    cursor: Cursor<'a>,
) -> Result<(Statement, Cursor<'a>), AllocError>
    ensures { Builds TheStatement read_statement (left cursor.entry) result }
{
    match cursor.terminal() {
        Terminal::Semicolon => Ok((Statement::Nothing, cursor.skip())),
        Terminal::TypeWord => ordinal(alloc, cursor),
        Terminal::Var => variable(alloc, cursor),
        Terminal::History => {
            let (only, next) = history(alloc, cursor)?;
            Ok((Statement::History(only), next))
        }
        Terminal::Constraint => rule(alloc, cursor),
        Terminal::Drop => removal(alloc, cursor),
        Terminal::Print => print(alloc, cursor),
        Terminal::Ask => ask(alloc, cursor),
        Terminal::Name => named(alloc, cursor),
        _ => {
            let (only, next) = assignment(alloc, cursor)?;
            Ok((Statement::Assign(only), next.skip()))
        }
    }
}

fn ordinal<'a>(alloc: Global, cursor: Cursor<'a>) -> Result<(Statement, Cursor<'a>), AllocError>
    requires { first_of (left cursor) ≡ Terminal.TypeWord }
    ensures { Builds TheStatement read_statement (left cursor.entry) result }
{
    let place = cursor.place();
    let (name, next) = cursor.skip().name(alloc)?;
    let (values, end) = some_names(alloc, next.skip())?;
    Ok((Statement::Ordinal(place, name, values), end.skip()))
}

fn variable<'a>(alloc: Global, cursor: Cursor<'a>) -> Result<(Statement, Cursor<'a>), AllocError>
    requires { first_of (left cursor) ≡ Terminal.Var }
    ensures { Builds TheStatement read_statement (left cursor.entry) result }
{
    let place = cursor.place();
    let (name, next) = cursor.skip().name(alloc)?;
    let (form, end) = var_form(alloc, next)?;
    Ok((Statement::Var(place, name, form), end.skip()))
}

// A log, where a name stands behind the first one, or an assignment.
fn named<'a>(alloc: Global, cursor: Cursor<'a>) -> Result<(Statement, Cursor<'a>), AllocError>
    requires { first_of (left cursor) ≡ Terminal.Name }
    ensures { Builds TheStatement read_statement (left cursor.entry) result }
{
    let behind = cursor.skip();
    match behind.terminal() {
        Terminal::Name => {
            let place = cursor.place();
            let (log, next) = behind.name(alloc)?;
            let (source, rest) = next.skip().name(alloc)?;
            let (attribute, end) = name_in_parens(alloc, rest)?;
            Ok((
                Statement::DeclareLog(place, log, source, attribute),
                end.skip(),
            ))
        }
        _ => {
            let (only, next) = assignment(alloc, cursor)?;
            Ok((Statement::Assign(only), next.skip()))
        }
    }
}

fn rule<'a>(alloc: Global, cursor: Cursor<'a>) -> Result<(Statement, Cursor<'a>), AllocError>
    requires { first_of (left cursor) ≡ Terminal.Constraint }
    ensures { Builds TheStatement read_statement (left cursor.entry) result }
{
    let place = cursor.place();
    let (name, next) = cursor.skip().name(alloc)?;
    let (test, end) = test(alloc, next)?;
    Ok((Statement::DeclareRule(place, name, test), end.skip()))
}

// DROP of a relvar or of a database constraint.
fn removal<'a>(alloc: Global, cursor: Cursor<'a>) -> Result<(Statement, Cursor<'a>), AllocError>
    requires { first_of (left cursor) ≡ Terminal.Drop }
    ensures { Builds TheStatement read_statement (left cursor.entry) result }
{
    let place = cursor.place();
    let behind = cursor.skip();
    match behind.terminal() {
        Terminal::Constraint => {
            let of_rule = behind.place();
            let (name, next) = behind.skip().name(alloc)?;
            Ok((Statement::DropRule(place, of_rule, name), next.skip()))
        }
        _ => {
            let (name, next) = behind.skip().name(alloc)?;
            Ok((Statement::Drop(place, name), next.skip()))
        }
    }
}

fn print<'a>(alloc: Global, cursor: Cursor<'a>) -> Result<(Statement, Cursor<'a>), AllocError>
    requires { first_of (left cursor) ≡ Terminal.Print }
    ensures { Builds TheStatement read_statement (left cursor.entry) result }
{
    let place = cursor.place();
    let (inner, next) = rel(alloc, cursor.skip())?;
    Ok((Statement::Print(place, inner), next.skip()))
}

fn ask<'a>(alloc: Global, cursor: Cursor<'a>) -> Result<(Statement, Cursor<'a>), AllocError>
    requires { first_of (left cursor) ≡ Terminal.Ask }
    ensures { Builds TheStatement read_statement (left cursor.entry) result }
{
    let place = cursor.place();
    let (test, next) = test(alloc, cursor.skip())?;
    Ok((Statement::Ask(place, test), next.skip()))
}

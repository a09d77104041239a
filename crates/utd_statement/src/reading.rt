// What a statement's text is read as.
ghost use Rattle.std.specs.Prelude.{◌≡◌, ◌+◌, ◌-◌, ◌^◌, ◌≤◌, true, length, IfOk, IfErr};
ghost use Rattle.std.specs.List.{list_all};
ghost use Rattle.value_core.specs.declared.refuse.Refuse.TheVariants as refuses;
ghost use Rattle.utd_lexer.specs.Parts.{is_space};
ghost use Rattle.utd_syntax.specs.Plain.{Nothing};
ghost use Rattle.utd_syntax.specs.Read.{read_statement};
ghost use Rattle.utd_statement.specs.Readings as readings;
ghost use Rattle.utd_statement.specs.Readings.{IsText};
ghost use Rattle.utd_statement.specs.InRange.{IsInRange};
ghost use Rattle.utd_statement.specs.Parsed.{reading_of, IsRefusal, HasAnswer};

use point_core::{Memory, Place};
use std::alloc::Global;
use utd_lexer::{is_space, tokens};
use utd_parser::parse;
use utd_syntax::Statement;
use value_core::Refuse;

/// The tree of a statement, or the refusal of its text.
#[derive(Drop)]
pub(crate) enum Parsed {
    Tree(Statement),
    Refused(Refuse),
}

fn tree_of(alloc: Global, text: &[u8], start: Place) -> Result<Statement, Refuse>
    requires { start.line + start.column + length text.now ≤ 2 ^ 32 - 1 }
    ensures read { IfOk result (λ statement. IsText start text.now (readings.Tree (read_statement statement))) }
    ensures refused { IfErr result (λ refuse. IsRefusal start text.now refuse) }
{
    let list = tokens(alloc, text, start)?;
    let statement = parse(alloc, &list)?;
    Ok(statement)
}

fn are_spaces(bytes: &[u8]) -> bool
    ensures { result ≡ list_all is_space bytes.now }
{
    for byte in bytes {
        if !is_space(*byte) {
            return false;
        }
    }
    true
}

// Whether white space is all that stands before the semicolon.
fn is_empty_statement(text: &[u8]) -> bool
    ensures { (start : Place) → result ≡ true → IsText start text.now (readings.Tree Nothing) }
{
    match text.split_last() {
        None => false,
        Some((last, prefix)) => *last == b';' && are_spaces(prefix),
    }
}

// A refusal as a reading, unless it is want of memory.
fn refused(refuse: Refuse) -> Result<Parsed, Memory>
    ensures same { IfOk result (λ p. reading_of p ≡ readings.Refused refuse) }
    ensures memory { IfOk result (λ _. refuse ≡ refuses.Memory → ⊥) }
{
    match refuse {
        Refuse::Memory => Err(Memory),
        _ => Ok(Parsed::Refused(refuse)),
    }
}

/// The reading of the text from this place on. An empty statement is known without its tokens. Typing never refuses a tree that is read as
/// out of range, whatever the state: its text is refused before.
#[tactic(auto, using(crate::proofs::RangeLaws::text_in_range))]
pub(crate) fn read_text(alloc: Global, text: &[u8], start: Place) -> Result<Parsed, Memory>
    requires { start.line + start.column + length text.now ≤ 2 ^ 32 - 1 }
    ensures read { IfOk result (λ p. IsText start text.now (reading_of p)) }
    ensures in_range { IfOk result (λ p. IsInRange (reading_of p)) }
    ensures answered { IfOk result (λ p. HasAnswer (reading_of p)) }
{
    if is_empty_statement(text) {
        return Ok(Parsed::Tree(Statement::Nothing));
    }
    match tree_of(alloc, text, start) {
        Ok(statement) => Ok(Parsed::Tree(statement)),
        Err(refuse) => refused(refuse),
    }
}

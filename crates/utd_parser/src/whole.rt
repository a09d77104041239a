// The verdict on the tokens of a statement.
ghost use Rattle.std.specs.Prelude.{◌≡◌, List, [], ◌∷◌, IfOk, IfErr};
ghost use Rattle.point_core.specs.declared.fault.Place.{Place};
ghost use Rattle.point_core.specs.declared.fault.Code.{Code};
ghost use Rattle.point_core.specs.declared.fault.Code.TheVariants.{E01};
ghost use Rattle.value_core.specs.declared.refuse.Refuse.TheVariants as refuses;
ghost use Rattle.utd_syntax.specs.Pieces as front;
ghost use Rattle.utd_syntax.specs.Pieces.{Piece, first};
ghost use Rattle.utd_syntax.specs.Continues.{Continues, NoStatement};
ghost use Rattle.utd_syntax.specs.Plain.{StatementP};
ghost use Rattle.utd_syntax.specs.Read.{read_statement};
ghost use Rattle.utd_syntax.specs.Table.{Symbol, TheStatement};
ghost use Rattle.utd_syntax.specs.Verdict.{Verdict, Whole, Refused, at_start, ended, taken, verdict};
ghost use Rattle.utd_syntax.specs.Written.{Spells, of_statement};
ghost use Rattle.utd_ranges.specs.Limits.{limits, verdict_on};
ghost use Rattle.utd_ranges.specs.Ranges.{HasLiteralsInRange, AreWritten, HasValues};
ghost use Rattle.utd_builder.specs.Building as building;
ghost use Rattle.utd_parser.specs.Tokens.{pieces, seen};
ghost use Rattle.utd_parser.specs.Frames.{load_of, symbols_of, reach_of, verdict_behind, Comes, Fails, IsStatement, RefusedAt};

use crate::excess::excess;
use crate::form::Form;
use crate::stack::{Load, Reach, Stack, advance, enter};
use crate::terminals::{bytes_of, terminal_of};
use point_core::{Code, Fault, Place};
use std::alloc::{AllocError, Global};
use utd_builder::{Cursor, Lexeme, statement};
use utd_lexer::{Token, TokenList};
use utd_syntax::{Statement, Terminal};
use value_core::Refuse;

// Room for the frames of most statements.
const ROOM: usize = 16;

// The forms to come, and the load.
#[derive(Drop)]
struct Reading {
    stack: Stack,
    load: Load,
}

// What the first of these tokens is to the grammar.
fn first_of(tokens: &[Lexeme]) -> Terminal
    ensures { result ≡ first (building.pieces tokens.now) }
{
    match tokens.split_first() {
        None => Terminal::Finish,
        Some((token, _)) => token.terminal,
    }
}

// The bytes of the first of these tokens.
fn first_bytes<'a>(tokens: &[Lexeme<'a>]) -> &'a [u8]
    ensures { result.now ≡ front.bytes_of (building.pieces tokens.now) }
{
    match tokens.split_first() {
        None => &[],
        Some((token, _)) => token.bytes,
    }
}

// What the second of these tokens is to the grammar.
fn second_of(tokens: &[Lexeme]) -> Terminal
    ensures { result ≡ first (building.behind (building.pieces tokens.now)) }
{
    match tokens.split_first() {
        None => Terminal::Finish,
        Some((_, more)) => first_of(more),
    }
}

fn refusal(code: Code, place: Place) -> Refuse
    ensures { (v : Verdict) → v ≡ Refused code place → Fails result v }
{
    Refuse::At(Fault { place, code })
}

// Past the end of the text, given where it stands.
fn end(reach: Reach) -> Result<(), Refuse>
    ensures { (stack : List Symbol) → Comes result (ended (reach_of reach stack)) Whole }
{
    match reach {
        Reach::Over => Ok(()),
        Reach::Stuck => Err(refusal(Code::E01, Place { line: 0, column: 0 })),
        Reach::Reaches(_, _) => Err(refusal(Code::E01, Place { line: 0, column: 0 })),
    }
}

impl Reading {
    // Past the token, given where it stands.
    fn take(
        &mut self,
        reach: Reach,
        terminal: Terminal,
        place: Place,
        bytes: &[u8],
    ) -> Result<(), Refuse>
        ensures { (ts : List Piece) → Comes result (taken limits (reach_of reach (symbols_of self.old.stack)) (seen terminal place bytes.now) (verdict limits ts)) (verdict limits ts (symbols_of self.new.stack) (load_of self.new.load)) }
    {
        match reach {
            Reach::Reaches(how, load) => {
                if let Some(code) = excess(how, load, terminal, bytes) {
                    return Err(refusal(code, place));
                }
                self.load = enter(&mut self.stack, how, load)?;
                Ok(())
            }
            Reach::Over => Err(refusal(Code::E01, place)),
            Reach::Stuck => Err(refusal(Code::E01, place)),
        }
    }

    // Past the first of these tokens, or past the end of the text where there is none.
    fn pass(&mut self, tokens: &[Lexeme]) -> Result<(), Refuse>
        ensures { Comes result (verdict limits (building.pieces tokens.now) (symbols_of self.old.stack) (load_of self.old.load)) (verdict_behind (building.pieces tokens.now) (symbols_of self.new.stack) (load_of self.new.load)) }
    {
        let reach = advance(
            &mut self.stack,
            self.load,
            first_of(tokens),
            first_bytes(tokens),
            second_of(tokens),
        )?;
        match tokens.split_first() {
            None => end(reach),
            Some((token, _)) => self.take(reach, token.terminal, token.place, token.bytes),
        }
    }
}

// Past all of these tokens, and past the end of the text.
fn read(reading: Reading, tokens: &[Lexeme]) -> Result<(), Refuse>
    ensures { Comes result (verdict limits (building.pieces tokens.now) (symbols_of reading.stack) (load_of reading.load)) Whole }
{
    let mut reading = reading;
    let mut at = 0;
    'token: loop {
        let rest = tokens.split_at(at).1;
        reading.pass(rest)?;
        if rest.is_empty() {
            return Ok(());
        }
        at += 1;
    }
}

fn at_start(alloc: Global) -> Result<Reading, Refuse>
    ensures start { IfOk result (λ r. (symbols_of r.stack ≡ TheStatement ∷ []) × (load_of r.load ≡ at_start)) }
    ensures memory { IfErr result (λ e. e ≡ refuses.Memory) }
{
    let frames = Vec::with_capacity(alloc, ROOM)?;
    Ok(Reading {
        stack: Stack {
            next: &[Form::TheStatement],
            frames,
        },
        load: Load {
            levels: 0,
            outside: 0,
            operators: 0,
        },
    })
}

// The verdict on the tokens.
fn judge(alloc: Global, tokens: &[Lexeme]) -> Result<(), Refuse>
    ensures { Comes result (verdict_on (building.pieces tokens.now)) Whole }
{
    let reading = at_start(alloc)?;
    read(reading, tokens)
}

// The tokens as the grammar sees them.
fn lexemes<'a>(alloc: Global, tokens: &'a [Token<'_>]) -> Result<Vec<Lexeme<'a>>, AllocError>
    ensures { IfOk result (λ l. building.pieces l.items ≡ pieces tokens.now) }
{
    let mut list = Vec::with_capacity(alloc, tokens.len())?;
    for token in tokens {
        list.push(Lexeme {
            terminal: terminal_of(token),
            place: token.place,
            bytes: bytes_of(token),
        })?;
    }
    Ok(list)
}

fn lexemes_of<'a>(alloc: Global, list: &'a TokenList<'_>) -> Result<Vec<Lexeme<'a>>, AllocError>
    ensures { IfOk result (λ l. building.pieces l.items ≡ pieces list.now) }
{
    lexemes(alloc, list.list.as_slice())
}

// The tokens as the grammar sees them, if the verdict on them is that they are whole.
fn judged<'a>(alloc: Global, list: &'a TokenList<'_>) -> Result<Vec<Lexeme<'a>>, Refuse>
    ensures verdict { Comes result (verdict_on (pieces list.now)) Whole }
    ensures seen { IfOk result (λ l. building.pieces l.items ≡ pieces list.now) }
{
    let seen = lexemes_of(alloc, list)?;
    judge(alloc, seen.as_slice())?;
    Ok(seen)
}

// The tokens as the grammar sees them, if they are a statement, and else the first refusal.
fn accepted<'a>(alloc: Global, list: &'a TokenList<'_>) -> Result<Vec<Lexeme<'a>>, Refuse>
    ensures verdict { Comes result (verdict_on (pieces list.now)) Whole }
    ensures seen { IfOk result (λ l. building.pieces l.items ≡ pieces list.now) }
    ensures read { IfOk result (λ _. IsStatement (pieces list.now)) }
    ensures no_statement { (place : Place) → RefusedAt result E01 place → NoStatement (pieces list.now) place }
    ensures limit { (code : Code) (place : Place) → RefusedAt result code place → (E01 ≡ code → ⊥) → Continues (pieces list.now) place }
{
    judged(alloc, list)
}

/// Whether the tokens are a statement, and else the first refusal. It is E01 at the first token with which no statement
/// goes on, or at the end of the text; E05 at a token that opens a level or is an operator in force beyond the most; E06 at a
/// token out of its range.
pub fn accept(alloc: Global, list: &TokenList<'_>) -> Result<(), Refuse>
    ensures verdict { Comes result (verdict_on (pieces list.now)) Whole }
    ensures read { IfOk result (λ _. IsStatement (pieces list.now)) }
    ensures no_statement { (place : Place) → RefusedAt result E01 place → NoStatement (pieces list.now) place }
    ensures limit { (code : Code) (place : Place) → RefusedAt result code place → (E01 ≡ code → ⊥) → Continues (pieces list.now) place }
{
    accepted(alloc, list)?;
    Ok(())
}

/// The statement that the tokens are, and else the refusal of `accept`: the tree writes these tokens, and no other tree
/// does. Its names and literals are in range; where the tokens are ones that a text writes, each stands for a name or a value.
pub fn parse(alloc: Global, list: &TokenList<'_>) -> Result<Statement, Refuse>
    ensures verdict { Comes result (verdict_on (pieces list.now)) Whole }
    ensures read { IfOk result (λ s. Spells (of_statement (read_statement s)) (pieces list.now) []) }
    ensures range { IfOk result (λ s. HasLiteralsInRange (read_statement s)) }
    ensures values { AreWritten (pieces list.now) → IfOk result (λ s. HasValues (read_statement s)) }
    ensures sole { IfOk result (λ s. (other : StatementP) → Spells (of_statement other) (pieces list.now) [] → other ≡ read_statement s) }
    ensures no_statement { (place : Place) → RefusedAt result E01 place → NoStatement (pieces list.now) place }
    ensures limit { (code : Code) (place : Place) → RefusedAt result code place → (E01 ≡ code → ⊥) → Continues (pieces list.now) place }
{
    let seen = accepted(alloc, list)?;
    let cursor = Cursor {
        rest: seen.as_slice(),
    };
    let (tree, _) = statement(alloc, cursor)?;
    Ok(tree)
}

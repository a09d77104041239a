// The line of a refused statement.
ghost use Rattle.std.specs.Prelude.{◌≡◌, ◌++◌, IfOk, OnOk};
ghost use Rattle.utd_print.specs.Lines.{broken_text, code_text, number_text, place_text, cause_text, HasLine, refusal_line};

use crate::numbers::put_number;
use point_core::{Code, Memory, Place};
use std::alloc::Global;
use value_core::{Name, Refuse};

/// A code and its words.
fn code_text(code: Code) -> &'static [u8]
    ensures { result.now ≡ code_text code }
{
    match code {
        Code::E01 => b"E01 not a statement",
        Code::E02 => b"E02 not UTF-8",
        Code::E03 => b"E03 statement too long",
        Code::E04 => b"E04 statement not ended",
        Code::E05 => b"E05 nested too deep",
        Code::E06 => b"E06 literal out of range",
        Code::E10 => b"E10 unknown name",
        Code::E11 => b"E11 name taken",
        Code::E12 => b"E12 wrong type",
        Code::E13 => b"E13 headings differ",
        Code::E14 => b"E14 no such attribute",
        Code::E15 => b"E15 name repeated",
        Code::E16 => b"E16 not an interval",
        Code::E17 => b"E17 too many attributes",
        Code::E18 => b"E18 not sweepable",
        Code::E19 => b"E19 attribute not kept",
        Code::E20 => b"E20 wrong kind of relvar",
        Code::E21 => b"E21 in use",
        Code::E22 => b"E22 too many",
        Code::E30 => b"E30 out of range",
        Code::E31 => b"E31 division by zero",
        Code::E32 => b"E32 no such point",
        Code::E33 => b"E33 empty interval",
        Code::E34 => b"E34 not one interval",
        Code::E35 => b"E35 too many rows",
        Code::E36 => b"E36 text too long",
        Code::E40 => b"E40 KEY broken",
        Code::E41 => b"E41 PACKED ON broken",
        Code::E42 => b"E42 WHEN UNPACKED ON broken",
        Code::E43 => b"E43 FOREIGN KEY broken",
        Code::E44 => b"E44 HISTORY broken",
        Code::E45 => b"E45 CONSTRAINT broken",
        Code::E46 => b"E46 database full",
    }
}

/// Writes a place as `LINE:COLUMN`.
fn put_place(out: &mut Vec<u8>, place: Place) -> Result<(), Memory>
    ensures { OnOk result (out.new.items ≡ out.old.items ++ place_text place) }
{
    put_number(out, place.line)?;
    out.push(b':')?;
    put_number(out, place.column)
}

/// Writes the number of a relvar's constraint; a database constraint has none.
fn put_constraint_number(out: &mut Vec<u8>, code: Code, number: u32) -> Result<(), Memory>
    ensures { OnOk result (out.new.items ≡ out.old.items ++ number_text code number) }
{
    match code {
        Code::E45 => Ok(()),
        _ => {
            out.extend_from_slice(b" constraint ")?;
            put_number(out, number)
        }
    }
}

/// Writes a broken constraint: of a relvar by its name and the constraint's number, of the database by its own name.
#[tactic(auto, unfolding(crate::specs::Lines::broken_text))]
fn put_broken(out: &mut Vec<u8>, code: Code, name: &Name, number: u32) -> Result<(), Memory>
    ensures { OnOk result (out.new.items ≡ out.old.items ++ broken_text code name.now number) }
{
    out.extend_from_slice(code_text(code))?;
    out.extend_from_slice(b" in ")?;
    out.extend_from_slice(name.as_str().as_bytes())?;
    put_constraint_number(out, code, number)
}

/// Writes the code with its words, and with its place or its constraint.
#[tactic(auto, unfolding(crate::specs::Lines::cause_text))]
fn put_cause(out: &mut Vec<u8>, refuse: &Refuse) -> Result<(), Memory>
    requires { HasLine refuse.now }
    ensures { OnOk result (out.new.items ≡ out.old.items ++ cause_text refuse.now) }
{
    match refuse {
        Refuse::Plain(code) => out.extend_from_slice(code_text(*code))?,
        Refuse::At(fault) => {
            out.extend_from_slice(code_text(fault.code))?;
            out.extend_from_slice(b" at ")?;
            put_place(out, fault.place)?;
        }
        Refuse::Broken {
            code,
            relvar,
            number,
        } => put_broken(out, *code, relvar, *number)?,
        Refuse::Memory => unreachable!(),
    }
    Ok(())
}

/// The line of the statement with this number, which is refused; want of memory has none.
#[tactic(auto, unfolding(crate::specs::Lines::refusal_line))]
pub fn refusal_line(alloc: Global, number: u32, refuse: &Refuse) -> Result<Vec<u8>, Memory>
    requires { HasLine refuse.now }
    ensures { IfOk result (λ line. line.items ≡ refusal_line number refuse.now) }
{
    let mut line = Vec::from_slice(alloc, b"statement ")?;
    put_number(&mut line, number)?;
    line.extend_from_slice(b" refused: ")?;
    put_cause(&mut line, refuse)?;
    line.push(b'\n')?;
    Ok(line)
}

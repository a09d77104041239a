// The generated script: each thousand of tuples is one statement.
ghost use Rattle.std.specs.Prelude.{◌≡◌, ◌<◌, ◌≤◌, ◌++◌, IfOk, OnOk, decimal};
ghost use Rattle.std.specs.List.{flat_map, range_with_len};
ghost use Rattle.utd_gen.specs.Script.{interval_text, tuple_text, tuples_text, insert_line};
ghost use Rattle.utd_gen.specs.Script.{most_tuples, thousand_line, thousands, script_of};

use itoa::Buffer;
use point_core::Memory;
use std::alloc::Global;

/// The most tuples of a generated script.
pub const MOST_TUPLES: u16 = 30_000;

/// Writes a number.
fn put_number(out: &mut Vec<u8>, number: u32) -> Result<(), Memory>
    ensures { OnOk result (out.new.items ≡ out.old.items ++ decimal number) }
{
    let mut buffer = Buffer::new();
    out.extend_from_slice(buffer.format(number).as_bytes())?;
    Ok(())
}

/// Writes an interval.
fn put_interval(out: &mut Vec<u8>, begin: u32, end: u32) -> Result<(), Memory>
    ensures { OnOk result (out.new.items ≡ out.old.items ++ interval_text begin end) }
{
    out.push(b'[')?;
    put_number(out, begin)?;
    out.push(b':')?;
    put_number(out, end)?;
    out.extend_from_slice(b"]")?;
    Ok(())
}

/// Writes the tuple of a number.
#[tactic(auto, unfolding(crate::specs::Script::tuple_text))]
fn put_tuple(out: &mut Vec<u8>, number: u32) -> Result<(), Memory>
    requires { number < most_tuples }
    ensures { OnOk result (out.new.items ≡ out.old.items ++ tuple_text number) }
{
    out.extend_from_slice(b"TUPLE {K ")?;
    put_number(out, number % 10)?;
    out.extend_from_slice(b", D ")?;
    put_interval(out, 3 * number, 3 * number + 4)?;
    out.extend_from_slice(b"}")?;
    Ok(())
}

/// Writes the tuples of the numbers from `begin` on and below `end`.
#[tactic(auto, unfolding(crate::specs::Script::tuples_text))]
fn put_tuples(out: &mut Vec<u8>, begin: u32, end: u32) -> Result<(), Memory>
    requires some { begin < end }
    requires most { end ≤ most_tuples }
    ensures { OnOk result (out.new.items ≡ out.old.items ++ tuples_text begin end) }
{
    put_tuple(out, begin)?;
    for number in begin + 1..end {
        out.extend_from_slice(b", ")?;
        put_tuple(out, number)?;
    }
    Ok(())
}

/// Writes the line that inserts these tuples.
#[tactic(auto, unfolding(crate::specs::Script::insert_line))]
fn put_insert(out: &mut Vec<u8>, begin: u32, end: u32) -> Result<(), Memory>
    requires some { begin < end }
    requires most { end ≤ most_tuples }
    ensures { OnOk result (out.new.items ≡ out.old.items ++ insert_line begin end) }
{
    out.extend_from_slice(b"USING (D): INSERT GEN RELATION {")?;
    put_tuples(out, begin, end)?;
    out.extend_from_slice(b"};\n")?;
    Ok(())
}

/// Writes the lines that insert the tuples of the numbers below `n`.
fn put_inserts(out: &mut Vec<u8>, n: u32) -> Result<(), Memory>
    requires { n ≤ most_tuples }
    ensures { OnOk result (out.new.items ≡
        out.old.items ++ flat_map (thousand_line n) (range_with_len 0 (thousands n))) }
{
    for thousand in 0..n.div_ceil(1000) {
        let begin = 1000 * thousand;
        put_insert(out, begin, (begin + 1000).min(n))?;
    }
    Ok(())
}

/// The script of `n`: a tuple for each number below `n` goes into a relvar, a thousand by a statement, and three
/// statements ask how many there are, how many pairs of them meet, and when there is any.
#[tactic(auto, unfolding(crate::specs::Script::script_of))]
pub fn script_of(alloc: Global, n: u32) -> Result<Vec<u8>, Memory>
    requires { n ≤ most_tuples }
    ensures { IfOk result (λ script. script.items ≡ script_of n) }
{
    let mut out = Vec::from_slice(
        alloc,
        b"VAR GEN RELATION {K INTEGER, D INTERVAL(INTEGER)} USING (D): KEY {K, D};\n",
    )?;
    put_inserts(&mut out, n)?;
    out.extend_from_slice(b"PRINT SUMMARIZE GEN BY {} : {N := COUNT()};\n")?;
    out.extend_from_slice(
        b"PRINT SUMMARIZE (USING (D): GEN JOIN (GEN RENAME {K AS J})) BY {} : {N := COUNT()};\n",
    )?;
    out.extend_from_slice(b"PRINT USING (D): GEN {D};\n")?;
    Ok(out)
}

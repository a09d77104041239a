//! Runs the scripts of data/, and tells those that write something else than what stands beside them: in pieces of several lengths, over streams that are
//! told, and over streams of which each call fails in turn.
#![tactic(auto)]

mod accepting;
mod failing;
mod faults;
mod long;
mod rows;
mod runs;
mod script;
mod scripts;
mod streams;
mod stuck;

use crate::accepting::is_accepting;
use crate::faults::right_faults;
use crate::scripts::right_rows;
use std::io;

/// The files of data/, by subject.
const FILES: [&str; 53] = [
    "affected.txt",
    "arranged.txt",
    "ask.txt",
    "assign.txt",
    "compare.txt",
    "constraint.txt",
    "database_constraint.txt",
    "drop.txt",
    "dump.txt",
    "exchange.txt",
    "extend.txt",
    "extreme.txt",
    "fault.txt",
    "from_sql.txt",
    "grammar.txt",
    "history.txt",
    "inside.txt",
    "insertion.txt",
    "item.txt",
    "join.txt",
    "kept.txt",
    "limit_database.txt",
    "limit_expression.txt",
    "list.txt",
    "list_constraint.txt",
    "list_four.txt",
    "literal.txt",
    "logs.txt",
    "many.txt",
    "moment.txt",
    "name.txt",
    "pack.txt",
    "page.txt",
    "points.txt",
    "portion.txt",
    "questions.txt",
    "relation.txt",
    "relvar.txt",
    "run.txt",
    "scalar.txt",
    "script.txt",
    "shape.txt",
    "source.txt",
    "summarize.txt",
    "terminate.txt",
    "text.txt",
    "token.txt",
    "type.txt",
    "typing.txt",
    "update.txt",
    "using.txt",
    "view.txt",
    "where.txt",
];

/// The file whose scripts are run with `--dump`.
const DUMPS: &str = "dump.txt";

/// The files of scripts whose words and streams are told.
const STREAMS: [&str; 3] = [
    "streams/failing.txt",
    "streams/long.txt",
    "streams/words.txt",
];

/// The files of scripts of which each call fails in turn, each with the status of its script.
const FAULTS: [(&str, u8); 2] = [("faults/suppliers.txt", 0), ("faults/changes.txt", 1)];

/// How many scripts come out right.
fn right_scripts(rt: &HostRuntime) -> io::Result<u64> {
    let mut right: u64 = 0;
    for file in FILES {
        let word = if *file == *DUMPS { "--dump" } else { "" };
        right = right.saturating_add(right_rows(rt, file, word)?);
    }
    for file in STREAMS {
        right = right.saturating_add(right_rows(rt, file, "")?);
    }
    Ok(right)
}

fn main(rt: HostRuntime) -> io::Result<()> {
    let right = right_scripts(&rt)?;
    println!(rt; "{right} scripts agree")?;
    if !is_accepting(rt.alloc()) {
        println!(rt; "accept differs")?;
    }
    let mut right: u64 = 0;
    for (file, status) in FAULTS {
        right = right.saturating_add(right_faults(&rt, file, status)?);
    }
    println!(rt; "{right} runs came out as told")
}

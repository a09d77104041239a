// The rows of a file: `=== title`, the lines of a script, which may be written short, `--- status`, and the lines that it writes.
//
// Behind the title there may be lines with what else the run is given: `+++ word WORD`, `+++ read PIECE FAILING`, `+++ write PIECE FAILING` and
// `+++ tell FAILING`; and `+++ line LINE`, which it writes beside its status.
use crate::streams::Streams;
use std::alloc::{AllocError, Global};

/// The length of the pieces of streams of which only some calls are told.
const PIECE: usize = 4096;

/// A script with its words and its streams, and what comes of it. The status is 99 where none is written.
#[derive(Drop)]
pub(crate) struct Row {
    pub(crate) title: String,
    pub(crate) words: Vec<String>,
    pub(crate) streams: Option<Streams>,
    pub(crate) script: String,
    pub(crate) output: String,
    pub(crate) line: String,
    pub(crate) status: u8,
    is_output: bool,
}

/// Rows in their order.
#[derive(Drop)]
pub(crate) struct Rows {
    pub(crate) list: Vec<Row>,
}

fn push_line(text: &mut String, line: &str) -> Result<(), AllocError> {
    text.push_str(line)?;
    text.push_str("\n")
}

fn number(text: &str) -> u64 {
    text.parse::<u64>().unwrap_or(0)
}

/// The streams with what `NAME PIECE FAILING` or `NAME FAILING` says of one of them.
fn told(streams: Streams, name: &str, numbers: &str) -> Streams {
    let (piece, failing) = numbers.split_once(" ").unwrap_or(("", numbers));
    let piece = piece.parse::<usize>().unwrap_or(PIECE);
    if *name == *"read" {
        Streams {
            read_piece: piece,
            failing_read: number(failing),
            ..streams
        }
    } else if *name == *"write" {
        Streams {
            write_piece: piece,
            failing_write: number(failing),
            ..streams
        }
    } else {
        Streams {
            failing_line: number(failing),
            ..streams
        }
    }
}

impl Row {
    fn of(alloc: Global, title: &str, words: Vec<String>) -> Result<Row, AllocError> {
        Ok(Row {
            title: String::from_str(alloc, title)?,
            words,
            streams: None,
            script: String::new(alloc),
            output: String::new(alloc),
            line: String::new(alloc),
            status: 99,
            is_output: false,
        })
    }

    /// One line more, of the script or of what it writes.
    fn take(&mut self, line: &str) -> Result<(), AllocError> {
        let text = if self.is_output {
            &mut self.output
        } else {
            &mut self.script
        };
        push_line(text, line)
    }

    /// What else the run is given, or the line of its status.
    fn take_given(&mut self, alloc: Global, given: &str) -> Result<(), AllocError> {
        let (name, rest) = given.split_once(" ").unwrap_or((given, ""));
        if *name == *"word" {
            self.words.push(String::from_str(alloc, rest)?)?;
        } else if *name == *"line" {
            push_line(&mut self.line, rest)?;
        } else {
            let streams = self.streams.unwrap_or(Streams::of(PIECE));
            self.streams = Some(told(streams, name, rest));
        }
        Ok(())
    }

    /// The line with the status: the script has no line end before it, and what it writes follows.
    fn end_script(&mut self, status: &str) {
        let _line_end = self.script.pop();
        self.status = status.parse::<u8>().unwrap_or(99);
        self.is_output = true;
    }
}

/// The word alone, or none.
fn words_of(alloc: Global, word: &str) -> Result<Vec<String>, AllocError> {
    let mut words = Vec::new(alloc);
    if !word.is_empty() {
        words.push(String::from_str(alloc, word)?)?;
    }
    Ok(words)
}

impl Rows {
    /// The rows of a text. The run of each has this word, where there is one.
    pub(crate) fn of(alloc: Global, text: &str, word: &str) -> Result<Rows, AllocError> {
        let mut list: Vec<Row> = Vec::new(alloc);
        for line in text.lines() {
            if let Some(title) = line.strip_prefix("=== ") {
                list.push(Row::of(alloc, title, words_of(alloc, word)?)?)?;
            } else if let Some(row) = list.last_mut() {
                if let Some(given) = line.strip_prefix("+++ ") {
                    row.take_given(alloc, given)?;
                } else if let Some(status) = line.strip_prefix("--- ") {
                    row.end_script(status);
                } else {
                    row.take(line)?;
                }
            }
        }
        Ok(Rows { list })
    }
}

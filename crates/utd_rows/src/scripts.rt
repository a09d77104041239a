// Runs of the rows of a file.
use crate::long::whole;
use crate::rows::{Row, Rows};
use crate::runs::{Given, Wanted, comes_out};
use crate::streams::Streams;
use std::alloc::AllocError;
use std::{fs, io};

/// Whether the row comes out right over these streams.
fn is_right(
    rt: &HostRuntime,
    row: &Row,
    script: &[u8],
    streams: &Streams,
) -> Result<bool, AllocError> {
    let given = Given {
        words: &row.words,
        script,
    };
    let wanted = Wanted {
        output: row.output.as_bytes(),
        line: row.line.as_bytes(),
        status: row.status,
    };
    comes_out(rt, given, streams, wanted)
}

/// The first length of pieces in which the row comes out wrong. One with streams of its own is run over these, and one that is written short, since it is
/// long, is run once.
fn first_wrong_piece(rt: &HostRuntime, row: &Row) -> Result<Option<usize>, AllocError> {
    let script = whole(rt.alloc(), row.script.as_str())?;
    let script = script.as_slice();
    if let Some(streams) = row.streams {
        let is_right = is_right(rt, row, script, &streams)?;
        return Ok(if is_right {
            None
        } else {
            Some(streams.read_piece)
        });
    }
    let pieces: &[usize] = if script.len() == row.script.len() {
        &[1, 7, 13, 65_536]
    } else {
        &[13]
    };
    for piece in pieces {
        if !is_right(rt, row, script, &Streams::of(*piece))? {
            return Ok(Some(*piece));
        }
    }
    Ok(None)
}

/// Runs the rows of a file with this word, if there is one, tells those that come out wrong, and gives how many come out right.
pub(crate) fn right_rows(rt: &HostRuntime, file: &str, word: &str) -> io::Result<u64> {
    let text = fs::read_to_string(rt, file)?;
    let rows = Rows::of(rt.alloc(), text.as_str(), word)?;
    let mut right: u64 = 0;
    for row in &rows.list {
        match first_wrong_piece(rt, row)? {
            None => right = right.saturating_add(1),
            Some(piece) => {
                let title = row.title.as_str();
                println!(rt; "{file}: {title}: differs in pieces of {piece}")?;
            }
        }
    }
    Ok(right)
}

// How the streams of a run behave.
use std::alloc::{AllocError, Global};
use utd_io::{MemorySink, MemorySource};

/// The most bytes that a script writes.
const ROOM: usize = 20_000;
/// The most bytes that the line of a status takes.
const LINE: usize = 100;

/// The lengths of the pieces in which a script is read and its output written, and which calls fail. A call 0 is none.
#[derive(Clone, Copy)]
pub(crate) struct Streams {
    pub(crate) read_piece: usize,
    pub(crate) failing_read: u64,
    pub(crate) write_piece: usize,
    pub(crate) failing_write: u64,
    pub(crate) failing_line: u64,
}

impl Streams {
    /// Streams on which no call fails, of pieces of this length.
    pub(crate) fn of(piece: usize) -> Streams {
        Streams {
            read_piece: piece,
            failing_read: 0,
            write_piece: piece,
            failing_write: 0,
            failing_line: 0,
        }
    }

    pub(crate) fn source(&self, alloc: Global, script: &[u8]) -> Result<MemorySource, AllocError> {
        let script = script.to_vec(alloc)?;
        let failing = [self.failing_read].to_vec(alloc)?;
        Ok(MemorySource::new(script, self.read_piece.max(1), failing))
    }

    pub(crate) fn sink(&self, alloc: Global) -> Result<MemorySink, AllocError> {
        sink(alloc, ROOM, self.write_piece, self.failing_write)
    }

    pub(crate) fn line_sink(&self, alloc: Global) -> Result<MemorySink, AllocError> {
        sink(alloc, LINE, LINE, self.failing_line)
    }
}

fn sink(alloc: Global, room: usize, piece: usize, failing: u64) -> Result<MemorySink, AllocError> {
    let room = vec![in alloc; 0u8; room]?;
    let failing = [failing].to_vec(alloc)?;
    Ok(MemorySink::new(room, piece.max(1), failing))
}

// The kinds of calls that fail, and how a run ends in which one fails.
use crate::script::Script;
use crate::streams::Streams;
use std::alloc::{AllocError, Global};

/// The most bytes that a read gives.
const READ: usize = 100;
/// The most bytes that a write takes where an answer is to go at once.
const ANSWER: usize = 10_000;

/// Which calls fail in turn.
#[derive(Clone, Copy)]
pub(crate) enum Failing {
    Read,
    ByteWrite,
    AnswerWrite,
}

/// How a run ends: what of the script's output is written, and the status.
#[derive(Clone, Copy)]
pub(crate) struct Ending {
    pub(crate) written: usize,
    pub(crate) status: u8,
}

impl Ending {
    /// The line that is written beside the status.
    pub(crate) fn line(self) -> &'static [u8] {
        match self.status {
            3 => b"utd: read failed\n",
            4 => b"utd: write failed\n",
            _ => b"",
        }
    }
}

impl Failing {
    pub(crate) fn name(self) -> &'static str {
        match self {
            Failing::Read => "read",
            Failing::ByteWrite => "write of a byte",
            Failing::AnswerWrite => "write of an answer",
        }
    }

    /// Streams on which this call fails.
    pub(crate) fn streams(self, call: u64) -> Streams {
        let none = Streams {
            read_piece: READ,
            ..Streams::of(ANSWER)
        };
        match self {
            Failing::Read => Streams {
                failing_read: call,
                ..none
            },
            Failing::ByteWrite => Streams {
                write_piece: 1,
                failing_write: call,
                ..none
            },
            Failing::AnswerWrite => Streams {
                failing_write: call,
                ..none
            },
        }
    }

    fn status(self) -> u8 {
        match self {
            Failing::Read => 3,
            Failing::ByteWrite | Failing::AnswerWrite => 4,
        }
    }
}

/// What is written before each read; the last one finds no byte.
fn before_reads(alloc: Global, script: &Script) -> Result<Vec<usize>, AllocError> {
    let mut before = Vec::new(alloc);
    for read in 0..script.text.len().div_ceil(READ).saturating_add(1) {
        before.push(script.written_after(read.saturating_mul(READ)))?;
    }
    Ok(before)
}

/// What is written before each byte.
fn before_bytes(alloc: Global, script: &Script) -> Result<Vec<usize>, AllocError> {
    let mut before = Vec::new(alloc);
    for written in 0..script.output.len() {
        before.push(written)?;
    }
    Ok(before)
}

/// What is written before each call of the kind.
fn before_calls(alloc: Global, script: &Script, kind: Failing) -> Result<Vec<usize>, AllocError> {
    match kind {
        Failing::Read => before_reads(alloc, script),
        Failing::ByteWrite => before_bytes(alloc, script),
        Failing::AnswerWrite => script.before_answers(alloc),
    }
}

/// How the run ends in which the first call of the kind fails, and so on with each next one; and at last the run with as many calls, none of which fails.
pub(crate) fn endings(
    alloc: Global,
    script: &Script,
    kind: Failing,
) -> Result<Vec<Ending>, AllocError> {
    let mut endings = Vec::new(alloc);
    for written in &before_calls(alloc, script, kind)? {
        endings.push(Ending {
            written: *written,
            status: kind.status(),
        })?;
    }
    endings.push(Ending {
        written: script.output.len(),
        status: script.status,
    })?;
    Ok(endings)
}

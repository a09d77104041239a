// A script with what each of its statements writes: `===`, the lines of a statement, `---`, the lines that it writes.
use std::alloc::{AllocError, Global};

/// A statement: the bytes of the script up to its `;`, and what is written once it is answered.
#[derive(Clone, Copy)]
struct Answered {
    end: usize,
    written: usize,
}

/// A script, what it writes, and its status.
#[derive(Drop)]
pub(crate) struct Script {
    pub(crate) text: String,
    pub(crate) output: String,
    pub(crate) status: u8,
    statements: Vec<Answered>,
}

fn push_line(text: &mut String, line: &str) -> Result<(), AllocError> {
    text.push_str(line)?;
    text.push_str("\n")
}

impl Script {
    /// The script that a text tells.
    pub(crate) fn of(alloc: Global, text: &str, status: u8) -> Result<Script, AllocError> {
        let mut script = Script {
            text: String::new(alloc),
            output: String::new(alloc),
            status,
            statements: Vec::new(alloc),
        };
        let mut is_output = false;
        for line in text.lines() {
            if line == "===" {
                is_output = false;
            } else if line == "---" {
                is_output = true;
                script.end_statement()?;
            } else {
                script.take(line, is_output)?;
            }
        }
        Ok(script)
    }

    /// The statement whose last line was taken ends before that line's end.
    fn end_statement(&mut self) -> Result<(), AllocError> {
        self.statements.push(Answered {
            end: self.text.len().saturating_sub(1),
            written: self.output.len(),
        })?;
        Ok(())
    }

    /// One line more, of the script or of what its last statement writes.
    fn take(&mut self, line: &str, is_output: bool) -> Result<(), AllocError> {
        if is_output {
            push_line(&mut self.output, line)?;
        } else {
            push_line(&mut self.text, line)?;
        }
        let written = self.output.len();
        if let Some(statement) = self.statements.last_mut() {
            statement.written = written;
        }
        Ok(())
    }

    /// So many of the first bytes that it writes.
    pub(crate) fn front(&self, written: usize) -> &[u8] {
        let output = self.output.as_bytes();
        &output[..written.min(output.len())]
    }

    /// How much is written of the statements that end in so many of the first bytes.
    pub(crate) fn written_after(&self, read: usize) -> usize {
        let mut written = 0;
        for statement in &self.statements {
            if statement.end <= read {
                written = statement.written;
            }
        }
        written
    }

    /// How much is written before each statement that writes.
    pub(crate) fn before_answers(&self, alloc: Global) -> Result<Vec<usize>, AllocError> {
        let mut before = Vec::new(alloc);
        let mut written = 0;
        for statement in &self.statements {
            if statement.written > written {
                before.push(written)?;
                written = statement.written;
            }
        }
        Ok(before)
    }
}

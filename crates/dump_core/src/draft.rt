// A script while it is written.
ghost use Rattle.std.specs.Prelude.{◌≡◌, ◌++◌, Some, None, IfOk, IfErr, OnOk};
ghost use Rattle.dump_core.specs.declared.refuse.DumpRefuse.TheVariants.{TooLong};
ghost use Rattle.dump_core.specs.Dumps.{behind_another, ended};
ghost use Rattle.dump_core.specs.Drafts.{piece, with_statement, finished};

use crate::refuse::DumpRefuse;
use point_core::Memory;
use std::alloc::Global;
use std::marker::Model;
use value_core::{MOST_SCRIPT_BYTES, MOST_STATEMENT_BYTES};

/// A script while it is written: the bytes so far, and whether a statement is among them.
#[derive(Drop)]
pub(crate) struct Draft {
    text: Vec<u8>,
    begun: bool,
}

impl Model for Draft {
    ghost use Rattle.dump_core.specs.Drafts.{Written};

    ghost Value = { Written };

    ghost view = { λ d. record { text = d.text.items; begun = d.begun } };
}

impl Draft {
    ghost use Rattle.dump_core.specs.Drafts.{nothing};

    /// A script without a statement.
    pub(crate) fn new(alloc: Global) -> Draft
        ensures { result ≡ nothing }
    {
        Draft {
            text: Vec::new(alloc),
            begun: false,
        }
    }

    /// Where memory comes from.
    pub(crate) fn alloc(&self) -> Global {
        *self.text.allocator()
    }

    /// Writes a statement behind those that are there.
    pub(crate) fn put(&mut self, statement: &[u8]) -> Result<(), DumpRefuse>
        ensures written { OnOk result (with_statement statement.now self.old ≡ Some self.new) }
        ensures too_long { IfErr result (λ r. r ≡ TooLong → with_statement statement.now self.old ≡ None) }
    {
        if statement.len() > MOST_STATEMENT_BYTES {
            return Err(DumpRefuse::TooLong);
        }
        put_piece(&mut self.text, self.begun, statement)?;
        self.begun = true;
        if self.text.len() as u64 > MOST_SCRIPT_BYTES {
            return Err(DumpRefuse::TooLong);
        }
        Ok(())
    }

    /// The bytes of the script, behind which no statement comes.
    pub(crate) fn finish(self) -> Result<Vec<u8>, Memory>
        ensures { IfOk result (λ v. v.items ≡ finished self) }
    {
        let Draft { text, begun } = self;
        if begun { end(text) } else { Ok(text) }
    }
}

/// Writes what a statement adds to a script, in which there is one already or not.
fn put_piece(out: &mut Vec<u8>, begun: bool, statement: &[u8]) -> Result<(), Memory>
    ensures { OnOk result (out.new.items ≡ out.old.items ++ piece begun statement.now) }
{
    if begun {
        put_behind(out, statement)?;
    } else {
        out.extend_from_slice(statement)?;
    }
    Ok(())
}

/// Writes a statement behind another, on a line of its own where it has room for that.
fn put_behind(out: &mut Vec<u8>, statement: &[u8]) -> Result<(), Memory>
    ensures { OnOk result (out.new.items ≡ out.old.items ++ behind_another statement.now) }
{
    if statement.len() != MOST_STATEMENT_BYTES {
        out.push(b'\n')?;
    }
    out.extend_from_slice(statement)?;
    Ok(())
}

/// Ends the last line of a script, where there is room for that.
fn end(text: Vec<u8>) -> Result<Vec<u8>, Memory>
    ensures { IfOk result (λ v. v.items ≡ ended text.items) }
{
    let mut text = text;
    if (text.len() as u64) < MOST_SCRIPT_BYTES {
        text.push(b'\n')?;
    }
    Ok(text)
}

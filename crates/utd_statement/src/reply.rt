// What is answered to one statement.
ghost use Rattle.std.specs.Prelude.{◌≡◌, ◌≤◌, ◌<ℤ◌, ◌≤ℤ◌, ◌+ℤ◌, pos, ◌+◌, ◌-◌, ◌^◌, length, IfOk, OnErr};
ghost use Rattle.point_core.specs.Whole.{greatest_whole};
ghost use Rattle.utd_syntax.specs.Read.{read_statement};
ghost use Rattle.utd_lexer.specs.Gaps.{without_gaps};
ghost use Rattle.utd_print.specs.Lines.{HasLine};
ghost use Rattle.utd_statement.specs.Answers.{Answer, Refusal, of_tree, is_accepted};
ghost use Rattle.utd_statement.specs.Costs.{cost_of_tree, TakesAtMost};
ghost use Rattle.utd_statement.specs.Keeping.{keeping_of, settled};
ghost use Rattle.tree_core.specs.Relvars.{read_relvars, State};
ghost use Rattle.utd_statement.specs.Replies.{IsReply, IsAnswered, IsAnswerTo, IsPerformed};

use crate::bringing::bring;
use crate::keeping::{begin, settle};
use crate::performing::performed;
use crate::reading::{Parsed, read_text};
use assign_core::Database;
use dump_core::Texts;
use point_core::{Memory, Place, Steps};
use std::alloc::Global;
use std::sync::ledger::Ledger;
use utd_print::refusal_line;
use utd_syntax::Statement;
use value_core::Refuse;

/// What a statement writes, and whether it is accepted.
#[derive(Drop)]
pub struct Reply {
    pub text: Vec<u8>,
    pub accepted: bool,
}

/// The answer to a refused statement.
pub fn refusal(alloc: Global, number: u32, refuse: &Refuse) -> Result<Reply, Memory>
    requires { HasLine refuse.now }
    ensures { IfOk result (IsReply number (Refusal refuse.now)) }
{
    let text = refusal_line(alloc, number, refuse)?;
    Ok(Reply {
        text,
        accepted: false,
    })
}

// The answer that is told by this text, or by this refusal. Where there is a text, the statement is accepted, and no memory is taken.
fn reply_with(alloc: Global, number: u32, written: Result<Vec<u8>, Refuse>) -> Result<Reply, Memory>
    ensures { (old new : State) (a : Answer) → IsPerformed written old new a → IsAnswered result number old new a }
{
    match written {
        Ok(text) => Ok(Reply {
            text,
            accepted: true,
        }),
        Err(Refuse::Memory) => Err(Memory),
        Err(refuse) => refusal(alloc, number, &refuse),
    }
}

// The answer to the tree of a statement.
fn answer_to_tree<L: Ledger>(
    alloc: Global,
    database: &mut Database,
    number: u32,
    statement: &Statement,
    steps: &mut Steps<L>,
) -> Result<Reply, Memory>
    requires room { ((read_relvars database.old).accepted +ℤ pos 1) <ℤ greatest_whole }
    ensures answered { IsAnswered result number (read_relvars database.old) (read_relvars database.new)
        (of_tree (read_relvars database.old) (read_statement statement.now)) }
    ensures cost { steps.new ≤ steps.old + cost_of_tree (read_relvars database.old) (read_statement statement.now) }
{
    let written = performed(alloc, statement, database, steps);
    reply_with(alloc, number, written)
}

// The answer to a statement that is read. The text of a declaration is kept before it is performed, and goes again where it is refused.
fn answer_to_statement<L: Ledger>(
    alloc: Global,
    database: &mut Database,
    texts: &mut Texts,
    number: u32,
    statement: &Statement,
    text: &[u8],
    steps: &mut Steps<L>,
) -> Result<Reply, Memory>
    requires room { ((read_relvars database.old).accepted +ℤ pos 1) <ℤ greatest_whole }
    ensures answered { IsAnswered result number (read_relvars database.old) (read_relvars database.new)
        (of_tree (read_relvars database.old) (read_statement statement.now)) }
    ensures kept { IfOk result (λ reply. texts.new ≡ settled (keeping_of (read_statement statement.now)) (without_gaps text.now) reply.accepted texts.old) }
    ensures cost { steps.new ≤ steps.old + cost_of_tree (read_relvars database.old) (read_statement statement.now) }
{
    begin(statement, text, texts)?;
    let reply = answer_to_tree(alloc, database, number, statement, steps)?;
    settle(statement, reply.accepted, texts);
    Ok(reply)
}

// The answer to a statement that is performed by its tree.
fn answer_by_tree<L: Ledger>(
    alloc: Global,
    database: &mut Database,
    texts: &mut Texts,
    number: u32,
    text: &[u8],
    start: Place,
    steps: &mut Steps<L>,
) -> Result<Reply, Memory>
    requires start { start.line + start.column + length text.now ≤ 2 ^ 32 - 1 }
    requires room { ((read_relvars database.old).accepted +ℤ pos 1) <ℤ greatest_whole }
    ensures answered { IfOk result (λ reply. IsAnswerTo start text.now number (read_relvars database.old) (read_relvars database.new) texts.old texts.new reply) }
    ensures stays { OnErr result (read_relvars database.new ≡ read_relvars database.old) }
    ensures cost { TakesAtMost start text.now (read_relvars database.old) steps.old steps.new }
{
    let parsed = read_text(alloc, text, start)?;
    match parsed {
        Parsed::Tree(statement) => {
            answer_to_statement(alloc, database, texts, number, &statement, text, steps)
        }
        Parsed::Refused(refuse) => refusal(alloc, number, &refuse),
    }
}

/// The answer to a statement of these bytes, which begin at the place, what it makes of the database, and what it leaves of the texts of the
/// declarations that stand. For want of memory the database stays as it is. A statement that brings rows is performed straight from its bytes
/// where that can be; else it is read as a tree.
pub fn answer_to_text<L: Ledger>(
    alloc: Global,
    database: &mut Database,
    texts: &mut Texts,
    number: u32,
    text: &[u8],
    start: Place,
    steps: &mut Steps<L>,
) -> Result<Reply, Memory>
    requires start { start.line + start.column + length text.now ≤ 2 ^ 32 - 1 }
    requires room { ((read_relvars database.old).accepted +ℤ pos 1) <ℤ greatest_whole }
    ensures answered { IfOk result (λ reply. IsAnswerTo start text.now number (read_relvars database.old) (read_relvars database.new) texts.old texts.new reply) }
    ensures stays { OnErr result (read_relvars database.new ≡ read_relvars database.old) }
    ensures count { (read_relvars database.new).accepted ≤ℤ ((read_relvars database.old).accepted +ℤ pos 1) }
    ensures cost { TakesAtMost start text.now (read_relvars database.old) steps.old steps.new }
{
    match bring(alloc, text, database, steps) {
        Some(written) => reply_with(alloc, number, written),
        None => answer_by_tree(alloc, database, texts, number, text, start, steps),
    }
}

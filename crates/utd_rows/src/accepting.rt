// The judgement on tokens without a tree, which the program does not ask for.
ghost use Rattle.std.specs.Prelude.{◌<◌, length};

use point_core::Place;
use std::alloc::Global;
use utd_lexer::tokens;
use utd_parser::accept;
use value_core::Refuse;

fn accepted(alloc: Global, text: &[u8]) -> Result<(), Refuse>
    requires { length text.now < 1000 }
{
    let list = tokens(alloc, text, Place { line: 1, column: 1 })?;
    accept(alloc, &list)
}

/// Whether the text is a statement of fewer than 1,000 bytes.
fn is_statement(alloc: Global, text: &[u8]) -> bool {
    if text.len() >= 1000 {
        return false;
    }
    accepted(alloc, text).is_ok()
}

/// Whether a statement is accepted, and what is none is refused.
pub(crate) fn is_accepting(alloc: Global) -> bool {
    is_statement(alloc, b"PRINT X;") && !is_statement(alloc, b"PRINT 5;")
}

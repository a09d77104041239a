// The script that makes a database again.
ghost use Rattle.std.specs.Prelude.{◌≡◌, Some, None, IfOk, IfErr, OnOk};
ghost use Rattle.tree_core.specs.Relvars.{read_relvars};
ghost use Rattle.dump_core.specs.declared.refuse.DumpRefuse.TheVariants.{TooLong};
ghost use Rattle.dump_core.specs.Texts.{of_kind};
ghost use Rattle.dump_core.specs.Drafts.{with_statements};
ghost use Rattle.dump_core.specs.Dumps.{statements_of, script_of};
ghost use Rattle.dump_core.specs.Inserts.{HaveRelations};

use crate::draft::Draft;
use crate::inserts::put_rows;
use crate::refuse::DumpRefuse;
use crate::texts::{TextKind, Texts};
use std::alloc::Global;
use tree_core::Relvars;

/// Writes the texts of this kind, in order.
fn put_texts(draft: &mut Draft, texts: &Texts, kind: TextKind) -> Result<(), DumpRefuse>
    ensures written { OnOk result (with_statements (of_kind kind texts.now) draft.old ≡ Some draft.new) }
    ensures too_long { IfErr result (λ r. r ≡ TooLong → with_statements (of_kind kind texts.now) draft.old ≡ None) }
{
    for text in texts.list() {
        if text.is_of(kind) {
            draft.put(text.bytes())?;
        }
    }
    Ok(())
}

/// Writes the statements of a database in the order of a script.
fn put_all(draft: &mut Draft, texts: &Texts, relvars: &Relvars) -> Result<(), DumpRefuse>
    ensures relations { OnOk result (HaveRelations (read_relvars relvars.now).relvars) }
    ensures written { OnOk result (
        with_statements (statements_of texts.now (read_relvars relvars.now)) draft.old ≡ Some draft.new) }
    ensures too_long { IfErr result (λ r. r ≡ TooLong →
        with_statements (statements_of texts.now (read_relvars relvars.now)) draft.old ≡ None) }
{
    put_texts(draft, texts, TextKind::Early)?;
    put_rows(draft, relvars)?;
    put_texts(draft, texts, TextKind::View)?;
    put_texts(draft, texts, TextKind::Rule)
}

/// The script that makes a database with these relvars again, of which the texts are those of its declarations: types and base
/// relvars, then rows, 100 a statement, then views and then database constraints. Rows that may refer to each other stand in one
/// statement. It is refused where a statement or the whole would be longer than one may be, and stops as soon as that shows.
pub fn dump(alloc: Global, texts: &Texts, relvars: &Relvars) -> Result<Vec<u8>, DumpRefuse>
    ensures relations { IfOk result (λ v. HaveRelations (read_relvars relvars.now).relvars) }
    ensures dumped { IfOk result (λ v. script_of texts.now (read_relvars relvars.now) ≡ Some v.items) }
    ensures too_long { IfErr result (λ r. r ≡ TooLong → script_of texts.now (read_relvars relvars.now) ≡ None) }
{
    let mut draft = Draft::new(alloc);
    put_all(&mut draft, texts, relvars)?;
    let script = draft.finish()?;
    Ok(script)
}

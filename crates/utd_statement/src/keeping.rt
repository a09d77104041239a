// What a statement does to the texts of the declarations that stand.
ghost use Rattle.std.specs.Prelude.{◌≡◌, ℕ, List, true, false, OnOk};
ghost use Rattle.utd_lexer.specs.Gaps.{without_gaps};
ghost use Rattle.utd_syntax.specs.Read.{read_name, read_statement, read_var_form};
ghost use Rattle.dump_core.specs.Texts.{kept, SourceText};
ghost use Rattle.utd_statement.specs.Keeping as rules;
ghost use Rattle.utd_statement.specs.Keeping.{begun, keeping_of, settled};

use dump_core::{TextKind, Texts};
use point_core::Memory;
use utd_lexer::without_gaps;
use utd_syntax::{Statement, VarForm, Word};

// The kind of the text that declares a relvar or a view.
fn kind_of(form: &VarForm) -> TextKind
    ensures { result ≡ rules.kind_of (read_var_form form.now) }
{
    match form {
        VarForm::Relation(_, _, _) => TextKind::Early,
        VarForm::Virtual(_, _) => TextKind::View,
        VarForm::Kept(_, _) => TextKind::View,
    }
}

// Keeps the text of a statement under a name, from its first token on.
fn keep(texts: &mut Texts, kind: TextKind, name: &Word, text: &[u8]) -> Result<(), Memory>
    ensures { OnOk result (texts.new ≡ kept kind (read_name name.now).bytes (without_gaps text.now) texts.old) }
{
    texts.keep(kind, name.bytes.list.as_slice(), without_gaps(text))
}

/// Keeps the text of a declaration before it is performed. No other statement has one that is kept.
pub(crate) fn begin(statement: &Statement, text: &[u8], texts: &mut Texts) -> Result<(), Memory>
    ensures { OnOk result (texts.new ≡ begun (keeping_of (read_statement statement.now)) (without_gaps text.now) texts.old) }
{
    match statement {
        Statement::Ordinal(_, name, _) => keep(texts, TextKind::Early, name, text),
        Statement::Var(_, name, form) => keep(texts, kind_of(form), name, text),
        Statement::History(history) => keep(texts, TextKind::Early, &history.view, text),
        Statement::DeclareRule(_, name, _) => keep(texts, TextKind::Rule, name, text),
        Statement::Drop(_, _) => Ok(()),
        Statement::DropRule(_, _, _) => Ok(()),
        Statement::DeclareLog(_, _, _, _) => Ok(()),
        Statement::Nothing => Ok(()),
        Statement::Print(_, _) => Ok(()),
        Statement::Ask(_, _) => Ok(()),
        Statement::Assign(_) => Ok(()),
    }
}

// Forgets the text of what an accepted statement drops.
fn forget(statement: &Statement, texts: &mut Texts)
    ensures { (bytes : List ℕ) (before : List SourceText) → texts.old ≡ begun (keeping_of (read_statement statement.now)) bytes before
        → texts.new ≡ settled (keeping_of (read_statement statement.now)) bytes true before }
{
    match statement {
        Statement::Drop(_, name) => texts.forget(name.bytes.list.as_slice()),
        Statement::DropRule(_, _, name) => texts.forget(name.bytes.list.as_slice()),
        Statement::Ordinal(_, _, _) => {}
        Statement::Var(_, _, _) => {}
        Statement::History(_) => {}
        Statement::DeclareRule(_, _, _) => {}
        Statement::DeclareLog(_, _, _, _) => {}
        Statement::Nothing => {}
        Statement::Print(_, _) => {}
        Statement::Ask(_, _) => {}
        Statement::Assign(_) => {}
    }
}

// Takes the text of a refused declaration back.
fn take_back(statement: &Statement, texts: &mut Texts)
    ensures { (bytes : List ℕ) (before : List SourceText) → texts.old ≡ begun (keeping_of (read_statement statement.now)) bytes before
        → texts.new ≡ settled (keeping_of (read_statement statement.now)) bytes false before }
{
    match statement {
        Statement::Ordinal(_, _, _) => texts.drop_last(),
        Statement::Var(_, _, _) => texts.drop_last(),
        Statement::History(_) => texts.drop_last(),
        Statement::DeclareRule(_, _, _) => texts.drop_last(),
        Statement::Drop(_, _) => {}
        Statement::DropRule(_, _, _) => {}
        Statement::DeclareLog(_, _, _, _) => {}
        Statement::Nothing => {}
        Statement::Print(_, _) => {}
        Statement::Ask(_, _) => {}
        Statement::Assign(_) => {}
    }
}

/// Leaves the texts as they are after the statement: a refused declaration's goes again, and so does that of what is dropped.
pub(crate) fn settle(statement: &Statement, accepted: bool, texts: &mut Texts)
    ensures { (bytes : List ℕ) (before : List SourceText) → texts.old ≡ begun (keeping_of (read_statement statement.now)) bytes before
        → texts.new ≡ settled (keeping_of (read_statement statement.now)) bytes accepted before }
{
    if accepted {
        forget(statement, texts);
    } else {
        take_back(statement, texts);
    }
}

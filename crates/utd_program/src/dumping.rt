// Scripts whose dump is asked for: the answers go nowhere, and the dump of the database that is left is written.
ghost use Rattle.std.specs.Prelude.{◌≡◌, ◌⊎◌, ◌≤◌, ℕ, false, List, Some, IfSome};
ghost use Rattle.utd_io.specs.Io.{Rose, Gains, GainsPrefix};
ghost use Rattle.meaning_core.specs.Logs as rules;
ghost use Rattle.utd_gen.specs.Script.{most_tuples};
ghost use Rattle.utd_words.specs.Words.{IsScript};
ghost use Rattle.utd_session.specs.Databases.{state_of};
ghost use Rattle.utd_session.specs.Status.{number_of};
ghost use Rattle.utd_session.specs.Costs.{IsPaid};
ghost use Rattle.utd_session.specs.Generated.{IsGeneratedPaid};
ghost use Rattle.utd_session.specs.Dumped.{EndsDump, IsDumped, IsGeneratedDump};
ghost use Rattle.utd_session.specs.Ends.{IsAtEnd};
ghost use Rattle.dump_laws.specs.Back.{IsBack, IsSound};

use crate::outcome::without_memory;
use assign_core::Database;
use dump_core::{DumpRefuse, Texts, dump};
use point_core::{Memory, Steps};
use relvar_logs::has_log;
use std::alloc::Global;
use std::sync::ledger::Ledger;
use utd_gen::script_of;
use utd_io::{PureSink, PureSource, Sink, Source, write_all};
use utd_session::{Ran, Status, run_script};
use utd_words::Script;

// Writes the bytes of a dump, and gives the status after that: the one before, unless the write fails.
fn status_after_write<K: Sink>(script: &[u8], status: Status, out: &mut K) -> Status
    ensures { ((result ≡ status) × Gains (K.written out.old) script.now (K.written out.new))
        ⊎ ((result ≡ Status.WriteFailed) × Rose (K.faults out.old) (K.faults out.new)
        × GainsPrefix (K.written out.old) script.now (K.written out.new)) }
{
    match write_all(out, script) {
        Ok(()) => status,
        Err(_) => Status::WriteFailed,
    }
}

// The status where there is no dump.
fn status_without_dump(refuse: DumpRefuse) -> Status
    ensures long { refuse ≡ DumpRefuse.TooLong → result ≡ Status.CannotDump }
    ensures memory { refuse ≡ DumpRefuse.Memory → result ≡ Status.NoMemory }
{
    match refuse {
        DumpRefuse::TooLong => Status::CannotDump,
        DumpRefuse::Memory => Status::NoMemory,
    }
}

// Writes the dump of a database in which no log is declared, after a script that ended with this status, and gives the status after that.
fn written_dump<K: Sink>(
    alloc: Global,
    status: Status,
    texts: &Texts,
    database: &Database,
    out: &mut K,
) -> Status
    requires { rules.has_log (state_of database.now).relvars ≡ false }
    ensures ends { EndsDump (Some texts.now) (state_of database.now) status
        (K.faults out.old) (K.faults out.new) (K.written out.old) (K.written out.new) result }
    ensures sound { IsAtEnd (number_of result) → IsSound (state_of database.now) }
{
    match dump(alloc, texts, database.relvars()) {
        Ok(script) => status_after_write(script.as_slice(), status, out),
        Err(refuse) => status_without_dump(refuse),
    }
}

// The same of any database: where a log is declared, which has no text, there is no dump.
fn dump_or_refusal<K: Sink>(
    alloc: Global,
    status: Status,
    texts: &Texts,
    database: &Database,
    out: &mut K,
) -> Status
    ensures ends { EndsDump (Some texts.now) (state_of database.now) status
        (K.faults out.old) (K.faults out.new) (K.written out.old) (K.written out.new) result }
    ensures sound { IsAtEnd (number_of result) → IsSound (state_of database.now) }
{
    if has_log(database.relvars()) {
        Status::CannotDump
    } else {
        written_dump(alloc, status, texts, database, out)
    }
}

// The status after the dump, where there are texts: without them the script was not read to its end, and nothing is written.
fn status_after_dump<K: Sink>(
    alloc: Global,
    status: Status,
    texts: Option<Texts>,
    database: &Database,
    out: &mut K,
) -> Status
    ensures ends { EndsDump texts (state_of database.now) status
        (K.faults out.old) (K.faults out.new) (K.written out.old) (K.written out.new) result }
    ensures sound { IfSome texts (λ t. IsAtEnd (number_of result) → IsSound (state_of database.now)) }
{
    match texts {
        Some(texts) => dump_or_refusal(alloc, status, &texts, database, out),
        None => status,
    }
}

// Performs the script of a source, and writes the dump of the database that it leaves.
fn run_dumped<S: Source, K: Sink, L: Ledger>(
    alloc: Global,
    input: &mut S,
    out: &mut K,
    steps: &mut Steps<L>,
) -> Ran
    ensures run { IfSome (S.left input.old) (λ bytes. IsDumped bytes (S.left input.new)
        (K.written out.old) (K.written out.new) (Some result.database) (number_of result.status)) }
    ensures again { IfSome (S.left input.old) (λ bytes. IsAtEnd (number_of result.status)
        → IsBack (K.written out.old) (K.written out.new) (Some result.database)) }
    ensures cost { IfSome (S.left input.old) (λ bytes. IsPaid bytes (S.left input.new) steps.old steps.new) }
    ensures usage { number_of result.status ≡ number_of Status.BadUsage → ⊥ }
    ensures read { number_of result.status ≡ number_of Status.ReadFailed → Rose (S.faults input.old) (S.faults input.new) }
    ensures write { number_of result.status ≡ number_of Status.WriteFailed → Rose (K.faults out.old) (K.faults out.new) }
{
    let mut nowhere = PureSink::new();
    let ran = run_script(alloc, input, &mut nowhere, steps);
    let status = status_after_dump(alloc, ran.status, ran.texts, &ran.database, out);
    Ran {
        status,
        database: ran.database,
        texts: None,
    }
}

// Performs the generated script of a number, and writes the dump of the database that it leaves.
fn dump_generated<K: Sink, L: Ledger>(
    alloc: Global,
    number: u16,
    out: &mut K,
    steps: &mut Steps<L>,
) -> Ran
    requires { number ≤ most_tuples }
    ensures run { IsGeneratedDump number (K.written out.old) (K.written out.new) (Some result.database) (number_of result.status) }
    ensures again { IsAtEnd (number_of result.status) → IsBack (K.written out.old) (K.written out.new) (Some result.database) }
    ensures cost { IsGeneratedPaid number steps.old steps.new }
    ensures usage { number_of result.status ≡ number_of Status.BadUsage → ⊥ }
    ensures read { number_of result.status ≡ number_of Status.ReadFailed → ⊥ }
    ensures write { number_of result.status ≡ number_of Status.WriteFailed → Rose (K.faults out.old) (K.faults out.new) }
{
    match script_of(alloc, u32::from(number)) {
        Ok(script) => {
            let mut source = PureSource::new(script);
            run_dumped(alloc, &mut source, out, steps)
        }
        Err(Memory) => without_memory(alloc),
    }
}

// Performs a script, and writes the dump of the database that it leaves.
pub(crate) fn run_dump<S: Source, K: Sink, L: Ledger>(
    alloc: Global,
    script: Script,
    input: &mut S,
    out: &mut K,
    steps: &mut Steps<L>,
) -> Ran
    requires { IsScript script }
    ensures unread { (script ≡ Script.OfInput → ⊥) → input.new ≡ input.old }
    ensures dumped { script ≡ Script.OfInput → IfSome (S.left input.old) (λ bytes. IsDumped bytes (S.left input.new)
        (K.written out.old) (K.written out.new) (Some result.database) (number_of result.status)) }
    ensures generated { (number : ℕ) → script ≡ Script.Generated number
        → IsGeneratedDump number (K.written out.old) (K.written out.new) (Some result.database) (number_of result.status) }
    ensures again { script ≡ Script.OfInput → IfSome (S.left input.old) (λ bytes. IsAtEnd (number_of result.status)
        → IsBack (K.written out.old) (K.written out.new) (Some result.database)) }
    ensures again_generated { (number : ℕ) → script ≡ Script.Generated number → IsAtEnd (number_of result.status)
        → IsBack (K.written out.old) (K.written out.new) (Some result.database) }
    ensures cost { script ≡ Script.OfInput → IfSome (S.left input.old) (λ bytes. IsPaid bytes (S.left input.new) steps.old steps.new) }
    ensures cost_generated { (number : ℕ) → script ≡ Script.Generated number → IsGeneratedPaid number steps.old steps.new }
    ensures usage { number_of result.status ≡ number_of Status.BadUsage → ⊥ }
    ensures read { number_of result.status ≡ number_of Status.ReadFailed → Rose (S.faults input.old) (S.faults input.new) }
    ensures write { number_of result.status ≡ number_of Status.WriteFailed → Rose (K.faults out.old) (K.faults out.new) }
{
    match script {
        Script::OfInput => run_dumped(alloc, input, out, steps),
        Script::Generated(number) => dump_generated(alloc, number, out, steps),
    }
}

// The program: makes the standard objects, passes the words, and ends with the status.
ghost use Rattle.std.specs.Prelude.{◌≡◌, ◌⊎◌, ℕ, Some, None, IfSome, map, string_bytes};
ghost use Rattle.std.specs.IoError.{error_kind};
ghost use Rattle.std.specs.Process.{exit_status};
ghost use Rattle.std.specs.declared.io.ErrorKind.TheVariants.{OutOfMemory};
ghost use Rattle.utd_io.specs.Io.{Rose};
ghost use Rattle.utd_words.specs.Words.{script_asked, asked};
ghost use Rattle.utd_session.specs.Status.{number_of, IsStatus};
ghost use Rattle.utd_session.specs.Run.{IsRun, IsTold};
ghost use Rattle.utd_session.specs.Generated.{IsGeneratedRun};
ghost use Rattle.utd_session.specs.Dumped.{IsDumped, IsGeneratedDump};

use crate::outcome::Outcome;
use crate::top::run;
use point_core::Steps;
use std::alloc::Global;
use std::marker::Brand;
use std::process::ExitCode;
use std::sync::ledger::{Blank, Ledger};
use std::{env, io};
use utd_io::{Sink, Source, StdErrSink, StdSink, StdSource, write_all};
use utd_session::Status;
use utd_words::{Asked, Script};

// A run over these streams with a counter of steps that nobody reads. What `run` says of its status is handed on.
fn outcome<S: Source, K: Sink, E: Sink, L: Ledger>(
    rt: &HostRuntime,
    words: &[String],
    input: &mut S,
    out: &mut K,
    err: &mut E,
    blank: Blank,
) -> Outcome
    requires name { blank.name ≡ L.name }
    requires parts { blank.parts ≡ L.parts }
    requires one { blank.parts ≡ 1 }
    ensures known { IsStatus result.status }
    ensures refused { result.status ≡ number_of Status.BadUsage → asked (map string_bytes words.now) ≡ None }
    ensures refuses { asked (map string_bytes words.now) ≡ None
        → (result.status ≡ number_of Status.BadUsage) ⊎ (result.status ≡ number_of Status.NoMemory) }
    ensures unread { (script_asked (asked (map string_bytes words.now)) ≡ Some Script.OfInput → ⊥) → input.new ≡ input.old }
    ensures machine { asked (map string_bytes words.now) ≡ Some (Asked.Answers Script.OfInput) → IfSome (S.left input.old) (λ bytes.
        IsRun bytes (S.left input.new) (K.written out.old) (K.written out.new) result.database result.status) }
    ensures generated { (number : ℕ) → asked (map string_bytes words.now) ≡ Some (Asked.Answers (Script.Generated number))
        → IsGeneratedRun number (K.written out.old) (K.written out.new) result.database result.status }
    ensures dumped { asked (map string_bytes words.now) ≡ Some (Asked.Dump Script.OfInput) → IfSome (S.left input.old) (λ bytes.
        IsDumped bytes (S.left input.new) (K.written out.old) (K.written out.new) result.database result.status) }
    ensures generated_dump { (number : ℕ) → asked (map string_bytes words.now) ≡ Some (Asked.Dump (Script.Generated number))
        → IsGeneratedDump number (K.written out.old) (K.written out.new) result.database result.status }
    ensures cannot_dump { result.status ≡ number_of Status.CannotDump
        → (script : Script) × (asked (map string_bytes words.now) ≡ Some (Asked.Dump script)) }
    ensures read { result.status ≡ number_of Status.ReadFailed → Rose (S.faults input.old) (S.faults input.new) }
    ensures write { result.status ≡ number_of Status.WriteFailed → Rose (K.faults out.old) (K.faults out.new) }
    ensures line { (status : Status) → result.status ≡ number_of status
        → IsTold (E.faults err.old) (E.faults err.new) (E.written err.old) (E.written err.new) status }
{
    let mut steps = Steps::<L>::new(blank, rt);
    run(rt.alloc(), words, input, out, err, &mut steps)
}

// The words without the program's name.
fn words_after_name(alloc: Global, args: env::Args) -> io::Result<Vec<String>> {
    let mut words = Vec::new(alloc);
    for word in args.skip(1) {
        words.push(word)?;
    }
    Ok(words)
}

// Why the words can't be had: memory is wanting, or one of them is not UTF-8.
fn status_of(error: &io::Error) -> Status
    ensures answer { (result ≡ Status.NoMemory) ⊎ (result ≡ Status.BadUsage) }
    ensures memory { result ≡ Status.NoMemory → error_kind error.now ≡ OutOfMemory }
    ensures usage { result ≡ Status.BadUsage → error_kind error.now ≡ OutOfMemory → ⊥ }
{
    if error.kind() == io::ErrorKind::OutOfMemory {
        Status::NoMemory
    } else {
        Status::BadUsage
    }
}

// The status where the words can't be had, with its line written. It takes no memory.
fn status_without_words(error: &io::Error, err: &mut StdErrSink) -> u8
    ensures answer { (result ≡ number_of Status.NoMemory) ⊎ (result ≡ number_of Status.BadUsage) }
    ensures memory { result ≡ number_of Status.NoMemory → error_kind error.now ≡ OutOfMemory }
    ensures usage { result ≡ number_of Status.BadUsage → error_kind error.now ≡ OutOfMemory → ⊥ }
{
    let status = status_of(error);
    let _ = write_all(err, status.line());
    status.number()
}

/// Reads the script from standard input, writes the answers or the dump to standard output and the line of the status to standard error,
/// and ends with the status; the words of the command line but the first are its words.
pub fn run_utd(rt: HostRuntime) -> ExitCode
    ensures known { IsStatus (exit_status result) }
{
    let mut err = StdErrSink::new(rt.stderr());
    let words = match env::args(&rt).and_then(|args| words_after_name(rt.alloc(), args)) {
        Ok(words) => words,
        Err(error) => return ExitCode::from(status_without_words(&error, &mut err)),
    };
    let mut input = StdSource::new(rt.stdin());
    let mut out = StdSink::new(rt.stdout());
    let outcome = outcome::<StdSource, StdSink, StdErrSink, Brand>(
        &rt,
        &words,
        &mut input,
        &mut out,
        &mut err,
        Blank::new(1),
    );
    ExitCode::from(outcome.status)
}

// Runs of a script over streams of which each call fails in turn. Each is made with lines of the status that are written, and with one that fails.
use crate::failing::{Ending, Failing, endings};
use crate::runs::{Given, Wanted, comes_out, status_where_stuck};
use crate::script::Script;
use crate::streams::Streams;
use std::alloc::AllocError;
use std::{fs, io};

const KINDS: [Failing; 3] = [Failing::Read, Failing::ByteWrite, Failing::AnswerWrite];

/// The status of a run whose output cannot be written.
const WRITE_FAILED: u8 = 4;

/// Whether the run ends as is told, whether its line can be written or not.
fn ends_so(
    rt: &HostRuntime,
    script: &Script,
    streams: Streams,
    ending: Ending,
) -> Result<bool, AllocError> {
    let given = Given {
        words: &[],
        script: script.text.as_bytes(),
    };
    let wanted = Wanted {
        output: script.front(ending.written),
        line: ending.line(),
        status: ending.status,
    };
    let with_line = comes_out(rt, given, &streams, wanted)?;
    let streams = Streams {
        failing_line: 1,
        ..streams
    };
    let wanted = Wanted {
        line: b"",
        ..wanted
    };
    let without_line = comes_out(rt, given, &streams, wanted)?;
    Ok(with_line && without_line)
}

/// How many runs of the script come out right: in one each call of the kind fails, and in the last none does.
fn right_calls(rt: &HostRuntime, file: &str, script: &Script, kind: Failing) -> io::Result<u64> {
    let mut right: u64 = 0;
    let mut call: u64 = 0;
    for ending in &endings(rt.alloc(), script, kind)? {
        call = call.saturating_add(1);
        if ends_so(rt, script, kind.streams(call), *ending)? {
            right = right.saturating_add(1);
        } else {
            let name = kind.name();
            println!(rt; "{file}: differs where {name} {call} fails")?;
        }
    }
    Ok(right)
}

/// Whether the script ends as it should on an output that takes nothing.
fn ends_stuck(rt: &HostRuntime, script: &Script) -> Result<bool, AllocError> {
    let given = Given {
        words: &[],
        script: script.text.as_bytes(),
    };
    Ok(status_where_stuck(rt, given, &Streams::of(100))? == WRITE_FAILED)
}

/// How many runs of the script of a file come out right.
pub(crate) fn right_faults(rt: &HostRuntime, file: &str, status: u8) -> io::Result<u64> {
    let text = fs::read_to_string(rt, file)?;
    let script = Script::of(rt.alloc(), text.as_str(), status)?;
    let mut right: u64 = 0;
    for kind in KINDS {
        right = right.saturating_add(right_calls(rt, file, &script, kind)?);
    }
    if ends_stuck(rt, &script)? {
        right = right.saturating_add(1);
    } else {
        println!(rt; "{file}: differs where the output takes nothing")?;
    }
    Ok(right)
}

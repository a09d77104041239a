// Runs over streams in memory, and over an output that takes nothing.
ghost use Rattle.std.specs.Prelude.{◌≡◌};

use crate::streams::Streams;
use crate::stuck::StuckSink;
use point_core::Steps;
use std::alloc::AllocError;
use std::marker::Brand;
use std::sync::ledger::{Blank, Ledger};
use utd_io::{MemorySink, MemorySource, Sink};
use utd_program::run;

/// What a run is given, but for its streams.
#[derive(Clone, Copy)]
pub(crate) struct Given<'a> {
    pub(crate) words: &'a [String],
    pub(crate) script: &'a [u8],
}

/// What has to come of it: the output, the line of the status, and the status.
#[derive(Clone, Copy)]
pub(crate) struct Wanted<'a> {
    pub(crate) output: &'a [u8],
    pub(crate) line: &'a [u8],
    pub(crate) status: u8,
}

/// Runs with a counter of steps that nobody reads; gives the status.
fn play<K: Sink, L: Ledger>(
    rt: &HostRuntime,
    words: &[String],
    input: &mut MemorySource,
    out: &mut K,
    err: &mut MemorySink,
    blank: Blank,
) -> u8
    requires name { blank.name ≡ L.name }
    requires parts { blank.parts ≡ L.parts }
    requires one { blank.parts ≡ 1 }
{
    let mut steps = Steps::<L>::new(blank, rt);
    run(rt.alloc(), words, input, out, err, &mut steps).status
}

/// Whether a run over these streams comes out as is wanted.
pub(crate) fn comes_out(
    rt: &HostRuntime,
    given: Given<'_>,
    streams: &Streams,
    wanted: Wanted<'_>,
) -> Result<bool, AllocError> {
    let alloc = rt.alloc();
    let mut input = streams.source(alloc, given.script)?;
    let mut out = streams.sink(alloc)?;
    let mut err = streams.line_sink(alloc)?;
    let status = play::<MemorySink, Brand>(
        rt,
        given.words,
        &mut input,
        &mut out,
        &mut err,
        Blank::new(1),
    );
    Ok(status == wanted.status && *out.bytes() == *wanted.output && *err.bytes() == *wanted.line)
}

/// The status of a run whose output takes nothing.
pub(crate) fn status_where_stuck(
    rt: &HostRuntime,
    given: Given<'_>,
    streams: &Streams,
) -> Result<u8, AllocError> {
    let alloc = rt.alloc();
    let mut input = streams.source(alloc, given.script)?;
    let mut out = StuckSink::new();
    let mut err = streams.line_sink(alloc)?;
    let status = play::<StuckSink, Brand>(
        rt,
        given.words,
        &mut input,
        &mut out,
        &mut err,
        Blank::new(1),
    );
    Ok(status)
}

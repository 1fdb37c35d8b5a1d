//! One run of a script, from a source to a sink in memory.
use crate::asserting::Made;
use bson_lite::{Bytes, List};
use memory_links::{MemSink, MemSource};
use script_run::{Run, run_script};
use std::alloc::Global;
use std::process::Abort;

/// A source of these bytes, which may fail at one call.
fn source_of(rt: &impl Abort, alloc: Global, bytes: &[u8], fails: Option<u64>) -> MemSource {
    let mut listed = List::new(alloc);
    if let Some(call) = fails {
        listed.push(call).made(rt);
    }
    MemSource::new(Bytes::from_slice(alloc, bytes).made(rt), listed)
}

/// The status of a script, and what was written into so much room.
pub(crate) fn ran(
    rt: &impl Abort,
    alloc: Global,
    script: &str,
    fails: Option<u64>,
    room: usize,
) -> (u8, Bytes) {
    let mut source = source_of(rt, alloc, script.as_bytes(), fails);
    let mut sink = MemSink::new(alloc, room, List::new(alloc)).made(rt);
    let status = run_script(alloc, &mut source, &mut sink, &mut Run::new());
    (status, Bytes::from_slice(alloc, sink.contents()).made(rt))
}

/// What is left of the run of a script whose report has so much room.
pub(crate) fn run_of(rt: &impl Abort, alloc: Global, script: &str, room: usize) -> Run {
    let mut source = source_of(rt, alloc, script.as_bytes(), None);
    let mut sink = MemSink::new(alloc, room, List::new(alloc)).made(rt);
    let mut run = Run::new();
    let _status = run_script(alloc, &mut source, &mut sink, &mut run);
    run
}

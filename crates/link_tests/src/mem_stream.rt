//! Tests of a source and a sink in memory.
use crate::asserting::{Made, alike, holds};
use bson_lite::{Bytes, List};
use driver_link::{Failed, Sink, Source};
use memory_links::{MemSink, MemSource};

#[test]
fn reads_fail_at_their_calls(rt: HostRuntime) {
    let alloc = rt.alloc();
    let mut fails = List::new(alloc);
    fails.push(1).made(&rt);
    let mut source = MemSource::new(Bytes::from_slice(alloc, b"abc").made(&rt), fails);
    let mut front = [0; 2];
    let mut back = [0; 2];
    let first = source.read(&mut front);
    let others = [
        source.read(&mut back),
        source.read(&mut back),
        source.read(&mut [0; 2]),
    ];
    drop(source);
    alike(
        &rt,
        (first, front),
        (Ok(2), *b"ab"),
        "the first read and its bytes",
    );
    alike(
        &rt,
        others,
        [Err(Failed), Ok(1), Ok(0)],
        "the reads behind it",
    );
    alike(&rt, back[0], b'c', "the last byte");
}

#[test]
fn writes_fail_at_their_calls_and_when_full(rt: HostRuntime) {
    let alloc = rt.alloc();
    let mut fails = List::new(alloc);
    fails.push(0).made(&rt);
    let mut sink = MemSink::new(alloc, 3, fails).made(&rt);
    let written = [
        sink.write(b"ab"),
        sink.write(b"ab"),
        sink.write(b"cd"),
        sink.write(b"d"),
    ];
    let are_kept = sink.contents() == b"abc".as_slice();
    drop(sink);
    alike(
        &rt,
        written,
        [Err(Failed), Ok(2), Ok(1), Err(Failed)],
        "how much each write took",
    );
    holds(&rt, are_kept, "what the sink contains");
}

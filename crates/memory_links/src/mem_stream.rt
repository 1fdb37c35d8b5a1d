//! Input and output in memory that fail at chosen calls, for runs that are to repeat exactly.
ghost use Rattle.std.specs.Prelude.{◌≡◌, ◌≤◌, ◌<◌, ◌+◌, ◌-◌, ◌^◌, ◌++◌, [], min, drop, take, length, is_err, IfOk, OnErr, Some};
ghost use Rattle.driver_link.specs.Counting.{is_listed};
ghost use Rattle.driver_link.specs.Faults.{FailsByCount};
ghost use Rattle.memory_links.specs.MemStreams.{SourceState, SinkState, write_fails};
ghost use Rattle.driver_link.specs.Streams.{Consumes, IsAtEnd, Appends};

use bson_lite::{Bytes, List};
use driver_link::{Failed, Sink, Source};
use std::alloc::{AllocError, Global};
use std::io::{Cursor, Read};
use std::marker::Model;

/// Input from memory.
pub struct MemSource {
    bytes: Cursor<Vec<u8>>,
    fails: List<u64>,
    calls: u64,
    faults: u64,
}

impl Drop for MemSource {
    fn drop(self) {
        let MemSource {
            bytes,
            fails,
            calls: _,
            faults: _,
        } = self;
        drop(bytes);
        drop(fails);
    }
}

impl Model for MemSource {
    ghost use Rattle.std.specs.Prelude.{drop};
    ghost use Rattle.std.specs.Io.Cursor.{cursor_position, cursor_inner};
    ghost use Rattle.memory_links.specs.MemStreams.{SourceState};

    ghost Value = { SourceState };

    ghost view = { λ source. record {
      left = drop (cursor_position source.bytes) (cursor_inner source.bytes).items;
      fails = source.fails;
      calls = source.calls;
      faults = source.faults;
    } };
}

impl MemSource {
    /// A source of these bytes that fails at the calls listed, counted from 0.
    pub fn new(bytes: Bytes, fails: List<u64>) -> MemSource
        ensures { result ≡ record { left = bytes; fails = fails; calls = 0; faults = 0 } }
    {
        MemSource {
            bytes: Cursor::new(bytes.into_vec()),
            fails,
            calls: 0,
            faults: 0,
        }
    }
}

impl Source for MemSource {
    ghost left = { λ source. Some source.left };

    ghost faults = { λ source. source.faults };

    fn read(&mut self, into: &mut [u8]) -> Result<usize, Failed>
        ensures within { IfOk result (λ count. count ≤ length into.old) }
        ensures taken { IfOk result
            (λ count. Consumes (Some self.old.left) (Some self.new.left) (take count into.new)) }
        ensures end { IfOk result (λ count. count ≡ 0 → 0 < length into.old → IsAtEnd (Some self.old.left)) }
        ensures err { OnErr result (Some self.new.left ≡ Some self.old.left) }
        ensures cause { FailsByCount self.old.faults self.new.faults result }
        ensures listed { is_err result ≡ is_listed self.old.fails self.old.calls }
        ensures calls { self.new.calls ≡ min (self.old.calls + 1) (2 ^ 64 - 1) }
        ensures fails { self.new.fails ≡ self.old.fails }
    {
        let call = self.calls;
        self.calls = call.saturating_add(1);
        if self.fails.as_slice().contains(&call) {
            self.faults = self.faults.saturating_add(1);
            return Err(Failed);
        }
        match self.bytes.read(into) {
            Ok(count) => Ok(count),
            Err(_) => unreachable!(),
        }
    }
}

/// Output into memory that was reserved.
pub struct MemSink {
    bytes: Vec<u8>,
    room: usize,
    fails: List<u64>,
    calls: u64,
    faults: u64,
}

impl Drop for MemSink {
    fn drop(self) {
        let MemSink {
            bytes,
            room: _,
            fails,
            calls: _,
            faults: _,
        } = self;
        drop(bytes);
        drop(fails);
    }
}

impl Model for MemSink {
    ghost use Rattle.std.specs.Prelude.{◌≤◌, length, vec_capacity};
    ghost use Rattle.memory_links.specs.MemStreams.{SinkState};

    ghost Value = { SinkState };

    ghost view = { λ sink. record {
      contents = sink.bytes.items;
      room = sink.room;
      fails = sink.fails;
      calls = sink.calls;
      faults =
          sink.faults;
    } };

    ghost invariant = { λ sink. (length sink.bytes.items ≤ sink.room) ×
        (sink.room ≤ vec_capacity sink.bytes) };
}

impl MemSink {
    /// A sink with so much room that fails at the calls listed, counted from 0, and once it is full.
    pub fn new(alloc: Global, room: usize, fails: List<u64>) -> Result<MemSink, AllocError>
        ensures { IfOk result
            (λ sink. sink ≡ record { contents = []; room = room; fails = fails; calls = 0; faults = 0 }) }
    {
        Ok(MemSink {
            bytes: Vec::with_capacity(alloc, room)?,
            room,
            fails,
            calls: 0,
            faults: 0,
        })
    }

    /// The bytes that were written.
    pub fn contents(&self) -> &[u8]
        ensures { result.now ≡ self.now.contents }
    {
        self.bytes.as_slice()
    }
}

impl Sink for MemSink {
    ghost contents = { λ sink. Some sink.contents };

    ghost faults = { λ sink. sink.faults };

    fn write(&mut self, bytes: &[u8]) -> Result<usize, Failed>
        ensures within { IfOk result (λ count. count ≤ length bytes.now) }
        ensures some { IfOk result (λ count. 0 < length bytes.now → 0 < count) }
        ensures taken { IfOk result
            (λ count. Appends (Some self.old.contents) (Some self.new.contents) (take count bytes.now)) }
        ensures err { OnErr result (Some self.new.contents ≡ Some self.old.contents) }
        ensures cause { FailsByCount self.old.faults self.new.faults result }
        ensures listed { is_err result ≡ write_fails self.old }
        ensures fits { IfOk result
            (λ count. count ≡ min (length bytes.now) (self.old.room - length self.old.contents)) }
        ensures calls { self.new.calls ≡ min (self.old.calls + 1) (2 ^ 64 - 1) }
        ensures fails { self.new.fails ≡ self.old.fails }
        ensures room { self.new.room ≡ self.old.room }
    {
        let call = self.calls;
        self.calls = call.saturating_add(1);
        if self.fails.as_slice().contains(&call) || self.bytes.len() == self.room {
            self.faults = self.faults.saturating_add(1);
            return Err(Failed);
        }
        let count = bytes.len().min(self.room - self.bytes.len());
        match self.bytes.extend_from_slice(&bytes[..count]) {
            Ok(()) => Ok(count),
            Err(_) => unreachable!(),
        }
    }
}

//! A reader and a writer, as standard input and output are, as a source and a sink that tell no bytes.
#![tactic(auto)]

ghost use Rattle.std.specs.Prelude.{◌≡◌, ◌+◌, ◌-◌, ◌^◌, ◌≤◌, ◌<◌, length, min, IfOk};
ghost use Rattle.std.specs.Io.KnownBytes.{ReadConsumes, WriteAppends};
ghost use Rattle.driver_link.specs.Faults.{FailsByCount};

use driver_link::{Failed, Sink, Source};
use std::io::{Read, Write};

/// A reader, and how many of its reads failed. The count stands still at the greatest u64.
#[derive(Drop)]
pub struct Reading<R> {
    pub inner: R,
    pub faults: u64,
}

impl<R> Reading<R> {
    /// This reader, none of whose reads failed yet.
    pub fn new(inner: R) -> Reading<R>
        ensures { result ≡ record { inner = inner; faults = 0 } }
    {
        Reading { inner, faults: 0 }
    }
}

impl<R: Read> Source for Reading<R> {
    ghost use Rattle.std.specs.Prelude.{None};

    ghost left = { λ reading. None };

    ghost faults = { λ reading. reading.faults };

    fn read(&mut self, into: &mut [u8]) -> Result<usize, Failed>
        ensures within { IfOk result (λ count. count ≤ length into.old) }
        ensures cause { FailsByCount self.old.faults self.new.faults result }
        ensures reads { ReadConsumes (R.remaining self.old.inner) (R.remaining self.new.inner) result into.new }
    {
        match self.inner.read(into) {
            Ok(count) => Ok(count),
            Err(_) => {
                self.faults = self.faults.saturating_add(1);
                Err(Failed)
            }
        }
    }
}

/// A writer, and how many of its writes failed. The count stands still at the greatest u64.
#[derive(Drop)]
pub struct Writing<W> {
    pub inner: W,
    pub faults: u64,
}

impl<W> Writing<W> {
    /// This writer, none of whose writes failed yet.
    pub fn new(inner: W) -> Writing<W>
        ensures { result ≡ record { inner = inner; faults = 0 } }
    {
        Writing { inner, faults: 0 }
    }
}

impl<W: Write> Sink for Writing<W> {
    ghost use Rattle.std.specs.Prelude.{None};

    ghost contents = { λ writing. None };

    ghost faults = { λ writing. writing.faults };

    /// A write of nothing out of something is a failure.
    #[tactic(auto, using(crate::proofs::NothingWritten::nothing_written))]
    fn write(&mut self, bytes: &[u8]) -> Result<usize, Failed>
        ensures within { IfOk result (λ count. count ≤ length bytes.now) }
        ensures some { IfOk result (λ count. 0 < length bytes.now → 0 < count) }
        ensures cause { FailsByCount self.old.faults self.new.faults result }
        ensures writes { WriteAppends (W.contents self.old.inner) (W.contents self.new.inner) result bytes.now }
    {
        match self.inner.write(bytes) {
            Ok(count) => {
                if count > 0 || bytes.is_empty() {
                    return Ok(count);
                }
            }
            Err(_) => {}
        }
        self.faults = self.faults.saturating_add(1);
        Err(Failed)
    }
}

//! A whole input read to its end, and a whole text written.
ghost use Rattle.std.specs.Prelude.{◌≡◌, ◌≤◌, OnOk, OnErr};
ghost use Rattle.driver_link.specs.Streams.{Appends};
ghost use Rattle.driver_link.specs.Faults.{FailsByCount};
ghost use Rattle.script_run.specs.Streamed.{EndsReading, TookFront};

use bson_lite::Bytes;
use driver_link::{Failed, Sink, Source};
use std::alloc::{AllocError, Global};

/// The greatest length of a script, in bytes.
pub(crate) const LIMIT: usize = 16_777_216;

/// Why an input was not read to its end.
#[derive(Clone, Copy, PartialEq, Eq)]
pub(crate) enum ReadFault {
    Failed,
    /// It holds more than the limit.
    TooLarge,
    Memory,
}

impl From<AllocError> for ReadFault {
    ghost use Rattle.std.specs.Prelude.{◌≡◌};
    ghost use Rattle.script_run.specs.declared.streams.ReadFault.TheVariants.{Memory};

    ghost from_gives = { λ _ fault. fault ≡ Memory };

    fn from(_refused: AllocError) -> ReadFault {
        ReadFault::Memory
    }
}

/// The bytes of an input up to its end, which comes before the limit is passed.
#[tactic(auto, using(crate::proofs::Pieces::Consumes_nil, crate::proofs::Pieces::Consumes_trans))]
pub(crate) fn read_all<I: Source>(
    alloc: Global,
    source: &mut I,
    limit: usize,
) -> Result<Bytes, ReadFault>
    ensures ends { EndsReading limit (I.left source.old) (I.left source.new) (I.faults source.old)
        (I.faults source.new) result }
    ensures later { I.faults source.old ≤ I.faults source.new }
{
    let mut bytes = Bytes::new(alloc);
    let mut piece = [0u8; 16384];
    'reads: loop {
        let count = match source.read(&mut piece) {
            Ok(count) => count,
            Err(Failed) => return Err(ReadFault::Failed),
        };
        if count == 0 {
            return Ok(bytes);
        }
        bytes.extend_from_slice(&piece[..count])?;
        if bytes.len() > limit {
            return Err(ReadFault::TooLarge);
        }
    }
}

/// Writes all the bytes.
#[tactic(auto, using(crate::proofs::Pieces::Appends_nil, crate::proofs::Pieces::Appends_trans))]
pub(crate) fn write_all<O: Sink>(sink: &mut O, bytes: &[u8]) -> Result<(), Failed>
    ensures ok { OnOk result (Appends (O.contents sink.old) (O.contents sink.new) bytes.now) }
    ensures err { OnErr result (TookFront (O.contents sink.old) (O.contents sink.new) bytes.now) }
    ensures cause { FailsByCount (O.faults sink.old) (O.faults sink.new) result }
{
    let mut at = 0;
    'writes: while at < bytes.len() {
        let count = sink.write(&bytes[at..])?;
        at += count;
    }
    Ok(())
}

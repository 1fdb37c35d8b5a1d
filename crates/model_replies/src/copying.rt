//! Copies of a send, of a transaction and of the results that a session keeps.
ghost use Rattle.std.specs.Prelude.{◌≡◌, IfOk};

use bson_lite::{ByIndex, List, TryClone};
use driver_link::{Counted, Entry, PlacedWrite, Send, SendBody, ServerTransaction};
use model_statements::statements::copy_counts;
use std::alloc::{AllocError, Global};

/// Copies of writes with their places.
fn copied_writes(alloc: Global, writes: &[PlacedWrite]) -> Result<List<PlacedWrite>, AllocError>
    ensures { IfOk result (λ copies. copies ≡ writes.now) }
{
    let mut copies = List::with_capacity(alloc, writes.len())?;
    for write in writes {
        copies.push(PlacedWrite {
            place: write.place,
            written: write.written.try_clone(alloc)?,
        })?;
    }
    Ok(copies)
}

/// A copy of what a command asks for.
fn copied_body(alloc: Global, body: &SendBody) -> Result<SendBody, AllocError>
    ensures { IfOk result (λ copy. copy ≡ body.now) }
{
    Ok(match body {
        SendBody::Write {
            command,
            ordered,
            writes,
        } => SendBody::Write {
            command: *command,
            ordered: *ordered,
            writes: copied_writes(alloc, writes.as_slice())?,
        },
        SendBody::Commit => SendBody::Commit,
        SendBody::Abort => SendBody::Abort,
        SendBody::More { cursor } => SendBody::More { cursor: *cursor },
        SendBody::Kill { cursor } => SendBody::Kill { cursor: *cursor },
    })
}

/// A copy of a send.
pub fn copied_send(alloc: Global, send: &Send) -> Result<Send, AllocError>
    ensures { IfOk result (λ copy. copy ≡ send.now) }
{
    Ok(Send {
        session: send.session,
        number: send.number,
        start: send.start,
        in_transaction: send.in_transaction,
        body: copied_body(alloc, &send.body)?,
    })
}

/// Copies of entries.
fn copied_entries(alloc: Global, entries: &[Entry]) -> Result<List<Entry>, AllocError>
    ensures { IfOk result (λ copies. copies ≡ entries.now) }
{
    let mut copies = List::with_capacity(alloc, entries.len())?;
    for entry in entries {
        copies.push(Entry {
            place: entry.place,
            written: entry.written.try_clone(alloc)?,
            result: copy_counts(alloc, &entry.result)?,
            session: entry.session,
            number: entry.number,
        })?;
    }
    Ok(copies)
}

/// A copy of a transaction.
pub fn copied_transaction(
    alloc: Global,
    transaction: &ServerTransaction,
) -> Result<ServerTransaction, AllocError>
    ensures { IfOk result (λ copy. copy ≡ transaction.now) }
{
    Ok(match transaction {
        ServerTransaction::None => ServerTransaction::None,
        ServerTransaction::Running { entries } => ServerTransaction::Running {
            entries: copied_entries(alloc, entries.as_slice())?,
        },
        ServerTransaction::Committed => ServerTransaction::Committed,
        ServerTransaction::Aborted => ServerTransaction::Aborted,
    })
}

/// A copy of kept results.
pub fn copied_kept(alloc: Global, kept: &ByIndex<Counted>) -> Result<ByIndex<Counted>, AllocError>
    ensures { IfOk result (λ copy. copy ≡ kept.now) }
{
    let pairs = kept.entries();
    let mut copies = ByIndex::new(alloc);
    for pair in pairs {
        copies.insert(pair.0, copy_counts(alloc, &pair.1)?)?;
    }
    Ok(copies)
}

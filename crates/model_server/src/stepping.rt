//! The next exchange of a server by its schedule: waiting sends are served first, then the send meets its item.
ghost use Rattle.std.specs.Prelude.{◌≡◌, ◌++◌, ◌∷◌, [], IfOk, OnOk, OnErr};
ghost use Rattle.driver_link.specs.Exchange.{answered, exchanged, next_step, usual_item as usual_step};
ghost use Rattle.model_server.specs.Meets.{IsSpelled, note_of};

use crate::delivery::{deliver_each, undo_each};
use crate::meeting::take;
use bson_lite::{Bytes, List};
use driver_link::{Answered, Item, Schedule, Scheduled, Send, Server};
use std::alloc::{AllocError, Global};

/// Takes a send by its step of a schedule. The answer is the bytes of its reply, or none where the connection
/// is reset. A refusal leaves server and notes as they were: what was served late is undone.
#[tactic(auto, unfolding(driver_link::specs::Exchange::exchanged, driver_link::specs::Exchange::answered, driver_link::specs::Exchange::after_picks))]
fn take_step(
    server: &mut Server,
    notes: &mut List<Answered>,
    alloc: Global,
    send: Send,
    step: &Scheduled,
) -> Result<Option<Bytes>, AllocError>
    ensures reply { IfOk result (λ bytes. IsSpelled (answered server.old send step.now) bytes) }
    ensures ok { OnOk result (server.new ≡ exchanged server.old send step.now) }
    ensures notes { IfOk result (λ bytes. notes.new ≡ notes.old ++ note_of bytes ∷ []) }
    ensures err { OnErr result (server.new ≡ server.old) }
    ensures notes_err { OnErr result (notes.new ≡ notes.old) }
{
    let lates = deliver_each(server, alloc, step.deliver.as_slice())?;
    match take(server, notes, alloc, send, &step.item) {
        Ok(bytes) => Ok(bytes),
        Err(refused) => {
            undo_each(server, alloc, lates);
            Err(refused)
        }
    }
}

/// Takes a send that is served and answered as usual.
#[tactic(auto, unfolding(driver_link::specs::Exchange::exchanged, driver_link::specs::Exchange::answered, driver_link::specs::Exchange::after_picks))]
fn take_usual(
    server: &mut Server,
    notes: &mut List<Answered>,
    alloc: Global,
    send: Send,
) -> Result<Option<Bytes>, AllocError>
    ensures reply { IfOk result
        (λ bytes. IsSpelled (answered server.old send (record { deliver = []; item = usual_step })) bytes) }
    ensures ok { OnOk result
        (server.new ≡ exchanged server.old send (record { deliver = []; item = usual_step })) }
    ensures notes { IfOk result (λ bytes. notes.new ≡ notes.old ++ note_of bytes ∷ []) }
    ensures err { OnErr result (server.new ≡ server.old) }
    ensures notes_err { OnErr result (notes.new ≡ notes.old) }
{
    take(server, notes, alloc, send, &usual_item(alloc))
}

/// Takes the next exchange by a schedule. The answer is the bytes of its reply, or none where the connection
/// is reset. A refusal leaves server and notes as they were.
pub(crate) fn take_next(
    server: &mut Server,
    notes: &mut List<Answered>,
    alloc: Global,
    send: Send,
    schedule: &Schedule,
) -> Result<Option<Bytes>, AllocError>
    ensures reply { IfOk result
        (λ bytes. IsSpelled (answered server.old send (next_step schedule.now server.old)) bytes) }
    ensures ok { OnOk result (server.new ≡ exchanged server.old send (next_step schedule.now server.old)) }
    ensures notes { IfOk result (λ bytes. notes.new ≡ notes.old ++ note_of bytes ∷ []) }
    ensures err { OnErr result (server.new ≡ server.old) }
    ensures notes_err { OnErr result (notes.new ≡ notes.old) }
{
    match schedule.items.get(server.trace.len()) {
        Some(step) => take_step(server, notes, alloc, send, step),
        None => take_usual(server, notes, alloc, send),
    }
}

/// The item by which an exchange is served and answered as usual.
fn usual_item(alloc: Global) -> Item
    ensures { result ≡ usual_step }
{
    Item::Serve {
        results: List::new(alloc),
        fail: List::new(alloc),
        write_concern_error: None,
        page: None,
    }
}

//! Late deliveries: a waiting send is taken out of its place and served as usual, and what undoes that is
//! kept until all of an exchange has its memory.
ghost use Rattle.std.specs.Prelude.{◌≡◌, None, Some, slice_set, is_some, IfOk, OnOk, OnErr};
ghost use Rattle.driver_link.specs.Exchange.{after_picks, delivered};
ghost use Rattle.driver_link.specs.Serving.{served, usual};
ghost use Rattle.model_server.specs.Undoing.{each_before, found_before, late_before, server_before};
ghost use Rattle.model_effects.specs.Waiting.{waits_at};

use crate::undoing::{Past, note, undo};
use bson_lite::List;
use driver_link::{Send, Server};
use model_effects::change::{Displaced, put_changes};
use model_effects::exchange::{Prepared, prepare};
use model_effects::places::{put_back, take_out};
use std::alloc::{AllocError, Global};

/// A send that was served late: where it waited, and what undoes its serving.
#[derive(Drop)]
pub struct Late {
    pub at: usize,
    pub send: Send,
    pub past: Past,
    pub displaced: Displaced,
}

/// What undoes the serving of a send.
#[derive(Drop)]
pub struct Undoing {
    pub past: Past,
    pub displaced: Displaced,
}

/// Serves the send that waits at a place, by the order of lateness from 0, as usual. The answer is whether
/// one waited there. A refusal leaves the server as it was.
pub fn deliver(server: &mut Server, alloc: Global, at: u64) -> Result<bool, AllocError>
    ensures waited { IfOk result (λ waited. waited ≡ is_some (waits_at server.old.waiting at)) }
    ensures ok { OnOk result (server.new ≡ delivered server.old at) }
    ensures err { OnErr result (server.new ≡ server.old) }
{
    match serve_waiting(server, alloc, at as usize)? {
        Some(_) => Ok(true),
        None => Ok(false),
    }
}

/// Serves the send that waits at a place, where one waits there. The answer is what undoes it. A refusal
/// leaves the server as it was.
#[tactic(auto, using(crate::proofs::WaitingLaws::none_delivered, crate::proofs::WaitingLaws::one_delivered, crate::proofs::WaitingLaws::back_again, crate::proofs::UndoLaws::waits_again, crate::proofs::UndoLaws::stays_so))]
fn serve_waiting(server: &mut Server, alloc: Global, at: usize) -> Result<Option<Late>, AllocError>
    ensures waited { IfOk result (λ late. is_some late ≡ is_some (waits_at server.old.waiting at)) }
    ensures ok { OnOk result (server.new ≡ delivered server.old at) }
    ensures back { IfOk result (λ late. found_before late server.new ≡ server.old) }
    ensures err { OnErr result (server.new ≡ server.old) }
{
    let Some(send) = take_out(&mut server.waiting, alloc, at) else {
        return Ok(None);
    };
    match serve_late(server, alloc, &send) {
        Ok(undoing) => Ok(Some(Late {
            at,
            send,
            past: undoing.past,
            displaced: undoing.displaced,
        })),
        Err(refused) => {
            put_back(&mut server.waiting, alloc, at, send);
            Err(refused)
        }
    }
}

/// Serves a send as usual, which is in the trace already. The answer is what undoes it. A refusal leaves
/// the server as it was.
fn serve_late(server: &mut Server, alloc: Global, send: &Send) -> Result<Undoing, AllocError>
    ensures ok { OnOk result (server.new ≡ served usual server.old send.now) }
    ensures back { IfOk result
        (λ undoing. server_before undoing.past undoing.displaced server.new ≡ server.old) }
    ensures err { OnErr result (server.new ≡ server.old) }
{
    let made = prepare(server, alloc, send, &[], &[], &None, None)?;
    let Prepared {
        reply: _,
        effect,
        change,
    } = made;
    let past = note(alloc, server, &effect, &change)?;
    let displaced = put_changes(server, alloc, effect, change)?;
    Ok(Undoing { past, displaced })
}

/// Undoes the serving of a waiting send, which waits again.
fn undo_late(server: &mut Server, alloc: Global, late: Late)
    ensures { server.new ≡ late_before late server.old }
{
    let Late {
        at,
        send,
        past,
        displaced,
    } = late;
    undo(server, alloc, past, displaced);
    put_back(&mut server.waiting, alloc, at, send);
}

/// Undoes the serving of waiting sends, the last first.
#[tactic(auto, unfolding(crate::specs::Undoing::each_before), using(crate::proofs::UndoLaws::last_before))]
pub fn undo_each(server: &mut Server, alloc: Global, mut lates: List<Late>)
    ensures { server.new ≡ each_before lates server.old }
{
    while let Some(late) = lates.pop() {
        undo_late(server, alloc, late);
    }
}

/// Serves one more waiting send, and keeps what undoes it.
#[tactic(auto, using(crate::proofs::UndoLaws::more_before))]
fn deliver_next(
    server: &mut Server,
    alloc: Global,
    pick: u64,
    lates: &mut Vec<Late>,
) -> Result<(), AllocError>
    ensures ok { OnOk result (server.new ≡ delivered server.old pick) }
    ensures back { OnOk result
        (each_before lates.new.items server.new ≡ each_before lates.old.items server.old) }
    ensures err { OnErr result (server.new ≡ server.old) }
    ensures lates_err { OnErr result (lates.new.items ≡ lates.old.items) }
{
    lates.reserve(1)?;
    match serve_waiting(server, alloc, pick as usize)? {
        Some(late) => lates.push_reserved(late),
        None => {}
    }
    Ok(())
}

/// Serves the waiting sends of a list of picks in turn; a pick that is not waiting is passed over. The
/// answer is what undoes them. A refusal leaves the server as it was.
#[tactic(auto, unfolding(driver_link::specs::Exchange::after_picks, crate::specs::Undoing::each_before))]
pub fn deliver_each(
    server: &mut Server,
    alloc: Global,
    picks: &[u64],
) -> Result<List<Late>, AllocError>
    ensures ok { OnOk result (server.new ≡ after_picks server.old picks.now) }
    ensures back { IfOk result (λ lates. each_before lates server.new ≡ server.old) }
    ensures err { OnErr result (server.new ≡ server.old) }
{
    let mut lates = Vec::new(alloc);
    for pick in picks {
        match deliver_next(server, alloc, *pick, &mut lates) {
            Ok(()) => {}
            Err(refused) => {
                undo_each(server, alloc, List::from_vec(lates));
                return Err(refused);
            }
        }
    }
    Ok(List::from_vec(lates))
}

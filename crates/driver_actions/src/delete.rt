//! The delete of what a filter finds, from its caller to its answer.
ghost use Rattle.std.specs.Prelude.{◌≡◌, IfErr, IfOk};
ghost use Rattle.driver_ops.specs.Targets.{in_collection};
ghost use Rattle.driver_attempt.specs.Client.{options_of};
ghost use Rattle.driver_attempt.specs.Failures.{MemoryAlone};
ghost use Rattle.driver_attempt.specs.Moment.{moment_of};
ghost use Rattle.driver_actions.specs.Causes.{WriteCaused};
ghost use Rattle.driver_actions.specs.SingleCalls.{Makes};
ghost use Rattle.driver_inputs.specs.Forms.{deletes};

use crate::single_operation::run_single;
use bson_lite::TryClone;
use driver_attempt::{Client, Outside};
use driver_error::Result;
use driver_inputs::{DeleteWrite, SingleAnswer, delete_refusal};
use driver_link::{Clock, Link, Place};
use driver_ops::Collection;
use driver_session::SessionStore;
use rand_core::Rng;
use statement_ops::Delete;
use std::alloc::{AllocError, Global};
use std::marker::Brand;
use std::sync::ledger::Blank;

/// Deletes one of the documents that a filter finds, or all of them (`multi`), in a place that is given.
#[tactic(auto, using(crate::proofs::MemoryAlone::input_told))]
pub(crate) fn delete<S: SessionStore, L: Link, K: Clock, R: Rng>(
    alloc: Global,
    client: &mut Client<S>,
    outside: &mut Outside<L, K, R>,
    write: &DeleteWrite,
    multi: bool,
    place: Place,
) -> Result<SingleAnswer>
    ensures makes { Makes
        (moment_of S.tells L.tells K.tells R.stream client.old outside.old)
        (moment_of S.tells L.tells K.tells R.stream client.new outside.new)
        (deletes write.now.namespace write.now.filter multi write.now.options) place result }
    ensures cause { WriteCaused
        (moment_of S.tells L.tells K.tells R.stream client.old outside.old)
        (moment_of S.tells L.tells K.tells R.stream client.new outside.new)
        (deletes write.now.namespace write.now.filter multi write.now.options) result }
    ensures memory { IfErr result (λ error. MemoryAlone error) }
    ensures options { options_of client.new ≡ options_of client.old }
    ensures call { outside.new.call ≡ outside.old.call }
{
    let options = write.options.get();
    if let Some(error) = delete_refusal(alloc, &write.namespace, &write.filter, multi, options) {
        return Err(error);
    }
    let op = delete_of(alloc, write, multi)?;
    let blank = Blank::new(1);
    let output = run_single::<Delete, S, L, K, R, Brand>(alloc, client, outside, op, place, blank)?;
    Ok(SingleAnswer::Deleted(output))
}

/// The operation of a delete, on copies of what it is made of.
fn delete_of(
    alloc: Global,
    write: &DeleteWrite,
    multi: bool,
) -> std::result::Result<Delete, AllocError>
    ensures target { IfOk result (λ op. op.target ≡ in_collection write.now.namespace) }
    ensures filter { IfOk result (λ op. op.filter ≡ write.now.filter) }
    ensures multi { IfOk result (λ op. op.multi ≡ multi) }
    ensures options { IfOk result (λ op. op.options ≡ write.now.options) }
{
    let collection = Collection {
        namespace: write.namespace.try_clone(alloc)?,
        write_concern: None,
    };
    let filter = write.filter.try_clone(alloc)?;
    let options = write.options.get().try_clone(alloc)?;
    Ok(Delete::new(collection, filter, multi, options))
}

//! The insert of one document, from its caller to its answer.
ghost use Rattle.std.specs.Prelude.{◌≡◌, IfErr};
ghost use Rattle.driver_attempt.specs.Client.{options_of};
ghost use Rattle.driver_attempt.specs.Failures.{MemoryAlone};
ghost use Rattle.driver_attempt.specs.Moment.{moment_of};
ghost use Rattle.driver_actions.specs.Causes.{WriteCaused};
ghost use Rattle.driver_actions.specs.SingleCalls.{Makes};
ghost use Rattle.driver_inputs.specs.Forms.{form_of};
ghost use Rattle.driver_inputs.specs.declared.single_write.SingleWrite.TheVariants.{InsertOne};

use crate::own_ids::{AnsweredDocument, own_document};
use crate::single_operation::run_single;
use bson_lite::TryClone;
use driver_attempt::{Client, Outside};
use driver_error::Result;
use driver_inputs::{InsertWrite, SingleAnswer, insert_refusal};
use driver_link::{Clock, Link, Place};
use driver_ops::Collection;
use driver_session::SessionStore;
use rand_core::Rng;
use std::alloc::Global;
use std::marker::Brand;
use std::sync::ledger::Blank;
use write_ops::Insert;

/// Inserts one document, whose place is given.
#[tactic(auto, using(crate::proofs::MemoryAlone::input_told, crate::proofs::MemoryAlone::own_told))]
pub(crate) fn insert_one<S: SessionStore, L: Link, K: Clock, R: Rng>(
    alloc: Global,
    client: &mut Client<S>,
    outside: &mut Outside<L, K, R>,
    write: &InsertWrite,
    place: Place,
) -> Result<SingleAnswer>
    ensures makes { Makes
        (moment_of S.tells L.tells K.tells R.stream client.old outside.old)
        (moment_of S.tells L.tells K.tells R.stream client.new outside.new)
        (form_of (InsertOne write.now)) place result }
    ensures cause { WriteCaused
        (moment_of S.tells L.tells K.tells R.stream client.old outside.old)
        (moment_of S.tells L.tells K.tells R.stream client.new outside.new)
        (form_of (InsertOne write.now)) result }
    ensures memory { IfErr result (λ error. MemoryAlone error) }
    ensures options { options_of client.new ≡ options_of client.old }
    ensures call { outside.new.call ≡ outside.old.call }
{
    if let Some(error) = insert_refusal(alloc, &write.namespace, &write.document, &write.options) {
        return Err(error);
    }
    let namespace = write.namespace.try_clone(alloc)?;
    let own = own_document(alloc, client, &write.document)?;
    let AnsweredDocument { document, answer } = own;
    let collection = Collection {
        namespace,
        write_concern: None,
    };
    let documents = [document];
    let insert = Insert::new(collection, 0, &documents, &write.options);
    let blank = Blank::new(1);
    run_single::<Insert<'_>, S, L, K, R, Brand>(alloc, client, outside, insert, place, blank)?;
    Ok(SingleAnswer::Inserted(answer))
}

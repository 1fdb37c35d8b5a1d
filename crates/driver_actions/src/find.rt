//! The writes that answer the document which their filter finds, from their caller to their answer.
ghost use Rattle.std.specs.Prelude.{◌≡◌, IfOk, IfErr};
ghost use Rattle.driver_ops.specs.Targets.{in_collection};
ghost use Rattle.driver_ops.specs.declared.target.OperationTarget.TheVariants.{Collection as Within};
ghost use Rattle.driver_attempt.specs.Client.{options_of};
ghost use Rattle.driver_attempt.specs.Failures.{MemoryAlone};
ghost use Rattle.driver_attempt.specs.Moment.{moment_of};
ghost use Rattle.driver_actions.specs.Causes.{WriteCaused};
ghost use Rattle.driver_actions.specs.SingleCalls.{Makes};
ghost use Rattle.driver_inputs.specs.Forms.{finds, form_of};
ghost use Rattle.driver_inputs.specs.declared.single_write.SingleWrite.TheVariants.{FindOneAndDelete, FindOneAndReplace, FindOneAndUpdate};

use crate::single_operation::run_single;
use bson_lite::{Document, Namespace, TryClone};
use driver_attempt::{Client, Outside};
use driver_error::{Error, Result};
use driver_inputs::{FindAndDelete, FindAndReplace, FindAndUpdate, SingleAnswer, find_refusal};
use driver_link::{Clock, Link, Place};
use driver_ops::Collection;
use driver_options::{FindAndModifyOptions, Modification, UpdateOrReplace};
use driver_session::SessionStore;
use rand_core::Rng;
use statement_ops::FindAndModify;
use std::alloc::{AllocError, Global};
use std::marker::Brand;
use std::sync::ledger::Blank;

/// Takes out one of the documents that a filter finds, in a place that is given, and answers it.
pub(crate) fn find_one_and_delete<S: SessionStore, L: Link, K: Clock, R: Rng>(
    alloc: Global,
    client: &mut Client<S>,
    outside: &mut Outside<L, K, R>,
    write: &FindAndDelete,
    place: Place,
) -> Result<SingleAnswer>
    ensures makes { Makes
        (moment_of S.tells L.tells K.tells R.stream client.old outside.old)
        (moment_of S.tells L.tells K.tells R.stream client.new outside.new)
        (form_of (FindOneAndDelete write.now)) place result }
    ensures cause { WriteCaused
        (moment_of S.tells L.tells K.tells R.stream client.old outside.old)
        (moment_of S.tells L.tells K.tells R.stream client.new outside.new)
        (form_of (FindOneAndDelete write.now)) result }
    ensures memory { IfErr result (λ error. MemoryAlone error) }
    ensures options { options_of client.new ≡ options_of client.old }
    ensures call { outside.new.call ≡ outside.old.call }
{
    let given = write.options.get().try_clone(alloc)?;
    let options = FindAndModifyOptions::from(given);
    let modification = Modification::Delete;
    find_and_modify(
        alloc,
        client,
        outside,
        &write.namespace,
        &write.filter,
        modification,
        options,
        place,
    )
}

/// Updates one of the documents that a filter finds, in a place that is given, and answers it.
pub(crate) fn find_one_and_update<S: SessionStore, L: Link, K: Clock, R: Rng>(
    alloc: Global,
    client: &mut Client<S>,
    outside: &mut Outside<L, K, R>,
    write: &FindAndUpdate,
    place: Place,
) -> Result<SingleAnswer>
    ensures makes { Makes
        (moment_of S.tells L.tells K.tells R.stream client.old outside.old)
        (moment_of S.tells L.tells K.tells R.stream client.new outside.new)
        (form_of (FindOneAndUpdate write.now)) place result }
    ensures cause { WriteCaused
        (moment_of S.tells L.tells K.tells R.stream client.old outside.old)
        (moment_of S.tells L.tells K.tells R.stream client.new outside.new)
        (form_of (FindOneAndUpdate write.now)) result }
    ensures memory { IfErr result (λ error. MemoryAlone error) }
    ensures options { options_of client.new ≡ options_of client.old }
    ensures call { outside.new.call ≡ outside.old.call }
{
    let update = write.update.try_clone(alloc)?;
    let given = write.options.get().try_clone(alloc)?;
    let options = FindAndModifyOptions::from(given);
    let modification = Modification::Update(UpdateOrReplace::UpdateModifications(update));
    find_and_modify(
        alloc,
        client,
        outside,
        &write.namespace,
        &write.filter,
        modification,
        options,
        place,
    )
}

/// Puts a document in the place of one that a filter finds, in a place that is given, and answers that one.
pub(crate) fn find_one_and_replace<S: SessionStore, L: Link, K: Clock, R: Rng>(
    alloc: Global,
    client: &mut Client<S>,
    outside: &mut Outside<L, K, R>,
    write: &FindAndReplace,
    place: Place,
) -> Result<SingleAnswer>
    ensures makes { Makes
        (moment_of S.tells L.tells K.tells R.stream client.old outside.old)
        (moment_of S.tells L.tells K.tells R.stream client.new outside.new)
        (form_of (FindOneAndReplace write.now)) place result }
    ensures cause { WriteCaused
        (moment_of S.tells L.tells K.tells R.stream client.old outside.old)
        (moment_of S.tells L.tells K.tells R.stream client.new outside.new)
        (form_of (FindOneAndReplace write.now)) result }
    ensures memory { IfErr result (λ error. MemoryAlone error) }
    ensures options { options_of client.new ≡ options_of client.old }
    ensures call { outside.new.call ≡ outside.old.call }
{
    let replacement = write.replacement.try_clone(alloc)?;
    let given = write.options.get().try_clone(alloc)?;
    let options = FindAndModifyOptions::from(given);
    let modification = Modification::Update(UpdateOrReplace::Replacement(replacement));
    find_and_modify(
        alloc,
        client,
        outside,
        &write.namespace,
        &write.filter,
        modification,
        options,
        place,
    )
}

/// Does what is asked to one of the documents that a filter finds, in a place that is given, and answers it.
#[tactic(auto, using(crate::proofs::MemoryAlone::input_told))]
fn find_and_modify<S: SessionStore, L: Link, K: Clock, R: Rng>(
    alloc: Global,
    client: &mut Client<S>,
    outside: &mut Outside<L, K, R>,
    namespace: &Namespace,
    filter: &Document,
    modification: Modification,
    options: FindAndModifyOptions,
    place: Place,
) -> Result<SingleAnswer>
    ensures makes { Makes
        (moment_of S.tells L.tells K.tells R.stream client.old outside.old)
        (moment_of S.tells L.tells K.tells R.stream client.new outside.new)
        (finds namespace.now filter.now modification options) place result }
    ensures cause { WriteCaused
        (moment_of S.tells L.tells K.tells R.stream client.old outside.old)
        (moment_of S.tells L.tells K.tells R.stream client.new outside.new)
        (finds namespace.now filter.now modification options) result }
    ensures memory { IfErr result (λ error. MemoryAlone error) }
    ensures options { options_of client.new ≡ options_of client.old }
    ensures call { outside.new.call ≡ outside.old.call }
{
    if let Some(error) = find_refusal(alloc, namespace, filter, &modification, &options) {
        drop(modification);
        drop(options);
        return Err(error);
    }
    let (collection, filter) = match target_of(alloc, namespace, filter) {
        Ok(target) => target,
        Err(refused) => {
            drop(modification);
            drop(options);
            return Err(Error::from(refused));
        }
    };
    let find = FindAndModify::new(collection, filter, modification, options);
    let blank = Blank::new(1);
    let output = run_single::<FindAndModify, S, L, K, R, Brand>(
        alloc, client, outside, find, place, blank,
    )?;
    Ok(SingleAnswer::Found(output))
}

/// Copies of the collection, which has no concern of its own, and of the filter.
fn target_of(
    alloc: Global,
    namespace: &Namespace,
    filter: &Document,
) -> std::result::Result<(Collection, Document), AllocError>
    ensures { IfOk result (λ target. (Within target.0 ≡ in_collection namespace.now)
        × (target.1 ≡ filter.now)) }
{
    let collection = Collection {
        namespace: namespace.try_clone(alloc)?,
        write_concern: None,
    };
    let filter = filter.try_clone(alloc)?;
    Ok((collection, filter))
}

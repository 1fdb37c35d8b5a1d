//! The update or replacement of what a filter finds, from its caller to its answer.
ghost use Rattle.std.specs.Prelude.{◌≡◌, IfErr, IfOk};
ghost use Rattle.driver_options.specs.declared.updates.UpdateOrReplace.TheVariants.{UpdateModifications as Modifies};
ghost use Rattle.driver_ops.specs.Targets.{in_collection};
ghost use Rattle.driver_attempt.specs.Client.{options_of};
ghost use Rattle.driver_attempt.specs.Failures.{MemoryAlone};
ghost use Rattle.driver_attempt.specs.Moment.{moment_of};
ghost use Rattle.driver_actions.specs.Causes.{WriteCaused};
ghost use Rattle.driver_actions.specs.SingleCalls.{Makes};
ghost use Rattle.driver_inputs.specs.Forms.{form_of, updates};
ghost use Rattle.driver_inputs.specs.declared.single_write.SingleWrite.TheVariants.{ReplaceOne};

use crate::single_operation::run_single;
use bson_lite::{Document, Namespace, TryClone};
use driver_attempt::{Client, Outside};
use driver_error::Result;
use driver_inputs::{ReplaceWrite, SingleAnswer, UpdateWrite, update_refusal};
use driver_link::{Clock, Link, Place};
use driver_ops::Collection;
use driver_options::{UpdateOptions, UpdateOrReplace};
use driver_session::SessionStore;
use rand_core::Rng;
use statement_ops::Update;
use std::alloc::{AllocError, Global};
use std::marker::Brand;
use std::sync::ledger::Blank;

/// Changes one of the documents that a filter finds, or all of them (`multi`), in a place that is given.
pub(crate) fn update<S: SessionStore, L: Link, K: Clock, R: Rng>(
    alloc: Global,
    client: &mut Client<S>,
    outside: &mut Outside<L, K, R>,
    write: &UpdateWrite,
    multi: bool,
    place: Place,
) -> Result<SingleAnswer>
    ensures makes { Makes
        (moment_of S.tells L.tells K.tells R.stream client.old outside.old)
        (moment_of S.tells L.tells K.tells R.stream client.new outside.new)
        (updates write.now.namespace write.now.filter (Modifies write.now.update) multi write.now.options) place result }
    ensures cause { WriteCaused
        (moment_of S.tells L.tells K.tells R.stream client.old outside.old)
        (moment_of S.tells L.tells K.tells R.stream client.new outside.new)
        (updates write.now.namespace write.now.filter (Modifies write.now.update) multi write.now.options) result }
    ensures memory { IfErr result (λ error. MemoryAlone error) }
    ensures options { options_of client.new ≡ options_of client.old }
    ensures call { outside.new.call ≡ outside.old.call }
{
    let change = UpdateOrReplace::UpdateModifications(write.update.try_clone(alloc)?);
    let options = write.options.get();
    let (namespace, filter) = (&write.namespace, &write.filter);
    update_found(
        alloc, client, outside, namespace, filter, change, multi, options, place,
    )
}

/// Puts a document in the place of one that a filter finds, in a place that is given.
pub(crate) fn replace<S: SessionStore, L: Link, K: Clock, R: Rng>(
    alloc: Global,
    client: &mut Client<S>,
    outside: &mut Outside<L, K, R>,
    write: &ReplaceWrite,
    place: Place,
) -> Result<SingleAnswer>
    ensures makes { Makes
        (moment_of S.tells L.tells K.tells R.stream client.old outside.old)
        (moment_of S.tells L.tells K.tells R.stream client.new outside.new)
        (form_of (ReplaceOne write.now)) place result }
    ensures cause { WriteCaused
        (moment_of S.tells L.tells K.tells R.stream client.old outside.old)
        (moment_of S.tells L.tells K.tells R.stream client.new outside.new)
        (form_of (ReplaceOne write.now)) result }
    ensures memory { IfErr result (λ error. MemoryAlone error) }
    ensures options { options_of client.new ≡ options_of client.old }
    ensures call { outside.new.call ≡ outside.old.call }
{
    let change = UpdateOrReplace::Replacement(write.replacement.try_clone(alloc)?);
    let options = write.options.get();
    let (namespace, filter) = (&write.namespace, &write.filter);
    update_found(
        alloc, client, outside, namespace, filter, change, false, options, place,
    )
}

/// Updates or replaces one of the documents that a filter finds, or all of them (`multi`), in a place that is given.
#[tactic(auto, using(crate::proofs::MemoryAlone::input_told))]
fn update_found<S: SessionStore, L: Link, K: Clock, R: Rng>(
    alloc: Global,
    client: &mut Client<S>,
    outside: &mut Outside<L, K, R>,
    namespace: &Namespace,
    filter: &Document,
    change: UpdateOrReplace,
    multi: bool,
    options: &UpdateOptions,
    place: Place,
) -> Result<SingleAnswer>
    ensures makes { Makes
        (moment_of S.tells L.tells K.tells R.stream client.old outside.old)
        (moment_of S.tells L.tells K.tells R.stream client.new outside.new)
        (updates namespace.now filter.now change multi options.now) place result }
    ensures cause { WriteCaused
        (moment_of S.tells L.tells K.tells R.stream client.old outside.old)
        (moment_of S.tells L.tells K.tells R.stream client.new outside.new)
        (updates namespace.now filter.now change multi options.now) result }
    ensures memory { IfErr result (λ error. MemoryAlone error) }
    ensures options { options_of client.new ≡ options_of client.old }
    ensures call { outside.new.call ≡ outside.old.call }
{
    if let Some(error) = update_refusal(alloc, namespace, filter, &change, multi, options) {
        return Err(error);
    }
    let op = update_of(alloc, namespace, filter, change, multi, options)?;
    let blank = Blank::new(1);
    let output = run_single::<Update, S, L, K, R, Brand>(alloc, client, outside, op, place, blank)?;
    Ok(SingleAnswer::Updated(output))
}

/// The operation of an update or replacement, on copies of what else it is made of.
fn update_of(
    alloc: Global,
    namespace: &Namespace,
    filter: &Document,
    change: UpdateOrReplace,
    multi: bool,
    options: &UpdateOptions,
) -> std::result::Result<Update, AllocError>
    ensures target { IfOk result (λ op. op.target ≡ in_collection namespace.now) }
    ensures filter { IfOk result (λ op. op.filter ≡ filter.now) }
    ensures change { IfOk result (λ op. op.change ≡ change) }
    ensures multi { IfOk result (λ op. op.multi ≡ multi) }
    ensures options { IfOk result (λ op. op.options ≡ options.now) }
{
    let collection = Collection {
        namespace: namespace.try_clone(alloc)?,
        write_concern: None,
    };
    let filter = filter.try_clone(alloc)?;
    let options = options.try_clone(alloc)?;
    Ok(Update::new(collection, filter, change, multi, options))
}

//! The ops of the caller's models: each inserted document has its own id, else the next object id to come, drawn once.
ghost use Rattle.std.specs.Prelude.{◌≡◌, IfErr, IfOk, None};
ghost use Rattle.bson_lite.specs.Fields.{id_key, value_of};
ghost use Rattle.driver_options.specs.declared.models.WriteModel.TheVariants.{InsertOne as Inserts};
ghost use Rattle.driver_attempt.specs.Client.{options_of, store_of};
ghost use Rattle.bulk_actions.specs.BulkIds.{DrawsForModels, OwnsOps};
ghost use Rattle.bulk_actions.specs.inside.OwnOps.{DrawsForModel, MayDrawForModel, SendsOp, TellsOneModel};

use bson_lite::{ID_KEY, List};
use bulk_fronts::{OwnOp, insert_op, insert_op_with_id, model_op};
use driver_attempt::Client;
use driver_error::Result;
use driver_options::{InsertOneModel, WriteModel};
use driver_session::SessionStore;
use std::alloc::Global;

/// The ops of the caller's models as they are sent, at resends too. Ids are drawn in order for the inserted documents
/// that have none.
pub(crate) fn own_ops<S: SessionStore>(
    alloc: Global,
    client: &mut Client<S>,
    models: &[WriteModel],
) -> Result<List<OwnOp>>
    ensures owns { IfOk result (λ own. OwnsOps (S.tells (store_of client.old)) (S.tells (store_of client.new))
        models.now own) }
    ensures refusal { IfErr result (λ error. TellsOneModel models.now error) }
    ensures draws { DrawsForModels (S.tells (store_of client.old)) (S.tells (store_of client.new))
        models.now }
    ensures options { options_of client.new ≡ options_of client.old }
{
    let mut own = List::with_capacity(alloc, models.len())?;
    for model in models {
        let made = sent_op(alloc, client, model)?;
        own.push(made)?;
    }
    Ok(own)
}

/// A model's op as it is sent: an insert's with an id in its document, each other as it is.
#[tactic(auto, using(crate::proofs::SentOps::sent_update_one, crate::proofs::SentOps::sent_update_many, crate::proofs::SentOps::sent_replace_one, crate::proofs::SentOps::sent_delete_one, crate::proofs::SentOps::sent_delete_many))]
fn sent_op<S: SessionStore>(
    alloc: Global,
    client: &mut Client<S>,
    model: &WriteModel,
) -> Result<OwnOp>
    ensures sends { SendsOp (S.tells (store_of client.old)) (S.tells (store_of client.new)) model.now result }
    ensures draws { MayDrawForModel (S.tells (store_of client.old)) (S.tells (store_of client.new))
        model.now }
    ensures options { options_of client.new ≡ options_of client.old }
{
    match model {
        WriteModel::InsertOne(insert) => inserted_op(alloc, client, insert),
        WriteModel::UpdateOne(_) => model_op(alloc, model),
        WriteModel::UpdateMany(_) => model_op(alloc, model),
        WriteModel::ReplaceOne(_) => model_op(alloc, model),
        WriteModel::DeleteOne(_) => model_op(alloc, model),
        WriteModel::DeleteMany(_) => model_op(alloc, model),
    }
}

/// The op of an insert as it is sent: its document as it was given where it has an id, else behind a new one.
#[tactic(auto, using(crate::proofs::SentOps::sent_as_given))]
fn inserted_op<S: SessionStore>(
    alloc: Global,
    client: &mut Client<S>,
    model: &InsertOneModel,
) -> Result<OwnOp>
    ensures sends { SendsOp (S.tells (store_of client.old)) (S.tells (store_of client.new))
        (Inserts model.now) result }
    ensures draws { MayDrawForModel (S.tells (store_of client.old)) (S.tells (store_of client.new))
        (Inserts model.now) }
    ensures options { options_of client.new ≡ options_of client.old }
{
    match model.document.get(ID_KEY) {
        Some(_) => insert_op(alloc, &model.namespace, &model.document),
        None => inserted_with_new_id(alloc, client, model),
    }
}

/// The op of an insert whose document has no id, as it is sent: behind a new one.
#[tactic(auto, using(crate::proofs::SentOps::sent_with_drawn, crate::proofs::SentOps::drawn_for_insert))]
fn inserted_with_new_id<S: SessionStore>(
    alloc: Global,
    client: &mut Client<S>,
    model: &InsertOneModel,
) -> Result<OwnOp>
    requires has_none { value_of id_key model.now.document ≡ None }
    ensures sends { SendsOp (S.tells (store_of client.old)) (S.tells (store_of client.new))
        (Inserts model.now) result }
    ensures drawn { DrawsForModel (S.tells (store_of client.old)) (S.tells (store_of client.new))
        (Inserts model.now) }
    ensures options { options_of client.new ≡ options_of client.old }
{
    let id = client.object_id();
    insert_op_with_id(alloc, &model.namespace, &model.document, id)
}

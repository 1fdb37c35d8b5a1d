//! Readers of the models of a bulk write: each is an object whose one key names what it does.
ghost use Rattle.script_parts.specs.Json.{GivesPart};
ghost use Rattle.driver_script.specs.Models.{delete_many_model_of, delete_one_model_of, deleting_of, insert_one_model_of, model_of, model_under, replace_one_model_of, update_many_model_of, update_model_under, update_one_model_of, updating_of};
ghost use Rattle.script_parts.specs.inside.Tree.{view};

use crate::from_json::FromJson;
use crate::parts::{
    DeleteParts, InsertParts, ReplaceParts, UpdateParts, delete_parts, insert_parts, replace_parts,
    update_parts,
};
use driver_options::{
    DeleteManyModel, DeleteOneModel, InsertOneModel, ReplaceOneModel, UpdateManyModel,
    UpdateOneModel, WriteModel,
};
use script_parts::forms::{Unread, is_object_of};
use script_parts::keys::{
    DELETE_MANY, DELETE_ONE, DOC, FILTER, INSERT_ONE, NS, REPLACE_ONE, UPDATE, UPDATE_MANY,
    UPDATE_ONE, UPSERT,
};
use script_parts::tree::Json;
use std::alloc::Global;

#[tactic(auto, unfolding(crate::specs::Models::insert_one_model_of))]
fn insert_one_model(alloc: Global, value: &Json<'_, '_>) -> Result<WriteModel, Unread>
    ensures { GivesPart result (insert_one_model_of (view value.now)) }
{
    if !is_object_of(value, &[NS, DOC]) {
        return Err(Unread::Wrong);
    }
    let InsertParts {
        namespace,
        document,
    } = insert_parts(alloc, value)?;
    Ok(WriteModel::InsertOne(InsertOneModel {
        namespace,
        document,
    }))
}

/// The parts of an update, one or many, and no other key.
#[tactic(auto, unfolding(crate::specs::Models::updating_of))]
fn updating(alloc: Global, value: &Json<'_, '_>) -> Result<UpdateParts, Unread>
    ensures { GivesPart result (updating_of (view value.now)) }
{
    if !is_object_of(value, &[NS, FILTER, UPDATE, UPSERT]) {
        return Err(Unread::Wrong);
    }
    update_parts(alloc, value)
}

#[tactic(auto, unfolding(crate::specs::Models::update_one_model_of))]
fn update_one_model(alloc: Global, value: &Json<'_, '_>) -> Result<WriteModel, Unread>
    ensures { GivesPart result (update_one_model_of (view value.now)) }
{
    let UpdateParts {
        namespace,
        filter,
        update,
        upsert,
    } = updating(alloc, value)?;
    Ok(WriteModel::UpdateOne(UpdateOneModel {
        namespace,
        filter,
        update,
        array_filters: None,
        collation: None,
        hint: None,
        upsert,
        sort: None,
    }))
}

#[tactic(auto, unfolding(crate::specs::Models::update_many_model_of))]
fn update_many_model(alloc: Global, value: &Json<'_, '_>) -> Result<WriteModel, Unread>
    ensures { GivesPart result (update_many_model_of (view value.now)) }
{
    let UpdateParts {
        namespace,
        filter,
        update,
        upsert,
    } = updating(alloc, value)?;
    Ok(WriteModel::UpdateMany(UpdateManyModel {
        namespace,
        filter,
        update,
        array_filters: None,
        collation: None,
        hint: None,
        upsert,
    }))
}

#[tactic(auto, unfolding(crate::specs::Models::replace_one_model_of))]
fn replace_one_model(alloc: Global, value: &Json<'_, '_>) -> Result<WriteModel, Unread>
    ensures { GivesPart result (replace_one_model_of (view value.now)) }
{
    if !is_object_of(value, &[NS, FILTER, DOC, UPSERT]) {
        return Err(Unread::Wrong);
    }
    let ReplaceParts {
        namespace,
        filter,
        replacement,
        upsert,
    } = replace_parts(alloc, value)?;
    Ok(WriteModel::ReplaceOne(ReplaceOneModel {
        namespace,
        filter,
        replacement,
        collation: None,
        hint: None,
        upsert,
        sort: None,
    }))
}

/// The parts of a delete, one or many, and no other key.
#[tactic(auto, unfolding(crate::specs::Models::deleting_of))]
fn deleting(alloc: Global, value: &Json<'_, '_>) -> Result<DeleteParts, Unread>
    ensures { GivesPart result (deleting_of (view value.now)) }
{
    if !is_object_of(value, &[NS, FILTER]) {
        return Err(Unread::Wrong);
    }
    delete_parts(alloc, value)
}

#[tactic(auto, unfolding(crate::specs::Models::delete_one_model_of))]
fn delete_one_model(alloc: Global, value: &Json<'_, '_>) -> Result<WriteModel, Unread>
    ensures { GivesPart result (delete_one_model_of (view value.now)) }
{
    let DeleteParts { namespace, filter } = deleting(alloc, value)?;
    Ok(WriteModel::DeleteOne(DeleteOneModel {
        namespace,
        filter,
        collation: None,
        hint: None,
    }))
}

#[tactic(auto, unfolding(crate::specs::Models::delete_many_model_of))]
fn delete_many_model(alloc: Global, value: &Json<'_, '_>) -> Result<WriteModel, Unread>
    ensures { GivesPart result (delete_many_model_of (view value.now)) }
{
    let DeleteParts { namespace, filter } = deleting(alloc, value)?;
    Ok(WriteModel::DeleteMany(DeleteManyModel {
        namespace,
        filter,
        collation: None,
        hint: None,
    }))
}

/// The model of an update or a replacement whose parts stand under its name.
#[tactic(auto, unfolding(crate::specs::Models::update_model_under))]
fn update_model_under(alloc: Global, name: &str, value: &Json<'_, '_>) -> Result<WriteModel, Unread>
    ensures { GivesPart result (update_model_under name.now (view value.now)) }
{
    if name == UPDATE_ONE {
        return update_one_model(alloc, value);
    }
    if name == UPDATE_MANY {
        return update_many_model(alloc, value);
    }
    if name == REPLACE_ONE {
        return replace_one_model(alloc, value);
    }
    Err(Unread::Wrong)
}

/// The model whose parts stand under its name.
#[tactic(auto, unfolding(crate::specs::Models::model_under))]
fn model_under(alloc: Global, name: &str, value: &Json<'_, '_>) -> Result<WriteModel, Unread>
    ensures { GivesPart result (model_under name.now (view value.now)) }
{
    if name == INSERT_ONE {
        return insert_one_model(alloc, value);
    }
    if name == DELETE_ONE {
        return delete_one_model(alloc, value);
    }
    if name == DELETE_MANY {
        return delete_many_model(alloc, value);
    }
    update_model_under(alloc, name, value)
}

impl FromJson for WriteModel {
    ghost spec = { model_of };

    #[tactic(auto, using(crate::proofs::OneKey::model_one, crate::proofs::OneKey::model_none))]
    fn read(alloc: Global, value: &Json<'_, '_>) -> Result<WriteModel, Unread> {
        match value.only_member() {
            Some((name, inner)) => model_under(alloc, name, &inner),
            None => Err(Unread::Wrong),
        }
    }
}

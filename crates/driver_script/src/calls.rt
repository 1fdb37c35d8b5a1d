//! Readers of a script's calls: each is an object whose one key names it.
ghost use Rattle.std.specs.Prelude.{◌≡◌};
ghost use Rattle.driver_script.specs.Calls.{bulk_manner_of, bulk_options, bulk_write_of, call_of, call_under, delete_call_of, delete_many_of, delete_one_of, delete_options, delete_write_of, find_delete_options, find_one_and_delete_of, find_one_and_replace_of, find_one_and_update_of, find_replace_options, find_under, find_update_options, insert_many_of, insert_one_of, insert_options, insert_options_of, replace_one_of, shared_of, update_many_of, update_one_of, update_options, update_under, update_write_of, write_under};
ghost use Rattle.script_parts.specs.Json.{GivesPart};
ghost use Rattle.script_parts.specs.inside.Tree.{view};

use crate::from_json::{FromJson, read_needed, read_optional};
use crate::parts::{
    DeleteParts, InsertParts, ReplaceParts, UpdateParts, delete_parts, insert_parts, replace_parts,
    update_parts,
};
use bson_lite::{Boxed, Bson};
use driver_inputs::{
    Call, DeleteWrite, FindAndDelete, FindAndReplace, FindAndUpdate, InsertWrite, ReplaceWrite,
    SingleWrite, UpdateWrite,
};
use driver_options::{
    BulkWriteOptions, DeleteOptions, FindOneAndDeleteOptions, FindOneAndReplaceOptions,
    FindOneAndUpdateOptions, InsertManyOptions, UpdateOptions, WriteConcern,
};
use script_parts::forms::{Unread, is_object_of};
use script_parts::keys::{
    BULK_WRITE, COMMENT, DELETE_MANY, DELETE_ONE, DOC, DOCS, FILTER, FIND_ONE_AND_DELETE,
    FIND_ONE_AND_REPLACE, FIND_ONE_AND_UPDATE, INSERT_MANY, INSERT_ONE, MODELS, NS, ORDERED,
    REPLACE_ONE, UPDATE, UPDATE_MANY, UPDATE_ONE, UPSERT, VERBOSE, WRITE_CONCERN,
};
use script_parts::tree::Json;
use std::alloc::Global;

/// The options that every write has.
#[derive(Drop)]
pub(crate) struct SharedOptions {
    pub write_concern: Option<WriteConcern>,
    pub comment: Option<Bson>,
}

/// What the call of a delete is made of: of one, of many, or of one that it answers.
#[derive(Drop)]
pub(crate) struct DeleteCall {
    pub parts: DeleteParts,
    pub shared: SharedOptions,
}

/// How a bulk write is made.
#[derive(Drop)]
pub(crate) struct BulkManner {
    pub options: BulkWriteOptions,
    pub verbose: bool,
}

/// The options that every write has, under their keys.
#[inline(always)]
#[tactic(auto, unfolding(crate::specs::Calls::shared_of))]
fn read_shared(alloc: Global, value: &Json<'_, '_>) -> Result<SharedOptions, Unread>
    ensures { GivesPart result (shared_of (view value.now)) }
{
    let write_concern = read_optional(alloc, value, WRITE_CONCERN)?;
    let comment = read_optional(alloc, value, COMMENT)?;
    Ok(SharedOptions {
        write_concern,
        comment,
    })
}

/// The options of an insert, of which these are set.
#[inline(always)]
fn insert_options(ordered: Option<bool>, shared: SharedOptions) -> InsertManyOptions
    ensures { result ≡ insert_options ordered shared }
{
    InsertManyOptions {
        ordered,
        bypass_document_validation: None,
        comment: shared.comment,
        write_concern: shared.write_concern,
    }
}

#[inline(always)]
#[tactic(auto, unfolding(crate::specs::Calls::insert_one_of))]
fn insert_one(alloc: Global, value: &Json<'_, '_>) -> Result<Call, Unread>
    ensures { GivesPart result (insert_one_of (view value.now)) }
{
    if !is_object_of(value, &[NS, DOC, WRITE_CONCERN, COMMENT]) {
        return Err(Unread::Wrong);
    }
    let InsertParts {
        namespace,
        document,
    } = insert_parts(alloc, value)?;
    let shared = read_shared(alloc, value)?;
    Ok(Call::Single {
        write: SingleWrite::InsertOne(InsertWrite {
            namespace,
            document,
            options: insert_options(None, shared),
        }),
    })
}

/// The options of an insert of many documents, under their keys.
#[tactic(auto, unfolding(crate::specs::Calls::insert_options_of))]
fn read_insert_options(alloc: Global, value: &Json<'_, '_>) -> Result<InsertManyOptions, Unread>
    ensures { GivesPart result (insert_options_of (view value.now)) }
{
    let ordered = read_optional(alloc, value, ORDERED)?;
    let shared = read_shared(alloc, value)?;
    Ok(insert_options(ordered, shared))
}

#[tactic(auto, unfolding(crate::specs::Calls::insert_many_of))]
fn insert_many(alloc: Global, value: &Json<'_, '_>) -> Result<Call, Unread>
    ensures { GivesPart result (insert_many_of (view value.now)) }
{
    if !is_object_of(value, &[NS, DOCS, ORDERED, WRITE_CONCERN, COMMENT]) {
        return Err(Unread::Wrong);
    }
    let namespace = read_needed(alloc, value, NS)?;
    let documents = read_needed(alloc, value, DOCS)?;
    let options = read_insert_options(alloc, value)?;
    Ok(Call::InsertMany {
        namespace,
        documents,
        options,
    })
}

/// The options of a bulk write, of which these are set.
fn bulk_options(ordered: Option<bool>, shared: SharedOptions) -> BulkWriteOptions
    ensures { result ≡ bulk_options ordered shared }
{
    BulkWriteOptions {
        ordered,
        bypass_document_validation: None,
        comment: shared.comment,
        write_concern: shared.write_concern,
        let_vars: None,
    }
}

/// How a bulk write is made, under its keys: it is verbose only where that is said.
#[tactic(auto, unfolding(crate::specs::Calls::bulk_manner_of))]
fn read_bulk_manner(alloc: Global, value: &Json<'_, '_>) -> Result<BulkManner, Unread>
    ensures { GivesPart result (bulk_manner_of (view value.now)) }
{
    let ordered = read_optional(alloc, value, ORDERED)?;
    let verbose: Option<bool> = read_optional(alloc, value, VERBOSE)?;
    let shared = read_shared(alloc, value)?;
    Ok(BulkManner {
        options: bulk_options(ordered, shared),
        verbose: verbose.unwrap_or(false),
    })
}

#[tactic(auto, unfolding(crate::specs::Calls::bulk_write_of))]
fn bulk_write(alloc: Global, value: &Json<'_, '_>) -> Result<Call, Unread>
    ensures { GivesPart result (bulk_write_of (view value.now)) }
{
    if !is_object_of(value, &[MODELS, ORDERED, VERBOSE, WRITE_CONCERN, COMMENT]) {
        return Err(Unread::Wrong);
    }
    let models = read_needed(alloc, value, MODELS)?;
    let BulkManner { options, verbose } = read_bulk_manner(alloc, value)?;
    Ok(Call::BulkWrite {
        models,
        options,
        verbose,
    })
}

/// The options of an update or a replacement, of which these are set.
fn update_options(upsert: Option<bool>, shared: SharedOptions) -> UpdateOptions
    ensures { result ≡ update_options upsert shared }
{
    UpdateOptions {
        upsert,
        array_filters: None,
        hint: None,
        collation: None,
        bypass_document_validation: None,
        let_vars: None,
        comment: shared.comment,
        sort: None,
        write_concern: shared.write_concern,
    }
}

/// The change of what a filter finds, one or many.
#[tactic(auto, unfolding(crate::specs::Calls::update_write_of))]
fn update_write(alloc: Global, value: &Json<'_, '_>) -> Result<UpdateWrite, Unread>
    ensures { GivesPart result (update_write_of (view value.now)) }
{
    if !is_object_of(value, &[NS, FILTER, UPDATE, UPSERT, WRITE_CONCERN, COMMENT]) {
        return Err(Unread::Wrong);
    }
    let parts = update_parts(alloc, value)?;
    let shared = read_shared(alloc, value)?;
    let UpdateParts {
        namespace,
        filter,
        update,
        upsert,
    } = parts;
    let options = Boxed::new(alloc, update_options(upsert, shared))?;
    Ok(UpdateWrite {
        namespace,
        filter,
        update,
        options,
    })
}

#[tactic(auto, unfolding(crate::specs::Calls::update_one_of))]
fn update_one(alloc: Global, value: &Json<'_, '_>) -> Result<Call, Unread>
    ensures { GivesPart result (update_one_of (view value.now)) }
{
    let update = update_write(alloc, value)?;
    Ok(Call::Single {
        write: SingleWrite::UpdateOne(update),
    })
}

#[tactic(auto, unfolding(crate::specs::Calls::update_many_of))]
fn update_many(alloc: Global, value: &Json<'_, '_>) -> Result<Call, Unread>
    ensures { GivesPart result (update_many_of (view value.now)) }
{
    let update = update_write(alloc, value)?;
    Ok(Call::Single {
        write: SingleWrite::UpdateMany(update),
    })
}

#[tactic(auto, unfolding(crate::specs::Calls::replace_one_of))]
fn replace_one(alloc: Global, value: &Json<'_, '_>) -> Result<Call, Unread>
    ensures { GivesPart result (replace_one_of (view value.now)) }
{
    if !is_object_of(value, &[NS, FILTER, DOC, UPSERT, WRITE_CONCERN, COMMENT]) {
        return Err(Unread::Wrong);
    }
    let ReplaceParts {
        namespace,
        filter,
        replacement,
        upsert,
    } = replace_parts(alloc, value)?;
    let shared = read_shared(alloc, value)?;
    let options = Boxed::new(alloc, update_options(upsert, shared))?;
    Ok(Call::Single {
        write: SingleWrite::ReplaceOne(ReplaceWrite {
            namespace,
            filter,
            replacement,
            options,
        }),
    })
}

/// The options of a delete, of which these are set.
fn delete_options(shared: SharedOptions) -> DeleteOptions
    ensures { result ≡ delete_options shared }
{
    DeleteOptions {
        collation: None,
        hint: None,
        let_vars: None,
        comment: shared.comment,
        write_concern: shared.write_concern,
    }
}

#[tactic(auto, unfolding(crate::specs::Calls::delete_call_of))]
fn delete_call(alloc: Global, value: &Json<'_, '_>) -> Result<DeleteCall, Unread>
    ensures { GivesPart result (delete_call_of (view value.now)) }
{
    if !is_object_of(value, &[NS, FILTER, WRITE_CONCERN, COMMENT]) {
        return Err(Unread::Wrong);
    }
    let parts = delete_parts(alloc, value)?;
    let shared = read_shared(alloc, value)?;
    Ok(DeleteCall { parts, shared })
}

/// The delete of what a filter finds, one or many.
#[tactic(auto, unfolding(crate::specs::Calls::delete_write_of))]
fn delete_write(alloc: Global, value: &Json<'_, '_>) -> Result<DeleteWrite, Unread>
    ensures { GivesPart result (delete_write_of (view value.now)) }
{
    let DeleteCall { parts, shared } = delete_call(alloc, value)?;
    let DeleteParts { namespace, filter } = parts;
    let options = Boxed::new(alloc, delete_options(shared))?;
    Ok(DeleteWrite {
        namespace,
        filter,
        options,
    })
}

#[tactic(auto, unfolding(crate::specs::Calls::delete_one_of))]
fn delete_one(alloc: Global, value: &Json<'_, '_>) -> Result<Call, Unread>
    ensures { GivesPart result (delete_one_of (view value.now)) }
{
    let delete = delete_write(alloc, value)?;
    Ok(Call::Single {
        write: SingleWrite::DeleteOne(delete),
    })
}

#[tactic(auto, unfolding(crate::specs::Calls::delete_many_of))]
fn delete_many(alloc: Global, value: &Json<'_, '_>) -> Result<Call, Unread>
    ensures { GivesPart result (delete_many_of (view value.now)) }
{
    let delete = delete_write(alloc, value)?;
    Ok(Call::Single {
        write: SingleWrite::DeleteMany(delete),
    })
}

/// The options of a delete that answers its document, of which these are set.
fn find_delete_options(shared: SharedOptions) -> FindOneAndDeleteOptions
    ensures { result ≡ find_delete_options shared }
{
    FindOneAndDeleteOptions {
        sort: None,
        max_time: None,
        projection: None,
        collation: None,
        hint: None,
        let_vars: None,
        comment: shared.comment,
        write_concern: shared.write_concern,
    }
}

#[tactic(auto, unfolding(crate::specs::Calls::find_one_and_delete_of))]
fn find_one_and_delete(alloc: Global, value: &Json<'_, '_>) -> Result<Call, Unread>
    ensures { GivesPart result (find_one_and_delete_of (view value.now)) }
{
    let DeleteCall { parts, shared } = delete_call(alloc, value)?;
    let DeleteParts { namespace, filter } = parts;
    let options = Boxed::new(alloc, find_delete_options(shared))?;
    Ok(Call::Single {
        write: SingleWrite::FindOneAndDelete(FindAndDelete {
            namespace,
            filter,
            options,
        }),
    })
}

/// The options of an update that answers its document, of which these are set.
fn find_update_options(shared: SharedOptions) -> FindOneAndUpdateOptions
    ensures { result ≡ find_update_options shared }
{
    FindOneAndUpdateOptions {
        sort: None,
        return_document: None,
        upsert: None,
        bypass_document_validation: None,
        array_filters: None,
        max_time: None,
        projection: None,
        collation: None,
        hint: None,
        let_vars: None,
        comment: shared.comment,
        write_concern: shared.write_concern,
    }
}

#[tactic(auto, unfolding(crate::specs::Calls::find_one_and_update_of))]
fn find_one_and_update(alloc: Global, value: &Json<'_, '_>) -> Result<Call, Unread>
    ensures { GivesPart result (find_one_and_update_of (view value.now)) }
{
    if !is_object_of(value, &[NS, FILTER, UPDATE, WRITE_CONCERN, COMMENT]) {
        return Err(Unread::Wrong);
    }
    let namespace = read_needed(alloc, value, NS)?;
    let filter = read_needed(alloc, value, FILTER)?;
    let update = read_needed(alloc, value, UPDATE)?;
    let shared = read_shared(alloc, value)?;
    let options = Boxed::new(alloc, find_update_options(shared))?;
    Ok(Call::Single {
        write: SingleWrite::FindOneAndUpdate(FindAndUpdate {
            namespace,
            filter,
            update,
            options,
        }),
    })
}

/// The options of a replacement that answers the document before it, of which these are set.
fn find_replace_options(shared: SharedOptions) -> FindOneAndReplaceOptions
    ensures { result ≡ find_replace_options shared }
{
    FindOneAndReplaceOptions {
        sort: None,
        return_document: None,
        upsert: None,
        bypass_document_validation: None,
        max_time: None,
        projection: None,
        collation: None,
        hint: None,
        let_vars: None,
        comment: shared.comment,
        write_concern: shared.write_concern,
    }
}

#[tactic(auto, unfolding(crate::specs::Calls::find_one_and_replace_of))]
fn find_one_and_replace(alloc: Global, value: &Json<'_, '_>) -> Result<Call, Unread>
    ensures { GivesPart result (find_one_and_replace_of (view value.now)) }
{
    if !is_object_of(value, &[NS, FILTER, DOC, WRITE_CONCERN, COMMENT]) {
        return Err(Unread::Wrong);
    }
    let namespace = read_needed(alloc, value, NS)?;
    let filter = read_needed(alloc, value, FILTER)?;
    let replacement = read_needed(alloc, value, DOC)?;
    let shared = read_shared(alloc, value)?;
    let options = Boxed::new(alloc, find_replace_options(shared))?;
    Ok(Call::Single {
        write: SingleWrite::FindOneAndReplace(FindAndReplace {
            namespace,
            filter,
            replacement,
            options,
        }),
    })
}

/// The write that answers a document, whose parts stand under its name.
#[tactic(auto, unfolding(crate::specs::Calls::find_under))]
fn find_under(alloc: Global, name: &str, value: &Json<'_, '_>) -> Result<Call, Unread>
    ensures { GivesPart result (find_under name.now (view value.now)) }
{
    if name == FIND_ONE_AND_DELETE {
        return find_one_and_delete(alloc, value);
    }
    if name == FIND_ONE_AND_UPDATE {
        return find_one_and_update(alloc, value);
    }
    if name == FIND_ONE_AND_REPLACE {
        return find_one_and_replace(alloc, value);
    }
    Err(Unread::Wrong)
}

/// The update or replacement whose parts stand under its name, or a write that answers a document.
#[tactic(auto, unfolding(crate::specs::Calls::update_under))]
fn update_under(alloc: Global, name: &str, value: &Json<'_, '_>) -> Result<Call, Unread>
    ensures { GivesPart result (update_under name.now (view value.now)) }
{
    if name == UPDATE_ONE {
        return update_one(alloc, value);
    }
    if name == UPDATE_MANY {
        return update_many(alloc, value);
    }
    if name == REPLACE_ONE {
        return replace_one(alloc, value);
    }
    find_under(alloc, name, value)
}

/// The write of one statement whose parts stand under its name.
#[inline(always)]
#[tactic(auto, unfolding(crate::specs::Calls::write_under))]
fn write_under(alloc: Global, name: &str, value: &Json<'_, '_>) -> Result<Call, Unread>
    ensures { GivesPart result (write_under name.now (view value.now)) }
{
    if name == INSERT_ONE {
        return insert_one(alloc, value);
    }
    if name == DELETE_ONE {
        return delete_one(alloc, value);
    }
    if name == DELETE_MANY {
        return delete_many(alloc, value);
    }
    update_under(alloc, name, value)
}

/// The call whose parts stand under its name: an insert of many documents, a bulk write, or a write of one
/// statement.
#[inline(always)]
#[tactic(auto, unfolding(crate::specs::Calls::call_under))]
fn call_under(alloc: Global, name: &str, value: &Json<'_, '_>) -> Result<Call, Unread>
    ensures { GivesPart result (call_under name.now (view value.now)) }
{
    if name == INSERT_MANY {
        return insert_many(alloc, value);
    }
    if name == BULK_WRITE {
        return bulk_write(alloc, value);
    }
    write_under(alloc, name, value)
}

impl FromJson for Call {
    ghost spec = { call_of };

    #[tactic(auto, using(crate::proofs::OneKey::call_one, crate::proofs::OneKey::call_none))]
    fn read(alloc: Global, value: &Json<'_, '_>) -> Result<Call, Unread> {
        match value.only_member() {
            Some((name, inner)) => call_under(alloc, name, &inner),
            None => Err(Unread::Wrong),
        }
    }
}

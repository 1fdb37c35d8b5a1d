//! What is read of the options of a client, of the limits of a server, and of the parts of a call.
use crate::asserting::{Made, alike};
use crate::schedules::script_in;
use bson_lite::{Bson, Document, List, Namespace};
use driver_inputs::{
    Call, DeleteWrite, FindAndDelete, FindAndReplace, FindAndUpdate, InsertWrite, ReplaceWrite,
    SingleWrite, UpdateWrite,
};
use driver_link::Setup;
use driver_options::{
    Acknowledgment, ClientOptions, DeleteOptions, InsertManyOptions, ReadConcern, ReadConcernLevel,
    UpdateModifications, UpdateOptions, WriteConcern,
};
use driver_script::Script;
use std::alloc::Global;
use std::process::Abort;

/// The calls as a script writes them, in the order in which `is_call` numbers them.
const CALLS: [&str; 9] = [
    "{\"insertOne\":{\"ns\":\"shop.items.old\",\"doc\":[[\"d\",1]],\"writeConcern\":{\"w\":11},\"comment\":12}}",
    "{\"updateOne\":{\"ns\":\"shop.items.old\",\"filter\":[[\"f\",2]],\"update\":[[\"$set\",3]],\"upsert\":true,\"writeConcern\":{\"w\":11},\"comment\":12}}",
    "{\"updateMany\":{\"ns\":\"shop.items.old\",\"filter\":[[\"f\",2]],\"update\":{\"pipeline\":[[[\"$set\",3]],[]]},\"upsert\":false,\"writeConcern\":{\"w\":11},\"comment\":12}}",
    "{\"replaceOne\":{\"ns\":\"shop.items.old\",\"filter\":[[\"f\",2]],\"doc\":[[\"d\",1]],\"writeConcern\":{\"w\":11},\"comment\":12}}",
    "{\"deleteOne\":{\"ns\":[\"shop\",\"items.old\"],\"filter\":[[\"f\",2]],\"writeConcern\":{\"w\":11},\"comment\":12}}",
    "{\"deleteMany\":{\"ns\":\"shop.items.old\",\"filter\":[[\"f\",2]],\"writeConcern\":{\"w\":11},\"comment\":12}}",
    "{\"findOneAndDelete\":{\"ns\":\"shop.items.old\",\"filter\":[[\"f\",2]],\"writeConcern\":{\"w\":11},\"comment\":12}}",
    "{\"findOneAndUpdate\":{\"ns\":\"shop.items.old\",\"filter\":[[\"f\",2]],\"update\":[[\"$set\",3]],\"writeConcern\":{\"w\":11},\"comment\":12}}",
    "{\"findOneAndReplace\":{\"ns\":\"shop.items.old\",\"filter\":[[\"f\",2]],\"doc\":[[\"d\",1]],\"writeConcern\":{\"w\":11},\"comment\":12}}",
];

/// An insert of two documents as a script writes it, and what is read of `ordered`.
struct Inserts {
    call: &'static str,
    ordered: Option<bool>,
}

const INSERTS: [Inserts; 3] = [
    Inserts {
        call: "{\"insertMany\":{\"ns\":\"shop.items.old\",\"docs\":[[[\"d\",1]],[]],\"writeConcern\":{\"w\":11},\"comment\":12}}",
        ordered: None,
    },
    Inserts {
        call: "{\"insertMany\":{\"ns\":\"shop.items.old\",\"docs\":[[[\"d\",1]],[]],\"ordered\":false,\"writeConcern\":{\"w\":11},\"comment\":12}}",
        ordered: Some(false),
    },
    Inserts {
        call: "{\"insertMany\":{\"ordered\":true,\"comment\":12,\"writeConcern\":{\"w\":11},\"docs\":[[[\"d\",1]],[]],\"ns\":[\"shop\",\"items.old\"]}}",
        ordered: Some(true),
    },
];

/// The levels of read concerns that are known, and one that is not.
const LEVELS: [&str; 6] = [
    "local",
    "majority",
    "linearizable",
    "available",
    "snapshot",
    "own",
];

/// A script of limits, and what its server then says that it takes.
struct Limited {
    script: &'static str,
    bson: i64,
    message: i64,
    batch: i64,
    wire: i32,
}

const LIMITS: [Limited; 8] = [
    Limited {
        script: "{\"calls\":[]}",
        bson: 16_777_216,
        message: 48_000_000,
        batch: 100_000,
        wire: 25,
    },
    Limited {
        script: "{\"calls\":[],\"limits\":{}}",
        bson: 16_777_216,
        message: 48_000_000,
        batch: 100_000,
        wire: 25,
    },
    Limited {
        script: "{\"limits\":{\"bson\":28},\"calls\":[]}",
        bson: 28,
        message: 48_000_000,
        batch: 100_000,
        wire: 25,
    },
    Limited {
        script: "{\"calls\":[],\"limits\":{\"message\":-1}}",
        bson: 16_777_216,
        message: -1,
        batch: 100_000,
        wire: 25,
    },
    Limited {
        script: "{\"calls\":[],\"limits\":{\"batch\":0}}",
        bson: 16_777_216,
        message: 48_000_000,
        batch: 0,
        wire: 25,
    },
    Limited {
        script: "{\"calls\":[],\"limits\":{\"batch\":3,\"bson\":9223372036854775807,\"message\":-9223372036854775808}}",
        bson: 9_223_372_036_854_775_807,
        message: -9_223_372_036_854_775_808,
        batch: 3,
        wire: 25,
    },
    Limited {
        script: "{\"calls\":[],\"limits\":{\"wire\":24}}",
        bson: 16_777_216,
        message: 48_000_000,
        batch: 100_000,
        wire: 24,
    },
    Limited {
        script: "{\"limits\":{\"wire\":-2147483648,\"batch\":1},\"calls\":[]}",
        bson: 16_777_216,
        message: 48_000_000,
        batch: 1,
        wire: -2_147_483_648,
    },
];

/// Whether a document has this one field.
pub(crate) fn has_one(document: &Document, key: &str, value: i32) -> bool {
    match document.get(key) {
        Some(Bson::Int32(number)) => *number == value && document.len() == 1,
        _ => false,
    }
}

pub(crate) fn is_namespace(namespace: &Namespace) -> bool {
    namespace.db.as_str() == "shop" && namespace.coll.as_str() == "items.old"
}

/// Whether a namespace and a filter are those of the calls.
fn is_found(namespace: &Namespace, filter: &Document) -> bool {
    is_namespace(namespace) && has_one(filter, "f", 2)
}

/// Whether a write concern asks for so many servers, and for nothing else.
fn asks_for(concern: &Option<WriteConcern>, servers: u32) -> bool {
    match concern {
        Some(concern) => {
            is_number(&concern.w, servers)
                && concern.w_timeout.is_none()
                && concern.journal.is_none()
        }
        None => false,
    }
}

fn is_number(w: &Option<Acknowledgment>, servers: u32) -> bool {
    matches!(w, Some(Acknowledgment::Nodes(count)) if *count == servers)
}

/// Whether the two options are read that each write may have.
pub(crate) fn are_shared(concern: &Option<WriteConcern>, comment: &Option<Bson>) -> bool {
    asks_for(concern, 11) && matches!(comment, Some(Bson::Int32(12)))
}

/// Whether an update has its two shared options, this `upsert`, and no other option.
fn are_update_options(options: &UpdateOptions, upsert: Option<bool>) -> bool {
    are_shared(&options.write_concern, &options.comment)
        && options.upsert == upsert
        && options.array_filters.is_none()
        && options.hint.is_none()
        && options.collation.is_none()
        && options.bypass_document_validation.is_none()
        && options.let_vars.is_none()
        && options.sort.is_none()
}

/// Whether a delete has its two shared options, and no other.
fn are_delete_options(options: &DeleteOptions) -> bool {
    are_shared(&options.write_concern, &options.comment)
        && options.collation.is_none()
        && options.hint.is_none()
        && options.let_vars.is_none()
}

/// Whether an update is one document of operators.
pub(crate) fn is_document(update: &UpdateModifications) -> bool {
    match update {
        UpdateModifications::Document(document) => has_one(document, "$set", 3),
        UpdateModifications::Pipeline(_) => false,
    }
}

/// Whether an update is a pipeline of two stages.
pub(crate) fn is_pipeline(update: &UpdateModifications) -> bool {
    match update {
        UpdateModifications::Document(_) => false,
        UpdateModifications::Pipeline(stages) => match stages.as_slice() {
            [first, second] => has_one(first, "$set", 3) && second.is_empty(),
            _ => false,
        },
    }
}

/// Whether it is the insert among the calls, with all its parts as they were written.
fn is_insert(insert: &InsertWrite) -> bool {
    is_namespace(&insert.namespace)
        && has_one(&insert.document, "d", 1)
        && are_insert_options(&insert.options, None)
}

/// Whether it is the update of one document, with all its parts.
fn is_update_of_one(update: &UpdateWrite) -> bool {
    is_found(&update.namespace, &update.filter)
        && is_document(&update.update)
        && are_update_options(update.options.get(), Some(true))
}

/// Whether it is the update of all, with all its parts.
fn is_update_of_all(update: &UpdateWrite) -> bool {
    is_found(&update.namespace, &update.filter)
        && is_pipeline(&update.update)
        && are_update_options(update.options.get(), Some(false))
}

/// Whether it is the replacement, with all its parts.
fn is_replacement(replace: &ReplaceWrite) -> bool {
    is_found(&replace.namespace, &replace.filter)
        && has_one(&replace.replacement, "d", 1)
        && are_update_options(replace.options.get(), None)
}

/// Whether it is the delete of one document, or of all, with all its parts.
fn is_delete(delete: &DeleteWrite) -> bool {
    is_found(&delete.namespace, &delete.filter) && are_delete_options(delete.options.get())
}

/// Whether it is the delete that answers its document, with all its parts.
fn is_find_and_delete(find: &FindAndDelete) -> bool {
    let options = find.options.get();
    is_found(&find.namespace, &find.filter)
        && are_shared(&options.write_concern, &options.comment)
        && options.sort.is_none()
        && options.hint.is_none()
}

/// Whether it is the update that answers its document, with all its parts.
fn is_find_and_update(find: &FindAndUpdate) -> bool {
    let options = find.options.get();
    is_found(&find.namespace, &find.filter)
        && is_document(&find.update)
        && are_shared(&options.write_concern, &options.comment)
        && options.upsert.is_none()
        && options.return_document.is_none()
}

/// Whether it is the replacement that answers its document, with all its parts.
fn is_find_and_replace(find: &FindAndReplace) -> bool {
    let options = find.options.get();
    is_found(&find.namespace, &find.filter)
        && has_one(&find.replacement, "d", 1)
        && are_shared(&options.write_concern, &options.comment)
        && options.upsert.is_none()
        && options.return_document.is_none()
}

/// Whether a write is the call of this number, with all its parts as they were written.
fn is_call(write: &SingleWrite, number: usize) -> bool {
    match write {
        SingleWrite::InsertOne(insert) => number == 0 && is_insert(insert),
        SingleWrite::UpdateOne(update) => number == 1 && is_update_of_one(update),
        SingleWrite::UpdateMany(update) => number == 2 && is_update_of_all(update),
        SingleWrite::ReplaceOne(replace) => number == 3 && is_replacement(replace),
        SingleWrite::DeleteOne(delete) => number == 4 && is_delete(delete),
        SingleWrite::DeleteMany(delete) => number == 5 && is_delete(delete),
        SingleWrite::FindOneAndDelete(find) => number == 6 && is_find_and_delete(find),
        SingleWrite::FindOneAndUpdate(find) => number == 7 && is_find_and_update(find),
        SingleWrite::FindOneAndReplace(find) => number == 8 && is_find_and_replace(find),
    }
}

/// Whether an insert of many has its two shared options, this `ordered`, and no other option.
fn are_insert_options(options: &InsertManyOptions, ordered: Option<bool>) -> bool {
    are_shared(&options.write_concern, &options.comment)
        && options.ordered == ordered
        && options.bypass_document_validation.is_none()
}

/// Whether the documents are the two of the test, in their order.
fn are_documents(documents: &List<Document>) -> bool {
    match documents.as_slice() {
        [first, second] => has_one(first, "d", 1) && second.is_empty(),
        _ => false,
    }
}

/// Whether a call is the insert of many of the test, with this `ordered`.
fn is_insert_many(call: &Call, ordered: Option<bool>) -> bool {
    match call {
        Call::InsertMany {
            namespace,
            documents,
            options,
        } => {
            is_namespace(namespace)
                && are_documents(documents)
                && are_insert_options(options, ordered)
        }
        Call::Single { .. } => false,
        Call::BulkWrite { .. } => false,
    }
}

/// The script of one call.
fn script_of(rt: &impl Abort, alloc: Global, call: &str) -> Option<Script> {
    let mut text = String::new(alloc);
    text.push_str("{\"calls\":[").made(rt);
    text.push_str(call).made(rt);
    text.push_str("]}").made(rt);
    script_in(rt, alloc, text.as_str())
}

/// Whether the insert of a row is read with all its parts.
fn is_insert_read(rt: &impl Abort, alloc: Global, row: &Inserts) -> bool {
    match script_of(rt, alloc, row.call) {
        Some(script) => match script.calls.as_slice() {
            [call] => is_insert_many(call, row.ordered),
            _ => false,
        },
        None => false,
    }
}

/// Whether this call, which has this number, is read with all its parts.
fn is_read(rt: &impl Abort, alloc: Global, call: &str, number: usize) -> bool {
    match script_of(rt, alloc, call) {
        Some(script) => match script.calls.as_slice() {
            [Call::Single { write }] => is_call(write, number),
            _ => false,
        },
        None => false,
    }
}

fn is_level(concern: &ReadConcern, name: &str) -> bool {
    match &concern.level {
        ReadConcernLevel::Local => name == "local",
        ReadConcernLevel::Majority => name == "majority",
        ReadConcernLevel::Linearizable => name == "linearizable",
        ReadConcernLevel::Available => name == "available",
        ReadConcernLevel::Snapshot => name == "snapshot",
        ReadConcernLevel::Custom(text) => name == "own" && text.as_str() == "own",
    }
}

/// Whether a client's options are those of the test, with this level of read concern.
fn are_options(options: &ClientOptions, level: &str) -> bool {
    let concern = match &options.write_concern {
        Some(concern) => {
            is_number(&concern.w, 7)
                && concern.w_timeout == Some(8)
                && concern.journal == Some(true)
        }
        None => false,
    };
    let read = match &options.read_concern {
        Some(concern) => is_level(concern, level),
        None => false,
    };
    concern && read && options.retry_writes == Some(false) && options.client_number == 1
}

/// Whether the options of a client are read with this level of read concern.
fn is_level_read(rt: &impl Abort, alloc: Global, level: &str) -> bool {
    let mut text = String::new(alloc);
    text.push_str("{\"calls\":[],\"options\":{\"readConcern\":\"")
        .made(rt);
    text.push_str(level).made(rt);
    text.push_str("\",\"writeConcern\":{\"j\":true,\"wtimeout\":8,\"w\":7},\"retryWrites\":false}}")
        .made(rt);
    match script_in(rt, alloc, text.as_str()) {
        Some(script) => are_options(&script.options, level),
        None => false,
    }
}

/// Whether a server says that it takes what a row says, and is the usual one in all else.
fn is_setup(setup: &Setup, row: &Limited) -> bool {
    let description = &setup.description;
    description.max_bson_object_size == row.bson
        && description.max_message_size_bytes == row.message
        && description.max_write_batch_size == row.batch
        && description.max_wire_version == Some(row.wire)
        && description.supports_sessions
        && description.supports_retryable_writes
        && !description.sharded
        && setup.transactions
        && setup.timeout_ms == Some(1_800_000)
}

/// Whether the script of a row is read with its limits.
fn is_limited(rt: &impl Abort, alloc: Global, row: &Limited) -> bool {
    match script_in(rt, alloc, row.script) {
        Some(script) => is_setup(&script.setup, row),
        None => false,
    }
}

/// The script of the first row whose limits are not read.
fn first_unlimited(rt: &impl Abort, alloc: Global) -> Option<&'static str> {
    for row in LIMITS.iter() {
        if !is_limited(rt, alloc, row) {
            return Some(row.script);
        }
    }
    None
}

/// The first level of a read concern that is not read.
fn first_unread_level(rt: &impl Abort, alloc: Global) -> Option<&'static str> {
    for level in LEVELS.iter() {
        if !is_level_read(rt, alloc, level) {
            return Some(*level);
        }
    }
    None
}

/// The first call that is not read as what it is.
fn first_unread_call(rt: &impl Abort, alloc: Global) -> Option<&'static str> {
    for (number, call) in CALLS.iter().enumerate() {
        if !is_read(rt, alloc, call, number) {
            return Some(*call);
        }
    }
    None
}

/// The first insert of many that is not read as its row says.
fn first_unread_insert(rt: &impl Abort, alloc: Global) -> Option<&'static str> {
    for row in INSERTS.iter() {
        if !is_insert_read(rt, alloc, row) {
            return Some(row.call);
        }
    }
    None
}

#[test]
fn the_parts_of_an_insert_of_many_are_read(rt: HostRuntime) {
    let wrong = first_unread_insert(&rt, rt.alloc());
    alike(
        &rt,
        wrong,
        None,
        "an insert of many that is not read as it stands",
    );
}

#[test]
fn the_parts_of_each_call_are_read(rt: HostRuntime) {
    let wrong = first_unread_call(&rt, rt.alloc());
    alike(&rt, wrong, None, "a call that is not read as it stands");
}

#[test]
fn the_options_of_a_client_are_read(rt: HostRuntime) {
    let wrong = first_unread_level(&rt, rt.alloc());
    alike(&rt, wrong, None, "a level that is not read as it stands");
}

#[test]
fn the_limits_of_a_server_are_read(rt: HostRuntime) {
    let wrong = first_unlimited(&rt, rt.alloc());
    alike(&rt, wrong, None, "limits that are not read as they stand");
}

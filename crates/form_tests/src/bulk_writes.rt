//! Which bulk writes a script may have, and what is read of them.
use crate::asserting::{Made, alike};
use crate::forms::{AROUND_CALL, Around, first_wrong};
use crate::parts::{are_shared, has_one, is_document, is_namespace, is_pipeline};
use crate::schedules::script_in;
use driver_inputs::Call;
use driver_options::{
    BulkWriteOptions, DeleteManyModel, DeleteOneModel, InsertOneModel, ReplaceOneModel,
    UpdateManyModel, UpdateOneModel, WriteModel,
};
use driver_script::Script;
use std::alloc::Global;
use std::process::Abort;

/// Models, one or several behind one another.
const MODELS: [&str; 15] = [
    "{\"insertOne\":{\"ns\":\"a.b\",\"doc\":[]}}",
    "{\"insertOne\":{\"doc\":[[\"x\",{\"doc\":[]}]],\"ns\":[\"a\",\"b\"]}}",
    "{\"updateOne\":{\"ns\":\"a.b\",\"filter\":[],\"update\":[]}}",
    "{\"updateOne\":{\"upsert\":true,\"update\":[[\"$set\",1]],\"filter\":[[\"x\",1]],\"ns\":[\"a\",\"b.c\"]}}",
    "{\"updateOne\":{\"ns\":\"a.b\",\"filter\":[],\"update\":{\"pipeline\":[]},\"upsert\":false}}",
    "{\"updateMany\":{\"ns\":\"a.b\",\"filter\":[],\"update\":[]}}",
    "{\"updateMany\":{\"ns\":\"a.b\",\"filter\":[],\"update\":{\"pipeline\":[[],[[\"$unset\",\"x\"]]]},\"upsert\":true}}",
    "{\"replaceOne\":{\"ns\":\"a.b\",\"filter\":[],\"doc\":[]}}",
    "{\"replaceOne\":{\"ns\":\"a.b\",\"filter\":[],\"doc\":[],\"upsert\":false}}",
    "{\"deleteOne\":{\"ns\":\"a.b\",\"filter\":[]}}",
    "{\"deleteOne\":{\"filter\":[[\"x\",null]],\"ns\":[\"a\",\"\"]}}",
    "{\"deleteMany\":{\"ns\":\"a.b\",\"filter\":[]}}",
    "{\"deleteMany\":{\"ns\":[\"a.b\",\"c\"],\"filter\":[]}}",
    "{\"deleteOne\":{\"ns\":\"a.b\",\"filter\":[]}},{\"deleteOne\":{\"ns\":\"a.b\",\"filter\":[]}}",
    "{\"insertOne\":{\"ns\":\"a.b\",\"doc\":[]}},{\"updateOne\":{\"ns\":\"a.c\",\"filter\":[],\"update\":[]}},{\"updateMany\":{\"ns\":\"a.b\",\"filter\":[],\"update\":[]}},{\"replaceOne\":{\"ns\":\"a.b\",\"filter\":[],\"doc\":[]}},{\"deleteOne\":{\"ns\":\"a.b\",\"filter\":[]}},{\"deleteMany\":{\"ns\":\"b.a\",\"filter\":[]}}",
];

/// Texts that are no models, by their names and forms, and lists of which one is none.
const NO_MODELS: [&str; 22] = [
    "{}",
    "[]",
    "null",
    "1",
    "\"insertOne\"",
    "[{\"insertOne\":{\"ns\":\"a.b\",\"doc\":[]}}]",
    "{\"insertOne\":{\"ns\":\"a.b\",\"doc\":[]},\"deleteOne\":{\"ns\":\"a.b\",\"filter\":[]}}",
    "{\"deleteOne\":{\"ns\":\"a.b\",\"filter\":[]},\"deleteMany\":{\"ns\":\"a.b\",\"filter\":[]}}",
    "{\"insertOne\":{\"ns\":\"a.b\",\"doc\":[]},\"session\":1}",
    "{\"InsertOne\":{\"ns\":\"a.b\",\"doc\":[]}}",
    "{\"insert\":{\"ns\":\"a.b\",\"doc\":[]}}",
    "{\"insertMany\":{\"ns\":\"a.b\",\"docs\":[[]]}}",
    "{\"findOneAndDelete\":{\"ns\":\"a.b\",\"filter\":[]}}",
    "{\"findOneAndUpdate\":{\"ns\":\"a.b\",\"filter\":[],\"update\":[]}}",
    "{\"findOneAndReplace\":{\"ns\":\"a.b\",\"filter\":[],\"doc\":[]}}",
    "{\"bulkWrite\":{\"models\":[]}}",
    "{\"insertOne\":null}",
    "{\"updateOne\":[]}",
    "{\"deleteMany\":\"a.b\"}",
    "{\"deleteOne\":{\"ns\":\"a.b\",\"filter\":[]}},{}",
    "{\"deleteOne\":{\"ns\":\"a.b\"}},{\"deleteOne\":{\"ns\":\"a.b\",\"filter\":[]}}",
    "{\"insertOne\":{\"ns\":\"a.b\",\"doc\":[]}},{\"findOneAndDelete\":{\"ns\":\"a.b\",\"filter\":[]}}",
];

/// Models that lack a part.
const LACKING_MODELS: [&str; 17] = [
    "{\"insertOne\":{\"ns\":\"a.b\"}}",
    "{\"insertOne\":{\"doc\":[]}}",
    "{\"insertOne\":{}}",
    "{\"updateOne\":{\"filter\":[],\"update\":[]}}",
    "{\"updateOne\":{\"ns\":\"a.b\",\"update\":[]}}",
    "{\"updateOne\":{\"ns\":\"a.b\",\"filter\":[]}}",
    "{\"updateMany\":{\"filter\":[],\"update\":[]}}",
    "{\"updateMany\":{\"ns\":\"a.b\",\"update\":[]}}",
    "{\"updateMany\":{\"ns\":\"a.b\",\"filter\":[]}}",
    "{\"replaceOne\":{\"filter\":[],\"doc\":[]}}",
    "{\"replaceOne\":{\"ns\":\"a.b\",\"doc\":[]}}",
    "{\"replaceOne\":{\"ns\":\"a.b\",\"filter\":[]}}",
    "{\"deleteOne\":{\"filter\":[]}}",
    "{\"deleteOne\":{\"ns\":\"a.b\"}}",
    "{\"deleteOne\":{}}",
    "{\"deleteMany\":{\"filter\":[]}}",
    "{\"deleteMany\":{\"ns\":\"a.b\"}}",
];

/// Models with parts that they do not have, such as those of calls.
const OTHER_MODELS: [&str; 33] = [
    "{\"insertOne\":{\"ns\":\"a.b\",\"doc\":[],\"upsert\":true}}",
    "{\"insertOne\":{\"ns\":\"a.b\",\"doc\":[],\"ordered\":true}}",
    "{\"insertOne\":{\"ns\":\"a.b\",\"doc\":[],\"docs\":[]}}",
    "{\"insertOne\":{\"ns\":\"a.b\",\"doc\":[],\"filter\":[]}}",
    "{\"updateOne\":{\"ns\":\"a.b\",\"filter\":[],\"update\":[],\"multi\":true}}",
    "{\"updateOne\":{\"ns\":\"a.b\",\"filter\":[],\"update\":[],\"doc\":[]}}",
    "{\"updateOne\":{\"ns\":\"a.b\",\"filter\":[],\"update\":[],\"arrayFilters\":[]}}",
    "{\"updateOne\":{\"ns\":\"a.b\",\"filter\":[],\"update\":[],\"hint\":\"x\"}}",
    "{\"updateMany\":{\"ns\":\"a.b\",\"filter\":[],\"update\":[],\"sort\":[]}}",
    "{\"updateMany\":{\"ns\":\"a.b\",\"filter\":[],\"update\":[],\"collation\":[]}}",
    "{\"replaceOne\":{\"ns\":\"a.b\",\"filter\":[],\"doc\":[],\"update\":[]}}",
    "{\"replaceOne\":{\"ns\":\"a.b\",\"filter\":[],\"doc\":[],\"replacement\":[]}}",
    "{\"deleteOne\":{\"ns\":\"a.b\",\"filter\":[],\"upsert\":false}}",
    "{\"deleteOne\":{\"ns\":\"a.b\",\"filter\":[],\"limit\":1}}",
    "{\"deleteMany\":{\"ns\":\"a.b\",\"filter\":[],\"update\":[]}}",
    "{\"insertOne\":{\"ns\":\"a.b\",\"doc\":[],\"session\":1}}",
    "{\"insertOne\":{\"ns\":\"a.b\",\"doc\":[],\"writeConcern\":{}}}",
    "{\"insertOne\":{\"ns\":\"a.b\",\"doc\":[],\"comment\":null}}",
    "{\"updateOne\":{\"ns\":\"a.b\",\"filter\":[],\"update\":[],\"session\":1}}",
    "{\"updateOne\":{\"ns\":\"a.b\",\"filter\":[],\"update\":[],\"writeConcern\":{\"w\":1}}}",
    "{\"updateOne\":{\"ns\":\"a.b\",\"filter\":[],\"update\":[],\"comment\":\"x\"}}",
    "{\"updateMany\":{\"ns\":\"a.b\",\"filter\":[],\"update\":[],\"session\":1}}",
    "{\"updateMany\":{\"ns\":\"a.b\",\"filter\":[],\"update\":[],\"writeConcern\":{}}}",
    "{\"updateMany\":{\"ns\":\"a.b\",\"filter\":[],\"update\":[],\"comment\":1}}",
    "{\"replaceOne\":{\"ns\":\"a.b\",\"filter\":[],\"doc\":[],\"session\":1}}",
    "{\"replaceOne\":{\"ns\":\"a.b\",\"filter\":[],\"doc\":[],\"writeConcern\":{}}}",
    "{\"replaceOne\":{\"ns\":\"a.b\",\"filter\":[],\"doc\":[],\"comment\":1}}",
    "{\"deleteOne\":{\"ns\":\"a.b\",\"filter\":[],\"session\":1}}",
    "{\"deleteOne\":{\"ns\":\"a.b\",\"filter\":[],\"writeConcern\":{}}}",
    "{\"deleteOne\":{\"ns\":\"a.b\",\"filter\":[],\"comment\":1}}",
    "{\"deleteMany\":{\"ns\":\"a.b\",\"filter\":[],\"session\":1}}",
    "{\"deleteMany\":{\"ns\":\"a.b\",\"filter\":[],\"writeConcern\":{}}}",
    "{\"deleteMany\":{\"ns\":\"a.b\",\"filter\":[],\"comment\":1}}",
];

/// Models with a part of another form.
const ODD_MODELS: [&str; 16] = [
    "{\"insertOne\":{\"ns\":\"ab\",\"doc\":[]}}",
    "{\"insertOne\":{\"ns\":[\"a\"],\"doc\":[]}}",
    "{\"insertOne\":{\"ns\":null,\"doc\":[]}}",
    "{\"insertOne\":{\"ns\":\"a.b\",\"doc\":{}}}",
    "{\"insertOne\":{\"ns\":\"a.b\",\"doc\":null}}",
    "{\"insertOne\":{\"ns\":\"a.b\",\"doc\":[[\"x\"]]}}",
    "{\"updateOne\":{\"ns\":\"a.b\",\"filter\":{},\"update\":[]}}",
    "{\"updateOne\":{\"ns\":\"a.b\",\"filter\":[],\"update\":null}}",
    "{\"updateOne\":{\"ns\":\"a.b\",\"filter\":[],\"update\":{}}}",
    "{\"updateOne\":{\"ns\":\"a.b\",\"filter\":[],\"update\":{\"pipeline\":[{}]}}}",
    "{\"updateOne\":{\"ns\":\"a.b\",\"filter\":[],\"update\":[],\"upsert\":null}}",
    "{\"updateMany\":{\"ns\":\"a.b\",\"filter\":[],\"update\":[],\"upsert\":1}}",
    "{\"replaceOne\":{\"ns\":\"a.b\",\"filter\":[],\"doc\":{\"pipeline\":[]}}}",
    "{\"replaceOne\":{\"ns\":\"a.b\",\"filter\":[],\"doc\":[],\"upsert\":\"true\"}}",
    "{\"deleteOne\":{\"ns\":\"a.b\",\"filter\":null}}",
    "{\"deleteMany\":{\"ns\":1,\"filter\":[]}}",
];

/// Calls, of no model too.
const CALLS: [&str; 11] = [
    "{\"bulkWrite\":{\"models\":[]}}",
    "{\"bulkWrite\":{\"models\":[{\"deleteOne\":{\"ns\":\"a.b\",\"filter\":[]}}]}}",
    "{\"bulkWrite\":{\"models\":[],\"ordered\":true}}",
    "{\"bulkWrite\":{\"models\":[{\"deleteOne\":{\"ns\":\"a.b\",\"filter\":[]}}],\"ordered\":false}}",
    "{\"bulkWrite\":{\"models\":[],\"verbose\":true}}",
    "{\"bulkWrite\":{\"models\":[{\"deleteOne\":{\"ns\":\"a.b\",\"filter\":[]}}],\"verbose\":false}}",
    "{\"bulkWrite\":{\"models\":[{\"deleteOne\":{\"ns\":\"a.b\",\"filter\":[]}}],\"writeConcern\":{}}}",
    "{\"bulkWrite\":{\"models\":[{\"deleteOne\":{\"ns\":\"a.b\",\"filter\":[]}}],\"writeConcern\":{\"w\":\"majority\",\"wtimeout\":1,\"j\":true}}}",
    "{\"bulkWrite\":{\"models\":[{\"deleteOne\":{\"ns\":\"a.b\",\"filter\":[]}}],\"comment\":null}}",
    "{\"bulkWrite\":{\"models\":[{\"deleteOne\":{\"ns\":\"a.b\",\"filter\":[]}}],\"comment\":{\"array\":[1]}}}",
    "{\"bulkWrite\":{\"comment\":1,\"writeConcern\":{\"w\":1},\"verbose\":true,\"ordered\":false,\"models\":[{\"deleteOne\":{\"ns\":\"a.b\",\"filter\":[]}}]}}",
];

const NO_CALLS: [&str; 37] = [
    "{\"bulkWrite\":[]}",
    "{\"bulkWrite\":null}",
    "{\"bulkWrite\":[{\"deleteOne\":{\"ns\":\"a.b\",\"filter\":[]}}]}",
    "{\"bulkWrite\":{}}",
    "{\"bulkWrite\":{\"ordered\":true}}",
    "{\"bulkWrite\":{\"verbose\":true}}",
    "{\"BulkWrite\":{\"models\":[]}}",
    "{\"bulkwrite\":{\"models\":[]}}",
    "{\"bulkWrite\":{\"models\":[]},\"deleteOne\":{\"ns\":\"a.b\",\"filter\":[]}}",
    "{\"bulkWrite\":{\"models\":{}}}",
    "{\"bulkWrite\":{\"models\":null}}",
    "{\"bulkWrite\":{\"models\":1}}",
    "{\"bulkWrite\":{\"models\":\"deleteOne\"}}",
    "{\"bulkWrite\":{\"models\":{\"deleteOne\":{\"ns\":\"a.b\",\"filter\":[]}}}}",
    "{\"bulkWrite\":{\"models\":[[]]}}",
    "{\"bulkWrite\":{\"models\":[null]}}",
    "{\"bulkWrite\":{\"Models\":[]}}",
    "{\"bulkWrite\":{\"models\":[{\"deleteOne\":{\"ns\":\"a.b\",\"filter\":[]}}],\"docs\":[]}}",
    "{\"bulkWrite\":{\"models\":[],\"ordered\":null}}",
    "{\"bulkWrite\":{\"models\":[],\"ordered\":1}}",
    "{\"bulkWrite\":{\"models\":[],\"ordered\":\"false\"}}",
    "{\"bulkWrite\":{\"models\":[],\"verbose\":null}}",
    "{\"bulkWrite\":{\"models\":[],\"verbose\":1}}",
    "{\"bulkWrite\":{\"models\":[],\"verbose\":\"true\"}}",
    "{\"bulkWrite\":{\"models\":[],\"verbose\":[]}}",
    "{\"bulkWrite\":{\"models\":[],\"verbose\":{}}}",
    "{\"bulkWrite\":{\"models\":[],\"session\":1}}",
    "{\"bulkWrite\":{\"models\":[],\"ns\":\"a.b\"}}",
    "{\"bulkWrite\":{\"models\":[],\"upsert\":true}}",
    "{\"bulkWrite\":{\"models\":[],\"let\":[]}}",
    "{\"bulkWrite\":{\"models\":[],\"bypassDocumentValidation\":true}}",
    "{\"bulkWrite\":{\"models\":[],\"batchSize\":1}}",
    "{\"bulkWrite\":{\"models\":[],\"writeConcern\":null}}",
    "{\"bulkWrite\":{\"models\":[],\"writeConcern\":1}}",
    "{\"bulkWrite\":{\"models\":[],\"writeConcern\":{\"w\":-1}}}",
    "{\"bulkWrite\":{\"models\":[],\"comment\":[]}}",
    "{\"bulkWrite\":{\"models\":[],\"comment\":1.5}}",
];

/// A script of one bulk write of these models.
const AROUND_MODELS: Around = Around {
    before: "{\"calls\":[{\"bulkWrite\":{\"models\":[",
    behind: "]}}]}",
};

/// The six models, one of each.
const SIX: &str =
    "{\"insertOne\":{\"ns\":\"shop.items.old\",\"doc\":[[\"d\",1]]}},{\"updateOne\":{\"ns\":\"shop.items.old\",\"filter\":[[\"f\",2]],\"update\":[[\"$set\",3]],\"upsert\":true}},{\"updateMany\":{\"ns\":[\"shop\",\"items.old\"],\"filter\":[[\"f\",2]],\"update\":{\"pipeline\":[[[\"$set\",3]],[]]},\"upsert\":false}},{\"replaceOne\":{\"ns\":\"shop.items.old\",\"filter\":[[\"f\",2]],\"doc\":[[\"d\",1]]}},{\"deleteOne\":{\"ns\":\"shop.items.old\",\"filter\":[[\"f\",2]]}},{\"deleteMany\":{\"ns\":\"shop.items.old\",\"filter\":[[\"f\",2]]}}";

/// What stands beside the models, and what is read of it.
struct Manner {
    text: &'static str,
    ordered: Option<bool>,
    verbose: bool,
}

const MANNERS: [Manner; 6] = [
    Manner {
        text: "",
        ordered: None,
        verbose: false,
    },
    Manner {
        text: ",\"ordered\":true",
        ordered: Some(true),
        verbose: false,
    },
    Manner {
        text: ",\"ordered\":false",
        ordered: Some(false),
        verbose: false,
    },
    Manner {
        text: ",\"verbose\":true",
        ordered: None,
        verbose: true,
    },
    Manner {
        text: ",\"verbose\":false",
        ordered: None,
        verbose: false,
    },
    Manner {
        text: ",\"verbose\":true,\"ordered\":false",
        ordered: Some(false),
        verbose: true,
    },
];

fn is_insert_one(model: &InsertOneModel) -> bool {
    is_namespace(&model.namespace) && has_one(&model.document, "d", 1)
}

fn is_update_one(model: &UpdateOneModel) -> bool {
    is_namespace(&model.namespace)
        && has_one(&model.filter, "f", 2)
        && is_document(&model.update)
        && model.upsert == Some(true)
        && model.array_filters.is_none()
        && model.collation.is_none()
        && model.hint.is_none()
        && model.sort.is_none()
}

fn is_update_many(model: &UpdateManyModel) -> bool {
    is_namespace(&model.namespace)
        && has_one(&model.filter, "f", 2)
        && is_pipeline(&model.update)
        && model.upsert == Some(false)
        && model.array_filters.is_none()
        && model.collation.is_none()
        && model.hint.is_none()
}

fn is_replace_one(model: &ReplaceOneModel) -> bool {
    is_namespace(&model.namespace)
        && has_one(&model.filter, "f", 2)
        && has_one(&model.replacement, "d", 1)
        && model.upsert.is_none()
        && model.collation.is_none()
        && model.hint.is_none()
        && model.sort.is_none()
}

fn is_delete_one(model: &DeleteOneModel) -> bool {
    is_namespace(&model.namespace)
        && has_one(&model.filter, "f", 2)
        && model.collation.is_none()
        && model.hint.is_none()
}

fn is_delete_many(model: &DeleteManyModel) -> bool {
    is_namespace(&model.namespace)
        && has_one(&model.filter, "f", 2)
        && model.collation.is_none()
        && model.hint.is_none()
}

/// Whether the models are the six, in their order, with all their parts as they were written.
fn are_six(models: &[WriteModel]) -> bool {
    match models {
        [
            WriteModel::InsertOne(insert_one),
            WriteModel::UpdateOne(update_one),
            WriteModel::UpdateMany(update_many),
            WriteModel::ReplaceOne(replace_one),
            WriteModel::DeleteOne(delete_one),
            WriteModel::DeleteMany(delete_many),
        ] => {
            is_insert_one(insert_one)
                && is_update_one(update_one)
                && is_update_many(update_many)
                && is_replace_one(replace_one)
                && is_delete_one(delete_one)
                && is_delete_many(delete_many)
        }
        _ => false,
    }
}

/// Whether a bulk write has its two shared options, this `ordered`, and no other option.
fn are_bulk_options(options: &BulkWriteOptions, ordered: Option<bool>) -> bool {
    are_shared(&options.write_concern, &options.comment)
        && options.ordered == ordered
        && options.bypass_document_validation.is_none()
        && options.let_vars.is_none()
}

/// Whether a call is the bulk write of the six models, made so.
fn is_bulk_write(call: &Call, manner: &Manner) -> bool {
    match call {
        Call::BulkWrite {
            models,
            options,
            verbose,
        } => {
            are_six(models.as_slice())
                && are_bulk_options(options, manner.ordered)
                && *verbose == manner.verbose
        }
        Call::Single { .. } => false,
        Call::InsertMany { .. } => false,
    }
}

/// The script of the bulk write of the six models, made so.
fn script_of(rt: &impl Abort, alloc: Global, manner: &Manner) -> Option<Script> {
    let mut text = String::new(alloc);
    text.push_str("{\"calls\":[{\"bulkWrite\":{\"models\":[")
        .made(rt);
    text.push_str(SIX).made(rt);
    text.push_str("],\"writeConcern\":{\"w\":11},\"comment\":12")
        .made(rt);
    text.push_str(manner.text).made(rt);
    text.push_str("}}]}").made(rt);
    script_in(rt, alloc, text.as_str())
}

/// Whether it is read with all its parts.
fn is_read(rt: &impl Abort, alloc: Global, manner: &Manner) -> bool {
    match script_of(rt, alloc, manner) {
        Some(script) => match script.calls.as_slice() {
            [call] => is_bulk_write(call, manner),
            _ => false,
        },
        None => false,
    }
}

/// The first way to make it that is not read.
fn first_unread(rt: &impl Abort, alloc: Global) -> Option<&'static str> {
    for manner in MANNERS.iter() {
        if !is_read(rt, alloc, manner) {
            return Some(manner.text);
        }
    }
    None
}

#[test]
fn models_are_read(rt: HostRuntime) {
    let wrong = first_wrong(&rt, rt.alloc(), &MODELS, &AROUND_MODELS, true);
    alike(&rt, wrong, None, "a model that is not read");
}

#[test]
fn other_models_are_refused(rt: HostRuntime) {
    let wrong = first_wrong(&rt, rt.alloc(), &NO_MODELS, &AROUND_MODELS, false);
    alike(&rt, wrong, None, "no model, and not refused as it must be");
    let wrong = first_wrong(&rt, rt.alloc(), &LACKING_MODELS, &AROUND_MODELS, false);
    alike(
        &rt,
        wrong,
        None,
        "a model that lacks a part, and not refused as it must be",
    );
    let wrong = first_wrong(&rt, rt.alloc(), &OTHER_MODELS, &AROUND_MODELS, false);
    alike(
        &rt,
        wrong,
        None,
        "a model with a part of calls, and not refused as it must be",
    );
    let wrong = first_wrong(&rt, rt.alloc(), &ODD_MODELS, &AROUND_MODELS, false);
    alike(
        &rt,
        wrong,
        None,
        "a model with an odd part, and not refused as it must be",
    );
}

#[test]
fn bulk_writes_are_read(rt: HostRuntime) {
    let wrong = first_wrong(&rt, rt.alloc(), &CALLS, &AROUND_CALL, true);
    alike(&rt, wrong, None, "a bulk write that is not read");
}

#[test]
fn other_bulk_writes_are_refused(rt: HostRuntime) {
    let wrong = first_wrong(&rt, rt.alloc(), &NO_CALLS, &AROUND_CALL, false);
    alike(
        &rt,
        wrong,
        None,
        "no bulk write, and not refused as it must be",
    );
}

#[test]
fn the_parts_of_a_bulk_write_are_read(rt: HostRuntime) {
    let wrong = first_unread(&rt, rt.alloc());
    alike(
        &rt,
        wrong,
        None,
        "a bulk write whose parts are not read as they stand",
    );
}

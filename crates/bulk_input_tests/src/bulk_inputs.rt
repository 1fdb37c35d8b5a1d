//! What bulk writes are refused for by their input, test by test over all models, and which ids are drawn; what models
//! tell, and those that a collection makes.
use crate::asserting::{Made, holds, holds_at};
use bson_lite::{Bson, Document, List};
use bulk_actions::{CollectionModels, bulk_ops};
use bulk_fronts::OwnOp;
use driver_attempt::Client;
use driver_error::{Error, ErrorKind};
use driver_ops::Collection;
use driver_options::{
    BulkWriteOptions, ClientOptions, DeleteManyModel, DeleteOneModel, InsertOneModel,
    OperationType, ReplaceOneModel, UpdateManyModel, UpdateModifications, UpdateOneModel,
    WriteModel,
};
use driver_session::PlainStore;
use memory_links::CountingIds;
use std::alloc::Global;
use std::process::Abort;
use test_parts::bulk_ends::let_go;
use test_parts::bulk_models::{around, insert, named, number, six};
use test_parts::inserting::{Ended, how_ended};
use test_parts::writes::{Flaw, flawed};

/// A model of a row.
#[derive(Clone, Copy)]
enum Given {
    /// The insert of `{x: 1}`.
    Plain,
    /// The insert of `{_id: 7}`.
    Named,
    /// The insert of `{x: 1}` into the database `a.b`.
    Dotted,
    /// A delete in the database `c.d`.
    AlsoDotted,
    /// An update by `{y: 2}`.
    PlainUpdate,
    /// The same of all documents found.
    PlainUpdates,
    /// An update by the one stage `{y: 2}`, which is not judged by its key.
    Stage,
    /// A replacement by `{$set: 2}`.
    Operators,
    /// An insert of a document with a flaw.
    Document(Flaw),
    /// A delete of what a filter with a flaw finds.
    Filter(Flaw),
    /// A delete with a hint that has a flaw.
    Hint(Flaw),
    /// An update with a flaw in a value of its array filters.
    ArrayFilter(Flaw),
    /// A delete of all with a collation that has a flaw.
    Collation(Flaw),
    /// A replacement with a sort that has a flaw.
    Sort(Flaw),
    /// A replacement by a document with a flaw.
    Replacement(Flaw),
    /// An update by a pipeline whose second stage has a flaw.
    LaterStage(Flaw),
    /// An update of all documents that a filter with a flaw finds.
    FilterOfAll(Flaw),
    /// An update of all with a flaw in what `$set` sets.
    SetInAll(Flaw),
    /// An update of all with a hint that has a flaw.
    HintOfAll(Flaw),
}

/// An option of a bulk write that has a flaw.
#[derive(Clone, Copy)]
enum Set {
    LetVars,
    Comment,
}

/// The models of a bulk write, and how it ends: with its ops, or refused.
const ROWS: &[(&[Given], Ended)] = &[
    (&[], Ended::NoModels),
    (&[Given::Plain], Ended::Done),
    (&[Given::Plain, Given::Dotted], Ended::Dotted),
    (&[Given::PlainUpdate, Given::Dotted], Ended::Dotted),
    (&[Given::Operators, Given::PlainUpdate], Ended::PlainUpdate),
    (&[Given::Operators, Given::PlainUpdates], Ended::PlainUpdate),
    (
        &[Given::Stage, Given::Operators],
        Ended::OperatorReplacement,
    ),
    (&[Given::Stage], Ended::Done),
    (
        &[Given::Document(Flaw::Levels(97)), Given::Operators],
        Ended::OperatorReplacement,
    ),
    (&[Given::Document(Flaw::Levels(96))], Ended::Done),
    (&[Given::Document(Flaw::Levels(97))], Ended::TooDeep),
    (
        &[
            Given::Document(Flaw::ZeroByte),
            Given::Filter(Flaw::Levels(97)),
        ],
        Ended::TooDeep,
    ),
    (
        &[Given::Plain, Given::Filter(Flaw::ZeroByte)],
        Ended::ZeroByte,
    ),
    (&[Given::Filter(Flaw::Levels(96))], Ended::Done),
    (&[Given::Hint(Flaw::Levels(97))], Ended::TooDeep),
    (&[Given::Hint(Flaw::ZeroByte)], Ended::ZeroByte),
    (&[Given::ArrayFilter(Flaw::Levels(96))], Ended::Done),
    (&[Given::ArrayFilter(Flaw::Levels(97))], Ended::TooDeep),
    (&[Given::Collation(Flaw::ZeroByte)], Ended::ZeroByte),
    (&[Given::Sort(Flaw::Levels(97))], Ended::TooDeep),
    (&[Given::Replacement(Flaw::Levels(96))], Ended::Done),
    (&[Given::Replacement(Flaw::Levels(97))], Ended::TooDeep),
    (&[Given::LaterStage(Flaw::Levels(96))], Ended::Done),
    (&[Given::LaterStage(Flaw::Levels(97))], Ended::TooDeep),
    (&[Given::LaterStage(Flaw::ZeroByte)], Ended::ZeroByte),
    (&[Given::FilterOfAll(Flaw::Levels(96))], Ended::Done),
    (&[Given::FilterOfAll(Flaw::Levels(97))], Ended::TooDeep),
    // What is set stands one level deep in the update.
    (&[Given::SetInAll(Flaw::Levels(95))], Ended::Done),
    (&[Given::SetInAll(Flaw::Levels(96))], Ended::TooDeep),
    (&[Given::HintOfAll(Flaw::ZeroByte)], Ended::ZeroByte),
];

/// Models of which some name a database with a dot, and the message about the first of these.
const DOTTED: &[(&[Given], &str)] = &[
    (
        &[Given::Plain, Given::Dotted, Given::AlsoDotted],
        "invalid database name a.b: name cannot contain period",
    ),
    (
        &[Given::Plain, Given::AlsoDotted, Given::Dotted],
        "invalid database name c.d: name cannot contain period",
    ),
];

/// The option of a bulk write that has this flaw, its model, and how it ends.
const OPTIONS: &[(Set, Flaw, Given, Ended)] = &[
    (Set::LetVars, Flaw::Levels(96), Given::Plain, Ended::Done),
    (Set::LetVars, Flaw::Levels(97), Given::Plain, Ended::TooDeep),
    (Set::LetVars, Flaw::ZeroByte, Given::Plain, Ended::ZeroByte),
    (Set::Comment, Flaw::Levels(96), Given::Plain, Ended::Done),
    (Set::Comment, Flaw::Levels(97), Given::Plain, Ended::TooDeep),
    (Set::Comment, Flaw::ZeroByte, Given::Plain, Ended::ZeroByte),
    // A wrong replacement comes first.
    (
        Set::LetVars,
        Flaw::Levels(97),
        Given::Operators,
        Ended::OperatorReplacement,
    ),
    // Depth comes before a zero byte, of whichever it is.
    (
        Set::LetVars,
        Flaw::Levels(97),
        Given::Document(Flaw::ZeroByte),
        Ended::TooDeep,
    ),
    (
        Set::Comment,
        Flaw::ZeroByte,
        Given::Filter(Flaw::Levels(97)),
        Ended::TooDeep,
    ),
];

/// What a model tells: whether it is of all documents found, what it does, and its database and collection.
#[derive(Clone, Copy)]
struct Told(Option<bool>, OperationType, &'static str, &'static str);

/// What the six models tell. An insert finds none, and a replacement is an update.
const TOLD: &[Told] = &[
    Told(None, OperationType::Insert, "a", "x"),
    Told(Some(false), OperationType::Update, "b", "y"),
    Told(Some(true), OperationType::Update, "a", "x"),
    Told(Some(false), OperationType::Update, "a", "z"),
    Told(Some(false), OperationType::Delete, "b", "y"),
    Told(Some(true), OperationType::Delete, "a", "z"),
];

/// Inserts of which the second alone has an id, and a delete between the others.
const MIXED: &[Given] = &[
    Given::Plain,
    Given::Named,
    Given::Filter(Flaw::Levels(1)),
    Given::Plain,
];

/// A document with an operator as its first key, or without one.
fn change(rt: &impl Abort, alloc: Global, operator: bool) -> Document {
    number(alloc, if operator { "$set" } else { "y" }, 2).made(rt)
}

/// The insert of a document into `items`.
fn into(rt: &impl Abort, alloc: Global, db: &str, document: Document) -> WriteModel {
    let to = named(alloc, db, "items").made(rt);
    insert(alloc, to, document)
}

/// An update of one document by this.
fn update(rt: &impl Abort, alloc: Global, modifications: UpdateModifications) -> UpdateOneModel {
    let to = named(alloc, "shop", "items").made(rt);
    UpdateOneModel::new(to, Document::new(alloc), modifications)
}

/// An update of all documents that a filter finds, by a document.
fn update_all(
    rt: &impl Abort,
    alloc: Global,
    filter: Document,
    change: Document,
) -> UpdateManyModel {
    let to = named(alloc, "shop", "items").made(rt);
    UpdateManyModel::new(to, filter, UpdateModifications::from(change))
}

/// An update of all documents by a document.
fn updated_all(rt: &impl Abort, alloc: Global, change: Document) -> WriteModel {
    WriteModel::from(update_all(rt, alloc, Document::new(alloc), change))
}

/// An update of all documents with a hint.
fn hinted_in_all(rt: &impl Abort, alloc: Global, hint: Document) -> WriteModel {
    let change = change(rt, alloc, true);
    let model = update_all(rt, alloc, Document::new(alloc), change);
    WriteModel::from(model.hint(Bson::Document(hint)))
}

/// An update by a pipeline of one stage.
fn staged(rt: &impl Abort, alloc: Global) -> WriteModel {
    let mut stages = List::new(alloc);
    stages.push(change(rt, alloc, false)).made(rt);
    WriteModel::from(update(rt, alloc, UpdateModifications::from(stages)))
}

/// An update by a pipeline with a second stage.
fn staged_twice(rt: &impl Abort, alloc: Global, second: Document) -> WriteModel {
    let mut stages = List::new(alloc);
    stages.push(change(rt, alloc, false)).made(rt);
    stages.push(second).made(rt);
    WriteModel::from(update(rt, alloc, UpdateModifications::from(stages)))
}

/// An update with a value in its array filters.
fn filtered(rt: &impl Abort, alloc: Global, value: Document) -> WriteModel {
    let mut values = List::new(alloc);
    values.push(Bson::Document(value)).made(rt);
    let modifications = UpdateModifications::from(change(rt, alloc, true));
    WriteModel::from(update(rt, alloc, modifications).array_filters(values))
}

/// A replacement by a document.
fn replacement(rt: &impl Abort, alloc: Global, document: Document) -> ReplaceOneModel {
    let to = named(alloc, "shop", "items").made(rt);
    ReplaceOneModel::new(to, Document::new(alloc), document)
}

/// A replacement with a sort.
fn sorted(rt: &impl Abort, alloc: Global, sort: Document) -> WriteModel {
    let document = change(rt, alloc, false);
    WriteModel::from(replacement(rt, alloc, document).sort(sort))
}

/// A delete of one document that a filter finds in a database.
fn delete(rt: &impl Abort, alloc: Global, db: &str, filter: Document) -> DeleteOneModel {
    let to = named(alloc, db, "items").made(rt);
    DeleteOneModel::new(to, filter)
}

/// A delete with a hint.
fn hinted(rt: &impl Abort, alloc: Global, hint: Document) -> WriteModel {
    let model = delete(rt, alloc, "shop", Document::new(alloc));
    WriteModel::from(model.hint(Bson::Document(hint)))
}

/// A delete of all documents with a collation.
fn collated(rt: &impl Abort, alloc: Global, collation: Document) -> WriteModel {
    let to = named(alloc, "shop", "items").made(rt);
    let model = DeleteManyModel::new(to, Document::new(alloc));
    WriteModel::from(model.collation(collation))
}

/// A model of a row.
fn model_of(rt: &impl Abort, alloc: Global, given: Given) -> WriteModel {
    match given {
        Given::Plain => into(rt, alloc, "shop", number(alloc, "x", 1).made(rt)),
        Given::Named => into(rt, alloc, "shop", number(alloc, "_id", 7).made(rt)),
        Given::Dotted => into(rt, alloc, "a.b", number(alloc, "x", 1).made(rt)),
        Given::AlsoDotted => WriteModel::from(delete(rt, alloc, "c.d", Document::new(alloc))),
        Given::PlainUpdate => {
            let change = change(rt, alloc, false);
            WriteModel::from(update(rt, alloc, UpdateModifications::from(change)))
        }
        Given::PlainUpdates => updated_all(rt, alloc, change(rt, alloc, false)),
        Given::Stage => staged(rt, alloc),
        Given::Operators => { WriteModel::from(replacement(rt, alloc, change(rt, alloc, true))) }
        Given::Document(flaw) => into(rt, alloc, "shop", flawed(alloc, flaw).made(rt)),
        Given::Filter(flaw) => {
            WriteModel::from(delete(rt, alloc, "shop", flawed(alloc, flaw).made(rt)))
        }
        Given::Hint(flaw) => hinted(rt, alloc, flawed(alloc, flaw).made(rt)),
        Given::ArrayFilter(flaw) => filtered(rt, alloc, flawed(alloc, flaw).made(rt)),
        Given::Collation(flaw) => collated(rt, alloc, flawed(alloc, flaw).made(rt)),
        Given::Sort(flaw) => sorted(rt, alloc, flawed(alloc, flaw).made(rt)),
        Given::Replacement(flaw) => {
            WriteModel::from(replacement(rt, alloc, flawed(alloc, flaw).made(rt)))
        }
        Given::LaterStage(flaw) => staged_twice(rt, alloc, flawed(alloc, flaw).made(rt)),
        Given::FilterOfAll(flaw) => {
            let filter = flawed(alloc, flaw).made(rt);
            WriteModel::from(update_all(rt, alloc, filter, change(rt, alloc, true)))
        }
        Given::SetInAll(flaw) => updated_all(
            rt,
            alloc,
            around(alloc, "$set", flawed(alloc, flaw).made(rt)).made(rt),
        ),
        Given::HintOfAll(flaw) => hinted_in_all(rt, alloc, flawed(alloc, flaw).made(rt)),
    }
}

/// Options of a bulk write, with these of them alone.
fn options_of(let_vars: Option<Document>, comment: Option<Bson>) -> BulkWriteOptions {
    BulkWriteOptions {
        ordered: None,
        bypass_document_validation: None,
        comment,
        write_concern: None,
        let_vars,
    }
}

/// The options of a bulk write of which one has a flaw.
fn options_with(rt: &impl Abort, alloc: Global, set: Set, flaw: Flaw) -> BulkWriteOptions {
    let document = flawed(alloc, flaw).made(rt);
    match set {
        Set::LetVars => options_of(Some(document), None),
        Set::Comment => options_of(None, Some(Bson::Document(document))),
    }
}

/// The models of a row.
fn models_of(rt: &impl Abort, alloc: Global, row: &[Given]) -> List<WriteModel> {
    let mut models = List::with_capacity(alloc, row.len()).made(rt);
    for given in row {
        models.push(model_of(rt, alloc, *given)).made(rt);
    }
    models
}

/// A new client whose store counts ids from 1.
fn client(alloc: Global) -> Client<PlainStore<CountingIds>> {
    Client::new(
        ClientOptions::default(),
        PlainStore::new(alloc, CountingIds::new()),
    )
}

/// Whether the next id that a client draws is this one.
fn draws(client: &mut Client<PlainStore<CountingIds>>, id: u8) -> bool {
    client.object_id().bytes[11] == id
}

/// Whether a bulk write ends so, and nothing was drawn where it was refused.
fn ends(
    rt: &impl Abort,
    alloc: Global,
    row: &[Given],
    options: &BulkWriteOptions,
    ended: Ended,
) -> bool {
    let models = models_of(rt, alloc, row);
    let mut client = client(alloc);
    let same = match bulk_ops(alloc, &mut client, models.as_slice(), options) {
        Ok(ops) => {
            let all = ops.len() == row.len();
            drop(ops);
            all && ended == Ended::Done
        }
        Err(error) => {
            let found = how_ended(&error);
            let_go(error);
            found == ended && draws(&mut client, 1)
        }
    };
    drop(models);
    same
}

/// The same with no option set.
fn ends_plain(rt: &impl Abort, alloc: Global, row: &[Given], ended: Ended) -> bool {
    let options = BulkWriteOptions::default();
    let same = ends(rt, alloc, row, &options, ended);
    drop(options);
    same
}

/// Whether a bulk write of one model ends so, where one of its options has a flaw.
fn ends_with(
    rt: &impl Abort,
    alloc: Global,
    set: Set,
    flaw: Flaw,
    given: Given,
    ended: Ended,
) -> bool {
    let options = options_with(rt, alloc, set, flaw);
    let same = ends(rt, alloc, &[given], &options, ended);
    drop(options);
    same
}

/// Whether an argument is refused with this message.
fn has_message(error: &Error, text: &str) -> bool {
    match error.kind() {
        ErrorKind::InvalidArgument { message } => message.as_str() == text,
        _ => false,
    }
}

/// Whether a bulk write is refused with this message.
fn is_refused(rt: &impl Abort, alloc: Global, row: &[Given], text: &str) -> bool {
    let models = models_of(rt, alloc, row);
    let options = BulkWriteOptions::default();
    let mut client = client(alloc);
    let same = match bulk_ops(alloc, &mut client, models.as_slice(), &options) {
        Ok(ops) => {
            drop(ops);
            false
        }
        Err(error) => {
            let same = has_message(&error, text);
            let_go(error);
            same
        }
    };
    drop(models);
    same
}

/// The last byte of the object id in the op of an insert: behind 12 bytes up to the number, its 4, the type and the
/// key of the document with its length (14), and the type and the key of the id (5) it has 12 bytes.
fn id_in(op: Option<&OwnOp>) -> Option<u8> {
    let bytes = op?.bytes.as_slice();
    bytes.get(46).copied()
}

/// Whether ids are drawn in order for those that have none.
fn draws_in_order(rt: &impl Abort, alloc: Global) -> bool {
    let models = models_of(rt, alloc, MIXED);
    let options = BulkWriteOptions::default();
    let mut client = client(alloc);
    let same = match bulk_ops(alloc, &mut client, models.as_slice(), &options) {
        Ok(ops) => {
            let same = id_in(ops.get(0)) == Some(1) && id_in(ops.get(3)) == Some(2);
            drop(ops);
            same && draws(&mut client, 3)
        }
        Err(error) => {
            let_go(error);
            false
        }
    };
    drop(models);
    same
}

/// Whether a model tells this.
fn tells(model: &WriteModel, told: Told) -> bool {
    let Told(multi, operation, db, coll) = told;
    let namespace = model.namespace();
    model.multi() == multi
        && model.operation_type() == operation
        && namespace.db.as_str() == db
        && namespace.coll.as_str() == coll
}

/// Whether the model at a place among the six tells this.
fn tells_at(rt: &impl Abort, alloc: Global, at: usize, told: Told) -> bool {
    let models = six(alloc).made(rt);
    let same = match models.get(at) {
        Some(model) => tells(model, told),
        None => false,
    };
    drop(models);
    same
}

/// The collection `shop.items`.
fn items(rt: &impl Abort, alloc: Global) -> Collection {
    Collection {
        namespace: named(alloc, "shop", "items").made(rt),
        write_concern: None,
    }
}

/// Whether an insert into `shop.items` is of this document.
fn inserts(model: &InsertOneModel, document: &Document) -> bool {
    model.namespace.db.as_str() == "shop"
        && model.namespace.coll.as_str() == "items"
        && model.document == *document
}

/// Whether a replacement in `shop.items` is of what this filter finds by this document, with no option set.
fn replaces(model: &ReplaceOneModel, filter: &Document, document: &Document) -> bool {
    model.namespace.db.as_str() == "shop"
        && model.namespace.coll.as_str() == "items"
        && model.filter == *filter
        && model.replacement == *document
        && has_no_option(model)
}

/// Whether no option of a replacement is set.
fn has_no_option(model: &ReplaceOneModel) -> bool {
    model.collation.is_none()
        && model.hint.is_none()
        && model.upsert.is_none()
        && model.sort.is_none()
}

/// Whether the collection's insert of `{x: 1}` is that.
fn insert_is_made(rt: &impl Abort, alloc: Global) -> bool {
    let collection = items(rt, alloc);
    let document = number(alloc, "x", 1).made(rt);
    match collection.insert_one_model(alloc, &document) {
        Ok(model) => {
            let same = inserts(&model, &document);
            drop(model);
            same
        }
        Err(error) => {
            let_go(error);
            false
        }
    }
}

/// Whether the collection's replacement by `{x: 1}` of what `{y: 2}` finds is that.
fn replacement_is_made(rt: &impl Abort, alloc: Global) -> bool {
    let collection = items(rt, alloc);
    let document = number(alloc, "x", 1).made(rt);
    let filter = number(alloc, "y", 2).made(rt);
    let given = number(alloc, "y", 2).made(rt);
    match collection.replace_one_model(alloc, given, &document) {
        Ok(model) => {
            let same = replaces(&model, &filter, &document);
            drop(model);
            same
        }
        Err(error) => {
            let_go(error);
            false
        }
    }
}

#[test]
fn bulk_writes_are_refused_for_their_input_test_by_test(rt: HostRuntime) {
    for (at, (row, ended)) in ROWS.iter().enumerate() {
        let same = ends_plain(&rt, rt.alloc(), row, *ended);
        holds_at(&rt, same, "the end of the models of a row", at);
    }
}

#[test]
fn the_first_database_with_a_dot_is_named(rt: HostRuntime) {
    for (row, text) in DOTTED {
        let same = is_refused(&rt, rt.alloc(), row, text);
        holds(&rt, same, text);
    }
}

#[test]
fn options_of_a_bulk_write_are_judged_like_values_of_its_models(rt: HostRuntime) {
    for (at, (set, flaw, given, ended)) in OPTIONS.iter().enumerate() {
        let same = ends_with(&rt, rt.alloc(), *set, *flaw, *given, *ended);
        holds_at(
            &rt,
            same,
            "the end of a bulk write with an option that has a flaw",
            at,
        );
    }
}

#[test]
fn ids_are_drawn_in_order_for_inserts_without_one(rt: HostRuntime) {
    let same = draws_in_order(&rt, rt.alloc());
    holds(&rt, same, "the ids that were drawn");
}

#[test]
fn each_model_tells_what_it_does_and_where(rt: HostRuntime) {
    for (at, told) in TOLD.iter().enumerate() {
        let same = tells_at(&rt, rt.alloc(), at, *told);
        holds_at(&rt, same, "what a model tells", at);
    }
}

#[test]
fn an_insert_of_a_collection_is_in_it_and_whole(rt: HostRuntime) {
    let same = insert_is_made(&rt, rt.alloc());
    holds(&rt, same, "a collection's insert");
}

#[test]
fn a_replacement_of_a_collection_is_in_it_and_has_no_option(rt: HostRuntime) {
    let same = replacement_is_made(&rt, rt.alloc());
    holds(&rt, same, "a collection's replacement");
}

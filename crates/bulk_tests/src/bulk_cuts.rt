//! Lists of models of random kinds, namespaces and lengths, cut batch by batch under limits that let few ops in: no
//! other cut into runs that fit has fewer batches. What a run takes is counted from the layout of the op documents,
//! by lengths written by hand.
use crate::asserting::{Made, alike};
use bson_lite::{Bson, Document, List, Text};
use bulk_fronts::OwnOp;
use bulk_ops::BulkWriteOp;
use driver_error::SummaryBulkWriteResult;
use driver_ops::Operation;
use driver_options::{
    BulkWriteOptions, DeleteManyModel, DeleteOneModel, Description, ReplaceOneModel,
    UpdateManyModel, UpdateModifications, UpdateOneModel, WriteModel,
};
use rand_core::{Rng, SeedableRng};
use rand_pcg::Pcg32;
use std::alloc::Global;
use std::process::Abort;
use test_parts::bulk_ends::let_go;
use test_parts::bulk_models::{around, insert, named, number, ops_of};
use test_parts::inserting::SERVER;

/// How many lists are cut.
const LISTS: u64 = 12;

/// How many models a list has.
const MODELS: usize = 8;

/// The body of the command, and what stands around it and the ops.
const AROUND: usize = 1043;

/// The bytes of `{_id: text}` beside those of the text: 5 around the fields, 5 of type and key, and 5 around the text.
const AROUND_TEXT: usize = 15;

/// The bytes of `{ns: "gen.coll"}` beside those of the collection's name: 5, then 4 of type and key, 5, and `gen.`.
const AROUND_COLLECTION: usize = 18;

/// The bytes of an insert's op beside those of the document: 5 around the fields, 12 of the number under a key of six
/// letters, and 10 of a type and the key `document`.
const INSERT: usize = 27;

/// The bytes of a delete's op beside those of the filter: 5 and 12 as above, 8 of `multi`, and 8 of a type and the key
/// `filter`.
const DELETE: usize = 33;

/// The bytes of an update's op beside those of the filter and of what it does: as a delete's, and 12 of a type and the
/// key `updateMods`.
const UPDATE: usize = 45;

/// The bytes of `{n: 1}`: 5 around the fields, and 7 of the number.
const NUMBER: usize = 12;

/// The bytes of `{$set: {n: 1}}`: 5 around the fields, 6 of type and key, and 12.
const OPERATORS: usize = 23;

/// What may go out together.
#[derive(Clone, Copy)]
struct Room {
    ops: usize,
    bytes: usize,
}

/// What a model does. All but the insert find documents by `{_id: text}`.
#[derive(Clone, Copy)]
enum Kind {
    /// The insert of `{_id: text}`.
    Insert,
    /// Updates by `{$set: {n: 1}}`.
    UpdateOne,
    UpdateMany,
    /// A replacement by `{n: 1}`.
    ReplaceOne,
    DeleteOne,
    DeleteMany,
}

/// A text, and how many bytes it has.
#[derive(Clone, Copy)]
struct Measured {
    text: &'static str,
    bytes: usize,
}

/// A model of a list: what it does, the name of its collection, and its text.
#[derive(Clone, Copy)]
struct Drawn {
    kind: Kind,
    collection: Measured,
    text: Measured,
}

/// A kind of models.
fn drawn_kind(word: u32) -> Kind {
    match word % 6 {
        0 => Kind::Insert,
        1 => Kind::UpdateOne,
        2 => Kind::UpdateMany,
        3 => Kind::ReplaceOne,
        4 => Kind::DeleteOne,
        _ => Kind::DeleteMany,
    }
}

/// A text of so many bytes.
fn known_text(text: &'static str, bytes: usize) -> Measured {
    Measured { text, bytes }
}

/// The name of a collection.
fn collection(word: u32) -> Measured {
    match word % 3 {
        0 => known_text("a", 1),
        1 => known_text("items", 5),
        _ => known_text("a_collection_with_a_long_name", 29),
    }
}

/// A text of some length.
fn padding(word: u32) -> Measured {
    match word % 4 {
        0 => known_text("", 0),
        1 => known_text("ten bytes.", 10),
        2 => known_text("thirty bytes are in this text.", 30),
        _ => known_text(
            "sixty bytes are in this text, more than in any namespace ...",
            60,
        ),
    }
}

/// A random model.
fn drawn_model(words: &mut Pcg32) -> Drawn {
    let kind = drawn_kind(words.next_u32());
    let collection = collection(words.next_u32());
    let text = padding(words.next_u32());
    Drawn {
        kind,
        collection,
        text,
    }
}

/// A list of random models.
fn drawn_list(rt: &impl Abort, alloc: Global, seed: u64) -> Vec<Drawn> {
    let mut words = Pcg32::seed_from_u64(seed);
    let mut list = Vec::new(alloc);
    for _ in 0..MODELS {
        list.push(drawn_model(&mut words)).made(rt);
    }
    list
}

/// `{_id: text}`
fn identified(rt: &impl Abort, alloc: Global, text: &str) -> Document {
    let text = Text::from_str(alloc, text).made(rt);
    let mut document = Document::new(alloc);
    document.push("_id", Bson::String(text)).made(rt);
    document
}

/// `{$set: {n: 1}}`
fn operators(rt: &impl Abort, alloc: Global) -> UpdateModifications {
    let set = around(alloc, "$set", number(alloc, "n", 1).made(rt)).made(rt);
    UpdateModifications::from(set)
}

/// The model that was drawn.
fn model(rt: &impl Abort, alloc: Global, drawn: Drawn) -> WriteModel {
    let to = named(alloc, "gen", drawn.collection.text).made(rt);
    let document = identified(rt, alloc, drawn.text.text);
    match drawn.kind {
        Kind::Insert => insert(alloc, to, document),
        Kind::UpdateOne => {
            WriteModel::from(UpdateOneModel::new(to, document, operators(rt, alloc)))
        }
        Kind::UpdateMany => {
            WriteModel::from(UpdateManyModel::new(to, document, operators(rt, alloc)))
        }
        Kind::ReplaceOne => {
            let replacement = number(alloc, "n", 1).made(rt);
            WriteModel::from(ReplaceOneModel::new(to, document, replacement))
        }
        Kind::DeleteOne => WriteModel::from(DeleteOneModel::new(to, document)),
        Kind::DeleteMany => WriteModel::from(DeleteManyModel::new(to, document)),
    }
}

/// The models of a list.
fn models(rt: &impl Abort, alloc: Global, list: &[Drawn]) -> List<WriteModel> {
    let mut models = List::with_capacity(alloc, list.len()).made(rt);
    for drawn in list {
        models.push(model(rt, alloc, *drawn)).made(rt);
    }
    models
}

/// The bytes of a model's op beside those of its text, by the layout.
fn around_text(kind: Kind) -> usize {
    match kind {
        Kind::Insert => INSERT + AROUND_TEXT,
        Kind::UpdateOne => UPDATE + AROUND_TEXT + OPERATORS,
        Kind::UpdateMany => UPDATE + AROUND_TEXT + OPERATORS,
        Kind::ReplaceOne => UPDATE + AROUND_TEXT + NUMBER,
        Kind::DeleteOne => DELETE + AROUND_TEXT,
        Kind::DeleteMany => DELETE + AROUND_TEXT,
    }
}

/// Whether a model from a place on, before another place, is of this collection.
fn stands_before(list: &[Drawn], from: usize, to: usize, collection: &str) -> bool {
    for at in from..to {
        match list.get(at) {
            Some(drawn) if drawn.collection.text == collection => return true,
            _ => {}
        }
    }
    false
}

/// The bytes of the ops from a place to before another, and of one document for each of their namespaces.
fn cost(list: &[Drawn], from: usize, to: usize) -> usize {
    let mut bytes: usize = 0;
    for at in from..to {
        let Some(drawn) = list.get(at) else {
            return bytes;
        };
        let op = around_text(drawn.kind).saturating_add(drawn.text.bytes);
        bytes = bytes.saturating_add(op);
        if !stands_before(list, from, at, drawn.collection.text) {
            let namespace = drawn.collection.bytes.saturating_add(AROUND_COLLECTION);
            bytes = bytes.saturating_add(namespace);
        }
    }
    bytes
}

/// Whether the ops from a place to before another may go out together.
fn fits(list: &[Drawn], from: usize, to: usize, room: Room) -> bool {
    to.saturating_sub(from) <= room.ops && cost(list, from, to) <= room.bytes
}

/// The fewest runs that fit, over all cuts of the list, by the fewest of each front.
fn fewest(rt: &impl Abort, alloc: Global, list: &[Drawn], room: Room) -> usize {
    let mut best: Vec<usize> = Vec::new(alloc);
    best.push(0).made(rt);
    let mut last = 0;
    for to in 1..list.len().saturating_add(1) {
        last = usize::MAX;
        for from in 0..to {
            if fits(list, from, to, room) {
                let before = best.get(from).copied().unwrap_or(usize::MAX);
                last = last.min(before.saturating_add(1));
            }
        }
        best.push(last).made(rt);
    }
    last
}

/// A server that lets so much out together.
fn server(room: Room) -> Description {
    Description {
        max_message_size_bytes: i64::try_from(room.bytes.saturating_add(AROUND)).unwrap_or(0),
        max_write_batch_size: i64::try_from(room.ops).unwrap_or(0),
        ..SERVER
    }
}

/// How many ops from a place on a build takes, or none where it takes none.
fn taken(rt: &impl Abort, alloc: Global, ops: &[OwnOp], from: usize, room: Room) -> Option<usize> {
    if ops.len() <= from {
        return None;
    }
    let options = BulkWriteOptions::default();
    let mut op: BulkWriteOp<'_, SummaryBulkWriteResult> = BulkWriteOp::new(
        alloc, ops, from, &options,
    ).made(rt);
    match op.build(alloc, &server(room)) {
        Ok(command) => {
            drop(command);
            Some(op.statements())
        }
        Err(error) => {
            let_go(error);
            None
        }
    }
}

/// How many batches cutting the longest front again and again gives, or none where it gets stuck.
fn batches(rt: &impl Abort, alloc: Global, ops: &[OwnOp], room: Room) -> Option<usize> {
    let mut at: usize = 0;
    let mut count = 0;
    for batch in 0..ops.len() {
        if at < ops.len() {
            at = at.saturating_add(taken(rt, alloc, ops, at, room)?);
            count = batch.saturating_add(1);
        }
    }
    if at == ops.len() { Some(count) } else { None }
}

/// The most bytes that an op of the list goes out with by itself.
fn widest(list: &[Drawn]) -> usize {
    let mut widest: usize = 0;
    for at in 0..list.len() {
        widest = widest.max(cost(list, at, at.saturating_add(1)));
    }
    widest
}

/// Whether the ops of a list are cut into the fewest batches where so much goes out together.
fn is_cut_in(rt: &impl Abort, alloc: Global, list: &[Drawn], ops: &[OwnOp], room: Room) -> bool {
    let fewest = fewest(rt, alloc, list, room);
    batches(rt, alloc, ops, room) == Some(fewest)
}

/// The same under a batch limit and under message limits that let the first one to five ops just in, or one of them
/// just not.
fn fronts_are_cut(
    rt: &impl Abort,
    alloc: Global,
    list: &[Drawn],
    ops: &[OwnOp],
    most: usize,
) -> bool {
    let mut all = true;
    for front in 1..6 {
        let bytes = cost(list, 0, front);
        let just = Room {
            ops: most,
            bytes: widest(list).max(bytes),
        };
        let just_not = Room {
            ops: most,
            bytes: widest(list).max(bytes.saturating_sub(1)),
        };
        all = is_cut_in(rt, alloc, list, ops, just) && all;
        all = is_cut_in(rt, alloc, list, ops, just_not) && all;
    }
    all
}

/// Whether a list is cut into the fewest batches, under batch limits of 1 to 5.
fn is_cut(rt: &impl Abort, alloc: Global, seed: u64) -> Option<bool> {
    let list = drawn_list(rt, alloc, seed);
    let models = models(rt, alloc, list.as_slice());
    let ops = ops_of(alloc, &models)?;
    let mut all = ops.len() == MODELS;
    for most in 1..6 {
        all = fronts_are_cut(rt, alloc, list.as_slice(), ops.as_slice(), most) && all;
    }
    drop(ops);
    drop(models);
    drop(list);
    Some(all)
}

/// Whether the op at a place goes out where there is just room for it and its namespace, and not in a byte less.
fn is_measured(rt: &impl Abort, alloc: Global, list: &[Drawn], ops: &[OwnOp], at: usize) -> bool {
    let bytes = cost(list, at, at.saturating_add(1));
    let just = Room { ops: 1, bytes };
    let just_not = Room {
        ops: 1,
        bytes: bytes.saturating_sub(1),
    };
    taken(rt, alloc, ops, at, just) == Some(1) && taken(rt, alloc, ops, at, just_not).is_none()
}

/// Whether each op of a list does.
fn are_measured(rt: &impl Abort, alloc: Global, seed: u64) -> Option<bool> {
    let list = drawn_list(rt, alloc, seed);
    let models = models(rt, alloc, list.as_slice());
    let ops = ops_of(alloc, &models)?;
    let mut all = true;
    for at in 0..MODELS {
        all = is_measured(rt, alloc, list.as_slice(), ops.as_slice(), at) && all;
    }
    drop(ops);
    drop(models);
    drop(list);
    Some(all)
}

#[test]
fn no_cut_of_random_models_has_fewer_batches(rt: HostRuntime) {
    for seed in 0..LISTS {
        let same = is_cut(&rt, rt.alloc(), seed) == Some(true);
        alike(
            &rt,
            (seed, same),
            (seed, true),
            "the fewest batches of a list",
        );
    }
}

#[test]
fn an_op_goes_out_alone_where_just_it_has_room(rt: HostRuntime) {
    for seed in 0..LISTS {
        let same = are_measured(&rt, rt.alloc(), seed) == Some(true);
        alike(&rt, (seed, same), (seed, true), "each op of a list alone");
    }
}

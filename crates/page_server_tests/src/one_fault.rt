//! A bulk write of ten writes in batches of three over a model server, ordered and not, with and without the results of
//! single writes, on first pages of each size, with one fault at each of its exchanges: which commands go out, which
//! writes stand, and what the call answers, as the rules say.
use crate::asserting::{Made, alike};
use crate::by_rules::{
    Does, Fault, Row, Sent, Told, WRITES, commands, ended, is_again, number, runs, session,
    telling, work_of,
};
use crate::meeting::{Meets, schedule};
use bson_lite::{Bson, Document, List, Namespace, Text};
use bulk_actions::BulkWrite;
use driver_attempt::{Client, Outside};
use driver_error::{
    BulkWriteError, DeleteResult, Error, ErrorKind, InsertOneResult, PartialBulkWriteResult,
    Result, SummaryBulkWriteResult, UpdateResult, VerboseBulkWriteResult,
};
use driver_link::{Entry, Send, SendBody, SendCommand, Server, Setup, WriteKind};
use driver_options::{
    ClientOptions, DeleteOneModel, Description, InsertOneModel, UpdateManyModel,
    UpdateModifications, UpdateOneModel, WriteModel,
};
use driver_session::PlainStore;
use memory_links::{CountingIds, MemClock};
use model_server::ModelServer;
use rand_core::SeedableRng;
use rand_pcg::Pcg32;
use std::alloc::Global;
use std::process::Abort;
use test_parts::bulk_ends::{Looked, how_ended};

/// Each fault, at a position or behind so many writes of a batch.
const FAULTS: &[Fault] = &[
    Fault::Lost,
    Fault::Late,
    Fault::ReplyLost,
    Fault::Interrupted(0),
    Fault::Interrupted(1),
    Fault::Interrupted(3),
    Fault::BareInterrupted(0),
    Fault::BareInterrupted(1),
    Fault::BareInterrupted(3),
    Fault::Refused,
    Fault::BareRefused,
    Fault::Fails(0),
    Fault::Fails(1),
    Fault::Fails(2),
    Fault::Unmet,
];

/// How many exchanges a schedule names, more than a call has.
const EXCHANGES: usize = 12;

/// A first page of one result, of two, and of all results of a batch.
const PAGES: [usize; 3] = [1, 2, 3];

/// A server that takes three writes in a command.
const THREE_AT_ONCE: Setup = Setup {
    description: Description {
        max_wire_version: Some(25),
        max_bson_object_size: 16_777_216,
        max_message_size_bytes: 48_000_000,
        max_write_batch_size: 3,
        supports_sessions: true,
        supports_retryable_writes: true,
        sharded: false,
    },
    transactions: true,
    timeout_ms: Some(1_800_000),
};

/// The number that the write at an index has in its document or filter.
fn mark(index: usize) -> i32 {
    match i32::try_from(index) {
        Ok(mark) => mark,
        Err(_) => -1,
    }
}

/// `{key: number}`
fn single(rt: &impl Abort, alloc: Global, key: &str, number: i32) -> Document {
    let mut document = Document::new(alloc);
    document.push(key, Bson::Int32(number)).made(rt);
    document
}

/// The collection of the write at an index, one of two in turn.
fn collection(index: usize) -> &'static str {
    if index % 2 == 0 { "items" } else { "stock" }
}

/// The namespace of the write at an index.
fn namespace(rt: &impl Abort, alloc: Global, index: usize) -> Namespace {
    Namespace {
        db: Text::from_str(alloc, "shop").made(rt),
        coll: Text::from_str(alloc, collection(index)).made(rt),
    }
}

/// `{$set: {y: 2}}`
fn change(rt: &impl Abort, alloc: Global) -> UpdateModifications {
    let mut document = Document::new(alloc);
    document
        .push("$set", Bson::Document(single(rt, alloc, "y", 2)))
        .made(rt);
    UpdateModifications::from(document)
}

/// The update at an index, of one document or of many.
fn update(rt: &impl Abort, alloc: Global, index: usize, many: bool) -> WriteModel {
    let to = namespace(rt, alloc, index);
    let filter = single(rt, alloc, "x", mark(index));
    let change = change(rt, alloc);
    if many {
        WriteModel::from(UpdateManyModel::new(to, filter, change))
    } else {
        WriteModel::from(UpdateOneModel::new(to, filter, change))
    }
}

/// The insert or the delete at an index.
fn other(rt: &impl Abort, alloc: Global, index: usize, inserts: bool) -> WriteModel {
    let to = namespace(rt, alloc, index);
    let document = single(rt, alloc, "x", mark(index));
    if inserts {
        WriteModel::from(InsertOneModel::new(to, document))
    } else {
        WriteModel::from(DeleteOneModel::new(to, document))
    }
}

/// The model at an index, where the fifth may be an update of many.
fn model(rt: &impl Abort, alloc: Global, index: usize, many: bool) -> WriteModel {
    match work_of(index) {
        Does::Inserts => other(rt, alloc, index, true),
        Does::Deletes => other(rt, alloc, index, false),
        Does::Updates => update(rt, alloc, index, many && index == 4),
    }
}

/// All ten models.
fn models(rt: &impl Abort, alloc: Global, many: bool) -> List<WriteModel> {
    let mut models = List::with_capacity(alloc, WRITES).made(rt);
    for index in 0..WRITES {
        models.push(model(rt, alloc, index, many)).made(rt);
    }
    models
}

/// What the exchange with the fault of a row meets.
fn met(row: Row) -> Meets {
    let page = row.page as u64;
    match row.fault {
        Fault::Lost => Meets::Lost,
        Fault::Late => Meets::Late,
        Fault::ReplyLost => Meets::ReplyLost,
        Fault::Interrupted(count) => Meets::Interrupted(count as u64),
        Fault::BareInterrupted(count) => Meets::BareInterrupted(count as u64),
        Fault::Refused => Meets::RefusedForNow,
        Fault::BareRefused => Meets::BareRefusedForNow,
        Fault::Fails(at) => Meets::FailedOnPages(at as u64, page),
        Fault::Unmet => Meets::ConcernOnPages(page),
    }
}

/// What the exchanges of a row meet.
fn met_in_turn(row: Row) -> [Meets; EXCHANGES] {
    let mut all = [Meets::Page(row.page as u64); EXCHANGES];
    if row.at < EXCHANGES {
        all[row.at] = met(row);
    }
    all
}

/// How a bulk write of models ends over a server, with results of a kind, and the server then.
fn called<T: Looked>(
    alloc: Global,
    link: ModelServer,
    models: &[WriteModel],
    ordered: bool,
) -> (Result<T>, ModelServer) {
    let options = ClientOptions {
        client_number: 1,
        ..ClientOptions::default()
    };
    let mut client = Client::new(options, PlainStore::new(alloc, CountingIds::new()));
    let mut outside = Outside {
        link,
        clock: MemClock::new(0, 0),
        words: Pcg32::seed_from_u64(1),
        call: 0,
    };
    let asked: BulkWrite<'_, PlainStore<CountingIds>, T> = BulkWrite::of_kind(&mut client, models);
    let end = asked.ordered(ordered).run(alloc, &mut outside);
    let Outside {
        link,
        clock: _,
        words: _,
        call: _,
    } = outside;
    (end, link)
}

/// Serves the first late send, where there is one.
fn arrive(link: &mut ModelServer, alloc: Global) {
    match link.deliver_late(alloc, 0) {
        Ok(_) => {}
        Err(error) => drop(error),
    }
}

/// Whether a document has this number under `x`.
fn has_mark(document: &Document, index: usize) -> bool {
    match document.get("x") {
        Some(Bson::Int32(number)) => *number == mark(index),
        _ => false,
    }
}

/// Whether the filter in an op has it.
fn filter_has_mark(op: &Document, index: usize) -> bool {
    match op.get("filter") {
        Some(Bson::Document(filter)) => has_mark(filter, index),
        _ => false,
    }
}

/// Whether an entry is the write at an index, by its kind and its number.
fn is_write(entry: &Entry, index: usize) -> bool {
    let document = &entry.written.get().document;
    match (&entry.written.get().kind, work_of(index)) {
        (WriteKind::Insert, Does::Inserts) => has_mark(document, index),
        (WriteKind::Update, Does::Updates) => filter_has_mark(document, index),
        (WriteKind::Delete, Does::Deletes) => filter_has_mark(document, index),
        _ => false,
    }
}

/// The number of a session, or 0 of none.
fn known(session: &Option<[u8; 16]>) -> u8 {
    match session {
        Some(id) => id[15],
        None => 0,
    }
}

/// Whether an entry stands where the rules let the write at an index stand.
fn is_entry(entry: &Entry, row: Row, index: usize) -> bool {
    entry.place.call == 0
        && entry.place.index == index as u64
        && known(&entry.session) == session(row, index / 3)
        && entry.number == number(row, index / 3)
        && entry.written.get().namespace.coll.as_str() == collection(index)
        && is_write(entry, index)
}

/// Whether the writes that run stand in a log, in their order, and nothing else.
fn stand(log: &[Entry], row: Row) -> bool {
    let mut at: usize = 0;
    for index in 0..WRITES {
        if runs(row, index) {
            match log.get(at) {
                Some(entry) if is_entry(entry, row, index) => {}
                _ => return false,
            }
            at = at.saturating_add(1);
        }
    }
    log.len() == at
}

/// A command as the rules tell it.
fn command(send: &Send) -> Sent {
    match &send.body {
        SendBody::Write {
            command: SendCommand::BulkWrite,
            ordered: _,
            writes,
        } => match writes.get(0) {
            Some(first) => Sent::Writes(
                first.place.index as usize,
                writes.len(),
                known(&send.session),
                send.number,
            ),
            None => Sent::Other,
        },
        SendBody::More { cursor: _ } if send.number.is_none() => Sent::More(known(&send.session)),
        SendBody::Kill { cursor: _ } if send.session.is_none() => Sent::Kill,
        _ => Sent::Other,
    }
}

/// Whether a server saw these commands.
fn are_sent(server: &Server, wanted: &[Sent]) -> bool {
    if server.trace.len() != wanted.len() {
        return false;
    }
    for (at, one) in wanted.iter().enumerate() {
        match server.trace.get(at) {
            Some(send) if command(send) == *one => {}
            _ => return false,
        }
    }
    true
}

/// Whether the write at an index stands in a log with this id.
fn stands_with(log: &[Entry], index: usize, id: &Bson) -> bool {
    for entry in log {
        if entry.place.index == index as u64 {
            return entry.written.get().document.get("_id") == Some(id);
        }
    }
    false
}

/// What the result of an insert tells: it has the id that stands.
fn insert_told(log: &[Entry], index: usize, found: &InsertOneResult) -> Told {
    if stands_with(log, index, &found.inserted_id) {
        Told::Done(Does::Inserts)
    } else {
        Told::Odd
    }
}

/// What the result of an update tells: it changed one document and put none in.
fn update_told(found: &UpdateResult) -> Told {
    if found.matched_count == 1 && found.modified_count == 1 && found.upserted_id.is_none() {
        Told::Done(Does::Updates)
    } else {
        Told::Odd
    }
}

/// What the result of a delete tells: it took one away.
fn delete_told(found: &DeleteResult) -> Told {
    if found.deleted_count == 1 {
        Told::Done(Does::Deletes)
    } else {
        Told::Odd
    }
}

/// What results tell of the write at an index.
fn result_told(found: &VerboseBulkWriteResult, log: &[Entry], index: usize) -> Told {
    match (
        found.insert_results.get(index),
        found.update_results.get(index),
        found.delete_results.get(index),
    ) {
        (None, None, None) => Told::Nothing,
        (Some(inserted), None, None) => insert_told(log, index, inserted),
        (None, Some(updated), None) => update_told(updated),
        (None, None, Some(deleted)) => delete_told(deleted),
        _ => Told::Odd,
    }
}

/// How many results there are.
fn result_count(found: &VerboseBulkWriteResult) -> usize {
    found
        .insert_results
        .len()
        .saturating_add(found.update_results.len())
        .saturating_add(found.delete_results.len())
}

/// What results of a kind tell of the write at an index, and of how many writes they tell.
trait Results: Looked {
    fn told_at(&self, log: &[Entry], index: usize) -> Told;

    fn told_count(&self) -> usize;
}

impl Results for SummaryBulkWriteResult {
    fn told_at(&self, _log: &[Entry], _index: usize) -> Told {
        Told::Nothing
    }

    fn told_count(&self) -> usize {
        0
    }
}

impl Results for VerboseBulkWriteResult {
    fn told_at(&self, log: &[Entry], index: usize) -> Told {
        result_told(self, log, index)
    }

    fn told_count(&self) -> usize {
        result_count(self)
    }
}

/// What a partial result tells of the write at an index.
fn partial_told(found: &Option<PartialBulkWriteResult>, log: &[Entry], index: usize) -> Told {
    match found {
        Some(PartialBulkWriteResult::Verbose(found)) => result_told(found, log, index),
        _ => Told::Nothing,
    }
}

/// Of how many writes a partial result tells.
fn partial_count(found: &Option<PartialBulkWriteResult>) -> usize {
    match found {
        Some(PartialBulkWriteResult::Verbose(found)) => result_count(found),
        _ => 0,
    }
}

/// What the error of a bulk write tells of the write at an index: that it failed, or its result.
fn failure_told(found: &BulkWriteError, log: &[Entry], index: usize) -> Told {
    let result = partial_told(&found.partial_result, log, index);
    match found.write_errors.get(index) {
        Some(error) if result == Told::Nothing => Told::Failed(error.code),
        Some(_) => Told::Odd,
        None => result,
    }
}

/// What an error tells of it.
fn error_told(error: &Error, log: &[Entry], index: usize) -> Told {
    match error.kind() {
        ErrorKind::BulkWrite(found) => failure_told(found.get(), log, index),
        _ => Told::Nothing,
    }
}

/// Of how many writes an error tells.
fn error_count(error: &Error) -> usize {
    match error.kind() {
        ErrorKind::BulkWrite(found) => {
            let found = found.get();
            found
                .write_errors
                .len()
                .saturating_add(partial_count(&found.partial_result))
        }
        _ => 0,
    }
}

/// What the end of a call tells of the write at an index.
fn end_told<T: Results>(end: &Result<T>, log: &[Entry], index: usize) -> Told {
    match end {
        Ok(found) => found.told_at(log, index),
        Err(error) => error_told(error, log, index),
    }
}

/// Of how many writes it tells.
fn end_count<T: Results>(end: &Result<T>) -> usize {
    match end {
        Ok(found) => found.told_count(),
        Err(error) => error_count(error),
    }
}

/// Whether the end of a call tells of each write what the rules say, and of no other.
fn are_told<T: Results>(end: &Result<T>, log: &[Entry], row: Row) -> bool {
    let mut count: usize = 0;
    for index in 0..WRITES {
        let wanted = telling(row, index);
        if end_told(end, log, index) != wanted {
            return false;
        }
        if wanted != Told::Nothing {
            count = count.saturating_add(1);
        }
    }
    end_count(end) == count
}

/// Whether the end of a call has the label of a retryable write.
fn says_again<T>(end: &Result<T>) -> bool {
    match end {
        Ok(_) => false,
        Err(error) => error.has_own_label("RetryableWriteError"),
    }
}

/// Whether a row with results of a kind is as the rules say.
fn is_as_ruled<T: Results>(
    rt: &impl Abort,
    alloc: Global,
    row: Row,
    models: &[WriteModel],
) -> bool {
    let wanted = commands(rt, alloc, row);
    let schedule = schedule(rt, alloc, &met_in_turn(row));
    let link = ModelServer::new(alloc, THREE_AT_ONCE, schedule);
    let (end, mut link) = called::<T>(alloc, link, models, row.ordered);
    arrive(&mut link, alloc);
    let server = link.server();
    let log = server.log.as_slice();
    let told = are_told(&end, log, row) && says_again(&end) == is_again(row);
    let same = told && stand(log, row) && are_sent(server, wanted.as_slice());
    drop(link);
    let found = how_ended(end);
    same && found == ended(row)
}

/// Whether a row is as the rules say.
fn holds(rt: &impl Abort, alloc: Global, row: Row, models: &[WriteModel]) -> bool {
    if row.verbose {
        is_as_ruled::<VerboseBulkWriteResult>(rt, alloc, row, models)
    } else {
        is_as_ruled::<SummaryBulkWriteResult>(rt, alloc, row, models)
    }
}

/// How many exchanges a bulk write has without a fault: a batch of three writes has two where a page is smaller.
fn most_exchanges(row: Row) -> usize {
    if row.page < 3 { 7 } else { 4 }
}

/// The row with the first exchange that is not as the rules say. Behind the last exchange none is met.
fn wrong_exchange(rt: &impl Abort, alloc: Global, row: Row, models: &[WriteModel]) -> Option<Row> {
    for at in 0..EXCHANGES {
        if at > most_exchanges(row) {
            break;
        }
        let row = Row { at, ..row };
        if !holds(rt, alloc, row, models) {
            return Some(row);
        }
    }
    None
}

/// The first row with a fault of the table that is not.
fn wrong_fault(rt: &impl Abort, alloc: Global, row: Row, models: &[WriteModel]) -> Option<Row> {
    for fault in FAULTS {
        let row = Row {
            fault: *fault,
            ..row
        };
        if let Some(wrong) = wrong_exchange(rt, alloc, row, models) {
            return Some(wrong);
        }
    }
    None
}

/// The first row on a page of each size that is not.
fn wrong_page(
    rt: &impl Abort,
    alloc: Global,
    ordered: bool,
    verbose: bool,
    many: bool,
    models: &[WriteModel],
) -> Option<Row> {
    for page in PAGES {
        let row = Row {
            ordered,
            verbose,
            many,
            page,
            at: 0,
            fault: Fault::Lost,
        };
        if let Some(wrong) = wrong_fault(rt, alloc, row, models) {
            return Some(wrong);
        }
    }
    None
}

/// The first row that is not, of writes of one document each or with one of many.
fn first_wrong(
    rt: &impl Abort,
    alloc: Global,
    ordered: bool,
    verbose: bool,
    many: bool,
) -> Option<Row> {
    let models = models(rt, alloc, many);
    let wrong = wrong_page(rt, alloc, ordered, verbose, many, models.as_slice());
    drop(models);
    wrong
}

#[test]
fn an_ordered_bulk_write_ends_as_ruled(rt: HostRuntime) {
    let wrong = first_wrong(&rt, rt.alloc(), true, false, false);
    alike(&rt, wrong, None, "the first row that is not as ruled");
}

#[test]
fn an_ordered_one_with_results_ends_as_ruled(rt: HostRuntime) {
    let wrong = first_wrong(&rt, rt.alloc(), true, true, false);
    alike(&rt, wrong, None, "the first row that is not as ruled");
}

#[test]
fn an_unordered_one_ends_as_ruled(rt: HostRuntime) {
    let wrong = first_wrong(&rt, rt.alloc(), false, false, false);
    alike(&rt, wrong, None, "the first row that is not as ruled");
}

#[test]
fn an_unordered_one_with_results_ends_as_ruled(rt: HostRuntime) {
    let wrong = first_wrong(&rt, rt.alloc(), false, true, false);
    alike(&rt, wrong, None, "the first row that is not as ruled");
}

#[test]
fn an_ordered_one_with_a_write_of_many_ends_as_ruled(rt: HostRuntime) {
    let wrong = first_wrong(&rt, rt.alloc(), true, false, true);
    alike(&rt, wrong, None, "the first row that is not as ruled");
}

#[test]
fn an_unordered_one_with_a_write_of_many_ends_as_ruled(rt: HostRuntime) {
    let wrong = first_wrong(&rt, rt.alloc(), false, true, true);
    alike(&rt, wrong, None, "the first row that is not as ruled");
}

/// The first row on a page of each size that is not as ruled, where the rules think of writes of one document each and a
/// write is of many.
fn first_misjudged(rt: &impl Abort, alloc: Global) -> Option<Row> {
    let models = models(rt, alloc, true);
    let wrong = wrong_page(rt, alloc, true, false, false, models.as_slice());
    drop(models);
    wrong
}

#[test]
fn the_first_row_that_is_not_as_ruled_is_named(rt: HostRuntime) {
    let named = first_misjudged(&rt, rt.alloc());
    let wanted = Row {
        ordered: true,
        verbose: false,
        many: false,
        page: 1,
        at: 0,
        fault: Fault::Lost,
    };
    alike(
        &rt,
        named,
        Some(wanted),
        "the first row that is not as ruled",
    );
}

//! The lines of a report, each put behind a text.
ghost use Rattle.std.specs.Prelude.{◌≡◌, ◌++◌, codes, decimal, map, string_bytes, IfOk, OnOk};
ghost use Rattle.std.specs.Fmt.{signed_decimal};
ghost use Rattle.driver_link.specs.Cases.{body_writes};
ghost use Rattle.driver_ops.specs.OptionFields.{document_in};
ghost use Rattle.report_lines.specs.Words.{listed, place_text};
ghost use Rattle.report_lines.specs.Lines.{newline, inserted_text, count_text, counts_text, upserted_text, updated_text, deleted_text, found_text, many_text, bulk_inserted, bulk_matched, bulk_modified, bulk_upserted, bulk_deleted, summary_text, results_in, results_text, verbose_text, answer_text, result_text, single_name, call_name, call_line, call_lines, write_name, command_name, send_line, send_lines, entry_line, entry_lines};

use crate::numbers::{push_signed, push_sum, push_unsigned};
use crate::words::{
    push_error, push_number, push_place, push_places, push_session, push_value, push_value_or_none,
};
use bson_lite::{Bson, Document, TryClone};
use driver_error::{
    DeleteResult, Error, InsertManyResult, InsertOneResult, SummaryBulkWriteResult, UpdateResult,
    VerboseBulkWriteResult,
};
use driver_inputs::{Answer, Call, Outcome, SingleAnswer, SingleWrite};
use driver_link::{Entry, Send, SendBody, SendCommand};
use script_parts::keys;
use script_parts::keys::{
    DELETE_MANY, DELETE_ONE, FIND_ONE_AND_DELETE, FIND_ONE_AND_REPLACE, FIND_ONE_AND_UPDATE,
    INSERT_MANY, INSERT_ONE, REPLACE_ONE, UPDATE_MANY, UPDATE_ONE,
};
use std::alloc::{AllocError, Global};
use wire_keys::keys::{
    ABORT_TRANSACTION, BULK_WRITE, COMMIT_TRANSACTION, DELETE, FIND_AND_MODIFY, GET_MORE, INSERT,
    KILL_CURSORS, UPDATE,
};

#[tactic(auto, unfolding(crate::specs::Lines::inserted_text))]
fn push_inserted(
    alloc: Global,
    out: &mut String,
    inserted: &InsertOneResult,
) -> Result<(), AllocError>
    ensures { OnOk result (string_bytes out.new ≡ string_bytes out.old ++ inserted_text inserted.now) }
{
    out.push_str("ok id=")?;
    push_value(alloc, out, &inserted.inserted_id)
}

/// A count behind its name.
#[tactic(auto, unfolding(crate::specs::Lines::count_text))]
fn push_count(out: &mut String, name: &str, count: u64) -> Result<(), AllocError>
    ensures { OnOk result (string_bytes out.new ≡ string_bytes out.old ++ count_text name.now count) }
{
    out.push_str(name)?;
    push_unsigned(out, count)
}

/// How many documents an update found and changed.
#[tactic(auto, unfolding(crate::specs::Lines::counts_text))]
fn push_counts(out: &mut String, updated: &UpdateResult) -> Result<(), AllocError>
    ensures { OnOk result (string_bytes out.new ≡ string_bytes out.old ++ counts_text updated.now) }
{
    push_count(out, "ok matched=", updated.matched_count)?;
    push_count(out, " modified=", updated.modified_count)
}

/// The id of the document that it put in.
#[tactic(auto, unfolding(crate::specs::Lines::upserted_text))]
fn push_upserted(alloc: Global, out: &mut String, id: &Option<Bson>) -> Result<(), AllocError>
    ensures { OnOk result (string_bytes out.new ≡ string_bytes out.old ++ upserted_text id.now) }
{
    out.push_str(" upserted=")?;
    push_value_or_none(alloc, out, id)
}

#[tactic(auto, unfolding(crate::specs::Lines::updated_text))]
fn push_updated(alloc: Global, out: &mut String, updated: &UpdateResult) -> Result<(), AllocError>
    ensures { OnOk result (string_bytes out.new ≡ string_bytes out.old ++ updated_text updated.now) }
{
    push_counts(out, updated)?;
    push_upserted(alloc, out, &updated.upserted_id)
}

#[tactic(auto, unfolding(crate::specs::Lines::count_text, crate::specs::Lines::deleted_text))]
fn push_deleted(out: &mut String, deleted: &DeleteResult) -> Result<(), AllocError>
    ensures { OnOk result (string_bytes out.new ≡ string_bytes out.old ++ deleted_text deleted.now) }
{
    push_count(out, "ok deleted=", deleted.deleted_count)
}

/// A copy of a document as a value, where there is one.
fn document_in(alloc: Global, found: &Option<Document>) -> Result<Option<Bson>, AllocError>
    ensures { IfOk result (λ value. value ≡ document_in found.now) }
{
    match found {
        None => Ok(None),
        Some(document) => Ok(Some(Bson::Document(document.try_clone(alloc)?))),
    }
}

#[tactic(auto, unfolding(crate::specs::Lines::found_text))]
fn push_found(alloc: Global, out: &mut String, found: &Option<Document>) -> Result<(), AllocError>
    ensures { OnOk result (string_bytes out.new ≡ string_bytes out.old ++ found_text found.now) }
{
    out.push_str("ok found=")?;
    let value = document_in(alloc, found)?;
    push_value_or_none(alloc, out, &value)
}

#[tactic(auto, unfolding(crate::specs::Lines::many_text))]
fn push_many(out: &mut String, many: &InsertManyResult) -> Result<(), AllocError>
    ensures { OnOk result (string_bytes out.new ≡ string_bytes out.old ++ many_text many.now) }
{
    let count = many.inserted_ids.len();
    write!(out, "ok inserted={count}")?;
    Ok(())
}

/// How many documents a bulk write inserted.
#[tactic(auto, unfolding(crate::specs::Lines::bulk_inserted))]
fn push_bulk_inserted(out: &mut String, counts: &SummaryBulkWriteResult) -> Result<(), AllocError>
    ensures { OnOk result (string_bytes out.new ≡ string_bytes out.old ++ bulk_inserted counts.now) }
{
    out.push_str(" inserted=")?;
    push_signed(out, counts.inserted_count)
}

/// How many its updates and replacements matched.
#[tactic(auto, unfolding(crate::specs::Lines::bulk_matched))]
fn push_bulk_matched(out: &mut String, counts: &SummaryBulkWriteResult) -> Result<(), AllocError>
    ensures { OnOk result (string_bytes out.new ≡ string_bytes out.old ++ bulk_matched counts.now) }
{
    out.push_str(" matched=")?;
    push_signed(out, counts.matched_count)
}

/// How many they modified.
#[tactic(auto, unfolding(crate::specs::Lines::bulk_modified))]
fn push_bulk_modified(out: &mut String, counts: &SummaryBulkWriteResult) -> Result<(), AllocError>
    ensures { OnOk result (string_bytes out.new ≡ string_bytes out.old ++ bulk_modified counts.now) }
{
    out.push_str(" modified=")?;
    push_signed(out, counts.modified_count)
}

/// How many they put in where none was found.
#[tactic(auto, unfolding(crate::specs::Lines::bulk_upserted))]
fn push_bulk_upserted(out: &mut String, counts: &SummaryBulkWriteResult) -> Result<(), AllocError>
    ensures { OnOk result (string_bytes out.new ≡ string_bytes out.old ++ bulk_upserted counts.now) }
{
    out.push_str(" upserted=")?;
    push_signed(out, counts.upserted_count)
}

/// How many it deleted.
#[tactic(auto, unfolding(crate::specs::Lines::bulk_deleted))]
fn push_bulk_deleted(out: &mut String, counts: &SummaryBulkWriteResult) -> Result<(), AllocError>
    ensures { OnOk result (string_bytes out.new ≡ string_bytes out.old ++ bulk_deleted counts.now) }
{
    out.push_str(" deleted=")?;
    push_signed(out, counts.deleted_count)
}

#[tactic(auto, unfolding(crate::specs::Lines::summary_text))]
fn push_summary(out: &mut String, counts: &SummaryBulkWriteResult) -> Result<(), AllocError>
    ensures { OnOk result (string_bytes out.new ≡ string_bytes out.old ++ summary_text counts.now) }
{
    out.push_str("ok")?;
    push_bulk_inserted(out, counts)?;
    push_bulk_matched(out, counts)?;
    push_bulk_modified(out, counts)?;
    push_bulk_upserted(out, counts)?;
    push_bulk_deleted(out, counts)
}

/// How many results of writes a verbose bulk write answered.
#[tactic(auto, unfolding(crate::specs::Lines::results_in))]
fn results_in(results: &VerboseBulkWriteResult) -> u128
    ensures { result ≡ results_in results.now }
{
    results.insert_results.len() as u128
        + results.update_results.len() as u128
        + results.delete_results.len() as u128
}

#[tactic(auto, unfolding(crate::specs::Lines::results_text))]
fn push_results(out: &mut String, results: &VerboseBulkWriteResult) -> Result<(), AllocError>
    ensures { OnOk result (string_bytes out.new ≡ string_bytes out.old ++ results_text results.now) }
{
    out.push_str(" results=")?;
    push_sum(out, results_in(results))
}

#[tactic(auto, unfolding(crate::specs::Lines::verbose_text))]
fn push_verbose(out: &mut String, results: &VerboseBulkWriteResult) -> Result<(), AllocError>
    ensures { OnOk result (string_bytes out.new ≡ string_bytes out.old ++ verbose_text results.now) }
{
    push_summary(out, &results.summary)?;
    push_results(out, results)
}

#[tactic(auto, unfolding(crate::specs::Lines::answer_text))]
fn push_answer(alloc: Global, out: &mut String, answer: &Answer) -> Result<(), AllocError>
    ensures { OnOk result (string_bytes out.new ≡ string_bytes out.old ++ answer_text answer.now) }
{
    match answer {
        Answer::Single(SingleAnswer::Inserted(inserted)) => push_inserted(alloc, out, inserted),
        Answer::Single(SingleAnswer::Updated(updated)) => push_updated(alloc, out, updated),
        Answer::Single(SingleAnswer::Deleted(deleted)) => push_deleted(out, deleted),
        Answer::Single(SingleAnswer::Found(found)) => push_found(alloc, out, found),
        Answer::Many(many) => push_many(out, many),
        Answer::Summary(counts) => push_summary(out, counts),
        Answer::Verbose(results) => push_verbose(out, results),
    }
}

fn push_result(
    alloc: Global,
    out: &mut String,
    answered: &Result<Answer, Error>,
) -> Result<(), AllocError>
    ensures { OnOk result (string_bytes out.new ≡ string_bytes out.old ++ result_text answered.now) }
{
    match answered {
        Ok(answer) => push_answer(alloc, out, answer),
        Err(error) => push_error(alloc, out, error),
    }
}

#[tactic(auto, unfolding(crate::specs::Lines::call_name))]
fn name_of_call(call: &Call) -> &'static str
    ensures { result.now ≡ call_name call.now }
{
    match call {
        Call::Single { write } => name_of_single(write),
        Call::InsertMany { .. } => INSERT_MANY,
        Call::BulkWrite { .. } => keys::BULK_WRITE,
    }
}

#[tactic(auto, unfolding(crate::specs::Lines::single_name))]
fn name_of_single(write: &SingleWrite) -> &'static str
    ensures { result.now ≡ single_name write.now }
{
    match write {
        SingleWrite::InsertOne(_) => INSERT_ONE,
        SingleWrite::UpdateOne(_) => UPDATE_ONE,
        SingleWrite::UpdateMany(_) => UPDATE_MANY,
        SingleWrite::ReplaceOne(_) => REPLACE_ONE,
        SingleWrite::DeleteOne(_) => DELETE_ONE,
        SingleWrite::DeleteMany(_) => DELETE_MANY,
        SingleWrite::FindOneAndDelete(_) => FIND_ONE_AND_DELETE,
        SingleWrite::FindOneAndUpdate(_) => FIND_ONE_AND_UPDATE,
        SingleWrite::FindOneAndReplace(_) => FIND_ONE_AND_REPLACE,
    }
}

/// What stands before the answer of a call: its number and its name.
fn push_call_head(out: &mut String, at: usize, name: &str) -> Result<(), AllocError>
    ensures { OnOk result
        (string_bytes out.new ≡
        string_bytes out.old ++ (codes "call " ++ (decimal at ++ (codes " " ++ (name.now ++ codes ": "))))) }
{
    out.push_str("call ")?;
    push_unsigned(out, at as u64)?;
    out.push_str(" ")?;
    out.push_str(name)?;
    out.push_str(": ")
}

#[tactic(auto, unfolding(crate::specs::Lines::call_line))]
fn push_call(
    alloc: Global,
    out: &mut String,
    at: usize,
    call: &Call,
    outcome: &Outcome,
) -> Result<(), AllocError>
    ensures { OnOk result (string_bytes out.new ≡ string_bytes out.old ++ call_line at call.now outcome.now) }
{
    push_call_head(out, at, name_of_call(call))?;
    push_result(alloc, out, &outcome.result)?;
    out.push_str("\n")
}

/// The lines of calls with their outcomes.
#[tactic(auto, unfolding(crate::specs::Lines::call_lines))]
pub fn push_calls(
    alloc: Global,
    out: &mut String,
    calls: &[Call],
    outcomes: &[Outcome],
) -> Result<(), AllocError>
    ensures { OnOk result
        (string_bytes out.new ≡ string_bytes out.old ++ call_lines 0 calls.now outcomes.now) }
{
    for (at, outcome) in outcomes.iter().enumerate() {
        if at >= calls.len() {
            return Ok(());
        }
        push_call(alloc, out, at, &calls[at], outcome)?;
    }
    Ok(())
}

#[tactic(auto, unfolding(crate::specs::Lines::command_name))]
fn name_of_command(body: &SendBody) -> &'static str
    ensures { result.now ≡ command_name body.now }
{
    match body {
        SendBody::Write { command, .. } => name_of_writes(*command),
        SendBody::Commit => COMMIT_TRANSACTION,
        SendBody::Abort => ABORT_TRANSACTION,
        SendBody::More { .. } => GET_MORE,
        SendBody::Kill { .. } => KILL_CURSORS,
    }
}

#[tactic(auto, unfolding(crate::specs::Lines::write_name))]
fn name_of_writes(command: SendCommand) -> &'static str
    ensures { result.now ≡ write_name command }
{
    match command {
        SendCommand::Insert => INSERT,
        SendCommand::Update => UPDATE,
        SendCommand::Delete => DELETE,
        SendCommand::FindAndModify => FIND_AND_MODIFY,
        SendCommand::BulkWrite => BULK_WRITE,
    }
}

fn push_placed(out: &mut String, body: &SendBody) -> Result<(), AllocError>
    ensures { OnOk result
        (string_bytes out.new ≡
        string_bytes out.old ++ listed (map (λ write. place_text write.place) (body_writes body.now))) }
{
    match body {
        SendBody::Write { writes, .. } => push_places(out, writes.as_slice()),
        _ => push_places(out, &[]),
    }
}

/// What stands before the session of a send: its number and its command.
fn push_send_head(out: &mut String, at: usize, command: &str) -> Result<(), AllocError>
    ensures { OnOk result
        (string_bytes out.new ≡
        string_bytes out.old ++
        (codes "send " ++ (decimal at ++ (codes ": " ++ (command.now ++ codes " session="))))) }
{
    out.push_str("send ")?;
    push_unsigned(out, at as u64)?;
    out.push_str(": ")?;
    out.push_str(command)?;
    out.push_str(" session=")
}

#[tactic(auto, unfolding(crate::specs::Lines::send_line))]
fn push_send(out: &mut String, at: usize, send: &Send) -> Result<(), AllocError>
    ensures { OnOk result (string_bytes out.new ≡ string_bytes out.old ++ send_line at send.now) }
{
    push_send_head(out, at, name_of_command(&send.body))?;
    push_session(out, &send.session)?;
    out.push_str(" number=")?;
    push_number(out, send.number)?;
    out.push_str(" places=")?;
    push_placed(out, &send.body)?;
    out.push_str("\n")
}

/// The lines of sends.
#[tactic(auto, unfolding(crate::specs::Lines::send_lines))]
pub fn push_sends(out: &mut String, sends: &[Send]) -> Result<(), AllocError>
    ensures { OnOk result (string_bytes out.new ≡ string_bytes out.old ++ send_lines 0 sends.now) }
{
    for (at, send) in sends.iter().enumerate() {
        push_send(out, at, send)?;
    }
    Ok(())
}

/// What stands before the place of an entry: its number.
fn push_entry_head(out: &mut String, at: usize) -> Result<(), AllocError>
    ensures { OnOk result
        (string_bytes out.new ≡ string_bytes out.old ++ (codes "entry " ++ (decimal at ++ codes ": "))) }
{
    out.push_str("entry ")?;
    push_unsigned(out, at as u64)?;
    out.push_str(": ")
}

/// What stands behind its transaction number: how many documents it counts.
fn push_entry_end(out: &mut String, count: i64) -> Result<(), AllocError>
    ensures { OnOk result
        (string_bytes out.new ≡ string_bytes out.old ++ (codes " n=" ++ (signed_decimal count ++ newline))) }
{
    out.push_str(" n=")?;
    push_signed(out, count)?;
    out.push_str("\n")
}

#[tactic(auto, unfolding(crate::specs::Lines::entry_line))]
fn push_entry(out: &mut String, at: usize, entry: &Entry) -> Result<(), AllocError>
    ensures { OnOk result (string_bytes out.new ≡ string_bytes out.old ++ entry_line at entry.now) }
{
    push_entry_head(out, at)?;
    push_place(out, &entry.place)?;
    out.push_str(" session=")?;
    push_session(out, &entry.session)?;
    out.push_str(" number=")?;
    push_number(out, entry.number)?;
    push_entry_end(out, entry.result.n)
}

/// The lines of a log.
#[tactic(auto, unfolding(crate::specs::Lines::entry_lines))]
pub fn push_entries(out: &mut String, entries: &[Entry]) -> Result<(), AllocError>
    ensures { OnOk result (string_bytes out.new ≡ string_bytes out.old ++ entry_lines 0 entries.now) }
{
    for (at, entry) in entries.iter().enumerate() {
        push_entry(out, at, entry)?;
    }
    Ok(())
}

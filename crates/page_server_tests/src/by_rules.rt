//! What one fault makes of a bulk write of ten writes in batches of three, by the rules of retries, of ordered and
//! unordered writes and of pages: which commands go out, which writes stand, and what the call answers. The rules are
//! written down here in plain numbers, without anything of the program but the forms in which a row tells its end.
use crate::asserting::Made;
use std::alloc::Global;
use std::process::Abort;
use test_parts::bulk_ends::{Ended, Failed, Source};

/// How many writes there are, in how many batches, and how many a batch has at most.
pub(crate) const WRITES: usize = 10;

const BATCHES: usize = 4;

const IN_BATCH: usize = 3;

/// A fault that an exchange meets.
#[derive(Clone, Copy, Debug, PartialEq, Eq)]
pub(crate) enum Fault {
    Lost,
    /// It arrives after the call.
    Late,
    ReplyLost,
    /// So many writes run, then code 11600 with the label of a retryable write.
    Interrupted(usize),
    /// The same without a label.
    BareInterrupted(usize),
    /// Nothing runs, and code 91 comes with that label.
    Refused,
    /// The same without a label.
    BareRefused,
    /// The write at this position of the batch fails with code 11000.
    Fails(usize),
    /// The write concern was not met, with code 64.
    Unmet,
}

/// A bulk write under one fault: whether it is ordered, whether it answers the result of each write, whether its fifth
/// write is an update of many documents, how many results a first page holds, and which exchange meets which fault.
#[derive(Clone, Copy, Debug, PartialEq, Eq)]
pub(crate) struct Row {
    pub(crate) ordered: bool,
    pub(crate) verbose: bool,
    pub(crate) many: bool,
    pub(crate) page: usize,
    pub(crate) at: usize,
    pub(crate) fault: Fault,
}

/// What a write does.
#[derive(Clone, Copy, PartialEq, Eq)]
pub(crate) enum Does {
    Inserts,
    Updates,
    Deletes,
}

/// What a call tells of a write.
#[derive(Clone, Copy, PartialEq, Eq)]
pub(crate) enum Told {
    Nothing,
    Done(Does),
    Failed(i32),
    /// Something else than these.
    Odd,
}

/// A command that went out: writes from an index on, so many, under a session and a number; or one of a cursor.
#[derive(Clone, Copy, PartialEq, Eq)]
pub(crate) enum Sent {
    Writes(usize, usize, u8, Option<i64>),
    More(u8),
    Kill,
    Other,
}

/// What the write at an index does.
pub(crate) fn work_of(index: usize) -> Does {
    match index {
        0 | 5 | 6 | 9 => Does::Inserts,
        2 | 7 => Does::Deletes,
        _ => Does::Updates,
    }
}

/// How many writes a batch has.
fn length(batch: usize) -> usize {
    if batch == 3 { 1 } else { IN_BATCH }
}

/// Whether the fault meets a question for the next page: where pages are smaller than batches, every second exchange is
/// one.
fn is_on_page(row: Row) -> bool {
    row.page < IN_BATCH && row.at % 2 == 1
}

/// The batch of the exchange that meets the fault.
fn met_batch(row: Row) -> usize {
    if row.page < IN_BATCH {
        row.at / 2
    } else {
        row.at
    }
}

/// Whether the writes of a batch meet the fault.
fn meets(row: Row, batch: usize) -> bool {
    met_batch(row) == batch && !is_on_page(row)
}

/// Whether the question for the next page of a batch meets it: a batch of one write has no next page.
fn page_meets(row: Row, batch: usize) -> bool {
    met_batch(row) == batch && is_on_page(row) && batch < 3
}

/// Whether a fault breaks the connection.
fn breaks(fault: Fault) -> bool {
    matches!(fault, Fault::Lost | Fault::Late | Fault::ReplyLost)
}

/// Whether a fault is an error that says that the write may be sent again.
fn says_again(fault: Fault) -> bool {
    matches!(fault, Fault::Interrupted(_) | Fault::Refused)
}

/// Whether a fault is an error in place of a reply.
fn is_error(fault: Fault) -> bool {
    says_again(fault) || matches!(fault, Fault::BareInterrupted(_) | Fault::BareRefused)
}

/// The code of such an error.
fn code(fault: Fault) -> i32 {
    match fault {
        Fault::Interrupted(_) | Fault::BareInterrupted(_) => 11600,
        _ => 91,
    }
}

/// Whether a batch has a number: no write of many is in it or behind it.
fn is_numbered(row: Row, batch: usize) -> bool {
    !row.many || batch > 1
}

/// Whether a batch goes out twice.
fn goes_again(row: Row, batch: usize) -> bool {
    meets(row, batch) && is_numbered(row, batch) && (breaks(row.fault) || says_again(row.fault))
}

/// Whether no reply tells of a batch.
fn is_untold(row: Row, batch: usize) -> bool {
    meets(row, batch) && !goes_again(row, batch) && (breaks(row.fault) || is_error(row.fault))
}

/// Whether the next page of a batch fails.
fn page_fails(row: Row, batch: usize) -> bool {
    page_meets(row, batch) && (breaks(row.fault) || is_error(row.fault))
}

/// Whether a write fails.
fn fails(row: Row, index: usize) -> bool {
    match row.fault {
        Fault::Fails(at) => meets(row, index / 3) && index % 3 == at,
        _ => false,
    }
}

/// The index of the write that fails.
fn failed(row: Row) -> Option<usize> {
    for index in 0..WRITES {
        if fails(row, index) {
            return Some(index);
        }
    }
    None
}

/// Whether a write fails in a batch.
fn fails_in(row: Row, batch: usize) -> bool {
    match failed(row) {
        Some(index) => index / 3 == batch,
        None => false,
    }
}

/// Whether nothing goes out behind a batch.
fn ends_with(row: Row, batch: usize) -> bool {
    is_untold(row, batch) || page_fails(row, batch) || row.ordered && fails_in(row, batch)
}

/// Whether a batch goes out.
fn goes_out(row: Row, batch: usize) -> bool {
    for earlier in 0..batch {
        if ends_with(row, earlier) {
            return false;
        }
    }
    true
}

/// Whether a write of the batch that meets the fault, and does not go out again, runs.
fn runs_by(row: Row, at: usize) -> bool {
    match row.fault {
        Fault::Late | Fault::ReplyLost | Fault::Unmet => true,
        Fault::Lost | Fault::Refused | Fault::BareRefused => false,
        Fault::Interrupted(count) | Fault::BareInterrupted(count) => at < count,
        Fault::Fails(failing) => at < failing || !row.ordered && at != failing,
    }
}

/// Whether a write runs, once a late send has arrived.
pub(crate) fn runs(row: Row, index: usize) -> bool {
    let batch = index / 3;
    if !goes_out(row, batch) {
        return false;
    }
    !meets(row, batch) || goes_again(row, batch) || runs_by(row, index % 3)
}

/// Whether a reply counts a write.
fn is_counted(row: Row, index: usize) -> bool {
    runs(row, index) && !is_untold(row, index / 3)
}

/// Whether the result of a write is on a page that came.
fn has_result(row: Row, index: usize) -> bool {
    is_counted(row, index) && (!page_fails(row, index / 3) || index % 3 < row.page)
}

/// What the call tells of a write.
pub(crate) fn telling(row: Row, index: usize) -> Told {
    if fails(row, index) {
        return Told::Failed(11000);
    }
    if row.verbose && has_result(row, index) {
        return Told::Done(work_of(index));
    }
    Told::Nothing
}

/// How many of the writes that are counted do this.
fn count(row: Row, wanted: Does) -> i64 {
    let mut count: i64 = 0;
    for index in 0..WRITES {
        if is_counted(row, index) && work_of(index) == wanted {
            count = count.wrapping_add(1);
        }
    }
    count
}

/// The counts that the call tells: each update changes one document.
fn counts(row: Row) -> [i64; 5] {
    let updated = count(row, Does::Updates);
    [
        count(row, Does::Inserts),
        updated,
        updated,
        0,
        count(row, Does::Deletes),
    ]
}

/// The first batch under the session of a batch: that of a connection that broke is not lent again.
fn first_of_session(row: Row, batch: usize) -> usize {
    for earlier in 0..batch {
        if goes_again(row, earlier) && breaks(row.fault) {
            return earlier.saturating_add(1);
        }
    }
    0
}

/// The session of a batch.
pub(crate) fn session(row: Row, batch: usize) -> u8 {
    if first_of_session(row, batch) == 0 {
        1
    } else {
        2
    }
}

/// The number of a batch, where it has one: numbers of a session count from 1.
pub(crate) fn number(row: Row, batch: usize) -> Option<i64> {
    if !is_numbered(row, batch) {
        return None;
    }
    let mut number: i64 = 1;
    for earlier in first_of_session(row, batch)..batch {
        if is_numbered(row, earlier) {
            number = number.wrapping_add(1);
        }
    }
    Some(number)
}

/// How many results the reply to a batch has: behind an error an ordered batch has none.
fn results(row: Row, batch: usize) -> usize {
    match failed(row) {
        Some(index) if row.ordered && index / 3 == batch => (index % 3).saturating_add(1),
        _ => length(batch),
    }
}

/// Puts the commands of a batch behind others.
fn push_commands(rt: &impl Abort, sent: &mut Vec<Sent>, row: Row, batch: usize) {
    let session = session(row, batch);
    let first = batch.saturating_mul(IN_BATCH);
    let writes = Sent::Writes(first, length(batch), session, number(row, batch));
    sent.push(writes).made(rt);
    if goes_again(row, batch) {
        sent.push(writes).made(rt);
    }
    if !is_untold(row, batch) && results(row, batch) > row.page {
        sent.push(Sent::More(session)).made(rt);
    }
    if page_fails(row, batch) && is_error(row.fault) {
        sent.push(Sent::Kill).made(rt);
    }
}

/// The commands that go out.
pub(crate) fn commands(rt: &impl Abort, alloc: Global, row: Row) -> Vec<Sent> {
    let mut sent = Vec::new(alloc);
    for batch in 0..BATCHES {
        if goes_out(row, batch) {
            push_commands(rt, &mut sent, row, batch);
        }
    }
    sent
}

/// Whether a batch or its next page ends the call with another error than a write's.
fn stops(row: Row) -> bool {
    let batch = met_batch(row);
    batch < BATCHES && (is_untold(row, batch) || page_fails(row, batch))
}

/// What caused the error of the call.
fn source(row: Row) -> Source {
    if !stops(row) {
        Source::None
    } else if breaks(row.fault) {
        Source::Reset
    } else {
        Source::Command(code(row.fault))
    }
}

/// Whether a write concern was not met.
fn is_unmet(row: Row) -> bool {
    matches!(row.fault, Fault::Unmet) && !is_on_page(row) && met_batch(row) < BATCHES
}

/// Whether the error is the first batch's own, without anything of a bulk write.
fn is_alone(row: Row) -> bool {
    is_untold(row, 0)
}

/// Whether that error says that the call may be made again.
pub(crate) fn is_again(row: Row) -> bool {
    is_alone(row) && says_again(row.fault)
}

/// The counts that an error tells: none where the first write of all failed in order.
fn partial(row: Row) -> Option<[i64; 5]> {
    if row.ordered && failed(row) == Some(0) {
        return None;
    }
    Some(counts(row))
}

/// The error of the bulk write. It keeps a reply where one spells a failure, or where a next page failed behind it.
fn failure(row: Row) -> Failed {
    let failed = failed(row);
    let unmet = is_unmet(row);
    let first = match failed {
        Some(index) => Some((index, 11000)),
        None => None,
    };
    let replied = failed.is_some() || unmet || page_fails(row, met_batch(row));
    Failed(
        if failed.is_some() { 1 } else { 0 },
        first,
        if unmet { 1 } else { 0 },
        partial(row),
        source(row),
        false,
        replied,
    )
}

/// How the call ends.
pub(crate) fn ended(row: Row) -> Ended {
    if is_alone(row) && breaks(row.fault) {
        return Ended::Reset;
    }
    if is_alone(row) {
        return Ended::Command(code(row.fault));
    }
    if stops(row) || failed(row).is_some() || is_unmet(row) {
        return Ended::Bulk(failure(row));
    }
    Ended::Done(counts(row), if row.verbose { WRITES } else { 0 })
}

//! What the statements of a send count together. A sum past an i64 has no memory either.
ghost use Rattle.std.specs.Prelude.{◌≡◌, ◌+ℤ◌, List as Listed, count_by, filter, is_none, is_some, IfOk};
ghost use Rattle.std.specs.List.{cons_option};
ghost use Rattle.std.specs.Option.{option_copied};
ghost use Rattle.driver_link.specs.Replies.{result_of, results_in, sum_of, is_kind as same_kind, kept_where, results_of_kind};
ghost use Rattle.driver_link.specs.Statements.{is_failed as failed};
ghost use Rattle.driver_link.specs.declared.machine.Counted.{Counted as Count};

use driver_link::{Counted, PlacedWrite, Statement, WriteKind};
use model_statements::statements::is_failed;
use std::alloc::AllocError;

/// The sum of two numbers.
fn plus(a: i64, b: i64) -> Result<i64, AllocError>
    ensures { IfOk result (λ sum. sum ≡ a +ℤ b) }
{
    match a.checked_add(b) {
        Some(sum) => Ok(sum),
        None => Err(AllocError),
    }
}

/// What a statement counts: one that failed counts nothing.
pub fn counts_of(statement: &Statement) -> Option<&Counted>
    ensures { option_copied result ≡ result_of statement.now }
{
    match statement {
        Statement::Kept(counts) => Some(counts),
        Statement::Ran(counts) => Some(counts),
        Statement::Failed(_) => None,
    }
}

/// Whether two writes do the same.
fn is_kind(a: WriteKind, b: WriteKind) -> bool
    ensures { result ≡ same_kind a b }
{
    match (a, b) {
        (WriteKind::Insert, WriteKind::Insert) => true,
        (WriteKind::Update, WriteKind::Update) => true,
        (WriteKind::Delete, WriteKind::Delete) => true,
        (WriteKind::FindAndModify, WriteKind::FindAndModify) => true,
        _ => false,
    }
}

/// What a statement counts whose write is of a kind.
fn counted_of_kind<'a>(
    does: WriteKind,
    write: &PlacedWrite,
    statement: &'a Statement,
) -> Option<&'a Counted>
    ensures { (rest : Listed Count) →
        cons_option (option_copied result) rest ≡
        kept_where (same_kind does write.now.written.kind) (result_of statement.now) rest }
{
    if is_kind(does, write.written.get().kind) {
        return counts_of(statement);
    }
    None
}

/// The sum of `n` over the statements that did not fail.
#[tactic(auto, unfolding(driver_link::specs::Replies::sum_of))]
pub fn sum_n(done: &[Statement]) -> Result<i64, AllocError>
    ensures { IfOk result (λ sum. sum ≡ sum_of (λ counts. counts.n) (results_in done.now)) }
{
    let mut sum = 0;
    for statement in done {
        match counts_of(statement) {
            Some(counts) => sum = plus(sum, counts.n)?,
            None => {}
        }
    }
    Ok(sum)
}

/// The sum of `modified` over the statements that did not fail.
#[tactic(auto, unfolding(driver_link::specs::Replies::sum_of))]
pub fn sum_modified(done: &[Statement]) -> Result<i64, AllocError>
    ensures { IfOk result (λ sum. sum ≡ sum_of (λ counts. counts.modified) (results_in done.now)) }
{
    let mut sum = 0;
    for statement in done {
        match counts_of(statement) {
            Some(counts) => sum = plus(sum, counts.modified)?,
            None => {}
        }
    }
    Ok(sum)
}

/// How many statements failed.
pub fn failures(done: &[Statement]) -> usize
    ensures { result ≡ count_by failed done.now }
{
    let mut failures = 0;
    for statement in done {
        if is_failed(statement) {
            failures += 1;
        }
    }
    failures
}

/// The sum of `n` over the writes of a kind.
#[tactic(auto, unfolding(driver_link::specs::Replies::sum_of, driver_link::specs::Replies::results_of_kind))]
pub fn sum_of_kind(
    does: WriteKind,
    writes: &[PlacedWrite],
    done: &[Statement],
) -> Result<i64, AllocError>
    ensures { IfOk result
        (λ sum. sum ≡ sum_of (λ counts. counts.n) (results_of_kind does writes.now done.now)) }
{
    let mut sum = 0;
    for (at, write) in writes.iter().enumerate() {
        if at >= done.len() {
            return Ok(sum);
        }
        match counted_of_kind(does, write, &done[at]) {
            Some(counts) => sum = plus(sum, counts.n)?,
            None => {}
        }
    }
    Ok(sum)
}

/// The sum of `n` over the updates that inserted nothing.
#[tactic(auto, unfolding(driver_link::specs::Replies::sum_of, driver_link::specs::Replies::results_of_kind))]
pub fn count_of_matched(writes: &[PlacedWrite], done: &[Statement]) -> Result<i64, AllocError>
    ensures { IfOk result
        (λ sum. sum ≡ sum_of (λ counts. counts.n)
        (filter (λ counts. is_none counts.upserted) (results_of_kind WriteKind.Update writes.now done.now))) }
{
    let mut sum = 0;
    for (at, write) in writes.iter().enumerate() {
        if at >= done.len() {
            return Ok(sum);
        }
        match counted_of_kind(WriteKind::Update, write, &done[at]) {
            Some(counts) => match &counts.upserted {
                None => sum = plus(sum, counts.n)?,
                Some(_) => {}
            },
            None => {}
        }
    }
    Ok(sum)
}

/// The sum of `modified` over the updates.
#[tactic(auto, unfolding(driver_link::specs::Replies::sum_of, driver_link::specs::Replies::results_of_kind))]
pub fn count_of_modified(writes: &[PlacedWrite], done: &[Statement]) -> Result<i64, AllocError>
    ensures { IfOk result
        (λ sum. sum ≡
        sum_of (λ counts. counts.modified) (results_of_kind WriteKind.Update writes.now done.now)) }
{
    let mut sum = 0;
    for (at, write) in writes.iter().enumerate() {
        if at >= done.len() {
            return Ok(sum);
        }
        match counted_of_kind(WriteKind::Update, write, &done[at]) {
            Some(counts) => sum = plus(sum, counts.modified)?,
            None => {}
        }
    }
    Ok(sum)
}

/// How many updates inserted a document.
#[tactic(auto, unfolding(driver_link::specs::Replies::results_of_kind))]
pub fn count_of_upserted(writes: &[PlacedWrite], done: &[Statement]) -> usize
    ensures { result ≡
        count_by (λ counts. is_some counts.upserted) (results_of_kind WriteKind.Update writes.now done.now) }
{
    let mut inserted = 0;
    for (at, write) in writes.iter().enumerate() {
        if at >= done.len() {
            return inserted;
        }
        match counted_of_kind(WriteKind::Update, write, &done[at]) {
            Some(counts) => match &counts.upserted {
                Some(_) => inserted += 1,
                None => {}
            },
            None => {}
        }
    }
    inserted
}

//! The statements of a send: which of them run, what they count, and what they leave.
ghost use Rattle.std.specs.Prelude.{◌≡◌, false, [], IfOk};
ghost use Rattle.std.specs.List.{list_any};
ghost use Rattle.driver_link.specs.Statements.{usual_modified, counts_by_plan, planned_at, code_at as failing_code, statement_at, is_failed as failed, is_run as run, statements as all_statements, front_to_run, usual_statements, has_run as some_run, has_failed as some_failed, entry_of, entries_of, no_plan};
ghost use Rattle.model_statements.specs.Ran.{ran_at, runs_first};

use bson_lite::{ByIndex, List, TryClone};
use driver_link::{Counted, Entry, Failing, PlacedWrite, Planned, Statement, WriteKind};
use std::alloc::{AllocError, Global};

/// How many documents a statement changes where no schedule says so.
fn usual_change(does: WriteKind) -> i64
    ensures { result ≡ usual_modified does }
{
    match does {
        WriteKind::Update => 1,
        _ => 0,
    }
}

/// What a statement counts by its plan.
fn by_plan(alloc: Global, does: WriteKind, planned: &Planned) -> Result<Counted, AllocError>
    ensures { IfOk result (λ count. count ≡ counts_by_plan does planned.now) }
{
    Ok(Counted {
        n: planned.n.unwrap_or(1),
        modified: planned.modified.unwrap_or(usual_change(does)),
        upserted: planned.upserted.try_clone(alloc)?,
        value: planned.value.try_clone(alloc)?,
    })
}

/// What a statement counts where no plan says anything.
fn as_usual(does: WriteKind) -> Counted
    ensures { result ≡ counts_by_plan does no_plan }
{
    Counted {
        n: 1,
        modified: usual_change(does),
        upserted: None,
        value: None,
    }
}

/// What the statement at a position counts.
fn count_at(
    alloc: Global,
    results: &[Planned],
    at: usize,
    does: WriteKind,
) -> Result<Counted, AllocError>
    ensures { IfOk result (λ count. count ≡ counts_by_plan does (planned_at results.now at)) }
{
    if at >= results.len() {
        return Ok(as_usual(does));
    }
    by_plan(alloc, does, &results[at])
}

/// The code with which the statement at a position fails.
#[tactic(auto, unfolding(driver_link::specs::Statements::code_at))]
fn code_at(fail: &[Failing], at: usize) -> Option<i32>
    ensures { result ≡ failing_code fail.now at }
{
    for failing in fail {
        if failing.at == at as u64 {
            return Some(failing.code);
        }
    }
    None
}

/// A copy of a result.
pub fn copy_counts(alloc: Global, counts: &Counted) -> Result<Counted, AllocError>
    ensures { IfOk result (λ copy. copy ≡ counts.now) }
{
    Ok(Counted {
        n: counts.n,
        modified: counts.modified,
        upserted: counts.upserted.try_clone(alloc)?,
        value: counts.value.try_clone(alloc)?,
    })
}

/// What the statement at a position comes to.
fn statement(
    alloc: Global,
    results: &[Planned],
    fail: &[Failing],
    kept: &ByIndex<Counted>,
    at: usize,
    write: &PlacedWrite,
) -> Result<Statement, AllocError>
    ensures { IfOk result (λ statement. statement ≡ statement_at results.now fail.now kept.now at write.now) }
{
    if let Some(before) = kept.get(at) {
        return Ok(Statement::Kept(copy_counts(alloc, before)?));
    }
    if let Some(code) = code_at(fail, at) {
        return Ok(Statement::Failed(code));
    }
    let count = count_at(alloc, results, at, write.written.get().kind)?;
    Ok(Statement::Ran(count))
}

/// Whether a statement failed.
pub fn is_failed(statement: &Statement) -> bool
    ensures { result ≡ failed statement.now }
{
    matches!(statement, Statement::Failed(_))
}

/// Whether a statement ran now.
fn is_run(statement: &Statement) -> bool
    ensures { result ≡ run statement.now }
{
    matches!(statement, Statement::Ran(_))
}

/// The statements of writes in order. An ordered send stops at one that fails.
#[tactic(auto, unfolding(driver_link::specs::Statements::statements))]
pub fn statements(
    alloc: Global,
    results: &[Planned],
    fail: &[Failing],
    ordered: bool,
    kept: &ByIndex<Counted>,
    writes: &[PlacedWrite],
) -> Result<List<Statement>, AllocError>
    ensures { IfOk result (λ done. done ≡ all_statements results.now fail.now ordered kept.now 0 writes.now) }
{
    let mut done = List::with_capacity(alloc, writes.len())?;
    for (at, write) in writes.iter().enumerate() {
        let next = statement(alloc, results, fail, kept, at, write)?;
        let stops = ordered && is_failed(&next);
        done.push(next)?;
        if stops {
            return Ok(done);
        }
    }
    Ok(done)
}

/// The statements of the first writes, so many of them without a kept result, where no schedule says
/// anything.
#[tactic(auto, unfolding(driver_link::specs::Statements::statements, driver_link::specs::Statements::front_to_run, driver_link::specs::Statements::code_at))]
pub fn first_statements(
    alloc: Global,
    kept: &ByIndex<Counted>,
    most: u64,
    writes: &[PlacedWrite],
) -> Result<List<Statement>, AllocError>
    ensures { IfOk result
        (λ done. done ≡ usual_statements kept.now (front_to_run kept.now 0 most writes.now)) }
{
    let mut left = most;
    let mut done = List::new(alloc);
    for (at, write) in writes.iter().enumerate() {
        match kept.get(at) {
            Some(before) => done.push(Statement::Kept(copy_counts(alloc, before)?))?,
            None => {
                if left == 0 {
                    return Ok(done);
                }
                left -= 1;
                done.push(Statement::Ran(as_usual(write.written.get().kind)))?;
            }
        }
    }
    Ok(done)
}

/// Whether a statement ran now.
pub fn has_run(done: &[Statement]) -> bool
    ensures { result ≡ some_run done.now }
{
    for statement in done {
        if is_run(statement) {
            return true;
        }
    }
    false
}

/// Whether a statement failed.
pub fn has_failed(done: &[Statement]) -> bool
    ensures { result ≡ some_failed done.now }
{
    for statement in done {
        if is_failed(statement) {
            return true;
        }
    }
    false
}

/// Whether a statement ran before the first that failed.
#[tactic(auto, unfolding(crate::specs::Ran::runs_first))]
pub fn has_run_before_failing(done: &[Statement]) -> bool
    ensures { result ≡ runs_first done.now }
{
    for statement in done {
        match statement {
            Statement::Ran(_) => return true,
            Statement::Failed(_) => return false,
            Statement::Kept(_) => {}
        }
    }
    false
}

/// The entry of a write that ran.
fn entry(
    alloc: Global,
    session: Option<[u8; 16]>,
    number: Option<i64>,
    write: &PlacedWrite,
    counts: &Counted,
) -> Result<Entry, AllocError>
    ensures { IfOk result (λ entry. entry ≡ entry_of session number write.now counts.now) }
{
    Ok(Entry {
        place: write.place,
        written: write.written.try_clone(alloc)?,
        result: copy_counts(alloc, counts)?,
        session,
        number,
    })
}

/// The entries of the writes that ran, in order.
#[tactic(auto, unfolding(driver_link::specs::Statements::entries_of))]
pub fn entries(
    alloc: Global,
    session: Option<[u8; 16]>,
    number: Option<i64>,
    writes: &[PlacedWrite],
    done: &[Statement],
) -> Result<List<Entry>, AllocError>
    ensures { IfOk result (λ entries. entries ≡ entries_of session number writes.now done.now) }
{
    let mut entries = List::with_capacity(alloc, done.len())?;
    for (at, write) in writes.iter().enumerate() {
        if at >= done.len() {
            return Ok(entries);
        }
        match &done[at] {
            Statement::Ran(counts) => entries.push(entry(alloc, session, number, write, counts)?)?,
            _ => {}
        }
    }
    Ok(entries)
}

/// The results of the statements that ran, by their positions.
#[tactic(auto, unfolding(crate::specs::Ran::ran_at))]
pub fn ran_results(alloc: Global, done: &[Statement]) -> Result<List<(usize, Counted)>, AllocError>
    ensures { IfOk result (λ results. results ≡ ran_at 0 done.now) }
{
    let mut results = List::with_capacity(alloc, done.len())?;
    for (at, statement) in done.iter().enumerate() {
        match statement {
            Statement::Ran(counts) => results.push((at, copy_counts(alloc, counts)?))?,
            _ => {}
        }
    }
    Ok(results)
}

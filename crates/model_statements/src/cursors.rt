//! The results of a bulk write as documents, page by page.
ghost use Rattle.std.specs.Prelude.{◌≡◌, ◌++◌, OnOk, IfOk};
ghost use Rattle.std.specs.Option.{option_copied};
ghost use Rattle.driver_link.specs.Cursors.{upsert_of_row, modified_field, result_row as row_of_result, failure_row as row_of_failure, row as row_of, rows as all_rows, first_page as page_first, pages_left as pages_rest, cursor_number as number_of, place_of as cursor_place, results_left as rest_of};

use crate::fields::{count, number};
use bson_lite::{Bson, Document, ID_KEY, List, Text, TryClone};
use driver_link::{Counted, PlacedWrite, Statement, WriteKind};
use std::alloc::{AllocError, Global};
use wire_keys::keys::{CODE, ERROR_MESSAGE, N, N_MODIFIED, RESULT_INDEX, SCHEDULED, UPSERTED};

/// Appends how many documents an update changed.
fn push_modified(row: &mut Document, does: WriteKind, modified: i64) -> Result<(), AllocError>
    ensures { OnOk result (row.new ≡ row.old ++ modified_field does modified) }
{
    match does {
        WriteKind::Update => row.push(N_MODIFIED, number(modified)),
        _ => Ok(()),
    }
}

/// Appends the id of a document that an update inserted, where there is one.
fn push_upserted(alloc: Global, row: &mut Document, counts: &Counted) -> Result<(), AllocError>
    ensures { OnOk result (row.new ≡ row.old ++ upsert_of_row counts.now.upserted) }
{
    match &counts.upserted {
        Some(id) => {
            let mut inserted = Document::new(alloc);
            inserted.push(ID_KEY, id.try_clone(alloc)?)?;
            row.push(UPSERTED, Bson::Document(inserted))
        }
        None => Ok(()),
    }
}

/// The document of a result.
fn result_row(
    alloc: Global,
    at: usize,
    does: WriteKind,
    counts: &Counted,
) -> Result<Document, AllocError>
    ensures { IfOk result (λ row. row ≡ row_of_result at does counts.now) }
{
    let mut row = Document::new(alloc);
    row.push(RESULT_INDEX, count(at)?)?;
    row.push(N, number(counts.n))?;
    push_modified(&mut row, does, counts.modified)?;
    push_upserted(alloc, &mut row, counts)?;
    Ok(row)
}

/// The document of a failure.
fn failure_row(alloc: Global, at: usize, code: i32) -> Result<Document, AllocError>
    ensures { IfOk result (λ row. row ≡ row_of_failure at code) }
{
    let mut row = Document::new(alloc);
    row.push(RESULT_INDEX, count(at)?)?;
    row.push(CODE, Bson::Int32(code))?;
    row.push(
        ERROR_MESSAGE,
        Bson::String(Text::from_str(alloc, SCHEDULED)?),
    )?;
    Ok(row)
}

/// The document of a statement.
fn row(
    alloc: Global,
    at: usize,
    does: WriteKind,
    statement: &Statement,
) -> Result<Document, AllocError>
    ensures { IfOk result (λ row. row ≡ row_of at does statement.now) }
{
    match statement {
        Statement::Kept(counts) => result_row(alloc, at, does, counts),
        Statement::Ran(counts) => result_row(alloc, at, does, counts),
        Statement::Failed(code) => failure_row(alloc, at, *code),
    }
}

/// The documents of the statements of writes.
#[tactic(auto, unfolding(driver_link::specs::Cursors::rows))]
pub fn rows(
    alloc: Global,
    writes: &[PlacedWrite],
    done: &[Statement],
) -> Result<List<Document>, AllocError>
    ensures { IfOk result (λ rows. rows ≡ all_rows 0 writes.now done.now) }
{
    let mut rows = List::new(alloc);
    for (at, write) in writes.iter().enumerate() {
        if at >= done.len() {
            return Ok(rows);
        }
        rows.push(row(alloc, at, write.written.get().kind, &done[at])?)?;
    }
    Ok(rows)
}

/// The results on the first page.
#[tactic(auto, using(std::proofs::lemmas::List::take_all))]
pub fn first_page(page: Option<u64>, results: &[Document]) -> &[Document]
    ensures { result.now ≡ page_first page results.now }
{
    match page {
        Some(most) => {
            if most >= results.len() as u64 {
                return results;
            }
            &results[..most as usize]
        }
        None => results,
    }
}

/// The results that the first page does not hold.
#[tactic(auto, using(std::proofs::lemmas::List::drop_all))]
pub fn pages_left(page: Option<u64>, results: &[Document]) -> &[Document]
    ensures { result.now ≡ pages_rest page results.now }
{
    match page {
        Some(most) => {
            if most >= results.len() as u64 {
                return &[];
            }
            &results[most as usize..]
        }
        None => &[],
    }
}

/// The number of the cursor that has these results, after those that there are; 0 where there are none.
pub fn cursor_number(left: &[Document], cursors: &[Option<List<Document>>]) -> usize
    ensures { result ≡ number_of left.now cursors.now }
{
    if left.is_empty() {
        return 0;
    }
    cursors.len() + 1
}

/// The place of a cursor by its number.
pub fn place_of(cursor: i64) -> Option<usize>
    ensures { result ≡ cursor_place cursor }
{
    if cursor <= 0 {
        return None;
    }
    Some(cursor as usize - 1)
}

/// What is left of a cursor's results, where it is open.
#[tactic(auto, unfolding(driver_link::specs::Cursors::results_left))]
pub fn results_left(cursors: &[Option<List<Document>>], cursor: i64) -> Option<&List<Document>>
    ensures { option_copied result ≡ rest_of cursor cursors.now }
{
    let at = place_of(cursor)?;
    if at >= cursors.len() {
        return None;
    }
    match &cursors[at] {
        Some(left) => Some(left),
        None => None,
    }
}

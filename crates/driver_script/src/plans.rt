//! Readers of what a schedule plans for a send that is served.
ghost use Rattle.std.specs.Prelude.{◌≡◌, pos, IfOk};
ghost use Rattle.std.specs.Option.{option_map};
ghost use Rattle.script_parts.specs.Json.{GivesPart};
ghost use Rattle.driver_script.specs.Plans.{built_code, built_plan, concern_error_of, failing_of, is_built_code, is_spelled_within, may_be_found, may_be_upserted, planned_of, serve_of, serve_with};
ghost use Rattle.script_parts.specs.inside.Tree.{view};

use crate::from_json::{FromJson, read_needed, read_optional};
use bson_lite::{Bson, Document, List, TryClone, refusal_within};
use driver_link::{Failing, Item, Planned, PlannedConcern};
use script_parts::forms::{Unread, is_object_of};
use script_parts::keys::{
    CODE, FAIL, MESSAGE, MODIFIED, N, PAGE, RESULTS, UPSERTED, VALUE, WRITE_CONCERN_ERROR,
};
use script_parts::tree::Json;
use std::alloc::{AllocError, Global};

/// The levels that a document may nest which stands in a reply.
const LEVELS: u32 = 95;

/// The levels of a document around a value that stands in a reply.
const LEVELS_AROUND: u32 = 96;

/// Whether an item may answer this code.
#[tactic(auto, unfolding(crate::specs::Plans::is_built_code))]
pub(crate) fn is_built_code(code: i32) -> bool
    ensures { result ≡ is_built_code code }
{
    // It asks for another authentication: no statement that ran answers it, and a refused send does not yet.
    code != 391
}

/// A code, where it is one that may be answered.
#[tactic(auto, unfolding(crate::specs::Plans::built_code))]
fn built_code(code: i32) -> Result<i32, Unread>
    ensures { GivesPart result (built_code code) }
{
    if is_built_code(code) {
        return Ok(code);
    }
    Err(Unread::Wrong)
}

/// Whether a document has a spelling, and nests no deeper than so many levels.
#[tactic(auto, unfolding(crate::specs::Plans::is_spelled_within))]
fn is_spelled_within(levels: u32, document: &Document) -> bool
    ensures { result ≡ is_spelled_within levels document.now }
{
    match refusal_within(document, levels) {
        None => true,
        Some(_) => false,
    }
}

/// Whether a reply can hold this document.
fn may_be_found(found: &Option<Document>) -> bool
    ensures { result ≡ may_be_found found.now }
{
    match found {
        None => true,
        Some(document) => is_spelled_within(LEVELS, document),
    }
}

/// Whether a reply can hold this value.
fn may_be_upserted(alloc: Global, upserted: &Option<Bson>) -> Result<bool, AllocError>
    ensures { IfOk result (λ may. may ≡ may_be_upserted upserted.now) }
{
    match upserted {
        None => Ok(true),
        Some(value) => {
            let mut around = Document::new(alloc);
            around.push("", value.try_clone(alloc)?)?;
            Ok(is_spelled_within(LEVELS_AROUND, &around))
        }
    }
}

/// What is planned for a statement, where a reply can hold it.
#[tactic(auto, unfolding(crate::specs::Plans::built_plan))]
fn built_plan(alloc: Global, planned: Planned) -> Result<Planned, Unread>
    ensures { GivesPart result (built_plan planned) }
{
    let held = may_be_upserted(alloc, &planned.upserted)?;
    if held && may_be_found(&planned.value) {
        return Ok(planned);
    }
    Err(Unread::Wrong)
}

/// A count of 32 bits as a number of 64.
fn widened(count: Option<u32>) -> Option<i64>
    ensures { result ≡ option_map pos count }
{
    match count {
        None => None,
        Some(count) => Some(i64::from(count)),
    }
}

impl FromJson for Planned {
    ghost spec = { planned_of };

    #[tactic(auto, unfolding(crate::specs::Plans::planned_of, crate::specs::Plans::plan_in))]
    fn read(alloc: Global, value: &Json<'_, '_>) -> Result<Planned, Unread> {
        if !is_object_of(value, &[N, MODIFIED, UPSERTED, VALUE]) {
            return Err(Unread::Wrong);
        }
        let n = read_optional(alloc, value, N)?;
        let modified = read_optional(alloc, value, MODIFIED)?;
        let upserted = read_optional(alloc, value, UPSERTED)?;
        let found = read_optional(alloc, value, VALUE)?;
        built_plan(
            alloc,
            Planned {
                n: widened(n),
                modified: widened(modified),
                upserted,
                value: found,
            },
        )
    }
}

impl FromJson for Failing {
    ghost spec = { failing_of };

    #[tactic(auto, unfolding(crate::specs::Plans::failing_of, crate::specs::Plans::failing_in, script_parts::specs::Values::item_of))]
    fn read(alloc: Global, value: &Json<'_, '_>) -> Result<Failing, Unread> {
        if value.at(2).is_some() {
            return Err(Unread::Wrong);
        }
        let (Some(place), Some(code)) = (value.at(0), value.at(1)) else {
            return Err(Unread::Wrong);
        };
        let at = u64::read(alloc, &place)?;
        let code = built_code(i32::read(alloc, &code)?)?;
        Ok(Failing { at, code })
    }
}

impl FromJson for PlannedConcern {
    ghost spec = { concern_error_of };

    #[tactic(auto, unfolding(crate::specs::Plans::concern_error_of, crate::specs::Plans::concern_error_in))]
    fn read(alloc: Global, value: &Json<'_, '_>) -> Result<PlannedConcern, Unread> {
        if !is_object_of(value, &[CODE, MESSAGE]) {
            return Err(Unread::Wrong);
        }
        let code = read_needed(alloc, value, CODE)?;
        let message = read_needed(alloc, value, MESSAGE)?;
        let code = built_code(code)?;
        Ok(PlannedConcern { code, message })
    }
}

/// A send that is served with these results, failures and write concern error, and a first page of so many results.
fn serve_with(
    alloc: Global,
    results: Option<List<Planned>>,
    fail: Option<List<Failing>>,
    concern: Option<PlannedConcern>,
    page: Option<u64>,
) -> Item
    ensures { result ≡ serve_with results fail concern page }
{
    Item::Serve {
        results: results.unwrap_or(List::new(alloc)),
        fail: fail.unwrap_or(List::new(alloc)),
        write_concern_error: concern,
        page,
    }
}

/// A send that is served, of which these parts are set.
#[tactic(auto, unfolding(crate::specs::Plans::serve_of, crate::specs::Plans::serve_in))]
pub(crate) fn served(alloc: Global, value: &Json<'_, '_>) -> Result<Item, Unread>
    ensures { GivesPart result (serve_of (view value.now)) }
{
    if !is_object_of(value, &[RESULTS, FAIL, WRITE_CONCERN_ERROR, PAGE]) {
        return Err(Unread::Wrong);
    }
    let results = read_optional(alloc, value, RESULTS)?;
    let fail = read_optional(alloc, value, FAIL)?;
    let concern = read_optional(alloc, value, WRITE_CONCERN_ERROR)?;
    let page = read_optional(alloc, value, PAGE)?;
    Ok(serve_with(alloc, results, fail, concern, page))
}

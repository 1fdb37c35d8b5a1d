//! Readers of the script's schedule: its steps, and the calls of the link that fail.
ghost use Rattle.std.specs.Prelude.{◌≡◌, None};
ghost use Rattle.std.specs.List.{list_all};
ghost use Rattle.driver_link.specs.Exchange.{usual_item};
ghost use Rattle.script_parts.specs.Json.{GivesPart};
ghost use Rattle.driver_script.specs.ScheduleSteps.{built_reply, delivering_of, faults_of, interrupted_of, is_built_label, item_in, item_named, item_under, no_faults, refused_of, reply_of, schedule_with, step_of};
ghost use Rattle.script_parts.specs.inside.Tree.{view};
ghost use Rattle.json.specs.Find.{as_str};

use crate::from_json::{FromJson, read_needed, read_optional};
use crate::plans::{is_built_code, served};
use bson_lite::{List, Text};
use driver_error::{RETRYABLE_ERROR, SYSTEM_OVERLOADED_ERROR};
use driver_link::{Item, Schedule, Scheduled};
use script_parts::forms::{Unread, is_object_of};
use script_parts::keys::{
    AFTER, CHECK_OUT, CODE, DELIVER, INTERRUPTED, ITEM, LABELS, LATE, LOST, REFUSED, REPLY_LOST,
    SELECT, SERVE,
};
use script_parts::tree::Json;
use std::alloc::Global;

/// What an item answers: an error with these labels.
#[derive(Drop)]
pub(crate) struct ErrorReply {
    pub code: i32,
    pub labels: List<Text>,
}

/// The calls of the link that fail, by their numbers from 0.
#[derive(Drop)]
pub(crate) struct Faults {
    pub selects: List<u64>,
    pub check_outs: List<u64>,
}

/// Whether an item may answer this label.
#[tactic(auto, unfolding(crate::specs::ScheduleSteps::is_built_label))]
fn is_built_label(label: &str) -> bool
    ensures { result ≡ is_built_label label.now }
{
    // Not built yet.
    !(label == SYSTEM_OVERLOADED_ERROR || label == RETRYABLE_ERROR)
}

/// Whether an item may answer these labels.
fn are_built(labels: &[Text]) -> bool
    ensures { result ≡ list_all is_built_label labels.now }
{
    for label in labels {
        if !is_built_label(label.as_str()) {
            return false;
        }
    }
    true
}

/// An error reply, where its code and its labels are built.
#[tactic(auto, unfolding(crate::specs::ScheduleSteps::built_reply))]
fn built_reply(reply: ErrorReply) -> Result<ErrorReply, Unread>
    ensures { GivesPart result (built_reply reply) }
{
    if is_built_code(reply.code) && are_built(reply.labels.as_slice()) {
        return Ok(reply);
    }
    Err(Unread::Wrong)
}

/// The error reply whose parts stand under their keys.
#[tactic(auto, unfolding(crate::specs::ScheduleSteps::reply_of))]
fn read_reply(alloc: Global, value: &Json<'_, '_>) -> Result<ErrorReply, Unread>
    ensures { GivesPart result (reply_of (view value.now)) }
{
    let code = read_needed(alloc, value, CODE)?;
    let labels = read_needed(alloc, value, LABELS)?;
    built_reply(ErrorReply { code, labels })
}

#[tactic(auto, unfolding(crate::specs::ScheduleSteps::interrupted_of))]
fn interrupted(alloc: Global, value: &Json<'_, '_>) -> Result<Item, Unread>
    ensures { GivesPart result (interrupted_of (view value.now)) }
{
    if !is_object_of(value, &[AFTER, CODE, LABELS]) {
        return Err(Unread::Wrong);
    }
    let after = read_needed(alloc, value, AFTER)?;
    let ErrorReply { code, labels } = read_reply(alloc, value)?;
    Ok(Item::Interrupted {
        after,
        code,
        labels,
    })
}

#[tactic(auto, unfolding(crate::specs::ScheduleSteps::refused_of))]
fn refused(alloc: Global, value: &Json<'_, '_>) -> Result<Item, Unread>
    ensures { GivesPart result (refused_of (view value.now)) }
{
    if !is_object_of(value, &[CODE, LABELS]) {
        return Err(Unread::Wrong);
    }
    let ErrorReply { code, labels } = read_reply(alloc, value)?;
    Ok(Item::Refused { code, labels })
}

/// The item of a name.
#[tactic(auto, unfolding(crate::specs::ScheduleSteps::item_named))]
fn item_named(alloc: Global, name: &str) -> Result<Item, Unread>
    ensures { GivesPart result (item_named name.now) }
{
    if name == SERVE {
        return Ok(usual_item(alloc));
    }
    if name == LOST {
        return Ok(Item::Lost);
    }
    if name == LATE {
        return Ok(Item::Late);
    }
    if name == REPLY_LOST {
        return Ok(Item::ReplyLost);
    }
    Err(Unread::Wrong)
}

/// The item by which an exchange is served and answered as usual.
fn usual_item(alloc: Global) -> Item
    ensures { result ≡ usual_item }
{
    Item::Serve {
        results: List::new(alloc),
        fail: List::new(alloc),
        write_concern_error: None,
        page: None,
    }
}

/// The item whose parts stand under its name.
#[tactic(auto, unfolding(crate::specs::ScheduleSteps::item_under))]
fn item_under(alloc: Global, name: &str, value: &Json<'_, '_>) -> Result<Item, Unread>
    ensures { GivesPart result (item_under name.now (view value.now)) }
{
    if name == SERVE {
        return served(alloc, value);
    }
    if name == INTERRUPTED {
        return interrupted(alloc, value);
    }
    if name == REFUSED {
        return refused(alloc, value);
    }
    Err(Unread::Wrong)
}

/// The item of an object, whose one key names it.
#[tactic(auto, using(crate::proofs::OneKey::item_one, crate::proofs::OneKey::item_none))]
fn read_named_item(alloc: Global, value: &Json<'_, '_>) -> Result<Item, Unread>
    requires { as_str value.now ≡ None }
    ensures { GivesPart result (item_in (view value.now)) }
{
    match value.only_member() {
        Some((name, inner)) => item_under(alloc, name, &inner),
        None => Err(Unread::Wrong),
    }
}

impl FromJson for Item {
    ghost spec = { item_in };

    #[tactic(auto, unfolding(crate::specs::ScheduleSteps::item_in))]
    fn read(alloc: Global, value: &Json<'_, '_>) -> Result<Item, Unread> {
        match value.as_str() {
            Some(name) => item_named(alloc, name),
            None => read_named_item(alloc, value),
        }
    }
}

/// A step with the waiting sends to serve before its item.
#[tactic(auto, unfolding(crate::specs::ScheduleSteps::delivering_of))]
fn delivering(alloc: Global, value: &Json<'_, '_>) -> Result<Scheduled, Unread>
    ensures { GivesPart result (delivering_of (view value.now)) }
{
    let deliver = read_needed(alloc, value, DELIVER)?;
    let item = read_needed(alloc, value, ITEM)?;
    Ok(Scheduled { deliver, item })
}

impl FromJson for Scheduled {
    ghost spec = { step_of };

    #[tactic(auto, unfolding(crate::specs::ScheduleSteps::step_of))]
    fn read(alloc: Global, value: &Json<'_, '_>) -> Result<Scheduled, Unread> {
        if is_object_of(value, &[DELIVER, ITEM]) {
            return delivering(alloc, value);
        }
        let item = Item::read(alloc, value)?;
        Ok(Scheduled {
            deliver: List::new(alloc),
            item,
        })
    }
}

impl FromJson for Faults {
    ghost spec = { faults_of };

    #[tactic(auto, unfolding(crate::specs::ScheduleSteps::faults_of))]
    fn read(alloc: Global, value: &Json<'_, '_>) -> Result<Faults, Unread> {
        if !is_object_of(value, &[SELECT, CHECK_OUT]) {
            return Err(Unread::Wrong);
        }
        let selects = read_optional(alloc, value, SELECT)?;
        let check_outs = read_optional(alloc, value, CHECK_OUT)?;
        Ok(Faults {
            selects: selects.unwrap_or(List::new(alloc)),
            check_outs: check_outs.unwrap_or(List::new(alloc)),
        })
    }
}

/// Faults that list no call.
pub(crate) fn no_faults(alloc: Global) -> Faults
    ensures { result ≡ no_faults }
{
    Faults {
        selects: List::new(alloc),
        check_outs: List::new(alloc),
    }
}

/// The schedule of these steps, in which these calls of the link fail.
pub(crate) fn schedule_with(alloc: Global, steps: List<Scheduled>, faults: Faults) -> Schedule
    ensures { result ≡ schedule_with steps faults }
{
    Schedule {
        items: steps,
        selects: faults.selects,
        check_outs: faults.check_outs,
        overloaded_check_outs: List::new(alloc),
        reauthentications: List::new(alloc),
        supports: List::new(alloc),
    }
}

//! Readers of what writes are made of, as calls of their own and as models of a bulk write alike. Which other keys
//! may stand beside these is for the reader of the whole to say.
ghost use Rattle.script_parts.specs.Json.{GivesPart};
ghost use Rattle.driver_script.specs.Parts.{delete_parts_of, insert_parts_of, pipeline_of, replace_parts_of, update_of, update_parts_of};
ghost use Rattle.script_parts.specs.inside.Tree.{view};

use crate::from_json::{FromJson, read_needed, read_optional};
use bson_lite::{Document, Namespace};
use driver_options::UpdateModifications;
use script_parts::forms::{Unread, is_object_of};
use script_parts::keys::{DOC, FILTER, NS, PIPELINE, UPDATE, UPSERT};
use script_parts::tree::Json;
use std::alloc::Global;

/// What the insert of one document is made of.
#[derive(Drop)]
pub(crate) struct InsertParts {
    pub namespace: Namespace,
    pub document: Document,
}

/// What an update is made of, one or many.
#[derive(Drop)]
pub(crate) struct UpdateParts {
    pub namespace: Namespace,
    pub filter: Document,
    pub update: UpdateModifications,
    pub upsert: Option<bool>,
}

/// What a replacement is made of.
#[derive(Drop)]
pub(crate) struct ReplaceParts {
    pub namespace: Namespace,
    pub filter: Document,
    pub replacement: Document,
    pub upsert: Option<bool>,
}

/// What a delete is made of, one or many.
#[derive(Drop)]
pub(crate) struct DeleteParts {
    pub namespace: Namespace,
    pub filter: Document,
}

#[tactic(auto, unfolding(crate::specs::Parts::pipeline_of))]
fn pipeline(alloc: Global, value: &Json<'_, '_>) -> Result<UpdateModifications, Unread>
    ensures { GivesPart result (pipeline_of (view value.now)) }
{
    if !is_object_of(value, &[PIPELINE]) {
        return Err(Unread::Wrong);
    }
    let stages = read_needed(alloc, value, PIPELINE)?;
    Ok(UpdateModifications::Pipeline(stages))
}

impl FromJson for UpdateModifications {
    ghost spec = { update_of };

    #[tactic(auto, unfolding(crate::specs::Parts::update_of), using(crate::proofs::OtherForms::pipeline_read))]
    fn read(alloc: Global, value: &Json<'_, '_>) -> Result<UpdateModifications, Unread> {
        match value.items() {
            Some(_) => Ok(UpdateModifications::Document(Document::read(alloc, value)?)),
            None => pipeline(alloc, value),
        }
    }
}

/// The parts of the insert of one document, under their keys.
#[tactic(auto, unfolding(crate::specs::Parts::insert_parts_of))]
pub(crate) fn insert_parts(alloc: Global, value: &Json<'_, '_>) -> Result<InsertParts, Unread>
    ensures { GivesPart result (insert_parts_of (view value.now)) }
{
    let namespace = read_needed(alloc, value, NS)?;
    let document = read_needed(alloc, value, DOC)?;
    Ok(InsertParts {
        namespace,
        document,
    })
}

/// Those of an update.
#[tactic(auto, unfolding(crate::specs::Parts::update_parts_of))]
pub(crate) fn update_parts(alloc: Global, value: &Json<'_, '_>) -> Result<UpdateParts, Unread>
    ensures { GivesPart result (update_parts_of (view value.now)) }
{
    let namespace = read_needed(alloc, value, NS)?;
    let filter = read_needed(alloc, value, FILTER)?;
    let update = read_needed(alloc, value, UPDATE)?;
    let upsert = read_optional(alloc, value, UPSERT)?;
    Ok(UpdateParts {
        namespace,
        filter,
        update,
        upsert,
    })
}

/// Those of a replacement.
#[tactic(auto, unfolding(crate::specs::Parts::replace_parts_of))]
pub(crate) fn replace_parts(alloc: Global, value: &Json<'_, '_>) -> Result<ReplaceParts, Unread>
    ensures { GivesPart result (replace_parts_of (view value.now)) }
{
    let namespace = read_needed(alloc, value, NS)?;
    let filter = read_needed(alloc, value, FILTER)?;
    let replacement = read_needed(alloc, value, DOC)?;
    let upsert = read_optional(alloc, value, UPSERT)?;
    Ok(ReplaceParts {
        namespace,
        filter,
        replacement,
        upsert,
    })
}

/// Those of a delete.
#[tactic(auto, unfolding(crate::specs::Parts::delete_parts_of))]
pub(crate) fn delete_parts(alloc: Global, value: &Json<'_, '_>) -> Result<DeleteParts, Unread>
    ensures { GivesPart result (delete_parts_of (view value.now)) }
{
    let namespace = read_needed(alloc, value, NS)?;
    let filter = read_needed(alloc, value, FILTER)?;
    Ok(DeleteParts { namespace, filter })
}

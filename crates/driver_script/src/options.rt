//! Readers of the options of a script's client, and of concerns.
ghost use Rattle.std.specs.Prelude.{◌≡◌, IfOk, option_map};
ghost use Rattle.driver_options.specs.declared.concerns.Acknowledgment.TheVariants.{Nodes};
ghost use Rattle.script_parts.specs.Json.{GivesPart};
ghost use Rattle.driver_script.specs.Options.{acknowledgment_named, acknowledgment_of, client_options_of, flag_of, level_named, read_concern_of, write_concern_of};
ghost use Rattle.script_parts.specs.Values.{small_of};
ghost use Rattle.script_parts.specs.inside.Tree.{view};

use crate::from_json::{FromJson, read_optional};
use bson_lite::Text;
use driver_options::{Acknowledgment, ClientOptions, ReadConcern, ReadConcernLevel, WriteConcern};
use script_parts::forms::{Unread, is_object_of};
use script_parts::keys::{
    AVAILABLE, JOURNAL, LINEARIZABLE, LOCAL, MAJORITY, READ_CONCERN, RETRY_WRITES, SNAPSHOT, W,
    W_TIMEOUT, WRITE_CONCERN,
};
use script_parts::tree::Json;
use std::alloc::{AllocError, Global};

impl FromJson for bool {
    ghost spec = { flag_of };

    #[tactic(auto, unfolding(crate::specs::Options::flag_of), using(crate::proofs::OtherForms::no_flag))]
    fn read(_alloc: Global, value: &Json<'_, '_>) -> Result<bool, Unread> {
        match value.as_bool() {
            Some(flag) => Ok(flag),
            None => Err(Unread::Wrong),
        }
    }
}

/// The servers that a text names to acknowledge a write.
#[tactic(auto, unfolding(crate::specs::Options::acknowledgment_named))]
fn acknowledgment_named(alloc: Global, name: &str) -> Result<Acknowledgment, AllocError>
    ensures { IfOk result (λ servers. servers ≡ acknowledgment_named name.now) }
{
    if name == MAJORITY {
        return Ok(Acknowledgment::Majority);
    }
    Ok(Acknowledgment::Custom(Text::from_str(alloc, name)?))
}

/// So many servers.
fn nodes(alloc: Global, value: &Json<'_, '_>) -> Result<Acknowledgment, Unread>
    ensures { GivesPart result (option_map Nodes (small_of (view value.now))) }
{
    Ok(Acknowledgment::Nodes(u32::read(alloc, value)?))
}

impl FromJson for Acknowledgment {
    ghost spec = { acknowledgment_of };

    #[tactic(auto, unfolding(crate::specs::Options::acknowledgment_of), using(crate::proofs::OtherForms::nodes_read))]
    fn read(alloc: Global, value: &Json<'_, '_>) -> Result<Acknowledgment, Unread> {
        match value.as_str() {
            Some(name) => Ok(acknowledgment_named(alloc, name)?),
            None => nodes(alloc, value),
        }
    }
}

impl FromJson for WriteConcern {
    ghost spec = { write_concern_of };

    #[tactic(auto, unfolding(crate::specs::Options::write_concern_of))]
    fn read(alloc: Global, value: &Json<'_, '_>) -> Result<WriteConcern, Unread> {
        if !is_object_of(value, &[W, W_TIMEOUT, JOURNAL]) {
            return Err(Unread::Wrong);
        }
        let w = read_optional(alloc, value, W)?;
        let w_timeout = read_optional(alloc, value, W_TIMEOUT)?;
        let journal = read_optional(alloc, value, JOURNAL)?;
        Ok(WriteConcern {
            w,
            w_timeout,
            journal,
        })
    }
}

/// The level of a name.
#[tactic(auto, unfolding(crate::specs::Options::level_named))]
fn level_named(alloc: Global, name: &str) -> Result<ReadConcernLevel, AllocError>
    ensures { IfOk result (λ level. level ≡ level_named name.now) }
{
    if name == LOCAL {
        return Ok(ReadConcernLevel::Local);
    }
    if name == MAJORITY {
        return Ok(ReadConcernLevel::Majority);
    }
    if name == LINEARIZABLE {
        return Ok(ReadConcernLevel::Linearizable);
    }
    if name == AVAILABLE {
        return Ok(ReadConcernLevel::Available);
    }
    if name == SNAPSHOT {
        return Ok(ReadConcernLevel::Snapshot);
    }
    Ok(ReadConcernLevel::Custom(Text::from_str(alloc, name)?))
}

impl FromJson for ReadConcern {
    ghost spec = { read_concern_of };

    #[tactic(auto, unfolding(crate::specs::Options::read_concern_of), using(crate::proofs::OtherForms::no_level))]
    fn read(alloc: Global, value: &Json<'_, '_>) -> Result<ReadConcern, Unread> {
        match value.as_str() {
            Some(name) => {
                let level = level_named(alloc, name)?;
                Ok(ReadConcern { level })
            }
            None => Err(Unread::Wrong),
        }
    }
}

impl FromJson for ClientOptions {
    ghost spec = { client_options_of };

    #[tactic(auto, unfolding(crate::specs::Options::client_options_of))]
    fn read(alloc: Global, value: &Json<'_, '_>) -> Result<ClientOptions, Unread> {
        if !is_object_of(value, &[RETRY_WRITES, WRITE_CONCERN, READ_CONCERN]) {
            return Err(Unread::Wrong);
        }
        let retry_writes = read_optional(alloc, value, RETRY_WRITES)?;
        let write_concern = read_optional(alloc, value, WRITE_CONCERN)?;
        let read_concern = read_optional(alloc, value, READ_CONCERN)?;
        Ok(ClientOptions {
            client_number: 1,
            retry_writes,
            read_concern,
            write_concern,
        })
    }
}

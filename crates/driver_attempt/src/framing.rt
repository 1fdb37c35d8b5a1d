//! The frame of a command with the executor's fields.
ghost use Rattle.std.specs.Prelude.{◌≡◌, None};
ghost use Rattle.std.specs.Option.{option_copied};
ghost use Rattle.driver_ops.specs.Fields.{FramesUnder, in_context};

use crate::fields::append_fields;
use crate::joined_body::body_bytes;
use bson_lite::Bytes;
use driver_error::Result;
use driver_link::Frame;
use driver_ops::Command;
use driver_options::WriteConcern;
use std::alloc::Global;

/// The frame of a command with the executor's fields. Inlined, as is the next, since each call would copy what an error
/// leaves empty.
#[inline(always)]
pub(crate) fn frame_of(
    alloc: Global,
    command: Command,
    session: Option<&[u8; 16]>,
    number: Option<i64>,
    concern: Option<&WriteConcern>,
) -> Result<Frame>
    ensures { FramesUnder (in_context (option_copied session.entry) number (option_copied concern.entry))
        command result }
{
    match concern {
        None => plain_frame(alloc, command, session, number, concern),
        Some(_) => fields_frame(alloc, command, session, number, concern),
    }
}

/// The same without a write concern: its fields are spelled behind the bytes of its own body, where it has some.
#[inline(always)]
fn plain_frame(
    alloc: Global,
    command: Command,
    session: Option<&[u8; 16]>,
    number: Option<i64>,
    concern: Option<&WriteConcern>,
) -> Result<Frame>
    requires { option_copied concern ≡ None }
    ensures { FramesUnder (in_context (option_copied session.entry) number (option_copied concern.entry))
        command result }
{
    let found = body_bytes(alloc, &command, session, number)?;
    match found {
        Some(body) => Ok(with_body(command, body)),
        None => fields_frame(alloc, command, session, number, concern),
    }
}

/// The frame of a command with a body in bytes.
fn with_body(command: Command, body: Bytes) -> Frame
    ensures { result ≡ record { database = command.database; body = body; sequences = command.sequences } }
{
    let Command {
        name: _,
        database,
        body: own,
        sequences,
    } = command;
    drop(own);
    Frame::new(database, body, sequences)
}

/// The frame of a command whose fields are put into its body before it is spelled.
fn fields_frame(
    alloc: Global,
    mut command: Command,
    session: Option<&[u8; 16]>,
    number: Option<i64>,
    concern: Option<&WriteConcern>,
) -> Result<Frame>
    ensures { FramesUnder (in_context (option_copied session.entry) number (option_copied concern.entry))
        command result }
{
    append_fields(alloc, &mut command, session, number, concern)?;
    command.into_frame(alloc)
}

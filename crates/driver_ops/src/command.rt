//! A command before it is sent: its name, its database, its body, and the sequences beside it.
ghost use Rattle.driver_ops.specs.Fields.{Frames};

use crate::spelling::encode_document;
use bson_lite::{Document, List, Text};
use driver_error::Result;
use driver_link::{CommandName, Frame, Sequence};
use std::alloc::Global;

/// A command. Its sequences are in bytes already, and its body is not.
#[derive(Debug, Drop)]
pub struct Command {
    pub name: CommandName,
    pub database: Text,
    pub body: Document,
    pub sequences: List<Sequence>,
}

impl Command {
    /// The command in bytes.
    pub fn into_frame(self, alloc: Global) -> Result<Frame>
        ensures { Frames self result }
    {
        let Command {
            database,
            body,
            sequences,
            ..
        } = self;
        let body = encode_document(alloc, &body)?;
        Ok(Frame::new(database, body, sequences))
    }
}

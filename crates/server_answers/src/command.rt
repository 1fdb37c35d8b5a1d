//! Errors that a server tells of a whole command.
use bson_lite::{List, Text, TryClone};
use std::alloc::{AllocError, Global};
use std::fmt;

/// A command that the server refused.
#[derive(Debug, Drop)]
pub struct CommandError {
    pub code: i32,
    pub code_name: Text,
    pub message: Text,
    /// How long to wait before another try, in milliseconds, where the server told it.
    pub base_backoff: Option<u64>,
}

impl fmt::Display for CommandError {
    ghost use Rattle.std.specs.Prelude.{Some};
    ghost use Rattle.server_answers.specs.CommandText.{command_text};

    ghost output = { λ error. Some (command_text error) };

    fn fmt<W: fmt::Write>(&self, f: &mut fmt::Formatter<W>) -> fmt::Result {
        let code = self.code;
        let name = &self.code_name;
        let message = &self.message;
        write!(f, "Error code {code} ({name}): {message}")
    }
}

impl TryClone for CommandError {
    fn try_clone(&self, alloc: Global) -> Result<CommandError, AllocError> {
        Ok(CommandError {
            code: self.code,
            code_name: self.code_name.try_clone(alloc)?,
            message: self.message.try_clone(alloc)?,
            base_backoff: self.base_backoff,
        })
    }
}

/// A command error as a reply spells it, with its labels.
#[derive(Debug, Drop)]
pub struct CommandErrorBody {
    pub error_labels: List<Text>,
    pub command_error: CommandError,
}

impl TryClone for CommandErrorBody {
    fn try_clone(&self, alloc: Global) -> Result<CommandErrorBody, AllocError> {
        Ok(CommandErrorBody {
            error_labels: self.error_labels.try_clone(alloc)?,
            command_error: self.command_error.try_clone(alloc)?,
        })
    }
}

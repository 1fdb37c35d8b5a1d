//! The commands of the write path by their names, which are the first key of a body.
ghost use Rattle.std.specs.Prelude.{◌≡◌};
ghost use Rattle.driver_link.specs.CommandNames.{command_named};

use wire_keys::keys::{
    ABORT_TRANSACTION, BULK_WRITE, COMMIT_TRANSACTION, DELETE, FIND_AND_MODIFY, GET_MORE, INSERT,
    KILL_CURSORS, UPDATE,
};

/// A command of the write path.
#[derive(Clone, Copy, Debug, PartialEq, Eq)]
pub enum CommandName {
    Insert,
    Update,
    Delete,
    FindAndModify,
    BulkWrite,
    CommitTransaction,
    AbortTransaction,
    GetMore,
    KillCursors,
}

/// The command that a key names.
#[tactic(auto, unfolding(crate::specs::CommandNames::command_named))]
pub fn command_named(key: &str) -> Option<CommandName>
    ensures { result ≡ command_named key.now }
{
    if key == INSERT {
        Some(CommandName::Insert)
    } else if key == UPDATE {
        Some(CommandName::Update)
    } else if key == DELETE {
        Some(CommandName::Delete)
    } else if key == FIND_AND_MODIFY {
        Some(CommandName::FindAndModify)
    } else if key == BULK_WRITE {
        Some(CommandName::BulkWrite)
    } else if key == COMMIT_TRANSACTION {
        Some(CommandName::CommitTransaction)
    } else if key == ABORT_TRANSACTION {
        Some(CommandName::AbortTransaction)
    } else if key == GET_MORE {
        Some(CommandName::GetMore)
    } else if key == KILL_CURSORS {
        Some(CommandName::KillCursors)
    } else {
        None
    }
}

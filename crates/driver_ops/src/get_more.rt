//! The commands of a cursor: the question for its next page, and its end.
ghost use Rattle.std.specs.Prelude.{◌≡◌, ℕ, List as Listed, IfOk, Some};
ghost use Rattle.driver_ops.specs.GetMoreLawful.{kill_lawful, more_lawful};
ghost use Rattle.driver_ops.specs.GetMores.{at_namespace, kill_command, kill_spec, more_command, more_spec};
ghost use Rattle.driver_ops.specs.SendKinds.{first};

use crate::command::Command;
use crate::defaults::{
    lacks_option, reads_one_page, repeats_nothing, repeats_under_backpressure, stays_for_retry,
    takes_sessions, writes_after_cluster_time,
};
use crate::feature::Feature;
use crate::operation::{Operation, Reading};
use crate::target::OperationTarget;
use bson_lite::{Bson, Document, List, Namespace, Text, TryClone};
use driver_error::{Error, Result};
use driver_link::CommandName;
use driver_options::{ClientOptions, Description, ReadConcern, SelectionCriteria, WriteConcern};
use driver_session::Retryability;
use std::alloc::{AllocError, Global};
use wire_keys::keys;

/// The question for the next page of a cursor.
#[derive(Drop)]
pub struct GetMore {
    pub target: OperationTarget,
    pub cursor: i64,
}

/// The end of a cursor.
#[derive(Drop)]
pub struct KillCursors {
    pub target: OperationTarget,
    pub cursor: i64,
}

impl GetMore {
    /// The question for the next page of a cursor, under its namespace. It takes no memory.
    pub fn new(namespace: Namespace, cursor: i64) -> GetMore
        ensures target { result.target ≡ at_namespace namespace }
        ensures cursor { result.cursor ≡ cursor }
    {
        GetMore {
            target: OperationTarget::Namespace(namespace),
            cursor,
        }
    }

    /// The end of the same cursor, under the same namespace. It takes no memory.
    pub fn into_kill(self) -> KillCursors
        ensures target { result.target ≡ self.target }
        ensures cursor { result.cursor ≡ self.cursor }
    {
        let GetMore { target, cursor } = self;
        KillCursors { target, cursor }
    }
}

impl KillCursors {
    /// The end of a cursor, under its namespace. It takes no memory.
    pub fn new(namespace: Namespace, cursor: i64) -> KillCursors
        ensures target { result.target ≡ at_namespace namespace }
        ensures cursor { result.cursor ≡ cursor }
    {
        KillCursors {
            target: OperationTarget::Namespace(namespace),
            cursor,
        }
    }
}

impl Operation for GetMore {
    type Output = Document;

    ghost spec = { λ more. more_spec more.target more.cursor };

    ghost built = { λ more. Some 0 };

    ghost next = { λ more. first };

    ghost has_read = { λ more pages. ⊥ };

    ghost left = { λ more. 0 };

    #[tactic(auto, unfolding(driver_link::specs::CommandNames::command_named))]
    fn name(&self) -> &'static str {
        keys::GET_MORE
    }

    fn target(&self) -> &OperationTarget {
        &self.target
    }

    fn build(&mut self, alloc: Global, _description: &Description) -> Result<Command> {
        Ok(Command {
            name: CommandName::GetMore,
            database: Text::from_str(alloc, self.target.database())?,
            body: more_body(alloc, self.target.collection(), self.cursor)?,
            sequences: List::new(alloc),
        })
    }

    fn statements(&self) -> usize {
        0
    }

    fn read_reply(&mut self, alloc: Global, reply: &Document) -> Result<Reading<Document>> {
        Ok(Reading::Done(reply.try_clone(alloc)?))
    }

    fn read_page(
        &mut self,
        alloc: Global,
        page: std::result::Result<&Document, Error>,
    ) -> Result<Reading<Document>> {
        reads_one_page(alloc, page)
    }

    fn write_concern(&self) -> Feature<&WriteConcern> {
        lacks_option()
    }

    fn read_concern(&self) -> Feature<&ReadConcern> {
        lacks_option()
    }

    fn selection_criteria(&self) -> Feature<&SelectionCriteria> {
        lacks_option()
    }

    fn supports_sessions(&self) -> bool {
        takes_sessions()
    }

    fn retryability(&self, _options: &ClientOptions) -> Retryability {
        repeats_nothing()
    }

    fn is_backpressure_retryable(&self, _options: &ClientOptions) -> bool {
        repeats_under_backpressure(repeats_nothing())
    }

    fn is_after_cluster_time_write(&self) -> bool {
        writes_after_cluster_time(&self.write_concern())
    }

    fn update_for_retry(&mut self, _alloc: Global, _overloaded: bool) -> Result<()> {
        stays_for_retry()
    }

    ghost law = { λ more. more_lawful more.target more.cursor };
}

impl Operation for KillCursors {
    type Output = ();

    ghost spec = { λ kill. kill_spec kill.target kill.cursor };

    ghost built = { λ kill. Some 0 };

    ghost next = { λ kill. first };

    ghost has_read = { λ kill pages. ⊥ };

    ghost left = { λ kill. 0 };

    #[tactic(auto, unfolding(driver_link::specs::CommandNames::command_named))]
    fn name(&self) -> &'static str {
        keys::KILL_CURSORS
    }

    fn target(&self) -> &OperationTarget {
        &self.target
    }

    fn build(&mut self, alloc: Global, _description: &Description) -> Result<Command> {
        Ok(Command {
            name: CommandName::KillCursors,
            database: Text::from_str(alloc, self.target.database())?,
            body: kill_body(alloc, self.target.collection(), self.cursor)?,
            sequences: List::new(alloc),
        })
    }

    fn statements(&self) -> usize {
        0
    }

    fn read_reply(&mut self, _alloc: Global, _reply: &Document) -> Result<Reading<()>> {
        Ok(Reading::Done(()))
    }

    fn read_page(
        &mut self,
        alloc: Global,
        page: std::result::Result<&Document, Error>,
    ) -> Result<Reading<()>> {
        reads_one_page(alloc, page)
    }

    fn write_concern(&self) -> Feature<&WriteConcern> {
        lacks_option()
    }

    fn read_concern(&self) -> Feature<&ReadConcern> {
        lacks_option()
    }

    fn selection_criteria(&self) -> Feature<&SelectionCriteria> {
        lacks_option()
    }

    fn supports_sessions(&self) -> bool {
        false
    }

    fn retryability(&self, _options: &ClientOptions) -> Retryability {
        repeats_nothing()
    }

    fn is_backpressure_retryable(&self, _options: &ClientOptions) -> bool {
        repeats_under_backpressure(repeats_nothing())
    }

    fn is_after_cluster_time_write(&self) -> bool {
        writes_after_cluster_time(&self.write_concern())
    }

    fn update_for_retry(&mut self, _alloc: Global, _overloaded: bool) -> Result<()> {
        stays_for_retry()
    }

    ghost law = { λ kill. kill_lawful kill.target kill.cursor };
}

/// The body of the question, without the executor's fields.
#[tactic(auto, unfolding(crate::specs::GetMores::more_command))]
pub fn more_body(
    alloc: Global,
    collection: &str,
    cursor: i64,
) -> std::result::Result<Document, AllocError>
    ensures { IfOk result (λ body. (database : Listed ℕ) →
        body ≡ more_command (record { db = database; coll = collection.now }) cursor) }
{
    let mut body = Document::new(alloc);
    body.push(keys::GET_MORE, Bson::Int64(cursor))?;
    let collection = Text::from_str(alloc, collection)?;
    body.push(keys::COLLECTION, Bson::String(collection))?;
    Ok(body)
}

/// The body of the end, without the executor's fields.
#[tactic(auto, unfolding(crate::specs::GetMores::kill_command))]
pub fn kill_body(
    alloc: Global,
    collection: &str,
    cursor: i64,
) -> std::result::Result<Document, AllocError>
    ensures { IfOk result (λ body. (database : Listed ℕ) →
        body ≡ kill_command (record { db = database; coll = collection.now }) cursor) }
{
    let collection = Text::from_str(alloc, collection)?;
    let mut cursors = List::with_capacity(alloc, 1)?;
    cursors.push(Bson::Int64(cursor))?;
    let mut body = Document::new(alloc);
    body.push(keys::KILL_CURSORS, Bson::String(collection))?;
    body.push(keys::CURSORS, Bson::Array(cursors))?;
    Ok(body)
}

//! What is sent: an operation builds its command and reads the answer to it, page by page.
ghost use Rattle.std.specs.Prelude.{◌≡◌, ℕ, ◌<◌, ◌∷◌, [], List, Option, Some, Ok, IfErr, IfSome, OnErr, OnOk};
ghost use Rattle.driver_error.specs.declared.kind.ErrorKind.TheVariants.{Memory};
ghost use Rattle.driver_error.specs.Error.{IsAlone};
ghost use Rattle.driver_error.specs.LabelTexts.{no_labels};
ghost use Rattle.driver_link.specs.CommandNames.{command_named};
ghost use Rattle.driver_ops.specs.Features.{feature_told};
ghost use Rattle.driver_ops.specs.OperationLaw.{IsLawful};
ghost use Rattle.driver_ops.specs.Operations.{Builds, OnPage, OperationSpec, Page, SameAt, SameSpec, page_told};
ghost use Rattle.driver_ops.specs.SendKinds.{SendKind, kind_after};

use crate::command::Command;
use crate::feature::Feature;
use crate::target::OperationTarget;
use bson_lite::{Document, Namespace};
use driver_error::{Error, Result};
use driver_options::{ClientOptions, Description, ReadConcern, SelectionCriteria, WriteConcern};
use driver_session::Retryability;
use std::alloc::Global;

/// What an operation read in the pages of its answer.
#[derive(Debug, Drop)]
pub enum Reading<O> {
    /// All that it wants: this is its output.
    Done(O),
    /// A page behind which there is another one: that of this cursor, which is asked for under this namespace.
    Page { cursor: i64, namespace: Namespace },
}

/// An operation that is sent as a command. What it tells is for contracts alone.
pub trait Operation {
    /// What a reply comes to.
    type Output;

    // Its name, what it asks for, why it is refused, its options, how a reply is read, and what tells its output.
    ghost spec: { Self → OperationSpec Self.Output };

    // How many statements its command has: fixed once a build was Ok, and before that where there is no choice.
    ghost built: { Self → Option ℕ };

    // Which kind of send comes next.
    ghost next: { Self → SendKind };

    // The pages of an answer that it may have read, the newest first, behind which there is another one: a relation,
    // so that it need keep none.
    ghost has_read: { Self → List Page → Type 0 };

    // How many pages it may yet read behind which there is another one.
    ghost left: { Self → ℕ };

    /// The name of its command.
    fn name(&self) -> &'static str
        ensures { command_named result.now ≡ Some (spec self.now).name };

    /// What it goes to.
    fn target(&self) -> &OperationTarget
        ensures { result.now ≡ (spec self.now).target };

    /// The command without the executor's fields, for a connection that is described so. The first build that is Ok
    /// fixes how many statements it has: a later one has as many, or is refused.
    fn build(&mut self, alloc: Global, description: &Description) -> Result<Command>
        ensures builds { Builds (spec self.old) (next self.old) description.now
            (built self.old) (built self.new) result }
        ensures spec { SameSpec (spec self.old) (spec self.new) }
        ensures next { next self.new ≡ next self.old };

    /// How many statements the last build that was Ok put into the command. Before there was one it tells nothing.
    fn statements(&self) -> usize
        ensures { IfSome (built self.now) (λ statements. result ≡ statements) };

    /// What a reply to the command of the last build comes to that says that the command was done: the first page of
    /// its answer. Before there was a build it tells nothing.
    fn read_reply(&mut self, alloc: Global, reply: &Document) -> Result<Reading<Self::Output>>
        ensures reads { IfSome (built self.old)
            (λ statements. (spec self.old).reads statements (Ok reply.now ∷ []) result) }
        ensures read { OnPage result (has_read self.new (Ok reply.now ∷ [])) }
        ensures spec { SameSpec (spec self.old) (spec self.new) }
        ensures built { built self.new ≡ built self.old }
        ensures next { next self.new ≡ next self.old };

    /// What one more page comes to, behind those that were read, or why it did not come. Where none was read that has
    /// another one behind it, it tells nothing.
    fn read_page(
        &mut self,
        alloc: Global,
        page: std::result::Result<&Document, Error>,
    ) -> Result<Reading<Self::Output>>
        ensures reads { (pages : List Page) → has_read self.old pages → IfSome (built self.old)
            (λ statements. (spec self.old).reads statements (page_told page.entry ∷ pages) result) }
        ensures read { (pages : List Page) → has_read self.old pages →
            OnPage result (has_read self.new (page_told page.entry ∷ pages)) }
        ensures left { (pages : List Page) → has_read self.old pages →
            OnPage result (left self.new < left self.old) }
        ensures spec { SameSpec (spec self.old) (spec self.new) }
        ensures built { built self.new ≡ built self.old }
        ensures next { next self.new ≡ next self.old };

    /// Its write concern.
    fn write_concern(&self) -> Feature<&WriteConcern>
        ensures { feature_told result ≡ (spec self.now).write_concern (next self.now) };

    /// Its read concern.
    fn read_concern(&self) -> Feature<&ReadConcern>
        ensures { feature_told result ≡ (spec self.now).read_concern };

    /// Which servers may serve it.
    fn selection_criteria(&self) -> Feature<&SelectionCriteria>
        ensures { feature_told result ≡ (spec self.now).selection_criteria (next self.now) };

    /// Whether its command may be under a session.
    fn supports_sessions(&self) -> bool
        ensures { result ≡ (spec self.now).sessions };

    /// What of it may be repeated by its own rules.
    fn retryability(&self, options: &ClientOptions) -> Retryability
        ensures { result ≡ (spec self.now).retryability options.now };

    /// Whether it may be repeated after a server that was overloaded refused it.
    fn is_backpressure_retryable(&self, options: &ClientOptions) -> bool
        ensures { result ≡ (spec self.now).backpressure options.now };

    /// Whether it is a write that a causally consistent session places after what it has seen.
    fn is_after_cluster_time_write(&self) -> bool
        ensures { result ≡ (spec self.now).after_cluster_time };

    /// Makes it ready to be sent again after a failure, which told of overload or not. It fails only for want of
    /// memory, with that alone, and then stays as it was.
    fn update_for_retry(&mut self, alloc: Global, overloaded: bool) -> Result<()>
        ensures next { OnOk result
            (SameAt (spec self.old) (kind_after overloaded (next self.old)) (next self.new)) }
        ensures kept { OnErr result (next self.new ≡ next self.old) }
        ensures memory { IfErr result (λ error. IsAlone Memory no_labels error) }
        ensures spec { SameSpec (spec self.old) (spec self.new) }
        ensures built { built self.new ≡ built self.old };

    // What it reads as its output in the model server's own reply to its send, and in its pages, is told by the
    // entries of its writes.
    ghost law: { (op : Self) → IsLawful (spec op) };
}

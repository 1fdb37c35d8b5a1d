//! Bulk writes, as a client's user asks for them.
ghost use Rattle.std.specs.Prelude.{◌≡◌, IfErr, None as Unset, Some as Set};
ghost use Rattle.bulk_ops.specs.BulkSpec.{is_verbose};
ghost use Rattle.driver_attempt.specs.Client.{options_of};
ghost use Rattle.driver_attempt.specs.Failures.{MemoryAlone};
ghost use Rattle.driver_attempt.specs.Moment.{moment_of};
ghost use Rattle.bulk_actions.specs.BulkCalls.{BulkCaused, MakesBulk};
ghost use Rattle.bulk_actions.specs.BulkCompleteness.{CompletesBulk};
ghost use Rattle.bulk_actions.specs.BulkNumbers.{RaisesByBulk};
ghost use Rattle.bulk_actions.specs.BulkTold.{OkIsLogged};
ghost use Rattle.bulk_actions.specs.ErrorsTold.{ErrTellsTruly};
ghost use Rattle.bulk_actions.specs.FewestBulk.{OkIsFewestBulk};
ghost use Rattle.bulk_actions.specs.OwnModels.{KeepsBulk};
ghost use Rattle.bulk_actions.specs.PartlyTold.{ErrIsLogged};

use crate::bulk_all::bulk_all;
use bson_lite::{Bson, Document};
use bulk_outcomes::BulkWriteResult;
use driver_attempt::{Client, Outside};
use driver_error::{Result, SummaryBulkWriteResult, VerboseBulkWriteResult};
use driver_link::{Clock, Link};
use driver_options::{BulkWriteOptions, WriteConcern, WriteModel};
use driver_session::SessionStore;
use rand_core::Rng;
use std::alloc::Global;
use std::marker::PhantomData;

/// A bulk write of models by a client, which is not made yet, with results of the kind `T`. Nothing is judged, drawn or
/// asked before `run`.
pub struct BulkWrite<'a, S, T, O = BulkWriteOptions> {
    client: &'a mut Client<S>,
    models: &'a [WriteModel],
    options: O,
    results: PhantomData<T>,
}

/// Bulk writes of a client.
pub trait BulkWrites<S> {
    /// A bulk write of these models, which answers counts, with no option set. It takes no memory.
    fn bulk_write<'a>(
        &'a mut self,
        models: &'a [WriteModel],
    ) -> BulkWrite<'a, S, SummaryBulkWriteResult>;
}

impl<S> BulkWrites<S> for Client<S> {
    /// A bulk write of these models, in their order, which answers counts, with no option set. It takes no memory.
    fn bulk_write<'a>(
        &'a mut self,
        models: &'a [WriteModel],
    ) -> BulkWrite<'a, S, SummaryBulkWriteResult>
        ensures same_client { result.client.ghost_name ≡ self.entry.ghost_name }
        ensures client { result.client.now ≡ self.old }
        ensures models { result.models.now ≡ models.now }
        ensures options { result.options ≡ record {
          ordered = Unset;
          bypass_document_validation = Unset;
          comment = Unset;
          write_concern = Unset;
          let_vars = Unset;
        } }
    {
        BulkWrite::of_kind(self, models)
    }
}

impl<'a, S, T> BulkWrite<'a, S, T> {
    /// A bulk write of these models by a client, in their order, with results of the kind `T` and no option set. It takes no
    /// memory.
    pub fn of_kind(client: &'a mut Client<S>, models: &'a [WriteModel]) -> BulkWrite<'a, S, T>
        ensures same_client { result.client.ghost_name ≡ client.entry.ghost_name }
        ensures client { result.client.now ≡ client.old }
        ensures models { result.models.now ≡ models.now }
        ensures options { result.options ≡ record {
          ordered = Unset;
          bypass_document_validation = Unset;
          comment = Unset;
          write_concern = Unset;
          let_vars = Unset;
        } }
    {
        BulkWrite {
            client,
            models,
            options: BulkWriteOptions {
                ordered: None,
                bypass_document_validation: None,
                comment: None,
                write_concern: None,
                let_vars: None,
            },
            results: PhantomData,
        }
    }

    /// The same bulk write, which answers the result of each write too. A caller in Rattle who has to know what the client is
    /// afterwards begins with `of_kind`.
    pub fn verbose_results(self) -> BulkWrite<'a, S, VerboseBulkWriteResult>
        ensures same_client { result.client.ghost_name ≡ self.entry.client.ghost_name }
        ensures client { result.client.now ≡ self.entry.client.now }
        ensures models { result.models.now ≡ self.entry.models.now }
        ensures options { result.options ≡ self.entry.options }
    {
        let BulkWrite {
            client,
            models,
            options,
            results: _,
        } = self;
        BulkWrite {
            client,
            models,
            options,
            results: PhantomData,
        }
    }

    /// The same bulk write with these options in place of those before.
    pub fn with_options(self, options: BulkWriteOptions) -> BulkWrite<'a, S, T>
        ensures same_client { result.client.ghost_name ≡ self.entry.client.ghost_name }
        ensures client { result.client.now ≡ self.entry.client.now }
        ensures models { result.models.now ≡ self.entry.models.now }
        ensures options { result.options ≡ options }
    {
        let BulkWrite {
            client,
            models,
            options: before,
            results,
        } = self;
        drop(before);
        BulkWrite {
            client,
            models,
            options,
            results,
        }
    }

    /// The same bulk write, which stops at the first write that fails, or goes on behind it.
    pub fn ordered(self, ordered: bool) -> BulkWrite<'a, S, T>
        ensures same_client { result.client.ghost_name ≡ self.entry.client.ghost_name }
        ensures client { result.client.now ≡ self.entry.client.now }
        ensures models { result.models.now ≡ self.entry.models.now }
        ensures options { result.options ≡ record self.entry.options { ordered = Set ordered } }
    {
        let BulkWrite {
            client,
            models,
            mut options,
            results,
        } = self;
        options.ordered = Some(ordered);
        BulkWrite {
            client,
            models,
            options,
            results,
        }
    }

    /// The same bulk write, which the rules of the collections do not judge, or judge.
    pub fn bypass_document_validation(self, bypass: bool) -> BulkWrite<'a, S, T>
        ensures same_client { result.client.ghost_name ≡ self.entry.client.ghost_name }
        ensures client { result.client.now ≡ self.entry.client.now }
        ensures models { result.models.now ≡ self.entry.models.now }
        ensures options { result.options ≡ record self.entry.options
            { bypass_document_validation = Set bypass } }
    {
        let BulkWrite {
            client,
            models,
            mut options,
            results,
        } = self;
        options.bypass_document_validation = Some(bypass);
        BulkWrite {
            client,
            models,
            options,
            results,
        }
    }

    /// The same bulk write with a comment for the server's log.
    pub fn comment(self, comment: Bson) -> BulkWrite<'a, S, T>
        ensures same_client { result.client.ghost_name ≡ self.entry.client.ghost_name }
        ensures client { result.client.now ≡ self.entry.client.now }
        ensures models { result.models.now ≡ self.entry.models.now }
        ensures options { result.options ≡ record self.entry.options { comment = Set comment } }
    {
        let BulkWrite {
            client,
            models,
            mut options,
            results,
        } = self;
        options.comment = Some(comment);
        BulkWrite {
            client,
            models,
            options,
            results,
        }
    }

    /// The same bulk write with a write concern of its own.
    pub fn write_concern(self, concern: WriteConcern) -> BulkWrite<'a, S, T>
        ensures same_client { result.client.ghost_name ≡ self.entry.client.ghost_name }
        ensures client { result.client.now ≡ self.entry.client.now }
        ensures models { result.models.now ≡ self.entry.models.now }
        ensures options { result.options ≡ record self.entry.options { write_concern = Set concern } }
    {
        let BulkWrite {
            client,
            models,
            mut options,
            results,
        } = self;
        options.write_concern = Some(concern);
        BulkWrite {
            client,
            models,
            options,
            results,
        }
    }

    /// The same bulk write with values for the variables that its filters and updates name.
    pub fn let_vars(self, vars: Document) -> BulkWrite<'a, S, T>
        ensures same_client { result.client.ghost_name ≡ self.entry.client.ghost_name }
        ensures client { result.client.now ≡ self.entry.client.now }
        ensures models { result.models.now ≡ self.entry.models.now }
        ensures options { result.options ≡ record self.entry.options { let_vars = Set vars } }
    {
        let BulkWrite {
            client,
            models,
            mut options,
            results,
        } = self;
        options.let_vars = Some(vars);
        BulkWrite {
            client,
            models,
            options,
            results,
        }
    }
}

impl<'a, S: SessionStore, T: BulkWriteResult> BulkWrite<'a, S, T> {
    /// Makes the bulk write: its input is judged before anything is drawn or asked of the link, each inserted document without
    /// an id gets one, once, and the batches go out one after another (`makes`), and each end has its cause (`cause`). Model i
    /// has the place (`outside.call`, i). Where store and link tell, and the call may be made there, it keeps what stands
    /// between the operations of one client (`keeps`), and an Ok is what the log spells (`logged`), and so is the partial
    /// result of an error (`partial`), whose write errors are what the replies spell, those of all batches (`told`); where the
    /// server is told an Ok was cut into no more batches than its limits ask for (`fewest`); and where the store tells its
    /// pool, the numbers of idle sessions rise by one at most for each batch into which the models are cut, where the server
    /// is told, and else for each model (`raises`). There, and where no send that waits is of a cursor yet to be opened, a
    /// valid one whose part of the schedule is gentle answers Ok or want of memory (`complete`). An error of want of memory tells
    /// of nothing else (`memory`). Errors: InvalidArgument and BsonSerialization for its input; BulkWrite for writes that
    /// failed, a write concern that was not met, or a later batch or a page that failed behind what stands, which is then its
    /// source; InvalidResponse for sums of counts that leave 64 bits; want of memory; and those of `execute_operation` at the
    /// first batch.
    pub fn run<L: Link, K: Clock, R: Rng>(
        self,
        alloc: Global,
        outside: &mut Outside<L, K, R>,
    ) -> Result<T>
        ensures makes { MakesBulk T.tells
            (moment_of S.tells L.tells K.tells R.stream self.entry.client.now outside.old)
            (moment_of S.tells L.tells K.tells R.stream self.exit.0.now outside.new)
            self.entry.models.now self.entry.options outside.old.call result }
        ensures cause { BulkCaused T.tells
            (moment_of S.tells L.tells K.tells R.stream self.entry.client.now outside.old)
            (moment_of S.tells L.tells K.tells R.stream self.exit.0.now outside.new)
            self.entry.models.now self.entry.options outside.old.call result }
        ensures keeps { KeepsBulk
            (moment_of S.tells L.tells K.tells R.stream self.entry.client.now outside.old)
            (moment_of S.tells L.tells K.tells R.stream self.exit.0.now outside.new)
            self.entry.models.now outside.old.call }
        ensures logged { OkIsLogged T.tells
            (moment_of S.tells L.tells K.tells R.stream self.entry.client.now outside.old)
            (moment_of S.tells L.tells K.tells R.stream self.exit.0.now outside.new)
            self.entry.models.now outside.old.call result }
        ensures partial { ErrIsLogged
            (moment_of S.tells L.tells K.tells R.stream self.entry.client.now outside.old)
            (moment_of S.tells L.tells K.tells R.stream self.exit.0.now outside.new)
            self.entry.models.now outside.old.call result }
        ensures told { ErrTellsTruly T.tells
            (moment_of S.tells L.tells K.tells R.stream self.entry.client.now outside.old)
            (moment_of S.tells L.tells K.tells R.stream self.exit.0.now outside.new)
            self.entry.models.now self.entry.options outside.old.call result }
        ensures fewest { OkIsFewestBulk
            (moment_of S.tells L.tells K.tells R.stream self.entry.client.now outside.old)
            (moment_of S.tells L.tells K.tells R.stream self.exit.0.now outside.new)
            self.entry.models.now self.entry.options (is_verbose T.tells) outside.old.call result }
        ensures complete { CompletesBulk T.tells
            (moment_of S.tells L.tells K.tells R.stream self.entry.client.now outside.old)
            (moment_of S.tells L.tells K.tells R.stream self.exit.0.now outside.new)
            self.entry.models.now self.entry.options outside.old.call result }
        ensures raises { RaisesByBulk
            (moment_of S.tells L.tells K.tells R.stream self.entry.client.now outside.old)
            (moment_of S.tells L.tells K.tells R.stream self.exit.0.now outside.new)
            self.entry.models.now self.entry.options (is_verbose T.tells) }
        ensures memory { IfErr result (λ error. MemoryAlone error) }
        ensures options { options_of self.exit.0.now ≡ options_of self.entry.client.now }
        ensures call { outside.new.call ≡ outside.old.call }
    {
        let BulkWrite {
            client,
            models,
            options,
            results: _,
        } = self;
        let result = bulk_all::<S, L, K, R, T>(alloc, client, outside, models, &options);
        drop(options);
        result
    }
}

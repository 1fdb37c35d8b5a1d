//! Inserts of many documents, as a collection's user asks for them.
ghost use Rattle.std.specs.Prelude.{◌≡◌, IfErr, IfOk, None, Some, map};
ghost use Rattle.driver_error.specs.declared.kind.ErrorKind.TheVariants.{Memory};
ghost use Rattle.driver_error.specs.Error.{IsAlone};
ghost use Rattle.driver_error.specs.LabelTexts.{no_labels};
ghost use Rattle.driver_ops.specs.declared.target.OperationTarget.TheVariants.{Collection as Within};
ghost use Rattle.driver_attempt.specs.Client.{options_of};
ghost use Rattle.driver_attempt.specs.Failures.{MemoryAlone};
ghost use Rattle.driver_attempt.specs.Moment.{moment_of};
ghost use Rattle.many_actions.specs.FewestBatches.{OkIsFewestCut};
ghost use Rattle.many_actions.specs.ManyCalls.{MakesMany, ManyCaused};
ghost use Rattle.many_actions.specs.ManyCompleteness.{CompletesMany, RaisesByBatches};
ghost use Rattle.many_actions.specs.ManyEntries.{KeepsCall, ListedStand};
ghost use Rattle.many_actions.specs.ManyTold.{TellsTruly};

use crate::batches::copy_of;
use crate::insert_all::insert_all;
use bson_lite::{Bson, Document, List};
use driver_attempt::{Client, Outside};
use driver_error::{InsertManyResult, Result};
use driver_inputs::ToDocument;
use driver_link::{Clock, Link};
use driver_ops::Collection;
use driver_options::{InsertManyOptions, WriteConcern};
use driver_session::SessionStore;
use rand_core::Rng;
use std::alloc::{AllocError, Global};

/// An insert of documents into a collection, which is not made yet. Nothing is judged, drawn or asked before `run`.
#[derive(Debug)]
pub struct InsertMany {
    collection: Collection,
    documents: List<Document>,
    options: InsertManyOptions,
}

impl Drop for InsertMany {
    fn drop(self) {
        let InsertMany {
            collection,
            documents,
            options,
        } = self;
        drop(collection);
        drop(documents);
        drop(options);
    }
}

/// Inserts of many documents into a collection.
pub trait ManyInserts {
    /// An insert of these documents, with no option set. It answers want of memory alone.
    fn insert_many<T: ToDocument>(&self, alloc: Global, docs: &[T]) -> Result<InsertMany>;
}

impl ManyInserts for Collection {
    /// An insert of these documents, in their order, with no option set. It answers want of memory alone.
    fn insert_many<T: ToDocument>(&self, alloc: Global, docs: &[T]) -> Result<InsertMany>
        ensures collection { IfOk result (λ insert. insert.collection ≡ self.now) }
        ensures documents { IfOk result (λ insert. insert.documents ≡ map T.document docs.now) }
        ensures options { IfOk result (λ insert. insert.options ≡ record
            { ordered = None; bypass_document_validation = None; comment = None; write_concern = None }) }
        ensures short { IfErr result (λ error. IsAlone Memory no_labels error) }
    {
        let collection = copy_of(alloc, self)?;
        let documents = documents_of(alloc, docs)?;
        let options = InsertManyOptions {
            ordered: None,
            bypass_document_validation: None,
            comment: None,
            write_concern: None,
        };
        Ok(InsertMany {
            collection,
            documents,
            options,
        })
    }
}

/// The documents of values, in their order.
fn documents_of<T: ToDocument>(
    alloc: Global,
    docs: &[T],
) -> std::result::Result<List<Document>, AllocError>
    ensures { IfOk result (λ documents. documents ≡ map T.document docs.now) }
{
    let mut documents = List::with_capacity(alloc, docs.len())?;
    for doc in docs {
        documents.push(doc.to_document(alloc)?)?;
    }
    Ok(documents)
}

impl InsertMany {
    /// The same insert, which stops at the first document that fails, or goes on behind it.
    pub fn ordered(mut self, ordered: bool) -> InsertMany
        ensures { result ≡ record self { options = record self.options { ordered = Some ordered } } }
    {
        self.options.ordered = Some(ordered);
        self
    }

    /// The same insert, which the rules of the collection do not judge, or judge.
    pub fn bypass_document_validation(mut self, bypass: bool) -> InsertMany
        ensures { result ≡ record self
            { options = record self.options { bypass_document_validation = Some bypass } } }
    {
        self.options.bypass_document_validation = Some(bypass);
        self
    }

    /// The same insert with a comment for the server's log.
    pub fn comment(mut self, comment: Bson) -> InsertMany
        ensures { result ≡ record self { options = record self.options { comment = Some comment } } }
    {
        self.options.comment = Some(comment);
        self
    }

    /// The same insert with a write concern of its own.
    pub fn write_concern(mut self, concern: WriteConcern) -> InsertMany
        ensures { result ≡ record self { options = record self.options { write_concern = Some concern } } }
    {
        self.options.write_concern = Some(concern);
        self
    }

    /// The same insert with these options in place of those before.
    pub fn with_options(mut self, options: InsertManyOptions) -> InsertMany
        ensures { result ≡ record self { options = options } }
    {
        self.options = options;
        self
    }

    /// Makes the insert: its input is judged before anything is drawn or asked of the link, each document gets its id
    /// once, and the batches go out one after another (`makes`), and each end has its cause (`cause`). Document i has
    /// the place (`outside.call`, i). Where store and link tell, and the call may be made there, it keeps what stands
    /// between the operations of one client (`keeps`), and the documents whose ids are listed have their entries in
    /// the log, which are all where it is Ok (`listed`), and what its batches told is so, whatever ended it (`told`);
    /// an Ok was cut into no more batches than the limits ask for (`fewest`); a valid one whose part of the schedule
    /// is gentle ends well (`complete`), and the numbers of idle sessions rise by one at most for each batch, where the
    /// server is told, and else for each document (`raises`). An error of want of memory tells of nothing else
    /// (`memory`). Errors: InvalidArgument and BsonSerialization for its input, InsertMany for documents that failed or
    /// a write concern that was not met, and those of `execute_operation`, each alone.
    pub fn run<S: SessionStore, L: Link, K: Clock, R: Rng>(
        self,
        alloc: Global,
        client: &mut Client<S>,
        outside: &mut Outside<L, K, R>,
    ) -> Result<InsertManyResult>
        ensures makes { MakesMany
            (moment_of S.tells L.tells K.tells R.stream client.old outside.old)
            (moment_of S.tells L.tells K.tells R.stream client.new outside.new)
            (Within self.collection) self.documents self.options outside.old.call result }
        ensures cause { ManyCaused
            (moment_of S.tells L.tells K.tells R.stream client.old outside.old)
            (moment_of S.tells L.tells K.tells R.stream client.new outside.new)
            (Within self.collection) self.documents self.options outside.old.call result }
        ensures keeps { KeepsCall
            (moment_of S.tells L.tells K.tells R.stream client.old outside.old)
            (moment_of S.tells L.tells K.tells R.stream client.new outside.new)
            self.collection.namespace self.documents outside.old.call }
        ensures listed { ListedStand
            (moment_of S.tells L.tells K.tells R.stream client.old outside.old)
            (moment_of S.tells L.tells K.tells R.stream client.new outside.new)
            self.collection.namespace self.documents outside.old.call result }
        ensures told { TellsTruly
            (moment_of S.tells L.tells K.tells R.stream client.old outside.old)
            (moment_of S.tells L.tells K.tells R.stream client.new outside.new)
            (Within self.collection) self.documents self.options outside.old.call result }
        ensures fewest { OkIsFewestCut
            (moment_of S.tells L.tells K.tells R.stream client.old outside.old)
            (moment_of S.tells L.tells K.tells R.stream client.new outside.new)
            self.collection.namespace self.documents self.options outside.old.call result }
        ensures complete { CompletesMany
            (moment_of S.tells L.tells K.tells R.stream client.old outside.old)
            (moment_of S.tells L.tells K.tells R.stream client.new outside.new)
            (Within self.collection) self.documents self.options outside.old.call result }
        ensures raises { RaisesByBatches
            (moment_of S.tells L.tells K.tells R.stream client.old outside.old)
            (moment_of S.tells L.tells K.tells R.stream client.new outside.new)
            self.collection.namespace self.documents self.options }
        ensures memory { IfErr result (λ error. MemoryAlone error) }
        ensures options { options_of client.new ≡ options_of client.old }
        ensures call { outside.new.call ≡ outside.old.call }
    {
        let InsertMany {
            collection,
            documents,
            options,
        } = self;
        let given = documents.as_slice();
        insert_all(alloc, client, outside, &collection, given, &options)
    }
}

//! A command as it is sent: a database, a body document and sequences of documents, in bytes.
ghost use Rattle.std.specs.Prelude.{◌≡◌, ◌<◌, length, slice_get, Some};
ghost use Rattle.driver_link.specs.Framed.{Framed};
ghost use Rattle.driver_link.specs.Sequences.{name_at, documents_at};

use bson_lite::{Bytes, Document, List, Text, TryClone};
use std::alloc::{AllocError, Global};
use std::marker::Model;

/// A named list of documents beside a body.
#[derive(Debug)]
pub struct Sequence {
    pub name: Text,
    pub documents: List<Bytes>,
}

impl Drop for Sequence {
    fn drop(self) {
        let Sequence { name, documents } = self;
        drop(name);
        drop(documents);
    }
}

impl TryClone for Sequence {
    fn try_clone(&self, alloc: Global) -> Result<Sequence, AllocError> {
        Ok(Sequence {
            name: self.name.try_clone(alloc)?,
            documents: self.documents.try_clone(alloc)?,
        })
    }
}

/// A sequence whose documents were read.
#[derive(Debug, Drop)]
pub struct Documents {
    pub name: Text,
    pub documents: List<Document>,
}

/// One command in bytes: a body, and sequences of documents beside it.
#[derive(Debug)]
pub struct Frame {
    database: Text,
    body: Bytes,
    sequences: List<Sequence>,
}

impl Drop for Frame {
    fn drop(self) {
        let Frame {
            database,
            body,
            sequences,
        } = self;
        drop(database);
        drop(body);
        drop(sequences);
    }
}

impl Model for Frame {
    ghost use Rattle.driver_link.specs.Framed.{Framed};

    ghost Value = { Framed };

    ghost view = { λ frame. record
        { database = frame.database; body = frame.body; sequences = frame.sequences } };
}

impl TryClone for Frame {
    fn try_clone(&self, alloc: Global) -> Result<Frame, AllocError> {
        Ok(Frame {
            database: self.database.try_clone(alloc)?,
            body: self.body.try_clone(alloc)?,
            sequences: self.sequences.try_clone(alloc)?,
        })
    }
}

impl Frame {
    pub fn new(database: Text, body: Bytes, sequences: List<Sequence>) -> Frame
        ensures { result ≡ record { database = database; body = body; sequences = sequences } }
    {
        Frame {
            database,
            body,
            sequences,
        }
    }

    /// The database that the command names.
    pub fn database(&self) -> &str
        ensures { result.now ≡ self.now.database }
    {
        self.database.as_str()
    }

    /// The bytes of the body document.
    pub fn body(&self) -> &[u8]
        ensures { result.now ≡ self.now.body }
    {
        self.body.as_slice()
    }

    pub fn sequence_count(&self) -> usize
        ensures { result ≡ length self.now.sequences }
    {
        self.sequences.len()
    }

    /// The name of a sequence.
    pub fn sequence_name(&self, at: usize) -> &str
        requires { at < length self.now.sequences }
        ensures { result.now ≡ name_at self.now.sequences at }
    {
        self.sequences.as_slice()[at].name.as_str()
    }

    /// How many documents a sequence has.
    pub fn document_count(&self, at: usize) -> usize
        requires { at < length self.now.sequences }
        ensures { result ≡ length (documents_at self.now.sequences at) }
    {
        self.sequences.as_slice()[at].documents.len()
    }

    /// The bytes of a document in a sequence.
    pub fn document(&self, at: usize, index: usize) -> &[u8]
        requires sequence { at < length self.now.sequences }
        requires place { index < length (documents_at self.now.sequences at) }
        ensures { slice_get (documents_at self.now.sequences at) index ≡ Some result.now }
    {
        let documents = self.sequences.as_slice()[at].documents.as_slice();
        documents[index].as_slice()
    }
}

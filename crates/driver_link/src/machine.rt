//! The model server's machine as plain data: what is sent, what the server keeps, and what a schedule
//! lets happen. Its steps are the definitions of `specs/Exchange.antt`.
use crate::by_id::ById;
use crate::shared::Shared;
use bson_lite::{Bson, ByIndex, Document, List, Namespace, Text, TryClone};
use driver_options::Description;
use std::alloc::{AllocError, Global};

/// The place of a write in a list of calls: the number of the call, and the write's index in it.
#[derive(Clone, Copy, Debug, PartialEq, Eq, PartialOrd, Ord, Hash)]
pub struct Place {
    pub call: u64,
    pub index: u64,
}

/// What a write does.
#[derive(Clone, Copy, Debug, PartialEq, Eq)]
pub enum WriteKind {
    Insert,
    Update,
    Delete,
    FindAndModify,
}

/// A write as the server sees it: the inserted document, the statement or the op without its index, or
/// the body of a findAndModify without the executor's fields.
#[derive(Debug)]
pub struct Written {
    pub kind: WriteKind,
    pub namespace: Namespace,
    pub document: Document,
}

impl Drop for Written {
    fn drop(self) {
        let Written {
            kind: _,
            namespace,
            document,
        } = self;
        drop(namespace);
        drop(document);
    }
}

impl TryClone for Written {
    fn try_clone(&self, alloc: Global) -> Result<Written, AllocError> {
        Ok(Written {
            kind: self.kind,
            namespace: self.namespace.try_clone(alloc)?,
            document: self.document.try_clone(alloc)?,
        })
    }
}

/// A write with the place from which it came. Those who keep it share it.
#[derive(Debug)]
pub struct PlacedWrite {
    pub place: Place,
    pub written: Shared<Written>,
}

impl Drop for PlacedWrite {
    fn drop(self) {
        let PlacedWrite { place: _, written } = self;
        drop(written);
    }
}

/// Which command carries writes. It decides the form of the reply.
#[derive(Clone, Copy, Debug, PartialEq, Eq)]
pub enum SendCommand {
    Insert,
    Update,
    Delete,
    FindAndModify,
    BulkWrite,
}

/// What a command asks for.
#[derive(Debug, Drop)]
pub enum SendBody {
    Write {
        command: SendCommand,
        /// Whether the first statement that fails stops the others.
        ordered: bool,
        writes: List<PlacedWrite>,
    },
    Commit,
    Abort,
    /// The next page of a cursor's results.
    More {
        cursor: i64,
    },
    /// An end to a cursor.
    Kill {
        cursor: i64,
    },
}

/// One command as the server sees it.
#[derive(Debug)]
pub struct Send {
    pub session: Option<[u8; 16]>,
    pub number: Option<i64>,
    /// Whether it starts a transaction.
    pub start: bool,
    pub in_transaction: bool,
    pub body: SendBody,
}

impl Drop for Send {
    fn drop(self) {
        let Send {
            session: _,
            number: _,
            start: _,
            in_transaction: _,
            body,
        } = self;
        drop(body);
    }
}

/// The result of one statement.
#[derive(Debug)]
pub struct Counted {
    pub n: i64,
    pub modified: i64,
    pub upserted: Option<Bson>,
    pub value: Option<Document>,
}

impl Drop for Counted {
    fn drop(self) {
        let Counted {
            n: _,
            modified: _,
            upserted,
            value,
        } = self;
        drop(upserted);
        drop(value);
    }
}

/// A write that the server ran.
#[derive(Debug)]
pub struct Entry {
    pub place: Place,
    pub written: Shared<Written>,
    pub result: Counted,
    pub session: Option<[u8; 16]>,
    pub number: Option<i64>,
}

impl Drop for Entry {
    fn drop(self) {
        let Entry {
            place: _,
            written,
            result,
            session: _,
            number: _,
        } = self;
        drop(written);
        drop(result);
    }
}

/// What a statement of a send came to.
#[derive(Debug, Drop)]
pub enum Statement {
    /// It ran before, and its result was kept.
    Kept(Counted),
    /// It ran now.
    Ran(Counted),
    /// It failed with a code.
    Failed(i32),
}

/// A session's transaction as the server has it.
#[derive(Debug, Drop)]
pub enum ServerTransaction {
    None,
    /// It gathers entries, the oldest first.
    Running { entries: List<Entry> },
    Committed,
    Aborted,
}

/// What a server knows of a session: its greatest number, and for that number the results kept by the
/// position of the statement, whether a statement ran, and the transaction.
#[derive(Debug, Drop)]
pub struct KnownSession {
    pub greatest: i64,
    pub kept: ByIndex<Counted>,
    pub ran: bool,
    pub transaction: ServerTransaction,
}

/// The state of the model server.
#[derive(Debug, Drop)]
pub struct Server {
    pub sessions: ById<KnownSession>,
    /// The writes that ran, the oldest first.
    pub log: List<Entry>,
    /// The late sends by the order of their lateness; `None` where one has been served.
    pub waiting: List<Option<Send>>,
    /// What is left of the results of each cursor, the cursor numbered 1 first; `None` where it is closed.
    pub cursors: List<Option<List<Document>>>,
    /// All sends, the oldest first.
    pub trace: List<Send>,
}

/// What a schedule says of one statement. What it leaves out counts as usual.
#[derive(Debug)]
pub struct Planned {
    pub n: Option<i64>,
    pub modified: Option<i64>,
    pub upserted: Option<Bson>,
    pub value: Option<Document>,
}

impl Drop for Planned {
    fn drop(self) {
        let Planned {
            n: _,
            modified: _,
            upserted,
            value,
        } = self;
        drop(upserted);
        drop(value);
    }
}

/// The statement at a position fails with a code.
#[derive(Clone, Copy, Debug, PartialEq, Eq)]
pub struct Failing {
    pub at: u64,
    pub code: i32,
}

/// A write concern error that a reply has.
#[derive(Debug)]
pub struct PlannedConcern {
    pub code: i32,
    pub message: Text,
}

impl Drop for PlannedConcern {
    fn drop(self) {
        let PlannedConcern { code: _, message } = self;
        drop(message);
    }
}

/// What happens to one exchange.
#[derive(Debug, Drop)]
pub enum Item {
    /// The send is served and answered.
    Serve {
        results: List<Planned>,
        fail: List<Failing>,
        write_concern_error: Option<PlannedConcern>,
        /// How many results the first page holds.
        page: Option<u64>,
    },
    /// The send is lost on its way: nothing runs, and the caller sees its connection reset.
    Lost,
    /// The send waits to be served later; the caller sees its connection reset.
    Late,
    /// The send is served and the reply is lost: the caller sees its connection reset.
    ReplyLost,
    /// The first statements without a kept result run, so many as `after` says, and then an error is
    /// answered. In a transaction that aborts it. A commit goes through first where `after` is not 0; an
    /// abort never does.
    Interrupted {
        after: u64,
        code: i32,
        labels: List<Text>,
    },
    /// Nothing runs, and an error is answered. No number is taken, but where the answer is that the
    /// send's transaction is transient: then its number is taken and its transaction aborted.
    Refused {
        code: i32,
        labels: List<Text>,
    },
    /// Nothing runs, and the reply asks for another authentication.
    Reauthenticate,
}

/// One step of a schedule: the waiting sends that are served first, and what happens to the exchange.
#[derive(Debug)]
pub struct Scheduled {
    pub deliver: List<u64>,
    pub item: Item,
}

impl Drop for Scheduled {
    fn drop(self) {
        let Scheduled { deliver, item } = self;
        drop(deliver);
        drop(item);
    }
}

/// What happens to the exchanges of a run, one item each, and which calls fail by their number, from 0.
/// Past the end of the items each exchange is served.
#[derive(Debug, Drop)]
pub struct Schedule {
    pub items: List<Scheduled>,
    pub selects: List<u64>,
    pub check_outs: List<u64>,
    /// These fail with both labels of overload.
    pub overloaded_check_outs: List<u64>,
    pub reauthentications: List<u64>,
    /// Questions whether transactions are supported.
    pub supports: List<u64>,
}

/// How a model server describes itself. The timeout of sessions is in milliseconds.
#[derive(Clone, Copy, Debug, PartialEq, Eq)]
pub struct Setup {
    pub description: Description,
    pub transactions: bool,
    pub timeout_ms: Option<u64>,
}

//! The keys of a script, its names of items, calls and levels, and how many calls it may hold. The key of a call is its
//! name in the report too.

pub const AFTER: &str = "after";

pub const ARRAY: &str = "array";

pub const AVAILABLE: &str = "available";

pub const BATCH: &str = "batch";

pub const BSON: &str = "bson";

pub const BULK_WRITE: &str = "bulkWrite";

pub const BYTES: &str = "bytes";

pub const CALLS: &str = "calls";

pub const CHECK_OUT: &str = "checkOut";

pub const CODE: &str = "code";

pub const COMMENT: &str = "comment";

pub const DATE: &str = "date";

pub const DELETE_MANY: &str = "deleteMany";

pub const DELETE_ONE: &str = "deleteOne";

pub const DELIVER: &str = "deliver";

pub const DOC: &str = "doc";

pub const DOCS: &str = "docs";

pub const DOUBLE: &str = "double";

pub const FAIL: &str = "fail";

pub const FAULTS: &str = "faults";

pub const FILTER: &str = "filter";

pub const FIND_ONE_AND_DELETE: &str = "findOneAndDelete";

pub const FIND_ONE_AND_REPLACE: &str = "findOneAndReplace";

pub const FIND_ONE_AND_UPDATE: &str = "findOneAndUpdate";

pub const INSERT_MANY: &str = "insertMany";

pub const INSERT_ONE: &str = "insertOne";

pub const INT64: &str = "int64";

pub const INTERRUPTED: &str = "interrupted";

pub const ITEM: &str = "item";

/// Whether a write is acknowledged only once it stands in the servers' journals.
pub const JOURNAL: &str = "j";

pub const LABELS: &str = "labels";

pub const LATE: &str = "late";

pub const LIMITS: &str = "limits";

pub const LINEARIZABLE: &str = "linearizable";

pub const LOCAL: &str = "local";

pub const LOST: &str = "lost";

/// Most of the servers: a level of reading, and an acknowledgment of writes.
pub const MAJORITY: &str = "majority";

pub const MESSAGE: &str = "message";

pub const MODELS: &str = "models";

pub const MODIFIED: &str = "modified";

/// The greatest number of calls of a script.
pub const MOST_CALLS: usize = 10_000;

/// How many documents a statement counts.
pub const N: &str = "n";

pub const NS: &str = "ns";

pub const OID: &str = "oid";

pub const OPTIONS: &str = "options";

/// Whether an insert of many documents stops at the first one that fails.
pub const ORDERED: &str = "ordered";

/// How many results the first page of a served bulk write shows.
pub const PAGE: &str = "page";

pub const PIPELINE: &str = "pipeline";

pub const READ_CONCERN: &str = "readConcern";

pub const REFUSED: &str = "refused";

pub const REPLACE_ONE: &str = "replaceOne";

pub const REPLY_LOST: &str = "replyLost";

pub const RESULTS: &str = "results";

pub const RETRY_WRITES: &str = "retryWrites";

pub const SCHEDULE: &str = "schedule";

pub const SELECT: &str = "select";

pub const SERVE: &str = "serve";

pub const SNAPSHOT: &str = "snapshot";

pub const TS: &str = "ts";

pub const UPDATE: &str = "update";

pub const UPDATE_MANY: &str = "updateMany";

pub const UPDATE_ONE: &str = "updateOne";

pub const UPSERT: &str = "upsert";

pub const UPSERTED: &str = "upserted";

pub const VALUE: &str = "value";

/// Whether a bulk write answers the result of each of its writes.
pub const VERBOSE: &str = "verbose";

/// Which servers acknowledge a write.
pub const W: &str = "w";

/// The greatest version of the wire protocol that a server speaks.
pub const WIRE: &str = "wire";

pub const WRITE_CONCERN: &str = "writeConcern";

pub const WRITE_CONCERN_ERROR: &str = "writeConcernError";

/// How long a server waits for them.
pub const W_TIMEOUT: &str = "wtimeout";

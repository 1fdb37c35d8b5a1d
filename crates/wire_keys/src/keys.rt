//! The keys of commands and replies, and the texts of scheduled failures.

pub const ABORT_TRANSACTION: &str = "abortTransaction";

/// The database of commands that name none of their own.
pub const ADMIN: &str = "admin";

pub const AUTOCOMMIT: &str = "autocommit";

pub const BULK_NAMESPACE: &str = "admin.$cmd.bulkWrite";

pub const BULK_WRITE: &str = "bulkWrite";

pub const CLUSTER_TIME: &str = "$clusterTime";

pub const CODE: &str = "code";

pub const COLLECTION: &str = "collection";

pub const COMMIT_TRANSACTION: &str = "commitTransaction";

pub const CURSOR: &str = "cursor";

pub const CURSORS: &str = "cursors";

/// The cursor's number in a reply.
pub const CURSOR_ID: &str = "id";

pub const CURSOR_NAMESPACE: &str = "ns";

pub const DATABASE: &str = "$db";

pub const DELETE: &str = "delete";

pub const DELETES: &str = "deletes";

pub const DOCUMENT: &str = "document";

pub const DOCUMENTS: &str = "documents";

pub const ERROR_LABELS: &str = "errorLabels";

pub const ERROR_MESSAGE: &str = "errmsg";

pub const FIND_AND_MODIFY: &str = "findAndModify";

pub const FIRST_BATCH: &str = "firstBatch";

pub const GET_MORE: &str = "getMore";

pub const INDEX: &str = "index";

pub const INSERT: &str = "insert";

pub const KILL_CURSORS: &str = "killCursors";

pub const N: &str = "n";

pub const N_DELETED: &str = "nDeleted";

pub const N_ERRORS: &str = "nErrors";

pub const N_INSERTED: &str = "nInserted";

pub const N_MATCHED: &str = "nMatched";

pub const N_MODIFIED: &str = "nModified";

pub const N_UPSERTED: &str = "nUpserted";

/// The namespace in a document that names one.
pub const NAMESPACE: &str = "ns";

pub const NAMESPACES: &str = "nsInfo";

pub const NEXT_BATCH: &str = "nextBatch";

pub const OK: &str = "ok";

pub const OPS: &str = "ops";

pub const ORDERED: &str = "ordered";

pub const READ_CONCERN: &str = "readConcern";

pub const RECOVERY_TOKEN: &str = "recoveryToken";

/// The position of an op in a document of its result.
pub const RESULT_INDEX: &str = "idx";

pub const SESSION: &str = "lsid";

pub const SESSION_ID: &str = "id";

pub const START_TRANSACTION: &str = "startTransaction";

pub const TRANSACTION_NUMBER: &str = "txnNumber";

pub const UPDATE: &str = "update";

pub const UPDATES: &str = "updates";

pub const UPSERTED: &str = "upserted";

pub const VALUE: &str = "value";

pub const WRITE_CONCERN: &str = "writeConcern";

pub const WRITE_CONCERN_ERROR: &str = "writeConcernError";

pub const WRITE_ERRORS: &str = "writeErrors";

/// The message of an error that a schedule did not word.
pub const SCHEDULED: &str = "scheduled";

/// The message of a selection that a schedule fails.
pub const SELECTION_FAILURE: &str = "scheduled selection failure";

/// The message of an authentication that a schedule fails.
pub const REAUTHENTICATION_FAILURE: &str = "scheduled reauthentication failure";

/// The subtype of a binary value that holds a UUID.
pub const UUID_SUBTYPE: u8 = 4;

//! The keys of options in commands and their statements, and of errors in replies.

pub const ARRAY_FILTERS: &str = "arrayFilters";

/// How long the server asks to wait before another try, in milliseconds.
pub const BASE_BACKOFF: &str = "baseBackoffMS";

pub const BYPASS_DOCUMENT_VALIDATION: &str = "bypassDocumentValidation";

/// The name of an error's code.
pub const CODE_NAME: &str = "codeName";

pub const COLLATION: &str = "collation";

pub const COMMENT: &str = "comment";

/// What a server adds to an error, as a document.
pub const ERROR_INFO: &str = "errInfo";

/// That a bulk write is answered with the results of those ops alone that failed.
pub const ERRORS_ONLY: &str = "errorsOnly";

/// Which fields of the document are answered.
pub const FIELDS: &str = "fields";

/// The filter of an op.
pub const FILTER: &str = "filter";

/// The filter of a findAndModify.
pub const FIND_QUERY: &str = "query";

pub const HINT: &str = "hint";

/// Whether a write is acknowledged only once it stands in the servers' journals.
pub const JOURNAL: &str = "j";

pub const LET: &str = "let";

/// How many of the documents found a delete takes out: one, or all at 0.
pub const LIMIT: &str = "limit";

/// The acknowledgment by most of the servers that hold data.
pub const MAJORITY: &str = "majority";

/// How many milliseconds a server may take for a command.
pub const MAX_TIME: &str = "maxTimeMS";

/// Whether an update changes all of the documents found.
pub const MULTI: &str = "multi";

/// Whether a findAndModify answers the document after the change.
pub const NEW: &str = "new";

/// The filter of a statement.
pub const QUERY: &str = "q";

/// That a findAndModify takes the document out.
pub const REMOVE: &str = "remove";

pub const SORT: &str = "sort";

/// What an update does.
pub const CHANGE: &str = "u";

/// What the op of an update does.
pub const UPDATE_MODIFICATIONS: &str = "updateMods";

pub const UPSERT: &str = "upsert";

/// Which servers acknowledge a write.
pub const W: &str = "w";

/// How many milliseconds a server waits for those that acknowledge a write.
pub const W_TIMEOUT: &str = "wtimeout";

//! Operations: what one tells of its command and of the reading of its answer, the parts that they share, and the
//! commands of a cursor.
#![tactic(auto)]

mod built_front;
mod command;
mod concern;
mod defaults;
mod feature;
mod get_more;
pub mod keys;
pub mod laws;
mod limits;
mod operation;
pub mod option_fields;
pub mod reply_fields;
mod response;
mod single_cursor;
mod spelling;
mod target;
pub mod write_reply;

pub use built_front::BuiltFront;
pub use command::Command;
pub use concern::{concern_document, push_number};
pub use defaults::{
    lacks_option, reads_one_page, repeats_nothing, repeats_under_backpressure,
    repeats_unless_forbidden, stays_for_retry, takes_sessions, writes_after_cluster_time,
};
pub use feature::Feature;
pub use get_more::{GetMore, KillCursors, kill_body, more_body};
pub use keys::{BASE_BACKOFF, CODE_NAME, ERROR_INFO};
pub use limits::limits_beside;
pub use operation::{Operation, Reading};
pub use response::{CommandResponse, odd_reply, read_response, with_reply};
pub use single_cursor::SingleCursorResult;
pub use spelling::{encode_document, encode_document_with_id};
pub use target::{Collection, Database, OperationTarget};

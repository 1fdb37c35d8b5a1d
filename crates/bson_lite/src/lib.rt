//! BSON documents: the values, and their one spelling in bytes.
//!
//! A contract sees a [`Document`] as the list of its pairs and a [`Bson`] as a plain tree, so an
//! equality of documents is an equality of trees. `Text`, `Bytes` and `List` are seen as lists.
#![tactic(auto)]

pub mod boxed;
pub mod bson;
pub mod by_index;
pub mod copy;
mod deeper;
pub mod document;
pub mod encoding;
pub mod fault;
pub mod fields;
pub mod key;
pub mod laws;
pub mod list;
pub mod namespace;
pub mod raw;
mod same;
mod survey;
pub mod text;

pub use boxed::Boxed;
pub use bson::{Binary, Bson, ObjectId, Regex, Timestamp};
pub use by_index::{ByIndex, unite_four, unite_three};
pub use copy::TryClone;
pub use document::{Document, Pair};
pub use encoding::{encode, encode_refusal, encode_with_id, encode_with_id_within, encode_within};
pub use fault::{DecodeFault, EncodeFault};
pub use fields::{
    ID_KEY, get_int, get_or_prepend_id_field, replacement_document_check, update_document_check,
};
pub use key::Key;
pub use laws::{order_of_timestamps, round_trip, union_by_index};
pub use list::List;
pub use namespace::Namespace;
pub use raw::RawDocumentBuf;
pub use survey::{encoded_len, refusal_within};
pub use text::{Bytes, Text};

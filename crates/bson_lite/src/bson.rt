//! The values that a document can hold, one variant for each type of the format.
use crate::boxed::Boxed;
use crate::document::Document;
use crate::list::List;
use crate::text::{Bytes, Text};

/// A value. Doubles and decimals are carried as their bytes and never computed.
#[derive(Debug, Drop)]
pub enum Bson {
    Double([u8; 8]),
    String(Text),
    Document(Document<Bson>),
    Array(List<Bson>),
    Binary(Binary),
    Undefined,
    ObjectId(ObjectId),
    Boolean(bool),
    DateTime(i64),
    Null,
    RegularExpression(Boxed<Regex>),
    JavaScriptCode(Text),
    Symbol(Text),
    Int32(i32),
    Timestamp(Timestamp),
    Int64(i64),
    Decimal128([u8; 16]),
    MinKey,
    MaxKey,
}

/// Bytes with a subtype.
#[derive(Debug, PartialEq, Drop)]
pub struct Binary {
    pub subtype: u8,
    pub bytes: Bytes,
}

/// A regular expression: its pattern and its options.
#[derive(Debug, PartialEq, Drop)]
pub struct Regex {
    pub pattern: Text,
    pub options: Text,
}

/// A moment of the server's log. The order is by time, then by increment.
#[derive(Clone, Copy, Debug, PartialEq, Eq, PartialOrd, Ord)]
pub struct Timestamp {
    pub time: u32,
    pub increment: u32,
}

/// The twelve bytes of an object id.
#[derive(Clone, Copy, Debug, PartialEq, Eq, PartialOrd, Ord, Hash)]
pub struct ObjectId {
    pub bytes: [u8; 12],
}

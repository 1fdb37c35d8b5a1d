//! The name of a collection in its database.
use crate::text::Text;
use std::fmt;

/// A database and a collection.
#[derive(Debug, PartialEq, Drop)]
pub struct Namespace {
    pub db: Text,
    pub coll: Text,
}

impl fmt::Display for Namespace {
    ghost use Rattle.std.specs.Prelude.{Some};
    ghost use Rattle.bson_lite.specs.Namespace.{dotted};

    ghost output = { λ namespace. Some (dotted namespace) };

    fn fmt<W: fmt::Write>(&self, f: &mut fmt::Formatter<W>) -> fmt::Result {
        let db = &self.db;
        let coll = &self.coll;
        write!(f, "{db}.{coll}")
    }
}

//! Laws of the constants that definitions name, of labels in order, and of the equalities that are derived.
ghost use Rattle.std.specs.Prelude.{◌≡◌, ◌↔◌, ℕ, List, IsTrue};
ghost use Rattle.driver_error.specs.LabelTexts.{LabelSet, in_order};
ghost use Rattle.driver_error.specs.Labelling.{HaveTexts};
ghost use Rattle.driver_error.specs.SortedLabels.{Lists};

use crate::kind::IoKind;
use crate::write::{IndexedWriteError, WriteConcernError, WriteError};
use server_answers::{
    CollectionType, CreateIndexResult, CreateIndexesResult, DatabaseSpecification,
};

/// The labels have these texts.
pub fn the_labels_have_their_texts()
    ensures { HaveTexts }
{}

/// The labels of a set in order are these labels, each once, by rising bytes; and no other list is so.
pub fn labels_in_order_rise()
    ensures { (set : LabelSet) (labels : List (List ℕ)) → (labels ≡ in_order set) ↔ Lists set labels }
{}

/// Two write concern errors are equal exactly where they are the same.
pub fn equality_of_write_concern_errors(a: &WriteConcernError, b: &WriteConcernError) -> bool
    ensures { IsTrue result ↔ (a.now ≡ b.now) }
{
    *a == *b
}

/// The same of two write errors.
pub fn equality_of_write_errors(a: &WriteError, b: &WriteError) -> bool
    ensures { IsTrue result ↔ (a.now ≡ b.now) }
{
    *a == *b
}

/// The same of two write errors with their indexes.
pub fn equality_of_indexed_write_errors(a: &IndexedWriteError, b: &IndexedWriteError) -> bool
    ensures { IsTrue result ↔ (a.now ≡ b.now) }
{
    *a == *b
}

/// The same of two answers of the making of an index.
pub fn equality_of_index_results(a: &CreateIndexResult, b: &CreateIndexResult) -> bool
    ensures { IsTrue result ↔ (a.now ≡ b.now) }
{
    *a == *b
}

/// The same of two answers of the making of several.
pub fn equality_of_indexes_results(a: &CreateIndexesResult, b: &CreateIndexesResult) -> bool
    ensures { IsTrue result ↔ (a.now ≡ b.now) }
{
    *a == *b
}

/// The same of two databases.
pub fn equality_of_databases(a: &DatabaseSpecification, b: &DatabaseSpecification) -> bool
    ensures { IsTrue result ↔ (a.now ≡ b.now) }
{
    *a == *b
}

/// The same of two faults of reading or writing.
pub fn equality_of_io_kinds(a: IoKind, b: IoKind) -> bool
    ensures { IsTrue result ↔ (a ≡ b) }
{
    a == b
}

/// The same of two types of collections.
pub fn equality_of_collection_types(a: CollectionType, b: CollectionType) -> bool
    ensures { IsTrue result ↔ (a ≡ b) }
{
    a == b
}

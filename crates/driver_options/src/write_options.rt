//! The options of writes. One that is not set is not sent, but for `ordered`, which is then true, and a concern,
//! which is then the client's.
use crate::concerns::WriteConcern;
use crate::shared_options::{Beside, Finding, copy_beside, copy_finding};
use crate::updates::Hint;
use bson_lite::{Bson, Document, List, TryClone};
use std::alloc::{AllocError, Global};

/// The options of an insert.
#[derive(Debug, Default, Drop)]
pub struct InsertManyOptions {
    /// Whether the insert stops at the first document that fails, which it does where this is not set.
    pub ordered: Option<bool>,
    /// Whether documents that the collection's rules forbid are taken.
    pub bypass_document_validation: Option<bool>,
    /// What a server's log says of the command.
    pub comment: Option<Bson>,
    pub write_concern: Option<WriteConcern>,
}

impl TryClone for InsertManyOptions {
    fn try_clone(&self, alloc: Global) -> Result<InsertManyOptions, AllocError> {
        Ok(InsertManyOptions {
            ordered: self.ordered,
            bypass_document_validation: self.bypass_document_validation,
            write_concern: self.write_concern.try_clone(alloc)?,
            comment: self.comment.try_clone(alloc)?,
        })
    }
}

/// The options of a bulk write.
#[derive(Debug, Default, Drop)]
pub struct BulkWriteOptions {
    /// Whether it stops at the first write that fails, which it does where this is not set.
    pub ordered: Option<bool>,
    /// Whether documents that the collections' rules forbid are taken.
    pub bypass_document_validation: Option<bool>,
    /// What a server's log says of the command.
    pub comment: Option<Bson>,
    pub write_concern: Option<WriteConcern>,
    /// Values that filters and updates may name.
    pub let_vars: Option<Document>,
}

impl TryClone for BulkWriteOptions {
    fn try_clone(&self, alloc: Global) -> Result<BulkWriteOptions, AllocError> {
        let beside = copy_beside(alloc, &self.let_vars, &self.comment, &self.write_concern)?;
        let Beside {
            let_vars,
            comment,
            write_concern,
        } = beside;
        Ok(BulkWriteOptions {
            ordered: self.ordered,
            bypass_document_validation: self.bypass_document_validation,
            comment,
            write_concern,
            let_vars,
        })
    }
}

/// The options of an update or a replacement.
#[derive(Debug, Default, Drop)]
pub struct UpdateOptions {
    /// Whether a document is put in where none is found.
    pub upsert: Option<bool>,
    /// Which elements of an array the operators change.
    pub array_filters: Option<List<Document>>,
    pub hint: Option<Hint>,
    /// How texts are compared.
    pub collation: Option<Document>,
    /// Whether documents that the collection's rules forbid are taken.
    pub bypass_document_validation: Option<bool>,
    /// Values that the filter and the update may name.
    pub let_vars: Option<Document>,
    /// What a server's log says of the command.
    pub comment: Option<Bson>,
    /// Which of the documents found comes first.
    pub sort: Option<Document>,
    pub write_concern: Option<WriteConcern>,
}

impl TryClone for UpdateOptions {
    fn try_clone(&self, alloc: Global) -> Result<UpdateOptions, AllocError> {
        let array_filters = self.array_filters.try_clone(alloc)?;
        let finding = copy_finding(alloc, &self.sort, &self.collation, &self.hint)?;
        let beside = copy_beside(alloc, &self.let_vars, &self.comment, &self.write_concern)?;
        let Finding {
            sort,
            collation,
            hint,
        } = finding;
        let Beside {
            let_vars,
            comment,
            write_concern,
        } = beside;
        Ok(UpdateOptions {
            upsert: self.upsert,
            array_filters,
            hint,
            collation,
            bypass_document_validation: self.bypass_document_validation,
            let_vars,
            comment,
            sort,
            write_concern,
        })
    }
}

/// The options of a delete.
#[derive(Debug, Default, Drop)]
pub struct DeleteOptions {
    /// How texts are compared.
    pub collation: Option<Document>,
    pub hint: Option<Hint>,
    /// Values that the filter may name.
    pub let_vars: Option<Document>,
    /// What a server's log says of the command.
    pub comment: Option<Bson>,
    pub write_concern: Option<WriteConcern>,
}

impl TryClone for DeleteOptions {
    fn try_clone(&self, alloc: Global) -> Result<DeleteOptions, AllocError> {
        let collation = self.collation.try_clone(alloc)?;
        let hint = self.hint.try_clone(alloc)?;
        let beside = copy_beside(alloc, &self.let_vars, &self.comment, &self.write_concern)?;
        let Beside {
            let_vars,
            comment,
            write_concern,
        } = beside;
        Ok(DeleteOptions {
            collation,
            hint,
            let_vars,
            comment,
            write_concern,
        })
    }
}

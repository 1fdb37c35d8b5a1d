//! The options of writes that find one document and answer it. One that is not set is not sent, but for a concern,
//! which is then the client's.
ghost use Rattle.std.specs.Prelude.{◌≡◌};
ghost use Rattle.driver_options.specs.FindOptions.{new_flag};

use crate::concerns::WriteConcern;
use crate::shared_options::{Beside, Finding, copy_beside, copy_finding};
use crate::updates::Hint;
use bson_lite::{Bson, Document, List, TryClone};
use std::alloc::{AllocError, Global};

/// Which document is answered: the one after the change, or the one before it.
#[derive(Clone, Copy, Debug, PartialEq, Eq)]
pub enum ReturnDocument {
    After,
    Before,
}

/// Whether the document after the change is asked for, where one of the two is.
fn new_flag(return_document: Option<ReturnDocument>) -> Option<bool>
    ensures { result ≡ new_flag return_document }
{
    match return_document {
        None => None,
        Some(ReturnDocument::After) => Some(true),
        Some(ReturnDocument::Before) => Some(false),
    }
}

/// The options of a delete that answers the document which it took out.
#[derive(Debug, Default, Drop)]
pub struct FindOneAndDeleteOptions {
    /// Which of the documents found comes first.
    pub sort: Option<Document>,
    /// How many milliseconds the server may take.
    pub max_time: Option<u32>,
    /// Which fields of the document are answered.
    pub projection: Option<Document>,
    /// How texts are compared.
    pub collation: Option<Document>,
    pub hint: Option<Hint>,
    /// Values that the filter may name.
    pub let_vars: Option<Document>,
    /// What a server's log says of the command.
    pub comment: Option<Bson>,
    pub write_concern: Option<WriteConcern>,
}

impl TryClone for FindOneAndDeleteOptions {
    fn try_clone(&self, alloc: Global) -> Result<FindOneAndDeleteOptions, AllocError> {
        let projection = self.projection.try_clone(alloc)?;
        let finding = copy_finding(alloc, &self.sort, &self.collation, &self.hint)?;
        let beside = copy_beside(alloc, &self.let_vars, &self.comment, &self.write_concern)?;
        let Finding {
            sort,
            collation,
            hint,
        } = finding;
        let Beside {
            let_vars,
            comment,
            write_concern,
        } = beside;
        Ok(FindOneAndDeleteOptions {
            sort,
            max_time: self.max_time,
            projection,
            collation,
            hint,
            let_vars,
            comment,
            write_concern,
        })
    }
}

/// The options of an update that answers the document which it changed.
#[derive(Debug, Default, Drop)]
pub struct FindOneAndUpdateOptions {
    /// Which of the documents found comes first.
    pub sort: Option<Document>,
    /// Which document is answered: the one before the change where this is not set.
    pub return_document: Option<ReturnDocument>,
    /// Whether a document is put in where none is found.
    pub upsert: Option<bool>,
    /// Whether documents that the collection's rules forbid are taken.
    pub bypass_document_validation: Option<bool>,
    /// Which elements of an array the operators change.
    pub array_filters: Option<List<Document>>,
    /// How many milliseconds the server may take.
    pub max_time: Option<u32>,
    /// Which fields of the document are answered.
    pub projection: Option<Document>,
    /// How texts are compared.
    pub collation: Option<Document>,
    pub hint: Option<Hint>,
    /// Values that the filter and the update may name.
    pub let_vars: Option<Document>,
    /// What a server's log says of the command.
    pub comment: Option<Bson>,
    pub write_concern: Option<WriteConcern>,
}

impl TryClone for FindOneAndUpdateOptions {
    fn try_clone(&self, alloc: Global) -> Result<FindOneAndUpdateOptions, AllocError> {
        let array_filters = self.array_filters.try_clone(alloc)?;
        let projection = self.projection.try_clone(alloc)?;
        let finding = copy_finding(alloc, &self.sort, &self.collation, &self.hint)?;
        let beside = copy_beside(alloc, &self.let_vars, &self.comment, &self.write_concern)?;
        let Finding {
            sort,
            collation,
            hint,
        } = finding;
        let Beside {
            let_vars,
            comment,
            write_concern,
        } = beside;
        Ok(FindOneAndUpdateOptions {
            sort,
            return_document: self.return_document,
            upsert: self.upsert,
            bypass_document_validation: self.bypass_document_validation,
            array_filters,
            max_time: self.max_time,
            projection,
            collation,
            hint,
            let_vars,
            comment,
            write_concern,
        })
    }
}

/// The options of a replacement that answers the document whose place was taken.
#[derive(Debug, Default, Drop)]
pub struct FindOneAndReplaceOptions {
    /// Which of the documents found comes first.
    pub sort: Option<Document>,
    /// Which document is answered: the one before the change where this is not set.
    pub return_document: Option<ReturnDocument>,
    /// Whether a document is put in where none is found.
    pub upsert: Option<bool>,
    /// Whether documents that the collection's rules forbid are taken.
    pub bypass_document_validation: Option<bool>,
    /// How many milliseconds the server may take.
    pub max_time: Option<u32>,
    /// Which fields of the document are answered.
    pub projection: Option<Document>,
    /// How texts are compared.
    pub collation: Option<Document>,
    pub hint: Option<Hint>,
    /// Values that the filter may name.
    pub let_vars: Option<Document>,
    /// What a server's log says of the command.
    pub comment: Option<Bson>,
    pub write_concern: Option<WriteConcern>,
}

impl TryClone for FindOneAndReplaceOptions {
    fn try_clone(&self, alloc: Global) -> Result<FindOneAndReplaceOptions, AllocError> {
        let projection = self.projection.try_clone(alloc)?;
        let finding = copy_finding(alloc, &self.sort, &self.collation, &self.hint)?;
        let beside = copy_beside(alloc, &self.let_vars, &self.comment, &self.write_concern)?;
        let Finding {
            sort,
            collation,
            hint,
        } = finding;
        let Beside {
            let_vars,
            comment,
            write_concern,
        } = beside;
        Ok(FindOneAndReplaceOptions {
            sort,
            return_document: self.return_document,
            upsert: self.upsert,
            bypass_document_validation: self.bypass_document_validation,
            max_time: self.max_time,
            projection,
            collation,
            hint,
            let_vars,
            comment,
            write_concern,
        })
    }
}

/// The options of the command by which all three go out.
#[derive(Debug, Default, Drop)]
pub struct FindAndModifyOptions {
    /// Which of the documents found comes first.
    pub sort: Option<Document>,
    /// Whether the document after the change is answered, and not the one before it.
    pub new: Option<bool>,
    /// Whether a document is put in where none is found.
    pub upsert: Option<bool>,
    /// Whether documents that the collection's rules forbid are taken.
    pub bypass_document_validation: Option<bool>,
    /// Which elements of an array the operators change.
    pub array_filters: Option<List<Document>>,
    /// How many milliseconds the server may take.
    pub max_time: Option<u32>,
    /// Which fields of the document are answered.
    pub projection: Option<Document>,
    /// How texts are compared.
    pub collation: Option<Document>,
    pub hint: Option<Hint>,
    /// Values that the filter and the update may name.
    pub let_vars: Option<Document>,
    /// What a server's log says of the command.
    pub comment: Option<Bson>,
    pub write_concern: Option<WriteConcern>,
}

impl TryClone for FindAndModifyOptions {
    fn try_clone(&self, alloc: Global) -> Result<FindAndModifyOptions, AllocError> {
        let array_filters = self.array_filters.try_clone(alloc)?;
        let projection = self.projection.try_clone(alloc)?;
        let finding = copy_finding(alloc, &self.sort, &self.collation, &self.hint)?;
        let beside = copy_beside(alloc, &self.let_vars, &self.comment, &self.write_concern)?;
        let Finding {
            sort,
            collation,
            hint,
        } = finding;
        let Beside {
            let_vars,
            comment,
            write_concern,
        } = beside;
        Ok(FindAndModifyOptions {
            sort,
            new: self.new,
            upsert: self.upsert,
            bypass_document_validation: self.bypass_document_validation,
            array_filters,
            max_time: self.max_time,
            projection,
            collation,
            hint,
            let_vars,
            comment,
            write_concern,
        })
    }
}

impl From<FindOneAndDeleteOptions> for FindAndModifyOptions {
    ghost use Rattle.std.specs.Prelude.{◌≡◌};
    ghost use Rattle.driver_options.specs.FindOptions.{options_of_delete};

    ghost from_gives = { λ options made. made ≡ options_of_delete options };

    fn from(options: FindOneAndDeleteOptions) -> FindAndModifyOptions {
        FindAndModifyOptions {
            sort: options.sort,
            new: None,
            upsert: None,
            bypass_document_validation: None,
            array_filters: None,
            max_time: options.max_time,
            projection: options.projection,
            collation: options.collation,
            hint: options.hint,
            let_vars: options.let_vars,
            comment: options.comment,
            write_concern: options.write_concern,
        }
    }
}

impl From<FindOneAndUpdateOptions> for FindAndModifyOptions {
    ghost use Rattle.std.specs.Prelude.{◌≡◌};
    ghost use Rattle.driver_options.specs.FindOptions.{options_of_update};

    ghost from_gives = { λ options made. made ≡ options_of_update options };

    fn from(options: FindOneAndUpdateOptions) -> FindAndModifyOptions {
        FindAndModifyOptions {
            sort: options.sort,
            new: new_flag(options.return_document),
            upsert: options.upsert,
            bypass_document_validation: options.bypass_document_validation,
            array_filters: options.array_filters,
            max_time: options.max_time,
            projection: options.projection,
            collation: options.collation,
            hint: options.hint,
            let_vars: options.let_vars,
            comment: options.comment,
            write_concern: options.write_concern,
        }
    }
}

impl From<FindOneAndReplaceOptions> for FindAndModifyOptions {
    ghost use Rattle.std.specs.Prelude.{◌≡◌};
    ghost use Rattle.driver_options.specs.FindOptions.{options_of_replace};

    ghost from_gives = { λ options made. made ≡ options_of_replace options };

    fn from(options: FindOneAndReplaceOptions) -> FindAndModifyOptions {
        FindAndModifyOptions {
            sort: options.sort,
            new: new_flag(options.return_document),
            upsert: options.upsert,
            bypass_document_validation: options.bypass_document_validation,
            array_filters: None,
            max_time: options.max_time,
            projection: options.projection,
            collation: options.collation,
            hint: options.hint,
            let_vars: options.let_vars,
            comment: options.comment,
            write_concern: options.write_concern,
        }
    }
}

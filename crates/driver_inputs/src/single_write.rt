//! Writes of one statement, as plain data.
use bson_lite::{Boxed, Document, Namespace};
use driver_options::{
    DeleteOptions, FindOneAndDeleteOptions, FindOneAndReplaceOptions, FindOneAndUpdateOptions,
    InsertManyOptions, UpdateModifications, UpdateOptions,
};

/// A write of one statement. Options that are larger than those of an insert stand in memory of their own, so that a
/// list of calls is as large as its inserts need.
#[derive(Debug, Drop)]
pub enum SingleWrite {
    /// Inserts a document, with an id put first where it has none.
    InsertOne(InsertWrite),
    /// Changes one of the documents that the filter finds.
    UpdateOne(UpdateWrite),
    /// Changes all documents that the filter finds.
    UpdateMany(UpdateWrite),
    /// Puts a document in the place of one that the filter finds.
    ReplaceOne(ReplaceWrite),
    /// Deletes one of the documents that the filter finds.
    DeleteOne(DeleteWrite),
    /// Deletes all documents that the filter finds.
    DeleteMany(DeleteWrite),
    /// Takes out one of the documents that the filter finds, and answers it.
    FindOneAndDelete(FindAndDelete),
    /// Changes one of the documents that the filter finds, and answers it.
    FindOneAndUpdate(FindAndUpdate),
    /// Puts a document in the place of one that the filter finds, and answers that one.
    FindOneAndReplace(FindAndReplace),
}

/// The insert of a document.
#[derive(Debug)]
pub struct InsertWrite {
    pub namespace: Namespace,
    pub document: Document,
    pub options: InsertManyOptions,
}

impl Drop for InsertWrite {
    fn drop(self) {
        let InsertWrite {
            namespace,
            document,
            options,
        } = self;
        drop(namespace);
        drop(document);
        drop(options);
    }
}

/// A change of what a filter finds.
#[derive(Debug)]
pub struct UpdateWrite {
    pub namespace: Namespace,
    pub filter: Document,
    pub update: UpdateModifications,
    pub options: Boxed<UpdateOptions>,
}

impl Drop for UpdateWrite {
    fn drop(self) {
        let UpdateWrite {
            namespace,
            filter,
            update,
            options,
        } = self;
        drop(namespace);
        drop(filter);
        drop(update);
        drop(options);
    }
}

/// A document in the place of one that a filter finds.
#[derive(Debug)]
pub struct ReplaceWrite {
    pub namespace: Namespace,
    pub filter: Document,
    pub replacement: Document,
    pub options: Boxed<UpdateOptions>,
}

impl Drop for ReplaceWrite {
    fn drop(self) {
        let ReplaceWrite {
            namespace,
            filter,
            replacement,
            options,
        } = self;
        drop(namespace);
        drop(filter);
        drop(replacement);
        drop(options);
    }
}

/// The delete of what a filter finds.
#[derive(Debug)]
pub struct DeleteWrite {
    pub namespace: Namespace,
    pub filter: Document,
    pub options: Boxed<DeleteOptions>,
}

impl Drop for DeleteWrite {
    fn drop(self) {
        let DeleteWrite {
            namespace,
            filter,
            options,
        } = self;
        drop(namespace);
        drop(filter);
        drop(options);
    }
}

/// The delete of a document that a filter finds, which answers it.
#[derive(Debug)]
pub struct FindAndDelete {
    pub namespace: Namespace,
    pub filter: Document,
    pub options: Boxed<FindOneAndDeleteOptions>,
}

impl Drop for FindAndDelete {
    fn drop(self) {
        let FindAndDelete {
            namespace,
            filter,
            options,
        } = self;
        drop(namespace);
        drop(filter);
        drop(options);
    }
}

/// A change of a document that a filter finds, which answers it.
#[derive(Debug)]
pub struct FindAndUpdate {
    pub namespace: Namespace,
    pub filter: Document,
    pub update: UpdateModifications,
    pub options: Boxed<FindOneAndUpdateOptions>,
}

impl Drop for FindAndUpdate {
    fn drop(self) {
        let FindAndUpdate {
            namespace,
            filter,
            update,
            options,
        } = self;
        drop(namespace);
        drop(filter);
        drop(update);
        drop(options);
    }
}

/// A document in the place of one that a filter finds, which answers that one.
#[derive(Debug)]
pub struct FindAndReplace {
    pub namespace: Namespace,
    pub filter: Document,
    pub replacement: Document,
    pub options: Boxed<FindOneAndReplaceOptions>,
}

impl Drop for FindAndReplace {
    fn drop(self) {
        let FindAndReplace {
            namespace,
            filter,
            replacement,
            options,
        } = self;
        drop(namespace);
        drop(filter);
        drop(replacement);
        drop(options);
    }
}

//! The writes of a bulk write: six models, each of one write on a collection of its own.
ghost use Rattle.std.specs.Prelude.{◌≡◌, None, Some};
ghost use Rattle.driver_options.specs.Models.{multi_of, namespace_of, operation_of};

use crate::updates::UpdateModifications;
use bson_lite::{Bson, Document, List, Namespace};
use std::mem;

/// What a model does. A replacement is an update.
#[derive(Clone, Copy, Debug, PartialEq, Eq)]
pub enum OperationType {
    Insert,
    Update,
    Delete,
}

/// The insert of one document.
#[derive(Debug)]
pub struct InsertOneModel {
    pub namespace: Namespace,
    pub document: Document,
}

impl Drop for InsertOneModel {
    fn drop(self) {
        let InsertOneModel {
            namespace,
            document,
        } = self;
        drop(namespace);
        drop(document);
    }
}

impl InsertOneModel {
    pub fn new(namespace: Namespace, document: Document) -> InsertOneModel
        ensures { result ≡ record { namespace = namespace; document = document } }
    {
        InsertOneModel {
            namespace,
            document,
        }
    }
}

/// An update of one of the documents that a filter finds.
#[derive(Debug)]
pub struct UpdateOneModel {
    pub namespace: Namespace,
    pub filter: Document,
    pub update: UpdateModifications,
    /// Which elements of an array the operators change.
    pub array_filters: Option<List<Bson>>,
    /// How texts are compared.
    pub collation: Option<Document>,
    /// Which index serves it, by its keys or its name.
    pub hint: Option<Bson>,
    /// Whether a document is put in where none is found.
    pub upsert: Option<bool>,
    /// Which of the documents found comes first.
    pub sort: Option<Document>,
}

impl Drop for UpdateOneModel {
    fn drop(self) {
        let UpdateOneModel {
            namespace,
            filter,
            update,
            array_filters,
            collation,
            hint,
            upsert: _,
            sort,
        } = self;
        drop(namespace);
        drop(filter);
        drop(update);
        drop(array_filters);
        drop(collation);
        drop(hint);
        drop(sort);
    }
}

impl UpdateOneModel {
    /// With no option set.
    pub fn new(
        namespace: Namespace,
        filter: Document,
        update: UpdateModifications,
    ) -> UpdateOneModel
        ensures { result ≡ record {
          namespace = namespace;
          filter = filter;
          update = update;
          array_filters = None;
          collation = None;
          hint = None;
          upsert = None;
          sort = None;
        } }
    {
        UpdateOneModel {
            namespace,
            filter,
            update,
            array_filters: None,
            collation: None,
            hint: None,
            upsert: None,
            sort: None,
        }
    }

    pub fn array_filters(mut self, array_filters: List<Bson>) -> UpdateOneModel
        ensures { result ≡ record self { array_filters = Some array_filters } }
    {
        self.array_filters = Some(array_filters);
        self
    }

    pub fn collation(mut self, collation: Document) -> UpdateOneModel
        ensures { result ≡ record self { collation = Some collation } }
    {
        self.collation = Some(collation);
        self
    }

    pub fn hint(mut self, hint: Bson) -> UpdateOneModel
        ensures { result ≡ record self { hint = Some hint } }
    {
        drop(mem::replace(&mut self.hint, Some(hint)));
        self
    }

    pub fn upsert(mut self, upsert: bool) -> UpdateOneModel
        ensures { result ≡ record self { upsert = Some upsert } }
    {
        self.upsert = Some(upsert);
        self
    }

    pub fn sort(mut self, sort: Document) -> UpdateOneModel
        ensures { result ≡ record self { sort = Some sort } }
    {
        self.sort = Some(sort);
        self
    }
}

/// An update of all documents that a filter finds.
#[derive(Debug)]
pub struct UpdateManyModel {
    pub namespace: Namespace,
    pub filter: Document,
    pub update: UpdateModifications,
    /// Which elements of an array the operators change.
    pub array_filters: Option<List<Bson>>,
    /// How texts are compared.
    pub collation: Option<Document>,
    /// Which index serves it, by its keys or its name.
    pub hint: Option<Bson>,
    /// Whether a document is put in where none is found.
    pub upsert: Option<bool>,
}

impl Drop for UpdateManyModel {
    fn drop(self) {
        let UpdateManyModel {
            namespace,
            filter,
            update,
            array_filters,
            collation,
            hint,
            upsert: _,
        } = self;
        drop(namespace);
        drop(filter);
        drop(update);
        drop(array_filters);
        drop(collation);
        drop(hint);
    }
}

impl UpdateManyModel {
    /// With no option set.
    pub fn new(
        namespace: Namespace,
        filter: Document,
        update: UpdateModifications,
    ) -> UpdateManyModel
        ensures { result ≡ record {
          namespace = namespace;
          filter = filter;
          update = update;
          array_filters = None;
          collation = None;
          hint = None;
          upsert = None;
        } }
    {
        UpdateManyModel {
            namespace,
            filter,
            update,
            array_filters: None,
            collation: None,
            hint: None,
            upsert: None,
        }
    }

    pub fn array_filters(mut self, array_filters: List<Bson>) -> UpdateManyModel
        ensures { result ≡ record self { array_filters = Some array_filters } }
    {
        self.array_filters = Some(array_filters);
        self
    }

    pub fn collation(mut self, collation: Document) -> UpdateManyModel
        ensures { result ≡ record self { collation = Some collation } }
    {
        self.collation = Some(collation);
        self
    }

    pub fn hint(mut self, hint: Bson) -> UpdateManyModel
        ensures { result ≡ record self { hint = Some hint } }
    {
        drop(mem::replace(&mut self.hint, Some(hint)));
        self
    }

    pub fn upsert(mut self, upsert: bool) -> UpdateManyModel
        ensures { result ≡ record self { upsert = Some upsert } }
    {
        self.upsert = Some(upsert);
        self
    }
}

/// A document that takes the place of one of those that a filter finds.
#[derive(Debug)]
pub struct ReplaceOneModel {
    pub namespace: Namespace,
    pub filter: Document,
    pub replacement: Document,
    /// How texts are compared.
    pub collation: Option<Document>,
    /// Which index serves it, by its keys or its name.
    pub hint: Option<Bson>,
    /// Whether the document is put in where none is found.
    pub upsert: Option<bool>,
    /// Which of the documents found comes first.
    pub sort: Option<Document>,
}

impl Drop for ReplaceOneModel {
    fn drop(self) {
        let ReplaceOneModel {
            namespace,
            filter,
            replacement,
            collation,
            hint,
            upsert: _,
            sort,
        } = self;
        drop(namespace);
        drop(filter);
        drop(replacement);
        drop(collation);
        drop(hint);
        drop(sort);
    }
}

impl ReplaceOneModel {
    /// With no option set.
    pub fn new(namespace: Namespace, filter: Document, replacement: Document) -> ReplaceOneModel
        ensures { result ≡ record {
          namespace = namespace;
          filter = filter;
          replacement = replacement;
          collation = None;
          hint = None;
          upsert = None;
          sort = None;
        } }
    {
        ReplaceOneModel {
            namespace,
            filter,
            replacement,
            collation: None,
            hint: None,
            upsert: None,
            sort: None,
        }
    }

    pub fn collation(mut self, collation: Document) -> ReplaceOneModel
        ensures { result ≡ record self { collation = Some collation } }
    {
        self.collation = Some(collation);
        self
    }

    pub fn hint(mut self, hint: Bson) -> ReplaceOneModel
        ensures { result ≡ record self { hint = Some hint } }
    {
        drop(mem::replace(&mut self.hint, Some(hint)));
        self
    }

    pub fn upsert(mut self, upsert: bool) -> ReplaceOneModel
        ensures { result ≡ record self { upsert = Some upsert } }
    {
        self.upsert = Some(upsert);
        self
    }

    pub fn sort(mut self, sort: Document) -> ReplaceOneModel
        ensures { result ≡ record self { sort = Some sort } }
    {
        self.sort = Some(sort);
        self
    }
}

/// A delete of one of the documents that a filter finds.
#[derive(Debug)]
pub struct DeleteOneModel {
    pub namespace: Namespace,
    pub filter: Document,
    /// How texts are compared.
    pub collation: Option<Document>,
    /// Which index serves it, by its keys or its name.
    pub hint: Option<Bson>,
}

impl Drop for DeleteOneModel {
    fn drop(self) {
        let DeleteOneModel {
            namespace,
            filter,
            collation,
            hint,
        } = self;
        drop(namespace);
        drop(filter);
        drop(collation);
        drop(hint);
    }
}

impl DeleteOneModel {
    /// With no option set.
    pub fn new(namespace: Namespace, filter: Document) -> DeleteOneModel
        ensures { result ≡ record { namespace = namespace; filter = filter; collation = None; hint = None } }
    {
        DeleteOneModel {
            namespace,
            filter,
            collation: None,
            hint: None,
        }
    }

    pub fn collation(mut self, collation: Document) -> DeleteOneModel
        ensures { result ≡ record self { collation = Some collation } }
    {
        self.collation = Some(collation);
        self
    }

    pub fn hint(mut self, hint: Bson) -> DeleteOneModel
        ensures { result ≡ record self { hint = Some hint } }
    {
        drop(mem::replace(&mut self.hint, Some(hint)));
        self
    }
}

/// A delete of all documents that a filter finds.
#[derive(Debug)]
pub struct DeleteManyModel {
    pub namespace: Namespace,
    pub filter: Document,
    /// How texts are compared.
    pub collation: Option<Document>,
    /// Which index serves it, by its keys or its name.
    pub hint: Option<Bson>,
}

impl Drop for DeleteManyModel {
    fn drop(self) {
        let DeleteManyModel {
            namespace,
            filter,
            collation,
            hint,
        } = self;
        drop(namespace);
        drop(filter);
        drop(collation);
        drop(hint);
    }
}

impl DeleteManyModel {
    /// With no option set.
    pub fn new(namespace: Namespace, filter: Document) -> DeleteManyModel
        ensures { result ≡ record { namespace = namespace; filter = filter; collation = None; hint = None } }
    {
        DeleteManyModel {
            namespace,
            filter,
            collation: None,
            hint: None,
        }
    }

    pub fn collation(mut self, collation: Document) -> DeleteManyModel
        ensures { result ≡ record self { collation = Some collation } }
    {
        self.collation = Some(collation);
        self
    }

    pub fn hint(mut self, hint: Bson) -> DeleteManyModel
        ensures { result ≡ record self { hint = Some hint } }
    {
        drop(mem::replace(&mut self.hint, Some(hint)));
        self
    }
}

/// A write of a bulk write.
#[derive(Debug, Drop)]
pub enum WriteModel {
    InsertOne(InsertOneModel),
    UpdateOne(UpdateOneModel),
    UpdateMany(UpdateManyModel),
    ReplaceOne(ReplaceOneModel),
    DeleteOne(DeleteOneModel),
    DeleteMany(DeleteManyModel),
}

impl From<InsertOneModel> for WriteModel {
    ghost use Rattle.std.specs.Prelude.{◌≡◌};
    ghost use Rattle.driver_options.specs.declared.models.WriteModel.TheVariants.{InsertOne};

    ghost from_gives = { λ model made. made ≡ InsertOne model };

    fn from(model: InsertOneModel) -> WriteModel {
        WriteModel::InsertOne(model)
    }
}

impl From<UpdateOneModel> for WriteModel {
    ghost use Rattle.std.specs.Prelude.{◌≡◌};
    ghost use Rattle.driver_options.specs.declared.models.WriteModel.TheVariants.{UpdateOne};

    ghost from_gives = { λ model made. made ≡ UpdateOne model };

    fn from(model: UpdateOneModel) -> WriteModel {
        WriteModel::UpdateOne(model)
    }
}

impl From<UpdateManyModel> for WriteModel {
    ghost use Rattle.std.specs.Prelude.{◌≡◌};
    ghost use Rattle.driver_options.specs.declared.models.WriteModel.TheVariants.{UpdateMany};

    ghost from_gives = { λ model made. made ≡ UpdateMany model };

    fn from(model: UpdateManyModel) -> WriteModel {
        WriteModel::UpdateMany(model)
    }
}

impl From<ReplaceOneModel> for WriteModel {
    ghost use Rattle.std.specs.Prelude.{◌≡◌};
    ghost use Rattle.driver_options.specs.declared.models.WriteModel.TheVariants.{ReplaceOne};

    ghost from_gives = { λ model made. made ≡ ReplaceOne model };

    fn from(model: ReplaceOneModel) -> WriteModel {
        WriteModel::ReplaceOne(model)
    }
}

impl From<DeleteOneModel> for WriteModel {
    ghost use Rattle.std.specs.Prelude.{◌≡◌};
    ghost use Rattle.driver_options.specs.declared.models.WriteModel.TheVariants.{DeleteOne};

    ghost from_gives = { λ model made. made ≡ DeleteOne model };

    fn from(model: DeleteOneModel) -> WriteModel {
        WriteModel::DeleteOne(model)
    }
}

impl From<DeleteManyModel> for WriteModel {
    ghost use Rattle.std.specs.Prelude.{◌≡◌};
    ghost use Rattle.driver_options.specs.declared.models.WriteModel.TheVariants.{DeleteMany};

    ghost from_gives = { λ model made. made ≡ DeleteMany model };

    fn from(model: DeleteManyModel) -> WriteModel {
        WriteModel::DeleteMany(model)
    }
}

impl WriteModel {
    /// The collection that it writes to.
    pub fn namespace(&self) -> &Namespace
        ensures { result.now ≡ namespace_of self.now }
    {
        match self {
            WriteModel::InsertOne(model) => &model.namespace,
            WriteModel::UpdateOne(model) => &model.namespace,
            WriteModel::UpdateMany(model) => &model.namespace,
            WriteModel::ReplaceOne(model) => &model.namespace,
            WriteModel::DeleteOne(model) => &model.namespace,
            WriteModel::DeleteMany(model) => &model.namespace,
        }
    }

    /// What it does.
    pub fn operation_type(&self) -> OperationType
        ensures { result ≡ operation_of self.now }
    {
        match self {
            WriteModel::InsertOne(_) => OperationType::Insert,
            WriteModel::UpdateOne(_) => OperationType::Update,
            WriteModel::UpdateMany(_) => OperationType::Update,
            WriteModel::ReplaceOne(_) => OperationType::Update,
            WriteModel::DeleteOne(_) => OperationType::Delete,
            WriteModel::DeleteMany(_) => OperationType::Delete,
        }
    }

    /// Whether it is of all documents that its filter finds. An insert has none.
    pub fn multi(&self) -> Option<bool>
        ensures { result ≡ multi_of self.now }
    {
        match self {
            WriteModel::InsertOne(_) => None,
            WriteModel::UpdateOne(_) => Some(false),
            WriteModel::UpdateMany(_) => Some(true),
            WriteModel::ReplaceOne(_) => Some(false),
            WriteModel::DeleteOne(_) => Some(false),
            WriteModel::DeleteMany(_) => Some(true),
        }
    }
}

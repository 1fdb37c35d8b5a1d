//! Copies of the models of a bulk write.
ghost use Rattle.std.specs.Prelude.{◌≡◌, IfOk};

use crate::models::{
    DeleteManyModel, DeleteOneModel, InsertOneModel, ReplaceOneModel, UpdateManyModel,
    UpdateOneModel, WriteModel,
};
use bson_lite::{Bson, Document, Namespace, TryClone};
use std::alloc::{AllocError, Global};

/// What each model has that finds documents.
#[derive(Drop)]
pub(crate) struct Found {
    pub(crate) namespace: Namespace,
    pub(crate) filter: Document,
    pub(crate) collation: Option<Document>,
    pub(crate) hint: Option<Bson>,
}

/// A copy of that.
fn copy_found(
    alloc: Global,
    namespace: &Namespace,
    filter: &Document,
    collation: &Option<Document>,
    hint: &Option<Bson>,
) -> Result<Found, AllocError>
    ensures { IfOk result (λ copy. copy ≡ record
        { namespace = namespace.now; filter = filter.now; collation = collation.now; hint = hint.now }) }
{
    Ok(Found {
        namespace: namespace.try_clone(alloc)?,
        filter: filter.try_clone(alloc)?,
        collation: collation.try_clone(alloc)?,
        hint: hint.try_clone(alloc)?,
    })
}

impl TryClone for InsertOneModel {
    fn try_clone(&self, alloc: Global) -> Result<InsertOneModel, AllocError> {
        Ok(InsertOneModel {
            namespace: self.namespace.try_clone(alloc)?,
            document: self.document.try_clone(alloc)?,
        })
    }
}

impl TryClone for UpdateOneModel {
    fn try_clone(&self, alloc: Global) -> Result<UpdateOneModel, AllocError> {
        let update = self.update.try_clone(alloc)?;
        let array_filters = self.array_filters.try_clone(alloc)?;
        let sort = self.sort.try_clone(alloc)?;
        let found = copy_found(
            alloc,
            &self.namespace,
            &self.filter,
            &self.collation,
            &self.hint,
        )?;
        let Found {
            namespace,
            filter,
            collation,
            hint,
        } = found;
        Ok(UpdateOneModel {
            namespace,
            filter,
            update,
            array_filters,
            collation,
            hint,
            upsert: self.upsert,
            sort,
        })
    }
}

impl TryClone for UpdateManyModel {
    fn try_clone(&self, alloc: Global) -> Result<UpdateManyModel, AllocError> {
        let update = self.update.try_clone(alloc)?;
        let array_filters = self.array_filters.try_clone(alloc)?;
        let found = copy_found(
            alloc,
            &self.namespace,
            &self.filter,
            &self.collation,
            &self.hint,
        )?;
        let Found {
            namespace,
            filter,
            collation,
            hint,
        } = found;
        Ok(UpdateManyModel {
            namespace,
            filter,
            update,
            array_filters,
            collation,
            hint,
            upsert: self.upsert,
        })
    }
}

impl TryClone for ReplaceOneModel {
    fn try_clone(&self, alloc: Global) -> Result<ReplaceOneModel, AllocError> {
        let replacement = self.replacement.try_clone(alloc)?;
        let sort = self.sort.try_clone(alloc)?;
        let found = copy_found(
            alloc,
            &self.namespace,
            &self.filter,
            &self.collation,
            &self.hint,
        )?;
        let Found {
            namespace,
            filter,
            collation,
            hint,
        } = found;
        Ok(ReplaceOneModel {
            namespace,
            filter,
            replacement,
            collation,
            hint,
            upsert: self.upsert,
            sort,
        })
    }
}

impl TryClone for DeleteOneModel {
    fn try_clone(&self, alloc: Global) -> Result<DeleteOneModel, AllocError> {
        let found = copy_found(
            alloc,
            &self.namespace,
            &self.filter,
            &self.collation,
            &self.hint,
        )?;
        let Found {
            namespace,
            filter,
            collation,
            hint,
        } = found;
        Ok(DeleteOneModel {
            namespace,
            filter,
            collation,
            hint,
        })
    }
}

impl TryClone for DeleteManyModel {
    fn try_clone(&self, alloc: Global) -> Result<DeleteManyModel, AllocError> {
        let found = copy_found(
            alloc,
            &self.namespace,
            &self.filter,
            &self.collation,
            &self.hint,
        )?;
        let Found {
            namespace,
            filter,
            collation,
            hint,
        } = found;
        Ok(DeleteManyModel {
            namespace,
            filter,
            collation,
            hint,
        })
    }
}

impl TryClone for WriteModel {
    fn try_clone(&self, alloc: Global) -> Result<WriteModel, AllocError> {
        Ok(match self {
            WriteModel::InsertOne(model) => WriteModel::InsertOne(model.try_clone(alloc)?),
            WriteModel::UpdateOne(model) => WriteModel::UpdateOne(model.try_clone(alloc)?),
            WriteModel::UpdateMany(model) => WriteModel::UpdateMany(model.try_clone(alloc)?),
            WriteModel::ReplaceOne(model) => WriteModel::ReplaceOne(model.try_clone(alloc)?),
            WriteModel::DeleteOne(model) => WriteModel::DeleteOne(model.try_clone(alloc)?),
            WriteModel::DeleteMany(model) => WriteModel::DeleteMany(model.try_clone(alloc)?),
        })
    }
}

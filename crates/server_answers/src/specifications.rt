//! What a server tells of its databases and collections, as plain data.
use bson_lite::{Binary, Document, Text, TryClone};
use std::alloc::{AllocError, Global};

/// What a collection is.
#[derive(Clone, Copy, Debug, PartialEq, Eq)]
pub enum CollectionType {
    View,
    Collection,
    Timeseries,
}

impl Default for CollectionType {
    ghost use Rattle.std.specs.Prelude.{◌≡◌};
    ghost use Rattle.server_answers.specs.declared.specifications.CollectionType.TheVariants.{Collection};

    ghost is_default = { λ given. given ≡ Collection };

    fn default() -> CollectionType {
        CollectionType::Collection
    }
}

impl TryClone for CollectionType {
    fn try_clone(&self, _alloc: Global) -> Result<CollectionType, AllocError> {
        Ok(*self)
    }
}

/// Further facts of a collection.
#[derive(Debug, Default, Drop)]
pub struct CollectionSpecificationInfo {
    pub read_only: bool,
    /// The collection's own id. A view has none.
    pub uuid: Option<Binary>,
}

impl TryClone for CollectionSpecificationInfo {
    fn try_clone(&self, alloc: Global) -> Result<CollectionSpecificationInfo, AllocError> {
        Ok(CollectionSpecificationInfo {
            read_only: self.read_only,
            uuid: self.uuid.try_clone(alloc)?,
        })
    }
}

/// A collection of a database.
#[derive(Debug, Drop)]
pub struct CollectionSpecification {
    pub name: Text,
    pub collection_type: CollectionType,
    /// The options with which it was made.
    pub options: Document,
    pub info: CollectionSpecificationInfo,
    /// The index on `_id`, where there is one.
    pub id_index: Option<Document>,
}

impl TryClone for CollectionSpecification {
    fn try_clone(&self, alloc: Global) -> Result<CollectionSpecification, AllocError> {
        Ok(CollectionSpecification {
            name: self.name.try_clone(alloc)?,
            collection_type: self.collection_type,
            options: self.options.try_clone(alloc)?,
            info: self.info.try_clone(alloc)?,
            id_index: self.id_index.try_clone(alloc)?,
        })
    }
}

/// A database of a server.
#[derive(Debug, PartialEq, Drop)]
pub struct DatabaseSpecification {
    pub name: Text,
    /// The bytes that it takes.
    pub size_on_disk: u64,
    pub empty: bool,
    /// How it is spread over shards, where it is.
    pub shards: Option<Document>,
}

impl TryClone for DatabaseSpecification {
    fn try_clone(&self, alloc: Global) -> Result<DatabaseSpecification, AllocError> {
        Ok(DatabaseSpecification {
            name: self.name.try_clone(alloc)?,
            size_on_disk: self.size_on_disk,
            empty: self.empty,
            shards: self.shards.try_clone(alloc)?,
        })
    }
}

//! What an operation goes to.
ghost use Rattle.std.specs.Prelude.{◌≡◌};
ghost use Rattle.driver_ops.specs.Targets.{collection_of, database_of};

use bson_lite::{Namespace, Text};
use driver_options::WriteConcern;

/// A database.
#[derive(Debug, Drop)]
pub struct Database {
    pub name: Text,
}

/// A collection, with the write concern of its own, if it has one.
#[derive(Debug, Drop)]
pub struct Collection {
    pub namespace: Namespace,
    pub write_concern: Option<WriteConcern>,
}

/// What an operation goes to.
#[derive(Debug, Drop)]
pub enum OperationTarget {
    /// A database as a whole.
    Database(Database),
    /// A collection, with its concern, if it has one.
    Collection(Collection),
    /// A collection by its name alone.
    Namespace(Namespace),
}

impl From<Database> for OperationTarget {
    ghost use Rattle.std.specs.Prelude.{◌≡◌};
    ghost use Rattle.driver_ops.specs.declared.target.OperationTarget.TheVariants.{Database as Whole};

    ghost from_gives = { λ database target. target ≡ Whole database };

    fn from(database: Database) -> OperationTarget {
        OperationTarget::Database(database)
    }
}

impl From<Collection> for OperationTarget {
    ghost use Rattle.std.specs.Prelude.{◌≡◌};
    ghost use Rattle.driver_ops.specs.declared.target.OperationTarget.TheVariants.{Collection as Within};

    ghost from_gives = { λ collection target. target ≡ Within collection };

    fn from(collection: Collection) -> OperationTarget {
        OperationTarget::Collection(collection)
    }
}

impl From<Namespace> for OperationTarget {
    ghost use Rattle.std.specs.Prelude.{◌≡◌};
    ghost use Rattle.driver_ops.specs.declared.target.OperationTarget.TheVariants.{Namespace as Named};

    ghost from_gives = { λ namespace target. target ≡ Named namespace };

    fn from(namespace: Namespace) -> OperationTarget {
        OperationTarget::Namespace(namespace)
    }
}

impl OperationTarget {
    /// The name of its database.
    pub fn database(&self) -> &str
        ensures { result.now ≡ database_of self.now }
    {
        match self {
            OperationTarget::Database(database) => database.name.as_str(),
            OperationTarget::Collection(collection) => collection.namespace.db.as_str(),
            OperationTarget::Namespace(namespace) => namespace.db.as_str(),
        }
    }

    /// The name of its collection, which is empty where it is a database as a whole.
    pub fn collection(&self) -> &str
        ensures { result.now ≡ collection_of self.now }
    {
        match self {
            OperationTarget::Database(_) => "",
            OperationTarget::Collection(collection) => collection.namespace.coll.as_str(),
            OperationTarget::Namespace(namespace) => namespace.coll.as_str(),
        }
    }
}

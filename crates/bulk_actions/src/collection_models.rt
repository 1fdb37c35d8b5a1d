//! Models of writes on a collection, as its user makes them.
ghost use Rattle.std.specs.Prelude.{◌≡◌, IfErr, IfOk, None};
ghost use Rattle.driver_error.specs.declared.kind.ErrorKind.TheVariants.{Memory};
ghost use Rattle.driver_error.specs.Error.{IsAlone};
ghost use Rattle.driver_error.specs.LabelTexts.{no_labels};

use bson_lite::{Document, TryClone};
use driver_error::Result;
use driver_inputs::ToDocument;
use driver_ops::Collection;
use driver_options::{InsertOneModel, ReplaceOneModel};
use std::alloc::Global;

/// Models of writes on a collection.
pub trait CollectionModels {
    /// The insert of a value's document. It answers want of memory alone.
    fn insert_one_model<T: ToDocument>(
        &self,
        alloc: Global,
        document: &T,
    ) -> Result<InsertOneModel>;

    /// A value's document in the place of one that the filter finds, with no option set. It answers want of memory
    /// alone.
    fn replace_one_model<T: ToDocument>(
        &self,
        alloc: Global,
        filter: Document,
        replacement: &T,
    ) -> Result<ReplaceOneModel>;
}

impl CollectionModels for Collection {
    /// The insert of a value's document into this collection. It answers want of memory alone.
    fn insert_one_model<T: ToDocument>(&self, alloc: Global, document: &T) -> Result<InsertOneModel>
        ensures made { IfOk result (λ model. model ≡ record
            { namespace = self.now.namespace; document = T.document document.now }) }
        ensures short { IfErr result (λ error. IsAlone Memory no_labels error) }
    {
        let namespace = self.namespace.try_clone(alloc)?;
        let document = document.to_document(alloc)?;
        Ok(InsertOneModel::new(namespace, document))
    }

    /// A value's document in the place of one that the filter finds in this collection, with no option set. It answers
    /// want of memory alone.
    fn replace_one_model<T: ToDocument>(
        &self,
        alloc: Global,
        filter: Document,
        replacement: &T,
    ) -> Result<ReplaceOneModel>
        ensures made { IfOk result (λ model. model ≡ record {
          namespace = self.now.namespace;
          filter = filter;
          replacement = T.document replacement.now;
          collation = None;
          hint = None;
          upsert = None;
          sort = None;
        }) }
        ensures short { IfErr result (λ error. IsAlone Memory no_labels error) }
    {
        let namespace = self.namespace.try_clone(alloc)?;
        let replacement = replacement.to_document(alloc)?;
        Ok(ReplaceOneModel::new(namespace, filter, replacement))
    }
}

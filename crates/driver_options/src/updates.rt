//! What an update does to a document, and how a server is told which index serves a write.
use bson_lite::{Document, List, Text, TryClone};
use std::alloc::{AllocError, Global};

/// Which index serves a write.
#[derive(Debug, Drop)]
pub enum Hint {
    /// The one with these keys.
    Keys(Document),
    /// The one of this name.
    Name(Text),
}

impl TryClone for Hint {
    fn try_clone(&self, alloc: Global) -> Result<Hint, AllocError> {
        Ok(match self {
            Hint::Keys(keys) => Hint::Keys(keys.try_clone(alloc)?),
            Hint::Name(name) => Hint::Name(name.try_clone(alloc)?),
        })
    }
}

/// What an update does to the documents that it finds.
#[derive(Debug, Drop)]
pub enum UpdateModifications {
    /// These operators.
    Document(Document),
    /// The stages of this pipeline, in order.
    Pipeline(List<Document>),
}

impl TryClone for UpdateModifications {
    fn try_clone(&self, alloc: Global) -> Result<UpdateModifications, AllocError> {
        Ok(match self {
            UpdateModifications::Document(document) => {
                UpdateModifications::Document(document.try_clone(alloc)?)
            }
            UpdateModifications::Pipeline(stages) => {
                UpdateModifications::Pipeline(stages.try_clone(alloc)?)
            }
        })
    }
}

impl From<Document> for UpdateModifications {
    ghost use Rattle.std.specs.Prelude.{◌≡◌};
    ghost use Rattle.driver_options.specs.declared.updates.UpdateModifications.TheVariants.{Document as Operators};

    ghost from_gives = { λ document made. made ≡ Operators document };

    fn from(document: Document) -> UpdateModifications {
        UpdateModifications::Document(document)
    }
}

impl From<List<Document>> for UpdateModifications {
    ghost use Rattle.std.specs.Prelude.{◌≡◌};
    ghost use Rattle.driver_options.specs.declared.updates.UpdateModifications.TheVariants.{Pipeline};

    ghost from_gives = { λ stages made. made ≡ Pipeline stages };

    fn from(stages: List<Document>) -> UpdateModifications {
        UpdateModifications::Pipeline(stages)
    }
}

/// An update, or a whole document that takes the place of the one found.
#[derive(Debug, Drop)]
pub enum UpdateOrReplace {
    UpdateModifications(UpdateModifications),
    Replacement(Document),
}

impl TryClone for UpdateOrReplace {
    fn try_clone(&self, alloc: Global) -> Result<UpdateOrReplace, AllocError> {
        Ok(match self {
            UpdateOrReplace::UpdateModifications(modifications) => {
                UpdateOrReplace::UpdateModifications(modifications.try_clone(alloc)?)
            }
            UpdateOrReplace::Replacement(document) => {
                UpdateOrReplace::Replacement(document.try_clone(alloc)?)
            }
        })
    }
}

impl From<UpdateModifications> for UpdateOrReplace {
    ghost use Rattle.std.specs.Prelude.{◌≡◌};
    ghost use Rattle.driver_options.specs.declared.updates.UpdateOrReplace.TheVariants.{UpdateModifications as Modifies};

    ghost from_gives = { λ modifications made. made ≡ Modifies modifications };

    fn from(modifications: UpdateModifications) -> UpdateOrReplace {
        UpdateOrReplace::UpdateModifications(modifications)
    }
}

/// What a findAndModify does to the document that it finds.
#[derive(Debug, Drop)]
pub enum Modification {
    /// Takes it out.
    Delete,
    /// Changes it, or puts a whole document in its place.
    Update(UpdateOrReplace),
}

impl TryClone for Modification {
    fn try_clone(&self, alloc: Global) -> Result<Modification, AllocError> {
        Ok(match self {
            Modification::Delete => Modification::Delete,
            Modification::Update(change) => Modification::Update(change.try_clone(alloc)?),
        })
    }
}

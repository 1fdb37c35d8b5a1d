//! The writes that answer a document, as rows spell them.
use crate::writes::{
    Asked, Concern, Part, Shared, array_filters, change_document, database, document_at,
    modifications, namespace, option_at, shared_options, write_concern,
};
use bson_lite::Boxed;
use driver_inputs::{FindAndDelete, FindAndReplace, FindAndUpdate, SingleWrite};
use driver_options::{FindOneAndDeleteOptions, FindOneAndReplaceOptions, FindOneAndUpdateOptions};
use std::alloc::{AllocError, Global};

/// The options of a delete that answers a document.
fn delete_options(
    alloc: Global,
    asked: Asked,
    own: Concern,
) -> Result<FindOneAndDeleteOptions, AllocError> {
    let sort = option_at(alloc, asked, Part::Sort)?;
    let projection = option_at(alloc, asked, Part::Projection)?;
    let Shared {
        collation,
        let_vars,
        hint,
        comment,
    } = shared_options(alloc, asked)?;
    Ok(FindOneAndDeleteOptions {
        sort,
        max_time: None,
        projection,
        collation,
        hint,
        let_vars,
        comment,
        write_concern: write_concern(own),
    })
}

/// The options of an update that answers one.
fn update_options(
    alloc: Global,
    asked: Asked,
    own: Concern,
) -> Result<FindOneAndUpdateOptions, AllocError> {
    let array_filters = array_filters(alloc, asked)?;
    let sort = option_at(alloc, asked, Part::Sort)?;
    let projection = option_at(alloc, asked, Part::Projection)?;
    let Shared {
        collation,
        let_vars,
        hint,
        comment,
    } = shared_options(alloc, asked)?;
    Ok(FindOneAndUpdateOptions {
        sort,
        return_document: None,
        upsert: None,
        bypass_document_validation: None,
        array_filters,
        max_time: None,
        projection,
        collation,
        hint,
        let_vars,
        comment,
        write_concern: write_concern(own),
    })
}

/// The options of a replacement that answers one.
fn replace_options(
    alloc: Global,
    asked: Asked,
    own: Concern,
) -> Result<FindOneAndReplaceOptions, AllocError> {
    let sort = option_at(alloc, asked, Part::Sort)?;
    let projection = option_at(alloc, asked, Part::Projection)?;
    let Shared {
        collation,
        let_vars,
        hint,
        comment,
    } = shared_options(alloc, asked)?;
    Ok(FindOneAndReplaceOptions {
        sort,
        return_document: None,
        upsert: None,
        bypass_document_validation: None,
        max_time: None,
        projection,
        collation,
        hint,
        let_vars,
        comment,
        write_concern: write_concern(own),
    })
}

/// A delete that answers a document, with a concern of its own.
pub(crate) fn find_and_delete(
    alloc: Global,
    asked: Asked,
    own: Concern,
) -> Result<SingleWrite, AllocError> {
    Ok(SingleWrite::FindOneAndDelete(FindAndDelete {
        namespace: namespace(alloc, database(asked))?,
        filter: document_at(alloc, asked, Part::Filter, "x", 1)?,
        options: Boxed::new(alloc, delete_options(alloc, asked, own)?)?,
    }))
}

/// An update that answers one.
pub(crate) fn find_and_update(
    alloc: Global,
    asked: Asked,
    own: Concern,
) -> Result<SingleWrite, AllocError> {
    Ok(SingleWrite::FindOneAndUpdate(FindAndUpdate {
        namespace: namespace(alloc, database(asked))?,
        filter: document_at(alloc, asked, Part::Filter, "x", 1)?,
        update: modifications(alloc, asked)?,
        options: Boxed::new(alloc, update_options(alloc, asked, own)?)?,
    }))
}

/// A replacement that answers one.
pub(crate) fn find_and_replace(
    alloc: Global,
    asked: Asked,
    own: Concern,
) -> Result<SingleWrite, AllocError> {
    Ok(SingleWrite::FindOneAndReplace(FindAndReplace {
        namespace: namespace(alloc, database(asked))?,
        filter: document_at(alloc, asked, Part::Filter, "x", 1)?,
        replacement: change_document(alloc, asked)?,
        options: Boxed::new(alloc, replace_options(alloc, asked, own)?)?,
    }))
}

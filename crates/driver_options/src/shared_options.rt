//! The options that the commands of updates, deletes and findAndModify share, for their copies.
ghost use Rattle.std.specs.Prelude.{◌≡◌, IfOk};

use crate::concerns::WriteConcern;
use crate::updates::Hint;
use bson_lite::{Bson, Document, TryClone};
use std::alloc::{AllocError, Global};

/// How the documents are found.
#[derive(Drop)]
pub(crate) struct Finding {
    pub(crate) sort: Option<Document>,
    pub(crate) collation: Option<Document>,
    pub(crate) hint: Option<Hint>,
}

/// What stands beside that.
#[derive(Drop)]
pub(crate) struct Beside {
    pub(crate) let_vars: Option<Document>,
    pub(crate) comment: Option<Bson>,
    pub(crate) write_concern: Option<WriteConcern>,
}

/// A copy of the first.
pub(crate) fn copy_finding(
    alloc: Global,
    sort: &Option<Document>,
    collation: &Option<Document>,
    hint: &Option<Hint>,
) -> Result<Finding, AllocError>
    ensures { IfOk result (λ copy. copy ≡
        record { sort = sort.now; collation = collation.now; hint = hint.now }) }
{
    Ok(Finding {
        sort: sort.try_clone(alloc)?,
        collation: collation.try_clone(alloc)?,
        hint: hint.try_clone(alloc)?,
    })
}

/// A copy of the second.
pub(crate) fn copy_beside(
    alloc: Global,
    let_vars: &Option<Document>,
    comment: &Option<Bson>,
    write_concern: &Option<WriteConcern>,
) -> Result<Beside, AllocError>
    ensures { IfOk result (λ copy. copy ≡
        record { let_vars = let_vars.now; comment = comment.now; write_concern = write_concern.now }) }
{
    Ok(Beside {
        let_vars: let_vars.try_clone(alloc)?,
        write_concern: write_concern.try_clone(alloc)?,
        comment: comment.try_clone(alloc)?,
    })
}

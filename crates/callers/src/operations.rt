//! A caller of the operations' commands: the delete of the document that has an id.
ghost use Rattle.std.specs.Prelude.{◌≡◌, ◌∷◌, [], ℕ, false, List as Listed, IfOk};
ghost use Rattle.driver_link.specs.Numbers.{field};
ghost use Rattle.statement_ops.specs.Deleting.{delete_command, delete_statement};

use bson_lite::{Bson, Document, ID_KEY};
use driver_options::DeleteOptions;
use statement_ops::delete_body;
use std::alloc::{AllocError, Global};

/// The body of the command that deletes the document with this id, without the executor's fields.
pub fn delete_by_id(
    alloc: Global,
    collection: &str,
    id: Bson,
    options: &DeleteOptions,
) -> Result<Document, AllocError>
    ensures { IfOk result (λ body. (database : Listed ℕ) →
        body ≡ delete_command (record { db = database; coll = collection.now })
        (delete_statement (field ID_KEY.now id ∷ []) false options.now) options.now) }
{
    let mut filter = Document::new(alloc);
    filter.push(ID_KEY, id)?;
    delete_body(alloc, collection, &filter, false, options)
}

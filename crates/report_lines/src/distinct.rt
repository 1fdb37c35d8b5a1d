//! Whether ids repeat, in one pass.
ghost use Rattle.std.specs.Prelude.{◌≡◌, IfOk};
ghost use Rattle.report_lines.specs.Distinct.{distinct};

use std::alloc::{AllocError, Global};
use std::collections::HashSet;

/// Whether no id stands twice.
pub fn are_distinct(alloc: Global, ids: &[[u8; 16]]) -> Result<bool, AllocError>
    ensures { IfOk result (λ yes. yes ≡ distinct ids.now) }
{
    let mut later = HashSet::new(alloc);
    let mut at = ids.len();
    'ids: while at > 0 {
        at -= 1;
        if !later.insert(ids[at])? {
            return Ok(false);
        }
    }
    Ok(true)
}

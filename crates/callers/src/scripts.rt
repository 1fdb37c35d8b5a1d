//! A caller of the script's reader: a script that may be run, or none.
ghost use Rattle.std.specs.Prelude.{◌≡◌, ◌≤◌, length, IfSome, Ok};
ghost use Rattle.driver_link.specs.WellFormed.{IsWellFormed};
ghost use Rattle.driver_script.specs.Script.{script};
ghost use Rattle.script_parts.specs.declared.keys.TheConstants.{MOST_CALLS};

use driver_script::{Script, read_script};
use std::alloc::Global;

/// The script that the bytes are, where it may be run, with a schedule that a model server takes. None where
/// they are no script, it has too many calls, or memory is wanting.
pub fn script_in(alloc: Global, bytes: &[u8]) -> Option<Script>
    ensures exact { IfSome result (λ asked. script bytes.now ≡ Ok asked) }
    ensures few { IfSome result (λ asked. length asked.calls ≤ MOST_CALLS) }
    ensures well_formed { IfSome result (λ asked. IsWellFormed asked.schedule) }
{
    match read_script(alloc, bytes) {
        Ok(asked) => Some(asked),
        Err(fault) => {
            drop(fault);
            None
        }
    }
}

//! The script: one JSON object with the calls to be made and the schedule of the model server.
ghost use Rattle.std.specs.Prelude.{◌≡◌, codes, option_and_then, IfOk};
ghost use Rattle.driver_link.specs.WellFormed.{IsWellFormed};
ghost use Rattle.script_parts.specs.Json.{GivesPart, value_read};
ghost use Rattle.driver_script.specs.Script.{script_of, script, usual_options, IsWrong, ReadsScript};

use crate::from_json::{FromJson, read_needed, read_optional};
use crate::limits::{no_limits, setup_with};
use crate::schedule::{no_faults, schedule_with};
use bson_lite::{List, Text};
use driver_inputs::Call;
use driver_link::{Schedule, Setup};
use driver_options::ClientOptions;
use json::Scratch;
use script_parts::forms::{Unread, is_object_of};
use script_parts::keys::{CALLS, FAULTS, LATE, LIMITS, MOST_CALLS, OPTIONS, SCHEDULE};
use script_parts::tape::read_tape;
use script_parts::tree::Json;
use std::alloc::{AllocError, Global};

/// What a script asks for.
#[derive(Debug)]
pub struct Script {
    pub options: ClientOptions,
    pub setup: Setup,
    pub calls: List<Call>,
    pub schedule: Schedule,
    /// The waiting sends to serve after the calls, by the order of lateness from 0.
    pub late: List<u64>,
}

impl Drop for Script {
    fn drop(self) {
        let Script {
            options,
            setup,
            calls,
            schedule,
            late,
        } = self;
        drop(options);
        drop(setup);
        drop(calls);
        drop(schedule);
        drop(late);
    }
}

/// Why bytes are not run as a script.
#[derive(Debug, Drop)]
pub enum ScriptFault {
    /// They are no script: the path of the first wrong item, from `$` on.
    Wrong { path: Text },
    /// They are a script of so many calls, more than may be made.
    TooManyCalls { count: u64 },
    Memory,
}

/// The script that the bytes are, where it has no more than 10000 calls.
#[tactic(auto, unfolding(crate::specs::Script::script))]
pub fn read_script(alloc: Global, bytes: &[u8]) -> Result<Script, ScriptFault>
    ensures reads { ReadsScript result (script bytes.now) }
    ensures well_formed { IfOk result (λ asked. IsWellFormed asked.schedule) }
{
    match any_script(alloc, bytes) {
        Ok(script) => {
            let count = script.calls.len();
            if count > MOST_CALLS {
                return Err(ScriptFault::TooManyCalls {
                    count: count as u64,
                });
            }
            Ok(script)
        }
        Err(Unread::Wrong) => Err(wrong(alloc)),
        Err(Unread::Memory) => Err(ScriptFault::Memory),
    }
}

/// The fault of a script that is wrong.
fn wrong(alloc: Global) -> ScriptFault
    ensures { IsWrong (codes "$") result }
{
    match Text::from_str(alloc, "$") {
        Ok(path) => ScriptFault::Wrong { path },
        Err(AllocError) => ScriptFault::Memory,
    }
}

/// The script that the bytes are.
#[tactic(auto, using(crate::proofs::Readings::read_on))]
fn any_script(alloc: Global, bytes: &[u8]) -> Result<Script, Unread>
    ensures { GivesPart result (option_and_then script_of (value_read bytes.now)) }
{
    let mut scratch = Scratch::new(alloc);
    let tape = read_tape(alloc, bytes, &mut scratch)?;
    Script::read(alloc, &Json::root(&tape))
}

impl FromJson for Script {
    ghost spec = { script_of };

    #[tactic(auto, unfolding(crate::specs::Script::script_of, crate::specs::Script::script_around))]
    fn read(alloc: Global, value: &Json<'_, '_>) -> Result<Script, Unread> {
        if !is_object_of(value, &[OPTIONS, LIMITS, CALLS, SCHEDULE, FAULTS, LATE]) {
            return Err(Unread::Wrong);
        }
        let options = read_optional(alloc, value, OPTIONS)?;
        let limits = read_optional(alloc, value, LIMITS)?;
        let calls = read_needed(alloc, value, CALLS)?;
        let steps = read_optional(alloc, value, SCHEDULE)?;
        let faults = read_optional(alloc, value, FAULTS)?;
        let late = read_optional(alloc, value, LATE)?;
        Ok(Script {
            options: options.unwrap_or(usual_options()),
            setup: setup_with(limits.unwrap_or(no_limits())),
            calls,
            schedule: schedule_with(
                alloc,
                steps.unwrap_or(List::new(alloc)),
                faults.unwrap_or(no_faults(alloc)),
            ),
            late: late.unwrap_or(List::new(alloc)),
        })
    }
}

/// The options of a script that sets none.
fn usual_options() -> ClientOptions
    ensures { result ≡ usual_options }
{
    ClientOptions {
        client_number: 1,
        retry_writes: None,
        read_concern: None,
        write_concern: None,
    }
}

//! A caller of the program's run: a script from its input to its report.
ghost use Rattle.std.specs.Prelude.{◌≡◌, ◌≢◌, IfErr, OnOk};
ghost use Rattle.script_run.specs.Ended.{EndsWithStatus, Reports, RunIsMade, program_ends};

use driver_link::{Sink, Source};
use script_run::{Run, run_script};
use std::alloc::Global;

/// Runs the script of an input and writes its report. An error is the status with which it ended otherwise.
pub fn run_or_status<I: Source, O: Sink>(
    alloc: Global,
    source: &mut I,
    sink: &mut O,
    run: &mut Run,
) -> Result<(), u8>
    ensures done { OnOk result (RunIsMade (I.left source.old) (I.left source.new) run.new) }
    ensures written { OnOk result
        (Reports (O.contents sink.old) (O.contents sink.new) (O.faults sink.old) (O.faults sink.new) run.new) }
    ensures ended { IfErr result (λ status. (status ≢ 0) × EndsWithStatus status
        (program_ends (I.left source.old) (I.left source.new) (I.faults source.old) (I.faults source.new)
        (O.contents sink.old) (O.contents sink.new) (O.faults sink.old) (O.faults sink.new))
        run.old run.new) }
{
    let status = run_script(alloc, source, sink, run);
    if status == 0 {
        return Ok(());
    }
    Err(status)
}

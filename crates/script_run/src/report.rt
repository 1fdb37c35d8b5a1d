//! The report of a run: a line for each call, each send and each entry of the log, then the totals.
ghost use Rattle.std.specs.Prelude.{◌≡◌, ◌++◌, string_bytes, IfOk, OnOk, is_some};
ghost use Rattle.script_run.specs.Report.{calls_of, outcomes_of, drawn_of, ids_line, waiting_line, totals_line, server_lines, report};

use crate::running::Run;
use bson_lite::Bytes;
use driver_inputs::{Call, Outcome};
use driver_link::{Send, Server};
use model_effects::new_server;
use report_lines::{are_distinct, push_calls, push_entries, push_sends};
use std::alloc::{AllocError, Global};

/// How many bytes a line has, on the average of a run of 10,000 inserts.
const LINE: usize = 52;

/// For how many bytes room is made before the lines are written, by the calls of the run, of which most have a line, a
/// send and an entry. What a report needs more it takes as it grows.
fn room_for(run: &Run) -> usize {
    calls_in(run).len().saturating_mul(3 * LINE)
}

/// The report of a run. A part that the run lacks has no lines and counts nothing.
pub fn report_text(alloc: Global, run: &Run) -> Result<Bytes, AllocError>
    ensures { IfOk result (λ text. text ≡ report run.now) }
{
    let mut out = String::with_capacity(alloc, room_for(run))?;
    push_report(alloc, &mut out, run)?;
    Ok(Bytes::from_vec(out.into_bytes()))
}

#[tactic(auto, unfolding(crate::specs::Report::report))]
fn push_report(alloc: Global, out: &mut String, run: &Run) -> Result<(), AllocError>
    ensures { OnOk result (string_bytes out.new ≡ string_bytes out.old ++ report run.now) }
{
    let outcomes = outcomes_in(run);
    push_calls(alloc, out, calls_in(run), outcomes)?;
    match &run.server {
        Some(server) => push_server(alloc, out, outcomes, server.server(), drawn_in(run)),
        None => {
            let server = new_server(alloc);
            push_server(alloc, out, outcomes, &server, drawn_in(run))
        }
    }
}

#[tactic(auto, unfolding(crate::specs::Report::server_lines))]
fn push_server(
    alloc: Global,
    out: &mut String,
    outcomes: &[Outcome],
    server: &Server,
    drawn: &[[u8; 16]],
) -> Result<(), AllocError>
    ensures { OnOk result
        (string_bytes out.new ≡ string_bytes out.old ++ server_lines outcomes.now server.now drawn.now) }
{
    push_sends(out, server.trace.as_slice())?;
    push_entries(out, server.log.as_slice())?;
    push_ids(alloc, out, drawn)?;
    push_waiting(out, server.waiting.as_slice())?;
    push_totals(out, outcomes, server)
}

fn calls_in(run: &Run) -> &[Call]
    ensures { result.now ≡ calls_of run.now.script }
{
    match &run.script {
        Some(script) => script.calls.as_slice(),
        None => &[],
    }
}

fn outcomes_in(run: &Run) -> &[Outcome]
    ensures { result.now ≡ outcomes_of run.now.outcomes }
{
    match &run.outcomes {
        Some(outcomes) => outcomes.as_slice(),
        None => &[],
    }
}

fn drawn_in(run: &Run) -> &[[u8; 16]]
    ensures { result.now ≡ drawn_of run.now.client }
{
    match &run.client {
        Some(client) => client.store().drawn_ids(),
        None => &[],
    }
}

#[tactic(auto, unfolding(crate::specs::Report::ids_line))]
fn push_ids(alloc: Global, out: &mut String, ids: &[[u8; 16]]) -> Result<(), AllocError>
    ensures { OnOk result (string_bytes out.new ≡ string_bytes out.old ++ ids_line ids.now) }
{
    if are_distinct(alloc, ids)? {
        out.push_str("ids: distinct\n")
    } else {
        out.push_str("ids: repeated\n")
    }
}

#[tactic(auto, unfolding(crate::specs::Report::waiting_line))]
fn push_waiting(out: &mut String, waiting: &[Option<Send>]) -> Result<(), AllocError>
    ensures { OnOk result (string_bytes out.new ≡ string_bytes out.old ++ waiting_line waiting.now) }
{
    let count = waiting.iter().filter(|late| late.is_some()).count();
    write!(out, "waiting: {count}\n")?;
    Ok(())
}

#[tactic(auto, unfolding(crate::specs::Report::totals_line))]
fn push_totals(out: &mut String, outcomes: &[Outcome], server: &Server) -> Result<(), AllocError>
    ensures { OnOk result
        (string_bytes out.new ≡ string_bytes out.old ++ totals_line outcomes.now server.now) }
{
    let calls = outcomes.len();
    let done = outcomes
        .iter()
        .filter(|outcome| outcome.result.is_ok())
        .count();
    let sends = server.trace.len();
    let entries = server.log.len();
    write!(
        out,
        "totals: calls={calls} ok={done} sends={sends} entries={entries}\n"
    )?;
    Ok(())
}

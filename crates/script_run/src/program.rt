//! The program: words to a command, and a script from its input to its report.
ghost use Rattle.std.specs.Prelude.{◌≡◌, ◌≢◌, ◌≤◌, ◌↔◌, [], Some, None, IfOk, OnOk, length, ◌<◌, ◌^◌, ◌+◌, ◌-◌};
ghost use Rattle.driver_link.specs.Exchange.{after_picks, delivered, empty_server};
ghost use Rattle.driver_link.specs.Faults.{RoseByOne};
ghost use Rattle.driver_link.specs.WellFormed.{IsWellFormed};
ghost use Rattle.model_server.specs.ModelState.{no_calls};
ghost use Rattle.script_run.specs.Ended.{Completes, Ended, EndsWithStatus, IsRefused, IsRunOf, IsTooLarge, SaysTo, Refusal, Reported, RunIsMade, command_of, program_ends, refused_line, usage_line};
ghost use Rattle.script_run.specs.Report.{drawn_of};

use crate::report::report_text;
use crate::running::Run;
use crate::status::Status;
use crate::streams::{LIMIT, ReadFault, read_all, write_all};
use bson_lite::{Bytes, Text, TryClone};
use call_runs::run_calls;
use driver_attempt::{Client, Outside};
use driver_link::{Failed, Schedule, Setup, Sink, Source};
use driver_script::{Script, ScriptFault, read_script};
use driver_session::PlainStore;
use memory_links::{CountingIds, MemClock};
use model_server::ModelServer;
use rand_core::SeedableRng;
use rand_pcg::Pcg32;
use std::alloc::{AllocError, Global};
use std::mem;
use std::sync::Wait;
use std::thread::Threads;

/// The seed of a script's random words.
const SEED: u64 = 1;

/// What the words of the program ask for.
#[derive(Clone, Copy, PartialEq, Eq)]
pub(crate) enum Command {
    /// To run a script.
    Run,
}

fn command_in(words: &[Text]) -> Option<Command>
    ensures { result ≡ command_of words.now }
{
    match words {
        [word] => {
            if word.as_str() == "run" {
                Some(Command::Run)
            } else {
                None
            }
        }
        _ => None,
    }
}

/// Writes a line of a status. A sink that fails leaves the status.
fn say<O: Sink>(sink: &mut O, line: &[u8])
    ensures later { O.faults sink.old ≤ O.faults sink.new }
    ensures said { SaysTo (O.contents sink.old) (O.contents sink.new) (O.faults sink.old) (O.faults sink.new)
        line.now }
{
    let _ = write_all(sink, line);
}

/// A model server that has seen nothing. It takes no memory.
fn fresh_server(alloc: Global, setup: Setup, schedule: Schedule) -> ModelServer
    requires { IsWellFormed schedule }
    ensures { result ≡ record {
      server = empty_server;
      setup = setup;
      schedule = schedule;
      counts = no_calls;
      answers = [];
      faults = 0;
    } }
{
    ModelServer::new(alloc, setup, schedule)
}

/// Makes the calls of a script on a new client over a new model server, and then serves the waiting sends that
/// the script names.
fn run_of(alloc: Global, asked: Script) -> Result<Run, AllocError>
    requires { IsWellFormed asked.schedule }
    ensures { IfOk result (λ run. IsRunOf asked run) }
{
    let options = asked.options.try_clone(alloc)?;
    let mut client = Client::new(options, PlainStore::new(alloc, CountingIds::new()));
    let schedule = asked.schedule.try_clone(alloc)?;
    let mut server = fresh_server(alloc, asked.setup, schedule);
    server.make_room(asked.calls.len())?;
    let mut outside = Outside {
        link: server,
        clock: MemClock::new(0, 0),
        words: Pcg32::seed_from_u64(SEED),
        call: 0,
    };
    let outcomes = run_calls(alloc, &mut client, &mut outside, asked.calls.as_slice())?;
    bound_drawn(&client);
    let Outside {
        mut link,
        clock,
        words,
        call: _,
    } = outside;
    drop(clock);
    drop(words);
    deliver_each(&mut link, alloc, asked.late.as_slice())?;
    Ok(Run {
        script: Some(asked),
        outcomes: Some(outcomes),
        client: Some(client),
        server: Some(link),
    })
}

/// Serves the waiting sends of a list of picks in turn; a pick that is not waiting is passed over.
#[tactic(auto, unfolding(driver_link::specs::Exchange::after_picks))]
fn deliver_each(server: &mut ModelServer, alloc: Global, picks: &[u64]) -> Result<(), AllocError>
    ensures { OnOk result
        (server.new ≡ record server.old { server = after_picks server.old.server picks.now }) }
{
    for pick in picks {
        deliver(server, alloc, *pick)?;
    }
    Ok(())
}

/// Serves the send that waits at a place, where one does.
fn deliver(server: &mut ModelServer, alloc: Global, pick: u64) -> Result<(), AllocError>
    ensures { OnOk result (server.new ≡ record server.old { server = delivered server.old.server pick }) }
{
    match server.deliver_late(alloc, pick) {
        Ok(_) => Ok(()),
        // It fails for want of memory alone.
        Err(error) => {
            drop(error);
            Err(AllocError)
        }
    }
}

/// The ids that a store drew stand in memory, so they are fewer than 2^64.
fn bound_drawn(client: &Client<PlainStore<CountingIds>>)
    ensures { length (drawn_of (Some client.now)) < 2 ^ 64 }
{
    let _ = client.store().drawn_ids().len();
}

/// Runs the script of an input, and writes its report. It waits for nobody.
pub fn run_script<I: Source, O: Sink>(
    alloc: Global,
    source: &mut I,
    sink: &mut O,
    run: &mut Run,
) -> u8
    ensures ends { EndsWithStatus result
        (program_ends (I.left source.old) (I.left source.new) (I.faults source.old) (I.faults source.new)
        (O.contents sink.old) (O.contents sink.new) (O.faults sink.old) (O.faults sink.new))
        run.old run.new }
    ensures no_usage { result ≢ 2 }
    ensures done { result ≡ 0 → RunIsMade (I.left source.old) (I.left source.new) run.new }
    ensures refused { result ≡ 3 → IsRefused (I.left source.old) (I.left source.new) }
    ensures read_failed { result ≡ 4 → RoseByOne (I.faults source.old) (I.faults source.new) }
    ensures no_read_failed { result ≢ 4 → I.faults source.new ≡ I.faults source.old }
    ensures write_failed { result ≡ 5 → RoseByOne (O.faults sink.old) (O.faults sink.new) }
    ensures no_write_failed { result ≡ 0 → O.faults sink.new ≡ O.faults sink.old }
    ensures too_large { result ≡ 7 → IsTooLarge (I.left source.old) (I.left source.new) }
    ensures complete { Completes result (I.left source.old) (I.faults source.old) (I.faults source.new)
        (O.faults sink.old) (O.faults sink.new) }
    ensures reads_later { I.faults source.old ≤ I.faults source.new }
    ensures writes_later { O.faults sink.old ≤ O.faults sink.new }
{
    script_status(alloc, source, sink, run) as u8
}

#[tactic(auto, unfolding(crate::specs::Ended::failed_line, crate::specs::Ended::large_line))]
fn script_status<I: Source, O: Sink>(
    alloc: Global,
    source: &mut I,
    sink: &mut O,
    run: &mut Run,
) -> Status
    ensures ended { Ended result
        (program_ends (I.left source.old) (I.left source.new) (I.faults source.old) (I.faults source.new)
        (O.contents sink.old) (O.contents sink.new) (O.faults sink.old) (O.faults sink.new))
        run.old run.new }
    ensures no_usage { result ≢ Status.Usage }
    ensures reads_later { I.faults source.old ≤ I.faults source.new }
    ensures writes_later { O.faults sink.old ≤ O.faults sink.new }
{
    let bytes = match read_all(alloc, source, LIMIT) {
        Ok(bytes) => bytes,
        Err(ReadFault::Failed) => {
            say(sink, b"read failed\n");
            return Status::ReadFailed;
        }
        Err(ReadFault::TooLarge) => {
            say(sink, b"script too large\n");
            return Status::TooLarge;
        }
        Err(ReadFault::Memory) => return Status::Memory,
    };
    let asked = match read_script(alloc, bytes.as_slice()) {
        Ok(asked) => asked,
        Err(ScriptFault::Wrong { path }) => return refuse(alloc, sink, &path),
        Err(ScriptFault::TooManyCalls { .. }) => {
            say(sink, b"script too large\n");
            return Status::TooLarge;
        }
        Err(ScriptFault::Memory) => return Status::Memory,
    };
    drop(bytes);
    match run_of(alloc, asked) {
        Ok(made) => drop(mem::replace(run, made)),
        Err(AllocError) => return Status::Memory,
    }
    report_status(alloc, sink, run)
}

/// Writes the line of a refused script.
fn refuse<O: Sink>(alloc: Global, sink: &mut O, path: &Text) -> Status
    ensures ended { Refusal (O.contents sink.old) (O.contents sink.new) (O.faults sink.old)
        (O.faults sink.new) path.now result }
    ensures later { O.faults sink.old ≤ O.faults sink.new }
{
    let Ok(line) = refusal_line(alloc, path) else {
        return Status::Memory;
    };
    say(sink, line.as_slice());
    Status::Refused
}

#[tactic(auto, unfolding(crate::specs::Ended::refused_line))]
fn refusal_line(alloc: Global, path: &Text) -> Result<Bytes, AllocError>
    ensures { IfOk result (λ line. line ≡ refused_line path.now) }
{
    let mut line = String::new(alloc);
    line.push_str("script refused at ")?;
    line.push_str(path.as_str())?;
    line.push_str("\n")?;
    Ok(Bytes::from_vec(line.into_bytes()))
}

/// Writes the report of a run.
fn report_status<O: Sink>(alloc: Global, sink: &mut O, run: &Run) -> Status
    ensures ended { Reported (O.contents sink.old) (O.contents sink.new) (O.faults sink.old)
        (O.faults sink.new) run.now result }
    ensures later { O.faults sink.old ≤ O.faults sink.new }
{
    let Ok(text) = report_text(alloc, run) else {
        return Status::Memory;
    };
    match write_all(sink, text.as_slice()) {
        Ok(()) => Status::Done,
        Err(Failed) => Status::WriteFailed,
    }
}

/// Writes the forms of the words.
#[tactic(auto, unfolding(crate::specs::Ended::usage_line))]
fn say_usage<O: Sink>(sink: &mut O)
    ensures later { O.faults sink.old ≤ O.faults sink.new }
    ensures said { SaysTo (O.contents sink.old) (O.contents sink.new) (O.faults sink.old) (O.faults sink.new)
        usage_line }
{
    say(sink, b"usage: run | race N | generate SEED N\n");
}

/// The program: `run` runs the script of its input; all other words are answered by their usage.
pub fn top<T: Wait + Threads, I: Source, O: Sink>(
    _rt: &T,
    alloc: Global,
    words: &[Text],
    source: &mut I,
    sink: &mut O,
    run: &mut Run,
) -> u8
    ensures ends { EndsWithStatus result
        (program_ends (I.left source.old) (I.left source.new) (I.faults source.old) (I.faults source.new)
        (O.contents sink.old) (O.contents sink.new) (O.faults sink.old) (O.faults sink.new))
        run.old run.new }
    ensures usage { (result ≡ 2) ↔ (command_of words.now ≡ None) }
    ensures done { result ≡ 0 → RunIsMade (I.left source.old) (I.left source.new) run.new }
    ensures refused { result ≡ 3 → IsRefused (I.left source.old) (I.left source.new) }
    ensures read_failed { result ≡ 4 → RoseByOne (I.faults source.old) (I.faults source.new) }
    ensures no_read_failed { result ≢ 4 → I.faults source.new ≡ I.faults source.old }
    ensures write_failed { result ≡ 5 → RoseByOne (O.faults sink.old) (O.faults sink.new) }
    ensures no_write_failed { result ≡ 0 → O.faults sink.new ≡ O.faults sink.old }
    ensures too_large { result ≡ 7 → IsTooLarge (I.left source.old) (I.left source.new) }
    ensures complete { command_of words.now ≡ Some Command.Run →
        Completes result (I.left source.old) (I.faults source.old) (I.faults source.new) (O.faults sink.old)
        (O.faults sink.new) }
    ensures reads_later { I.faults source.old ≤ I.faults source.new }
    ensures writes_later { O.faults sink.old ≤ O.faults sink.new }
{
    match command_in(words) {
        Some(Command::Run) => run_script(alloc, source, sink, run),
        None => {
            say_usage(sink);
            Status::Usage as u8
        }
    }
}

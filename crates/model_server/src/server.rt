//! The model server: a server with its setup, its schedule, its calls and its answers.
ghost use Rattle.std.specs.Prelude.{◌≡◌, [], is_some, IfOk, IfErr, OnOk, OnErr};
ghost use Rattle.driver_error.specs.Error.{IsAlone};
ghost use Rattle.driver_error.specs.LabelTexts.{no_labels};
ghost use Rattle.driver_error.specs.declared.kind.ErrorKind.TheVariants.{Memory};
ghost use Rattle.driver_link.specs.Exchange.{delivered, empty_server};
ghost use Rattle.driver_link.specs.WellFormed.{IsWellFormed};
ghost use Rattle.model_server.specs.ModelState.{no_calls, Stepped};
ghost use Rattle.model_effects.specs.Waiting.{waits_at};

use crate::delivery::deliver;
use crate::stepping::take_next;
use bson_lite::{Bytes, List};
use driver_link::{Answered, Schedule, Send, Server, Setup};
use model_effects::exchange::new_server;
use std::alloc::{AllocError, Global};
use std::marker::Model;

/// The host that is selected where no address is asked for.
pub const HOST: &str = "model";

/// Its port.
pub const PORT: u16 = 27017;

/// How many calls of each kind there were, beside exchanges.
#[derive(Clone, Copy, Debug, PartialEq, Eq)]
pub(crate) struct Calls {
    pub selects: u64,
    pub supports: u64,
    pub check_outs: u64,
    pub reauthentications: u64,
}

/// A server in memory, which answers by its schedule.
#[derive(Debug)]
pub struct ModelServer {
    pub(crate) server: Server,
    pub(crate) setup: Setup,
    pub(crate) schedule: Schedule,
    pub(crate) calls: Calls,
    pub(crate) answered: List<Answered>,
    pub(crate) faults: u64,
}

impl Drop for ModelServer {
    fn drop(self) {
        let ModelServer {
            server,
            setup,
            schedule,
            calls: _,
            answered,
            faults: _,
        } = self;
        drop(server);
        drop(setup);
        drop(schedule);
        drop(answered);
    }
}

impl Model for ModelServer {
    ghost use Rattle.std.specs.Coded.{codes};
    ghost use Rattle.driver_link.specs.WellFormed.{IsWellFormed};
    ghost use Rattle.model_server.specs.ModelState.{ModelState};
    ghost use Rattle.link_faults.specs.contracts.fault.Answered as answered_contract;
    ghost use Rattle.driver_link.specs.contracts.machine.Schedule as schedule_contract;
    ghost use Rattle.driver_link.specs.contracts.machine.Server as server_contract;
    ghost use Rattle.driver_link.specs.contracts.machine.Setup as setup_contract;

    ghost Value = { ModelState };

    ghost coded = { Prim.hlevel (
      codes,
      server_contract.the_row.coded,
      setup_contract.the_row.coded,
      schedule_contract.the_row.coded,
      answered_contract.the_row.coded,
    ) };

    ghost view = { λ model. record {
      server = model.server;
      setup = model.setup;
      schedule = model.schedule;
      counts = record {
        selects = model.calls.selects;
        supports = model.calls.supports;
        check_outs = model.calls.check_outs;
        reauthentications = model.calls.reauthentications;
      };
      answers = model.answered;
      faults = model.faults;
    } };

    ghost invariant = { λ model. IsWellFormed model.schedule };
}

impl ModelServer {
    /// A server that has seen nothing. It takes no memory.
    pub fn new(alloc: Global, setup: Setup, schedule: Schedule) -> ModelServer
        requires { IsWellFormed schedule }
        ensures { result ≡ record {
          server = empty_server;
          setup = setup;
          schedule = schedule;
          counts = no_calls;
          answers = [];
          faults = 0;
        } }
    {
        ModelServer {
            server: new_server(alloc),
            setup,
            schedule,
            calls: Calls {
                selects: 0,
                supports: 0,
                check_outs: 0,
                reauthentications: 0,
            },
            answered: List::new(alloc),
            faults: 0,
        }
    }

    /// Makes room for so many sends with one write each, so that they take no more memory than they need. All that
    /// it has seen stays as it was.
    pub fn make_room(&mut self, sends: usize) -> Result<(), AllocError>
        ensures { self.new ≡ self.old }
    {
        self.server.trace.reserve(sends)?;
        self.server.log.reserve(sends)?;
        self.answered.reserve(sends)
    }

    /// The state of the server.
    pub fn server(&self) -> &Server
        ensures { result.now ≡ self.now.server }
    {
        &self.server
    }

    /// The setup of its making.
    pub fn setup(&self) -> &Setup
        ensures { result.now ≡ self.now.setup }
    {
        &self.setup
    }

    /// The schedule of its making, which is well formed.
    pub fn schedule(&self) -> &Schedule
        ensures schedule { result.now ≡ self.now.schedule }
        ensures well_formed { IsWellFormed self.now.schedule }
    {
        &self.schedule
    }

    /// What it answered, the oldest first.
    pub fn answered(&self) -> &[Answered]
        ensures { result.now ≡ self.now.answers }
    {
        self.answered.as_slice()
    }

    /// Serves the send that waits at an index, by the order of lateness from 0. The answer is whether one
    /// waited there. Nothing else changes, and want of memory changes nothing.
    pub fn deliver_late(&mut self, alloc: Global, index: u64) -> driver_error::Result<bool>
        ensures waited { IfOk result (λ waited. waited ≡ is_some (waits_at self.old.server.waiting index)) }
        ensures ok { OnOk result (self.new ≡ record self.old { server = delivered self.old.server index }) }
        ensures err { OnErr result (self.new ≡ self.old) }
        ensures memory { IfErr result (λ error. IsAlone Memory no_labels error) }
    {
        Ok(deliver(&mut self.server, alloc, index)?)
    }

    /// Takes the next exchange. The answer is the bytes of its reply, or none where the connection is reset.
    /// Want of memory changes nothing.
    pub(crate) fn step(&mut self, alloc: Global, send: Send) -> Result<Option<Bytes>, AllocError>
        ensures ok { IfOk result (λ bytes. Stepped self.old self.new send bytes) }
        ensures err { OnErr result (self.new ≡ self.old) }
    {
        take_next(
            &mut self.server,
            &mut self.answered,
            alloc,
            send,
            &self.schedule,
        )
    }
}

//! The model server as a link.
ghost use Rattle.std.specs.Prelude.{◌≡◌, [], IfOk};
ghost use Rattle.std.specs.Option.{option_copied};
ghost use Rattle.driver_error.specs.declared.kind.IoKind.TheVariants.{ConnectionReset};
ghost use Rattle.link_faults.specs.declared.fault.LinkError.TheVariants.{Fault};
ghost use Rattle.link_faults.specs.declared.fault.LinkFault.TheVariants.{Io};
ghost use Rattle.model_server.specs.ModelState.{address_for as selected_address};

use crate::server::{HOST, ModelServer, PORT};
use bson_lite::{Bytes, List, Text, TryClone};
use driver_error::{Error, IoKind};
use driver_link::{Frame, Link, LinkError, LinkFault, Place};
use driver_options::{Address, Conn, SelectionCriteria};
use frame_reading::reading::read_send;
use std::alloc::{AllocError, Global};

/// The address that is selected: the one that is asked for, else that of the model server.
fn address_for(alloc: Global, criteria: Option<&SelectionCriteria>) -> Result<Address, AllocError>
    ensures { IfOk result (λ address. address ≡ selected_address (option_copied criteria.entry)) }
{
    match criteria {
        Some(SelectionCriteria::Address(address)) => address.try_clone(alloc),
        _ => Ok(Address {
            host: Text::from_str(alloc, HOST)?,
            port: PORT,
        }),
    }
}

/// What the caller of an exchange sees whose connection is reset.
fn reset(alloc: Global) -> LinkError
    ensures { result ≡ Fault (Io ConnectionReset) [] }
{
    LinkError::Fault {
        fault: LinkFault::Io(IoKind::ConnectionReset),
        labels: List::new(alloc),
    }
}

impl Link for ModelServer {
    ghost use Rattle.std.specs.Prelude.{◌≡◌, IfOk, IfSome};
    ghost use Rattle.std.specs.Option.{option_copied};
    ghost use Rattle.driver_link.specs.LinkCalls.{AsksSupport, ChecksInConnection, ChecksOutConnection, ExchangesFrame, Reauthenticates, SelectsServer};
    ghost use Rattle.driver_link.specs.LinkState.{setup_of};
    ghost use Rattle.driver_link.specs.Reads.{Reads};
    ghost use Rattle.driver_link.specs.declared.machine.Send.{Send as Sent};
    ghost use Rattle.model_server.specs.ModelState.{address_for, faults_after, model_tells};

    ghost tells = { model_tells };

    fn select(
        &mut self,
        alloc: Global,
        criteria: Option<&SelectionCriteria>,
        _deprioritized: &[Address],
    ) -> Result<Address, LinkError>
        ensures told { SelectsServer (model_tells self.old) (model_tells self.new)
            (record { criteria = option_copied criteria.entry; deprioritized = _deprioritized.now }) result }
        ensures selects { IfOk result (λ address. address ≡ address_for (option_copied criteria.entry)) }
        ensures faults { self.new.faults ≡ faults_after self.old.faults result }
    {
        self.count_select(alloc)?;
        Ok(address_for(alloc, criteria)?)
    }

    fn is_sharded(&self) -> bool {
        self.setup.description.sharded
    }

    fn session_timeout_ms(&self) -> Option<u64> {
        self.setup.timeout_ms
    }

    fn transaction_support(&mut self, alloc: Global) -> Result<bool, LinkError>
        ensures told { AsksSupport (model_tells self.old) (model_tells self.new) result }
        ensures faults { self.new.faults ≡ faults_after self.old.faults result }
    {
        self.count_support(alloc)?;
        Ok(self.setup.transactions)
    }

    fn check_out(&mut self, alloc: Global, address: &Address) -> Result<Conn, LinkError>
        ensures told { ChecksOutConnection (model_tells self.old) (model_tells self.new) address.now result }
        ensures number { IfOk result (λ conn. conn.number ≡ self.old.counts.check_outs) }
        ensures faults { self.new.faults ≡ faults_after self.old.faults result }
    {
        let number = self.calls.check_outs;
        self.count_check_out(alloc)?;
        Ok(Conn {
            address: address.try_clone(alloc)?,
            description: self.setup.description,
            number,
        })
    }

    fn exchange(
        &mut self,
        alloc: Global,
        _conn: &Conn,
        frame: &Frame,
        places: &[Place],
    ) -> Result<Bytes, LinkError>
        requires { (send : Sent) × Reads frame.now places.now send }
        ensures told { ExchangesFrame (model_tells self.old) (model_tells self.new)
            _conn.now frame.now places.now result }
        ensures faults { self.new.faults ≡ faults_after self.old.faults result }
    {
        let Some(send) = read_send(alloc, frame, places)? else {
            unreachable!()
        };
        match self.step(alloc, send)? {
            Some(reply) => Ok(reply),
            None => {
                self.count_fault();
                Err(reset(alloc))
            }
        }
    }

    fn reauthenticate(&mut self, alloc: Global, _conn: &Conn) -> Result<(), LinkError>
        ensures told { Reauthenticates (model_tells self.old) (model_tells self.new) result }
        ensures faults { self.new.faults ≡ faults_after self.old.faults result }
    {
        self.count_reauthentication(alloc)
    }

    fn check_in(&mut self, conn: Conn)
        ensures told { ChecksInConnection (model_tells self.old) (model_tells self.new) conn }
        ensures unchanged { self.new ≡ self.old }
    {
        let Conn {
            address,
            description: _,
            number: _,
        } = conn;
        drop(address);
    }

    fn report(&mut self, _address: &Address, _error: &Error)
        ensures told { model_tells self.new ≡ model_tells self.old }
        ensures unchanged { self.new ≡ self.old }
    {}
}

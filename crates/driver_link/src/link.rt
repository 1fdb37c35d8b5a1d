//! The one trait that stands for selection, connections and the wire.
ghost use Rattle.std.specs.Prelude.{◌≡◌, IfSome};
ghost use Rattle.std.specs.Option.{option_copied};
ghost use Rattle.driver_link.specs.declared.machine.Send.{Send as Sent};
ghost use Rattle.driver_link.specs.LinkCalls.{AsksSupport, ChecksInConnection, ChecksOutConnection, ExchangesFrame, Reauthenticates, SelectsServer};
ghost use Rattle.driver_link.specs.LinkState.{LinkState, setup_of};
ghost use Rattle.driver_link.specs.Reads.{Reads};

use crate::frame::Frame;
use crate::machine::Place;
use bson_lite::Bytes;
use driver_error::Error;
use driver_options::{Address, Conn, SelectionCriteria};
use link_faults::LinkError;
use std::alloc::Global;

/// Servers behind connections. What a link tells is for contracts alone.
pub trait Link {
    // All that it tells.
    ghost tells: { Self → LinkState };

    /// A server that meets the criteria, outside those to be avoided where others are there.
    fn select(
        &mut self,
        alloc: Global,
        criteria: Option<&SelectionCriteria>,
        deprioritized: &[Address],
    ) -> Result<Address, LinkError>
        ensures { SelectsServer (tells self.old) (tells self.new)
            (record { criteria = option_copied criteria.entry; deprioritized = deprioritized.now }) result };

    /// Whether its servers are routers of shards.
    fn is_sharded(&self) -> bool
        ensures { IfSome (setup_of (tells self.now)) (λ setup. result ≡ setup.description.sharded) };

    /// After how long the server forgets a session that is not used, in milliseconds.
    fn session_timeout_ms(&self) -> Option<u64>
        ensures { IfSome (setup_of (tells self.now)) (λ setup. result ≡ setup.timeout_ms) };

    /// Whether the server takes transactions.
    fn transaction_support(&mut self, alloc: Global) -> Result<bool, LinkError>
        ensures { AsksSupport (tells self.old) (tells self.new) result };

    /// A connection to a server.
    fn check_out(&mut self, alloc: Global, address: &Address) -> Result<Conn, LinkError>
        ensures { ChecksOutConnection (tells self.old) (tells self.new) address.now result };

    /// Sends one command with the places of its writes, and answers the bytes of the reply.
    fn exchange(
        &mut self,
        alloc: Global,
        conn: &Conn,
        frame: &Frame,
        places: &[Place],
    ) -> Result<Bytes, LinkError>
        requires { (send : Sent) × Reads frame.now places.now send }
        ensures { ExchangesFrame (tells self.old) (tells self.new) conn.now frame.now places.now result };

    /// Authenticates a connection once more.
    fn reauthenticate(&mut self, alloc: Global, conn: &Conn) -> Result<(), LinkError>
        ensures { Reauthenticates (tells self.old) (tells self.new) result };

    /// Hands a connection back. It takes no memory.
    fn check_in(&mut self, conn: Conn)
        ensures { ChecksInConnection (tells self.old) (tells self.new) conn };

    /// Is told of an error that came from a server. It takes no memory.
    fn report(&mut self, address: &Address, error: &Error)
        ensures { tells self.new ≡ tells self.old };
}

//! A link that answers from memory and keeps nothing, so that what is timed is the driver.
use bson_lite::{Bytes, Text, TryClone};
use driver_error::Error;
use driver_link::{Frame, Link, LinkError, Place};
use driver_options::{Address, Conn, SelectionCriteria};
use model_server::USUAL_SETUP;
use std::alloc::{AllocError, Global};

/// The front of a reply `{ok: 1, n: ..}`, up to the number behind `n`.
const DONE: &[u8] = b"\x14\0\0\0\x10ok\0\x01\0\0\0\x10n\0";

/// A link that gives the same reply to each exchange, whatever is sent.
#[derive(Drop)]
pub struct OneReply {
    reply: Bytes,
}

impl OneReply {
    /// One that answers that so many documents were written.
    pub fn new(alloc: Global, count: u32) -> Result<OneReply, AllocError> {
        let mut reply = Bytes::from_slice(alloc, DONE)?;
        reply.extend_from_slice(&count.to_le_bytes())?;
        reply.extend_from_slice(b"\0")?;
        Ok(OneReply { reply })
    }

    /// One that answers these bytes.
    pub fn of(reply: Bytes) -> OneReply {
        OneReply { reply }
    }
}

impl Link for OneReply {
    ghost use Rattle.std.specs.Prelude.{None};
    ghost use Rattle.driver_link.specs.LinkState.{Untold};

    ghost tells = { λ link. record {
      making = Untold;
      answers = None;
      frames = None;
      over = None;
      asked = None;
      addresses = None;
      connections = None;
      out = None;
      faults = 0;
    } };

    fn select(
        &mut self,
        alloc: Global,
        _criteria: Option<&SelectionCriteria>,
        _deprioritized: &[Address],
    ) -> Result<Address, LinkError> {
        let host = Text::from_str(alloc, "bench")?;
        Ok(Address { host, port: 27017 })
    }

    fn is_sharded(&self) -> bool {
        USUAL_SETUP.description.sharded
    }

    fn session_timeout_ms(&self) -> Option<u64> {
        USUAL_SETUP.timeout_ms
    }

    fn transaction_support(&mut self, _alloc: Global) -> Result<bool, LinkError> {
        Ok(USUAL_SETUP.transactions)
    }

    fn check_out(&mut self, alloc: Global, address: &Address) -> Result<Conn, LinkError> {
        Ok(Conn {
            address: address.try_clone(alloc)?,
            description: USUAL_SETUP.description,
            number: 0,
        })
    }

    fn exchange(
        &mut self,
        alloc: Global,
        _conn: &Conn,
        _frame: &Frame,
        _places: &[Place],
    ) -> Result<Bytes, LinkError> {
        Ok(self.reply.try_clone(alloc)?)
    }

    fn reauthenticate(&mut self, _alloc: Global, _conn: &Conn) -> Result<(), LinkError> {
        Ok(())
    }

    fn check_in(&mut self, conn: Conn) {
        let Conn {
            address,
            description: _,
            number: _,
        } = conn;
        drop(address);
    }

    fn report(&mut self, _address: &Address, _error: &Error) {}
}

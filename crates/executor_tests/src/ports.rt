//! One insert over a link whose selections answer one server after the other: the connection of each attempt is
//! asked for the server that its selection answered.
use crate::asserting::holds;
use bson_lite::{Bytes, List, Text};
use driver_error::Error;
use driver_link::{Frame, Link, LinkError, Place};
use driver_options::{Address, Conn, SelectionCriteria};
use memory_links::FakeLink;
use std::alloc::Global;
use test_parts::faking::{ALIKE, DONE, Given, fake_link};
use test_parts::inserting::{Ended, insert};

/// A fake link whose k-th selection answers port k, from 1, and which keeps the ports that were asked for.
#[derive(Drop)]
struct Ports {
    fake: FakeLink,
    selected: u16,
    asked_for: List<u16>,
}

impl Link for Ports {
    ghost use Rattle.std.specs.Prelude.{None};
    ghost use Rattle.driver_link.specs.LinkState.{Untold};

    ghost tells = { λ link. record {
      making = Untold;
      answers = None;
      frames = None;
      over = None;
      asked = None;
      addresses = None;
      connections = None;
      out = None;
      faults = link.fake.faults;
    } };

    fn select(
        &mut self,
        alloc: Global,
        _criteria: Option<&SelectionCriteria>,
        _deprioritized: &[Address],
    ) -> Result<Address, LinkError> {
        let host = Text::from_str(alloc, "fake")?;
        self.selected = self.selected.saturating_add(1);
        Ok(Address {
            host,
            port: self.selected,
        })
    }

    fn is_sharded(&self) -> bool {
        false
    }

    fn session_timeout_ms(&self) -> Option<u64> {
        None
    }

    fn transaction_support(&mut self, alloc: Global) -> Result<bool, LinkError> {
        self.fake.transaction_support(alloc)
    }

    fn check_out(&mut self, alloc: Global, address: &Address) -> Result<Conn, LinkError> {
        self.asked_for.push(address.port)?;
        self.fake.check_out(alloc, address)
    }

    fn exchange(
        &mut self,
        alloc: Global,
        conn: &Conn,
        frame: &Frame,
        places: &[Place],
    ) -> Result<Bytes, LinkError> {
        self.fake.exchange(alloc, conn, frame, places)
    }

    fn reauthenticate(&mut self, alloc: Global, conn: &Conn) -> Result<(), LinkError> {
        self.fake.reauthenticate(alloc, conn)
    }

    fn check_in(&mut self, conn: Conn) {
        self.fake.check_in(conn);
    }

    fn report(&mut self, address: &Address, error: &Error) {
        self.fake.report(address, error);
    }
}

/// Whether a lost insert is done by its second send, and its two connections were asked for the servers selected.
fn asks_for_the_selected(alloc: Global) -> bool {
    let Ok(fake) = fake_link(alloc, ALIKE, &[Given::Reset, Given::Reply(DONE)]) else {
        return false;
    };
    let link = Ports {
        fake,
        selected: 0,
        asked_for: List::new(alloc),
    };
    match insert(alloc, link) {
        Some((seen, link)) => seen.ended == Ended::Done
            && link.asked_for.as_slice() == [1, 2].as_slice(),
        None => false,
    }
}

#[test]
fn a_connection_is_asked_for_the_server_that_was_selected(rt: HostRuntime) {
    holds(
        &rt,
        asks_for_the_selected(rt.alloc()),
        "the ports that were asked for",
    );
}

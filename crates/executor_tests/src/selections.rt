//! One insert over a fake link: which servers its selections are asked to avoid.
use crate::asserting::holds;
use driver_options::{Address, Asked};
use memory_links::FakeLink;
use std::alloc::Global;
use test_parts::faking::{ALIKE, DONE, Given, ROUTER, Servers, inserted};
use test_parts::inserting::Ended;

/// Routers of shards behind each connection.
const ROUTERS: Servers = Servers {
    first: ROUTER,
    further: ROUTER,
};

/// Whether an address is that of a fake link's server.
fn is_the_server(address: &Address) -> bool {
    address.port == 27017 && address.host.as_str() == "fake"
}

/// Whether no server is to be avoided.
fn avoids_none(asked: &Asked) -> bool {
    asked.deprioritized.is_empty()
}

/// Whether the one server alone is to be avoided.
fn avoids_the_server(asked: &Asked) -> bool {
    match asked.deprioritized.as_slice() {
        [only] => is_the_server(only),
        _ => false,
    }
}

/// Whether two selections were asked for: the first may take each server, and the second avoids the first's
/// or may take each too.
fn asks(link: &FakeLink, avoids: bool) -> bool {
    match link.asked() {
        [first, second] if avoids => avoids_none(first) && avoids_the_server(second),
        [first, second] => avoids_none(first) && avoids_none(second),
        _ => false,
    }
}

/// Whether an insert whose first exchange is lost is done by the second, with such selections.
fn is_done(alloc: Global, servers: Servers, avoids: bool) -> bool {
    match inserted(alloc, servers, &[Given::Reset, Given::Reply(DONE)]) {
        Some((ended, link)) => ended == Ended::Done && asks(&link, avoids),
        None => false,
    }
}

#[test]
fn a_router_that_failed_is_avoided(rt: HostRuntime) {
    holds(
        &rt,
        is_done(rt.alloc(), ROUTERS, true),
        "a router that failed is avoided",
    );
}

#[test]
fn a_member_of_a_replica_set_that_failed_is_not_avoided(rt: HostRuntime) {
    holds(
        &rt,
        is_done(rt.alloc(), ALIKE, false),
        "a member that failed is not avoided",
    );
}

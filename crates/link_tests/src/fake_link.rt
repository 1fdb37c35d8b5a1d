//! Tests of the fake link, and of copies of concerns.
ghost use Rattle.std.specs.Prelude.{◌≡◌, []};
ghost use Rattle.driver_link.specs.Reads.{Reads};
ghost use Rattle.link_tests.specs.AbortFrame.{abort_body as body_of_abort, abort_send};

use crate::asserting::{Made, holds};
use bson_lite::{Bson, Bytes, Document, List, Text, TryClone, encode};
use driver_error::IoKind;
use driver_link::{Answered, Frame, Link, LinkCall, LinkError, LinkFault};
use driver_options::{
    Acknowledgment, Address, Asked, Conn, Description, ReadConcern, ReadConcernLevel,
    SelectionCriteria, WriteConcern,
};
use memory_links::{FakeLink, FakeStep, NotedConn};
use std::alloc::Global;
use std::process::Abort;
use wire_keys::keys::{ABORT_TRANSACTION, ADMIN, DATABASE};

/// `{ abortTransaction: 1, $db: "admin" }`.
const ABORT: [u8; 42] = *b"\x2a\0\0\0\x10abortTransaction\0\x01\0\0\0\x02$db\0\x06\0\0\0admin\0\0";

/// What a server of a wire version says of itself.
fn described(version: i32, sharded: bool) -> Description {
    Description {
        max_wire_version: Some(version),
        max_bson_object_size: 16_777_216,
        max_message_size_bytes: 48_000_000,
        max_write_batch_size: 100_000,
        supports_sessions: true,
        supports_retryable_writes: true,
        sharded,
    }
}

/// A link with two descriptions and two steps: a reply and a fault.
fn two_steps(rt: &impl Abort, alloc: Global) -> FakeLink {
    let mut descriptions = List::new(alloc);
    descriptions.push(described(17, true)).made(rt);
    descriptions.push(described(25, false)).made(rt);
    let mut steps = List::new(alloc);
    steps
        .push(FakeStep::Reply(Bytes::from_slice(alloc, b"reply").made(rt)))
        .made(rt);
    steps
        .push(FakeStep::Fault(LinkFault::Io(IoKind::BrokenPipe)))
        .made(rt);
    FakeLink::new(alloc, descriptions, steps)
}

/// The address of the tests.
fn there(rt: &impl Abort, alloc: Global) -> Address {
    Address {
        host: Text::from_str(alloc, "there").made(rt),
        port: 5,
    }
}

/// Whether an address is this one.
fn is_at(address: &Address, host: &str, port: u16) -> bool {
    address.host.as_str() == host && address.port == port
}

/// The body of a command that ends a transaction.
#[tactic(auto, unfolding(crate::specs::AbortFrame::abort_body))]
fn abort_body(rt: &impl Abort, alloc: Global) -> Document
    ensures { result ≡ body_of_abort }
{
    let mut body = Document::new(alloc);
    body.push(ABORT_TRANSACTION, Bson::Int32(1)).made(rt);
    body.push(
        DATABASE,
        Bson::String(Text::from_str(alloc, ADMIN).made(rt)),
    )
    .made(rt);
    body
}

/// Its frame.
#[tactic(auto, using(crate::proofs::AbortReads::abort_reads))]
fn abort_frame(rt: &impl Abort, alloc: Global) -> Frame
    ensures { Reads result [] abort_send }
{
    let body = abort_body(rt, alloc);
    let bytes = encode(alloc, &body).made(rt);
    Frame::new(
        Text::from_str(alloc, ADMIN).made(rt),
        bytes,
        List::new(alloc),
    )
}

/// Selects with an address that is asked for, and one to be avoided.
fn select_there(rt: &impl Abort, link: &mut FakeLink, alloc: Global) -> Address {
    let criteria = SelectionCriteria::Address(there(rt, alloc));
    let avoided = there(rt, alloc);
    link.select(alloc, Some(&criteria), &[avoided]).made(rt)
}

/// Selects without criteria.
fn select_any(rt: &impl Abort, link: &mut FakeLink, alloc: Global) -> Address {
    link.select(alloc, None, &[]).made(rt)
}

/// Checks a connection out, and answers its number and its wire version.
fn check_out(rt: &impl Abort, link: &mut FakeLink, alloc: Global) -> (u64, Option<i32>) {
    let address = there(rt, alloc);
    let conn = link.check_out(alloc, &address).made(rt);
    let seen = (conn.number, conn.description.max_wire_version);
    link.check_in(conn);
    seen
}

/// Sends one frame over a connection of its own.
fn exchange(rt: &impl Abort, link: &mut FakeLink, alloc: Global) -> Result<Bytes, LinkError> {
    let address = there(rt, alloc);
    let frame = abort_frame(rt, alloc);
    let conn = link.check_out(alloc, &address).made(rt);
    let answer = link.exchange(alloc, &conn, &frame, &[]);
    link.check_in(conn);
    answer
}

/// Whether an exchange answered these bytes.
fn is_given(answer: Result<Bytes, LinkError>, bytes: &[u8]) -> bool {
    match answer {
        Ok(reply) => reply.as_slice() == bytes,
        Err(_) => false,
    }
}

/// Whether an exchange answered a fault without labels.
fn is_fault(answer: Result<Bytes, LinkError>, kind: IoKind) -> bool {
    match answer {
        Err(
            LinkError::Fault {
                fault: LinkFault::Io(found),
                labels,
            },
        ) => found == kind && labels.is_empty(),
        _ => false,
    }
}

/// Whether an answer is told as a reply of these bytes.
fn is_reply(answered: &[Answered], at: usize, bytes: &[u8]) -> bool {
    match answered.get(at) {
        Some(Answered::Reply(reply)) => reply.as_slice() == bytes,
        _ => false,
    }
}

/// Whether an answer is told as a fault of an exchange.
fn is_noted(answered: &[Answered], at: usize, kind: IoKind) -> bool {
    match answered.get(at) {
        Some(
            Answered::Fault {
                call: LinkCall::Exchange,
                fault: LinkFault::Io(found),
                labels,
            },
        ) => *found == kind && labels.is_empty(),
        _ => false,
    }
}

/// Whether a frame is the one of the tests.
fn is_abort(frames: &[Frame], at: usize, body: &[u8]) -> bool {
    match frames.get(at) {
        Some(frame) => {
            frame.database() == "admin" && frame.body() == body && frame.sequence_count() == 0
        }
        None => false,
    }
}

/// Whether a selection asked for the tests' address, with one to be avoided.
fn asked_there(asked: &[Asked], at: usize) -> bool {
    match asked.get(at) {
        Some(
            Asked {
                criteria: Some(SelectionCriteria::Address(address)),
                deprioritized,
            },
        ) => is_at(address, "there", 5) && deprioritized.len() == 1,
        _ => false,
    }
}

/// Whether a selection answered this address.
fn selected(addresses: &[Address], at: usize, host: &str, port: u16) -> bool {
    match addresses.get(at) {
        Some(address) => is_at(address, host, port),
        None => false,
    }
}

/// Whether a selection asked for nothing.
fn asked_any(asked: &[Asked], at: usize) -> bool {
    match asked.get(at) {
        Some(
            Asked {
                criteria: None,
                deprioritized,
            },
        ) => deprioritized.is_empty(),
        _ => false,
    }
}

/// Whether a selection with an address gives that one, and one without gives the usual one.
fn selects(rt: &impl Abort, link: &mut FakeLink, alloc: Global) -> bool {
    let asked = select_there(rt, link, alloc);
    if !is_at(&asked, "there", 5) {
        return false;
    }
    drop(asked);
    let any = select_any(rt, link, alloc);
    is_at(&any, "fake", 27017)
}

/// Whether these two selections are told.
fn tells_selections(link: &FakeLink) -> bool {
    let asked = link.asked();
    let addresses = link.addresses();
    asked.len() == 2
        && asked_there(asked, 0)
        && asked_any(asked, 1)
        && addresses.len() == 2
        && selected(addresses, 0, "there", 5)
        && selected(addresses, 1, "fake", 27017)
}

#[test]
fn selections_are_told(rt: HostRuntime) {
    let mut link = two_steps(&rt, rt.alloc());
    let done = selects(&rt, &mut link, rt.alloc());
    let told = tells_selections(&link);
    drop(link);
    holds(&rt, done && told, "two selections and what is told of them");
}

/// Whether three check-outs have the two descriptions in turn, and then the last one again.
fn describes_in_turn(rt: &impl Abort, link: &mut FakeLink, alloc: Global) -> bool {
    let first = check_out(rt, link, alloc);
    let second = check_out(rt, link, alloc);
    let third = check_out(rt, link, alloc);
    first == (0, Some(17)) && second == (1, Some(25)) && third == (2, Some(25))
}

#[test]
fn check_outs_give_the_descriptions_in_turn(rt: HostRuntime) {
    let mut link = two_steps(&rt, rt.alloc());
    holds(
        &rt,
        describes_in_turn(&rt, &mut link, rt.alloc()),
        "the descriptions of three check-outs",
    );
}

/// Whether exchanges do the steps in turn and then are reset, and each fault is counted.
fn exchanges_in_turn(rt: &impl Abort, link: &mut FakeLink, alloc: Global) -> bool {
    is_given(exchange(rt, link, alloc), b"reply")
        && link.faults() == 0
        && is_fault(exchange(rt, link, alloc), IoKind::BrokenPipe)
        && link.faults() == 1
        && is_fault(exchange(rt, link, alloc), IoKind::ConnectionReset)
        && is_fault(exchange(rt, link, alloc), IoKind::ConnectionReset)
        && link.faults() == 3
}

#[test]
fn exchanges_do_the_steps_in_turn(rt: HostRuntime) {
    let mut link = two_steps(&rt, rt.alloc());
    let in_turn = exchanges_in_turn(&rt, &mut link, rt.alloc());
    drop(link);
    holds(
        &rt,
        in_turn,
        "four exchanges, and how many faults there were",
    );
}

/// Whether the three exchanges are told, with their answers and the numbers of their connections.
fn tells_exchanges(link: &FakeLink) -> bool {
    link.frames().len() == 3
        && is_abort(link.frames(), 2, &ABORT)
        && link.answered().len() == 3
        && is_reply(link.answered(), 0, b"reply")
        && is_noted(link.answered(), 1, IoKind::BrokenPipe)
        && is_noted(link.answered(), 2, IoKind::ConnectionReset)
        && link.over() == [0, 1, 2].as_slice()
        && link.out().is_empty()
}

#[test]
fn exchanges_are_told_with_their_connections(rt: HostRuntime) {
    let alloc = rt.alloc();
    let mut link = two_steps(&rt, alloc);
    for _ in 0..3 {
        drop(exchange(&rt, &mut link, alloc));
    }
    holds(
        &rt,
        tells_exchanges(&link),
        "what is told of three exchanges",
    );
}

/// Whether the calls that take no step answer what they always do.
fn answers_the_same(rt: &impl Abort, link: &mut FakeLink, alloc: Global) -> bool {
    let supports = link.transaction_support(alloc).made(rt);
    let address = there(rt, alloc);
    let conn = link.check_out(alloc, &address).made(rt);
    let answer = link.reauthenticate(alloc, &conn);
    link.check_in(conn);
    answer.made(rt);
    supports && link.is_sharded() && link.session_timeout_ms().is_none()
}

#[test]
fn the_other_calls_answer_the_same_each_time(rt: HostRuntime) {
    let mut link = two_steps(&rt, rt.alloc());
    holds(
        &rt,
        answers_the_same(&rt, &mut link, rt.alloc()),
        "the calls that take no step",
    );
}

/// Checks a connection out that is never handed back.
fn keep_out(rt: &impl Abort, link: &mut FakeLink, alloc: Global) {
    let there = there(rt, alloc);
    let conn = link.check_out(alloc, &there).made(rt);
    let Conn {
        address,
        description: _,
        number: _,
    } = conn;
    drop(address);
}

/// Whether a noted connection has this number and leads to the tests' address.
fn is_noted_as(conns: &[NotedConn], at: usize, number: u64) -> bool {
    match conns.get(at) {
        Some(conn) => conn.number() == number && is_at(conn.address(), "there", 5),
        None => false,
    }
}

/// Three connections, of which the second is handed back.
fn keeps_two_out(rt: &impl Abort, link: &mut FakeLink, alloc: Global) {
    keep_out(rt, link, alloc);
    check_out(rt, link, alloc);
    keep_out(rt, link, alloc);
}

/// Whether these three are told, and that two are out.
fn tells_connections(link: &FakeLink) -> bool {
    let all = link.connections();
    let out = link.out();
    all.len() == 3
        && is_noted_as(all, 0, 0)
        && is_noted_as(all, 1, 1)
        && is_noted_as(all, 2, 2)
        && out.len() == 2
        && is_noted_as(out, 0, 0)
        && is_noted_as(out, 1, 2)
}

#[test]
fn connections_are_told_and_those_that_are_out(rt: HostRuntime) {
    let mut link = two_steps(&rt, rt.alloc());
    keeps_two_out(&rt, &mut link, rt.alloc());
    let told = tells_connections(&link);
    drop(link);
    holds(&rt, told, "three connections, and the two that are out");
}

/// Whether a copy of a concern has its fields.
fn copies_concern(rt: &impl Abort, alloc: Global) -> bool {
    let concern = WriteConcern {
        w: Some(Acknowledgment::Nodes(2)),
        w_timeout: Some(10_000),
        journal: Some(true),
    };
    let copy = concern.try_clone(alloc).made(rt);
    asks_two_nodes(&copy)
}

/// Whether two servers are asked for, their journals and ten seconds.
fn asks_two_nodes(concern: &WriteConcern) -> bool {
    let nodes = match concern.w {
        Some(Acknowledgment::Nodes(nodes)) => nodes,
        _ => 0,
    };
    nodes == 2 && concern.w_timeout == Some(10_000) && concern.journal == Some(true)
}

/// Whether a copy of a read concern has its level.
fn copies_level(rt: &impl Abort, alloc: Global) -> bool {
    let concern = ReadConcern {
        level: ReadConcernLevel::Custom(Text::from_str(alloc, "mine").made(rt)),
    };
    let copy = concern.try_clone(alloc).made(rt);
    match &copy.level {
        ReadConcernLevel::Custom(name) => name.as_str() == "mine",
        _ => false,
    }
}

#[test]
fn concerns_are_copied(rt: HostRuntime) {
    holds(
        &rt,
        copies_concern(&rt, rt.alloc()),
        "the copy of a write concern",
    );
    holds(
        &rt,
        copies_level(&rt, rt.alloc()),
        "the copy of a read concern",
    );
}

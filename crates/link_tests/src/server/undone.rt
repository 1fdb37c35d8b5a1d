//! Sends that were served late, and undone.
use super::*;
use model_server::delivery::{deliver_each, undo_each};

/// A send that waits: its number, whether it starts a transaction, whether it is in one, and what it asks for.
struct Waiting {
    number: i64,
    start: bool,
    inside: bool,
    asks: Asks,
}

/// An insert outside transactions, and a transaction of two inserts with its commit.
const WAITING: [Waiting; 4] = [
    Waiting {
        number: 1,
        start: false,
        inside: false,
        asks: Asks::Insert,
    },
    Waiting {
        number: 2,
        start: true,
        inside: true,
        asks: Asks::Insert,
    },
    Waiting {
        number: 2,
        start: false,
        inside: true,
        asks: Asks::Insert,
    },
    Waiting {
        number: 2,
        start: false,
        inside: true,
        asks: Asks::Commit,
    },
];

/// A server that has seen nothing, and on which these sends wait.
fn waited(rt: &impl Abort, alloc: Global, sends: &[Waiting]) -> Server {
    let mut server = new_server(alloc);
    for waiting in sends {
        let send = Send {
            session: Some([7; 16]),
            number: Some(waiting.number),
            start: waiting.start,
            in_transaction: waiting.inside,
            body: body_of(rt, alloc, waiting.asks),
        };
        server.waiting.push(Some(send)).made(rt);
    }
    server
}

/// Whether each place holds a waiting send, or none does.
fn all_wait(server: &Server, wait: bool) -> bool {
    for place in server.waiting.as_slice() {
        if place.is_some() != wait {
            return false;
        }
    }
    true
}

/// Whether the log has so many entries once sends were served late, and the server is as it was once that
/// is undone.
fn is_undone(
    rt: &impl Abort,
    alloc: Global,
    sends: &[Waiting],
    picks: &[u64],
    entries: usize,
) -> bool {
    let mut server = waited(rt, alloc, sends);
    let lates = deliver_each(&mut server, alloc, picks).made(rt);
    let served = server.log.len() == entries && all_wait(&server, false);
    undo_each(&mut server, alloc, lates);
    let back = server.log.is_empty() && server.sessions.len() == 0;
    served && back && all_wait(&server, true)
}

#[test]
fn what_was_served_late_is_undone(rt: HostRuntime) {
    holds(
        &rt,
        is_undone(&rt, rt.alloc(), &WAITING, &[0, 1, 2, 3], 3),
        "four sends that were served late, and undone",
    );
}

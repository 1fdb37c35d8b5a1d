//! What no clause shows of a store: that it lends, takes back and counts with ample memory.
use crate::asserting::{alike, holds};
use driver_error::Result;
use driver_session::{PlainStore, ServerSession, SessionStore};
use memory_links::CountingIds;
use std::alloc::Global;

/// Lends a session and takes it back, dirty or not. It answers the last byte of the id.
fn lend_one(store: &mut PlainStore<CountingIds>, alloc: Global, dirty: bool) -> Result<u8> {
    let mut session = store.check_out(alloc, 5)?;
    let id = session.id()[15];
    if dirty {
        session.mark_dirty();
    }
    store.check_in(session, 6);
    Ok(id)
}

/// Lends two sessions at once, and takes the second back before the first.
fn lend_two(store: &mut PlainStore<CountingIds>, alloc: Global) -> Result<(u8, u8)> {
    let first = store.check_out(alloc, 5)?;
    let ids = match store.check_out(alloc, 5) {
        Ok(second) => {
            let ids = (first.id()[15], second.id()[15]);
            store.check_in(second, 6);
            Ok(ids)
        }
        Err(error) => Err(error),
    };
    store.check_in(first, 7);
    ids
}

/// What a call answers that finds memory.
fn told<T>(answer: Result<T>) -> Option<T> {
    match answer {
        Ok(value) => Some(value),
        Err(error) => {
            drop(error);
            None
        }
    }
}

/// Whether the front session is lent first, and none that was dirty again.
fn lends_in_turn(store: &mut PlainStore<CountingIds>, alloc: Global) -> bool {
    told(lend_two(store, alloc)) == Some((1, 2))
        && told(lend_one(store, alloc, false)) == Some(1)
        && told(lend_one(store, alloc, true)) == Some(1)
        && told(lend_one(store, alloc, false)) == Some(2)
}

#[test]
fn lends_the_front_first_and_no_dirty_one(rt: HostRuntime) {
    let mut store = PlainStore::new(rt.alloc(), CountingIds::new());
    let in_turn = lends_in_turn(&mut store, rt.alloc());
    let told = [store.drawn_ids().len(), store.history().len()];
    let id = store.object_id().bytes;
    drop(store);
    holds(&rt, in_turn, "the ids of sessions that were lent");
    alike(
        &rt,
        told,
        [2, 10],
        "how many ids were drawn, and the length of the history",
    );
    alike(
        &rt,
        id,
        [0, 0, 0, 0, 0, 0, 0, 0, 0, 0, 0, 1],
        "the object id",
    );
}

#[test]
fn numbers_go_up_by_one(rt: HostRuntime) {
    let mut store = PlainStore::new(rt.alloc(), CountingIds::new());
    let mut session = ServerSession::with_number([9; 16], 5, 41);
    let number = told(session.next_number(rt.alloc()));
    store.check_in(session, 6);
    alike(&rt, number, Some(42), "the next number");
    holds(&rt, store.history().is_empty(), "no history of a number");
}

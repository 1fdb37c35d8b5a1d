//! A store of sessions for one caller.
ghost use Rattle.std.specs.Prelude.{◌≡◌};
ghost use Rattle.driver_session.specs.Pool.{empty_pool};

use crate::pool::{StoreEvent, StoreState};
use crate::session::ServerSession;
use crate::store::SessionStore;
use bson_lite::ObjectId;
use driver_error::Result;
use driver_link::IdSource;
use std::alloc::Global;
use std::marker::Model;

/// A store that its one owner lends from. It tells its pool.
pub struct PlainStore<I> {
    state: StoreState<I>,
}

impl<I: Drop> Drop for PlainStore<I> {
    fn drop(self) {
        let PlainStore { state } = self;
        drop(state);
    }
}

impl<I> Model for PlainStore<I> {
    ghost use Rattle.driver_session.specs.Pool.{StorePool};

    ghost Value = { StorePool I };

    ghost view = { λ store. store.state };
}

impl<I: IdSource> PlainStore<I> {
    /// An unused store over a source of ids. It takes no memory.
    pub fn new(alloc: Global, ids: I) -> PlainStore<I>
        ensures { result ≡ record { ids = ids; pool = empty_pool } }
    {
        PlainStore {
            state: StoreState::new(alloc, ids),
        }
    }
}

impl<I> PlainStore<I> {
    /// The events of the store, the oldest first.
    pub fn history(&self) -> &[StoreEvent]
        ensures { result.now ≡ self.now.pool.history }
    {
        self.state.history()
    }

    /// All session ids that the store drew, the oldest first.
    pub fn drawn_ids(&self) -> &[[u8; 16]]
        ensures { result.now ≡ self.now.pool.drawn }
    {
        self.state.drawn_ids()
    }
}

impl<I: IdSource> SessionStore for PlainStore<I> {
    ghost use Rattle.std.specs.Prelude.{Some};

    ghost tells = { λ store. record {
      pool = Some store.pool;
      to_come = Some (I.to_come store.ids);
      caller = 0;
    } };

    #[tactic(auto, using(crate::proofs::PoolTells::check_out_lends))]
    fn check_out(&mut self, _alloc: Global, now_ms: u64) -> Result<ServerSession> {
        self.state.check_out(0, now_ms)
    }

    fn check_in(&mut self, session: ServerSession, now_ms: u64) {
        self.state.check_in(0, session, now_ms);
    }

    fn object_id(&mut self) -> ObjectId {
        self.state.object_id()
    }
}

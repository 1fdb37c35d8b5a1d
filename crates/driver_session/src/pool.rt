//! The pool of server sessions behind a store, with its history.
ghost use Rattle.std.specs.Prelude.{◌≡◌, ◌+◌, ◌<◌, ◌≤◌, ◌++◌, [], ◌∷◌, IfErr, IfOk, OnErr, OnOk, if◌then◌else◌, vec_len, vec_capacity};
ghost use Rattle.std.specs.VecDeque.{deque_len, deque_capacity};
ghost use Rattle.driver_error.specs.Error.{IsAlone};
ghost use Rattle.driver_error.specs.LabelTexts.{no_labels};
ghost use Rattle.driver_error.specs.declared.kind.ErrorKind.TheVariants.{Memory};
ghost use Rattle.driver_link.specs.Ids.{after_draw};
ghost use Rattle.driver_link.specs.declared.ids.IdKind.TheVariants.{Object, Session};
ghost use Rattle.driver_session.specs.Pool.{empty_pool, session_out, idle_out, lent_out, taken_back, draws, ids_after};
ghost use Rattle.driver_session.specs.inside.Pool.{IsNext, FindsLent};

use crate::session::ServerSession;
use bson_lite::ObjectId;
use driver_error::Result;
use driver_link::IdSource;
use std::alloc::{AllocError, Global};
use std::collections::VecDeque;
use std::marker::Model;

/// A session that waits to be lent again. The last use is in milliseconds.
#[derive(Clone, Copy, Debug, PartialEq, Eq)]
pub struct IdleSession {
    pub id: [u8; 16],
    pub number: i64,
    pub last_use: u64,
}

/// One event of a store's history.
#[derive(Clone, Copy, Debug, PartialEq, Eq)]
pub enum StoreEvent {
    /// A session was lent; `drawn` where its id is new.
    Lent {
        caller: u32,
        id: [u8; 16],
        drawn: bool,
        now: u64,
    },
    /// A lent session came back.
    Back {
        caller: u32,
        id: [u8; 16],
        number: i64,
        last_use: u64,
        dirty: bool,
        now: u64,
    },
}

/// The sessions of one store: the source of ids, the idle ones with the front first, the ids that are
/// lent, all ids that were drawn, and the history.
pub struct StoreState<I> {
    ids: I,
    idle: VecDeque<IdleSession>,
    lent: Vec<[u8; 16]>,
    drawn: Vec<[u8; 16]>,
    history: Vec<StoreEvent>,
}

impl<I: Drop> Drop for StoreState<I> {
    fn drop(self) {
        let StoreState {
            ids,
            idle,
            lent,
            drawn,
            history,
        } = self;
        drop(ids);
        drop(idle);
        drop(lent);
        drop(drawn);
        drop(history);
    }
}

impl<I> Model for StoreState<I> {
    ghost use Rattle.std.specs.Prelude.{◌+◌, ◌≤◌, vec_len, vec_capacity};
    ghost use Rattle.std.specs.VecDeque.{deque_len, deque_capacity};
    ghost use Rattle.driver_session.specs.Pool.{StorePool};

    ghost Value = { StorePool I };

    ghost view = { λ state. record {
      ids = state.ids;
      pool = record {
        idle = state.idle.items;
        lent = state.lent.items;
        drawn = state.drawn.items;
        history =
            state.history.items;
      };
    } };

    ghost invariant = { λ state. (deque_len state.idle + vec_len state.lent ≤ deque_capacity state.idle) ×
        (vec_len state.history + vec_len state.lent ≤ vec_capacity state.history) };
}

impl<I: IdSource> StoreState<I> {
    /// An unused pool over a source of ids. It takes no memory.
    pub fn new(alloc: Global, ids: I) -> StoreState<I>
        ensures { result ≡ record { ids = ids; pool = empty_pool } }
    {
        StoreState {
            ids,
            idle: VecDeque::new(alloc),
            lent: Vec::new(alloc),
            drawn: Vec::new(alloc),
            history: Vec::new(alloc),
        }
    }

    /// Lends the front idle session, else a new one. It makes the room that taking back all lent
    /// sessions needs, before anything changes. It answers want of memory alone.
    #[tactic(auto, unfolding(crate::specs::Pool::lent_out))]
    pub fn check_out(&mut self, caller: u32, now_ms: u64) -> Result<ServerSession>
        ensures session { IfOk result
            (λ session. session ≡ session_out self.old.pool.idle (I.to_come self.old.ids [] Session) now_ms) }
        ensures pool { OnOk result
            (self.new.pool ≡ lent_out caller (I.to_come self.old.ids [] Session) now_ms self.old.pool) }
        ensures ids { OnOk result
            (I.to_come self.new.ids ≡ ids_after (draws self.old.pool.idle) (I.to_come self.old.ids)) }
        ensures err { OnErr result (self.new ≡ self.old) }
        ensures memory { IfErr result (λ error. IsAlone Memory no_labels error) }
    {
        make_room(
            &mut self.idle,
            &mut self.lent,
            &mut self.drawn,
            &mut self.history,
        )?;
        let next = next_session(&mut self.ids, &mut self.idle, &mut self.drawn, now_ms);
        let IdleSession {
            id,
            number,
            last_use,
        } = next.session;
        self.lent.push_reserved(id);
        self.history.push_reserved(StoreEvent::Lent {
            caller,
            id,
            drawn: next.drawn,
            now: now_ms,
        });
        Ok(ServerSession::lent(id, number, last_use))
    }

    /// Takes a lent session back: it is idle from then on, at the front, unless it is dirty. A session
    /// that is not lent is dropped and changes nothing. It takes no memory.
    #[tactic(auto, unfolding(crate::specs::Pool::taken_back))]
    pub fn check_in(&mut self, caller: u32, session: ServerSession, now_ms: u64)
        ensures pool { self.new.pool ≡ taken_back caller session now_ms self.old.pool }
        ensures ids { I.to_come self.new.ids ≡ I.to_come self.old.ids }
    {
        let (id, number, last_use, dirty) = session.into_parts();
        let Some(at) = place_of(self.lent.as_slice(), &id) else {
            return;
        };
        let _id = self.lent.remove(at);
        if !dirty {
            self.idle.push_front_reserved(IdleSession {
                id,
                number,
                last_use,
            });
        }
        self.history.push_reserved(StoreEvent::Back {
            caller,
            id,
            number,
            last_use,
            dirty,
            now: now_ms,
        });
    }

    /// A new object id. It takes no memory.
    pub fn object_id(&mut self) -> ObjectId
        ensures id { result.bytes ≡ I.to_come self.old.ids [] Object }
        ensures pool { self.new.pool ≡ self.old.pool }
        ensures ids { I.to_come self.new.ids ≡ after_draw Object (I.to_come self.old.ids) }
    {
        ObjectId {
            bytes: self.ids.object_id(),
        }
    }
}

impl<I> StoreState<I> {
    /// The events, the oldest first.
    pub fn history(&self) -> &[StoreEvent]
        ensures { result.now ≡ self.now.pool.history }
    {
        self.history.as_slice()
    }

    /// All ids that were drawn, the oldest first.
    pub fn drawn_ids(&self) -> &[[u8; 16]]
        ensures { result.now ≡ self.now.pool.drawn }
    {
        self.drawn.as_slice()
    }
}

/// Makes room for one more check-out and for taking back all that is lent then.
fn make_room(
    idle: &mut VecDeque<IdleSession>,
    lent: &mut Vec<[u8; 16]>,
    drawn: &mut Vec<[u8; 16]>,
    history: &mut Vec<StoreEvent>,
) -> std::result::Result<(), AllocError>
    ensures idle { (idle.new.items ≡ idle.old.items) × (deque_len idle.new ≡ deque_len idle.old) }
    ensures lent { (lent.new.items ≡ lent.old.items) × (vec_len lent.new ≡ vec_len lent.old) }
    ensures drawn { drawn.new.items ≡ drawn.old.items }
    ensures history { (history.new.items ≡ history.old.items) × (vec_len history.new ≡ vec_len history.old) }
    ensures kept { (deque_capacity idle.old ≤ deque_capacity idle.new) ×
        (vec_capacity history.old ≤ vec_capacity history.new) }
    ensures idle_room { OnOk result (deque_len idle.new + (vec_len lent.new + 1) ≤ deque_capacity idle.new) }
    ensures lent_room { OnOk result (vec_len lent.new < vec_capacity lent.new) }
    ensures drawn_room { OnOk result (vec_len drawn.new < vec_capacity drawn.new) }
    ensures history_room { OnOk result
        (vec_len history.new + (vec_len lent.new + 2) ≤ vec_capacity history.new) }
{
    lent.reserve(1)?;
    drawn.reserve(1)?;
    idle.reserve(lent.len() + 1)?;
    history.reserve(lent.len() + 2)
}

/// A session that is about to be lent, and whether its id was drawn for it.
#[derive(Drop)]
struct NextSession {
    session: IdleSession,
    drawn: bool,
}

/// The front idle session, else one with a new id.
fn next_session<I: IdSource>(
    ids: &mut I,
    idle: &mut VecDeque<IdleSession>,
    drawn: &mut Vec<[u8; 16]>,
    now_ms: u64,
) -> NextSession
    requires { vec_len drawn.old < vec_capacity drawn.old }
    ensures session { IsNext (session_out idle.old.items (I.to_come ids.old [] Session) now_ms)
        result.session }
    ensures drew { result.drawn ≡ draws idle.old.items }
    ensures idle { idle.new.items ≡ idle_out idle.old.items }
    ensures room { (deque_len idle.new ≤ deque_len idle.old) ×
        (deque_capacity idle.new ≡ deque_capacity idle.old) }
    ensures drawn { drawn.new.items ≡ drawn.old.items ++
        (if draws idle.old.items then I.to_come ids.old [] Session ∷ [] else []) }
    ensures ids { I.to_come ids.new ≡ ids_after (draws idle.old.items) (I.to_come ids.old) }
{
    match idle.pop_front() {
        Some(session) => NextSession {
            session,
            drawn: false,
        },
        None => {
            let id = ids.session_id();
            drawn.push_reserved(id);
            NextSession {
                session: IdleSession {
                    id,
                    number: 0,
                    last_use: now_ms,
                },
                drawn: true,
            }
        }
    }
}

/// The first place of an id among the lent ones.
fn place_of(lent: &[[u8; 16]], id: &[u8; 16]) -> Option<usize>
    ensures { FindsLent id.now lent.now result }
{
    for (at, other) in lent.iter().enumerate() {
        if other == id {
            return Some(at);
        }
    }
    None
}

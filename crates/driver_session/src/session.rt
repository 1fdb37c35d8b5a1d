//! A server session while it is lent. It has to be given back: it can't be dropped.
ghost use Rattle.std.specs.Prelude.{◌≡◌, pos, false, true};
ghost use Rattle.std.specs.Prelude.{◌≤ℤ◌};
ghost use Rattle.driver_session.specs.Session.{Numbers};

use bson_lite::Text;
use driver_error::{Error, ErrorKind, Result};
use std::alloc::Global;
use std::marker::Model;

/// Why a session gives no further number.
pub const NUMBER_AT_ITS_END: &str = "transaction number is at its end";

/// The id of a session on the server, its last use, its transaction number, and whether the network
/// failed under it. It is neither copied nor dropped.
pub struct ServerSession {
    id: [u8; 16],
    number: i64,
    last_use: u64,
    dirty: bool,
}

impl Model for ServerSession {
    ghost use Rattle.driver_session.specs.Session.{Session};

    ghost Value = { Session };

    ghost view = { λ session. record
        { id = session.id; number = session.number; last_use = session.last_use; dirty = session.dirty } };
}

impl ServerSession {
    /// A session whose last number is chosen, for tests.
    pub fn with_number(id: [u8; 16], now_ms: u64, number: i64) -> ServerSession
        requires { pos 0 ≤ℤ number }
        ensures { result ≡ record { id = id; number = number; last_use = now_ms; dirty = false } }
    {
        ServerSession::lent(id, number, now_ms)
    }

    /// A session as it is lent.
    pub(crate) fn lent(id: [u8; 16], number: i64, last_use: u64) -> ServerSession
        ensures { result ≡ record { id = id; number = number; last_use = last_use; dirty = false } }
    {
        ServerSession {
            id,
            number,
            last_use,
            dirty: false,
        }
    }

    /// The parts of the session, which ends here: its id, its number, its last use, whether it is dirty.
    pub(crate) fn into_parts(self) -> ([u8; 16], i64, u64, bool)
        ensures { self ≡ record { id = result.0; number = result.1; last_use = result.2; dirty = result.3 } }
    {
        let ServerSession {
            id,
            number,
            last_use,
            dirty,
        } = self;
        (id, number, last_use, dirty)
    }

    /// The bytes of the session's id.
    pub fn id(&self) -> &[u8; 16]
        ensures { result.now ≡ self.now.id }
    {
        &self.id
    }

    /// The network failed under this session, so it is not to be lent again.
    pub fn mark_dirty(&mut self)
        ensures { self.new ≡ record self.old { dirty = true } }
    {
        self.dirty = true;
    }

    /// The next transaction number, which is the session's from then on.
    #[tactic(auto, unfolding(crate::specs::Session::number_at_its_end))]
    pub fn next_number(&mut self, alloc: Global) -> Result<i64>
        ensures { Numbers self.old self.new result }
    {
        if self.number == i64::MAX {
            let message = Text::from_str(alloc, NUMBER_AT_ITS_END)?;
            return Err(Error::from_kind(ErrorKind::Internal { message }));
        }
        self.number += 1;
        Ok(self.number)
    }
}

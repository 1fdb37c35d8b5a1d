//! A caller of `driver_session`: a session with the number of its next write.
ghost use Rattle.std.specs.Prelude.{IfOk, OnErr};
ghost use Rattle.callers.specs.Sessions.{LendsNumbered};
ghost use Rattle.driver_session.specs.StoreTells.{LendsAsBefore};

use driver_error::Result;
use driver_session::{ServerSession, SessionStore};
use std::alloc::Global;

/// Lends a session and draws the number of its next write, which the session then has. After an error each session
/// is lent as often as before.
#[tactic(auto, using(driver_session::proofs::LentSessions::lends_staying, driver_session::proofs::LentSessions::lends_turning))]
pub fn session_for_write<S: SessionStore>(
    alloc: Global,
    store: &mut S,
    now_ms: u64,
) -> Result<(ServerSession, i64)>
    ensures ok { IfOk result
        (λ lent. LendsNumbered (S.tells store.old) (S.tells store.new) now_ms lent.0 lent.1) }
    ensures err { OnErr result (LendsAsBefore (S.tells store.old) (S.tells store.new)) }
{
    let mut session = store.check_out(alloc, now_ms)?;
    match session.next_number(alloc) {
        Ok(number) => Ok((session, number)),
        Err(error) => {
            store.check_in(session, now_ms);
            Err(error)
        }
    }
}

//! Where sessions are lent from.
ghost use Rattle.std.specs.Prelude.{◌≡◌, IfErr, IfOk, OnErr};
ghost use Rattle.driver_error.specs.Error.{IsAlone};
ghost use Rattle.driver_error.specs.LabelTexts.{no_labels};
ghost use Rattle.driver_error.specs.declared.kind.ErrorKind.TheVariants.{Memory};
ghost use Rattle.driver_session.specs.StoreTells.{DrawsObjectId, LendsSession, StoreTells, TakesSession};

use crate::session::ServerSession;
use bson_lite::ObjectId;
use driver_error::Result;
use std::alloc::Global;

/// Lends server sessions and takes them back. Moments are in milliseconds.
pub trait SessionStore {
    // All that it tells.
    ghost tells: { Self → StoreTells };

    /// A session: the front idle one, else a new one. It answers want of memory alone.
    fn check_out(&mut self, alloc: Global, now_ms: u64) -> Result<ServerSession>
        ensures lends { IfOk result
            (λ session. LendsSession (tells self.old) (tells self.new) now_ms session) }
        ensures err { OnErr result (tells self.new ≡ tells self.old) }
        ensures memory { IfErr result (λ error. IsAlone Memory no_labels error) };

    /// Takes a session back. It takes no memory, since the check-out made room. A session that this
    /// store has not lent is dropped and changes nothing.
    fn check_in(&mut self, session: ServerSession, now_ms: u64)
        ensures { TakesSession (tells self.old) (tells self.new) session now_ms };

    /// A new object id. It takes no memory.
    fn object_id(&mut self) -> ObjectId
        ensures { DrawsObjectId (tells self.old) (tells self.new) result.bytes };
}

//! A client: its options and its store of sessions.
ghost use Rattle.std.specs.Prelude.{◌≡◌, IfErr, IfOk, OnErr};
ghost use Rattle.driver_error.specs.Error.{IsAlone};
ghost use Rattle.driver_error.specs.LabelTexts.{no_labels};
ghost use Rattle.driver_error.specs.declared.kind.ErrorKind.TheVariants.{Memory};
ghost use Rattle.driver_session.specs.StoreTells.{DrawsObjectId, LendsSession, TakesSession};
ghost use Rattle.driver_attempt.specs.Client.{options_of, store_of};

use bson_lite::ObjectId;
use driver_error::Result;
use driver_options::ClientOptions;
use driver_session::{ServerSession, SessionStore};
use std::alloc::Global;

/// A client over a store of sessions.
pub struct Client<S> {
    options: ClientOptions,
    store: S,
}

impl<S: Drop> Drop for Client<S> {
    fn drop(self) {
        let Client { options, store } = self;
        drop(options);
        drop(store);
    }
}

impl<S> Client<S> {
    /// A new client. It takes no memory.
    pub fn new(options: ClientOptions, store: S) -> Client<S>
        ensures options { options_of result ≡ options }
        ensures store { store_of result ≡ store }
    {
        Client { options, store }
    }

    pub fn options(&self) -> &ClientOptions
        ensures { result.now ≡ options_of self.now }
    {
        &self.options
    }

    pub fn store(&self) -> &S
        ensures { result.now ≡ store_of self.now }
    {
        &self.store
    }
}

impl<S: Drop> Client<S> {
    /// The store, moved out.
    pub fn into_store(self) -> S
        ensures { result ≡ store_of self }
    {
        let Client { options, store } = self;
        drop(options);
        store
    }
}

impl<S: SessionStore> Client<S> {
    /// Lends a session of the store: the front idle one, else a new one. It answers want of memory alone.
    pub fn lend(&mut self, alloc: Global, now_ms: u64) -> Result<ServerSession>
        ensures lends { IfOk result (λ session.
            LendsSession (S.tells (store_of self.old)) (S.tells (store_of self.new)) now_ms session) }
        ensures err { OnErr result (S.tells (store_of self.new) ≡ S.tells (store_of self.old)) }
        ensures memory { IfErr result (λ error. IsAlone Memory no_labels error) }
        ensures options { options_of self.new ≡ options_of self.old }
    {
        self.store.check_out(alloc, now_ms)
    }

    /// Gives a session back to the store. It takes no memory.
    pub fn give_back(&mut self, session: ServerSession, now_ms: u64)
        ensures takes { TakesSession (S.tells (store_of self.old)) (S.tells (store_of self.new)) session
            now_ms }
        ensures options { options_of self.new ≡ options_of self.old }
    {
        self.store.check_in(session, now_ms);
    }

    /// A new object id. It takes no memory.
    pub fn object_id(&mut self) -> ObjectId
        ensures draws { DrawsObjectId (S.tells (store_of self.old)) (S.tells (store_of self.new))
            result.bytes }
        ensures options { options_of self.new ≡ options_of self.old }
    {
        self.store.object_id()
    }
}

//! Server sessions, the pool that lends them, and stores of one caller.
#![tactic(auto)]

mod plain;
mod pool;
mod retryability;
mod session;
mod store;

pub use plain::PlainStore;
pub use pool::{IdleSession, StoreEvent, StoreState};
pub use retryability::Retryability;
pub use session::{NUMBER_AT_ITS_END, ServerSession};
pub use store::SessionStore;

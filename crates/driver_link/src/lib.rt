//! What stands between the driver and the outside: the traits of link, clock, ids, input and output,
//! and the model server's machine, over which every promise about a run is stated.
#![tactic(auto)]

pub mod by_id;
pub mod clock;
pub mod command;
mod copy;
pub mod frame;
pub mod ids;
pub mod link;
pub mod machine;
pub mod shared;
pub mod stream;

pub use by_id::ById;
pub use clock::Clock;
pub use command::{CommandName, command_named};
pub use frame::{Documents, Frame, Sequence};
pub use ids::{IdKind, IdSource};
pub use link::Link;
pub use link_faults::{Answered, LinkCall, LinkError, LinkFault};
pub use machine::{
    Counted, Entry, Failing, Item, KnownSession, Place, PlacedWrite, Planned, PlannedConcern,
    Schedule, Scheduled, Send, SendBody, SendCommand, Server, ServerTransaction, Setup, Statement,
    WriteKind, Written,
};
pub use shared::Shared;
pub use stream::{Failed, Sink, Source};

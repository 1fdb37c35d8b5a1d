//! Versions in memory of what stands between the driver and the outside: a link whose answers are chosen, a clock, ids
//! that count, input and output. They serve tests and runs that are to repeat exactly.
#![tactic(auto)]

pub mod counting_ids;
pub mod fake_link;
pub mod laws;
pub mod mem_clock;
pub mod mem_stream;

pub use counting_ids::{CountingIds, counting_ids_differ};
pub use fake_link::{FakeLink, FakeStep, NotedConn};
pub use mem_clock::MemClock;
pub use mem_stream::{MemSink, MemSource};

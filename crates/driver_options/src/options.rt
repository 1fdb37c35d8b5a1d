//! Options, addresses and connections, as plain data.
use crate::concerns::{ReadConcern, WriteConcern};
use bson_lite::{List, Text, TryClone};
use std::alloc::{AllocError, Global};

/// Where a server listens.
#[derive(Debug, Drop)]
pub struct Address {
    pub host: Text,
    pub port: u16,
}

impl TryClone for Address {
    fn try_clone(&self, alloc: Global) -> Result<Address, AllocError> {
        Ok(Address {
            host: self.host.try_clone(alloc)?,
            port: self.port,
        })
    }
}

/// Which servers may serve an operation.
#[derive(Clone, Copy, Debug, PartialEq, Eq)]
pub enum ReadPreference {
    Primary,
    PrimaryPreferred,
    Secondary,
    SecondaryPreferred,
    Nearest,
}

/// How a server is chosen.
#[derive(Debug, Drop)]
pub enum SelectionCriteria {
    ReadPreference(ReadPreference),
    Address(Address),
}

impl TryClone for SelectionCriteria {
    fn try_clone(&self, alloc: Global) -> Result<SelectionCriteria, AllocError> {
        Ok(match self {
            SelectionCriteria::ReadPreference(preference) => {
                SelectionCriteria::ReadPreference(*preference)
            }
            SelectionCriteria::Address(address) => {
                SelectionCriteria::Address(address.try_clone(alloc)?)
            }
        })
    }
}

/// What a selection asked for: criteria, and servers to be avoided where others are there.
#[derive(Debug, Drop)]
pub struct Asked {
    pub criteria: Option<SelectionCriteria>,
    pub deprioritized: List<Address>,
}

/// What a client is made with.
#[derive(Debug, Default, Drop)]
pub struct ClientOptions {
    /// Tells clients apart: a session belongs to the client of its number.
    pub client_number: u64,
    /// Whether writes of one document each may be sent again after a failure, which they may where this is not set.
    pub retry_writes: Option<bool>,
    /// The read concern of operations that have none of their own.
    pub read_concern: Option<ReadConcern>,
    /// The write concern of writes that have none of their own.
    pub write_concern: Option<WriteConcern>,
}

impl TryClone for ClientOptions {
    fn try_clone(&self, alloc: Global) -> Result<ClientOptions, AllocError> {
        Ok(ClientOptions {
            client_number: self.client_number,
            retry_writes: self.retry_writes,
            read_concern: self.read_concern.try_clone(alloc)?,
            write_concern: self.write_concern.try_clone(alloc)?,
        })
    }
}

/// What a connection's server said of itself. Sizes are in bytes.
#[derive(Clone, Copy, Debug, PartialEq, Eq)]
pub struct Description {
    pub max_wire_version: Option<i32>,
    pub max_bson_object_size: i64,
    pub max_message_size_bytes: i64,
    pub max_write_batch_size: i64,
    pub supports_sessions: bool,
    pub supports_retryable_writes: bool,
    pub sharded: bool,
}

/// A connection that was checked out. It is handed back by value, and can't be let go.
#[derive(Debug)]
pub struct Conn {
    pub address: Address,
    pub description: Description,
    pub number: u64,
}

//! How a call of a link can fail, and what a link tells of its answers.
ghost use Rattle.std.specs.Prelude.{◌≡◌};
ghost use Rattle.link_faults.specs.Failures.{fault_kind, is_network};

use bson_lite::{Bytes, List, Text, TryClone};
use driver_error::{Error, ErrorKind, IoKind};
use std::alloc::{AllocError, Global};

/// What went wrong outside.
#[derive(Debug, Drop)]
pub enum LinkFault {
    Io(IoKind),
    /// The connections to a server were given up.
    PoolCleared(Text),
    /// No server was found.
    Selection(Text),
    Authentication(Text),
}

impl LinkFault {
    /// Whether the network failed, or the connections to a server were given up.
    pub fn is_network(&self) -> bool
        ensures { result ≡ is_network self.now }
    {
        matches!(self, LinkFault::Io(_) | LinkFault::PoolCleared(_))
    }
}

impl TryClone for LinkFault {
    fn try_clone(&self, alloc: Global) -> Result<LinkFault, AllocError> {
        Ok(match self {
            LinkFault::Io(kind) => LinkFault::Io(*kind),
            LinkFault::PoolCleared(message) => LinkFault::PoolCleared(message.try_clone(alloc)?),
            LinkFault::Selection(message) => LinkFault::Selection(message.try_clone(alloc)?),
            LinkFault::Authentication(message) => {
                LinkFault::Authentication(message.try_clone(alloc)?)
            }
        })
    }
}

/// Why a call of a link gave no answer.
#[derive(Debug, Drop)]
pub enum LinkError {
    Fault {
        fault: LinkFault,
        labels: List<Text>,
    },
    Memory,
}

impl From<AllocError> for LinkError {
    ghost use Rattle.std.specs.Prelude.{◌≡◌};
    ghost use Rattle.link_faults.specs.declared.fault.LinkError.TheVariants.{Memory};

    ghost from_gives = { λ _ error. error ≡ Memory };

    fn from(_refused: AllocError) -> LinkError {
        LinkError::Memory
    }
}

/// The kind of the fault, with the labels that came with it and nothing else. Where their list's
/// allocator finds no memory for them it is an error of kind Memory alone.
impl From<LinkError> for Error {
    ghost use Rattle.link_faults.specs.Failures.{BecomesError};

    ghost from_gives = { BecomesError };

    fn from(failure: LinkError) -> Error {
        match failure {
            LinkError::Fault { fault, labels } => {
                Error::new(labels.allocator(), fault_kind(fault), labels.as_slice())
            }
            LinkError::Memory => Error::from_kind(ErrorKind::Memory),
        }
    }
}

/// The kind of the error of a fault.
fn fault_kind(fault: LinkFault) -> ErrorKind
    ensures { result ≡ fault_kind fault }
{
    match fault {
        LinkFault::Io(kind) => ErrorKind::Io(kind),
        LinkFault::PoolCleared(message) => ErrorKind::ConnectionPoolCleared { message },
        LinkFault::Selection(message) => ErrorKind::ServerSelection { message },
        LinkFault::Authentication(message) => ErrorKind::Authentication { message },
    }
}

/// Which call of a link answered a fault.
#[derive(Clone, Copy, Debug, PartialEq, Eq)]
pub enum LinkCall {
    Select,
    Support,
    CheckOut,
    Exchange,
    Reauthenticate,
}

/// One answer of a link: the reply to an exchange, or the fault of a call.
#[derive(Debug, Drop)]
pub enum Answered {
    Reply(Bytes),
    Fault {
        call: LinkCall,
        fault: LinkFault,
        labels: List<Text>,
    },
}

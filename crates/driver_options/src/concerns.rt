//! What an operation asks of a server beside its command: which servers acknowledge a write, and which data a
//! read may see.
ghost use Rattle.std.specs.Prelude.{◌≡◌};
ghost use Rattle.driver_options.specs.Concerns.{is_acknowledged, is_valid, may_name, waits_for_journal};

use bson_lite::{Text, TryClone};
use std::alloc::{AllocError, Global};

/// The greatest number of servers that a command can name.
const MOST_NODES: u32 = 2_147_483_647;

/// Which servers acknowledge a write.
#[derive(Debug, Drop)]
pub enum Acknowledgment {
    /// So many servers; nobody at 0.
    Nodes(u32),
    /// Most of those that hold data.
    Majority,
    /// Those that a server's configuration lists under this name.
    Custom(Text),
}

impl TryClone for Acknowledgment {
    fn try_clone(&self, alloc: Global) -> Result<Acknowledgment, AllocError> {
        Ok(match self {
            Acknowledgment::Nodes(nodes) => Acknowledgment::Nodes(*nodes),
            Acknowledgment::Majority => Acknowledgment::Majority,
            Acknowledgment::Custom(name) => Acknowledgment::Custom(name.try_clone(alloc)?),
        })
    }
}

/// How a write is acknowledged. One without a field is a concern too, and leaves all to the server.
#[derive(Debug, Drop)]
pub struct WriteConcern {
    /// Which servers acknowledge the write.
    pub w: Option<Acknowledgment>,
    /// How many milliseconds the server waits for them.
    pub w_timeout: Option<u32>,
    /// Whether the write is acknowledged only once it stands in the servers' journals.
    pub journal: Option<bool>,
}

impl WriteConcern {
    /// Whether the server answers what became of the write.
    pub fn is_acknowledged(&self) -> bool
        ensures { result ≡ is_acknowledged self.now }
    {
        match self.w {
            Some(Acknowledgment::Nodes(0)) => false,
            _ => true,
        }
    }

    /// Whether a server could meet it: a command can name the number of servers, and a write that nobody
    /// acknowledges waits for no journal.
    pub fn validate(&self) -> bool
        ensures { result ≡ is_valid self.now }
    {
        may_name(&self.w) && (self.is_acknowledged() || !waits_for_journal(self.journal))
    }
}

/// Whether a command can name the number of servers.
fn may_name(w: &Option<Acknowledgment>) -> bool
    ensures { result ≡ may_name w.now }
{
    match w {
        Some(Acknowledgment::Nodes(nodes)) => *nodes <= MOST_NODES,
        _ => true,
    }
}

/// Whether the journal is waited for.
fn waits_for_journal(journal: Option<bool>) -> bool
    ensures { result ≡ waits_for_journal journal }
{
    match journal {
        Some(true) => true,
        _ => false,
    }
}

impl TryClone for WriteConcern {
    fn try_clone(&self, alloc: Global) -> Result<WriteConcern, AllocError> {
        let w = match &self.w {
            None => None,
            Some(acknowledgment) => Some(acknowledgment.try_clone(alloc)?),
        };
        Ok(WriteConcern {
            w,
            w_timeout: self.w_timeout,
            journal: self.journal,
        })
    }
}

/// Which data a read may see.
#[derive(Debug, Drop)]
pub enum ReadConcernLevel {
    /// What the server has.
    Local,
    /// What most servers have acknowledged.
    Majority,
    /// What stands once every write that was acknowledged before has taken effect.
    Linearizable,
    /// What the server has, orphans included.
    Available,
    /// What most servers had at one moment.
    Snapshot,
    /// A level of this name.
    Custom(Text),
}

impl TryClone for ReadConcernLevel {
    fn try_clone(&self, alloc: Global) -> Result<ReadConcernLevel, AllocError> {
        Ok(match self {
            ReadConcernLevel::Local => ReadConcernLevel::Local,
            ReadConcernLevel::Majority => ReadConcernLevel::Majority,
            ReadConcernLevel::Linearizable => ReadConcernLevel::Linearizable,
            ReadConcernLevel::Available => ReadConcernLevel::Available,
            ReadConcernLevel::Snapshot => ReadConcernLevel::Snapshot,
            ReadConcernLevel::Custom(name) => ReadConcernLevel::Custom(name.try_clone(alloc)?),
        })
    }
}

/// Which data a read may see.
#[derive(Debug, Drop)]
pub struct ReadConcern {
    pub level: ReadConcernLevel,
}

impl TryClone for ReadConcern {
    fn try_clone(&self, alloc: Global) -> Result<ReadConcern, AllocError> {
        Ok(ReadConcern {
            level: self.level.try_clone(alloc)?,
        })
    }
}

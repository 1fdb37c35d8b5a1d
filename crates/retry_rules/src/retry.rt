//! Whether an operation that failed is tried again, and which of its failures is kept.
ghost use Rattle.std.specs.Prelude.{◌≡◌, [], nat_lt, IfOk, OnOk};
ghost use Rattle.std.specs.List.{list_any};
ghost use Rattle.driver_options.specs.declared.options.Address.{Address as Server};
ghost use Rattle.retry_rules.specs.Retry.{Decides, decide, after, avoiding, is_server, with_server, after_further, number_kept};
ghost use Rattle.retry_rules.specs.inside.Retry.{failure_at};
ghost use Rattle.retry_rules.specs.declared.failure.FailurePhase.TheVariants.{ConnectionEstablishment, Execution};

use crate::failure::{Failure, FailurePhase, failure_kept, may_be_retried, reworded_failure};
use bson_lite::{List, TryClone};
use driver_error::{Error, Result};
use driver_ops::Operation;
use driver_options::{Address, ClientOptions};
use driver_session::Retryability;
use std::alloc::{AllocError, Global};
use std::marker::Model;

/// How many retries an operation has.
pub const RETRY_LIMIT: u32 = 1;

/// What an operation keeps from its failed attempts: the number of the next retry, how many there may be,
/// the failure that is answered where they end, the first transaction number, and the servers to be avoided.
#[derive(Drop)]
pub struct Retry {
    attempt: u32,
    limit: u32,
    failure: Failure,
    number: Option<i64>,
    deprioritized: List<Address>,
}

impl Model for Retry {
    ghost use Rattle.std.specs.Coded.{codes};
    ghost use Rattle.driver_error.specs.contracts.error.Error as error_contract;
    ghost use Rattle.retry_rules.specs.Retry.{RetryState};

    ghost Value = { RetryState };

    ghost coded = { Prim.hlevel (codes, error_contract.the_row.coded) };

    ghost view = { λ retry. record {
      attempt = retry.attempt;
      limit = retry.limit;
      failure = retry.failure;
      number = retry.number;
      deprioritized = retry.deprioritized;
    } };
}

impl Retry {
    /// The next retry after a failure to get a connection. Where there is none it answers the failure that
    /// is kept, or want of memory. The operation and the options count for failures that tell of overload,
    /// which are not told apart yet.
    pub fn for_connection_establishment_failure<O: Operation>(
        alloc: Global,
        kept: Option<Retry>,
        failure: Error,
        number: Option<i64>,
        address: &Address,
        _op: &O,
        retryability: Retryability,
        _options: &ClientOptions,
        sharded: bool,
    ) -> Result<Retry>
        ensures { Decides
            (decide kept (record {
              error = failure;
              phase = ConnectionEstablishment;
              address = address.now;
              number = number;
            }) retryability sharded) result }
    {
        let failure = Failure {
            error: failure,
            phase: FailurePhase::ConnectionEstablishment,
        };
        after_failure(alloc, kept, failure, number, address, retryability, sharded)
    }

    /// The next retry after a failure of a command on its connection. Where there is none it answers the
    /// failure that is kept, or want of memory. The operation and the options count for failures that tell of
    /// overload, which are not told apart yet.
    pub fn for_execution_failure<O: Operation>(
        alloc: Global,
        kept: Option<Retry>,
        failure: Error,
        number: Option<i64>,
        address: &Address,
        _op: &O,
        retryability: Retryability,
        _options: &ClientOptions,
        sharded: bool,
    ) -> Result<Retry>
        ensures { Decides
            (decide kept (record {
              error = failure;
              phase = Execution;
              address = address.now;
              number = number;
            }) retryability sharded) result }
    {
        let failure = Failure {
            error: failure,
            phase: FailurePhase::Execution,
        };
        after_failure(alloc, kept, failure, number, address, retryability, sharded)
    }

    /// Whether there were so many failures that no further retry is made.
    pub fn max_retries_reached(&self) -> bool
        ensures { result ≡ nat_lt self.now.limit self.now.attempt }
    {
        self.attempt > self.limit
    }

    /// The error of the failure that is kept.
    pub fn last_error(self) -> Error
        ensures { result ≡ self.failure.error }
    {
        self.failure.error
    }

    /// The first transaction number, where one was drawn.
    pub fn first_number(&self) -> Option<i64>
        ensures { result ≡ self.now.number }
    {
        self.number
    }

    /// The servers that the next selection avoids where others are there.
    pub fn deprioritized(&self) -> &[Address]
        ensures { result.now ≡ self.now.deprioritized }
    {
        self.deprioritized.as_slice()
    }

    /// What is kept of the first failure.
    fn first(alloc: Global, failure: Failure, number: Option<i64>) -> Retry
        ensures { result ≡ record {
          attempt = 1;
          limit = 1;
          failure = failure;
          number = number;
          deprioritized = [];
        } }
    {
        Retry {
            attempt: 1,
            limit: RETRY_LIMIT,
            failure,
            number,
            deprioritized: List::new(alloc),
        }
    }

    /// What is kept after one more failure. The count of attempts stands still at its end.
    #[tactic(auto, unfolding(crate::specs::Retry::after_further))]
    fn further(self, failure: Failure, number: Option<i64>) -> Retry
        ensures { (address : Server) → result ≡ after_further self (failure_at failure number address) }
    {
        Retry {
            attempt: self.attempt.saturating_add(1),
            limit: self.limit,
            failure: failure_kept(self.failure, failure),
            number: number_kept(self.number, number),
            deprioritized: self.deprioritized,
        }
    }
}

/// The next retry after a failure, else the failure that is kept.
#[tactic(auto, unfolding(crate::specs::Retry::decide))]
fn after_failure(
    alloc: Global,
    kept: Option<Retry>,
    failure: Failure,
    number: Option<i64>,
    address: &Address,
    retryability: Retryability,
    sharded: bool,
) -> Result<Retry>
    ensures { Decides
        (decide kept (failure_at failure number address.now) retryability sharded) result }
{
    let failure = match reworded_failure(alloc, failure) {
        Ok(failure) => failure,
        Err(refused) => {
            drop(kept);
            return Err(Error::from(refused));
        }
    };
    let is_retried = may_be_retried(&failure, number, retryability);
    let retry = after(alloc, kept, failure, number);
    if is_retried {
        Ok(avoiding(alloc, retry, address, sharded)?)
    } else {
        Err(retry.last_error())
    }
}

/// What is kept after a failure.
#[tactic(auto, unfolding(crate::specs::Retry::after))]
fn after(alloc: Global, kept: Option<Retry>, failure: Failure, number: Option<i64>) -> Retry
    ensures { (address : Server) → result ≡ after kept (failure_at failure number address) }
{
    match kept {
        None => Retry::first(alloc, failure, number),
        Some(kept) => kept.further(failure, number),
    }
}

/// The same with the server that failed among those to be avoided, on a sharded link.
#[tactic(auto, unfolding(crate::specs::Retry::avoiding))]
fn avoiding(
    alloc: Global,
    retry: Retry,
    address: &Address,
    sharded: bool,
) -> std::result::Result<Retry, AllocError>
    ensures { IfOk result (λ now. now ≡ avoiding sharded address.now retry) }
{
    if !sharded {
        return Ok(retry);
    }
    let Retry {
        attempt,
        limit,
        failure,
        number,
        mut deprioritized,
    } = retry;
    match add_server(alloc, &mut deprioritized, address) {
        Ok(()) => Ok(Retry {
            attempt,
            limit,
            failure,
            number,
            deprioritized,
        }),
        Err(refused) => {
            drop(failure);
            drop(deprioritized);
            Err(refused)
        }
    }
}

/// The first number that was drawn.
fn number_kept(kept: Option<i64>, new: Option<i64>) -> Option<i64>
    ensures { result ≡ number_kept kept new }
{
    match kept {
        None => new,
        Some(number) => Some(number),
    }
}

fn is_server(server: &Address, address: &Address) -> bool
    ensures { result ≡ is_server address.now server.now }
{
    server.host.as_str() == address.host.as_str() && server.port == address.port
}

fn is_listed(servers: &[Address], address: &Address) -> bool
    ensures { result ≡ list_any (is_server address.now) servers.now }
{
    for server in servers {
        if is_server(server, address) {
            return true;
        }
    }
    false
}

/// Puts a server behind the others, once.
#[tactic(auto, unfolding(crate::specs::Retry::with_server))]
fn add_server(
    alloc: Global,
    servers: &mut List<Address>,
    address: &Address,
) -> std::result::Result<(), AllocError>
    ensures { OnOk result (servers.new ≡ with_server address.now servers.old) }
{
    if is_listed(servers.as_slice(), address) {
        return Ok(());
    }
    servers.push(Address {
        host: address.host.try_clone(alloc)?,
        port: address.port,
    })
}

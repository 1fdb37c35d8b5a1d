//! Laws of an operation, from how it is executed and from what its sends leave.
ghost use Rattle.std.specs.Prelude.{◌≡◌, ℕ, ◌+◌, ◌≤◌, Option, Result};
ghost use Rattle.driver_error.specs.declared.error.Error.{Error};
ghost use Rattle.driver_link.specs.declared.machine.SendBody.{SendBody};
ghost use Rattle.driver_session.specs.declared.retryability.Retryability.TheVariants.{None as Nothing};
ghost use Rattle.driver_ops.specs.Operations.{AsksFor, Batch};
ghost use Rattle.driver_ops.specs.SendKinds.{SendKind};
ghost use Rattle.driver_attempt.specs.Executing.{Executes};
ghost use Rattle.driver_attempt.specs.Moment.{DrawsInOrder, KeepsLent, Moment};
ghost use Rattle.driver_attempt.specs.Readings.{OnlyRead};
ghost use Rattle.driver_exec.specs.Keeping.{KeepsInvariant, OkHasEntries};
ghost use Rattle.driver_exec.specs.Reporting.{ErrIsReported, HasRun};
ghost use Rattle.driver_exec.specs.Resending.{SendsOneCommand};

use driver_ops::Operation;

/// An operation whose sends are one command keeps what stands between the operations of one client.
pub fn one_command_keeps_what_stands<O: Operation>()
    ensures { (op : O) (batch : Batch) (before now : Moment) (result : Result O.Output Error)
        (body : SendBody) → AsksFor (O.spec op) batch body →
        SendsOneCommand (O.spec op) batch before now result →
        KeepsInvariant (O.spec op).paged before now body }
{}

/// And where it is Ok each of its writes has its entry, and these entries tell the output.
pub fn one_command_has_its_entries<O: Operation>()
    ensures { (op : O) (batch : Batch) (before now : Moment) (result : Result O.Output Error)
        (body : SendBody) → AsksFor (O.spec op) batch body →
        SendsOneCommand (O.spec op) batch before now result →
        OkHasEntries (O.spec op) body before now result }
{}

/// And where it ended with a failure that only a reply spells, that was read in the model server's own reply to
/// its command, and the entries of the statements that did not fail stand.
pub fn one_command_has_its_failures<O: Operation>()
    ensures { (op : O) (batch : Batch) (before now : Moment) (result : Result O.Output Error)
        (body : SendBody) → AsksFor (O.spec op) batch body →
        SendsOneCommand (O.spec op) batch before now result →
        ErrIsReported (O.spec op) batch body before now result }
{}

/// An operation that was done, or that ended with such a failure, has built its command.
pub fn an_operation_that_ran_has_built<O: Operation>()
    ensures { (op : O) (batch : Batch) (which : SendKind) (before now : Moment) (count more : ℕ)
        (fixed later : Option ℕ) (result : Result O.Output Error) →
        Executes (O.spec op) batch which before now count more fixed later result →
        HasRun (O.spec op) which before fixed later result }
{}

/// An operation lends no session in the end: each is lent as often after it as before.
pub fn an_operation_keeps_what_is_lent<O: Operation>()
    ensures { (op : O) (batch : Batch) (which : SendKind) (before now : Moment) (count more : ℕ)
        (fixed later : Option ℕ) (result : Result O.Output Error) →
        Executes (O.spec op) batch which before now count more fixed later result →
        KeepsLent before now }
{}

/// The ids that it drew are the next of those that were to come, in order.
pub fn an_operation_draws_in_order<O: Operation>()
    ensures { (op : O) (batch : Batch) (which : SendKind) (before now : Moment) (count more : ℕ)
        (fixed later : Option ℕ) (result : Result O.Output Error) →
        Executes (O.spec op) batch which before now count more fixed later result →
        DrawsInOrder before now }
{}

/// Its command goes out twice at most.
pub fn an_operation_sends_twice_at_most<O: Operation>()
    ensures { (op : O) (batch : Batch) (which : SendKind) (before now : Moment) (count more : ℕ)
        (fixed later : Option ℕ) (result : Result O.Output Error) →
        Executes (O.spec op) batch which before now count more fixed later result →
        more ≤ count + 2 }
{}

/// And once at most where nothing of it may be repeated, however it failed: a write of all that a filter finds,
/// or a write of a client whose options forbid a retry.
pub fn an_operation_that_may_not_be_repeated_sends_once<O: Operation>()
    ensures { (op : O) (batch : Batch) (which : SendKind) (before now : Moment) (count more : ℕ)
        (fixed later : Option ℕ) (result : Result O.Output Error) →
        Executes (O.spec op) batch which before now count more fixed later result →
        (O.spec op).retryability before.client.options ≡ Nothing → more ≤ count + 1 }
{}

/// It only reads its clock.
pub fn an_operation_only_reads_the_clock<O: Operation>()
    ensures { (op : O) (batch : Batch) (which : SendKind) (before now : Moment) (count more : ℕ)
        (fixed later : Option ℕ) (result : Result O.Output Error) →
        Executes (O.spec op) batch which before now count more fixed later result →
        OnlyRead before.clock now.clock }
{}

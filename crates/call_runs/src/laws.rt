//! Laws: of one call and its times, of a run between two of its calls, and of one exchange.
ghost use Rattle.std.specs.Prelude.{◌++◌, ◌∷◌, ℕ, List, []};
ghost use Rattle.driver_link.specs.declared.machine.Scheduled.{Scheduled};
ghost use Rattle.driver_link.specs.declared.machine.Send.{Send};
ghost use Rattle.driver_link.specs.declared.machine.Server.{Server};
ghost use Rattle.driver_link.specs.Exchange.{after_picks, exchanged};
ghost use Rattle.driver_link.specs.Settled.{Has, IsOrderly, IsPlain, IsSettled, MayJoin};
ghost use Rattle.driver_attempt.specs.Moment.{Moment};
ghost use Rattle.call_runs.specs.CallByCall.{CallCaused, IsTimed};
ghost use Rattle.call_runs.specs.Standing.{RunInvariant, RunState};
ghost use Rattle.driver_inputs.specs.declared.call.Call.{Call};
ghost use Rattle.driver_inputs.specs.declared.call.Outcome.{Outcome};

/// Calls that are appended to the list change nothing of a run that stands.
#[tactic(auto, using(crate::proofs::StandingRuns::stands_appended))]
pub fn appended_calls_change_nothing()
    ensures { (run : RunState) (calls more : List Call) (now : Moment) →
        RunInvariant run calls now → RunInvariant run (calls ++ more) now }
{}

/// A call of a run is timed by the clock, which it only reads, and it draws no random word.
pub fn a_call_only_reads_the_clock()
    ensures { (number : ℕ) (before now : Moment) (call : Call) (outcome : Outcome) →
        CallCaused number before now call outcome → IsTimed before now outcome }
{}

/// A send under a number that went out may go out again, however often it did.
pub fn a_numbered_send_may_go_out_again()
    ensures { (trace : List Send) (send : Send) →
        Has trace send → IsPlain send → IsOrderly trace → MayJoin trace send }
{}

/// The exchange of a send that may go out keeps what the server makes of the sends, whatever the schedule
/// gives it.
pub fn an_exchange_keeps_the_invariant()
    ensures { (trace : List Send) (server : Server) (send : Send) (step : Scheduled) →
        MayJoin trace send → IsSettled trace server →
        IsSettled (trace ++ send ∷ []) (exchanged server send step) }
{}

/// Waiting sends that arrive keep it, whichever they are and in whatever order.
pub fn late_arrivals_keep_the_invariant()
    ensures { (trace : List Send) (server : Server) (picks : List ℕ) →
        IsOrderly trace → IsSettled trace server → IsSettled trace (after_picks server picks) }
{}

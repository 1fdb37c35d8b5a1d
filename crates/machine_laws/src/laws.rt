//! Laws of serving: what entered the log stays, and nothing enters it twice.
ghost use Rattle.std.specs.Prelude.{◌≡◌, ◌≢◌, ℕ, ℤ, true, List, [], ◌++◌, Some};
ghost use Rattle.std.specs.FinMap as finite;
ghost use Rattle.driver_link.specs.Cases.{aborts, case_of, commits, gathers, is_in_transaction, known_of, outside, results_of, writes_of};
ghost use Rattle.driver_link.specs.Exchange.{delivered, exchanged};
ghost use Rattle.driver_link.specs.Serving.{Plan, served};
ghost use Rattle.driver_link.specs.Sessions.{is_below};
ghost use Rattle.driver_link.specs.declared.machine.Entry.{Entry};
ghost use Rattle.driver_link.specs.declared.machine.Scheduled.{Scheduled};
ghost use Rattle.driver_link.specs.declared.machine.Send.{Send};
ghost use Rattle.driver_link.specs.declared.machine.SendBody.TheVariants.{Commit};
ghost use Rattle.driver_link.specs.declared.machine.Server.{Server};
ghost use Rattle.driver_link.specs.declared.machine.ServerTransaction.TheVariants as transaction;
ghost use Rattle.machine_laws.specs.Fresh.{GathersEach};
ghost use Rattle.machine_laws.specs.Steady.{GoesUnder, HasResults, HasTransaction, OnlyAdds};

/// A number below the greatest of its session changes nothing.
#[tactic(auto, using(crate::proofs::SteadyLaws::old_law))]
pub fn a_lower_number_changes_nothing()
    ensures { (plan : Plan) (id : List ℕ) (number : ℤ) (server : Server) (send : Send) →
        GoesUnder id number send → is_below number (finite.get server.sessions id) ≡ true →
        served plan server send ≡ server }
{}

/// Writes that are served again with kept results add no entry.
#[tactic(auto, using(crate::proofs::GrowLaws::kept_law))]
pub fn kept_writes_add_nothing()
    ensures { (plan : Plan) (server : Server) (send : Send) → case_of server send ≡ outside →
        HasResults (results_of (known_of server send)) 0 (writes_of send) →
        (served plan server send).log ≡ server.log }
{}

/// No send in an aborted transaction adds an entry, and the transaction stays aborted: what it had gathered
/// never enters the log.
pub fn an_aborted_transaction_adds_nothing()
    ensures { (plan : Plan) (id : List ℕ) (number : ℤ) (server : Server) (send : Send) →
        GoesUnder id number send → is_in_transaction send ≡ true →
        HasTransaction id number transaction.Aborted server →
        ((served plan server send).log ≡ server.log) ×
        HasTransaction id number transaction.Aborted (served plan server send) }
{}

/// Of a transaction a commit alone adds entries, so one that is aborted has added none.
#[tactic(auto, using(crate::proofs::InsideLaws::inside_law))]
pub fn only_a_commit_adds_of_a_transaction()
    ensures { (plan : Plan) (id : List ℕ) (number : ℤ) (server : Server) (send : Send) →
        GoesUnder id number send → is_in_transaction send ≡ true → send.body ≢ Commit →
        (served plan server send).log ≡ server.log }
{}

/// Where none is to fail, a transaction that runs gathers an entry of each write behind what it had.
pub fn writes_in_a_transaction_are_gathered_once()
    ensures { (plan : Plan) (id : List ℕ) (number : ℤ) (server : Server) (send : Send)
        (entries : List Entry) → GoesUnder id number send → case_of server send ≡ gathers entries →
        plan.fail ≡ [] → GathersEach id number send entries (served plan server send) }
{}

/// A commit of a transaction that runs appends what that has gathered, and nothing else.
#[tactic(auto, using(crate::proofs::InsideLaws::appends_law))]
pub fn a_commit_appends_what_was_gathered()
    ensures { (plan : Plan) (server : Server) (send : Send) (entries : List Entry) →
        case_of server send ≡ commits entries → (served plan server send).log ≡ server.log ++ entries }
{}

/// After a commit that appended entries, another one under the same number appends none.
#[tactic(auto, using(crate::proofs::CommitLaws::twice_law))]
pub fn a_second_commit_appends_nothing()
    ensures { (first second : Plan) (id : List ℕ) (number : ℤ) (server : Server)
        (send again : Send) (entries : List Entry) →
        GoesUnder id number send → GoesUnder id number again → case_of server send ≡ commits entries →
        again.body ≡ Commit →
        (served second (served first server send) again).log ≡ (served first server send).log }
{}

/// After an abort of a transaction that runs, the transaction is aborted.
pub fn an_abort_aborts()
    ensures { (plan : Plan) (id : List ℕ) (number : ℤ) (server : Server) (send : Send) →
        GoesUnder id number send → case_of server send ≡ aborts →
        HasTransaction id number transaction.Aborted (served plan server send) }
{}

/// Serving adds entries at the log's end alone.
#[tactic(auto, using(crate::proofs::GrowLaws::served_adds))]
pub fn serving_only_adds()
    ensures { (plan : Plan) (server : Server) (send : Send) → OnlyAdds server (served plan server send) }
{}

/// So does an exchange.
#[tactic(auto, using(crate::proofs::GrowLaws::exchanged_adds))]
pub fn exchanges_only_add()
    ensures { (server : Server) (send : Send) (step : Scheduled) →
        OnlyAdds server (exchanged server send step) }
{}

/// So does a late delivery.
#[tactic(auto, using(crate::proofs::GrowLaws::delivered_adds))]
pub fn deliveries_only_add()
    ensures { (server : Server) (at : ℕ) → OnlyAdds server (delivered server at) }
{}

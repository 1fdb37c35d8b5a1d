//! Laws along a run: the servers to which one leads, what an answer says of what its send did,
//! what an interrupted send ran, and transactions that have ended.
ghost use Rattle.std.specs.Prelude.{◌≡◌, ℕ, ℤ, List, [], ◌++◌, map, take};
ghost use Rattle.driver_link.specs.Cases.{case_of, outside};
ghost use Rattle.driver_link.specs.Exchange.{after_picks, delivered, empty_server, exchanged};
ghost use Rattle.driver_link.specs.Framed.{Framed};
ghost use Rattle.driver_link.specs.Reads.{Reads};
ghost use Rattle.driver_link.specs.Serving.{Plan, served};
ghost use Rattle.driver_link.specs.declared.machine.Item.TheVariants.{Interrupted};
ghost use Rattle.driver_link.specs.declared.machine.Place.{Place};
ghost use Rattle.driver_link.specs.declared.machine.Scheduled.{Scheduled};
ghost use Rattle.driver_link.specs.declared.machine.Send.{Send};
ghost use Rattle.driver_link.specs.declared.machine.Server.{Server};
ghost use Rattle.driver_link.specs.declared.machine.ServerTransaction.TheVariants as transaction;
ghost use Rattle.machine_laws.specs.Ended.{AddsNoEntry, IsInside, NoneInside, StaysAs, WaitsInside};
ghost use Rattle.machine_laws.specs.ErrorAnswers.{CallsTransient, NoneWritten, NothingRan};
ghost use Rattle.machine_laws.specs.Events.{Event, after_events};
ghost use Rattle.machine_laws.specs.Fresh.{GainsOfEach, GainsOfSome, new_writes, usual_entry};
ghost use Rattle.machine_laws.specs.Steady.{HasTransaction};
ghost use Rattle.machine_laws.specs.Valid.{IsValid};

/// The server that has seen nothing is valid.
pub fn the_empty_server_is_valid()
    ensures { IsValid empty_server }
{}

/// An exchange keeps a server valid.
pub fn exchanges_keep_it_valid()
    ensures { (server : Server) (send : Send) (step : Scheduled) → IsValid server →
        IsValid (exchanged server send step) }
{}

/// So does a late delivery.
pub fn deliveries_keep_it_valid()
    ensures { (server : Server) (at : ℕ) → IsValid server → IsValid (delivered server at) }
{}

/// So does a whole run.
pub fn runs_keep_it_valid()
    ensures { (server : Server) (events : List Event) → IsValid server →
        IsValid (after_events server events) }
{}

/// An answer with a label of overload says that nothing ran, and its send added nothing. So does one with the
/// code that asks for another authentication, by an item that may be scheduled.
pub fn an_overloaded_answer_adds_nothing()
    ensures { (server : Server) (send : Send) (step : Scheduled) → NothingRan server send step }
{}

/// An answer that no writes were performed says so of its session and number, now and at each earlier
/// moment.
pub fn an_answer_without_writes_has_none()
    ensures { (past : Server) (events : List Event) (send : Send) (step : Scheduled) → IsValid past →
        NoneWritten past (after_events past events) send step }
{}

/// A transaction that an answer calls transient is aborted afterwards.
pub fn a_transient_answer_aborts()
    ensures { (id : List ℕ) (number : ℤ) (server : Server) (send : Send) (step : Scheduled) →
        CallsTransient id number server send step →
        HasTransaction id number transaction.Aborted (exchanged server send step) }
{}

/// Nothing that is sent in it later adds an entry, whatever comes between.
pub fn nothing_enters_a_transient_transaction()
    ensures { (id : List ℕ) (number : ℤ) (server : Server) (send : Send) (step : Scheduled)
        (events : List Event) → CallsTransient id number server send step →
        NoneInside id number (after_events (exchanged server send step) events) }
{}

/// A transaction that is aborted stays so while its number is the greatest.
pub fn an_aborted_transaction_stays_aborted()
    ensures { (id : List ℕ) (number : ℤ) (server : Server) (events : List Event) →
        HasTransaction id number transaction.Aborted server →
        StaysAs id number transaction.Aborted (after_events server events) }
{}

/// One that is committed stays so while its number is the greatest.
pub fn a_committed_transaction_stays_committed()
    ensures { (id : List ℕ) (number : ℤ) (server : Server) (events : List Event) →
        HasTransaction id number transaction.Committed server →
        StaysAs id number transaction.Committed (after_events server events) }
{}

/// Once a transaction was aborted, nothing that is sent in it adds an entry, whatever comes between: not an
/// interrupted commit, and not what comes late.
pub fn nothing_enters_an_aborted_transaction()
    ensures { (id : List ℕ) (number : ℤ) (server : Server) (events : List Event) →
        HasTransaction id number transaction.Aborted server →
        NoneInside id number (after_events server events) }
{}

/// A transaction that is aborted in the end has added no entry by any exchange before.
pub fn an_aborted_transaction_has_added_nothing()
    ensures { (id : List ℕ) (number : ℤ) (server : Server) (send : Send) (step : Scheduled)
        (events : List Event) → IsInside id number send →
        HasTransaction id number transaction.Aborted (after_events (exchanged server send step) events) →
        AddsNoEntry server send step }
{}

/// Nor by a send that came late.
pub fn an_aborted_transaction_has_added_nothing_late()
    ensures { (id : List ℕ) (number : ℤ) (server : Server) (at : ℕ) (events : List Event) →
        WaitsInside id number at server →
        HasTransaction id number transaction.Aborted (after_events (delivered server at) events) →
        (delivered server at).log ≡ server.log }
{}

/// A send outside transactions that is interrupted runs as many of its writes without a kept result as the
/// item says, the first of them, with usual results, and no other.
pub fn an_interruption_runs_the_first_new_writes()
    ensures { (server : Server) (send : Send) (step : Scheduled) (most : ℕ) (code : ℤ)
        (labels : List (List ℕ)) → step.item ≡ Interrupted most code labels →
        case_of (after_picks server step.deliver) send ≡ outside →
        (exchanged server send step).log ≡ (after_picks server step.deliver).log ++
        map (usual_entry send) (take most (new_writes (after_picks server step.deliver) send)) }
{}

/// Of a send outside transactions only writes without a kept result add entries, each at most one.
pub fn only_new_writes_add_entries()
    ensures { (plan : Plan) (server : Server) (send : Send) → case_of server send ≡ outside →
        GainsOfSome send (new_writes server send) server (served plan server send) }
{}

/// Where none is to fail, each of them adds its own.
pub fn new_writes_add_an_entry_each()
    ensures { (plan : Plan) (server : Server) (send : Send) → case_of server send ≡ outside →
        plan.fail ≡ [] → GainsOfEach send (new_writes server send) server (served plan server send) }
{}

/// A frame with the places of its writes reads as at most one send.
pub fn a_frame_reads_as_one_send()
    ensures { (frame : Framed) (places : List Place) (one other : Send) → Reads frame places one →
        Reads frame places other → one ≡ other }
{}

//! The law of inserts over the model server.
ghost use Rattle.std.specs.Prelude.{ℕ, List};
ghost use Rattle.driver_options.specs.declared.write_options.InsertManyOptions.{InsertManyOptions};
ghost use Rattle.driver_link.specs.declared.machine.Scheduled.{Scheduled};
ghost use Rattle.driver_link.specs.declared.machine.Send.{Send};
ghost use Rattle.driver_link.specs.declared.machine.Server.{Server};
ghost use Rattle.driver_ops.specs.declared.target.OperationTarget.{OperationTarget};
ghost use Rattle.write_ops.specs.declared.own_document.OwnDocument.{OwnDocument};
ghost use Rattle.write_ops.specs.InsertLaw.{ExchangesInsert, IsReadExactly};

/// Over the model server's own reply to its send, the insert of the front of some documents is read as done exactly
/// where each of its statements ran now or had its kept result, these count one document each together, and there is
/// no write concern error; but for want of memory. The answer is the ids of these documents. Where some statement
/// failed or there is a write concern error, and the other statements count one document each together, the error
/// tells of exactly the statements that failed, of that write concern error and of the ids of the others. Where they
/// count otherwise, it says that the reply is odd.
pub fn an_insert_is_read_exactly()
    ensures { (target : OperationTarget) (first : ℕ) (own : List OwnDocument) (options : InsertManyOptions)
        (statements : ℕ) (server : Server) (send : Send) (step : Scheduled) (reply : List ℕ) →
        ExchangesInsert target own options statements server send step reply →
        IsReadExactly target first own options statements server send step reply }
{}

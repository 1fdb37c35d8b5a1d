//! Laws of operations of one statement over the model server.
ghost use Rattle.std.specs.Prelude.{ℕ, Bool, List};
ghost use Rattle.bson_lite.specs.declared.bson.Bson.{Bson};
ghost use Rattle.bson_lite.specs.declared.document.Pair.{Pair};
ghost use Rattle.driver_options.specs.declared.find_options.FindAndModifyOptions.{FindAndModifyOptions};
ghost use Rattle.driver_options.specs.declared.updates.Modification.{Modification};
ghost use Rattle.driver_options.specs.declared.updates.UpdateOrReplace.{UpdateOrReplace};
ghost use Rattle.driver_options.specs.declared.write_options.DeleteOptions.{DeleteOptions};
ghost use Rattle.driver_options.specs.declared.write_options.UpdateOptions.{UpdateOptions};
ghost use Rattle.driver_link.specs.declared.machine.Scheduled.{Scheduled};
ghost use Rattle.driver_link.specs.declared.machine.Send.{Send};
ghost use Rattle.driver_link.specs.declared.machine.SendCommand.TheVariants as command;
ghost use Rattle.driver_link.specs.declared.machine.Server.{Server};
ghost use Rattle.driver_link.specs.declared.machine.WriteKind.TheVariants as kind;
ghost use Rattle.driver_ops.specs.declared.target.OperationTarget.{OperationTarget};
ghost use Rattle.driver_ops.specs.Targets.{namespace_of};
ghost use Rattle.statement_ops.specs.CountAnswers.{deleted_by, updated_by};
ghost use Rattle.statement_ops.specs.Deleting.{delete_statement};
ghost use Rattle.statement_ops.specs.FindingAndModifying.{find_command};
ghost use Rattle.statement_ops.specs.FoundAnswers.{found_by};
ghost use Rattle.statement_ops.specs.StatementLaw.{ExchangesStatement, IsReadAsCounted};
ghost use Rattle.statement_ops.specs.StatementSpec.{delete_spec, find_spec, update_spec};
ghost use Rattle.statement_ops.specs.Updating.{update_statement};

/// Over the model server's own reply to its send, an update is read as done exactly where its statement ran
/// now or had its kept result, whose counts are not negative, and there is no write concern error; but for want
/// of memory. The answer is these counts, with 0 as matched beside an upserted id.
pub fn an_update_is_read_exactly()
    ensures { (target : OperationTarget) (filter : List (Pair Bson)) (change : UpdateOrReplace) (multi : Bool)
        (options : UpdateOptions) (server : Server) (send : Send) (step : Scheduled) (reply : List ℕ) →
        ExchangesStatement command.Update kind.Update (namespace_of target)
        (update_statement filter change multi options) server send step reply →
        IsReadAsCounted (update_spec target filter change multi options) updated_by server send step reply }
{}

/// So it is of a delete.
pub fn a_delete_is_read_exactly()
    ensures { (target : OperationTarget) (filter : List (Pair Bson)) (multi : Bool) (options : DeleteOptions)
        (server : Server) (send : Send) (step : Scheduled) (reply : List ℕ) →
        ExchangesStatement command.Delete kind.Delete (namespace_of target)
        (delete_statement filter multi options) server send step reply →
        IsReadAsCounted (delete_spec target filter multi options) deleted_by server send step reply }
{}

/// And of a findAndModify, whose answer is the document of its statement's result, or none.
pub fn a_find_and_modify_is_read_exactly()
    ensures { (target : OperationTarget) (filter : List (Pair Bson)) (modification : Modification)
        (options : FindAndModifyOptions) (server : Server) (send : Send) (step : Scheduled) (reply : List ℕ) →
        ExchangesStatement command.FindAndModify kind.FindAndModify (namespace_of target)
        (find_command (namespace_of target) filter modification options) server send step reply →
        IsReadAsCounted (find_spec target filter modification options) found_by server send step reply }
{}

//! What a bulk write begins with: its input is judged, and then its ops are made.
ghost use Rattle.std.specs.Prelude.{◌≡◌, IfErr};
ghost use Rattle.driver_attempt.specs.Client.{options_of, store_of};
ghost use Rattle.driver_attempt.specs.Failures.{MemoryAlone};
ghost use Rattle.bulk_actions.specs.BulkIds.{PreparesOps};

use crate::own_ops::own_ops;
use bson_lite::List;
use bulk_fronts::OwnOp;
use driver_attempt::Client;
use driver_error::Result;
use driver_inputs::bulk_refusal::bulk_refusal;
use driver_options::{BulkWriteOptions, WriteModel};
use driver_session::SessionStore;
use std::alloc::Global;

/// The ops of models as a bulk write sends them. Their input is judged over all models before anything is drawn; then
/// each inserted document without an id gets the next one, in order, once for the whole call. Errors: InvalidArgument
/// and BsonSerialization for the input, each alone, after which nothing was drawn, and want of memory.
pub fn bulk_ops<S: SessionStore>(
    alloc: Global,
    client: &mut Client<S>,
    models: &[WriteModel],
    options: &BulkWriteOptions,
) -> Result<List<OwnOp>>
    ensures prepares { PreparesOps (S.tells (store_of client.old)) (S.tells (store_of client.new))
        models.now options.now result }
    ensures memory { IfErr result (λ error. MemoryAlone error) }
    ensures options { options_of client.new ≡ options_of client.old }
{
    if let Some(error) = bulk_refusal(alloc, models, options) {
        return Err(error);
    }
    own_ops(alloc, client, models)
}

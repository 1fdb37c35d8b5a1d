//! A caller of `model_server`: sends that were late are served after all.
ghost use Rattle.std.specs.Prelude.{◌≡◌, ◌⊎◌, IfErr, IfOk, OnErr, OnOk, is_some};
ghost use Rattle.driver_error.specs.Error.{IsAlone};
ghost use Rattle.driver_error.specs.LabelTexts.{no_labels};
ghost use Rattle.driver_error.specs.declared.kind.ErrorKind.TheVariants.{Memory};
ghost use Rattle.driver_link.specs.Exchange.{delivered};
ghost use Rattle.model_effects.specs.Waiting.{waits_at};

use driver_error::Result;
use model_server::ModelServer;
use std::alloc::Global;

/// Serves the two sends that were late first, in this order. The answer is whether each waited still. Where memory runs
/// out the first may have been served.
pub fn deliver_two(model: &mut ModelServer, alloc: Global) -> Result<(bool, bool)>
    ensures served { OnOk result
        (model.new ≡
        record model.old { server = delivered (delivered model.old.server 0) 1 }) }
    ensures waited { IfOk result (λ waited.
        (waited.0 ≡ is_some (waits_at model.old.server.waiting 0))
        × (waited.1 ≡ is_some (waits_at (delivered model.old.server 0).waiting 1))) }
    ensures err { OnErr result ((model.new ≡ model.old)
        ⊎ (model.new ≡ record model.old { server = delivered model.old.server 0 })) }
    ensures memory { IfErr result (λ error. IsAlone Memory no_labels error) }
{
    let first = model.deliver_late(alloc, 0)?;
    let second = model.deliver_late(alloc, 1)?;
    Ok((first, second))
}

//! What an operation answers where it has nothing of its own to say.
ghost use Rattle.std.specs.Prelude.{◌≡◌, Err, IfErr, Ok, OnOk, true};
ghost use Rattle.driver_error.specs.declared.kind.ErrorKind.TheVariants.{InvalidResponse};
ghost use Rattle.driver_error.specs.Conversions.{IsMade};
ghost use Rattle.driver_error.specs.LabelTexts.{no_labels};
ghost use Rattle.driver_session.specs.declared.retryability.Retryability.TheVariants.{None as Nothing};
ghost use Rattle.driver_ops.specs.Defaults.{is_repeatable, one_page_text, repeated_where};
ghost use Rattle.driver_ops.specs.Features.{feature_told, is_supported};
ghost use Rattle.driver_ops.specs.declared.feature.Feature.TheVariants.{NotSupported};

use crate::feature::Feature;
use crate::operation::Reading;
use crate::response::odd_reply;
use bson_lite::Document;
use driver_error::{Error, Result};
use driver_options::WriteConcern;
use driver_session::Retryability;
use std::alloc::Global;

/// A further page of an answer that has one.
const ONE_PAGE: &str = "the answer has one page";

/// An option that the command has not: a write concern, a read concern, criteria of selection.
pub fn lacks_option<'a, T>() -> Feature<&'a T>
    ensures { feature_told result ≡ NotSupported }
{
    Feature::NotSupported
}

/// Its command may be under a session.
pub fn takes_sessions() -> bool
    ensures { result ≡ true }
{
    true
}

/// Nothing of it may be repeated.
pub fn repeats_nothing() -> Retryability
    ensures { result ≡ Nothing }
{
    Retryability::None
}

/// A write may be repeated unless the client's options forbid it.
pub fn repeats_unless_forbidden(retry_writes: Option<bool>) -> Retryability
    ensures { result ≡ repeated_where retry_writes }
{
    match retry_writes {
        Some(false) => Retryability::None,
        _ => Retryability::Write,
    }
}

/// It may be repeated after an overloaded server refused it where it may be repeated at all.
pub fn repeats_under_backpressure(retryability: Retryability) -> bool
    ensures { result ≡ is_repeatable retryability }
{
    match retryability {
        Retryability::None => false,
        _ => true,
    }
}

/// It is placed after what its session has seen where its command has a write concern.
pub fn writes_after_cluster_time(concern: &Feature<&WriteConcern>) -> bool
    ensures { result ≡ is_supported concern.now }
{
    concern.supported()
}

/// It needs nothing before it is sent again.
pub fn stays_for_retry() -> Result<()>
    ensures { result ≡ Ok tt }
{
    Ok(())
}

/// Its answer has one page: a further one is an InvalidResponse, and one that did not come is answered as it is.
#[tactic(auto, unfolding(crate::specs::Defaults::one_page_text))]
pub fn reads_one_page<O>(
    alloc: Global,
    page: std::result::Result<&Document, Error>,
) -> Result<Reading<O>>
    ensures never { OnOk result ⊥ }
    ensures failed { IfErr page.entry (λ failure. result ≡ Err failure) }
    ensures came { OnOk page.entry (IfErr result
        (λ error. IsMade (InvalidResponse one_page_text) no_labels error)) }
{
    match page {
        Ok(_page) => Err(odd_reply(alloc, ONE_PAGE)),
        Err(failure) => Err(failure),
    }
}

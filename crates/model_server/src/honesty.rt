//! The rules of honesty of scheduled answers: a label that would tell a lie of what ran is left out.
ghost use Rattle.std.specs.Prelude.{◌≡◌, IfOk};
ghost use Rattle.driver_link.specs.Honesty.{Facts, is_overload as overload, may_carry as carried, honest as honest_labels, has_transient as transient, ran_before as statement_before};
ghost use Rattle.model_server.specs.Judged.{judged};

use bson_lite::{List, Text, TryClone};
use driver_error::{
    NO_WRITES_PERFORMED, RETRYABLE_ERROR, SYSTEM_OVERLOADED_ERROR, TRANSIENT_TRANSACTION_ERROR,
};
use driver_link::{Send, Server};
use std::alloc::{AllocError, Global};

/// What an answer is judged by.
#[derive(Clone, Copy, PartialEq, Eq)]
pub struct Judgement {
    /// Whether a statement ran in this step.
    pub ran_now: bool,
    /// Whether one ran before under the send's number.
    pub ran_before: bool,
    /// Whether the send's transaction can be called transient.
    pub can_be_transient: bool,
}

/// A label of overload.
fn is_overload(label: &str) -> bool
    ensures { result ≡ overload label.now }
{
    label == SYSTEM_OVERLOADED_ERROR || label == RETRYABLE_ERROR
}

/// Whether a label may be answered.
#[tactic(auto, unfolding(driver_link::specs::Honesty::may_carry))]
fn may_carry(facts: Judgement, label: &str) -> bool
    ensures { result ≡ carried (judged facts) label.now }
{
    if is_overload(label) {
        return !facts.ran_now;
    }
    if label == NO_WRITES_PERFORMED {
        return !(facts.ran_now || facts.ran_before);
    }
    if label == TRANSIENT_TRANSACTION_ERROR {
        return facts.can_be_transient;
    }
    true
}

/// The labels that are answered.
pub fn honest(alloc: Global, facts: Judgement, labels: &[Text]) -> Result<List<Text>, AllocError>
    ensures { IfOk result (λ kept. kept ≡ honest_labels (judged facts) labels.now) }
{
    let mut kept = List::new(alloc);
    for label in labels {
        if may_carry(facts, label.as_str()) {
            kept.push(label.try_clone(alloc)?)?;
        }
    }
    Ok(kept)
}

/// Whether the transient label is among these.
pub fn has_transient(labels: &[Text]) -> bool
    ensures { result ≡ transient labels.now }
{
    for label in labels {
        if label.as_str() == TRANSIENT_TRANSACTION_ERROR {
            return true;
        }
    }
    false
}

/// Whether a statement ran before under a send's number.
#[tactic(auto, unfolding(driver_link::specs::Honesty::ran_before, driver_link::specs::Sessions::is_new, driver_link::specs::Sessions::is_below))]
pub fn ran_before(server: &Server, send: &Send) -> bool
    ensures { result ≡ statement_before send.now.session send.now.number server.now }
{
    match (send.session, send.number) {
        (Some(id), Some(number)) => match server.sessions.get(&id) {
            Some(known) => number < known.greatest || (number == known.greatest && known.ran),
            None => false,
        },
        _ => false,
    }
}

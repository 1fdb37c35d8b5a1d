//! The calls of a model server that are counted: each faults exactly where the schedule lists its number.
ghost use Rattle.std.specs.Prelude.{◌≡◌, ◌≤◌, IfOk, OnOk, OnErr};
ghost use Rattle.driver_link.specs.Counting.{one_more, is_listed as listed_at, select_fault, support_fault, check_out_fault, reauthentication_fault, overload_labels};
ghost use Rattle.driver_link.specs.Faults.{HasLinkCause};
ghost use Rattle.link_faults.specs.declared.fault.LinkError.TheVariants.{Fault};
ghost use Rattle.link_faults.specs.declared.fault.LinkCall.TheVariants as call_of;
ghost use Rattle.model_server.specs.ModelState.{Called, failed, one_select, one_support, one_check_out, one_reauthentication};

use crate::server::ModelServer;
use bson_lite::{List, Text, TryClone};
use driver_error::{IoKind, RETRYABLE_ERROR, SYSTEM_OVERLOADED_ERROR};
use driver_link::{Answered, LinkCall, LinkError, LinkFault};
use std::alloc::{AllocError, Global};
use wire_keys::keys::{REAUTHENTICATION_FAILURE, SELECTION_FAILURE};

/// Whether a number is listed.
fn is_listed(numbers: &[u64], at: u64) -> bool
    ensures { result ≡ listed_at numbers.now at }
{
    for number in numbers {
        if *number == at {
            return true;
        }
    }
    false
}

/// Counts one call more.
fn raise(count: &mut u64) -> u64
    ensures number { result ≡ count.old }
    ensures raised { count.new ≡ one_more count.old }
    ensures later { count.old ≤ count.new }
{
    let number = *count;
    *count = number.saturating_add(1);
    number
}

/// The labels of overload.
fn both_overload_labels(alloc: Global) -> Result<List<Text>, AllocError>
    ensures { IfOk result (λ labels. labels ≡ overload_labels) }
{
    let mut labels = List::new(alloc);
    labels.push(Text::from_str(alloc, SYSTEM_OVERLOADED_ERROR)?)?;
    labels.push(Text::from_str(alloc, RETRYABLE_ERROR)?)?;
    Ok(labels)
}

impl ModelServer {
    /// Notes the fault of a call, and counts it. A refusal changes nothing.
    fn fail(
        &mut self,
        alloc: Global,
        call: LinkCall,
        fault: LinkFault,
        labels: List<Text>,
    ) -> Result<LinkError, AllocError>
        ensures failure { IfOk result (λ failure. failure ≡ Fault fault labels) }
        ensures ok { OnOk result
            (self.new ≡ failed call (record { fault = fault; labels = labels }) self.old) }
        ensures err { OnErr result (self.new ≡ self.old) }
        ensures later { self.old.faults ≤ self.new.faults }
    {
        let note = Answered::Fault {
            call,
            fault: fault.try_clone(alloc)?,
            labels: labels.try_clone(alloc)?,
        };
        self.answered.push(note)?;
        raise(&mut self.faults);
        Ok(LinkError::Fault { fault, labels })
    }

    /// Counts a selection, which fails where its number is listed.
    pub(crate) fn count_select(&mut self, alloc: Global) -> Result<(), LinkError>
        ensures called { Called one_select select_fault call_of.Select self.old self.new result }
        ensures cause { HasLinkCause self.old.faults self.new.faults result }
    {
        let number = raise(&mut self.calls.selects);
        if is_listed(self.schedule.selects.as_slice(), number) {
            let fault = LinkFault::Selection(Text::from_str(alloc, SELECTION_FAILURE)?);
            return Err(self.fail(alloc, LinkCall::Select, fault, List::new(alloc))?);
        }
        Ok(())
    }

    /// Counts a question for support of transactions, which fails where its number is listed.
    pub(crate) fn count_support(&mut self, alloc: Global) -> Result<(), LinkError>
        ensures called { Called one_support support_fault call_of.Support self.old self.new result }
        ensures cause { HasLinkCause self.old.faults self.new.faults result }
    {
        let number = raise(&mut self.calls.supports);
        if is_listed(self.schedule.supports.as_slice(), number) {
            let fault = LinkFault::Selection(Text::from_str(alloc, SELECTION_FAILURE)?);
            return Err(self.fail(alloc, LinkCall::Support, fault, List::new(alloc))?);
        }
        Ok(())
    }

    /// Counts a check-out, which fails where its number is listed: with the labels of overload where it is
    /// listed as overloaded.
    pub(crate) fn count_check_out(&mut self, alloc: Global) -> Result<(), LinkError>
        ensures called { Called one_check_out check_out_fault call_of.CheckOut self.old self.new result }
        ensures cause { HasLinkCause self.old.faults self.new.faults result }
    {
        let number = raise(&mut self.calls.check_outs);
        let fault = LinkFault::Io(IoKind::ConnectionRefused);
        if is_listed(self.schedule.overloaded_check_outs.as_slice(), number) {
            let labels = both_overload_labels(alloc)?;
            return Err(self.fail(alloc, LinkCall::CheckOut, fault, labels)?);
        }
        if is_listed(self.schedule.check_outs.as_slice(), number) {
            return Err(self.fail(alloc, LinkCall::CheckOut, fault, List::new(alloc))?);
        }
        Ok(())
    }

    /// Counts an authentication, which fails where its number is listed.
    pub(crate) fn count_reauthentication(&mut self, alloc: Global) -> Result<(), LinkError>
        ensures called { Called one_reauthentication reauthentication_fault call_of.Reauthenticate self.old
            self.new result }
        ensures cause { HasLinkCause self.old.faults self.new.faults result }
    {
        let number = raise(&mut self.calls.reauthentications);
        if is_listed(self.schedule.reauthentications.as_slice(), number) {
            let message = Text::from_str(alloc, REAUTHENTICATION_FAILURE)?;
            let fault = LinkFault::Authentication(message);
            return Err(self.fail(alloc, LinkCall::Reauthenticate, fault, List::new(alloc))?);
        }
        Ok(())
    }

    /// Notes and counts the reset of a connection.
    pub(crate) fn count_fault(&mut self)
        ensures counted { self.new ≡ record self.old { faults = one_more self.old.faults } }
        ensures later { self.old.faults ≤ self.new.faults }
    {
        raise(&mut self.faults);
    }
}

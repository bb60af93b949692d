//! Detaches that arrive at a ledger, and the outcomes of its deliveries when the link is closed (2.6.6).
ghost use Rattle.std.specs.Prelude.{◌≡◌, ◌≢◌, ◌⊎◌, ◌↔◌, ◌&&◌, [], true, map, None, Err, IfOk, IfErr, IsErrOf, OnOk, OnErr, if◌then◌else◌};
ghost use Rattle.std.specs.Option.{option_map};
ghost use Rattle.amqp_link_dispositions.specs.Ending.{closed_for, all_closed, detach_allocates, reply_of};
ghost use Rattle.amqp_link_ledger.specs.Fates.{Change, after};

use crate::ledger::OutcomeLedger;
use amqp_link_endpoint::endpoint::LinkExt;
use amqp_link_endpoint::endpoint::target::LinkTarget;
use amqp_link_types::delivery::{DeliveryOutcome, Outcomes, UnsettledMessage};
use amqp_link_types::types::{DeliveryTag, Detach, Error, LinkRelayError, LinkStateError};
use indexmap::map::Slice;
use std::alloc::{AllocError, Global};

// Whether the peer closes the link.
fn is_closing(remote_initiated: bool, closed: bool) -> bool
    ensures { result ≡ (remote_initiated && closed) }
{
    remote_initiated && closed
}

// The outcome of a delivery whose link is closed by a detach with this error, if any.
fn closed_outcome(error: &Option<Error>) -> Result<DeliveryOutcome, AllocError>
    ensures { IfOk result (λ outcome. outcome ≡ Err (closed_for error.now)) }
{
    match error {
        None => Ok(Err(LinkStateError::RemoteClosed)),
        Some(error) => Ok(Err(LinkStateError::RemoteClosedWithError(error.clone()?))),
    }
}

// The outcomes of these deliveries when the link is closed by a detach with this error: one copy each, in
// their order. Does not allocate if there are none.
fn closed_outcomes(
    alloc: Global,
    error: &Option<Error>,
    pairs: Slice<'_, DeliveryTag, UnsettledMessage>,
) -> Result<Vec<DeliveryOutcome>, AllocError>
    ensures copies { IfOk result (λ copies.
        copies.items ≡ map (λ ended. ended.1) (all_closed error.now pairs.entry)) }
    ensures memory { OnErr result (pairs.entry ≢ []) }
{
    if pairs.is_empty() {
        return Ok(Vec::new(alloc));
    }
    let mut copies = Vec::with_capacity(alloc, pairs.len())?;
    for _ in pairs {
        copies.push(closed_outcome(error)?)?;
    }
    Ok(copies)
}

impl<T: LinkTarget> OutcomeLedger<T> {
    /// Resolves each pending delivery, in the order of the map, since this detach closes the link, as
    /// `SenderLink::fail_pending_unsettled` does. Its registration is resolved with the outcome that is
    /// returned.
    ///
    /// Refused only if it is out of memory, with nothing changed; without pending deliveries it does not
    /// allocate.
    ///
    /// Its cost grows with the number of pending deliveries.
    pub fn fail_pending_unsettled(&mut self, detach: &Detach) -> Result<Outcomes, AllocError>
        ensures ended { IfOk result (λ outcomes.
            outcomes.items ≡ all_closed detach.now.error self.old.link.unsettled) }
        ensures link { OnOk result (self.new.link ≡ record self.old.link { unsettled = [] }) }
        ensures records { OnOk result (self.new.records
            ≡ after (Change.Resolves (all_closed detach.now.error self.old.link.unsettled)) self.old.records) }
        ensures memory { OnErr result (self.old.link.unsettled ≢ []) }
        ensures left { OnErr result (self.new ≡ self.old) }
    {
        let pending = self.link.unsettled();
        let copies = closed_outcomes(self.alloc, &detach.error, pending.as_slice())?;
        match self.link.fail_pending_unsettled(detach) {
            Ok(outcomes) => {
                self.registrations.resolve_all(outcomes.as_slice(), copies);
                Ok(outcomes)
            }
            Err(refused) => {
                drop(copies);
                Err(refused)
            }
        }
    }

    /// Takes a detach from the session, as `SenderLink::on_incoming_detach` does, and returns the detach to
    /// reply with, if there is one. If the peer initiated it and it closes the link, each pending delivery is
    /// resolved as by `fail_pending_unsettled`; otherwise the registrations stay.
    ///
    /// Refused in this order, with nothing changed, and only if the peer initiated the detach:
    /// `UnattachedHandle` without output handle; `OutOfMemory`, only if the detach carries an error, which is
    /// copied for the reply, or closes the link while deliveries are pending.
    ///
    /// If the peer closes the link by it, its cost grows with the number of pending deliveries.
    pub fn on_incoming_detach(
        &mut self,
        detach: &Detach,
        remote_initiated: bool,
    ) -> Result<(Option<Detach>, Outcomes), LinkRelayError>
        ensures reply { IfOk result (λ answer. answer.0 ≡ (if remote_initiated
            then option_map (λ handle. reply_of handle detach.now) self.old.link.output_handle else None)) }
        ensures ended { IfOk result (λ answer. answer.1.items
            ≡ (if remote_initiated && detach.now.closed
            then all_closed detach.now.error self.old.link.unsettled else [])) }
        ensures link { OnOk result (self.new.link ≡ (if remote_initiated && detach.now.closed
            then record self.old.link { unsettled = [] } else self.old.link)) }
        ensures records { OnOk result (self.new.records ≡ after (Change.Resolves
            (if remote_initiated && detach.now.closed
            then all_closed detach.now.error self.old.link.unsettled else [])) self.old.records) }
        ensures unattached { IsErrOf result LinkRelayError.UnattachedHandle
            ↔ ((remote_initiated ≡ true) × (self.old.link.output_handle ≡ None)) }
        ensures memory { IfErr result (λ error. (error ≡ LinkRelayError.UnattachedHandle)
            ⊎ ((error ≡ LinkRelayError.OutOfMemory) × (remote_initiated ≡ true)
            × (detach_allocates detach.now self.old.link.unsettled ≡ true))) }
        ensures left { OnErr result (self.new ≡ self.old) }
    {
        if !is_closing(remote_initiated, detach.closed) {
            return self.link.on_incoming_detach(detach, remote_initiated);
        }
        if self.link.output_handle().is_none() {
            return Err(LinkRelayError::UnattachedHandle);
        }
        let pending = self.link.unsettled();
        let copies = closed_outcomes(self.alloc, &detach.error, pending.as_slice())?;
        match self.link.on_incoming_detach(detach, remote_initiated) {
            Ok((reply, outcomes)) => {
                self.registrations.resolve_all(outcomes.as_slice(), copies);
                Ok((reply, outcomes))
            }
            Err(refused) => {
                drop(copies);
                Err(refused)
            }
        }
    }
}

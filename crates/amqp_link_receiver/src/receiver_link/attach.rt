//! How a receiver's link endpoint is attached (2.6.3, 2.6.4).
ghost use Rattle.std.specs.Prelude.{◌≡◌, ◌⊎◌, false, ℕ, List, [], if◌then◌else◌};
ghost use Rattle.std.specs.Prelude.{None, Some, Ok, Err, IfOk, IsErrOf, MatchResult, unwrap_or};
ghost use Rattle.std.specs.Option.{option_or};
ghost use Rattle.amqp_link_receiver.specs.ReceiverAttaches;
ghost use Rattle.amqp_link_receiver.specs.ReceiverAttaches.{receiver_target_refusal, receiver_source_verdict, is_receiver_out_of_memory};
ghost use Rattle.amqp_link_endpoint.specs.AttachTests.{verified};
ghost use Rattle.amqp_link_verification.specs.Termini.{verdict};

use crate::receiver_link::ReceiverLink;
use amqp_link_endpoint::endpoint::LinkAttach;
use amqp_link_endpoint::endpoint::attached::{get_max_message_size, merged_with};
use amqp_link_endpoint::endpoint::incoming::{IncomingAttach, read};
use amqp_link_endpoint::endpoint::table::after_incoming_attach;
use amqp_link_endpoint::endpoint::target::LinkTarget;
use amqp_link_state::state::LinkState;
use amqp_link_types::delivery::Outcomes;
use amqp_link_types::frame::LinkFrame;
use amqp_link_types::types::unsettled_map::UnsettledMap;
use amqp_link_types::types::{
    Attach, DeliveryState, Fields, Handle, ReceiverAttachError, SenderSettleMode, SequenceNo,
    Source, TargetArchetype,
};
use amqp_link_verification::VerifySource;

/// What follows once a receiver has exchanged attaches.
#[derive(Clone, Copy, Debug, PartialEq, Eq)]
pub enum ReceiverAttachExchange {
    /// The sender's attach states no unsettled delivery: there is nothing to resume.
    Complete,
    /// An attach did not state all unsettled deliveries. Those that the sender's attach states are resumed,
    /// and then the link is attached anew (`Link`, **Detach**) until an exchange is complete (2.6.13).
    IncompleteUnsettled,
    /// The sender resumes deliveries.
    Resume,
}

impl ReceiverAttachExchange {
    ghost use Rattle.amqp_link_receiver.specs.declared.receiver_link.attach.ReceiverAttachExchange.TheVariants.{Complete};

    /// `Ok` if the exchange is `Complete`, otherwise this error.
    pub fn complete_or<E: Drop>(self, error: E) -> Result<(), E>
        ensures complete { self ≡ Complete → result ≡ Ok tt }
        ensures incomplete { (self ≡ Complete → ⊥) → result ≡ Err error }
    {
        match self {
            ReceiverAttachExchange::Complete => Ok(()),
            _ => Err(error),
        }
    }
}

// Whether an attach states an unsettled delivery.
fn has_entries(unsettled: &Option<UnsettledMap<Option<DeliveryState>>>) -> bool
    ensures { result ≡ ReceiverAttaches.has_entries (unwrap_or unsettled.now []) }
{
    match unsettled {
        Some(entries) => entries.len() != 0,
        None => false,
    }
}

fn exchange(state: LinkState, has_entries: bool) -> ReceiverAttachExchange
    ensures { result ≡ ReceiverAttaches.receiver_exchange_in state has_entries }
{
    if !has_entries {
        return ReceiverAttachExchange::Complete;
    }
    match state {
        LinkState::IncompleteAttachExchanged
        | LinkState::IncompleteAttachReceived
        | LinkState::IncompleteAttachSent => ReceiverAttachExchange::IncompleteUnsettled,
        _ => ReceiverAttachExchange::Resume,
    }
}

impl<T: LinkTarget> ReceiverLink<T> {
    // Records that an attach has moved the link, and the peer's handle; no delivery is under way any more.
    fn record_remote_attach(&mut self, handle: Handle, next: LinkState)
        ensures { self.new ≡ record self.old {
          local_state = next;
          input_handle = Some (record { 0 = handle.0 });
          more = false;
        } }
    {
        self.inner.record_remote_attach(handle, next);
        self.more = false;
    }

    // Verifies the peer's source beside the link's own, if the link verifies sources. Allocates only the list
    // of the missing filters.
    fn verify_source(&self, theirs: &Source) -> Result<(), ReceiverAttachError>
        ensures refused { MatchResult result
            (λ _. receiver_source_verdict self.now theirs.now ≡ None)
            (λ error. (error ≡ ReceiverAttachError.OutOfMemory) ⊎ (receiver_source_verdict self.now theirs.now ≡ Some error)) }
        ensures memory { IsErrOf result ReceiverAttachError.OutOfMemory → (names : List (List ℕ))
            × (receiver_source_verdict self.now theirs.now ≡ Some (ReceiverAttachError.DesiredFilterNotSupported names)) }
    {
        if !self.inner.verify_incoming_source {
            return Ok(());
        }
        match &self.inner.source {
            Some(own) => own.verify_as_receiver(theirs),
            None => Ok(()),
        }
    }

    // Verifies the peer's target beside the link's own, if the link verifies targets. Does not allocate.
    fn verify_target(&self, theirs: &T) -> Result<(), ReceiverAttachError>
        ensures refused { result ≡ verdict (verified self.now.verify_incoming_target
            T.refused_by_receiver self.now.target (Some theirs.now)) }
        ensures memory { IsErrOf result ReceiverAttachError.OutOfMemory → ⊥ }
    {
        if !self.inner.verify_incoming_target {
            return Ok(());
        }
        match &self.inner.target {
            Some(own) => own.verify_as_receiver(theirs),
            None => Ok(()),
        }
    }

    // The sender's initial delivery-count, if the link takes an attach with this count and this target, or
    // why it is refused. Does not allocate.
    fn count_to_take(
        &self,
        count: Option<SequenceNo>,
        target: Option<TargetArchetype>,
    ) -> Result<SequenceNo, ReceiverAttachError>
        ensures taken { IfOk result (λ taken. count ≡ Some taken) }
        ensures refused { MatchResult result
            (λ _. receiver_target_refusal T.admitted T.refused_by_receiver self.now count target ≡ None)
            (λ error. receiver_target_refusal T.admitted T.refused_by_receiver self.now count target ≡ Some error) }
        ensures memory { IsErrOf result ReceiverAttachError.OutOfMemory → ⊥ }
    {
        let Some(count) = count else {
            drop(target);
            return Err(ReceiverAttachError::InitialDeliveryCountIsNone);
        };
        let Some(target) = target else {
            return Ok(count);
        };
        let Some(target) = T::from_archetype(target) else {
            return Err(ReceiverAttachError::CoordinatorIsNotImplemented);
        };
        self.verify_target(&target)?;
        Ok(count)
    }

    fn take_source(&mut self, source: Source, mode: SenderSettleMode)
        ensures { self.new ≡ record self.old { source = Some source; snd_settle_mode = mode } }
    {
        drop(self.inner.source.replace(source));
        self.inner.snd_settle_mode = mode;
    }

    // Refuses an attach for its source: the state has moved, unless the verification is out of memory.
    fn without_source(
        &mut self,
        handle: Handle,
        next: LinkState,
        refused: ReceiverAttachError,
    ) -> ReceiverAttachError
        ensures error { result ≡ refused }
        ensures left { self.new ≡ (if is_receiver_out_of_memory refused then self.old else record self.old {
          local_state = next;
          input_handle = Some (record { 0 = handle.0 });
          more = false;
        }) }
    {
        if !matches!(refused, ReceiverAttachError::OutOfMemory) {
            self.record_remote_attach(handle, next);
        }
        refused
    }

    // Sets both delivery-counts to the sender's initial one, and replaces the link's properties, if there are
    // new ones.
    fn take_flow(&mut self, count: SequenceNo, properties: Option<Fields>)
        ensures { self.new ≡ record self.old {
          flow_state = record self.old.flow_state {
            initial_delivery_count = count;
            delivery_count = count;
            properties = option_or properties self.old.flow_state.properties;
          };
        } }
    {
        if let Some(properties) = properties {
            drop(self.inner.flow_state.properties_mut().replace(properties));
        }
        self.inner.flow_state.initial_delivery_count_mut(|_| count);
        self.inner.flow_state.delivery_count_mut(|_| count);
    }
}

impl<T: LinkTarget> LinkAttach for ReceiverLink<T> {
    ghost use Rattle.std.specs.Prelude.{◌≡◌};
    ghost use Rattle.amqp_link_receiver.specs.ReceiverAttaches.{receiver_attached, receiver_refusal, receiver_taken, receiver_left, receiver_taking_allocates, has_entries, receiver_exchange_in};

    type AttachExchange = ReceiverAttachExchange;

    type AttachError = ReceiverAttachError;

    ghost attached = { receiver_attached };

    ghost refusal_of = { receiver_refusal T.admitted T.refused_by_receiver };

    ghost taken = { receiver_taken };

    ghost exchanged = { λ _ remote state answer. answer ≡ receiver_exchange_in state (has_entries remote) };

    ghost allocates = { receiver_taking_allocates T.admitted T.refused_by_receiver };

    ghost left = { receiver_left T.admitted T.refused_by_receiver };

    fn send_attach(
        &mut self,
        is_reattaching: bool,
    ) -> Result<(LinkFrame, Outcomes), ReceiverAttachError> {
        self.inner
            .send_attach(self.alloc, is_reattaching, &mut self.unsettled)
    }

    /// Takes the sender's attach. The link's unsettled map stays as it is.
    ///
    /// Refused in this order: `IllegalState`, with nothing changed, if there is no transition from this
    /// state. In the refusals below the state has moved, the input handle is set, and no delivery is under
    /// way: `IncomingSourceIsNone`; the errors of the source's verification as a receiver, if the link
    /// verifies sources and has one. Then the link takes the source and the sender's settle mode:
    /// `InitialDeliveryCountIsNone`; `CoordinatorIsNotImplemented` if the target is not of the link's kind;
    /// the errors of the target's verification, if the link verifies targets and both endpoints have one. So
    /// `DynamicNodePropertiesIsSomeWhenDynamicIsFalse` of the source leaves another link than the same error
    /// of the target.
    ///
    /// `OutOfMemory`, with nothing changed, comes in place of `DesiredFilterNotSupported`, whose list of names
    /// is allocated, or after all of these, and then only if both endpoints have properties: if one of the two
    /// maps is absent or empty, the other is taken without a copy. `handle_attach_error` returns what to do
    /// after a refusal.
    fn on_incoming_attach(
        &mut self,
        attach: Attach,
    ) -> Result<ReceiverAttachExchange, ReceiverAttachError> {
        let IncomingAttach {
            handle,
            snd_settle_mode,
            source,
            target,
            unsettled,
            incomplete_unsettled,
            initial_delivery_count,
            max_message_size,
            properties,
            ..
        } = read(attach);
        let Some(next) = after_incoming_attach(self.inner.local_state, incomplete_unsettled) else {
            drop((source, target, unsettled, properties));
            return Err(ReceiverAttachError::IllegalState);
        };
        let has_entries = has_entries(&unsettled);
        drop(unsettled);
        let Some(source) = source else {
            self.record_remote_attach(handle, next);
            drop((target, properties));
            return Err(ReceiverAttachError::IncomingSourceIsNone);
        };
        if let Err(refused) = self.verify_source(&source) {
            drop((source, target, properties));
            return Err(self.without_source(handle, next, refused));
        }
        let count = match self.count_to_take(initial_delivery_count, target) {
            Ok(count) => count,
            Err(refused) => {
                self.record_remote_attach(handle, next);
                self.take_source(source, snd_settle_mode);
                drop(properties);
                return Err(refused);
            }
        };
        let Ok(properties) = merged_with(self.inner.flow_state.properties(), properties) else {
            drop(source);
            return Err(ReceiverAttachError::OutOfMemory);
        };
        // All tests are done, and all allocations: from here on nothing can fail.
        self.record_remote_attach(handle, next);
        self.take_source(source, snd_settle_mode);
        self.take_flow(count, properties);
        self.inner.max_message_size = get_max_message_size(
            self.inner.max_message_size,
            max_message_size,
        );
        Ok(exchange(next, has_entries))
    }
}

//! Flows, transfers and dispositions that arrive at a ledger (2.6.7, 2.6.12, 2.7.6).
ghost use Rattle.std.specs.Prelude.{◌≡◌, ◌↔◌, ◌+◌, ◌%◌, ◌^◌, Ok, Err, None, Some, IfOk, IsErrOf, OnOk, OnErr, IsSome, IsSomeAnd, MatchOption, false, true, is_some, if◌then◌else◌};
ghost use Rattle.std.specs.Option.{option_map, option_to_list};
ghost use Rattle.amqp_link_state.specs.Counts.{count_limit, credit_after, flow_of, given_back, keeping_reply, sender_after, sender_flow, sender_keeping, sender_reply, with_available};
ghost use Rattle.amqp_link_core.specs.Resuming.{does_carry};
ghost use Rattle.amqp_link_dispositions.specs.Ending.{ended_by, map_after_receiver_disposition};
ghost use Rattle.amqp_link_sender.specs.SenderDisposes.{is_echoed};
ghost use Rattle.amqp_link_ledger.specs.Fates.{Change, after};

use crate::ledger::OutcomeLedger;
use crate::registrations::Registrations;
use amqp_link_endpoint::endpoint::target::LinkTarget;
use amqp_link_sender::sender_link::DispositionAnswer;
use amqp_link_types::delivery::DeliveryOutcome;
use amqp_link_types::frame::LinkFrame;
use amqp_link_types::types::{
    DeliveryNumber, DeliveryState, DeliveryTag, DispositionError, FlowError, LinkFlow,
    LinkRelayError, Payload, Transfer, has_ended,
};
use amqp_link_values::copy::copy_of;
use std::alloc::AllocError;

// Resolves the pending registration of a tag, if there is an outcome.
pub(super) fn resolve_if_ended(
    registrations: &mut Registrations,
    tag: &DeliveryTag,
    outcome: Option<DeliveryOutcome>,
)
    ensures { registrations.new.records ≡ after (Change.Resolves
        (option_to_list (option_map (λ outcome. (tag.now, outcome)) outcome))) registrations.old.records }
{
    match outcome {
        Some(outcome) => registrations.resolve(tag, outcome),
        None => {}
    }
}

impl<T: LinkTarget> OutcomeLedger<T> {
    /// Takes the receiver's flow, as `SenderLink::on_incoming_flow` does, and returns the flow to reply with,
    /// if there is one. The registrations stay.
    ///
    /// Refused with `UnattachedHandle`, and nothing changed, without output handle. Does not allocate.
    pub fn on_incoming_flow(&mut self, flow: LinkFlow) -> Result<Option<LinkFlow>, LinkRelayError>
        ensures answer { MatchOption self.old.link.output_handle
            (result ≡ Err LinkRelayError.UnattachedHandle)
            (λ handle. result ≡ Ok (sender_reply flow self.old.link.flow_state handle)) }
        ensures link { OnOk result (self.new.link
            ≡ record self.old.link { flow_state = sender_after flow self.old.link.flow_state }) }
        ensures limit { OnOk result (count_limit self.new.link.flow_state
            ≡ (self.old.link.flow_state.delivery_count + credit_after flow self.old.link.flow_state) % 2 ^ 32) }
        ensures records { self.new.records ≡ self.old.records }
        ensures left { OnErr result (self.new ≡ self.old) }
    {
        self.link.on_incoming_flow(flow)
    }

    /// Takes the receiver's flow and keeps the credit if the flow drains, as
    /// `SenderLink::on_incoming_flow_keeping_credit` does. The registrations stay.
    ///
    /// Refused with `UnattachedHandle`, and nothing changed, without output handle. Does not allocate.
    pub fn on_incoming_flow_keeping_credit(
        &mut self,
        flow: LinkFlow,
    ) -> Result<Option<LinkFlow>, LinkRelayError>
        ensures answer { MatchOption self.old.link.output_handle
            (result ≡ Err LinkRelayError.UnattachedHandle)
            (λ handle. result ≡ Ok (keeping_reply flow self.old.link.flow_state handle)) }
        ensures after { OnOk result (self.new ≡ record self.old {
          link = record self.old.link { flow_state = sender_keeping flow self.old.link.flow_state };
        }) }
        ensures left { OnErr result (self.new ≡ self.old) }
    {
        self.link.on_incoming_flow_keeping_credit(flow)
    }

    /// Gives the credit back that is left, as `SenderLink::give_back_credit` does. The registrations stay.
    ///
    /// Refused with `UnattachedHandle`, and nothing changed, without output handle. Does not allocate.
    pub fn give_back_credit(&mut self) -> Result<Option<LinkFlow>, LinkRelayError>
        ensures answer { MatchOption self.old.link.output_handle
            (result ≡ Err LinkRelayError.UnattachedHandle)
            (λ handle. result ≡ Ok (if self.old.link.flow_state.drain
            then Some (flow_of (given_back self.old.link.flow_state) handle false) else None)) }
        ensures after { OnOk result (self.new ≡ record self.old {
          link = record self.old.link {
            flow_state = if self.old.link.flow_state.drain then given_back self.old.link.flow_state else self.old.link.flow_state;
          };
        }) }
        ensures left { OnErr result (self.new ≡ self.old) }
    {
        self.link.give_back_credit()
    }

    /// The sender's own flow to send, as `SenderLink::send_flow` makes it. The registrations stay.
    ///
    /// Refused in this order, with nothing changed: `IllegalState` without output handle; `OutOfMemory`, only for the
    /// copy of the properties.
    pub fn send_flow(
        &mut self,
        available: Option<u32>,
        echo: bool,
        include_properties: bool,
    ) -> Result<LinkFrame, FlowError>
        ensures after { OnOk result (self.new ≡ record self.old {
          link = record self.old.link { flow_state = with_available available self.old.link.flow_state };
        }) }
        ensures flow { IfOk result (λ sent. IsSomeAnd self.old.link.output_handle (λ handle.
            sent ≡ LinkFrame.Flow (sender_flow self.new.link.flow_state handle echo include_properties))) }
        ensures illegal { IsErrOf result FlowError.IllegalState ↔ (self.old.link.output_handle ≡ None) }
        ensures memory { IsErrOf result FlowError.OutOfMemory
            → (include_properties ≡ true) × (is_some self.old.link.flow_state.properties ≡ true) }
        ensures left { OnErr result (self.new ≡ self.old) }
    {
        self.link.send_flow(available, echo, include_properties)
    }

    /// Always refused with `TransferFrameToSender`: a transfer has arrived at a sender, and only a sender
    /// sends transfers (2.7.5). Does not allocate.
    pub fn on_incoming_transfer(
        &self,
        transfer: Transfer,
        payload: Payload,
    ) -> Result<(LinkFrame, Option<(DeliveryNumber, DeliveryTag)>), LinkRelayError>
        ensures { result ≡ Err LinkRelayError.TransferFrameToSender }
    {
        self.link.on_incoming_transfer(transfer, payload)
    }

    /// Takes the receiver's disposition of one delivery, as `SenderLink::on_incoming_disposition` does. If that
    /// resolves the delivery, its registration is resolved with the same outcome. If `echo` is set, the caller
    /// answers by this ledger's `dispose`.
    ///
    /// Refused with `OutOfMemory`, and nothing changed, only if it resolves a pending delivery with a state that
    /// carries an error or annotations, which are copied. With `Accepted`, `Released` or no state it does not
    /// allocate.
    pub fn on_incoming_disposition(
        &mut self,
        settled: bool,
        state: Option<DeliveryState>,
        delivery_tag: &DeliveryTag,
    ) -> Result<DispositionAnswer, DispositionError>
        ensures echo { IfOk result (λ answer. answer.echo ≡ is_echoed settled self.old.link.rcv_settle_mode) }
        ensures ended { IfOk result (λ answer.
            answer.outcome ≡ ended_by settled state delivery_tag.now self.old.link.unsettled) }
        ensures link { OnOk result (self.new.link ≡ record self.old.link {
          unsettled = map_after_receiver_disposition settled state delivery_tag.now self.old.link.unsettled;
        }) }
        ensures records { OnOk result (self.new.records ≡ after (Change.Resolves
            (option_to_list (ended_by settled state delivery_tag.now self.old.link.unsettled))) self.old.records) }
        ensures memory { OnErr result ((does_carry state ≡ true)
            × IsSome (ended_by settled state delivery_tag.now self.old.link.unsettled)) }
        ensures left { OnErr result (self.new ≡ self.old) }
    {
        let outcome = match self.copy_of_ended(settled, &state, delivery_tag) {
            Ok(outcome) => outcome,
            Err(refused) => {
                drop(state);
                return Err(refused.into());
            }
        };
        let answer = self
            .link
            .on_incoming_disposition(settled, state, delivery_tag);
        resolve_if_ended(&mut self.registrations, delivery_tag, outcome);
        Ok(answer)
    }

    // A copy of the outcome with which a disposition ends the delivery of this tag, if it does.
    fn copy_of_ended(
        &self,
        settled: bool,
        state: &Option<DeliveryState>,
        tag: &DeliveryTag,
    ) -> Result<Option<DeliveryOutcome>, AllocError>
        ensures copy { IfOk result (λ copy. option_map (λ outcome. (tag.now, outcome)) copy
            ≡ ended_by settled state.now tag.now self.now.link.unsettled) }
        ensures memory { OnErr result ((does_carry state.now ≡ true)
            × IsSome (ended_by settled state.now tag.now self.now.link.unsettled)) }
    {
        if (!settled && !has_ended(state)) || !self.is_pending(tag) {
            return Ok(None);
        }
        Ok(Some(Ok(copy_of(state)?)))
    }
}

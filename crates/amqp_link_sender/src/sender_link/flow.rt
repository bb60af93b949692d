//! Flows that a sender takes and sends (2.6.7), and transfers, which are not valid there.
ghost use Rattle.std.specs.Prelude.{◌≡◌, ◌↔◌, ◌+◌, ◌%◌, ◌^◌, false, true, None, Some, Ok, Err, IfOk, IsErrOf, IsSomeAnd, OnOk, OnErr, MatchOption, is_some, if◌then◌else◌};
ghost use Rattle.amqp_link_state.specs.Counts.{count_limit, credit_after, flow_of, given_back, keeping_reply, sender_after, sender_flow, sender_keeping, sender_reply, with_available};

use crate::sender_link::SenderLink;
use amqp_link_endpoint::endpoint::target::LinkTarget;
use amqp_link_types::frame::LinkFrame;
use amqp_link_types::types::{
    DeliveryNumber, DeliveryTag, FlowError, LinkFlow, LinkRelayError, Payload, Transfer,
};

impl<T: LinkTarget> SenderLink<T> {
    /// Takes the receiver's flow, and returns the flow to reply with, if there is one. If the flow has a
    /// link-credit, the sender's becomes the receiver's delivery-count + its link-credit - the own
    /// delivery-count, by serial-number arithmetic (RFC 1982) and held between 0 and 2^32 - 1; a flow without
    /// delivery-count counts from the initial one. If the flow drains, all credit is added to the
    /// delivery-count, and there is always a reply; otherwise there is one if the flow asks for an echo. The
    /// reply has the flow state afterwards, without properties and without `echo`.
    ///
    /// So credit that is granted with `drain` is given back at once, before anything is sent with it: a receiver that
    /// asks for each message so gets none. `on_incoming_flow_keeping_credit` keeps it.
    ///
    /// Refused with `UnattachedHandle`, and nothing changed, without output handle. Does not allocate.
    pub fn on_incoming_flow(&mut self, flow: LinkFlow) -> Result<Option<LinkFlow>, LinkRelayError>
        ensures answer { MatchOption self.old.output_handle
            (result ≡ Err LinkRelayError.UnattachedHandle)
            (λ handle. result ≡ Ok (sender_reply flow self.old.flow_state handle)) }
        ensures after { OnOk result (self.new
            ≡ record self.old { flow_state = sender_after flow self.old.flow_state }) }

        // Drained or not, the count up to which deliveries may be sent is the granted one.
        ensures limit { OnOk result (count_limit self.new.flow_state ≡
            (self.old.flow_state.delivery_count + credit_after flow self.old.flow_state) % 2 ^ 32) }
        ensures left { OnErr result (self.new ≡ self.old) }
    {
        let Some(handle) = self.inner.output_handle else {
            drop(flow);
            return Err(LinkRelayError::UnattachedHandle);
        };
        let answer = self.inner.flow_state.on_incoming_flow(&flow, handle);
        drop(flow);
        Ok(answer)
    }

    /// Takes the receiver's flow as `on_incoming_flow` does, but keeps the credit if the flow drains: send with it what waits,
    /// then call `give_back_credit` (2.6.7). There is a reply only if the flow asks for an echo.
    ///
    /// Refused with `UnattachedHandle`, and nothing changed, without output handle. Does not allocate.
    pub fn on_incoming_flow_keeping_credit(
        &mut self,
        flow: LinkFlow,
    ) -> Result<Option<LinkFlow>, LinkRelayError>
        ensures answer { MatchOption self.old.output_handle
            (result ≡ Err LinkRelayError.UnattachedHandle)
            (λ handle. result ≡ Ok (keeping_reply flow self.old.flow_state handle)) }
        ensures after { OnOk result (self.new
            ≡ record self.old { flow_state = sender_keeping flow self.old.flow_state }) }
        ensures left { OnErr result (self.new ≡ self.old) }
    {
        let Some(handle) = self.inner.output_handle else {
            drop(flow);
            return Err(LinkRelayError::UnattachedHandle);
        };
        let answer = self.inner.flow_state.keep_incoming_flow(&flow, handle);
        drop(flow);
        Ok(answer)
    }

    /// Gives the credit back that is left, if the receiver's last flow drains, and returns the flow to send, which states
    /// it: all of it is added to the delivery-count, so that each credit is spent on a delivery or given back, once
    /// (`amqp_link_state::laws::each_credit_is_spent_or_given_back`). If that flow does not drain there is nothing to
    /// send, and nothing changes.
    ///
    /// Refused with `UnattachedHandle`, and nothing changed, without output handle. Does not allocate.
    pub fn give_back_credit(&mut self) -> Result<Option<LinkFlow>, LinkRelayError>
        ensures answer { MatchOption self.old.output_handle
            (result ≡ Err LinkRelayError.UnattachedHandle)
            (λ handle. result ≡ Ok (if self.old.flow_state.drain
            then Some (flow_of (given_back self.old.flow_state) handle false) else None)) }
        ensures after { OnOk result (self.new ≡ record self.old {
          flow_state = if self.old.flow_state.drain then given_back self.old.flow_state else self.old.flow_state;
        }) }
        ensures left { OnErr result (self.new ≡ self.old) }
    {
        let Some(handle) = self.inner.output_handle else {
            return Err(LinkRelayError::UnattachedHandle);
        };
        Ok(self.inner.flow_state.give_back(handle))
    }

    /// The sender's own flow to send, which states its delivery-count and credit as they are (2.6.7); the number of
    /// deliveries that wait is set before, if it is passed. A receiver takes the count from it: send it once all of an
    /// exchange's list is resumed, sent again or put back, since a receiver may have counted what was resumed.
    ///
    /// Refused in this order, with nothing changed: `IllegalState` without output handle; `OutOfMemory`, only for the
    /// copy of the properties.
    pub fn send_flow(
        &mut self,
        available: Option<u32>,
        echo: bool,
        include_properties: bool,
    ) -> Result<LinkFrame, FlowError>
        ensures after { OnOk result (self.new
            ≡ record self.old { flow_state = with_available available self.old.flow_state }) }
        ensures flow { IfOk result (λ sent. IsSomeAnd self.old.output_handle (λ handle.
            sent ≡ LinkFrame.Flow (sender_flow self.new.flow_state handle echo include_properties))) }
        ensures illegal { IsErrOf result FlowError.IllegalState ↔ (self.old.output_handle ≡ None) }
        ensures memory { IsErrOf result FlowError.OutOfMemory
            → (include_properties ≡ true) × (is_some self.old.flow_state.properties ≡ true) }
        ensures left { OnErr result (self.new ≡ self.old) }
    {
        let Some(handle) = self.inner.output_handle else {
            return Err(FlowError::IllegalState);
        };
        let state = &mut self.inner.flow_state;
        let flow = state.state_flow(available, handle, echo, include_properties)?;
        Ok(LinkFrame::Flow(flow))
    }

    /// Always refused with `TransferFrameToSender`: a transfer has arrived at a sender, and only a sender
    /// sends transfers (2.7.5). Does not allocate.
    pub fn on_incoming_transfer(
        &self,
        transfer: Transfer,
        payload: Payload,
    ) -> Result<(LinkFrame, Option<(DeliveryNumber, DeliveryTag)>), LinkRelayError>
        ensures { result ≡ Err LinkRelayError.TransferFrameToSender }
    {
        drop(transfer);
        drop(payload);
        Err(LinkRelayError::TransferFrameToSender)
    }
}

//! Flows that a receiver sends and takes (2.6.7).
ghost use Rattle.std.specs.Prelude.{◌≡◌, ◌↔◌, true, None, Ok, Err};
ghost use Rattle.std.specs.Prelude.{IfOk, IsErrOf, IsSomeAnd, OnOk, OnErr, MatchOption, is_some};
ghost use Rattle.amqp_link_state.specs.Counts.{receiver_after, receiver_reply};
ghost use Rattle.amqp_link_state.specs.Counts.{moved_to, with_stated, stated_flow};

use crate::receiver_link::ReceiverLink;
use amqp_link_endpoint::endpoint::target::LinkTarget;
use amqp_link_types::frame::LinkFrame;
use amqp_link_types::types::{FlowError, LinkFlow, LinkRelayError, SequenceNo};

impl<T: LinkTarget> ReceiverLink<T> {
    /// Moves the delivery-count to the sender's, as the caller has seen it (2.6.7): the one of its attach or of its last
    /// flow, and one for each delivery that it has begun since. `on_complete_transfer` counts what is delivered, which
    /// differs from that by each resumed delivery, and by each one that was aborted after its first transfer. Up to where
    /// the sender may send stays: the link-credit is what is left of it, and 0 if the sender is past it. Does not
    /// allocate.
    pub fn move_delivery_count(&mut self, count: SequenceNo)
        ensures { self.new ≡ record self.old { flow_state = moved_to count self.old.flow_state } }
    {
        self.inner.flow_state.move_delivery_count(count);
    }

    /// Sets the link-credit and the drain flag, each if one is passed, and returns the flow to send: the
    /// delivery-count, the link-credit and the drain flag as they are then, and the properties if they are to
    /// be included. `available` is left out, since only the sender knows it.
    ///
    /// Refused in this order, with nothing changed: `IllegalState` without output handle; `OutOfMemory`, only
    /// for the copy of the properties.
    pub fn send_flow(
        &mut self,
        credit: Option<u32>,
        drain: Option<bool>,
        echo: bool,
        include_properties: bool,
    ) -> Result<LinkFrame, FlowError>
        ensures after { OnOk result (self.new
            ≡ record self.old { flow_state = with_stated credit drain self.old.flow_state }) }
        ensures flow { IfOk result (λ sent. IsSomeAnd self.old.output_handle (λ handle.
            sent ≡ LinkFrame.Flow (stated_flow self.new.flow_state handle echo include_properties))) }
        ensures illegal { IsErrOf result FlowError.IllegalState ↔ (self.old.output_handle ≡ None) }
        ensures memory { IsErrOf result FlowError.OutOfMemory
            → (include_properties ≡ true) × (is_some self.old.flow_state.properties ≡ true) }
        ensures left { OnErr result (self.new ≡ self.old) }
    {
        let Some(handle) = self.inner.output_handle else {
            return Err(FlowError::IllegalState);
        };
        let state = &mut self.inner.flow_state;
        let flow = state.state_flow(credit, drain, handle, echo, include_properties)?;
        Ok(LinkFrame::Flow(flow))
    }

    /// Takes the sender's flow, and returns the flow to reply with, if the flow asks for an echo. The
    /// delivery-count and `available` are updated if the flow has them; the link-credit and the drain flag
    /// are the receiver's own, and stay, also if the sender has drained: then nothing more arrives, though the
    /// credit stands as it was stated, until the next `send_flow` states it anew. The reply has the flow state
    /// afterwards, without properties and without `echo`.
    ///
    /// Refused with `UnattachedHandle`, and nothing changed, without output handle. Does not allocate.
    pub fn on_incoming_flow(&mut self, flow: LinkFlow) -> Result<Option<LinkFlow>, LinkRelayError>
        ensures answer { MatchOption self.old.output_handle
            (result ≡ Err LinkRelayError.UnattachedHandle)
            (λ handle. result ≡ Ok (receiver_reply flow self.old.flow_state handle)) }
        ensures after { OnOk result (self.new
            ≡ record self.old { flow_state = receiver_after flow self.old.flow_state }) }
        ensures left { OnErr result (self.new ≡ self.old) }
    {
        let Some(handle) = self.inner.output_handle else {
            drop(flow);
            return Err(LinkRelayError::UnattachedHandle);
        };
        let reply = self.inner.flow_state.on_incoming_flow(&flow, handle);
        drop(flow);
        Ok(reply)
    }
}

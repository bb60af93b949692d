//! Flows of an inbox (2.6.7).
ghost use Rattle.std.specs.Prelude.{◌≡◌, ◌↔◌, true, None, Ok, Err, is_some};
ghost use Rattle.std.specs.Prelude.{IfOk, IsErrOf, IsSomeAnd, OnOk, OnErr, MatchOption};
ghost use Rattle.amqp_link_state.specs.Counts.{receiver_after, receiver_reply, stated_flow, with_stated};
ghost use Rattle.amqp_link_inbox.specs.Flows.{moved_by};

use crate::inbox::Inbox;
use amqp_link_endpoint::endpoint::LinkExt;
use amqp_link_endpoint::endpoint::target::LinkTarget;
use amqp_link_types::frame::LinkFrame;
use amqp_link_types::types::{FlowError, LinkFlow, LinkRelayError};

impl<T: LinkTarget> Inbox<T> {
    /// Sets the link-credit, which is how many deliveries the sender may begin after those that it has begun, and the drain
    /// flag, each if one is passed, and returns the flow to send, as `ReceiverLink::send_flow` does. The flow states the
    /// sender's own delivery-count, as it was last seen: so the sender may never begin more than this credit, whatever was
    /// resumed or aborted before.
    ///
    /// Refused in this order, with nothing changed: `IllegalState` without output handle; `OutOfMemory`, only for the copy
    /// of the properties.
    pub fn send_flow(
        &mut self,
        credit: Option<u32>,
        drain: Option<bool>,
        echo: bool,
        include_properties: bool,
    ) -> Result<LinkFrame, FlowError>
        ensures after { OnOk result (self.new ≡ record self.old {
          link = record self.old.link { flow_state = with_stated credit drain self.old.link.flow_state };
        }) }
        ensures flow { IfOk result (λ sent. IsSomeAnd self.old.link.output_handle (λ handle.
            sent ≡ LinkFrame.Flow (stated_flow self.new.link.flow_state handle echo include_properties))) }
        ensures illegal { IsErrOf result FlowError.IllegalState ↔ (self.old.link.output_handle ≡ None) }
        ensures memory { IsErrOf result FlowError.OutOfMemory
            → (include_properties ≡ true) × (is_some self.old.link.flow_state.properties ≡ true) }
        ensures left { OnErr result (self.new ≡ self.old) }
    {
        self.link.send_flow(credit, drain, echo, include_properties)
    }

    /// Takes the sender's flow, and returns the flow to reply with, if the flow asks for an echo. The delivery-count moves
    /// to the sender's, if the flow has it; up to where the sender may send stays, so that the link-credit is what is left
    /// of it.
    ///
    /// Refused with `UnattachedHandle`, and nothing changed, without output handle. Does not allocate.
    pub fn on_incoming_flow(&mut self, flow: LinkFlow) -> Result<Option<LinkFlow>, LinkRelayError>
        ensures answer { MatchOption self.old.link.output_handle
            (result ≡ Err LinkRelayError.UnattachedHandle)
            (λ handle. result ≡ Ok (receiver_reply flow (moved_by flow self.old.link.flow_state) handle)) }
        ensures after { OnOk result (self.new ≡ record self.old {
          link = record self.old.link { flow_state = receiver_after flow (moved_by flow self.old.link.flow_state) };
        }) }
        ensures left { OnErr result (self.new ≡ self.old) }
    {
        if self.link.output_handle().is_some()
            && let Some(count) = flow.delivery_count
        {
            self.link.move_delivery_count(count);
        }
        self.link.on_incoming_flow(flow)
    }
}

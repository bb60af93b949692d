//! How a sender's link endpoint is attached (2.6.3, 2.6.4).
use crate::sender_link::{SenderAttachExchange, SenderLink};
use amqp_link_endpoint::endpoint::LinkAttach;
use amqp_link_endpoint::endpoint::target::LinkTarget;
use amqp_link_types::delivery::Outcomes;
use amqp_link_types::frame::LinkFrame;
use amqp_link_types::types::{Attach, SenderAttachError};

impl<T: LinkTarget> LinkAttach for SenderLink<T> {
    ghost use Rattle.std.specs.Prelude.{◌≡◌};
    ghost use Rattle.amqp_link_exchange.specs.Exchanges.{outcomes_returned};
    ghost use Rattle.amqp_link_sender.specs.SenderAttaches.{sender_attached, sender_refusal, sender_taken, sender_left, sender_taking_allocates, exchange_in};

    type AttachExchange = (SenderAttachExchange, Outcomes);

    type AttachError = SenderAttachError;

    ghost attached = { sender_attached };

    ghost refusal_of = { sender_refusal T.admitted T.refused_by_sender };

    ghost taken = { sender_taken T.admitted };

    ghost exchanged = { λ own remote state answer. (answer.0 ≡ exchange_in state own remote)
        × (answer.1.items ≡ outcomes_returned own remote) };

    ghost allocates = { sender_taking_allocates };

    ghost left = { sender_left T.admitted T.refused_by_sender };

    fn send_attach(
        &mut self,
        is_reattaching: bool,
    ) -> Result<(LinkFrame, Outcomes), SenderAttachError> {
        self.inner
            .send_attach(self.alloc, is_reattaching, &mut self.unsettled)
    }

    /// Takes the receiver's attach, and resolves each delivery of both unsettled maps (2.6.13). The exchange
    /// has the list of those that are to be resumed, sent again or aborted, or whose outcome is to be stated
    /// again; beside it stand the outcomes of those that have ended. The link's unsettled map is empty
    /// afterwards.
    ///
    /// Refused in this order: `IllegalState`, with nothing changed, if there is no transition from this
    /// state. In the refusals below the state has moved and the input handle is set: the errors of the
    /// source's verification as a sender, if the link verifies sources and both endpoints have one;
    /// `CoordinatorIsNotImplemented` if the target is not of the link's kind; `IncomingTargetIsNone`; the
    /// errors of the target's verification, if the link verifies targets and has one. Then the link takes the
    /// target and the receiver's settle mode: `SndSettleModeNotSupported` if one endpoint settles what the
    /// other leaves unsettled. No refusal resolves a delivery. `OutOfMemory` comes after all of these, with
    /// nothing changed, and only if there are deliveries to exchange or both endpoints have properties: two
    /// empty unsettled maps allocate nothing, and if one of the two maps of properties is absent or empty, the
    /// other is taken without a copy. `handle_attach_error` returns what to do after a refusal.
    ///
    /// Each entry of the attach's map is looked up once in the link's.
    fn on_incoming_attach(
        &mut self,
        attach: Attach,
    ) -> Result<(SenderAttachExchange, Outcomes), SenderAttachError> {
        match self.plan_remote_attach(attach) {
            Ok(plan) => Ok(self.take_remote_attach(plan)),
            Err(refused) => Err(refused),
        }
    }
}

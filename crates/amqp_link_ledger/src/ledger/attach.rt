//! How a ledger is attached (2.6.3, 2.6.4), and how its unsettled deliveries are exchanged (2.6.13).
//!
//! A registration whose delivery the exchange returns to the user is handed out; one whose delivery has ended
//! is resolved.
ghost use Rattle.std.specs.Prelude.{◌≡◌, ◌≢◌, [], IfOk, OnOk, OnErr};
ghost use Rattle.amqp_link_types.specs.declared.types.attach.Attach.{Attach as TheAttach};
ghost use Rattle.amqp_link_endpoint.specs.AttachFields.{remote_entries};
ghost use Rattle.amqp_link_exchange.specs.Exchanges.{outcomes_returned};
ghost use Rattle.amqp_link_sender.specs.SenderAttaches.{exchange_in, IsAttachPlan};
ghost use Rattle.amqp_link_ledger.specs.Exchanging.{deliveries_in, ledger_taken};

use crate::ledger::OutcomeLedger;
use amqp_link_core::resumption::ResumingDelivery;
use amqp_link_endpoint::endpoint::target::LinkTarget;
use amqp_link_endpoint::endpoint::{LinkAttach, LinkExt};
use amqp_link_sender::sender_link::SenderAttachExchange;
use amqp_link_sender::sender_link::incoming::{
    AttachPlan, commit_incoming_attach, plan_incoming_attach,
};
use amqp_link_types::delivery::Outcomes;
use amqp_link_types::frame::LinkFrame;
use amqp_link_types::types::{Attach, DeliveryTag, SenderAttachError};
use std::alloc::AllocError;

// The deliveries that an exchange returns to the user.
fn deliveries_of(exchange: &SenderAttachExchange) -> &[(DeliveryTag, ResumingDelivery)]
    ensures { result.now ≡ deliveries_in exchange.now }
{
    match exchange {
        SenderAttachExchange::Complete => &[],
        SenderAttachExchange::IncompleteUnsettled(list) => list.as_slice(),
        SenderAttachExchange::Resume(list) => list.as_slice(),
    }
}

impl<T: LinkTarget> OutcomeLedger<T> {
    // Takes an attach as planned, and changes the fates of the registrations.
    fn take_planned(
        &mut self,
        plan: AttachPlan<T>,
    ) -> Result<(SenderAttachExchange, Outcomes), AllocError>
        requires { (attach : TheAttach) × IsAttachPlan T.admitted self.old.link attach plan }
        ensures taken { OnOk result ((attach : TheAttach) → IsAttachPlan T.admitted self.old.link attach plan
            → self.new ≡ ledger_taken T.admitted self.old attach) }
        ensures exchange { IfOk result (λ taken. (attach : TheAttach) → IsAttachPlan T.admitted self.old.link attach plan
            → taken.0 ≡ exchange_in plan.next self.old.link.unsettled (remote_entries attach)) }
        ensures outcomes { IfOk result (λ taken. (attach : TheAttach) → IsAttachPlan T.admitted self.old.link attach plan
            → taken.1.items ≡ outcomes_returned self.old.link.unsettled (remote_entries attach)) }
        ensures memory { OnErr result ((attach : TheAttach) → IsAttachPlan T.admitted self.old.link attach plan
            → outcomes_returned self.old.link.unsettled (remote_entries attach) ≢ []) }
        ensures left { OnErr result (self.new ≡ self.old) }
    {
        let copies = match plan
            .exchange
            .copies_of_outcomes(self.alloc, self.link.unsettled_map())
        {
            Ok(copies) => copies,
            Err(refused) => {
                drop(plan);
                return Err(refused);
            }
        };
        let (exchange, outcomes) = commit_incoming_attach(&mut self.link, plan);
        self.registrations.resolve_all(outcomes.as_slice(), copies);
        self.registrations.hand_out(deliveries_of(&exchange));
        Ok((exchange, outcomes))
    }
}

impl<T: LinkTarget> LinkAttach for OutcomeLedger<T> {
    ghost use Rattle.std.specs.Prelude.{◌≡◌};
    ghost use Rattle.amqp_link_exchange.specs.Exchanges.{outcomes_returned};
    ghost use Rattle.amqp_link_sender.specs.SenderAttaches.{sender_refusal, sender_left, sender_taking_allocates, exchange_in};
    ghost use Rattle.amqp_link_ledger.specs.Exchanging.{ledger_attached, ledger_taken};

    type AttachExchange = (SenderAttachExchange, Outcomes);

    type AttachError = SenderAttachError;

    ghost attached = { ledger_attached };

    ghost refusal_of = { λ ledger. sender_refusal T.admitted T.refused_by_sender ledger.link };

    ghost taken = { ledger_taken T.admitted };

    ghost exchanged = { λ own remote state answer. (answer.0 ≡ exchange_in state own remote)
        × (answer.1.items ≡ outcomes_returned own remote) };

    ghost allocates = { λ ledger. sender_taking_allocates ledger.link };

    ghost left = { λ error ledger attach.
        record ledger { link = sender_left T.admitted T.refused_by_sender error ledger.link attach } };

    /// Sends the attach, as the endpoint does. If the link is reattached, each pending registration is
    /// resolved with `LinkStateError::IllegalState`.
    fn send_attach(
        &mut self,
        is_reattaching: bool,
    ) -> Result<(LinkFrame, Outcomes), SenderAttachError> {
        let (frame, outcomes) = self.link.send_attach(is_reattaching)?;
        self.registrations.resolve_illegal(outcomes.as_slice());
        Ok((frame, outcomes))
    }

    /// Takes the receiver's attach, as the endpoint does. The registrations of the deliveries that have ended
    /// are resolved with the outcomes that are returned, and those of the deliveries in the list are handed
    /// out.
    ///
    /// Each outcome is copied for its registration, after all tests: `OutOfMemory`, with nothing changed,
    /// comes only if there are deliveries to exchange or both endpoints have properties, none of the two maps
    /// empty.
    fn on_incoming_attach(
        &mut self,
        attach: Attach,
    ) -> Result<(SenderAttachExchange, Outcomes), SenderAttachError> {
        match plan_incoming_attach(&mut self.link, attach) {
            Ok(plan) => Ok(self.take_planned(plan)?),
            Err(refused) => Err(refused),
        }
    }
}

//! Payloads that a ledger sends as new deliveries (2.7.5). An unsettled one makes a registration.
ghost use Rattle.std.specs.Prelude.{◌≡◌, Ok, Err, Some, IfOk, IsSome, IsSomeAnd, IsTrue, OnErr, MatchOption};
ghost use Rattle.amqp_link_split.specs.Fitting.{IsFitting};
ghost use Rattle.amqp_link_sender.specs.Senders.{SendsOrLacksCredit, SendsTaggedOrLacksCredit, SendsTransfer, SendsFitting, SendsTaggedFitting, SendAnswersThenOutOfMemory};
ghost use Rattle.amqp_link_sender.specs.Senders.{delivery_of, payload_tests, tagged_payload_tests, tagged_transfer_tests};
ghost use Rattle.amqp_link_sender.specs.Waits.{waiting_error, after_waiting};
ghost use Rattle.amqp_link_types.specs.Refusals.{AnswersThenOutOfMemory};
ghost use Rattle.amqp_link_ledger.specs.Sends.{tag_to_register, tag_of_unsettled, records_after_sending, after_settlement, does_await, IsRoomFor};
ghost use Rattle.amqp_link_sender.specs.declared.sender_link.Sending.TheVariants.{CreditMissing};

use crate::ledger::OutcomeLedger;
use crate::registrations::{Registrations, Reserved};
use amqp_link_endpoint::endpoint::LinkExt;
use amqp_link_endpoint::endpoint::target::LinkTarget;
use amqp_link_sender::sender_link::{SenderLink, Sending, Waiting};
use amqp_link_types::delivery::Settlement;
use amqp_link_types::frame::LinkFrame;
use amqp_link_types::types::{
    DeliveryState, LinkStateError, MessageFormat, Payload, SenderSettleMode, Transfer,
};
use std::alloc::{AllocError, Global};

impl<T: LinkTarget> OutcomeLedger<T> {
    /// Sends a payload as a new delivery, for one credit, as `SenderLink::send_payload` does. An unsettled
    /// delivery makes a registration with the next number.
    ///
    /// A pending detach is recorded, and the refusals have their order, as there: `OutOfMemory`, with nothing
    /// changed, comes only if none of the others does.
    pub fn send_payload(
        &mut self,
        waiting: Waiting,
        payload: &Payload,
        message_format: MessageFormat,
        settled: Option<bool>,
        state: Option<DeliveryState>,
        batchable: bool,
    ) -> Result<Sending, LinkStateError>
        ensures sent { IfOk result (λ sending. SendsOrLacksCredit self.old.link
            (delivery_of message_format settled state batchable) payload.now sending self.new.link) }
        ensures fits { IfOk result (λ sending. SendsFitting self.old.link
            (delivery_of message_format settled state batchable) payload.now sending) }
        ensures records { IfOk result (λ sending. self.new.records ≡ records_after_sending sending self.old.records) }
        ensures refused { MatchOption (waiting_error self.old.link.local_state waiting)
            (SendAnswersThenOutOfMemory result (payload_tests self.old.link
            (delivery_of message_format settled state batchable) payload.now))
            (λ error. result ≡ Err error) }
        ensures left { OnErr result (self.new
            ≡ record self.old { link = after_waiting self.old.link waiting }) }
    {
        let count = self.link.flow_state().delivery_count().to_be_bytes();
        self.send_under(
            waiting,
            &count,
            payload,
            message_format,
            settled,
            state,
            batchable,
        )
    }

    /// Sends a payload as a new delivery, for one credit, under this tag, as `SenderLink::send_payload_with_tag` does. An
    /// unsettled delivery makes a registration with the next number.
    ///
    /// A pending detach is recorded, and the refusals have their order, as by `send_payload`.
    pub fn send_payload_with_tag(
        &mut self,
        waiting: Waiting,
        delivery_tag: &[u8],
        payload: &Payload,
        message_format: MessageFormat,
        settled: Option<bool>,
        state: Option<DeliveryState>,
        batchable: bool,
    ) -> Result<Sending, LinkStateError>
        ensures sent { IfOk result (λ sending. SendsTaggedOrLacksCredit self.old.link delivery_tag.now
            (delivery_of message_format settled state batchable) payload.now sending self.new.link) }
        ensures fits { IfOk result (λ sending. SendsTaggedFitting self.old.link delivery_tag.now
            (delivery_of message_format settled state batchable) payload.now sending) }
        ensures records { IfOk result (λ sending. self.new.records ≡ records_after_sending sending self.old.records) }
        ensures refused { MatchOption (waiting_error self.old.link.local_state waiting)
            (SendAnswersThenOutOfMemory result (tagged_payload_tests self.old.link delivery_tag.now
            (delivery_of message_format settled state batchable) payload.now))
            (λ error. result ≡ Err error) }
        ensures left { OnErr result (self.new
            ≡ record self.old { link = after_waiting self.old.link waiting }) }
    {
        self.send_under(
            waiting,
            delivery_tag,
            payload,
            message_format,
            settled,
            state,
            batchable,
        )
    }

    // Sends a payload as a new delivery under this tag.
    fn send_under(
        &mut self,
        waiting: Waiting,
        tag: &[u8],
        payload: &Payload,
        message_format: MessageFormat,
        settled: Option<bool>,
        state: Option<DeliveryState>,
        batchable: bool,
    ) -> Result<Sending, LinkStateError>
        ensures sent { IfOk result (λ sending. SendsTaggedOrLacksCredit self.old.link tag.now
            (delivery_of message_format settled state batchable) payload.now sending self.new.link) }
        ensures fits { IfOk result (λ sending. SendsTaggedFitting self.old.link tag.now
            (delivery_of message_format settled state batchable) payload.now sending) }
        ensures records { IfOk result (λ sending. self.new.records ≡ records_after_sending sending self.old.records) }
        ensures refused { MatchOption (waiting_error self.old.link.local_state waiting)
            (SendAnswersThenOutOfMemory result (tagged_payload_tests self.old.link tag.now
            (delivery_of message_format settled state batchable) payload.now))
            (λ error. result ≡ Err error) }
        ensures left { OnErr result (self.new
            ≡ record self.old { link = after_waiting self.old.link waiting }) }
    {
        let room = room_for_payload(
            self.alloc,
            &self.link,
            &mut self.registrations,
            tag,
            &waiting,
            settled,
        );
        let reserved = match room {
            Ok(reserved) => reserved,
            Err(AllocError) => {
                drop(waiting);
                return self.without_room(tag, payload, message_format, settled, state, batchable);
            }
        };
        let sending = self.link.send_payload_with_tag(
            waiting,
            tag,
            payload,
            message_format,
            settled,
            state,
            batchable,
        );
        match sending {
            Ok(Sending::Sent { settlement, frames }) => {
                register_unsettled(&mut self.registrations, &settlement, reserved);
                Ok(Sending::Sent { settlement, frames })
            }
            Ok(Sending::CreditMissing) => {
                drop(reserved);
                Ok(Sending::CreditMissing)
            }
            Err(error) => {
                drop(reserved);
                Err(error)
            }
        }
    }

    // What a send under this tag returns if there is no memory for the registration: `OutOfMemory`, unless the
    // endpoint refuses the payload or has no credit.
    fn without_room(
        &self,
        tag: &[u8],
        payload: &Payload,
        message_format: MessageFormat,
        settled: Option<bool>,
        state: Option<DeliveryState>,
        batchable: bool,
    ) -> Result<Sending, LinkStateError>
        ensures unsent { IfOk result (λ sending. sending ≡ CreditMissing) }
        ensures refused { SendAnswersThenOutOfMemory result (tagged_payload_tests self.now.link tag.now
            (delivery_of message_format settled state batchable) payload.now) }
    {
        match self
            .link
            .can_send_payload_with_tag(tag, payload, message_format, settled, state, batchable)
        {
            Ok(true) => Err(LinkStateError::OutOfMemory),
            Ok(false) => Ok(Sending::CreditMissing),
            Err(refused) => Err(refused),
        }
    }

    /// Sends a payload with this transfer, as `SenderLink::send_payload_with_transfer` does. An unsettled
    /// delivery makes a registration with the next number.
    ///
    /// Refused in this order, with nothing changed: `IllegalState` if the transfer has no tag, then without
    /// input handle; `TagPending` for an unsettled delivery; `NoRoom`; `OutOfMemory`.
    pub fn send_payload_with_transfer(
        &mut self,
        message_format: MessageFormat,
        mut transfer: Transfer,
        payload: &Payload,
    ) -> Result<(Settlement, Vec<LinkFrame>), LinkStateError>
        ensures sent { IfOk result (λ sent. IsSomeAnd transfer.delivery_tag (λ tag.
            SendsTransfer self.old.link message_format transfer tag payload.now sent.0 sent.1.items self.new.link)) }
        ensures fits { IfOk result (λ sent.
            IsFitting transfer self.old.link.max_frame_size payload.now sent.1.items) }
        ensures records { IfOk result (λ sent. self.new.records ≡ after_settlement sent.0 self.old.records) }
        ensures refused { AnswersThenOutOfMemory LinkStateError.OutOfMemory result
            (tagged_transfer_tests self.old.link transfer payload.now) }
        ensures left { OnErr result (self.new ≡ self.old) }
    {
        let room = room_for_transfer(self.alloc, &self.link, &mut self.registrations, &transfer);
        let reserved = match room {
            Ok(reserved) => reserved,
            Err(refused) => {
                // Out of memory, unless the endpoint refuses it.
                let admitted = self.link.can_send_with_transfer(&mut transfer, payload);
                drop(transfer);
                admitted?;
                return Err(refused.into());
            }
        };
        match self
            .link
            .send_payload_with_transfer(message_format, transfer, payload)
        {
            Ok((settlement, frames)) => {
                register_unsettled(&mut self.registrations, &settlement, reserved);
                Ok((settlement, frames))
            }
            Err(refused) => {
                drop(reserved);
                Err(refused)
            }
        }
    }
}

// Room for the registration of a payload that is sent now under this tag, if the endpoint may register one.
fn room_for_payload<T: LinkTarget>(
    alloc: Global,
    link: &SenderLink<T>,
    registrations: &mut Registrations,
    tag: &[u8],
    waiting: &Waiting,
    settled: Option<bool>,
) -> Result<Option<Reserved>, AllocError>
    ensures tag { IfOk result (λ reserved. reserved ≡ tag_to_register link.now tag.now waiting.now settled) }
    ensures room { IfOk result (λ reserved. IsSome reserved → IsTrue registrations.new.has_room) }
    ensures records { registrations.new.records ≡ registrations.old.records }
    ensures memory { OnErr result (IsSome (tag_to_register link.now tag.now waiting.now settled)) }
{
    if !matches!(waiting, Waiting::Nothing) || !may_await(link, settled) {
        return Ok(None);
    }
    Ok(Some(registrations.reserve(alloc, tag)?))
}

// Room for the registration of a delivery that is sent with this transfer, if the endpoint may register it.
fn room_for_transfer<T: LinkTarget>(
    alloc: Global,
    link: &SenderLink<T>,
    registrations: &mut Registrations,
    transfer: &Transfer,
) -> Result<Option<Reserved>, AllocError>
    ensures tag { IfOk result (λ reserved. reserved ≡ tag_of_unsettled link.now transfer.now) }
    ensures room { IfOk result (λ reserved. IsSome reserved → IsTrue registrations.new.has_room) }
    ensures records { registrations.new.records ≡ registrations.old.records }
    ensures memory { OnErr result (IsSome (tag_of_unsettled link.now transfer.now)) }
{
    if link.input_handle().is_none() || link.is_settled_on_send(transfer) {
        return Ok(None);
    }
    match &transfer.delivery_tag {
        Some(tag) => Ok(Some(registrations.reserve(alloc, tag.as_bytes())?)),
        None => Ok(None),
    }
}

// Whether a payload that is sent now may await its outcome.
fn may_await<T: LinkTarget>(link: &SenderLink<T>, settled: Option<bool>) -> bool
    ensures { result ≡ does_await link.now settled }
{
    let is_settled = matches!(
        (link.snd_settle_mode(), settled),
        (SenderSettleMode::Settled, _) | (SenderSettleMode::Mixed, Some(true))
    );
    let has_handles = link.output_handle().is_some() && link.input_handle().is_some();
    has_handles && link.flow_state().link_credit() != 0 && !is_settled
}

// Registers a delivery that was sent, if it awaits its outcome, in the room that was made for it.
fn register_unsettled(
    registrations: &mut Registrations,
    settlement: &Settlement,
    reserved: Option<Reserved>,
)
    requires { IsRoomFor settlement.now reserved registrations.old }
    ensures { registrations.new.records ≡ after_settlement settlement.now registrations.old.records }
{
    match (settlement, reserved) {
        (Settlement::Unsettled(_), Some(reserved)) => registrations.register(reserved),
        (_, reserved) => drop(reserved),
    }
}

//! The last transfer of a delivery at a receiver (2.6.7, 2.6.12, 2.7.5).
ghost use Rattle.std.specs.Prelude.{◌≡◌, ◌⊎◌, ◌≢◌, ◌<◌, ℕ, true, Some, None};
ghost use Rattle.std.specs.Prelude.{IfOk, IsErrOf, IsSome, IsSomeAnd, OnOk, OnErr, MatchResult, option_copied};
ghost use Rattle.std.specs.List.{concat};
ghost use Rattle.amqp_link_types.specs.Entries.{entry_at};
ghost use Rattle.amqp_link_receiver.specs.Completing;
ghost use Rattle.amqp_link_receiver.specs.Completing.{link_refusal, transfer_refusal, delivery_refusal};
ghost use Rattle.amqp_link_receiver.specs.Completing.{IsDelivery, completion_refusal, unsettled_tag};
ghost use Rattle.amqp_link_receiver.specs.Completing.{entered, spent, reported};

use crate::receiver_link::ReceiverLink;
use crate::receiver_link::deliveries::is_settled;
use amqp_link_endpoint::endpoint::target::LinkTarget;
use amqp_link_state::state::LinkState;
use amqp_link_types::delivery::{Delivery, DeliveryInfo};
use amqp_link_types::types::{
    DecodeError, DeliveryNumber, DeliveryState, DeliveryTag, FromBody, MessageDecodeError, Payload,
    ReceiverSettleMode, ReceiverTransferError, Transfer,
};
use std::alloc::AllocError;

// The entry and the result of a delivery's last transfer, made before anything is changed.
#[derive(Drop)]
struct Completion<'a, B> {
    key: Option<&'a DeliveryTag>,
    answer: Result<Delivery<B>, ReceiverTransferError>,
}

impl<T: LinkTarget> ReceiverLink<T> {
    /// Takes the last transfer of a delivery, whose payload arrived in these pieces and ends at this position
    /// (3.4.1), and returns the delivery with its message. It takes one credit (2.6.7). An unsettled delivery
    /// gets an entry in the unsettled map, as received up to that position, until it is settled; a settled
    /// one gets none, and its info has no settle mode.
    ///
    /// Refused in this order. With nothing changed: `IllegalState` unless both attaches were exchanged;
    /// `TransferLimitExceeded` without credit. With the credit spent: `DeliveryIdIsNone`;
    /// `DeliveryTagIsNone`; `IllegalRcvSettleModeInTransfer` if an unsettled transfer has mode `Second` on a
    /// link of mode `First`. With the credit spent, and the entry of an unsettled delivery in the map:
    /// `MessageDecode` if the body refuses the bytes; `IllegalState` without output handle. `OutOfMemory`,
    /// with nothing changed, comes only if none of the first five holds.
    ///
    /// Its cost grows with what the body reads of the pieces, and not with the number of entries in the
    /// unsettled map, where the tag is found by a hash. The tag is copied into the result, and into the map
    /// only if it has no entry there.
    pub fn on_complete_transfer<B: FromBody>(
        &mut self,
        transfer: &Transfer,
        pieces: &[Payload],
        section_number: u32,
        section_offset: u64,
    ) -> Result<Delivery<B>, ReceiverTransferError>
        ensures delivered { IfOk result (λ delivery.
            IsDelivery self.old transfer.now (B.decoded (concat pieces.now)) delivery
            × (self.new ≡ entered transfer.now section_number section_offset self.old)) }
        ensures refused { MatchResult result
            (λ _. completion_refusal self.old transfer.now section_number section_offset
            (B.decoded (concat pieces.now)) ≡ None)
            (λ error. (error ≡ ReceiverTransferError.OutOfMemory)
            ⊎ (completion_refusal self.old transfer.now section_number section_offset
            (B.decoded (concat pieces.now)) ≡ Some (error, self.new))) }
        ensures memory { IsErrOf result ReceiverTransferError.OutOfMemory
            → (self.new ≡ self.old) × (link_refusal self.old ≡ None)
            × (transfer_refusal self.old transfer.now ≡ None) }
    {
        if !may_receive(self.inner.local_state) {
            return Err(ReceiverTransferError::IllegalState);
        }
        if self.inner.flow_state.link_credit() == 0 {
            return Err(ReceiverTransferError::TransferLimitExceeded);
        }
        let Ok(completion) = self.complete(transfer, pieces) else {
            return Err(ReceiverTransferError::OutOfMemory);
        };
        let Completion { key, answer } = completion;
        let Ok(()) = self.enter(key, section_number, section_offset) else {
            drop(answer);
            return Err(ReceiverTransferError::OutOfMemory);
        };
        answer
    }

    // Puts the entry of the delivery with this tag, if there is a tag, and spends one credit.
    fn enter(
        &mut self,
        key: Option<&DeliveryTag>,
        section_number: u32,
        section_offset: u64,
    ) -> Result<(), AllocError>
        requires { 0 < self.old.flow_state.link_credit }
        ensures ok { OnOk result
            (self.new ≡ spent (reported (option_copied key.entry) section_number section_offset self.old)) }
        ensures memory { OnErr result (IsSomeAnd (option_copied key.entry) (λ tag.
            entry_at self.old.unsettled tag ≡ None)) }
        ensures left { OnErr result (self.new ≡ self.old) }
    {
        if let Some(tag) = key {
            let state = DeliveryState::Received {
                section_number,
                section_offset,
            };
            self.keep(tag, state)?;
        }
        self.inner.flow_state.spend_one();
        Ok(())
    }

    // The entry and the result of a last transfer, once the state and the credit admit it.
    fn complete<'a, B: FromBody>(
        &self,
        transfer: &'a Transfer,
        pieces: &[Payload],
    ) -> Result<Completion<'a, B>, AllocError>
        requires open { Completing.may_receive self.now.local_state ≡ true }
        requires credit { 0 < self.now.flow_state.link_credit }
        ensures answer { IfOk result (λ completion. MatchResult completion.answer
            (λ delivery. (option_copied completion.key ≡ unsettled_tag transfer.now)
            × IsDelivery self.now transfer.now (B.decoded (concat pieces.now)) delivery
            × ((number offset : ℕ) → completion_refusal self.now transfer.now number offset
            (B.decoded (concat pieces.now)) ≡ None))
            (λ error. (error ≢ ReceiverTransferError.OutOfMemory)
            × ((number offset : ℕ) → completion_refusal self.now transfer.now number offset
            (B.decoded (concat pieces.now))
            ≡ Some (error, spent (reported (option_copied completion.key) number offset self.now))))) }
        ensures admitted { IfOk result (λ completion. IsSome completion.key
            → transfer_refusal self.now transfer.now ≡ None) }
        ensures memory { OnErr result (transfer_refusal self.now transfer.now ≡ None) }
    {
        match self.identify(transfer) {
            Ok((delivery_id, tag)) => {
                let key = key_of(transfer, tag);
                let info = info_of(transfer, delivery_id, tag)?;
                let answer = self.deliver(transfer, info, pieces)?;
                Ok(Completion { key, answer })
            }
            Err(refusal) => Ok(Completion {
                key: None,
                answer: Err(refusal),
            }),
        }
    }

    // The delivery, or why it is not returned.
    fn deliver<B: FromBody>(
        &self,
        transfer: &Transfer,
        info: DeliveryInfo,
        pieces: &[Payload],
    ) -> Result<Result<Delivery<B>, ReceiverTransferError>, AllocError>
        requires { info ≡ Completing.info_of transfer.now }
        ensures { IfOk result (λ answer. MatchResult answer
            (λ delivery. IsDelivery self.now transfer.now (B.decoded (concat pieces.now)) delivery
            × (delivery_refusal self.now transfer.now (B.decoded (concat pieces.now)) ≡ None))
            (λ error. (error ≢ ReceiverTransferError.OutOfMemory)
            × (delivery_refusal self.now transfer.now (B.decoded (concat pieces.now))
            ≡ Some error))) }
    {
        let message = match B::decode_from_pieces(self.alloc, pieces) {
            Ok(message) => message,
            Err(DecodeError::OutOfMemory) => return Err(AllocError),
            Err(source) => {
                let refused = MessageDecodeError { source, info };
                return Ok(Err(ReceiverTransferError::MessageDecode(refused)));
            }
        };
        let Some(handle) = self.inner.output_handle else {
            drop(message);
            drop(info);
            return Ok(Err(ReceiverTransferError::IllegalState));
        };
        let delivery = Delivery::new(handle, info, transfer.message_format, message);
        Ok(Ok(delivery))
    }

    // The delivery id and tag of a transfer that may complete a delivery here. Does not allocate.
    fn identify<'a>(
        &self,
        transfer: &'a Transfer,
    ) -> Result<(DeliveryNumber, &'a DeliveryTag), ReceiverTransferError>
        ensures { MatchResult result
            (λ named. (transfer_refusal self.now transfer.now ≡ None)
            × (transfer.now.delivery_id ≡ Some named.0)
            × (transfer.now.delivery_tag ≡ Some named.1.now))
            (λ error. transfer_refusal self.now transfer.now ≡ Some error) }
    {
        let Some(delivery_id) = transfer.delivery_id else {
            let refused = ReceiverTransferError::DeliveryIdIsNone;
            return Err(refused);
        };
        let Some(tag) = &transfer.delivery_tag else {
            return Err(ReceiverTransferError::DeliveryTagIsNone);
        };
        if !is_settled(transfer)
            && self.inner.rcv_settle_mode == ReceiverSettleMode::First
            && transfer.rcv_settle_mode == Some(ReceiverSettleMode::Second)
        {
            return Err(ReceiverTransferError::IllegalRcvSettleModeInTransfer);
        }
        Ok((delivery_id, tag))
    }
}

// Whether a link in this state takes deliveries.
fn may_receive(state: LinkState) -> bool
    ensures { result ≡ Completing.may_receive state }
{
    matches!(
        state,
        LinkState::Attached | LinkState::IncompleteAttachExchanged
    )
}

// The tag under which the delivery gets an entry: none if it is settled.
fn key_of<'a>(transfer: &Transfer, tag: &'a DeliveryTag) -> Option<&'a DeliveryTag>
    requires { transfer.now.delivery_tag ≡ Some tag.now }
    ensures { option_copied result ≡ unsettled_tag transfer.now }
{
    if is_settled(transfer) {
        None
    } else {
        Some(tag)
    }
}

// The info of the delivery.
fn info_of(
    transfer: &Transfer,
    delivery_id: DeliveryNumber,
    tag: &DeliveryTag,
) -> Result<DeliveryInfo, AllocError>
    requires id { transfer.now.delivery_id ≡ Some delivery_id }
    requires tag { transfer.now.delivery_tag ≡ Some tag.now }
    ensures { IfOk result (λ info. info ≡ Completing.info_of transfer.now) }
{
    let mode = if is_settled(transfer) {
        None
    } else {
        transfer.rcv_settle_mode
    };
    Ok(DeliveryInfo::new(delivery_id, tag.clone()?, mode))
}

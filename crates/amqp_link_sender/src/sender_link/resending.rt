//! Deliveries that are sent again or resumed, registered again without being sent, or withdrawn (2.6.13).
ghost use Rattle.std.specs.Prelude.{◌≡◌, ◌<◌, ◌≤◌, ◌∷◌, [], None, Some, Ok, Err, IfOk, IfErr, IsErrOf, IsSomeAnd, OnOk, OnErr, MatchOption, length};
ghost use Rattle.amqp_link_types.specs.Entries.{entry_at, with_entry, without_entry};
ghost use Rattle.amqp_link_types.specs.Refusals.{AnswersExactly, AnswersThenOutOfMemory};
ghost use Rattle.amqp_link_split.specs.Room;
ghost use Rattle.amqp_link_split.specs.Fitting.{frame_len, IsFitting};
ghost use Rattle.amqp_link_sender.specs.Senders.{abort_frame, abort_tests, abort_transfer};
ghost use Rattle.amqp_link_sender.specs.Senders.{delivery_of, resuming_transfer, IsSent};
ghost use Rattle.amqp_link_sender.specs.Senders.{is_pending, unsettled_transfer_tests, HandsBackThenOutOfMemory};

use crate::sender_link::SenderLink;
use amqp_link_endpoint::endpoint::target::LinkTarget;
use amqp_link_split::room::{payload_limit, payload_limit_with_tag};
use amqp_link_split::split::frames;
use amqp_link_types::delivery::UnsettledMessage;
use amqp_link_types::frame::{LinkFrame, LinkTransfer};
use amqp_link_types::types::{
    DeliveryState, DeliveryTag, InputHandle, LinkStateError, MessageFormat, OutputHandle, Payload,
    Transfer,
};

// The transfer that aborts a delivery, without its tag.
fn abort_without_tag(handle: OutputHandle, message_format: MessageFormat) -> Transfer
    ensures { result ≡ record (abort_transfer handle [] message_format) { delivery_tag = None } }
{
    Transfer {
        handle: handle.into(),
        delivery_id: None,
        delivery_tag: None,
        message_format: Some(message_format),
        settled: Some(true),
        more: false,
        rcv_settle_mode: None,
        state: None,
        resume: true,
        aborted: true,
        batchable: false,
    }
}

impl<T: LinkTarget> SenderLink<T> {
    /// The transfer that resumes a delivery (2.6.13, 2.7.5): unsettled in every mode of the link.
    ///
    /// `IllegalState` without output handle. Does not allocate.
    pub fn generate_resuming_transfer_performative(
        &self,
        delivery_tag: DeliveryTag,
        message_format: MessageFormat,
        state: Option<DeliveryState>,
        batchable: bool,
    ) -> Result<Transfer, LinkStateError>
        ensures { MatchOption self.now.output_handle
            (result ≡ Err LinkStateError.IllegalState)
            (λ handle. result ≡ Ok (resuming_transfer self.now handle delivery_tag
            (delivery_of message_format None state batchable))) }
    {
        let Some(handle) = self.inner.output_handle else {
            drop((delivery_tag, state));
            return Err(LinkStateError::IllegalState);
        };
        Ok(Transfer {
            handle: handle.into(),
            delivery_id: None,
            delivery_tag: Some(delivery_tag),
            message_format: Some(message_format),
            settled: Some(false),
            more: false,
            rcv_settle_mode: None,
            state,
            resume: true,
            aborted: false,
            batchable,
        })
    }

    /// Sends the rest of a delivery with this transfer, and registers its entry, with the whole payload and
    /// the state that it has, under the tag, also if the transfer is settled. Spends no credit.
    ///
    /// Refused in this order, with nothing changed and the entry returned: `IllegalState` without input
    /// handle; `TagPending`, by the tag given here; `NoRoom`; `OutOfMemory`, only if none of these holds.
    ///
    /// Its cost grows with the number of frames, and not with the number of pending deliveries: the tag is
    /// looked up by a hash, once for the test and once as the entry is registered.
    pub fn send_unsettled_transfer(
        &mut self,
        mut transfer: Transfer,
        rest: &Payload,
        tag: DeliveryTag,
        entry: UnsettledMessage,
    ) -> Result<Vec<LinkFrame>, (LinkStateError, UnsettledMessage)>
        ensures sent { IfOk result (λ frames. IsSent self.old transfer rest.now frames.items) }
        ensures fits { IfOk result (λ frames.
            IsFitting transfer self.old.max_frame_size rest.now frames.items) }
        ensures registered { OnOk result (self.new ≡ record self.old {
          unsettled = with_entry self.old.unsettled tag entry;
        }) }
        ensures refused { HandsBackThenOutOfMemory result entry
            (unsettled_transfer_tests self.old transfer tag rest.now) }
        ensures left { OnErr result (self.new ≡ self.old) }
    {
        let (input_handle, limit) = match self.admit_unsettled(&mut transfer, &tag, rest) {
            Ok(admitted) => admitted,
            Err(refused) => {
                drop((transfer, tag));
                return Err((refused, entry));
            }
        };
        let Ok(frames) = frames(self.alloc, input_handle, transfer, rest, limit) else {
            drop(tag);
            return Err((LinkStateError::OutOfMemory, entry));
        };
        match self.enter(tag, entry) {
            Ok(()) => Ok(frames),
            Err(entry) => {
                drop(frames);
                Err((LinkStateError::OutOfMemory, entry))
            }
        }
    }

    /// Registers the entry of a delivery again without sending it, so that the next exchange resolves it.
    ///
    /// Refused in this order, with nothing changed and the entry returned: `TagPending`; `OutOfMemory`.
    pub fn put_back(
        &mut self,
        tag: DeliveryTag,
        entry: UnsettledMessage,
    ) -> Result<(), (LinkStateError, UnsettledMessage)>
        ensures registered { OnOk result (self.new ≡ record self.old {
          unsettled = with_entry self.old.unsettled tag entry;
        }) }
        ensures refused { HandsBackThenOutOfMemory result entry
            ((is_pending self.old tag, LinkStateError.TagPending) ∷ []) }
        ensures left { OnErr result (self.new ≡ self.old) }
    {
        if self.unsettled.contains(&tag) {
            drop(tag);
            return Err((LinkStateError::TagPending, entry));
        }
        match self.enter(tag, entry) {
            Ok(()) => Ok(()),
            Err(entry) => Err((LinkStateError::OutOfMemory, entry)),
        }
    }

    /// The frame that aborts a delivery at the receiver (2.7.5): a transfer that resumes it and is aborted, settled and
    /// without payload, so that the receiver forgets what it holds of it. An exchange lists such a delivery as
    /// `ResumingDelivery::Abort`: it was withdrawn here, and the receiver still has an entry for it. Spends no credit.
    ///
    /// Refused in this order: `IllegalState` without output handle, then without input handle; `TagPending`;
    /// `NoRoom`; `OutOfMemory`, only of a tag of more than 16 bytes, which is copied.
    pub fn send_abort(
        &self,
        delivery_tag: &DeliveryTag,
        message_format: MessageFormat,
    ) -> Result<LinkFrame, LinkStateError>
        ensures sent { IfOk result (λ frame. IsSomeAnd self.now.output_handle (λ output.
            IsSomeAnd self.now.input_handle (λ input.
            frame ≡ abort_frame output input delivery_tag.now message_format))) }
        ensures fits { IfOk result (λ frame. frame_len frame ≤ self.now.max_frame_size) }
        ensures refused { AnswersThenOutOfMemory LinkStateError.OutOfMemory result
            (abort_tests self.now delivery_tag.now message_format) }
        ensures memory { IsErrOf result LinkStateError.OutOfMemory → 16 < length delivery_tag.now }
    {
        let Some(handle) = self.inner.output_handle else {
            return Err(LinkStateError::IllegalState);
        };
        let Some(input_handle) = self.inner.input_handle else {
            return Err(LinkStateError::IllegalState);
        };
        if self.unsettled.contains(delivery_tag) {
            return Err(LinkStateError::TagPending);
        }
        let payload = Payload::new();
        let mut performative = abort_without_tag(handle, message_format);
        let tag = delivery_tag.as_bytes();
        let frame = self.inner.max_frame_size;
        if payload_limit_with_tag(&mut performative, tag, frame, &payload).is_none() {
            drop((performative, payload));
            return Err(LinkStateError::NoRoom);
        }
        let Ok(tag) = delivery_tag.clone() else {
            drop((performative, payload));
            return Err(LinkStateError::OutOfMemory);
        };
        performative.delivery_tag = Some(tag);
        Ok(LinkFrame::FirstTransfer(LinkTransfer {
            input_handle,
            performative,
            payload,
        }))
    }

    /// Takes the entry of a delivery back, if it is pending: no outcome is returned for it any more. The
    /// last entry of the map moves into the gap. Does not allocate.
    pub fn withdraw(&mut self, tag: &DeliveryTag) -> Option<UnsettledMessage>
        ensures entry { result ≡ entry_at self.old.unsettled tag.now }
        ensures after { self.new ≡ record self.old {
          unsettled = without_entry self.old.unsettled tag.now;
        } }
    {
        self.unsettled.remove(tag)
    }

    /// Whether `send_unsettled_transfer` would send this rest now: refused as there, in the same order, without
    /// `OutOfMemory`. Does not allocate, and changes nothing: the transfer is as before.
    pub fn can_send_unsettled(
        &self,
        transfer: &mut Transfer,
        tag: &DeliveryTag,
        rest: &Payload,
    ) -> Result<(), LinkStateError>
        ensures refused { AnswersExactly result
            (unsettled_transfer_tests self.now transfer.old tag.now rest.now) }
        ensures same { transfer.new ≡ transfer.old }
    {
        let _ = self.admit_unsettled(transfer, tag, rest)?;
        Ok(())
    }

    // The input handle and the payload limit for a delivery that is to be registered under this tag, if no
    // test refuses it. The transfer stays as it is.
    fn admit_unsettled(
        &self,
        transfer: &mut Transfer,
        tag: &DeliveryTag,
        rest: &Payload,
    ) -> Result<(InputHandle, usize), LinkStateError>
        ensures handle { IfOk result (λ admitted. self.now.input_handle ≡ Some admitted.0) }
        ensures limit { IfOk result (λ admitted.
            admitted.1 ≡ Room.payload_limit transfer.old self.now.max_frame_size) }
        ensures some { IfOk result (λ admitted. 0 < length rest.now → 0 < admitted.1) }
        ensures refused { AnswersExactly result
            (unsettled_transfer_tests self.now transfer.old tag.now rest.now) }
        ensures same { transfer.new ≡ transfer.old }
    {
        let Some(input_handle) = self.inner.input_handle else {
            return Err(LinkStateError::IllegalState);
        };
        if self.unsettled.contains(tag) {
            return Err(LinkStateError::TagPending);
        }
        match payload_limit(transfer, self.inner.max_frame_size, rest) {
            Some(limit) => Ok((input_handle, limit)),
            None => Err(LinkStateError::NoRoom),
        }
    }

    // Registers an entry. Out of memory hands it back, with nothing changed.
    fn enter(&mut self, tag: DeliveryTag, entry: UnsettledMessage) -> Result<(), UnsettledMessage>
        ensures registered { OnOk result (self.new ≡ record self.old {
          unsettled = with_entry self.old.unsettled tag entry;
        }) }
        ensures back { IfErr result (λ back. back ≡ entry) }
        ensures left { OnErr result (self.new ≡ self.old) }
    {
        match self.unsettled.put(tag, entry) {
            Ok(before) => {
                drop(before);
                Ok(())
            }
            Err(refused) => {
                let (tag, entry) = refused.value;
                drop(tag);
                Err(entry)
            }
        }
    }
}

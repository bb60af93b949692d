//! Transfers that arrive at an inbox (2.7.5).
ghost use Rattle.std.specs.Prelude.{◌≡◌, ◌&&◌, ◌==◌, not, true, false, None, Some, IfErr, IfOk, IsErrAnd, IsSome, OnErr, if◌then◌else◌};
ghost use Rattle.amqp_link_types.specs.Refusals.{AnswersOrOutOfMemory, refusal};
ghost use Rattle.amqp_link_core.specs.IncompleteRefusals.{AreReturned, with_error};
ghost use Rattle.amqp_link_inbox.specs.Inboxes;
ghost use Rattle.amqp_link_inbox.specs.Inboxes.{Arrives, IsHandled, arrival_tests, field_tests, tests_by_contents};
ghost use Rattle.amqp_link_receiver.specs.Completing;
ghost use Rattle.amqp_link_receiver.specs.Completing.{is_illegal_mode};
ghost use Rattle.amqp_link_receiver.specs.ReceiverDeliveries;

use crate::arrival::{Arrival, Arrived};
use crate::inbox::Inbox;
use crate::kept::{Stage, is_settled, refuse};
use amqp_link_core::incomplete_transfer::RefusedTransfer;
use amqp_link_endpoint::endpoint::LinkExt;
use amqp_link_endpoint::endpoint::target::LinkTarget;
use amqp_link_state::state::LinkState;
use amqp_link_types::types::{
    DeliveryTag, Payload, ReceiverSettleMode, ReceiverTransferError, Transfer,
};

impl<T: LinkTarget> Inbox<T> {
    /// Takes a transfer from the session, and returns what it makes of its delivery (2.7.5).
    ///
    /// Its delivery is the one under way, while the transfer before it had `more`; otherwise the one that its tag names. If
    /// it aborts the delivery, nothing of that is kept. If it is the first one of a delivery in this attachment, without
    /// `resume`, it begins a new delivery, in the place of what was kept of its tag, and is counted (2.6.7). Any other is
    /// added to what is kept: of a delivery that was complete before it changes the id, and may settle it; where nothing is
    /// kept it is ignored. One that resumes a delivery starts where the bytes end that are held, or at the position that its
    /// state names (`Received`, 3.4.1): what is held beyond that is dropped. A position of which nothing is held is not read.
    ///
    /// Refused in this order, with nothing changed, and the transfer and its payload handed back: `IllegalState` unless both
    /// attaches were exchanged. The first one of a delivery in this attachment: `DeliveryIdIsNone`, `DeliveryTagIsNone`, and
    /// unless it is resumed, `IllegalRcvSettleModeInTransfer` if it is unsettled and has mode `Second` on a link of mode
    /// `First`. One that begins a new delivery: `PayloadTooLong`. One that is added:
    /// `InconsistentFieldInMultiFrameDelivery` if its tag, id or format is another (a first one may have another id), or if
    /// it has bytes and the delivery was complete; then `PayloadTooLong`. `OutOfMemory` comes only if none of the first four
    /// holds. The sender is at fault in all but the last: end the link with the error.
    ///
    /// Give `session` to the session, which names the delivery by it. After `Complete` call `take`, after
    /// `CompleteSettled` `take_settled`.
    ///
    /// Reads the payload once, and finds the tag by a hash, whatever number of deliveries is kept. One that starts before the
    /// end reads what is held of its delivery, too, and copies its list of pieces.
    pub fn on_incoming_transfer(
        &mut self,
        transfer: Transfer,
        payload: Payload,
    ) -> Result<Arrived, RefusedTransfer>
        ensures arrives { IfOk result (λ came. Arrives self.old transfer payload came self.new) }
        ensures refused { AnswersOrOutOfMemory ReceiverTransferError.OutOfMemory
            (with_error result) (arrival_tests self.old transfer payload) }
        ensures memory { IsErrAnd result (λ refused. refused.error ≡ ReceiverTransferError.OutOfMemory)
            → refusal (field_tests self.old transfer) ≡ None }
        ensures back { IfErr result (λ refused. AreReturned transfer payload refused) }
        ensures left { OnErr result (self.new ≡ self.old) }
    {
        if let Some(error) = self.refusal_of(&transfer) {
            return Err(refuse(error, transfer, payload));
        }
        let Ok(session) = self.link.copy_session_record(&transfer) else {
            return Err(refuse(ReceiverTransferError::OutOfMemory, transfer, payload));
        };
        let more = transfer.more;
        let without_credit = self.lacks_credit(&transfer);
        let (arrival, replaced) = match self.handle(transfer, payload) {
            Ok(made) => made,
            Err(refused) => {
                drop(session);
                return Err(refused);
            }
        };
        let tag = self.finish(more);
        Ok(Arrived {
            arrival,
            tag,
            replaced,
            without_credit,
            session,
        })
    }

    // Whether the link takes deliveries, and sends dispositions.
    pub(super) fn may_receive(&self) -> bool
        ensures { result ≡ Completing.may_receive self.now.link.local_state }
    {
        may_receive(*self.link.local_state())
    }

    // Why a transfer is refused by its fields.
    fn refusal_of(&self, transfer: &Transfer) -> Option<ReceiverTransferError>
        ensures { result ≡ refusal (field_tests self.now transfer.now) }
    {
        if !self.may_receive() {
            return Some(ReceiverTransferError::IllegalState);
        }
        if self.under_way.is_some() {
            return None;
        }
        if transfer.delivery_id.is_none() {
            return Some(ReceiverTransferError::DeliveryIdIsNone);
        }
        if transfer.delivery_tag.is_none() {
            return Some(ReceiverTransferError::DeliveryTagIsNone);
        }
        if !transfer.resume && asks_for_another_mode(*self.link.rcv_settle_mode(), transfer) {
            return Some(ReceiverTransferError::IllegalRcvSettleModeInTransfer);
        }
        None
    }

    // Whether a transfer begins a delivery for which there is no credit.
    fn lacks_credit(&self, transfer: &Transfer) -> bool
        ensures { result ≡ (not transfer.now.aborted && Inboxes.is_new self.now transfer.now
            && (self.now.link.flow_state.link_credit == 0)) }
    {
        !transfer.aborted
            && self.under_way.is_none()
            && !transfer.resume
            && self.link.flow_state().link_credit() == 0
    }

    // Handles a transfer whose fields are in order, but for whether more of its delivery is to come.
    fn handle(
        &mut self,
        transfer: Transfer,
        payload: Payload,
    ) -> Result<(Arrival, Option<Stage>), RefusedTransfer>
        requires { self.old.under_way ≡ None → IsSome transfer.delivery_tag }
        ensures handled { IfOk result (λ made. IsHandled self.old transfer payload made.0 made.1 self.new) }
        ensures refused { AnswersOrOutOfMemory ReceiverTransferError.OutOfMemory
            (with_error result) (tests_by_contents self.old transfer payload) }
        ensures back { IfErr result (λ refused. AreReturned transfer payload refused) }
        ensures left { OnErr result (self.new ≡ self.old) }
    {
        match &self.under_way {
            Some(tag) => {
                self.deliveries
                    .receive(&mut self.link, self.alloc, tag, false, transfer, payload)
            }
            None => self.handle_first(transfer, payload),
        }
    }

    // The same of the first one of a delivery in this attachment.
    fn handle_first(
        &mut self,
        transfer: Transfer,
        payload: Payload,
    ) -> Result<(Arrival, Option<Stage>), RefusedTransfer>
        requires begins { self.old.under_way ≡ None }
        requires tag { IsSome transfer.delivery_tag }
        ensures handled { IfOk result (λ made. IsHandled self.old transfer payload made.0 made.1 self.new) }
        ensures refused { AnswersOrOutOfMemory ReceiverTransferError.OutOfMemory
            (with_error result) (tests_by_contents self.old transfer payload) }
        ensures back { IfErr result (λ refused. AreReturned transfer payload refused) }
        ensures left { OnErr result (self.new ≡ self.old) }
    {
        let Some(tag) = &transfer.delivery_tag else {
            unreachable!()
        };
        let Ok(name) = tag.clone() else {
            return Err(refuse(ReceiverTransferError::OutOfMemory, transfer, payload));
        };
        match self
            .deliveries
            .receive(&mut self.link, self.alloc, &name, true, transfer, payload)
        {
            Ok(made) => {
                self.under_way = Some(name);
                Ok(made)
            }
            Err(refused) => {
                drop(name);
                Err(refused)
            }
        }
    }

    // A transfer is handled: its delivery stays under way if more of it is to come; otherwise its tag is returned.
    fn finish(&mut self, more: bool) -> Option<DeliveryTag>
        ensures tag { result ≡ (if more then None else self.old.under_way) }
        ensures after { self.new ≡ record self.old {
          link = record self.old.link { more = more };
          under_way = if more then self.old.under_way else None;
        } }
    {
        self.link.note_transfer(more);
        if more {
            return None;
        }
        self.under_way.take()
    }
}

// Whether a link in this state takes deliveries.
fn may_receive(state: LinkState) -> bool
    ensures { result ≡ Completing.may_receive state }
{
    matches!(
        state,
        LinkState::Attached | LinkState::IncompleteAttachExchanged
    )
}

// Whether an unsettled transfer asks for a settle mode that a link of this mode does not have.
fn asks_for_another_mode(mode: ReceiverSettleMode, transfer: &Transfer) -> bool
    ensures { result ≡ (not (ReceiverDeliveries.is_settled transfer.now)
        && is_illegal_mode mode transfer.now.rcv_settle_mode) }
{
    !is_settled(transfer)
        && mode == ReceiverSettleMode::First
        && transfer.rcv_settle_mode == Some(ReceiverSettleMode::Second)
}

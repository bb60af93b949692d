//! Transfers that arrive at a receiver, and the entries of their deliveries (2.6.12, 2.7.5).
ghost use Rattle.std.specs.Prelude.{◌≡◌, false, is_some, not, None, Some, IfOk, IfErr, IsSome, IsSomeAnd};
ghost use Rattle.std.specs.Prelude.{⊤, OnOk, OnErr, MatchOption, unwrap_or};
ghost use Rattle.amqp_link_types.specs.Entries.{entry_at, with_entry, without_entry};
ghost use Rattle.amqp_link_receiver.specs.ReceiverDeliveries.{frame_come, number_and_tag, session_record};
ghost use Rattle.amqp_link_receiver.specs.ReceiverDeliveries.{with_kept_state, after_state};
ghost use Rattle.amqp_link_receiver.specs.ReceiverDeliveries;

use crate::receiver_link::ReceiverLink;
use amqp_link_endpoint::endpoint::target::LinkTarget;
use amqp_link_types::frame::{LinkFrame, LinkTransfer};
use amqp_link_types::types::{
    DeliveryNumber, DeliveryState, DeliveryTag, InputHandle, LinkRelayError, Payload,
    ReceiverSettleMode, ReceiverTransferError, Transfer, has_ended,
};
use std::alloc::AllocError;

impl<T: LinkTarget> ReceiverLink<T> {
    /// Whether the next transfer begins a delivery in this attachment (2.6.14, 2.7.5): the transfer before it had no
    /// `more`, or none has arrived since the peer's attach. Otherwise it continues the delivery that is under way,
    /// whatever id, tag and flags it repeats. Ask before `on_incoming_transfer` takes the transfer; what it is added to is
    /// told this by `IncompleteTransfer::try_add`. Does not allocate.
    pub fn begins_delivery(&self) -> bool
        ensures { result ≡ not self.now.more }
    {
        !self.more
    }

    /// Takes a transfer from the session, and returns the frame to hand to the link's user. Beside it stand
    /// the transfer's delivery id and tag, if the link is in mode `Second`, the transfer is not settled, and
    /// no delivery is under way: the transfer before it had no `more`, or none has arrived since the peer's
    /// attach. A disposition of the sender names the id: the session passes it on with this tag (2.7.6).
    ///
    /// Refused with `OutOfMemory`, and nothing changed; only a tag that is returned is allocated. The transfer and
    /// its payload are dropped then: to make the call again, keep copies.
    pub fn on_incoming_transfer(
        &mut self,
        transfer: Transfer,
        payload: Payload,
    ) -> Result<(LinkFrame, Option<(DeliveryNumber, DeliveryTag)>), LinkRelayError>
        ensures frame { IfOk result (λ came. came.0 ≡ frame_come transfer payload) }
        ensures session { IfOk result (λ came. came.1 ≡ session_record self.old transfer) }
        ensures after { OnOk result (self.new ≡ record self.old { more = transfer.more }) }
        ensures refused { IfErr result (λ error. error ≡ LinkRelayError.OutOfMemory) }
        ensures memory { OnErr result (IsSome (session_record self.old transfer)) }
        ensures left { OnErr result (self.new ≡ self.old) }
    {
        let Ok(session) = self.copy_session_record(&transfer) else {
            drop((transfer, payload));
            return Err(LinkRelayError::OutOfMemory);
        };
        // All allocations are done: from here on nothing can fail.
        self.note_transfer(transfer.more);
        Ok((frame_of(transfer, payload), session))
    }

    /// Notes that a transfer has arrived, and whether more of its delivery is to come. `on_incoming_transfer` does so
    /// itself; a caller that keeps the transfer until all that it needs is allocated calls this instead, and then
    /// `copy_session_record` before it. Does not allocate.
    pub fn note_transfer(&mut self, more: bool)
        ensures { self.new ≡ record self.old { more = more } }
    {
        self.more = more;
    }

    /// The delivery id and the tag that the session has to keep of this transfer, if any: what `on_incoming_transfer`
    /// returns beside the frame. Ask before that, or before `note_transfer`.
    ///
    /// Refused if it is out of memory, for the copy of the tag.
    pub fn copy_session_record(
        &self,
        transfer: &Transfer,
    ) -> Result<Option<(DeliveryNumber, DeliveryTag)>, AllocError>
        ensures record { IfOk result (λ copied. copied ≡ session_record self.now transfer.now) }
        ensures memory { OnErr result (IsSome (session_record self.now transfer.now)) }
    {
        if is_settled(transfer)
            || self.more
            || self.inner.rcv_settle_mode == ReceiverSettleMode::First
        {
            return Ok(None);
        }
        name_of(transfer)
    }

    /// Takes the state that a transfer carries for its delivery, and its settled flag. A settled delivery
    /// leaves the unsettled map; a terminal state stays as it is; otherwise the entry gets this state, and is
    /// entered if there was none.
    ///
    /// Refused in this order, with nothing changed: `DeliveryTagIsNone`; `OutOfMemory`, only if an entry is
    /// entered.
    pub fn on_transfer_state(
        &mut self,
        delivery_tag: &Option<DeliveryTag>,
        settled: Option<bool>,
        state: DeliveryState,
    ) -> Result<(), ReceiverTransferError>
        ensures after { OnOk result (IsSomeAnd delivery_tag.now (λ tag.
            self.new ≡ after_state tag settled state self.old)) }
        ensures refused { IfErr result (λ error. MatchOption delivery_tag.now
            (error ≡ ReceiverTransferError.DeliveryTagIsNone)
            (λ tag. error ≡ ReceiverTransferError.OutOfMemory)) }
        ensures memory { OnErr result (MatchOption delivery_tag.now ⊤ (λ tag.
            (unwrap_or settled false ≡ false) × (entry_at self.old.unsettled tag ≡ None))) }
        ensures left { OnErr result (self.new ≡ self.old) }
    {
        let Some(tag) = delivery_tag else {
            drop(state);
            return Err(ReceiverTransferError::DeliveryTagIsNone);
        };
        if settled.unwrap_or(false) {
            drop(self.unsettled.remove(tag));
            drop(state);
            return Ok(());
        }
        if self.has_ended(tag) {
            drop(state);
            return Ok(());
        }
        Ok(self.keep(tag, state)?)
    }

    /// Notes that the delivery has arrived up to this position (3.4.1): its entry in the unsettled map
    /// becomes `Received` there, and is entered if there was none.
    ///
    /// Refused if it is out of memory, with nothing changed, and only if an entry is entered.
    pub fn on_incomplete_transfer(
        &mut self,
        delivery_tag: &DeliveryTag,
        section_number: u32,
        section_offset: u64,
    ) -> Result<(), AllocError>
        ensures after { OnOk result (self.new ≡ with_kept_state delivery_tag.now
            (DeliveryState.Received section_number section_offset) self.old) }
        ensures memory { OnErr result (entry_at self.old.unsettled delivery_tag.now ≡ None) }
        ensures left { OnErr result (self.new ≡ self.old) }
    {
        let state = DeliveryState::Received {
            section_number,
            section_offset,
        };
        self.keep(delivery_tag, state)
    }

    /// Takes an aborted transfer of this delivery (2.7.5): its entry leaves the unsettled map, whose last entry moves
    /// into the gap. Returns whether there was one. The caller drops what it holds of the delivery, and any payload of
    /// this transfer. Spends no credit, and does not allocate.
    pub fn on_aborted(&mut self, delivery_tag: &DeliveryTag) -> bool
        ensures known { result ≡ is_some (entry_at self.old.unsettled delivery_tag.now) }
        ensures after { self.new ≡ record self.old {
          unsettled = without_entry self.old.unsettled delivery_tag.now;
        } }
    {
        let entry = self.unsettled.remove(delivery_tag);
        let is_known = entry.is_some();
        drop(entry);
        is_known
    }

    // Whether the delivery has a terminal state.
    fn has_ended(&self, tag: &DeliveryTag) -> bool
        ensures { result ≡ ReceiverDeliveries.has_ended (entry_at self.now.unsettled tag.now) }
    {
        match self.unsettled.get(tag) {
            Some(state) => has_ended(state),
            None => false,
        }
    }

    // Sets the state of a delivery's entry. Allocates only if there was no entry.
    pub(super) fn keep(&mut self, tag: &DeliveryTag, state: DeliveryState) -> Result<(), AllocError>
        ensures after { OnOk result (self.new ≡ with_kept_state tag.now state self.old) }
        ensures memory { OnErr result (entry_at self.old.unsettled tag.now ≡ None) }
        ensures left { OnErr result (self.new ≡ self.old) }
    {
        match self.unsettled.replace(tag, Some(state)) {
            Ok(old) => {
                drop(old);
                Ok(())
            }
            Err(state) => {
                let Ok(tag) = tag.clone() else {
                    drop(state);
                    return Err(AllocError);
                };
                self.put(tag, state)
            }
        }
    }

    // Puts a state under a tag that the caller passes; the state that was there before is dropped.
    pub(super) fn put(
        &mut self,
        tag: DeliveryTag,
        state: Option<DeliveryState>,
    ) -> Result<(), AllocError>
        ensures after { OnOk result
            (self.new ≡ record self.old { unsettled = with_entry self.old.unsettled tag state }) }
        ensures left { OnErr result (self.new ≡ self.old) }
    {
        let put = self.unsettled.put(tag, state);
        let is_kept = put.is_ok();
        drop(put);
        if is_kept { Ok(()) } else { Err(AllocError) }
    }
}

// The frame to hand to the link's user, with the transfer's own handle.
fn frame_of(transfer: Transfer, payload: Payload) -> LinkFrame
    ensures { result ≡ frame_come transfer payload }
{
    LinkFrame::RemoteTransfer(LinkTransfer {
        input_handle: InputHandle::from(transfer.handle),
        performative: transfer,
        payload,
    })
}

// Whether a delivery is settled by its transfer; absent means false (2.7.5).
pub(super) fn is_settled(transfer: &Transfer) -> bool
    ensures { result ≡ ReceiverDeliveries.is_settled transfer.now }
{
    transfer.settled.unwrap_or(false)
}

// The delivery id and the tag of a transfer, if it has both.
fn name_of(transfer: &Transfer) -> Result<Option<(DeliveryNumber, DeliveryTag)>, AllocError>
    ensures named { IfOk result (λ named.
        named ≡ number_and_tag transfer.now.delivery_id transfer.now.delivery_tag) }
    ensures memory { OnErr result
        (IsSome (number_and_tag transfer.now.delivery_id transfer.now.delivery_tag)) }
{
    let Some(id) = transfer.delivery_id else {
        return Ok(None);
    };
    let Some(tag) = &transfer.delivery_tag else {
        return Ok(None);
    };
    Ok(Some((id, tag.clone()?)))
}

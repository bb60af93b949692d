//! The frames of a link (2.7).
ghost use Rattle.std.specs.Prelude.{◌≡◌, true, false, IfOk, OnErr, option_copied};
ghost use Rattle.std.specs.Option.{option_map_or};
ghost use Rattle.amqp_link_types.specs.DeliveryStates.{carries_more};
ghost use Rattle.amqp_link_types.specs.Frames.{cleared, link_transfer, performative_of};

use crate::types::{Attach, Detach, Disposition, InputHandle, LinkFlow, Payload, Transfer};
use amqp_link_values::boxed::Boxed;
use amqp_link_values::copy::copy_of;
use std::alloc::AllocError;

/// A transfer with its payload, in one frame (2.7.5).
#[derive(Debug, PartialEq, Eq, Drop)]
pub struct LinkTransfer {
    /// In a frame that is sent, the link's input handle; in one that has arrived, the transfer's own handle.
    pub input_handle: InputHandle,
    /// The fields of the transfer.
    pub performative: Transfer,
    /// Its part of the delivery's payload.
    pub payload: Payload,
}

/// A frame of a link.
#[derive(Debug, PartialEq, Eq, Drop)]
pub enum LinkFrame {
    /// An endpoint attaches to the link.
    Attach(Boxed<Attach>),
    /// An endpoint states its delivery-count and link-credit.
    Flow(LinkFlow),
    /// A transfer that has arrived from the peer.
    RemoteTransfer(LinkTransfer),
    /// The first transfer of a delivery that is sent. The session gives it its delivery id.
    FirstTransfer(LinkTransfer),
    /// A further transfer of a delivery that is sent. It gets no delivery id.
    TransferContinuation(LinkTransfer),
    /// An endpoint states the state of deliveries.
    Disposition(Disposition),
    /// An endpoint detaches from the link.
    Detach(Detach),
}

impl LinkFrame {
    /// The transfer in the frame, if it is one.
    pub fn as_transfer(&self) -> Option<&LinkTransfer>
        ensures { option_copied result ≡ link_transfer self.now }
    {
        match self {
            LinkFrame::RemoteTransfer(transfer)
            | LinkFrame::FirstTransfer(transfer)
            | LinkFrame::TransferContinuation(transfer) => Some(transfer),
            _ => None,
        }
    }

    /// Whether more transfers of its delivery follow the frame.
    pub fn has_more(&self) -> bool
        ensures { result ≡ (performative_of self.now).more }
    {
        match self.as_transfer() {
            Some(transfer) => transfer.performative.more,
            None => false,
        }
    }
}

/// The transfer of the further frames of a delivery, without what only its first transfer has to
/// state (2.7.5). Only the copy of a state may allocate: the tag is not copied.
pub fn continuation_of(transfer: &Transfer) -> Result<Transfer, AllocError>
    ensures further { IfOk result (λ further. further ≡ cleared transfer.now) }
    ensures memory { OnErr result (option_map_or carries_more transfer.now.state false ≡ true) }
{
    Ok(Transfer {
        handle: transfer.handle,
        delivery_id: None,
        delivery_tag: None,
        message_format: None,
        settled: None,
        more: transfer.more,
        rcv_settle_mode: None,
        state: copy_of(&transfer.state)?,
        resume: transfer.resume,
        aborted: transfer.aborted,
        batchable: transfer.batchable,
    })
}

/// Clears what only the first transfer of a delivery has to carry (2.7.5): its delivery id, tag, format,
/// settled flag and receiver settle mode. The other fields stay.
pub fn clear_continuation_fields(transfer: &mut Transfer)
    ensures { transfer.new ≡ cleared transfer.old }
{
    transfer.delivery_id = None;
    transfer.delivery_tag = None;
    transfer.message_format = None;
    transfer.settled = None;
    transfer.rcv_settle_mode = None;
}

//! The transfer performative (2.7.5).
ghost use Rattle.std.specs.Prelude.{◌≡◌, true, false, IfOk, OnErr};
ghost use Rattle.amqp_link_types.specs.Copies.{transfer_carries_more};

use crate::types::definitions::{DeliveryNumber, Handle, MessageFormat, ReceiverSettleMode};
use crate::types::delivery_state::DeliveryState;
use amqp_link_values::copy::copy_of;
use amqp_link_values::delivery_tag::DeliveryTag;
use std::alloc::AllocError;

/// The transfer performative (2.7.5): the fields of one frame of a delivery, without its payload.
///
/// The default is a transfer at handle 0 without any other field.
#[derive(Debug, Default, PartialEq, Eq, Drop)]
pub struct Transfer {
    /// The handle of the link at the endpoint that sends the frame.
    pub handle: Handle,
    /// The delivery-id; the first transfer has it, others may leave it out.
    pub delivery_id: Option<DeliveryNumber>,
    /// The delivery-tag; the first transfer has it, others may leave it out.
    pub delivery_tag: Option<DeliveryTag>,
    /// The format of the message; the first transfer has it, others may leave it out.
    pub message_format: Option<MessageFormat>,
    /// Whether the delivery is settled at the sender. A false on a later transfer unsets nothing.
    pub settled: Option<bool>,
    /// Whether more transfers of the delivery follow.
    pub more: bool,
    /// When the receiver is to settle this delivery, if the link leaves that open.
    pub rcv_settle_mode: Option<ReceiverSettleMode>,
    /// The state of the delivery at the sender.
    pub state: Option<DeliveryState>,
    /// Whether this resumes a delivery of an earlier attachment.
    pub resume: bool,
    /// Whether the delivery is aborted: the receiver forgets what arrived of it.
    pub aborted: bool,
    /// Whether the receiver may delay its disposition.
    pub batchable: bool,
}

impl Clone for Transfer {
    ghost is_clone = { λ transfer copy. copy ≡ transfer };

    ghost is_infallible = { λ transfer. transfer_carries_more transfer ≡ false };

    fn clone(&self) -> Result<Transfer, AllocError>
        ensures copy { IfOk result (λ copy. copy ≡ self.now) }
        ensures memory { OnErr result (transfer_carries_more self.now ≡ true) }
    {
        Ok(Transfer {
            handle: self.handle,
            delivery_id: self.delivery_id,
            delivery_tag: copy_of(&self.delivery_tag)?,
            message_format: self.message_format,
            settled: self.settled,
            more: self.more,
            rcv_settle_mode: self.rcv_settle_mode,
            state: copy_of(&self.state)?,
            resume: self.resume,
            aborted: self.aborted,
            batchable: self.batchable,
        })
    }
}

//! Transfers as C has them (2.7.5).
ghost use Rattle.std.specs.Prelude.{◌≡◌, ◌↔◌, ◌<◌, IfErr, IfOk, IsTrue, OnErr, length};
ghost use Rattle.amqp_link_flat.specs.Flat.{given as field_if};
ghost use Rattle.amqp_link_flat.specs.Refusing.{IsNumberRefusal};
ghost use Rattle.amqp_link_flat.specs.Transfers.{plain_transfer, stated_mode, stated_transfer};

use crate::delivery_state::{DeliveryStateFields, flag};
use crate::flow::given;
use crate::numbers::{number_of_receiver_mode, receiver_mode};
use crate::status::{NO_SUCH_NUMBER, OUT_OF_MEMORY};
use amqp_link_types::frame::LinkTransfer;
use amqp_link_types::types::{DeliveryTag, Handle, ReceiverSettleMode, Transfer as TransferPart};
use std::alloc::Global;

/// A transfer, whose tag and payload go beside it. A field that has a flag counts only if the flag is set.
#[repr(C)]
#[derive(Drop)]
pub struct Transfer {
    /// The state of the delivery at the sender; a rejection's error does not cross here.
    pub state: DeliveryStateFields,
    /// The handle of the link at the endpoint that sends the transfer.
    pub handle: u32,
    /// The delivery-id.
    pub delivery_id: u32,
    /// The format of the message.
    pub message_format: u32,
    /// When the receiver is to settle this delivery: `AMQP_RECEIVER_FIRST` or `AMQP_RECEIVER_SECOND`.
    pub rcv_settle_mode: u32,
    /// Whether `delivery_id` is there.
    pub has_delivery_id: bool,
    /// Whether it has a tag, which goes beside it.
    pub has_tag: bool,
    /// Whether `message_format` is there.
    pub has_message_format: bool,
    /// Whether `settled` is there.
    pub has_settled: bool,
    /// Whether the delivery is settled at the sender.
    pub settled: bool,
    /// Whether more transfers of the delivery follow.
    pub more: bool,
    /// Whether `rcv_settle_mode` is there.
    pub has_rcv_settle_mode: bool,
    /// Whether this resumes a delivery of an earlier attachment.
    pub resume: bool,
    /// Whether the delivery is aborted.
    pub aborted: bool,
    /// Whether the receiver may delay its disposition.
    pub batchable: bool,
}

// The tag of a transfer, if it has one.
fn tag_if(alloc: Global, has_tag: bool, tag: &[u8]) -> Result<Option<DeliveryTag>, u32>
    ensures tag { IfOk result (λ made. made ≡ field_if has_tag tag.now) }
    ensures refused { IfErr result (λ status. status ≡ 3) }
    ensures memory { OnErr result (IsTrue has_tag × (16 < length tag.now)) }
{
    if !has_tag {
        return Ok(None);
    }
    match DeliveryTag::copied(alloc, tag) {
        Ok(tag) => Ok(Some(tag)),
        Err(_) => Err(OUT_OF_MEMORY),
    }
}

impl Transfer {
    // The receiver settle mode, if there is one; nothing if its number stands for none.
    fn mode(&self) -> Option<Option<ReceiverSettleMode>>
        ensures { result ≡ stated_mode self.now }
    {
        if !self.has_rcv_settle_mode {
            return Some(None);
        }
        match receiver_mode(self.rcv_settle_mode) {
            Some(mode) => Some(Some(mode)),
            None => None,
        }
    }

    /// The transfer that C has passed, with this tag.
    ///
    /// Refused with `NO_SUCH_NUMBER` if a mode or the kind of a state is none, and with `OUT_OF_MEMORY`.
    pub fn to_transfer(&self, alloc: Global, tag: &[u8]) -> Result<TransferPart, u32>
        ensures transfer { IfOk result (λ part. stated_transfer self.now tag.now ≡ Some part) }
        ensures number { (result ≡ Err 5) ↔ (stated_transfer self.now tag.now ≡ None) }
        ensures memory { result ≡ Err 3 → IsTrue self.now.has_tag × (16 < length tag.now) }
        ensures refused { IfErr result IsNumberRefusal }
    {
        let Some(rcv_settle_mode) = self.mode() else {
            return Err(NO_SUCH_NUMBER);
        };
        let Some(state) = self.state.without_error() else {
            return Err(NO_SUCH_NUMBER);
        };
        let delivery_tag = tag_if(alloc, self.has_tag, tag)?;
        Ok(TransferPart {
            handle: Handle(self.handle),
            delivery_id: given(self.has_delivery_id, self.delivery_id),
            delivery_tag,
            message_format: given(self.has_message_format, self.message_format),
            settled: flag(self.has_settled, self.settled),
            more: self.more,
            rcv_settle_mode,
            state,
            resume: self.resume,
            aborted: self.aborted,
            batchable: self.batchable,
        })
    }

    /// The transfer for C, without its tag and its payload.
    pub fn of(sent: &LinkTransfer) -> Transfer
        ensures { result ≡ plain_transfer sent.now }
    {
        let part = &sent.performative;
        Transfer {
            state: DeliveryStateFields::of(&part.state),
            handle: part.handle.0,
            delivery_id: part.delivery_id.unwrap_or(0),
            message_format: part.message_format.unwrap_or(0),
            rcv_settle_mode: number_of_receiver_mode(part.rcv_settle_mode.unwrap_or_default()),
            has_delivery_id: part.delivery_id.is_some(),
            has_tag: part.delivery_tag.is_some(),
            has_message_format: part.message_format.is_some(),
            has_settled: part.settled.is_some(),
            settled: part.settled.unwrap_or(false),
            more: part.more,
            has_rcv_settle_mode: part.rcv_settle_mode.is_some(),
            resume: part.resume,
            aborted: part.aborted,
            batchable: part.batchable,
        }
    }
}

//! Which delivery it is, and how it is to be settled (2.6.12).
ghost use Rattle.std.specs.Prelude.{◌≡◌, ◌<◌, false, length, IfOk, OnErr};
ghost use Rattle.amqp_link_values.specs.Copies.{tag_carries_more};

use crate::types::{DeliveryNumber, DeliveryTag, ReceiverSettleMode};
use std::alloc::AllocError;
use std::marker::Model;

/// Which delivery it is, and how it is to be settled: all that a receiver needs to settle a delivery after
/// its message is gone. The id is that of one attachment: once the link is attached again, the delivery has the
/// id with which it is resumed, and an info of that id (`new`) settles it.
///
/// A contract sees the id, the tag and the mode.
#[derive(Debug, PartialEq, Eq, Drop)]
pub struct DeliveryInfo {
    delivery_id: DeliveryNumber,
    delivery_tag: DeliveryTag,
    rcv_settle_mode: Option<ReceiverSettleMode>,
}

impl Model for DeliveryInfo {
    ghost use Rattle.amqp_link_types.specs.Deliveries.{Info};

    ghost Value = { Info };

    ghost view = { λ info. record {
      delivery_id = info.delivery_id;
      delivery_tag = info.delivery_tag;
      rcv_settle_mode = info.rcv_settle_mode;
    } };

    ghost inverse = { λ info. record {
      delivery_id = info.delivery_id;
      delivery_tag = info.delivery_tag;
      rcv_settle_mode = info.rcv_settle_mode;
    } };
}

impl DeliveryInfo {
    /// The info of a delivery with this id and tag, and the receiver settle mode that its transfers carry;
    /// none if they leave it to the link. Does not allocate.
    pub fn new(
        delivery_id: DeliveryNumber,
        delivery_tag: DeliveryTag,
        rcv_settle_mode: Option<ReceiverSettleMode>,
    ) -> DeliveryInfo
        ensures { result ≡ record {
          delivery_id = delivery_id;
          delivery_tag = delivery_tag;
          rcv_settle_mode = rcv_settle_mode;
        } }
    {
        DeliveryInfo {
            delivery_id,
            delivery_tag,
            rcv_settle_mode,
        }
    }

    /// The delivery-id that the session gave the delivery (2.8.8).
    pub fn delivery_id(&self) -> DeliveryNumber
        ensures { result ≡ self.now.delivery_id }
    {
        self.delivery_id
    }

    /// The tag of the delivery (2.8.7).
    pub fn delivery_tag(&self) -> &DeliveryTag
        ensures { result.now ≡ self.now.delivery_tag }
    {
        &self.delivery_tag
    }

    /// When the receiver settles the delivery, if its transfers carry a mode (2.7.5). A delivery that was
    /// sent settled has none.
    pub fn rcv_settle_mode(&self) -> Option<ReceiverSettleMode>
        ensures { result ≡ self.now.rcv_settle_mode }
    {
        self.rcv_settle_mode
    }
}

impl Clone for DeliveryInfo {
    ghost is_clone = { λ info copy. copy ≡ info };

    ghost is_infallible = { λ info. tag_carries_more info.delivery_tag ≡ false };

    // Only a tag of more than 16 bytes allocates.
    fn clone(&self) -> Result<DeliveryInfo, AllocError>
        ensures copy { IfOk result (λ copy. copy ≡ self.now) }
        ensures memory { OnErr result (16 < length self.now.delivery_tag) }
    {
        Ok(DeliveryInfo {
            delivery_id: self.delivery_id,
            delivery_tag: self.delivery_tag.clone()?,
            rcv_settle_mode: self.rcv_settle_mode,
        })
    }
}

//! Complete deliveries (2.6.12).
ghost use Rattle.std.specs.Prelude.{◌≡◌, ◌<◌, length, IfOk, OnErr};

use crate::delivery::info::DeliveryInfo;
use crate::types::{DeliveryNumber, DeliveryTag, Message, MessageFormat, OutputHandle};
use std::alloc::AllocError;
use std::fmt;
use std::marker::Model;

/// A complete delivery, with its message.
///
/// It can be split at once: its `DeliveryInfo` is all that is needed to settle it later. A contract sees the
/// handle, the info, the format and the message.
#[derive(Debug, PartialEq, Eq, Drop)]
pub struct Delivery<T> {
    handle: OutputHandle,
    info: DeliveryInfo,
    message_format: Option<MessageFormat>,
    message: Message<T>,
}

impl<T> Model for Delivery<T> {
    ghost use Rattle.amqp_link_types.specs.Deliveries.{Delivered};

    ghost Value = { Delivered T };

    ghost view = { λ delivery. record {
      handle = delivery.handle;
      info = delivery.info;
      message_format = delivery.message_format;
      message = delivery.message;
    } };

    ghost inverse = { λ delivery. record {
      handle = delivery.handle;
      info = delivery.info;
      message_format = delivery.message_format;
      message = delivery.message;
    } };
}

impl<T> Delivery<T> {
    /// A delivery on the link with this output handle; the format is none if its transfers carry none. Does
    /// not allocate.
    pub fn new(
        handle: OutputHandle,
        info: DeliveryInfo,
        message_format: Option<MessageFormat>,
        message: Message<T>,
    ) -> Delivery<T>
        ensures { result ≡ record {
          handle = handle;
          info = info;
          message_format = message_format;
          message = message;
        } }
    {
        Delivery {
            handle,
            info,
            message_format,
            message,
        }
    }

    /// The output handle of the link on which the delivery arrived.
    pub fn handle(&self) -> OutputHandle
        ensures { result ≡ self.now.handle }
    {
        self.handle
    }

    /// The message.
    pub fn message(&self) -> &Message<T>
        ensures { result.now ≡ self.now.message }
    {
        &self.message
    }

    /// The delivery-id that the session gave the delivery (2.8.8).
    pub fn delivery_id(&self) -> DeliveryNumber
        ensures { result ≡ self.now.info.delivery_id }
    {
        self.info.delivery_id()
    }

    /// The tag of the delivery (2.8.7).
    pub fn delivery_tag(&self) -> &DeliveryTag
        ensures { result.now ≡ self.now.info.delivery_tag }
    {
        self.info.delivery_tag()
    }

    /// The format of the message, if the delivery's transfers carry one (2.8.11).
    pub fn message_format(&self) -> Option<MessageFormat>
        ensures { result ≡ self.now.message_format }
    {
        self.message_format
    }

    /// The body of the message.
    pub fn body(&self) -> &T
        ensures { result.now ≡ self.now.message.body }
    {
        &self.message.body
    }

    /// The message alone. Does not allocate.
    pub fn into_message(self) -> Message<T>
        ensures { result ≡ self.message }
    {
        self.message
    }

    /// The body alone. Does not allocate.
    pub fn into_body(self) -> T
        ensures { result ≡ self.message.body }
    {
        self.into_message().body
    }

    /// The info, by which the delivery is settled, and the message. Does not allocate.
    pub fn into_parts(self) -> (DeliveryInfo, Message<T>)
        ensures info { result.0 ≡ self.info }
        ensures message { result.1 ≡ self.message }
    {
        (self.info, self.message)
    }
}

impl DeliveryInfo {
    /// The info of a delivery, by which it is settled: a copy. The delivery does not change.
    pub fn of<T>(delivery: &Delivery<T>) -> Result<DeliveryInfo, AllocError>
        ensures copy { IfOk result (λ info. info ≡ delivery.now.info) }
        ensures memory { OnErr result (16 < length delivery.now.info.delivery_tag) }
    {
        delivery.info.clone()
    }
}

impl<T: Drop> From<Delivery<T>> for DeliveryInfo {
    ghost from_gives = { λ delivery info. info ≡ delivery.info };

    fn from(delivery: Delivery<T>) -> DeliveryInfo {
        delivery.info
    }
}

impl<T: fmt::Display> fmt::Display for Delivery<T> {
    fn fmt<W: fmt::Write>(&self, f: &mut fmt::Formatter<W>) -> fmt::Result {
        let (id, body) = (self.delivery_id(), self.body());
        write!(f, "Delivery {{ delivery_id: {id}, delivery_tag: 0x")?;
        for byte in self.delivery_tag().as_bytes() {
            write!(f, "{byte:02x}")?;
        }
        write!(f, ", message.body: {body} }}")
    }
}

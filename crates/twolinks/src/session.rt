//! A session between the two links, as far as they need one.
use amqp_link::types::{DeliveryNumber, DeliveryTag, Transfer};
use amqp_link::{LinkFrame, LinkTransfer, Payload};
use program_support::Refused;
use std::alloc::Global;

/// Gives delivery ids, and keeps whose they are: a disposition names a delivery by its id.
#[derive(Drop)]
pub struct Session {
    next_id: DeliveryNumber,
    deliveries: Vec<(DeliveryNumber, DeliveryTag)>,
}

impl Session {
    /// A session in which nothing was sent.
    pub fn new(alloc: Global) -> Session {
        Session {
            next_id: 0,
            deliveries: Vec::new(alloc),
        }
    }

    /// A frame of the sender's link as it arrives at the receiver. The first transfer of a delivery gets its id here.
    pub fn carry(&mut self, frame: LinkFrame) -> Result<(Transfer, Payload), Refused> {
        match frame {
            LinkFrame::FirstTransfer(first) => self.number(first),
            LinkFrame::TransferContinuation(further) => Ok((further.performative, further.payload)),
            other => {
                drop(other);
                Err(Refused)
            }
        }
    }

    fn number(&mut self, first: LinkTransfer) -> Result<(Transfer, Payload), Refused> {
        let LinkTransfer {
            mut performative,
            payload,
            ..
        } = first;
        let id = self.next_id;
        performative.delivery_id = Some(id);
        match self.keep(id, &performative) {
            Ok(()) => Ok((performative, payload)),
            Err(Refused) => {
                drop((performative, payload));
                Err(Refused)
            }
        }
    }

    fn keep(&mut self, id: DeliveryNumber, transfer: &Transfer) -> Result<(), Refused> {
        let Some(tag) = &transfer.delivery_tag else {
            return Err(Refused);
        };
        self.deliveries.push((id, tag.clone()?))?;
        self.next_id = id.wrapping_add(1);
        Ok(())
    }

    /// The tag of the delivery with this id.
    pub fn tag_of(&self, id: DeliveryNumber) -> Option<&DeliveryTag> {
        for (known, tag) in &self.deliveries {
            if *known == id {
                return Some(tag);
            }
        }
        None
    }
}

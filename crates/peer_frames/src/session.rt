//! What a session knows of a link's deliveries.
use crate::random::Random;
use amqp_link_types::types::{DeliveryNumber, DeliveryTag};
use std::alloc::{AllocError, Global};
use std::collections::VecDeque;

// A session knows so many deliveries of a link: of older ones it forgets the ids. No life has more.
const KNOWN: usize = 512;

/// The tags of the deliveries of a link, by their delivery-ids.
#[derive(Drop)]
pub struct Session {
    next: DeliveryNumber,
    named: VecDeque<(DeliveryNumber, DeliveryTag)>,
}

impl Session {
    /// A session that knows no delivery of the link, and gives this id next.
    pub fn new(alloc: Global, next: DeliveryNumber) -> Session {
        Session {
            next,
            named: VecDeque::new(alloc),
        }
    }

    /// The next id, which is given.
    pub fn give(&mut self) -> DeliveryNumber {
        let id = self.next;
        self.next = id.wrapping_add(1);
        id
    }

    /// The delivery with this tag has this id.
    pub fn note(&mut self, id: DeliveryNumber, tag: DeliveryTag) -> Result<(), AllocError> {
        if self.named.len() >= KNOWN {
            drop(self.named.pop_front());
        }
        self.named.push_back((id, tag))?;
        Ok(())
    }

    /// The session is lost: no delivery has an id.
    pub fn forget(&mut self) {
        self.named.clear();
    }

    /// The id of one of the deliveries, if there is one.
    pub fn any(&self, random: &mut Random) -> Option<DeliveryNumber> {
        let place = random.place(self.named.len());
        let (id, _) = self.named.get(place)?;
        Some(*id)
    }

    /// Whether the delivery with this tag was given this id.
    pub fn has_named(&self, id: DeliveryNumber, tag: &DeliveryTag) -> bool {
        for (other, named) in &self.named {
            if *other == id && named == tag {
                return true;
            }
        }
        false
    }

    /// The deliveries whose ids are between these, which wrap (2.7.6).
    pub fn between(
        &self,
        alloc: Global,
        first: DeliveryNumber,
        last: DeliveryNumber,
    ) -> Result<Vec<(DeliveryNumber, DeliveryTag)>, AllocError> {
        let mut between = Vec::new(alloc);
        for (id, tag) in &self.named {
            if id.wrapping_sub(first) <= last.wrapping_sub(first) {
                between.push((*id, tag.clone()?))?;
            }
        }
        Ok(between)
    }
}

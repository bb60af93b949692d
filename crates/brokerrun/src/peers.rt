//! The frames of the four peers, which are not ours.
use crate::links::name_of;
use crate::steps::{Part, Reached, Verdict};
use amqp_link::types::{Attach, LinkFlow, Role, Transfer, UnsettledMap};
use amqp_link::{DeliveryState, DeliveryTag, Payload};
use program_support::{Refused, attach_of};
use std::alloc::{AllocError, Global};

/// A tag with these bytes.
pub fn tag_of(alloc: Global, bytes: &[u8]) -> Result<DeliveryTag, AllocError> {
    DeliveryTag::copied(alloc, bytes)
}

/// The attach of an incoming link's sender, which has begun so many deliveries and has not settled those with these tags.
pub fn sender_attach(
    alloc: Global,
    link: usize,
    count: u32,
    tags: &[&[u8]],
) -> Result<Attach, Refused> {
    let mut unsettled = UnsettledMap::new(alloc);
    for tag in tags {
        drop(unsettled.put(tag_of(alloc, tag)?, None)?);
    }
    let name = name_of(alloc, "incoming", link)?;
    Ok(attach_of(name, Role::Sender, Some(count), unsettled))
}

/// The attach of an outgoing link's receiver, which has so much of each of these deliveries.
pub fn receiver_attach(alloc: Global, link: usize, reached: &[Reached]) -> Result<Attach, Refused> {
    let mut unsettled = UnsettledMap::new(alloc);
    for one in reached {
        let state = DeliveryState::Received {
            section_number: 0,
            section_offset: one.bytes,
        };
        drop(unsettled.put(tag_of(alloc, one.tag)?, Some(state))?);
    }
    let name = name_of(alloc, "outgoing", link)?;
    Ok(attach_of(name, Role::Receiver, None, unsettled))
}

/// A transfer of an incoming link's sender.
pub fn transfer(alloc: Global, part: Part) -> Result<Transfer, AllocError> {
    let named = match part {
        Part::First(id, tag) => Transfer {
            delivery_id: Some(id),
            delivery_tag: Some(tag_of(alloc, tag)?),
            ..Transfer::default()
        },
        Part::FirstSettled(id, tag) => Transfer {
            delivery_id: Some(id),
            delivery_tag: Some(tag_of(alloc, tag)?),
            settled: Some(true),
            ..Transfer::default()
        },
        Part::Resumed(id, tag) => Transfer {
            delivery_id: Some(id),
            delivery_tag: Some(tag_of(alloc, tag)?),
            resume: true,
            ..Transfer::default()
        },
        Part::Further => Transfer::default(),
    };
    Ok(named)
}

/// Its bytes.
pub fn payload(alloc: Global, bytes: &[u8]) -> Result<Payload, AllocError> {
    Payload::copy_from_slice(alloc, bytes)
}

/// The flow of an outgoing link's receiver, which knows this delivery-count.
pub fn flow(count: u32, credit: u32) -> LinkFlow {
    LinkFlow {
        delivery_count: Some(count),
        link_credit: Some(credit),
        ..LinkFlow::default()
    }
}

/// The state that an outgoing link's receiver gives a delivery.
pub fn state_of(verdict: Verdict) -> Option<DeliveryState> {
    match verdict {
        Verdict::Accepted => Some(DeliveryState::Accepted),
        Verdict::Rejected => Some(DeliveryState::Rejected { error: None }),
        Verdict::Silent => None,
    }
}

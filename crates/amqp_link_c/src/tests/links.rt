//! Two endpoints with a session between them. A call that is out of memory is made again, and nothing has changed.
use super::{Refused, done, flow, terminus, terms, transfer};
use crate::frames::{FRAME_FIRST_TRANSFER, Sizes, amqp_frames_kind, amqp_frames_transfer};
use crate::link::amqp_link_set_output_handle;
use crate::receiver::amqp_receiver_new;
use crate::receiver::arriving::{Arriving, amqp_receiver_on_transfer};
use crate::receiver::attach::{amqp_receiver_on_attach, amqp_receiver_send_attach};
use crate::receiver::flow::amqp_receiver_send_flow;
use crate::sender::amqp_sender_new;
use crate::sender::attach::{amqp_sender_on_attach, amqp_sender_send_attach};
use crate::sender::flow::amqp_sender_on_flow;
use crate::sender::sending::amqp_sender_send;
use amqp_link_flat::status::OUT_OF_MEMORY;
use amqp_link_object::Object;
use std::alloc::Global;

// Both endpoints, and what a session keeps: the next id, and the tag of the delivery that has the last one.
#[derive(Drop)]
pub(super) struct Links {
    pub sender: Object,
    pub receiver: Object,
    pub next_id: u32,
    pub tag: [u8; 32],
    pub tag_size: usize,
}

impl Links {
    // The tag of the delivery that has the last id.
    pub fn tag(&self) -> &[u8] {
        self.tag.get(..self.tag_size).unwrap_or(&[])
    }
}

// Two endpoints that are not attached.
pub(super) fn new_links(alloc: Global) -> Result<Links, Refused> {
    let (mut sender, mut receiver) = (Object::empty(alloc), Object::empty(alloc));
    let (own, none) = (terminus(), &[]);
    again!(amqp_sender_new(
        alloc,
        &mut sender,
        &terms(),
        b"letters",
        &own,
        none,
        &own,
        none,
    ))?;
    again!(amqp_receiver_new(
        alloc,
        &mut receiver,
        &terms(),
        b"letters",
        &own,
        none,
        &own,
        none,
    ))?;
    Ok(Links {
        sender,
        receiver,
        next_id: 0,
        tag: [0; 32],
        tag_size: 0,
    })
}

// Both endpoints send their attach, and each takes the other's. The receiver's list of what was forgotten is returned.
pub(super) fn attach(
    alloc: Global,
    links: &mut Links,
    resuming: &mut Object,
) -> Result<Object, Refused> {
    let (mut own, mut other) = (Object::empty(alloc), Object::empty(alloc));
    let (mut ended, mut forgotten) = (Object::empty(alloc), Object::empty(alloc));
    let (mut exchange, mut incomplete) = (0, false);
    let Links {
        sender,
        receiver,
        ..
    } = links;
    again!(amqp_link_set_output_handle(alloc, sender, 0))?;
    again!(amqp_link_set_output_handle(alloc, receiver, 0))?;
    again!(amqp_sender_send_attach(alloc, sender, false, &mut own, &mut ended,))?;
    again!(amqp_receiver_send_attach(alloc, receiver, false, &mut other))?;
    again!(amqp_receiver_on_attach(alloc, receiver, &mut own, &mut exchange, &mut forgotten,))?;
    again!(amqp_sender_on_attach(
        alloc,
        sender,
        &mut other,
        resuming,
        &mut incomplete,
        &mut ended,
    ))?;
    Ok(forgotten)
}

// The receiver lets the sender begin so many deliveries.
pub(super) fn grant(alloc: Global, links: &mut Links, credit: u32) -> Result<(), Refused> {
    let (mut sent, mut reply, mut has_reply) = (flow(), flow(), false);
    again!(amqp_receiver_send_flow(
        alloc,
        &mut links.receiver,
        true,
        credit,
        false,
        false,
        false,
        &mut sent,
    ))?;
    again!(amqp_sender_on_flow(alloc, &mut links.sender, &sent, &mut reply, &mut has_reply,))
}

// Sends a payload, and puts its frames into an object.
pub(super) fn send(
    alloc: Global,
    links: &mut Links,
    payload: &[u8],
    settled: u32,
    frames: &mut Object,
) -> Result<(), Refused> {
    let sender = &mut links.sender;
    again!(amqp_sender_send(alloc, sender, payload, 0, settled, false, frames,))
}

fn arriving() -> Arriving {
    Arriving {
        arrival: 0,
        aborted_at: 0,
        replaced: 0,
        session_id: 0,
        has_session_id: false,
        without_credit: false,
    }
}

// A frame of the sender's arrives at the receiver. The first transfer of a delivery gets its id here.
pub(super) fn arrive(
    alloc: Global,
    links: &mut Links,
    frames: &mut Object,
    number: usize,
) -> Result<u32, Refused> {
    let (mut kind, mut sent, mut made) = (0, transfer(), arriving());
    let (mut tag, mut payload) = ([0; 32], [0; 64]);
    let mut sizes = Sizes {
        first: 0,
        second: 0,
    };
    again!(amqp_frames_kind(alloc, frames, number, &mut kind))?;
    again!(amqp_frames_transfer(
        alloc,
        frames,
        number,
        &mut sent,
        &mut tag,
        &mut payload,
        &mut sizes,
    ))?;
    let (Some(name), Some(bytes)) = (tag.get(..sizes.first), payload.get(..sizes.second)) else {
        return Err(Refused(6));
    };
    if kind == FRAME_FIRST_TRANSFER {
        sent.has_delivery_id = true;
        sent.delivery_id = links.next_id;
        links.next_id = links.next_id.wrapping_add(1);
    }
    again!(amqp_receiver_on_transfer(
        alloc,
        &mut links.receiver,
        &sent,
        name,
        bytes,
        &mut made,
        &mut links.tag,
        &mut links.tag_size,
    ))?;
    Ok(made.arrival)
}

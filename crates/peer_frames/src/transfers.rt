//! Transfers of a peer that sends.
use crate::peer_frame::PeerFrame;
use crate::values::{payload, receiver_mode_or_none, state_or_none};
use crate::wire::Wire;
use crate::world::World;
use amqp_link_types::types::{
    DeliveryNumber, DeliveryState, DeliveryTag, Handle, Payload, Transfer,
};
use std::alloc::AllocError;

/// What is sent of a delivery.
#[derive(Clone, Copy, Debug, PartialEq, Eq)]
pub enum Part {
    /// All of it.
    New,
    /// What its receiver lacks.
    Rest,
    /// Nothing: its receiver has all.
    Known,
}

// The state that a first transfer has: mostly none.
fn first_state(world: &mut World) -> Result<Option<DeliveryState>, AllocError> {
    if world.random.in_hundred(85) {
        return Ok(None);
    }
    state_or_none(world)
}

// The first transfer of a delivery.
fn first_transfer(
    world: &mut World,
    part: Part,
    id: DeliveryNumber,
    tag: DeliveryTag,
) -> Result<Transfer, AllocError> {
    let state = first_state(world)?;
    Ok(Transfer {
        handle: Handle(0),
        delivery_id: Some(id),
        delivery_tag: Some(tag),
        message_format: Some(0),
        settled: settled(world),
        more: false,
        rcv_settle_mode: receiver_mode_or_none(world),
        state,
        resume: part != Part::New,
        aborted: false,
        batchable: world.random.flag(),
    })
}

// Whether a transfer settles its delivery: mostly not.
fn settled(world: &mut World) -> Option<bool> {
    match world.random.below(6) {
        0 => Some(true),
        1..=3 => Some(false),
        _ => None,
    }
}

// The bytes of a transfer.
fn bytes_of(world: &mut World, part: Part) -> Result<Payload, AllocError> {
    match part {
        Part::Known if world.random.in_hundred(92) => Ok(Payload::new()),
        _ => payload(world),
    }
}

// How many transfers follow the first.
fn further(world: &mut World, part: Part) -> u32 {
    match part {
        Part::Known if world.random.in_hundred(90) => 0,
        _ => world.random.below(4),
    }
}

/// The peer sends a part of a delivery, with this id, in one transfer or in several; some deliveries are aborted with the last.
pub fn send_delivery(
    world: &mut World,
    wire: &mut Wire,
    part: Part,
    id: DeliveryNumber,
    tag: DeliveryTag,
) -> Result<(), AllocError> {
    let following = further(world, part);
    let mut first = first_transfer(world, part, id, tag)?;
    first.more = following != 0;
    let bytes = bytes_of(world, part)?;
    wire.push(PeerFrame::Transfer(first, bytes))?;
    for place in 0..following {
        let is_last = place.saturating_add(1) == following;
        let transfer = further_transfer(world, part, is_last);
        let bytes = bytes_of(world, part)?;
        wire.push(PeerFrame::Transfer(transfer, bytes))?;
    }
    Ok(())
}

// A further transfer, the last one or not.
fn further_transfer(world: &mut World, part: Part, is_last: bool) -> Transfer {
    Transfer {
        settled: if is_last { settled(world) } else { None },
        more: !is_last,
        resume: part != Part::New && world.random.flag(),
        aborted: is_last && world.random.in_hundred(8),
        ..Transfer::default()
    }
}

/// A transfer of any delivery, which is that of no link or of another one.
pub fn any_transfer(world: &mut World) -> Result<PeerFrame, AllocError> {
    let tag = world.tag()?;
    let bytes = payload(world)?;
    let transfer = Transfer {
        delivery_id: Some(world.random.absurd()),
        delivery_tag: Some(tag),
        more: world.random.flag(),
        resume: world.random.in_hundred(30),
        ..Transfer::default()
    };
    Ok(PeerFrame::Transfer(transfer, bytes))
}

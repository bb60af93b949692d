//! The peer of a sender: a receiver.
use crate::SenderLife;
use amqp_link_endpoint::endpoint::LinkExt;
use amqp_link_payloads::position::position_of;
use amqp_link_types::delivery::UnsettledMessage;
use amqp_link_types::types::{Attach, DeliveryState, Role, UnsettledMap};
use hostile_links::ending::detach_reply;
use hostile_links::phases::{Phase, phase_of};
use peer_frames::frames::{attach, detach, disposition, flow};
use peer_frames::mischief::spoil;
use peer_frames::peer_frame::PeerFrame;
use peer_frames::transfers::any_transfer;
use peer_frames::values::{copy_of, outcome, put_any, state_or_none};
use peer_frames::world::World;
use std::alloc::AllocError;

/// The next frame of the peer that arrives.
pub fn next_frame(world: &mut World, life: &mut SenderLife) -> Result<PeerFrame, AllocError> {
    let under_way = if world.random.in_hundred(85) {
        life.wire.next(world)?
    } else {
        None
    };
    let mut frame = match under_way {
        Some(frame) => frame,
        None => invent(world, life)?,
    };
    if world.goes_wrong() {
        spoil(world, &mut frame)?;
    }
    Ok(frame)
}

// A frame that the peer sends now on its own initiative.
fn invent(world: &mut World, life: &SenderLife) -> Result<PeerFrame, AllocError> {
    match phase_of(*life.ledger.local_state()) {
        Phase::Attaching if world.random.in_hundred(90) => {
            Ok(PeerFrame::Attach(receiver_attach(world, life)?))
        }
        Phase::Detaching if world.random.in_hundred(90) => detach_reply(world, &life.ledger),
        _ => invent_attached(world, life),
    }
}

// The same while the link is attached.
fn invent_attached(world: &mut World, life: &SenderLife) -> Result<PeerFrame, AllocError> {
    if life.ledger.flow_state().link_credit() == 0 && world.random.in_hundred(70) {
        return grant(world, life);
    }
    match world.random.below(100) {
        0..=49 => grant(world, life),
        50..=91 => Ok(PeerFrame::Disposition(disposition(world, Role::Receiver, &life.session)?)),
        92..=94 => {
            let closed = world.random.in_hundred(30);
            Ok(PeerFrame::Detach(detach(world, closed)?))
        }
        95..=97 => any_transfer(world),
        _ => Ok(PeerFrame::Attach(receiver_attach(world, life)?)),
    }
}

// The peer grants credit.
fn grant(world: &mut World, life: &SenderLife) -> Result<PeerFrame, AllocError> {
    let count = known_count(world, life);
    Ok(PeerFrame::Flow(flow(world, count)?))
}

// The sender's delivery-count, as its peer knows it.
fn known_count(world: &mut World, life: &SenderLife) -> u32 {
    let count = life.ledger.flow_state().delivery_count();
    let late = world.random.below(3);
    count.wrapping_sub(late)
}

/// The attach of the peer, which states what it has of the sender's deliveries.
pub fn receiver_attach(world: &mut World, life: &SenderLife) -> Result<Attach, AllocError> {
    let mut reported = UnsettledMap::new(world.alloc);
    for (tag, entry) in life.ledger.unsettled_map().pairs() {
        if let Some(state) = report_of(world, entry)? {
            drop(reported.put(tag.clone()?, state)?);
        }
    }
    if world.goes_wrong() {
        put_any(world, &mut reported)?;
    }
    let mode = life.ledger.snd_settle_mode();
    attach(world, Role::Receiver, mode, reported)
}

// What the peer states of a delivery, if it knows it.
fn report_of(
    world: &mut World,
    entry: &UnsettledMessage,
) -> Result<Option<Option<DeliveryState>>, AllocError> {
    match world.random.below(10) {
        0 | 1 => Ok(None),
        2 => Ok(Some(None)),
        3..=6 => Ok(Some(front_of(world, entry)?)),
        7 => Ok(Some(Some(outcome(world)?))),
        8 => Ok(Some(copy_of(&entry.state)?)),
        _ => Ok(Some(state_or_none(world)?)),
    }
}

// The position up to which some bytes of a delivery reach.
fn front_of(
    world: &mut World,
    entry: &UnsettledMessage,
) -> Result<Option<DeliveryState>, AllocError> {
    let len = world.random.place(entry.payload.len().saturating_add(1));
    let front = entry.payload.slice(..len)?;
    let position = position_of(&[front]);
    match position {
        Some((section_number, section_offset)) => Ok(Some(DeliveryState::Received {
            section_number,
            section_offset,
        })),
        None => Ok(None),
    }
}

//! The peer of an inbox: a sender.
use crate::ReceiverLife;
use amqp_link_endpoint::endpoint::LinkExt;
use amqp_link_inbox::Stage;
use amqp_link_types::types::{
    Attach, DeliveryNumber, DeliveryState, DeliveryTag, Role, UnsettledMap,
};
use hostile_links::ending::detach_reply;
use hostile_links::phases::{Phase, phase_of};
use peer_frames::frames::{attach, detach, disposition, flow};
use peer_frames::mischief::spoil;
use peer_frames::peer_frame::PeerFrame;
use peer_frames::transfers::{Part, any_transfer, send_delivery};
use peer_frames::values::{put_any, state_or_none};
use peer_frames::world::World;
use std::alloc::AllocError;

/// The next frame of the peer that arrives.
pub fn next_frame(world: &mut World, life: &mut ReceiverLife) -> Result<PeerFrame, AllocError> {
    if life.wire.len() == 0 || world.random.in_hundred(10) {
        send_some(world, life)?;
    }
    let mut frame = match life.wire.next(world)? {
        Some(frame) => frame,
        None => any_transfer(world)?,
    };
    if world.goes_wrong() {
        spoil(world, &mut frame)?;
    }
    Ok(frame)
}

// The peer sends a frame on its own initiative: mostly what the state of the link asks for.
fn send_some(world: &mut World, life: &mut ReceiverLife) -> Result<(), AllocError> {
    match phase_of(*life.inbox.local_state()) {
        Phase::Attaching if world.random.in_hundred(90) => {
            let theirs = sender_attach(world, life)?;
            life.wire.push(PeerFrame::Attach(theirs))
        }
        Phase::Detaching if world.random.in_hundred(90) => {
            let reply = detach_reply(world, &life.inbox)?;
            life.wire.push(reply)
        }
        _ => send_attached(world, life),
    }
}

// The same while the link is attached.
fn send_attached(world: &mut World, life: &mut ReceiverLife) -> Result<(), AllocError> {
    let frame = match world.random.below(100) {
        0..=69 => return begin_delivery(world, life),
        70..=77 => {
            let count = life.inbox.flow_state().delivery_count();
            PeerFrame::Flow(flow(world, count)?)
        }
        78..=92 => PeerFrame::Disposition(disposition(world, Role::Sender, &life.session)?),
        93..=95 => {
            let closed = world.random.in_hundred(30);
            PeerFrame::Detach(detach(world, closed)?)
        }
        96 | 97 => any_transfer(world)?,
        _ => PeerFrame::Attach(sender_attach(world, life)?),
    };
    life.wire.push(frame)
}

// The id that the peer gives next.
fn give_id(life: &mut ReceiverLife) -> DeliveryNumber {
    let id = life.next_id;
    life.next_id = id.wrapping_add(1);
    id
}

// A tag of which nothing is kept, if the first or the second try finds one.
fn new_tag(world: &mut World, life: &ReceiverLife) -> Result<DeliveryTag, AllocError> {
    let tag = world.tag()?;
    if life.inbox.get(&tag).is_none() {
        return Ok(tag);
    }
    drop(tag);
    world.tag()
}

// The peer sends a whole delivery, mostly if it has credit for it.
fn begin_delivery(world: &mut World, life: &mut ReceiverLife) -> Result<(), AllocError> {
    if life.inbox.flow_state().link_credit() == 0 && world.random.in_hundred(70) {
        return Ok(());
    }
    let tag = new_tag(world, life)?;
    let id = give_id(life);
    send_delivery(world, &mut life.wire, Part::New, id, tag)
}

/// The attach of the peer, which states deliveries that the receiver states, and others.
pub fn sender_attach(world: &mut World, life: &ReceiverLife) -> Result<Attach, AllocError> {
    let mut stated = UnsettledMap::new(world.alloc);
    for (tag, _) in life.inbox.unsettled_map().pairs() {
        if world.random.in_hundred(75) {
            let state = sender_state(world)?;
            drop(stated.put(tag.clone()?, state)?);
        }
    }
    if world.goes_wrong() {
        put_any(world, &mut stated)?;
    }
    let mode = life.inbox.snd_settle_mode();
    attach(world, Role::Sender, mode, stated)
}

// What a sender states of a delivery that it resumes: mostly nothing.
fn sender_state(world: &mut World) -> Result<Option<DeliveryState>, AllocError> {
    if world.random.in_hundred(70) {
        return Ok(None);
    }
    state_or_none(world)
}

/// After both attaches the peer resumes what the receiver states.
pub fn resume_all(world: &mut World, life: &mut ReceiverLife) -> Result<(), AllocError> {
    if phase_of(*life.inbox.local_state()) != Phase::Attached {
        return Ok(());
    }
    let mut tags = Vec::new(world.alloc);
    for (tag, _) in life.inbox.unsettled_map().pairs() {
        tags.push(tag.clone()?)?;
    }
    for tag in tags {
        let part = part_of(life.inbox.get(&tag).map(|kept| kept.stage()));
        if world.random.in_hundred(90) {
            let id = give_id(life);
            send_delivery(world, &mut life.wire, part, id, tag)?;
        } else {
            drop(tag);
        }
    }
    Ok(())
}

// What a sender sends of a delivery that has come so far.
fn part_of(stage: Option<Stage>) -> Part {
    match stage {
        Some(Stage::Complete) | Some(Stage::Taken) => Part::Known,
        _ => Part::Rest,
    }
}

//! How a link is made.
use amqp_link_endpoint::endpoint::LinkExt;
use amqp_link_endpoint::link_parts::LinkParts;
use amqp_link_types::types::{OutputHandle, Target};
use peer_frames::random::Random;
use peer_frames::termini::{source, target};
use peer_frames::values::{receiver_mode, sender_mode, text};
use peer_frames::world::World;
use std::alloc::AllocError;

/// A frame limit: often one that leaves little room beside a transfer.
pub fn limit(random: &mut Random) -> u32 {
    match random.below(10) {
        0..=4 => random.below(37).saturating_add(28),
        5..=7 => random.below(200).saturating_add(64),
        8 => 512,
        _ => random.absurd(),
    }
}

/// A frame limit that has room for most attaches.
pub fn ample_limit(random: &mut Random) -> u32 {
    random.below(200).saturating_add(100)
}

fn link_name(random: &mut Random) -> &'static str {
    match random.below(4) {
        0 => "",
        1 => "a link with a longer name",
        _ => "l",
    }
}

/// The parts of a link with this frame limit.
pub fn parts(world: &mut World, limit: u32) -> Result<LinkParts<Target>, AllocError> {
    let name = text(world.alloc, link_name(&mut world.random))?;
    let (source, target) = (source(world)?, target(world)?);
    let mut parts = LinkParts::new(name, Some(source), Some(target), limit);
    parts.snd_settle_mode = sender_mode(world);
    parts.rcv_settle_mode = receiver_mode(world);
    parts.verify_incoming_source = world.random.in_hundred(40);
    parts.verify_incoming_target = world.random.in_hundred(40);
    if world.random.in_hundred(20) {
        let count = world.random.absurd();
        parts.flow_state.initial_delivery_count = count;
        parts.flow_state.delivery_count = count;
    }
    Ok(parts)
}

/// The session gives the link a handle, or forgets to.
pub fn give_handle<L: LinkExt>(world: &mut World, link: &mut L) {
    let handle = if world.random.in_hundred(2) {
        None
    } else {
        Some(OutputHandle(world.random.below(3)))
    };
    *link.output_handle_mut() = handle;
}

//! Deliveries that the user of an inbox takes.
use crate::ReceiverLife;
use amqp_link_endpoint::endpoint::LinkExt;
use amqp_link_inbox::{Inbox, Stage, TakeError};
use amqp_link_types::delivery::Delivery;
use amqp_link_types::types::{DataBody, DeliveryTag, Payload, Target, Whole};
use hostile_links::refusals::count_name;
use link_checks::Stop;
use peer_frames::reached::count_one;
use peer_frames::world::World;
use std::alloc::AllocError;

// The tag of a delivery that is complete and was not taken.
fn complete_tag(inbox: &Inbox<Target>) -> Option<&DeliveryTag> {
    for (tag, _) in inbox.unsettled_map().pairs() {
        if let Some(kept) = inbox.get(tag)
            && kept.stage() == Stage::Complete
        {
            return Some(tag);
        }
    }
    None
}

// The tag of such a delivery, or any.
fn tag_to_take(world: &mut World, life: &ReceiverLife) -> Result<DeliveryTag, AllocError> {
    match complete_tag(&life.inbox) {
        Some(tag) if world.random.in_hundred(85) => tag.clone(),
        _ => world.tag(),
    }
}

// A delivery with so many bytes is taken.
fn count_taken(world: &mut World, life: &mut ReceiverLife, bytes: usize) {
    count_one(&mut world.reached.taken);
    life.taken = life.taken.saturating_add(bytes as u64);
}

fn bytes_of(pieces: &[Payload]) -> usize {
    let mut bytes: usize = 0;
    for piece in pieces {
        bytes = bytes.saturating_add(piece.len());
    }
    bytes
}

// The name of a refusal; none if it is out of memory.
fn name_of(refused: &TakeError) -> Option<&'static str> {
    match refused {
        TakeError::UnknownTag => Some("TakeError::UnknownTag"),
        TakeError::NotComplete => Some("TakeError::NotComplete"),
        TakeError::AlreadyTaken => Some("TakeError::AlreadyTaken"),
        TakeError::NotAttached => Some("TakeError::NotAttached"),
        TakeError::Undecoded(_) => Some("TakeError::Undecoded"),
        TakeError::OutOfMemory => None,
    }
}

// A delivery is not taken. One that was not decoded counts as taken.
fn refuse_take(world: &mut World, life: &mut ReceiverLife, refused: TakeError) -> Result<(), Stop> {
    if let TakeError::Undecoded(undecoded) = &refused {
        let bytes = bytes_of(undecoded.pieces.as_slice());
        count_taken(world, life, bytes);
    }
    let counted = count_name(world, name_of(&refused));
    drop(refused);
    counted
}

fn take_whole(
    world: &mut World,
    life: &mut ReceiverLife,
    answer: Result<Delivery<Whole>, TakeError>,
) -> Result<(), Stop> {
    match answer {
        Ok(delivery) => {
            let bytes = delivery.body().0.len();
            drop(delivery);
            count_taken(world, life, bytes);
            Ok(())
        }
        Err(refused) => refuse_take(world, life, refused),
    }
}

fn take_data(
    world: &mut World,
    life: &mut ReceiverLife,
    answer: Result<Delivery<DataBody>, TakeError>,
) -> Result<(), Stop> {
    match answer {
        Ok(delivery) => {
            let bytes = delivery.body().0.len();
            drop(delivery);
            count_taken(world, life, bytes);
            Ok(())
        }
        Err(refused) => refuse_take(world, life, refused),
    }
}

/// A delivery is taken, by its tag.
pub fn take(world: &mut World, life: &mut ReceiverLife) -> Result<(), Stop> {
    let tag = tag_to_take(world, life)?;
    let taken = if world.random.flag() {
        let answer = life.inbox.take(&tag);
        take_whole(world, life, answer)
    } else {
        let answer = life.inbox.take(&tag);
        take_data(world, life, answer)
    };
    drop(tag);
    taken
}

/// The first delivery is taken that its sender has settled, if there is one.
pub fn take_settled(world: &mut World, life: &mut ReceiverLife) -> Result<(), Stop> {
    match life.inbox.take_settled() {
        Ok(Some(delivery)) => take_whole(world, life, Ok(delivery)),
        Ok(None) => Ok(()),
        Err(refused) => refuse_take(world, life, refused),
    }
}

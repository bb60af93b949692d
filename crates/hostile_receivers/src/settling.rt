//! Deliveries that the user of an inbox disposes of.
use crate::ReceiverLife;
use amqp_link_endpoint::endpoint::LinkExt;
use amqp_link_inbox::{DisposeError, Inbox, Stage};
use amqp_link_types::types::{DeliveryTag, Target};
use hostile_links::refusals::count_name;
use link_checks::Stop;
use peer_frames::reached::{count_more, count_one};
use peer_frames::values::state;
use peer_frames::world::World;
use std::alloc::{AllocError, Global};

// The tags of the deliveries that were taken.
fn taken_tags(alloc: Global, inbox: &Inbox<Target>) -> Result<Vec<DeliveryTag>, AllocError> {
    let mut tags = Vec::new(alloc);
    for (tag, _) in inbox.unsettled_map().pairs() {
        if let Some(kept) = inbox.get(tag)
            && kept.stage() == Stage::Taken
        {
            tags.push(tag.clone()?)?;
        }
    }
    Ok(tags)
}

// The name of a refusal; none if it is out of memory.
fn name_of(refused: &DisposeError) -> Option<&'static str> {
    match refused {
        DisposeError::NotAttached => Some("DisposeError::NotAttached"),
        DisposeError::UnknownTag => Some("DisposeError::UnknownTag"),
        DisposeError::NotTaken => Some("DisposeError::NotTaken"),
        DisposeError::NotResumed => Some("DisposeError::NotResumed"),
        DisposeError::OutOfMemory => None,
    }
}

// A disposition is refused, which is counted.
fn refuse(world: &mut World, refused: DisposeError) -> Result<(), Stop> {
    let counted = count_name(world, name_of(&refused));
    drop(refused);
    counted
}

// The tag of a delivery that was taken, or any.
fn tag_to_settle(world: &mut World, life: &ReceiverLife) -> Result<DeliveryTag, AllocError> {
    let mut tags = taken_tags(world.alloc, &life.inbox)?;
    match tags.pop() {
        Some(tag) if world.random.in_hundred(80) => Ok(tag),
        _ => world.tag(),
    }
}

/// One disposition.
pub fn dispose(world: &mut World, life: &mut ReceiverLife) -> Result<(), Stop> {
    let tag = tag_to_settle(world, life)?;
    let state = state(world)?;
    let (settled, batchable) = (world.random.flag_or_none(), world.random.flag());
    let answer = life.inbox.dispose(&tag, settled, state, batchable);
    drop(tag);
    match answer {
        Ok(frame) => {
            drop(frame);
            count_one(&mut world.reached.disposed);
            Ok(())
        }
        Err(refused) => refuse(world, refused),
    }
}

/// Dispositions of all that was taken, among which a delivery may be twice, or one that nobody knows.
pub fn dispose_all(world: &mut World, life: &mut ReceiverLife) -> Result<(), Stop> {
    let mut tags = taken_tags(world.alloc, &life.inbox)?;
    if let Some(first) = tags.first()
        && world.random.in_hundred(20)
    {
        let again = first.clone()?;
        tags.push(again)?;
    }
    if world.random.in_hundred(15) {
        tags.push(world.tag()?)?;
    }
    let state = state(world)?;
    let (settled, batchable) = (world.random.flag_or_none(), world.random.flag());
    let count = tags.len();
    let answer = life
        .inbox
        .dispose_all(tags.as_slice(), settled, state, batchable);
    drop(tags);
    match answer {
        Ok(frames) => {
            drop(frames);
            count_more(&mut world.reached.disposed, count);
            Ok(())
        }
        Err(refused) => refuse(world, refused),
    }
}

/// The outcome of a delivery is kept for the next attach.
pub fn keep_outcome(world: &mut World, life: &mut ReceiverLife) -> Result<(), Stop> {
    let tag = tag_to_settle(world, life)?;
    let state = state(world)?;
    let answer = life.inbox.keep_outcome(&tag, state);
    drop(tag);
    match answer {
        Ok(()) => {
            count_one(&mut world.reached.kept);
            Ok(())
        }
        Err(refused) => refuse(world, refused),
    }
}

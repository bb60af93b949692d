//! How a sender settles deliveries, withdraws them and releases what became of them.
use crate::SenderLife;
use amqp_link_endpoint::endpoint::LinkExt;
use amqp_link_types::types::{DeliveryNumber, DeliveryTag};
use hostile_links::refusals::unless_refused;
use link_checks::Stop;
use peer_frames::frames::detach;
use peer_frames::reached::count_one;
use peer_frames::values::state;
use peer_frames::world::World;
use std::alloc::AllocError;

// Deliveries that the session knows, up to so many ids apart, or none.
fn some_known(
    world: &mut World,
    life: &SenderLife,
    apart: u32,
) -> Result<Vec<(DeliveryNumber, DeliveryTag)>, AllocError> {
    let Some(first) = life.session.any(&mut world.random) else {
        return Ok(Vec::new(world.alloc));
    };
    let last = first.wrapping_add(apart);
    life.session.between(world.alloc, first, last)
}

/// One disposition.
pub fn dispose(world: &mut World, life: &mut SenderLife) -> Result<(), Stop> {
    let known = some_known(world, life, 0)?;
    let state = state(world)?;
    let (settled, batchable) = (world.random.flag(), world.random.flag());
    let answer = match known.first() {
        Some((id, tag)) => life.ledger.dispose(*id, tag, settled, state, batchable),
        None => {
            let tag = world.tag()?;
            let answer = life.ledger.dispose(0, &tag, settled, state, batchable);
            drop(tag);
            answer
        }
    };
    drop(known);
    if let Some((frames, outcomes)) = unless_refused(world, answer)? {
        drop(frames);
        life.take_outcomes(world, outcomes);
    }
    Ok(())
}

/// A batch of dispositions, in which a delivery may be twice, or one that nobody knows.
pub fn dispose_all(world: &mut World, life: &mut SenderLife) -> Result<(), Stop> {
    let mut known = some_known(world, life, 6)?;
    if world.random.in_hundred(30) {
        let id = world.random.absurd();
        known.push((id, world.tag()?))?;
    }
    if let Some((id, tag)) = known.first()
        && world.random.in_hundred(20)
    {
        let again = (*id, tag.clone()?);
        known.push(again)?;
    }
    let state = state(world)?;
    let (settled, batchable) = (world.random.flag(), world.random.flag());
    let answer = life
        .ledger
        .batch_dispose(known.as_slice(), settled, state, batchable);
    drop(known);
    if let Some((frames, outcomes)) = unless_refused(world, answer)? {
        drop(frames);
        life.take_outcomes(world, outcomes);
    }
    Ok(())
}

// The tag of a pending delivery, or any.
fn pending_tag(world: &mut World, life: &SenderLife) -> Result<DeliveryTag, AllocError> {
    let pending = life.ledger.unsettled_map();
    let place = world.random.place(pending.len());
    match pending.pair_at(place) {
        Some((tag, _)) => tag.clone(),
        None => world.tag(),
    }
}

/// A delivery is withdrawn.
pub fn withdraw(world: &mut World, life: &mut SenderLife) -> Result<(), Stop> {
    let tag = pending_tag(world, life)?;
    let entry = life.ledger.withdraw(&tag);
    if entry.is_some() {
        life.count_ended(1);
        count_one(&mut world.reached.withdrawn);
    }
    drop((tag, entry));
    Ok(())
}

/// What became of registrations is released.
pub fn release(world: &mut World, life: &mut SenderLife) -> Result<(), Stop> {
    let before = world.random.place(life.registered.saturating_add(2));
    if life.ledger.release(before).is_err() {
        world.reached.count_refusal("StillPending");
    }
    Ok(())
}

/// All pending deliveries fail, as by a detach that closes the link.
pub fn fail_all(world: &mut World, life: &mut SenderLife) -> Result<(), Stop> {
    let closing = detach(world, true)?;
    let outcomes = life.ledger.fail_pending_unsettled(&closing);
    drop(closing);
    life.take_outcomes(world, outcomes?);
    Ok(())
}

//! The frames that arrive at an inbox.
use crate::ReceiverLife;
use crate::peer::resume_all;
use amqp_link_inbox::{Arrival, Arrived};
use amqp_link_receiver::receiver_link::ReceiverAttachExchange;
use amqp_link_types::types::{
    Attach, DeliveryNumber, DeliveryTag, Detach, Disposition, Payload, Transfer,
};
use hostile_links::ending::{fail_attach, is_reply, record_detach};
use hostile_links::refusals::{count, unless_refused};
use link_checks::Stop;
use peer_frames::peer_frame::PeerFrame;
use peer_frames::reached::{count_more, count_one};
use peer_frames::values::copy_of;
use peer_frames::world::World;
use std::alloc::AllocError;

/// Passes a frame of the peer to the call that is named after it.
pub fn take(world: &mut World, life: &mut ReceiverLife, frame: PeerFrame) -> Result<(), Stop> {
    match frame {
        PeerFrame::Attach(attach) => take_attach(world, life, attach),
        PeerFrame::Flow(flow) => {
            let answer = life.inbox.on_incoming_flow(flow);
            drop(unless_refused(world, answer)?);
            Ok(())
        }
        PeerFrame::Transfer(transfer, payload) => take_transfer(world, life, transfer, payload),
        PeerFrame::Disposition(disposition) => take_disposition(world, life, disposition),
        PeerFrame::Detach(detach) => take_detach(world, life, detach),
    }
}

fn take_attach(world: &mut World, life: &mut ReceiverLife, attach: Attach) -> Result<(), Stop> {
    match life.inbox.on_incoming_attach(attach) {
        Ok((exchange, forgotten)) => {
            count_one(&mut world.reached.attaches);
            count_more(&mut world.reached.forgotten, forgotten.len());
            drop(forgotten);
            if exchange != ReceiverAttachExchange::Complete {
                count_one(&mut world.reached.exchanges);
            }
            Ok(resume_all(world, life)?)
        }
        Err(refused) => fail_attach(
            world,
            &mut life.inbox,
            &mut life.session,
            &mut life.wire,
            refused,
        ),
    }
}

fn take_transfer(
    world: &mut World,
    life: &mut ReceiverLife,
    transfer: Transfer,
    payload: Payload,
) -> Result<(), Stop> {
    let bytes = payload.len() as u64;
    let named = name_of(&transfer)?;
    match life.inbox.on_incoming_transfer(transfer, payload) {
        Ok(arrived) => {
            life.came = life.came.saturating_add(bytes);
            take_arrived(world, life, arrived, named)
        }
        Err(refused) => {
            drop(named);
            let counted = count(world, &refused.error);
            drop(refused);
            counted
        }
    }
}

// The delivery that a transfer names, as a session reads it.
fn name_of(transfer: &Transfer) -> Result<Option<(DeliveryNumber, DeliveryTag)>, AllocError> {
    match (transfer.delivery_id, &transfer.delivery_tag) {
        (Some(id), Some(tag)) => Ok(Some((id, tag.clone()?))),
        _ => Ok(None),
    }
}

fn take_arrived(
    world: &mut World,
    life: &mut ReceiverLife,
    arrived: Arrived,
    named: Option<(DeliveryNumber, DeliveryTag)>,
) -> Result<(), Stop> {
    let reached = &mut world.reached;
    match arrived.arrival {
        Arrival::Begun | Arrival::Continued => {}
        Arrival::Complete => count_one(&mut reached.complete),
        Arrival::CompleteSettled => {
            count_one(&mut reached.complete);
            count_one(&mut reached.settled);
        }
        Arrival::Known => count_one(&mut reached.known),
        Arrival::Aborted(_) => count_one(&mut reached.aborted),
        Arrival::Ignored => count_one(&mut reached.ignored),
    }
    if arrived.replaced.is_some() {
        count_one(&mut reached.replaced);
    }
    let Arrived { session, tag, .. } = arrived;
    drop(tag);
    let noted = if life.tells_session() { session } else { named };
    if let Some((id, tag)) = noted {
        life.session.note(id, tag)?;
    }
    Ok(())
}

// The session looks the ids up. If it knows none of them, it may take them for any.
fn take_disposition(
    world: &mut World,
    life: &mut ReceiverLife,
    disposition: Disposition,
) -> Result<(), Stop> {
    let Disposition {
        first,
        last,
        settled,
        state,
        ..
    } = disposition;
    let mut named = life
        .session
        .between(world.alloc, first, last.unwrap_or(first))?;
    if named.is_empty() {
        named.push((first, world.tag()?))?;
    }
    for (_, tag) in named {
        let state = copy_of(&state)?;
        life.inbox.on_incoming_disposition(settled, state, &tag)?;
        drop(tag);
    }
    drop(state);
    Ok(())
}

fn take_detach(world: &mut World, life: &mut ReceiverLife, detach: Detach) -> Result<(), Stop> {
    let is_reply = is_reply(world, &life.inbox);
    let answer = life.inbox.on_incoming_detach(&detach, !is_reply);
    drop(unless_refused(world, answer)?);
    record_detach(world, &mut life.inbox, &mut life.wire, detach, is_reply)
}

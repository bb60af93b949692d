//! Payloads that a sender sends.
use crate::user::raise_limit;
use crate::{SenderLife, send_off};
use amqp_link_sender::sender_link::{Sending, Waiting};
use amqp_link_types::delivery::Settlement;
use amqp_link_types::frame::LinkFrame;
use amqp_link_types::types::{
    ConnectionStopReason, DeliveryNumber, DeliveryState, DeliveryTag, Disposition, LinkStateError,
    Payload, Role, SessionStopReason,
};
use hostile_links::refusals::{refuse, unless_refused};
use link_checks::{Stop, check_transfers};
use peer_frames::frames;
use peer_frames::peer_frame::PeerFrame;
use peer_frames::reached::count_one;
use peer_frames::values::{outcome, payload, state};
use peer_frames::world::World;
use std::alloc::AllocError;

/// Sends a payload as a new delivery.
pub fn send(world: &mut World, life: &mut SenderLife) -> Result<(), Stop> {
    let payload = payload(world)?;
    let sent = match world.random.below(10) {
        0 => send_by_transfer(world, life, &payload),
        1..=4 => send_by_tag(world, life, &payload),
        _ => send_by_count(world, life, &payload),
    };
    drop(payload);
    sent
}

// The state that a delivery has from the beginning: mostly none.
fn first_state(world: &mut World) -> Result<Option<DeliveryState>, AllocError> {
    if world.random.in_hundred(90) {
        return Ok(None);
    }
    Ok(Some(state(world)?))
}

fn format(world: &mut World) -> u32 {
    if world.random.in_hundred(80) {
        return 0;
    }
    world.random.absurd()
}

// What is pending as a payload is to be sent: mostly nothing.
fn waiting(world: &mut World) -> Result<Waiting, AllocError> {
    match world.random.below(120) {
        0 => {
            let closed = world.random.flag();
            let detach = frames::detach(world, closed)?;
            Ok(Waiting::Frame(LinkFrame::Detach(detach)))
        }
        1 => {
            let flow = frames::flow(world, 0)?;
            Ok(Waiting::Frame(LinkFrame::Flow(flow)))
        }
        2 => Ok(Waiting::Stopped(None)),
        3 => Ok(Waiting::Stopped(Some(SessionStopReason::Ended))),
        4 => {
            let reason = ConnectionStopReason::Closed;
            Ok(Waiting::Stopped(Some(SessionStopReason::ConnectionStopped(reason))))
        }
        _ => Ok(Waiting::Nothing),
    }
}

fn send_by_count(world: &mut World, life: &mut SenderLife, payload: &Payload) -> Result<(), Stop> {
    let waiting = waiting(world)?;
    let state = first_state(world)?;
    let (format, settled) = (format(world), world.random.flag_or_none());
    let sending = life
        .ledger
        .send_payload(waiting, payload, format, settled, state, false);
    take_sending(world, life, sending)
}

fn send_by_tag(world: &mut World, life: &mut SenderLife, payload: &Payload) -> Result<(), Stop> {
    let waiting = waiting(world)?;
    let state = first_state(world)?;
    let (format, settled) = (format(world), world.random.flag_or_none());
    let tag = world.tag()?;
    let sending = life.ledger.send_payload_with_tag(
        waiting,
        tag.as_bytes(),
        payload,
        format,
        settled,
        state,
        true,
    );
    drop(tag);
    take_sending(world, life, sending)
}

fn send_by_transfer(
    world: &mut World,
    life: &mut SenderLife,
    payload: &Payload,
) -> Result<(), Stop> {
    let tag = world.tag()?;
    let state = first_state(world)?;
    let (format, settled) = (format(world), world.random.flag_or_none());
    let link = life.ledger.link();
    let made = link.generate_non_resuming_transfer_performative(tag, format, settled, state, false);
    let Some(mut transfer) = unless_refused(world, made)? else {
        return Ok(());
    };
    if world.random.in_hundred(10) {
        transfer.delivery_tag = None;
    }
    let sent = life
        .ledger
        .send_payload_with_transfer(format, transfer, payload);
    match sent {
        Ok((settlement, frames)) => take_sent(world, life, settlement, frames),
        Err(refused) => refuse_send(world, life, refused),
    }
}

// A refused send is counted. If a frame has no room, the limit may grow.
fn refuse_send(
    world: &mut World,
    life: &mut SenderLife,
    refused: LinkStateError,
) -> Result<(), Stop> {
    if refused == LinkStateError::NoRoom && world.random.in_hundred(30) {
        raise_limit(world, life);
    }
    refuse(world, refused)
}

fn take_sending(
    world: &mut World,
    life: &mut SenderLife,
    sending: Result<Sending, LinkStateError>,
) -> Result<(), Stop> {
    match sending {
        Ok(Sending::Sent { settlement, frames }) => take_sent(world, life, settlement, frames),
        Ok(Sending::CreditMissing) => {
            world.reached.count_refusal("Sending::CreditMissing");
            Ok(())
        }
        Err(refused) => refuse_send(world, life, refused),
    }
}

// A delivery is sent.
fn take_sent(
    world: &mut World,
    life: &mut SenderLife,
    settlement: Settlement,
    frames: Vec<LinkFrame>,
) -> Result<(), Stop> {
    count_one(&mut world.reached.sent);
    life.count_sent(frames.as_slice());
    let checked = check_transfers(frames.as_slice(), life.limit);
    send_off(world, frames);
    checked?;
    match settlement {
        Settlement::Unsettled(tag) => {
            life.count_registered();
            await_outcome(world, life, tag)
        }
        Settlement::Settled(tag) => {
            let id = life.session.give();
            Ok(life.session.note(id, tag)?)
        }
    }
}

/// A delivery that awaits its outcome is sent: the session gives it an id, and its receiver may settle it.
pub fn await_outcome(
    world: &mut World,
    life: &mut SenderLife,
    tag: DeliveryTag,
) -> Result<(), Stop> {
    let id = life.session.give();
    life.session.note(id, tag)?;
    if world.random.in_hundred(60) {
        let answer = settling(world, id)?;
        life.wire.push(PeerFrame::Disposition(answer))?;
    }
    Ok(())
}

// The receiver's disposition of a delivery.
fn settling(world: &mut World, id: DeliveryNumber) -> Result<Disposition, AllocError> {
    let state = outcome(world)?;
    Ok(Disposition {
        role: Role::Receiver,
        first: id,
        last: None,
        settled: world.random.in_hundred(70),
        state: Some(state),
        batchable: false,
    })
}

//! The frames that arrive at a sender.
use crate::{SenderLife, count_outcome};
use amqp_link_core::resumption::ResumingDelivery;
use amqp_link_endpoint::endpoint::LinkAttach;
use amqp_link_exchange::ResumingDeliveries;
use amqp_link_sender::sender_link::SenderAttachExchange;
use amqp_link_types::types::{
    Attach, DeliveryNumber, DeliveryState, DeliveryTag, Detach, Disposition, LinkFlow,
};
use hostile_links::ending::{fail_attach, is_reply, record_detach};
use hostile_links::refusals::unless_refused;
use link_checks::Stop;
use peer_frames::peer_frame::PeerFrame;
use peer_frames::reached::count_one;
use peer_frames::values::{copy_of, outcome};
use peer_frames::world::World;

/// Passes a frame of the peer to the call that is named after it.
pub fn take(world: &mut World, life: &mut SenderLife, frame: PeerFrame) -> Result<(), Stop> {
    match frame {
        PeerFrame::Attach(attach) => take_attach(world, life, attach),
        PeerFrame::Flow(flow) => take_flow(world, life, flow),
        PeerFrame::Transfer(transfer, payload) => {
            let answer = life.ledger.on_incoming_transfer(transfer, payload);
            drop(unless_refused(world, answer)?);
            Ok(())
        }
        PeerFrame::Disposition(disposition) => take_disposition(world, life, disposition),
        PeerFrame::Detach(detach) => take_detach(world, life, detach),
    }
}

fn take_attach(world: &mut World, life: &mut SenderLife, attach: Attach) -> Result<(), Stop> {
    match life.ledger.on_incoming_attach(attach) {
        Ok((exchange, outcomes)) => {
            count_one(&mut world.reached.attaches);
            life.take_outcomes(world, outcomes);
            take_exchange(world, life, exchange)
        }
        Err(refused) => fail_attach(
            world,
            &mut life.ledger,
            &mut life.session,
            &mut life.wire,
            refused,
        ),
    }
}

fn take_exchange(
    world: &mut World,
    life: &mut SenderLife,
    exchange: SenderAttachExchange,
) -> Result<(), Stop> {
    match exchange {
        SenderAttachExchange::Complete => Ok(()),
        SenderAttachExchange::IncompleteUnsettled(list) => leave(world, life, list),
        SenderAttachExchange::Resume(list) => leave(world, life, list),
    }
}

// What an exchange leaves is resumed later.
fn leave(world: &mut World, life: &mut SenderLife, list: ResumingDeliveries) -> Result<(), Stop> {
    let list: Vec<(DeliveryTag, ResumingDelivery)> = list.into_vec();
    if !list.is_empty() {
        count_one(&mut world.reached.exchanges);
    }
    for one in list {
        if is_own(&one.1) {
            life.count_ended(1);
        }
        life.left.push_back(one)?;
    }
    Ok(())
}

// Whether a delivery that an exchange leaves was registered. One that only the receiver knows was not.
fn is_own(left: &ResumingDelivery) -> bool {
    !matches!(left, ResumingDelivery::Abort { tag: None, .. })
}

fn take_flow(world: &mut World, life: &mut SenderLife, flow: LinkFlow) -> Result<(), Stop> {
    let answer = if world.random.flag() {
        life.ledger.on_incoming_flow(flow)
    } else {
        life.ledger.on_incoming_flow_keeping_credit(flow)
    };
    drop(unless_refused(world, answer)?);
    Ok(())
}

// The session looks the ids up. If it knows none of them, it may take them for any.
fn take_disposition(
    world: &mut World,
    life: &mut SenderLife,
    disposition: Disposition,
) -> Result<(), Stop> {
    let Disposition {
        first,
        last,
        settled,
        state,
        ..
    } = disposition;
    let mut named = life
        .session
        .between(world.alloc, first, last.unwrap_or(first))?;
    if named.is_empty() {
        named.push((first, world.tag()?))?;
    }
    for (id, tag) in named {
        let state = copy_of(&state)?;
        settle_one(world, life, (id, tag), settled, state)?;
    }
    drop(state);
    Ok(())
}

fn settle_one(
    world: &mut World,
    life: &mut SenderLife,
    named: (DeliveryNumber, DeliveryTag),
    settled: bool,
    state: Option<DeliveryState>,
) -> Result<(), Stop> {
    let (id, tag) = named;
    let answer = life.ledger.on_incoming_disposition(settled, state, &tag);
    if let Some(answer) = unless_refused(world, answer)? {
        let echo = answer.echo;
        if let Some((_, outcome)) = &answer.outcome {
            count_outcome(world, outcome);
            life.count_ended(1);
        }
        drop(answer);
        if echo {
            reply(world, life, id, &tag)?;
        }
    }
    drop(tag);
    Ok(())
}

// The sender settles a delivery in reply to its receiver.
fn reply(
    world: &mut World,
    life: &mut SenderLife,
    id: DeliveryNumber,
    tag: &DeliveryTag,
) -> Result<(), Stop> {
    let state = outcome(world)?;
    let answer = life.ledger.dispose(id, tag, true, state, false);
    if let Some((frames, outcomes)) = unless_refused(world, answer)? {
        drop(frames);
        life.take_outcomes(world, outcomes);
    }
    Ok(())
}

fn take_detach(world: &mut World, life: &mut SenderLife, detach: Detach) -> Result<(), Stop> {
    let is_reply = is_reply(world, &life.ledger);
    let answer = life.ledger.on_incoming_detach(&detach, !is_reply);
    if let Some((reply, outcomes)) = unless_refused(world, answer)? {
        drop(reply);
        life.take_outcomes(world, outcomes);
    }
    record_detach(world, &mut life.ledger, &mut life.wire, detach, is_reply)
}

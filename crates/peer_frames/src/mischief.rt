//! Frames that are not as a correct peer sends them.
use crate::peer_frame::PeerFrame;
use crate::termini::{full_source, full_target};
use crate::values::{
    error_or_none, fields_or_none, payload, put_any, receiver_mode, receiver_mode_or_none,
    sender_mode, state_or_none,
};
use crate::world::World;
use amqp_link_types::types::{
    Attach, Detach, Disposition, Handle, LinkFlow, Payload, Role, TargetArchetype, Transfer,
    UnsettledMap,
};
use std::alloc::AllocError;
use std::mem;

// The other role.
fn other(role: Role) -> Role {
    match role {
        Role::Sender => Role::Receiver,
        Role::Receiver => Role::Sender,
    }
}

/// Changes a field of a frame, whatever a correct peer says there.
pub fn spoil(world: &mut World, frame: &mut PeerFrame) -> Result<(), AllocError> {
    match frame {
        PeerFrame::Attach(attach) => spoil_attach(world, attach),
        PeerFrame::Flow(flow) => spoil_flow(world, flow),
        PeerFrame::Transfer(transfer, payload) => spoil_transfer(world, transfer, payload),
        PeerFrame::Disposition(disposition) => spoil_disposition(world, disposition),
        PeerFrame::Detach(detach) => spoil_detach(world, detach),
    }
}

fn spoil_attach(world: &mut World, attach: &mut Attach) -> Result<(), AllocError> {
    match world.random.below(13) {
        0 => attach.role = other(attach.role),
        1 => attach.snd_settle_mode = sender_mode(world),
        2 => attach.rcv_settle_mode = receiver_mode(world),
        3 => attach.source = None,
        4 => attach.target = None,
        5 => attach.source = Some(full_source(world)?),
        6 => attach.target = Some(TargetArchetype::from(full_target(world)?)),
        7 => attach.unsettled = None,
        8 => return spoil_map(world, attach),
        9 => attach.incomplete_unsettled = !attach.incomplete_unsettled,
        10 => attach.initial_delivery_count = world.random.absurd_or_none(),
        11 => attach.max_message_size = Some(world.random.long_absurd()),
        _ => attach.properties = fields_or_none(world)?,
    }
    Ok(())
}

// An attach states any deliveries besides its own.
fn spoil_map(world: &mut World, attach: &mut Attach) -> Result<(), AllocError> {
    if attach.unsettled.is_none() {
        attach.unsettled = Some(UnsettledMap::new(world.alloc));
    }
    match &mut attach.unsettled {
        Some(map) => put_any(world, map),
        None => Ok(()),
    }
}

fn spoil_flow(world: &mut World, flow: &mut LinkFlow) -> Result<(), AllocError> {
    match world.random.below(7) {
        0 => flow.handle = Handle(world.random.absurd()),
        1 => flow.delivery_count = world.random.absurd_or_none(),
        2 => flow.link_credit = world.random.absurd_or_none(),
        3 => flow.available = world.random.absurd_or_none(),
        4 => flow.drain = !flow.drain,
        5 => flow.echo = !flow.echo,
        _ => flow.properties = fields_or_none(world)?,
    }
    Ok(())
}

fn spoil_transfer(
    world: &mut World,
    transfer: &mut Transfer,
    bytes: &mut Payload,
) -> Result<(), AllocError> {
    match world.random.below(13) {
        0 => transfer.delivery_id = world.random.absurd_or_none(),
        1 => transfer.delivery_tag = None,
        2 => transfer.delivery_tag = Some(world.tag()?),
        3 => transfer.settled = world.random.flag_or_none(),
        4 => transfer.more = !transfer.more,
        5 => transfer.rcv_settle_mode = receiver_mode_or_none(world),
        6 => transfer.state = state_or_none(world)?,
        7 => transfer.resume = !transfer.resume,
        8 => transfer.aborted = !transfer.aborted,
        9 => transfer.message_format = world.random.absurd_or_none(),
        10 => drop(mem::replace(bytes, payload(world)?)),
        11 => transfer.handle = Handle(world.random.absurd()),
        _ => transfer.batchable = !transfer.batchable,
    }
    Ok(())
}

fn spoil_disposition(world: &mut World, disposition: &mut Disposition) -> Result<(), AllocError> {
    match world.random.below(6) {
        0 => disposition.role = other(disposition.role),
        1 => disposition.first = world.random.absurd(),
        2 => disposition.last = world.random.absurd_or_none(),
        3 => disposition.settled = !disposition.settled,
        4 => disposition.state = state_or_none(world)?,
        _ => disposition.batchable = !disposition.batchable,
    }
    Ok(())
}

fn spoil_detach(world: &mut World, detach: &mut Detach) -> Result<(), AllocError> {
    match world.random.below(3) {
        0 => detach.handle = Handle(world.random.absurd()),
        1 => detach.closed = !detach.closed,
        _ => detach.error = error_or_none(world)?,
    }
    Ok(())
}

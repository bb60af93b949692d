//! Frames that both peers send, mostly as a correct one would.
use crate::session::Session;
use crate::termini::{source, target};
use crate::values::{
    error_or_none, fields_or_none, receiver_mode, sender_mode, state_or_none, symbols_or_none, text,
};
use crate::world::World;
use amqp_link_types::types::{
    Attach, DeliveryState, Detach, Disposition, Handle, LinkFlow, Role, SenderSettleMode, Source,
    TargetArchetype, UnsettledMap,
};
use std::alloc::AllocError;

fn source_or_none(world: &mut World) -> Result<Option<Source>, AllocError> {
    if world.random.in_hundred(3) {
        return Ok(None);
    }
    Ok(Some(source(world)?))
}

fn target_or_none(world: &mut World) -> Result<Option<TargetArchetype>, AllocError> {
    if world.random.in_hundred(3) {
        return Ok(None);
    }
    Ok(Some(TargetArchetype::from(target(world)?)))
}

/// An attach of a peer with this role, which settles so and states these deliveries, all or some of them.
pub fn attach(
    world: &mut World,
    role: Role,
    snd_settle_mode: SenderSettleMode,
    unsettled: UnsettledMap<Option<DeliveryState>>,
) -> Result<Attach, AllocError> {
    let name = text(world.alloc, "l")?;
    let snd_settle_mode = agreed_mode(world, snd_settle_mode);
    let (source, target) = (source_or_none(world)?, target_or_none(world)?);
    let properties = fields_or_none(world)?;
    Ok(Attach {
        name,
        handle: Handle(world.random.below(3)),
        role,
        snd_settle_mode,
        rcv_settle_mode: receiver_mode(world),
        source,
        target,
        unsettled: Some(unsettled),
        incomplete_unsettled: world.random.in_hundred(8),
        initial_delivery_count: initial_count(world, role),
        max_message_size: None,
        offered_capabilities: symbols_or_none(world)?,
        desired_capabilities: symbols_or_none(world)?,
        properties,
    })
}

// The mode of the link, or another one.
fn agreed_mode(world: &mut World, mode: SenderSettleMode) -> SenderSettleMode {
    if world.random.in_hundred(95) {
        return mode;
    }
    sender_mode(world)
}

// A sender states its count, and a receiver may.
fn initial_count(world: &mut World, role: Role) -> Option<u32> {
    match role {
        Role::Receiver if world.random.flag() => None,
        Role::Sender if world.random.in_hundred(2) => None,
        _ if world.random.in_hundred(10) => Some(world.random.absurd()),
        _ => Some(world.random.below(3)),
    }
}

/// A flow of a peer that knows this delivery-count.
pub fn flow(world: &mut World, count: u32) -> Result<LinkFlow, AllocError> {
    let properties = fields_or_none(world)?;
    let random = &mut world.random;
    let credit = if random.in_hundred(10) {
        random.absurd()
    } else {
        random.below(8)
    };
    Ok(LinkFlow {
        handle: Handle(0),
        delivery_count: Some(count),
        link_credit: Some(credit),
        available: None,
        drain: random.in_hundred(15),
        echo: random.in_hundred(15),
        properties,
    })
}

// The id of a delivery that the session knows, or any.
fn known_id(world: &mut World, session: &Session) -> u32 {
    match session.any(&mut world.random) {
        Some(id) => id,
        None => world.random.below(4),
    }
}

/// A disposition of a peer with this role, of one delivery that the session knows or of several.
pub fn disposition(
    world: &mut World,
    role: Role,
    session: &Session,
) -> Result<Disposition, AllocError> {
    let first = known_id(world, session);
    let last = if world.random.in_hundred(70) {
        None
    } else {
        Some(first.wrapping_add(world.random.below(4)))
    };
    Ok(Disposition {
        role,
        first,
        last,
        settled: world.random.in_hundred(60),
        state: state_or_none(world)?,
        batchable: world.random.flag(),
    })
}

/// A detach of a peer, which closes the link or does not.
pub fn detach(world: &mut World, closed: bool) -> Result<Detach, AllocError> {
    let error = error_or_none(world)?;
    Ok(Detach {
        handle: Handle(0),
        closed,
        error,
    })
}

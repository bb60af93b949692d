//! What an exchange leaves to be resumed, sent again, aborted, or stated again (2.6.13).
use crate::sending::await_outcome;
use crate::user::raise_limit;
use crate::{SenderLife, send_off};
use amqp_link_core::resumption::ResumingDelivery;
use amqp_link_types::delivery::UnsettledMessage;
use amqp_link_types::frame::LinkFrame;
use amqp_link_types::types::{DeliveryTag, LinkStateError, MessageFormat, Payload, Transfer};
use hostile_links::refusals::{refuse, unless_refused};
use link_checks::{Stop, check_transfers};
use peer_frames::reached::count_one;
use peer_frames::values::copy_of;
use peer_frames::world::World;
use std::alloc::AllocError;

// A delivery that is left, as it is sent: its entry, the bytes that its receiver lacks, and whether it is resumed.
#[derive(Drop)]
struct Rest {
    entry: UnsettledMessage,
    bytes: Payload,
    resumes: bool,
}

// What a delivery that is left asks for.
#[derive(Drop)]
enum Asked {
    // Its rest is sent.
    Rest(Rest),
    // It is aborted, with this format.
    Abort(MessageFormat),
}

// What this delivery asks for.
fn asked_by(left: ResumingDelivery) -> Result<Asked, AllocError> {
    let (entry, bytes, resumes) = match left {
        ResumingDelivery::Abort {
            message_format,
            tag,
        } => {
            drop(tag);
            return Ok(Asked::Abort(message_format));
        }
        ResumingDelivery::Resend(entry) => {
            let whole = entry.payload.clone()?;
            (entry, whole, false)
        }
        ResumingDelivery::Resume { entry, rest } => (entry, rest, true),
        ResumingDelivery::RestateOutcome {
            tag,
            payload,
            local_state,
            message_format,
        } => {
            drop(tag);
            let entry = UnsettledMessage::new(payload, Some(local_state), message_format);
            (entry, Payload::new(), true)
        }
    };
    Ok(Asked::Rest(Rest {
        entry,
        bytes,
        resumes,
    }))
}

/// Does what the first delivery that is left asks for.
pub fn resume_next(world: &mut World, life: &mut SenderLife) -> Result<(), Stop> {
    let Some((tag, left)) = life.left.pop_front() else {
        return Ok(());
    };
    match asked_by(left)? {
        Asked::Rest(rest) => send_rest(world, life, tag, rest),
        Asked::Abort(format) => abort(world, life, tag, format),
    }
}

/// Puts the first delivery that is left back; one that is to be aborted is forgotten.
pub fn put_back_next(world: &mut World, life: &mut SenderLife) -> Result<(), Stop> {
    let Some((tag, left)) = life.left.pop_front() else {
        return Ok(());
    };
    match asked_by(left)? {
        Asked::Rest(Rest { entry, bytes, .. }) => {
            drop(bytes);
            put_back(world, life, tag, entry)
        }
        Asked::Abort(_) => {
            drop(tag);
            Ok(())
        }
    }
}

fn put_back(
    world: &mut World,
    life: &mut SenderLife,
    tag: DeliveryTag,
    entry: UnsettledMessage,
) -> Result<(), Stop> {
    match life.ledger.put_back(tag, entry) {
        Ok(()) => {
            count_one(&mut world.reached.put_back);
            life.count_registered();
            Ok(())
        }
        Err((refused, entry)) => {
            drop(entry);
            refuse(world, refused)
        }
    }
}

fn abort(
    world: &mut World,
    life: &mut SenderLife,
    tag: DeliveryTag,
    format: MessageFormat,
) -> Result<(), Stop> {
    let answer = life.ledger.link().send_abort(&tag, format);
    drop(tag);
    match answer {
        Ok(frame) => {
            let mut frames = Vec::new(world.alloc);
            frames.push(frame)?;
            take_resumed(world, life, frames)
        }
        Err(refused) => refuse(world, refused),
    }
}

// The transfer of a delivery that is resumed, or of one that is sent again.
fn transfer_of(
    world: &mut World,
    life: &SenderLife,
    tag: DeliveryTag,
    entry: &UnsettledMessage,
    resumes: bool,
) -> Result<Option<Transfer>, Stop> {
    let state = copy_of(&entry.state)?;
    let (link, format) = (life.ledger.link(), entry.message_format);
    let made = if resumes {
        link.generate_resuming_transfer_performative(tag, format, state, false)
    } else {
        link.generate_non_resuming_transfer_performative(tag, format, Some(false), state, false)
    };
    unless_refused(world, made)
}

fn send_rest(
    world: &mut World,
    life: &mut SenderLife,
    tag: DeliveryTag,
    rest: Rest,
) -> Result<(), Stop> {
    let Rest {
        entry,
        bytes,
        resumes,
    } = rest;
    let Some(transfer) = transfer_of(world, life, tag.clone()?, &entry, resumes)? else {
        drop(bytes);
        return put_back(world, life, tag, entry);
    };
    let known = tag.clone()?;
    let sent = life
        .ledger
        .send_unsettled_transfer(transfer, &bytes, tag, entry);
    drop(bytes);
    match sent {
        Ok(frames) => {
            life.count_registered();
            take_resumed(world, life, frames)?;
            await_outcome(world, life, known)
        }
        Err((refused, entry)) => put_back_refused(world, life, known, refused, entry),
    }
}

// A delivery that is not resumed is put back. If a frame has no room for it, the limit may grow.
fn put_back_refused(
    world: &mut World,
    life: &mut SenderLife,
    tag: DeliveryTag,
    refused: LinkStateError,
    entry: UnsettledMessage,
) -> Result<(), Stop> {
    if refused == LinkStateError::NoRoom && world.random.in_hundred(30) {
        raise_limit(world, life);
    }
    refuse(world, refused)?;
    put_back(world, life, tag, entry)
}

fn take_resumed(world: &mut World, life: &SenderLife, frames: Vec<LinkFrame>) -> Result<(), Stop> {
    count_one(&mut world.reached.resumed);
    let checked = check_transfers(frames.as_slice(), life.limit);
    send_off(world, frames);
    checked
}

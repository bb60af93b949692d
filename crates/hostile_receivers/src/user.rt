//! What the user of an inbox calls.
use crate::ReceiverLife;
use crate::peer::{resume_all, sender_attach};
use crate::settling::{dispose, dispose_all, keep_outcome};
use crate::taking::{take, take_settled};
use amqp_link_endpoint::endpoint::LinkExt;
use amqp_link_state::state::LinkState;
use amqp_link_types::types::ReceiverAttachError;
use hostile_links::ending::{detach, detach_to_attach_again, fail_attach, lose_session};
use hostile_links::links::{ample_limit, give_handle, limit};
use hostile_links::phases::{Phase, awaits_attach, lacks_own_attach, phase_of};
use hostile_links::refusals::{refuse, unless_refused};
use link_checks::{Stop, check_attach};
use peer_frames::peer_frame::PeerFrame;
use peer_frames::reached::count_one;
use peer_frames::world::World;

// A call of the user.
#[derive(Clone, Copy, Debug)]
enum Call {
    Attach,
    Grant,
    Take,
    TakeSettled,
    Dispose,
    DisposeAll,
    KeepOutcome,
    Detach,
    DetachToAttachAgain,
    LoseSession,
    ChangeLimit,
    FailAttach,
}

// Any call.
fn any_call(world: &mut World) -> Call {
    match world.random.below(100) {
        0..=3 => Call::Attach,
        4..=39 => Call::Grant,
        40..=49 => Call::Take,
        50..=57 => Call::TakeSettled,
        58..=63 => Call::Dispose,
        64..=76 => Call::DisposeAll,
        77..=82 => Call::KeepOutcome,
        83..=87 => Call::Detach,
        88 => Call::DetachToAttachAgain,
        89..=95 => Call::LoseSession,
        96 => Call::FailAttach,
        _ => Call::ChangeLimit,
    }
}

// What the state of the link asks for, if it asks for something.
fn wanted_call(world: &mut World, life: &ReceiverLife) -> Option<Call> {
    let state = *life.inbox.local_state();
    if lacks_own_attach(state) {
        return Some(Call::Attach);
    }
    if phase_of(state) != Phase::Attached {
        return None;
    }
    if state == LinkState::IncompleteAttachExchanged && world.random.in_hundred(20) {
        return Some(Call::DetachToAttachAgain);
    }
    if life.inbox.flow_state().link_credit() == 0 && world.random.flag() {
        return Some(Call::Grant);
    }
    wanted_of_deliveries(world, life)
}

// What the deliveries that are kept ask for.
fn wanted_of_deliveries(world: &mut World, life: &ReceiverLife) -> Option<Call> {
    if life.inbox.settled_len() != 0 && world.random.flag() {
        return Some(Call::TakeSettled);
    }
    if life.inbox.unsettled_map().is_empty() {
        return None;
    }
    match world.random.below(20) {
        0 => Some(Call::LoseSession),
        1..=8 => Some(Call::Take),
        9..=12 => Some(Call::Dispose),
        _ => None,
    }
}

// The call that a user makes next: mostly what the state of the link asks for.
fn choose(world: &mut World, life: &ReceiverLife) -> Call {
    match wanted_call(world, life) {
        Some(call) if world.random.in_hundred(80) => call,
        _ => any_call(world),
    }
}

/// Makes a call of the user.
pub fn make_call(world: &mut World, life: &mut ReceiverLife) -> Result<(), Stop> {
    count_one(&mut world.reached.calls);
    match choose(world, life) {
        Call::Attach => attach(world, life),
        Call::Grant => grant(world, life),
        Call::Take => take(world, life),
        Call::TakeSettled => take_settled(world, life),
        Call::Dispose => dispose(world, life),
        Call::DisposeAll => dispose_all(world, life),
        Call::KeepOutcome => keep_outcome(world, life),
        Call::Detach => detach(world, &mut life.inbox, &mut life.wire),
        Call::DetachToAttachAgain => detach_to_attach_again(world, &life.inbox, &mut life.wire),
        Call::LoseSession => {
            lose_session(&mut life.inbox, &mut life.session, &mut life.wire);
            Ok(())
        }
        Call::ChangeLimit => {
            set_limit(life, limit(&mut world.random));
            Ok(())
        }
        Call::FailAttach => fail_by_session(world, life),
    }
}

fn set_limit(life: &mut ReceiverLife, limit: u32) {
    life.limit = limit;
    life.inbox.set_max_frame_size(limit);
}

fn attach(world: &mut World, life: &mut ReceiverLife) -> Result<(), Stop> {
    if lacks_own_attach(*life.inbox.local_state()) {
        give_handle(world, &mut life.inbox);
    }
    let anew = world.random.in_hundred(5);
    match life.inbox.send_attach(anew) {
        Ok(frame) => {
            let checked = check_attach(&frame, life.limit);
            drop(frame);
            checked?;
            expect_attach(world, life)
        }
        Err(refused) => {
            if refused == ReceiverAttachError::AttachTooLarge && world.random.in_hundred(70) {
                set_limit(life, ample_limit(&mut world.random));
            }
            refuse(world, refused)
        }
    }
}

// The peer answers by its own attach; if that has come before, it resumes what both have stated.
fn expect_attach(world: &mut World, life: &mut ReceiverLife) -> Result<(), Stop> {
    if awaits_attach(*life.inbox.local_state()) {
        let theirs = sender_attach(world, life)?;
        Ok(life.wire.push(PeerFrame::Attach(theirs))?)
    } else {
        Ok(resume_all(world, life)?)
    }
}

fn grant(world: &mut World, life: &mut ReceiverLife) -> Result<(), Stop> {
    let credit = if world.random.in_hundred(10) {
        world.random.absurd_or_none()
    } else {
        Some(world.random.below(6))
    };
    let drain = world.random.flag_or_none();
    let (echo, has_properties) = (world.random.flag(), world.random.flag());
    let answer = life.inbox.send_flow(credit, drain, echo, has_properties);
    drop(unless_refused(world, answer)?);
    Ok(())
}

// The session reports what has come in place of the peer's attach.
fn fail_by_session(world: &mut World, life: &mut ReceiverLife) -> Result<(), Stop> {
    let error = match world.random.below(3) {
        0 => ReceiverAttachError::DuplicatedLinkName,
        1 => ReceiverAttachError::NonAttachFrameReceived,
        _ => ReceiverAttachError::ExpectImmediateDetach,
    };
    fail_attach(
        world,
        &mut life.inbox,
        &mut life.session,
        &mut life.wire,
        error,
    )
}

//! What the user of a sender calls.
use crate::SenderLife;
use crate::peer::receiver_attach;
use crate::resuming::{put_back_next, resume_next};
use crate::sending::send;
use crate::settling::{dispose, dispose_all, fail_all, release, withdraw};
use amqp_link_endpoint::endpoint::{LinkAttach, LinkExt};
use amqp_link_state::state::LinkState;
use amqp_link_types::types::SenderAttachError;
use hostile_links::ending::{detach, detach_to_attach_again, fail_attach, lose_session};
use hostile_links::links::{ample_limit, give_handle, limit};
use hostile_links::phases::{Phase, awaits_attach, lacks_own_attach, phase_of};
use hostile_links::refusals::{refuse, unless_refused};
use link_checks::{Stop, check_attach};
use peer_frames::peer_frame::PeerFrame;
use peer_frames::reached::count_one;
use peer_frames::world::World;

// A call of the user.
#[derive(Clone, Copy, Debug)]
enum Call {
    Attach,
    Send,
    Resume,
    PutBack,
    Dispose,
    DisposeAll,
    Withdraw,
    Release,
    SendFlow,
    GiveBack,
    Detach,
    DetachToAttachAgain,
    LoseSession,
    FailAll,
    ChangeLimit,
    FailAttach,
}

// Any call.
fn any_call(world: &mut World) -> Call {
    match world.random.below(100) {
        0..=4 => Call::Attach,
        5..=44 => Call::Send,
        45..=47 => Call::Resume,
        48 => Call::PutBack,
        49..=52 => Call::Dispose,
        53..=59 => Call::DisposeAll,
        60..=64 => Call::Withdraw,
        65..=74 => Call::Release,
        75..=80 => Call::SendFlow,
        81..=85 => Call::GiveBack,
        86..=88 => Call::Detach,
        89 => Call::DetachToAttachAgain,
        90..=93 => Call::LoseSession,
        94 => Call::FailAll,
        95 => Call::FailAttach,
        _ => Call::ChangeLimit,
    }
}

// What the state of the link asks for, if it asks for something.
fn wanted_call(world: &mut World, life: &SenderLife) -> Option<Call> {
    let state = *life.ledger.local_state();
    if lacks_own_attach(state) {
        return Some(if life.left.is_empty() {
            Call::Attach
        } else {
            Call::PutBack
        });
    }
    if phase_of(state) != Phase::Attached {
        return None;
    }
    if !life.left.is_empty() {
        return Some(Call::Resume);
    }
    if state == LinkState::IncompleteAttachExchanged {
        return Some(Call::DetachToAttachAgain);
    }
    if life.ledger.unsettled_map().len() > 3 && world.random.in_hundred(20) {
        return Some(Call::LoseSession);
    }
    None
}

// The call that a user makes next: mostly what the state of the link asks for.
fn choose(world: &mut World, life: &SenderLife) -> Call {
    match wanted_call(world, life) {
        Some(call) if world.random.in_hundred(80) => call,
        _ => any_call(world),
    }
}

/// Makes a call of the user.
pub fn make_call(world: &mut World, life: &mut SenderLife) -> Result<(), Stop> {
    count_one(&mut world.reached.calls);
    match choose(world, life) {
        Call::Attach => attach(world, life),
        Call::Send => send(world, life),
        Call::Resume => resume_next(world, life),
        Call::PutBack => put_back_next(world, life),
        Call::Dispose => dispose(world, life),
        Call::DisposeAll => dispose_all(world, life),
        Call::Withdraw => withdraw(world, life),
        Call::Release => release(world, life),
        Call::SendFlow => send_flow(world, life),
        Call::GiveBack => give_back(world, life),
        Call::Detach => detach(world, &mut life.ledger, &mut life.wire),
        Call::DetachToAttachAgain => detach_to_attach_again(world, &life.ledger, &mut life.wire),
        Call::LoseSession => {
            lose_session(&mut life.ledger, &mut life.session, &mut life.wire);
            Ok(())
        }
        Call::FailAll => fail_all(world, life),
        Call::ChangeLimit => {
            set_limit(life, limit(&mut world.random));
            Ok(())
        }
        Call::FailAttach => fail_by_session(world, life),
    }
}

fn set_limit(life: &mut SenderLife, limit: u32) {
    life.limit = limit;
    life.ledger.set_max_frame_size(limit);
}

/// The frame limit grows, so that what was too large may fit.
pub fn raise_limit(world: &mut World, life: &mut SenderLife) {
    set_limit(life, ample_limit(&mut world.random));
}

fn attach(world: &mut World, life: &mut SenderLife) -> Result<(), Stop> {
    if lacks_own_attach(*life.ledger.local_state()) {
        give_handle(world, &mut life.ledger);
    }
    let anew = world.random.in_hundred(5);
    match life.ledger.send_attach(anew) {
        Ok((frame, outcomes)) => {
            life.take_outcomes(world, outcomes);
            let checked = check_attach(&frame, life.limit);
            drop(frame);
            checked?;
            lower_limit(world, life);
            expect_attach(world, life)
        }
        Err(refused) => {
            if refused == SenderAttachError::AttachTooLarge && world.random.in_hundred(70) {
                raise_limit(world, life);
            }
            refuse(world, refused)
        }
    }
}

// A link that has sent its attach may have little room for transfers.
fn lower_limit(world: &mut World, life: &mut SenderLife) {
    if world.random.in_hundred(20) {
        set_limit(life, limit(&mut world.random));
    }
}

// The peer answers by its own attach, unless that has come before.
fn expect_attach(world: &mut World, life: &mut SenderLife) -> Result<(), Stop> {
    if awaits_attach(*life.ledger.local_state()) {
        let theirs = receiver_attach(world, life)?;
        life.wire.push(PeerFrame::Attach(theirs))?;
    }
    Ok(())
}

fn send_flow(world: &mut World, life: &mut SenderLife) -> Result<(), Stop> {
    let available = world.random.absurd_or_none();
    let (echo, has_properties) = (world.random.flag(), world.random.flag());
    let answer = life.ledger.send_flow(available, echo, has_properties);
    drop(unless_refused(world, answer)?);
    Ok(())
}

fn give_back(world: &mut World, life: &mut SenderLife) -> Result<(), Stop> {
    let answer = life.ledger.give_back_credit();
    drop(unless_refused(world, answer)?);
    Ok(())
}

// The session reports what has come in place of the peer's attach.
fn fail_by_session(world: &mut World, life: &mut SenderLife) -> Result<(), Stop> {
    let error = match world.random.below(3) {
        0 => SenderAttachError::DuplicatedLinkName,
        1 => SenderAttachError::NonAttachFrameReceived,
        _ => SenderAttachError::SessionNotMapped,
    };
    fail_attach(
        world,
        &mut life.ledger,
        &mut life.session,
        &mut life.wire,
        error,
    )
}

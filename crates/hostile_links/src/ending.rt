//! How a link is detached, loses its session, or fails to attach.
use crate::phases::{Phase, phase_of};
use crate::refusals::{Refusal, count, refuse, unless_refused};
use amqp_link_endpoint::endpoint::detached::detach_frame;
use amqp_link_endpoint::endpoint::failing::{Action, AttachFailure};
use amqp_link_endpoint::endpoint::{LinkDetach, LinkExt};
use amqp_link_state::state::LinkState;
use amqp_link_types::types::{Detach, DetachError};
use link_checks::Stop;
use peer_frames::frames;
use peer_frames::peer_frame::PeerFrame;
use peer_frames::session::Session;
use peer_frames::values::error_or_none;
use peer_frames::wire::Wire;
use peer_frames::world::World;
use std::alloc::AllocError;

/// The peer's reply to the detach of a link.
pub fn detach_reply<L: LinkExt>(world: &mut World, link: &L) -> Result<PeerFrame, AllocError> {
    let closed = *link.local_state() == LinkState::CloseSent;
    Ok(PeerFrame::Detach(frames::detach(world, closed)?))
}

/// The user detaches the link, and its peer will reply.
pub fn detach<L: LinkExt + LinkDetach<DetachError = DetachError>>(
    world: &mut World,
    link: &mut L,
    wire: &mut Wire,
) -> Result<(), Stop> {
    let closed = world.random.in_hundred(15);
    let error = error_or_none(world)?;
    match link.send_detach(closed, error) {
        Ok(frame) => {
            drop(frame);
            let reply = detach_reply(world, link)?;
            Ok(wire.push(reply)?)
        }
        Err(refused) => refuse(world, refused),
    }
}

/// After an exchange that was not complete the link is detached, to be attached again.
pub fn detach_to_attach_again<L: LinkExt>(
    world: &mut World,
    link: &L,
    wire: &mut Wire,
) -> Result<(), Stop> {
    let Some(handle) = link.output_handle() else {
        return Ok(());
    };
    drop(detach_frame(handle, false, None));
    let reply = frames::detach(world, false)?;
    Ok(wire.push(PeerFrame::Detach(reply))?)
}

/// The session of the link is lost.
pub fn lose_session<L: LinkDetach>(link: &mut L, session: &mut Session, wire: &mut Wire) {
    link.on_session_lost();
    session.forget();
    wire.clear();
}

/// Whether a detach of the peer is the reply to one that the link has sent, as the session sees it.
pub fn is_reply<L: LinkExt>(world: &mut World, link: &L) -> bool {
    let is_reply = phase_of(*link.local_state()) == Phase::Detaching;
    if world.random.in_hundred(5) {
        return !is_reply;
    }
    is_reply
}

/// Records a detach of the peer, after which it mostly sends nothing.
pub fn record_detach<L: LinkExt + LinkDetach<DetachError = DetachError>>(
    world: &mut World,
    link: &mut L,
    wire: &mut Wire,
    detach: Detach,
    is_reply: bool,
) -> Result<(), Stop> {
    if !world.goes_wrong() {
        wire.clear();
    }
    if is_reply {
        unless_refused(world, link.on_detach_reply(detach))?;
    } else {
        unless_refused(world, link.apply_remote_detach_outcome(detach))?;
    }
    Ok(())
}

/// An attach of the link has failed: the link does what the error asks for.
pub fn fail_attach<L: LinkExt, E: AttachFailure + Refusal>(
    world: &mut World,
    link: &mut L,
    session: &mut Session,
    wire: &mut Wire,
    error: E,
) -> Result<(), Stop> {
    count(world, &error)?;
    let (error, action) = link.handle_attach_error(error)?;
    drop(error);
    match action {
        Action::Nothing => Ok(()),
        Action::Detach(frame) => {
            drop(frame);
            let reply = detach_reply(world, link)?;
            Ok(wire.push(reply)?)
        }
        Action::EndSession(reason) => {
            drop(reason);
            lose_session(link, session, wire);
            Ok(())
        }
    }
}

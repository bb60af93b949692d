//! The table of link states of the standard (2.6.3 to 2.6.6), for tests: the state after each call, by the
//! state before it. All other pairs of a call and a state have no transition.
use crate::links::{attach_of, went};
use amqp_link_endpoint::endpoint::{Link, LinkExt};
use amqp_link_state::state::LinkState;
use amqp_link_types::types::{Attach, Detach, DetachError, Handle, Role, SenderSettleMode};
use std::alloc::{AllocError, Global};

/// A call, with its flag: an attach that is incomplete, a detach that closes.
#[derive(Clone, Copy, Debug, PartialEq, Eq)]
pub enum Call {
    SendAttach(bool),
    IncomingAttach(bool),
    SendDetach(bool),
    DetachReply(bool),
    RemoteDetach(bool),
}

pub const STATES: [LinkState; 11] = [
    LinkState::Unattached,
    LinkState::AttachSent,
    LinkState::IncompleteAttachSent,
    LinkState::AttachReceived,
    LinkState::IncompleteAttachReceived,
    LinkState::Attached,
    LinkState::IncompleteAttachExchanged,
    LinkState::DetachSent,
    LinkState::Detached,
    LinkState::CloseSent,
    LinkState::Closed,
];

/// The states after the call, by the states in the order above; `o` stands for no transition.
fn line_of(call: Call) -> [Option<LinkState>; 11] {
    let sent = Some(LinkState::AttachSent);
    let part_sent = Some(LinkState::IncompleteAttachSent);
    let come = Some(LinkState::AttachReceived);
    let part_come = Some(LinkState::IncompleteAttachReceived);
    let both = Some(LinkState::Attached);
    let part_both = Some(LinkState::IncompleteAttachExchanged);
    let detaching = Some(LinkState::DetachSent);
    let gone = Some(LinkState::Detached);
    let closing = Some(LinkState::CloseSent);
    let shut = Some(LinkState::Closed);
    let o = None;
    match call {
        Call::SendAttach(false) => [sent, o, o, both, part_both, o, o, sent, sent, o, o],
        Call::SendAttach(true) => [
            part_sent, o, o, part_both, part_both, o, o, part_sent, part_sent, o, o,
        ],
        Call::IncomingAttach(false) => [come, both, part_both, o, o, o, o, o, come, o, o],
        Call::IncomingAttach(true) => [
            part_come, part_both, part_both, o, o, o, o, o, part_come, o, o,
        ],
        Call::SendDetach(false) => [o, o, o, o, o, detaching, o, o, o, o, o],
        Call::SendDetach(true) => [o, o, o, o, o, closing, o, o, o, o, o],
        Call::DetachReply(false) => [o, o, o, o, o, o, o, gone, o, o, o],
        Call::DetachReply(true) => [o, o, o, o, o, o, o, o, o, shut, o],
        Call::RemoteDetach(false) => [o, gone, gone, gone, gone, gone, gone, gone, o, gone, o],
        Call::RemoteDetach(true) => [o, shut, shut, shut, shut, shut, shut, shut, o, shut, o],
    }
}

/// Whether a call succeeds in the state at this place of the list, and the state of the link afterwards.
pub fn wanted(call: Call, place: usize) -> (bool, LinkState) {
    let state = STATES.get(place).copied().unwrap_or_default();
    match line_of(call).get(place) {
        Some(Some(next)) => (true, *next),
        _ => (false, state),
    }
}

/// The states once the session is lost, by the states in the order above: as after a detach of the peer's that does
/// not close the link.
pub const WITHOUT_SESSION: [LinkState; 11] = [
    LinkState::Unattached,
    LinkState::Detached,
    LinkState::Detached,
    LinkState::Detached,
    LinkState::Detached,
    LinkState::Detached,
    LinkState::Detached,
    LinkState::Detached,
    LinkState::Detached,
    LinkState::Detached,
    LinkState::Closed,
];

pub fn detach(closed: bool) -> Detach {
    Detach {
        handle: Handle(0),
        closed,
        error: None,
    }
}

/// Whether a link sends an attach, and its state afterwards; the functions below do the same for the other calls.
/// The link is dropped.
pub fn attached<L: Link + Drop>(mut link: L) -> (bool, LinkState)
    requires { L.copies }
{
    let goes = went(link.send_attach(false));
    ended(link, goes)
}

pub fn taken<L: Link + Drop>(mut link: L, attach: Attach) -> (bool, LinkState) {
    let goes = went(link.on_incoming_attach(attach));
    ended(link, goes)
}

pub fn detach_by<L: LinkExt + Drop>(mut link: L, closed: bool) -> (bool, LinkState) {
    let goes = went(link.send_detach(closed, None));
    ended(link, goes)
}

pub fn answered<L: LinkExt + Drop>(mut link: L, closed: bool) -> (bool, LinkState) {
    let goes = went(link.on_detach_reply(detach(closed)));
    ended(link, goes)
}

pub fn left<L: LinkExt + Drop>(mut link: L, closed: bool) -> (bool, LinkState) {
    let goes = went(link.apply_remote_detach_outcome(detach(closed)));
    ended(link, goes)
}

/// The state of a link once its session is lost. The link is dropped.
pub fn without_session<L: LinkExt + Drop>(mut link: L) -> LinkState {
    link.on_session_lost();
    let state = *link.local_state();
    drop(link);
    state
}

fn ended<L: LinkExt + Drop>(link: L, goes: bool) -> (bool, LinkState) {
    let state = *link.local_state();
    drop(link);
    (goes, state)
}

/// Whether a detach is refused for its state.
pub fn is_illegal<T: Drop>(answer: Result<T, DetachError>) -> bool {
    let is_illegal = matches!(&answer, Err(DetachError::IllegalState));
    drop(answer);
    is_illegal
}

/// The peer's attach, of this role, marked as incomplete or not.
pub fn coming(alloc: Global, role: Role, incomplete: bool) -> Result<Attach, AllocError> {
    let mut attach = attach_of(alloc, role, SenderSettleMode::Mixed)?;
    attach.incomplete_unsettled = incomplete;
    Ok(attach)
}

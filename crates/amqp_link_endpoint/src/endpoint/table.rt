//! The state after each call that attaches or detaches a link, by the table of link states (2.6.3 to 2.6.6):
//! none if there is no transition. Nothing here allocates.
ghost use Rattle.std.specs.Prelude.{◌≡◌, MatchOption, false, true, None, Some};
ghost use Rattle.amqp_link_endpoint.specs.LinkStates.{Call, next_state, state_without_session};

use amqp_link_state::state::LinkState;

/// The states after an attach was sent: after a complete one, and after one whose unsettled map is
/// incomplete.
pub fn after_sent_attach(state: LinkState) -> Option<(LinkState, LinkState)>
    ensures complete { MatchOption result
        (next_state Call.SendAttach false state ≡ None)
        (λ next. next_state Call.SendAttach false state ≡ Some next.0) }
    ensures incomplete { MatchOption result
        (next_state Call.SendAttach true state ≡ None)
        (λ next. next_state Call.SendAttach true state ≡ Some next.1) }
{
    match state {
        LinkState::Unattached | LinkState::Detached | LinkState::DetachSent => {
            Some((LinkState::AttachSent, LinkState::IncompleteAttachSent))
        }
        LinkState::AttachReceived => {
            Some((LinkState::Attached, LinkState::IncompleteAttachExchanged))
        }
        LinkState::IncompleteAttachReceived => Some((
            LinkState::IncompleteAttachExchanged,
            LinkState::IncompleteAttachExchanged,
        )),
        _ => None,
    }
}

/// The state after an attach has arrived.
pub fn after_incoming_attach(state: LinkState, incomplete: bool) -> Option<LinkState>
    ensures { result ≡ next_state Call.IncomingAttach incomplete state }
{
    match (state, incomplete) {
        (LinkState::AttachSent, false) => Some(LinkState::Attached),
        (LinkState::AttachSent, true) | (LinkState::IncompleteAttachSent, _) => {
            Some(LinkState::IncompleteAttachExchanged)
        }
        (LinkState::Unattached | LinkState::Detached, false) => Some(LinkState::AttachReceived),
        (LinkState::Unattached | LinkState::Detached, true) => {
            Some(LinkState::IncompleteAttachReceived)
        }
        _ => None,
    }
}

/// The state after a detach was sent.
pub fn after_sent_detach(state: LinkState, closed: bool) -> Option<LinkState>
    ensures { result ≡ next_state Call.SendDetach closed state }
{
    match (state, closed) {
        (LinkState::Attached, false) => Some(LinkState::DetachSent),
        (LinkState::Attached, true) => Some(LinkState::CloseSent),
        _ => None,
    }
}

/// The state after the peer's reply to a detach of this endpoint.
pub fn after_detach_reply(state: LinkState, closed: bool) -> Option<LinkState>
    ensures { result ≡ next_state Call.DetachReply closed state }
{
    match (state, closed) {
        (LinkState::DetachSent, false) => Some(LinkState::Detached),
        (LinkState::CloseSent, true) => Some(LinkState::Closed),
        _ => None,
    }
}

/// The state after a detach that the peer initiated.
pub fn after_remote_detach(state: LinkState, closed: bool) -> Option<LinkState>
    ensures { result ≡ next_state Call.RemoteDetach closed state }
{
    match state {
        LinkState::Unattached | LinkState::Detached | LinkState::Closed => None,
        _ if closed => Some(LinkState::Closed),
        _ => Some(LinkState::Detached),
    }
}

/// The state after the session is lost: the one after a detach of the peer's that does not close the link. A
/// link that is unattached, detached or closed stays in its state.
pub fn after_lost_session(state: LinkState) -> LinkState
    ensures { result ≡ state_without_session state }
{
    after_remote_detach(state, false).unwrap_or(state)
}

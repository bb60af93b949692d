//! The states of a link, by what happens next.
use amqp_link_state::state::LinkState;

/// The states of an endpoint, by what its peer does next.
#[derive(Clone, Copy, Debug, PartialEq, Eq)]
pub enum Phase {
    /// The peer's attach is missing.
    Attaching,
    /// Only the endpoint's own attach is missing.
    Waiting,
    /// Both attaches were exchanged.
    Attached,
    /// A detach was sent, and the peer replies.
    Detaching,
    /// The link is closed.
    Closed,
}

/// What the peer of a link in this state does next.
pub fn phase_of(state: LinkState) -> Phase {
    match state {
        LinkState::Unattached
        | LinkState::AttachSent
        | LinkState::IncompleteAttachSent
        | LinkState::Detached => Phase::Attaching,
        LinkState::AttachReceived | LinkState::IncompleteAttachReceived => Phase::Waiting,
        LinkState::Attached | LinkState::IncompleteAttachExchanged => Phase::Attached,
        LinkState::DetachSent | LinkState::CloseSent => Phase::Detaching,
        LinkState::Closed => Phase::Closed,
    }
}

/// Whether the link has not sent its attach.
pub fn lacks_own_attach(state: LinkState) -> bool {
    matches!(
        state,
        LinkState::Unattached
            | LinkState::Detached
            | LinkState::AttachReceived
            | LinkState::IncompleteAttachReceived
    )
}

/// Whether the link waits for the peer's attach.
pub fn awaits_attach(state: LinkState) -> bool {
    matches!(
        state,
        LinkState::AttachSent | LinkState::IncompleteAttachSent
    )
}

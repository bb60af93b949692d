//! Calls of either link endpoint as functions without a contract, for tests that make several: each call in a test
//! is proved with all that the contracts of the calls before it say.
use amqp_link_endpoint::endpoint::{LinkAttach, LinkDetach, LinkExt};
use amqp_link_state::state::LinkState;
use amqp_link_types::delivery::Outcomes;
use amqp_link_types::frame::LinkFrame;
use amqp_link_types::types::{Attach, Detach, OutputHandle};

pub fn local_state<L: LinkExt>(link: &L) -> LinkState {
    *link.local_state()
}

pub fn set_output_handle<L: LinkExt>(link: &mut L, handle: Option<OutputHandle>) {
    *link.output_handle_mut() = handle;
}

/// A sent attach, and the outcomes of the deliveries that a reattach gives up.
pub fn send_attach<L: LinkAttach>(
    link: &mut L,
    is_reattaching: bool,
) -> Result<(LinkFrame, Outcomes), L::AttachError>
    requires { L.copies }
{
    link.send_attach(is_reattaching)
}

pub fn take_attach<L: LinkAttach>(
    link: &mut L,
    attach: Attach,
) -> Result<L::AttachExchange, L::AttachError> {
    link.on_incoming_attach(attach)
}

/// A sent detach without an error.
pub fn send_detach<L: LinkDetach>(link: &mut L, closed: bool) -> Result<LinkFrame, L::DetachError> {
    link.send_detach(closed, None)
}

/// Takes the peer's reply to a detach.
pub fn take_reply<L: LinkDetach>(link: &mut L, detach: Detach) -> Result<(), L::DetachError> {
    link.on_detach_reply(detach)
}

/// The session of a link is lost.
pub fn lose_session<L: LinkDetach>(link: &mut L) {
    link.on_session_lost();
}

//! A test peer: it drives a link endpoint, a sender or a receiver, through attaches, flows and detaches by frames
//! alone, and names the first one that the endpoint refuses by its state.

ghost use Rattle.std.specs.Prelude.{◌≡◌, ◌++◌, ◌∷◌, List, length, true, false, is_some, IsOk, IsErr, OnErr, MatchOption};
ghost use Rattle.amqp_link_uses.specs.Peers.{AreAllowed, DoesFrame, has_transition_by, is_allowed, state_and_handle};
ghost use Rattle.amqp_link_uses.specs.declared.peer.Frame.{Frame as TheFrame};

use amqp_link::endpoint::LinkTarget;
use amqp_link::errors::LinkRelayError;
use amqp_link::state::{
    LinkState, after_detach_reply, after_incoming_attach, after_remote_detach, after_sent_attach,
    after_sent_detach,
};
use amqp_link::types::{Attach, Detach, LinkFlow};
use amqp_link::{Link, LinkAttach, LinkDetach, LinkExt, ReceiverLink, SenderLink};

/// An endpoint that takes its peer's flows.
pub trait TakeFlow: Link {
    /// Takes a flow of the peer's, and returns the flow to reply with, if there is one. Refused, with nothing
    /// changed, exactly without output handle.
    fn take_flow(&mut self, flow: LinkFlow) -> Result<Option<LinkFlow>, LinkRelayError>
        ensures answer { MatchOption (Self.shown self.old).output_handle (IsErr result) (λ _. IsOk result) }
        ensures stands { state_and_handle (Self.shown self.new) ≡ state_and_handle (Self.shown self.old) }
        ensures left { OnErr result (self.new ≡ self.old) };
}

impl<T: LinkTarget> TakeFlow for SenderLink<T> {
    fn take_flow(&mut self, flow: LinkFlow) -> Result<Option<LinkFlow>, LinkRelayError> {
        self.on_incoming_flow(flow)
    }
}

impl<T: LinkTarget> TakeFlow for ReceiverLink<T> {
    fn take_flow(&mut self, flow: LinkFlow) -> Result<Option<LinkFlow>, LinkRelayError> {
        self.on_incoming_flow(flow)
    }
}

/// A frame that the endpoint sends or takes.
#[derive(Debug, Drop)]
pub enum Frame {
    /// The endpoint sends its attach.
    SendAttach,
    /// The peer's attach arrives.
    Attach(Attach),
    /// The peer's flow arrives.
    Flow(LinkFlow),
    /// The endpoint sends a detach, which closes the link or does not.
    SendDetach(bool),
    /// The peer's detach arrives in reply to the endpoint's.
    DetachReply(Detach),
    /// A detach that the peer initiated arrives, and the session has replied to it.
    Detach(Detach),
}

// Whether the table has a transition from a state by a frame; a flow needs none.
fn has_transition(state: LinkState, frame: &Frame) -> bool
    ensures { result ≡ has_transition_by state frame.now }
{
    match frame {
        Frame::SendAttach => after_sent_attach(state).is_some(),
        Frame::Attach(attach) => {
            after_incoming_attach(state, attach.incomplete_unsettled).is_some()
        }
        Frame::Flow(_) => true,
        Frame::SendDetach(closed) => after_sent_detach(state, *closed).is_some(),
        Frame::DetachReply(detach) => after_detach_reply(state, detach.closed).is_some(),
        Frame::Detach(detach) => after_remote_detach(state, detach.closed).is_some(),
    }
}

// Makes the endpoint's call for a frame, and returns false if it refuses a flow.
fn send_or_take<L: TakeFlow>(link: &mut L, frame: Frame) -> bool
    requires { L.copies }
    ensures taken { has_transition_by (L.shown link.old).local_state frame ≡ true → result ≡ is_allowed (state_and_handle (L.shown link.old)) frame }
    ensures leads { result ≡ true → DoesFrame (state_and_handle (L.shown link.old)) frame (state_and_handle (L.shown link.new)) }
    ensures left { result ≡ false → link.new ≡ link.old }
{
    match frame {
        Frame::SendAttach => drop(link.send_attach(false)),
        Frame::Attach(attach) => drop(link.on_incoming_attach(attach)),
        Frame::Flow(flow) => return link.take_flow(flow).is_ok(),
        Frame::SendDetach(closed) => drop(link.send_detach(closed, None)),
        Frame::DetachReply(detach) => drop(link.on_detach_reply(detach)),
        Frame::Detach(detach) => drop(link.apply_remote_detach_outcome(detach)),
    }
    true
}

/// Drives an endpoint by these frames, in order, up to the first that it refuses by its state: an attach or a detach
/// for which the table of link states has no transition, a flow without output handle. Returns that frame's index, or
/// none. What the calls return, frames to send and outcomes, is dropped: only the states are asked for.
pub fn first_refused<L: TakeFlow>(link: &mut L, frames: Vec<Frame>) -> Option<usize>
    requires { L.copies }
    ensures { MatchOption result
        (AreAllowed frames.items (state_and_handle (L.shown link.old)) (state_and_handle (L.shown link.new)))
        (λ place. (before : List TheFrame) × (frame : TheFrame) × (after : List TheFrame)
        × (frames.items ≡ before ++ frame ∷ after) × (length before ≡ place)
        × AreAllowed before (state_and_handle (L.shown link.old)) (state_and_handle (L.shown link.new))
        × (is_allowed (state_and_handle (L.shown link.new)) frame ≡ false)) }
{
    for (place, frame) in frames.into_iter().enumerate() {
        if !has_transition(*link.local_state(), &frame) {
            drop(frame);
            return Some(place);
        }
        if !send_or_take(link, frame) {
            return Some(place);
        }
    }
    None
}

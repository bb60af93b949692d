//! What a step has returned.
use amqp_link::LinkFrame;
use amqp_link::inbox::Arrival;
use amqp_link_uses::broker::Origin;

/// The answer to a step.
#[derive(Drop)]
pub enum Answer {
    /// There is nothing to say.
    Done,
    /// The frame to send.
    Frame(LinkFrame),
    /// The frames to send, in this order.
    Frames(Vec<LinkFrame>),
    /// How many deliveries the sender has forgotten.
    Forgotten(usize),
    /// How many deliveries are to be resumed.
    ToResume(usize),
    /// What a transfer has made of its delivery, and whether that had no credit.
    Arrived(Arrival, bool),
    /// Where the message came from whose outcome has returned.
    OutcomeOf(Option<Origin>),
    /// Something else, in words.
    Words(&'static str),
    /// The call is refused, for this reason.
    Refused(&'static str),
}

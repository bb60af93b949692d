//! A link endpoint of either role, replayed.
use crate::receiver::ReceiverEnd;
use crate::refusal::refused;
use crate::sender::SenderEnd;
use amqp_link_endpoint::link_parts::LinkParts;
use amqp_link_state::state::LinkState;
use amqp_link_types::frame::LinkFrame;
use amqp_link_types::types::{
    ApplyRemoteDetachError, DeliveryNumber, DetachError, Disposition, Role, TargetArchetype,
};
use frame_rows::row::{Call, NewLink};
use replay_report::answer::{Answer, StepError};
use replay_report::made::Made;
use std::alloc::Global;

/// A link endpoint.
#[derive(Drop)]
pub enum Endpoint {
    /// That of a sender, with the outcomes of its deliveries.
    Sender(SenderEnd),
    /// That of a receiver, with what has arrived of each delivery.
    Receiver(ReceiverEnd),
}

impl Endpoint {
    /// The endpoint of a new link.
    pub fn new(alloc: Global, link: NewLink) -> Result<Endpoint, StepError> {
        match link.role {
            Role::Sender => Ok(Endpoint::Sender(SenderEnd::new(alloc, link)?)),
            Role::Receiver => Ok(Endpoint::Receiver(ReceiverEnd::new(alloc, link))),
        }
    }

    /// A frame of the peer's arrives.
    pub fn take(&mut self, made: &mut Made, frame: LinkFrame) -> Result<Answer, StepError> {
        match self {
            Endpoint::Sender(sender) => sender.take(made, frame),
            Endpoint::Receiver(receiver) => receiver.take(made, frame),
        }
    }

    /// Its user makes a call.
    pub fn call(&mut self, made: &mut Made, call: Call) -> Result<Answer, StepError> {
        match self {
            Endpoint::Sender(sender) => sender.call(made, call),
            Endpoint::Receiver(receiver) => receiver.call(made, call),
        }
    }

    /// Its user has nothing more to send. That concerns a sender alone.
    pub fn give_back(&mut self, made: &mut Made) -> Result<(), StepError> {
        match self {
            Endpoint::Sender(sender) => sender.give_back(made),
            Endpoint::Receiver(_) => Ok(()),
        }
    }

    /// Its link-credit.
    pub fn credit(&self) -> u32 {
        match self {
            Endpoint::Sender(sender) => sender.credit(),
            Endpoint::Receiver(receiver) => receiver.credit(),
        }
    }

    /// How many deliveries it has not settled.
    pub fn unsettled_len(&self) -> u64 {
        let count = match self {
            Endpoint::Sender(sender) => sender.unsettled_len(),
            Endpoint::Receiver(receiver) => receiver.unsettled_len(),
        };
        count as u64
    }

    /// How many deliveries its session was told to keep. A sender tells it of none.
    pub fn records(&self) -> u64 {
        match self {
            Endpoint::Sender(_) => 0,
            Endpoint::Receiver(receiver) => receiver.records(),
        }
    }
}

// The parts of a link with the fields of an attach. The delivery-count begins where the attach states it.
pub(crate) fn parts_of(link: NewLink) -> LinkParts<TargetArchetype> {
    let NewLink {
        role: _,
        max_frame_size,
        attach,
    } = link;
    let count = attach.initial_delivery_count.unwrap_or(0);
    let mut parts = LinkParts::new(attach.name, attach.source, attach.target, max_frame_size);
    parts.snd_settle_mode = attach.snd_settle_mode;
    parts.rcv_settle_mode = attach.rcv_settle_mode;
    parts.max_message_size = attach.max_message_size.unwrap_or(0);
    parts.offered_capabilities = attach.offered_capabilities;
    parts.desired_capabilities = attach.desired_capabilities;
    parts.flow_state.initial_delivery_count = count;
    parts.flow_state.delivery_count = count;
    parts.flow_state.properties = attach.properties;
    parts
}

// Whether a detach that arrives is the reply to one that was sent.
pub(crate) fn peer_is_answering(state: LinkState) -> bool {
    matches!(state, LinkState::DetachSent | LinkState::CloseSent)
}

// The answer to a detach that was a reply. The error that it carries is no refusal.
pub(crate) fn replied(
    alloc: Global,
    returned: Result<(), DetachError>,
) -> Result<Answer, StepError> {
    match returned {
        Err(DetachError::IllegalState) => refused(alloc, DetachError::IllegalState),
        recorded => {
            drop(recorded);
            Ok(Answer::Taken)
        }
    }
}

// The answer to a detach that the peer has initiated. The error that it carries is no refusal.
pub(crate) fn recorded(
    alloc: Global,
    returned: Result<(), ApplyRemoteDetachError>,
) -> Result<Answer, StepError> {
    match returned {
        Err(ApplyRemoteDetachError::IllegalState) => {
            refused(alloc, ApplyRemoteDetachError::IllegalState)
        }
        recorded => {
            drop(recorded);
            Ok(Answer::Taken)
        }
    }
}

// Whether a disposition names the delivery of this id. Ids wrap.
pub(crate) fn names(disposition: &Disposition, id: DeliveryNumber) -> bool {
    let first = disposition.first;
    let last = disposition.last.unwrap_or(first);
    id.wrapping_sub(first) <= last.wrapping_sub(first)
}

//! The rows of a trace.
use amqp_link_types::frame::LinkFrame;
use amqp_link_types::types::{
    Attach, DeliveryNumber, DeliveryState, DeliveryTag, Detach, LinkFlow, MessageFormat,
    OutputHandle, Payload, Role,
};

/// A line of a trace.
#[derive(Drop)]
pub enum Row {
    /// A new link endpoint.
    Link(NewLink),
    /// A frame of the peer's arrives.
    In(LinkFrame),
    /// The user of the endpoint makes a call.
    Do(Call),
    /// A fact is stated.
    States(Fact),
    /// The trace ends here: nothing but flows may have been made that no row has stated.
    End,
    /// A remark on the peer, which states nothing of the endpoint.
    Note,
}

impl Row {
    /// The word for a row of this kind.
    pub fn word(&self) -> &'static str {
        match self {
            Row::Link(_) => "link",
            Row::In(_) => "in",
            Row::Do(_) => "do",
            Row::States(fact) => fact.word(),
            Row::End => "end",
            Row::Note => "note",
        }
    }
}

/// What a link endpoint is made with.
#[derive(Drop)]
pub struct NewLink {
    /// Its role.
    pub role: Role,
    /// The largest size of a frame, without the four bytes of the frame's size.
    pub max_frame_size: u32,
    /// An attach with its name, modes, termini and properties.
    pub attach: Attach,
}

/// A call of the endpoint's user.
#[derive(Drop)]
pub enum Call {
    /// Attach the link, with this handle.
    Attach(OutputHandle),
    /// Send a delivery. The session gives it this id.
    Send(DeliveryNumber, Sent),
    /// State the state of a delivery that was sent, settled or not.
    DisposeSent(DeliveryTag, DisposedOne),
    /// Grant credit. The number counts a delivery that is under way.
    Flow {
        /// The credit.
        credit: u32,
        /// Whether the sender is to use up its credit at once.
        drain: bool,
        /// Whether the sender is asked to reply.
        echo: bool,
    },
    /// State the state of deliveries that were handed out, settled or not.
    DisposeReceived {
        /// Whether they are settled.
        settled: bool,
        /// The state.
        state: DeliveryState,
        /// Their ids.
        ids: Vec<DeliveryNumber>,
    },
    /// Detach the link, and close it or not.
    Detach(bool),
}

/// A delivery that is sent, its transfers joined.
#[derive(Drop)]
pub struct Sent {
    /// Its tag.
    pub tag: DeliveryTag,
    /// Whether it is settled.
    pub settled: bool,
    /// The format of its message.
    pub format: Option<MessageFormat>,
    /// Its bytes.
    pub payload: Payload,
}

/// One delivery of a disposition.
#[derive(Drop)]
pub struct DisposedOne {
    /// Its id.
    pub id: DeliveryNumber,
    /// Whether it is settled.
    pub settled: bool,
    /// Its state. Where it is stated: none for any state.
    pub state: Option<DeliveryState>,
}

/// A delivery that is handed out.
#[derive(Drop)]
pub struct HandedOut {
    /// Its id.
    pub id: DeliveryNumber,
    /// Its tag.
    pub tag: DeliveryTag,
    /// Whether its sender has settled it.
    pub settled: bool,
    /// Its bytes.
    pub payload: Payload,
}

/// What is stated of an endpoint.
#[derive(Drop)]
pub enum Fact {
    /// It has made this attach.
    Attach(Attach),
    /// It has made a flow with this handle, drain and limit.
    Flow(LinkFlow),
    /// It has made this detach.
    Detach(Detach),
    /// It has sent this delivery.
    Delivery(Sent),
    /// It has made a disposition of this delivery, alone or with others.
    Disposition(DisposedOne),
    /// It has handed out this delivery.
    Got(HandedOut),
    /// A delivery of this tag is resolved with a state of this name.
    Outcome(DeliveryTag, StateName),
    /// How much credit it has.
    Credit(u32),
    /// How many deliveries it has not settled.
    Unsettled(u64),
    /// How many deliveries its session has been told to keep.
    Records(u64),
}

impl Fact {
    /// The word for a fact of this kind.
    pub fn word(&self) -> &'static str {
        match self {
            Fact::Attach(_) => "attach",
            Fact::Flow(_) => "flow",
            Fact::Detach(_) => "detach",
            Fact::Delivery(_) => "delivery",
            Fact::Disposition(_) => "disposition",
            Fact::Got(_) => "got",
            Fact::Outcome(..) => "outcome",
            Fact::Credit(_) => "credit",
            Fact::Unsettled(_) => "unsettled",
            Fact::Records(_) => "records",
        }
    }
}

/// The name of a delivery's state (3.4).
#[derive(Clone, Copy, PartialEq, Eq)]
pub enum StateName {
    /// The state accepted.
    Accepted,
    /// The state rejected.
    Rejected,
    /// The state released.
    Released,
    /// The state modified.
    Modified,
    /// The state received.
    Received,
}

impl StateName {
    /// The name of this state.
    pub fn of(state: &DeliveryState) -> StateName {
        match state {
            DeliveryState::Accepted => StateName::Accepted,
            DeliveryState::Rejected { .. } => StateName::Rejected,
            DeliveryState::Released => StateName::Released,
            DeliveryState::Modified { .. } => StateName::Modified,
            DeliveryState::Received { .. } => StateName::Received,
        }
    }
}

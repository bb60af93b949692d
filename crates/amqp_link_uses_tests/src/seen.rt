//! What the calls of a script return, by what a test asks of it.
use crate::script::State;
use amqp_link::delivery::DeliveryOutcome;
use amqp_link::errors::{LinkStateError, ReceiverAttachError};
use amqp_link::inbox::{Arrival, Arrived, DisposeError, Forgotten};
use amqp_link::resumption::Step;
use amqp_link::{DeliveryState, DeliveryTag, LinkFrame};
use amqp_link_uses::broker::{
    AttachError, DispositionError, Forwarded, GrantError, Origin, Resumed, Returned, SendError,
    SettleError, TakeInError,
};

#[derive(Clone, Copy, Debug, PartialEq, Eq)]
pub(crate) enum Seen {
    Done,
    /// There was nothing to do it with.
    Nothing,
    /// How many deliveries the sender has forgotten.
    Forgotten(usize),
    /// How many deliveries are left to resume, and whether the exchange is incomplete.
    Left(usize, bool),
    /// The credit of a flow.
    Credit(u32),
    Came(Arrival),
    /// The frames of a delivery that is new to its receiver: the count of its tag, how many they are, and whether their bytes
    /// are those that were asked for.
    Sent(u8, usize, bool),
    /// Those of one that is resumed.
    Resumed(u8, usize, bool),
    /// A message that is sent settled.
    Accepted,
    CreditMissing,
    /// The delivery with the tag of this count is given up.
    Aborted(u8),
    /// The delivery has ended, and no message of it was under way.
    Ended,
    /// The delivery with the tag of this count has ended in this state.
    EndedIn(u8, State),
    /// The delivery is left to the next attach.
    PutBack,
    /// The link and the tag of the delivery whose message has its outcome.
    Origin(usize, Option<u8>),
    /// A disposition that settles the delivery with this id, with this state.
    Settled(u32, State),
    Refused(Why),
    Other,
}

// Why a call is refused.
#[derive(Clone, Copy, Debug, PartialEq, Eq)]
pub(crate) enum Why {
    NoSuchLink,
    NoRoom,
    StillResuming,
    NoOutcome,
    NotAttached,
    NotResumed,
    UnknownTag,
    IllegalState,
    TagPending,
    Other,
}

// The count of a tag.
fn count_of(tag: &DeliveryTag) -> u8 {
    match tag.as_bytes() {
        [.., last] => *last,
        [] => u8::MAX,
    }
}

pub(crate) fn forgotten<X: Drop>(answer: Result<(X, Vec<Forgotten>), ReceiverAttachError>) -> Seen {
    match answer {
        Ok((exchange, forgotten)) => {
            let count = forgotten.len();
            drop((exchange, forgotten));
            Seen::Forgotten(count)
        }
        Err(error) => {
            drop(error);
            Seen::Other
        }
    }
}

pub(crate) fn arrived<E: Drop>(answer: Result<Arrived, E>) -> Seen {
    match answer {
        Ok(arrived) => {
            let arrival = arrived.arrival;
            drop(arrived);
            Seen::Came(arrival)
        }
        Err(refused) => {
            drop(refused);
            Seen::Other
        }
    }
}

pub(crate) fn flow_seen(answer: Result<LinkFrame, GrantError>) -> Seen {
    let seen = match &answer {
        Ok(LinkFrame::Flow(flow)) => Seen::Credit(flow.link_credit.unwrap_or(0)),
        Ok(_) | Err(GrantError::Link(_)) => Seen::Other,
        Err(GrantError::NoSuchLink) => Seen::Refused(Why::NoSuchLink),
        Err(GrantError::NoRoom) => Seen::Refused(Why::NoRoom),
    };
    drop(answer);
    seen
}

pub(crate) fn queued(error: TakeInError) -> Seen {
    let why = match &error {
        TakeInError::NoSuchLink => Why::NoSuchLink,
        TakeInError::NoRoom => Why::NoRoom,
        TakeInError::Inbox(_) => Why::Other,
    };
    drop(error);
    Seen::Refused(why)
}

pub(crate) fn unsent(error: SendError) -> Seen {
    let why = match &error {
        SendError::NoSuchLink => Why::NoSuchLink,
        SendError::StillResuming => Why::StillResuming,
        SendError::Link(_) => Why::Other,
    };
    drop(error);
    Seen::Refused(why)
}

// Whether the bytes of the frames joined are these.
fn are_bytes(frames: &[LinkFrame], wanted: &[u8]) -> bool {
    let mut rest = wanted.iter();
    for frame in frames {
        let Some(sent) = frame.as_transfer() else {
            return false;
        };
        for byte in sent.payload.as_slice() {
            if rest.next() != Some(byte) {
                return false;
            }
        }
    }
    rest.next().is_none()
}

fn frames_seen(frames: &[LinkFrame], wanted: &[u8]) -> Seen {
    let [first, ..] = frames else {
        return Seen::Other;
    };
    let Some(sent) = first.as_transfer() else {
        return Seen::Other;
    };
    let Some(tag) = &sent.performative.delivery_tag else {
        return Seen::Other;
    };
    let (tag, count) = (count_of(tag), frames.len());
    let are_bytes = are_bytes(frames, wanted);
    if sent.performative.resume {
        Seen::Resumed(tag, count, are_bytes)
    } else {
        Seen::Sent(tag, count, are_bytes)
    }
}

pub(crate) fn sent(answer: Result<Forwarded, SendError>, wanted: &[u8]) -> Seen {
    match answer {
        Ok(Forwarded::Sent(frames)) => {
            let seen = frames_seen(frames.as_slice(), wanted);
            drop(frames);
            seen
        }
        Ok(Forwarded::Done(frames, origin)) => {
            drop((frames, origin));
            Seen::Accepted
        }
        Ok(Forwarded::CreditMissing) => Seen::CreditMissing,
        Ok(Forwarded::NothingQueued) => Seen::Nothing,
        Err(error) => unsent(error),
    }
}

// The tag of a transfer that aborts a delivery.
fn aborted(frame: &LinkFrame) -> Seen {
    match frame.as_transfer() {
        Some(sent) if sent.performative.aborted => match &sent.performative.delivery_tag {
            Some(tag) => Seen::Aborted(count_of(tag)),
            None => Seen::Other,
        },
        _ => Seen::Other,
    }
}

pub(crate) fn resumed(answer: Result<Resumed, SendError>, wanted: &[u8]) -> Seen {
    match answer {
        Ok(Resumed::Sent(frames)) => {
            let seen = frames_seen(frames.as_slice(), wanted);
            drop(frames);
            seen
        }
        Ok(Resumed::Aborted(frame, origin)) => {
            let seen = aborted(&frame);
            drop((frame, origin));
            seen
        }
        Ok(Resumed::Ended(None)) => Seen::Ended,
        Ok(Resumed::Ended(Some(origin))) => {
            let seen = origin_seen(&origin);
            drop(origin);
            seen
        }
        Ok(Resumed::PutBack) => Seen::PutBack,
        Ok(Resumed::Nothing) => Seen::Nothing,
        Err(error) => unsent(error),
    }
}

fn ended(tag: &DeliveryTag, outcome: &DeliveryOutcome) -> Seen {
    match outcome {
        Ok(state) => Seen::EndedIn(count_of(tag), state_seen(state)),
        Err(_) => Seen::Other,
    }
}

fn left_listed(error: LinkStateError) -> Seen {
    let why = match &error {
        LinkStateError::IllegalState => Why::IllegalState,
        LinkStateError::TagPending => Why::TagPending,
        _ => Why::Other,
    };
    drop(error);
    Seen::Refused(why)
}

pub(crate) fn stepped(answer: Result<Step, LinkStateError>, wanted: &[u8]) -> Seen {
    match answer {
        Ok(Step::Sent(frames)) => {
            let seen = frames_seen(frames.as_slice(), wanted);
            drop(frames);
            seen
        }
        Ok(Step::Aborted(frame, tag)) => {
            let seen = aborted(&frame);
            drop((frame, tag));
            seen
        }
        Ok(Step::Ended(tag, outcome)) => {
            let seen = ended(&tag, &outcome);
            drop((tag, outcome));
            seen
        }
        Ok(Step::PutBack) => Seen::PutBack,
        Ok(Step::Nothing) => Seen::Nothing,
        Err(error) => left_listed(error),
    }
}

pub(crate) fn attached(answer: Result<(), AttachError>, left: usize, is_incomplete: bool) -> Seen {
    let seen = match &answer {
        Ok(()) => Seen::Left(left, is_incomplete),
        Err(AttachError::NoSuchLink) => Seen::Refused(Why::NoSuchLink),
        Err(AttachError::StillResuming) => Seen::Refused(Why::StillResuming),
        Err(AttachError::Link(_)) => Seen::Refused(Why::Other),
    };
    drop(answer);
    seen
}

fn origin_seen(origin: &Origin) -> Seen {
    match &origin.tag {
        Some(tag) => Seen::Origin(origin.link, Some(count_of(tag))),
        None => Seen::Origin(origin.link, None),
    }
}

pub(crate) fn returned(answer: Result<Returned, DispositionError>) -> Seen {
    let seen = match &answer {
        Ok(
            Returned {
                origin: Some(origin),
                ..
            },
        ) => origin_seen(origin),
        Ok(_) => Seen::Nothing,
        Err(DispositionError::NoSuchLink) => Seen::Refused(Why::NoSuchLink),
        Err(DispositionError::Link(_)) => Seen::Refused(Why::Other),
    };
    drop(answer);
    seen
}

fn state_seen(state: &Option<DeliveryState>) -> State {
    match state {
        Some(DeliveryState::Accepted) => State::Accepted,
        Some(DeliveryState::Rejected { .. }) => State::Rejected,
        Some(DeliveryState::Released) => State::Released,
        Some(_) => State::Received,
        None => State::Silent,
    }
}

fn disposition_seen(frame: &LinkFrame) -> Seen {
    match frame {
        LinkFrame::Disposition(disposition) if disposition.settled => {
            Seen::Settled(disposition.first, state_seen(&disposition.state))
        }
        _ => Seen::Other,
    }
}

fn why_not_settled(error: SettleError) -> Why {
    match error {
        SettleError::NoSuchLink => Why::NoSuchLink,
        SettleError::NoOutcome => Why::NoOutcome,
        SettleError::Inbox(DisposeError::NotAttached) => Why::NotAttached,
        SettleError::Inbox(DisposeError::NotResumed) => Why::NotResumed,
        SettleError::Inbox(DisposeError::UnknownTag) => Why::UnknownTag,
        SettleError::Inbox(_) => Why::Other,
    }
}

pub(crate) fn disposed(answer: Result<LinkFrame, SettleError>) -> Seen {
    match answer {
        Ok(frame) => {
            let seen = disposition_seen(&frame);
            drop(frame);
            seen
        }
        Err(error) => Seen::Refused(why_not_settled(error)),
    }
}

//! What an application sends: a copy with ample memory, and what is built by default; and what it makes of an outcome.
use crate::assertions::assert_equal;
use amqp_link::delivery::{
    Builder, FromDeliveryFailure, FromDeliveryState, FromPreSettled, RecvError, SendError,
    SendResult, outcome_of,
};
use amqp_link::errors::{LinkStateError, SessionStopReason};
use amqp_link::types::{Boxed, Error, Message, Outcome, Symbol};
use amqp_link::{DeliveryState, Payload, Sendable};
use std::alloc::{AllocError, Global};
use std::process::Abort;

// A body that can be copied.
#[derive(Clone, Copy, Debug, PartialEq, Eq)]
struct Number(u8);

fn message(alloc: Global) -> Result<Message<Number>, AllocError> {
    Ok(Message {
        preamble: Payload::copy_from_slice(alloc, &[1])?,
        body: Number(2),
        footer: Payload::copy_from_slice(alloc, &[3])?,
    })
}

#[test]
fn a_copy_has_all_fields(rt: HostRuntime) {
    let made = Sendable::from_body(Number(2));
    assert_equal(&rt, &(made.message_format, made.settled), &(0, None));
    drop(made);
    let built = Builder::default()
        .message_format(5)
        .settled(Some(true))
        .message(message(rt.alloc()).expect(&rt, "memory"))
        .build();
    let copy = built.clone().expect(&rt, "memory");
    drop(built);
    assert_equal(&rt, &copy.message_format, &5);
    assert_equal(&rt, &copy.settled, &Some(true));
    assert_equal(&rt, &copy.message.body, &Number(2));
    assert_equal(&rt, &copy.message.preamble.as_slice(), &[1].as_slice());
    assert_equal(&rt, &copy.message.footer.as_slice(), &[3].as_slice());
    drop(copy);
}

// What is seen of a result.
#[derive(Clone, Copy, Debug, PartialEq, Eq)]
enum Seen {
    Accepted,
    Released,
    Rejected,
    Stateless,
    NotTerminal,
    IllegalState,
    Stopped,
    Closed,
    Other,
}

fn seen_of(outcome: SendResult) -> Seen {
    let seen = match &outcome {
        Ok(Outcome::Accepted) => Seen::Accepted,
        Ok(Outcome::Released) => Seen::Released,
        Ok(Outcome::Rejected { error: Some(_) }) => Seen::Rejected,
        Err(SendError::IllegalDeliveryState) => Seen::Stateless,
        Err(SendError::NonTerminalDeliveryState) => Seen::NotTerminal,
        Err(SendError::LinkStateError(LinkStateError::IllegalState)) => Seen::IllegalState,
        Err(SendError::LinkStateError(LinkStateError::SessionStopped(_))) => Seen::Stopped,
        Err(SendError::LinkStateError(LinkStateError::RemoteClosed)) => Seen::Closed,
        _ => Seen::Other,
    };
    drop(outcome);
    seen
}

// The rejection of a delivery, with an error.
fn rejected(rt: &(impl Abort + AllocGlobal)) -> DeliveryState {
    let condition = String::from_str(rt.alloc(), "x:y").expect(rt, "memory");
    let error = Error {
        condition: Symbol::from(condition),
        description: None,
        info: None,
    };
    let error = Boxed::new(rt.alloc(), error).ok().expect(rt, "memory");
    DeliveryState::Rejected { error: Some(error) }
}

fn received() -> DeliveryState {
    DeliveryState::Received {
        section_number: 0,
        section_offset: 3,
    }
}

#[test]
fn each_outcome_has_its_result(rt: HostRuntime) {
    assert_equal(&rt, &seen_of(SendResult::from_settled()), &Seen::Accepted);
    assert_equal(&rt, &seen_of(SendResult::from_none()), &Seen::Stateless);
    let released = SendResult::from_delivery_state(DeliveryState::Released);
    assert_equal(&rt, &seen_of(released), &Seen::Released);
    let refused = SendResult::from_delivery_state(rejected(&rt));
    assert_equal(&rt, &seen_of(refused), &Seen::Rejected);
    let unfinished = SendResult::from_delivery_state(received());
    assert_equal(&rt, &seen_of(unfinished), &Seen::NotTerminal);
    assert_equal(&rt, &seen_of(outcome_of(Ok(None))), &Seen::Stateless);
    let lost = SendResult::from_oneshot_recv_error(RecvError);
    assert_equal(&rt, &seen_of(lost), &Seen::IllegalState);
    let stopped = SendResult::from_session_stop_reason(SessionStopReason::Ended);
    assert_equal(&rt, &seen_of(stopped), &Seen::Stopped);
    let closed = outcome_of(Err(LinkStateError::RemoteClosed));
    assert_equal(&rt, &seen_of(closed), &Seen::Closed);
}

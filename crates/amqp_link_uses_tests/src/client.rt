//! A client.
use crate::assertions::{assert_equal, assert_equal_at, assert_holds};
use crate::samples::{attach_of, flow_of, parts, payload, tag_of};
use amqp_link::sender_link::DispositionAnswer;
use amqp_link::types::{OutputHandle, ReceiverSettleMode, Role, SenderSettleMode};
use amqp_link::{DeliveryState, DeliveryTag, LinkFrame};
use amqp_link_uses::client::{Client, Opening, RequestError};
use std::process::Abort;

// A client that has sent its attach.
fn opened(rt: &(impl Abort + AllocGlobal)) -> Opening {
    let parts = parts(rt, SenderSettleMode::Mixed);
    let (opening, attach) = Opening::new(rt.alloc(), parts, OutputHandle(0)).expect(rt, "memory");
    assert_holds(rt, matches!(attach, LinkFrame::Attach(_)));
    drop(attach);
    opening
}

// A client of a server that settles second.
fn client(rt: &(impl Abort + AllocGlobal)) -> Client {
    let mut theirs = attach_of(rt, Role::Receiver, SenderSettleMode::Unsettled);
    theirs.rcv_settle_mode = ReceiverSettleMode::Second;
    let client = opened(rt).on_attach(theirs).ok();
    client.expect(rt, "an attach that is accepted")
}

fn grant(client: &mut Client, credit: u32) {
    drop(client.on_flow(flow_of(credit)));
}

// How a request is answered: in so many frames, or not.
#[derive(Clone, Copy, Debug, PartialEq, Eq)]
enum Requested {
    Sent(usize),
    CreditMissing,
    Busy,
    Other,
}

fn answer_of(sent: &Result<Vec<LinkFrame>, RequestError>) -> Requested {
    match sent {
        Ok(frames) => Requested::Sent(frames.len()),
        Err(RequestError::CreditMissing) => Requested::CreditMissing,
        Err(RequestError::Busy) => Requested::Busy,
        Err(_) => Requested::Other,
    }
}

fn request(rt: &(impl Abort + AllocGlobal), client: &mut Client) -> Requested {
    let payload = payload(rt, &[1, 2, 3]);
    let sent = client.request(&payload);
    drop(payload);
    let shown = answer_of(&sent);
    drop(sent);
    shown
}

// The outcome that a disposition gives the request.
#[derive(Clone, Copy, Debug, PartialEq, Eq)]
enum Ended {
    Nothing,
    Accepted,
    Other,
}

fn state_shown(state: &Option<DeliveryState>) -> Ended {
    match state {
        Some(DeliveryState::Accepted) => Ended::Accepted,
        _ => Ended::Other,
    }
}

fn outcome_shown(answer: &DispositionAnswer) -> Ended {
    let Some((_, outcome)) = &answer.outcome else {
        return Ended::Nothing;
    };
    match outcome {
        Ok(state) => state_shown(state),
        Err(_) => Ended::Other,
    }
}

// Whether the server waits for an answer to this disposition, and what it ends.
fn answered(
    client: &mut Client,
    settled: bool,
    state: DeliveryState,
    tag: &DeliveryTag,
) -> (bool, Ended) {
    let answer = client.on_disposition(settled, Some(state), tag);
    let shown = (answer.echo, outcome_shown(&answer));
    drop(answer);
    shown
}

// The server settles second: an outcome that it does not settle waits for an answer.
#[test]
fn request_has_its_outcome_once(rt: HostRuntime) {
    let mut client = client(&rt);
    let before = request(&rt, &mut client);
    assert_equal(&rt, &before, &Requested::CreditMissing);
    grant(&mut client, 2);
    assert_equal(&rt, &request(&rt, &mut client), &Requested::Sent(1));
    assert_equal(&rt, &request(&rt, &mut client), &Requested::Busy);
    let tag = tag_of(&rt, 0);
    let first = answered(&mut client, false, DeliveryState::Accepted, &tag);
    assert_equal(&rt, &first, &(true, Ended::Accepted));
    let second = answered(&mut client, true, DeliveryState::Released, &tag);
    assert_equal(&rt, &second, &(false, Ended::Nothing));
    let next = request(&rt, &mut client);
    assert_equal_at(&rt, &next, &Requested::Sent(1), &"the next request");
    drop((client, tag));
}

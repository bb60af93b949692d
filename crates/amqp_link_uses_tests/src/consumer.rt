//! A consumer takes each message once, and accepts it, through a lost session.
use crate::assertions::{assert_equal, assert_equal_at};
use crate::samples::{attach_of, parts, payload, resuming, tag_of, transfer};
use amqp_link::inbox::DisposeError;
use amqp_link::types::{
    Attach, OutputHandle, Role, SenderSettleMode, Target, Transfer, UnsettledMap,
};
use amqp_link::{Inbox, LinkDetach, LinkExt};
use amqp_link_uses::consumer::{accept, take_in};
use std::process::Abort;

// The sender's attach, which states the delivery of the tag of 5.
fn stating(rt: &(impl Abort + AllocGlobal)) -> Attach {
    let mut unsettled = UnsettledMap::new(rt.alloc());
    drop(unsettled.put(tag_of(rt, 5), None));
    Attach {
        unsettled: Some(unsettled),
        ..attach_of(rt, Role::Sender, SenderSettleMode::Unsettled)
    }
}

// Both attaches, with this one of the sender's.
fn attach(inbox: &mut Inbox<Target>, theirs: Attach) {
    *inbox.output_handle_mut() = Some(OutputHandle(3));
    drop(inbox.send_attach(false));
    drop(inbox.on_incoming_attach(theirs));
}

fn attached(rt: &(impl Abort + AllocGlobal)) -> Inbox<Target> {
    let mut inbox = Inbox::new(rt.alloc(), parts(rt, SenderSettleMode::Unsettled));
    let theirs = attach_of(rt, Role::Sender, SenderSettleMode::Unsettled);
    attach(&mut inbox, theirs);
    inbox
}

// What a transfer gives: a message, which has the bytes that are asked for or not.
#[derive(Clone, Copy, Debug, PartialEq, Eq)]
enum Came {
    Nothing,
    Message(bool),
    Refused,
}

fn arrive(
    rt: &(impl Abort + AllocGlobal),
    inbox: &mut Inbox<Target>,
    transfer: Transfer,
    bytes: &[u8],
    wanted: &[u8],
) -> Came {
    match take_in(inbox, transfer, payload(rt, bytes)) {
        Ok(Some(delivery)) => {
            let are = delivery.body().0.as_slice() == wanted;
            drop(delivery);
            Came::Message(are)
        }
        Ok(None) => Came::Nothing,
        Err(refused) => {
            drop(refused);
            Came::Refused
        }
    }
}

// Whether the message is accepted by a disposition now, or its outcome is kept; or why not.
fn accepted(
    rt: &(impl Abort + AllocGlobal),
    inbox: &mut Inbox<Target>,
) -> Result<bool, DisposeError> {
    let tag = tag_of(rt, 5);
    let answer = accept(inbox, &tag);
    drop(tag);
    match answer {
        Ok(frame) => {
            let is_sent = frame.is_some();
            drop(frame);
            Ok(is_sent)
        }
        Err(error) => Err(error),
    }
}

fn lose_session(inbox: &mut Inbox<Target>) {
    inbox.on_session_lost();
}

#[test]
fn a_message_is_taken_once_through_a_lost_session(rt: HostRuntime) {
    let mut inbox = attached(&rt);
    let first = arrive(&rt, &mut inbox, transfer(&rt, true), &[1, 2], &[]);
    lose_session(&mut inbox);
    attach(&mut inbox, stating(&rt));
    let rest = arrive(&rt, &mut inbox, resuming(&rt, false), &[3], &[1, 2, 3]);
    let again = arrive(&rt, &mut inbox, resuming(&rt, false), &[], &[]);
    assert_equal(
        &rt,
        &(first, rest, again),
        &(Came::Nothing, Came::Message(true), Came::Nothing),
    );
    assert_equal_at(&rt, &accepted(&rt, &mut inbox), &Ok(true), &"sent");
    assert_equal_at(
        &rt,
        &accepted(&rt, &mut inbox),
        &Err(DisposeError::UnknownTag),
        &"twice",
    );
    drop(inbox);
}

#[test]
fn an_outcome_waits_for_the_next_attach(rt: HostRuntime) {
    let mut inbox = attached(&rt);
    let whole = arrive(&rt, &mut inbox, transfer(&rt, false), &[1], &[1]);
    assert_equal(&rt, &whole, &Came::Message(true));
    lose_session(&mut inbox);
    assert_equal_at(&rt, &accepted(&rt, &mut inbox), &Ok(false), &"kept");
    attach(&mut inbox, stating(&rt));
    assert_equal_at(
        &rt,
        &accepted(&rt, &mut inbox),
        &Ok(false),
        &"not resumed yet",
    );
    let known = arrive(&rt, &mut inbox, resuming(&rt, false), &[], &[]);
    assert_equal(&rt, &known, &Came::Nothing);
    assert_equal_at(&rt, &accepted(&rt, &mut inbox), &Ok(true), &"sent");
    drop(inbox);
}

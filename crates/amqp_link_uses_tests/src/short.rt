//! The shortest callers: one that sends, one that receives, a pair, and a receiver that keeps its window open.
use crate::assertions::{assert_equal, assert_equal_at, assert_holds};
use crate::samples::{
    attach_of, attached_receiver, attaching_sender, flow_of, payload, resuming, transfer,
};
use amqp_link::credit_run::{CreditRun, CreditRunError};
use amqp_link::errors::SenderAttachError;
use amqp_link::types::{Attach, Role, SenderSettleMode, Target, Transfer};
use amqp_link::{Delivery, LinkExt, LinkFrame, Payload, ReceiverLink, Whole};
use amqp_link_uses::short::{ReceiveOneError, SendOneError, accept, receive_one, send_one};
use amqp_link_uses::walk::deliver_through_a_cut;
use amqp_link_uses::window::{keep_open, take_next};
use std::process::Abort;

// In how many frames a sender sends a hundred bytes, once it has taken its peer's attach and a flow.
fn frames_sent(rt: &(impl Abort + AllocGlobal)) -> usize {
    let mut link = attaching_sender(rt);
    let theirs = attach_of(rt, Role::Receiver, SenderSettleMode::Unsettled);
    let bytes = payload(rt, &[7; 100]);
    let sent = send_one(&mut link, theirs, flow_of(1), &bytes);
    drop((link, bytes));
    let frames = sent.expect(rt, "memory").expect(rt, "credit");
    let count = frames.len();
    drop(frames);
    count
}

#[test]
fn one_delivery_is_sent(rt: HostRuntime) {
    assert_equal(&rt, &frames_sent(&rt), &3);
}

// A delivery of three bytes that has arrived in one transfer.
fn received(rt: &(impl Abort + AllocGlobal), link: &mut ReceiverLink<Target>) -> Delivery<Whole> {
    let received = receive_one(
        rt.alloc(),
        link,
        transfer(rt, false),
        payload(rt, &[1, 2, 3]),
    );
    received.expect(rt, "a delivery")
}

// Whether a transfer with these bytes is refused as no whole delivery, with nothing changed.
fn is_not_whole(rt: &(impl Abort + AllocGlobal), transfer: Transfer) -> bool {
    let mut link = attached_receiver(rt);
    let received = receive_one(rt.alloc(), &mut link, transfer, payload(rt, &[1]));
    let is_refused = matches!(&received, Err(ReceiveOneError::NotWhole));
    drop(received);
    let is_kept = link.begins_delivery() && link.unsettled().is_empty();
    drop(link);
    is_refused && is_kept
}

#[test]
fn only_a_whole_delivery_is_received(rt: HostRuntime) {
    let more = Transfer {
        more: true,
        ..transfer(&rt, false)
    };
    assert_equal_at(&rt, &is_not_whole(&rt, more), &true, &"more");
    let aborted = Transfer {
        aborted: true,
        ..transfer(&rt, false)
    };
    assert_equal_at(&rt, &is_not_whole(&rt, aborted), &true, &"aborted");
    let rest = resuming(&rt, false);
    assert_equal_at(&rt, &is_not_whole(&rt, rest), &true, &"a rest");
    assert_equal(&rt, &is_not_whole(&rt, transfer(&rt, false)), &false);
}

// Whether a sender refuses an attach without a target, by its name.
fn is_without_target(rt: &(impl Abort + AllocGlobal)) -> bool {
    let mut link = attaching_sender(rt);
    let theirs = Attach {
        target: None,
        ..attach_of(rt, Role::Receiver, SenderSettleMode::Unsettled)
    };
    let bytes = payload(rt, &[1]);
    let sent = send_one(&mut link, theirs, flow_of(1), &bytes);
    let is_named = matches!(
        &sent,
        Err(SendOneError::Attach(SenderAttachError::IncomingTargetIsNone))
    );
    drop((sent, link, bytes));
    is_named
}

#[test]
fn refused_attach_keeps_its_name(rt: HostRuntime) {
    assert_holds(&rt, is_without_target(&rt));
}

// Whether a disposition accepts the delivery.
fn is_accepted(link: &mut ReceiverLink<Target>, delivery: &Delivery<Whole>) -> bool {
    let accepted = accept(link, delivery);
    let is_sent = matches!(&accepted, Ok(Some(LinkFrame::Disposition(_))));
    drop(accepted);
    is_sent
}

#[test]
fn one_delivery_is_received(rt: HostRuntime) {
    let mut link = attached_receiver(&rt);
    let delivery = received(&rt, &mut link);
    let is_whole = delivery.body().0.as_slice() == [1, 2, 3].as_slice();
    let is_accepted = is_accepted(&mut link, &delivery);
    drop((delivery, link));
    assert_holds(&rt, is_whole);
    assert_holds(&rt, is_accepted);
}

#[test]
fn the_bytes_that_go_in_come_out(rt: HostRuntime) {
    let bytes = payload(&rt, &[7; 100]);
    let out = deliver_through_a_cut(rt.alloc(), &bytes);
    let out = out.expect(&rt, "memory");
    assert_equal(&rt, &out.as_slice(), &bytes.as_slice());
    drop((out, bytes));
}

// Sends a payload, if there is credit for it.
fn is_sent(run: &mut CreditRun, payload: &Payload) -> bool {
    let sent = run.send(payload, true);
    let is_sent = sent.is_ok();
    drop(sent);
    is_sent
}

// Sends as far as there is credit. Returns how many deliveries were sent.
fn send_all(run: &mut CreditRun, payload: &Payload) -> u32 {
    let mut sent = 0u32;
    for _ in 0..100u32 {
        if !is_sent(run, payload) {
            return sent;
        }
        sent = sent.wrapping_add(1);
    }
    sent
}

// Takes the next frame. Returns whether it completes a delivery.
fn take(run: &mut CreditRun) -> Result<bool, CreditRunError> {
    let taken = take_next(run, 0, 4)?;
    let is_complete = taken.is_some();
    drop(taken);
    Ok(is_complete)
}

fn take_flow(run: &mut CreditRun) {
    let _ = run.back_arrives();
}

// With a window of four the sender goes on past the wrap, while its transfers are under way.
#[test]
fn the_window_stays_open(rt: HostRuntime) {
    let bytes = payload(&rt, &[7; 60]);
    let mut run = CreditRun::new(rt.alloc(), 4294967290, 64).expect(&rt, "memory");
    assert_equal(&rt, &keep_open(&mut run, 4), &Ok(true));
    let mut sent = 0u32;
    let mut completed = 0u32;
    for _ in 0..200u32 {
        take_flow(&mut run);
        sent = sent.wrapping_add(send_all(&mut run, &bytes));
        let is_completed = take(&mut run).expect(&rt, "a frame is under way");
        completed = completed.wrapping_add(u32::from(is_completed));
    }
    let count = run.receiver().flow_state().delivery_count();
    drop((run, bytes));
    assert_equal(&rt, &(sent, completed, count), &(102, 100, 94));
}

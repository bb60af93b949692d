//! A test peer.
use crate::assertions::assert_equal;
use crate::samples::{attach_of, parts};
use amqp_link::types::{LinkFlow, OutputHandle, Role, SenderSettleMode};
use amqp_link::{LinkExt, ReceiverLink, SenderLink};
use amqp_link_tests_support::table::detach;
use amqp_link_uses::peer::{Frame, first_refused};
use std::process::Abort;

fn add(rt: &impl Abort, frames: &mut Vec<Frame>, frame: Frame) {
    frames.push(frame).expect(rt, "memory");
}

// An endpoint whose peer has this role attaches, takes a flow and detaches, and then a flow or a detach arrives that
// nothing asks for.
fn frames_with(rt: &(impl Abort + AllocGlobal), role: Role, late: Frame) -> Vec<Frame> {
    let attach = attach_of(rt, role, SenderSettleMode::Mixed);
    let mut frames = Vec::new(rt.alloc());
    add(rt, &mut frames, Frame::SendAttach);
    add(rt, &mut frames, Frame::Attach(attach));
    add(rt, &mut frames, Frame::Flow(LinkFlow::default()));
    add(rt, &mut frames, Frame::SendDetach(false));
    add(rt, &mut frames, Frame::DetachReply(detach(false)));
    add(rt, &mut frames, late);
    add(rt, &mut frames, Frame::SendAttach);
    frames
}

fn place_at_sender(rt: &(impl Abort + AllocGlobal)) -> Option<usize> {
    let link = SenderLink::new(rt.alloc(), parts(rt, SenderSettleMode::Mixed));
    let mut link = link.with_output_handle(OutputHandle(0));
    let late = Frame::Detach(detach(false));
    let place = first_refused(&mut link, frames_with(rt, Role::Receiver, late));
    drop(link);
    place
}

fn place_at_receiver(rt: &(impl Abort + AllocGlobal)) -> Option<usize> {
    let link = ReceiverLink::new(rt.alloc(), parts(rt, SenderSettleMode::Mixed));
    let mut link = link.with_output_handle(OutputHandle(0));
    let late = Frame::Flow(LinkFlow::default());
    let place = first_refused(&mut link, frames_with(rt, Role::Sender, late));
    drop(link);
    place
}

#[test]
fn either_endpoint_refuses_by_the_table(rt: HostRuntime) {
    assert_equal(&rt, &place_at_sender(&rt), &Some(5));
    assert_equal(&rt, &place_at_receiver(&rt), &Some(5));
}

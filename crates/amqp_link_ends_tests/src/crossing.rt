//! Frames of both sides that cross each other on the way.
use crate::assertions::{assert_equal, assert_holds_at};
use crate::dispositions::receiver;
use crate::dispositions::sender::mixed;
use crate::samples::attach_of;
use amqp_link_endpoint::endpoint::{LinkAttach, LinkDetach, LinkExt};
use amqp_link_receiver::receiver_link::ReceiverLink;
use amqp_link_sender::sender_link::{SenderLink, Sending, Waiting};
use amqp_link_state::state::LinkState;
use amqp_link_tests_support::links::went;
use amqp_link_tests_support::table::{detach, is_illegal};
use amqp_link_types::types::{
    LinkFlow, LinkStateError, OutputHandle, Payload, Role, SenderSettleMode, Target,
};
use std::process::Abort;

// The receiver's flow of this count and credit arrives; returns the sender's credit then.
fn credit_after(link: &mut SenderLink<Target>, delivery_count: u32, link_credit: u32) -> u32 {
    drop(link.on_incoming_flow(LinkFlow {
        delivery_count: Some(delivery_count),
        link_credit: Some(link_credit),
        ..LinkFlow::default()
    }));
    link.flow_state().link_credit()
}

#[derive(Clone, Copy, Debug, PartialEq, Eq)]
enum SendAnswer {
    Sent,
    CreditMissing,
    Other,
}

fn answer_in(sending: &Result<Sending, LinkStateError>) -> SendAnswer {
    match sending {
        Ok(Sending::Sent { .. }) => SendAnswer::Sent,
        Ok(Sending::CreditMissing) => SendAnswer::CreditMissing,
        _ => SendAnswer::Other,
    }
}

// Sends a delivery of one byte.
fn send(rt: &(impl Abort + AllocGlobal), link: &mut SenderLink<Target>) -> SendAnswer {
    let payload = Payload::copy_from_slice(rt.alloc(), &[7]).expect(rt, "memory");
    let sending = link.send_payload(Waiting::Nothing, &payload, 0, None, None, false);
    let answer = answer_in(&sending);
    drop((sending, payload));
    answer
}

// The receiver has lowered its credit before the two deliveries that were sent have arrived there.
#[test]
fn credit_is_lowered_in_flight(rt: HostRuntime) {
    let mut link = mixed(&rt, 0);
    let granted = credit_after(&mut link, 0, 5);
    let sent = [send(&rt, &mut link), send(&rt, &mut link)];
    let lowered = credit_after(&mut link, 0, 1);
    let refused = send(&rt, &mut link);
    let stated_after_both = credit_after(&mut link, 2, 1);
    drop(link);
    assert_equal(&rt, &[granted, lowered, stated_after_both], &[5, 0, 1]);
    assert_equal(&rt, &sent, &[SendAnswer::Sent, SendAnswer::Sent]);
    assert_equal(&rt, &refused, &SendAnswer::CreditMissing);
}

// The states of an attached sender that has sent a closing detach, after a detach that does not close arrives: as its
// reply, which is refused, and as one that the peer has sent before it.
fn sender_states(link: &mut SenderLink<Target>) -> (bool, LinkState, bool, LinkState) {
    drop(link.send_detach(true, None));
    let is_refused = is_illegal(link.on_detach_reply(detach(false)));
    let between = *link.local_state();
    let is_applied = went(link.apply_remote_detach_outcome(detach(false)));
    (is_refused, between, is_applied, *link.local_state())
}

fn receiver_states(link: &mut ReceiverLink<Target>) -> (bool, LinkState, bool, LinkState) {
    drop(link.send_detach(true, None));
    let is_refused = is_illegal(link.on_detach_reply(detach(false)));
    let between = *link.local_state();
    let is_applied = went(link.apply_remote_detach_outcome(detach(false)));
    (is_refused, between, is_applied, *link.local_state())
}

// A receiver whose attaches are exchanged.
fn attached_receiver(rt: &(impl Abort + AllocGlobal)) -> ReceiverLink<Target> {
    let mut link = receiver::link(rt, 0).with_output_handle(OutputHandle(0));
    drop(link.send_attach(false));
    let attach = attach_of(rt, Role::Sender, SenderSettleMode::Mixed);
    let is_taken = went(link.on_incoming_attach(attach));
    assert_holds_at(rt, is_taken, &"an attach is taken");
    link
}

#[test]
fn closing_detach_is_crossed_by_another(rt: HostRuntime) {
    let wanted = (true, LinkState::CloseSent, true, LinkState::Detached);
    let mut link = mixed(&rt, 0);
    let states = sender_states(&mut link);
    drop(link);
    assert_equal(&rt, &states, &wanted);
    let mut link = attached_receiver(&rt);
    let states = receiver_states(&mut link);
    drop(link);
    assert_equal(&rt, &states, &wanted);
}

//! A sender in each of its states: the rows of the standard's table (2.6.3 to 2.6.6).
use crate::assertions::{assert_equal, assert_equal_at};
use crate::calls::set_limit;
use crate::led::{attach_arrives, lead_to, put, reply_arrives};
use crate::samples::{coming, link_of, parts};
use amqp_link_sender::SenderLink;
use amqp_link_state::state::LinkState;
use amqp_link_tests_support::calls::{local_state, send_detach, set_output_handle, take_reply};
use amqp_link_tests_support::table::{
    Call, STATES, WITHOUT_SESSION, answered, attached, detach, detach_by, is_illegal, left, taken,
    wanted, without_session,
};
use amqp_link_types::types::{OutputHandle, Target};
use std::process::Abort;

// The link "l" with output handle 0, brought to this state. A delivery is pending, which an attach states
// only if the limit is at least 37.
fn link_in(rt: &(impl Abort + AllocGlobal), state: LinkState, limit: u32) -> SenderLink<Target> {
    let mut link = link_of(rt, parts(rt, 512));
    lead_to(rt, &mut link, state);
    put(rt, &mut link, 0);
    set_limit(&mut link, limit);
    set_output_handle(&mut link, Some(OutputHandle(0)));
    link
}

// Whether a link in this state makes the call, and its state then.
fn made(rt: &(impl Abort + AllocGlobal), call: Call, state: LinkState) -> (bool, LinkState) {
    let limit = match call {
        Call::SendAttach(true) => 30,
        _ => 512,
    };
    let link = link_in(rt, state, limit);
    match call {
        Call::SendAttach(_) => attached(link),
        Call::IncomingAttach(incomplete) => taken(link, coming(rt, incomplete)),
        Call::SendDetach(closed) => detach_by(link, closed),
        Call::DetachReply(closed) => answered(link, closed),
        Call::RemoteDetach(closed) => left(link, closed),
    }
}

// The call leads from each state where the table says.
fn assert_line(rt: &(impl Abort + AllocGlobal), call: Call) {
    for (place, state) in STATES.iter().enumerate() {
        let actual = made(rt, call, *state);
        assert_equal_at(rt, &actual, &wanted(call, place), &(call, state));
    }
}

const CALLS: &[Call] = &[
    Call::SendAttach(false),
    Call::SendAttach(true),
    Call::IncomingAttach(false),
    Call::IncomingAttach(true),
    Call::SendDetach(false),
    Call::SendDetach(true),
    Call::DetachReply(false),
    Call::DetachReply(true),
    Call::RemoteDetach(false),
    Call::RemoteDetach(true),
];

#[test]
fn calls_lead_where_the_table_says(rt: HostRuntime) {
    for call in CALLS {
        assert_line(&rt, *call);
    }
}

#[test]
fn lost_session_leads_where_a_detach_does(rt: HostRuntime) {
    for (state, wanted) in STATES.iter().zip(WITHOUT_SESSION.iter()) {
        let actual = without_session(link_in(&rt, *state, 512));
        assert_equal_at(&rt, &actual, wanted, state);
    }
}

// Whether a detach is refused for the state, and the state then.
fn refused_detach(link: &mut SenderLink<Target>) -> (bool, LinkState) {
    let refused = is_illegal(send_detach(link, false));
    (refused, local_state(link))
}

// The same of a reply that closes the link.
fn refused_reply(link: &mut SenderLink<Target>) -> (bool, LinkState) {
    let refused = is_illegal(take_reply(link, detach(true)));
    (refused, local_state(link))
}

// Without output handle a detach moves the state, though it is refused; a reply that closes the link is refused
// then. Once the link is detached, it attaches after an incomplete attach has arrived.
#[test]
fn link_without_handle_is_detached_and_attached_again(rt: HostRuntime) {
    let mut link = link_in(&rt, LinkState::Attached, 512);
    set_output_handle(&mut link, None);
    let refused = (true, LinkState::DetachSent);
    assert_equal(&rt, &refused_detach(&mut link), &refused);
    assert_equal(&rt, &refused_reply(&mut link), &refused);
    reply_arrives(&rt, &mut link, false);
    attach_arrives(&rt, &mut link, true);
    set_output_handle(&mut link, Some(OutputHandle(0)));
    let exchanged = (true, LinkState::IncompleteAttachExchanged);
    assert_equal(&rt, &attached(link), &exchanged);
}

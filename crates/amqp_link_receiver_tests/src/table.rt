//! A receiver that is brought to each of its states by public calls: the rows of the standard's table (2.6.3 to
//! 2.6.6), and the attaches that it sends.
use crate::assertions::{assert_equal, assert_equal_at};
use crate::samples::{attach_of, link_of, parts, tag_of};
use amqp_link_endpoint::endpoint::{LinkDetach, LinkExt};
use amqp_link_receiver::ReceiverLink;
use amqp_link_state::state::LinkState;
use amqp_link_tests_support::calls::{
    local_state, send_attach, send_detach, set_output_handle, take_attach, take_reply,
};
use amqp_link_tests_support::links::went;
use amqp_link_tests_support::table::{
    Call, STATES, WITHOUT_SESSION, detach, wanted, without_session,
};
use amqp_link_types::delivery::Outcomes;
use amqp_link_types::frame::LinkFrame;
use amqp_link_types::types::{OutputHandle, ReceiverAttachError, SenderSettleMode, Target};
use amqp_link_values::length::EncodedLen;
use std::alloc::AllocError;
use std::process::Abort;

// A delivery with this tag arrives up to this position: whether it is kept.
pub(crate) fn front_arrives(
    rt: &(impl Abort + AllocGlobal),
    link: &mut ReceiverLink<Target>,
    byte: u8,
    (section_number, section_offset): (u32, u64),
) -> bool {
    let tag = tag_of(rt, byte);
    let is_kept = went(link.on_incomplete_transfer(&tag, section_number, section_offset));
    drop(tag);
    is_kept
}

fn set_limit(link: &mut ReceiverLink<Target>, limit: u32) {
    link.set_max_frame_size(limit);
}

// The sender's attach arrives at the link's own count, marked as incomplete or not.
fn attach_arrives(
    rt: &(impl Abort + AllocGlobal),
    link: &mut ReceiverLink<Target>,
    incomplete: bool,
) -> bool {
    let mut attach = attach_of(rt, SenderSettleMode::Mixed);
    attach.incomplete_unsettled = incomplete;
    attach.initial_delivery_count = Some(link.flow_state().delivery_count());
    went(take_attach(link, attach))
}

// A detach arrives that the sender initiated.
fn detach_arrives(link: &mut ReceiverLink<Target>, closed: bool) -> bool {
    went(link.apply_remote_detach_outcome(detach(closed)))
}

// Makes a call, and returns whether it succeeds. An attach that is sent is incomplete if the frame limit is small.
fn goes(rt: &(impl Abort + AllocGlobal), link: &mut ReceiverLink<Target>, call: Call) -> bool {
    match call {
        Call::SendAttach(_) => went(send_attach(link, false)),
        Call::IncomingAttach(incomplete) => attach_arrives(rt, link, incomplete),
        Call::SendDetach(closed) => went(send_detach(link, closed)),
        Call::DetachReply(closed) => went(take_reply(link, detach(closed))),
        Call::RemoteDetach(closed) => detach_arrives(link, closed),
    }
}

// The calls that lead to a state from `Unattached`; `o` stands for none.
fn calls_to(state: LinkState) -> [Option<Call>; 4] {
    let sent = Some(Call::SendAttach(false));
    let come = Some(Call::IncomingAttach(false));
    let part_come = Some(Call::IncomingAttach(true));
    let detaching = Some(Call::SendDetach(false));
    let closing = Some(Call::SendDetach(true));
    let gone = Some(Call::DetachReply(false));
    let shut = Some(Call::DetachReply(true));
    let o = None;
    match state {
        LinkState::Unattached => [o, o, o, o],
        LinkState::AttachSent | LinkState::IncompleteAttachSent => [sent, o, o, o],
        LinkState::AttachReceived => [come, o, o, o],
        LinkState::IncompleteAttachReceived => [part_come, o, o, o],
        LinkState::Attached => [sent, come, o, o],
        LinkState::IncompleteAttachExchanged => [sent, part_come, o, o],
        LinkState::DetachSent => [sent, come, detaching, o],
        LinkState::Detached => [sent, come, detaching, gone],
        LinkState::CloseSent => [sent, come, closing, o],
        LinkState::Closed => [sent, come, closing, shut],
    }
}

// Brings a link that is not attached to this state. It has no output handle after a detach; before an incomplete
// attach a delivery is entered, and the frame limit is set to 31 bytes.
pub(crate) fn lead_to(
    rt: &(impl Abort + AllocGlobal),
    link: &mut ReceiverLink<Target>,
    state: LinkState,
) {
    if state == LinkState::IncompleteAttachSent {
        front_arrives(rt, link, 9, (0, 1));
        set_limit(link, 31);
    }
    let calls = calls_to(state);
    for call in calls.iter() {
        if let Some(call) = call {
            goes(rt, link, *call);
        }
    }
    assert_equal(rt, &local_state(link), &state);
}

// The link "l" at output handle 0 in this state. A delivery is unsettled, which an attach states only if the limit
// is at least 41.
fn link_in(rt: &(impl Abort + AllocGlobal), state: LinkState, limit: u32) -> ReceiverLink<Target> {
    let mut link = link_of(rt, parts(rt));
    front_arrives(rt, &mut link, 0, (0, 0));
    lead_to(rt, &mut link, state);
    set_limit(&mut link, limit);
    set_output_handle(&mut link, Some(OutputHandle(0)));
    link
}

// Whether a call succeeds in this state, and the state of the link afterwards.
fn made_in(rt: &(impl Abort + AllocGlobal), state: LinkState, call: Call) -> (bool, LinkState) {
    let is_incomplete = call == Call::SendAttach(true);
    let mut link = link_in(rt, state, if is_incomplete { 30 } else { 512 });
    let goes = goes(rt, &mut link, call);
    let next = local_state(&link);
    drop(link);
    (goes, next)
}

// A call in each state succeeds and leaves what the table says.
fn assert_line(rt: &(impl Abort + AllocGlobal), call: Call) {
    for (place, state) in STATES.iter().enumerate() {
        let made = made_in(rt, *state, call);
        assert_equal_at(rt, &made, &wanted(call, place), &(call, state));
    }
}

#[test]
fn each_call_goes_by_the_table(rt: HostRuntime) {
    for flag in [false, true] {
        assert_line(&rt, Call::SendAttach(flag));
        assert_line(&rt, Call::IncomingAttach(flag));
        assert_line(&rt, Call::SendDetach(flag));
        assert_line(&rt, Call::DetachReply(flag));
        assert_line(&rt, Call::RemoteDetach(flag));
    }
}

#[test]
fn lost_session_leads_where_a_detach_does(rt: HostRuntime) {
    for (state, wanted) in STATES.iter().zip(WITHOUT_SESSION.iter()) {
        let actual = without_session(link_in(&rt, *state, 512));
        assert_equal_at(&rt, &actual, wanted, state);
    }
}

// Without its delivery, but with an empty map and the mark, an attach has 26 bytes, and four of the frame's header.
#[test]
fn attach_that_fits_no_frame_is_refused(rt: HostRuntime) {
    let mut link = link_in(&rt, LinkState::Detached, 29);
    let sent = send_attach(&mut link, false);
    let is_too_large = matches!(sent, Err(ReceiverAttachError::AttachTooLarge));
    let left = (is_too_large, local_state(&link));
    drop((sent, link));
    assert_equal(&rt, &left, &(true, LinkState::Detached));
}

// The length of an attach, and whether it has a map.
type Stated = (Option<u64>, bool);

fn stated_by(sent: &Result<(LinkFrame, Outcomes), ReceiverAttachError>) -> Option<Stated> {
    match sent {
        Ok((LinkFrame::Attach(attach), _)) => {
            Some((attach.encoded_len(), attach.unsettled.is_some()))
        }
        _ => None,
    }
}

fn attach_sent(link: &mut ReceiverLink<Target>, is_reattaching: bool) -> Option<Stated> {
    let sent = send_attach(link, is_reattaching);
    let stated = stated_by(&sent);
    drop(sent);
    stated
}

fn fits(link: &ReceiverLink<Target>, limit: u32) -> Result<bool, AllocError> {
    link.complete_attach_fits(limit, 0)
}

// Of a detached link: whether an attach that states all fits 41 bytes, and 40; the attach that it sends; and how
// many deliveries are left.
fn attached_again(
    rt: &(impl Abort + AllocGlobal),
    is_reattaching: bool,
) -> ([Result<bool, AllocError>; 2], Option<Stated>, usize) {
    let mut link = link_in(rt, LinkState::Detached, 512);
    let fits = [fits(&link, 41), fits(&link, 40)];
    let stated = attach_sent(&mut link, is_reattaching);
    let left = link.unsettled().len();
    drop(link);
    (fits, stated, left)
}

// The map takes three bytes in place of one, and its entry eleven: three of the tag, eight of the state. A frame
// has four bytes more. A link that is reattached keeps no delivery.
#[test]
fn reattach_forgets_what_was_unsettled(rt: HostRuntime) {
    let fits = [Ok(true), Ok(false)];
    let resumed = attached_again(&rt, false);
    assert_equal(&rt, &resumed, &(fits, Some((Some(37), true)), 1));
    let anew = attached_again(&rt, true);
    assert_equal(&rt, &anew, &(fits, Some((Some(24), false)), 0));
}

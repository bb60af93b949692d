//! A sender that is brought to each of its states by public calls.
use crate::assertions::{assert_equal, assert_holds_at};
use crate::calls::set_limit;
use crate::samples::{coming, entry_of, tag_of};
use amqp_link_sender::SenderLink;
use amqp_link_state::state::LinkState;
use amqp_link_tests_support::calls::{
    local_state, send_attach, send_detach, set_output_handle, take_attach, take_reply,
};
use amqp_link_tests_support::links::went;
use amqp_link_tests_support::table::detach;
use amqp_link_types::types::{LinkFlow, OutputHandle, Target};
use std::process::Abort;

// Makes the delivery of this count pending, with one byte.
pub(crate) fn put(rt: &(impl Abort + AllocGlobal), link: &mut SenderLink<Target>, count: u32) {
    let put = went(link.put_back(tag_of(rt, count), entry_of(rt, &[7], 0)));
    assert_holds_at(rt, put, &"a free tag");
}

// The link sends its attach.
pub(crate) fn attach_goes(rt: &impl Abort, link: &mut SenderLink<Target>) {
    let goes = went(send_attach(link, false));
    assert_holds_at(rt, goes, &"an attach is sent");
}

// The receiver's attach arrives, marked as incomplete or not.
pub(crate) fn attach_arrives(
    rt: &(impl Abort + AllocGlobal),
    link: &mut SenderLink<Target>,
    incomplete: bool,
) {
    let arrives = went(take_attach(link, coming(rt, incomplete)));
    assert_holds_at(rt, arrives, &"an attach is taken");
}

// Both attaches are exchanged.
pub(crate) fn attach(rt: &(impl Abort + AllocGlobal), link: &mut SenderLink<Target>) {
    attach_goes(rt, link);
    attach_arrives(rt, link, false);
}

// The receiver grants this credit.
pub(crate) fn credit_arrives(rt: &impl Abort, link: &mut SenderLink<Target>, credit: u32) {
    let flow = LinkFlow {
        link_credit: Some(credit),
        ..LinkFlow::default()
    };
    let arrives = went(link.on_incoming_flow(flow));
    assert_holds_at(rt, arrives, &"a flow is taken");
}

// The link sends its detach.
fn detach_goes(rt: &impl Abort, link: &mut SenderLink<Target>, closed: bool) {
    let goes = went(send_detach(link, closed));
    assert_holds_at(rt, goes, &"a detach is sent");
}

// The receiver's reply to that detach arrives.
pub(crate) fn reply_arrives(rt: &impl Abort, link: &mut SenderLink<Target>, closed: bool) {
    let arrives = went(take_reply(link, detach(closed)));
    assert_holds_at(rt, arrives, &"a reply is taken");
}

// The link detaches, and has a handle for its next attach.
pub(crate) fn detach_for_reattach(rt: &impl Abort, link: &mut SenderLink<Target>) {
    detach_goes(rt, link, false);
    reply_arrives(rt, link, false);
    set_output_handle(link, Some(OutputHandle(0)));
}

// Brings a link that is not attached to this state, or to `Attached` if the state is reached by a detach.
fn attach_up_to(rt: &(impl Abort + AllocGlobal), link: &mut SenderLink<Target>, state: LinkState) {
    match state {
        LinkState::Unattached => {}
        LinkState::AttachSent => attach_goes(rt, link),
        LinkState::IncompleteAttachSent => {
            put(rt, link, 9);
            set_limit(link, 31);
            attach_goes(rt, link);
        }
        LinkState::AttachReceived => attach_arrives(rt, link, false),
        LinkState::IncompleteAttachReceived => attach_arrives(rt, link, true),
        LinkState::IncompleteAttachExchanged => {
            attach_goes(rt, link);
            attach_arrives(rt, link, true);
        }
        _ => attach(rt, link),
    }
}

// Brings a link that is not attached, and has no pending delivery, to this state. It has no output handle
// after a detach. Before an incomplete attach the delivery of count 9 is made pending, and the frame limit is
// set to 31 bytes.
pub(crate) fn lead_to(
    rt: &(impl Abort + AllocGlobal),
    link: &mut SenderLink<Target>,
    state: LinkState,
) {
    attach_up_to(rt, link, state);
    match state {
        LinkState::DetachSent => detach_goes(rt, link, false),
        LinkState::CloseSent => detach_goes(rt, link, true),
        LinkState::Detached => {
            detach_goes(rt, link, false);
            reply_arrives(rt, link, false);
        }
        LinkState::Closed => {
            detach_goes(rt, link, true);
            reply_arrives(rt, link, true);
        }
        _ => {}
    }
    assert_equal(rt, &local_state(link), &state);
}

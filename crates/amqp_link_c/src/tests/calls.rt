//! The calls that the run of two links does not make: detaches, outcomes, deliveries that are settled, given up or forgotten.
use super::links::{Links, arrive, attach, grant, new_links, send};
use super::{Refused, attach_fields, done, flow, state, terminus};
use crate::attaching::{
    amqp_attach_add_unsettled, amqp_attach_look, amqp_attach_new, amqp_attach_set_source,
    amqp_attach_set_target, amqp_attach_source, amqp_attach_target, amqp_attach_unsettled,
    amqp_attach_unsettled_count, amqp_attach_unsettled_error,
};
use crate::detaching::{
    amqp_link_apply_remote_detach, amqp_link_detach_frame, amqp_link_on_detach_reply,
    amqp_link_send_detach, amqp_receiver_on_detach, amqp_sender_fail_pending_unsettled,
    amqp_sender_on_detach,
};
use crate::failing::{amqp_receiver_attach_failed, amqp_sender_attach_failed};
use crate::frames::{Sizes, amqp_frames_count, amqp_frames_detach, amqp_frames_error};
use crate::link::{
    LinkView, amqp_link_look, amqp_link_name, amqp_link_on_session_lost,
    amqp_link_set_max_frame_size, amqp_link_set_output_handle,
};
use crate::outcomes::{Outcome, amqp_outcomes_at, amqp_outcomes_count, amqp_outcomes_error};
use crate::receiver::arriving::{ARRIVAL_BEGUN, ARRIVAL_COMPLETE, ARRIVAL_COMPLETE_SETTLED};
use crate::receiver::attach::{
    STAGE_BEGUN, STAGE_COMPLETE, amqp_forgotten_at, amqp_forgotten_count,
};
use crate::receiver::disposing::{
    amqp_receiver_dispose, amqp_receiver_keep_outcome, amqp_receiver_on_disposition,
};
use crate::receiver::flow::{amqp_receiver_on_flow, amqp_receiver_send_flow};
use crate::receiver::taking::{
    DeliveryView, KeptView, amqp_delivery_look, amqp_receiver_kept, amqp_receiver_settled_count,
    amqp_receiver_take, amqp_receiver_take_settled,
};
use crate::sender::attach::{amqp_sender_on_attach, amqp_sender_send_attach};
use crate::sender::flow::{
    amqp_sender_give_back_credit, amqp_sender_on_flow_keeping_credit, amqp_sender_send_flow,
};
use crate::sender::resuming::{amqp_sender_put_back, amqp_sender_withdraw};
use crate::sender::sending::amqp_sender_send_with_tag;
use crate::sender::settling::{
    amqp_sender_dispose, amqp_sender_fate_error, amqp_sender_on_disposition, amqp_sender_release,
};
use amqp_link_flat::delivery_state::{ACCEPTED, DeliveryStateFields, REJECTED};
use amqp_link_flat::detach::Detach;
use amqp_link_flat::numbers::{SETTLED, SETTLED_BY_MODE, STATE_CLOSED, STATE_DETACHED};
use amqp_link_flat::status::{
    INCOMING_TARGET_IS_NONE, INITIAL_DELIVERY_COUNT_IS_NONE, NO_SUCH_ENTRY,
    REMOTE_CLOSED_WITH_ERROR, STILL_PENDING, UNATTACHED_HANDLE, UNKNOWN_TAG,
};
use amqp_link_object::Object;
use std::alloc::Global;

// A message of one section of data, with one byte.
const SHORT: &[u8] = b"\x00\x53\x75\xa0\x01x";

// Why a delivery is rejected.
const WHY: &[u8] = b"amqp:decode-error";

// What a call of these tests is expected to return, if it is another status than 0.
fn expect(status: u32, wanted: u32) -> Result<(), Refused> {
    if status == wanted {
        Ok(())
    } else {
        Err(Refused(status.wrapping_add(1000)))
    }
}

// A fact that a test expects.
fn holds(fact: bool, number: u32) -> Result<(), Refused> {
    if fact {
        Ok(())
    } else {
        Err(Refused(number.wrapping_add(2000)))
    }
}

// Two attached endpoints with credit.
fn attached(alloc: Global) -> Result<Links, Refused> {
    let mut links = new_links(alloc)?;
    let mut resuming = Object::empty(alloc);
    drop(attach(alloc, &mut links, &mut resuming)?);
    grant(alloc, &mut links, 5)?;
    Ok(links)
}

fn view() -> LinkView {
    LinkView {
        max_message_size: 0,
        unsettled: 0,
        state: 0,
        output_handle: 0,
        input_handle: 0,
        delivery_count: 0,
        link_credit: 0,
        snd_settle_mode: 0,
        rcv_settle_mode: 0,
        has_output_handle: false,
        has_input_handle: false,
        drain: false,
    }
}

fn state_of(alloc: Global, link: &mut Object) -> Result<u32, Refused> {
    let mut shown = view();
    done(amqp_link_look(alloc, link, &mut shown))?;
    Ok(shown.state)
}

fn detach(closed: bool, has_error: bool) -> Detach {
    Detach {
        handle: 0,
        closed,
        has_error,
        has_description: false,
    }
}

// The texts of an error that was copied out.
fn condition_is(
    status: u32,
    condition: &[u8],
    sizes: &Sizes,
    wanted: &[u8],
) -> Result<(), Refused> {
    done(status)?;
    holds(condition.get(..sizes.first) == Some(wanted), 1)
}

fn close(alloc: Global) -> Result<(), Refused> {
    let mut links = attached(alloc)?;
    let (mut frames, mut reply, mut ended) = (
        Object::empty(alloc),
        Object::empty(alloc),
        Object::empty(alloc),
    );
    send(alloc, &mut links, SHORT, SETTLED_BY_MODE, &mut frames)?;
    let (theirs, why) = (detach(true, true), b"amqp:internal-error");
    let sender = &mut links.sender;
    done(amqp_sender_on_detach(
        alloc,
        sender,
        &theirs,
        why,
        &[],
        true,
        &mut reply,
        &mut ended,
    ))?;
    let (mut condition, mut words) = ([0; 40], [0; 4]);
    let mut sizes = Sizes {
        first: 0,
        second: 0,
    };
    let copied = amqp_frames_error(alloc, &mut reply, 0, &mut condition, &mut words, &mut sizes);
    condition_is(copied, &condition, &sizes, why)?;
    holds(amqp_outcomes_count(alloc, &mut ended) == 1, 2)?;
    let (mut tag, mut size) = ([0; 32], 0);
    let mut outcome = Outcome {
        state: state(0),
        failed: 0,
    };
    done(amqp_outcomes_at(alloc, &mut ended, 0, &mut outcome, &mut tag, &mut size))?;
    holds(outcome.failed == REMOTE_CLOSED_WITH_ERROR, 3)?;
    let applied = amqp_link_apply_remote_detach(alloc, sender, &theirs, why, &[]);
    expect(applied, REMOTE_CLOSED_WITH_ERROR)?;
    holds(state_of(alloc, sender)? == STATE_CLOSED, 4)
}

fn detach_and_reply(alloc: Global) -> Result<(), Refused> {
    let mut links = attached(alloc)?;
    let (mut frames, mut reply) = (Object::empty(alloc), Object::empty(alloc));
    let (none, mut sent) = (detach(false, false), detach(true, true));
    let Links {
        sender,
        receiver,
        ..
    } = &mut links;
    done(amqp_link_send_detach(alloc, sender, &none, &[], &[], &mut frames))?;
    done(amqp_frames_detach(alloc, &mut frames, 0, &mut sent))?;
    holds(!sent.closed && !sent.has_error, 5)?;
    done(amqp_receiver_on_detach(alloc, receiver, &sent, &[], &[], true, &mut reply))?;
    done(amqp_link_apply_remote_detach(alloc, receiver, &sent, &[], &[]))?;
    done(amqp_frames_detach(alloc, &mut reply, 0, &mut sent))?;
    done(amqp_link_on_detach_reply(alloc, sender, &sent, &[], &[]))?;
    holds(state_of(alloc, sender)? == STATE_DETACHED, 6)?;
    holds(state_of(alloc, receiver)? == STATE_DETACHED, 7)
}

// A sender gives up what is pending once its link is closed.
fn give_up_pending(alloc: Global) -> Result<(), Refused> {
    let mut links = attached(alloc)?;
    let (mut frames, mut ended) = (Object::empty(alloc), Object::empty(alloc));
    send(alloc, &mut links, SHORT, SETTLED_BY_MODE, &mut frames)?;
    let (closing, sender) = (detach(true, false), &mut links.sender);
    done(amqp_link_send_detach(alloc, sender, &closing, &[], &[], &mut frames))?;
    done(amqp_link_on_detach_reply(alloc, sender, &closing, &[], &[]))?;
    done(amqp_sender_fail_pending_unsettled(alloc, sender, &closing, &[], &[], &mut ended))?;
    holds(amqp_outcomes_count(alloc, &mut ended) == 1, 31)?;
    let mut first = 9;
    done(amqp_sender_release(alloc, sender, 1, &mut first))
}

// Two endpoints at which a delivery is complete.
fn with_complete(alloc: Global) -> Result<Links, Refused> {
    let mut links = attached(alloc)?;
    let mut frames = Object::empty(alloc);
    send(alloc, &mut links, SHORT, SETTLED_BY_MODE, &mut frames)?;
    let arrival = arrive(alloc, &mut links, &mut frames, 0)?;
    holds(arrival == ARRIVAL_COMPLETE, 8)?;
    Ok(links)
}

// A rejection with an error.
fn rejected() -> DeliveryStateFields {
    let mut fields = state(REJECTED);
    fields.has_error = true;
    fields
}

// The disposition that rejects a delivery.
fn dispose_rejected(alloc: Global, receiver: &mut Object, name: &[u8]) -> Result<Object, Refused> {
    let mut frames = Object::empty(alloc);
    done(amqp_receiver_dispose(
        alloc,
        receiver,
        name,
        SETTLED,
        &rejected(),
        WHY,
        &[],
        false,
        &mut frames,
    ))?;
    Ok(frames)
}

// What the sender has ended by it.
fn take_rejected(alloc: Global, sender: &mut Object, name: &[u8]) -> Result<Object, Refused> {
    let (mut echo, mut ended) = (false, Object::empty(alloc));
    done(amqp_sender_on_disposition(
        alloc,
        sender,
        name,
        true,
        &rejected(),
        WHY,
        &[],
        &mut echo,
        &mut ended,
    ))?;
    Ok(ended)
}

// The error is read of the frame, of the outcome and of the registration.
fn errors_are_read(
    alloc: Global,
    frames: &mut Object,
    ended: &mut Object,
    sender: &mut Object,
) -> Result<(), Refused> {
    let (mut condition, mut words) = ([0; 40], [0; 4]);
    let mut sizes = Sizes {
        first: 0,
        second: 0,
    };
    let copied = amqp_frames_error(alloc, frames, 0, &mut condition, &mut words, &mut sizes);
    condition_is(copied, &condition, &sizes, WHY)?;
    let copied = amqp_outcomes_error(alloc, ended, 0, &mut condition, &mut words, &mut sizes);
    condition_is(copied, &condition, &sizes, WHY)?;
    let copied = amqp_sender_fate_error(alloc, sender, 0, &mut condition, &mut words, &mut sizes);
    condition_is(copied, &condition, &sizes, WHY)
}

// The receiver takes the delivery and rejects it, and the sender takes that.
fn reject(alloc: Global) -> Result<(), Refused> {
    let mut links = with_complete(alloc)?;
    let (tag, tag_size) = (links.tag, links.tag_size);
    let name = tag.get(..tag_size).unwrap_or(&[]);
    let mut taken = Object::empty(alloc);
    done(amqp_receiver_take(alloc, &mut links.receiver, name, &mut taken))?;
    let mut frames = dispose_rejected(alloc, &mut links.receiver, name)?;
    let mut ended = take_rejected(alloc, &mut links.sender, name)?;
    errors_are_read(alloc, &mut frames, &mut ended, &mut links.sender)?;
    let mut first = 9;
    done(amqp_sender_release(alloc, &mut links.sender, 1, &mut first))
}

fn take_settled(alloc: Global) -> Result<(), Refused> {
    let mut links = attached(alloc)?;
    let (mut frames, mut taken) = (Object::empty(alloc), Object::empty(alloc));
    send(alloc, &mut links, SHORT, SETTLED, &mut frames)?;
    let arrival = arrive(alloc, &mut links, &mut frames, 0)?;
    holds(arrival == ARRIVAL_COMPLETE_SETTLED, 9)?;
    let mut count = 0;
    let receiver = &mut links.receiver;
    done(amqp_receiver_settled_count(alloc, receiver, &mut count))?;
    holds(count == 1, 10)?;
    done(amqp_receiver_take_settled(alloc, receiver, &mut taken))?;
    let mut seen = DeliveryView {
        message_size: 0,
        delivery_id: 9,
        message_format: 9,
        has_message_format: false,
    };
    let (mut tag, mut size) = ([0; 32], 0);
    done(amqp_delivery_look(alloc, &mut taken, &mut seen, &mut tag, &mut size))?;
    holds(
        seen.message_size == 6 && seen.delivery_id == 0 && size == 4,
        11,
    )
}

fn kept() -> KeptView {
    KeptView {
        stage: 0,
        delivery_id: 0,
        has_delivery_id: false,
        settled: false,
    }
}

// A delivery under a tag of the caller's is complete, and its sender settles it.
fn settle_by_sender(alloc: Global) -> Result<(), Refused> {
    let mut links = attached(alloc)?;
    let (mut frames, mut ended) = (Object::empty(alloc), Object::empty(alloc));
    let sender = &mut links.sender;
    done(amqp_sender_send_with_tag(
        alloc,
        sender,
        b"mine",
        SHORT,
        0,
        SETTLED_BY_MODE,
        false,
        &mut frames,
    ))?;
    holds(
        arrive(alloc, &mut links, &mut frames, 0)? == ARRIVAL_COMPLETE,
        12,
    )?;
    let Links {
        sender,
        receiver,
        ..
    } = &mut links;
    let mut shown = kept();
    done(amqp_receiver_kept(alloc, receiver, b"mine", &mut shown))?;
    holds(shown.stage == STAGE_COMPLETE && shown.has_delivery_id, 13)?;
    let accepted = state(ACCEPTED);
    done(amqp_sender_dispose(
        alloc,
        sender,
        0,
        b"mine",
        true,
        &accepted,
        &[],
        &[],
        &mut frames,
        &mut ended,
    ))?;
    holds(amqp_outcomes_count(alloc, &mut ended) == 1, 14)?;
    done(amqp_receiver_on_disposition(alloc, receiver, b"mine", true, &accepted, &[], &[]))?;
    let gone = amqp_receiver_kept(alloc, receiver, b"mine", &mut shown);
    expect(gone, UNKNOWN_TAG)?;
    let kept = amqp_receiver_keep_outcome(alloc, receiver, b"mine", &accepted, &[], &[]);
    expect(kept, UNKNOWN_TAG)
}

// A delivery has begun when the connection is lost; its sender keeps it for later, and then gives it up.
fn give_up(alloc: Global) -> Result<(), Refused> {
    let mut links = attached(alloc)?;
    let mut frames = Object::empty(alloc);
    let (sender, long) = (&mut links.sender, [0; 100]);
    done(amqp_sender_send_with_tag(
        alloc,
        sender,
        b"mine",
        &long,
        0,
        SETTLED_BY_MODE,
        false,
        &mut frames,
    ))?;
    holds(
        arrive(alloc, &mut links, &mut frames, 0)? == ARRIVAL_BEGUN,
        15,
    )?;
    let mut first = 9;
    let released = amqp_sender_release(alloc, &mut links.sender, 1, &mut first);
    expect(released, STILL_PENDING)?;
    holds(first == 0, 16)?;
    lose(alloc, &mut links)?;
    let mut resuming = Object::empty(alloc);
    drop(attach(alloc, &mut links, &mut resuming)?);
    done(amqp_sender_put_back(alloc, &mut links.sender, &mut resuming))?;
    let mut was_pending = false;
    done(amqp_sender_withdraw(alloc, &mut links.sender, b"mine", &mut was_pending))?;
    holds(was_pending, 17)?;
    lose(alloc, &mut links)?;
    let mut forgotten = attach(alloc, &mut links, &mut resuming)?;
    holds(amqp_forgotten_count(alloc, &mut forgotten) == 1, 18)?;
    let (mut stage, mut tag, mut size) = (0, [0; 32], 0);
    done(amqp_forgotten_at(alloc, &mut forgotten, 0, &mut stage, &mut tag, &mut size))?;
    holds(stage == STAGE_BEGUN && size == 4, 19)
}

fn lose(alloc: Global, links: &mut Links) -> Result<(), Refused> {
    done(amqp_link_on_session_lost(alloc, &mut links.sender))?;
    done(amqp_link_on_session_lost(alloc, &mut links.receiver))
}

// A peer pulls: credit that drains is given back.
fn drain(alloc: Global) -> Result<(), Refused> {
    let mut links = attached(alloc)?;
    let Links {
        sender,
        receiver,
        ..
    } = &mut links;
    let (mut pull, mut reply, mut has_reply) = (flow(), flow(), false);
    done(amqp_receiver_send_flow(alloc, receiver, true, 3, true, true, false, &mut pull))?;
    done(amqp_sender_on_flow_keeping_credit(alloc, sender, &pull, &mut reply, &mut has_reply))?;
    done(amqp_sender_give_back_credit(alloc, sender, &mut reply, &mut has_reply))?;
    holds(
        has_reply && reply.link_credit == 0 && reply.delivery_count == 3,
        20,
    )?;
    let (mut echoed, mut has_echo) = (flow(), true);
    done(amqp_receiver_on_flow(alloc, receiver, &reply, &mut echoed, &mut has_echo))?;
    holds(!has_echo, 21)?;
    done(amqp_sender_send_flow(alloc, sender, true, 2, false, &mut reply))?;
    holds(reply.has_available && reply.available == 2, 22)
}

// An attach as a session makes it of bytes, and as it reads one.
fn make_attach(alloc: Global) -> Result<(), Refused> {
    let mut attach = Object::empty(alloc);
    done(amqp_attach_new(alloc, &mut attach, b"letters", &attach_fields()))?;
    let mut end = terminus();
    end.has_address = true;
    done(amqp_attach_set_source(alloc, &mut attach, &end, b"here"))?;
    done(amqp_attach_set_target(alloc, &mut attach, &end, b"there"))?;
    let accepted = state(ACCEPTED);
    done(amqp_attach_add_unsettled(alloc, &mut attach, b"tag", &accepted, &[], &[]))?;
    let (mut fields, mut text, mut size) = (attach_fields(), [0; 20], 0);
    done(amqp_attach_look(alloc, &mut attach, &mut fields, &mut text, &mut size))?;
    holds(text.get(..size) == Some(b"letters".as_slice()), 23)?;
    done(amqp_attach_source(alloc, &mut attach, &mut end, &mut text, &mut size))?;
    holds(text.get(..size) == Some(b"here".as_slice()), 24)?;
    done(amqp_attach_target(alloc, &mut attach, &mut end, &mut text, &mut size))?;
    holds(text.get(..size) == Some(b"there".as_slice()), 25)?;
    read_unsettled(alloc, &mut attach)
}

// The unsettled deliveries that it states: one that is accepted, and one that is rejected with an error.
fn read_unsettled(alloc: Global, attach: &mut Object) -> Result<(), Refused> {
    done(amqp_attach_add_unsettled(alloc, attach, b"bad", &rejected(), WHY, &[]))?;
    holds(amqp_attach_unsettled_count(alloc, attach) == 2, 26)?;
    let (mut known, mut tag, mut size) = (state(0), [0; 20], 0);
    done(amqp_attach_unsettled(alloc, attach, 0, &mut known, &mut tag, &mut size))?;
    holds(
        known.kind == ACCEPTED && tag.get(..size) == Some(b"tag".as_slice()),
        27,
    )?;
    let (mut condition, mut words) = ([0; 40], [0; 4]);
    let mut sizes = Sizes {
        first: 0,
        second: 0,
    };
    let none = amqp_attach_unsettled_error(
        alloc,
        attach,
        0,
        &mut condition,
        &mut words,
        &mut sizes,
    );
    expect(none, NO_SUCH_ENTRY)?;
    let copied = amqp_attach_unsettled_error(
        alloc,
        attach,
        1,
        &mut condition,
        &mut words,
        &mut sizes,
    );
    condition_is(copied, &condition, &sizes, WHY)
}

// A receiver whose peer leaves its delivery-count out closes the link with an error.
fn refuse_at_receiver(alloc: Global) -> Result<(), Refused> {
    let mut links = attached(alloc)?;
    let (receiver, mut frames) = (&mut links.receiver, Object::empty(alloc));
    done(amqp_link_detach_frame(alloc, receiver, &mut frames))?;
    holds(amqp_frames_count(alloc, &mut frames) == 1, 30)?;
    let mut ends_session = true;
    let failed = INITIAL_DELIVERY_COUNT_IS_NONE;
    done(amqp_receiver_attach_failed(alloc, receiver, failed, &mut frames, &mut ends_session))?;
    let (mut condition, mut words) = ([0; 40], [0; 4]);
    let mut sizes = Sizes {
        first: 0,
        second: 0,
    };
    let copied = amqp_frames_error(
        alloc,
        &mut frames,
        0,
        &mut condition,
        &mut words,
        &mut sizes,
    );
    condition_is(copied, &condition, &sizes, b"amqp:invalid-field")?;
    let unattached = amqp_link_detach_frame(alloc, receiver, &mut frames);
    expect(unattached, UNATTACHED_HANDLE)
}

// A peer without target refuses the link: the sender closes it.
fn refuse_attach(alloc: Global) -> Result<(), Refused> {
    let mut links = new_links(alloc)?;
    let sender = &mut links.sender;
    let (mut attach, mut list, mut ended) = (
        Object::empty(alloc),
        Object::empty(alloc),
        Object::empty(alloc),
    );
    done(amqp_link_set_output_handle(alloc, sender, 0))?;
    done(amqp_link_set_max_frame_size(alloc, sender, 512))?;
    done(amqp_sender_send_attach(alloc, sender, false, &mut attach, &mut ended))?;
    let mut fields = attach_fields();
    fields.role = 1;
    done(amqp_attach_new(alloc, &mut attach, b"letters", &fields))?;
    let mut incomplete = false;
    let refused = amqp_sender_on_attach(
        alloc,
        sender,
        &mut attach,
        &mut list,
        &mut incomplete,
        &mut ended,
    );
    expect(refused, INCOMING_TARGET_IS_NONE)?;
    let mut ends_session = true;
    done(amqp_sender_attach_failed(alloc, sender, refused, &mut list, &mut ends_session))?;
    holds(
        !ends_session && amqp_frames_count(alloc, &mut list) == 1,
        28,
    )?;
    let (mut name, mut size) = ([0; 20], 0);
    done(amqp_link_name(alloc, sender, &mut name, &mut size))?;
    holds(size == 7, 29)
}

// What a group of calls comes to: 0, or the status or the number of what did not hold.
fn status_of(ended: Result<(), Refused>) -> u32 {
    match ended {
        Ok(()) => 0,
        Err(Refused(status)) => status,
    }
}

#[test]
fn a_close_with_an_error_ends_the_link(rt: HostRuntime) {
    assert_eq!(rt; status_of(close(rt.alloc())), 0);
}

#[test]
fn a_detach_is_replied_to(rt: HostRuntime) {
    assert_eq!(rt; status_of(detach_and_reply(rt.alloc())), 0);
    assert_eq!(rt; status_of(give_up_pending(rt.alloc())), 0);
}

#[test]
fn a_rejection_carries_its_error(rt: HostRuntime) {
    assert_eq!(rt; status_of(reject(rt.alloc())), 0);
}

#[test]
fn a_settled_delivery_is_taken(rt: HostRuntime) {
    assert_eq!(rt; status_of(take_settled(rt.alloc())), 0);
}

#[test]
fn a_sender_settles_its_delivery(rt: HostRuntime) {
    assert_eq!(rt; status_of(settle_by_sender(rt.alloc())), 0);
}

#[test]
fn a_delivery_that_was_given_up_is_forgotten(rt: HostRuntime) {
    assert_eq!(rt; status_of(give_up(rt.alloc())), 0);
}

#[test]
fn credit_that_drains_is_given_back(rt: HostRuntime) {
    assert_eq!(rt; status_of(drain(rt.alloc())), 0);
}

#[test]
fn an_attach_is_made_and_read(rt: HostRuntime) {
    assert_eq!(rt; status_of(make_attach(rt.alloc())), 0);
}

#[test]
fn a_refused_attach_closes_the_link(rt: HostRuntime) {
    assert_eq!(rt; status_of(refuse_attach(rt.alloc())), 0);
    assert_eq!(rt; status_of(refuse_at_receiver(rt.alloc())), 0);
}

//! Worked values of unsettled deliveries: withdrawn, and exchanged as a sender is attached again (2.6.13).
use crate::assertions::{assert_equal, assert_equal_at, assert_holds_at};
use crate::calls::{count_at, pending_in, withdraw};
use crate::led::{attach_goes, detach_for_reattach, put};
use crate::samples::{coming, count_in, entry_of, link_of, parts, tag_of};
use crate::sending::{link, send_one};
use amqp_link_core::resumption::ResumingDelivery;
use amqp_link_endpoint::endpoint::LinkExt;
use amqp_link_sender::sender_link::incoming::{commit_incoming_attach, plan_incoming_attach};
use amqp_link_sender::{SenderAttachExchange, SenderLink};
use amqp_link_state::state::LinkState;
use amqp_link_tests_support::calls::{local_state, take_attach};
use amqp_link_tests_support::links::went;
use amqp_link_types::delivery::{Outcomes, UnsettledMessage};
use amqp_link_types::types::{
    Attach, DeliveryState, DeliveryTag, LinkStateError, Target, UnsettledMap,
};
use std::process::Abort;

// A link with the deliveries of so many counts, each of one byte, that has sent its attach.
fn attaching_with(rt: &(impl Abort + AllocGlobal), pending: u32) -> SenderLink<Target> {
    let mut link = link_of(rt, parts(rt, 65536));
    for count in 0..pending {
        put(rt, &mut link, count);
    }
    attach_goes(rt, &mut link);
    link
}

type States = UnsettledMap<Option<DeliveryState>>;

// The receiver knows this of the delivery of this count.
fn report(
    rt: &(impl Abort + AllocGlobal),
    states: &mut States,
    count: u32,
    state: Option<DeliveryState>,
) {
    let put = went(states.put(tag_of(rt, count), state));
    assert_holds_at(rt, put, &"memory");
}

fn received(section_number: u32, section_offset: u64) -> Option<DeliveryState> {
    Some(DeliveryState::Received {
        section_number,
        section_offset,
    })
}

// The receiver's attach with what it knows.
fn attach_with(rt: &(impl Abort + AllocGlobal), states: States) -> Attach {
    let mut attach = coming(rt, false);
    attach.unsettled = Some(states);
    attach
}

type Resuming = Vec<(DeliveryTag, ResumingDelivery)>;

// The list of an exchange of complete maps.
fn list_of(exchange: SenderAttachExchange) -> Option<Resuming> {
    match exchange {
        SenderAttachExchange::Resume(list) => Some(list.into_vec()),
        _ => None,
    }
}

// The deliveries to be resumed once this attach has arrived, and those that have ended.
fn exchange_on(
    rt: &(impl Abort + AllocGlobal),
    link: &mut SenderLink<Target>,
    attach: Attach,
) -> (Resuming, Outcomes) {
    let answer = take_attach(link, attach);
    let (exchange, outcomes) = answer.expect(rt, "an attach that is accepted");
    let list = list_of(exchange).expect(rt, "complete maps");
    (list, outcomes)
}

// How a delivery is sent: again, or the rest of so many bytes, or as an abort of this format, with its tag or
// without, or its outcome is stated again.
#[derive(Clone, Copy, Debug, PartialEq, Eq)]
enum Sent {
    Resend,
    Resume(usize),
    Abort(u32, bool),
    Restate,
}

// What is sent of a delivery that only the receiver knows.
const UNKNOWN: Sent = Sent::Abort(0, false);

fn sent_as(delivery: &ResumingDelivery) -> Sent {
    match delivery {
        ResumingDelivery::Resend(_) => Sent::Resend,
        ResumingDelivery::Resume { rest, .. } => Sent::Resume(rest.len()),
        ResumingDelivery::Abort {
            message_format,
            tag,
        } => Sent::Abort(*message_format, tag.is_some()),
        ResumingDelivery::RestateOutcome { .. } => Sent::Restate,
    }
}

// The count of the delivery at this place of the list, and how it is sent.
fn sent_at(list: &Resuming, place: usize) -> Option<(u32, Sent)> {
    let (tag, delivery) = list.get(place)?;
    Some((count_in(tag)?, sent_as(delivery)))
}

fn first_four(list: &Resuming) -> [Option<(u32, Sent)>; 4] {
    [
        sent_at(list, 0),
        sent_at(list, 1),
        sent_at(list, 2),
        sent_at(list, 3),
    ]
}

// The count of the delivery at this place, if it was accepted.
fn accepted_at(outcomes: &Outcomes, place: usize) -> Option<u32> {
    let (tag, outcome) = outcomes.get(place)?;
    match outcome {
        Ok(Some(DeliveryState::Accepted)) => count_in(tag),
        _ => None,
    }
}

// The payload of the deliveries that are sent, of two sections: the second begins at the fifth byte.
const WHOLE: &[u8] = b"\x00\x53\x70\xc0\x00\x53\x77\x41";

// The link accepts the delivery of count 1, and does not settle it.
fn accept_second(rt: &(impl Abort + AllocGlobal), link: &mut SenderLink<Target>) {
    let tag = tag_of(rt, 1);
    let goes = went(link.dispose(1, &tag, false, DeliveryState::Accepted, false));
    drop(tag);
    assert_holds_at(rt, goes, &"a disposition is sent");
}

// A link that has sent three deliveries and accepted the second itself, detached, and then sent its attach
// again.
fn reattaching(rt: &(impl Abort + AllocGlobal)) -> SenderLink<Target> {
    let mut link = link(rt, 512, 3);
    for _ in 0..3 {
        send_one(rt, &mut link, WHOLE);
    }
    accept_second(rt, &mut link);
    detach_for_reattach(rt, &mut link);
    attach_goes(rt, &mut link);
    link
}

// The attach of a receiver that has five bytes of the first, has accepted the second, and knows one more.
fn attach_with_three(rt: &(impl Abort + AllocGlobal)) -> Attach {
    let mut states = UnsettledMap::new(rt.alloc());
    report(rt, &mut states, 3, None);
    report(rt, &mut states, 0, received(0, 5));
    report(rt, &mut states, 1, Some(DeliveryState::Accepted));
    attach_with(rt, states)
}

// The first is resumed with its last three bytes, the second has ended, and the third is sent again; the one that
// only the receiver knows is aborted.
#[test]
fn sent_deliveries_are_resolved_in_order(rt: HostRuntime) {
    let mut link = reattaching(&rt);
    let (list, outcomes) = exchange_on(&rt, &mut link, attach_with_three(&rt));
    let sent = first_four(&list);
    let ended = (outcomes.len(), accepted_at(&outcomes, 0));
    drop((list, outcomes));
    let left = (local_state(&link), pending_in(&link));
    drop(link);
    let wanted = [
        Some((0, Sent::Resume(3))),
        Some((2, Sent::Resend)),
        Some((3, UNKNOWN)),
        None,
    ];
    assert_equal(&rt, &sent, &wanted);
    assert_equal(&rt, &ended, &(1, Some(1)));
    assert_equal(&rt, &left, &(LinkState::Attached, 0));
}

// The attach of a receiver that has received nothing of the deliveries of the counts 999 down to 250.
fn attach_from_the_last(rt: &(impl Abort + AllocGlobal)) -> Attach {
    let mut states = UnsettledMap::new(rt.alloc());
    for before in 0..750u32 {
        let count = 999u32.wrapping_sub(before);
        report(rt, &mut states, count, received(0, 0));
    }
    attach_with(rt, states)
}

// What is sent at this place if the sender has the deliveries of the counts 0 to 749.
fn wanted_at(place: u16) -> (u32, Sent) {
    let count = u32::from(place);
    if place < 250 {
        (count, Sent::Resend)
    } else if place < 750 {
        (count, Sent::Resume(1))
    } else {
        (1749u32.wrapping_sub(count), UNKNOWN)
    }
}

// The sender's deliveries come first, in its order; those that only the receiver knows come last, in the
// receiver's.
#[test]
fn deliveries_of_one_endpoint_keep_their_order(rt: HostRuntime) {
    let mut link = attaching_with(&rt, 750);
    let (list, outcomes) = exchange_on(&rt, &mut link, attach_from_the_last(&rt));
    assert_equal(&rt, &(list.len(), outcomes.len()), &(1000, 0));
    for place in 0..1000u16 {
        let sent = sent_at(&list, usize::from(place));
        assert_equal_at(&rt, &sent, &Some(wanted_at(place)), &place);
    }
    drop((list, outcomes));
    drop(link);
}

// The last delivery moves to the place of one that is withdrawn, and they are sent again in that order.
#[test]
fn exchange_keeps_the_order_of_the_map(rt: HostRuntime) {
    let mut link = attaching_with(&rt, 4);
    drop(withdraw(&rt, &mut link, 1));
    let (list, outcomes) = exchange_on(&rt, &mut link, coming(&rt, false));
    let sent = first_four(&list);
    drop((list, outcomes));
    drop(link);
    let wanted = [
        Some((0, Sent::Resend)),
        Some((3, Sent::Resend)),
        Some((2, Sent::Resend)),
        None,
    ];
    assert_equal(&rt, &sent, &wanted);
}

// What a link shows: its state, its largest message in bytes, and how many deliveries are pending.
type Shown = (LinkState, Option<u64>, usize);

fn shown(link: &SenderLink<Target>) -> Shown {
    (local_state(link), link.max_message_size(), pending_in(link))
}

// How many deliveries an exchange of complete maps resumes.
fn resumed_in(exchange: &SenderAttachExchange) -> Option<usize> {
    match exchange {
        SenderAttachExchange::Resume(list) => Some(list.len()),
        _ => None,
    }
}

// What a link shows once this attach is planned and once it is taken, how many deliveries are resumed then, and
// how many have ended.
fn planned_and_taken(
    rt: &impl Abort,
    mut link: SenderLink<Target>,
    attach: Attach,
) -> (Shown, Shown, (Option<usize>, usize)) {
    let plan = plan_incoming_attach(&mut link, attach).expect(rt, "an attach that is accepted");
    let before = shown(&link);
    let (exchange, outcomes) = commit_incoming_attach(&mut link, plan);
    let after = shown(&link);
    let answer = (resumed_in(&exchange), outcomes.len());
    drop((exchange, outcomes));
    drop(link);
    (before, after, answer)
}

// The link is as it was until the plan is taken. Its one delivery was rejected, so that the list is empty.
#[test]
fn attach_is_planned_and_then_taken(rt: HostRuntime) {
    let mut states = UnsettledMap::new(rt.alloc());
    let rejected = DeliveryState::Rejected { error: None };
    report(&rt, &mut states, 0, Some(rejected));
    let mut attach = attach_with(&rt, states);
    attach.max_message_size = Some(5);
    let before = (LinkState::AttachSent, None, 1);
    let after = (LinkState::Attached, Some(5), 0);
    let taken = planned_and_taken(&rt, attaching_with(&rt, 1), attach);
    assert_equal(&rt, &taken, &(before, after, (Some(0), 1)));
}

// Whether a refusal is for a pending tag, and whether it returns the entry.
fn told_by(
    rt: &(impl Abort + AllocGlobal),
    refused: &(LinkStateError, UnsettledMessage),
) -> (bool, bool) {
    let wanted = entry_of(rt, WHOLE, 0);
    let is_back = refused.1 == wanted;
    drop(wanted);
    (matches!(&refused.0, LinkStateError::TagPending), is_back)
}

// How another entry under the tag of this count is refused.
fn put_again(
    rt: &(impl Abort + AllocGlobal),
    link: &mut SenderLink<Target>,
    count: u32,
) -> Option<(bool, bool)> {
    let refused = link.put_back(tag_of(rt, count), entry_of(rt, WHOLE, 0));
    let told = match &refused {
        Ok(()) => None,
        Err(refused) => Some(told_by(rt, refused)),
    };
    drop(refused);
    told
}

// Whether the delivery of this count was pending with one byte.
fn withdrawn(
    rt: &(impl Abort + AllocGlobal),
    link: &mut SenderLink<Target>,
    count: u32,
) -> Option<bool> {
    let withdrawn = withdraw(rt, link, count);
    let wanted = entry_of(rt, &[7], 0);
    let is_first = withdrawn.as_ref().map(|entry| *entry == wanted);
    drop((withdrawn, wanted));
    is_first
}

// A pending entry is not replaced. The last entry moves to the place of the one that is withdrawn.
#[test]
fn delivery_is_withdrawn_once(rt: HostRuntime) {
    let mut link = attaching_with(&rt, 4);
    let put = put_again(&rt, &mut link, 1);
    let first = withdrawn(&rt, &mut link, 1);
    let again = withdrawn(&rt, &mut link, 1);
    let counts = [
        count_at(&link, 0),
        count_at(&link, 1),
        count_at(&link, 2),
        count_at(&link, 3),
    ];
    drop(link);
    assert_equal(&rt, &put, &Some((true, true)));
    assert_equal(&rt, &(first, again), &(Some(true), None));
    assert_equal(&rt, &counts, &[Some(0), Some(3), Some(2), None]);
}

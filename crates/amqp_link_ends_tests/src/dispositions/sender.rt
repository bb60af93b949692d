//! A sender.
use super::{DispositionFields, Shown, all_fields, error, shown_by, shown_by_state};
use crate::assertions::{assert_equal, assert_equal_at};
use crate::samples::{attach_of, count_tag, parts};
use amqp_link_endpoint::endpoint::{LinkAttach, LinkExt};
use amqp_link_sender::sender_link::{DispositionAnswer, SenderLink, Waiting};
use amqp_link_types::delivery::Outcomes;
use amqp_link_types::frame::LinkFrame;
use amqp_link_types::types::{
    DeliveryNumber, DeliveryState, DeliveryTag, Detach, Error, Handle, LinkFlow, LinkRelayError,
    OutputHandle, Payload, ReceiverSettleMode, Role, SenderSettleMode, Target,
};
use std::process::Abort;

// A sender at output handle 0 in this mode, at a receiver in that one, with so many pending
// deliveries, whose tags are 00000000 and on.
fn link(
    rt: &(impl Abort + AllocGlobal),
    mode: SenderSettleMode,
    receiver: ReceiverSettleMode,
    pending: u32,
) -> SenderLink<Target> {
    let link = SenderLink::new(rt.alloc(), parts(rt, mode, 512));
    let mut link = link.with_output_handle(OutputHandle(0));
    drop(link.send_attach(false));
    let mut attach = attach_of(rt, Role::Receiver, mode);
    attach.rcv_settle_mode = receiver;
    drop(link.on_incoming_attach(attach));
    drop(link.on_incoming_flow(LinkFlow {
        link_credit: Some(pending),
        ..LinkFlow::default()
    }));
    let payload = Payload::copy_from_slice(rt.alloc(), &[7]).expect(rt, "memory");
    for _ in 0..pending {
        drop(link.send_payload(Waiting::Nothing, &payload, 0, None, None, false));
    }
    drop(payload);
    link
}

pub(crate) fn mixed(rt: &(impl Abort + AllocGlobal), pending: u32) -> SenderLink<Target> {
    link(
        rt,
        SenderSettleMode::Mixed,
        ReceiverSettleMode::First,
        pending,
    )
}

// These numbers, each with the tag of a count.
pub(super) fn listed(
    rt: &(impl Abort + AllocGlobal),
    pairs: &[(DeliveryNumber, u8)],
) -> Vec<(DeliveryNumber, DeliveryTag)> {
    let mut listed = Vec::new(rt.alloc());
    for (id, count) in pairs {
        listed
            .push((*id, count_tag(rt, *count)))
            .expect(rt, "memory");
    }
    listed
}

// The calls as functions without a contract: what follows a call is proved with all that its contract says.
fn dispose(
    link: &mut SenderLink<Target>,
    id: DeliveryNumber,
    tag: &DeliveryTag,
    settled: bool,
    state: DeliveryState,
) -> Option<Answer> {
    shown_of(link.dispose(id, tag, settled, state, false))
}

pub(super) fn accept(
    link: &mut SenderLink<Target>,
    pairs: &[(DeliveryNumber, DeliveryTag)],
    settled: bool,
) -> Option<Answer> {
    shown_of(link.batch_dispose(pairs, settled, DeliveryState::Accepted, false))
}

fn fail_all(link: &mut SenderLink<Target>, detach: &Detach) -> Option<Outcomes> {
    match link.fail_pending_unsettled(detach) {
        Ok(outcomes) => Some(outcomes),
        Err(_) => None,
    }
}

pub(super) fn pending_in(link: &SenderLink<Target>) -> usize {
    link.unsettled().len()
}

// Frames and outcomes: the frames, how many outcomes there are, and the first three.
pub(super) type Answer = (usize, [DispositionFields; 4], usize, [Shown; 3]);

fn answer_of(frames: &[LinkFrame], outcomes: &Outcomes) -> Answer {
    let (count, fields) = all_fields(frames);
    let outcomes = outcomes.as_slice();
    let actual = [
        shown_by(outcomes.first()),
        shown_by(outcomes.get(1)),
        shown_by(outcomes.get(2)),
    ];
    (count, fields, outcomes.len(), actual)
}

// The result of a call that succeeded.
pub(super) fn shown_of<E: Drop>(answer: Result<(Vec<LinkFrame>, Outcomes), E>) -> Option<Answer> {
    let Ok((frames, outcomes)) = answer else {
        return None;
    };
    let actual = answer_of(frames.as_slice(), &outcomes);
    drop(frames);
    drop(outcomes);
    Some(actual)
}

const NONE: [Shown; 3] = [Shown::Absent, Shown::Absent, Shown::Absent];

// What is known of the delivery of a count, and how many are pending.
pub(super) fn known(
    rt: &(impl Abort + AllocGlobal),
    link: &SenderLink<Target>,
    count: u8,
) -> (usize, Shown) {
    let tag = count_tag(rt, count);
    let actual = match link.unsettled().get(&tag) {
        Some(message) => shown_by_state(&message.state),
        None => Shown::Absent,
    };
    drop(tag);
    (pending_in(link), actual)
}

#[test]
fn stored_state_is_the_outcome(rt: HostRuntime) {
    let mut link = mixed(&rt, 1);
    let tag = count_tag(&rt, 0);
    let set = dispose(&mut link, 9, &tag, false, DeliveryState::Accepted);
    let between = known(&rt, &link, 0);
    let settled = dispose(&mut link, 9, &tag, true, DeliveryState::Released);
    let after = known(&rt, &link, 0);
    drop(tag);
    drop(link);
    let unsettled = [Some((9, None, false)), None, None, None];
    assert_equal(&rt, &set, &Some((1, unsettled, 0, NONE)));
    assert_equal(&rt, &between, &(1, Shown::Accepted));
    let alone = [Some((9, None, true)), None, None, None];
    let accepted = [Shown::Accepted, Shown::Absent, Shown::Absent];
    assert_equal(&rt, &settled, &Some((1, alone, 1, accepted)));
    assert_equal(&rt, &after, &(0, Shown::Absent));
}

// The last bytes of the tags of outcomes, in order.
fn tags_of(rt: &(impl Abort + AllocGlobal), outcomes: &Outcomes) -> Vec<u8> {
    let mut tags = Vec::new(rt.alloc());
    for (tag, _) in outcomes.as_slice() {
        let last = tag.as_bytes().last().copied().unwrap_or(0);
        tags.push(last).expect(rt, "memory");
    }
    tags
}

#[test]
fn long_batch_ends_in_order(rt: HostRuntime) {
    let mut link = mixed(&rt, 26);
    let pairs = listed(
        &rt,
        &[
            (25, 0),
            (24, 1),
            (23, 2),
            (22, 3),
            (21, 4),
            (20, 5),
            (19, 6),
            (18, 7),
            (17, 8),
            (16, 9),
            (15, 10),
            (14, 11),
            (13, 12),
            (12, 13),
            (11, 14),
            (10, 15),
            (9, 16),
            (8, 17),
            (7, 18),
            (6, 19),
            (5, 20),
            (4, 21),
            (3, 22),
            (2, 23),
            (1, 24),
            (13, 25),
        ],
    );
    let answer = link.batch_dispose(&pairs, true, DeliveryState::Accepted, false);
    let (frames, outcomes) = answer.expect(&rt, "memory");
    let (count, fields) = all_fields(frames.as_slice());
    let tags = tags_of(&rt, &outcomes);
    assert_equal(&rt, &pending_in(&link), &0);
    drop(pairs);
    drop(link);
    drop(frames);
    drop(outcomes);
    assert_equal_at(&rt, &count, &2, &"the number 13 is listed twice");
    let runs = [
        Some((1, Some(13), true)),
        Some((13, Some(25), true)),
        None,
        None,
    ];
    assert_equal(&rt, &fields, &runs);
    let in_order = [
        24, 23, 22, 21, 20, 19, 18, 17, 16, 15, 14, 13, 12, 25, 11, 10, 9, 8, 7, 6, 5, 4, 3, 2, 1,
        0,
    ];
    assert_equal_at(
        &rt,
        &tags.as_slice(),
        &in_order.as_slice(),
        &"of one number as they are listed",
    );
}

#[test]
fn mode_settled_sends_no_disposition(rt: HostRuntime) {
    let mut link = link(&rt, SenderSettleMode::Settled, ReceiverSettleMode::First, 2);
    let pairs = listed(&rt, &[(1, 0), (2, 1)]);
    let batch = accept(&mut link, &pairs, true);
    drop(pairs);
    drop(link);
    let nothing = Some((0, [None, None, None, None], 0, NONE));
    assert_equal(&rt, &batch, &nothing);
}

// The dispositions of a sender without pending deliveries for these ids.
fn batch(
    rt: &(impl Abort + AllocGlobal),
    pairs: &[(DeliveryNumber, u8)],
) -> Option<(usize, [DispositionFields; 4])> {
    let mut link = mixed(rt, 0);
    let pairs = listed(rt, pairs);
    let actual = accept(&mut link, &pairs, true);
    drop(pairs);
    drop(link);
    let (count, fields, _, _) = actual?;
    Some((count, fields))
}

#[test]
fn dispositions_name_runs(rt: HostRuntime) {
    let runs = batch(&rt, &[(1, 0), (2, 1), (3, 2), (5, 3)]);
    let one_to_three = Some((1, Some(3), true));
    assert_equal(
        &rt,
        &runs,
        &Some((2, [one_to_three, Some((5, None, true)), None, None])),
    );
    let runs = batch(&rt, &[(1, 0), (1, 1), (2, 2)]);
    let fields = [Some((1, None, true)), Some((1, Some(2), true)), None, None];
    assert_equal_at(&rt, &runs, &Some((2, fields)), &"equal ids");
    let last = u32::MAX;
    let runs = batch(&rt, &[(last, 0), (0, 1), (last - 1, 2)]);
    let fields = [
        Some((0, None, true)),
        Some((last - 1, Some(last), true)),
        None,
        None,
    ];
    assert_equal_at(&rt, &runs, &Some((2, fields)), &"the ends of the numbers");
}

// The result of the receiver's disposition of the first delivery, and what is known of it then.
fn shown_after(
    rt: &(impl Abort + AllocGlobal),
    receiver: ReceiverSettleMode,
    settled: bool,
    state: Option<DeliveryState>,
) -> (bool, Shown, Shown) {
    let mut link = link(rt, SenderSettleMode::Mixed, receiver, 1);
    let tag = count_tag(rt, 0);
    let DispositionAnswer { echo, outcome } = link.on_incoming_disposition(settled, state, &tag);
    let actual = shown_by(outcome.as_ref());
    let (_, after) = known(rt, &link, 0);
    drop(tag);
    drop(outcome);
    drop(link);
    (echo, actual, after)
}

#[test]
fn incoming_dispositions_end_or_are_kept(rt: HostRuntime) {
    let (first, second) = (ReceiverSettleMode::First, ReceiverSettleMode::Second);
    let actual = shown_after(&rt, second, false, Some(DeliveryState::Accepted));
    assert_equal(&rt, &actual, &(true, Shown::Accepted, Shown::Absent));
    let received = DeliveryState::Received {
        section_number: 0,
        section_offset: 3,
    };
    let actual = shown_after(&rt, first, false, Some(received));
    assert_equal(&rt, &actual, &(false, Shown::Absent, Shown::Received(0, 3)));
    let actual = shown_after(&rt, second, true, None);
    assert_equal_at(
        &rt,
        &actual,
        &(false, Shown::NoState, Shown::Absent),
        &"settled without a state",
    );
}

// How many deliveries ended, and the tag's last byte and the outcome of the first three.
pub(super) type Ends = (usize, [(Option<u8>, Shown); 3]);

fn end_at(outcomes: &Outcomes, index: usize) -> (Option<u8>, Shown) {
    let outcome = outcomes.as_slice().get(index);
    let tag = outcome.and_then(|ended| ended.0.as_bytes().last().copied());
    (tag, shown_by(outcome))
}

fn ends_in(outcomes: &Outcomes) -> Ends {
    let ends = [
        end_at(outcomes, 0),
        end_at(outcomes, 1),
        end_at(outcomes, 2),
    ];
    (outcomes.len(), ends)
}

// The first three deliveries, each with this outcome.
pub(super) const fn all_ended(so: Shown) -> Ends {
    (3, [(Some(0), so), (Some(1), so), (Some(2), so)])
}

pub(super) fn detach(closed: bool, error: Option<Error>) -> Detach {
    Detach {
        handle: Handle(7),
        closed,
        error,
    }
}

// The result of a detach: the reply's handle, whether it closes and whether it has an error; the outcomes;
// and how many deliveries are left.
pub(super) type Detached = (Option<(u32, bool, bool)>, Ends, usize);

pub(super) fn detached(
    link: &mut SenderLink<Target>,
    detach: Detach,
    remote_initiated: bool,
) -> Result<Detached, LinkRelayError> {
    let answer = link.on_incoming_detach(&detach, remote_initiated);
    drop(detach);
    let (reply, outcomes) = answer?;
    let fields = reply.as_ref().map(|reply| (reply.handle.0, reply.closed, reply.error.is_some()));
    let actual = (fields, ends_in(&outcomes), link.unsettled().len());
    drop(outcomes);
    drop(reply);
    Ok(actual)
}

// What ends as a detach with an error fails the deliveries, and how many are left.
pub(super) fn failed(
    rt: &(impl Abort + AllocGlobal),
    link: &mut SenderLink<Target>,
) -> Option<(Ends, usize)> {
    let detach = detach(true, Some(error(rt)));
    let answer = fail_all(link, &detach);
    drop(detach);
    let outcomes = answer?;
    let actual = (ends_in(&outcomes), pending_in(link));
    drop(outcomes);
    Some(actual)
}

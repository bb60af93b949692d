//! An allocation that is refused, whichever it is, loses nothing: the call returns out of memory, the link is
//! as it was, and the same call made again returns what it would have returned. `.ci/allocations` refuses
//! each of them.
use super::receiver::{self, SECOND};
use super::{DispositionFields, Shown, sender};
use crate::assertions::assert_equal;
use amqp_link_endpoint::endpoint::LinkExt;
use amqp_link_receiver::receiver_link::ReceiverLink;
use amqp_link_sender::sender_link::SenderLink;
use amqp_link_types::delivery::DeliveryInfo;
use amqp_link_types::types::{DeliveryNumber, DeliveryTag, Target};
use std::process::Abort;

// What is known of a sender's three deliveries.
fn kept(rt: &(impl Abort + AllocGlobal), link: &SenderLink<Target>) -> [(usize, Shown); 3] {
    [
        sender::known(rt, link, 0),
        sender::known(rt, link, 1),
        sender::known(rt, link, 2),
    ]
}

// The link, unless a growth was refused on the way here, so that it lacks a delivery.
fn unless_refused<L: Drop>(link: L, has_all: bool) -> Option<L> {
    if has_all {
        Some(link)
    } else {
        drop(link);
        None
    }
}

// A sender with three deliveries.
fn three(rt: &(impl Abort + AllocGlobal)) -> Option<SenderLink<Target>> {
    let link = sender::mixed(rt, 3);
    let pending = sender::pending_in(&link);
    unless_refused(link, pending == 3)
}

// Accepts these deliveries. What is refused has changed nothing, and is done again.
fn accepted(
    rt: &(impl Abort + AllocGlobal),
    link: &mut SenderLink<Target>,
    pairs: &[(DeliveryNumber, DeliveryTag)],
) -> Option<sender::Answer> {
    let before = kept(rt, link);
    let first = sender::accept(link, pairs, true);
    if first.is_some() {
        return first;
    }
    assert_equal(rt, &kept(rt, link), &before);
    sender::accept(link, pairs, true)
}

#[test]
fn sender_loses_nothing(rt: HostRuntime) {
    let Some(mut link) = three(&rt) else {
        return;
    };
    let pairs = sender::listed(&rt, &[(6, 0), (9, 2), (7, 1)]);
    let actual = accepted(&rt, &mut link, &pairs);
    let after = kept(&rt, &link);
    drop(pairs);
    drop(link);
    let frames = [Some((6, Some(7), true)), Some((9, None, true)), None, None];
    let ended = [Shown::NoState, Shown::NoState, Shown::NoState];
    assert_equal(&rt, &actual, &Some((2, frames, 3, ended)));
    assert_equal(&rt, &after, &[(0, Shown::Absent); 3]);
}

// Fails all deliveries. What is refused has changed nothing, and is done again.
fn failed(
    rt: &(impl Abort + AllocGlobal),
    link: &mut SenderLink<Target>,
) -> Option<(sender::Ends, usize)> {
    let before = kept(rt, link);
    let first = sender::failed(rt, link);
    if first.is_some() {
        return first;
    }
    assert_equal(rt, &kept(rt, link), &before);
    sender::failed(rt, link)
}

#[test]
fn failed_deliveries_are_not_lost(rt: HostRuntime) {
    let Some(mut link) = three(&rt) else {
        return;
    };
    let actual = failed(&rt, &mut link);
    drop(link);
    let closed = sender::all_ended(Shown::RemoteClosedWithError);
    assert_equal(&rt, &actual, &Some((closed, 0)));
}

// Takes a detach that closes the link. What is refused has changed nothing, and is done again.
fn closed(
    rt: &(impl Abort + AllocGlobal),
    link: &mut SenderLink<Target>,
) -> Option<sender::Detached> {
    let before = kept(rt, link);
    let first = sender::detached(link, sender::detach(true, None), true);
    if let Ok(detached) = first {
        return Some(detached);
    }
    assert_equal(rt, &kept(rt, link), &before);
    sender::detached(link, sender::detach(true, None), true).ok()
}

#[test]
fn closing_detach_loses_nothing(rt: HostRuntime) {
    let Some(mut link) = three(&rt) else {
        return;
    };
    let actual = closed(&rt, &mut link);
    drop(link);
    let all = sender::all_ended(Shown::RemoteClosed);
    assert_equal(&rt, &actual, &Some((Some((0, true, false)), all, 0)));
}

// The tags that a receiver keeps, and what is known of two.
fn tags(
    rt: &(impl Abort + AllocGlobal),
    link: &ReceiverLink<Target>,
) -> ([Option<u8>; 2], [Shown; 2]) {
    let tags = [receiver::tag_at(link, 0), receiver::tag_at(link, 1)];
    let known = [receiver::known(rt, link, 0), receiver::known(rt, link, 1)];
    (tags, known)
}

// A receiver that keeps two deliveries.
fn two(rt: &(impl Abort + AllocGlobal)) -> Option<ReceiverLink<Target>> {
    let link = receiver::link(rt, 2);
    let kept = link.unsettled().len();
    unless_refused(link, kept == 2)
}

// Accepts these deliveries. What is refused has changed nothing, and is done again.
fn accepted_at_receiver(
    rt: &(impl Abort + AllocGlobal),
    link: &mut ReceiverLink<Target>,
    infos: &[DeliveryInfo],
) -> Option<(usize, [DispositionFields; 4])> {
    let before = tags(rt, link);
    let first = receiver::accept(link, infos, None);
    if first.is_some() {
        return first;
    }
    assert_equal(rt, &tags(rt, link), &before);
    receiver::accept(link, infos, None)
}

#[test]
fn receiver_loses_nothing(rt: HostRuntime) {
    let Some(mut link) = two(&rt) else {
        return;
    };
    let infos = receiver::listed(&rt, &[(5, 1, None), (4, 0, SECOND)]);
    let actual = accepted_at_receiver(&rt, &mut link, &infos);
    let after = tags(&rt, &link);
    drop(infos);
    drop(link);
    let frames = [
        Some((4, Some(4), false)),
        Some((5, Some(5), true)),
        None,
        None,
    ];
    assert_equal(&rt, &actual, &Some((2, frames)));
    assert_equal(
        &rt,
        &after,
        &([Some(0), None], [Shown::Accepted, Shown::Absent]),
    );
}

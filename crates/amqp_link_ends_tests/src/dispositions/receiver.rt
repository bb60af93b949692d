//! A receiver.
use super::{DispositionFields, Shown, all_fields, error, fields, shown_by_state};
use crate::assertions::{assert_equal, assert_equal_at};
use crate::samples::{count_tag, parts};
use amqp_link_endpoint::endpoint::LinkExt;
use amqp_link_receiver::receiver_link::ReceiverLink;
use amqp_link_types::delivery::DeliveryInfo;
use amqp_link_types::frame::LinkFrame;
use amqp_link_types::types::{
    DeliveryState, Detach, Error, Handle, OutputHandle, ReceiverSettleMode, SenderSettleMode,
    Target,
};
use std::process::Abort;

// A receiver in mode `First` with so many entries, whose tags are 00000000 and on, as received up to their
// beginning.
pub(crate) fn link(rt: &(impl Abort + AllocGlobal), kept: u8) -> ReceiverLink<Target> {
    let mut link = ReceiverLink::new(rt.alloc(), parts(rt, SenderSettleMode::Mixed, 512));
    for count in 0..kept {
        let tag = count_tag(rt, count);
        drop(link.on_incomplete_transfer(&tag, 0, 0));
        drop(tag);
    }
    link
}

pub(super) type Listed = (u32, u8, Option<ReceiverSettleMode>);

pub(super) fn listed(rt: &(impl Abort + AllocGlobal), listed: &[Listed]) -> Vec<DeliveryInfo> {
    let mut infos = Vec::new(rt.alloc());
    for (id, count, mode) in listed {
        let info = DeliveryInfo::new(*id, count_tag(rt, *count), *mode);
        infos.push(info).expect(rt, "memory");
    }
    infos
}

// What is known of the delivery of a count.
pub(super) fn known(
    rt: &(impl Abort + AllocGlobal),
    link: &ReceiverLink<Target>,
    count: u8,
) -> Shown {
    let tag = count_tag(rt, count);
    let actual = match link.unsettled().get(&tag) {
        Some(state) => shown_by_state(state),
        None => Shown::Absent,
    };
    drop(tag);
    actual
}

// The fields of the frames of a call that succeeded.
fn frames_of<E: Drop>(
    answer: Result<Vec<LinkFrame>, E>,
) -> Option<(usize, [DispositionFields; 4])> {
    let Ok(frames) = answer else {
        return None;
    };
    let actual = all_fields(frames.as_slice());
    drop(frames);
    Some(actual)
}

// A call as a function without a contract: what follows a call is proved with all that its contract says.
pub(super) fn accept(
    link: &mut ReceiverLink<Target>,
    infos: &[DeliveryInfo],
    settled: Option<bool>,
) -> Option<(usize, [DispositionFields; 4])> {
    frames_of(link.dispose_all(infos, settled, DeliveryState::Accepted, false))
}

// The dispositions of these deliveries, accepted; which tags are kept then, up to three, in order; and what
// is known of the first three.
type Answer = (
    Option<(usize, [DispositionFields; 4])>,
    [Option<u8>; 3],
    [Shown; 3],
);

fn all_accepted(
    rt: &(impl Abort + AllocGlobal),
    kept: u8,
    settled: Option<bool>,
    infos: &[Listed],
) -> Answer {
    let mut link = link(rt, kept);
    let infos = listed(rt, infos);
    let fields = accept(&mut link, &infos, settled);
    let tags = [tag_at(&link, 0), tag_at(&link, 1), tag_at(&link, 2)];
    let actual = [
        known(rt, &link, 0),
        known(rt, &link, 1),
        known(rt, &link, 2),
    ];
    drop(infos);
    drop(link);
    (fields, tags, actual)
}

// The last byte of the tag at this place.
pub(super) fn tag_at(link: &ReceiverLink<Target>, index: usize) -> Option<u8> {
    let (tag, _) = link.unsettled().get_index(index)?;
    tag.as_bytes().last().copied()
}

pub(super) const SECOND: Option<ReceiverSettleMode> = Some(ReceiverSettleMode::Second);

#[test]
fn dispositions_break_where_modes_differ(rt: HostRuntime) {
    let infos = [(0, 0, None), (1, 1, SECOND), (2, 2, SECOND)];
    let (fields, tags, actual) = all_accepted(&rt, 3, None, &infos);
    let frames = [
        Some((0, Some(0), true)),
        Some((1, Some(2), false)),
        None,
        None,
    ];
    assert_equal(&rt, &fields, &Some((2, frames)));
    assert_equal_at(
        &rt,
        &tags,
        &[Some(2), Some(1), None],
        &"the last moves into the gap",
    );
    assert_equal(
        &rt,
        &actual,
        &[Shown::Absent, Shown::Accepted, Shown::Accepted],
    );
}

#[test]
fn dispositions_name_runs(rt: HostRuntime) {
    let mode = None;
    let infos = [
        (11, 8, mode),
        (0, 0, mode),
        (1, 1, mode),
        (2, 2, mode),
        (3, 3, mode),
        (5, 4, mode),
        (6, 5, mode),
        (8, 6, mode),
        (9, 7, mode),
    ];
    let (fields, tags, _) = all_accepted(&rt, 9, Some(true), &infos);
    let frames = [
        Some((0, Some(3), true)),
        Some((5, Some(6), true)),
        Some((8, Some(9), true)),
        Some((11, Some(11), true)),
    ];
    assert_equal(&rt, &fields, &Some((4, frames)));
    assert_equal(&rt, &tags, &[None, None, None]);
}

#[test]
fn long_batch_is_named_in_order(rt: HostRuntime) {
    let infos = [
        (25, 0, None),
        (24, 1, None),
        (23, 2, None),
        (22, 3, None),
        (21, 4, None),
        (20, 5, None),
        (19, 6, None),
        (18, 7, None),
        (17, 8, None),
        (16, 9, None),
        (15, 10, None),
        (14, 11, None),
        (13, 12, None),
        (12, 13, None),
        (11, 14, None),
        (10, 15, None),
        (9, 16, None),
        (8, 17, None),
        (7, 18, None),
        (6, 19, None),
        (5, 20, None),
        (4, 21, None),
        (3, 22, None),
        (2, 23, None),
        (1, 24, None),
        (13, 25, None),
    ];
    let (fields, tags, _) = all_accepted(&rt, 26, Some(true), &infos);
    let frames = [
        Some((1, Some(13), true)),
        Some((13, Some(25), true)),
        None,
        None,
    ];
    assert_equal_at(
        &rt,
        &fields,
        &Some((2, frames)),
        &"the number 13 is listed twice",
    );
    assert_equal_at(&rt, &tags, &[None, None, None], &"all of them are settled");
}

#[test]
fn settled_delivery_does_not_come_back(rt: HostRuntime) {
    let infos = [(1, 0, None), (2, 0, SECOND), (2, 0, SECOND)];
    let (fields, tags, _) = all_accepted(&rt, 1, None, &infos);
    let frames = [
        Some((1, Some(1), true)),
        Some((2, Some(2), false)),
        Some((2, Some(2), false)),
        None,
    ];
    assert_equal_at(
        &rt,
        &fields,
        &Some((3, frames)),
        &"each number as often as it is listed",
    );
    assert_equal(&rt, &tags, &[None, None, None]);
}

// A number goes as often as it is listed, and a tag is removed once.
#[test]
fn numbers_and_tags_may_be_listed_twice(rt: HostRuntime) {
    let infos = [(4, 0, None), (4, 1, None), (5, 2, None)];
    let (fields, tags, _) = all_accepted(&rt, 3, Some(true), &infos);
    let frames = [
        Some((4, Some(4), true)),
        Some((4, Some(5), true)),
        None,
        None,
    ];
    assert_equal_at(&rt, &fields, &Some((2, frames)), &"4 twice, then 5");
    assert_equal(&rt, &tags, &[None, None, None]);
    let (fields, tags, _) = all_accepted(&rt, 2, Some(true), &[(4, 0, None), (6, 0, None)]);
    let frames = [
        Some((4, Some(4), true)),
        Some((6, Some(6), true)),
        None,
        None,
    ];
    assert_equal_at(&rt, &fields, &Some((2, frames)), &"one tag, 4 and 6");
    assert_equal(&rt, &tags, &[Some(1), None, None]);
}

fn release(
    link: &mut ReceiverLink<Target>,
    info: &DeliveryInfo,
    settled: Option<bool>,
) -> Option<DispositionFields> {
    let frame = link
        .dispose(info, settled, DeliveryState::Released, false)
        .ok()?;
    let shown = fields(frame.as_ref());
    drop(frame);
    Some(shown)
}

// The disposition of one delivery, released, and what is known of it then.
fn released(
    rt: &(impl Abort + AllocGlobal),
    mode: Option<ReceiverSettleMode>,
) -> (Option<DispositionFields>, Shown) {
    let mut link = link(rt, 1);
    let info = DeliveryInfo::new(7, count_tag(rt, 0), mode);
    let actual = release(&mut link, &info, None);
    let after = known(rt, &link, 0);
    drop(info);
    drop(link);
    (actual, after)
}

#[test]
fn one_is_settled_by_the_mode_of_its_delivery(rt: HostRuntime) {
    let actual = released(&rt, None);
    assert_equal_at(
        &rt,
        &actual,
        &(Some(Some((7, None, true))), Shown::Absent),
        &"of a delivery without one, the link's",
    );
    let actual = released(&rt, SECOND);
    assert_equal(
        &rt,
        &actual,
        &(Some(Some((7, None, false))), Shown::Released),
    );
}

// The reply to the peer's detach: the handle, whether it closes and whether there is an error.
fn answered(link: &ReceiverLink<Target>, error: Error) -> Option<(u32, bool, bool)> {
    let detach = Detach {
        handle: Handle(7),
        closed: true,
        error: Some(error),
    };
    let answer = link.on_incoming_detach(&detach, true);
    drop(detach);
    let reply = answer.ok()??;
    let shown = (reply.handle.0, reply.closed, reply.error.is_some());
    drop(reply);
    Some(shown)
}

#[test]
fn detach_is_answered_at_the_own_handle(rt: HostRuntime) {
    let link = link(&rt, 1).with_output_handle(OutputHandle(3));
    let reply = answered(&link, error(&rt));
    drop(link);
    assert_equal(&rt, &reply, &Some((3, true, true)));
}

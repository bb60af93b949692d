//! A payload in the frames of one delivery.
use crate::assertions::assert_equal;
use amqp_link_split::split::frames;
use amqp_link_types::frame::LinkFrame;
use amqp_link_types::types::{InputHandle, Payload, Transfer};
use std::process::Abort;

// Whether a frame is the first of its delivery, whether more follow, and the length of its piece.
type Shown = Option<(bool, bool, usize)>;

fn shown(frame: Option<&LinkFrame>) -> Shown {
    let frame = frame?;
    let transfer = frame.as_transfer()?;
    let is_first = matches!(frame, LinkFrame::FirstTransfer(_));
    Some((is_first, frame.has_more(), transfer.payload.len()))
}

// How many frames there are, and the first three.
fn all_shown(frames: &[LinkFrame]) -> (usize, [Shown; 3]) {
    let first = [
        shown(frames.first()),
        shown(frames.get(1)),
        shown(frames.get(2)),
    ];
    (frames.len(), first)
}

// The frames of five bytes, two in a frame.
fn frames_of_five(rt: &(impl Abort + AllocGlobal)) -> Vec<LinkFrame> {
    let payload = Payload::copy_from_slice(rt.alloc(), &[1, 2, 3, 4, 5]).expect(rt, "memory");
    let made = frames(rt.alloc(), InputHandle(1), Transfer::default(), &payload, 2);
    drop(payload);
    made.expect(rt, "memory")
}

#[test]
fn five_bytes_by_two_are_three_frames(rt: HostRuntime) {
    let frames = frames_of_five(&rt);
    let shown = all_shown(frames.as_slice());
    drop(frames);
    let wanted = [
        Some((true, true, 2)),
        Some((false, true, 2)),
        Some((false, false, 1)),
    ];
    assert_equal(&rt, &shown, &(3, wanted));
}

//! The checks of what is sent and kept.

ghost use Rattle.std.specs.Prelude.{◌+◌, ◌<◌, ◌≤◌, ◌↔◌, IsSomeAnd, IsTrue};

use crate::stop::{Check, Stop, holds};
use amqp_link_types::frame::{LinkFrame, LinkTransfer};
use amqp_link_types::types::{Attach, DeliveryTag, UnsettledMap};
use amqp_link_values::length::EncodedLen;
use std::alloc::AllocError;

// The header of a frame, without the four bytes of its size in front: the frame limit counts it so.
const HEADER: u64 = 4;

// Whether a performative of this length fits a frame with a payload of that one.
fn fits(performative: Option<u64>, payload: usize, limit: u32) -> bool
    ensures { IsTrue result ↔ IsSomeAnd performative (λ len. HEADER + len + payload ≤ limit) }
{
    let Some(performative) = performative else {
        return false;
    };
    let frame = HEADER
        .saturating_add(performative)
        .saturating_add(payload as u64);
    frame <= u64::from(limit)
}

// Whether a transfer states rightly that others of its delivery follow it.
fn states_following(has_more: bool, following: usize) -> bool
    ensures { IsTrue result ↔ (IsTrue has_more ↔ (0 < following)) }
{
    has_more == (following != 0)
}

// The length of a first transfer as a session writes it, with any delivery-id.
fn named_len(first: &LinkTransfer) -> Result<Option<u64>, AllocError> {
    let mut named = first.performative.clone()?;
    named.delivery_id = Some(u32::MAX);
    let len = named.encoded_len();
    drop(named);
    Ok(len)
}

// Whether a frame fits the limit, if it is one that can be cut to fit.
fn frame_fits(frame: &LinkFrame, limit: u32) -> Result<bool, AllocError> {
    let (len, payload) = match frame {
        LinkFrame::Attach(attach) => (attach.encoded_len(), 0),
        LinkFrame::FirstTransfer(sent) => (named_len(sent)?, sent.payload.len()),
        LinkFrame::TransferContinuation(sent) => {
            (sent.performative.encoded_len(), sent.payload.len())
        }
        _ => return Ok(true),
    };
    Ok(fits(len, payload, limit))
}

/// Checks an attach that is sent: it fits, and states no delivery twice.
pub fn check_attach(frame: &LinkFrame, limit: u32) -> Result<(), Stop> {
    holds(Check::FrameFits, frame_fits(frame, limit)?)?;
    match frame {
        LinkFrame::Attach(attach) => holds(Check::TagsOfAttach, states_once(attach)),
        _ => Ok(()),
    }
}

fn states_once(attach: &Attach) -> bool {
    match &attach.unsettled {
        Some(unsettled) => are_distinct(unsettled),
        None => true,
    }
}

/// Checks the transfers of one call, which are those of one delivery: each fits, and all but the last have `more`.
pub fn check_transfers(frames: &[LinkFrame], limit: u32) -> Result<(), Stop> {
    let mut following = frames.len();
    for frame in frames {
        let is_first = following == frames.len();
        following = following.saturating_sub(1);
        holds(Check::FrameFits, frame_fits(frame, limit)?)?;
        holds(
            Check::MoreFollows,
            states_following(frame.has_more(), following),
        )?;
        holds(Check::MoreFollows, is_first == names_delivery(frame))?;
    }
    Ok(())
}

// Whether a frame is the first transfer of a delivery, with its tag.
fn names_delivery(frame: &LinkFrame) -> bool {
    match frame {
        LinkFrame::FirstTransfer(first) => first.performative.delivery_tag.is_some(),
        _ => false,
    }
}

// How often a tag is in a map.
fn count_of<V>(map: &UnsettledMap<V>, tag: &DeliveryTag) -> usize {
    let mut count: usize = 0;
    for (other, _) in map.pairs() {
        if other == tag {
            count = count.saturating_add(1);
        }
    }
    count
}

/// Whether no tag is twice in a map, and each is found there.
pub fn are_distinct<V>(map: &UnsettledMap<V>) -> bool {
    for (tag, _) in map.pairs() {
        if count_of(map, tag) != 1 || !map.contains(tag) {
            return false;
        }
    }
    true
}

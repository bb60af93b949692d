//! The attach that is sent carries as many of its unsettled deliveries as fit in a frame (2.6.3 and
//! 2.7.3).
//!
//! Their number is halved until the attach fits, and the map is marked as incomplete if it is halved at all.
ghost use Rattle.std.specs.Prelude.{◌≡◌, ◌↔◌, true, IsTrue, IfOk, IfSome, IfNone, take, option_map};
ghost use Rattle.amqp_link_types.specs.declared.frame.LinkFrame.TheVariants as frame;
ghost use Rattle.amqp_link_endpoint.specs.Attaching.{with_entries, FitsFrame, NeverFitsFrame, IsDivided};

use amqp_link_types::frame::LinkFrame;
use amqp_link_types::types::{Attach, Boxed, DeliveryState, UnsettledMap};
use amqp_link_values::length::EncodedLen;
use std::alloc::{AllocError, Global};

/// Whether the attach fits a frame of at most `max_frame_size` bytes, of which four are the frame's header.
/// Does not allocate.
pub fn fits(attach: &Attach, max_frame_size: u32) -> bool
    ensures { IsTrue result ↔ FitsFrame attach.now max_frame_size }
{
    let limit = u64::from(max_frame_size);
    match attach.encoded_len() {
        Some(len) => len <= limit && 4 + len <= limit,
        None => false,
    }
}

/// Whether the attach, with all of these entries and not marked incomplete, fits a frame of at most
/// `max_frame_size` bytes. The unsettled map that the attach has already is ignored. Does not allocate.
pub fn fits_whole(
    attach: Attach,
    entries: UnsettledMap<Option<DeliveryState>>,
    max_frame_size: u32,
) -> bool
    ensures { IsTrue result ↔ FitsFrame (with_entries attach entries 0) max_frame_size }
{
    let whole = with_all(attach, entries);
    let is_within = fits(&whole, max_frame_size);
    drop(whole);
    is_within
}

/// The attach with the first of the entries: their number is halved, rounded down, as few times as needed for
/// the attach to fit a frame of at most `max_frame_size` bytes. None if no number of halvings is enough.
///
/// The attach is marked incomplete if the entries are halved at all. Its map is null if there were no entries
/// to begin with, and empty if none is left. The unsettled map that the attach has already is ignored. Does
/// not allocate.
pub fn divided(
    attach: Attach,
    entries: UnsettledMap<Option<DeliveryState>>,
    max_frame_size: u32,
) -> Option<Attach>
    ensures sent { IfSome result (λ sent. IsDivided attach entries max_frame_size sent) }
    ensures none { IfNone result (NeverFitsFrame attach entries max_frame_size) }
{
    let mut count = entries.len();
    let mut sent = with_all(attach, entries);
    while !fits(&sent, max_frame_size) {
        if count == 0 {
            drop(sent);
            return None;
        }
        count /= 2;
        keep_entries(&mut sent, count);
    }
    Some(sent)
}

/// The frame of an attach.
pub fn attach_frame(alloc: Global, attach: Attach) -> Result<LinkFrame, AllocError>
    ensures { IfOk result (λ sent. sent ≡ frame.Attach attach) }
{
    Ok(LinkFrame::Attach(Boxed::new(alloc, attach)?))
}

// With all entries and unmarked; without a map if there are none.
fn with_all(attach: Attach, entries: UnsettledMap<Option<DeliveryState>>) -> Attach
    ensures { result ≡ with_entries attach entries 0 }
{
    let mut attach = attach;
    attach.incomplete_unsettled = false;
    attach.unsettled = if entries.len() == 0 {
        None
    } else {
        Some(entries)
    };
    attach
}

// Keeps the first `count` entries of the map that is there, and marks it.
fn keep_entries(attach: &mut Attach, count: usize)
    ensures { attach.new ≡ record attach.old {
      unsettled = option_map (take count) attach.old.unsettled;
      incomplete_unsettled = true;
    } }
{
    attach.incomplete_unsettled = true;
    if let Some(entries) = &mut attach.unsettled {
        entries.truncate(count);
    }
}

//! Frames to send, in their order.
ghost use Rattle.std.specs.Prelude.{◌≡◌, None, IfSome, IsSomeAnd, MatchOption, length, option_copied, slice_get};
ghost use Rattle.amqp_link_c.specs.Reading;
ghost use Rattle.amqp_link_c.specs.Reading.{AreCopied, absent_status, description_bytes, detach_at, disposition_at, error_at, error_of, frame_number, tag_bytes, transfer_at};
ghost use Rattle.amqp_link_flat.specs.Flat.{plain_detach, plain_disposition};
ghost use Rattle.amqp_link_flat.specs.Transfers.{plain_transfer};
ghost use Rattle.amqp_link_object.specs.Objects.{value_in};
ghost use Rattle.amqp_link_object.specs.States.{frames_in};

use amqp_link_flat::delivery_state::rejection_error;
use amqp_link_flat::detach::Detach;
use amqp_link_flat::disposition::Disposition;
use amqp_link_flat::status::{BUFFER_TOO_SMALL, EMPTY, NO_SUCH_ENTRY, OK, Status};
use amqp_link_flat::transfer::Transfer;
use amqp_link_object::{Object, State};
use amqp_link_types::frame::{LinkFrame, LinkTransfer};
use amqp_link_types::types::Error;
use std::alloc::Global;

/// An attach. No call gives one: an attach has an object of its own.
pub const FRAME_ATTACH: u32 = 1;
/// A flow. No call gives one: a flow is written to a struct.
pub const FRAME_FLOW: u32 = 2;
/// The first transfer of a delivery: the session gives it a delivery id.
pub const FRAME_FIRST_TRANSFER: u32 = 3;
/// A further transfer of a delivery.
pub const FRAME_TRANSFER: u32 = 4;
/// A disposition.
pub const FRAME_DISPOSITION: u32 = 5;
/// A detach.
pub const FRAME_DETACH: u32 = 6;

/// How many bytes of each kind a call has, or needs room for.
#[repr(C)]
#[derive(Drop)]
pub struct Sizes {
    /// Of the first text or tag.
    pub first: usize,
    /// Of the second text, or of the payload.
    pub second: usize,
}

fn kind_of(frame: &LinkFrame) -> u32
    ensures { result ≡ frame_number frame.now }
{
    match frame {
        LinkFrame::Attach(_) => FRAME_ATTACH,
        LinkFrame::Flow(_) => FRAME_FLOW,
        LinkFrame::FirstTransfer(_) => FRAME_FIRST_TRANSFER,
        LinkFrame::RemoteTransfer(_) | LinkFrame::TransferContinuation(_) => FRAME_TRANSFER,
        LinkFrame::Disposition(_) => FRAME_DISPOSITION,
        LinkFrame::Detach(_) => FRAME_DETACH,
    }
}

/// How many frames there are; 0 of an object of another kind.
#[unsafe(no_mangle)]
pub extern "C" fn amqp_frames_count(alloc: Global, frames: &mut Object) -> usize
    ensures count { result ≡ length (frames_in (value_in frames.old)) }
    ensures left { value_in frames.new ≡ value_in frames.old }
{
    let Some(state) = frames.take(alloc) else {
        return 0;
    };
    let count = state.frames().len();
    frames.put(state);
    count
}

/// The kind of a frame, counted from 0: `AMQP_FRAME_ATTACH` and so on.
#[unsafe(no_mangle)]
pub extern "C" fn amqp_frames_kind(
    alloc: Global,
    frames: &mut Object,
    number: usize,
    kind: &mut u32,
) -> Status
    ensures kind { MatchOption (slice_get (frames_in (value_in frames.old)) number)
        ((result ≡ absent_status (value_in frames.old)) × (kind.new ≡ kind.old))
        (λ frame. (result ≡ 0) × (kind.new ≡ frame_number frame)) }
    ensures left { value_in frames.new ≡ value_in frames.old }
{
    let Some(state) = frames.take(alloc) else {
        return EMPTY;
    };
    let status = match state.frames().get(number) {
        Some(frame) => {
            *kind = kind_of(frame);
            OK
        }
        None => NO_SUCH_ENTRY,
    };
    frames.put(state);
    status
}

// Copies out two runs of bytes if there is room for both, and says their sizes.
pub(crate) fn copy_both(
    first: &[u8],
    first_room: &mut [u8],
    second: &[u8],
    second_room: &mut [u8],
    sizes: &mut Sizes,
) -> u32
    ensures { AreCopied first.now second.now first_room.old first_room.new second_room.old second_room.new sizes.new result }
{
    *sizes = Sizes {
        first: first.len(),
        second: second.len(),
    };
    if first_room.len() < first.len() || second_room.len() < second.len() {
        return BUFFER_TOO_SMALL;
    }
    first_room[..first.len()].copy_from_slice(first);
    second_room[..second.len()].copy_from_slice(second);
    OK
}

// Copies a transfer's tag and payload out.
fn copy_transfer(sent: &LinkTransfer, tag: &mut [u8], payload: &mut [u8], sizes: &mut Sizes) -> u32
    ensures { AreCopied (Reading.tag_bytes sent.now) sent.now.payload tag.old tag.new payload.old payload.new sizes.new result }
{
    let tag_bytes = match &sent.performative.delivery_tag {
        Some(tag) => tag.as_bytes(),
        None => &[],
    };
    copy_both(tag_bytes, tag, sent.payload.as_slice(), payload, sizes)
}

/// The transfer in a frame, with its tag and its payload, which is shorter than the link's frame limit. `sizes` says how long those
/// are. If one of the buffers is too small, nothing but `sizes` is written.
#[unsafe(no_mangle)]
pub extern "C" fn amqp_frames_transfer(
    alloc: Global,
    frames: &mut Object,
    number: usize,
    transfer: &mut Transfer,
    tag: &mut [u8],
    payload: &mut [u8],
    sizes: &mut Sizes,
) -> Status
    ensures absent { transfer_at number (value_in frames.old) ≡ None
        → (result ≡ absent_status (value_in frames.old)) × (tag.new ≡ tag.old) × (payload.new ≡ payload.old)
        × (sizes.new ≡ sizes.old) }
    ensures copied { IfSome (transfer_at number (value_in frames.old)) (λ sent.
        AreCopied (tag_bytes sent) sent.payload tag.old tag.new payload.old payload.new sizes.new result) }
    ensures transfer { result ≡ 0 → IsSomeAnd (transfer_at number (value_in frames.old)) (λ sent.
        transfer.new ≡ plain_transfer sent) }
    ensures unwritten { (result ≡ 0 → ⊥) → transfer.new ≡ transfer.old }
    ensures left { value_in frames.new ≡ value_in frames.old }
{
    let Some(state) = frames.take(alloc) else {
        return EMPTY;
    };
    let sent = match state.frames().get(number) {
        Some(frame) => frame.as_transfer(),
        None => None,
    };
    let status = match sent {
        Some(sent) => {
            let status = copy_transfer(sent, tag, payload, sizes);
            if status == OK {
                *transfer = Transfer::of(sent);
            }
            status
        }
        None => NO_SUCH_ENTRY,
    };
    frames.put(state);
    status
}

/// The disposition in a frame. The error of a rejection is read by `amqp_frames_error`.
#[unsafe(no_mangle)]
pub extern "C" fn amqp_frames_disposition(
    alloc: Global,
    frames: &mut Object,
    number: usize,
    disposition: &mut Disposition,
) -> Status
    ensures disposition { MatchOption (disposition_at number (value_in frames.old))
        ((result ≡ absent_status (value_in frames.old)) × (disposition.new ≡ disposition.old))
        (λ sent. (result ≡ 0) × (disposition.new ≡ plain_disposition sent)) }
    ensures left { value_in frames.new ≡ value_in frames.old }
{
    let Some(state) = frames.take(alloc) else {
        return EMPTY;
    };
    let status = match state.frames().get(number) {
        Some(LinkFrame::Disposition(sent)) => {
            *disposition = Disposition::of(sent);
            OK
        }
        _ => NO_SUCH_ENTRY,
    };
    frames.put(state);
    status
}

/// The detach in a frame. Its error is read by `amqp_frames_error`.
#[unsafe(no_mangle)]
pub extern "C" fn amqp_frames_detach(
    alloc: Global,
    frames: &mut Object,
    number: usize,
    detach: &mut Detach,
) -> Status
    ensures detach { MatchOption (detach_at number (value_in frames.old))
        ((result ≡ absent_status (value_in frames.old)) × (detach.new ≡ detach.old))
        (λ sent. (result ≡ 0) × (detach.new ≡ plain_detach sent)) }
    ensures left { value_in frames.new ≡ value_in frames.old }
{
    let Some(state) = frames.take(alloc) else {
        return EMPTY;
    };
    let status = match state.frames().get(number) {
        Some(LinkFrame::Detach(sent)) => {
            *detach = Detach::of(sent);
            OK
        }
        _ => NO_SUCH_ENTRY,
    };
    frames.put(state);
    status
}

// Copies the texts of an error out.
pub(crate) fn copy_error(
    error: &Error,
    condition: &mut [u8],
    description: &mut [u8],
    sizes: &mut Sizes,
) -> u32
    ensures { AreCopied error.now.condition (description_bytes error.now) condition.old condition.new
        description.old description.new sizes.new result }
{
    let words = match &error.description {
        Some(words) => words.as_str().as_bytes(),
        None => &[],
    };
    copy_both(
        error.condition.as_str().as_bytes(),
        condition,
        words,
        description,
        sizes,
    )
}

// The error that a frame carries, if it is a detach with one or the disposition of a rejection with one.
fn error_in(frame: &LinkFrame) -> Option<&Error>
    ensures { option_copied result ≡ error_of frame.now }
{
    match frame {
        LinkFrame::Detach(detach) => detach.error.as_ref(),
        LinkFrame::Disposition(disposition) => match &disposition.state {
            Some(state) => rejection_error(state),
            None => None,
        },
        _ => None,
    }
}

/// The condition and the description of the error that the detach or the disposition in a frame carries. `sizes` says how
/// long they are.
#[unsafe(no_mangle)]
pub extern "C" fn amqp_frames_error(
    alloc: Global,
    frames: &mut Object,
    number: usize,
    condition: &mut [u8],
    description: &mut [u8],
    sizes: &mut Sizes,
) -> Status
    ensures absent { error_at number (value_in frames.old) ≡ None → (result ≡ absent_status (value_in frames.old))
        × (condition.new ≡ condition.old) × (description.new ≡ description.old) × (sizes.new ≡ sizes.old) }
    ensures copied { IfSome (error_at number (value_in frames.old)) (λ error.
        AreCopied error.condition (description_bytes error) condition.old condition.new
        description.old description.new sizes.new result) }
    ensures left { value_in frames.new ≡ value_in frames.old }
{
    let Some(state) = frames.take(alloc) else {
        return EMPTY;
    };
    let error = match state.frames().get(number) {
        Some(frame) => error_in(frame),
        None => None,
    };
    let status = match error {
        Some(error) => copy_error(error, condition, description, sizes),
        None => NO_SUCH_ENTRY,
    };
    frames.put(state);
    status
}

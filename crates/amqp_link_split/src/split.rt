//! A payload cut into the frames of one delivery (2.7.5).
ghost use Rattle.std.specs.Prelude.{◌≡◌, ◌<◌, length, map, IfOk};
ghost use Rattle.amqp_link_types.specs.Frames.{cleared, payload_of, AreFramesOf};
ghost use Rattle.amqp_link_split.specs.Split.{IsSplit, IsFewestPieces};

use amqp_link_types::frame::{LinkFrame, LinkTransfer, continuation_of};
use amqp_link_types::types::{InputHandle, Payload, Transfer};
use std::alloc::{AllocError, Global};

// The first frame of a delivery: the transfer as it is, with this `more`.
fn first_frame(
    input_handle: InputHandle,
    mut performative: Transfer,
    more: bool,
    payload: Payload,
) -> LinkFrame
    ensures { result ≡ LinkFrame.FirstTransfer (record {
      input_handle = input_handle;
      performative = record performative { more = more };
      payload = payload;
    }) }
{
    performative.more = more;
    LinkFrame::FirstTransfer(LinkTransfer {
        input_handle,
        performative,
        payload,
    })
}

// A further frame of a delivery.
fn further_frame(
    input_handle: InputHandle,
    mut performative: Transfer,
    more: bool,
    payload: Payload,
) -> LinkFrame
    ensures { result ≡ LinkFrame.TransferContinuation (record {
      input_handle = input_handle;
      performative = record performative { more = more };
      payload = payload;
    }) }
{
    performative.more = more;
    LinkFrame::TransferContinuation(LinkTransfer {
        input_handle,
        performative,
        payload,
    })
}

// The frames of a delivery whose payload is cut at `limit` bytes. The pieces share the payload's
// buffer. The first frame takes the transfer itself, so that its tag is not copied.
pub fn frames(
    alloc: Global,
    input_handle: InputHandle,
    transfer: Transfer,
    payload: &Payload,
    limit: usize,
) -> Result<Vec<LinkFrame>, AllocError>
    requires { 0 < length payload.now → 0 < limit }
    ensures split { IfOk result (λ frames. IsSplit payload.now limit (map payload_of frames.items)) }
    ensures each { IfOk result (λ frames. AreFramesOf input_handle transfer frames.items) }
    ensures fewest { IfOk result (λ frames. IsFewestPieces payload.now limit (length frames.items)) }
{
    let mut frames = Vec::new(alloc);
    let mut rest = payload.clone()?;
    if rest.len() <= limit {
        frames.push(first_frame(input_handle, transfer, false, rest))?;
        return Ok(frames);
    }
    let further = continuation_of(&transfer)?;
    let front = rest.split_to(limit)?;
    frames.push(first_frame(input_handle, transfer, true, front))?;
    while rest.len() > limit {
        let piece = rest.split_to(limit)?;
        frames.push(further_frame(input_handle, further.clone()?, true, piece))?;
    }
    frames.push(further_frame(input_handle, further, false, rest))?;
    Ok(frames)
}

//! What is held of a delivery as its transfers arrive (2.7.5).
ghost use Rattle.std.specs.Prelude.{◌≡◌, not, None, Some, IfOk, OnOk, OnErr, IsSome};
ghost use Rattle.amqp_link_types.specs.Frames.{link_transfer, payload_of, performative_of};
ghost use Rattle.amqp_link_types.specs.declared.types.definitions.ReceiverSettleMode.TheVariants.{First};
ghost use Rattle.amqp_link_worlds.specs.Receiving.{CanReceive, transfer_arriving};
ghost use Rattle.amqp_link_worlds.specs.Steps.{held_after};
ghost use Rattle.amqp_link_worlds.specs.Wires.{does_begin};

use amqp_link_core::incomplete_transfer::IncompleteTransfer;
use amqp_link_receiver::receiver_link::ReceiverLink;
use amqp_link_types::frame::LinkFrame;
use amqp_link_types::types::{DeliveryNumber, Payload, ReceiverTransferError, Target, Transfer};
use std::alloc::{AllocError, Global};

// The error of an arrival, which is refused only if it is out of memory.
fn out_of_memory(error: ReceiverTransferError) -> AllocError
    requires { error ≡ ReceiverTransferError.OutOfMemory }
{
    drop(error);
    AllocError
}

// A copy of a transfer with its payload, as the session passes it on: a first one has this id.
fn arriving(frame: &LinkFrame, id: DeliveryNumber) -> Result<(Transfer, Payload), AllocError>
    requires { IsSome (link_transfer frame.now) }
    ensures transfer { IfOk result (λ came. came.0 ≡ transfer_arriving id frame.now) }
    ensures payload { IfOk result (λ came. came.1 ≡ payload_of frame.now) }
{
    let Some(sent) = frame.as_transfer() else {
        unreachable!()
    };
    let payload = sent.payload.clone()?;
    let mut transfer = sent.performative.clone()?;
    if matches!(frame, LinkFrame::FirstTransfer(_)) {
        transfer.delivery_id = Some(id);
    }
    Ok((transfer, payload))
}

/// Begins a delivery with its first transfer, which has this id. Refused only if it is out of memory.
pub fn begin(
    alloc: Global,
    frame: &LinkFrame,
    id: DeliveryNumber,
) -> Result<IncompleteTransfer, AllocError>
    requires { CanReceive None id frame.now }
    ensures { IfOk result (λ held. held ≡ held_after None id frame.now) }
{
    let (transfer, payload) = arriving(frame, id)?;
    IncompleteTransfer::start(alloc, transfer, payload).map_err(out_of_memory)
}

/// Adds a further transfer to a delivery, by whether it begins one in this attachment; if so, it has this id.
/// Refused only if it is out of memory, with nothing changed.
pub fn go_on(
    held: &mut IncompleteTransfer,
    begins_delivery: bool,
    frame: &LinkFrame,
    id: DeliveryNumber,
) -> Result<(), AllocError>
    requires can { CanReceive (Some held.old) id frame.now }
    requires turn { does_begin frame.now ≡ begins_delivery }
    ensures ok { OnOk result (held.new ≡ held_after (Some held.old) id frame.now) }
    ensures left { OnErr result (held.new ≡ held.old) }
{
    let (transfer, payload) = arriving(frame, id)?;
    held.try_add(begins_delivery, transfer, payload)
        .map_err(out_of_memory)
}

/// Whether a frame is a transfer that aborts its delivery.
pub fn is_aborted(frame: &LinkFrame) -> bool
    ensures { result ≡ (performative_of frame.now).aborted }
{
    match frame.as_transfer() {
        Some(transfer) => transfer.performative.aborted,
        None => false,
    }
}

/// The receiver takes a transfer off its session, and notes whether more is to come of its delivery. A receiver that
/// settles at once gives its session no id to keep, so that this does not allocate.
pub fn take_off(receiver: &mut ReceiverLink<Target>, frame: LinkFrame)
    requires mode { receiver.old.rcv_settle_mode ≡ First }
    requires transfer { IsSome (link_transfer frame) }
    ensures { receiver.new ≡ record receiver.old { more = (performative_of frame).more } }
{
    let (LinkFrame::RemoteTransfer(sent)
    | LinkFrame::FirstTransfer(sent)
    | LinkFrame::TransferContinuation(sent)) = frame
    else {
        unreachable!()
    };
    drop(receiver.on_incoming_transfer(sent.performative, sent.payload));
}

//! The shortest callers: one sends a delivery, one receives a delivery of a single transfer and accepts it. They leave
//! out what `client` and `broker` do: the answer to a refused attach, a flow to send back, a delivery of several
//! transfers, one that is aborted or resumed.
ghost use Rattle.std.specs.Prelude.{◌≡◌, ◌↔◌, true, false, map, None, Some, IfOk, IfErr, IfSome, IsErrOf, OnOk, OnErr};
ghost use Rattle.std.specs.List.{concat};
ghost use Rattle.amqp_link.specs.Frames.{payload_of};
ghost use Rattle.amqp_link.specs.IncompleteRefusals.{start_tests};
ghost use Rattle.amqp_link.specs.Keeping.{after_one, disposition_of_one};
ghost use Rattle.amqp_link.specs.SenderAttaches.{sender_refusal};
ghost use Rattle.amqp_link.specs.Senders.{delivery_of, payload_tests};
ghost use Rattle.amqp_link.specs.Targets.{plain_target};
ghost use Rattle.amqp_link.specs.Termini.{sender_refuses_target};
ghost use Rattle.amqp_link_uses.specs.Shorts;
ghost use Rattle.amqp_link_uses.specs.Shorts.{CompletesOrRefuses, ReceivesOrRefuses, SendsOneOrRefuses, came, hand_out_refusal, of_one_transfer, ready_to_send};

use amqp_link::errors::{
    DispositionError, LinkStateError, ReceiverTransferError, SenderAttachError,
};
use amqp_link::types::{Attach, LinkFlow, Target, Transfer};
use amqp_link::{
    Delivery, DeliveryInfo, DeliveryState, IncompleteTransfer, LinkAttach, LinkFrame, Payload,
    ReceiverLink, SenderLink, Sending, Waiting, Whole,
};
use std::alloc::Global;

/// Why `send_one` sends nothing.
#[derive(Debug, Drop)]
pub enum SendOneError {
    /// The link refuses the receiver's attach: `handle_attach_error` has what to do.
    Attach(SenderAttachError),
    /// It refuses the payload.
    Send(LinkStateError),
}

/// Takes the receiver's attach and its flow at a sender whose own attach was sent, and sends a payload: its transfers, or
/// nothing without credit.
///
/// Refused as `on_incoming_attach` is, then as `send_payload` is.
pub fn send_one(
    link: &mut SenderLink<Target>,
    theirs: Attach,
    flow: LinkFlow,
    payload: &Payload,
) -> Result<Option<Vec<LinkFrame>>, SendOneError>
    ensures sent { IfOk result (λ sent. IfSome sent (λ frames.
        concat (map payload_of frames.items) ≡ payload.now)) }
    ensures refused { SendsOneOrRefuses result (sender_refusal plain_target
        (λ own theirs. sender_refuses_target theirs) link.old theirs)
        (payload_tests (ready_to_send theirs flow link.old) (delivery_of 0 None None false) payload.now) }
{
    match link.on_incoming_attach(theirs) {
        Ok(exchange) => drop(exchange), // nothing to resume on a new link
        Err(refused) => {
            drop(flow);
            return Err(SendOneError::Attach(refused));
        }
    }
    drop(link.on_incoming_flow(flow)); // it grants credit; a client sends the flow that this returns
    match link.send_payload(Waiting::Nothing, payload, 0, None, None, false) {
        Ok(Sending::Sent { settlement, frames }) => {
            drop(settlement); // the tag under which the outcome comes
            Ok(Some(frames))
        }
        Ok(Sending::CreditMissing) => Ok(None), // wait for the next flow
        Err(refused) => Err(SendOneError::Send(refused)),
    }
}

/// Why `receive_one` returns no delivery.
#[derive(Debug, Drop)]
pub enum ReceiveOneError {
    /// The transfer is no whole delivery: it has `more`, `aborted` or `resume` set, or it continues the delivery that is
    /// under way.
    NotWhole,
    /// The link refuses it.
    Transfer(ReceiverTransferError),
}

/// Takes a delivery of one transfer off the session.
///
/// Refused with `NotWhole`, and nothing changed, if the transfer is no whole delivery; then as
/// `IncompleteTransfer::start` and `on_complete_transfer` are.
pub fn receive_one(
    alloc: Global,
    link: &mut ReceiverLink<Target>,
    transfer: Transfer,
    payload: Payload,
) -> Result<Delivery<Whole>, ReceiveOneError>
    ensures whole { IfOk result (λ delivery. delivery.message.body.0 ≡ payload) }
    ensures not_whole { IsErrOf result ReceiveOneError.NotWhole ↔ (Shorts.is_whole link.old transfer ≡ false) }
    ensures left { IsErrOf result ReceiveOneError.NotWhole → link.new ≡ link.old }
    ensures refused { ReceivesOrRefuses result (start_tests transfer payload)
        (hand_out_refusal (came transfer link.old) (of_one_transfer transfer payload)) link.new }
{
    if !is_whole(link, &transfer) {
        drop((transfer, payload));
        return Err(ReceiveOneError::NotWhole);
    }
    match receive_whole(alloc, link, transfer, payload) {
        Ok(delivery) => Ok(delivery),
        Err(refused) => Err(ReceiveOneError::Transfer(refused)),
    }
}

// Whether a transfer is a whole delivery.
fn is_whole(link: &ReceiverLink<Target>, transfer: &Transfer) -> bool
    ensures { result ≡ Shorts.is_whole link.now transfer.now }
{
    link.begins_delivery() && !transfer.more && !transfer.aborted && !transfer.resume
}

fn receive_whole(
    alloc: Global,
    link: &mut ReceiverLink<Target>,
    transfer: Transfer,
    payload: Payload,
) -> Result<Delivery<Whole>, ReceiverTransferError>
    requires { Shorts.is_whole link.old transfer ≡ true }
    ensures whole { IfOk result (λ delivery. delivery.message.body.0 ≡ payload) }
    ensures refused { CompletesOrRefuses result (start_tests transfer payload)
        (hand_out_refusal (came transfer link.old) (of_one_transfer transfer payload)) link.new }
{
    let Ok((frame, entry)) = link.on_incoming_transfer(transfer, payload) else {
        return Err(ReceiverTransferError::OutOfMemory);
    };
    drop(entry); // what the session needs to map ids to tags
    let held = match frame {
        LinkFrame::RemoteTransfer(arrived) => {
            IncompleteTransfer::start(alloc, arrived.performative, arrived.payload)?
        }
        _ => unreachable!(),
    };
    let (number, offset) = held.position();
    let delivery = link.on_complete_transfer(held.performative(), held.pieces(), number, offset);
    drop(held);
    delivery
}

/// Accepts and settles a delivery: the disposition to send. Refused only if it is out of memory, with nothing changed.
pub fn accept(
    link: &mut ReceiverLink<Target>,
    delivery: &Delivery<Whole>,
) -> Result<Option<LinkFrame>, DispositionError>
    ensures frame { IfOk result (λ frame. frame ≡ disposition_of_one (Some true) link.old.rcv_settle_mode DeliveryState.Accepted false
        delivery.now.info link.old.unsettled) }
    ensures after { OnOk result (link.new ≡ record link.old {
      unsettled = after_one true DeliveryState.Accepted delivery.now.info.delivery_tag link.old.unsettled;
    }) }
    ensures refused { IfErr result (λ error. error ≡ DispositionError.OutOfMemory) }
    ensures left { OnErr result (link.new ≡ link.old) }
{
    let info = DeliveryInfo::of(delivery)?;
    let accepted = link.dispose(&info, Some(true), DeliveryState::Accepted, false);
    drop(info);
    accepted
}

//! What the sender of a pair sends and registers: new deliveries, and the rests of those that are resumed
//! (2.6.13, 2.7.5).
ghost use Rattle.std.specs.Prelude.{◌≡◌, ◌∷◌, [], true, None, Some, false, IfOk, IfErr, IsSome, OnOk, OnErr};
ghost use Rattle.amqp_link_types.specs.Entries.{entry_at};
ghost use Rattle.amqp_link_types.specs.Refusals.{refusal};
ghost use Rattle.amqp_link_types.specs.declared.delivery.UnsettledMessage.{UnsettledMessage as TheUnsettledMessage};
ghost use Rattle.amqp_link_types.specs.declared.types.definitions.SenderSettleMode.TheVariants.{Mixed};
ghost use Rattle.amqp_link_split.specs.Fitting.{IsFitting};
ghost use Rattle.amqp_link_split.specs.Room.{has_room};
ghost use Rattle.amqp_link_sender.specs.Senders.{abort_frame, abort_transfer, IsSent, new_entry, unsettled_transfer_tests};
ghost use Rattle.amqp_link_sender.specs.Senders;
ghost use Rattle.amqp_link_worlds.specs.Callable.{CanSend};
ghost use Rattle.amqp_link_worlds.specs.Resumptions.{entry_of, resumes};
ghost use Rattle.amqp_link_worlds.specs.Resumptions;
ghost use Rattle.amqp_link_worlds.specs.Steps.{after_registration, after_one_credit, delivery_transfer};
ghost use Rattle.amqp_link_pair.specs.Queues.{handed_back_as, IsMadeOf};

use crate::resuming::{put_together, taken_apart};
use amqp_link_core::resumption::ResumingDelivery;
use amqp_link_endpoint::endpoint::LinkExt;
use amqp_link_ledger::ledger::OutcomeLedger;
use amqp_link_sender::sender_link::{SenderLink, Sending, Waiting};
use amqp_link_types::delivery::{Settlement, UnsettledMessage};
use amqp_link_types::frame::LinkFrame;
use amqp_link_types::types::{
    DeliveryTag, LinkStateError, MessageFormat, Payload, Target, Transfer,
};
use std::alloc::{AllocError, Global};

// The tag of the next delivery.
pub(crate) fn next_tag(
    alloc: Global,
    ledger: &OutcomeLedger<Target>,
) -> Result<DeliveryTag, AllocError>
    ensures { IfOk result (λ tag. tag ≡ Senders.next_tag ledger.now.link) }
{
    let count = ledger.flow_state().delivery_count();
    DeliveryTag::copied(alloc, count.to_be_bytes().as_slice())
}

// The error of a sender that refuses only if it is out of memory.
fn out_of_memory(error: LinkStateError) -> AllocError
    requires { error ≡ LinkStateError.OutOfMemory }
{
    drop(error);
    AllocError
}

// Sends a payload as an unsettled delivery. Returns its tag and its frames.
pub(crate) fn send_unsettled(
    ledger: &mut OutcomeLedger<Target>,
    payload: &Payload,
) -> Result<(DeliveryTag, Vec<LinkFrame>), AllocError>
    requires { CanSend ledger.old.link }
    ensures tag { IfOk result (λ sent. sent.0 ≡ Senders.next_tag ledger.old.link) }
    ensures framed { IfOk result (λ sent. IsSent ledger.old.link
        (delivery_transfer (Senders.next_tag ledger.old.link) false) payload.now sent.1.items) }
    ensures fits { IfOk result (λ sent. IsFitting
        (delivery_transfer (Senders.next_tag ledger.old.link) false) ledger.old.link.max_frame_size
        payload.now sent.1.items) }
    ensures done { OnOk result (ledger.new ≡ after_registration (after_one_credit ledger.old)
        (Senders.next_tag ledger.old.link) (new_entry 0 payload.now)) }
    ensures left { OnErr result (ledger.new ≡ ledger.old) }
{
    match ledger.send_payload(Waiting::Nothing, payload, 0, Some(false), None, false) {
        Ok(Sending::Sent { settlement, frames }) => match settlement {
            Settlement::Unsettled(tag) => Ok((tag, frames)),
            Settlement::Settled(_) => unreachable!(),
        },
        Ok(Sending::CreditMissing) => unreachable!(),
        Err(error) => Err(out_of_memory(error)),
    }
}

// The transfer, the rest and the tag with which the next delivery is resumed: all that allocates before the
// sender is called.
#[derive(Drop)]
pub(crate) struct Resumption {
    transfer: Transfer,
    rest: Payload,
    tag: DeliveryTag,
}

// Whether a delivery is resumed, and not sent again.
pub(crate) fn is_resumed(next: &ResumingDelivery) -> bool
    ensures { result ≡ resumes next.now }
{
    matches!(next, ResumingDelivery::Resume { .. })
}

// The bytes that are still to be sent of a delivery.
fn rest_of(next: &ResumingDelivery) -> Result<Payload, AllocError>
    requires { IsSome (Resumptions.rest_of next.now) }
    ensures { IfOk result (λ rest. Resumptions.rest_of next.now ≡ Some rest) }
{
    match next {
        ResumingDelivery::Resend(entry) => entry.payload.clone(),
        ResumingDelivery::Resume { rest, .. } => rest.clone(),
        _ => unreachable!(),
    }
}

// The transfer of a delivery that is resumed or sent again.
fn transfer_of(link: &SenderLink<Target>, tag: DeliveryTag, is_resumed: bool) -> Transfer
    requires output { link.now.output_handle ≡ Some (record { 0 = 0 }) }
    requires mode { link.now.snd_settle_mode ≡ Mixed }
    ensures { result ≡ delivery_transfer tag is_resumed }
{
    let format: MessageFormat = 0;
    let transfer = if is_resumed {
        link.generate_resuming_transfer_performative(tag, format, None, false)
    } else {
        link.generate_non_resuming_transfer_performative(tag, format, Some(false), None, false)
    };
    match transfer {
        Ok(transfer) => transfer,
        Err(_) => unreachable!(),
    }
}

// The transfer that aborts the delivery of this tag, as the frames of a send.
pub(crate) fn abort_frames(
    alloc: Global,
    link: &SenderLink<Target>,
    tag: &DeliveryTag,
) -> Result<Vec<LinkFrame>, AllocError>
    requires output { link.now.output_handle ≡ Some (record { 0 = 0 }) }
    requires input { link.now.input_handle ≡ Some (record { 0 = 0 }) }
    requires free { entry_at link.now.unsettled tag.now ≡ None }
    requires room { has_room (abort_transfer (record { 0 = 0 }) tag.now 0) link.now.max_frame_size [] ≡ true }
    ensures { IfOk result (λ frames.
        frames.items ≡ abort_frame (record { 0 = 0 }) (record { 0 = 0 }) tag.now 0 ∷ []) }
{
    let Ok(frame) = link.send_abort(tag, 0) else {
        return Err(AllocError);
    };
    Ok(vec![in alloc; frame]?)
}

// What a delivery is resumed with, by copies of its tag and of its rest.
pub(crate) fn resumption_of(
    link: &SenderLink<Target>,
    tag: &DeliveryTag,
    next: &ResumingDelivery,
) -> Result<Resumption, AllocError>
    requires output { link.now.output_handle ≡ Some (record { 0 = 0 }) }
    requires mode { link.now.snd_settle_mode ≡ Mixed }
    requires rest { IsSome (Resumptions.rest_of next.now) }
    ensures { IfOk result (λ made. IsMadeOf made tag.now next.now) }
{
    let rest = rest_of(next)?;
    let own = tag.clone()?;
    let transfer = transfer_of(link, tag.clone()?, is_resumed(next));
    Ok(Resumption {
        transfer,
        rest,
        tag: own,
    })
}

// Sends the rest of a delivery, and registers its entry. Returns the frames, or the delivery if it is out of
// memory, with nothing changed.
pub(crate) fn resume(
    ledger: &mut OutcomeLedger<Target>,
    resumption: Resumption,
    next: ResumingDelivery,
) -> Result<Vec<LinkFrame>, ResumingDelivery>
    requires entry { IsSome (entry_of next) }
    requires can { refusal (unsettled_transfer_tests ledger.old.link resumption.transfer
        resumption.tag resumption.rest) ≡ None }
    ensures framed { IfOk result (λ frames.
        IsSent ledger.old.link resumption.transfer resumption.rest frames.items) }
    ensures fits { IfOk result (λ frames. IsFitting
        resumption.transfer ledger.old.link.max_frame_size resumption.rest frames.items) }
    ensures done { (entry : TheUnsettledMessage) → entry_of next ≡ Some entry
        → OnOk result (ledger.new ≡ after_registration ledger.old resumption.tag entry) }
    ensures back { IfErr result (λ back. back ≡ next) }
    ensures left { OnErr result (ledger.new ≡ ledger.old) }
{
    let Resumption {
        transfer,
        rest,
        tag,
    } = resumption;
    let (entry, kept_rest) = taken_apart(next);
    let sent = ledger.send_unsettled_transfer(transfer, &rest, tag, entry);
    drop(rest);
    handed_back(sent, kept_rest)
}

// Registers the entry of a delivery without sending it. Returns the delivery if it is out of memory, with
// nothing changed.
pub(crate) fn put_back(
    ledger: &mut OutcomeLedger<Target>,
    tag: DeliveryTag,
    next: ResumingDelivery,
) -> Result<(), ResumingDelivery>
    requires entry { IsSome (entry_of next) }
    requires free { entry_at ledger.old.link.unsettled tag ≡ None }
    ensures done { (entry : TheUnsettledMessage) → entry_of next ≡ Some entry
        → OnOk result (ledger.new ≡ after_registration ledger.old tag entry) }
    ensures back { IfErr result (λ back. back ≡ next) }
    ensures left { OnErr result (ledger.new ≡ ledger.old) }
{
    let (entry, kept_rest) = taken_apart(next);
    handed_back(ledger.put_back(tag, entry), kept_rest)
}

// Makes the delivery again from the entry that a refused call returns.
fn handed_back<A: Drop>(
    answer: Result<A, (LinkStateError, UnsettledMessage)>,
    rest: Option<Payload>,
) -> Result<A, ResumingDelivery>
    requires { IfErr answer (λ refused. refused.0 ≡ LinkStateError.OutOfMemory) }
    ensures { result ≡ handed_back_as answer rest }
{
    match answer {
        Ok(answer) => {
            drop(rest);
            Ok(answer)
        }
        Err((error, entry)) => {
            drop(error);
            Err(put_together(entry, rest))
        }
    }
}

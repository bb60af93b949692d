//! A delivery is sent again: its rest, or the whole of it (2.6.13).
ghost use Rattle.std.specs.Prelude.{◌≡◌, ◌++◌, List, ℕ, map, false, None, Some, IfOk, OnOk, OnErr, IsSomeAnd};
ghost use Rattle.std.specs.List.{concat};
ghost use Rattle.amqp_link_types.specs.Entries.{with_entry};
ghost use Rattle.amqp_link_types.specs.Frames.{payload_of};
ghost use Rattle.amqp_link_split.specs.Fitting.{IsFitting};
ghost use Rattle.amqp_link_sender.specs.Senders.{IsSent, delivery_of, new_transfer, resuming_transfer};
ghost use Rattle.amqp_link_ledger.specs.Fates.{Change, after};
ghost use Rattle.amqp_link_resuming.specs.SendingAgain.{HandsBackOrOutOfMemory, again_tests, rest_tests};

use amqp_link_endpoint::endpoint::target::LinkTarget;
use amqp_link_ledger::ledger::OutcomeLedger;
use amqp_link_types::delivery::UnsettledMessage;
use amqp_link_types::frame::LinkFrame;
use amqp_link_types::types::{DeliveryTag, LinkStateError, Payload};
use std::alloc::AllocError;

/// Sends the rest of a delivery that is resumed (2.6.13), and registers it again with its whole payload. Returns the
/// transfers to send, in their order. Spends no credit.
///
/// Refused in this order, with nothing changed and the entry returned: `IllegalState` without output handle or input
/// handle; `TagPending`; `NoRoom`. `OutOfMemory` may come before each of these: two copies of the tag are made first,
/// which allocate only for a tag of more than 16 bytes. The caller sends the delivery later, or puts it back under the
/// tag (`OutcomeLedger::put_back`).
///
/// Its cost grows with the number of frames, and not with the number of pending deliveries.
pub fn send_rest<T: LinkTarget>(
    ledger: &mut OutcomeLedger<T>,
    tag: &DeliveryTag,
    entry: UnsettledMessage,
    rest: &Payload,
) -> Result<Vec<LinkFrame>, (LinkStateError, UnsettledMessage)>
    ensures whole { IfOk result (λ frames. (held : List ℕ) → held ++ rest.now ≡ entry.payload
        → held ++ concat (map payload_of frames.items) ≡ entry.payload) }
    ensures resumed { IfOk result (λ frames. IsSomeAnd ledger.old.link.output_handle (λ handle.
        IsSent ledger.old.link (resuming_transfer ledger.old.link handle tag.now
        (delivery_of entry.message_format None None false)) rest.now frames.items)) }
    ensures fits { IfOk result (λ frames. IsSomeAnd ledger.old.link.output_handle (λ handle.
        IsFitting (resuming_transfer ledger.old.link handle tag.now
        (delivery_of entry.message_format None None false)) ledger.old.link.max_frame_size rest.now frames.items)) }
    ensures link { OnOk result (ledger.new.link ≡ record ledger.old.link {
      unsettled = with_entry ledger.old.link.unsettled tag.now entry;
    }) }
    ensures registered { OnOk result (ledger.new.records ≡ after (Change.Enters tag.now) ledger.old.records) }
    ensures refused { HandsBackOrOutOfMemory result entry (rest_tests ledger.old.link tag.now entry rest.now) }
    ensures left { OnErr result (ledger.new ≡ ledger.old) }
{
    let Ok((named, own)) = two_of(tag) else {
        return Err((LinkStateError::OutOfMemory, entry));
    };
    let format = entry.message_format;
    let link = ledger.link();
    match link.generate_resuming_transfer_performative(named, format, None, false) {
        Ok(transfer) => ledger.send_unsettled_transfer(transfer, rest, own, entry),
        Err(refused) => {
            drop(own);
            Err((refused, entry))
        }
    }
}

// Two copies of a tag: one for the transfer, and one under which the delivery is registered.
fn two_of(tag: &DeliveryTag) -> Result<(DeliveryTag, DeliveryTag), AllocError>
    ensures { IfOk result (λ tags. (tags.0 ≡ tag.now) × (tags.1 ≡ tag.now)) }
{
    let named = tag.clone()?;
    match tag.clone() {
        Ok(own) => Ok((named, own)),
        Err(refused) => {
            drop(named);
            Err(refused)
        }
    }
}

/// Sends a delivery again of which the peer has nothing, under the same tag (2.6.13), and registers it again. Returns
/// the transfers to send, in their order. Spends no credit.
///
/// Refused as `send_rest` is, with nothing changed and the entry returned. A copy of the payload's handle is made
/// first, too; its bytes are not copied.
pub fn send_again<T: LinkTarget>(
    ledger: &mut OutcomeLedger<T>,
    tag: &DeliveryTag,
    entry: UnsettledMessage,
) -> Result<Vec<LinkFrame>, (LinkStateError, UnsettledMessage)>
    ensures whole { IfOk result (λ frames. concat (map payload_of frames.items) ≡ entry.payload) }
    ensures sent { IfOk result (λ frames. IsSomeAnd ledger.old.link.output_handle (λ handle.
        IsSent ledger.old.link (new_transfer ledger.old.link handle tag.now
        (delivery_of entry.message_format (Some false) None false)) entry.payload frames.items)) }
    ensures fits { IfOk result (λ frames. IsSomeAnd ledger.old.link.output_handle (λ handle.
        IsFitting (new_transfer ledger.old.link handle tag.now
        (delivery_of entry.message_format (Some false) None false)) ledger.old.link.max_frame_size entry.payload frames.items)) }
    ensures link { OnOk result (ledger.new.link ≡ record ledger.old.link {
      unsettled = with_entry ledger.old.link.unsettled tag.now entry;
    }) }
    ensures registered { OnOk result (ledger.new.records ≡ after (Change.Enters tag.now) ledger.old.records) }
    ensures refused { HandsBackOrOutOfMemory result entry (again_tests ledger.old.link tag.now entry) }
    ensures left { OnErr result (ledger.new ≡ ledger.old) }
{
    let Ok((named, own)) = two_of(tag) else {
        return Err((LinkStateError::OutOfMemory, entry));
    };
    let Ok(whole) = entry.payload.clone() else {
        drop((own, named));
        return Err((LinkStateError::OutOfMemory, entry));
    };
    let format = entry.message_format;
    let link = ledger.link();
    let transfer = link.generate_non_resuming_transfer_performative(
        named,
        format,
        Some(false),
        None,
        false,
    );
    match transfer {
        Ok(transfer) => {
            let sent = ledger.send_unsettled_transfer(transfer, &whole, own, entry);
            drop(whole);
            sent
        }
        Err(refused) => {
            drop((own, whole));
            Err((refused, entry))
        }
    }
}

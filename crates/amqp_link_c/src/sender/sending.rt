//! Payloads that a sender sends as new deliveries (2.7.5).
ghost use Rattle.std.specs.Prelude.{◌≡◌, None, IfErr, IfOk, IfSome, IsSomeAnd, MatchOption, OnErr};
ghost use Rattle.amqp_link_c.specs.Calls.{OfSender, Tested, status_in, wrong_status};
ghost use Rattle.amqp_link_c.specs.SenderCalls.{Sends, send_status};
ghost use Rattle.amqp_link_flat.specs.Numbers.{settled_of};
ghost use Rattle.amqp_link_object.specs.Objects.{value_in};
ghost use Rattle.amqp_link_object.specs.States.{frames_in, sender_in};
ghost use Rattle.amqp_link_sender.specs.Senders.{delivery_of, next_tag, tagged_payload_tests};

use amqp_link_endpoint::endpoint::LinkExt;
use amqp_link_flat::numbers::settled as settled_by;
use amqp_link_flat::status::{
    CREDIT_MISSING, EMPTY, NO_SUCH_NUMBER, OK, OUT_OF_MEMORY, Status, WRONG_KIND, status_of_link,
};
use amqp_link_ledger::ledger::OutcomeLedger;
use amqp_link_object::{Object, Room, State};
use amqp_link_sender::{Sending, Waiting};
use amqp_link_types::frame::LinkFrame;
use amqp_link_types::types::{Payload, Target};
use std::alloc::Global;

// How a payload is sent.
#[derive(Clone, Copy)]
struct How {
    message_format: u32,
    settled: Option<bool>,
    batchable: bool,
}

// Sends a payload as a new delivery.
fn send(
    alloc: Global,
    ledger: &mut OutcomeLedger<Target>,
    tag: &[u8],
    payload: &[u8],
    how: How,
) -> Result<Vec<LinkFrame>, u32>
    ensures sent { IfOk result (λ frames. Sends tag.now
        (delivery_of how.message_format how.settled None how.batchable) payload.now frames.items ledger.old ledger.new) }
    ensures refused { Tested send_status (tagged_payload_tests ledger.old.link tag.now
        (delivery_of how.message_format how.settled None how.batchable) payload.now) (status_in result) }
    ensures status { IfErr result (λ status. status ≡ 0 → ⊥) }
    ensures left { OnErr result (ledger.new ≡ ledger.old) }
{
    let Ok(payload) = Payload::copy_from_slice(alloc, payload) else {
        return Err(OUT_OF_MEMORY);
    };
    let sending = ledger.send_payload_with_tag(
        Waiting::Nothing,
        tag,
        &payload,
        how.message_format,
        how.settled,
        None,
        how.batchable,
    );
    drop(payload);
    match sending {
        Ok(Sending::Sent { settlement, frames }) => {
            drop(settlement);
            Ok(frames)
        }
        Ok(Sending::CreditMissing) => Err(CREDIT_MISSING),
        Err(refused) => Err(status_of_link(refused)),
    }
}

// Sends a payload, and puts the frames into an object.
fn send_into(
    alloc: Global,
    ledger: &mut OutcomeLedger<Target>,
    tag: &[u8],
    payload: &[u8],
    how: How,
    frames: &mut Object,
) -> u32
    ensures sent { result ≡ 0 → Sends tag.now (delivery_of how.message_format how.settled None how.batchable)
        payload.now (frames_in (value_in frames.new)) ledger.old ledger.new }
    ensures refused { Tested send_status (tagged_payload_tests ledger.old.link tag.now
        (delivery_of how.message_format how.settled None how.batchable) payload.now) result }
    ensures left { (result ≡ 0 → ⊥) → (ledger.new ≡ ledger.old) × (value_in frames.new ≡ value_in frames.old) }
{
    let Some(room) = Room::new(alloc) else {
        return OUT_OF_MEMORY;
    };
    match send(alloc, ledger, tag, payload, how) {
        Ok(sent) => {
            frames.fill(room, State::Frames(sent));
            OK
        }
        Err(refused) => {
            drop(room);
            refused
        }
    }
}

/// Sends a payload as a new delivery, for one credit, under the tag of the delivery-count, and puts its frames into `frames`:
/// give the first transfer its delivery id, and keep the tag with it. `settled` is `AMQP_NOT_SETTLED`, `AMQP_SETTLED` or
/// `AMQP_SETTLED_BY_MODE`. An unsettled delivery is the next registration, whose fate `amqp_sender_fate` says: it takes memory
/// until `amqp_sender_release` has released it.
///
/// Refused in this order, with nothing changed: `AMQP_NO_SUCH_NUMBER` of `settled`; `AMQP_ILLEGAL_STATE` without handles;
/// `AMQP_CREDIT_MISSING`; `AMQP_TAG_PENDING`; `AMQP_NO_ROOM`.
#[unsafe(no_mangle)]
pub extern "C" fn amqp_sender_send(
    alloc: Global,
    sender: &mut Object,
    payload: &[u8],
    message_format: u32,
    settled: u32,
    batchable: bool,
    frames: &mut Object,
) -> Status
    ensures kind { sender_in (value_in sender.old) ≡ None → result ≡ wrong_status (value_in sender.old) }
    ensures sent { result ≡ 0 → OfSender sender.old sender.new (λ before after. IsSomeAnd (settled_of settled) (λ given.
        Sends (next_tag before.link) (delivery_of message_format given None batchable) payload.now
        (frames_in (value_in frames.new)) before after)) }
    ensures refused { IfSome (sender_in (value_in sender.old)) (λ before. MatchOption (settled_of settled) (result ≡ 5)
        (λ given. Tested send_status (tagged_payload_tests before.link (next_tag before.link)
        (delivery_of message_format given None batchable) payload.now) result)) }
    ensures left { (result ≡ 0 → ⊥) →
        (value_in sender.new ≡ value_in sender.old) × (value_in frames.new ≡ value_in frames.old) }
{
    with_value!(alloc, sender, Sender, ledger => match settled_by(settled) {
        Some(settled) => {
            let tag = ledger.link().flow_state().delivery_count().to_be_bytes();
            send_into(alloc, ledger, &tag, payload, How { message_format, settled, batchable }, frames)
        }
        None => NO_SUCH_NUMBER,
    })
}

/// The same under this tag. It is not measured: the standard allows 32 bytes (2.8.7). `AMQP_TAG_PENDING` comes only of an
/// unsettled delivery: one that is sent settled may have the tag of a pending one.
#[unsafe(no_mangle)]
pub extern "C" fn amqp_sender_send_with_tag(
    alloc: Global,
    sender: &mut Object,
    tag: &[u8],
    payload: &[u8],
    message_format: u32,
    settled: u32,
    batchable: bool,
    frames: &mut Object,
) -> Status
    ensures kind { sender_in (value_in sender.old) ≡ None → result ≡ wrong_status (value_in sender.old) }
    ensures sent { result ≡ 0 → OfSender sender.old sender.new (λ before after. IsSomeAnd (settled_of settled) (λ given.
        Sends tag.now (delivery_of message_format given None batchable) payload.now
        (frames_in (value_in frames.new)) before after)) }
    ensures refused { IfSome (sender_in (value_in sender.old)) (λ before. MatchOption (settled_of settled) (result ≡ 5)
        (λ given. Tested send_status (tagged_payload_tests before.link tag.now
        (delivery_of message_format given None batchable) payload.now) result)) }
    ensures left { (result ≡ 0 → ⊥) →
        (value_in sender.new ≡ value_in sender.old) × (value_in frames.new ≡ value_in frames.old) }
{
    with_value!(alloc, sender, Sender, ledger => match settled_by(settled) {
        Some(settled) => {
            send_into(alloc, ledger, tag, payload, How { message_format, settled, batchable }, frames)
        }
        None => NO_SUCH_NUMBER,
    })
}

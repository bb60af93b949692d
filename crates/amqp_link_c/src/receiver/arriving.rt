//! Transfers that arrive at a receiver (2.7.5).
ghost use Rattle.std.specs.Prelude.{◌≡◌, ◌⊎◌, ◌≤◌, ◌<◌, None, IfSome, IsSome, IsSomeAnd, MatchOption, length};
ghost use Rattle.amqp_link_c.specs.Calls.{OfReceiver, Tested, wrong_status};
ghost use Rattle.amqp_link_c.specs.ReceiverCalls.{NamesOver, TakesTransfer, aborted_number, arrival_number, plain_arriving};
ghost use Rattle.amqp_link_flat.specs.Statuses.{transfer_status};
ghost use Rattle.amqp_link_flat.specs.Transfers.{stated_transfer};
ghost use Rattle.amqp_link_inbox.specs.Inboxes.{arrival_tests};
ghost use Rattle.amqp_link_object.specs.Objects.{value_in};
ghost use Rattle.amqp_link_object.specs.States.{receiver_in};

use crate::receiver::attach::number_of_stage;
use amqp_link_core::incomplete_transfer::RefusedTransfer;
use amqp_link_flat::status::{
    BUFFER_TOO_SMALL, EMPTY, OK, OUT_OF_MEMORY, Status, WRONG_KIND, status_of_transfer,
};
use amqp_link_flat::texts::copy_out;
use amqp_link_flat::transfer::Transfer;
use amqp_link_inbox::{Arrival, Arrived, Inbox};
use amqp_link_object::{Object, State};
use amqp_link_types::types::{Payload, Target, Transfer as TransferPart};
use std::alloc::Global;

/// It has begun a delivery, of which more is to come.
pub const ARRIVAL_BEGUN: u32 = 1;
/// It has added to a delivery; more is to come.
pub const ARRIVAL_CONTINUED: u32 = 2;
/// It was the last of its delivery, which `amqp_receiver_take` takes.
pub const ARRIVAL_COMPLETE: u32 = 3;
/// It was the last of a delivery that its sender has settled: `amqp_receiver_take_settled` takes it.
pub const ARRIVAL_COMPLETE_SETTLED: u32 = 4;
/// It belongs to a delivery that was complete before, and that its sender resumes. One that was not taken and is settled by it
/// waits for `amqp_receiver_take_settled`.
pub const ARRIVAL_KNOWN: u32 = 5;
/// It aborts its delivery.
pub const ARRIVAL_ABORTED: u32 = 6;
/// It belongs to a delivery of which nothing is kept.
pub const ARRIVAL_IGNORED: u32 = 7;

/// What a transfer has made of its delivery.
#[repr(C)]
#[derive(Drop)]
pub struct Arriving {
    /// `AMQP_ARRIVAL_BEGUN` and so on.
    pub arrival: u32,
    /// How far a delivery had come that it aborts: 0 if nothing was kept of it, or `AMQP_STAGE_BEGUN` and so on.
    pub aborted_at: u32,
    /// How far a delivery of the same tag had come in whose place it has begun a new one: 0 if there was none.
    pub replaced: u32,
    /// The id that the session has to keep with the tag, so that a disposition of the sender's finds the delivery.
    pub session_id: u32,
    /// Whether the session has to keep an id.
    pub has_session_id: bool,
    /// Whether it has begun a delivery for which the link had no credit.
    pub without_credit: bool,
}

// The number of an arrival, and the stage of a delivery that it aborts.
fn numbers_of(arrival: Arrival) -> (u32, u32)
    ensures { result ≡ (arrival_number arrival, aborted_number arrival) }
{
    match arrival {
        Arrival::Begun => (ARRIVAL_BEGUN, 0),
        Arrival::Continued => (ARRIVAL_CONTINUED, 0),
        Arrival::Complete => (ARRIVAL_COMPLETE, 0),
        Arrival::CompleteSettled => (ARRIVAL_COMPLETE_SETTLED, 0),
        Arrival::Known => (ARRIVAL_KNOWN, 0),
        Arrival::Aborted(Some(stage)) => (ARRIVAL_ABORTED, number_of_stage(stage)),
        Arrival::Aborted(None) => (ARRIVAL_ABORTED, 0),
        Arrival::Ignored => (ARRIVAL_IGNORED, 0),
    }
}

// What has arrived, for C.
fn arriving_of(arrived: &Arrived) -> Arriving
    ensures { result ≡ plain_arriving arrived.now }
{
    let (arrival, aborted_at) = numbers_of(arrived.arrival);
    Arriving {
        arrival,
        aborted_at,
        replaced: match arrived.replaced {
            Some(stage) => number_of_stage(stage),
            None => 0,
        },
        session_id: match &arrived.session {
            Some((id, _)) => *id,
            None => 0,
        },
        has_session_id: arrived.session.is_some(),
        without_credit: arrived.without_credit,
    }
}

// Copies out the tag of a delivery of which no more is to come.
fn name_over(arrived: &Arrived, ended_tag: &mut [u8], ended_tag_size: &mut usize)
    ensures { NamesOver arrived.now.tag ended_tag.old ended_tag.new ended_tag_size.new }
{
    match &arrived.tag {
        Some(tag) => {
            if copy_out(tag.as_bytes(), ended_tag, ended_tag_size) != OK {
                *ended_tag_size = 0;
            }
        }
        None => *ended_tag_size = 0,
    }
}

// Takes a transfer.
fn take_transfer(
    inbox: &mut Inbox<Target>,
    transfer: TransferPart,
    payload: Payload,
    arriving: &mut Arriving,
    ended_tag: &mut [u8],
    ended_tag_size: &mut usize,
) -> u32
    ensures taken { result ≡ 0 → TakesTransfer transfer payload arriving.new ended_tag.old ended_tag.new ended_tag_size.new inbox.old inbox.new }
    ensures refused { Tested transfer_status (arrival_tests inbox.old transfer payload) result }
    ensures left { (result ≡ 0 → ⊥) → (inbox.new ≡ inbox.old) × (arriving.new ≡ arriving.old)
        × (ended_tag.new ≡ ended_tag.old) × (ended_tag_size.new ≡ ended_tag_size.old) }
{
    match inbox.on_incoming_transfer(transfer, payload) {
        Ok(arrived) => {
            *arriving = arriving_of(&arrived);
            name_over(&arrived, ended_tag, ended_tag_size);
            drop(arrived);
            OK
        }
        Err(
            RefusedTransfer {
                error,
                transfer,
                payload,
            },
        ) => {
            drop((transfer, payload));
            status_of_transfer(error)
        }
    }
}

// Takes a transfer that C has passed.
fn take_passed(
    alloc: Global,
    inbox: &mut Inbox<Target>,
    transfer: &Transfer,
    tag: &[u8],
    payload: &[u8],
    arriving: &mut Arriving,
    ended_tag: &mut [u8],
    ended_tag_size: &mut usize,
) -> u32
    ensures taken { result ≡ 0 → IsSomeAnd (stated_transfer transfer.now tag.now) (λ part.
        TakesTransfer part payload.now arriving.new ended_tag.old ended_tag.new ended_tag_size.new inbox.old inbox.new) }
    ensures small { length ended_tag.old < length tag.now → (result ≡ 6) × (ended_tag_size.new ≡ length tag.now) }
    ensures refused { length tag.now ≤ length ended_tag.old → MatchOption (stated_transfer transfer.now tag.now) (result ≡ 5)
        (λ part. Tested transfer_status (arrival_tests inbox.old part payload.now) result) }
    ensures left { (result ≡ 0 → ⊥) → (inbox.new ≡ inbox.old) × (arriving.new ≡ arriving.old)
        × (ended_tag.new ≡ ended_tag.old) }
    ensures size { (result ≡ 0) ⊎ ((result ≡ 6) ⊎ (ended_tag_size.new ≡ ended_tag_size.old)) }
{
    if ended_tag.len() < tag.len() {
        *ended_tag_size = tag.len();
        return BUFFER_TOO_SMALL;
    }
    let transfer = match transfer.to_transfer(alloc, tag) {
        Ok(transfer) => transfer,
        Err(refused) => return refused,
    };
    let Ok(payload) = Payload::copy_from_slice(alloc, payload) else {
        drop(transfer);
        return OUT_OF_MEMORY;
    };
    take_transfer(
        inbox,
        transfer,
        payload,
        arriving,
        ended_tag,
        ended_tag_size,
    )
}

/// Takes a transfer from the session, with its tag, if it has one, and its payload, and writes what it has made of its
/// delivery to `arriving`. If no more of the delivery is to come, `ended_tag` gets its tag, of `ended_tag_size` bytes; else
/// that is 0. After `AMQP_ARRIVAL_COMPLETE` call `amqp_receiver_take` with it, after `AMQP_ARRIVAL_COMPLETE_SETTLED`
/// `amqp_receiver_take_settled`. If the sender may dispose of deliveries, note the id and the tag of each first transfer.
///
/// The first transfer that resumes a delivery starts at the position in its state, if that is `AMQP_RECEIVED`: what is held
/// beyond that is dropped. Without such a state, or if nothing is held there, its payload follows what is held.
///
/// Clear `more` where `aborted` is set (2.7.5): otherwise the delivery stays under way, and the next transfer is taken for one of
/// it.
///
/// Give `ended_tag` room for the longest tag that you accept, the same at each transfer: only the tag that comes with a transfer
/// is measured, and not that of the delivery under way, which is given back. If that is longer than the room, since its first
/// transfer came with a larger buffer, the transfer is taken, `AMQP_OK`, but no tag is copied, and `ended_tag_size` is 0.
///
/// Refused in this order, with nothing changed: `AMQP_BUFFER_TOO_SMALL` if the tag that comes with the transfer is longer than
/// `ended_tag` has room, with its size in `ended_tag_size`: 32 bytes are room for each that the standard allows (2.8.7).
/// `AMQP_NO_SUCH_NUMBER` if the mode or the kind of the state is none. `AMQP_ILLEGAL_STATE` unless both attaches were exchanged:
/// ignore what comes after your own detach. `AMQP_DELIVERY_ID_IS_NONE`, `AMQP_DELIVERY_TAG_IS_NONE` and
/// `AMQP_ILLEGAL_RCV_SETTLE_MODE_IN_TRANSFER` of a first transfer; `AMQP_INCONSISTENT_FIELD_IN_MULTI_FRAME_DELIVERY`,
/// `AMQP_PAYLOAD_TOO_LONG`: the sender's fault, end the link.
#[unsafe(no_mangle)]
pub extern "C" fn amqp_receiver_on_transfer(
    alloc: Global,
    receiver: &mut Object,
    transfer: &Transfer,
    tag: &[u8],
    payload: &[u8],
    arriving: &mut Arriving,
    ended_tag: &mut [u8],
    ended_tag_size: &mut usize,
) -> Status
    ensures kind { receiver_in (value_in receiver.old) ≡ None → result ≡ wrong_status (value_in receiver.old) }
    ensures taken { result ≡ 0 → OfReceiver receiver.old receiver.new (λ before after.
        IsSomeAnd (stated_transfer transfer.now tag.now) (λ part.
        TakesTransfer part payload.now arriving.new ended_tag.old ended_tag.new ended_tag_size.new before after)) }
    ensures small { IsSome (receiver_in (value_in receiver.old)) → length ended_tag.old < length tag.now
        → (result ≡ 6) × (ended_tag_size.new ≡ length tag.now) }
    ensures refused { length tag.now ≤ length ended_tag.old → IfSome (receiver_in (value_in receiver.old)) (λ before.
        MatchOption (stated_transfer transfer.now tag.now) (result ≡ 5) (λ part.
        Tested transfer_status (arrival_tests before part payload.now) result)) }
    ensures left { (result ≡ 0 → ⊥) → (value_in receiver.new ≡ value_in receiver.old) × (arriving.new ≡ arriving.old)
        × (ended_tag.new ≡ ended_tag.old) }
    ensures size { (result ≡ 0) ⊎ ((result ≡ 6) ⊎ (ended_tag_size.new ≡ ended_tag_size.old)) }
{
    with_value!(alloc, receiver, Receiver, inbox => {
        take_passed(alloc, inbox, transfer, tag, payload, arriving, ended_tag, ended_tag_size)
    })
}

//! Complete deliveries that are taken, and what is kept of the others.
ghost use Rattle.std.specs.Prelude.{◌≡◌, ◌<◌, ◌⊎◌, None, IfErr, IfOk, IfSome, IsSomeAnd, MatchOption, OnErr, length};
ghost use Rattle.std.specs.Option.{option_map_or};
ghost use Rattle.amqp_link_c.specs.Calls.{OfReceiver, status_in, wrong_status};
ghost use Rattle.amqp_link_c.specs.ReceiverCalls.{TakeSettledStatus, TakeStatus, Takes, TakesSettled, plain_delivery, plain_kept, take_status};
ghost use Rattle.amqp_link_c.specs.Reading.{IsCopied};
ghost use Rattle.amqp_link_object.specs.Objects.{value_in};
ghost use Rattle.amqp_link_object.specs.States.{delivery_in, receiver_in};
ghost use Rattle.amqp_link_types.specs.Entries.{entry_at};

use crate::receiver::attach::{STAGE_BEGUN, STAGE_COMPLETE, STAGE_TAKEN};
use amqp_link_flat::status::{
    ALREADY_TAKEN, EMPTY, NO_SUCH_ENTRY, NOT_ATTACHED, NOT_COMPLETE, OK, OUT_OF_MEMORY, Status,
    UNDECODED, UNKNOWN_TAG, WRONG_KIND,
};
use amqp_link_flat::texts::copy_out;
use amqp_link_inbox::{Contents, Inbox, Kept, TakeError};
use amqp_link_object::{Object, Room, State};
use amqp_link_types::delivery::Delivery;
use amqp_link_types::types::{DeliveryTag, Target, Whole};
use std::alloc::Global;

/// What a delivery is, but its tag and its bytes.
#[repr(C)]
#[derive(Drop)]
pub struct DeliveryView {
    /// How many bytes its message has.
    pub message_size: usize,
    /// The delivery-id.
    pub delivery_id: u32,
    /// The format of the message.
    pub message_format: u32,
    /// Whether `message_format` is there.
    pub has_message_format: bool,
}

/// What is kept of a delivery.
#[repr(C)]
#[derive(Drop)]
pub struct KeptView {
    /// How far it has come: `AMQP_STAGE_BEGUN` and so on.
    pub stage: u32,
    /// Its id in the present attachment.
    pub delivery_id: u32,
    /// Whether `delivery_id` is there: a transfer of it has arrived in this attachment.
    pub has_delivery_id: bool,
    /// Whether its sender has settled it.
    pub settled: bool,
}

// The status of a refusal.
fn status_of(error: TakeError) -> u32
    ensures status { result ≡ take_status error }
    ensures refused { result ≡ 0 → ⊥ }
{
    match error {
        TakeError::UnknownTag => UNKNOWN_TAG,
        TakeError::NotComplete => NOT_COMPLETE,
        TakeError::AlreadyTaken => ALREADY_TAKEN,
        TakeError::NotAttached => NOT_ATTACHED,
        TakeError::OutOfMemory => OUT_OF_MEMORY,
        TakeError::Undecoded(_) => UNDECODED,
    }
}

// Takes the delivery with this tag. All bytes are a message, so that none are given back.
fn take(alloc: Global, inbox: &mut Inbox<Target>, tag: &[u8]) -> Result<Delivery<Whole>, u32>
    ensures taken { IfOk result (λ delivery. Takes tag.now delivery inbox.old inbox.new) }
    ensures refused { TakeStatus tag.now inbox.old (status_in result) }
    ensures status { IfErr result (λ status. status ≡ 0 → ⊥) }
    ensures left { OnErr result (inbox.new ≡ inbox.old) }
{
    let Ok(tag) = DeliveryTag::copied(alloc, tag) else {
        return Err(OUT_OF_MEMORY);
    };
    let taken = inbox.take(&tag);
    drop(tag);
    match taken {
        Ok(delivery) => Ok(delivery),
        Err(TakeError::Undecoded(undecoded)) => {
            drop(undecoded);
            Err(UNDECODED)
        }
        Err(refused) => Err(status_of(refused)),
    }
}

// Takes it into an object.
fn take_into(alloc: Global, inbox: &mut Inbox<Target>, tag: &[u8], delivery: &mut Object) -> u32
    ensures taken { result ≡ 0 → IsSomeAnd (delivery_in (value_in delivery.new)) (λ taken.
        Takes tag.now taken inbox.old inbox.new) }
    ensures refused { TakeStatus tag.now inbox.old result }
    ensures left { (result ≡ 0 → ⊥) → (inbox.new ≡ inbox.old) × (value_in delivery.new ≡ value_in delivery.old) }
{
    let Some(room) = Room::new(alloc) else {
        return OUT_OF_MEMORY;
    };
    match take(alloc, inbox, tag) {
        Ok(taken) => {
            delivery.fill(room, State::Delivery(taken));
            OK
        }
        Err(refused) => {
            drop(room);
            refused
        }
    }
}

/// Takes the complete delivery with this tag, with all bytes of its message. It stays unsettled until it is disposed of.
///
/// Refused in this order, with nothing changed: `AMQP_UNKNOWN_TAG`, `AMQP_NOT_COMPLETE`, `AMQP_ALREADY_TAKEN`,
/// `AMQP_NOT_ATTACHED`.
#[unsafe(no_mangle)]
pub extern "C" fn amqp_receiver_take(
    alloc: Global,
    receiver: &mut Object,
    tag: &[u8],
    delivery: &mut Object,
) -> Status
    ensures kind { receiver_in (value_in receiver.old) ≡ None → result ≡ wrong_status (value_in receiver.old) }
    ensures taken { result ≡ 0 → OfReceiver receiver.old receiver.new (λ before after.
        IsSomeAnd (delivery_in (value_in delivery.new)) (λ taken. Takes tag.now taken before after)) }
    ensures refused { IfSome (receiver_in (value_in receiver.old)) (λ before. TakeStatus tag.now before result) }
    ensures left { (result ≡ 0 → ⊥) →
        (value_in receiver.new ≡ value_in receiver.old) × (value_in delivery.new ≡ value_in delivery.old) }
{
    with_value!(alloc, receiver, Receiver, inbox => take_into(alloc, inbox, tag, delivery))
}

// Takes the first of the settled deliveries.
fn take_settled(inbox: &mut Inbox<Target>) -> Result<Delivery<Whole>, u32>
    ensures taken { IfOk result (λ delivery. TakesSettled delivery inbox.old inbox.new) }
    ensures refused { TakeSettledStatus inbox.old (status_in result) }
    ensures status { IfErr result (λ status. status ≡ 0 → ⊥) }
    ensures left { OnErr result (inbox.new ≡ inbox.old) }
{
    match inbox.take_settled() {
        Ok(Some(delivery)) => Ok(delivery),
        Ok(None) => Err(NO_SUCH_ENTRY),
        Err(TakeError::Undecoded(undecoded)) => {
            drop(undecoded);
            Err(UNDECODED)
        }
        Err(refused) => Err(status_of(refused)),
    }
}

// Takes it into an object.
fn take_settled_into(alloc: Global, inbox: &mut Inbox<Target>, delivery: &mut Object) -> u32
    ensures taken { result ≡ 0 → IsSomeAnd (delivery_in (value_in delivery.new)) (λ taken.
        TakesSettled taken inbox.old inbox.new) }
    ensures refused { TakeSettledStatus inbox.old result }
    ensures left { (result ≡ 0 → ⊥) → (inbox.new ≡ inbox.old) × (value_in delivery.new ≡ value_in delivery.old) }
{
    let Some(room) = Room::new(alloc) else {
        return OUT_OF_MEMORY;
    };
    match take_settled(inbox) {
        Ok(taken) => {
            delivery.fill(room, State::Delivery(taken));
            OK
        }
        Err(refused) => {
            drop(room);
            refused
        }
    }
}

/// Takes the first of the complete deliveries that their sender has settled.
///
/// Refused in this order, with nothing changed: `AMQP_NO_SUCH_ENTRY` if there is none; `AMQP_NOT_ATTACHED`.
#[unsafe(no_mangle)]
pub extern "C" fn amqp_receiver_take_settled(
    alloc: Global,
    receiver: &mut Object,
    delivery: &mut Object,
) -> Status
    ensures kind { receiver_in (value_in receiver.old) ≡ None → result ≡ wrong_status (value_in receiver.old) }
    ensures taken { result ≡ 0 → OfReceiver receiver.old receiver.new (λ before after.
        IsSomeAnd (delivery_in (value_in delivery.new)) (λ taken. TakesSettled taken before after)) }
    ensures refused { IfSome (receiver_in (value_in receiver.old)) (λ before. TakeSettledStatus before result) }
    ensures left { (result ≡ 0 → ⊥) →
        (value_in receiver.new ≡ value_in receiver.old) × (value_in delivery.new ≡ value_in delivery.old) }
{
    with_value!(alloc, receiver, Receiver, inbox => take_settled_into(alloc, inbox, delivery))
}

/// How many complete deliveries that their sender has settled wait to be taken.
#[unsafe(no_mangle)]
pub extern "C" fn amqp_receiver_settled_count(
    alloc: Global,
    receiver: &mut Object,
    count: &mut usize,
) -> Status
    ensures count { MatchOption (receiver_in (value_in receiver.old))
        ((result ≡ wrong_status (value_in receiver.old)) × (count.new ≡ count.old))
        (λ inbox. (result ≡ 0) × (count.new ≡ length inbox.settled)) }
    ensures left { value_in receiver.new ≡ value_in receiver.old }
{
    with_value!(alloc, receiver, Receiver, inbox => {
        *count = inbox.settled_len();
        OK
    })
}

// What is kept of a delivery, for C.
fn view_of(kept: &Kept) -> KeptView
    ensures { result ≡ plain_kept kept.now }
{
    KeptView {
        stage: match &kept.contents {
            Contents::Begun(_) => STAGE_BEGUN,
            Contents::Complete(_) => STAGE_COMPLETE,
            Contents::Taken => STAGE_TAKEN,
        },
        delivery_id: kept.id.unwrap_or(0),
        has_delivery_id: kept.id.is_some(),
        settled: kept.settled,
    }
}

// Writes what is kept of a delivery.
fn look(alloc: Global, inbox: &Inbox<Target>, tag: &[u8], view: &mut KeptView) -> u32
    ensures view { result ≡ 0 → IsSomeAnd (entry_at inbox.now.deliveries tag.now) (λ kept. view.new ≡ plain_kept kept) }
    ensures unwritten { (result ≡ 0 → ⊥) → view.new ≡ view.old }
    ensures refused { (result ≡ 3) ⊎ (result ≡ option_map_or (λ kept. 0) (entry_at inbox.now.deliveries tag.now) 44) }
    ensures memory { result ≡ 3 → 16 < length tag.now }
{
    let Ok(tag) = DeliveryTag::copied(alloc, tag) else {
        return OUT_OF_MEMORY;
    };
    let status = match inbox.get(&tag) {
        Some(kept) => {
            *view = view_of(kept);
            OK
        }
        None => UNKNOWN_TAG,
    };
    drop(tag);
    status
}

/// What is kept of the delivery with this tag. Allocates only for a tag of more than 16 bytes.
///
/// `AMQP_UNKNOWN_TAG` if nothing is.
#[unsafe(no_mangle)]
pub extern "C" fn amqp_receiver_kept(
    alloc: Global,
    receiver: &mut Object,
    tag: &[u8],
    view: &mut KeptView,
) -> Status
    ensures kind { receiver_in (value_in receiver.old) ≡ None → result ≡ wrong_status (value_in receiver.old) }
    ensures view { result ≡ 0 → IsSomeAnd (receiver_in (value_in receiver.old)) (λ inbox.
        IsSomeAnd (entry_at inbox.deliveries tag.now) (λ kept. view.new ≡ plain_kept kept)) }
    ensures unwritten { (result ≡ 0 → ⊥) → view.new ≡ view.old }
    ensures refused { IfSome (receiver_in (value_in receiver.old)) (λ inbox.
        (result ≡ 3) ⊎ (result ≡ option_map_or (λ kept. 0) (entry_at inbox.deliveries tag.now) 44)) }
    ensures memory { result ≡ 3 → 16 < length tag.now }
    ensures left { value_in receiver.new ≡ value_in receiver.old }
{
    with_value!(alloc, receiver, Receiver, inbox => look(alloc, inbox, tag, view))
}

// What a delivery is, for C.
fn delivery_view(taken: &Delivery<Whole>) -> DeliveryView
    ensures { result ≡ plain_delivery taken.now }
{
    DeliveryView {
        message_size: taken.body().0.len(),
        delivery_id: taken.delivery_id(),
        message_format: taken.message_format().unwrap_or(0),
        has_message_format: taken.message_format().is_some(),
    }
}

/// What a delivery is, with its tag.
#[unsafe(no_mangle)]
pub extern "C" fn amqp_delivery_look(
    alloc: Global,
    delivery: &mut Object,
    view: &mut DeliveryView,
    tag: &mut [u8],
    tag_size: &mut usize,
) -> Status
    ensures kind { delivery_in (value_in delivery.old) ≡ None
        → (result ≡ wrong_status (value_in delivery.old)) × (tag.new ≡ tag.old) × (tag_size.new ≡ tag_size.old) }
    ensures copied { IfSome (delivery_in (value_in delivery.old)) (λ taken.
        IsCopied taken.info.delivery_tag tag.old tag.new tag_size.new result) }
    ensures view { result ≡ 0 → IsSomeAnd (delivery_in (value_in delivery.old)) (λ taken. view.new ≡ plain_delivery taken) }
    ensures unwritten { (result ≡ 0 → ⊥) → view.new ≡ view.old }
    ensures left { value_in delivery.new ≡ value_in delivery.old }
{
    with_value!(alloc, delivery, Delivery, taken => {
        let status = copy_out(taken.delivery_tag().as_bytes(), tag, tag_size);
        if status == OK {
            *view = delivery_view(taken);
        }
        status
    })
}

/// The bytes of a delivery's message, as its transfers have brought them.
#[unsafe(no_mangle)]
pub extern "C" fn amqp_delivery_message(
    alloc: Global,
    delivery: &mut Object,
    message: &mut [u8],
    message_size: &mut usize,
) -> Status
    ensures kind { delivery_in (value_in delivery.old) ≡ None
        → (result ≡ wrong_status (value_in delivery.old)) × (message.new ≡ message.old) × (message_size.new ≡ message_size.old) }
    ensures copied { IfSome (delivery_in (value_in delivery.old)) (λ taken.
        IsCopied taken.message.body.0 message.old message.new message_size.new result) }
    ensures left { value_in delivery.new ≡ value_in delivery.old }
{
    with_value!(alloc, delivery, Delivery, taken => copy_out(taken.body().0.as_slice(), message, message_size))
}

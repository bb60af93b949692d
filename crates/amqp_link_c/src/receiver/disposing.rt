//! Dispositions that a receiver sends, keeps for later or takes (2.6.12, 2.7.6).
ghost use Rattle.std.specs.Prelude.{◌≡◌, ◌⊎◌, ◌↔◌, ◌∷◌, [], None, IfErr, IfOk, IfSome, IsSome, IsSomeAnd, IsUtf8, OnErr};
ghost use Rattle.amqp_link_c.specs.Calls.{OfReceiver, outcome_stated, status_in, wrong_status};
ghost use Rattle.amqp_link_c.specs.ReceiverCalls.{DisposeStatus, Disposes, KeepStatus, KeepsOutcome, dispose_status};
ghost use Rattle.amqp_link_flat.specs.Flat.{CarriesError, stated_state};
ghost use Rattle.amqp_link_flat.specs.Numbers.{settled_of};
ghost use Rattle.amqp_link_flat.specs.Refusing.{AreTexts, IsValueRefusal};
ghost use Rattle.amqp_link_inbox.specs.Disposing.{after_sender_disposition};
ghost use Rattle.amqp_link_object.specs.Objects.{value_in};
ghost use Rattle.amqp_link_object.specs.States.{frames_in, receiver_in};

use amqp_link_flat::delivery_state::DeliveryStateFields;
use amqp_link_flat::numbers::settled as settled_by;
use amqp_link_flat::status::{
    EMPTY, NO_SUCH_NUMBER, NOT_ATTACHED, NOT_RESUMED, NOT_TAKEN, OK, OUT_OF_MEMORY, Status,
    UNKNOWN_TAG, WRONG_KIND,
};
use amqp_link_inbox::{DisposeError, Inbox};
use amqp_link_object::{Object, Room, State};
use amqp_link_types::frame::LinkFrame;
use amqp_link_types::types::{DeliveryState, DeliveryTag, Target};
use std::alloc::Global;

// The status of a refusal.
fn status_of(error: DisposeError) -> u32
    ensures status { result ≡ dispose_status error }
    ensures refused { result ≡ 0 → ⊥ }
    ensures text { result ≡ 4 → ⊥ }
{
    match error {
        DisposeError::NotAttached => NOT_ATTACHED,
        DisposeError::UnknownTag => UNKNOWN_TAG,
        DisposeError::NotTaken => NOT_TAKEN,
        DisposeError::NotResumed => NOT_RESUMED,
        DisposeError::OutOfMemory => OUT_OF_MEMORY,
    }
}

// How a delivery is disposed of.
#[derive(Clone, Copy)]
struct How {
    settled: Option<bool>,
    batchable: bool,
}

// Makes a disposition.
fn dispose(
    alloc: Global,
    inbox: &mut Inbox<Target>,
    tag: &[u8],
    state: DeliveryState,
    how: How,
) -> Result<LinkFrame, u32>
    ensures disposed { IfOk result (λ frame.
        Disposes tag.now how.settled state how.batchable (frame ∷ []) inbox.old inbox.new) }
    ensures refused { DisposeStatus tag.now inbox.old (status_in result) }
    ensures status { IfErr result (λ status. status ≡ 0 → ⊥) }
    ensures text { IfErr result (λ status. status ≡ 4 → ⊥) }
    ensures left { OnErr result (inbox.new ≡ inbox.old) }
{
    let Ok(tag) = DeliveryTag::copied(alloc, tag) else {
        drop(state);
        return Err(OUT_OF_MEMORY);
    };
    let sent = inbox.dispose(&tag, how.settled, state, how.batchable);
    drop(tag);
    match sent {
        Ok(frame) => Ok(frame),
        Err(refused) => Err(status_of(refused)),
    }
}

// Puts a disposition into an object.
fn dispose_into(
    alloc: Global,
    inbox: &mut Inbox<Target>,
    tag: &[u8],
    state: DeliveryState,
    how: How,
    frames: &mut Object,
) -> u32
    ensures disposed { result ≡ 0 → Disposes tag.now how.settled state how.batchable
        (frames_in (value_in frames.new)) inbox.old inbox.new }
    ensures refused { DisposeStatus tag.now inbox.old result }
    ensures text { result ≡ 4 → ⊥ }
    ensures left { (result ≡ 0 → ⊥) → (inbox.new ≡ inbox.old) × (value_in frames.new ≡ value_in frames.old) }
{
    let Some(room) = Room::new(alloc) else {
        drop(state);
        return OUT_OF_MEMORY;
    };
    match dispose(alloc, inbox, tag, state, how) {
        Ok(frame) => {
            frames.fill(room, State::Frame(frame));
            OK
        }
        Err(refused) => {
            drop(room);
            refused
        }
    }
}

/// Makes the disposition of a delivery that was taken, with this state, and puts it into `frames`. `settled` is
/// `AMQP_NOT_SETTLED`, `AMQP_SETTLED` or `AMQP_SETTLED_BY_MODE`.
///
/// Refused in this order, with nothing changed: `AMQP_NO_SUCH_NUMBER` if there is no state of that kind, none at all, or
/// `settled` is none of the three; `AMQP_NO_TEXT` if a text is no UTF-8; `AMQP_NOT_ATTACHED`, `AMQP_UNKNOWN_TAG`,
/// `AMQP_NOT_TAKEN`, `AMQP_NOT_RESUMED`: keep the outcome then by `amqp_receiver_keep_outcome`.
#[unsafe(no_mangle)]
pub extern "C" fn amqp_receiver_dispose(
    alloc: Global,
    receiver: &mut Object,
    tag: &[u8],
    settled: u32,
    state: &DeliveryStateFields,
    condition: &[u8],
    description: &[u8],
    batchable: bool,
    frames: &mut Object,
) -> Status
    ensures kind { receiver_in (value_in receiver.old) ≡ None → result ≡ wrong_status (value_in receiver.old) }
    ensures disposed { result ≡ 0 → OfReceiver receiver.old receiver.new (λ before after.
        IsSomeAnd (settled_of settled) (λ given.
        IsSomeAnd (outcome_stated state.now condition.now description.now) (λ outcome.
        Disposes tag.now given outcome batchable (frames_in (value_in frames.new)) before after))) }
    ensures number { IsSome (receiver_in (value_in receiver.old)) → (result ≡ 5) ↔ ((settled_of settled ≡ None)
        ⊎ (outcome_stated state.now condition.now description.now ≡ None)) }
    ensures no_text { result ≡ 4 → ¬ (AreTexts (CarriesError state.now)
        state.now.has_description condition.now description.now) }
    ensures utf8 { IsSome (receiver_in (value_in receiver.old)) → IsValueRefusal result ⊎ AreTexts (CarriesError state.now)
        state.now.has_description condition.now description.now }
    ensures condition { result ≡ 3 → CarriesError state.now → IsUtf8 condition.now }
    ensures refused { IfSome (receiver_in (value_in receiver.old)) (λ before.
        IsValueRefusal result ⊎ DisposeStatus tag.now before result) }
    ensures left { (result ≡ 0 → ⊥) →
        (value_in receiver.new ≡ value_in receiver.old) × (value_in frames.new ≡ value_in frames.old) }
{
    with_value!(alloc, receiver, Receiver, inbox => match settled_by(settled) {
        Some(settled) => match state.to_state(alloc, condition, description) {
            Ok(Some(state)) => {
                dispose_into(alloc, inbox, tag, state, How { settled, batchable }, frames)
            }
            Ok(None) => NO_SUCH_NUMBER,
            Err(refused) => refused,
        },
        None => NO_SUCH_NUMBER,
    })
}

// Keeps an outcome.
fn keep_outcome(alloc: Global, inbox: &mut Inbox<Target>, tag: &[u8], state: DeliveryState) -> u32
    ensures kept { result ≡ 0 → KeepsOutcome tag.now state inbox.old inbox.new }
    ensures refused { KeepStatus tag.now inbox.old result }
    ensures left { (result ≡ 0 → ⊥) → inbox.new ≡ inbox.old }
{
    let Ok(tag) = DeliveryTag::copied(alloc, tag) else {
        drop(state);
        return OUT_OF_MEMORY;
    };
    let kept = inbox.keep_outcome(&tag, state);
    drop(tag);
    match kept {
        Ok(()) => OK,
        Err(refused) => status_of(refused),
    }
}

/// Keeps the outcome of a delivery that was taken, in any state of the link: the next attach states it.
///
/// Refused in this order, with nothing changed: `AMQP_NO_SUCH_NUMBER` if there is no state of that kind, or none at all;
/// `AMQP_NO_TEXT` if a text is no UTF-8; `AMQP_UNKNOWN_TAG`, `AMQP_NOT_TAKEN`.
#[unsafe(no_mangle)]
pub extern "C" fn amqp_receiver_keep_outcome(
    alloc: Global,
    receiver: &mut Object,
    tag: &[u8],
    state: &DeliveryStateFields,
    condition: &[u8],
    description: &[u8],
) -> Status
    ensures kind { receiver_in (value_in receiver.old) ≡ None → result ≡ wrong_status (value_in receiver.old) }
    ensures kept { result ≡ 0 → OfReceiver receiver.old receiver.new (λ before after.
        IsSomeAnd (outcome_stated state.now condition.now description.now) (λ outcome.
        KeepsOutcome tag.now outcome before after)) }
    ensures number { IsSome (receiver_in (value_in receiver.old))
        → (result ≡ 5) ↔ (outcome_stated state.now condition.now description.now ≡ None) }
    ensures no_text { result ≡ 4 → ¬ (AreTexts (CarriesError state.now)
        state.now.has_description condition.now description.now) }
    ensures utf8 { IsSome (receiver_in (value_in receiver.old)) → IsValueRefusal result ⊎ AreTexts (CarriesError state.now)
        state.now.has_description condition.now description.now }
    ensures condition { result ≡ 3 → CarriesError state.now → IsUtf8 condition.now }
    ensures refused { IfSome (receiver_in (value_in receiver.old)) (λ before.
        IsValueRefusal result ⊎ KeepStatus tag.now before result) }
    ensures left { (result ≡ 0 → ⊥) → value_in receiver.new ≡ value_in receiver.old }
{
    with_value!(alloc, receiver, Receiver, inbox => match state.to_state(alloc, condition, description) {
        Ok(Some(state)) => keep_outcome(alloc, inbox, tag, state),
        Ok(None) => NO_SUCH_NUMBER,
        Err(refused) => refused,
    })
}

// Takes a disposition.
fn take_disposition(
    alloc: Global,
    inbox: &mut Inbox<Target>,
    settled: bool,
    state: Option<DeliveryState>,
    tag: &[u8],
) -> u32
    ensures taken { result ≡ 0 → inbox.new ≡ after_sender_disposition settled state tag.now inbox.old }
    ensures refused { (result ≡ 0) ⊎ (result ≡ 3) }
    ensures left { (result ≡ 0 → ⊥) → inbox.new ≡ inbox.old }
{
    let Ok(tag) = DeliveryTag::copied(alloc, tag) else {
        drop(state);
        return OUT_OF_MEMORY;
    };
    let taken = inbox.on_incoming_disposition(settled, state, &tag);
    drop(tag);
    match taken {
        Ok(()) => OK,
        Err(_) => OUT_OF_MEMORY,
    }
}

/// Takes the sender's disposition of the delivery with this tag, which the session finds by the id. If it settles the
/// delivery, one that is complete waits to be taken as a settled one, and of one that was taken nothing is kept.
///
/// Refused in this order, with nothing changed: `AMQP_NO_SUCH_NUMBER` if the kind of the state is none; `AMQP_NO_TEXT` if a
/// text is no UTF-8. A tag of which nothing is kept is no refusal.
#[unsafe(no_mangle)]
pub extern "C" fn amqp_receiver_on_disposition(
    alloc: Global,
    receiver: &mut Object,
    tag: &[u8],
    settled: bool,
    state: &DeliveryStateFields,
    condition: &[u8],
    description: &[u8],
) -> Status
    ensures kind { receiver_in (value_in receiver.old) ≡ None → result ≡ wrong_status (value_in receiver.old) }
    ensures taken { result ≡ 0 → OfReceiver receiver.old receiver.new (λ before after.
        IsSomeAnd (stated_state state.now condition.now description.now) (λ stated.
        after ≡ after_sender_disposition settled stated tag.now before)) }
    ensures number { IsSome (receiver_in (value_in receiver.old))
        → (result ≡ 5) ↔ (stated_state state.now condition.now description.now ≡ None) }
    ensures no_text { result ≡ 4 → ¬ (AreTexts (CarriesError state.now)
        state.now.has_description condition.now description.now) }
    ensures utf8 { IsSome (receiver_in (value_in receiver.old)) → IsValueRefusal result ⊎ AreTexts (CarriesError state.now)
        state.now.has_description condition.now description.now }
    ensures condition { result ≡ 3 → CarriesError state.now → IsUtf8 condition.now }
    ensures refused { IsSome (receiver_in (value_in receiver.old)) → (result ≡ 0) ⊎ IsValueRefusal result }
    ensures left { (result ≡ 0 → ⊥) → value_in receiver.new ≡ value_in receiver.old }
{
    with_value!(alloc, receiver, Receiver, inbox => match state.to_state(alloc, condition, description) {
        Ok(state) => take_disposition(alloc, inbox, settled, state, tag),
        Err(refused) => refused,
    })
}

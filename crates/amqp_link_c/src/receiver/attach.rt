//! How a receiver is attached (2.6.3, 2.6.13).
ghost use Rattle.std.specs.Prelude.{◌≡◌, None, IfErr, IfOk, IfSome, IsSome, IsSomeAnd, length, slice_get};
ghost use Rattle.std.specs.Option.{option_map_or};
ghost use Rattle.amqp_link_c.specs.Calls.{OfReceiver, wrong_status};
ghost use Rattle.amqp_link_c.specs.ReceiverAttach.{RefusesAttach, RefusesToAttach, SendsOwnAttach, TakesAttach, exchange_number};
ghost use Rattle.amqp_link_c.specs.Reading.{IsCopied};
ghost use Rattle.amqp_link_c.specs.ReceiverCalls.{stage_number};
ghost use Rattle.amqp_link_object.specs.Objects.{value_in};
ghost use Rattle.amqp_link_object.specs.States.{attach_in, forgotten_in, receiver_in};

use crate::sender::attach::state_of_attach;
use amqp_link_flat::status::{
    EMPTY, NO_SUCH_ENTRY, OK, OUT_OF_MEMORY, Status, WRONG_KIND, status_of_receiver_attach,
};
use amqp_link_flat::texts::copy_out;
use amqp_link_inbox::{Forgotten, Inbox, Stage};
use amqp_link_object::{Object, Room, State};
use amqp_link_receiver::ReceiverAttachExchange;
use amqp_link_types::types::{Attach, Target};
use std::alloc::Global;

/// Neither endpoint has an unsettled delivery.
pub const EXCHANGE_COMPLETE: u32 = 0;
/// An attach did not state all unsettled deliveries: attach again after the others are resumed.
pub const EXCHANGE_INCOMPLETE: u32 = 1;
/// The sender resumes deliveries.
pub const EXCHANGE_RESUME: u32 = 2;

/// The last transfer of the delivery had not arrived.
pub const STAGE_BEGUN: u32 = 1;
/// The delivery was complete, and was not taken.
pub const STAGE_COMPLETE: u32 = 2;
/// The delivery was taken.
pub const STAGE_TAKEN: u32 = 3;

// The number of a stage.
pub(crate) fn number_of_stage(stage: Stage) -> u32
    ensures { result ≡ stage_number stage }
{
    match stage {
        Stage::Begun => STAGE_BEGUN,
        Stage::Complete => STAGE_COMPLETE,
        Stage::Taken => STAGE_TAKEN,
    }
}

// The attach to send.
fn send_attach(
    alloc: Global,
    inbox: &mut Inbox<Target>,
    is_reattaching: bool,
    attach: &mut Object,
) -> u32
    ensures sent { result ≡ 0 → SendsOwnAttach is_reattaching (attach_in (value_in attach.new)) inbox.old inbox.new }
    ensures refused { (result ≡ 0 → ⊥) → RefusesToAttach is_reattaching result inbox.old }
    ensures left { (result ≡ 0 → ⊥) → (inbox.new ≡ inbox.old) × (value_in attach.new ≡ value_in attach.old) }
{
    let Some(room) = Room::new(alloc) else {
        return OUT_OF_MEMORY;
    };
    match inbox.send_attach(is_reattaching) {
        Ok(frame) => {
            attach.fill(room, state_of_attach(frame));
            OK
        }
        Err(refused) => {
            drop(room);
            status_of_receiver_attach(refused)
        }
    }
}

/// Puts the attach to send into `attach`. Pass false for `is_reattaching` to resume what is unsettled; true is for a link that
/// begins anew: its attach states no delivery, and nothing is kept by a tag.
///
/// Refused with nothing changed: `AMQP_ILLEGAL_STATE` without output handle, or in a state from which no attach is sent, which
/// are all but `AMQP_STATE_UNATTACHED`, `AMQP_STATE_DETACHED`, `AMQP_STATE_DETACH_SENT` and those in which an attach has
/// arrived; `AMQP_ATTACH_TOO_LARGE`.
#[unsafe(no_mangle)]
pub extern "C" fn amqp_receiver_send_attach(
    alloc: Global,
    receiver: &mut Object,
    is_reattaching: bool,
    attach: &mut Object,
) -> Status
    ensures kind { receiver_in (value_in receiver.old) ≡ None → result ≡ wrong_status (value_in receiver.old) }
    ensures sent { result ≡ 0 → OfReceiver receiver.old receiver.new
        (SendsOwnAttach is_reattaching (attach_in (value_in attach.new))) }
    ensures refused { (result ≡ 0 → ⊥) → IfSome (receiver_in (value_in receiver.old))
        (RefusesToAttach is_reattaching result) }
    ensures left { (result ≡ 0 → ⊥) →
        (value_in receiver.new ≡ value_in receiver.old) × (value_in attach.new ≡ value_in attach.old) }
{
    with_value!(alloc, receiver, Receiver, inbox => send_attach(alloc, inbox, is_reattaching, attach))
}

// The number of an exchange.
fn number_of(exchange: ReceiverAttachExchange) -> u32
    ensures { result ≡ exchange_number exchange }
{
    match exchange {
        ReceiverAttachExchange::Complete => EXCHANGE_COMPLETE,
        ReceiverAttachExchange::IncompleteUnsettled => EXCHANGE_INCOMPLETE,
        ReceiverAttachExchange::Resume => EXCHANGE_RESUME,
    }
}

// Takes a copy of an attach. Returns the number of what follows, and the deliveries that were forgotten.
fn take_copy(inbox: &mut Inbox<Target>, attach: &Attach) -> Result<(u32, Vec<Forgotten>), u32>
    ensures taken { IfOk result (λ taken. TakesAttach attach.now taken.0 taken.1.items inbox.old inbox.new) }
    ensures refused { IfErr result (λ status. RefusesAttach attach.now status inbox.old inbox.new) }
    ensures status { IfErr result (λ status. status ≡ 0 → ⊥) }
{
    let Ok(copy) = attach.clone() else {
        return Err(OUT_OF_MEMORY);
    };
    match inbox.on_incoming_attach(copy) {
        Ok((follows, list)) => Ok((number_of(follows), list)),
        Err(refused) => Err(status_of_receiver_attach(refused)),
    }
}

// The same with its answer put where C has it.
fn take_attach(
    alloc: Global,
    inbox: &mut Inbox<Target>,
    attach: &Attach,
    exchange: &mut u32,
    forgotten: &mut Object,
) -> u32
    ensures taken { result ≡ 0 → IsSomeAnd (forgotten_in (value_in forgotten.new)) (λ list.
        TakesAttach attach.now exchange.new list inbox.old inbox.new) }
    ensures refused { (result ≡ 0 → ⊥) → RefusesAttach attach.now result inbox.old inbox.new }
    ensures left { (result ≡ 0 → ⊥) →
        (exchange.new ≡ exchange.old) × (value_in forgotten.new ≡ value_in forgotten.old) }
{
    let Some(room) = Room::new(alloc) else {
        return OUT_OF_MEMORY;
    };
    match take_copy(inbox, attach) {
        Ok((follows, list)) => {
            *exchange = follows;
            forgotten.fill(room, State::Forgotten(list));
            OK
        }
        Err(refused) => {
            drop(room);
            refused
        }
    }
}

// The same of a receiver in an object.
fn take_into(
    alloc: Global,
    receiver: &mut Object,
    attach: &Attach,
    exchange: &mut u32,
    forgotten: &mut Object,
) -> u32
    ensures kind { receiver_in (value_in receiver.old) ≡ None
        → (result ≡ wrong_status (value_in receiver.old)) × (value_in receiver.new ≡ value_in receiver.old) }
    ensures taken { result ≡ 0 → OfReceiver receiver.old receiver.new (λ before after.
        IsSomeAnd (forgotten_in (value_in forgotten.new)) (λ list.
        TakesAttach attach.now exchange.new list before after)) }
    ensures refused { (result ≡ 0 → ⊥) → OfReceiver receiver.old receiver.new (RefusesAttach attach.now result) }
    ensures left { (result ≡ 0 → ⊥) →
        (exchange.new ≡ exchange.old) × (value_in forgotten.new ≡ value_in forgotten.old) }
{
    with_value!(alloc, receiver, Receiver, inbox => take_attach(alloc, inbox, attach, exchange, forgotten))
}

/// Takes the sender's attach; `attach` keeps what it has. `exchange` says what follows: `AMQP_EXCHANGE_COMPLETE` and so
/// on. `forgotten` gets the deliveries that the sender does not know any more: of those nothing is kept.
///
/// The name and the role in `attach` are not compared with the link's: the session finds the link by them.
///
/// Refused in this order: `AMQP_EMPTY` and `AMQP_WRONG_KIND` of `attach`, and then of `receiver`; `AMQP_ILLEGAL_STATE`, with
/// nothing changed, in all states but `AMQP_STATE_UNATTACHED`, `AMQP_STATE_DETACHED` and those in which an attach was sent;
/// and with the state moved and the input handle set, `AMQP_INCOMING_SOURCE_IS_NONE`,
/// `AMQP_SOURCE_ADDRESS_IS_NONE_WHEN_DYNAMIC_IS_TRUE`, and with the peer's source and `snd_settle_mode` taken too,
/// `AMQP_INITIAL_DELIVERY_COUNT_IS_NONE`, `AMQP_TARGET_ADDRESS_IS_SOME_WHEN_DYNAMIC_IS_TRUE`. After these four
/// `amqp_receiver_attach_failed` makes the detach to send.
#[unsafe(no_mangle)]
pub extern "C" fn amqp_receiver_on_attach(
    alloc: Global,
    receiver: &mut Object,
    attach: &mut Object,
    exchange: &mut u32,
    forgotten: &mut Object,
) -> Status
    ensures attach { attach_in (value_in attach.old) ≡ None → (result ≡ wrong_status (value_in attach.old))
        × (value_in receiver.new ≡ value_in receiver.old) }
    ensures kind { IsSome (attach_in (value_in attach.old)) → receiver_in (value_in receiver.old) ≡ None
        → (result ≡ wrong_status (value_in receiver.old)) × (value_in receiver.new ≡ value_in receiver.old) }
    ensures taken { result ≡ 0 → OfReceiver receiver.old receiver.new (λ before after.
        IsSomeAnd (attach_in (value_in attach.old)) (λ theirs. IsSomeAnd (forgotten_in (value_in forgotten.new)) (λ list.
        TakesAttach theirs exchange.new list before after))) }
    ensures refused { (result ≡ 0 → ⊥) → IfSome (attach_in (value_in attach.old)) (λ theirs.
        OfReceiver receiver.old receiver.new (RefusesAttach theirs result)) }
    ensures kept { value_in attach.new ≡ value_in attach.old }
    ensures left { (result ≡ 0 → ⊥) →
        (exchange.new ≡ exchange.old) × (value_in forgotten.new ≡ value_in forgotten.old) }
{
    let Some(held) = attach.take(alloc) else {
        return EMPTY;
    };
    let status = match held.as_ref() {
        State::Attach(theirs) => take_into(alloc, receiver, theirs, exchange, forgotten),
        _ => WRONG_KIND,
    };
    attach.put(held);
    status
}

/// How many deliveries were forgotten; 0 of an object of another kind.
#[unsafe(no_mangle)]
pub extern "C" fn amqp_forgotten_count(alloc: Global, forgotten: &mut Object) -> usize
    ensures count { result ≡ option_map_or length (forgotten_in (value_in forgotten.old)) 0 }
    ensures left { value_in forgotten.new ≡ value_in forgotten.old }
{
    let Some(state) = forgotten.take(alloc) else {
        return 0;
    };
    let count = match state.as_ref() {
        State::Forgotten(list) => list.len(),
        _ => 0,
    };
    forgotten.put(state);
    count
}

// Copies out the tag and the stage of a delivery.
fn copy_forgotten(
    list: &Vec<Forgotten>,
    number: usize,
    stage: &mut u32,
    tag: &mut [u8],
    tag_size: &mut usize,
) -> u32
    ensures absent { slice_get list.now.items number ≡ None
        → (result ≡ 7) × (tag.new ≡ tag.old) × (tag_size.new ≡ tag_size.old) }
    ensures copied { IfSome (slice_get list.now.items number) (λ gone. IsCopied gone.tag tag.old tag.new tag_size.new result) }
    ensures stage { result ≡ 0 → IsSomeAnd (slice_get list.now.items number) (λ gone. stage.new ≡ stage_number gone.stage) }
    ensures unwritten { (result ≡ 0 → ⊥) → stage.new ≡ stage.old }
{
    let Some(forgotten) = list.get(number) else {
        return NO_SUCH_ENTRY;
    };
    let status = copy_out(forgotten.tag.as_bytes(), tag, tag_size);
    if status == OK {
        *stage = number_of_stage(forgotten.stage);
    }
    status
}

/// A delivery that was forgotten, counted from 0: its tag, and how far it had come, `AMQP_STAGE_BEGUN` and so on.
#[unsafe(no_mangle)]
pub extern "C" fn amqp_forgotten_at(
    alloc: Global,
    forgotten: &mut Object,
    number: usize,
    stage: &mut u32,
    tag: &mut [u8],
    tag_size: &mut usize,
) -> Status
    ensures kind { forgotten_in (value_in forgotten.old) ≡ None
        → (result ≡ wrong_status (value_in forgotten.old)) × (tag.new ≡ tag.old) × (tag_size.new ≡ tag_size.old) }
    ensures absent { IfSome (forgotten_in (value_in forgotten.old)) (λ list. slice_get list number ≡ None
        → (result ≡ 7) × (tag.new ≡ tag.old) × (tag_size.new ≡ tag_size.old)) }
    ensures copied { IfSome (forgotten_in (value_in forgotten.old)) (λ list. IfSome (slice_get list number) (λ gone.
        IsCopied gone.tag tag.old tag.new tag_size.new result)) }
    ensures stage { result ≡ 0 → IsSomeAnd (forgotten_in (value_in forgotten.old)) (λ list.
        IsSomeAnd (slice_get list number) (λ gone. stage.new ≡ stage_number gone.stage)) }
    ensures unwritten { (result ≡ 0 → ⊥) → stage.new ≡ stage.old }
    ensures left { value_in forgotten.new ≡ value_in forgotten.old }
{
    with_value!(alloc, forgotten, Forgotten, list => copy_forgotten(list, number, stage, tag, tag_size))
}

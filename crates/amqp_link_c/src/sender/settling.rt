//! Dispositions that arrive at a sender or that it sends, and the fates of its deliveries (2.6.12).
ghost use Rattle.std.specs.Prelude.{◌≡◌, ◌⊎◌, ◌↔◌, ◌<◌, None, slice_get, IfErr, IfOk, IfSome, IsSome, IsSomeAnd, IsUtf8, MatchOption, OnErr, option_copied};
ghost use Rattle.std.specs.Option.{option_to_list};
ghost use Rattle.amqp_link_c.specs.Calls.{IsFramesObject, IsOutcomesObject, OfSender, outcome_stated, wrong_status};
ghost use Rattle.amqp_link_c.specs.SenderCalls.{Disposes, TakesDisposition, error_of_fate, fate_error_at, fate_number, fate_outcome};
ghost use Rattle.amqp_link_c.specs.Reading.{AreCopied, description_bytes};
ghost use Rattle.amqp_link_flat.specs.Flat.{CarriesError, stated_state};
ghost use Rattle.amqp_link_flat.specs.Refusing.{AreTexts, IsValueRefusal};
ghost use Rattle.amqp_link_ledger.specs.Fates.{IsFirstPending, NonePending, with_released};
ghost use Rattle.amqp_link_object.specs.States.{frames_in, kind_number, outcomes_in, outcomes_of, sender_in};
ghost use Rattle.amqp_link_object.specs.Objects.{value_in};

use crate::frames::{Sizes, copy_error};
use crate::outcomes::{Outcome, error_in, outcome_of};
use amqp_link_flat::delivery_state::DeliveryStateFields;
use amqp_link_flat::status::{
    EMPTY, NO_SUCH_ENTRY, NO_SUCH_NUMBER, OK, OUT_OF_MEMORY, STILL_PENDING, Status, WRONG_KIND,
};
use amqp_link_ledger::fate::{Fate, StillPending};
use amqp_link_ledger::ledger::OutcomeLedger;
use amqp_link_object::{Object, Room, State};
use amqp_link_sender::DispositionAnswer;
use amqp_link_types::delivery::{DeliveryOutcome, Outcomes};
use amqp_link_types::frame::LinkFrame;
use amqp_link_types::types::{DeliveryState, DeliveryTag, Error, Target};
use std::alloc::Global;

/// In the sender's unsettled map.
pub const FATE_PENDING: u32 = 0;
/// Given up by its user, without an outcome.
pub const FATE_WITHDRAWN: u32 = 1;
/// Returned in the list of an exchange, to be sent again.
pub const FATE_HANDED_OUT: u32 = 2;
/// Settled with an outcome, or failed.
pub const FATE_RESOLVED: u32 = 3;
/// It had ended, and its outcome was released.
pub const FATE_RELEASED: u32 = 4;

// The delivery that a disposition has ended, if it has ended one.
fn ended_state(alloc: Global, ended: Option<(DeliveryTag, DeliveryOutcome)>) -> State
    ensures ended { outcomes_of result ≡ option_to_list ended }
    ensures kind { kind_number result ≡ 6 }
{
    match ended {
        Some(ended) => State::Outcome(ended),
        None => State::Outcomes(Vec::new(alloc)),
    }
}

// Takes a disposition.
fn take_disposition(
    alloc: Global,
    ledger: &mut OutcomeLedger<Target>,
    settled: bool,
    state: Option<DeliveryState>,
    tag: &[u8],
) -> Result<DispositionAnswer, u32>
    ensures taken { IfOk result (λ answer.
        TakesDisposition settled state tag.now answer.echo (option_to_list answer.outcome) ledger.old ledger.new) }
    ensures refused { IfErr result (λ status. status ≡ 3) }
    ensures left { OnErr result (ledger.new ≡ ledger.old) }
{
    let Ok(tag) = DeliveryTag::copied(alloc, tag) else {
        drop(state);
        return Err(OUT_OF_MEMORY);
    };
    let answered = ledger.on_incoming_disposition(settled, state, &tag);
    drop(tag);
    match answered {
        Ok(answer) => Ok(answer),
        Err(_) => Err(OUT_OF_MEMORY),
    }
}

// The same with its answer put where C has it.
fn take_into(
    alloc: Global,
    ledger: &mut OutcomeLedger<Target>,
    settled: bool,
    state: Option<DeliveryState>,
    tag: &[u8],
    echo: &mut bool,
    outcomes: &mut Object,
) -> u32
    ensures taken { result ≡ 0 → TakesDisposition settled state tag.now echo.new
        (outcomes_in (value_in outcomes.new)) ledger.old ledger.new }
    ensures made { result ≡ 0 → IsOutcomesObject outcomes.new }
    ensures refused { (result ≡ 0) ⊎ (result ≡ 3) }
    ensures left { (result ≡ 0 → ⊥) → (ledger.new ≡ ledger.old) × (echo.new ≡ echo.old)
        × (value_in outcomes.new ≡ value_in outcomes.old) }
{
    let Some(room) = Room::new(alloc) else {
        drop(state);
        return OUT_OF_MEMORY;
    };
    match take_disposition(alloc, ledger, settled, state, tag) {
        Ok(
            DispositionAnswer {
                echo: asked,
                outcome,
            },
        ) => {
            *echo = asked;
            outcomes.fill(room, ended_state(alloc, outcome));
            OK
        }
        Err(refused) => {
            drop(room);
            refused
        }
    }
}

/// Takes the receiver's disposition of the delivery with this tag, which the session finds by the id. `outcomes` gets the
/// delivery if it has ended by it: none, and `AMQP_OK`, if no pending delivery has this tag. If it has ended and `echo` is set,
/// the receiver waits for the sender to settle: send the disposition of `amqp_sender_dispose` with the same state and `settled`
/// true. After a state that ends nothing, `AMQP_RECEIVED`, send none, although `echo` is set: it would settle the delivery.
///
/// Refused in this order, with nothing changed: `AMQP_NO_SUCH_NUMBER` if the kind of the state is none; `AMQP_NO_TEXT` if a
/// text is no UTF-8.
#[unsafe(no_mangle)]
pub extern "C" fn amqp_sender_on_disposition(
    alloc: Global,
    sender: &mut Object,
    tag: &[u8],
    settled: bool,
    state: &DeliveryStateFields,
    condition: &[u8],
    description: &[u8],
    echo: &mut bool,
    outcomes: &mut Object,
) -> Status
    ensures kind { sender_in (value_in sender.old) ≡ None → result ≡ wrong_status (value_in sender.old) }
    ensures taken { result ≡ 0 → OfSender sender.old sender.new (λ before after.
        IsSomeAnd (stated_state state.now condition.now description.now) (λ stated.
        TakesDisposition settled stated tag.now echo.new (outcomes_in (value_in outcomes.new)) before after)) }
    ensures made { result ≡ 0 → IsOutcomesObject outcomes.new }
    ensures number { IsSome (sender_in (value_in sender.old))
        → (result ≡ 5) ↔ (stated_state state.now condition.now description.now ≡ None) }
    ensures no_text { result ≡ 4 → ¬ (AreTexts (CarriesError state.now)
        state.now.has_description condition.now description.now) }
    ensures utf8 { IsSome (sender_in (value_in sender.old)) → IsValueRefusal result ⊎ AreTexts (CarriesError state.now)
        state.now.has_description condition.now description.now }
    ensures condition { result ≡ 3 → CarriesError state.now → IsUtf8 condition.now }
    ensures refused { IsSome (sender_in (value_in sender.old)) → (result ≡ 0) ⊎ IsValueRefusal result }
    ensures left { (result ≡ 0 → ⊥) → (value_in sender.new ≡ value_in sender.old) × (echo.new ≡ echo.old)
        × (value_in outcomes.new ≡ value_in outcomes.old) }
{
    with_value!(alloc, sender, Sender, ledger => match state.to_state(alloc, condition, description) {
        Ok(state) => take_into(alloc, ledger, settled, state, tag, echo, outcomes),
        Err(refused) => refused,
    })
}

// Makes a disposition.
fn dispose(
    alloc: Global,
    ledger: &mut OutcomeLedger<Target>,
    delivery_id: u32,
    tag: &[u8],
    settled: bool,
    state: DeliveryState,
) -> Result<(Vec<LinkFrame>, Outcomes), u32>
    ensures disposed { IfOk result (λ answer.
        Disposes delivery_id tag.now settled state answer.0.items answer.1.items ledger.old ledger.new) }
    ensures refused { IfErr result (λ status. status ≡ 3) }
    ensures left { OnErr result (ledger.new ≡ ledger.old) }
{
    let Ok(tag) = DeliveryTag::copied(alloc, tag) else {
        drop(state);
        return Err(OUT_OF_MEMORY);
    };
    let answered = ledger.dispose(delivery_id, &tag, settled, state, false);
    drop(tag);
    match answered {
        Ok(answer) => Ok(answer),
        Err(_) => Err(OUT_OF_MEMORY),
    }
}

// The same with its answer put into objects.
fn dispose_into(
    alloc: Global,
    ledger: &mut OutcomeLedger<Target>,
    delivery_id: u32,
    tag: &[u8],
    settled: bool,
    state: DeliveryState,
    frames: &mut Object,
    outcomes: &mut Object,
) -> u32
    ensures disposed { result ≡ 0 → Disposes delivery_id tag.now settled state
        (frames_in (value_in frames.new)) (outcomes_in (value_in outcomes.new)) ledger.old ledger.new }
    ensures made { result ≡ 0 → IsFramesObject frames.new × IsOutcomesObject outcomes.new }
    ensures refused { (result ≡ 0) ⊎ (result ≡ 3) }
    ensures left { (result ≡ 0 → ⊥) →
        (ledger.new ≡ ledger.old) × (value_in frames.new ≡ value_in frames.old)
        × (value_in outcomes.new ≡ value_in outcomes.old) }
{
    let (Some(frames_room), Some(outcomes_room)) = (Room::new(alloc), Room::new(alloc)) else {
        drop(state);
        return OUT_OF_MEMORY;
    };
    match dispose(alloc, ledger, delivery_id, tag, settled, state) {
        Ok((sent, ended)) => {
            frames.fill(frames_room, State::Frames(sent));
            outcomes.fill(outcomes_room, State::Outcomes(ended));
            OK
        }
        Err(refused) => {
            drop((frames_room, outcomes_room));
            refused
        }
    }
}

/// Makes the disposition of a delivery, by its id and its tag, and puts it into `frames`: none on a link that sends all
/// settled. If it settles a pending delivery, `outcomes` gets that.
///
/// Refused in this order, with nothing changed: `AMQP_NO_SUCH_NUMBER` if there is no state of that kind, or none at all;
/// `AMQP_NO_TEXT` if a text is no UTF-8.
#[unsafe(no_mangle)]
pub extern "C" fn amqp_sender_dispose(
    alloc: Global,
    sender: &mut Object,
    delivery_id: u32,
    tag: &[u8],
    settled: bool,
    state: &DeliveryStateFields,
    condition: &[u8],
    description: &[u8],
    frames: &mut Object,
    outcomes: &mut Object,
) -> Status
    ensures kind { sender_in (value_in sender.old) ≡ None → result ≡ wrong_status (value_in sender.old) }
    ensures disposed { result ≡ 0 → OfSender sender.old sender.new (λ before after.
        IsSomeAnd (outcome_stated state.now condition.now description.now) (λ outcome.
        Disposes delivery_id tag.now settled outcome (frames_in (value_in frames.new))
        (outcomes_in (value_in outcomes.new)) before after)) }
    ensures made { result ≡ 0 → IsFramesObject frames.new × IsOutcomesObject outcomes.new }
    ensures number { IsSome (sender_in (value_in sender.old))
        → (result ≡ 5) ↔ (outcome_stated state.now condition.now description.now ≡ None) }
    ensures no_text { result ≡ 4 → ¬ (AreTexts (CarriesError state.now)
        state.now.has_description condition.now description.now) }
    ensures utf8 { IsSome (sender_in (value_in sender.old)) → IsValueRefusal result ⊎ AreTexts (CarriesError state.now)
        state.now.has_description condition.now description.now }
    ensures condition { result ≡ 3 → CarriesError state.now → IsUtf8 condition.now }
    ensures refused { IsSome (sender_in (value_in sender.old)) → (result ≡ 0) ⊎ IsValueRefusal result }
    ensures left { (result ≡ 0 → ⊥) →
        (value_in sender.new ≡ value_in sender.old) × (value_in frames.new ≡ value_in frames.old)
        × (value_in outcomes.new ≡ value_in outcomes.old) }
{
    with_value!(alloc, sender, Sender, ledger => match state.to_state(alloc, condition, description) {
        Ok(Some(state)) => {
            dispose_into(alloc, ledger, delivery_id, tag, settled, state, frames, outcomes)
        }
        Ok(None) => NO_SUCH_NUMBER,
        Err(refused) => refused,
    })
}

// Writes what became of a registration.
fn write_fate(fate: &Fate, kind: &mut u32, outcome: &mut Outcome)
    ensures kind { kind.new ≡ fate_number fate.now }
    ensures outcome { outcome.new ≡ fate_outcome fate.now outcome.old }
{
    *kind = match fate {
        Fate::Pending => FATE_PENDING,
        Fate::Withdrawn => FATE_WITHDRAWN,
        Fate::HandedOut => FATE_HANDED_OUT,
        Fate::Released => FATE_RELEASED,
        Fate::Resolved(resolved) => {
            *outcome = outcome_of(resolved);
            FATE_RESOLVED
        }
    };
}

/// What became of a registration, counted from 0: `AMQP_FATE_PENDING` and so on. Its outcome is written if it is resolved.
///
/// `AMQP_NO_SUCH_ENTRY` past the last registration.
#[unsafe(no_mangle)]
pub extern "C" fn amqp_sender_fate(
    alloc: Global,
    sender: &mut Object,
    number: usize,
    kind: &mut u32,
    outcome: &mut Outcome,
) -> Status
    ensures kind { sender_in (value_in sender.old) ≡ None → result ≡ wrong_status (value_in sender.old) }
    ensures fate { IfSome (sender_in (value_in sender.old)) (λ ledger. MatchOption (slice_get ledger.records number)
        (result ≡ 7)
        (λ entry. (result ≡ 0) × (kind.new ≡ fate_number entry.1) × (outcome.new ≡ fate_outcome entry.1 outcome.old))) }
    ensures unwritten { (result ≡ 0 → ⊥) → (kind.new ≡ kind.old) × (outcome.new ≡ outcome.old) }
    ensures left { value_in sender.new ≡ value_in sender.old }
{
    with_value!(alloc, sender, Sender, ledger => match ledger.fate(number) {
        Some(fate) => {
            write_fate(fate, kind, outcome);
            OK
        }
        None => NO_SUCH_ENTRY,
    })
}

// The error of the rejection with which a registration is resolved, if it is one with an error.
fn fate_error(fate: &Fate) -> Option<&Error>
    ensures { option_copied result ≡ error_of_fate fate.now }
{
    match fate {
        Fate::Resolved(outcome) => error_in(outcome),
        _ => None,
    }
}

// Copies out the error of a registration.
fn copy_fate_error(
    ledger: &OutcomeLedger<Target>,
    number: usize,
    condition: &mut [u8],
    description: &mut [u8],
    sizes: &mut Sizes,
) -> u32
    ensures absent { fate_error_at number ledger.now ≡ None
        → (result ≡ 7) × (condition.new ≡ condition.old) × (description.new ≡ description.old) × (sizes.new ≡ sizes.old) }
    ensures copied { IfSome (fate_error_at number ledger.now) (λ error.
        AreCopied error.condition (description_bytes error) condition.old condition.new
        description.old description.new sizes.new result) }
{
    let Some(fate) = ledger.fate(number) else {
        return NO_SUCH_ENTRY;
    };
    match fate_error(fate) {
        Some(error) => copy_error(error, condition, description, sizes),
        None => NO_SUCH_ENTRY,
    }
}

/// The condition and the description of the error of the rejection with which a registration is resolved. `sizes` says how
/// long they are.
///
/// `AMQP_NO_SUCH_ENTRY` if there is no such registration, or it is not resolved with a rejection that carries an error.
#[unsafe(no_mangle)]
pub extern "C" fn amqp_sender_fate_error(
    alloc: Global,
    sender: &mut Object,
    number: usize,
    condition: &mut [u8],
    description: &mut [u8],
    sizes: &mut Sizes,
) -> Status
    ensures kind { sender_in (value_in sender.old) ≡ None → (result ≡ wrong_status (value_in sender.old))
        × (condition.new ≡ condition.old) × (description.new ≡ description.old) × (sizes.new ≡ sizes.old) }
    ensures absent { IfSome (sender_in (value_in sender.old)) (λ ledger. fate_error_at number ledger ≡ None
        → (result ≡ 7) × (condition.new ≡ condition.old) × (description.new ≡ description.old) × (sizes.new ≡ sizes.old)) }
    ensures copied { IfSome (sender_in (value_in sender.old)) (λ ledger. IfSome (fate_error_at number ledger) (λ error.
        AreCopied error.condition (description_bytes error) condition.old condition.new
        description.old description.new sizes.new result)) }
    ensures left { value_in sender.new ≡ value_in sender.old }
{
    with_value!(alloc, sender, Sender, ledger => copy_fate_error(ledger, number, condition, description, sizes))
}

/// Releases what became of the registrations below this number: neither tag nor outcome of one of them is kept, and their memory
/// is used again. The numbers go on. A number past the last releases all.
///
/// `AMQP_STILL_PENDING`, with nothing changed, if one of them is pending: `first_pending` says which is the first.
#[unsafe(no_mangle)]
pub extern "C" fn amqp_sender_release(
    alloc: Global,
    sender: &mut Object,
    before: usize,
    first_pending: &mut usize,
) -> Status
    ensures kind { sender_in (value_in sender.old) ≡ None → result ≡ wrong_status (value_in sender.old) }
    ensures released { result ≡ 0 → OfSender sender.old sender.new (λ ledger after.
        (after ≡ record ledger { records = with_released before ledger.records }) × NonePending before ledger.records) }
    ensures pending { (result ≡ 0 → ⊥) → IfSome (sender_in (value_in sender.old)) (λ ledger. (result ≡ 51)
        × (first_pending.new < before) × IsFirstPending first_pending.new ledger.records) }
    ensures unwritten { (result ≡ 51 → ⊥) → first_pending.new ≡ first_pending.old }
    ensures left { (result ≡ 0 → ⊥) → value_in sender.new ≡ value_in sender.old }
{
    with_value!(alloc, sender, Sender, ledger => match ledger.release(before) {
        Ok(()) => OK,
        Err(StillPending(first)) => {
            *first_pending = first;
            STILL_PENDING
        }
    })
}

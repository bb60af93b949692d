//! Deliveries that have ended, with their outcomes.
ghost use Rattle.std.specs.Prelude.{◌≡◌, None, IfSome, IsSomeAnd, length, option_and_then, option_copied, slice_get};
ghost use Rattle.amqp_link_c.specs.Reading.{AreCopied, IsCopied, absent_status, description_bytes, outcome_error, outcome_error_at};
ghost use Rattle.amqp_link_c.specs.SenderCalls.{plain_outcome};
ghost use Rattle.amqp_link_object.specs.Objects.{value_in};
ghost use Rattle.amqp_link_object.specs.States.{outcomes_in};

use crate::frames::{Sizes, copy_error};
use amqp_link_flat::delivery_state::{DeliveryStateFields, rejection_error};
use amqp_link_flat::status::{EMPTY, NO_SUCH_ENTRY, OK, Status, status_of_link_ref};
use amqp_link_flat::texts::copy_out;
use amqp_link_object::Object;
use amqp_link_types::delivery::DeliveryOutcome;
use amqp_link_types::types::{DeliveryTag, Error};
use std::alloc::Global;

/// How a delivery has ended.
#[repr(C)]
#[derive(Drop)]
pub struct Outcome {
    /// The peer's state, if it has stated one.
    pub state: DeliveryStateFields,
    /// 0, or why there is no outcome: `AMQP_REMOTE_CLOSED` and so on. There is no state then.
    pub failed: u32,
}

/// An outcome for C.
pub fn outcome_of(outcome: &DeliveryOutcome) -> Outcome
    ensures { result ≡ plain_outcome outcome.now }
{
    match outcome {
        Ok(state) => Outcome {
            state: DeliveryStateFields::of(state),
            failed: OK,
        },
        Err(error) => Outcome {
            state: DeliveryStateFields::of(&None),
            failed: status_of_link_ref(error),
        },
    }
}

/// How many deliveries there are; 0 of an object of another kind.
#[unsafe(no_mangle)]
pub extern "C" fn amqp_outcomes_count(alloc: Global, outcomes: &mut Object) -> usize
    ensures count { result ≡ length (outcomes_in (value_in outcomes.old)) }
    ensures left { value_in outcomes.new ≡ value_in outcomes.old }
{
    let Some(state) = outcomes.take(alloc) else {
        return 0;
    };
    let count = state.outcomes().len();
    outcomes.put(state);
    count
}

// Copies out the tag and the outcome of a delivery.
fn copy_ended(
    list: &[(DeliveryTag, DeliveryOutcome)],
    number: usize,
    outcome: &mut Outcome,
    tag: &mut [u8],
    tag_size: &mut usize,
) -> u32
    ensures absent { slice_get list.now number ≡ None → (result ≡ 7) × (tag.new ≡ tag.old) × (tag_size.new ≡ tag_size.old) }
    ensures copied { IfSome (slice_get list.now number) (λ ended. IsCopied ended.0 tag.old tag.new tag_size.new result) }
    ensures outcome { result ≡ 0 → IsSomeAnd (slice_get list.now number) (λ ended. outcome.new ≡ plain_outcome ended.1) }
    ensures unwritten { (result ≡ 0 → ⊥) → outcome.new ≡ outcome.old }
{
    let Some((name, ended)) = list.get(number) else {
        return NO_SUCH_ENTRY;
    };
    let status = copy_out(name.as_bytes(), tag, tag_size);
    if status == OK {
        *outcome = outcome_of(ended);
    }
    status
}

/// A delivery that has ended, counted from 0: its tag and its outcome.
#[unsafe(no_mangle)]
pub extern "C" fn amqp_outcomes_at(
    alloc: Global,
    outcomes: &mut Object,
    number: usize,
    outcome: &mut Outcome,
    tag: &mut [u8],
    tag_size: &mut usize,
) -> Status
    ensures absent { slice_get (outcomes_in (value_in outcomes.old)) number ≡ None
        → (result ≡ absent_status (value_in outcomes.old)) × (tag.new ≡ tag.old) × (tag_size.new ≡ tag_size.old) }
    ensures copied { IfSome (slice_get (outcomes_in (value_in outcomes.old)) number) (λ ended.
        IsCopied ended.0 tag.old tag.new tag_size.new result) }
    ensures outcome { result ≡ 0 → IsSomeAnd (slice_get (outcomes_in (value_in outcomes.old)) number) (λ ended.
        outcome.new ≡ plain_outcome ended.1) }
    ensures unwritten { (result ≡ 0 → ⊥) → outcome.new ≡ outcome.old }
    ensures left { value_in outcomes.new ≡ value_in outcomes.old }
{
    let Some(state) = outcomes.take(alloc) else {
        return EMPTY;
    };
    let status = copy_ended(state.outcomes(), number, outcome, tag, tag_size);
    outcomes.put(state);
    status
}

// The error of an outcome that is a rejection with one.
pub(crate) fn error_in(outcome: &DeliveryOutcome) -> Option<&Error>
    ensures { option_copied result ≡ outcome_error outcome.now }
{
    match outcome {
        Ok(Some(state)) => rejection_error(state),
        _ => None,
    }
}

// The error of the delivery with this number in a list, if it has one.
fn error_at(ended: &[(DeliveryTag, DeliveryOutcome)], number: usize) -> Option<&Error>
    ensures { option_copied result ≡ option_and_then (λ one. outcome_error one.1) (slice_get ended.now number) }
{
    match ended.get(number) {
        Some((_, outcome)) => error_in(outcome),
        None => None,
    }
}

/// The condition and the description of the error of a rejection.
#[unsafe(no_mangle)]
pub extern "C" fn amqp_outcomes_error(
    alloc: Global,
    outcomes: &mut Object,
    number: usize,
    condition: &mut [u8],
    description: &mut [u8],
    sizes: &mut Sizes,
) -> Status
    ensures absent { outcome_error_at number (value_in outcomes.old) ≡ None → (result ≡ absent_status (value_in outcomes.old))
        × (condition.new ≡ condition.old) × (description.new ≡ description.old) × (sizes.new ≡ sizes.old) }
    ensures copied { IfSome (outcome_error_at number (value_in outcomes.old)) (λ error.
        AreCopied error.condition (description_bytes error) condition.old condition.new
        description.old description.new sizes.new result) }
    ensures left { value_in outcomes.new ≡ value_in outcomes.old }
{
    let Some(state) = outcomes.take(alloc) else {
        return EMPTY;
    };
    let status = match error_at(state.outcomes(), number) {
        Some(error) => copy_error(error, condition, description, sizes),
        None => NO_SUCH_ENTRY,
    };
    outcomes.put(state);
    status
}

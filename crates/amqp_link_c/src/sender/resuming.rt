//! Deliveries that are sent again after an attach, kept for a later one, or given up (2.6.13).
ghost use Rattle.std.specs.Prelude.{◌≡◌, ◌<◌, ◌⊎◌, [], None, IfSome, IsSome, IsSomeAnd, false, length, true, slice_get};
ghost use Rattle.std.specs.Option.{option_map_or};
ghost use Rattle.amqp_link_c.specs.Calls.{IsFramesObject, OfSender, wrong_status};
ghost use Rattle.amqp_link_c.specs.Reading.{IsCopied};
ghost use Rattle.amqp_link_c.specs.SenderResuming.{DoesListed, ListedStatus, Withdraws, resuming_number, step_frames};
ghost use Rattle.amqp_link_object.specs.Objects.{value_in};
ghost use Rattle.amqp_link_object.specs.States.{frames_in, frames_of, kind_number, resuming_in, sender_in};

use amqp_link_core::resumption::ResumingDelivery;
use amqp_link_flat::status::{
    EMPTY, NO_SUCH_ENTRY, OK, OUT_OF_MEMORY, Status, WRONG_KIND, status_of_link,
};
use amqp_link_flat::texts::copy_out;
use amqp_link_ledger::ledger::OutcomeLedger;
use amqp_link_object::{Object, Room, State};
use amqp_link_resuming::listed::{put_back_next, resume_next};
use amqp_link_resuming::steps::Step;
use amqp_link_types::types::{DeliveryTag, Target};
use std::alloc::Global;
use std::collections::VecDeque;

/// The peer has a prefix of the delivery: the rest is sent.
pub const RESUME: u32 = 1;
/// The peer has nothing of it: all of it is sent.
pub const RESEND: u32 = 2;
/// It was withdrawn here, or only the peer knows it: the peer is told to forget it.
pub const ABORT: u32 = 3;
/// It has an outcome here, and another one there. Its own has been decided: nothing is sent.
pub const RESTATE_OUTCOME: u32 = 4;

// What is to be sent, each with its tag.
type List = VecDeque<(DeliveryTag, ResumingDelivery)>;

// The number of a kind.
fn kind_of(delivery: &ResumingDelivery) -> u32
    ensures { result ≡ resuming_number delivery.now }
{
    match delivery {
        ResumingDelivery::Resume { .. } => RESUME,
        ResumingDelivery::Resend(_) => RESEND,
        ResumingDelivery::Abort { .. } => ABORT,
        ResumingDelivery::RestateOutcome { .. } => RESTATE_OUTCOME,
    }
}

/// How many deliveries there are; 0 of an object of another kind.
#[unsafe(no_mangle)]
pub extern "C" fn amqp_resuming_count(alloc: Global, resuming: &mut Object) -> usize
    ensures count { result ≡ option_map_or length (resuming_in (value_in resuming.old)) 0 }
    ensures left { value_in resuming.new ≡ value_in resuming.old }
{
    let Some(state) = resuming.take(alloc) else {
        return 0;
    };
    let count = match state.as_ref() {
        State::Resuming(list) => list.len(),
        _ => 0,
    };
    resuming.put(state);
    count
}

// Copies out the kind and the tag of a delivery.
fn copy_entry(
    list: &List,
    number: usize,
    kind: &mut u32,
    tag: &mut [u8],
    tag_size: &mut usize,
) -> u32
    ensures absent { slice_get list.now.items number ≡ None
        → (result ≡ 7) × (tag.new ≡ tag.old) × (tag_size.new ≡ tag_size.old) }
    ensures copied { IfSome (slice_get list.now.items number) (λ entry. IsCopied entry.0 tag.old tag.new tag_size.new result) }
    ensures kind { result ≡ 0 → IsSomeAnd (slice_get list.now.items number) (λ entry. kind.new ≡ resuming_number entry.1) }
    ensures unwritten { (result ≡ 0 → ⊥) → kind.new ≡ kind.old }
{
    let Some((name, delivery)) = list.get(number) else {
        return NO_SUCH_ENTRY;
    };
    let status = copy_out(name.as_bytes(), tag, tag_size);
    if status == OK {
        *kind = kind_of(delivery);
    }
    status
}

/// A delivery of the list, counted from 0: its kind, `AMQP_RESUME` and so on, and its tag.
#[unsafe(no_mangle)]
pub extern "C" fn amqp_resuming_at(
    alloc: Global,
    resuming: &mut Object,
    number: usize,
    kind: &mut u32,
    tag: &mut [u8],
    tag_size: &mut usize,
) -> Status
    ensures kind { resuming_in (value_in resuming.old) ≡ None
        → (result ≡ wrong_status (value_in resuming.old)) × (tag.new ≡ tag.old) × (tag_size.new ≡ tag_size.old) }
    ensures absent { IfSome (resuming_in (value_in resuming.old)) (λ list. slice_get list number ≡ None
        → (result ≡ 7) × (tag.new ≡ tag.old) × (tag_size.new ≡ tag_size.old)) }
    ensures copied { IfSome (resuming_in (value_in resuming.old)) (λ list. IfSome (slice_get list number) (λ entry.
        IsCopied entry.0 tag.old tag.new tag_size.new result)) }
    ensures entry { result ≡ 0 → IsSomeAnd (resuming_in (value_in resuming.old)) (λ list.
        IsSomeAnd (slice_get list number) (λ entry. kind.new ≡ resuming_number entry.1)) }
    ensures unwritten { (result ≡ 0 → ⊥) → kind.new ≡ kind.old }
    ensures left { value_in resuming.new ≡ value_in resuming.old }
{
    with_value!(alloc, resuming, Resuming, list => copy_entry(list, number, kind, tag, tag_size))
}

// The frames of what was done of a delivery: none, if nothing is to be sent.
fn state_of_step(alloc: Global, step: Step) -> State
    ensures frames { frames_of result ≡ step_frames step }
    ensures kind { kind_number result ≡ 3 }
{
    match step {
        Step::Sent(frames) => State::Frames(frames),
        Step::Aborted(frame, tag) => {
            drop(tag);
            State::Frame(frame)
        }
        other => {
            drop(other);
            State::Frames(Vec::new(alloc))
        }
    }
}

// Sends what the first delivery of the list asks for, and takes it out of the list.
fn resume(
    alloc: Global,
    ledger: &mut OutcomeLedger<Target>,
    list: &mut List,
    frames: &mut Object,
) -> u32
    ensures done { result ≡ 0 → DoesListed true list.old.items list.new.items (frames_in (value_in frames.new)) ledger.old ledger.new }
    ensures made { result ≡ 0 → IsFramesObject frames.new }
    ensures refused { ListedStatus true list.old.items result ledger.old }
    ensures left { (result ≡ 0 → ⊥) → (ledger.new ≡ ledger.old) × (list.new.items ≡ list.old.items)
        × (value_in frames.new ≡ value_in frames.old) }
{
    let Some(room) = Room::new(alloc) else {
        return OUT_OF_MEMORY;
    };
    match resume_next(ledger, list) {
        Ok(Step::Nothing) => {
            drop(room);
            NO_SUCH_ENTRY
        }
        Ok(step) => {
            frames.fill(room, state_of_step(alloc, step));
            OK
        }
        Err(refused) => {
            drop(room);
            status_of_link(refused)
        }
    }
}

// The same of a sender in an object.
fn resume_in(alloc: Global, sender: &mut Object, list: &mut List, frames: &mut Object) -> u32
    ensures kind { sender_in (value_in sender.old) ≡ None → result ≡ wrong_status (value_in sender.old) }
    ensures done { result ≡ 0 → OfSender sender.old sender.new
        (DoesListed true list.old.items list.new.items (frames_in (value_in frames.new))) }
    ensures made { result ≡ 0 → IsFramesObject frames.new }
    ensures refused { IfSome (sender_in (value_in sender.old)) (ListedStatus true list.old.items result) }
    ensures left { (result ≡ 0 → ⊥) → (value_in sender.new ≡ value_in sender.old) × (list.new.items ≡ list.old.items)
        × (value_in frames.new ≡ value_in frames.old) }
{
    with_value!(alloc, sender, Sender, ledger => resume(alloc, ledger, list, frames))
}

/// Sends what the first delivery of the list asks for, and takes it out of the list. `frames` gets the frames to send: none of
/// one whose outcome is decided, `AMQP_RESTATE_OUTCOME`: that outcome is dropped, and the fate of its registration stays
/// `AMQP_FATE_HANDED_OUT`. `AMQP_RESUME` sends what follows the position that the peer has stated; all, if that has no place in
/// the payload, which the peer appends to what it has. It and `AMQP_RESEND` register the delivery anew, and take no credit. Once
/// the list is empty send the flow of `amqp_sender_send_flow`: a receiver that has counted what was resumed takes the count from
/// it.
///
/// Refused in this order, with nothing changed: `AMQP_EMPTY` and `AMQP_WRONG_KIND` of `resuming`, and then of `sender`;
/// `AMQP_NO_SUCH_ENTRY` of an empty list; `AMQP_ILLEGAL_STATE` without handles; `AMQP_TAG_PENDING`; `AMQP_NO_ROOM`.
#[unsafe(no_mangle)]
pub extern "C" fn amqp_sender_resume(
    alloc: Global,
    sender: &mut Object,
    resuming: &mut Object,
    frames: &mut Object,
) -> Status
    ensures list { resuming_in (value_in resuming.old) ≡ None
        → (result ≡ wrong_status (value_in resuming.old)) × (value_in resuming.new ≡ value_in resuming.old) }
    ensures kind { IsSome (resuming_in (value_in resuming.old)) → sender_in (value_in sender.old) ≡ None
        → result ≡ wrong_status (value_in sender.old) }
    ensures done { result ≡ 0 → IsSomeAnd (resuming_in (value_in resuming.old)) (λ list.
        IsSomeAnd (resuming_in (value_in resuming.new)) (λ rest. OfSender sender.old sender.new
        (DoesListed true list rest (frames_in (value_in frames.new))))) }
    ensures made { result ≡ 0 → IsFramesObject frames.new }
    ensures refused { IfSome (resuming_in (value_in resuming.old)) (λ list.
        IfSome (sender_in (value_in sender.old)) (ListedStatus true list result)) }
    ensures left { (result ≡ 0 → ⊥) →
        (value_in sender.new ≡ value_in sender.old) × (resuming_in (value_in resuming.new) ≡ resuming_in (value_in resuming.old))
        × (value_in frames.new ≡ value_in frames.old) }
{
    with_value!(alloc, resuming, Resuming, list => resume_in(alloc, sender, list, frames))
}

// Keeps the first delivery of the list for a later attach.
fn put_back(ledger: &mut OutcomeLedger<Target>, list: &mut List) -> u32
    ensures done { result ≡ 0 → DoesListed false list.old.items list.new.items [] ledger.old ledger.new }
    ensures refused { ListedStatus false list.old.items result ledger.old }
    ensures left { (result ≡ 0 → ⊥) → (ledger.new ≡ ledger.old) × (list.new.items ≡ list.old.items) }
{
    match put_back_next(ledger, list) {
        Ok(Step::Nothing) => NO_SUCH_ENTRY,
        Ok(step) => {
            drop(step);
            OK
        }
        Err(refused) => status_of_link(refused),
    }
}

// The same of a sender in an object.
fn put_back_in(alloc: Global, sender: &mut Object, list: &mut List) -> u32
    ensures kind { sender_in (value_in sender.old) ≡ None → result ≡ wrong_status (value_in sender.old) }
    ensures done { result ≡ 0 → OfSender sender.old sender.new (DoesListed false list.old.items list.new.items []) }
    ensures refused { IfSome (sender_in (value_in sender.old)) (ListedStatus false list.old.items result) }
    ensures left { (result ≡ 0 → ⊥) → (value_in sender.new ≡ value_in sender.old) × (list.new.items ≡ list.old.items) }
{
    with_value!(alloc, sender, Sender, ledger => put_back(ledger, list))
}

/// Keeps the first delivery of the list for a later attach, and takes it out of the list: it is the next registration. Of
/// `AMQP_ABORT` and `AMQP_RESTATE_OUTCOME` nothing is kept: the outcome of the latter is dropped, and the fates of their
/// registrations stay as they are.
///
/// Refused in this order, with nothing changed: `AMQP_EMPTY` and `AMQP_WRONG_KIND` of `resuming`, and then of `sender`;
/// `AMQP_NO_SUCH_ENTRY` of an empty list; `AMQP_TAG_PENDING`.
#[unsafe(no_mangle)]
pub extern "C" fn amqp_sender_put_back(
    alloc: Global,
    sender: &mut Object,
    resuming: &mut Object,
) -> Status
    ensures list { resuming_in (value_in resuming.old) ≡ None
        → (result ≡ wrong_status (value_in resuming.old)) × (value_in resuming.new ≡ value_in resuming.old) }
    ensures kind { IsSome (resuming_in (value_in resuming.old)) → sender_in (value_in sender.old) ≡ None
        → result ≡ wrong_status (value_in sender.old) }
    ensures done { result ≡ 0 → IsSomeAnd (resuming_in (value_in resuming.old)) (λ list.
        IsSomeAnd (resuming_in (value_in resuming.new)) (λ rest. OfSender sender.old sender.new
        (DoesListed false list rest []))) }
    ensures refused { IfSome (resuming_in (value_in resuming.old)) (λ list.
        IfSome (sender_in (value_in sender.old)) (ListedStatus false list result)) }
    ensures left { (result ≡ 0 → ⊥) → (value_in sender.new ≡ value_in sender.old)
        × (resuming_in (value_in resuming.new) ≡ resuming_in (value_in resuming.old)) }
{
    with_value!(alloc, resuming, Resuming, list => put_back_in(alloc, sender, list))
}

// Gives a delivery up.
fn withdraw(
    alloc: Global,
    ledger: &mut OutcomeLedger<Target>,
    tag: &[u8],
    was_pending: &mut bool,
) -> u32
    ensures withdrawn { result ≡ 0 → Withdraws tag.now was_pending.new ledger.old ledger.new }
    ensures refused { (result ≡ 0) ⊎ (result ≡ 3) }
    ensures memory { result ≡ 3 → 16 < length tag.now }
    ensures left { (result ≡ 0 → ⊥) → (ledger.new ≡ ledger.old) × (was_pending.new ≡ was_pending.old) }
{
    let Ok(tag) = DeliveryTag::copied(alloc, tag) else {
        return OUT_OF_MEMORY;
    };
    let entry = ledger.withdraw(&tag);
    *was_pending = entry.is_some();
    drop((entry, tag));
    OK
}

/// Gives up the delivery with this tag, if it is pending: no outcome of it is returned any more. Its payload is dropped.
/// If the peer still states it in a later attach, it is listed as `AMQP_ABORT`. Allocates only for a tag of more than 16 bytes.
#[unsafe(no_mangle)]
pub extern "C" fn amqp_sender_withdraw(
    alloc: Global,
    sender: &mut Object,
    tag: &[u8],
    was_pending: &mut bool,
) -> Status
    ensures kind { sender_in (value_in sender.old) ≡ None → result ≡ wrong_status (value_in sender.old) }
    ensures withdrawn { result ≡ 0 → OfSender sender.old sender.new (Withdraws tag.now was_pending.new) }
    ensures refused { IsSome (sender_in (value_in sender.old)) → (result ≡ 0) ⊎ (result ≡ 3) }
    ensures memory { result ≡ 3 → 16 < length tag.now }
    ensures left { (result ≡ 0 → ⊥) → (value_in sender.new ≡ value_in sender.old) × (was_pending.new ≡ was_pending.old) }
{
    with_value!(alloc, sender, Sender, ledger => withdraw(alloc, ledger, tag, was_pending))
}

//! How a sender is attached (2.6.3, 2.6.13).
ghost use Rattle.std.specs.Prelude.{◌≡◌, None, IfErr, IfOk, IfSome, IsSome, IsSomeAnd, OnErr};
ghost use Rattle.amqp_link_c.specs.Calls.{IsOutcomesObject, OfSender, attach_state, wrong_status};
ghost use Rattle.amqp_link_c.specs.SenderAttach.{RefusesAttach, RefusesToAttach, SendsOwnAttach, TakesAttach, is_incomplete_after};
ghost use Rattle.amqp_link_ledger.specs.Exchanging.{deliveries_in};
ghost use Rattle.amqp_link_object.specs.Objects.{value_in};
ghost use Rattle.amqp_link_object.specs.States.{attach_in, attach_of, outcomes_in, resuming_in, sender_in};

use amqp_link_core::resumption::ResumingDelivery;
use amqp_link_endpoint::endpoint::LinkAttach;
use amqp_link_flat::status::{
    EMPTY, OK, OUT_OF_MEMORY, Status, WRONG_KIND, status_of_sender_attach,
};
use amqp_link_ledger::ledger::OutcomeLedger;
use amqp_link_object::{Object, Room, State};
use amqp_link_sender::SenderAttachExchange;
use amqp_link_types::delivery::Outcomes;
use amqp_link_types::frame::LinkFrame;
use amqp_link_types::types::{Attach, DeliveryTag, Target};
use std::alloc::Global;
use std::collections::VecDeque;

// What is to be sent again, each with its tag.
type List = VecDeque<(DeliveryTag, ResumingDelivery)>;

// The attach in a frame.
pub(crate) fn state_of_attach(frame: LinkFrame) -> State
    ensures { result ≡ attach_state frame }
{
    match frame {
        LinkFrame::Attach(attach) => State::Attach(attach.into_inner()),
        frame => State::Frame(frame),
    }
}

// The attach to send as an object has it, and the outcomes of the deliveries that end by it.
#[tactic(auto, using(crate::proofs::AttachLemmas::own_attach))]
fn own_attach(
    ledger: &mut OutcomeLedger<Target>,
    is_reattaching: bool,
) -> Result<(State, Outcomes), u32>
    ensures sent { IfOk result (λ made.
        SendsOwnAttach is_reattaching (attach_of made.0) made.1.items ledger.old ledger.new) }
    ensures refused { IfErr result (λ status. RefusesToAttach is_reattaching status ledger.old) }
    ensures status { IfErr result (λ status. status ≡ 0 → ⊥) }
    ensures left { OnErr result (ledger.new ≡ ledger.old) }
{
    match ledger.send_attach(is_reattaching) {
        Ok((frame, ended)) => Ok((state_of_attach(frame), ended)),
        Err(refused) => Err(status_of_sender_attach(refused)),
    }
}

// The same with its answer put into objects.
fn send_attach(
    alloc: Global,
    ledger: &mut OutcomeLedger<Target>,
    is_reattaching: bool,
    attach: &mut Object,
    outcomes: &mut Object,
) -> u32
    ensures sent { result ≡ 0 → SendsOwnAttach is_reattaching (attach_in (value_in attach.new))
        (outcomes_in (value_in outcomes.new)) ledger.old ledger.new }
    ensures made { result ≡ 0 → IsOutcomesObject outcomes.new }
    ensures refused { (result ≡ 0 → ⊥) → RefusesToAttach is_reattaching result ledger.old }
    ensures left { (result ≡ 0 → ⊥) →
        (ledger.new ≡ ledger.old) × (value_in attach.new ≡ value_in attach.old)
        × (value_in outcomes.new ≡ value_in outcomes.old) }
{
    let (Some(attach_room), Some(outcomes_room)) = (Room::new(alloc), Room::new(alloc)) else {
        return OUT_OF_MEMORY;
    };
    match own_attach(ledger, is_reattaching) {
        Ok((made, ended)) => {
            outcomes.fill(outcomes_room, State::Outcomes(ended));
            attach.fill(attach_room, made);
            OK
        }
        Err(refused) => {
            drop((attach_room, outcomes_room));
            refused
        }
    }
}

/// Puts the attach to send into `attach`. Pass false for `is_reattaching` to resume what is unsettled; true is for a link that
/// begins anew: its attach states no delivery, and each pending one fails, which `outcomes` gets. If the attach does not fit the
/// frame limit, it states only some of the unsettled deliveries, and says so. Call it before `amqp_sender_on_attach`, also where
/// the peer's attach has arrived: made after that call it states no listed delivery, and the receiver forgets them.
///
/// Refused with nothing changed: `AMQP_ILLEGAL_STATE` without output handle, or in a state from which no attach is sent, which
/// are all but `AMQP_STATE_UNATTACHED`, `AMQP_STATE_DETACHED`, `AMQP_STATE_DETACH_SENT` and those in which an attach has
/// arrived; `AMQP_ATTACH_TOO_LARGE`.
#[unsafe(no_mangle)]
pub extern "C" fn amqp_sender_send_attach(
    alloc: Global,
    sender: &mut Object,
    is_reattaching: bool,
    attach: &mut Object,
    outcomes: &mut Object,
) -> Status
    ensures kind { sender_in (value_in sender.old) ≡ None → result ≡ wrong_status (value_in sender.old) }
    ensures sent { result ≡ 0 → OfSender sender.old sender.new (SendsOwnAttach is_reattaching
        (attach_in (value_in attach.new)) (outcomes_in (value_in outcomes.new))) }
    ensures made { result ≡ 0 → IsOutcomesObject outcomes.new }
    ensures refused { (result ≡ 0 → ⊥) → IfSome (sender_in (value_in sender.old))
        (RefusesToAttach is_reattaching result) }
    ensures left { (result ≡ 0 → ⊥) →
        (value_in sender.new ≡ value_in sender.old) × (value_in attach.new ≡ value_in attach.old)
        × (value_in outcomes.new ≡ value_in outcomes.old) }
{
    with_value!(alloc, sender, Sender, ledger => {
        send_attach(alloc, ledger, is_reattaching, attach, outcomes)
    })
}

// The deliveries to send again, and whether the exchange is incomplete.
fn list_of(alloc: Global, exchange: SenderAttachExchange) -> (List, bool)
    ensures list { result.0.items ≡ deliveries_in exchange }
    ensures incomplete { result.1 ≡ is_incomplete_after exchange }
{
    match exchange {
        SenderAttachExchange::Complete => (VecDeque::new(alloc), false),
        SenderAttachExchange::IncompleteUnsettled(list) => {
            (VecDeque::from_vec(list.into_vec()), true)
        }
        SenderAttachExchange::Resume(list) => (VecDeque::from_vec(list.into_vec()), false),
    }
}

// Takes a copy of an attach. Returns the deliveries to send again, whether the exchange is incomplete, and the outcomes.
fn take_copy(
    alloc: Global,
    ledger: &mut OutcomeLedger<Target>,
    attach: &Attach,
) -> Result<((List, bool), Outcomes), u32>
    ensures taken { IfOk result (λ taken.
        TakesAttach attach.now taken.0.0.items taken.0.1 taken.1.items ledger.old ledger.new) }
    ensures refused { IfErr result (λ status. RefusesAttach attach.now status ledger.old ledger.new) }
    ensures status { IfErr result (λ status. status ≡ 0 → ⊥) }
{
    let Ok(copy) = attach.clone() else {
        return Err(OUT_OF_MEMORY);
    };
    match ledger.on_incoming_attach(copy) {
        Ok((exchange, ended)) => Ok((list_of(alloc, exchange), ended)),
        Err(refused) => Err(status_of_sender_attach(refused)),
    }
}

// The same with its answer put into objects.
fn take_attach(
    alloc: Global,
    ledger: &mut OutcomeLedger<Target>,
    attach: &Attach,
    resuming: &mut Object,
    is_incomplete: &mut bool,
    outcomes: &mut Object,
) -> u32
    ensures taken { result ≡ 0 → IsSomeAnd (resuming_in (value_in resuming.new)) (λ list.
        TakesAttach attach.now list is_incomplete.new (outcomes_in (value_in outcomes.new)) ledger.old ledger.new) }
    ensures made { result ≡ 0 → IsOutcomesObject outcomes.new }
    ensures refused { (result ≡ 0 → ⊥) → RefusesAttach attach.now result ledger.old ledger.new }
    ensures left { (result ≡ 0 → ⊥) →
        (value_in resuming.new ≡ value_in resuming.old) × (is_incomplete.new ≡ is_incomplete.old)
        × (value_in outcomes.new ≡ value_in outcomes.old) }
{
    let (Some(resuming_room), Some(outcomes_room)) = (Room::new(alloc), Room::new(alloc)) else {
        return OUT_OF_MEMORY;
    };
    match take_copy(alloc, ledger, attach) {
        Ok(((list, incomplete), ended)) => {
            *is_incomplete = incomplete;
            resuming.fill(resuming_room, State::Resuming(list));
            outcomes.fill(outcomes_room, State::Outcomes(ended));
            OK
        }
        Err(refused) => {
            drop((resuming_room, outcomes_room));
            refused
        }
    }
}

// The same of a sender in an object.
fn take_into(
    alloc: Global,
    sender: &mut Object,
    attach: &Attach,
    resuming: &mut Object,
    is_incomplete: &mut bool,
    outcomes: &mut Object,
) -> u32
    ensures kind { sender_in (value_in sender.old) ≡ None
        → (result ≡ wrong_status (value_in sender.old)) × (value_in sender.new ≡ value_in sender.old) }
    ensures taken { result ≡ 0 → OfSender sender.old sender.new (λ before after.
        IsSomeAnd (resuming_in (value_in resuming.new)) (λ list.
        TakesAttach attach.now list is_incomplete.new (outcomes_in (value_in outcomes.new)) before after)) }
    ensures made { result ≡ 0 → IsOutcomesObject outcomes.new }
    ensures refused { (result ≡ 0 → ⊥) → OfSender sender.old sender.new (RefusesAttach attach.now result) }
    ensures left { (result ≡ 0 → ⊥) →
        (value_in resuming.new ≡ value_in resuming.old) × (is_incomplete.new ≡ is_incomplete.old)
        × (value_in outcomes.new ≡ value_in outcomes.old) }
{
    with_value!(alloc, sender, Sender, ledger => {
        take_attach(alloc, ledger, attach, resuming, is_incomplete, outcomes)
    })
}

/// Takes the receiver's attach; `attach` keeps what it has. `resuming` gets the deliveries to send again, `outcomes`
/// those that have ended by what both attaches state. The listed deliveries are in `resuming` alone: resume or put back all of
/// them before it is freed or filled, and before the next attach.
///
/// After an incomplete exchange begin nothing new (2.7.3): put back what is listed as `AMQP_RESEND`, resume the others, have them
/// settled, send the detach of `amqp_link_detach_frame`, and attach again.
///
/// The name and the role in `attach` are not compared with the link's: the session finds the link by them.
///
/// Refused in this order: `AMQP_EMPTY` and `AMQP_WRONG_KIND` of `attach`, and then of `sender`; `AMQP_ILLEGAL_STATE`, with
/// nothing changed, in all states but `AMQP_STATE_UNATTACHED`, `AMQP_STATE_DETACHED` and those in which an attach was sent;
/// and with the state moved and the input handle set, `AMQP_SOURCE_ADDRESS_IS_SOME_WHEN_DYNAMIC_IS_TRUE`,
/// `AMQP_INCOMING_TARGET_IS_NONE`, `AMQP_TARGET_ADDRESS_IS_NONE_WHEN_DYNAMIC_IS_TRUE`, and
/// `AMQP_SND_SETTLE_MODE_NOT_SUPPORTED`, with the peer's target and `rcv_settle_mode` taken too. After these four
/// `amqp_sender_attach_failed` makes the detach to send.
#[unsafe(no_mangle)]
pub extern "C" fn amqp_sender_on_attach(
    alloc: Global,
    sender: &mut Object,
    attach: &mut Object,
    resuming: &mut Object,
    is_incomplete: &mut bool,
    outcomes: &mut Object,
) -> Status
    ensures attach { attach_in (value_in attach.old) ≡ None → (result ≡ wrong_status (value_in attach.old))
        × (value_in sender.new ≡ value_in sender.old) }
    ensures kind { IsSome (attach_in (value_in attach.old)) → sender_in (value_in sender.old) ≡ None
        → (result ≡ wrong_status (value_in sender.old)) × (value_in sender.new ≡ value_in sender.old) }
    ensures taken { result ≡ 0 → OfSender sender.old sender.new (λ before after.
        IsSomeAnd (attach_in (value_in attach.old)) (λ theirs. IsSomeAnd (resuming_in (value_in resuming.new)) (λ list.
        TakesAttach theirs list is_incomplete.new (outcomes_in (value_in outcomes.new)) before after))) }
    ensures made { result ≡ 0 → IsOutcomesObject outcomes.new }
    ensures refused { (result ≡ 0 → ⊥) → IfSome (attach_in (value_in attach.old)) (λ theirs.
        OfSender sender.old sender.new (RefusesAttach theirs result)) }
    ensures kept { value_in attach.new ≡ value_in attach.old }
    ensures left { (result ≡ 0 → ⊥) →
        (value_in resuming.new ≡ value_in resuming.old) × (is_incomplete.new ≡ is_incomplete.old)
        × (value_in outcomes.new ≡ value_in outcomes.old) }
{
    let Some(held) = attach.take(alloc) else {
        return EMPTY;
    };
    let status = match held.as_ref() {
        State::Attach(theirs) => take_into(
            alloc,
            sender,
            theirs,
            resuming,
            is_incomplete,
            outcomes,
        ),
        _ => WRONG_KIND,
    };
    attach.put(held);
    status
}

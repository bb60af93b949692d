//! A consumer: it hands out each message that arrives once, and accepts it, through any lost sessions and with any peer
//! (2.6.12, 2.7.5).
//!
//! It attaches an inbox (`Inbox::send_attach`, `on_incoming_attach`) and states a window (`send_flow`). Each transfer goes to
//! `take_in`, and each message that its user has done with to `accept`. A lost session goes to `on_session_lost`; then it
//! attaches again. The link's mode is `First`, so that its session keeps nothing of a delivery (`Arrived::session` is none).
ghost use Rattle.std.specs.Prelude.{◌≡◌, ◌⊎◌, ◌++◌, ◌∷◌, [], None, Some, Err, IfErr, IfOk, IfNone, IfSome, IsSome, IsSomeAnd, OnErr};
ghost use Rattle.amqp_link.specs.Bytes.{bytes_at, bytes_before};
ghost use Rattle.amqp_link.specs.Disposing.{outcome_refusal};
ghost use Rattle.amqp_link.specs.Entries.{changed_at, entry_at, without_entry};
ghost use Rattle.amqp_link.specs.Inboxes.{Arrives, is_new, resumed_at, tag_of};
ghost use Rattle.amqp_link.specs.IncompleteRefusals.{AreReturned};
ghost use Rattle.amqp_link.specs.declared.inbox.Arrived.{Arrived as TheArrived};

use amqp_link::inbox::{Arrival, Arrived, DisposeError, Inbox, TakeError};
use amqp_link::incomplete_transfer::RefusedTransfer;
use amqp_link::types::{Target, Transfer};
use amqp_link::{Delivery, DeliveryState, DeliveryTag, LinkFrame, Payload, Whole, laws};

/// Why no message is taken in.
#[derive(Debug, Drop)]
pub enum TakeInError {
    /// The inbox refuses the transfer, which is handed back.
    Transfer(RefusedTransfer),
    /// The delivery is complete, and its message is not taken: `Inbox::take` is to be called again.
    Take(TakeError),
}

/// Takes a transfer from the session. Returns the message of the delivery that it completes, once, if its sender has not
/// settled it; one that is settled waits in the inbox (`Inbox::take_settled`).
///
/// Refused as `on_incoming_transfer` is, with nothing changed, and then as `take` is.
pub fn take_in(
    inbox: &mut Inbox<Target>,
    transfer: Transfer,
    payload: Payload,
) -> Result<Option<Delivery<Whole>>, TakeInError>
    ensures whole { IfOk result (λ came. IfSome came (λ delivery. IsSomeAnd (tag_of inbox.old transfer) (λ tag.
        delivery.message.body.0 ≡ bytes_before (is_new inbox.old transfer) (resumed_at inbox.old transfer)
        (bytes_at inbox.old.deliveries tag) ++ payload))) }
    ensures none { IfOk result (λ message. IfNone message ((came : TheArrived) × Arrives inbox.old transfer payload came inbox.new
        × (came.arrival ≡ Arrival.Complete → came.tag ≡ None))) }
    ensures back { (refused : _) → result ≡ Err (TakeInError.Transfer refused)
        → AreReturned transfer payload refused × (inbox.new ≡ inbox.old) }
{
    laws::bytes_are_those_that_came::<Target>();
    inbox.link(); // it states what the inbox keeps
    match inbox.on_incoming_transfer(transfer, payload) {
        Ok(came) => hand_out_if_complete(inbox, came),
        Err(refused) => Err(TakeInError::Transfer(refused)),
    }
}

// The message of a delivery that a transfer has completed.
fn hand_out_if_complete(
    inbox: &mut Inbox<Target>,
    came: Arrived,
) -> Result<Option<Delivery<Whole>>, TakeInError>
    ensures whole { IfOk result (λ message. IfSome message (λ delivery. (came.arrival ≡ Arrival.Complete)
        × IsSomeAnd came.tag (λ tag. bytes_at inbox.old.deliveries tag ≡ Some delivery.message.body.0))) }
    ensures none { IfOk result (λ message. IfNone message ((inbox.new ≡ inbox.old)
        × (came.arrival ≡ Arrival.Complete → came.tag ≡ None))) }
    ensures refused { IfErr result (λ error. (why : _) × (error ≡ TakeInError.Take why)) }
{
    let Arrived {
        arrival,
        tag,
        session,
        ..
    } = came;
    drop(session);
    match (arrival, tag) {
        (Arrival::Complete, Some(tag)) => hand_out(inbox, tag),
        (_, tag) => {
            drop(tag);
            Ok(None)
        }
    }
}

fn hand_out(
    inbox: &mut Inbox<Target>,
    tag: DeliveryTag,
) -> Result<Option<Delivery<Whole>>, TakeInError>
    ensures whole { IfOk result (λ came. IfSome came (λ delivery.
        bytes_at inbox.old.deliveries tag ≡ Some delivery.message.body.0)) }
    ensures taken { IfOk result (λ came. IsSome came) }
    ensures refused { IfErr result (λ error. (why : _) × (error ≡ TakeInError.Take why)) }
{
    let taken = inbox.take::<Whole>(&tag);
    drop(tag);
    match taken {
        Ok(delivery) => Ok(Some(delivery)),
        Err(refused) => Err(TakeInError::Take(refused)),
    }
}

/// Accepts a message that was taken in: the disposition to send, which settles its delivery. While none can be sent, the link
/// is not attached or the sender has not resumed the delivery, the outcome is kept, and goes out with the next attach.
///
/// Refused with nothing changed, and only with `UnknownTag`, `NotTaken` or `OutOfMemory`.
pub fn accept(
    inbox: &mut Inbox<Target>,
    tag: &DeliveryTag,
) -> Result<Option<LinkFrame>, DisposeError>
    ensures unsent { IfOk result (λ sent. IfNone sent (inbox.new ≡ record inbox.old {
      link = record inbox.old.link {
        unsettled = changed_at (λ _. Some DeliveryState.Accepted) (tag.now ∷ []) inbox.old.link.unsettled;
      };
    })) }
    ensures settled { IfOk result (λ sent. IsSome sent
        → inbox.new.deliveries ≡ without_entry inbox.old.deliveries tag.now) }
    ensures refused { IfErr result (λ error. (error ≡ DisposeError.OutOfMemory)
        ⊎ (outcome_refusal (entry_at inbox.old.deliveries tag.now) ≡ Some error)) }
    ensures left { OnErr result (inbox.new ≡ inbox.old) }
{
    match inbox.dispose(tag, Some(true), DeliveryState::Accepted, false) {
        Ok(frame) => Ok(Some(frame)),
        Err(DisposeError::NotAttached | DisposeError::NotResumed) => {
            inbox.keep_outcome(tag, DeliveryState::Accepted)?;
            Ok(None)
        }
        Err(refused) => Err(refused),
    }
}

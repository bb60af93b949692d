//! What is done of one delivery that an exchange lists (2.6.13).
ghost use Rattle.std.specs.Prelude.{◌≡◌, ◌∷◌, [], None, Ok, Some, IfErr, IfOk, OnErr, OnOk, false, true};
ghost use Rattle.amqp_link_types.specs.Refusals.{refusal};
ghost use Rattle.amqp_link_sender.specs.Senders.{is_pending};
ghost use Rattle.amqp_link_resuming.specs.ResumingSteps.{DoesOf, StopsStep, left_as, step_tests};

use crate::sending::{send_again, send_rest};
use amqp_link_core::resumption::ResumingDelivery;
use amqp_link_endpoint::endpoint::target::LinkTarget;
use amqp_link_ledger::ledger::OutcomeLedger;
use amqp_link_types::delivery::{DeliveryOutcome, UnsettledMessage};
use amqp_link_types::frame::LinkFrame;
use amqp_link_types::types::{DeliveryState, DeliveryTag, LinkStateError, MessageFormat, Payload};

/// What was done of a delivery that an exchange lists.
#[derive(Debug, Drop)]
pub enum Step {
    /// It is sent again: its transfers, to be sent in this order. It is pending, under a new registration.
    Sent(Vec<LinkFrame>),
    /// It is given up: the transfer to send, by which the peer forgets it, and its tag.
    Aborted(LinkFrame, DeliveryTag),
    /// It has ended, and nothing is sent: its tag, and its outcome at the sender. One that is to be aborted and is not
    /// sent has none (`Ok(None)`).
    Ended(DeliveryTag, DeliveryOutcome),
    /// It is registered again, so that the next attach states it: nothing is sent.
    PutBack,
    /// The list is empty: only `resume_next` and `put_back_next` return it.
    Nothing,
}

/// A delivery of which nothing was done, and why: it is returned as it was passed.
#[derive(Debug, Drop)]
pub struct Left {
    /// Why nothing was done.
    pub refused: LinkStateError,
    /// The tag of the delivery.
    pub tag: DeliveryTag,
    /// What is to be done of it.
    pub next: ResumingDelivery,
}

/// Does with a listed delivery what the exchange asks for (2.6.13): sends its rest (`send_rest`), or the whole of it
/// (`send_again`), makes the transfer that aborts it (`SenderLink::send_abort`), or returns the outcome that the sender
/// has decided. A delivery that is sent has a new registration; otherwise the ledger is unchanged. Spends no credit.
///
/// Refused in this order, with nothing changed and the delivery returned: `IllegalState` without output handle or input
/// handle; `TagPending`; `NoRoom`. A delivery that has ended is never refused. `OutOfMemory` may come before each of
/// these: of one that is sent, the copies of the tag and of the payload's handle are made first.
///
/// Its cost grows with the number of frames, and not with the number of pending deliveries.
pub fn resume_one<T: LinkTarget>(
    ledger: &mut OutcomeLedger<T>,
    tag: DeliveryTag,
    next: ResumingDelivery,
) -> Result<Step, Left>
    ensures done { IfOk result (DoesOf true tag next ledger.old ledger.new) }
    ensures back { IfErr result (λ left. (left.tag ≡ tag) × (left.next ≡ next)) }
    ensures refused { IfErr result (λ left. StopsStep left.refused (step_tests true tag next ledger.old.link)) }
    ensures passes { OnOk result (refusal (step_tests true tag next ledger.old.link) ≡ None) }
    ensures left { OnErr result (ledger.new ≡ ledger.old) }
{
    match next {
        ResumingDelivery::Resume { entry, rest } => resume(ledger, tag, entry, rest),
        ResumingDelivery::Resend(entry) => resend(ledger, tag, entry),
        ResumingDelivery::Abort {
            message_format,
            tag: own,
        } => abort(ledger, tag, message_format, own),
        ResumingDelivery::RestateOutcome {
            tag: own,
            payload,
            local_state,
            ..
        } => Ok(restated(tag, local_state, (own, payload))),
    }
}

// Sends a delivery again from what its peer has of it.
fn resume<T: LinkTarget>(
    ledger: &mut OutcomeLedger<T>,
    tag: DeliveryTag,
    entry: UnsettledMessage,
    rest: Payload,
) -> Result<Step, Left>
    ensures done { IfOk result (DoesOf true tag (ResumingDelivery.Resume entry rest) ledger.old ledger.new) }
    ensures back { IfErr result (λ left. (left.tag ≡ tag) × (left.next ≡ ResumingDelivery.Resume entry rest)) }
    ensures refused { IfErr result (λ left. StopsStep left.refused (step_tests true tag (ResumingDelivery.Resume entry rest) ledger.old.link)) }
    ensures passes { OnOk result (refusal (step_tests true tag (ResumingDelivery.Resume entry rest) ledger.old.link) ≡ None) }
    ensures left { OnErr result (ledger.new ≡ ledger.old) }
{
    match send_rest(ledger, &tag, entry, &rest) {
        Ok(frames) => {
            drop((tag, rest));
            Ok(Step::Sent(frames))
        }
        Err((refused, entry)) => Err(Left {
            refused,
            tag,
            next: ResumingDelivery::Resume { entry, rest },
        }),
    }
}

// Sends a delivery again of which its peer has nothing.
fn resend<T: LinkTarget>(
    ledger: &mut OutcomeLedger<T>,
    tag: DeliveryTag,
    entry: UnsettledMessage,
) -> Result<Step, Left>
    ensures done { IfOk result (DoesOf true tag (ResumingDelivery.Resend entry) ledger.old ledger.new) }
    ensures back { IfErr result (λ left. (left.tag ≡ tag) × (left.next ≡ ResumingDelivery.Resend entry)) }
    ensures refused { IfErr result (λ left. StopsStep left.refused (step_tests true tag (ResumingDelivery.Resend entry) ledger.old.link)) }
    ensures passes { OnOk result (refusal (step_tests true tag (ResumingDelivery.Resend entry) ledger.old.link) ≡ None) }
    ensures left { OnErr result (ledger.new ≡ ledger.old) }
{
    match send_again(ledger, &tag, entry) {
        Ok(frames) => {
            drop(tag);
            Ok(Step::Sent(frames))
        }
        Err((refused, entry)) => Err(Left {
            refused,
            tag,
            next: ResumingDelivery::Resend(entry),
        }),
    }
}

// Makes the transfer by which the peer forgets a delivery that was given up.
fn abort<T: LinkTarget>(
    ledger: &OutcomeLedger<T>,
    tag: DeliveryTag,
    message_format: MessageFormat,
    own: Option<DeliveryTag>,
) -> Result<Step, Left>
    ensures done { IfOk result (DoesOf true tag (ResumingDelivery.Abort message_format own) ledger.now ledger.now) }
    ensures back { IfErr result (λ left. (left.tag ≡ tag) × (left.next ≡ ResumingDelivery.Abort message_format own)) }
    ensures refused { IfErr result (λ left. StopsStep left.refused
        (step_tests true tag (ResumingDelivery.Abort message_format own) ledger.now.link)) }
    ensures passes { OnOk result (refusal (step_tests true tag (ResumingDelivery.Abort message_format own) ledger.now.link) ≡ None) }
{
    match ledger.link().send_abort(&tag, message_format) {
        Ok(frame) => {
            drop(own);
            Ok(Step::Aborted(frame, tag))
        }
        Err(refused) => Err(Left {
            refused,
            tag,
            next: ResumingDelivery::Abort {
                message_format,
                tag: own,
            },
        }),
    }
}

// A delivery has ended in a state that its sender knows; the rest of what is kept of it goes.
fn restated<X: Drop>(tag: DeliveryTag, state: DeliveryState, rest: X) -> Step
    ensures { result ≡ Step.Ended tag (Ok (Some state)) }
{
    drop(rest);
    Step::Ended(tag, Ok(Some(state)))
}

/// Keeps a listed delivery for the next attach, without sending anything (2.6.13): the entry of one that is to be sent is
/// registered again (`OutcomeLedger::put_back`), with the next number. One that is to be aborted has ended without
/// an outcome, and one whose outcome is to be stated again has ended with that; both leave the ledger unchanged.
///
/// Refused with nothing changed and the delivery returned: `TagPending`, of one that is to be sent. `OutOfMemory` may
/// come before it: a copy of the tag is made first. The other two are never refused, and do not allocate.
///
/// Its cost does not grow with the number of pending deliveries, but where room is made for one more, as a `Vec` makes it.
pub fn put_back_one<T: LinkTarget>(
    ledger: &mut OutcomeLedger<T>,
    tag: DeliveryTag,
    next: ResumingDelivery,
) -> Result<Step, Left>
    ensures done { IfOk result (DoesOf false tag next ledger.old ledger.new) }
    ensures back { IfErr result (λ left. (left.tag ≡ tag) × (left.next ≡ next)) }
    ensures refused { IfErr result (λ left. StopsStep left.refused (step_tests false tag next ledger.old.link)) }
    ensures passes { OnOk result (refusal (step_tests false tag next ledger.old.link) ≡ None) }
    ensures left { OnErr result (ledger.new ≡ ledger.old) }
{
    match next {
        ResumingDelivery::Resume { entry, rest } => put_back(ledger, tag, entry, Some(rest)),
        ResumingDelivery::Resend(entry) => put_back(ledger, tag, entry, None),
        ResumingDelivery::Abort { tag: own, .. } => {
            drop(own);
            Ok(Step::Ended(tag, Ok(None)))
        }
        ResumingDelivery::RestateOutcome {
            tag: own,
            payload,
            local_state,
            ..
        } => Ok(restated(tag, local_state, (own, payload))),
    }
}

// A delivery with this entry: resumed with this rest, or sent again without one.
fn left_of(entry: UnsettledMessage, rest: Option<Payload>) -> ResumingDelivery
    ensures { result ≡ left_as entry rest }
{
    match rest {
        Some(rest) => ResumingDelivery::Resume { entry, rest },
        None => ResumingDelivery::Resend(entry),
    }
}

// Registers the entry of a delivery again, without sending it.
fn put_back<T: LinkTarget>(
    ledger: &mut OutcomeLedger<T>,
    tag: DeliveryTag,
    entry: UnsettledMessage,
    rest: Option<Payload>,
) -> Result<Step, Left>
    ensures done { IfOk result (DoesOf false tag (left_as entry rest) ledger.old ledger.new) }
    ensures back { IfErr result (λ left. (left.tag ≡ tag) × (left.next ≡ left_as entry rest)) }
    ensures refused { IfErr result (λ left. StopsStep left.refused
        ((is_pending ledger.old.link tag, LinkStateError.TagPending) ∷ [])) }
    ensures passes { OnOk result (is_pending ledger.old.link tag ≡ false) }
    ensures left { OnErr result (ledger.new ≡ ledger.old) }
{
    let Ok(own) = tag.clone() else {
        return Err(Left {
            refused: LinkStateError::OutOfMemory,
            tag,
            next: left_of(entry, rest),
        });
    };
    match ledger.put_back(own, entry) {
        Ok(()) => {
            drop((tag, rest));
            Ok(Step::PutBack)
        }
        Err((refused, entry)) => Err(Left {
            refused,
            tag,
            next: left_of(entry, rest),
        }),
    }
}

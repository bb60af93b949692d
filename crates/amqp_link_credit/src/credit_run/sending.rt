//! The sender of a credit run sends a payload (2.7.5).
ghost use Rattle.std.specs.Prelude.{◌≡◌, IfOk, OnOk, OnErr};
ghost use Rattle.amqp_link_types.specs.Refusals.{AnswersThenOutOfMemory};
ghost use Rattle.amqp_link_split.specs.Fitting.{IsFitting};
ghost use Rattle.amqp_link_sender.specs.Senders.{IsSent};
ghost use Rattle.amqp_link_sender.specs.Senders;
ghost use Rattle.amqp_link_credit.specs.CreditCalls.{run_transfer, sender_after_send, sending_tests_at_sender};
ghost use Rattle.amqp_link_credit.specs.Endpoints.{IsReadyToSend, IsRefusal, tag_in, send_refusal_by};

use crate::error::CreditRunError;
use amqp_link_sender::sender_link::{SenderLink, Sending, Waiting};
use amqp_link_types::delivery::Settlement;
use amqp_link_types::frame::LinkFrame;
use amqp_link_types::types::{DeliveryTag, LinkStateError, Payload, Target};

// The tag of a delivery that was sent.
fn tag_of(settlement: Settlement) -> DeliveryTag
    ensures { result ≡ tag_in settlement }
{
    match settlement {
        Settlement::Unsettled(tag) => tag,
        Settlement::Settled(tag) => tag,
    }
}

// Why the sender refuses a payload.
fn refusal_of(error: LinkStateError) -> CreditRunError
    ensures { result ≡ send_refusal_by error }
{
    let refusal = match &error {
        LinkStateError::TagPending => CreditRunError::TagPending,
        _ => CreditRunError::OutOfMemory,
    };
    drop(error);
    refusal
}

// The sender sends a payload. Returns its tag and its frames.
pub(crate) fn send_on(
    sender: &mut SenderLink<Target>,
    payload: &Payload,
    settled: bool,
) -> Result<(DeliveryTag, Vec<LinkFrame>), CreditRunError>
    requires { IsReadyToSend sender.old }
    ensures tag { IfOk result (λ sent. sent.0 ≡ Senders.next_tag sender.old) }
    ensures framed { IfOk result (λ sent.
        IsSent sender.old (run_transfer settled (Senders.next_tag sender.old)) payload.now sent.1.items) }
    ensures fits { IfOk result (λ sent. IsFitting (run_transfer settled (Senders.next_tag sender.old))
        sender.old.max_frame_size payload.now sent.1.items) }
    ensures done { OnOk result (sender.new ≡ sender_after_send settled sender.old payload.now) }
    ensures refused { AnswersThenOutOfMemory CreditRunError.OutOfMemory result (sending_tests_at_sender sender.old settled) }
    ensures left { OnErr result (sender.new ≡ sender.old) }
{
    match sender.send_payload(Waiting::Nothing, payload, 0, Some(settled), None, false) {
        Ok(Sending::Sent { settlement, frames }) => Ok((tag_of(settlement), frames)),
        Ok(Sending::CreditMissing) => Err(CreditRunError::CreditMissing),
        Err(error) => Err(refusal_of(error)),
    }
}

// Why a send is refused if there is no memory for its frames: `OutOfMemory`, unless the sender refuses it.
pub(crate) fn refusal_without_room(
    sender: &SenderLink<Target>,
    payload: &Payload,
    settled: bool,
) -> CreditRunError
    requires { IsReadyToSend sender.now }
    ensures { IsRefusal result (sending_tests_at_sender sender.now settled) }
{
    match sender.can_send_payload(payload, 0, Some(settled), None, false) {
        Ok(true) => CreditRunError::OutOfMemory,
        Ok(false) => CreditRunError::CreditMissing,
        Err(error) => refusal_of(error),
    }
}

//! The receiver hands out a complete delivery (2.6.7, 2.6.12).
ghost use Rattle.std.specs.Prelude.{◌≡◌, ◌<◌, None, Some, IfOk, IfErr, IfSome, IsErrOf};
ghost use Rattle.amqp_link_types.specs.Entries.{entry_at};
ghost use Rattle.amqp_link_types.specs.Refusals.{AnswersOrOutOfMemory, refusal};
ghost use Rattle.amqp_link_core.specs.Held.{held_bytes};
ghost use Rattle.amqp_link_receiver.specs.Completing.{IsDelivery, spent};
ghost use Rattle.amqp_link_worlds.specs.Callable.{CanComplete};
ghost use Rattle.amqp_link_pair.specs.HandingOut.{refusal_by, held_in, handing_out_tests, credit_tests, IsGiven, IsGivenAt, IsNotGiven, LeftByKept, LeftByDeliveries};

use crate::deliveries::{Deliveries, Kept};
use amqp_link_core::incomplete_transfer::IncompleteTransfer;
use amqp_link_endpoint::endpoint::LinkExt;
use amqp_link_receiver::receiver_link::ReceiverLink;
use amqp_link_types::delivery::Delivery;
use amqp_link_types::types::{DeliveryTag, FromBody, ReceiverTransferError, Target};
use amqp_link_worlds::error::PairError;

// Why the receiver does not hand out a delivery that is held, and for which there is credit.
fn refusal_of(error: &ReceiverTransferError) -> PairError
    ensures { result ≡ refusal_by error.now }
{
    match error {
        ReceiverTransferError::MessageDecode(_) => PairError::Decode,
        _ => PairError::OutOfMemory,
    }
}

// Completes at the receiver the delivery that is held.
fn complete<B: FromBody>(
    receiver: &mut ReceiverLink<Target>,
    held: &IncompleteTransfer,
) -> Result<Delivery<B>, PairError>
    requires credit { 0 < receiver.old.flow_state.link_credit }
    requires can { CanComplete receiver.old held.now }
    ensures given { IfOk result (λ delivery. IsDelivery receiver.old held.now.performative
        (B.decoded (held_bytes held.now)) delivery × (receiver.new ≡ spent receiver.old)) }
    ensures refused { IfErr result (λ error. IsNotGiven (B.decoded (held_bytes held.now)) error
        receiver.old receiver.new) }
{
    let (number, offset) = held.position();
    match receiver.on_complete_transfer(held.performative(), held.pieces(), number, offset) {
        Ok(delivery) => Ok(delivery),
        Err(error) => {
            let refused = refusal_of(&error);
            drop(error);
            Err(refused)
        }
    }
}

impl Kept {
    // Hands the delivery out, if it is complete, was not handed out before, and there is credit.
    fn hand_out<B: FromBody>(
        &mut self,
        receiver: &mut ReceiverLink<Target>,
    ) -> Result<Delivery<B>, PairError>
        requires { IfSome self.old.progress.held (λ held. CanComplete receiver.old held) }
        ensures done { IfOk result (λ delivery.
            IsGiven B.decoded self.old receiver.old delivery self.new receiver.new) }
        ensures refused { AnswersOrOutOfMemory PairError.OutOfMemory result
            (handing_out_tests B.decoded (Some self.old) receiver.old) }
        ensures memory { IsErrOf result PairError.OutOfMemory
            → refusal (credit_tests (Some self.old) receiver.old) ≡ None }
        ensures left { IfErr result (λ error.
            LeftByKept error self.old receiver.old self.new receiver.new) }
    {
        let Some(held) = &self.progress.held else {
            return Err(PairError::UnknownTag);
        };
        if self.progress.withdrawn {
            return Err(PairError::UnknownTag);
        }
        if !self.progress.whole {
            return Err(PairError::NotWhole);
        }
        if self.progress.taken {
            return Err(PairError::AlreadyHandedOut);
        }
        if receiver.flow_state().link_credit() == 0 {
            return Err(PairError::TransferLimitExceeded);
        }
        let answer = complete(receiver, held);
        self.progress.taken = !matches!(&answer, Err(PairError::OutOfMemory));
        answer
    }
}

impl Deliveries {
    // Hands out the delivery of a tag.
    pub(crate) fn hand_out<B: FromBody>(
        &mut self,
        receiver: &mut ReceiverLink<Target>,
        tag: &DeliveryTag,
    ) -> Result<Delivery<B>, PairError>
        requires { IfSome (held_in (entry_at self.old tag.now)) (λ held. CanComplete receiver.old held) }
        ensures done { IfOk result (λ delivery.
            IsGivenAt B.decoded tag.now self.old receiver.old delivery self.new receiver.new) }
        ensures refused { AnswersOrOutOfMemory PairError.OutOfMemory result
            (handing_out_tests B.decoded (entry_at self.old tag.now) receiver.old) }
        ensures memory { IsErrOf result PairError.OutOfMemory
            → refusal (credit_tests (entry_at self.old tag.now) receiver.old) ≡ None }
        ensures left { IfErr result (λ error.
            LeftByDeliveries error tag.now self.old receiver.old self.new receiver.new) }
    {
        let Some(kept) = self.entries.get_mut(tag) else {
            return Err(PairError::UnknownTag);
        };
        kept.hand_out(receiver)
    }
}

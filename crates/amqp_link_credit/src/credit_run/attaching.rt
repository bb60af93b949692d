//! The endpoints of a credit run are attached (2.6.3).
ghost use Rattle.std.specs.Prelude.{◌≡◌, ◌≤◌, IfOk, IsErrOf};
ghost use Rattle.amqp_link_types.specs.Refusals.{AnswersOrOutOfMemory};
ghost use Rattle.amqp_link_worlds.specs.Steps.{new_sender, new_receiver, sender_together, receiver_together};
ghost use Rattle.amqp_link_credit.specs.CreditCalls.{new_tests};
ghost use Rattle.amqp_link_credit.specs.Endpoints.{attach_refusal_by};

use crate::error::CreditRunError;
use amqp_link_pair::{Pair, PairError};
use amqp_link_receiver::receiver_link::ReceiverLink;
use amqp_link_sender::sender_link::SenderLink;
use amqp_link_types::types::{SequenceNo, Target};
use std::alloc::Global;

// Why a new pair is not attached.
fn refusal_of(error: PairError) -> CreditRunError
    ensures { result ≡ attach_refusal_by error }
{
    match error {
        PairError::LimitTooSmall => CreditRunError::LimitTooSmall,
        _ => CreditRunError::OutOfMemory,
    }
}

// The endpoints of a pair that is attached at this limit.
pub(crate) fn attached_links(
    alloc: Global,
    count: SequenceNo,
    limit: u32,
) -> Result<(SenderLink<Target>, ReceiverLink<Target>), CreditRunError>
    ensures sender { IfOk result (λ links. links.0 ≡ sender_together limit (new_sender count)) }
    ensures receiver { IfOk result (λ links. links.1 ≡ receiver_together limit count (new_receiver count)) }
    ensures refused { AnswersOrOutOfMemory CreditRunError.OutOfMemory result (new_tests count limit) }
    ensures memory { IsErrOf result CreditRunError.OutOfMemory → 29 ≤ limit }
{
    // A new pair allocates before it tests its limit.
    if limit < 29 {
        return Err(CreditRunError::LimitTooSmall);
    }
    let Ok(mut pair) = Pair::new(alloc, count) else {
        return Err(CreditRunError::OutOfMemory);
    };
    match pair.attach(limit) {
        Ok(_) => Ok(pair.into_links()),
        Err(error) => {
            drop(pair);
            Err(refusal_of(error))
        }
    }
}

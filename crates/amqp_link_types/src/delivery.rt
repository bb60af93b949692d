//! Deliveries: what a sender keeps of an unsettled one, their outcomes, and what a receiver hands out
//! (2.6.12).
ghost use Rattle.std.specs.Prelude.{◌≡◌, true, Ok, Err, IfOk, OnErr};
ghost use Rattle.amqp_link_types.specs.Copies.{result_carries_more};

pub mod complete;
pub mod info;

use crate::types::{DeliveryState, DeliveryTag, LinkStateError, MessageFormat, Payload};
use amqp_link_values::copy::copy_of;
pub use complete::Delivery;
pub use info::DeliveryInfo;
use std::alloc::AllocError;

/// The outcome of a delivery: the peer's state, if it has stated one, or why there is none.
pub type DeliveryOutcome = Result<Option<DeliveryState>, LinkStateError>;

/// The deliveries that a call has resolved, with the outcome of each, in order.
pub type Outcomes = Vec<(DeliveryTag, DeliveryOutcome)>;

/// A copy of an outcome. Allocates only for an error or annotations.
pub fn copy_of_outcome(outcome: &DeliveryOutcome) -> Result<DeliveryOutcome, AllocError>
    ensures copy { IfOk result (λ copy. copy ≡ outcome.now) }
    ensures memory { OnErr result (result_carries_more outcome.now ≡ true) }
{
    match outcome {
        Ok(state) => Ok(Ok(copy_of(state)?)),
        Err(error) => Ok(Err(error.clone()?)),
    }
}

/// A delivery that was sent and is not settled (2.6.12).
#[derive(Debug, PartialEq, Eq, Drop)]
pub struct UnsettledMessage {
    /// The whole payload, even if only a part of it is still to be sent.
    pub payload: Payload,
    /// The state of the delivery, if one is known.
    pub state: Option<DeliveryState>,
    /// The format of the message.
    pub message_format: MessageFormat,
}

impl UnsettledMessage {
    /// A delivery with this payload, state and format. Does not allocate.
    pub fn new(
        payload: Payload,
        state: Option<DeliveryState>,
        message_format: MessageFormat,
    ) -> Self
        ensures { result ≡ record { payload = payload; state = state; message_format = message_format } }
    {
        UnsettledMessage {
            payload,
            state,
            message_format,
        }
    }

    /// The outcome of the delivery if it is settled with the state that is known, if any. Does not allocate.
    pub fn settle(self) -> DeliveryOutcome
        ensures { result ≡ Ok self.state }
    {
        Ok(self.state)
    }

    /// The outcome of the delivery if it is settled with this state, or with none, whatever state was known
    /// before. Does not allocate.
    pub fn settle_with_state(self, state: Option<DeliveryState>) -> DeliveryOutcome
        ensures { result ≡ Ok state }
    {
        drop(self);
        Ok(state)
    }

    /// The outcome of the delivery if it has failed for this reason. Does not allocate.
    pub fn fail(self, error: LinkStateError) -> DeliveryOutcome
        ensures { result ≡ Err error }
    {
        drop(self);
        Err(error)
    }
}

/// Whether a delivery that was sent still awaits its outcome.
#[derive(Debug, PartialEq, Eq, Drop)]
pub enum Settlement {
    /// It was sent settled: the sender keeps nothing of it.
    Settled(DeliveryTag),
    /// It is registered under this tag until it is settled.
    Unsettled(DeliveryTag),
}

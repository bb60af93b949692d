//! The outcome of a delivery, as a type of the application's own (2.6.12, 3.4).
//!
//! A delivery ended with a state of the peer's, without one, or for a reason why there will be none. An
//! application's type has a value for each; `SendResult` is one such type.
ghost use Rattle.std.specs.Prelude.{◌≡◌, Ok, Err, None, Some};
ghost use Rattle.amqp_link_types.specs.declared.types.delivery_state.DeliveryState.{DeliveryState as TheDeliveryState};
ghost use Rattle.amqp_link_types.specs.declared.types.errors.LinkStateError.{LinkStateError as TheLinkStateError};
ghost use Rattle.amqp_link_types.specs.declared.types.stop_reason.SessionStopReason.{SessionStopReason as TheSessionStopReason};

use amqp_link_types::delivery::DeliveryOutcome;
use amqp_link_types::types::{DeliveryState, LinkStateError, Outcome, SessionStopReason};
use thiserror::Error;

/// Why a delivery has no outcome.
#[derive(Debug, PartialEq, Eq, Drop, Error)]
pub enum SendError {
    /// The link has failed, or its state does not allow the call.
    #[error("the link has failed")]
    LinkStateError(LinkStateError),
    /// The delivery was settled without a state, by the peer's fault or choice: nothing more is known.
    #[error("the delivery was settled without a state")]
    IllegalDeliveryState,
    /// The delivery was settled with a state that is not terminal. The peer's fault (3.4).
    #[error("the delivery was settled with a state that is not terminal")]
    NonTerminalDeliveryState,
}

impl From<LinkStateError> for SendError {
    ghost use Rattle.amqp_link_delivery.specs.declared.outcome.SendError.TheVariants as error;

    ghost from_gives = { λ cause given. given ≡ error.LinkStateError cause };

    fn from(error: LinkStateError) -> SendError {
        SendError::LinkStateError(error)
    }
}

/// The outcome of a delivery, or why it has none.
pub type SendResult = Result<Outcome, SendError>;

/// The outcome of a delivery will never be returned: whoever was to return it is gone.
#[derive(Clone, Copy, Debug, PartialEq, Eq)]
pub struct RecvError;

/// A type with a value for a delivery that was sent settled (2.6.12).
pub trait FromPreSettled {
    // The value for it.
    ghost settled: { Self };

    /// The value for a delivery that was sent settled.
    fn from_settled() -> Self
        ensures { result ≡ settled };
}

/// A type with a value for each state with which a delivery can end (3.4).
pub trait FromDeliveryState {
    // The value for no state.
    ghost stateless: { Self };

    // The value for a state.
    ghost ended_as: { TheDeliveryState → Self };

    /// The value for a delivery that ended without a state.
    fn from_none() -> Self
        ensures { result ≡ stateless };

    /// The value for a delivery that ended with this state.
    fn from_delivery_state(state: DeliveryState) -> Self
        ensures { result ≡ ended_as state };
}

/// A type with a value for each reason why no state of a delivery will be known.
pub trait FromDeliveryFailure {
    // The value if nobody is left to return the outcome.
    ghost unreported: { Self };

    // The value if the session has stopped.
    ghost stopped: { TheSessionStopReason → Self };

    // The value if the link has failed.
    ghost failed: { TheLinkStateError → Self };

    /// The value for a delivery whose outcome nobody is left to return.
    fn from_oneshot_recv_error(error: RecvError) -> Self
        ensures { result ≡ unreported };

    /// The value for a delivery whose session has stopped.
    fn from_session_stop_reason(reason: SessionStopReason) -> Self
        ensures { result ≡ stopped reason };

    /// The value for a delivery whose link has failed.
    fn from_link_state_error(error: LinkStateError) -> Self
        ensures { result ≡ failed error };
}

impl FromPreSettled for SendResult {
    ghost use Rattle.std.specs.Prelude.{Ok};
    ghost use Rattle.amqp_link_types.specs.declared.types.delivery_state.Outcome.TheVariants as outcome;

    ghost settled = { Ok outcome.Accepted };

    fn from_settled() -> SendResult {
        Ok(Outcome::Accepted)
    }
}

impl FromDeliveryState for SendResult {
    ghost use Rattle.std.specs.Prelude.{Err};
    ghost use Rattle.amqp_link_delivery.specs.declared.outcome.SendError.TheVariants as error;
    ghost use Rattle.amqp_link_delivery.specs.SendResults.{result_of_state};

    ghost stateless = { Err error.IllegalDeliveryState };

    ghost ended_as = { result_of_state };

    fn from_none() -> SendResult {
        Err(SendError::IllegalDeliveryState)
    }

    fn from_delivery_state(state: DeliveryState) -> SendResult {
        match state {
            DeliveryState::Accepted => Ok(Outcome::Accepted),
            DeliveryState::Rejected { error } => Ok(Outcome::Rejected { error }),
            DeliveryState::Released => Ok(Outcome::Released),
            DeliveryState::Modified {
                delivery_failed,
                undeliverable_here,
                message_annotations,
            } => Ok(Outcome::Modified {
                delivery_failed,
                undeliverable_here,
                message_annotations,
            }),
            DeliveryState::Received { .. } => Err(SendError::NonTerminalDeliveryState),
        }
    }
}

impl FromDeliveryFailure for SendResult {
    ghost use Rattle.std.specs.Prelude.{Err};
    ghost use Rattle.amqp_link_delivery.specs.declared.outcome.SendError.TheVariants as error;
    ghost use Rattle.amqp_link_types.specs.declared.types.errors.LinkStateError.TheVariants as failure;

    ghost unreported = { Err (error.LinkStateError failure.IllegalState) };

    ghost stopped = { λ reason. Err (error.LinkStateError (failure.SessionStopped reason)) };

    ghost failed = { λ cause. Err (error.LinkStateError cause) };

    fn from_oneshot_recv_error(_error: RecvError) -> SendResult {
        Err(SendError::LinkStateError(LinkStateError::IllegalState))
    }

    fn from_session_stop_reason(reason: SessionStopReason) -> SendResult {
        Err(SendError::LinkStateError(LinkStateError::SessionStopped(reason)))
    }

    fn from_link_state_error(error: LinkStateError) -> SendResult {
        Err(SendError::LinkStateError(error))
    }
}

/// The application's value for an outcome that a call of a sender or of a ledger has returned.
pub fn outcome_of<O: FromDeliveryState + FromDeliveryFailure>(outcome: DeliveryOutcome) -> O
    ensures state { (state : TheDeliveryState) → outcome ≡ Ok (Some state) → result ≡ O.ended_as state }
    ensures none { outcome ≡ Ok None → result ≡ O.stateless }
    ensures failed { (error : TheLinkStateError) → outcome ≡ Err error → result ≡ O.failed error }
{
    match outcome {
        Ok(state) => match state {
            Some(state) => O::from_delivery_state(state),
            None => O::from_none(),
        },
        Err(error) => O::from_link_state_error(error),
    }
}

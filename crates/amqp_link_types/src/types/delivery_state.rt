//! The state of a delivery (3.4).
ghost use Rattle.std.specs.Prelude.{◌≡◌, true, false, IfOk, OnErr};
ghost use Rattle.std.specs.Option.{option_map_or};
ghost use Rattle.amqp_link_types.specs.Copies.{outcome_carries_more};
ghost use Rattle.amqp_link_types.specs.DeliveryStates.{is_terminal, carries_more, state_of};

use crate::types::definitions::Error;
use amqp_link_values::boxed::Boxed;
use amqp_link_values::copy::copy_of;
use amqp_link_values::fields::Fields;
use std::alloc::AllocError;

/// The state of a delivery at one endpoint (3.4).
///
/// All but `Received` are terminal: once a delivery has such a state, it keeps it.
#[derive(Debug, PartialEq, Eq, Drop)]
pub enum DeliveryState {
    /// The receiver accepted it (3.4.2).
    Accepted,
    /// The receiver found it invalid (3.4.3).
    Rejected {
        /// Why.
        error: Option<Boxed<Error>>,
    },
    /// The receiver returned it unchanged (3.4.4).
    Released,
    /// The receiver returned it changed (3.4.5).
    Modified {
        /// Whether the delivery counts as failed.
        delivery_failed: Option<bool>,
        /// Whether it is not to be sent on this link again.
        undeliverable_here: Option<bool>,
        /// What is to be added to the message's annotations.
        message_annotations: Option<Boxed<Fields>>,
    },
    /// A front of it arrived (3.4.1): the bytes up to this position.
    Received {
        /// The number of the section in which the front ends, counted from 0.
        section_number: u32,
        /// The bytes of the front since that section's start.
        section_offset: u64,
    },
}

/// How a delivery ended: one of the terminal states (3.4).
#[derive(Debug, PartialEq, Eq, Drop)]
pub enum Outcome {
    /// The receiver accepted it (3.4.2).
    Accepted,
    /// The receiver found it invalid (3.4.3).
    Rejected {
        /// Why.
        error: Option<Boxed<Error>>,
    },
    /// The receiver returned it unchanged (3.4.4).
    Released,
    /// The receiver returned it changed (3.4.5).
    Modified {
        /// Whether the delivery counts as failed.
        delivery_failed: Option<bool>,
        /// Whether it is not to be sent on this link again.
        undeliverable_here: Option<bool>,
        /// What is to be added to the message's annotations.
        message_annotations: Option<Boxed<Fields>>,
    },
}

impl DeliveryState {
    /// Whether the state is one that never changes again.
    pub fn is_terminal(&self) -> bool
        ensures { result ≡ is_terminal self.now }
    {
        !matches!(self, DeliveryState::Received { .. })
    }
}

/// Whether there is a terminal state. A delivery without a known state has not ended.
pub fn has_ended(state: &Option<DeliveryState>) -> bool
    ensures { result ≡ option_map_or is_terminal state.now false }
{
    match state {
        Some(state) => state.is_terminal(),
        None => false,
    }
}

impl From<Outcome> for DeliveryState {
    ghost from_gives = { λ outcome state. state ≡ state_of outcome };

    fn from(outcome: Outcome) -> DeliveryState {
        match outcome {
            Outcome::Accepted => DeliveryState::Accepted,
            Outcome::Rejected { error } => DeliveryState::Rejected { error },
            Outcome::Released => DeliveryState::Released,
            Outcome::Modified {
                delivery_failed,
                undeliverable_here,
                message_annotations,
            } => DeliveryState::Modified {
                delivery_failed,
                undeliverable_here,
                message_annotations,
            },
        }
    }
}

impl Clone for DeliveryState {
    ghost is_clone = { λ state copy. copy ≡ state };

    ghost is_infallible = { λ state. carries_more state ≡ false };

    // Only an error or annotations allocate.
    fn clone(&self) -> Result<DeliveryState, AllocError>
        ensures copy { IfOk result (λ copy. copy ≡ self.now) }
        ensures memory { OnErr result (carries_more self.now ≡ true) }
    {
        let copy = match self {
            DeliveryState::Accepted => DeliveryState::Accepted,
            DeliveryState::Rejected { error } => DeliveryState::Rejected {
                error: copy_of(error)?,
            },
            DeliveryState::Released => DeliveryState::Released,
            DeliveryState::Modified {
                delivery_failed,
                undeliverable_here,
                message_annotations,
            } => DeliveryState::Modified {
                delivery_failed: *delivery_failed,
                undeliverable_here: *undeliverable_here,
                message_annotations: copy_of(message_annotations)?,
            },
            DeliveryState::Received {
                section_number,
                section_offset,
            } => DeliveryState::Received {
                section_number: *section_number,
                section_offset: *section_offset,
            },
        };
        Ok(copy)
    }
}

impl Clone for Outcome {
    ghost is_clone = { λ outcome copy. copy ≡ outcome };

    ghost is_infallible = { λ outcome. outcome_carries_more outcome ≡ false };

    fn clone(&self) -> Result<Outcome, AllocError>
        ensures copy { IfOk result (λ copy. copy ≡ self.now) }
        ensures memory { OnErr result (outcome_carries_more self.now ≡ true) }
    {
        let copy = match self {
            Outcome::Accepted => Outcome::Accepted,
            Outcome::Rejected { error } => Outcome::Rejected {
                error: copy_of(error)?,
            },
            Outcome::Released => Outcome::Released,
            Outcome::Modified {
                delivery_failed,
                undeliverable_here,
                message_annotations,
            } => Outcome::Modified {
                delivery_failed: *delivery_failed,
                undeliverable_here: *undeliverable_here,
                message_annotations: copy_of(message_annotations)?,
            },
        };
        Ok(copy)
    }
}

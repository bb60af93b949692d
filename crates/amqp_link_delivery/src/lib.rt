//! What an application sends, and the type that it gets for the outcome of a delivery (OASIS AMQP 1.0 core,
//! 2.6.12 and 3.4).
#![tactic(auto)]

pub mod outcome;
pub mod sendable;

pub use outcome::{
    FromDeliveryFailure, FromDeliveryState, FromPreSettled, RecvError, SendError, SendResult,
    outcome_of,
};
pub use sendable::{Builder, Sendable, Uninitialized};

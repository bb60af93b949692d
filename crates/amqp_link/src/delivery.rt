//! What an application sends and receives, and the outcome of a delivery.

pub use amqp_link_delivery::{
    Builder, FromDeliveryFailure, FromDeliveryState, FromPreSettled, RecvError, SendError,
    SendResult, Sendable, Uninitialized, outcome_of,
};
pub use amqp_link_types::delivery::{
    Delivery, DeliveryInfo, DeliveryOutcome, Outcomes, Settlement, UnsettledMessage,
    copy_of_outcome,
};

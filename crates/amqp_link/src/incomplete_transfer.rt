//! A delivery whose last transfer has not arrived.

pub use amqp_link_core::incomplete_transfer::{IncompleteTransfer, RefusedTransfer};

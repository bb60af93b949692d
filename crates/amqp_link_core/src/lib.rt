//! Deliveries of which not all transfers have arrived, and how an unsettled delivery is resolved when its link is
//! attached again (OASIS AMQP 1.0 core, 2.6.13 and 2.7.5).
#![tactic(auto)]

pub mod incomplete_transfer;
pub mod laws;
pub mod position_carry;
pub mod resumption;

pub use incomplete_transfer::IncompleteTransfer;

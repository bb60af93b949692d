//! The exchange of unsettled maps when a link is attached again (OASIS AMQP 1.0 core, 2.6.13).
//!
//! A sender resolves each delivery of its map by the receiver's report of it, in two halves: a plan, which
//! decides and allocates and leaves the map as it is, and the exchange itself, which moves the entries out of
//! the map and does not allocate. The link makes all its tests before the second half, and a caller that
//! keeps records of outcomes copies them between the two.
#![tactic(auto)]

pub mod laws;
pub mod planning;
pub mod resuming;

pub use planning::{ExchangePlan, exchange, plan_exchange};
pub use resuming::ResumingDeliveries;

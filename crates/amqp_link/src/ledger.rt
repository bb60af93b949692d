//! A sender that records what became of each delivery.

pub use amqp_link_ledger::fate::{Fate, StillPending};
pub use amqp_link_ledger::ledger::OutcomeLedger;

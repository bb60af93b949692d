//! The dispositions that a link endpoint sends and takes, the outcomes that they resolve, and the unsettled
//! map afterwards (OASIS AMQP 1.0 core, 2.6.12 and 2.7.6).
//!
//! Both endpoints stand on this crate. It knows their unsettled maps, and no link.
#![tactic(auto)]

mod changes;
pub mod closing;
pub mod groups;
pub mod laws;
mod listed;
pub mod receiver;
pub mod sender;

//! The state of a link endpoint of AMQP 1.0 (OASIS AMQP 1.0 core, 2.6.3 to 2.6.7): its link state, its
//! delivery-count and its link-credit, and the flows that carry them.
#![tactic(auto)]

pub mod laws;
pub mod role;
pub mod state;

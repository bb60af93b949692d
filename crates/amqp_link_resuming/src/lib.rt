//! What a sender's user does with each delivery that an exchange of unsettled maps lists (OASIS AMQP 1.0 core, 2.6.13).
//!
//! A listed delivery is not in the sender's unsettled map. It is sent again, aborted, ended, or put back, and no
//! delivery is left out: of one that is neither sent nor put back the next attach states nothing.
//!
//! - `sending`: the rest of a delivery is sent, or the whole of it.
//! - `steps`: what is done of one listed delivery.
//! - `listed`: the same of the first of a list, call by call.
#![tactic(auto)]

pub mod listed;
pub mod sending;
pub mod steps;

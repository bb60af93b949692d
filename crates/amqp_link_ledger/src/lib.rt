//! What became of each delivery that a sender has registered (OASIS AMQP 1.0 core, 2.6.12 and 2.6.13).
//!
//! A registration keeps its number, and its fate changes once.
#![tactic(auto)]

pub mod fate;
pub mod laws;
pub mod ledger;
mod numbers;
mod records;
pub mod registrations;

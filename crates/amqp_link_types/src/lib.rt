//! The types of the link layer of AMQP 1.0 (OASIS AMQP 1.0 core, 1.6, 2.6.13, 2.7, 2.8, 3.4 and 3.5), and
//! what follows from each type by itself: lengths, frames, unsettled deliveries.
#![tactic(auto)]

pub mod delivery;
pub mod frame;
pub mod size;
pub mod types;
